//! A connection and what its two threads share.
use crate::fault::{NotSent, ShellFault};
use crate::options::Options;
use crate::refused::Refused;
use crate::session_state::{SessionState, Turn};
use jsp_forms::{Line, Purpose, Request, read_line};
use jsp_frame::frame;
use std::alloc::Global;
use std::io::{Stderr, Stdout, Write};
use std::net::{Net, Shutdown, TcpStream};
use std::sync::{Condvar, Mutex, Wait};

const HELLO: &[u8] = b"{\"id\":0,\"op\":\"hello\",\"version\":2}";

const BYE: &[u8] = b"{\"id\":0,\"op\":\"bye\"}";

/// How a line of the input leaves the session.
#[derive(Drop)]
pub(crate) enum Exit {
    /// At once, by this frame, a `bye`.
    Bye(Vec<u8>),
    /// Once all is answered, as at the end of the input.
    Quit,
}

impl Exit {
    /// The line's word.
    pub(crate) fn word(&self) -> &'static str {
        match self {
            Exit::Bye(_) => "bye",
            Exit::Quit => "quit",
        }
    }
}

/// What a line of the input comes to.
#[derive(Drop)]
pub(crate) enum Taken {
    /// It was answered without the server, or refused.
    Done,
    /// This frame is to be sent.
    Asked(Vec<u8>),
    /// The session is to be left. Nothing is asked behind it.
    Left(Exit),
}

/// A connection and what its two threads share.
///
/// The lock isn't held while a frame is sent: a server that waits until its answers are read may
/// take no more. The thread that reads the connection sends only where the other doesn't: it is
/// held up, or has ended.
#[derive(Drop)]
pub(crate) struct Session {
    pub(crate) alloc: Global,
    pub(crate) stream: TcpStream,
    state: Mutex<SessionState>,
    /// Notified at each answer.
    answered: Condvar,
}

impl Session {
    /// Connects, and asks for version 2 of the protocol.
    pub(crate) fn open<R: AllocGlobal + Net<Stream = TcpStream>>(
        rt: &R,
        address: &str,
        options: Options,
        out: Stdout,
        faults: Stderr,
    ) -> Result<Session, ShellFault> {
        let alloc = rt.alloc();
        let stream = match TcpStream::connect(rt, address) {
            Ok(stream) => stream,
            Err(error) => return Err(ShellFault::Connect(error)),
        };
        // A request goes out at once where that can be had.
        let _ = stream.set_nodelay(true);
        let session = Session {
            alloc,
            stream,
            state: Mutex::new(SessionState::new(alloc, options, out, faults)?),
            answered: Condvar::new(),
        };
        session.send(frame(alloc, HELLO)?.as_slice());
        Ok(session)
    }

    /// Sends a frame. Where it can't be sent the connection is ended, which its reader sees.
    pub(crate) fn send(&self, frame: &[u8]) {
        let mut stream = &self.stream;
        if stream.write_all(frame).is_err() {
            let _ = self.stream.shutdown(Shutdown::Both);
        }
    }

    /// Does what a line of the input asks, but for sending: that is left to the caller.
    pub(crate) fn take_line<R: Wait>(
        &self,
        rt: &R,
        number: u64,
        line: &[u8],
    ) -> Result<Taken, ShellFault> {
        let taken = match read_line(self.alloc, line) {
            Ok(Line::Nothing) => Taken::Done,
            Ok(Line::Help(text)) => {
                self.state.lock(rt).show(text.as_str())?;
                Taken::Done
            }
            Ok(Line::Request(request)) => self.take_request(rt, number, request)?,
            Err(fault) => {
                self.refuse(rt, number, NotSent::NotUnderstood(fault))?;
                Taken::Done
            }
        };
        Ok(taken)
    }

    fn take_request<R: Wait>(
        &self,
        rt: &R,
        number: u64,
        request: Request,
    ) -> Result<Taken, ShellFault> {
        let purpose = request.purpose();
        if purpose == Purpose::Quit {
            return Ok(Taken::Left(Exit::Quit));
        }
        let asked = self.state.lock(rt).ask(number, request);
        match asked {
            Ok(frame) if purpose == Purpose::Bye => Ok(Taken::Left(Exit::Bye(frame))),
            Ok(frame) => Ok(Taken::Asked(frame)),
            Err(fault) => {
                self.refuse(rt, number, fault)?;
                Ok(Taken::Done)
            }
        }
    }

    /// Sends the frame of a line, and waits for its answer where the next line is to.
    pub(crate) fn send_asked<R: Wait>(&self, rt: &R, frame: &[u8]) {
        self.send(frame);
        let _ = self
            .answered
            .wait_while(rt, self.state.lock(rt), |state| state.is_held_up());
    }

    /// A line was typed to its end.
    pub(crate) fn end_typed<R: Wait>(&self, rt: &R) {
        self.state.lock(rt).end_typed();
    }

    /// Shows a prompt behind a line that was done.
    pub(crate) fn prompt<R: Wait>(&self, rt: &R) -> Result<(), ShellFault> {
        self.state.lock(rt).prompt()
    }

    /// Tells why nothing is sent for a line.
    pub(crate) fn refuse<R: Wait>(
        &self,
        rt: &R,
        number: u64,
        fault: NotSent,
    ) -> Result<(), ShellFault> {
        self.state.lock(rt).refuse(number, fault)
    }

    /// Tells that nothing is sent for a line behind one that leaves the session, and answers
    /// whether more may be told.
    pub(crate) fn refuse_left<R: Wait>(
        &self,
        rt: &R,
        number: u64,
        left_by: &'static str,
    ) -> Result<bool, ShellFault> {
        self.state.lock(rt).refuse_left(number, left_by)
    }

    /// The input has ended: once all is answered the session is left.
    pub(crate) fn end_input<R: Wait>(&self, rt: &R) -> Result<(), ShellFault> {
        let turn = self.state.lock(rt).end_input()?;
        self.take_turn(turn)?;
        Ok(())
    }

    /// The one request was asked: once it is answered the session is left, unless it is a watch.
    pub(crate) fn end_request<R: Wait>(&self, rt: &R) -> Result<(), ShellFault> {
        let turn = self.state.lock(rt).end_request()?;
        self.take_turn(turn)?;
        Ok(())
    }

    /// Prints what the server says, and answers whether more is to come.
    pub(crate) fn take_answer<R: Wait>(&self, rt: &R, payload: &[u8]) -> Result<bool, ShellFault> {
        let turn = self.state.lock(rt).answer(payload)?;
        self.answered.notify_one();
        self.take_turn(turn)
    }

    /// Sends what it is time for, and answers whether more is to come.
    fn take_turn(&self, turn: Turn) -> Result<bool, ShellFault> {
        match turn {
            Turn::Wait => {}
            Turn::Send(frame) => self.send(frame.as_slice()),
            Turn::Leave => self.send(frame(self.alloc, BYE)?.as_slice()),
            Turn::End => return Ok(false),
        }
        Ok(true)
    }

    /// The input can't be read to its end: the connection is ended, which its reader sees.
    pub(crate) fn fail<R: Wait>(&self, rt: &R, fault: ShellFault) {
        self.state.lock(rt).fail(fault);
        let _ = self.stream.shutdown(Shutdown::Both);
    }

    /// Why the session ended early, where this was met.
    pub(crate) fn why<R: Wait>(&self, rt: &R, met: ShellFault) -> ShellFault {
        self.state.lock(rt).why(met)
    }

    /// Whether anything was refused, at the end.
    pub(crate) fn close<R: Wait>(&self, rt: &R) -> Result<Refused, ShellFault> {
        self.state.lock(rt).close()
    }
}
