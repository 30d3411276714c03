//! The thread that reads the connection.
ghost use Rattle.std.specs.Prelude.{◌≤◌, IfOk};

use crate::fault::ShellFault;
use crate::options::Options;
use crate::refused::Refused;
use crate::session::{Exit, Session, Taken};
use crate::typing::Typing;
use jsp_forms::MOST_BYTES;
use jsp_frame::{Cut, Unframer};
use std::alloc::AllocError;
use std::io::{ErrorKind, Read, Stderr, Stdout};
use std::net::{Net, TcpStream};
use std::sync::{Arc, Wait};

/// The most bytes that one read asks for.
const PIECE: usize = 8192;

/// Reads what a server says, and prints it.
#[derive(Drop)]
pub struct Client {
    session: Arc<Session>,
}

impl Client {
    /// Connects to a server. What it says is printed on `out`, and what is refused told on `faults`
    /// too.
    pub fn connect<R: AllocGlobal + Net<Stream = TcpStream>>(
        rt: &R,
        address: &str,
        options: Options,
        out: Stdout,
        faults: Stderr,
    ) -> Result<Client, ShellFault> {
        let session = Session::open(rt, address, options, out, faults)?;
        match Arc::new(rt.alloc(), session) {
            Ok(session) => Ok(Client { session }),
            Err(_) => Err(ShellFault::NoMemory),
        }
    }

    /// What reads the input, in a thread of its own.
    pub fn typing(&self) -> Result<Typing, AllocError> {
        Ok(Typing {
            session: Arc::try_clone(&self.session)?,
        })
    }

    /// Asks one thing, and nothing after it. What is watched goes on being told.
    pub fn ask<R: Wait>(&self, rt: &R, line: &str) -> Result<(), ShellFault> {
        match self.session.take_line(rt, 1, line.as_bytes())? {
            Taken::Asked(frame) | Taken::Left(Exit::Bye(frame)) => {
                self.session.send(frame.as_slice());
            }
            Taken::Done | Taken::Left(Exit::Quit) => {}
        }
        self.session.end_request(rt)
    }

    /// Prints what the server says until the session is left, and answers whether anything was
    /// refused.
    pub fn run<R: Wait>(self, rt: &R) -> Result<Refused, ShellFault> {
        match self.read_all(rt) {
            Ok(()) => self.session.close(rt),
            Err(fault) => Err(self.session.why(rt, fault)),
        }
    }

    fn read_all<R: Wait>(&self, rt: &R) -> Result<(), ShellFault> {
        let mut unframer = Unframer::new(self.session.alloc, MOST_BYTES as u32);
        let mut piece = [0; PIECE];
        for _ in rt.forever() {
            match unframer.next()? {
                Cut::Frame(payload) => {
                    if !self.session.take_answer(rt, payload.as_slice())? {
                        break;
                    }
                }
                Cut::TooLong => return Err(ShellFault::TooLong),
                Cut::More => {
                    let read = self.read(&mut piece)?;
                    unframer.feed(&piece[..read])?;
                }
            }
        }
        Ok(())
    }

    /// One read of the connection, of 0 bytes where it was interrupted.
    fn read(&self, piece: &mut [u8; PIECE]) -> Result<usize, ShellFault>
        ensures { IfOk result (λ read. read ≤ 8192) }
    {
        let mut stream = &self.session.stream;
        match stream.read(piece) {
            Ok(0) => Err(ShellFault::Ended),
            Ok(read) => Ok(read),
            Err(error) if error.kind() == ErrorKind::Interrupted => Ok(0),
            Err(error) => Err(ShellFault::Broken(error)),
        }
    }
}
