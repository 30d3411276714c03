//! A connection that looks at the status: what it asks and is answered, each as far as it goes
//! without waiting.
use jsp_status::{Status, answer_so_far};
use std::alloc::Global;
use std::hash::RandomState;
use std::io::{self, ErrorKind, Read, Write};
use std::net::TcpStream;
use std::random::RandomSource;
use std::time::{Clock, Duration, Instant};

/// For how long, in milliseconds, a connection may ask and be answered, both together.
const PATIENCE: u64 = 250;

/// The most bytes that one read asks for, and how many reads or writes one look makes.
const PIECE: usize = 4096;

const CALLS: u32 = 8;

/// The most bytes that a connection may say unanswered. A head that is too long for a request is
/// shorter.
const MOST_SAID: usize = 32 * 1024;

/// A connection that looks at the status. Neither a read nor a write of it waits.
#[derive(Drop)]
pub(crate) struct Visit {
    stream: TcpStream,
    /// When it came, if that can be told.
    since: Option<Instant>,
    /// What it has said so far, and whether that is all.
    said: Vec<u8>,
    is_all: bool,
    /// What is left to be written of its answer, if it has one.
    answer: Option<Vec<u8>>,
    /// Whether it is to be closed: it was answered, broke off, or took too long.
    is_over: bool,
}

impl Visit {
    /// A connection that has just come.
    pub(crate) fn new<T: Clock>(rt: &T, alloc: Global, stream: TcpStream) -> io::Result<Visit> {
        stream.set_nonblocking(true)?;
        Ok(Visit {
            stream,
            since: Instant::now(rt).ok(),
            said: Vec::new(alloc),
            is_all: false,
            answer: None,
            is_over: false,
        })
    }

    pub(crate) fn is_over(&self) -> bool {
        self.is_over
    }

    /// Has it closed without an answer.
    pub(crate) fn give_up(&mut self) {
        self.is_over = true;
    }

    /// Reads what has come, and says whether anything has that is to be answered.
    pub(crate) fn listen(&mut self) -> bool {
        if self.is_over || self.is_all || self.answer.is_some() {
            return false;
        }
        let before = self.said.len();
        for _ in 0..CALLS {
            match self.read_piece() {
                Ok(0) => {
                    self.is_all = true;
                    break;
                }
                Ok(_) => {}
                Err(error) if has_to_wait(&error) => break,
                Err(_) => {
                    self.is_over = true;
                    return false;
                }
            }
        }
        self.is_all || self.said.len() != before
    }

    fn read_piece(&mut self) -> io::Result<usize> {
        let mut piece = [0; PIECE];
        let mut stream = &self.stream;
        let count = stream.read(&mut piece)?;
        self.said.extend_from_slice(&piece[..count])?;
        Ok(count)
    }

    /// Answers what it has said so far with the status, unless more is to come first.
    pub(crate) fn answer<T: RandomSource>(&mut self, rt: &T, alloc: Global, status: &Status) {
        match self.find_answer(rt, alloc, status) {
            Ok(answer) => self.answer = answer,
            Err(_) => self.is_over = true,
        }
        if self.answer.is_none() && self.said.len() > MOST_SAID {
            self.is_over = true;
        }
    }

    fn find_answer<T: RandomSource>(
        &self,
        rt: &T,
        alloc: Global,
        status: &Status,
    ) -> io::Result<Option<Vec<u8>>> {
        let keys = RandomState::new(rt)?;
        answer_so_far(alloc, keys, status, self.said.as_slice(), self.is_all)
    }

    /// Writes of its answer what is taken, if it has one, and ends it where that is done or its
    /// time is over.
    pub(crate) fn go_on<T: Clock>(&mut self, rt: &T) {
        if let Some(rest) = &mut self.answer {
            match write_some(&self.stream, rest) {
                Ok(()) if !rest.is_empty() => {}
                _ => self.is_over = true,
            }
        }
        if !self.has_time(rt) {
            self.is_over = true;
        }
    }

    fn has_time<T: Clock>(&self, rt: &T) -> bool {
        match self.since.map(|since| since.elapsed(rt)) {
            Some(Ok(time)) => time < Duration::from_millis(PATIENCE),
            _ => false,
        }
    }
}

/// Writes of the bytes what is taken, and leaves the rest.
fn write_some(stream: &TcpStream, rest: &mut Vec<u8>) -> io::Result<()> {
    let mut stream = stream;
    for _ in 0..CALLS {
        if rest.is_empty() {
            break;
        }
        match stream.write(rest.as_slice()) {
            Ok(0) => return Err(ErrorKind::WriteZero.into()),
            Ok(count) => {
                rest.drain(..count);
            }
            Err(error) if has_to_wait(&error) => break,
            Err(error) => return Err(error),
        }
    }
    Ok(())
}

/// Whether a call that failed is to be made again later.
fn has_to_wait(error: &io::Error) -> bool {
    matches!(error.kind(), ErrorKind::WouldBlock | ErrorKind::Interrupted)
}
