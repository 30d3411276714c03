//! Lines in memory: what each sends and is to be sent, and how its reader and writer fail.
use crate::watch::{Answer, Watch};
use jsp_floor::{Arrival, Door, Hangup, LineEnd};
use std::alloc::Global;
use std::io::{self, ErrorKind, Read, Write};
use std::sync::Wait;
use std::sync::atomic::AtomicU64;
use std::test::Fail;
use std::time;

// How a line's reader and writer fail.
#[derive(Clone, Copy)]
pub(crate) struct Wire {
    // After how many reads one fails.
    pub(crate) reads: usize,
    // After how many bytes a write fails, and how many a write takes at most.
    pub(crate) room: usize,
    pub(crate) piece: usize,
    // Whether a write that fails says that it took nothing.
    pub(crate) is_silent: bool,
}

pub(crate) const SOUND: Wire = Wire {
    reads: 1000,
    room: 1000,
    piece: 1000,
    is_silent: false,
};

// Gives a frame at each read.
#[derive(Drop)]
pub(crate) struct Incoming<'w, 'a, T> {
    pub(crate) watch: &'w Watch<'a, T>,
    pub(crate) frames: Vec<Vec<u8>>,
    pub(crate) next: usize,
    pub(crate) wire: Wire,
    // What the first read waits for, and the one at the end.
    pub(crate) first: Option<Answer>,
    pub(crate) last: Option<Answer>,
}

impl<T: time::Clock> Read for Incoming<'_, '_, T> {
    fn read(&mut self, buf: &mut [u8]) -> io::Result<usize> {
        self.watch.wait_for(self.first.take());
        if self.next == self.wire.reads {
            return Err(io::Error::from(ErrorKind::BrokenPipe));
        }
        let Some(frame) = self.frames.get(self.next) else {
            self.watch.wait_for(self.last);
            return Ok(0);
        };
        self.next += 1;
        frame.as_slice().read(buf)
    }
}

// Takes so many bytes, and then breaks.
#[derive(Drop)]
pub(crate) struct Outgoing<'w, 'a, T> {
    pub(crate) watch: &'w Watch<'a, T>,
    pub(crate) session: u64,
    pub(crate) wire: Wire,
    // What the first write waits for.
    pub(crate) first: Option<Answer>,
}

impl<T: time::Clock + Wait> Write for Outgoing<'_, '_, T> {
    fn write(&mut self, buf: &[u8]) -> io::Result<usize> {
        self.watch.wait_for(self.first.take());
        let taken = buf.len().min(self.wire.room).min(self.wire.piece);
        if taken == 0 {
            return if self.wire.is_silent {
                Ok(0)
            } else {
                Err(io::Error::from(ErrorKind::BrokenPipe))
            };
        }
        if let Some(line) = self.watch.line(self.session) {
            line.written
                .lock(self.watch.rt)
                .extend_from_slice(&buf[..taken])?;
        }
        self.wire.room -= taken;
        Ok(taken)
    }

    fn flush(&mut self) -> io::Result<()> {
        Ok(())
    }
}

// Lines that come one after another, the last one first.
#[derive(Drop)]
pub(crate) struct Lines<'w, 'a, T> {
    pub(crate) left: Vec<(Incoming<'w, 'a, T>, Outgoing<'w, 'a, T>)>,
}

// What a line in memory has no need of.
#[derive(Drop)]
pub(crate) struct Connected {
    pub(crate) requests: AtomicU64,
}

impl Hangup for Connected {
    fn hang_up(&self) {}

    fn requests(&self) -> &AtomicU64 {
        &self.requests
    }

    fn silent(&self) -> u64 {
        0
    }

    fn opened(&self, _session: u64) {}

    fn ended(&self, _why: LineEnd) {}
}

impl<'w, 'a, T> Door<Incoming<'w, 'a, T>, Outgoing<'w, 'a, T>, Connected> for Lines<'w, 'a, T> {
    fn next(&mut self) -> Arrival<Incoming<'w, 'a, T>, Outgoing<'w, 'a, T>, Connected> {
        match self.left.pop() {
            Some((incoming, outgoing)) => {
                let requests = AtomicU64::new(0);
                Arrival::Line(incoming, outgoing, Connected { requests })
            }
            None => Arrival::Closed,
        }
    }

    fn is_stopped(&self) -> bool {
        false
    }
}

// What a line sends, and what it is to be sent.
#[derive(Clone, Copy)]
pub(crate) struct Talk {
    pub(crate) asks: &'static [&'static str],
    pub(crate) answers: &'static [&'static str],
    pub(crate) first_read: Option<Answer>,
    pub(crate) last_read: Option<Answer>,
    pub(crate) first_write: Option<Answer>,
}

// The length of a payload as 4 bytes, the highest first, and then the payload.
pub(crate) fn frame(alloc: Global, payload: &str) -> Result<Vec<u8>, Fail> {
    let length = payload.len();
    let head = [0, 0, (length / 256 % 256) as u8, (length % 256) as u8];
    let mut bytes = Vec::from_slice(alloc, &head)?;
    bytes.extend_from_slice(payload.as_bytes())?;
    Ok(bytes)
}

// The frames of these payloads, one behind the other.
pub(crate) fn frames(alloc: Global, payloads: &[&str]) -> Result<Vec<u8>, Fail> {
    let mut bytes = Vec::new(alloc);
    for payload in payloads {
        bytes.extend_from_slice(frame(alloc, payload)?.as_slice())?;
    }
    Ok(bytes)
}

pub(crate) fn door<'w, 'a, T>(
    alloc: Global,
    watch: &'w Watch<'a, T>,
    talks: &[Talk],
    wire: Wire,
) -> Result<Lines<'w, 'a, T>, Fail> {
    let mut left = Vec::new(alloc);
    for (place, talk) in talks.iter().enumerate() {
        let mut frames = Vec::new(alloc);
        for ask in talk.asks {
            frames.push(frame(alloc, ask)?)?;
        }
        let incoming = Incoming {
            watch,
            frames,
            next: 0,
            wire,
            first: talk.first_read,
            last: talk.last_read,
        };
        let outgoing = Outgoing {
            watch,
            session: place as u64 + 1,
            wire,
            first: talk.first_write,
        };
        left.push((incoming, outgoing))?;
    }
    left.reverse();
    Ok(Lines { left })
}
