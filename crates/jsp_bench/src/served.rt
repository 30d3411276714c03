//! A script of one session as a server serves it, over a line in memory.
use crate::digest::Digest;
use jsp_floor::{Arrival, Bounds, Clock, Counts, Door, Gate, Hangup, LineEnd, run_house};
use jsp_house::Hall;
use jsp_model::Config;
use std::alloc::Global;
use std::io::{self, Read, Write};
use std::sync::Wait;
use std::sync::atomic::{AtomicU64, Ordering};
use std::thread::Threads;
use std::time;

/// What `jsp listen` is held to where nothing else is said.
const BOUNDS: Bounds = Bounds {
    lines: 256,
    era: 131_072,
    era_bytes: 1 << 26,
    backlog: 65_536,
    backlog_bytes: 1 << 24,
};

/// What stands before the payload of a request in the script of a script with one session.
const SENDS: &[u8] = b"send 1 ";

/// The digest of what was written so far, for those that no longer have its writer.
#[derive(Drop)]
struct Seen {
    hash: AtomicU64,
    bytes: AtomicU64,
}

/// Gives the frame of a request at each read, as a client that waits for its answer sends them.
#[derive(Drop)]
struct Incoming<'a> {
    text: &'a [u8],
    /// What is left of the present line's payload.
    payload: &'a [u8],
}

impl<'a> Incoming<'a> {
    /// Goes on to the next line that is a request's, and answers the length of its payload.
    fn go_on(&mut self) -> Option<usize> {
        let text = self.text;
        for line in text.split(|byte| *byte == b'\n') {
            self.text = match self.text.get(line.len().saturating_add(1)..) {
                Some(rest) => rest,
                None => &[],
            };
            if let Some(payload) = line.strip_prefix(SENDS) {
                self.payload = payload;
                return Some(payload.len());
            }
        }
        None
    }
}

impl Read for Incoming<'_> {
    fn read(&mut self, buf: &mut [u8]) -> io::Result<usize> {
        if !self.payload.is_empty() {
            return self.payload.read(buf);
        }
        let Some(length) = self.go_on() else {
            return Ok(0);
        };
        let head = u32::try_from(length).unwrap_or(u32::MAX).to_be_bytes();
        let mut frame = head.as_slice();
        let taken = frame.read(buf)?;
        match buf.get_mut(taken..) {
            Some(rest) => Ok(taken.saturating_add(self.payload.read(rest)?)),
            None => Ok(taken),
        }
    }
}

#[derive(Drop)]
struct Outgoing<'a> {
    digest: Digest,
    seen: &'a Seen,
}

impl Write for Outgoing<'_> {
    fn write(&mut self, buf: &[u8]) -> io::Result<usize> {
        let taken = self.digest.write(buf)?;
        self.seen.hash.store(self.digest.hash, Ordering::SeqCst);
        self.seen.bytes.store(self.digest.bytes, Ordering::SeqCst);
        Ok(taken)
    }

    fn flush(&mut self) -> io::Result<()> {
        Ok(())
    }
}

/// Has one line, which comes first.
#[derive(Drop)]
struct OneLine<'a> {
    line: Option<(Incoming<'a>, Outgoing<'a>)>,
}

/// What a line in memory has no need of.
#[derive(Drop)]
struct Connected {
    requests: AtomicU64,
}

impl Hangup for Connected {
    fn hang_up(&self) {}

    fn requests(&self) -> &AtomicU64 {
        &self.requests
    }

    fn silent(&self) -> u64 {
        0
    }

    fn opened(&self, _session: u64) {}

    fn ended(&self, _why: LineEnd) {}
}

impl<'a> Door<Incoming<'a>, Outgoing<'a>, Connected> for OneLine<'a> {
    fn next(&mut self) -> Arrival<Incoming<'a>, Outgoing<'a>, Connected> {
        match self.line.take() {
            Some((incoming, outgoing)) => {
                let requests = AtomicU64::new(0);
                Arrival::Line(incoming, outgoing, Connected { requests })
            }
            None => Arrival::Closed,
        }
    }

    fn is_stopped(&self) -> bool {
        false
    }
}

/// Holds nobody, counts nothing, and reads no time.
#[derive(Drop)]
struct Still {}

impl Gate for Still {
    fn before(&self, _session: u64, _nth: u64) {}

    fn written(&self, _session: u64, _nth: u64) {}

    fn cut(&self, _session: u64) {}

    fn sealed(&self) {}

    fn wants_counts(&self) -> bool {
        false
    }

    fn counted(&self, _counts: Counts) {}
}

impl Clock for Still {
    fn now(&self) -> u64 {
        0
    }
}

/// Serves the requests of a script with one session, and answers the digest of the bytes that it
/// was sent, or none where the server ended by a fault.
pub(crate) fn served<T: Threads + Wait + time::Clock + Sync>(
    rt: &T,
    alloc: Global,
    config: &Config,
    seed: u64,
    text: &str,
) -> Option<Digest> {
    let seen = Seen {
        hash: AtomicU64::new(0),
        bytes: AtomicU64::new(0),
    };
    let line = OneLine {
        line: Some((
            Incoming {
                text: text.as_bytes(),
                payload: &[],
            },
            Outgoing {
                digest: Digest::EMPTY,
                seen: &seen,
            },
        )),
    };
    let house = Hall::new(alloc, config, seed).ok()?;
    run_house(
        rt,
        alloc,
        house,
        config,
        BOUNDS,
        seed,
        line,
        &Still {},
        &Still {},
    )
    .ok()?;
    Some(Digest {
        hash: seen.hash.load(Ordering::SeqCst),
        bytes: seen.bytes.load(Ordering::SeqCst),
    })
}
