//! A connection as its line has it: two halves, and the whole of it.
ghost use Rattle.std.specs.Prelude.{◌≤◌, length, IfOk};
ghost use Rattle.std.specs.Io.{ReadsAtMost};

use crate::frames::Frames;
use crate::idle::Idle;
use jsp_board::{Activity, Traffic};
use jsp_floor::{Hangup, LineEnd};
use jsp_log::{Cause, Notice, ServerLog};
use std::alloc::Global;
use std::io::{self, ErrorKind, Read, Write};
use std::net::{Shutdown, SocketAddr, TcpStream};
use std::sync::atomic::AtomicU64;
use std::sync::{Arc, Wait};
use std::time::{Clock, Duration, Instant};

/// How often a read or a write that was interrupted is made again. Nothing interrupts one so often;
/// the bound is there so that each of the two loops below ends by itself: the call behind it is the
/// last, and its answer is the answer.
const INTERRUPTIONS: u32 = 1000;

/// How many milliseconds a call may take for which no time is left: none is too few for a socket.
const SHORTEST: u64 = 1;

/// What both halves of a connection share.
#[derive(Drop)]
struct Link<'a, T> {
    system: &'a T,
    stream: TcpStream,
    traffic: &'a Traffic,
    log: &'a ServerLog,
    activity: Arc<Activity>,
    /// How long it has made no request.
    idle: Idle,
}

impl<T: Clock> Link<'_, T> {
    /// How long the next call may take, where that is bounded: zero where no time is left.
    fn time_left(&self) -> io::Result<Option<Duration>> {
        self.idle.left(self.system, &self.activity.requests)
    }
}

/// The two halves of a connection, and the whole of it. An answer goes out at once, without waiting
/// for more to send with it. None where the client is gone, or there is no memory: the connection
/// is closed then.
pub(crate) fn halves<'a, T: Clock>(
    system: &'a T,
    alloc: Global,
    stream: TcpStream,
    address: SocketAddr,
    idle: Option<Duration>,
    traffic: &'a Traffic,
    log: &'a ServerLog,
) -> Option<(Incoming<'a, T>, Outgoing<'a, T>, Connection<'a, T>)> {
    stream.set_nodelay(true).ok()?;
    let idle = Idle::new(system, idle).ok()?;
    let activity = Activity::new(address, Instant::now(system).ok()?);
    let link = Link {
        system,
        stream,
        traffic,
        log,
        activity: Arc::new(alloc, activity).ok()?,
        idle,
    };
    let link = Arc::new(alloc, link).ok()?;
    let incoming = Incoming {
        link: Arc::try_clone(&link).ok()?,
        bound: None,
        is_over: false,
    };
    let outgoing = Outgoing {
        link: Arc::try_clone(&link).ok()?,
        bound: None,
        frames: Frames::new(),
    };
    Some((incoming, outgoing, Connection(link)))
}

/// How long a socket is to wait in a call for which so much time is left.
fn bound_of(left: Option<Duration>) -> Option<Duration> {
    left.map(|left| left.max(Duration::from_millis(SHORTEST)))
}

/// Whether a call is to be made again: where it has a bound on its time, a program that is halted
/// and goes on interrupts it.
fn is_interrupted(done: &io::Result<usize>) -> bool {
    matches!(done, Err(error) if error.kind() == ErrorKind::Interrupted)
}

/// The reading half of a connection.
#[derive(Drop)]
pub(crate) struct Incoming<'a, T> {
    link: Arc<Link<'a, T>>,
    /// How long a read may take as the system knows it.
    bound: Option<Duration>,
    /// Whether the last read had no time left, and took all that had come.
    is_over: bool,
}

impl<T: Clock> Incoming<'_, T> {
    /// One read. Where no time is left it takes what came while nobody could read it, as where the
    /// server was halted. If that was all, and no whole request, the next one fails.
    fn read_once(&mut self, bytes: &mut [u8]) -> io::Result<usize>
        ensures { ReadsAtMost result bytes.new }
    {
        let left = self.link.time_left()?;
        let is_late = left == Some(Duration::ZERO);
        if is_late && self.is_over {
            return Err(ErrorKind::TimedOut.into());
        }
        let bound = bound_of(left);
        if bound != self.bound {
            self.link.stream.set_read_timeout(bound)?;
            self.bound = bound;
        }
        let mut stream = &self.link.stream;
        let read = stream.read(bytes);
        self.is_over = is_late && matches!(read, Ok(count) if count < bytes.len());
        read
    }
}

impl<T: Clock> Read for Incoming<'_, T> {
    fn read(&mut self, bytes: &mut [u8]) -> io::Result<usize> {
        // Ends at the first call that wasn't interrupted, and after a thousand that were.
        for _ in 0..INTERRUPTIONS {
            let read = self.read_once(bytes);
            if !is_interrupted(&read) {
                return read;
            }
        }
        self.read_once(bytes)
    }
}

/// The writing half of a connection. Where a write fails the connection is ended.
#[derive(Drop)]
pub(crate) struct Outgoing<'a, T> {
    link: Arc<Link<'a, T>>,
    /// How long a write may take as the system knows it.
    bound: Option<Duration>,
    /// How far the frames are written.
    frames: Frames,
}

impl<T: Clock> Outgoing<'_, T> {
    /// One write. Where no time is left it gives what the client has room for.
    fn write_once(&mut self, bytes: &[u8]) -> io::Result<usize>
        ensures { IfOk result (λ n. n ≤ length bytes.now) }
    {
        let bound = bound_of(self.link.time_left()?);
        if bound != self.bound {
            self.link.stream.set_write_timeout(bound)?;
            self.bound = bound;
        }
        let mut stream = &self.link.stream;
        stream.write(bytes)
    }

    fn write_some(&mut self, bytes: &[u8]) -> io::Result<usize>
        ensures { IfOk result (λ n. n ≤ length bytes.now) }
    {
        // Ends at the first call that wasn't interrupted, and after a thousand that were.
        for _ in 0..INTERRUPTIONS {
            let written = self.write_once(bytes);
            if !is_interrupted(&written) {
                return written;
            }
        }
        self.write_once(bytes)
    }
}

impl<T: Clock> Write for Outgoing<'_, T> {
    fn write(&mut self, bytes: &[u8]) -> io::Result<usize> {
        let written = self.write_some(bytes);
        match written {
            Ok(count @ 1..) => {
                let answers = self.frames.count_answers(&bytes[..count]);
                self.link.activity.add_answers(answers);
            }
            _ if bytes.is_empty() => {}
            _ => {
                let _ = self.link.stream.shutdown(Shutdown::Both);
            }
        }
        written
    }

    fn flush(&mut self) -> io::Result<()> {
        Ok(())
    }
}

/// A whole connection, which can be ended while its halves are in use.
#[derive(Drop)]
pub(crate) struct Connection<'a, T>(Arc<Link<'a, T>>);

impl<T: Clock> Connection<'_, T> {
    /// Why it ended, of which the line knows only that it couldn't be read or written.
    fn cause(&self, why: LineEnd) -> Cause {
        let is_broken = matches!(why, LineEnd::Unreadable | LineEnd::Unwritable);
        if is_broken && matches!(self.0.time_left(), Ok(Some(Duration::ZERO))) {
            return Cause::Idle;
        }
        Cause::Line(why)
    }
}

impl<T: Clock + Eprint + Wait> Hangup for Connection<'_, T> {
    fn hang_up(&self) {
        // Its client may have ended it before.
        let _ = self.0.stream.shutdown(Shutdown::Both);
    }

    fn requests(&self) -> &AtomicU64 {
        &self.0.activity.requests
    }

    fn silent(&self) -> u64 {
        self.0.idle.silent(self.0.system, &self.0.activity.requests)
    }

    fn opened(&self, session: u64) {
        let activity = &self.0.activity;
        activity.set_session(session);
        self.0.traffic.open(self.0.system, activity);
        self.0.log.write(
            self.0.system,
            Notice::Opened {
                connection: session,
                address: activity.address,
            },
        );
    }

    fn ended(&self, why: LineEnd) {
        let activity = &self.0.activity;
        let address = activity.address;
        let why = self.cause(why);
        let connection = activity.session();
        if connection == 0 {
            self.0
                .log
                .write(self.0.system, Notice::Refused { address, why });
            return;
        }
        self.0.traffic.end(self.0.system, connection);
        self.0.log.write(
            self.0.system,
            Notice::Ended {
                connection,
                address,
                requests: activity.requests(),
                why,
            },
        );
    }
}
