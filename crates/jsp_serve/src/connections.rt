//! Where a server's lines come from: the connections of a listener.
use crate::link::{Connection, Incoming, Outgoing, halves};
use crate::server::Service;
use crate::stop::Stop;
use jsp_board::Traffic;
use jsp_floor::{Arrival, Door};
use jsp_log::{Notice, ServerLog};
use std::alloc::Global;
use std::io::{self, ErrorKind};
use std::net::TcpListener;
use std::sync::Wait;
use std::thread;
use std::time::{Clock, Duration};

/// After how many milliseconds a connection is asked for again where the system had no room for
/// one.
const PAUSE: u64 = 50;

/// The errors of Linux that say that the system has no descriptor or no memory for a connection:
/// `ENOMEM`, `ENFILE`, `EMFILE`, `ENOBUFS`.
const NO_ROOM: [i32; 4] = [12, 23, 24, 105];

/// The error of Linux that says that a connection was broken before it was accepted: `EPROTO`.
const BROKEN: i32 = 71;

/// The next connections of a listener, as many as its service is of.
#[derive(Drop)]
pub(crate) struct Connections<'a, T> {
    system: &'a T,
    alloc: Global,
    listener: TcpListener,
    left: u64,
    idle: Option<Duration>,
    stop: &'a Stop,
    traffic: &'a Traffic,
    log: &'a ServerLog,
}

impl<'a, T> Connections<'a, T> {
    pub(crate) fn new(
        system: &'a T,
        alloc: Global,
        listener: TcpListener,
        service: Service,
        stop: &'a Stop,
        traffic: &'a Traffic,
        log: &'a ServerLog,
    ) -> Connections<'a, T> {
        Connections {
            system,
            alloc,
            listener,
            left: service.lines,
            idle: service.idle,
            stop,
            traffic,
            log,
        }
    }
}

impl<T: Clock + Eprint + Wait> Connections<'_, T> {
    /// Waits until the system may have room for a connection.
    fn pause(&self, error: i32) {
        self.log.write(self.system, Notice::Unaccepted { error });
        thread::sleep(self.system, Duration::from_millis(PAUSE));
    }
}

impl<'a, T: Clock + Eprint + Wait> Door<Incoming<'a, T>, Outgoing<'a, T>, Connection<'a, T>>
    for Connections<'a, T> {
    /// Waits for a connection. One that is gone again before it can be served counts as one. Where
    /// the system has no room for one it is asked again after a pause: that is no fault of the
    /// server, and may end.
    fn next(&mut self) -> Arrival<Incoming<'a, T>, Outgoing<'a, T>, Connection<'a, T>> {
        for _ in 0..u64::MAX {
            if self.left == 0 {
                return Arrival::Closed;
            }
            let accepted = self.listener.accept();
            if self.stop.is_asked() {
                return Arrival::Closed;
            }
            match accepted {
                Ok((stream, address)) => {
                    self.left -= 1;
                    if let Some((incoming, outgoing, whole)) = halves(
                        self.system,
                        self.alloc,
                        stream,
                        address,
                        self.idle,
                        self.traffic,
                        self.log,
                    ) {
                        return Arrival::Line(incoming, outgoing, whole);
                    }
                }
                Err(error) if is_gone(&error) => {}
                Err(error) => match no_room(&error) {
                    Some(code) => self.pause(code),
                    None => return Arrival::Failed,
                },
            }
        }
        Arrival::Closed
    }

    fn is_stopped(&self) -> bool {
        self.stop.is_asked()
    }
}

/// Whether the client was gone before it was accepted, or the call was interrupted.
fn is_gone(error: &io::Error) -> bool {
    matches!(
        error.kind(),
        ErrorKind::ConnectionAborted | ErrorKind::Interrupted
    ) || error.raw_os_error() == Some(BROKEN)
}

/// The number of an error that says that the system has no room for a connection.
fn no_room(error: &io::Error) -> Option<i32> {
    error.raw_os_error().filter(|code| NO_ROOM.contains(code))
}
