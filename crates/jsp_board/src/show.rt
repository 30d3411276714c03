//! A server's status, over HTTP.
use crate::board::Board;
use crate::memory::resident_memory;
use crate::visit::Visit;
use jsp_status::Status;
use std::alloc::Global;
use std::fs::{File, Files};
use std::io::ErrorKind;
use std::net::TcpListener;
use std::random::RandomSource;
use std::sync::Wait;
use std::thread;
use std::time::{Clock, Duration, Instant};

/// After how many milliseconds the status is asked for anew.
const FRESH: u64 = 1000;

/// How many connections are open at once. Those above them wait until one of these is closed.
const MOST: usize = 64;

/// After how many milliseconds open connections are looked at again.
const LOOK: u64 = 5;

/// After how many milliseconds a connection is asked for again where there was none.
const PAUSE: u64 = 50;

/// Shows a server's status to all who connect. Who says nothing, or is slow, holds up nobody else.
pub fn show_status<T: Wait + Clock + RandomSource + Files<File = File>>(
    rt: &T,
    alloc: Global,
    listener: &TcpListener,
    board: &Board,
) {
    let mut visits = Vec::new(alloc);
    let mut last = None;
    for _ in rt.forever() {
        let_in(rt, alloc, listener, &mut visits);
        for visit in visits.iter_mut() {
            last = look_at(rt, alloc, board, visit, last);
        }
        visits.retain(|visit| !visit.is_over());
        if !visits.is_empty() {
            thread::sleep(rt, Duration::from_millis(LOOK));
        }
    }
}

/// Lets in those who have connected, as many as may be at once. Where nobody is there it waits for
/// one.
fn let_in<T: Clock>(rt: &T, alloc: Global, listener: &TcpListener, visits: &mut Vec<Visit>) {
    for _ in visits.len()..MOST {
        let waits = visits.is_empty();
        let accepted = listener
            .set_nonblocking(!waits)
            .and_then(|()| listener.accept());
        match accepted {
            Ok((stream, _)) => {
                if let Ok(visit) = Visit::new(rt, alloc, stream) {
                    // Where there is no memory for it, it is closed.
                    let _ = visits.push(visit);
                }
            }
            Err(error) if error.kind() == ErrorKind::WouldBlock => break,
            Err(_) => {
                thread::sleep(rt, Duration::from_millis(PAUSE));
                break;
            }
        }
    }
}

/// Looks whether a connection has asked, and answers it with the last status, or with a new one
/// where that is old. The status that was taken last is given back.
fn look_at<T: Wait + Clock + RandomSource + Files<File = File>>(
    rt: &T,
    alloc: Global,
    board: &Board,
    visit: &mut Visit,
    last: Option<Seen>,
) -> Option<Seen> {
    let mut last = last;
    if visit.listen() {
        last = refreshed(rt, board, last);
        match &last {
            Some(seen) => visit.answer(rt, alloc, &seen.status),
            None => visit.give_up(),
        }
    }
    visit.go_on(rt);
    last
}

/// A status, and when it came.
#[derive(Drop)]
struct Seen {
    status: Status,
    at: Option<Instant>,
}

impl Seen {
    fn is_fresh<T: Clock>(&self, rt: &T) -> bool {
        match self.at.map(|at| at.elapsed(rt)) {
            Some(Ok(time)) => time < Duration::from_millis(FRESH),
            _ => false,
        }
    }
}

/// The last status where it is fresh, and else a new one.
fn refreshed<T: Wait + Clock + Files<File = File>>(
    rt: &T,
    board: &Board,
    last: Option<Seen>,
) -> Option<Seen> {
    match last {
        Some(seen) if seen.is_fresh(rt) => Some(seen),
        _ => {
            let mut status = board.ask(rt)?;
            status.memory = resident_memory(rt);
            Some(Seen {
                status,
                at: Instant::now(rt).ok(),
            })
        }
    }
}
