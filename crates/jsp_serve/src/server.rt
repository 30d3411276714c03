//! A server on a listener.
ghost use Rattle.std.specs.Prelude.{◌≤◌, IfOk};
ghost use Rattle.jsp_closing.specs.Closing.{Closes};
ghost use Rattle.jsp_floor.specs.Doors.{AreServed};

use crate::connections::Connections;
use crate::stop::Stop;
use jsp_board::{Board, Origin, Traffic};
use jsp_floor::{Bounds, Clock, Closed, Counts, Gate, RunFault, run_house};
use jsp_house::{Hall, Seeds};
use jsp_log::{Notice, ServerLog};
use jsp_model::Config;
use std::alloc::Global;
use std::net::TcpListener;
use std::sync::Wait;
use std::thread::Threads;
use std::time::{Clock as SystemClock, Duration, Instant};

/// Holds nobody, puts what was counted on the board, if there is one, and has in the log that an
/// era was sealed.
#[derive(Drop)]
struct Open<'a, T> {
    system: &'a T,
    alloc: Global,
    origin: Origin<'a>,
    clock: &'a Uptime<'a, T>,
    board: Option<&'a Board>,
    log: &'a ServerLog,
}

impl<T: Wait + SystemClock + Eprint> Gate for Open<'_, T> {
    fn before(&self, _session: u64, _nth: u64) {}

    fn written(&self, _session: u64, _nth: u64) {}

    fn cut(&self, _session: u64) {}

    fn sealed(&self) {
        self.log.write(self.system, Notice::Sealed);
    }

    fn wants_counts(&self) -> bool {
        match self.board {
            Some(board) => board.wants_counts(self.clock.now()),
            None => false,
        }
    }

    fn counted(&self, counts: Counts) {
        if let Some(board) = self.board {
            let time = self.clock.now();
            board.note(self.system, self.alloc, &self.origin, time, &counts);
        }
    }
}

/// Milliseconds since the server began, or 0 where they can't be read.
#[derive(Drop)]
struct Uptime<'a, T> {
    system: &'a T,
    start: Option<Instant>,
}

impl<T: SystemClock> Clock for Uptime<'_, T> {
    fn now(&self) -> u64 {
        let Some(start) = self.start else {
            return 0;
        };
        match start.elapsed(self.system) {
            Ok(time) => u64::try_from(time.as_millis()).unwrap_or(u64::MAX),
            Err(_) => 0,
        }
    }
}

/// How a server serves.
#[derive(Clone, Copy, Debug, PartialEq, Eq)]
pub struct Service {
    /// How many connections there are before it ends.
    pub lines: u64,
    /// After how much time in which it makes no whole request a connection is closed, where one is.
    pub idle: Option<Duration>,
    /// How many are served at once, and what the history takes of memory: a step is some 300 bytes
    /// where requests are short.
    pub bounds: Bounds,
    pub seeds: Seeds,
}

/// Serves the connections of the listener over the spaces of `config`, and ends when there were as
/// many as `service` says and all have ended, or in order once it is asked to `stop`. Meanwhile it
/// notes every few seconds on the board what it does, puts its status there where that is asked
/// for, and has in its log which connections it serves, and why they end.
///
/// Each whole line of the answer is a connection's: what it read is what was asked by it and
/// counted, what it wrote are the frames of the answers that it took, and a failure is told where a
/// call of its socket failed. Of what a socket gives or takes nothing is known.
pub fn serve<T: Threads + Wait + SystemClock + Eprint + Sync>(
    rt: &T,
    alloc: Global,
    listener: TcpListener,
    config: &Config,
    service: Service,
    stop: &Stop,
    version: &str,
    board: Option<&Board>,
    log: &ServerLog,
) -> Result<Closed, RunFault>
    requires { (1 ≤ service.bounds.era) × (service.bounds.era ≤ 16777216) }
    ensures closes { IfOk result (Closes config.now) }
    ensures served { IfOk result AreServed }
{
    let Ok(house) = Hall::new(alloc, config, service.seeds.house) else {
        return Err(RunFault::NoMemory);
    };
    let clock = Uptime {
        system: rt,
        start: Instant::now(rt).ok(),
    };
    let traffic = Traffic::new(alloc, service.bounds.lines as u64);
    let connections = Connections::new(rt, alloc, listener, service, stop, &traffic, log);
    let origin = Origin {
        version,
        config,
        traffic: &traffic,
    };
    let gate = Open {
        system: rt,
        alloc,
        origin,
        clock: &clock,
        board,
        log,
    };
    run_house(
        rt,
        alloc,
        house,
        config,
        service.bounds,
        service.seeds.replay,
        connections,
        &gate,
        &clock,
    )
}
