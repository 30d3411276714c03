//! A house in threads: the lines of a door, and the settling worker.
ghost use Rattle.std.specs.Prelude.{◌≡◌, ◌≤◌, ◌+◌, ◌^◌, IfOk};
ghost use Rattle.jsp_model.specs.Lookup.{empty};
ghost use Rattle.jsp_closing.specs.Closing.{Closes};
ghost use Rattle.jsp_line.specs.Seats.{IsSeated};
ghost use Rattle.jsp_line.specs.Reading.{Faults, Reads};
ghost use Rattle.jsp_line.specs.Writing.{Writes};
ghost use Rattle.jsp_floor.specs.Doors.{ComeThrough};
ghost use Rattle.jsp_floor.specs.Admissions.{IfAdmitted};
ghost use denote.Param.Send.{IsSync, IsSend};

use crate::door::{Arrival, Door};
use crate::end::finish;
use crate::lines::Lines;
use jsp_closing::{Closed, RunFault};
use jsp_kept::{AskSeat, InParts, Kept, OutSeat};
use jsp_line::{Clock, Counts, Floor, Gate, Hangup, LineDone, LineEnd, Shared, ShutFor, start};
use jsp_model::Config;
use std::alloc::Global;
use std::io::{Read, Write};
use std::marker::Brand;
use std::sync::ledger::{Blank, Ledger};
use std::sync::{Arc, Wait};
use std::thread::{Scope, Threads};
use std::{thread, time};

/// How often a line may read.
const READS: u64 = 1 << 40;

/// What a run is held to.
#[derive(Clone, Copy, Debug, PartialEq, Eq)]
pub struct Bounds {
    /// How many lines are served at once.
    pub lines: usize,
    /// How many steps an era of the history holds, beside its Shuts, from 1 to 16,777,216.
    pub era: u64,
    /// After how many bytes that its lines read and wrote an era ends.
    pub era_bytes: u64,
    /// How many answers may wait for a session. One for which more wait is shut, and its line ends.
    pub backlog: u64,
    /// About how many bytes of memory they may take.
    pub backlog_bytes: u64,
}

// A line that has come in, and its session.
#[derive(Drop)]
struct Admitted<A: Ledger, O: Ledger, R, W, X> {
    reader: R,
    writer: W,
    hangup: Arc<X>,
    asks: AskSeat<A>,
    outs: OutSeat<O>,
    ghost seated: { IsSeated asks outs },
}

// What comes of an arrival at the door.
#[derive(Drop)]
enum Admission<C> {
    Line(C),
    /// A connection that isn't served.
    Refused,
    /// No further line comes.
    Ended,
}

// The gate of a run, which ends the connections of its lines.
#[derive(Drop)]
struct RunGate<'r, 'g, 'l, R: Read, W: Write, X, D: Door<R, W, X>, G, T> {
    rt: &'r T,
    gate: &'g G,
    lines: &'l Lines<R, W, X, D>,
}

impl<R: Read + Drop, W: Write + Drop, X: Hangup + Drop, D: Door<R, W, X>, G: Gate, T: Wait> Gate
    for RunGate<'_, '_, '_, R, W, X, D, G, T> {
    fn before(&self, session: u64, nth: u64) {
        self.gate.before(session, nth);
    }

    fn written(&self, session: u64, nth: u64) {
        self.gate.written(session, nth);
    }

    fn cut(&self, session: u64) {
        self.lines.hang_up(self.rt, session, ShutFor::Backlog);
        self.gate.cut(session);
    }

    fn sealed(&self) {
        self.gate.sealed();
    }

    fn wants_counts(&self) -> bool {
        self.gate.wants_counts()
    }

    fn counted(&self, counts: Counts) {
        let mut counts = counts;
        counts.lines = self.lines.count(self.rt);
        self.gate.counted(counts);
    }
}

// What lines are served with, and those that are served.
#[derive(Drop)]
struct Server<
    'a,
    'l,
    H: InParts,
    A: Ledger,
    O: Ledger,
    R: Read,
    W: Write,
    X,
    D: Door<R, W, X>,
    G,
    C,
    T,
> {
    shared: Shared<'a, H, A, O, G, C, T>,
    lines: &'l Lines<R, W, X, D>,
}

impl<
    H: InParts + Send,
    A: Ledger + Send + Sync,
    O: Ledger + Send + Sync,
    R: Read + Send + Drop,
    W: Write + Send + Drop,
    X: Hangup + Send + Sync + Drop,
    D: Door<R, W, X> + Send + Drop,
    G: Gate + Sync,
    C: Clock + Sync,
    T: Threads + Wait + time::Clock + Sync,
> Server<'_, '_, H, A, O, R, W, X, D, G, C, T> {
    // The line that has been silent longest gives its place up, if it waits for nothing.
    fn free_place(&self) {
        let rt = self.shared.rt;
        let Some(session) = self.lines.most_silent(rt, self.shared.floor) else {
            return;
        };
        self.shared.floor.shut_silent(rt, session);
        if !self.shared.floor.is_open(rt, session) {
            self.lines.hang_up(rt, session, ShutFor::Silent);
            self.lines.wait_for_place(rt);
        }
    }

    // Opens a session for a line that has come, unless as many are served as may be at once, or
    // memory is wanting.
    fn admit(&self, hangup: &Arc<X>) -> Result<(AskSeat<A>, OutSeat<O>), LineEnd>
        ensures { IfOk result (λ seats. IsSeated seats.0 seats.1) }
    {
        let rt = self.shared.rt;
        if self.lines.is_full(rt) {
            self.free_place();
        }
        if self.lines.is_full(rt) {
            return Err(LineEnd::Full);
        }
        if !self.lines.make_room(rt) {
            return Err(LineEnd::NoMemory);
        }
        let (asks, outs) = match self.shared.floor.begin(rt) {
            Ok(seats) => seats,
            Err(stopped) => {
                self.lines.stop(rt, Some(stopped.why));
                return Err(LineEnd::NoMemory);
            }
        };
        let session = asks.session();
        if !self.lines.enter(rt, session, hangup) {
            self.shared.floor.shut(rt, session);
            self.lines.lose(rt, session);
            return Err(LineEnd::NoMemory);
        }
        Ok((asks, outs))
    }

    // Opens the session of a line that has come. Where it gets none its connection is closed.
    fn welcome(&self, reader: R, writer: W, hangup: X) -> Admission<Admitted<A, O, R, W, X>>
        requires { D.gives reader writer }
        ensures { IfAdmitted result (λ admitted. D.gives admitted.reader admitted.writer) }
    {
        let Ok(hangup) = Arc::new(self.shared.alloc, hangup) else {
            return Admission::Refused;
        };
        match self.admit(&hangup) {
            Ok((asks, outs)) => {
                hangup.opened(asks.session());
                Admission::Line(Admitted {
                    reader,
                    writer,
                    hangup,
                    asks,
                    outs,
                })
            }
            Err(why) => {
                hangup.ended(why);
                Admission::Refused
            }
        }
    }

    // Waits at the door for the next line.
    fn receive(&self, door: &mut D) -> Admission<Admitted<A, O, R, W, X>>
        ensures { IfAdmitted result (λ admitted. D.gives admitted.reader admitted.writer) }
    {
        match door.next() {
            Arrival::Line(reader, writer, hangup) => self.welcome(reader, writer, hangup),
            Arrival::Closed => Admission::Ended,
            Arrival::Failed => {
                self.lines.fail(self.shared.rt, RunFault::Spawn);
                Admission::Ended
            }
        }
    }

    // Waits until no line is served any more. Once the door is stopped those that are served are to
    // end.
    fn wait_for_lines(&self, door: &D) {
        let rt = self.shared.rt;
        for _ in rt.forever() {
            if door.is_stopped() {
                self.lines.end_all(rt, self.shared.floor);
                break;
            }
            if self.lines.is_none_soon(rt) {
                break;
            }
        }
        self.lines.wait_for_none(rt);
    }

    // Serves a line that has come in, or turns it away where its session was shut before.
    fn serve_or_turn_away(
        &self,
        reader: R,
        writer: W,
        hangup: &X,
        asks: AskSeat<A>,
        outs: OutSeat<O>,
    ) -> LineDone<A, O, R, W>
        requires { IsSeated asks outs }
        ensures reads { Reads result.read.seat.session (R.remaining reader) (R.remaining result.reader.inner) result.read.transcript result.read.ended 0 result.read.seat.count }
        ensures faults { Faults result.read.ended 0 result.reader.failures }
        ensures writes { Writes (W.contents writer) (W.contents result.out.writer.inner) result.out.seat.count result.out.health result.out.writer.failures result.out.transcript }
    {
        let shared = &self.shared;
        if shared.floor.is_open(shared.rt, asks.session()) {
            shared.serve_line(reader, writer, hangup, asks, outs, READS)
        } else {
            shared.turn_away(reader, writer, hangup, asks, outs)
        }
    }

    // The same, and notes what it read and wrote.
    fn serve_admitted(&self, admitted: Admitted<A, O, R, W, X>)
        requires { D.gives admitted.reader admitted.writer }
    {
        let Admitted {
            reader,
            writer,
            hangup,
            asks,
            outs,
        } = admitted;
        let rt = self.shared.rt;
        let done = self.serve_or_turn_away(reader, writer, &*hangup, asks, outs);
        let left = self.shared.floor.leave(rt, done.read.seat.session());
        let why = self.lines.leave(rt, done, left);
        hangup.ended(why);
    }

    // Serves a line in a thread of its own, which says at its end what it served, so that nobody
    // joins it. Where there is no thread the line is turned away at once.
    fn start_line<'s, E>(&'s self, scope: &Scope<'s, E>, admitted: Admitted<A, O, R, W, X>)
        requires rows { IsSync T.row × IsSync G.row × IsSync C.row × IsSend H.row × IsSend A.row × IsSync A.row × IsSend O.row × IsSync O.row × IsSend R.row × IsSend W.row × IsSend X.row × IsSync X.row × IsSend D.row }
        requires given { D.gives admitted.reader admitted.writer }
    {
        let session = admitted.asks.session();
        let serving = scope.spawn(
            move ||
                requires { IsSync T.row × IsSync G.row × IsSync C.row × IsSend H.row × IsSend A.row × IsSync A.row × IsSend O.row × IsSync O.row × IsSend R.row × IsSend W.row × IsSend X.row × IsSync X.row × IsSend D.row × D.gives admitted.reader admitted.writer }
            { self.serve_admitted(admitted) },
        );
        if let Err(refused) = serving {
            self.shared
                .floor
                .shut_for(self.shared.rt, session, ShutFor::NoThread);
            let turn_away = refused.value;
            turn_away();
        }
    }

    // Serves all lines of the door, each in a thread of its own, and settles meanwhile.
    fn serve_all(&self, door: &mut D) {
        thread::scope(
            thread::scope_env(),
            self.shared.rt,
            |scope|
                requires { IsSync T.row × IsSync G.row × IsSync C.row × IsSend H.row × IsSend A.row × IsSync A.row × IsSend O.row × IsSync O.row × IsSend R.row × IsSend W.row × IsSend X.row × IsSync X.row × IsSend D.row }
            {
                let rt = self.shared.rt;
                let Some(settling) = start(rt, scope, move || self.shared.settle_worker()) else {
                    self.lines.fail(rt, RunFault::Spawn);
                    return;
                };
                for _ in rt.forever() {
                    match self.receive(door) {
                        Admission::Line(admitted) => self.start_line(scope, admitted),
                        Admission::Refused => {}
                        Admission::Ended => break,
                    }
                }
                self.wait_for_lines(&*door);
                self.shared.floor.end(rt);
                self.lines.stop(rt, settling.join(rt));
            },
        )
    }
}

// As `run_house`, with the ledgers of the seats.
fn run_in<
    'x,
    H: InParts + Send,
    A: Ledger + Send + Sync,
    O: Ledger + Send + Sync,
    R: Read + Send + Drop,
    W: Write + Send + Drop,
    X: Hangup + Send + Sync + Drop,
    D: Door<R, W, X> + Send + Drop,
    G: Gate + Sync,
    C: Clock + Sync,
    T: Threads + Wait + time::Clock + Sync,
>(
    rt: &'x T,
    alloc: Global,
    house: H,
    config: &Config,
    bounds: Bounds,
    seed: u64,
    door: D,
    gate: &'x G,
    clock: &'x C,
    asks: Blank,
    outs: Blank,
) -> Result<Closed, RunFault>
    requires house { H.view house ≡ empty config.now }
    requires era { (1 ≤ bounds.era) × (bounds.era ≤ 16777216) }
    requires asks { (asks.name ≡ A.name) × (asks.parts ≡ A.parts) × (A.parts ≡ 2 ^ 31 + 1) }
    requires outs { (outs.name ≡ O.name) × (outs.parts ≡ O.parts) × (O.parts ≡ 2 ^ 31 + 1) }
    ensures closes { IfOk result (Closes config.now) }
    ensures comes { IfOk result (ComeThrough D.gives R.remaining W.contents) }
{
    let Ok(kept) = Kept::<H, A, O>::new(alloc, house, config, bounds.era, asks, outs) else {
        return Err(RunFault::NoMemory);
    };
    let floor = floor_over(alloc, kept, bounds)?;
    let mut door = door;
    let lines = Lines::<R, W, X, D>::new(alloc, bounds.lines);
    let gate = RunGate {
        rt: &*rt,
        gate: &*gate,
        lines: &lines,
    };
    let server = Server {
        shared: Shared {
            rt: &*rt,
            alloc,
            floor: &floor,
            gate: &gate,
            clock: &*clock,
        },
        lines: &lines,
    };
    server.serve_all(&mut door);
    drop(server);
    drop(gate);
    finish(
        rt,
        alloc,
        config,
        floor.into_kept(),
        lines.into_served(),
        seed,
    )
}

/// A lock round a history that is held to these bounds.
fn floor_over<H: InParts, A: Ledger, O: Ledger>(
    alloc: Global,
    kept: Kept<H, A, O>,
    bounds: Bounds,
) -> Result<Floor<H, A, O>, RunFault> {
    let floor = Floor::new(
        alloc,
        kept,
        bounds.lines,
        bounds.era_bytes,
        bounds.backlog,
        bounds.backlog_bytes,
    );
    match floor {
        Ok(floor) => Ok(floor),
        Err(_) => Err(RunFault::NoMemory),
    }
}

/// Serves the lines of a door over an empty house until the door is closed and all have ended. A
/// line above those that are served at once ends at once. The seed is for the replay at the end,
/// and clients shouldn't know it.
///
/// Each whole line of the answer is one that the door gave: what it read and wrote is what came of
/// its reader and went to its writer, and a failure is told where one was counted there.
pub fn run_house<
    H: InParts + Send,
    R: Read + Send + Drop,
    W: Write + Send + Drop,
    X: Hangup + Send + Sync + Drop,
    D: Door<R, W, X> + Send + Drop,
    G: Gate + Sync,
    C: Clock + Sync,
    T: Threads + Wait + time::Clock + Sync,
>(
    rt: &T,
    alloc: Global,
    house: H,
    config: &Config,
    bounds: Bounds,
    seed: u64,
    door: D,
    gate: &G,
    clock: &C,
) -> Result<Closed, RunFault>
    requires house { H.view house ≡ empty config.now }
    requires era { (1 ≤ bounds.era) × (bounds.era ≤ 16777216) }
    ensures closes { IfOk result (Closes config.now) }
    ensures comes { IfOk result (ComeThrough D.gives R.remaining W.contents) }
{
    const PARTS: u64 = (1 << 31) + 1;
    run_in::<H, Brand, Brand, R, W, X, D, G, C, T>(
        rt,
        alloc,
        house,
        config,
        bounds,
        seed,
        door,
        gate,
        clock,
        Blank::new(PARTS),
        Blank::new(PARTS),
    )
}
