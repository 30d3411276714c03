//! The lines that are being served.
ghost use Rattle.std.specs.Prelude.{◌≡◌, ℕ, nat_lt, is_some, Vec};
ghost use Rattle.std.specs.declared.alloc.Global.{Global};
ghost use Rattle.jsp_line.specs.declared.transcript.Transcript.TheVariants.{Whole};
ghost use Rattle.jsp_floor.specs.Doors.{MayCome};
ghost use Rattle.jsp_floor.specs.Served.{found_memory, report_of};

use crate::door::Door;
use crate::served::Served;
use jsp_closing::RunFault;
use jsp_kept::InParts;
use jsp_line::{Floor, Hangup, Left, LineDone, LineEnd, ShutFor};
use jsp_model::Why;
use std::alloc::Global;
use std::io::{Read, Write};
use std::sync::ledger::Ledger;
use std::sync::{Arc, Condvar, Mutex, Wait};
use std::time::{Clock, Duration};

/// How often it is looked whether lines have ended that are to end, and after how many milliseconds
/// each: for two seconds.
const LOOKS: u32 = 40;

const PAUSE: u64 = 50;

/// For how many milliseconds a line that gives its place up was silent at least.
const SILENCE: u64 = 60_000;

// A line that is being served.
#[derive(Drop)]
struct Line<X> {
    session: u64,
    hangup: Arc<X>,
    /// Why the server has it end, where it has.
    why: Option<ShutFor>,
}

// The lines that are being served, and what those that have ended answered.
#[derive(Drop)]
struct Progress<R: Read, W: Write, X, D: Door<R, W, X>> {
    lines: Vec<Line<X>>,
    served: Served<R, W, X, D>,
}

/// The lines that are being served, so many at most, and what those that have ended answered.
#[derive(Drop)]
pub(crate) struct Lines<R: Read, W: Write, X, D: Door<R, W, X>> {
    most: usize,
    progress: Mutex<Progress<R, W, X, D>>,
    /// Signalled when one has ended.
    ended: Condvar,
}

impl<R: Read + Drop, W: Write + Drop, X: Hangup + Drop, D: Door<R, W, X>> Lines<R, W, X, D> {
    pub(crate) fn new(alloc: Global, most: usize) -> Lines<R, W, X, D> {
        Lines {
            most,
            progress: Mutex::new(Progress {
                lines: Vec::new(alloc),
                served: Served::new(alloc),
            }),
            ended: Condvar::new(),
        }
    }

    /// Whether as many lines are served as may be at once.
    pub(crate) fn is_full<T: Wait>(&self, rt: &T) -> bool {
        self.progress.lock(rt).lines.len() >= self.most
    }

    /// How many lines are served.
    pub(crate) fn count<T: Wait>(&self, rt: &T) -> u64 {
        self.progress.lock(rt).lines.len() as u64
    }

    /// Whether there is memory to note one line more, and what it will have read and written.
    pub(crate) fn make_room<T: Wait>(&self, rt: &T) -> bool {
        let mut progress = self.progress.lock(rt);
        let count = progress.lines.len().saturating_add(1);
        progress.lines.reserve(1).is_ok() && progress.served.make_room(count)
    }

    /// A line begins to be served. No where there is no memory to note it.
    pub(crate) fn enter<T: Wait>(&self, rt: &T, session: u64, hangup: &Arc<X>) -> bool {
        let Ok(hangup) = Arc::try_clone(hangup) else {
            return false;
        };
        let line = Line {
            session,
            hangup,
            why: None,
        };
        self.progress.lock(rt).lines.push(line).is_ok()
    }

    /// A line that came through the door has ended, for the reason that is answered. Once an era
    /// was sealed nothing is kept of what it read and wrote.
    pub(crate) fn leave<A: Ledger, O: Ledger, T: Wait>(
        &self,
        rt: &T,
        done: LineDone<A, O, R, W>,
        left: Left,
    ) -> LineEnd
        requires { (read written : Vec ℕ Global) → done.read.transcript ≡ Whole read → done.out.transcript ≡ Whole written
            → MayCome D.gives R.remaining W.contents
            (report_of done.read.seat.session (found_memory done.read.why done.why done.out.health) done.read.ended read written (nat_lt 0 done.reader.failures) (nat_lt 0 done.out.writer.failures) (is_some left.shut_for)) }
    {
        let session = done.read.seat.session();
        let why = LineEnd::of(&done, &left);
        let mut progress = self.progress.lock(rt);
        let by_server = why_of(progress.lines.as_slice(), session);
        progress.served.add_line(done, left);
        progress.lines.retain(|line| line.session != session);
        self.ended.notify_all();
        by_server.map_or(why, LineEnd::Shut)
    }

    /// Shuts the sessions of all lines that are served, so that these end, and ends the connections
    /// of those that haven't ended after two seconds: a client that reads nothing would hold them
    /// up for ever.
    pub(crate) fn end_all<H: InParts, A: Ledger, O: Ledger, T: Wait + Clock>(
        &self,
        rt: &T,
        floor: &Floor<H, A, O>,
    ) {
        let mut progress = self.progress.lock(rt);
        for line in progress.lines.as_mut_slice() {
            floor.shut_for(rt, line.session, ShutFor::Ending);
            line.why = Some(ShutFor::Ending);
        }
        for _ in 0..LOOKS {
            if progress.lines.is_empty() {
                return;
            }
            let (locked, _timed_out) = self
                .ended
                .wait_timeout(rt, progress, Duration::from_millis(PAUSE));
            progress = locked;
        }
        for line in progress.lines.as_slice() {
            line.hangup.hang_up();
        }
    }

    /// The session of the line that has been silent longest, for a minute at least, and that waits
    /// for nothing.
    pub(crate) fn most_silent<H: InParts, A: Ledger, O: Ledger, T: Wait>(
        &self,
        rt: &T,
        floor: &Floor<H, A, O>,
    ) -> Option<u64> {
        let progress = self.progress.lock(rt);
        let mut longest = SILENCE;
        let mut most_silent = None;
        for line in progress.lines.as_slice() {
            let silent = line.hangup.silent();
            if longest <= silent && !floor.awaits(rt, line.session) {
                longest = silent.saturating_add(1);
                most_silent = Some(line.session);
            }
        }
        most_silent
    }

    /// Waits until one line more may be served, for two seconds at most.
    pub(crate) fn wait_for_place<T: Wait + Clock>(&self, rt: &T) {
        let mut progress = self.progress.lock(rt);
        for _ in 0..LOOKS {
            if progress.lines.len() < self.most {
                return;
            }
            let (locked, _timed_out) = self
                .ended
                .wait_timeout(rt, progress, Duration::from_millis(PAUSE));
            progress = locked;
        }
    }

    /// Ends the connection of the session's line for this reason, if it is still served.
    pub(crate) fn hang_up<T: Wait>(&self, rt: &T, session: u64, why: ShutFor) {
        let mut progress = self.progress.lock(rt);
        for line in progress.lines.as_mut_slice() {
            if line.session == session {
                line.why = Some(why);
                line.hangup.hang_up();
            }
        }
    }

    /// A session was opened for whose line there was no memory.
    pub(crate) fn lose<T: Wait>(&self, rt: &T, session: u64) {
        self.progress.lock(rt).served.add_short(session);
    }

    /// Notes a fault that was met beside the lines.
    pub(crate) fn fail<T: Wait>(&self, rt: &T, fault: RunFault) {
        self.progress.lock(rt).served.fail(fault);
    }

    /// Notes why a call beside the lines was stopped, where one was.
    pub(crate) fn stop<T: Wait>(&self, rt: &T, why: Option<Why>) {
        self.progress.lock(rt).served.stop(why);
    }

    /// Waits until no line is served.
    pub(crate) fn wait_for_none<T: Wait>(&self, rt: &T) {
        let mut progress = self.progress.lock(rt);
        for _ in rt.forever() {
            if progress.lines.is_empty() {
                return;
            }
            progress = self.ended.wait(rt, progress);
        }
    }

    /// Waits for a moment, unless no line is served, and says whether none is.
    pub(crate) fn is_none_soon<T: Wait + Clock>(&self, rt: &T) -> bool {
        let progress = self.progress.lock(rt);
        if progress.lines.is_empty() {
            return true;
        }
        let (progress, _timed_out) = self
            .ended
            .wait_timeout(rt, progress, Duration::from_millis(PAUSE));
        progress.lines.is_empty()
    }

    /// What all lines answered, once all threads have ended.
    pub(crate) fn into_served(self) -> Served<R, W, X, D> {
        let Lines {
            most: _,
            progress,
            ended: _,
        } = self;
        let Progress { lines: _, served } = progress.into_inner();
        served
    }
}

// Why the server has the session's line end, where it has.
fn why_of<X>(lines: &[Line<X>], session: u64) -> Option<ShutFor> {
    lines.iter().find(|line| line.session == session)?.why
}
