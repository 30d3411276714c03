//! One lock round the history, a signal for each line and one for settling.
ghost use Rattle.std.specs.Prelude.{◌≡◌, ◌<◌, [], Ok, IsTrue, IfOk, length, vec_len};
ghost use Rattle.jsp_model.specs.declared.house.Input.{Input as OfInput};
ghost use Rattle.jsp_model.specs.House.{IsReady, is_input};
ghost use Rattle.jsp_kept.specs.Calls.{IsOf};
ghost use Rattle.jsp_line.specs.declared.floor.Part.TheVariants.{NotYet};
ghost use Rattle.jsp_line.specs.Seats.{Asks, IsNotYet, IsSeated, taking};
ghost use Rattle.jsp_line.specs.Writing.{said_in};

use crate::counts::Counts;
use crate::locked::{Left, Locked};
use crate::notes::ShutFor;
use crate::sealed::Sealed;
use jsp_kept::{AskSeat, InParts, Kept, OutSeat};
use jsp_model::{Input, Settled, Step, Stopped, Why};
use jsp_reply::{Refusal, Reply, Said};
use jsp_types::NoMemory;
use std::alloc::Global;
use std::sync::atomic::{AtomicBool, AtomicU64, Ordering};
use std::sync::ledger::Ledger;
use std::sync::{Condvar, Mutex, MutexGuard, OnceLock, Wait};
use std::time::Duration;
use std::{hint, thread, time};

/// Most answers that one hold of the lock takes.
const MOST: u64 = 16;

/// The greatest number of a refusal.
const LAST_REFUSAL: usize = 22;

/// How often the lock is tried before a thread sleeps for it.
const TRIES: u32 = 100;

/// For how many turns a thread pauses between two tries.
const PAUSES: u32 = 8;

/// For how long, in milliseconds, the clock isn't read while nothing is to do.
const REST: u64 = 10;

/// How many steps one part of an act or of a turn makes at most: they take less than a millisecond.
const STEPS: u64 = 128;

/// How many steps a line makes at most of what is to be made before its act, in one hold. Most of
/// it is the settling worker's: a hundred lines that wait for one space would else hold up all
/// others.
const STEPS_BEFORE: u64 = 16;

/// By how many ends the clock goes on in one hold.
const MOST_ENDS: u32 = 16;

/// For how long, in microseconds, a thread leaves the lock between two parts.
const MOMENT: u64 = 20;

/// How often a thread lets others go first between two parts, at most.
const MOST_YIELDS: u32 = 10_000;

/// A house with its history under one lock, and what its lines and its settling worker wait on.
///
/// Of locks a thread takes that of what writes its line's answers first, then this one.
#[derive(Drop)]
pub struct Floor<H: InParts, A: Ledger, O: Ledger> {
    locked: Mutex<Locked<H, A, O>>,
    lines: Vec<Condvar>,
    settling: Condvar,
    /// The last reading of the clock that was acted. It is set under the lock.
    time: AtomicU64,
    most_waiting: u64,
    most_weight: u64,
    /// Whether an act may have left sessions open for which too many answers wait. It is set under
    /// the lock.
    are_more_over: AtomicBool,
    /// Whether an act left something to be made, so that the settling worker doesn't rest. It is
    /// set under the lock.
    is_left: AtomicBool,
    /// How often the lock was wanted, and how often it was had.
    wanted: AtomicU64,
    had: AtomicU64,
    /// Whether all lines have ended. It is set under the lock.
    ended: AtomicBool,
    /// What shows that an era was sealed, once one was, and lines keep no bytes from then on. It is
    /// set under the lock.
    seal: OnceLock<Sealed>,
    /// How many refusals of each number were taken: the number is the place. They are set under the
    /// lock.
    refusals: Vec<AtomicU64>,
    /// How many spaces there are.
    spaces: usize,
    ghost some_lines: { 0 < vec_len lines },
}

/// Why the second thread of a line is woken.
#[derive(Clone, Copy, Debug, PartialEq, Eq)]
pub(crate) enum Call {
    /// Something waits for its session.
    Answers,
    /// An era was sealed, as this shows.
    Sealed(Sealed),
    /// Its session is closed.
    Closed,
}

/// What one hold of the lock gave a line that asked.
#[derive(Drop)]
pub(crate) struct Held {
    pub(crate) acted: Result<Part, Stopped>,
    pub(crate) said: Result<Vec<Said>, Stopped>,
    pub(crate) is_open: bool,
    /// Where an era was sealed, what shows that.
    pub(crate) sealed: Option<Sealed>,
    /// Whether a transaction votes, whose turns are to be taken.
    pub(crate) is_voting: bool,
    /// A session that was shut, since its client reads no answers.
    pub(crate) shut: Option<u64>,
}

/// What a settle turn gave.
#[derive(Drop)]
pub(crate) struct Turned {
    /// Nothing, where more is to be made before or behind it.
    pub(crate) settled: Result<Option<Settled>, Stopped>,
    /// Whether a transaction votes after it.
    pub(crate) is_voting: bool,
    /// A session that was shut, since its client reads no answers.
    pub(crate) shut: Option<u64>,
    /// Whether all lines had ended.
    pub(crate) ended: bool,
}

/// How far a part of an act came.
#[derive(Drop)]
pub(crate) enum Part {
    /// All is made that follows from it.
    Done,
    /// Its own step is made, and the settling worker is to go on.
    Left,
    /// Its own step isn't made: something else was to be made first, and more is.
    NotYet(Input),
}

/// An act, once the clock went on, where nothing is to be made before it; else a part of that.
fn act_at<H: InParts, A: Ledger, O: Ledger>(
    kept: &mut Kept<H, A, O>,
    seat: &mut AskSeat<A>,
    went: Result<(), Stopped>,
    input: Input,
) -> Result<Part, Stopped>
    requires input { IsTrue (is_input input) }
    requires of { IsOf seat.old.session input }
    ensures asks { Asks seat.old seat.new }
    ensures not_yet { (x : OfInput) → result ≡ Ok (NotYet x) → IsNotYet seat.old seat.new x }
{
    if let Err(stopped) = went {
        return Err(stopped);
    }
    if !kept.apply_before(&input) {
        return Ok(Part::NotYet(input));
    }
    match kept.make_ready_some(&input, STEPS_BEFORE) {
        Ok(()) => act_ready(kept, seat, input),
        Err(Why::EraFull) => Ok(Part::NotYet(input)),
        Err(why) => Err(Stopped { why, done: false }),
    }
}

/// An act that the house was made ready for.
fn act_ready<H: InParts, A: Ledger, O: Ledger>(
    kept: &mut Kept<H, A, O>,
    seat: &mut AskSeat<A>,
    input: Input,
) -> Result<Part, Stopped>
    requires input { IsTrue (is_input input) }
    requires of { IsOf seat.old.session input }
    requires ready { IsReady kept.old.state [] input }
    ensures asks { Asks seat.old seat.new }
    ensures made { (x : OfInput) → result ≡ Ok (NotYet x) → ⊥ }
{
    match kept.act_beside(seat, input, STEPS) {
        Ok(()) => Ok(Part::Done),
        Err(stopped) if stopped.done && stopped.why == Why::EraFull => Ok(Part::Left),
        Err(stopped) => Err(stopped),
    }
}

/// A reading of the clock, where nothing is to be made before it, else a part of that. It says
/// whether it was acted.
fn clock_at<H: InParts, A: Ledger, O: Ledger>(
    kept: &mut Kept<H, A, O>,
    time: u64,
) -> Result<bool, Stopped> {
    match kept.make_ready_some(&Input::Clock { time }, STEPS_BEFORE) {
        Ok(()) => {}
        Err(Why::EraFull) => return Ok(false),
        Err(why) => return Err(Stopped { why, done: false }),
    }
    match kept.clock_beside(time, STEPS) {
        Ok(()) => Ok(true),
        Err(stopped) if stopped.done && stopped.why == Why::EraFull => Ok(true),
        Err(stopped) => Err(stopped),
    }
}

/// A settle turn, or a part of what is to be made before or behind it.
fn settle_at<H: InParts, A: Ledger, O: Ledger>(
    kept: &mut Kept<H, A, O>,
) -> Result<Option<Settled>, Stopped> {
    if !kept.apply_before_turn() {
        return Ok(None);
    }
    match kept.settle_some(STEPS) {
        Ok(settled) => Ok(Some(settled)),
        Err(stopped) if stopped.why == Why::EraFull => Ok(None),
        Err(stopped) => Err(stopped),
    }
}

/// The next answers of a line.
fn take_from<H: InParts, A: Ledger, O: Ledger>(
    kept: &mut Kept<H, A, O>,
    outs: &mut OutSeat<O>,
) -> Result<Vec<Said>, Stopped>
    ensures { outs.new ≡ taking outs.old (length (said_in result)) }
{
    kept.hand_out(outs, MOST)
}

/// A part of an act of a line, and its next answers.
fn hold<H: InParts, A: Ledger, O: Ledger>(
    kept: &mut Kept<H, A, O>,
    asks: &mut AskSeat<A>,
    went: Result<(), Stopped>,
    input: Input,
    outs: &mut OutSeat<O>,
) -> Held
    requires input { IsTrue (is_input input) }
    requires of { IsOf asks.old.session input }
    ensures asks { Asks asks.old asks.new }
    ensures not_yet { (x : OfInput) → result.acted ≡ Ok (NotYet x) → IsNotYet asks.old asks.new x }
    ensures outs { outs.new ≡ taking outs.old (length (said_in result.said)) }
{
    let acted = act_at(kept, asks, went, input);
    let said = take_from(kept, outs);
    Held {
        acted,
        said,
        is_open: kept.is_open(asks.session()),
        sealed: Sealed::of(kept),
        is_voting: kept.is_voting(),
        shut: None,
    }
}

impl<H: InParts, A: Ledger, O: Ledger> Floor<H, A, O> {
    /// Puts a lock round a history, for so many lines at once. After so many bytes that lines read
    /// and wrote a new era begins, and a session for which more answers wait than so many, or
    /// answers that take more memory, in bytes, is shut.
    pub fn new(
        alloc: Global,
        kept: Kept<H, A, O>,
        lines: usize,
        most_bytes: u64,
        most_waiting: u64,
        most_weight: u64,
    ) -> Result<Floor<H, A, O>, NoMemory> {
        let spaces = kept.spaces().len();
        Ok(Floor {
            locked: Mutex::new(Locked::new(alloc, kept, most_bytes)),
            lines: signals(alloc, lines)?,
            settling: Condvar::new(),
            time: AtomicU64::new(0),
            most_waiting,
            most_weight,
            are_more_over: AtomicBool::new(false),
            is_left: AtomicBool::new(false),
            wanted: AtomicU64::new(0),
            had: AtomicU64::new(0),
            ended: AtomicBool::new(false),
            seal: OnceLock::new(),
            refusals: zeros(alloc)?,
            spaces,
        })
    }

    // The history, once no other thread has it. Who wants it is counted.
    fn lock<T: Wait>(&self, rt: &T) -> MutexGuard<'_, Locked<H, A, O>> {
        self.wanted.fetch_add(1, Ordering::SeqCst);
        let locked = self.lock_soon(rt);
        self.had.fetch_add(1, Ordering::SeqCst);
        locked
    }

    // To sleep for the lock costs more than most holds of it take, so it is tried for some
    // microseconds first.
    fn lock_soon<T: Wait>(&self, rt: &T) -> MutexGuard<'_, Locked<H, A, O>> {
        for _ in 0..TRIES {
            if let Some(locked) = self.locked.try_lock() {
                return locked;
            }
            for _ in 0..PAUSES {
                hint::spin_loop();
            }
        }
        self.locked.lock(rt)
    }

    /// Waits until all have had the lock who want it by now, so that parts of one act, back to
    /// back, pass nobody over, and for a moment besides, in which who was woken can ask for it. No
    /// lock is held.
    pub(crate) fn give_way<T: time::Clock>(&self, rt: &T) {
        thread::sleep(rt, Duration::from_micros(MOMENT));
        let wanted = self.wanted.load(Ordering::SeqCst);
        for _ in 0..MOST_YIELDS {
            if self.had.load(Ordering::SeqCst) >= wanted {
                return;
            }
            thread::yield_now();
        }
    }

    // The signal of a session's line. Sessions may share one, so all that wait on it are woken.
    fn signal(&self, session: u64) -> &Condvar {
        &self.lines[session as usize % self.lines.len()]
    }

    // Lets the clock go on towards a reading, by a few ends at most, one at a time: so it is acted
    // once a millisecond, and not by each line. It waits for spaces that aren't quiet where
    // something ends in them. The lock is held.
    fn go_on(&self, kept: &mut Kept<H, A, O>, reading: u64) -> Result<(), Stopped> {
        for _ in 0..MOST_ENDS {
            let now = self.time.load(Ordering::SeqCst);
            if reading <= now || !kept.apply_before(&Input::Clock { time: reading }) {
                break;
            }
            let time = kept.next_time(reading);
            if time <= now || !clock_at(kept, time)? {
                break;
            }
            self.time.store(time, Ordering::SeqCst);
        }
        Ok(())
    }

    // Wakes the line of each session that was told something since they were woken last and has
    // answers waiting, but that of the session whose own thread takes them. The first for which too
    // many wait is shut, and answered: its client reads none, and holds up nobody else. Others are
    // shut at the next acts. The lock is held.
    fn wake_lines<T: Wait>(
        &self,
        rt: &T,
        locked: &mut Locked<H, A, O>,
        own: Option<u64>,
    ) -> Option<u64> {
        let mut shut = self.shut_left_over(rt, locked);
        for _ in rt.forever() {
            let Some(session) = locked.kept.next_told() else {
                break;
            };
            if locked.kept.waiting(session) == 0 {
                continue;
            }
            if self.is_over(&locked.kept, session) {
                if shut.is_none() {
                    locked.shut_for(session, ShutFor::Backlog);
                    shut = Some(session);
                } else {
                    self.are_more_over.store(true, Ordering::SeqCst);
                }
            }
            if own != Some(session) {
                self.signal(session).notify_all();
            }
        }
        shut
    }

    // Where an act left sessions open for which too many answers wait, the first is shut, and
    // answered. The lock is held.
    fn shut_left_over<T: Wait>(&self, rt: &T, locked: &mut Locked<H, A, O>) -> Option<u64> {
        if !self.are_more_over.load(Ordering::SeqCst) {
            return None;
        }
        let mut after = 0;
        for _ in rt.forever() {
            let Some(session) = locked.kept.next_waiting(after) else {
                self.are_more_over.store(false, Ordering::SeqCst);
                return None;
            };
            if self.is_over(&locked.kept, session) {
                locked.shut_for(session, ShutFor::Backlog);
                self.signal(session).notify_all();
                return Some(session);
            }
            after = session;
        }
        unreachable!()
    }

    // Whether more answers wait for the session than may, or larger ones.
    fn is_over(&self, kept: &Kept<H, A, O>, session: u64) -> bool {
        let is_much = kept.waiting(session) > self.most_waiting
            || kept.weight(session) > self.most_weight;
        is_much && kept.is_open(session)
    }

    // Counts the refusals among answers that were taken. The lock is held.
    fn note_refusals(&self, said: &Result<Vec<Said>, Stopped>) {
        let Ok(said) = said else {
            return;
        };
        for one in said.as_slice() {
            if let Reply::Refused { refusal, .. } = one.reply() {
                self.note_refusal(*refusal);
            }
        }
    }

    fn note_refusal(&self, refusal: Refusal) {
        if let Some(count) = self.refusals.get(usize::from(refusal.number())) {
            let so_far = count.load(Ordering::SeqCst);
            count.store(so_far.saturating_add(1), Ordering::SeqCst);
        }
    }

    /// Counts what stands in the house, in one hold of the lock, for which all memory was taken
    /// before.
    pub(crate) fn count<T: Wait>(&self, rt: &T, alloc: Global) -> Result<Counts, NoMemory> {
        let mut refusals = Vec::with_capacity(alloc, self.refusals.len())?;
        let mut spaces = Vec::with_capacity(alloc, self.spaces)?;
        let locked = self.lock(rt);
        let kept = &locked.kept;
        for count in self.refusals.as_slice() {
            refusals.push(count.load(Ordering::SeqCst))?;
        }
        for place in 0..self.spaces {
            spaces.push(kept.counts_in(place as u64))?;
        }
        Ok(Counts {
            lines: 0,
            seals: kept.seals(),
            requests: kept.requests(),
            answers: kept.answers(),
            refusals,
            transactions: kept.transactions(),
            spaces,
        })
    }

    /// Opens a session, and answers its two seats.
    pub fn begin<T: Wait + time::Clock>(&self, rt: &T) -> Result<(AskSeat<A>, OutSeat<O>), Stopped>
        ensures { IfOk result (λ s. IsSeated s.0 s.1) }
    {
        for _ in rt.forever() {
            let mut locked = self.lock(rt);
            if locked.kept.apply_before_turn() {
                match locked.kept.finish_some(STEPS) {
                    Err(stopped) if stopped.why == Why::EraFull => {}
                    _ => return locked.begin(),
                }
            }
            drop(locked);
            self.give_way(rt);
        }
        unreachable!()
    }

    /// Whether a session waits for an answer or for events.
    pub fn awaits<T: Wait>(&self, rt: &T, session: u64) -> bool {
        self.lock(rt).kept.awaits(session)
    }

    /// Shuts the session of a line that was silent, unless it waits for something by now.
    pub fn shut_silent<T: Wait>(&self, rt: &T, session: u64) {
        let mut locked = self.lock(rt);
        if !locked.kept.awaits(session) {
            locked.shut_for(session, ShutFor::Silent);
            self.signal(session).notify_all();
        }
    }

    /// How the session's line leaves, which has ended.
    pub fn leave<T: Wait>(&self, rt: &T, session: u64) -> Left {
        self.lock(rt).leave(session)
    }

    /// A part of an act of a line, which read and wrote so many bytes since its last one, and its
    /// next answers, in one hold of the lock, after this reading of the clock, where it is a later
    /// one. All lines that have answers waiting then are woken, and the settling worker where more
    /// is to be made. Where a transaction votes then, its turns are the caller's to take. So are
    /// steps of an era that is over, as many as there is room for, to be freed.
    pub(crate) fn act_and_take<T: Wait>(
        &self,
        rt: &T,
        asks: &mut AskSeat<A>,
        time: u64,
        bytes: u64,
        input: Input,
        outs: &mut OutSeat<O>,
        old: &mut Vec<Step>,
    ) -> Held
        requires input { IsTrue (is_input input) }
        requires of { IsOf asks.old.session input }
        ensures asks { Asks asks.old asks.new }
        ensures not_yet { (x : OfInput) → result.acted ≡ Ok (NotYet x) → IsNotYet asks.old asks.new x }
        ensures outs { outs.new ≡ taking outs.old (length (said_in result.said)) }
    {
        let mut guard = self.lock(rt);
        let locked = &mut *guard;
        locked.weigh(bytes);
        locked.kept.take_old(old);
        let went = self.go_on(&mut locked.kept, time);
        let mut held = hold(&mut locked.kept, asks, went, input, outs);
        self.note_refusals(&held.said);
        held.shut = self.wake_lines(rt, locked, None);
        if !matches!(held.acted, Ok(Part::Done)) {
            self.is_left.store(true, Ordering::SeqCst);
            self.settling.notify_all();
        }
        held
    }

    /// The next answers of a line, if there are any, which read and wrote so many bytes since its
    /// last act, and what shows that an era was sealed, where one was.
    pub(crate) fn take<T: Wait>(
        &self,
        rt: &T,
        bytes: u64,
        outs: &mut OutSeat<O>,
    ) -> (Result<Vec<Said>, Stopped>, Option<Sealed>)
        ensures { outs.new ≡ taking outs.old (length (said_in result.0)) }
    {
        let mut locked = self.lock(rt);
        locked.weigh(bytes);
        let said = take_from(&mut locked.kept, outs);
        self.note_refusals(&said);
        (said, Sealed::of(&locked.kept))
    }

    /// Waits until something waits for the session, or it is closed, or an era was sealed, where
    /// its line wasn't told of one.
    pub(crate) fn wait_for<T: Wait>(&self, rt: &T, session: u64, is_told: bool) -> Call {
        let mut locked = self.lock(rt);
        for _ in rt.forever() {
            if !locked.kept.is_open(session) {
                return Call::Closed;
            }
            if let Some(sealed) = self.seal.get()
                && !is_told
            {
                return Call::Sealed(*sealed);
            }
            if locked.kept.next_waiting(session.saturating_sub(1)) == Some(session) {
                return Call::Answers;
            }
            locked = self.signal(session).wait(rt, locked);
        }
        unreachable!()
    }

    /// Closes the session for its own line, if it is open, and wakes that, which ends.
    pub fn shut<T: Wait>(&self, rt: &T, session: u64) {
        let mut locked = self.lock(rt);
        locked.kept.shut(session);
        self.signal(session).notify_all();
    }

    /// Closes the session by itself, if it is open, notes why, and wakes its line, which ends.
    pub fn shut_for<T: Wait>(&self, rt: &T, session: u64, why: ShutFor) {
        let mut locked = self.lock(rt);
        locked.shut_for(session, why);
        self.signal(session).notify_all();
    }

    /// Whether the session is open.
    pub fn is_open<T: Wait>(&self, rt: &T, session: u64) -> bool {
        self.lock(rt).kept.is_open(session)
    }

    /// What shows that an era was sealed, once one was, and lines keep no bytes from then on.
    pub(crate) fn seal(&self) -> &OnceLock<Sealed> {
        &self.seal
    }

    /// Wakes all lines where an era was sealed for the first time, so that also those at rest drop
    /// what they keep, and says whether one was. No lock is held for that.
    pub(crate) fn tell_of_seal<T: Wait>(&self, rt: &T) -> bool {
        if self.seal.get().is_some() || !self.sees_seal(rt) {
            return false;
        }
        for signal in self.lines.as_slice() {
            signal.notify_all();
        }
        true
    }

    // Whether an era was sealed and that wasn't known, as it is from then on.
    fn sees_seal<T: Wait>(&self, rt: &T) -> bool {
        let locked = self.lock(rt);
        let Some(sealed) = Sealed::of(&locked.kept) else {
            return false;
        };
        self.seal.try_set(sealed).is_ok()
    }

    /// A settle turn, or a part of it, after this reading of the clock, where it is a later one.
    /// All lines that have answers waiting then are woken, but that of the caller's own session,
    /// where it has one and takes them itself, and the settling worker where it isn't the caller
    /// and more is to be made. Steps of an era that is over are the caller's to free, as many as
    /// there is room for.
    pub(crate) fn settle<T: Wait>(
        &self,
        rt: &T,
        time: u64,
        own: Option<u64>,
        old: &mut Vec<Step>,
    ) -> Turned {
        let mut guard = self.lock(rt);
        let locked = &mut *guard;
        locked.kept.take_old(old);
        let settled = match self.go_on(&mut locked.kept, time) {
            Ok(()) => settle_at(&mut locked.kept),
            Err(stopped) => Err(stopped),
        };
        let is_left = !matches!(settled, Ok(Some(_)));
        self.is_left.store(is_left, Ordering::SeqCst);
        if is_left && own.is_some() {
            self.settling.notify_all();
        }
        Turned {
            settled,
            is_voting: locked.kept.is_voting(),
            shut: self.wake_lines(rt, locked, own),
            ended: self.ended.load(Ordering::SeqCst),
        }
    }

    /// Waits until something is to settle, or the clock is to be read. After a turn that was
    /// stopped it waits though something is to settle.
    pub(crate) fn rest<T: Wait + time::Clock>(&self, rt: &T, was_stopped: bool) {
        let locked = self.lock(rt);
        let is_left = self.is_left.load(Ordering::SeqCst) || locked.kept.is_voting();
        if self.ended.load(Ordering::SeqCst) || is_left && !was_stopped {
            return;
        }
        let (_locked, _timed_out) = self
            .settling
            .wait_timeout(rt, locked, Duration::from_millis(REST));
    }

    /// Has the settling worker take the next turn.
    pub(crate) fn call_worker(&self) {
        self.settling.notify_all();
    }

    /// Tells the settling worker that all lines have ended.
    pub fn end<T: Wait>(&self, rt: &T) {
        let _locked = self.lock(rt);
        self.ended.store(true, Ordering::SeqCst);
        self.settling.notify_all();
    }

    /// The history, once all threads have ended.
    pub fn into_kept(self) -> Kept<H, A, O> {
        let Floor {
            locked,
            lines: _,
            settling: _,
            time: _,
            most_waiting: _,
            most_weight: _,
            are_more_over: _,
            is_left: _,
            wanted: _,
            had: _,
            ended: _,
            seal: _,
            refusals: _,
            spaces: _,
        } = self;
        let Locked { kept, .. } = locked.into_inner();
        kept
    }
}

// A count for each number of a refusal, from 0 on.
fn zeros(alloc: Global) -> Result<Vec<AtomicU64>, NoMemory> {
    let mut counts = Vec::new(alloc);
    for _ in 0..=LAST_REFUSAL {
        counts.push(AtomicU64::new(0))?;
    }
    Ok(counts)
}

// A signal for each line, and one at least.
fn signals(alloc: Global, lines: usize) -> Result<Vec<Condvar>, NoMemory>
    ensures { IfOk result (λ v. 0 < vec_len v) }
{
    let mut signals = Vec::new(alloc);
    signals.push(Condvar::new())?;
    for _ in 1..lines {
        signals.push(Condvar::new())?;
    }
    Ok(signals)
}
