//! What keeps a state of the abstract spaces.
ghost use Rattle.std.specs.Prelude.{◌≡◌, ◌<◌, ◌-◌, IsTrue, false, List, ℕ, Option, Some, None, is_none, length, take, IfOk, IfErr, OnOk, OnErr, vec_len, vec_capacity};
ghost use Rattle.jsp_model.specs.declared.state.State.{State};
ghost use Rattle.jsp_model.specs.Lookup.{is_open};
ghost use Rattle.jsp_model.specs.Outboxes.{outbox_of};
ghost use Rattle.jsp_model.specs.Settling.{first_unquiet, settle_step};
ghost use Rattle.jsp_model.specs.House.{is_input, Goes, IsReady, accepts, Acts, Settles, Finishes, Makes, OpensNone, KeepsRoom, KeepsBound, MayStop, WasFull, handed_out, shuts, next_waiting, awaits_decision, next_turn};

use crate::{Image, Step};
use jsp_reply::{Refusal, Said};
use jsp_types::NoMemory;
use jsp_wire::Asked;
use thiserror::Error;

/// What happens to a house from outside.
#[derive(Drop)]
pub enum Input {
    /// A session is opened. Passed over where its number isn't above all earlier ones and from 1
    /// to 2^31.
    Open {
        session: u64,
    },
    /// A reading of the clock, in milliseconds.
    Clock {
        time: u64,
    },
    /// A session's request. Passed over where the session isn't open.
    Ask {
        session: u64,
        asked: Asked,
    },
    /// A session's bytes that are no request. Passed over where the session isn't open. The
    /// caller's condition: the refusal is `BadJson`, `BadRequest` or `TooLong`.
    Fault {
        session: u64,
        id: Option<u64>,
        refusal: Refusal,
    },
}

/// Why a call was stopped.
#[derive(Clone, Copy, Debug, Drop, Error, PartialEq, Eq)]
pub enum Why {
    /// A growth was refused.
    #[error("out of memory")]
    NoMemory,
    /// The log has reached the length that was set by `bound`.
    #[error("the log is full")]
    EraFull,
    /// There are no more numbers for sessions. No house is stopped by it.
    #[error("no more numbers for sessions")]
    Sessions,
    /// Two counts differ that should be the same. No house is stopped by it.
    #[error("two counts differ")]
    Audit,
}

impl From<NoMemory> for Why {
    ghost use Rattle.std.specs.Prelude.{◌≡◌};
    ghost use Rattle.jsp_model.specs.declared.house.Why.TheVariants.{NoMemory};

    ghost from_gives = { λ _ e. e ≡ NoMemory };

    fn from(_e: NoMemory) -> Why {
        Why::NoMemory
    }
}

/// A call that was stopped. The steps that it made stand in the log; `done` says whether its own
/// step is among them.
#[derive(Clone, Copy, Debug, Drop, Error, PartialEq, Eq)]
#[error("stopped: {why}")]
pub struct Stopped {
    pub why: Why,
    pub done: bool,
}

/// What a settle turn did.
#[derive(Clone, Copy, Debug, PartialEq, Eq)]
pub enum Settled {
    /// The next space voted on the transaction whose commit was asked first.
    Voted,
    /// That transaction was committed or aborted.
    Decided,
    /// No transaction votes. The first space that wasn't quiet is quiet now.
    Quieted,
    /// No transaction votes, and every space is quiet.
    Idle,
}

/// What keeps a state of the abstract spaces, and makes its steps.
///
/// Each call adds the steps that it made to a log. They are a run from the state before the call to
/// the state after it, also where the call was stopped. Each step's growths are made before it, so
/// a step is made whole or not at all. If the log had a spare place for each open session before a
/// call, it has one for each after it.
pub trait House: Drop {
    /// The state that it stands for.
    ghost view: { Self → State };

    /// The spaces that stopped calls left to be made quiet.
    ghost debt: { Self → List ℕ };

    /// The length up to which calls may fill the log, if there is one.
    ghost bound_of: { Self → Option ℕ };

    /// Makes what an earlier call left, what is due, and what the spaces owe that the input's own
    /// step touches, without that step. All that it touches stays owed, so that the act which
    /// follows tells of it too.
    fn make_ready(&mut self, input: &Input, log: &mut Vec<Step>) -> Result<(), Why>
        ensures goes { Goes (view self.old) (view self.new) (debt self.old) (debt self.new) log.old.items log.new.items }
        ensures ready { OnOk result (IsReady (view self.new) (debt self.new) input.now) }
        ensures why { IfErr result (λ w. MayStop (bound_of self.old) (vec_len log.new) w) }
        ensures room { KeepsRoom (view self.old) (view self.new) (vec_capacity log.old - vec_len log.old) (vec_capacity log.new - vec_len log.new) }
        ensures bound { KeepsBound (bound_of self.old) (bound_of self.new) (vec_len log.old) (vec_len log.new) };

    /// Makes the input's own step, once, and then those that nobody has to ask for, until nothing
    /// is due and every touched space is quiet. What an earlier call left is finished first. Where
    /// the house was made ready for the input, the log has the place for its step, if it had one at
    /// the call.
    fn act(&mut self, input: Input, log: &mut Vec<Step>) -> Result<(), Stopped>
        requires { IsTrue (is_input input) }
        ensures acts { Acts (view self.old) (view self.new) (debt self.old) (debt self.new) log.old.items log.new.items input result }
        ensures passed_over { accepts (view self.old) input ≡ false → IfErr result (λ e. e.done ≡ false) }
        ensures opens { OpensNone input result }
        ensures ready { IsReady (view self.old) (debt self.old) input → WasFull (bound_of self.old) (vec_len log.old) result }
        ensures why { IfErr result (λ e. MayStop (bound_of self.old) (vec_len log.new) e.why) }
        ensures room { KeepsRoom (view self.old) (view self.new) (vec_capacity log.old - vec_len log.old) (vec_capacity log.new - vec_len log.new) }
        ensures bound { KeepsBound (bound_of self.old) (bound_of self.new) (vec_len log.old) (vec_len log.new) };

    /// The same of a house that was made ready for the input: what was found quiet then isn't
    /// looked at again.
    fn act_ready(&mut self, input: Input, log: &mut Vec<Step>) -> Result<(), Stopped>
        requires input { IsTrue (is_input input) }
        requires ready { IsReady (view self.old) (debt self.old) input }
        ensures acts { Acts (view self.old) (view self.new) (debt self.old) (debt self.new) log.old.items log.new.items input result }
        ensures passed_over { accepts (view self.old) input ≡ false → IfErr result (λ e. e.done ≡ false) }
        ensures opens { OpensNone input result }
        ensures full { WasFull (bound_of self.old) (vec_len log.old) result }
        ensures why { IfErr result (λ e. MayStop (bound_of self.old) (vec_len log.new) e.why) }
        ensures room { KeepsRoom (view self.old) (view self.new) (vec_capacity log.old - vec_len log.old) (vec_capacity log.new - vec_len log.new) }
        ensures bound { KeepsBound (bound_of self.old) (bound_of self.new) (vec_len log.old) (vec_len log.new) };

    /// One turn of what waits for nobody's input: the next vote or the decision of the transaction
    /// whose commit was asked first; where none votes, the first space that isn't quiet, in the
    /// configured order, is made quiet. What an earlier call left is finished first.
    fn settle(&mut self, log: &mut Vec<Step>) -> Result<Settled, Stopped>
        ensures settles { Settles (view self.old) (view self.new) (debt self.old) (debt self.new) log.old.items log.new.items result }
        ensures unasked { settle_step (view self.old) ≡ None → IfErr result (λ e. e.done ≡ false) }
        ensures why { IfErr result (λ e. MayStop (bound_of self.old) (vec_len log.new) e.why) }
        ensures room { KeepsRoom (view self.old) (view self.new) (vec_capacity log.old - vec_len log.old) (vec_capacity log.new - vec_len log.new) }
        ensures bound { KeepsBound (bound_of self.old) (bound_of self.new) (vec_len log.old) (vec_len log.new) };

    /// Makes what an earlier call left, and what is due, without a step of its own.
    fn finish(&mut self, log: &mut Vec<Step>) -> Result<(), Stopped>
        ensures finishes { Finishes (view self.old) (view self.new) (debt self.old) (debt self.new) log.old.items log.new.items result }
        ensures not_done { IfErr result (λ e. e.done ≡ false) }
        ensures why { IfErr result (λ e. MayStop (bound_of self.old) (vec_len log.new) e.why) }
        ensures room { KeepsRoom (view self.old) (view self.new) (vec_capacity log.old - vec_len log.old) (vec_capacity log.new - vec_len log.new) }
        ensures bound { KeepsBound (bound_of self.old) (bound_of self.new) (vec_len log.old) (vec_len log.new) };

    /// The next answers of a session, at most `most`, in one step, or in none where there are none.
    fn hand_out(
        &mut self,
        session: u64,
        most: u64,
        log: &mut Vec<Step>,
    ) -> Result<Vec<Said>, Stopped>
        ensures answers { IfOk result (λ v. v.items ≡ take most (outbox_of (view self.old) session)) }
        ensures steps { IfOk result (λ v. Makes (view self.old) (view self.new) log.old.items log.new.items (handed_out session (length v.items))) }
        ensures err { OnErr result ((view self.new ≡ view self.old) × (log.new.items ≡ log.old.items)) }
        ensures not_done { IfErr result (λ e. e.done ≡ false) }
        ensures debt { debt self.new ≡ debt self.old }
        ensures why { IfErr result (λ e. MayStop (bound_of self.old) (vec_len log.new) e.why) }
        ensures room { KeepsRoom (view self.old) (view self.new) (vec_capacity log.old - vec_len log.old) (vec_capacity log.new - vec_len log.new) }
        ensures bound { KeepsBound (bound_of self.old) (bound_of self.new) (vec_len log.old) (vec_len log.new) };

    /// Closes a session, if it is open. Takes no memory: the log has room for the step. No bound
    /// stops it.
    fn shut(&mut self, session: u64, log: &mut Vec<Step>)
        requires { vec_len log.old < vec_capacity log.old }
        ensures steps { Makes (view self.old) (view self.new) log.old.items log.new.items (shuts (view self.old) session) }
        ensures debt { debt self.new ≡ debt self.old }
        ensures room { KeepsRoom (view self.old) (view self.new) (vec_capacity log.old - vec_len log.old) (vec_capacity log.new - vec_len log.new) }
        ensures bound { bound_of self.new ≡ bound_of self.old };

    /// From now on no call but `shut` adds to a log that is this long or longer.
    fn bound(&mut self, most: u64)
        ensures bound { bound_of self.new ≡ Some most }
        ensures view { view self.new ≡ view self.old }
        ensures debt { debt self.new ≡ debt self.old };

    /// Whether the session is open.
    fn is_open(&self, session: u64) -> bool
        ensures { result ≡ is_open (view self.now) session };

    /// The least session above this number that has answers waiting to be handed out. A caller that
    /// begins at 0 and goes on from each answer finds them all.
    fn next_waiting(&self, after: u64) -> Option<u64>
        ensures { result ≡ next_waiting (view self.now) after };

    /// Whether some commit awaits its decision.
    fn is_voting(&self) -> bool
        ensures { result ≡ awaits_decision (view self.now) };

    /// What the next settle turn answers, where some commit awaits its decision.
    fn turn(&self) -> Option<Settled>
        ensures { result ≡ next_turn (view self.now) };

    /// Whether every space is quiet.
    fn is_quiet(&self) -> bool
        ensures { result ≡ is_none (first_unquiet (view self.now)) };

    /// A copy of the state.
    fn image(&self) -> Result<Image, NoMemory>
        ensures { IfOk result (λ i. i ≡ view self.now) };
}
