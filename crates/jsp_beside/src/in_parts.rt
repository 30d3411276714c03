//! A house that can be called beside what it owes.
ghost use Rattle.std.specs.Prelude.{◌≡◌, ◌==◌, ◌||◌, ◌≤◌, ◌-◌, [], false, filter, length, nat_le, nat_lt, IfErr, IsTrue, OnOk, vec_len, vec_capacity};
ghost use Rattle.std.specs.List.{list_any};
ghost use Rattle.jsp_model.specs.Outboxes.{outbox_of};
ghost use Rattle.jsp_model.specs.House.{is_input, IsReady, accepts, OpensNone, KeepsRoom, KeepsBound, MayStop, WasFull};
ghost use Rattle.jsp_beside.specs.Beside.{ActsBeside, GoesBeside};

use jsp_model::{Backlog, Input, Step, Stopped, Why};

/// A house that can be called beside what earlier calls left to be made, which stays owed.
///
/// What each call adds to the log, and when it is stopped, is as `House` says.
pub trait InParts: Backlog {
    /// Makes what is due, and what the spaces owe that the input's own step touches, without that
    /// step.
    fn make_ready_beside(&mut self, input: &Input, log: &mut Vec<Step>) -> Result<(), Why>
        ensures goes { GoesBeside (Self.view self.old) (Self.view self.new) (Self.debt self.old) (Self.debt self.new) log.old.items log.new.items result }
        ensures ready { OnOk result (IsReady (Self.view self.new) [] input.now) }
        ensures why { IfErr result (λ w. MayStop (Self.bound_of self.old) (vec_len log.new) w) }
        ensures room { KeepsRoom (Self.view self.old) (Self.view self.new) (vec_capacity log.old - vec_len log.old) (vec_capacity log.new - vec_len log.new) }
        ensures bound { KeepsBound (Self.bound_of self.old) (Self.bound_of self.new) (vec_len log.old) (vec_len log.new) };

    /// Makes the input's own step, once, and then those that nobody has to ask for, until nothing
    /// is due and every space is quiet that these steps touched.
    fn act_beside(&mut self, input: Input, log: &mut Vec<Step>) -> Result<(), Stopped>
        requires input { IsTrue (is_input input) }
        requires ready { IsReady (Self.view self.old) [] input }
        ensures acts { ActsBeside (Self.view self.old) (Self.view self.new) (Self.debt self.old) (Self.debt self.new) log.old.items log.new.items input result }
        ensures passed_over { accepts (Self.view self.old) input ≡ false → IfErr result (λ e. e.done ≡ false) }
        ensures opens { OpensNone input result }
        ensures full { WasFull (Self.bound_of self.old) (vec_len log.old) result }
        ensures why { IfErr result (λ e. MayStop (Self.bound_of self.old) (vec_len log.new) e.why) }
        ensures room { KeepsRoom (Self.view self.old) (Self.view self.new) (vec_capacity log.old - vec_len log.old) (vec_capacity log.new - vec_len log.new) }
        ensures bound { KeepsBound (Self.bound_of self.old) (Self.bound_of self.new) (vec_len log.old) (vec_len log.new) };

    /// Applies some of what was decided earlier, where the input touches a space or the clock goes
    /// on to a row's end, in a time that doesn't grow with how much that is. Whether nothing is
    /// left there. What is left a call of the input applies by itself, all at once. Nothing that is
    /// said of the house changes.
    fn apply_before(&mut self, input: &Input) -> bool
        ensures view { Self.view self.new ≡ Self.view self.old }
        ensures debt { Self.debt self.new ≡ Self.debt self.old }
        ensures bound { Self.bound_of self.new ≡ Self.bound_of self.old };

    /// The same where the next settle turn touches a space, or in all spaces where no transaction
    /// votes.
    fn apply_before_turn(&mut self) -> bool
        ensures view { Self.view self.new ≡ Self.view self.old }
        ensures debt { Self.debt self.new ≡ Self.debt self.old }
        ensures bound { Self.bound_of self.new ≡ Self.bound_of self.old };

    /// How far the clock is to go on towards a reading: to the next end, so that ends come one at a
    /// time, or to before it where what ends stands in a space that isn't quiet; to the reading
    /// where nothing ends by then. Nothing changes.
    fn next_time(&mut self, reading: u64) -> u64
        ensures within { result ≤ reading }
        ensures view { Self.view self.new ≡ Self.view self.old }
        ensures debt { Self.debt self.new ≡ Self.debt self.old }
        ensures bound { Self.bound_of self.new ≡ Self.bound_of self.old };

    /// Whether a session has a request that waits, a registration, or an answer that it wasn't
    /// handed.
    fn awaits(&self, session: u64) -> bool
        ensures { result ≡ ((nat_le 1 (length (filter (λ b. b.session == session) (Self.view self.now).blocked)) || list_any (λ r. r.session == session) (Self.view self.now).registrations) || nat_lt 0 (length (outbox_of (Self.view self.now) session))) };

    /// About how many bytes of memory the answers take that wait for a session. No clause says it.
    fn weight(&self, session: u64) -> u64;
}
