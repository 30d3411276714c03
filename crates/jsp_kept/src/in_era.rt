//! The calls of the house, each in the present era: a full era ends them.
ghost use Rattle.std.specs.Prelude.{◌≡◌, ◌+◌, ◌^◌, ◌≤◌, [], true, false, IfOk, IfErr, OnOk, OnErr, length, take, IsTrue};
ghost use Rattle.jsp_model.specs.declared.house.Input.TheVariants as input;
ghost use Rattle.jsp_model.specs.declared.house.Why.TheVariants as why;
ghost use Rattle.jsp_model.specs.Lookup.{is_open};
ghost use Rattle.jsp_model.specs.Outboxes.{outbox_of};
ghost use Rattle.jsp_model.specs.House.{AnswersOf, IsReady, acted, handed_out, is_input, settled_by};
ghost use Rattle.jsp_quiet.specs.Steady.{IsSteady};
ghost use Rattle.jsp_kept.specs.History.{is_lawful};
ghost use Rattle.jsp_kept.specs.Calls.{Begins, IsOf, KeepsAsks, KeepsOuts, RaisesAsks, RaisesOuts, made, outcome};
ghost use Rattle.jsp_kept.specs.Eras.{Grows, HasPlace, IsNearer, NeedsMemory, GrowsAsAsked, Prepares};

use crate::counts::{raise, reserve_both};
use crate::kept::Kept;
use crate::seats::{AskSeat, OutSeat, Seat};
use jsp_model::{House, Input, Settled, Stopped, Why};
use jsp_reply::Said;
use jsp_types::NoMemory;
use std::sync::ledger::Ledger;

impl<H: House, A: Ledger, O: Ledger> Kept<H, A, O> {
    /// Makes ready for the input.
    pub(crate) fn ready_in_era(&mut self, input: &Input) -> Result<(), Why>
        requires { HasPlace self.old }
        ensures prepares { Prepares self.old self.new }
        ensures ready { OnOk result (IsReady self.new.state self.new.debt input.now) }
        ensures nearer { IfErr result (IsNearer self.old self.new) }
        ensures asks { KeepsAsks self.old self.new }
        ensures outs { KeepsOuts self.old self.new }
    {
        self.house.make_ready(input, &mut self.log)
    }

    /// Makes what is left and due.
    pub(crate) fn finish_in_era(&mut self) -> Result<(), Stopped>
        requires { HasPlace self.old }
        ensures performs { GrowsAsAsked self.old self.new [] result }
        ensures nearer { IfErr result (λ e. IsNearer self.old self.new e.why) }
        ensures asks { KeepsAsks self.old self.new }
        ensures outs { KeepsOuts self.old self.new }
    {
        self.house.finish(&mut self.log)
    }

    /// A settle turn.
    pub(crate) fn settle_in_era(&mut self) -> Result<Settled, Stopped>
        requires { HasPlace self.old }
        ensures performs { GrowsAsAsked self.old self.new (settled_by self.old.state result) (outcome result) }
        ensures answers { AnswersOf self.old.state self.new.state self.new.debt result }
        ensures nearer { IfErr result (λ e. e.done ≡ false → IsNearer self.old self.new e.why) }
        ensures steady { IsSteady self.old.state }
        ensures asks { KeepsAsks self.old self.new }
        ensures outs { KeepsOuts self.old self.new }
    {
        self.house.settle(&mut self.log)
    }

    /// A reading of the clock, for which the house was made ready.
    pub(crate) fn clock_in_era(&mut self, time: u64) -> Result<(), Stopped>
        requires place { HasPlace self.old }
        requires ready { IsReady self.old.state self.old.debt (input.Clock time) }
        ensures performs { GrowsAsAsked self.old self.new (acted self.old.state (input.Clock time) result) result }
        ensures why { IfErr result NeedsMemory }
        ensures asks { KeepsAsks self.old self.new }
        ensures outs { KeepsOuts self.old self.new }
    {
        self.house.act_ready(Input::Clock { time }, &mut self.log)
    }

    /// An input of the seat's session, for which the house was made ready. The seat's count is its
    /// session's.
    pub(crate) fn act_in_era(&mut self, seat: &mut AskSeat<A>, input: Input) -> Result<(), Stopped>
        requires lawful { is_lawful self.old.asked self.old.asks_book seat.old ≡ true }
        requires input { IsTrue (is_input input) }
        requires of { IsOf seat.old.session input }
        requires place { HasPlace self.old }
        requires ready { IsReady self.old.state self.old.debt input }
        ensures performs { GrowsAsAsked self.old self.new (acted self.old.state input result) result }
        ensures counts { RaisesAsks self.old self.new seat.old seat.new (made (is_open self.old.state seat.old.session) result) }
        ensures why { IfErr result NeedsMemory }
        ensures outs { KeepsOuts self.old self.new }
    {
        let session = seat.session;
        let open = self.house.is_open(session);
        let result = self.house.act_ready(input, &mut self.log);
        let by = own_steps(open, &result);
        raise(&mut self.asked, session as usize - 1, by);
        self.asks_sum += by;
        self.asks.add(&mut seat.share, by);
        seat.count += by;
        result
    }

    /// Opens the session above the last, for which the house was made ready.
    pub(crate) fn open_in_era(&mut self, session: u64) -> Result<Seat<A, O>, Stopped>
        requires next { session ≡ self.old.state.last_session + 1 }
        requires most { session ≤ 2 ^ 31 }
        requires place { HasPlace self.old }
        requires ready { IsReady self.old.state self.old.debt (input.Open session) }
        ensures performs { GrowsAsAsked self.old self.new (acted self.old.state (input.Open session) (outcome result)) (outcome result) }
        ensures begins { IfOk result (λ s. Begins self.old self.new s.asks s.outs) }
        ensures err { IfErr result (λ e. (e.done ≡ false) × (e.why ≡ why.NoMemory)) }
        ensures asks { OnErr result (KeepsAsks self.old self.new) }
        ensures outs { OnErr result (KeepsOuts self.old self.new) }
    {
        if let Err(NoMemory) = reserve_both(&mut self.asked, &mut self.taken) {
            return Err(unmade(Why::NoMemory));
        }
        if let Err(stopped) = self.house.act_ready(Input::Open { session }, &mut self.log) {
            return Err(stopped);
        }
        self.asked.push_reserved(0);
        self.taken.push_reserved(0);
        let asks = AskSeat {
            session,
            count: 0,
            share: self.asks_rest.split_off(1, 0),
        };
        let outs = OutSeat {
            session,
            count: 0,
            share: self.outs_rest.split_off(1, 0),
        };
        Ok(Seat { asks, outs })
    }

    /// The next answers of the seat's session, at most `most`. The seat's count is its session's.
    pub(crate) fn hand_out_in_era(
        &mut self,
        seat: &mut OutSeat<O>,
        most: u64,
    ) -> Result<Vec<Said>, Stopped>
        requires lawful { is_lawful self.old.taken self.old.outs_book seat.old ≡ true }
        requires place { HasPlace self.old }
        ensures answers { IfOk result (λ v. v.items ≡ take most (outbox_of self.old.state seat.old.session)) }
        ensures steps { IfOk result (λ v. Grows self.old self.new (handed_out seat.old.session (length v.items))) }
        ensures counts { IfOk result (λ v. RaisesOuts self.old self.new seat.old seat.new (length v.items)) }
        ensures err { OnErr result ((self.new ≡ self.old) × (seat.new ≡ seat.old)) }
        ensures why { IfErr result (λ e. (e.done ≡ false) × (e.why ≡ why.NoMemory)) }
        ensures debt { self.new.debt ≡ self.old.debt }
        ensures asks { KeepsAsks self.old self.new }
    {
        let session = seat.session;
        let answers = self.house.hand_out(session, most, &mut self.log)?;
        let count = answers.len() as u64;
        raise(&mut self.taken, session as usize - 1, count);
        self.outs_sum += count;
        self.outs.add(&mut seat.share, count);
        seat.count += count;
        Ok(answers)
    }
}

/// How many steps of its own the act made.
pub(crate) fn own_steps(accepted: bool, answer: &Result<(), Stopped>) -> u64
    ensures { result ≡ made accepted answer.now }
{
    match answer {
        Ok(()) => u64::from(accepted),
        Err(stopped) => u64::from(accepted && stopped.done),
    }
}

/// A call that was stopped before its own step.
pub(crate) fn unmade(why: Why) -> Stopped
    ensures { result ≡ record { why = why; done = false } }
{
    Stopped { why, done: false }
}
