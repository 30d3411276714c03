//! Calls in parts, so that no hold of a lock is long: each makes so many steps at most, and
//! `EraFull` says that more are to be made: it made as many, or filled its era. What is left to be
//! made is owed, and calls beside it aren't held up by it.
ghost use Rattle.std.specs.Prelude.{◌≡◌, ◌==◌, ◌||◌, ◌≤◌, ◌+◌, [], false, true, filter, length, nat_le, nat_lt, OnOk, IfOk, IfErr, IsTrue};
ghost use Rattle.jsp_model.specs.declared.house.Input.TheVariants as input;
ghost use Rattle.jsp_model.specs.declared.house.Why.TheVariants as why;
ghost use Rattle.std.specs.List.{list_any};
ghost use Rattle.jsp_model.specs.Lookup.{is_open};
ghost use Rattle.jsp_model.specs.Outboxes.{outbox_of};
ghost use Rattle.jsp_model.specs.House.{AnswersTurn, IsReady, acted, is_input, settled_by};
ghost use Rattle.jsp_kept.specs.History.{is_lawful, limit_of};
ghost use Rattle.jsp_kept.specs.Calls.{IsOf, KeepsAsks, KeepsOuts, RaisesAsks, audit, made, outcome};
ghost use Rattle.jsp_kept.specs.Eras.{HasPlace, GrowsAsAsked};
ghost use Rattle.jsp_kept.specs.Parts.{EndsPart, IsLong, PerformsBeside, PreparesBeside, begun, limit_begun};

use crate::counts::{may_count, raise};
use crate::in_era::{own_steps, unmade};
use crate::kept::Kept;
use crate::seats::AskSeat;
use crate::within::{act_within, finish_within, ready_within, settle_within};
use jsp_beside::InParts;
use jsp_model::{Input, Settled, Stopped, Why};
use std::sync::ledger::Ledger;

impl<H: InParts, A: Ledger, O: Ledger> Kept<H, A, O> {
    /// Makes what is due, and what the spaces owe that the input's own step touches, at most so
    /// many steps of it.
    pub fn make_ready_some(&mut self, input: &Input, most: u64) -> Result<(), Why>
        ensures prepares { PreparesBeside self.old self.new result }
        ensures ready { OnOk result (IsReady self.new.state [] input.now) }
        ensures why { IfErr result EndsPart }
        ensures asks { KeepsAsks self.old self.new }
        ensures outs { KeepsOuts self.old self.new }
        ensures few { length self.new.steps ≤ length self.old.steps + most }
        ensures long { IfErr result (λ w. w ≡ why.EraFull → IsLong (begun self.old) (limit_begun self.old) most (length self.new.steps)) }
    {
        self.make_place();
        self.ready_part(input, most)
    }

    /// A request or fault of the seat's session, for which the house was made ready, and what
    /// follows from it, at most so many steps in all. Where the session is closed, it is passed
    /// over.
    pub fn act_beside(
        &mut self,
        seat: &mut AskSeat<A>,
        input: Input,
        most: u64,
    ) -> Result<(), Stopped>
        requires input { IsTrue (is_input input) }
        requires of { IsOf seat.old.session input }
        requires ready { IsReady self.old.state [] input }
        ensures audit { is_lawful self.old.asked self.old.asks_book seat.old ≡ false → (result ≡ Err audit) × (self.new ≡ self.old) × (seat.new ≡ seat.old) }
        ensures performs { is_lawful self.old.asked self.old.asks_book seat.old ≡ true → PerformsBeside self.old self.new (acted self.old.state input result) result }
        ensures counts { is_lawful self.old.asked self.old.asks_book seat.old ≡ true → RaisesAsks self.old self.new seat.old seat.new (made (is_open self.old.state seat.old.session) result) }
        ensures why { is_lawful self.old.asked self.old.asks_book seat.old ≡ true → IfErr result (λ e. EndsPart e.why) }
        ensures outs { KeepsOuts self.old self.new }
        ensures few { length self.new.steps ≤ length self.old.steps + most }
        ensures long { is_lawful self.old.asked self.old.asks_book seat.old ≡ true → IfErr result (λ e. e.why ≡ why.EraFull → IsLong (begun self.old) (limit_begun self.old) most (length self.new.steps)) }
    {
        if !may_count(
            self.asked.as_slice(),
            self.asks_sum,
            seat.session,
            seat.count,
        ) {
            return Err(unmade(Why::Audit));
        }
        self.make_place();
        self.act_part(seat, input, most)
    }

    /// A reading of the clock, for which the house was made ready, and what follows from it, in at
    /// most so many steps.
    pub fn clock_beside(&mut self, time: u64, most: u64) -> Result<(), Stopped>
        requires ready { IsReady self.old.state [] (input.Clock time) }
        ensures performs { PerformsBeside self.old self.new (acted self.old.state (input.Clock time) result) result }
        ensures why { IfErr result (λ e. EndsPart e.why) }
        ensures asks { KeepsAsks self.old self.new }
        ensures outs { KeepsOuts self.old self.new }
        ensures few { length self.new.steps ≤ length self.old.steps + most }
        ensures long { IfErr result (λ e. e.why ≡ why.EraFull → IsLong (begun self.old) (limit_begun self.old) most (length self.new.steps)) }
    {
        self.make_place();
        self.clock_part(time, most)
    }

    /// Makes what stopped calls left, and what is due, in at most so many steps.
    pub fn finish_some(&mut self, most: u64) -> Result<(), Stopped>
        ensures performs { GrowsAsAsked self.old self.new [] result }
        ensures why { IfErr result (λ e. EndsPart e.why) }
        ensures asks { KeepsAsks self.old self.new }
        ensures outs { KeepsOuts self.old self.new }
        ensures few { length self.new.steps ≤ length self.old.steps + most }
        ensures long { IfErr result (λ e. e.why ≡ why.EraFull → IsLong (begun self.old) (limit_begun self.old) most (length self.new.steps)) }
    {
        self.make_place();
        self.finish_part(most)
    }

    /// One turn of what waits for nobody's input, in at most so many steps.
    pub fn settle_some(&mut self, most: u64) -> Result<Settled, Stopped>
        ensures performs { GrowsAsAsked self.old self.new (settled_by self.old.state result) (outcome result) }
        ensures answers { IfOk result (AnswersTurn self.old.state self.new.state) }
        ensures why { IfErr result (λ e. EndsPart e.why) }
        ensures asks { KeepsAsks self.old self.new }
        ensures outs { KeepsOuts self.old self.new }
        ensures few { length self.new.steps ≤ length self.old.steps + most }
        ensures long { IfErr result (λ e. e.why ≡ why.EraFull → IsLong (begun self.old) (limit_begun self.old) most (length self.new.steps)) }
    {
        self.make_place();
        self.settle_part(most)
    }

    /// Applies some of what was decided earlier where the input is acted next, in a time that
    /// doesn't grow with how much that is. Whether nothing is left there; else the input's call
    /// takes longer.
    pub fn apply_before(&mut self, input: &Input) -> bool
        ensures { self.new ≡ self.old }
    {
        self.house.apply_before(input)
    }

    /// The same where the next settle turn is taken.
    pub fn apply_before_turn(&mut self) -> bool
        ensures { self.new ≡ self.old }
    {
        self.house.apply_before_turn()
    }

    /// How far the clock is to go on towards a reading, so that ends come one at a time. Nothing
    /// changes.
    pub fn next_time(&mut self, reading: u64) -> u64
        ensures within { result ≤ reading }
        ensures same { self.new ≡ self.old }
    {
        self.house.next_time(reading)
    }

    /// Whether a session has a request that waits, a registration, or an answer that it wasn't
    /// handed.
    pub fn awaits(&self, session: u64) -> bool
        ensures { result ≡ ((nat_le 1 (length (filter (λ b. b.session == session) self.now.state.blocked)) || list_any (λ r. r.session == session) self.now.state.registrations) || nat_lt 0 (length (outbox_of self.now.state session))) }
    {
        self.house.awaits(session)
    }

    /// About how many bytes of memory the answers take that wait for a session. No clause says it.
    pub fn weight(&self, session: u64) -> u64 {
        self.house.weight(session)
    }

    fn ready_part(&mut self, input: &Input, most: u64) -> Result<(), Why>
        ensures prepares { PreparesBeside self.old self.new result }
        ensures ready { OnOk result (IsReady self.new.state [] input.now) }
        ensures why { IfErr result EndsPart }
        ensures asks { KeepsAsks self.old self.new }
        ensures outs { KeepsOuts self.old self.new }
        ensures few { length self.new.steps ≤ length self.old.steps + most }
        ensures long { IfErr result (λ w. w ≡ why.EraFull → IsLong (length self.old.steps) (limit_of self.old) most (length self.new.steps)) }
    {
        ready_within(&mut self.house, input, most, self.limit, &mut self.log)
    }

    fn act_part(&mut self, seat: &mut AskSeat<A>, input: Input, most: u64) -> Result<(), Stopped>
        requires lawful { is_lawful self.old.asked self.old.asks_book seat.old ≡ true }
        requires input { IsTrue (is_input input) }
        requires of { IsOf seat.old.session input }
        requires ready { IsReady self.old.state [] input }
        ensures performs { PerformsBeside self.old self.new (acted self.old.state input result) result }
        ensures counts { RaisesAsks self.old self.new seat.old seat.new (made (is_open self.old.state seat.old.session) result) }
        ensures why { IfErr result (λ e. EndsPart e.why) }
        ensures outs { KeepsOuts self.old self.new }
        ensures few { length self.new.steps ≤ length self.old.steps + most }
        ensures long { IfErr result (λ e. e.why ≡ why.EraFull → IsLong (length self.old.steps) (limit_of self.old) most (length self.new.steps)) }
    {
        let session = seat.session;
        let open = self.house.is_open(session);
        let result = act_within(&mut self.house, input, most, self.limit, &mut self.log);
        let by = own_steps(open, &result);
        raise(&mut self.asked, session as usize - 1, by);
        self.asks_sum += by;
        self.asks.add(&mut seat.share, by);
        seat.count += by;
        result
    }

    fn clock_part(&mut self, time: u64, most: u64) -> Result<(), Stopped>
        requires ready { IsReady self.old.state [] (input.Clock time) }
        ensures performs { PerformsBeside self.old self.new (acted self.old.state (input.Clock time) result) result }
        ensures why { IfErr result (λ e. EndsPart e.why) }
        ensures asks { KeepsAsks self.old self.new }
        ensures outs { KeepsOuts self.old self.new }
        ensures few { length self.new.steps ≤ length self.old.steps + most }
        ensures long { IfErr result (λ e. e.why ≡ why.EraFull → IsLong (length self.old.steps) (limit_of self.old) most (length self.new.steps)) }
    {
        act_within(
            &mut self.house,
            Input::Clock { time },
            most,
            self.limit,
            &mut self.log,
        )
    }

    fn finish_part(&mut self, most: u64) -> Result<(), Stopped>
        ensures performs { GrowsAsAsked self.old self.new [] result }
        ensures why { IfErr result (λ e. EndsPart e.why) }
        ensures asks { KeepsAsks self.old self.new }
        ensures outs { KeepsOuts self.old self.new }
        ensures few { length self.new.steps ≤ length self.old.steps + most }
        ensures long { IfErr result (λ e. e.why ≡ why.EraFull → IsLong (length self.old.steps) (limit_of self.old) most (length self.new.steps)) }
    {
        finish_within(&mut self.house, most, self.limit, &mut self.log)
    }

    fn settle_part(&mut self, most: u64) -> Result<Settled, Stopped>
        ensures performs { GrowsAsAsked self.old self.new (settled_by self.old.state result) (outcome result) }
        ensures answers { IfOk result (AnswersTurn self.old.state self.new.state) }
        ensures why { IfErr result (λ e. EndsPart e.why) }
        ensures asks { KeepsAsks self.old self.new }
        ensures outs { KeepsOuts self.old self.new }
        ensures few { length self.new.steps ≤ length self.old.steps + most }
        ensures long { IfErr result (λ e. e.why ≡ why.EraFull → IsLong (length self.old.steps) (limit_of self.old) most (length self.new.steps)) }
    {
        settle_within(&mut self.house, most, self.limit, &mut self.log)
    }
}
