//! The calls. Each goes on through as many eras as it needs, so that only want of memory stops it.
ghost use Rattle.std.specs.Prelude.{◌≡◌, ◌+◌, [], true, false, IfOk, IfErr, OnErr, Err, length, take, IsTrue};
ghost use Rattle.jsp_model.specs.declared.house.Input.TheVariants as input;
ghost use Rattle.jsp_model.specs.declared.house.Why.TheVariants as why;
ghost use Rattle.jsp_model.specs.Lookup.{is_open};
ghost use Rattle.jsp_model.specs.Outboxes.{outbox_of};
ghost use Rattle.jsp_model.specs.House.{AnswersTurn, acted, handed_out, settled_by};
ghost use Rattle.jsp_drive.specs.Line.{input_of, is_line_input};
ghost use Rattle.jsp_kept.specs.History.{is_lawful};
ghost use Rattle.jsp_kept.specs.Calls.{Begins, KeepsAsks, KeepsOuts, MayNotBegin, RaisesAsks, RaisesOuts, audit, made, outcome};
ghost use Rattle.jsp_kept.specs.Eras.{Grows, GrowsAsAsked};

use crate::counts::may_count;
use crate::in_era::unmade;
use crate::kept::Kept;
use crate::seats::{AskSeat, OutSeat, Seat};
use jsp_drive::LineInput;
use jsp_model::{House, Input, Settled, Stopped, Why};
use jsp_reply::Said;
use jsp_types::NoMemory;
use std::sync::ledger::Ledger;

const SESSIONS: u64 = 1 << 31;

impl<H: House, A: Ledger, O: Ledger> Kept<H, A, O> {
    /// Opens a session, numbered one above the last.
    pub fn begin(&mut self) -> Result<Seat<A, O>, Stopped>
        ensures performs { GrowsAsAsked self.old self.new (acted self.old.state (input.Open (self.old.state.last_session + 1)) (outcome result)) (outcome result) }
        ensures begins { IfOk result (λ s. Begins self.old self.new s.asks s.outs) }
        ensures not_done { IfErr result (λ e. e.done ≡ false) }
        ensures why { IfErr result (λ e. MayNotBegin self.old e.why) }
        ensures asks { OnErr result (KeepsAsks self.old self.new) }
        ensures outs { OnErr result (KeepsOuts self.old self.new) }
    {
        let last = self.asked.len() as u64;
        if last >= SESSIONS {
            return Err(unmade(Why::Sessions));
        }
        let session = last + 1;
        if let Err(NoMemory) = self.make_ready(&Input::Open { session }) {
            return Err(unmade(Why::NoMemory));
        }
        self.open_in_era(session)
    }

    /// A request or fault of the seat's session. Where the session is closed, it is passed over. Of
    /// a fault the caller's condition is that of `Input::Fault`; what a `Line` gives keeps it.
    pub fn act(&mut self, seat: &mut AskSeat<A>, given: LineInput) -> Result<(), Stopped>
        requires { IsTrue (is_line_input given) }
        ensures audit { is_lawful self.old.asked self.old.asks_book seat.old ≡ false → (result ≡ Err audit) × (self.new ≡ self.old) × (seat.new ≡ seat.old) }
        ensures performs { is_lawful self.old.asked self.old.asks_book seat.old ≡ true → GrowsAsAsked self.old self.new (acted self.old.state (input_of seat.old.session given) result) result }
        ensures counts { is_lawful self.old.asked self.old.asks_book seat.old ≡ true → RaisesAsks self.old self.new seat.old seat.new (made (is_open self.old.state seat.old.session) result) }
        ensures why { is_lawful self.old.asked self.old.asks_book seat.old ≡ true → IfErr result (λ e. e.why ≡ why.NoMemory) }
        ensures outs { KeepsOuts self.old self.new }
    {
        if !may_count(
            self.asked.as_slice(),
            self.asks_sum,
            seat.session,
            seat.count,
        ) {
            return Err(unmade(Why::Audit));
        }
        let input = given.of_session(seat.session);
        if let Err(NoMemory) = self.make_ready(&input) {
            return Err(unmade(Why::NoMemory));
        }
        match self.act_in_era(seat, input) {
            Ok(()) => Ok(()),
            Err(stopped) if stopped.done => self.go_on(stopped.why),
            Err(stopped) => Err(stopped),
        }
    }

    /// A reading of the clock, in milliseconds.
    pub fn clock(&mut self, time: u64) -> Result<(), Stopped>
        ensures performs { GrowsAsAsked self.old self.new (acted self.old.state (input.Clock time) result) result }
        ensures why { IfErr result (λ e. e.why ≡ why.NoMemory) }
        ensures asks { KeepsAsks self.old self.new }
        ensures outs { KeepsOuts self.old self.new }
    {
        if let Err(NoMemory) = self.make_ready(&Input::Clock { time }) {
            return Err(unmade(Why::NoMemory));
        }
        match self.clock_in_era(time) {
            Ok(()) => Ok(()),
            Err(stopped) if stopped.done => self.go_on(stopped.why),
            Err(stopped) => Err(stopped),
        }
    }

    /// One turn of what waits for nobody's input.
    pub fn settle(&mut self) -> Result<Settled, Stopped>
        ensures performs { GrowsAsAsked self.old self.new (settled_by self.old.state result) (outcome result) }
        ensures answers { IfOk result (AnswersTurn self.old.state self.new.state) }
        ensures why { IfErr result (λ e. e.why ≡ why.NoMemory) }
        ensures asks { KeepsAsks self.old self.new }
        ensures outs { KeepsOuts self.old self.new }
    {
        self.make_place();
        match self.house.turn() {
            None => self.quiet_next(),
            Some(turn) => self.vote(turn),
        }
    }

    /// Makes what a stopped call left, and what is due, without a step of its own.
    pub fn finish(&mut self) -> Result<(), Stopped>
        ensures performs { GrowsAsAsked self.old self.new [] result }
        ensures why { IfErr result (λ e. e.why ≡ why.NoMemory) }
        ensures asks { KeepsAsks self.old self.new }
        ensures outs { KeepsOuts self.old self.new }
    {
        match self.finish_all() {
            Ok(()) => Ok(()),
            Err(NoMemory) => Err(unmade(Why::NoMemory)),
        }
    }

    /// The next answers of the seat's session, at most `most`.
    pub fn hand_out(&mut self, seat: &mut OutSeat<O>, most: u64) -> Result<Vec<Said>, Stopped>
        ensures audit { is_lawful self.old.taken self.old.outs_book seat.old ≡ false → (result ≡ Err audit) × (self.new ≡ self.old) × (seat.new ≡ seat.old) }
        ensures answers { IfOk result (λ v. v.items ≡ take most (outbox_of self.old.state seat.old.session)) }
        ensures steps { IfOk result (λ v. Grows self.old self.new (handed_out seat.old.session (length v.items))) }
        ensures counts { IfOk result (λ v. RaisesOuts self.old self.new seat.old seat.new (length v.items)) }
        ensures err { OnErr result (Grows self.old self.new [] × KeepsOuts self.old self.new × (seat.new ≡ seat.old)) }
        ensures not_done { IfErr result (λ e. e.done ≡ false) }
        ensures why { is_lawful self.old.taken self.old.outs_book seat.old ≡ true → IfErr result (λ e. e.why ≡ why.NoMemory) }
        ensures debt { self.new.debt ≡ self.old.debt }
        ensures asks { KeepsAsks self.old self.new }
    {
        if !may_count(
            self.taken.as_slice(),
            self.outs_sum,
            seat.session,
            seat.count,
        ) {
            return Err(unmade(Why::Audit));
        }
        self.make_place();
        self.hand_out_in_era(seat, most)
    }
}
