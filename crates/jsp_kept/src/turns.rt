//! Settle turns that go on through as many eras as they need.
ghost use Rattle.std.specs.Prelude.{◌≡◌, if◌then◌else◌, [], None, Some, false, is_none, IfOk, IfErr};
ghost use Rattle.jsp_model.specs.declared.house.Settled.TheVariants as settled;
ghost use Rattle.jsp_model.specs.declared.house.Why.TheVariants as why;
ghost use Rattle.jsp_model.specs.Settling.{first_unquiet, settle_step};
ghost use Rattle.jsp_model.specs.House.{AnswersTurn, next_turn, settled_by};
ghost use Rattle.jsp_kept.specs.Calls.{KeepsAsks, KeepsOuts, outcome};
ghost use Rattle.jsp_kept.specs.Eras.{HasPlace, NeedsMemory, GrowsAsAsked, no_memory};

use crate::in_era::unmade;
use crate::kept::Kept;
use jsp_model::{House, Settled, Stopped, Why};
use jsp_types::NoMemory;
use std::sync::ledger::Ledger;

impl<H: House, A: Ledger, O: Ledger> Kept<H, A, O> {
    /// The next vote or the decision of the transaction whose commit was asked first. It answers
    /// `turn`.
    pub(crate) fn vote(&mut self, turn: Settled) -> Result<Settled, Stopped>
        requires turn { next_turn self.old.state ≡ Some turn }
        requires place { HasPlace self.old }
        ensures performs { GrowsAsAsked self.old self.new (settled_by self.old.state result) (outcome result) }
        ensures answers { IfOk result (AnswersTurn self.old.state self.new.state) }
        ensures why { IfErr result (λ e. e.why ≡ why.NoMemory) }
        ensures asks { KeepsAsks self.old self.new }
        ensures outs { KeepsOuts self.old self.new }
    {
        match self.vote_until_done() {
            Ok(settled) => Ok(settled),
            Err(stopped) => {
                if !stopped.done {
                    return Err(stopped);
                }
                match self.go_on(stopped.why) {
                    Ok(()) => Ok(turn),
                    Err(stopped) => Err(stopped),
                }
            }
        }
    }

    /// The same until the turn's own step is made. A full era may stop it behind that.
    fn vote_until_done(&mut self) -> Result<Settled, Stopped>
        requires votes { settle_step self.old.state ≡ None → ⊥ }
        requires place { HasPlace self.old }
        ensures performs { GrowsAsAsked self.old self.new (settled_by self.old.state result) (outcome result) }
        ensures answers { IfOk result (AnswersTurn self.old.state self.new.state) }
        ensures why { IfErr result NeedsMemory }
        ensures asks { KeepsAsks self.old self.new }
        ensures outs { KeepsOuts self.old self.new }
    {
        'eras: loop {
            match self.settle_in_era() {
                Ok(settled) => return Ok(settled),
                Err(stopped) => {
                    if stopped.done {
                        return Err(stopped);
                    }
                    if let Err(NoMemory) = self.make_place_after(stopped.why) {
                        return Err(unmade(Why::NoMemory));
                    }
                }
            }
        }
    }

    /// Makes the first space that isn't quiet quiet, where no transaction votes.
    pub(crate) fn quiet_next(&mut self) -> Result<Settled, Stopped>
        requires none { settle_step self.old.state ≡ None }
        requires place { HasPlace self.old }
        ensures performs { GrowsAsAsked self.old self.new (settled_by self.old.state result) (outcome result) }
        ensures answers { IfOk result (AnswersTurn self.old.state self.new.state) }
        ensures why { IfErr result (λ e. e.why ≡ why.NoMemory) }
        ensures asks { KeepsAsks self.old self.new }
        ensures outs { KeepsOuts self.old self.new }
    {
        match self.settle_in_era() {
            Ok(settled) => Ok(settled),
            Err(stopped) => self.quiet_rest(stopped.why),
        }
    }

    /// What such a turn left that was stopped. Where every space is quiet now, it answers that.
    fn quiet_rest(&mut self, cause: Why) -> Result<Settled, Stopped>
        ensures performs { GrowsAsAsked self.old self.new [] (outcome result) }
        ensures full { IfOk result (λ s. cause ≡ why.EraFull) }
        ensures answers { IfOk result (λ s. s ≡ (if is_none (first_unquiet self.new.state) then settled.Idle else settled.Quieted)) }
        ensures why { IfErr result (λ e. e ≡ no_memory false) }
        ensures asks { KeepsAsks self.old self.new }
        ensures outs { KeepsOuts self.old self.new }
    {
        if let Err(NoMemory) = self.make_place_after(cause) {
            return Err(unmade(Why::NoMemory));
        }
        if let Err(NoMemory) = self.finish_all() {
            return Err(unmade(Why::NoMemory));
        }
        if self.house.is_quiet() {
            return Ok(Settled::Idle);
        }
        Ok(Settled::Quieted)
    }
}
