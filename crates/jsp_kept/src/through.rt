//! Steps that go on through as many eras as they need. Only want of memory stops them.
ghost use Rattle.std.specs.Prelude.{◌≡◌, ◌≤◌, [], true, length, Ok, IfErr, OnOk, OnErr};
ghost use Rattle.jsp_model.specs.declared.house.Why.TheVariants as why;
ghost use Rattle.jsp_model.specs.House.{IsReady};
ghost use Rattle.jsp_kept.specs.Calls.{KeepsAsks, KeepsOuts};
ghost use Rattle.jsp_kept.specs.Eras.{Grows, HasPlace, GrowsAsAsked, Prepares, no_memory};
ghost use Rattle.jsp_kept.specs.History.{limit_of};
ghost use Rattle.jsp_kept.specs.Parts.{begun, limit_begun};

use crate::kept::Kept;
use jsp_model::{House, Input, Stopped, Why};
use jsp_types::NoMemory;
use std::sync::ledger::Ledger;

impl<H: House, A: Ledger, O: Ledger> Kept<H, A, O> {
    /// Begins a new era where this one is full.
    pub(crate) fn make_place(&mut self)
        ensures grows { Grows self.old self.new [] }
        ensures prepares { Prepares self.old self.new }
        ensures place { HasPlace self.new }
        ensures state { self.new.state ≡ self.old.state }
        ensures debt { self.new.debt ≡ self.old.debt }
        ensures fewer { length self.new.steps ≤ length self.old.steps }
        ensures begun { length self.new.steps ≡ begun self.old }
        ensures limit { limit_of self.new ≡ limit_begun self.old }
        ensures asks { KeepsAsks self.old self.new }
        ensures outs { KeepsOuts self.old self.new }
    {
        if self.log.len() as u64 >= self.limit {
            self.seal();
        }
    }

    /// Begins a new era where a full one stopped a call. What else stops one is want of memory.
    pub(crate) fn make_place_after(&mut self, cause: Why) -> Result<(), NoMemory>
        ensures full { OnOk result (cause ≡ why.EraFull) }
        ensures prepares { Prepares self.old self.new }
        ensures place { OnOk result (HasPlace self.new) }
        ensures state { self.new.state ≡ self.old.state }
        ensures debt { self.new.debt ≡ self.old.debt }
        ensures asks { KeepsAsks self.old self.new }
        ensures outs { KeepsOuts self.old self.new }
    {
        match cause {
            Why::EraFull => {
                self.make_place();
                Ok(())
            }
            _ => Err(NoMemory),
        }
    }

    /// Makes ready for the input, in an era that has a place for its step.
    pub(crate) fn make_ready(&mut self, input: &Input) -> Result<(), NoMemory>
        ensures prepares { Prepares self.old self.new }
        ensures ready { OnOk result (IsReady self.new.state self.new.debt input.now) }
        ensures place { OnOk result (HasPlace self.new) }
        ensures asks { KeepsAsks self.old self.new }
        ensures outs { KeepsOuts self.old self.new }
    {
        self.make_place();
        'eras: while let Err(cause) = self.ready_in_era(input) {
            self.make_place_after(cause)?;
        }
        self.make_place();
        Ok(())
    }

    /// Makes what is left and due.
    pub(crate) fn finish_all(&mut self) -> Result<(), NoMemory>
        ensures ok { OnOk result (GrowsAsAsked self.old self.new [] (Ok tt)) }
        ensures err { OnErr result (Prepares self.old self.new) }
        ensures asks { KeepsAsks self.old self.new }
        ensures outs { KeepsOuts self.old self.new }
    {
        self.make_place();
        'eras: while let Err(stopped) = self.finish_in_era() {
            self.make_place_after(stopped.why)?;
        }
        Ok(())
    }

    /// Makes what a call left that was stopped behind its own step.
    pub(crate) fn go_on(&mut self, cause: Why) -> Result<(), Stopped>
        ensures performs { GrowsAsAsked self.old self.new [] result }
        ensures err { IfErr result (λ e. e ≡ no_memory true) }
        ensures asks { KeepsAsks self.old self.new }
        ensures outs { KeepsOuts self.old self.new }
    {
        if let Err(NoMemory) = self.make_place_after(cause) {
            return Err(Stopped {
                why: Why::NoMemory,
                done: true,
            });
        }
        match self.finish_all() {
            Ok(()) => Ok(()),
            Err(NoMemory) => Err(Stopped {
                why: Why::NoMemory,
                done: true,
            }),
        }
    }
}
