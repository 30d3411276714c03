//! The house.
ghost use Rattle.std.specs.Prelude.{◌≡◌, ◌++◌, [], None, IfOk};
ghost use Rattle.jsp_model.specs.Lookup.{empty};
ghost use Rattle.jsp_quiet.specs.Steady.{IsSteady};
ghost use Rattle.jsp_quiet.specs.Props.{IsSteady-prop};

use crate::acting::{act, act_ready, make_ready};
use crate::ahead::{apply_before, apply_before_turn};
use crate::answering::{answer, close, next_waiting};
use crate::clock::next_time;
use crate::owing::{forget_owed, join};
use crate::performing::clear;
use crate::settling::{all_quiet, settle, turn};
use jsp_beside::InParts;
use jsp_core::{Keeping, LiveImage};
use jsp_machine::{empty_image, is_open};
use jsp_model::{
    Backlog, Config, House, Image, Input, Settled, SpaceCounts, Step, Stopped, TransactionCounts,
    Why,
};
use jsp_reply::Said;
use jsp_types::NoMemory;
use std::alloc::Global;
use std::marker::PhantomData;

/// A house over a state. `K` only tells the types of the two houses apart: how rows are found is a
/// value.
#[derive(Drop)]
pub struct StateHouse<K> {
    alloc: Global,
    image: LiveImage,
    /// The spaces that stopped calls left to be made quiet, each once.
    debt: Vec<u64>,
    /// Those that the last call left besides, which was made beside them.
    latest: Vec<u64>,
    /// The length up to which calls may fill the log.
    bound: Option<u64>,
    keeping: PhantomData<K>,
    ghost steady: { IsSteady image } by { IsSteady-prop image },
}

/// Tells a house apart whose rows are looked at one by one.
#[derive(Drop)]
pub struct OneByOne;

/// Tells a house apart whose rows are found by hints.
#[derive(Drop)]
pub struct ByHints;

/// A house whose rows are looked at one by one.
pub type RowsHouse = StateHouse<OneByOne>;

/// A house whose rows are found by hints.
pub type Hall = StateHouse<ByHints>;

impl StateHouse<OneByOne> {
    /// The empty house of a config. It owes nothing, and its log has no bound.
    pub fn new(alloc: Global, config: &Config) -> Result<RowsHouse, NoMemory>
        ensures view { IfOk result (λ h. h.image ≡ empty config.now) }
        ensures debt { IfOk result (λ h. h.debt.items ++ h.latest.items ≡ []) }
        ensures bound { IfOk result (λ h. h.bound ≡ None) }
    {
        StateHouse::keeping(alloc, config, Keeping::Scanned)
    }
}

impl StateHouse<ByHints> {
    /// The empty house of a config. It owes nothing, and its log has no bound. What hints are keyed
    /// by comes from the seed, which clients aren't to know: then none can aim many rows at one
    /// list.
    pub fn new(alloc: Global, config: &Config, seed: u64) -> Result<Hall, NoMemory>
        ensures view { IfOk result (λ h. h.image ≡ empty config.now) }
        ensures debt { IfOk result (λ h. h.debt.items ++ h.latest.items ≡ []) }
        ensures bound { IfOk result (λ h. h.bound ≡ None) }
    {
        StateHouse::keeping(alloc, config, Keeping::Hinted { seed })
    }
}

impl<K> StateHouse<K> {
    /// How many decisions a space hasn't applied. A house whose rows are looked at one by one
    /// applies each at once. Takes no memory.
    pub fn pending(&self, space: u64) -> u64 {
        self.image.state().rows.pending(space) as u64
    }

    /// The empty house of a config, with its rows kept so.
    fn keeping(alloc: Global, config: &Config, keeping: Keeping) -> Result<StateHouse<K>, NoMemory>
        ensures view { IfOk result (λ h. h.image ≡ empty config.now) }
        ensures debt { IfOk result (λ h. h.debt.items ++ h.latest.items ≡ []) }
        ensures bound { IfOk result (λ h. h.bound ≡ None) }
    {
        let image = LiveImage::of(alloc, empty_image(alloc, config)?, keeping)?.known_steady();
        Ok(StateHouse {
            alloc,
            image,
            debt: Vec::new(alloc),
            latest: Vec::new(alloc),
            bound: None,
            keeping: PhantomData,
        })
    }
}

impl<K> House for StateHouse<K> {
    ghost view = { λ h. h.image };

    ghost debt = { λ h. h.debt.items ++ h.latest.items };

    ghost bound_of = { λ h. h.bound };

    fn make_ready(&mut self, input: &Input, log: &mut Vec<Step>) -> Result<(), Why> {
        if let Err(stopped) = join(&mut self.debt, &mut self.latest) {
            return Err(stopped.why);
        }
        make_ready(
            self.alloc,
            &mut self.image,
            &mut self.debt,
            input,
            self.bound,
            log,
        )
    }

    fn act(&mut self, input: Input, log: &mut Vec<Step>) -> Result<(), Stopped> {
        if let Err(stopped) = join(&mut self.debt, &mut self.latest) {
            return Err(stopped);
        }
        act(
            self.alloc,
            &mut self.image,
            &mut self.debt,
            input,
            self.bound,
            log,
        )
    }

    fn act_ready(&mut self, input: Input, log: &mut Vec<Step>) -> Result<(), Stopped> {
        if let Err(stopped) = join(&mut self.debt, &mut self.latest) {
            return Err(stopped);
        }
        act_ready(
            self.alloc,
            &mut self.image,
            &mut self.debt,
            input,
            self.bound,
            log,
        )
    }

    fn settle(&mut self, log: &mut Vec<Step>) -> Result<Settled, Stopped> {
        if let Err(stopped) = join(&mut self.debt, &mut self.latest) {
            return Err(stopped);
        }
        settle(self.alloc, &mut self.image, &mut self.debt, self.bound, log)
    }

    fn finish(&mut self, log: &mut Vec<Step>) -> Result<(), Stopped> {
        if let Err(stopped) = join(&mut self.debt, &mut self.latest) {
            return Err(stopped);
        }
        clear(
            self.alloc,
            &mut self.image,
            &mut self.debt,
            false,
            self.bound,
            log,
        )
    }

    fn hand_out(
        &mut self,
        session: u64,
        most: u64,
        log: &mut Vec<Step>,
    ) -> Result<Vec<Said>, Stopped> {
        answer(self.alloc, &mut self.image, session, most, self.bound, log)
    }

    fn shut(&mut self, session: u64, log: &mut Vec<Step>) {
        close(&mut self.image, session, log);
    }

    fn bound(&mut self, most: u64) {
        self.bound = Some(most);
    }

    fn is_open(&self, session: u64) -> bool {
        is_open(self.image.state(), session)
    }

    fn next_waiting(&self, after: u64) -> Option<u64> {
        next_waiting(self.image.state(), after)
    }

    fn is_voting(&self) -> bool {
        !self.image.state().commits.as_slice().is_empty()
    }

    fn turn(&self) -> Option<Settled> {
        turn(self.image.state())
    }

    fn is_quiet(&self) -> bool {
        all_quiet(&self.image)
    }

    fn image(&self) -> Result<Image, NoMemory> {
        self.image.to_image(self.alloc)
    }
}

impl<K> Backlog for StateHouse<K> {
    fn waiting(&self, session: u64) -> u64 {
        self.image.state().outboxes.waiting(session)
    }

    fn transactions(&self) -> TransactionCounts {
        let state = self.image.state();
        TransactionCounts {
            living: state.transactions.len() as u64,
            voting: state.commits.as_slice().len() as u64,
        }
    }

    fn counts_in(&self, space: u64) -> SpaceCounts {
        let state = self.image.state();
        SpaceCounts {
            rows: state.rows.count_in(space) as u64,
            waiting: state.blocked.count_in(space) as u64,
            registrations: state.registrations.count_in(space) as u64,
            match_sets: state.sets.count_in(space) as u64,
        }
    }

    fn next_told(&mut self) -> Option<u64> {
        self.image.next_told()
    }
}

impl<K> InParts for StateHouse<K> {
    fn make_ready_beside(&mut self, input: &Input, log: &mut Vec<Step>) -> Result<(), Why> {
        if let Err(stopped) = join(&mut self.debt, &mut self.latest) {
            return Err(stopped.why);
        }
        let result = make_ready(
            self.alloc,
            &mut self.image,
            &mut self.latest,
            input,
            self.bound,
            log,
        );
        match result {
            Ok(()) => self.latest.clear(),
            Err(_) => forget_owed(&mut self.latest, self.debt.as_slice()),
        }
        result
    }

    fn act_beside(&mut self, input: Input, log: &mut Vec<Step>) -> Result<(), Stopped> {
        if let Err(stopped) = join(&mut self.debt, &mut self.latest) {
            return Err(stopped);
        }
        let result = act_ready(
            self.alloc,
            &mut self.image,
            &mut self.latest,
            input,
            self.bound,
            log,
        );
        forget_owed(&mut self.latest, self.debt.as_slice());
        result
    }

    fn apply_before(&mut self, input: &Input) -> bool {
        apply_before(self.alloc, &mut self.image, input)
    }

    fn apply_before_turn(&mut self) -> bool {
        apply_before_turn(self.alloc, &mut self.image)
    }

    fn next_time(&mut self, reading: u64) -> u64 {
        next_time(self.alloc, &mut self.image, reading)
    }

    fn awaits(&self, session: u64) -> bool {
        let state = self.image.state();
        state.blocked.has_at_least(session, 1)
            || state.registrations.has_any_of(session)
            || 0 < state.outboxes.waiting(session)
    }

    fn weight(&self, session: u64) -> u64 {
        self.image.state().outboxes.weight(session)
    }
}
