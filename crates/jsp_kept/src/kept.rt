//! The history that one lock keeps.
ghost use Rattle.std.specs.Prelude.{◌≡◌, ◌==◌, ◌≤◌, ◌+◌, ◌^◌, true, IfOk, filter, length};
ghost use Rattle.jsp_model.specs.Lookup.{empty, is_open};
ghost use Rattle.jsp_model.specs.Outboxes.{outbox_of};
ghost use Rattle.jsp_model.specs.House.{Makes, shuts, next_waiting, awaits_decision};
ghost use Rattle.jsp_kept.specs.History.{IsKept, new_history};
ghost use Rattle.jsp_kept.specs.Calls.{KeepsEra, KeepsAsks, KeepsOuts, Seals};

use crate::aside::{set_aside, take_some};
use jsp_drive::Era;
use jsp_model::{Backlog, Config, House, SpaceCounts, Step, TransactionCounts};
use jsp_types::{NoMemory, Text};
use std::alloc::Global;
use std::marker::Model;
use std::sync::ledger::{Blank, Book, Ledger, Share};

/// A house and the history of its era, with what each session asked and took.
#[derive(Drop)]
pub struct Kept<H: House, A: Ledger, O: Ledger> {
    pub(crate) house: H,
    pub(crate) config: Config,
    pub(crate) log: Vec<Step>,
    /// Steps of the era before, which are taken a few at a time.
    pub(crate) gone: Vec<Step>,
    pub(crate) asked: Vec<u64>,
    pub(crate) taken: Vec<u64>,
    pub(crate) asks: Book<A>,
    pub(crate) outs: Book<O>,
    /// What no seat has of each ledger.
    pub(crate) asks_rest: Share<A>,
    pub(crate) outs_rest: Share<O>,
    pub(crate) asks_sum: u64,
    pub(crate) outs_sum: u64,
    pub(crate) era: u64,
    /// The length at which the era is full: a Shut has a place beside the others.
    pub(crate) limit: u64,
    pub(crate) is_sealed: bool,
    /// How many eras were sealed, which no contract speaks of.
    pub(crate) seals: u64,
}

impl<H: House, A: Ledger, O: Ledger> Model for Kept<H, A, O> {
    ghost use Rattle.std.specs.Prelude.{◌-◌, vec_len, vec_capacity};
    ghost use Rattle.jsp_kept.specs.History.{History, IsWhole};

    ghost Value = { History };

    ghost view = { λ k. record {
      spaces = k.config;
      state = H.view k.house;
      debt = H.debt k.house;
      steps = k.log.items;
      asked = k.asked.items;
      taken = k.taken.items;
      asks_book = k.asks.total;
      outs_book = k.outs.total;
      era = k.era;
      is_sealed = k.is_sealed;
    } };

    ghost invariant = { λ k. IsWhole
        (record {
          spaces = k.config;
          state = H.view k.house;
          debt = H.debt k.house;
          steps = k.log.items;
          asked = k.asked.items;
          taken = k.taken.items;
          asks_book = k.asks.total;
          outs_book = k.outs.total;
          era = k.era;
          is_sealed = k.is_sealed;
        })
        (record {
          asks_sum = k.asks_sum;
          outs_sum = k.outs_sum;
          asks_parts = k.asks_rest.parts;
          asks_amount = k.asks_rest.amount;
          outs_parts = k.outs_rest.parts;
          outs_amount = k.outs_rest.amount;
          limit = k.limit;
          bound = H.bound_of k.house;
          spare = vec_capacity k.log - vec_len k.log;
        }) };
}

impl<H: House, A: Ledger, O: Ledger> Kept<H, A, O> {
    /// The history of an empty house of this config. An era holds so many steps, beside its Shuts.
    /// The two ledgers are new, with a part for each session and one more.
    pub fn new(
        alloc: Global,
        house: H,
        config: &Config,
        era: u64,
        asks: Blank,
        outs: Blank,
    ) -> Result<Kept<H, A, O>, NoMemory>
        requires house { H.view house ≡ empty config.now }
        requires era { (1 ≤ era) × (era ≤ 16777216) }
        requires asks { (asks.name ≡ A.name) × (asks.parts ≡ A.parts) × (A.parts ≡ 2 ^ 31 + 1) }
        requires outs { (outs.name ≡ O.name) × (outs.parts ≡ O.parts) × (O.parts ≡ 2 ^ 31 + 1) }
        ensures { IfOk result (λ k. k ≡ new_history config.now (H.debt house) era) }
    {
        let config = copy_of(config)?;
        let mut house = house;
        house.bound(era);
        let (asks, asks_rest) = asks.open::<A>();
        let (outs, outs_rest) = outs.open::<O>();
        Ok(Kept {
            house,
            config,
            log: Vec::new(alloc),
            gone: Vec::new(alloc),
            asked: Vec::new(alloc),
            taken: Vec::new(alloc),
            asks,
            outs,
            asks_rest,
            outs_rest,
            asks_sum: 0,
            outs_sum: 0,
            era,
            limit: era,
            is_sealed: false,
            seals: 0,
        })
    }

    /// Moves a few of the steps of an era that is over to a vector, as many as that has room for,
    /// where some are left, so that the caller frees them where nobody waits for it. Nothing else
    /// changes. To be called with each call that makes steps, with room for `MOST_OLD`.
    pub fn take_old(&mut self, old: &mut Vec<Step>)
        ensures { self.new ≡ self.old }
    {
        take_some(&mut self.gone, old);
    }

    /// What is true of every history.
    pub fn holds(&self)
        ensures { IsKept self.now }
    {
        let _inside = &self.log;
    }

    /// Whether the session is open.
    pub fn is_open(&self, session: u64) -> bool
        ensures { result ≡ is_open self.now.state session }
    {
        self.house.is_open(session)
    }

    /// The least session above this number that has answers waiting to be handed out.
    pub fn next_waiting(&self, after: u64) -> Option<u64>
        ensures { result ≡ next_waiting self.now.state after }
    {
        self.house.next_waiting(after)
    }

    /// Whether some commit awaits its decision.
    pub fn is_voting(&self) -> bool
        ensures { result ≡ awaits_decision self.now.state }
    {
        self.house.is_voting()
    }

    /// The names of the spaces.
    pub fn spaces(&self) -> &[Text]
        ensures { result.now ≡ self.now.spaces }
    {
        self.config.spaces()
    }

    /// Whether its spaces are those of the config. No says nothing.
    pub fn is_of(&self, config: &Config) -> bool
        ensures { result ≡ true → self.now.spaces ≡ config.now }
    {
        are_same(self.config.spaces(), config.spaces())
    }

    /// Whether an era was sealed.
    pub fn is_sealed(&self) -> bool
        ensures { result ≡ self.now.is_sealed }
    {
        self.is_sealed
    }

    /// How many eras were sealed.
    pub fn seals(&self) -> u64 {
        self.seals
    }

    /// How many requests and faults all sessions made.
    pub fn requests(&self) -> u64
        ensures { result ≡ self.now.asks_book }
    {
        self.asks_sum
    }

    /// How many answers and events were taken for all sessions.
    pub fn answers(&self) -> u64
        ensures { result ≡ self.now.outs_book }
    {
        self.outs_sum
    }

    /// Closes the session, if it is open. Takes no memory: the log has a spare place for each open
    /// session.
    pub fn shut(&mut self, session: u64)
        ensures steps { Makes self.old.state self.new.state self.old.steps self.new.steps (shuts self.old.state session) }
        ensures debt { self.new.debt ≡ self.old.debt }
        ensures asks { KeepsAsks self.old self.new }
        ensures outs { KeepsOuts self.old self.new }
        ensures era { KeepsEra self.old self.new }
    {
        if self.house.is_open(session) {
            self.house.shut(session, &mut self.log);
            self.limit += 1;
            self.house.bound(self.limit);
        }
    }

    /// The era, which ends here.
    pub fn into_era(self) -> Era
        ensures steps { result.steps.items ≡ self.steps }
        ensures is_sealed { result.is_sealed ≡ self.is_sealed }
    {
        Era {
            steps: self.log,
            is_sealed: self.is_sealed,
        }
    }

    /// Begins a new era where the history stands, with no steps. The counts go on. The steps so far
    /// are gone, and no copy of the state stands for them: that they were one run to it is what the
    /// type keeps. Where there is memory they are freed by and by, so that nobody waits for all of
    /// them.
    pub fn seal(&mut self)
        ensures { Seals self.old self.new }
    {
        set_aside(&mut self.log, &mut self.gone);
        self.is_sealed = true;
        self.seals = self.seals.saturating_add(1);
        self.limit = self.era;
        self.house.bound(self.limit);
    }
}

impl<H: Backlog, A: Ledger, O: Ledger> Kept<H, A, O> {
    /// A session that was told something since it was named here, while there is one. Nothing else
    /// changes.
    pub fn next_told(&mut self) -> Option<u64>
        ensures { self.new ≡ self.old }
    {
        self.house.next_told()
    }

    /// How many answers wait to be handed out to the session.
    pub fn waiting(&self, session: u64) -> u64
        ensures { result ≡ length (outbox_of self.now.state session) }
    {
        self.house.waiting(session)
    }

    /// How many transactions there are, and how many of them vote.
    pub fn transactions(&self) -> TransactionCounts
        ensures living { result.living ≡ length self.now.state.transactions }
        ensures voting { result.voting ≡ length self.now.state.commits }
    {
        self.house.transactions()
    }

    /// What stands at a space.
    pub fn counts_in(&self, space: u64) -> SpaceCounts
        ensures rows { result.rows ≡ length (filter (λ r. r.space == space) self.now.state.rows) }
        ensures waiting { result.waiting ≡ length (filter (λ b. b.space == space) self.now.state.blocked) }
        ensures registrations { result.registrations ≡ length (filter (λ r. r.space == space) self.now.state.registrations) }
        ensures match_sets { result.match_sets ≡ length (filter (λ m. m.space == space) self.now.state.sets) }
    {
        self.house.counts_in(space)
    }
}

fn are_same(ours: &[Text], others: &[Text]) -> bool
    ensures { result ≡ true → ours.now ≡ others.now }
{
    if ours.len() != others.len() {
        return false;
    }
    for i in 0..ours.len() {
        if !ours[i].is(others[i].as_str()) {
            return false;
        }
    }
    true
}

// A copy of the config.
fn copy_of(config: &Config) -> Result<Config, NoMemory>
    ensures { IfOk result (λ c. c ≡ config.now) }
{
    Ok(config.clone()?)
}
