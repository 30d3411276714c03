//! The match sets. Contracts see them as a list, in the order in which they were opened.
ghost use Rattle.std.specs.Prelude.{◌≡◌, ◌==◌, ◌&&◌, ◌++◌, ◌∷◌, [], not, nat_le, map, filter, find, length, option_copied, IfOk, OnOk, OnErr};
ghost use Rattle.std.specs.List.{list_any};
ghost use Rattle.jsp_lease.specs.Due.{first_item, over_by};
ghost use Rattle.jsp_model.specs.Lookup.{update, is_caller as calls};
ghost use Rattle.jsp_wait.specs.Sets.{set_end, set_ending, to_cursor};

use crate::set_changes::{SetEndAt, Turn};
use crate::set_keys::SetsByNumber;
use crate::set_tests::{SetAt, SetOfSession, SetUnder, SpaceOfSet};
use jsp_list::IndexedList;
use jsp_model::{Item, MatchSet};
use jsp_table::Test;
use jsp_types::{Items, NoMemory};
use std::alloc::Global;
use std::marker::Model;

/// The match sets that are open.
#[derive(Drop)]
pub struct MatchSets {
    list: IndexedList<MatchSet, SetsByNumber>,
}

impl Model for MatchSets {
    ghost use Rattle.std.specs.Prelude.{List};
    ghost use Rattle.jsp_model.specs.declared.state.MatchSet.{MatchSet};

    ghost Value = { List MatchSet };

    ghost view = { λ s. s.list };
}

impl MatchSets {
    /// These match sets, which are looked at one by one.
    pub fn scanned(alloc: Global, sets: Items<MatchSet>) -> Self
        ensures { result ≡ sets }
    {
        MatchSets {
            list: IndexedList::scanned(alloc, sets),
        }
    }

    /// No match sets; they will be found by hints. The hints' keys come from the seed, which
    /// clients aren't to know.
    pub fn new(alloc: Global, seed: u64) -> Self
        ensures { result ≡ [] }
    {
        MatchSets {
            list: IndexedList::new(alloc, seed),
        }
    }

    /// These match sets, found by hints.
    ///
    /// # Errors
    ///
    /// `NoMemory` where memory is refused.
    pub fn of(alloc: Global, sets: Items<MatchSet>, seed: u64) -> Result<Self, NoMemory>
        ensures { IfOk result (λ s. s ≡ sets) }
    {
        let list = IndexedList::of(alloc, sets, seed)?;
        Ok(MatchSets { list })
    }

    /// A plain copy of these match sets.
    ///
    /// # Errors
    ///
    /// `NoMemory` where memory is refused.
    pub fn to_items(&self) -> Result<Items<MatchSet>, NoMemory>
        ensures { IfOk result (λ c. c ≡ self.now) }
    {
        self.list.to_items()
    }

    // ---- add

    /// Adds a match set at the end, whole or not at all.
    ///
    /// # Errors
    ///
    /// Where memory is refused the match sets are as they were.
    pub fn push(&mut self, set: MatchSet) -> Result<(), NoMemory>
        ensures ok { OnOk result (self.new ≡ self.old ++ set ∷ []) }
        ensures err { OnErr result (self.new ≡ self.old) }
    {
        self.list.push(set)
    }

    // ---- leave out. Nothing here takes memory.

    /// The match set of this number goes.
    pub fn remove(&mut self, number: u64)
        ensures { self.new ≡ filter (λ m. not (m.number == number)) self.old }
    {
        self.list.remove(number);
    }

    /// The match sets of a session go.
    pub fn remove_of(&mut self, session: u64)
        ensures { self.new ≡ filter (λ m. not (m.session == session)) self.old }
    {
        self.list.remove_all(&SetOfSession { session });
    }

    /// The match sets under a transaction go.
    pub fn remove_under(&mut self, x: u64)
        ensures { self.new ≡ filter (λ m. not (calls m.transaction x)) self.old }
    {
        self.list.remove_all(&SetUnder { transaction: x });
    }

    /// The match sets of a space go.
    pub fn clear(&mut self, space: u64)
        ensures { self.new ≡ filter (λ m. not (m.space == space)) self.old }
    {
        self.list.remove_all(&SetAt { space });
    }

    // ---- change in place. Nothing here takes memory.

    /// The cursor of the match set of this number goes to the row that was shown last, if one was.
    pub fn turn(&mut self, number: u64, last: Option<u64>)
        ensures { self.new ≡ update (λ m. m.number == number) (to_cursor last) self.old }
    {
        self.list.change(number, &Turn { last });
    }

    /// The lease of the match set of this number ends then, in milliseconds of house time (Jini
    /// Leasing).
    pub fn extend(&mut self, number: u64, end: u64)
        ensures { self.new ≡ map (set_ending number end) self.old }
    {
        self.list.set_end(number, end, &SetEndAt { end });
    }

    // ---- find. Nothing here takes memory.

    /// The match set of this number.
    pub fn get(&self, number: u64) -> Option<&MatchSet>
        ensures { option_copied result ≡ find (λ m. m.number == number) self.now }
    {
        self.list.get(number)
    }

    /// The match set of this number, where it is the session's own.
    pub fn get_own(&self, session: u64, number: u64) -> Option<&MatchSet>
        ensures { option_copied result ≡ find (λ m. m.number == number && m.session == session) self.now }
    {
        self.list.first_of(number, &SetOfSession { session })
    }

    /// Whether there are so many.
    pub fn has_at_least(&self, count: usize) -> bool
        ensures { result ≡ nat_le count (length self.now) }
    {
        self.list.has_at_least(count)
    }

    /// How many are open at a space.
    pub fn count_in(&self, space: u64) -> usize
        ensures { result ≡ length (filter (λ m. m.space == space) self.now) }
    {
        self.list.count(&SetAt { space })
    }

    /// Whether there is one of this number.
    pub fn has(&self, number: u64) -> bool
        ensures { result ≡ list_any (λ m. m.number == number) self.now }
    {
        self.list.get(number).is_some()
    }

    /// Whether the match set of this number passes a test.
    pub fn any_of<P: Test<MatchSet>>(&self, number: u64, test: &P) -> bool
        ensures { result ≡ list_any (λ m. m.number == number && P.is_passed test.now m) self.now }
    {
        self.list.any_of(number, test)
    }

    /// The match set whose end has come by this time, in milliseconds of house time, and comes
    /// first, as an item.
    pub fn due(&self, time: u64) -> Option<Item>
        ensures { result ≡ first_item (over_by time (map set_end self.now)) }
    {
        self.list.due(time)
    }

    // ---- answer in a list, which takes memory

    /// The spaces of the match sets of this number.
    ///
    /// # Errors
    ///
    /// `NoMemory` where memory is refused.
    pub fn spaces_of(&self, alloc: Global, number: u64) -> Result<Vec<u64>, NoMemory>
        ensures { IfOk result (λ v. v.items ≡ map (λ m. m.space) (filter (λ m. m.number == number) self.now)) }
    {
        self.list.read_of(alloc, number, &SpaceOfSet {})
    }
}
