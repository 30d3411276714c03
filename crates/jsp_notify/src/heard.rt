//! Registrations with all that they are owed. Contracts see them as a list, in the order in which
//! they were made.
ghost use Rattle.std.specs.Prelude.{◌≡◌, ◌==◌, ◌&&◌, ◌||◌, ◌++◌, ◌∷◌, ◌^◌, ◌+◌, ℕ, [], true, not, nat_le, map, filter, find, length, option_copied, option_map, ◌≤◌, IfOk, IfSome, OnOk, OnErr, MatchOption, IsTrue};
ghost use Rattle.jsp_model.specs.declared.state.Registration.{Registration as OfRegistration};
ghost use Rattle.jsp_keyed.specs.Finding.{is_sought};
ghost use Rattle.jsp_notify.specs.Sought.{registration_keys};
ghost use Rattle.std.specs.List.{list_any, list_all};
ghost use Rattle.jsp_lease.specs.Due.{first_item, over_by};
ghost use Rattle.jsp_model.specs.Lookup.{update, is_caller as calls};
ghost use Rattle.jsp_notify.specs.Owing.{owed as with_owed, owed_within, forgiven};
ghost use Rattle.jsp_notify.specs.Registered.{registration_end, registration_ending, told_once};

use crate::finding::spaces_of;
use crate::hinted::HintedRegistrations;
use crate::owing::{Range, forgive_each, owe_each, owe_each_within};
use crate::registration_keys::{At, OfSession, Under};
use crate::scanned::{
    any_numbered, copies_of, count_at, drop_at, drop_numbered, drop_of, drop_under, extend_each,
    find_numbered, first_over, first_passing, first_that_is_owed, spaces_among, tell_each,
};
use jsp_keyed::Keys;
use jsp_model::{Item, Registration, Row};
use jsp_table::Test;
use jsp_types::{Classes, Items, NoMemory};
use std::alloc::Global;
use std::marker::Model;

/// Registrations, each with all that it is owed.
#[derive(Drop)]
pub struct Heard {
    alloc: Global,
    kept: Storage,
}

/// How they are kept.
#[derive(Drop)]
pub(crate) enum Storage {
    Scanned(Vec<Registration>),
    Hinted(HintedRegistrations),
}

impl Model for Heard {
    ghost use Rattle.std.specs.Prelude.{List};
    ghost use Rattle.jsp_model.specs.declared.state.Registration.{Registration};
    ghost use Rattle.jsp_notify.specs.Hinted.{registrations_in};

    ghost Value = { List Registration };

    ghost view = { λ a. registrations_in a.kept };
}

impl Heard {
    /// These registrations, which are looked at one by one.
    pub(crate) fn scanned(alloc: Global, registrations: Items<Registration>) -> Self
        ensures { result ≡ registrations }
    {
        Heard {
            alloc,
            kept: Storage::Scanned(registrations.into_vec()),
        }
    }

    /// No registrations; they will be found by hints. The keys come from the seed, which clients
    /// aren't to know.
    pub(crate) fn new(alloc: Global, seed: u64) -> Self
        ensures { result ≡ [] }
    {
        Heard {
            alloc,
            kept: Storage::Hinted(HintedRegistrations::new(alloc, seed)),
        }
    }

    /// These registrations, found by hints.
    pub(crate) fn of(
        alloc: Global,
        registrations: Items<Registration>,
        seed: u64,
    ) -> Result<Self, NoMemory>
        ensures { IfOk result (λ rs. rs ≡ registrations) }
    {
        let mut made = Heard::new(alloc, seed);
        let mut registrations = registrations.into_vec();
        registrations.reverse();
        'registrations: while let Some(registration) = registrations.pop() {
            made.push(registration)?;
        }
        Ok(made)
    }

    /// A plain copy of these registrations.
    pub(crate) fn to_items(&self) -> Result<Items<Registration>, NoMemory>
        ensures { IfOk result (λ c. c ≡ self.now) }
    {
        match &self.kept {
            Storage::Scanned(registrations) => copies_of(self.alloc, registrations),
            Storage::Hinted(registrations) => registrations.found().to_items(self.alloc),
        }
    }

    // ---- add

    /// Adds a registration at the end, whole or not at all.
    pub(crate) fn push(&mut self, registration: Registration) -> Result<(), NoMemory>
        ensures ok { OnOk result (self.new ≡ self.old ++ registration ∷ []) }
        ensures err { OnErr result (self.new ≡ self.old) }
    {
        match self.push_rising(registration)? {
            None => Ok(()),
            Some(registration) => self.push_scanned(registration),
        }
    }

    /// Adds a registration at the end, or gives it back where its number has to rise and doesn't.
    fn push_rising(&mut self, registration: Registration) -> Result<Option<Registration>, NoMemory>
        ensures ok { IfOk result (λ back. MatchOption back (self.new ≡ self.old ++ registration ∷ []) (λ it. (it ≡ registration) × (self.new ≡ self.old))) }
        ensures err { OnErr result (self.new ≡ self.old) }
    {
        match &mut self.kept {
            Storage::Scanned(registrations) => {
                registrations.push(registration)?;
                Ok(None)
            }
            Storage::Hinted(registrations) => registrations.push(registration),
        }
    }

    /// Adds a registration at the end. Hints are for rising numbers, which the machine's are; each
    /// is looked at from here on.
    fn push_scanned(&mut self, registration: Registration) -> Result<(), NoMemory>
        ensures ok { OnOk result (self.new ≡ self.old ++ registration ∷ []) }
        ensures err { OnErr result (self.new ≡ self.old) }
    {
        let mut plain = self.to_items()?.into_vec();
        plain.push(registration)?;
        self.kept = Storage::Scanned(plain);
        Ok(())
    }

    // ---- leave out. Nothing here takes memory.

    /// The registration of this number goes.
    pub(crate) fn remove(&mut self, number: u64)
        ensures { self.new ≡ filter (λ r. not (r.number == number)) self.old }
    {
        match &mut self.kept {
            Storage::Scanned(registrations) => drop_numbered(registrations, number),
            Storage::Hinted(registrations) => registrations.remove(number),
        }
    }

    /// The registrations of a session go.
    pub(crate) fn remove_of(&mut self, session: u64)
        ensures { self.new ≡ filter (λ r. not (r.session == session)) self.old }
    {
        match &mut self.kept {
            Storage::Scanned(registrations) => drop_of(registrations, session),
            Storage::Hinted(registrations) => registrations.remove_all(&OfSession { session }),
        }
    }

    /// The registrations under a transaction go.
    pub(crate) fn remove_under(&mut self, x: u64)
        ensures { self.new ≡ filter (λ r. not (calls r.transaction x)) self.old }
    {
        match &mut self.kept {
            Storage::Scanned(registrations) => drop_under(registrations, x),
            Storage::Hinted(registrations) => registrations.remove_all(&Under { transaction: x }),
        }
    }

    /// The registrations at a space go.
    pub(crate) fn clear(&mut self, space: u64)
        ensures { self.new ≡ filter (λ r. not (r.space == space)) self.old }
    {
        match &mut self.kept {
            Storage::Scanned(registrations) => drop_at(registrations, space),
            Storage::Hinted(registrations) => registrations.remove_all(&At { space }),
        }
    }

    // ---- change in place

    /// Each registration is owed those of the rows, written by the caller, that are news to it, in
    /// their order: what is written under a transaction is for the registrations under it, and else
    /// for each; in its space, and as its template matches. `forgive_all` takes that back.
    ///
    /// An event is told for each entry that becomes visible (JavaSpaces notify). That one is told
    /// for each row, in the order of the rows, is this profile's own.
    ///
    /// # Errors
    ///
    /// Where memory is refused no registration is owed more than before.
    pub fn owe_all(
        &mut self,
        classes: &Classes,
        rows: &[Row],
        caller: Option<u64>,
    ) -> Result<(), NoMemory>
        ensures ok { OnOk result (self.new ≡ map (with_owed classes.now caller rows.now) self.old) }
        ensures err { OnErr result (self.new ≡ self.old) }
    {
        match &mut self.kept {
            Storage::Scanned(registrations) => owe_each(classes, registrations, rows, caller),
            Storage::Hinted(registrations) => registrations.owe_all(classes, rows, caller),
        }
    }

    /// Each registration of the range is owed the row, written by the caller, where that is news to
    /// it: whole or not at all.
    pub(crate) fn owe_within(
        &mut self,
        classes: &Classes,
        row: &Row,
        caller: Option<u64>,
        range: Range,
    ) -> Result<(), NoMemory>
        ensures ok { OnOk result (self.new ≡ map (owed_within classes.now caller row.now range.from range.below) self.old) }
        ensures err { OnErr result (self.new ≡ self.old) }
    {
        match &mut self.kept {
            Storage::Scanned(registrations) => {
                owe_each_within(classes, registrations, row, caller, range)
            }
            Storage::Hinted(registrations) => registrations.owe_within(classes, row, caller, range),
        }
    }

    /// A number from the first on, below which so many registrations or fewer hear the row; nothing
    /// where no more are left, or where each is looked at.
    pub(crate) fn bound_of(
        &self,
        classes: &Classes,
        row: &Row,
        caller: Option<u64>,
        from: u64,
        most: usize,
    ) -> Result<Option<u64>, NoMemory>
        ensures { IfOk result (λ below. IfSome below (λ b. from ≤ b)) }
    {
        match &self.kept {
            Storage::Scanned(_) => Ok(None),
            Storage::Hinted(registrations) => {
                registrations.bound_of(classes, row, caller, from, most)
            }
        }
    }

    /// Takes back what each registration was owed last: as many rows as are news to it. Takes no
    /// memory.
    pub fn forgive_all(&mut self, classes: &Classes, rows: &[Row], caller: Option<u64>)
        ensures { self.new ≡ map (forgiven classes.now caller rows.now) self.old }
    {
        match &mut self.kept {
            Storage::Scanned(registrations) => forgive_each(classes, registrations, rows, caller),
            Storage::Hinted(registrations) => registrations.forgive_all(classes, rows, caller),
        }
    }

    /// The next event of a registration is told: it is owed one less, and its sequence number rises
    /// by one. Takes no memory.
    pub(crate) fn tell(&mut self, number: u64)
        requires { IsTrue (list_all (λ r. nat_le (r.sequence + 1) (2 ^ 63)) self.old) }
        ensures { self.new ≡ update (λ r. r.number == number) told_once self.old }
    {
        match &mut self.kept {
            Storage::Scanned(registrations) => tell_each(registrations, number),
            Storage::Hinted(registrations) => registrations.tell(number),
        }
    }

    /// The registration of this number ends then. Takes no memory.
    pub(crate) fn extend(&mut self, number: u64, end: u64)
        ensures { self.new ≡ map (registration_ending number end) self.old }
    {
        match &mut self.kept {
            Storage::Scanned(registrations) => extend_each(registrations, number, end),
            Storage::Hinted(registrations) => registrations.extend(number, end),
        }
    }

    // ---- find. Nothing here takes memory but what answers in a list.

    /// Whether there is none.
    pub(crate) fn is_empty(&self) -> bool
        ensures { result ≡ (length self.now == 0) }
    {
        match &self.kept {
            Storage::Scanned(registrations) => registrations.is_empty(),
            Storage::Hinted(registrations) => registrations.found().is_empty(),
        }
    }

    /// Whether there are so many.
    pub(crate) fn has_at_least(&self, count: usize) -> bool
        ensures { result ≡ nat_le count (length self.now) }
    {
        match &self.kept {
            Storage::Scanned(registrations) => count <= registrations.len(),
            Storage::Hinted(registrations) => registrations.found().has_at_least(count),
        }
    }

    /// How many there are at a space.
    pub(crate) fn count_in(&self, space: u64) -> usize
        ensures { result ≡ length (filter (λ r. r.space == space) self.now) }
    {
        match &self.kept {
            Storage::Scanned(registrations) => count_at(registrations, space),
            Storage::Hinted(registrations) => registrations.found().count(&At { space }),
        }
    }

    /// The registration of this number.
    pub(crate) fn get(&self, number: u64) -> Option<&Registration>
        ensures { option_copied result ≡ find (λ r. r.number == number) self.now }
    {
        match &self.kept {
            Storage::Scanned(registrations) => find_numbered(registrations, number),
            Storage::Hinted(registrations) => registrations.get(number),
        }
    }

    /// Whether a registration has this number.
    pub(crate) fn has(&self, number: u64) -> bool
        ensures { result ≡ list_any (λ r. r.number == number) self.now }
    {
        self.get(number).is_some()
    }

    /// Whether a registration of this number passes a test.
    pub(crate) fn any_of<P: Test<Registration>>(&self, number: u64, test: &P) -> bool
        ensures { result ≡ list_any (λ r. r.number == number && P.is_passed test.now r) self.now }
    {
        match &self.kept {
            Storage::Scanned(registrations) => any_numbered(registrations, number, test),
            Storage::Hinted(registrations) => registrations.found().any_of(number, test),
        }
    }

    /// The first registration of the space that is owed an event.
    pub(crate) fn first_owed(&self, space: u64) -> Option<&Registration>
        ensures { option_copied result ≡ find (λ r. r.space == space && not (length r.owed == 0)) self.now }
    {
        match &self.kept {
            Storage::Scanned(registrations) => first_that_is_owed(registrations, space),
            Storage::Hinted(registrations) => registrations.first_owed(space),
        }
    }

    /// The number of the first that passes the test, which only those pass that have one of the
    /// keys that are sought.
    pub(crate) fn first_number<P: Test<Registration> + Keys>(&self, test: &P) -> Option<u64>
        requires { (seed : ℕ) (r : OfRegistration) → P.is_passed test.now r ≡ true → is_sought (P.sought test.now seed) (registration_keys seed r) ≡ true }
        ensures { result ≡ option_map (λ (r : OfRegistration). r.number) (find (P.is_passed test.now) self.now) }
    {
        match &self.kept {
            Storage::Scanned(registrations) => first_passing(registrations, test),
            Storage::Hinted(registrations) => registrations.first_number(test),
        }
    }

    /// The registration whose end has come and comes first, as an item.
    pub(crate) fn due(&self, time: u64) -> Option<Item>
        ensures { result ≡ first_item (over_by time (map registration_end self.now)) }
    {
        match &self.kept {
            Storage::Scanned(registrations) => first_over(registrations, time),
            Storage::Hinted(registrations) => registrations.due(time),
        }
    }

    /// The spaces of the registrations of this number.
    pub(crate) fn spaces_of(&self, alloc: Global, number: u64) -> Result<Vec<u64>, NoMemory>
        ensures { IfOk result (λ v. v.items ≡ map (λ r. r.space) (filter (λ r. r.number == number) self.now)) }
    {
        match &self.kept {
            Storage::Scanned(registrations) => spaces_among(alloc, registrations, number),
            Storage::Hinted(registrations) => spaces_of(alloc, registrations.found(), number),
        }
    }
}
