//! Registrations, found by hints. Contracts see them as a list, in rising order of their numbers.
ghost use Rattle.std.specs.Prelude.{◌≡◌, ◌==◌, ◌&&◌, ◌++◌, ◌∷◌, ℕ, [], true, not, map, filter, find, length, option_copied, option_map, nat_le, ◌≤◌, IfOk, IfSome, OnOk, OnErr, MatchOption, IsTrue, ◌+◌, ◌^◌};
ghost use Rattle.std.specs.List.{list_any, list_all};
ghost use Rattle.jsp_lease.specs.Due.{first_item, over_by};
ghost use Rattle.jsp_model.specs.declared.state.Registration.{Registration as OfRegistration};
ghost use Rattle.jsp_model.specs.Lookup.{update};
ghost use Rattle.jsp_table.specs.Finding.{AreNumbered};
ghost use Rattle.jsp_keyed.specs.Finding.{is_sought};
ghost use Rattle.jsp_notify.specs.Owing.{owed as with_owed, owed_within, forgiven};
ghost use Rattle.jsp_notify.specs.Registered.{registration_end, registration_ending, told_once};
ghost use Rattle.jsp_notify.specs.Sought.{registration_keys};

use crate::by_number::Found;
use crate::naming::{forget_gone, forget_told, name_listeners, name_owed};
use crate::owing::Range;
use crate::registration_changes::{Extension, Forgiving, Owing, Telling};
use crate::registration_keys::{Hears, HearsWithin, OwedAt};
use jsp_keyed::{Keyed, Keys};
use jsp_model::{Item, Registration, Row};
use jsp_table::{Hints, Numbers, Test};
use jsp_types::{Classes, NoMemory};
use std::alloc::Global;
use std::marker::Model;

/// Registrations, found by hints.
#[derive(Drop)]
pub(crate) struct HintedRegistrations {
    registrations: Found,
    /// The numbers of those that are owed an event, by space. A list may name more.
    owed: Hints,
}

impl Model for HintedRegistrations {
    ghost use Rattle.std.specs.Prelude.{List};
    ghost use Rattle.jsp_model.specs.declared.state.Registration.{Registration};
    ghost use Rattle.jsp_notify.specs.Waiting.{AreNamed};

    ghost Value = { List Registration };

    ghost view = { λ h. h.registrations };

    ghost invariant = { λ h. AreNamed h.owed h.registrations };
}

impl HintedRegistrations {
    pub(crate) fn new(alloc: Global, seed: u64) -> Self
        ensures { result ≡ [] }
    {
        HintedRegistrations {
            registrations: Keyed::new(alloc, seed),
            owed: Hints::new(alloc),
        }
    }

    /// Adds a registration at the end, whole or not at all, or gives it back where its number isn't
    /// above all that were given.
    pub(crate) fn push(
        &mut self,
        registration: Registration,
    ) -> Result<Option<Registration>, NoMemory>
        ensures ok { IfOk result (λ back. MatchOption back (self.new ≡ self.old ++ registration ∷ []) (λ it. (it ≡ registration) × (self.new ≡ self.old))) }
        ensures err { OnErr result (self.new ≡ self.old) }
    {
        name_owed(&mut self.owed, &registration)?;
        match self.registrations.push(registration)? {
            None => Ok(None),
            Some(back) => Ok(Some(back)),
        }
    }

    // ---- leave out. Nothing here takes memory.

    pub(crate) fn remove(&mut self, number: u64)
        ensures { self.new ≡ filter (λ r. not (r.number == number)) self.old }
    {
        let space = space_of(&self.registrations, number);
        self.registrations.remove(number);
        forget_gone(&mut self.owed, space, number);
    }

    /// Those that pass the test go, which only those pass that have one of the keys that are
    /// sought.
    pub(crate) fn remove_all<P: Test<Registration> + Keys>(&mut self, test: &P)
        requires { (seed : ℕ) (r : OfRegistration) → P.is_passed test.now r ≡ true → is_sought (P.sought test.now seed) (registration_keys seed r) ≡ true }
        ensures { self.new ≡ filter (λ r. not (P.is_passed test.now r)) self.old }
    {
        'registrations: while let Some(number) = self.first_number(test) {
            self.remove(number);
        }
    }

    // ---- change in place

    /// Each registration is owed those of the rows, written by the caller, that are news to it:
    /// whole or not at all.
    pub(crate) fn owe_all(
        &mut self,
        classes: &Classes,
        rows: &[Row],
        caller: Option<u64>,
    ) -> Result<(), NoMemory>
        ensures ok { OnOk result (self.new ≡ map (with_owed classes.now caller rows.now) self.old) }
        ensures err { OnErr result (self.new ≡ self.old) }
    {
        'rows: for place in 0..rows.len() {
            if let Err(e) = self.owe(classes, &rows[place], caller) {
                self.forgive_all(classes, &rows[..place], caller);
                return Err(e);
            }
        }
        Ok(())
    }

    /// Takes back what each registration was owed last. Takes no memory.
    pub(crate) fn forgive_all(&mut self, classes: &Classes, rows: &[Row], caller: Option<u64>)
        ensures { self.new ≡ map (forgiven classes.now caller rows.now) self.old }
    {
        'rows: for row in rows {
            self.forgive(classes, row, caller);
        }
    }

    /// Each registration is owed the row, written by the caller, where that is news to it: whole or
    /// not at all.
    fn owe(&mut self, classes: &Classes, row: &Row, caller: Option<u64>) -> Result<(), NoMemory>
        ensures ok { OnOk result (self.new ≡ map (with_owed classes.now caller (row.now ∷ [])) self.old) }
        ensures err { OnErr result (self.new ≡ self.old) }
    {
        let news = Hears {
            classes,
            row,
            caller,
        };
        let number = row.number;
        let listeners = self.registrations.passing(&news)?;
        name_listeners(&mut self.owed, row.space, &listeners)?;
        self.registrations
            .try_change_named(&listeners, &news, &Owing { number }, &Forgiving {})?;
        Ok(())
    }

    /// Each registration of the range is owed the row, written by the caller, where that is news to
    /// it: whole or not at all.
    pub(crate) fn owe_within(
        &mut self,
        classes: &Classes,
        row: &Row,
        caller: Option<u64>,
        range: Range,
    ) -> Result<(), NoMemory>
        ensures ok { OnOk result (self.new ≡ map (owed_within classes.now caller row.now range.from range.below) self.old) }
        ensures err { OnErr result (self.new ≡ self.old) }
    {
        let news = Hears {
            classes,
            row,
            caller,
        };
        let within = HearsWithin { news, range };
        let number = row.number;
        let listeners = self.registrations.passing(&within)?;
        name_listeners(&mut self.owed, row.space, &listeners)?;
        self.registrations
            .try_change_named(&listeners, &within, &Owing { number }, &Forgiving {})?;
        Ok(())
    }

    /// A number from the first on, below which so many registrations or fewer hear the row; nothing
    /// where no more are left.
    pub(crate) fn bound_of(
        &self,
        classes: &Classes,
        row: &Row,
        caller: Option<u64>,
        from: u64,
        most: usize,
    ) -> Result<Option<u64>, NoMemory>
        ensures { IfOk result (λ below. IfSome below (λ b. from ≤ b)) }
    {
        if !self.registrations.has_at_least(most.saturating_add(1)) {
            return Ok(None);
        }
        let news = Hears {
            classes,
            row,
            caller,
        };
        let range = Range { from, below: None };
        let listeners = self.registrations.passing(&HearsWithin { news, range })?;
        Ok(number_behind(&listeners, from, most))
    }

    /// Takes back that each was owed the row. Takes no memory.
    fn forgive(&mut self, classes: &Classes, row: &Row, caller: Option<u64>)
        ensures { self.new ≡ map (forgiven classes.now caller (row.now ∷ [])) self.old }
    {
        let news = Hears {
            classes,
            row,
            caller,
        };
        self.registrations.change_all(&news, &Forgiving {});
    }

    /// The next event of a registration is told. Takes no memory.
    pub(crate) fn tell(&mut self, number: u64)
        requires { IsTrue (list_all (λ r. nat_le (r.sequence + 1) (2 ^ 63)) self.old) }
        ensures { self.new ≡ update (λ r. r.number == number) told_once self.old }
    {
        self.registrations.change(number, &Telling {});
        forget_told(&mut self.owed, &self.registrations, number);
    }

    /// The registration of this number ends then. Takes no memory.
    pub(crate) fn extend(&mut self, number: u64, end: u64)
        ensures { self.new ≡ map (registration_ending number end) self.old }
    {
        self.registrations.set_end(number, end, &Extension { end });
    }

    // ---- find

    /// The registration of this number.
    pub(crate) fn get(&self, number: u64) -> Option<&Registration>
        ensures { option_copied result ≡ find (λ r. r.number == number) self.now }
    {
        self.registrations.get(number)
    }

    /// The first that is owed an event at a space.
    pub(crate) fn first_owed(&self, space: u64) -> Option<&Registration>
        ensures { option_copied result ≡ find (λ r. r.space == space && not (length r.owed == 0)) self.now }
    {
        match self.owed.get(space) {
            None => None,
            Some(numbers) => self
                .registrations
                .first_named(numbers, 0, &OwedAt { space }),
        }
    }

    /// The one whose end has come and comes first, as an item.
    pub(crate) fn due(&self, time: u64) -> Option<Item>
        ensures { result ≡ first_item (over_by time (map registration_end self.now)) }
    {
        self.registrations.due(time)
    }

    /// The registrations themselves, for what only looks at them.
    pub(crate) fn found(&self) -> &Found
        ensures { result.now ≡ self.now }
    {
        &self.registrations
    }

    /// The number of the first that passes the test.
    pub(crate) fn first_number<P: Test<Registration> + Keys>(&self, test: &P) -> Option<u64>
        requires { (seed : ℕ) (r : OfRegistration) → P.is_passed test.now r ≡ true → is_sought (P.sought test.now seed) (registration_keys seed r) ≡ true }
        ensures found { result ≡ option_map (λ (r : OfRegistration). r.number) (find (P.is_passed test.now) self.now) }
        ensures rising { AreNumbered (λ (r : OfRegistration). r.number) self.now }
    {
        self.registrations.first_number(test)
    }
}

/// Of the numbers from the first on, the one behind so many of them.
fn number_behind(numbers: &Numbers, from: u64, count: usize) -> Option<u64>
    ensures { IfSome result (λ b. from ≤ b) }
{
    let mut last = from.saturating_sub(1);
    for _ in 0..count {
        let Some(number) = numbers.next_above(last) else {
            return None;
        };
        last = number;
    }
    match numbers.next_above(last) {
        Some(number) if from <= number => Some(number),
        _ => None,
    }
}

/// The space of the registration of this number, if it is there.
fn space_of(registrations: &Found, number: u64) -> Option<u64> {
    match registrations.get(number) {
        None => None,
        Some(registration) => Some(registration.space),
    }
}
