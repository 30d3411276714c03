//! Registrations in a plain list, each of which a call goes through.
ghost use Rattle.std.specs.Prelude.{◌≡◌, ◌==◌, ◌&&◌, ◌+◌, ◌^◌, not, nat_le, map, filter, find, fold, reverse, length, option_copied, option_map, None, IfOk, IsTrue};
ghost use Rattle.jsp_model.specs.declared.state.Registration.{Registration as OfRegistration};
ghost use Rattle.std.specs.List.{list_any, list_all};
ghost use Rattle.jsp_lease.specs.Due.{first_item, over_by};
ghost use Rattle.jsp_model.specs.Lookup.{update, is_caller as calls};
ghost use Rattle.jsp_sight.specs.Rows.{earlier as earlier_of};
ghost use Rattle.jsp_notify.specs.Registered.{registration_end, registration_ending, telling, told_once};

use crate::registration_changes::Telling;
use jsp_model::{Item, Rank, Registration};
use jsp_sight::{earlier, is_caller};
use jsp_table::{Change, Test};
use jsp_types::{Items, NoMemory};
use std::alloc::Global;

/// A copy of each.
pub(crate) fn copies_of(
    alloc: Global,
    registrations: &[Registration],
) -> Result<Items<Registration>, NoMemory>
    ensures { IfOk result (λ c. c ≡ registrations.now) }
{
    let mut copies = Items::new(alloc);
    'registrations: for registration in registrations {
        copies.push(copy_of(registration)?)?;
    }
    Ok(copies)
}

pub(crate) fn copy_of(registration: &Registration) -> Result<Registration, NoMemory>
    ensures { IfOk result (λ c. c ≡ registration.now) }
{
    registration.clone()
}

pub(crate) fn drop_numbered(registrations: &mut Vec<Registration>, number: u64)
    ensures { registrations.new.items ≡ filter (λ r. not (r.number == number)) registrations.old.items }
{
    registrations.retain(|r| !(r.number == number));
}

pub(crate) fn drop_of(registrations: &mut Vec<Registration>, session: u64)
    ensures { registrations.new.items ≡ filter (λ r. not (r.session == session)) registrations.old.items }
{
    registrations.retain(|r| !(r.session == session));
}

pub(crate) fn drop_under(registrations: &mut Vec<Registration>, x: u64)
    ensures { registrations.new.items ≡ filter (λ r. not (calls r.transaction x)) registrations.old.items }
{
    registrations.retain(|r| !is_caller(r.transaction, x));
}

pub(crate) fn drop_at(registrations: &mut Vec<Registration>, space: u64)
    ensures { registrations.new.items ≡ filter (λ r. not (r.space == space)) registrations.old.items }
{
    registrations.retain(|r| !(r.space == space));
}

pub(crate) fn extend_each(registrations: &mut [Registration], number: u64, end: u64)
    ensures { registrations.new ≡ map (registration_ending number end) registrations.old }
{
    'registrations: for registration in registrations.iter_mut() {
        extend_registration(registration, number, end);
    }
}

fn extend_registration(registration: &mut Registration, number: u64, end: u64)
    ensures { registration.new ≡ registration_ending number end registration.old }
{
    if registration.number == number {
        registration.end = end;
    }
}

pub(crate) fn find_numbered(registrations: &[Registration], number: u64) -> Option<&Registration>
    ensures { option_copied result ≡ find (λ r. r.number == number) registrations.now }
{
    registrations.iter().find(|r| r.number == number)
}

pub(crate) fn count_at(registrations: &[Registration], space: u64) -> usize
    ensures { result ≡ length (filter (λ r. r.space == space) registrations.now) }
{
    registrations.iter().filter(|r| r.space == space).count()
}

pub(crate) fn first_that_is_owed(
    registrations: &[Registration],
    space: u64,
) -> Option<&Registration>
    ensures { option_copied result ≡ find (λ r. r.space == space && not (length r.owed == 0)) registrations.now }
{
    registrations
        .iter()
        .find(|r| r.space == space && !r.owed.as_slice().is_empty())
}

/// The least of those whose end has come. They are gone through from the last to the first, and the
/// earlier one is kept.
pub(crate) fn first_over(registrations: &[Registration], time: u64) -> Option<Item>
    ensures { result ≡ first_item (over_by time (map registration_end registrations.now)) }
{
    last_to_first(registrations, time)
}

fn last_to_first(registrations: &[Registration], time: u64) -> Option<Item>
    ensures { result ≡ fold earlier_of None (map registration_end (filter (λ r. nat_le r.end time) (reverse registrations.now))) }
{
    let over = registrations.iter().rev().filter(|r| r.end <= time);
    over.map(registration_item).fold(None, kept)
}

fn kept(other: Option<Item>, item: Item) -> Option<Item>
    ensures { result ≡ earlier_of other item }
{
    earlier(other, item)
}

fn registration_item(registration: &Registration) -> Item
    ensures { result ≡ registration_end registration.now }
{
    Item {
        end: registration.end,
        rank: Rank::Registration,
        number: registration.number,
    }
}

pub(crate) fn spaces_among(
    alloc: Global,
    registrations: &[Registration],
    number: u64,
) -> Result<Vec<u64>, NoMemory>
    ensures { IfOk result (λ v. v.items ≡ map (λ r. r.space) (filter (λ r. r.number == number) registrations.now)) }
{
    let named = registrations.iter().filter(|r| r.number == number);
    named.map(|r| r.space).collect(alloc)
}

/// The next event of each registration of this number is told. Takes no memory.
pub(crate) fn tell_each(registrations: &mut [Registration], number: u64)
    requires { IsTrue (list_all (λ r. nat_le (r.sequence + 1) (2 ^ 63)) registrations.old) }
    ensures { registrations.new ≡ update (λ r. r.number == number) told_once registrations.old }
{
    tell_numbered(registrations, number);
}

fn tell_numbered(registrations: &mut [Registration], number: u64)
    ensures { registrations.new ≡ map (telling number) registrations.old }
{
    'registrations: for registration in registrations.iter_mut() {
        tell_if(registration, number);
    }
}

fn tell_if(registration: &mut Registration, number: u64)
    ensures { registration.new ≡ telling number registration.old }
{
    if registration.number == number {
        Telling {}.change(registration);
    }
}

/// Whether a registration of this number passes a test.
pub(crate) fn any_numbered<P: Test<Registration>>(
    registrations: &[Registration],
    number: u64,
    test: &P,
) -> bool
    ensures { result ≡ list_any (λ r. r.number == number && P.is_passed test.now r) registrations.now }
{
    registrations
        .iter()
        .any(|r| r.number == number && test.passes(r))
}

/// The number of the first that passes the test.
pub(crate) fn first_passing<P: Test<Registration>>(
    registrations: &[Registration],
    test: &P,
) -> Option<u64>
    ensures { result ≡ option_map (λ (r : OfRegistration). r.number) (find (P.is_passed test.now) registrations.now) }
{
    match registrations.iter().find(|r| test.passes(r)) {
        None => None,
        Some(registration) => Some(registration.number),
    }
}
