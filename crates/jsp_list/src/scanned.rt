//! Things in a plain list, each of which is looked at.
ghost use Rattle.std.specs.Prelude.{◌≡◌, ◌≤◌, ◌++◌, not, map, filter, find, is_some, length, take, drop, option_copied, IfOk, OnOk, OnErr};
ghost use Rattle.std.specs.List.{list_any};
ghost use Rattle.jsp_lease.specs.Due.{first_item, over_by};
ghost use Rattle.jsp_keyed.specs.Kept.{item_of};
ghost use Rattle.jsp_keyed.specs.Changing.{IsUndone, where_passed};

use crate::{NoMemory, Reading};
use jsp_keyed::{Keying, item, sooner};
use jsp_lease::Item;
use jsp_table::{Change, Numbering, Test, TryChange};
use jsp_types::Items;
use std::alloc::Global;

/// A copy of each.
pub(crate) fn copies<T, K: Numbering<T> + Keying<T>>(
    alloc: Global,
    things: &[T],
) -> Result<Items<T>, NoMemory>
where
    T: Drop,
    ensures { IfOk result (λ c. c ≡ things.now) }
{
    let mut copies = Items::new(alloc);
    'things: for thing in things {
        copies.push(K::copy(thing)?)?;
    }
    Ok(copies)
}

/// Those that pass go. Takes no memory.
pub(crate) fn drop_passing<T: Drop, P: Test<T>>(things: &mut Vec<T>, test: &P)
    ensures { things.new.items ≡ filter (λ x. not (P.is_passed test.now x)) things.old.items }
{
    things.retain(|thing| !test.passes(thing));
}

/// Those that pass change. Takes no memory.
pub(crate) fn change_passing<T, P: Test<T>, C: Change<T>>(things: &mut [T], test: &P, change: &C)
    ensures { things.new ≡ map (where_passed (P.is_passed test.now) (C.changed change.now)) things.old }
{
    change_first(things, things.len(), test, change);
}

/// Those of the first so many that pass change. Takes no memory.
fn change_first<T, P: Test<T>, C: Change<T>>(things: &mut [T], count: usize, test: &P, change: &C)
    requires { count ≤ length things.old }
    ensures { things.new ≡ map (where_passed (P.is_passed test.now) (C.changed change.now)) (take count things.old) ++ drop count things.old }
{
    'places: for place in 0..count {
        change_one(&mut things[place], test, change);
    }
}

fn change_one<T, P: Test<T>, C: Change<T>>(thing: &mut T, test: &P, change: &C)
    ensures { thing.new ≡ where_passed (P.is_passed test.now) (C.changed change.now) thing.old }
{
    if test.passes(thing) {
        change.change(thing);
    }
}

/// Those that pass change, each or none: where memory is refused the change is undone.
pub(crate) fn try_change_passing<T, P: Test<T>, C: TryChange<T>, U: Change<T>>(
    things: &mut [T],
    test: &P,
    change: &C,
    undo: &U,
) -> Result<(), NoMemory>
    requires { IsUndone (P.is_passed test.now) (C.changed change.now) (U.changed undo.now) }
    ensures ok { OnOk result (things.new ≡ map (where_passed (P.is_passed test.now) (C.changed change.now)) things.old) }
    ensures err { OnErr result (things.new ≡ things.old) }
{
    'places: for place in 0..things.len() {
        if let Err(e) = try_change_one(&mut things[place], test, change) {
            change_first(things, place, test, undo);
            return Err(e);
        }
    }
    Ok(())
}

fn try_change_one<T, P: Test<T>, C: TryChange<T>>(
    thing: &mut T,
    test: &P,
    change: &C,
) -> Result<(), NoMemory>
    ensures ok { OnOk result (thing.new ≡ where_passed (P.is_passed test.now) (C.changed change.now) thing.old) }
    ensures err { OnErr result (thing.new ≡ thing.old) }
{
    if test.passes(thing) {
        return change.try_change(thing);
    }
    Ok(())
}

/// The first that passes.
pub(crate) fn first_passing<'a, T, P: Test<T>>(things: &'a [T], test: &P) -> Option<&'a T>
    ensures { option_copied result ≡ find (P.is_passed test.now) things.now }
{
    things.iter().find(|thing| test.passes(thing))
}

/// What is read off those that pass.
pub(crate) fn read_passing<T, P: Test<T>, R: Reading<T>>(
    alloc: Global,
    things: &[T],
    test: &P,
    reading: &R,
) -> Result<Vec<u64>, NoMemory>
    ensures { IfOk result (λ v. v.items ≡ map (R.value_of reading.now) (filter (P.is_passed test.now) things.now)) }
{
    let passing = things.iter().filter(|thing| test.passes(thing));
    passing.map(|thing| reading.read(thing)).collect(alloc)
}

/// How many pass.
pub(crate) fn count_passing<T, P: Test<T>>(things: &[T], test: &P) -> usize
    ensures { result ≡ length (filter (P.is_passed test.now) things.now) }
{
    things.iter().filter(|thing| test.passes(thing)).count()
}

/// How many of these places aren't empty.
pub(crate) fn count_filled<T>(places: &[Option<T>]) -> usize
    ensures { result ≡ length (filter is_some places.now) }
{
    places.iter().filter(|place| place.is_some()).count()
}

/// Whether one passes.
pub(crate) fn any_passes<T, P: Test<T>>(things: &[T], test: &P) -> bool
    ensures { result ≡ list_any (P.is_passed test.now) things.now }
{
    things.iter().any(|thing| test.passes(thing))
}

/// Of those that pass and whose end has come, the one that comes first, as an item.
pub(crate) fn first_over<T, K: Numbering<T> + Keying<T>, P: Test<T>>(
    things: &[T],
    time: u64,
    test: &P,
) -> Option<Item>
    ensures { result ≡ first_item (over_by time (map (item_of K.number_of K.end_of K.rank_of) (filter (P.is_passed test.now) things.now))) }
{
    let mut first = None;
    let mut place = things.len();
    'places: while place > 0 {
        place -= 1;
        let thing = &things[place];
        if test.passes(thing) {
            first = sooner(time, item::<T, K>(thing), first);
        }
    }
    first
}
