//! The ends of things, as the items of leases.
ghost use Rattle.std.specs.Prelude.{◌≡◌, ◌++◌, ◌<◌, ◌≤◌, map, length, OnOk, IfOk};
ghost use Rattle.std.specs.List.{AllByRecursion};
ghost use Rattle.jsp_table.specs.Finding.{AreNumbered};
ghost use Rattle.jsp_table.specs.Places.{living};
ghost use Rattle.jsp_keyed.specs.Coming.{AreAbove, last_number};
ghost use Rattle.jsp_keyed.specs.Kept.{item_of};

use crate::adding::{item, place};
use crate::{Keying, NoMemory};
use jsp_lease::{Item, Leases};
use jsp_table::Numbering;
use std::alloc::Global;

/// The ends of things.
pub(crate) fn ends_of<T, K: Numbering<T> + Keying<T>>(
    alloc: Global,
    things: &[T],
) -> Result<Vec<Item>, NoMemory>
    ensures { IfOk result (λ v. v.items ≡ map (item_of K.number_of K.end_of K.rank_of) things.now) }
{
    let mut items = Vec::with_capacity(alloc, things.len())?;
    'things: for thing in things {
        items.push(item::<T, K>(thing))?;
    }
    Ok(items)
}

/// Adds items, for which there is room.
pub(crate) fn place_all(ends: &mut Leases, items: &[Item])
    requires above { AreAbove ends.old.last items.now }
    requires room { length items.now ≤ ends.old.room }
    ensures items { ends.new.items ≡ ends.old.items ++ items.now }
    ensures last { ends.new.last ≡ last_number ends.old.last items.now }
{
    'items: for item in items {
        place(ends, *item);
    }
}

/// Makes room for the ends of so many things whose numbers are no less than `first`. Where a thing
/// that went had a greater number, the leases are made anew.
pub(crate) fn make_ready<T, K: Numbering<T> + Keying<T>>(
    alloc: Global,
    ends: &mut Leases,
    places: &[Option<T>],
    first: u64,
    count: usize,
) -> Result<(), NoMemory>
    requires ends { ends.old.items ≡ map (item_of K.number_of K.end_of K.rank_of) (living places.now) }
    requires rising { AreNumbered K.number_of (living places.now) }
    requires positive { AllByRecursion (λ x. 0 < K.number_of x) (living places.now) }
    requires above { 0 < first }
    requires below { AllByRecursion (λ x. K.number_of x < first) (living places.now) }
    ensures same { ends.new.items ≡ ends.old.items }
    ensures last { OnOk result (ends.new.last < first) }
    ensures room { OnOk result (count ≤ ends.new.room) }
{
    if ends.last() >= first {
        *ends = made_anew::<T, K>(alloc, places)?;
    }
    ends.reserve(count)?;
    Ok(())
}

/// Leases that have the ends of these things alone.
fn made_anew<T, K: Numbering<T> + Keying<T>>(
    alloc: Global,
    places: &[Option<T>],
) -> Result<Leases, NoMemory>
    requires rising { AreNumbered K.number_of (living places.now) }
    requires positive { AllByRecursion (λ x. 0 < K.number_of x) (living places.now) }
    ensures items { IfOk result (λ ends. ends.items ≡ map (item_of K.number_of K.end_of K.rank_of) (living places.now)) }
    ensures last { IfOk result (λ ends. ends.last ≡ last_number 0 (map (item_of K.number_of K.end_of K.rank_of) (living places.now))) }
{
    let items = living_ends::<T, K>(alloc, places)?;
    let mut ends = Leases::new(alloc);
    ends.reserve(items.len())?;
    place_all(&mut ends, &items);
    Ok(ends)
}

/// The ends of the things that stand at these places.
fn living_ends<T, K: Numbering<T> + Keying<T>>(
    alloc: Global,
    places: &[Option<T>],
) -> Result<Vec<Item>, NoMemory>
    ensures { IfOk result (λ v. v.items ≡ map (item_of K.number_of K.end_of K.rank_of) (living places.now)) }
{
    let mut items = Vec::new(alloc);
    'places: for place in places {
        if let Some(thing) = place {
            items.push(item::<T, K>(thing))?;
        }
    }
    Ok(items)
}
