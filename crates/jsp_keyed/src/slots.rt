//! Things that stand at places, some of which are empty.
ghost use Rattle.std.specs.Prelude.{◌≡◌, ◌==◌, map, filter, find, length, is_none, is_some, option_copied, IfOk};
ghost use Rattle.std.specs.List.{list_all};
ghost use Rattle.jsp_lease.specs.Due.{first_item, over_by};
ghost use Rattle.jsp_table.specs.Places.{living};
ghost use Rattle.jsp_keyed.specs.Ending.{first_with};
ghost use Rattle.jsp_keyed.specs.Kept.{item_of};

use crate::adding::item;
use crate::{Keying, NoMemory};
use jsp_lease::{Item, is_before};
use jsp_table::{Numbering, Test};
use jsp_types::Items;
use std::alloc::Global;

/// A copy of each thing that stands at these places.
pub(crate) fn copies_of<T: Drop, K: Numbering<T> + Keying<T>>(
    alloc: Global,
    places: &[Option<T>],
) -> Result<Items<T>, NoMemory>
    ensures { IfOk result (λ c. c ≡ living places.now) }
{
    let mut copies = Items::new(alloc);
    'places: for place in places {
        if let Some(thing) = place {
            copies.push(K::copy(thing)?)?;
        }
    }
    Ok(copies)
}

/// The first thing at these places that passes a test.
pub(crate) fn first_at<'a, T, P: Test<T>>(places: &'a [Option<T>], test: &P) -> Option<&'a T>
    ensures { option_copied result ≡ find (P.is_passed test.now) (living places.now) }
{
    'places: for place in places {
        if let Some(thing) = place {
            if test.passes(thing) {
                return Some(thing);
            }
        }
    }
    None
}

/// How many things stand at these places.
pub(crate) fn count_at<T>(places: &[Option<T>]) -> usize
    ensures { result ≡ length (living places.now) }
{
    count_filled(places)
}

fn count_filled<T>(places: &[Option<T>]) -> usize
    ensures { result ≡ length (filter is_some places.now) }
{
    places.iter().filter(|place| place.is_some()).count()
}

/// Whether nothing stands at these places.
pub(crate) fn are_empty<T>(places: &[Option<T>]) -> bool
    ensures { result ≡ (length (living places.now) == 0) }
{
    are_none(places)
}

fn are_none<T>(places: &[Option<T>]) -> bool
    ensures { result ≡ list_all is_none places.now }
{
    places.iter().all(|place| place.is_none())
}

/// Of those at these places that pass and whose end has come, the one that comes first, as an item.
pub(crate) fn first_over_at<T, K: Numbering<T> + Keying<T>, P: Test<T>>(
    places: &[Option<T>],
    time: u64,
    test: &P,
) -> Option<Item>
    ensures { result ≡ first_item (over_by time (map (item_of K.number_of K.end_of K.rank_of) (filter (P.is_passed test.now) (living places.now)))) }
{
    let mut first = None;
    let mut place = places.len();
    'places: while place > 0 {
        place -= 1;
        if let Some(thing) = &places[place] {
            if test.passes(thing) {
                first = sooner(time, item::<T, K>(thing), first);
            }
        }
    }
    first
}

/// The item, if its end has come, or one of those that stand behind it, where that comes before it.
pub fn sooner(time: u64, item: Item, behind: Option<Item>) -> Option<Item>
    ensures { result ≡ first_with time item behind }
{
    if item.end > time {
        return behind;
    }
    match behind {
        None => Some(item),
        Some(other) => Some(if is_before(other, item) { other } else { item }),
    }
}
