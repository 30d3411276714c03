//! One more thing.
ghost use Rattle.std.specs.Prelude.{◌≡◌, ◌<◌, ◌++◌, ◌∷◌, [], OnOk, OnErr};
ghost use Rattle.std.specs.List.{AllByRecursion};
ghost use Rattle.jsp_lease.specs.Leases.{without, Adds};
ghost use Rattle.jsp_keyed.specs.Kept.{item_of, IsNamed, KeepsOthers};

use crate::naming::{forget_gone, name_wholly};
use crate::{Keying, NoMemory};
use jsp_lease::{Item, Leases};
use jsp_table::{Hints, Numbering, Table};
use std::alloc::Global;

/// A thing's end, as an item.
pub fn item<T, K: Numbering<T> + Keying<T>>(thing: &T) -> Item
    ensures { result ≡ item_of K.number_of K.end_of K.rank_of thing.now }
{
    Item {
        end: K::end(thing),
        rank: K::rank(),
        number: K::number(thing),
    }
}

/// Names a thing that is named nowhere yet under each of its keys, and adds it at the end: both, or
/// neither where memory is refused. The others stay named.
pub(crate) fn append<T: Drop, K: Numbering<T> + Keying<T>>(
    alloc: Global,
    seed: u64,
    hints: &mut Hints,
    table: &mut Table<T, K>,
    thing: T,
) -> Result<(), NoMemory>
    requires { AllByRecursion (λ x. K.number_of x < K.number_of thing) table.old }
    ensures ok { OnOk result (table.new ≡ table.old ++ thing ∷ []) }
    ensures err { OnErr result (table.new ≡ table.old) }
    ensures named { OnOk result (IsNamed hints.new (K.number_of thing) (K.keys_of seed thing)) }
    ensures others { KeepsOthers (K.number_of thing) hints.old hints.new }
{
    // Which says that the numbers rise.
    let _ = table.places();
    let number = K::number(&thing);
    let mut things = Vec::with_capacity(alloc, 1)?;
    name_wholly::<T, K>(seed, hints, &thing)?;
    things.push(thing)?;
    if let Err(e) = table.append(&mut things) {
        forget_gone::<T, K>(seed, hints, things.pop(), number);
        return Err(e);
    }
    Ok(())
}

/// Adds an item, for which there is room.
pub(crate) fn place(ends: &mut Leases, item: Item)
    requires above { ends.old.last < item.number }
    requires room { 0 < ends.old.room }
    ensures { Adds ends.old item ends.new }
{
    let _ = ends.place(item);
}

/// The item of a number goes, if it is there. Takes no memory.
pub(crate) fn cancel(ends: &mut Leases, number: u64)
    ensures { ends.new.items ≡ without number ends.old.items }
{
    let _ = ends.cancel(number);
}
