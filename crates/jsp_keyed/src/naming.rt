//! Numbers named under keys.
ghost use Rattle.std.specs.Prelude.{◌≡◌, OnOk, IfSome};
ghost use Rattle.jsp_keyed.specs.Kept.{IsNamed, AreNamed, Keeps, KeepsOthers};

use crate::{Keying, NoMemory};
use jsp_table::{Hints, Numbering};

/// Names a thing under each of its keys. Nothing goes from any list, on `Err` either.
pub(crate) fn name<T, K: Numbering<T> + Keying<T>>(
    seed: u64,
    hints: &mut Hints,
    thing: &T,
) -> Result<(), NoMemory>
    ensures ok { OnOk result (IsNamed hints.new (K.number_of thing.now) (K.keys_of seed thing.now)) }
    ensures keeps { Keeps hints.old hints.new }
{
    let number = K::number(thing);
    'places: for place in 0..K::count(seed, thing) {
        hints.add(K::key(seed, thing, place), number)?;
    }
    Ok(())
}

/// Names a thing that is named nowhere yet under each of its keys, or under none where memory is
/// refused. The others stay named.
pub(crate) fn name_wholly<T, K: Numbering<T> + Keying<T>>(
    seed: u64,
    hints: &mut Hints,
    thing: &T,
) -> Result<(), NoMemory>
    ensures ok { OnOk result (IsNamed hints.new (K.number_of thing.now) (K.keys_of seed thing.now)) }
    ensures others { KeepsOthers (K.number_of thing.now) hints.old hints.new }
{
    if let Err(e) = name::<T, K>(seed, hints, thing) {
        forget::<T, K>(seed, hints, thing);
        return Err(e);
    }
    Ok(())
}

/// Names things under each of their keys. Nothing goes from any list, on `Err` either.
pub(crate) fn name_all<T, K: Numbering<T> + Keying<T>>(
    seed: u64,
    hints: &mut Hints,
    things: &[T],
) -> Result<(), NoMemory>
    ensures ok { OnOk result (AreNamed K.number_of K.keys_of seed hints.new things.now) }
    ensures keeps { Keeps hints.old hints.new }
{
    'things: for thing in things {
        name::<T, K>(seed, hints, thing)?;
    }
    Ok(())
}

/// Takes a thing from its lists. The others stay named. Takes no memory.
pub(crate) fn forget<T, K: Numbering<T> + Keying<T>>(seed: u64, hints: &mut Hints, thing: &T)
    ensures { KeepsOthers (K.number_of thing.now) hints.old hints.new }
{
    let number = K::number(thing);
    'places: for place in 0..K::count(seed, thing) {
        hints.remove(K::key(seed, thing, place), number);
    }
}

/// Takes the thing of a number from its lists, if there was one. The others stay named. Takes no
/// memory.
pub(crate) fn forget_gone<T: Drop, K: Numbering<T> + Keying<T>>(
    seed: u64,
    hints: &mut Hints,
    thing: Option<T>,
    number: u64,
)
    requires { IfSome thing (λ x. K.number_of x ≡ number) }
    ensures { KeepsOthers number hints.old hints.new }
{
    if let Some(thing) = thing {
        forget::<T, K>(seed, hints, &thing);
    }
}
