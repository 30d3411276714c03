//! Numbers that are read off things.
ghost use Rattle.std.specs.Prelude.{◌≡◌, ℕ, [], ◌∷◌, map, option_copied, IfOk};
ghost use Rattle.jsp_table.specs.Places.{living};

use crate::NoMemory;
use std::alloc::Global;

/// A number that each thing has.
pub trait Reading<T> {
    ghost value_of: { Self → T → ℕ };

    fn read(&self, thing: &T) -> u64
        ensures { result ≡ value_of self.now thing.now };
}

/// What is read off the thing, if there is one.
pub(crate) fn read_one<T, R: Reading<T>>(
    alloc: Global,
    thing: Option<&T>,
    reading: &R,
) -> Result<Vec<u64>, NoMemory>
    ensures { IfOk result (λ v. v.items ≡ map (R.value_of reading.now) (living (option_copied thing.entry ∷ []))) }
{
    let mut values = Vec::new(alloc);
    if let Some(thing) = thing {
        values.push(reading.read(thing))?;
    }
    Ok(values)
}
