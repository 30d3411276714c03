//! What is found of registrations by their number.
ghost use Rattle.std.specs.Prelude.{◌≡◌, ◌==◌, map, filter, IfOk};

use crate::by_number::Found;
use jsp_types::NoMemory;
use std::alloc::Global;

/// The space of the registration of this number, if it is there.
pub(crate) fn spaces_of(
    alloc: Global,
    registrations: &Found,
    number: u64,
) -> Result<Vec<u64>, NoMemory>
    ensures { IfOk result (λ v. v.items ≡ map (λ r. r.space) (filter (λ r. r.number == number) registrations.now)) }
{
    // Which says that the numbers rise.
    let _ = registrations.places();
    let mut spaces = Vec::new(alloc);
    if let Some(registration) = registrations.get(number) {
        spaces.push(registration.space)?;
    }
    Ok(spaces)
}
