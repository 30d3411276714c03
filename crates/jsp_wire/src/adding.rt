//! Adding a part that was read to a list.
ghost use Rattle.std.specs.Prelude.{◌≡◌, ◌++◌, ◌∷◌, [], OnOk};

use jsp_types::{Items, NoMemory};

/// Room that is made at once for a list of parts.
const FIRST_ROOM: usize = 32;

/// Adds a part to those that were read before it, of so many in all. Room for more than one is made
/// with the first, so that a list of which the first is wrong takes no memory, and for 32 at most,
/// so that a long list of which the second is wrong takes little.
pub(crate) fn add<T: Drop>(parts: &mut Items<T>, part: T, count: usize) -> Result<(), NoMemory>
    ensures { OnOk result (parts.new ≡ parts.old ++ part ∷ []) }
{
    if parts.as_slice().is_empty() {
        parts.items.reserve_exact(count.min(FIRST_ROOM))?;
    }
    parts.push(part)?;
    Ok(())
}
