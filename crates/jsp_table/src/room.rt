//! Room at the end of a vector.
ghost use Rattle.std.specs.Prelude.{◌≡◌, ◌+◌, ◌≤◌, OnOk, vec_len, vec_capacity};

use crate::NoMemory;

/// A vector of up to so many items grows to twice as many.
const SMALL: usize = 64;

/// Room for so many more items. A small vector doubles, and a longer one grows by an eighth: a
/// large block moves by its pages and not byte by byte, while of one that doubles up to a half
/// stays empty.
pub fn make_room<T>(items: &mut Vec<T>, more: usize) -> Result<(), NoMemory>
    ensures items { items.new.items ≡ items.old.items }
    ensures len { vec_len items.new ≡ vec_len items.old }
    ensures capacity { vec_capacity items.old ≤ vec_capacity items.new }
    ensures ok { OnOk result (vec_len items.new + more ≤ vec_capacity items.new) }
{
    let len = items.len();
    if more <= items.capacity() - len {
        return Ok(());
    }
    let spare = len.min(SMALL).max(len / 8);
    items.reserve_exact(more.max(spare))
}
