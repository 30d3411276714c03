//! The counts of the sessions: that of the session s stands at the place s - 1.
ghost use Rattle.std.specs.Prelude.{◌≡◌, ◌+◌, ◌<◌, ◌^◌, length, get_or, OnOk, vec_len, vec_capacity};
ghost use Rattle.jsp_kept.specs.History.{is_lawful};
ghost use Rattle.jsp_kept.specs.Calls.{raised};

use jsp_types::NoMemory;

const FULL_BOOK: u64 = 1 << 62;

/// Whether the seat's count is its session's, and the book has room.
pub(crate) fn may_count(counts: &[u64], book: u64, session: u64, count: u64) -> bool
    requires { 0 < session }
    ensures { result ≡ is_lawful counts.now book (record { session = session; count = count }) }
{
    let i = session as usize - 1;
    i < counts.len() && counts[i] == count && book < FULL_BOOK
}

/// Adds to one count.
pub(crate) fn raise(counts: &mut Vec<u64>, i: usize, by: u64)
    requires within { i < length counts.old.items }
    requires fits { get_or counts.old.items i 0 + by < 2 ^ 64 }
    ensures { counts.new.items ≡ raised counts.old.items i by }
{
    let counts = counts.as_mut_slice();
    counts[i] += by;
}

/// Makes room for one more in both lists.
pub(crate) fn reserve_both(asked: &mut Vec<u64>, taken: &mut Vec<u64>) -> Result<(), NoMemory>
    ensures asked { asked.new.items ≡ asked.old.items }
    ensures taken { taken.new.items ≡ taken.old.items }
    ensures asked_room { OnOk result (vec_len asked.new < vec_capacity asked.new) }
    ensures taken_room { OnOk result (vec_len taken.new < vec_capacity taken.new) }
{
    asked.reserve(1)?;
    taken.reserve(1)?;
    Ok(())
}
