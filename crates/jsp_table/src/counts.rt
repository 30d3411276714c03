//! How many there are, by key.
ghost use Rattle.std.specs.Prelude.{◌≡◌, ◌==◌, ◌+◌, ◌-◌, ◌^◌, ◌<◌, ℕ, if◌then◌else◌, OnOk};
ghost use Rattle.jsp_table.specs.Counts.{count_of as counted, HasCount};

use crate::NoMemory;
use std::collections::HashMap;

/// A count for each key, 0 where there is none.
pub type Counts = HashMap<u64, usize>;

/// The count of a key.
pub fn count_of(counts: &Counts, key: u64) -> usize
    ensures { result ≡ counted counts.now key }
{
    match counts.get(&key) {
        Some(count) => *count,
        None => 0,
    }
}

/// Makes room for a key's count. Each count stays as it was.
pub fn make_room_for_count(counts: &mut Counts, key: u64) -> Result<(), NoMemory>
    ensures ok { OnOk result (HasCount counts.new key) }
    ensures keeps { (k : ℕ) → HasCount counts.old k → HasCount counts.new k }
    ensures same { (k : ℕ) → counted counts.new k ≡ counted counts.old k }
{
    if !counts.contains_key(&key) {
        counts.insert(key, 0)?;
    }
    Ok(())
}

/// Counts one more under a key, for whose count there is room. Takes no memory.
pub fn count_one_more(counts: &mut Counts, key: u64)
    requires room { HasCount counts.old key }
    requires fits { counted counts.old key + 1 < 2 ^ 64 }
    ensures keeps { (k : ℕ) → HasCount counts.old k → HasCount counts.new k }
    ensures counts { (k : ℕ) → counted counts.new k ≡ (if k == key then counted counts.old k + 1 else counted counts.old k) }
{
    if let Some(count) = counts.get_mut(&key) {
        *count += 1;
    }
}

/// Counts one less under a key, where that is more than 0. Takes no memory.
pub fn count_one_less(counts: &mut Counts, key: u64)
    ensures { (k : ℕ) → counted counts.new k ≡ (if k == key then counted counts.old k - 1 else counted counts.old k) }
{
    if let Some(count) = counts.get_mut(&key) {
        *count = count.saturating_sub(1);
    }
}

/// A key's count is 0 from here on. Takes no memory.
pub fn drop_count(counts: &mut Counts, key: u64)
    ensures { (k : ℕ) → counted counts.new k ≡ (if k == key then 0 else counted counts.old k) }
{
    counts.remove(&key);
}
