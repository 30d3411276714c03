//! Many numbers in rising order, in a tree.
ghost use Rattle.std.specs.Prelude.{◌≡◌, ◌≢◌, ℕ, true, find, nat_lt, IfOk, OnOk};
ghost use Rattle.std.specs.BTreeSet.{IsFromIterResult};
ghost use Rattle.std.specs.Ordering.{nat_cmp};
ghost use Rattle.jsp_table.specs.Numbers.{contains, AreIncreasing};

use crate::NoMemory;
use std::alloc::Global;
use std::collections::BTreeSet;
use std::ops::Bound;

/// A tree of these numbers.
pub(crate) fn many_of(alloc: Global, numbers: &[u64]) -> Result<Box<BTreeSet<u64>>, NoMemory>
    ensures { IfOk result (λ many. IsFromIterResult nat_cmp numbers.now many.value) }
{
    let many = numbers.iter().copied().collect(alloc)?;
    Ok(Box::new(alloc, many)?)
}

/// Whether a number is one of them.
pub(crate) fn are_many_with(numbers: &BTreeSet<u64>, number: u64) -> bool
    ensures { result ≡ contains numbers.now.keys number }
{
    numbers.contains(&number)
}

/// The least number above this one.
pub(crate) fn next_of_many(numbers: &BTreeSet<u64>, number: u64) -> Option<u64>
    ensures { result ≡ find (nat_lt number) numbers.now.keys }
{
    numbers
        .range((Bound::Excluded(number), Bound::Unbounded))
        .next()
        .copied()
}

/// Adds a number, if it isn't there.
pub(crate) fn add_to_many(numbers: &mut BTreeSet<u64>, number: u64) -> Result<(), NoMemory>
    ensures increasing { AreIncreasing numbers.new.keys }
    ensures ok { OnOk result (contains numbers.new.keys number ≡ true) }
    ensures keeps { (m : ℕ) → contains numbers.old.keys m ≡ true → contains numbers.new.keys m ≡ true }
{
    numbers.insert(number)?;
    Ok(())
}

/// Takes a number out, if it is there. Takes no memory.
pub(crate) fn remove_from_many(numbers: &mut BTreeSet<u64>, number: u64)
    ensures increasing { AreIncreasing numbers.new.keys }
    ensures keeps { (m : ℕ) → m ≢ number → contains numbers.old.keys m ≡ true → contains numbers.new.keys m ≡ true }
{
    numbers.remove(&number);
}
