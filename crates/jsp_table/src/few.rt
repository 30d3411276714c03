//! A few numbers in rising order, next to one another.
ghost use Rattle.std.specs.Prelude.{◌≡◌, ◌≢◌, ◌<◌, ◌≤◌, ℕ, true, length, find, nat_lt, slice_index, IfOk, OnOk};
ghost use Rattle.jsp_table.specs.Numbers.{contains, AreIncreasing};

use crate::NoMemory;
use std::alloc::Global;

/// Whether a number is one of them.
pub(crate) fn are_few_with(numbers: &[u64], number: u64) -> bool
    requires { AreIncreasing numbers.now }
    ensures { result ≡ contains numbers.now number }
{
    numbers.binary_search(&number).is_ok()
}

/// The least number above this one.
pub(crate) fn next_of_few(numbers: &[u64], number: u64) -> Option<u64>
    requires { AreIncreasing numbers.now }
    ensures { result ≡ find (nat_lt number) numbers.now }
{
    numbers.get(place_above(numbers, number)).copied()
}

/// The same, first looked for at this place, which is then the place behind what was found.
pub(crate) fn next_of_few_from(numbers: &[u64], place: &mut usize, number: u64) -> Option<u64>
    requires { AreIncreasing numbers.now }
    ensures { result ≡ find (nat_lt number) numbers.now }
{
    let found = place_from(numbers, *place, number);
    *place = found.saturating_add(1);
    numbers.get(found).copied()
}

/// The place of the first number above this one, which is this one where the number stands before
/// it.
fn place_from(numbers: &[u64], place: usize, number: u64) -> usize
    requires { AreIncreasing numbers.now }
    ensures within { result ≤ length numbers.now }
    ensures before { (k : ℕ) → k < result → slice_index numbers.now k ≤ number }
    ensures beyond { (k : ℕ) → result ≤ k → k < length numbers.now → number < slice_index numbers.now k }
{
    if 0 < place && place <= numbers.len() && numbers[place - 1] == number {
        place
    } else {
        place_above(numbers, number)
    }
}

/// The place of the first number above this one, or the length where there is none.
fn place_above(numbers: &[u64], number: u64) -> usize
    requires { AreIncreasing numbers.now }
    ensures within { result ≤ length numbers.now }
    ensures before { (k : ℕ) → k < result → slice_index numbers.now k ≤ number }
    ensures beyond { (k : ℕ) → result ≤ k → k < length numbers.now → number < slice_index numbers.now k }
{
    match numbers.binary_search(&number) {
        Ok(place) => place + 1,
        Err(place) => place,
    }
}

/// Adds a number, if it isn't there.
pub(crate) fn add_to_few(numbers: &mut Vec<u64>, number: u64) -> Result<(), NoMemory>
    requires { AreIncreasing numbers.old.items }
    ensures increasing { AreIncreasing numbers.new.items }
    ensures ok { OnOk result (contains numbers.new.items number ≡ true) }
    ensures keeps { (m : ℕ) → contains numbers.old.items m ≡ true → contains numbers.new.items m ≡ true }
{
    if let Err(place) = numbers.as_slice().binary_search(&number) {
        numbers.insert(place, number)?;
    }
    Ok(())
}

/// These two.
pub(crate) fn few_of_two(alloc: Global, one: u64, other: u64) -> Result<Vec<u64>, NoMemory>
    ensures increasing { IfOk result (λ v. AreIncreasing v.items) }
    ensures one { IfOk result (λ v. contains v.items one ≡ true) }
    ensures other { IfOk result (λ v. contains v.items other ≡ true) }
{
    let mut few = Vec::new(alloc);
    add_to_few(&mut few, one)?;
    add_to_few(&mut few, other)?;
    Ok(few)
}

/// Takes a number out, if it is there. Takes no memory.
pub(crate) fn remove_from_few(numbers: &mut Vec<u64>, number: u64)
    requires { AreIncreasing numbers.old.items }
    ensures increasing { AreIncreasing numbers.new.items }
    ensures keeps { (m : ℕ) → m ≢ number → contains numbers.old.items m ≡ true → contains numbers.new.items m ≡ true }
{
    if let Ok(place) = numbers.as_slice().binary_search(&number) {
        numbers.remove(place);
    }
}
