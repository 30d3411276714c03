//! Numbers in rising order.
ghost use Rattle.std.specs.Prelude.{◌≡◌, ◌≢◌, ◌==◌, ℕ, true, [], length, find, nat_lt, IfOk, OnOk};
ghost use Rattle.jsp_table.specs.Numbers.{contains, AreIncreasing};
ghost use Rattle.jsp_table.specs.Storage.{numbers_in};

use crate::NoMemory;
use crate::few::{add_to_few, are_few_with, few_of_two, next_of_few, remove_from_few};
use crate::many::{add_to_many, are_many_with, many_of, next_of_many, remove_from_many};
use std::alloc::Global;
use std::collections::BTreeSet;
use std::marker::Model;
use std::slice;

/// How many numbers stand next to one another at most.
const MOST_FEW: usize = 256;

/// Numbers in rising order, each once. Contracts see the list of them.
///
/// Most lists are of a single number, which takes no block of its own, so that a map of lists is
/// small. A few numbers stand next to one another. Once there are more, they are a tree, so that
/// one in the middle of very many goes as quickly as the first. What was a tree stays one.
#[derive(Drop)]
pub struct Numbers {
    alloc: Global,
    kept: Storage,
}

/// How numbers are kept.
#[derive(Drop)]
pub(crate) enum Storage {
    Empty,
    One(u64),
    Few(Box<Vec<u64>>),
    Many(Box<BTreeSet<u64>>),
}

impl Model for Numbers {
    ghost use Rattle.std.specs.Prelude.{List, ℕ};
    ghost use Rattle.jsp_table.specs.Numbers.{AreIncreasing};
    ghost use Rattle.jsp_table.specs.Storage.{numbers_in};

    ghost Value = { List ℕ };

    ghost view = { λ a. numbers_in a.kept };

    ghost invariant = { λ a. AreIncreasing (numbers_in a.kept) };
}

impl Numbers {
    /// No numbers.
    pub fn new(alloc: Global) -> Self
        ensures { result ≡ [] }
    {
        Numbers {
            alloc,
            kept: Storage::Empty,
        }
    }

    /// How many there are.
    pub fn len(&self) -> usize
        ensures len { result ≡ length self.now }
        ensures increasing { AreIncreasing self.now }
    {
        match &self.kept {
            Storage::Empty => 0,
            Storage::One(_) => 1,
            Storage::Few(numbers) => numbers.len(),
            Storage::Many(numbers) => numbers.len(),
        }
    }

    /// Whether there is none.
    pub fn is_empty(&self) -> bool
        ensures { result ≡ (length self.now == 0) }
    {
        self.len() == 0
    }

    /// Whether this is one of them.
    pub fn contains(&self, number: u64) -> bool
        ensures { result ≡ contains self.now number }
    {
        match &self.kept {
            Storage::Empty => false,
            Storage::One(one) => *one == number,
            Storage::Few(numbers) => are_few_with(numbers, number),
            Storage::Many(numbers) => are_many_with(numbers, number),
        }
    }

    /// A copy of them.
    pub fn to_vec(&self, alloc: Global) -> Result<Vec<u64>, NoMemory>
        ensures { IfOk result (λ v. v.items ≡ self.now) }
    {
        let copies = match &self.kept {
            Storage::Empty => Vec::new(alloc),
            Storage::One(one) => slice::from_ref(one).iter().copied().collect(alloc)?,
            Storage::Few(numbers) => numbers.iter().copied().collect(alloc)?,
            Storage::Many(numbers) => numbers.iter().copied().collect(alloc)?,
        };
        Ok(copies)
    }

    /// The least number above this one.
    pub fn next_above(&self, number: u64) -> Option<u64>
        ensures next { result ≡ find (nat_lt number) self.now }
        ensures increasing { AreIncreasing self.now }
    {
        match &self.kept {
            Storage::Empty => None,
            Storage::One(one) => next_of_few(slice::from_ref(one), number),
            Storage::Few(numbers) => next_of_few(numbers, number),
            Storage::Many(numbers) => next_of_many(numbers, number),
        }
    }

    /// How they are kept.
    pub(crate) fn kept(&self) -> &Storage
        ensures same { numbers_in result.now ≡ self.now }
        ensures increasing { AreIncreasing self.now }
    {
        &self.kept
    }

    /// Adds a number, if it isn't there.
    pub fn add(&mut self, number: u64) -> Result<(), NoMemory>
        ensures ok { OnOk result (contains self.new number ≡ true) }
        ensures keeps { (m : ℕ) → contains self.old m ≡ true → contains self.new m ≡ true }
    {
        make_way(self.alloc, &mut self.kept)?;
        add_to(self.alloc, &mut self.kept, number)
    }

    /// Takes a number out, if it is there. Takes no memory.
    pub fn remove(&mut self, number: u64)
        ensures { (m : ℕ) → m ≢ number → contains self.old m ≡ true → contains self.new m ≡ true }
    {
        remove_from(&mut self.kept, number);
    }
}

/// Makes a tree of as many numbers as may stand next to one another.
fn make_way(alloc: Global, kept: &mut Storage) -> Result<(), NoMemory>
    requires { AreIncreasing (numbers_in kept.old) }
    ensures increasing { AreIncreasing (numbers_in kept.new) }
    ensures keeps { (m : ℕ) → contains (numbers_in kept.old) m ≡ true → contains (numbers_in kept.new) m ≡ true }
{
    if let Storage::Few(numbers) = kept {
        if numbers.len() >= MOST_FEW {
            let many = many_of(alloc, numbers.as_slice())?;
            *kept = Storage::Many(many);
        }
    }
    Ok(())
}

/// Adds a number, if it isn't there.
fn add_to(alloc: Global, kept: &mut Storage, number: u64) -> Result<(), NoMemory>
    requires { AreIncreasing (numbers_in kept.old) }
    ensures increasing { AreIncreasing (numbers_in kept.new) }
    ensures ok { OnOk result (contains (numbers_in kept.new) number ≡ true) }
    ensures keeps { (m : ℕ) → contains (numbers_in kept.old) m ≡ true → contains (numbers_in kept.new) m ≡ true }
{
    match kept {
        Storage::Empty => {
            *kept = Storage::One(number);
            Ok(())
        }
        Storage::One(one) => {
            if *one != number {
                let few = few_of_two(alloc, *one, number)?;
                *kept = Storage::Few(Box::new(alloc, few)?);
            }
            Ok(())
        }
        Storage::Few(numbers) => add_to_few(&mut **numbers, number),
        Storage::Many(numbers) => add_to_many(&mut **numbers, number),
    }
}

/// Takes a number out, if it is there. Takes no memory.
fn remove_from(kept: &mut Storage, number: u64)
    requires { AreIncreasing (numbers_in kept.old) }
    ensures increasing { AreIncreasing (numbers_in kept.new) }
    ensures keeps { (m : ℕ) → m ≢ number → contains (numbers_in kept.old) m ≡ true → contains (numbers_in kept.new) m ≡ true }
{
    match kept {
        Storage::Empty => {}
        Storage::One(one) => {
            if *one == number {
                *kept = Storage::Empty;
            }
        }
        Storage::Few(numbers) => remove_from_few(&mut **numbers, number),
        Storage::Many(numbers) => remove_from_many(&mut **numbers, number),
    }
}
