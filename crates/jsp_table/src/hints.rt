//! Lists of numbers by key.
ghost use Rattle.std.specs.Prelude.{◌≡◌, ◌≢◌, ◌%◌, ℕ, true, None, OnOk, option_copied, nat_eq};
ghost use Rattle.std.specs.HashMap.{get};
ghost use Rattle.jsp_table.specs.Hints.{has_number, list_in, list_of, names};

use crate::{NoMemory, Numbers};
use std::alloc::Global;
use std::collections::HashMap;

/// Over how many maps lists are spread, so that none that grows moves very many at once.
const SHARDS: usize = 64;

/// For how many lists more than it has a map always keeps room.
const SPARE: usize = 16;

/// Lists of numbers, each by a key. A list may name what is gone; what it has to name is for its
/// user to say.
#[derive(Drop)]
pub struct Hints {
    pub(crate) alloc: Global,
    pub(crate) shards: Vec<HashMap<u64, Numbers>>,
}

impl Hints {
    /// No lists.
    pub fn new(alloc: Global) -> Self
        ensures { (key : ℕ) → list_of result key ≡ None }
    {
        Hints {
            alloc,
            shards: Vec::new(alloc),
        }
    }

    /// The list of a key, if it has one.
    pub fn get(&self, key: u64) -> Option<&Numbers>
        ensures { option_copied result ≡ list_of self.now key }
    {
        let Some(shard) = self.shards.as_slice().get(shard_of(key)) else {
            return None;
        };
        shard.get(&key)
    }

    /// Adds a number to a key's list. Nothing goes from any list, on `Err` either.
    pub fn add(&mut self, key: u64, number: u64) -> Result<(), NoMemory>
        ensures ok { OnOk result (names self.new key number ≡ true) }
        ensures keeps { (k n : ℕ) → names self.old k n ≡ true → names self.new k n ≡ true }
    {
        make_shards(self.alloc, &mut self.shards)?;
        add_at(self.alloc, &mut self.shards, key, number)
    }

    /// Takes a number from a key's list, and the list where it is empty then. Other numbers stay in
    /// each list. Takes no memory.
    pub fn remove(&mut self, key: u64, number: u64)
        ensures { (k n : ℕ) → n ≢ number → names self.old k n ≡ true → names self.new k n ≡ true }
    {
        remove_at(&mut self.shards, key, number);
    }
}

/// Which map has the list of a key.
fn shard_of(key: u64) -> usize
    ensures { result ≡ key % 64 }
{
    (key % SHARDS as u64) as usize
}

/// Makes the maps, where they aren't there.
fn make_shards(alloc: Global, shards: &mut Vec<HashMap<u64, Numbers>>) -> Result<(), NoMemory>
    ensures { (k n : ℕ) → has_number (list_in shards.old.items k) n ≡ true → has_number (list_in shards.new.items k) n ≡ true }
{
    if shards.is_empty() {
        shards.reserve_exact(SHARDS)?;
        'shards: for _count in 0..SHARDS {
            shards.push(HashMap::new(alloc))?;
        }
    }
    Ok(())
}

fn add_at(
    alloc: Global,
    shards: &mut Vec<HashMap<u64, Numbers>>,
    key: u64,
    number: u64,
) -> Result<(), NoMemory>
    ensures ok { OnOk result (has_number (list_in shards.new.items key) number ≡ true) }
    ensures keeps { (k n : ℕ) → has_number (list_in shards.old.items k) n ≡ true → has_number (list_in shards.new.items k) n ≡ true }
{
    let place = shard_of(key);
    if place >= shards.len() {
        return Err(NoMemory);
    }
    add_to(alloc, &mut shards[place], key, number)
}

fn add_to(
    alloc: Global,
    shard: &mut HashMap<u64, Numbers>,
    key: u64,
    number: u64,
) -> Result<(), NoMemory>
    ensures ok { OnOk result (has_number (get nat_eq shard.new key) number ≡ true) }
    ensures keeps { (k n : ℕ) → has_number (get nat_eq shard.old k) n ≡ true → has_number (get nat_eq shard.new k) n ≡ true }
{
    if let Some(numbers) = shard.get_mut(&key) {
        return numbers.add(number);
    }
    let mut numbers = Numbers::new(alloc);
    numbers.add(number)?;
    shard.insert(key, numbers)?;
    Ok(())
}

fn remove_at(shards: &mut Vec<HashMap<u64, Numbers>>, key: u64, number: u64)
    ensures { (k n : ℕ) → n ≢ number → has_number (list_in shards.old.items k) n ≡ true → has_number (list_in shards.new.items k) n ≡ true }
{
    let place = shard_of(key);
    if place < shards.len() {
        remove_from(&mut shards[place], key, number);
    }
}

fn remove_from(shard: &mut HashMap<u64, Numbers>, key: u64, number: u64)
    ensures { (k n : ℕ) → n ≢ number → has_number (get nat_eq shard.old k) n ≡ true → has_number (get nat_eq shard.new k) n ≡ true }
{
    let Some(numbers) = shard.get_mut(&key) else {
        return;
    };
    numbers.remove(number);
    let is_empty = numbers.is_empty();
    if is_empty {
        shard.remove(&key);
        give_back(shard);
    }
}

/// Gives room back that a map had for far more lists than it has.
fn give_back(shard: &mut HashMap<u64, Numbers>)
    ensures { (k n : ℕ) → has_number (get nat_eq shard.old k) n ≡ true → has_number (get nat_eq shard.new k) n ≡ true }
{
    if shard.capacity() / 4 > shard.len().saturating_add(SPARE) {
        shard.shrink_to(shard.len().saturating_mul(2));
    }
}
