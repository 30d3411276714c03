//! Things by rising number.
ghost use Rattle.std.specs.Prelude.{◌≡◌, ◌==◌, if◌then◌else◌, Option, Some, ℕ, ◌+◌, ◌<◌, ◌≤◌, Bool, List, [], ◌∷◌, ◌++◌, OnOk, OnErr, IsOk, find, map, length, option_copied, option_map, slice_index, vec_len, vec_capacity};
ghost use Rattle.std.specs.Bool.{OnTrue};
ghost use Rattle.std.specs.List.{AllByRecursion};
ghost use Rattle.jsp_table.specs.Numbers.{AreIncreasing};
ghost use Rattle.jsp_table.specs.Finding.{numbered, without, is_hit, AreNumbered};
ghost use Rattle.jsp_table.specs.Places.{living, AreKept, AreOver};

use crate::few::next_of_few_from;
use crate::numbers::Storage;
use crate::room::make_room;
use crate::{NoMemory, Numbers};
use std::alloc::Global;
use std::collections::BTreeSet;
use std::marker::{Model, PhantomData};
use std::ops::Bound;
use std::slice;

/// How things are numbered.
pub trait Numbering<T> {
    ghost number_of: { T → ℕ };

    fn number(thing: &T) -> u64
        ensures { result ≡ number_of thing.now };
}

/// A test of things.
pub trait Test<T> {
    ghost is_passed: { Self → T → Bool };

    fn passes(&self, thing: &T) -> bool
        ensures { result ≡ is_passed self.now thing.now };
}

/// What becomes of a thing. Its number is for the user to keep.
pub trait Change<T> {
    ghost changed: { Self → T → T };

    fn change(&self, thing: &mut T)
        ensures { thing.new ≡ changed self.now thing.old };
}

/// What becomes of a thing, where memory may be refused: whole or not at all.
pub trait TryChange<T> {
    ghost changed: { Self → T → T };

    fn try_change(&self, thing: &mut T) -> Result<(), NoMemory>
        ensures ok { OnOk result (thing.new ≡ changed self.now thing.old) }
        ensures err { OnErr result (thing.new ≡ thing.old) };
}

/// Things, found by number. Contracts see the list of them, in rising order of their numbers.
///
/// A number keeps its place where its thing has gone, so that a place is found by a binary search.
/// Where more than half of the places are empty, the things move together.
#[derive(Drop)]
pub struct Table<T, N: Numbering<T>> {
    numbers: Vec<u64>,
    slots: Vec<Option<T>>,
    gone: usize,
    numbering: PhantomData<N>,
}

impl<T, N: Numbering<T>> Model for Table<T, N> {
    ghost use Rattle.std.specs.Prelude.{List};
    ghost use Rattle.jsp_table.specs.Places.{living, AreKept};

    ghost Value = { List T };

    ghost view = { λ t. living t.slots.items };

    ghost invariant = { λ t. AreKept N.number_of t.numbers.items t.slots.items };
}

impl<T, N: Numbering<T>> Table<T, N> {
    /// Nothing.
    pub fn new(alloc: Global) -> Self
        ensures { result ≡ [] }
    {
        Table {
            numbers: Vec::new(alloc),
            slots: Vec::new(alloc),
            gone: 0,
            numbering: PhantomData,
        }
    }

    /// Adds things whose numbers rise above all others, whole or not at all. Where memory is
    /// refused they stay with the caller.
    pub fn append(&mut self, things: &mut Vec<T>) -> Result<(), NoMemory>
    where
        T: Drop,
        requires { AreNumbered N.number_of (self.old ++ things.old.items) }
        ensures ok { OnOk result (self.new ≡ self.old ++ things.old.items) }
        ensures err { OnErr result (self.new ≡ self.old) }
        ensures things_stay { OnErr result (things.new.items ≡ things.old.items) }
    {
        make_room(&mut self.numbers, things.len())?;
        make_way_for::<T, N>(&mut self.numbers, &mut self.slots, things);
        make_room(&mut self.slots, things.len())?;
        append_numbers::<T, N>(&mut self.numbers, things)?;
        append_things(&mut self.slots, things)?;
        Ok(())
    }

    /// Whether a number is above all others. Where it isn't above a number that is gone, it may
    /// be refused.
    pub fn is_above(&self, number: u64) -> bool
        ensures { OnTrue result (AllByRecursion (λ x. N.number_of x < number) self.now) }
    {
        let len = self.numbers.len();
        if len == 0 {
            return true;
        }
        if self.numbers[len - 1] >= number {
            return false;
        }
        true
    }

    /// The thing of this number.
    pub fn get(&self, number: u64) -> Option<&T>
        ensures found { option_copied result ≡ numbered N.number_of number self.now }
        ensures rising { AreNumbered N.number_of self.now }
    {
        let Ok(place) = self.numbers.as_slice().binary_search(&number) else {
            return None;
        };
        self.slots[place].as_ref()
    }

    /// Takes the thing of this number out. Takes no memory.
    pub fn remove(&mut self, number: u64) -> Option<T>
    where
        T: Drop,
        ensures answer { result ≡ numbered N.number_of number self.old }
        ensures left { self.new ≡ without N.number_of number self.old }
    {
        let thing = take_out::<T, N>(self.numbers.as_slice(), &mut self.slots, number)?;
        self.gone = tidy::<T, N>(&mut self.numbers, &mut self.slots, self.gone);
        Some(thing)
    }

    /// Changes the thing of this number, which keeps its number. Takes no memory.
    pub fn change<C: Change<T>>(&mut self, number: u64, change: &C)
        requires { (x : T) → N.number_of (C.changed change.now x) ≡ N.number_of x }
        ensures { self.new ≡ map (λ x. if N.number_of x == number then C.changed change.now x else x) self.old }
    {
        change_in::<T, N, C>(self.numbers.as_slice(), &mut self.slots, number, change);
    }

    /// Changes the thing of this number, which keeps its number, whole or not at all.
    pub fn try_change<C: TryChange<T>>(&mut self, number: u64, change: &C) -> Result<(), NoMemory>
        requires { (x : T) → N.number_of (C.changed change.now x) ≡ N.number_of x }
        ensures ok { OnOk result (self.new ≡ map (λ x. if N.number_of x == number then C.changed change.now x else x) self.old) }
        ensures err { OnErr result (self.new ≡ self.old) }
    {
        try_change_in::<T, N, C>(self.numbers.as_slice(), &mut self.slots, number, change)
    }

    /// The places of the things in their order, some of which are empty.
    pub fn places(&self) -> &[Option<T>]
        ensures things { living result.now ≡ self.now }
        ensures rising { AreNumbered N.number_of self.now }
    {
        self.slots.as_slice()
    }

    /// The first thing above a number that is named and passes the test. Takes no memory.
    pub fn first_above<P: Test<T>>(&self, numbers: &Numbers, after: u64, test: &P) -> Option<&T>
        ensures found { option_copied result ≡ find (is_hit N.number_of (P.is_passed test.now) numbers.now after) self.now }
        ensures rising { AreNumbered N.number_of self.now }
    {
        let _ = &self.slots;
        first_named(self, numbers, after, test)
    }
}

/// Empties the place of a number, and answers what stood there.
fn take_out<T, N: Numbering<T>>(
    numbers: &[u64],
    slots: &mut Vec<Option<T>>,
    number: u64,
) -> Option<T>
    requires { AreKept N.number_of numbers.now slots.old.items }
    ensures kept { AreKept N.number_of numbers.now slots.new.items }
    ensures answer { result ≡ numbered N.number_of number (living slots.old.items) }
    ensures left { living slots.new.items ≡ without N.number_of number (living slots.old.items) }
{
    let Ok(place) = numbers.binary_search(&number) else {
        return None;
    };
    slots[place].take()
}

/// Moves the things together where more than half of the places are empty, one more than before.
/// Answers how many are empty then.
fn tidy<T: Drop, N: Numbering<T>>(
    numbers: &mut Vec<u64>,
    slots: &mut Vec<Option<T>>,
    gone: usize,
) -> usize
    requires { AreKept N.number_of numbers.old.items slots.old.items }
    ensures kept { AreKept N.number_of numbers.new.items slots.new.items }
    ensures things { living slots.new.items ≡ living slots.old.items }
{
    let gone = gone.saturating_add(1);
    if gone <= numbers.len() / 2 {
        return gone;
    }
    compact::<T, N>(numbers, slots);
    0
}

/// Moves the things together where a number that is gone isn't below those of the things to come.
fn make_way_for<T: Drop, N: Numbering<T>>(
    numbers: &mut Vec<u64>,
    slots: &mut Vec<Option<T>>,
    things: &[T],
)
    requires kept { AreKept N.number_of numbers.old.items slots.old.items }
    requires rising { AreNumbered N.number_of (living slots.old.items ++ things.now) }
    ensures kept { AreKept N.number_of numbers.new.items slots.new.items }
    ensures things { living slots.new.items ≡ living slots.old.items }
    ensures over { AreOver N.number_of numbers.new.items things.now }
    ensures room { vec_capacity numbers.new ≡ vec_capacity numbers.old }
    ensures fewer { vec_len numbers.new ≤ vec_len numbers.old }
{
    if let [first, ..] = things {
        make_way::<T, N>(numbers, slots, N::number(first));
    }
}

/// Moves the things together where a number that is gone isn't below this one.
fn make_way<T: Drop, N: Numbering<T>>(
    numbers: &mut Vec<u64>,
    slots: &mut Vec<Option<T>>,
    number: u64,
)
    requires kept { AreKept N.number_of numbers.old.items slots.old.items }
    requires later { AllByRecursion (λ x. N.number_of x < number) (living slots.old.items) }
    ensures kept { AreKept N.number_of numbers.new.items slots.new.items }
    ensures things { living slots.new.items ≡ living slots.old.items }
    ensures below { (k : ℕ) → k < vec_len numbers.new → slice_index numbers.new.items k < number }
    ensures room { vec_capacity numbers.new ≡ vec_capacity numbers.old }
    ensures fewer { vec_len numbers.new ≤ vec_len numbers.old }
{
    let len = numbers.len();
    if len == 0 {
        return;
    }
    if numbers[len - 1] < number {
        return;
    }
    compact::<T, N>(numbers, slots);
}

/// Moves the things together.
fn compact<T: Drop, N: Numbering<T>>(numbers: &mut Vec<u64>, slots: &mut Vec<Option<T>>)
    requires { AreKept N.number_of numbers.old.items slots.old.items }
    ensures kept { AreKept N.number_of numbers.new.items slots.new.items }
    ensures things { living slots.new.items ≡ living slots.old.items }
    ensures tight { numbers.new.items ≡ map N.number_of (living slots.new.items) }
    ensures room { vec_capacity numbers.new ≡ vec_capacity numbers.old }
    ensures fewer { vec_len numbers.new ≤ vec_len numbers.old }
{
    slots.retain(|slot| slot.is_some());
    'slots: for (place, slot) in slots.iter().enumerate() {
        if let Some(thing) = slot {
            numbers[place] = N::number(thing);
        }
    }
    numbers.truncate(slots.len());
}

/// Changes what stands at the place of a number.
fn change_in<T, N: Numbering<T>, C: Change<T>>(
    numbers: &[u64],
    slots: &mut Vec<Option<T>>,
    number: u64,
    change: &C,
)
    requires kept { AreKept N.number_of numbers.now slots.old.items }
    requires keeps { (x : T) → N.number_of (C.changed change.now x) ≡ N.number_of x }
    ensures kept { AreKept N.number_of numbers.now slots.new.items }
    ensures things { living slots.new.items ≡ map (λ x. if N.number_of x == number then C.changed change.now x else x) (living slots.old.items) }
{
    let Ok(place) = numbers.binary_search(&number) else {
        return;
    };
    change_slot(&mut slots[place], change);
}

fn change_slot<T, C: Change<T>>(slot: &mut Option<T>, change: &C)
    ensures { slot.new ≡ option_map (C.changed change.now) slot.old }
{
    if let Some(thing) = slot {
        change.change(thing);
    }
}

/// Changes what stands at the place of a number, whole or not at all.
fn try_change_in<T, N: Numbering<T>, C: TryChange<T>>(
    numbers: &[u64],
    slots: &mut Vec<Option<T>>,
    number: u64,
    change: &C,
) -> Result<(), NoMemory>
    requires kept { AreKept N.number_of numbers.now slots.old.items }
    requires keeps { (x : T) → N.number_of (C.changed change.now x) ≡ N.number_of x }
    ensures kept { AreKept N.number_of numbers.now slots.new.items }
    ensures ok { OnOk result (living slots.new.items ≡ map (λ x. if N.number_of x == number then C.changed change.now x else x) (living slots.old.items)) }
    ensures err { OnErr result (living slots.new.items ≡ living slots.old.items) }
{
    let Ok(place) = numbers.binary_search(&number) else {
        return Ok(());
    };
    try_change_slot(&mut slots[place], change)?;
    Ok(())
}

fn try_change_slot<T, C: TryChange<T>>(slot: &mut Option<T>, change: &C) -> Result<(), NoMemory>
    ensures ok { OnOk result (slot.new ≡ option_map (C.changed change.now) slot.old) }
    ensures err { OnErr result (slot.new ≡ slot.old) }
{
    match slot {
        None => Ok(()),
        Some(thing) => change.try_change(thing),
    }
}

/// Adds the numbers of things, for which there is room.
fn append_numbers<T, N: Numbering<T>>(numbers: &mut Vec<u64>, things: &[T]) -> Result<(), NoMemory>
    requires { vec_len numbers.old + length things.now ≤ vec_capacity numbers.old }
    ensures ok { IsOk result }
    ensures numbers { numbers.new.items ≡ numbers.old.items ++ map N.number_of things.now }
{
    'things: for thing in things {
        numbers.push(N::number(thing))?;
    }
    Ok(())
}

/// Moves things to places at the end, for which there is room.
fn append_things<T: Drop>(slots: &mut Vec<Option<T>>, things: &mut Vec<T>) -> Result<(), NoMemory>
    requires { vec_len slots.old + vec_len things.old ≤ vec_capacity slots.old }
    ensures ok { IsOk result }
    ensures slots { slots.new.items ≡ slots.old.items ++ map Some things.old.items }
{
    things.reverse();
    'things: while let Some(thing) = things.pop() {
        slots.push(Some(thing))?;
    }
    Ok(())
}

/// The first thing above a number that is named and passes the test.
fn first_named<'a, T, N: Numbering<T>, P: Test<T>>(
    table: &'a Table<T, N>,
    numbers: &Numbers,
    after: u64,
    test: &P,
) -> Option<&'a T>
    ensures { option_copied result ≡ find (is_hit N.number_of (P.is_passed test.now) numbers.now after) table.now }
{
    match numbers.kept() {
        Storage::Empty => first_of_few(table, &[], after, test),
        Storage::One(one) => first_of_few(table, slice::from_ref(one), after, test),
        Storage::Few(few) => first_of_few(table, few, after, test),
        Storage::Many(many) => first_of_many(table, many, after, test),
    }
}

/// The same of a few numbers, of which a place is kept.
fn first_of_few<'a, T, N: Numbering<T>, P: Test<T>>(
    table: &'a Table<T, N>,
    numbers: &[u64],
    after: u64,
    test: &P,
) -> Option<&'a T>
    requires { AreIncreasing numbers.now }
    ensures { option_copied result ≡ find (is_hit N.number_of (P.is_passed test.now) numbers.now after) table.now }
{
    let mut last = after;
    let mut place = 0;
    'numbers: while let Some(number) = next_of_few_from(numbers, &mut place, last) {
        if let Some(thing) = table.get(number) {
            if test.passes(thing) {
                return Some(thing);
            }
        }
        last = number;
    }
    None
}

/// The same of many, whose tree is gone through from one number to the next.
fn first_of_many<'a, T, N: Numbering<T>, P: Test<T>>(
    table: &'a Table<T, N>,
    numbers: &BTreeSet<u64>,
    after: u64,
    test: &P,
) -> Option<&'a T>
    requires { AreIncreasing numbers.now.keys }
    ensures { option_copied result ≡ find (is_hit N.number_of (P.is_passed test.now) numbers.now.keys after) table.now }
{
    'numbers: for number in numbers.range((Bound::Excluded(after), Bound::Unbounded)) {
        if let Some(thing) = table.get(*number) {
            if test.passes(thing) {
                return Some(thing);
            }
        }
    }
    None
}
