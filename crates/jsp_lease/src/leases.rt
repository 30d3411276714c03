//! The items of a house, by number and by end.
ghost use Rattle.std.specs.Prelude.{◌≡◌, ◌+◌, ◌-◌, ◌^◌, ◌<◌, ◌≤◌, [], ◌++◌, IsOk, IfOk, OnOk, OnErr, IfNone, IfSome, ok_or, length, vec_capacity, map, replicate};
ghost use Rattle.jsp_lease.specs.declared.item.Item.{Item};
ghost use Rattle.jsp_lease.specs.Leases.{item_numbered};
ghost use Rattle.jsp_lease.specs.Places.{AreKept, StandsAt};
ghost use Rattle.jsp_lease.specs.Tournament.{living};

use crate::tournament::Tournament;
use crate::{Item, LeaseFault, NoMemory};
use std::alloc::Global;
use std::marker::Model;

/// The items of a house, found by number and by end.
///
/// Contracts see the items in rising order of their numbers, the last number that was given, and
/// the room: how many items can be added before memory is asked for. An item ends otherwise or
/// goes whatever its rank is; whether its number may be used so is for the caller to know.
///
/// Each number keeps its place in a table once its item has gone, so that a place is found by a
/// binary search. Where the table is full, the next item moves those that are left to a new one,
/// with at least twice as many places as there are items, and at least 8 more.
#[derive(Drop)]
pub struct Leases {
    numbers: Vec<u64>,
    tournament: Tournament,
    last: u64,
}

impl Model for Leases {
    ghost use Rattle.std.specs.Prelude.{◌-◌, length, vec_capacity};
    ghost use Rattle.jsp_lease.specs.Leases.{Leased};
    ghost use Rattle.jsp_lease.specs.Tournament.{living};
    ghost use Rattle.jsp_lease.specs.Places.{AreRoomy};

    ghost Value = { Leased };

    ghost view = { λ s. record {
      items = living s.tournament;
      last = s.last;
      room = length s.tournament - length s.numbers.items;
    } };

    ghost invariant = { λ s. AreRoomy s.numbers.items s.tournament s.last
        (vec_capacity s.numbers) };
}

/// The fewest new places that memory is asked for at a time.
const FEWEST_NEW: usize = 8;

/// More new places than any memory has.
const TOO_MANY_NEW: usize = 1 << 48;

impl Leases {
    ghost use Rattle.jsp_lease.specs.Due.{first_item, over_by};
    ghost use Rattle.jsp_lease.specs.Leases.{with_items, ending_at, without, AreNumbered, Adds, HasRoomFor};

    /// No items, and no number given. It takes no memory.
    pub fn new(alloc: Global) -> Leases
        ensures { result ≡ record { items = []; last = 0; room = 0 } }
    {
        Leases {
            numbers: Vec::new(alloc),
            tournament: Tournament::new(alloc),
            last: 0,
        }
    }

    /// The last number that was given, or 0 at first. It stays when its item goes.
    pub fn last(&self) -> u64
        ensures value { result ≡ self.now.last }
        ensures numbered { AreNumbered self.now }
    {
        self.last
    }

    /// Adds an item whose end is known, which may be any time. The number is above all that were
    /// given. `NoMemory`, which doesn't come while there is room, leaves all as it was.
    pub fn place(&mut self, item: Item) -> Result<(), NoMemory>
        requires { self.old.last < item.number }
        ensures ok { IfOk result (λ _. Adds self.old item self.new) }
        ensures err { OnErr result (self.new ≡ self.old) }
        ensures roomy { 0 < self.old.room → IsOk result }
    {
        self.reserve(1)?;
        let place = self.numbers.len();
        self.numbers.push(item.number)?;
        self.tournament.set(place, Some(item));
        self.last = item.number;
        Ok(())
    }

    /// Makes room for so many items, so that the calls that add them can't fail. Where the room is
    /// there it takes no memory. `NoMemory`, which comes in any case where room for 2^48 items or
    /// more is wanted, leaves all as it was.
    pub fn reserve(&mut self, count: usize) -> Result<(), NoMemory>
        ensures ok { IfOk result (λ _. HasRoomFor self.old count self.new) }
        ensures err { OnErr result (self.new ≡ self.old) }
        ensures roomy { count ≤ self.old.room → IsOk result × (self.new ≡ self.old) }
    {
        if count <= self.tournament.len() - self.numbers.len() {
            return Ok(());
        }
        *self = self.with_room(count)?;
        Ok(())
    }

    /// The same items, with room for so many more.
    fn with_room(&self, count: usize) -> Result<Leases, NoMemory>
        ensures { IfOk result (λ copy. (copy.items ≡ self.now.items)
            × (copy.last ≡ self.now.last) × (count ≤ copy.room)) }
    {
        let alloc = *self.numbers.allocator();
        let items = living_of(alloc, self.tournament.as_slice())?;
        // At least as many as there are items, so that moving them is paid by those to come.
        let spare = count.max(items.len()).max(FEWEST_NEW);
        if spare >= TOO_MANY_NEW {
            return Err(NoMemory);
        }
        let places = items.len() + spare;
        Ok(Leases {
            numbers: numbers_of(alloc, items.as_slice(), places)?,
            tournament: tournament_of(alloc, items.as_slice(), places)?,
            last: self.last,
        })
    }

    /// The item of this number ends then, which may be any time. Where there is none, all stays as
    /// it was. It takes no memory.
    pub fn set_end(&mut self, number: u64, end: u64)
        ensures { self.new ≡ with_items self.old (ending_at number end self.old.items) }
    {
        let numbers = self.numbers.as_slice();
        let Some((place, item)) = find_place(numbers, &self.tournament, number) else {
            return;
        };
        self.tournament.set(place, Some(Item { end, ..item }));
    }

    /// Cancels a lease: its item goes before its end (Jini Leasing), and is answered.
    /// `UnknownLease` where there is none. It takes no memory.
    pub fn cancel(&mut self, number: u64) -> Result<Item, LeaseFault>
        ensures answer { result
            ≡ ok_or (item_numbered number self.old.items) LeaseFault.UnknownLease }
        ensures ok { OnOk result (self.new ≡ with_items self.old (without number self.old.items)) }
        ensures err { OnErr result (self.new ≡ self.old) }
    {
        let numbers = self.numbers.as_slice();
        let Some((place, item)) = find_place(numbers, &self.tournament, number) else {
            return Err(LeaseFault::UnknownLease);
        };
        self.tournament.set(place, None);
        Ok(item)
    }

    /// The item of this number, if it is there.
    pub fn find(&self, number: u64) -> Option<Item>
        ensures { result ≡ item_numbered number self.now.items }
    {
        let numbers = self.numbers.as_slice();
        let (_, item) = find_place(numbers, &self.tournament, number)?;
        Some(item)
    }

    /// The item that is due at this time: the first, by end, then rank, then number, of those whose
    /// end isn't later. A lease is over as soon as its end has come (Jini Leasing); which comes
    /// first is this profile's own. It takes no memory.
    pub fn due(&self, time: u64) -> Option<Item>
        ensures { result ≡ first_item (over_by time self.now.items) }
    {
        self.tournament.first().filter(|item| item.end <= time)
    }
}

/// The place of the item of this number, and the item.
fn find_place(numbers: &[u64], tournament: &Tournament, number: u64) -> Option<(usize, Item)>
    requires { AreKept numbers.now tournament.now }
    ensures some { IfSome result (λ found. StandsAt number tournament.now found.0 found.1) }
    ensures none { IfNone result (item_numbered number (living tournament.now) ≡ None) }
{
    let Ok(place) = numbers.binary_search(&number) else {
        return None;
    };
    let item = tournament.get(place)?;
    Some((place, item))
}

/// The items that stand at these places.
fn living_of(alloc: Global, places: &[Option<Item>]) -> Result<Vec<Item>, NoMemory>
    ensures { IfOk result (λ items. items.items ≡ living places.now) }
{
    places.iter().filter_map(|place| *place).collect(alloc)
}

/// The numbers of the items, in a vector with memory for so many places.
fn numbers_of(alloc: Global, items: &[Item], places: usize) -> Result<Vec<u64>, NoMemory>
    ensures numbers { IfOk result (λ numbers.
        numbers.items ≡ map (λ (i : Item). i.number) items.now) }
    ensures room { IfOk result (λ numbers. places ≤ vec_capacity numbers) }
{
    let mut numbers = Vec::with_capacity(alloc, places)?;
    for item in items {
        numbers.push(item.number)?;
    }
    Ok(numbers)
}

/// The items at the first of so many places. The others are empty.
fn tournament_of(alloc: Global, items: &[Item], places: usize) -> Result<Tournament, NoMemory>
    requires fits { length items.now ≤ places }
    requires limited { places < 2 ^ 62 }
    ensures { IfOk result (λ tournament.
        tournament ≡ map Some items.now ++ replicate (places - length items.now) None) }
{
    let mut row = Vec::with_capacity(alloc, places)?;
    for item in items {
        row.push(Some(*item))?;
    }
    row.resize(places, None)?;
    Tournament::of(alloc, row.as_slice())
}
