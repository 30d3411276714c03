//! The first of many places, found at once.
ghost use Rattle.std.specs.Prelude.{◌≡◌, ℕ, ◌+◌, ◌^◌, ◌<◌, ◌≤◌, List, [], length, drop, slice_set, IfOk};
ghost use Rattle.jsp_lease.specs.declared.item.Item.{Item};
ghost use Rattle.jsp_lease.specs.Due.{first_item};
ghost use Rattle.jsp_lease.specs.Tournament.{living, node_at, earlier as earlier_of, IsWon, IsTournament};

use crate::item::is_before;
use crate::{Item, NoMemory};
use std::alloc::Global;
use std::marker::Model;

/// Places in a row, each empty or with an item, of which the first item is known at once. Contracts
/// see the list of the places.
///
/// `nodes` has the places in its second half. The node `n` before them has the winner of the nodes
/// `2 * n` and `2 * n + 1`, so node 1 has the winner of all; node 0 is unused.
#[derive(Drop)]
pub(crate) struct Tournament {
    nodes: Vec<Option<Item>>,
    places: usize,
}

impl Model for Tournament {
    ghost use Rattle.std.specs.Prelude.{List, Option, drop};
    ghost use Rattle.jsp_lease.specs.declared.item.Item.{Item};
    ghost use Rattle.jsp_lease.specs.Tournament.{IsTournament};

    ghost Value = { List (Option Item) };

    ghost view = { λ t. drop t.places t.nodes.items };

    ghost invariant = { λ t. IsTournament t.places t.nodes.items };
}

impl Tournament {
    /// No places.
    pub(crate) fn new(alloc: Global) -> Tournament
        ensures { result ≡ [] }
    {
        Tournament {
            nodes: Vec::new(alloc),
            places: 0,
        }
    }

    /// These places.
    pub(crate) fn of(alloc: Global, places: &[Option<Item>]) -> Result<Tournament, NoMemory>
        requires { length places.now < 2 ^ 62 }
        ensures { IfOk result (λ tournament. tournament ≡ places.now) }
    {
        let mut nodes = vec![in alloc; None; places.len()]?;
        nodes.extend_from_slice(places)?;
        play_all(nodes.as_mut_slice(), places.len());
        Ok(Tournament {
            nodes,
            places: places.len(),
        })
    }

    /// How many places there are.
    pub(crate) fn len(&self) -> usize
        ensures { result ≡ length self.now }
    {
        self.places
    }

    /// The places.
    pub(crate) fn as_slice(&self) -> &[Option<Item>]
        ensures { result.now ≡ self.now }
    {
        &self.nodes.as_slice()[self.places..]
    }

    /// What stands at a place.
    pub(crate) fn get(&self, place: usize) -> Option<Item>
        requires { place < length self.now }
        ensures { result ≡ node_at self.now place }
    {
        self.nodes[self.places + place]
    }

    /// Puts an item at a place, or empties it. Takes no memory.
    pub(crate) fn set(&mut self, place: usize, item: Option<Item>)
        requires { place < length self.old }
        ensures { self.new ≡ slice_set self.old place item }
    {
        let places = self.places;
        put(self.nodes.as_mut_slice(), places, place, item);
    }

    /// The first item.
    pub(crate) fn first(&self) -> Option<Item>
        ensures { result ≡ first_item (living self.now) }
    {
        if self.places == 0 {
            return None;
        }
        self.nodes[1]
    }
}

/// Plays all nodes before the places.
fn play_all(nodes: &mut [Option<Item>], places: usize)
    requires { length nodes.old ≡ places + places }
    ensures won { IsTournament places nodes.new }
    ensures places { drop places nodes.new ≡ drop places nodes.old }
{
    let mut node = places;
    'nodes: while node > 1 {
        node -= 1;
        nodes[node] = earlier(nodes[2 * node], nodes[2 * node + 1]);
    }
}

/// Puts an item at a place, and plays the nodes above it.
fn put(nodes: &mut [Option<Item>], places: usize, place: usize, item: Option<Item>)
    requires tournament { IsTournament places nodes.old }
    requires in_range { place < places }
    ensures won { IsTournament places nodes.new }
    ensures places { drop places nodes.new ≡ slice_set (drop places nodes.old) place item }
{
    let mut node = places + place;
    nodes[node] = item;
    'nodes: while node > 1 {
        node /= 2;
        nodes[node] = earlier(nodes[2 * node], nodes[2 * node + 1]);
    }
}

/// Who comes first of two places.
fn earlier(a: Option<Item>, b: Option<Item>) -> Option<Item>
    ensures { result ≡ earlier_of a b }
{
    match (a, b) {
        (None, b) => b,
        (a, None) => a,
        (Some(a), Some(b)) => Some(if is_before(b, a) { b } else { a }),
    }
}
