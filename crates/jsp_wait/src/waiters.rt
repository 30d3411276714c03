//! The requests that wait. Contracts see them as a list, in the order in which they came.
ghost use Rattle.std.specs.Prelude.{◌≡◌, ◌==◌, ◌&&◌, ◌++◌, ◌∷◌, [], not, map, filter, find, length, is_some, option_copied, nat_le, ◌||◌, IfOk, IsTrue, OnOk, OnErr};
ghost use Rattle.std.specs.Bool.{OnTrue};
ghost use Rattle.std.specs.List.{list_any, list_all};
ghost use Rattle.jsp_lease.specs.Due.{first_item, over_by};
ghost use Rattle.jsp_model.specs.Lookup.{is_caller as calls};
ghost use Rattle.jsp_wait.specs.Waiting.{blocked_end, askers_under, askers_at};
ghost use Rattle.jsp_model.specs.Lookup.{contains as has};
ghost use Rattle.jsp_model.specs.Sight.{is_if as waits_for_conflict};
ghost use Rattle.jsp_wait.specs.Offered.{AskForIt, takes_one, freed_numbered, freed_among, waits_for, waits_no_more};

use crate::found::Found;
use crate::freeing::{are_all_patient, is_freed, waiting_for};
use crate::keyed::{askers, copies_of, count_waiting_at, first_at_places, space_of};
use crate::offer::Offer;
use crate::request_keys::{At, Under, UnderAny, UnderIt};
use crate::scanned::{
    any_asked, any_freed, any_takes, any_waits_for_conflict, asked_at, asked_under, count_asked,
    count_waiting, drop_at, drop_numbered, drop_of, drop_under, first_numbered, first_over,
    first_passing, numbers_waiting_for, plain_copy, spaces_numbered,
};
use crate::taking::{Stirred, TakesOne, first_stirred, first_taker, is_wanted};
use jsp_model::{Blocked, Item, Row};
use jsp_table::Test;
use jsp_types::{Classes, Items, NoMemory};
use std::alloc::Global;
use std::marker::Model;

/// Who asked: a session, under an id of its own.
#[derive(Clone, Copy, Debug, PartialEq, Eq)]
pub struct Asker {
    pub session: u64,
    pub id: u64,
}

/// The requests that wait.
#[derive(Drop)]
pub struct Waiters {
    alloc: Global,
    kept: Storage,
}

/// How they are kept.
#[derive(Drop)]
pub(crate) enum Storage {
    Scanned(Vec<Blocked>),
    Keyed(Found),
}

impl Model for Waiters {
    ghost use Rattle.std.specs.Prelude.{List};
    ghost use Rattle.jsp_model.specs.declared.state.Blocked.{Blocked};
    ghost use Rattle.jsp_wait.specs.Storage.{requests_in};

    ghost Value = { List Blocked };

    ghost view = { λ w. requests_in w.kept };
}

impl Waiters {
    /// These requests, which are looked at one by one.
    pub fn scanned(alloc: Global, requests: Items<Blocked>) -> Self
        ensures { result ≡ requests }
    {
        Waiters {
            alloc,
            kept: Storage::Scanned(requests.into_vec()),
        }
    }

    /// No requests; they will be found by hints. The keys come from the seed, which clients aren't
    /// to know.
    pub fn new(alloc: Global, seed: u64) -> Self
        ensures { result ≡ [] }
    {
        Waiters {
            alloc,
            kept: Storage::Keyed(Found::new(alloc, seed)),
        }
    }

    /// These requests, found by hints.
    pub fn of(alloc: Global, requests: Items<Blocked>, seed: u64) -> Result<Self, NoMemory>
        ensures { IfOk result (λ w. w ≡ requests) }
    {
        let mut waiters = Waiters::new(alloc, seed);
        let mut requests = requests.into_vec();
        requests.reverse();
        'requests: while let Some(request) = requests.pop() {
            waiters.push(request)?;
        }
        Ok(waiters)
    }

    /// A plain copy of these requests.
    pub fn to_items(&self, alloc: Global) -> Result<Items<Blocked>, NoMemory>
        ensures { IfOk result (λ c. c ≡ self.now) }
    {
        match &self.kept {
            Storage::Scanned(requests) => plain_copy(alloc, requests),
            Storage::Keyed(found) => copies_of(alloc, found.requests.places()),
        }
    }

    // ---- add

    /// Adds a request at the end, whole or not at all.
    pub fn push(&mut self, request: Blocked) -> Result<(), NoMemory>
        ensures ok { OnOk result (self.new ≡ self.old ++ request ∷ []) }
        ensures err { OnErr result (self.new ≡ self.old) }
    {
        match &mut self.kept {
            Storage::Scanned(requests) => {
                requests.push(request)?;
            }
            Storage::Keyed(found) => {
                if let Some(request) = found.push(request)? {
                    // Hints are for rising numbers. The machine's rise; others are scanned from
                    // here on.
                    let mut plain = copies_of(self.alloc, found.requests.places())?.into_vec();
                    plain.push(request)?;
                    self.kept = Storage::Scanned(plain);
                }
            }
        }
        Ok(())
    }

    // ---- leave out. Nothing here takes memory.

    /// The request of this number goes.
    pub fn remove(&mut self, number: u64)
        ensures { self.new ≡ filter (λ b. not (b.number == number)) self.old }
    {
        match &mut self.kept {
            Storage::Scanned(requests) => drop_numbered(requests, number),
            Storage::Keyed(found) => found.remove(number),
        }
    }

    /// The requests of a session go.
    pub fn remove_of(&mut self, session: u64)
        ensures { self.new ≡ filter (λ b. not (b.session == session)) self.old }
    {
        match &mut self.kept {
            Storage::Scanned(requests) => drop_of(requests, session),
            Storage::Keyed(found) => found.remove_of(session),
        }
    }

    /// The requests under a transaction go.
    pub fn remove_under(&mut self, x: u64)
        ensures { self.new ≡ filter (λ b. not (calls b.transaction x)) self.old }
    {
        match &mut self.kept {
            Storage::Scanned(requests) => drop_under(requests, x),
            Storage::Keyed(found) => found.remove_all(&UnderIt { transaction: x }),
        }
    }

    /// The requests under transactions that wait at a space go.
    pub fn clear(&mut self, space: u64)
        ensures { self.new ≡ filter (λ b. not (b.space == space && is_some b.transaction)) self.old }
    {
        match &mut self.kept {
            Storage::Scanned(requests) => drop_at(requests, space),
            Storage::Keyed(found) => found.remove_all(&UnderAny { space }),
        }
    }

    // ---- find

    /// Whether none waits, where that is seen at once: it may answer no though none does.
    pub fn is_known_empty(&self) -> bool
        ensures { OnTrue result (self.now ≡ []) }
    {
        match &self.kept {
            Storage::Scanned(requests) => requests.is_empty(),
            Storage::Keyed(found) => found.requests.places().is_empty(),
        }
    }

    /// How many wait, or more, told at once.
    pub fn most_waiting(&self) -> usize {
        match &self.kept {
            Storage::Scanned(requests) => requests.len(),
            Storage::Keyed(found) => found.requests.places().len(),
        }
    }

    /// The request of this number.
    pub fn get(&self, number: u64) -> Option<&Blocked>
        ensures { option_copied result ≡ find (λ b. b.number == number) self.now }
    {
        match &self.kept {
            Storage::Scanned(requests) => first_numbered(requests, number),
            Storage::Keyed(found) => found.requests.get(number),
        }
    }

    /// The first request that passes a test. Each is looked at.
    pub fn first<P: Test<Blocked>>(&self, test: &P) -> Option<&Blocked>
        ensures { option_copied result ≡ find (λ b. P.is_passed test.now b) self.now }
    {
        match &self.kept {
            Storage::Scanned(requests) => first_passing(requests, test),
            Storage::Keyed(found) => first_at_places(found.requests.places(), test),
        }
    }

    /// The first request at a space that passes a test. Each is looked at.
    pub fn first_at<P: Test<Blocked>>(&self, space: u64, test: &P) -> Option<&Blocked>
        ensures { option_copied result ≡ find (λ b. b.space == space && P.is_passed test.now b) self.now }
    {
        self.first(&At { space, test })
    }

    /// The first request at a space that may be given one of the rows of these numbers.
    pub fn first_taker<O: Offer>(&self, space: u64, numbers: &[u64], offer: &O) -> Option<&Blocked>
        requires { AskForIt (O.classes_of offer.now) (O.row_of offer.now) (O.is_taker offer.now) }
        ensures { option_copied result ≡ find (takes_one (O.is_taker offer.now) space numbers.now) self.now }
    {
        match &self.kept {
            Storage::Scanned(requests) => first_passing(
                requests,
                &TakesOne {
                    space,
                    numbers,
                    offer,
                },
            ),
            Storage::Keyed(found) => first_taker(&found.requests, space, numbers, offer),
        }
    }

    /// The first request at a space that waits no more: it may be given one of the rows of these
    /// numbers, or waited for a conflict that is gone and is one of some requests or, where none
    /// are given, any.
    pub fn first_stirred<O: Offer>(
        &self,
        space: u64,
        numbers: &[u64],
        among: Option<&[u64]>,
        offer: &O,
    ) -> Option<&Blocked>
        requires { AskForIt (O.classes_of offer.now) (O.row_of offer.now) (O.is_taker offer.now) }
        ensures { option_copied result ≡ find (waits_no_more (O.is_taker offer.now) (freed_among (O.is_freed offer.now) (option_copied among.entry)) space numbers.now) self.now }
    {
        match &self.kept {
            Storage::Scanned(requests) => first_passing(
                requests,
                &Stirred {
                    space,
                    numbers,
                    among,
                    offer,
                },
            ),
            Storage::Keyed(found) => first_stirred(&found.requests, space, numbers, among, offer),
        }
    }

    /// Whether no request waits for a conflict to end.
    pub fn are_all_patient(&self) -> bool
        ensures { result ≡ not (list_any (λ b. waits_for_conflict b.form) self.now) }
    {
        match &self.kept {
            Storage::Scanned(requests) => !any_waits_for_conflict(requests),
            Storage::Keyed(found) => are_all_patient(&found.requests),
        }
    }

    /// Whether the request of a number waits for a conflict to end and isn't held up.
    pub fn is_freed<O: Offer>(&self, number: u64, offer: &O) -> bool
        ensures { result ≡ list_any (freed_numbered (O.is_freed offer.now) number) self.now }
    {
        match &self.kept {
            Storage::Scanned(requests) => any_freed(requests, number, offer),
            Storage::Keyed(found) => is_freed(&found.requests, number, offer),
        }
    }

    /// Numbers, among which are those of all requests that wait for a conflict to end and ask for a
    /// row.
    pub fn waiting_for(
        &self,
        alloc: Global,
        classes: &Classes,
        row: &Row,
    ) -> Result<Vec<u64>, NoMemory>
        ensures { IfOk result (λ v. IsTrue (list_all (λ b. not (waits_for classes.now row.now b) || has v.items b.number) self.now)) }
    {
        match &self.kept {
            Storage::Scanned(requests) => numbers_waiting_for(alloc, requests, classes, row),
            Storage::Keyed(found) => waiting_for(alloc, &found.requests, classes, row),
        }
    }

    /// Whether a request may be given the row of a number.
    pub fn is_wanted<O: Offer>(&self, number: u64, offer: &O) -> bool
        requires { AskForIt (O.classes_of offer.now) (O.row_of offer.now) (O.is_taker offer.now) }
        ensures { result ≡ list_any (λ b. O.is_taker offer.now number b) self.now }
    {
        match &self.kept {
            Storage::Scanned(requests) => any_takes(requests, number, offer),
            Storage::Keyed(found) => is_wanted(&found.requests, number, offer),
        }
    }

    /// Whether the session's request of this id waits.
    pub fn is_waiting(&self, session: u64, id: u64) -> bool
        ensures { result ≡ list_any (λ b. b.session == session && b.id == id) self.now }
    {
        match &self.kept {
            Storage::Scanned(requests) => any_asked(requests, session, id),
            Storage::Keyed(found) => found.is_asked(session, id),
        }
    }

    /// Whether at least so many of the session's requests wait.
    pub fn has_at_least(&self, session: u64, count: usize) -> bool
        ensures { result ≡ nat_le count (length (filter (λ b. b.session == session) self.now)) }
    {
        match &self.kept {
            Storage::Scanned(requests) => count <= count_asked(requests, session),
            Storage::Keyed(found) => found.are_at_least(session, count),
        }
    }

    /// How many requests wait at a space. Each is looked at.
    pub fn count_in(&self, space: u64) -> usize
        ensures { result ≡ length (filter (λ b. b.space == space) self.now) }
    {
        match &self.kept {
            Storage::Scanned(requests) => count_waiting(requests, space),
            Storage::Keyed(found) => count_waiting_at(found.requests.places(), space),
        }
    }

    /// The request whose end has come and comes first, as an item.
    pub fn due(&self, time: u64) -> Option<Item>
        ensures { result ≡ first_item (over_by time (map blocked_end self.now)) }
    {
        match &self.kept {
            Storage::Scanned(requests) => first_over(requests, time),
            Storage::Keyed(found) => found.requests.due(time),
        }
    }

    /// The spaces of the requests of this number.
    pub fn spaces_of(&self, alloc: Global, number: u64) -> Result<Vec<u64>, NoMemory>
        ensures { IfOk result (λ v. v.items ≡ map (λ b. b.space) (filter (λ b. b.number == number) self.now)) }
    {
        match &self.kept {
            Storage::Scanned(requests) => spaces_numbered(alloc, requests, number),
            Storage::Keyed(found) => space_of(alloc, &found.requests, number),
        }
    }

    /// Who asked those that are under one of these transactions, in arrival order.
    pub fn askers_under(&self, alloc: Global, transactions: &[u64]) -> Result<Vec<Asker>, NoMemory>
        ensures { IfOk result (λ v. v.items ≡ askers_under transactions.now self.now) }
    {
        match &self.kept {
            Storage::Scanned(requests) => asked_under(alloc, requests, transactions),
            Storage::Keyed(found) => askers(alloc, &found.requests, &Under { transactions }),
        }
    }

    /// Who asked those that are under a transaction at a space, in arrival order.
    pub fn askers_at(&self, alloc: Global, space: u64) -> Result<Vec<Asker>, NoMemory>
        ensures { IfOk result (λ v. v.items ≡ askers_at space self.now) }
    {
        match &self.kept {
            Storage::Scanned(requests) => asked_at(alloc, requests, space),
            Storage::Keyed(found) => askers(alloc, &found.requests, &UnderAny { space }),
        }
    }
}
