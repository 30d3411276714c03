//! The requests that wait, in a plain list, which each call goes through.
ghost use Rattle.std.specs.Prelude.{◌≡◌, ◌==◌, ◌&&◌, not, nat_le, map, filter, find, fold, reverse, is_some, option_copied, length, ◌||◌, None, IfOk, IsTrue};
ghost use Rattle.std.specs.List.{list_any, list_all};
ghost use Rattle.jsp_lease.specs.Due.{first_item, over_by};
ghost use Rattle.jsp_model.specs.Lookup.{is_caller as calls};
ghost use Rattle.jsp_sight.specs.Rows.{earlier as earlier_of};
ghost use Rattle.jsp_model.specs.Lookup.{contains as has};
ghost use Rattle.jsp_model.specs.Sight.{is_if as waits_for_conflict};
ghost use Rattle.jsp_wait.specs.Offered.{freed_numbered, waits_for};
ghost use Rattle.jsp_wait.specs.Waiting.{blocked_end, asker, askers_under, askers_at};

use crate::offer::Offer;
use crate::taking::frees_numbered;
use crate::waiters::Asker;
use jsp_model::{Blocked, Item, Rank, Row};
use jsp_sight::{earlier, is_caller, is_if, wants};
use jsp_table::Test;
use jsp_types::{Classes, Items, NoMemory};
use std::alloc::Global;

pub(crate) fn plain_copy(alloc: Global, requests: &[Blocked]) -> Result<Items<Blocked>, NoMemory>
    ensures { IfOk result (λ c. c ≡ requests.now) }
{
    let mut copies = Items::new(alloc);
    for request in requests {
        copies.push(copy_request(request)?)?;
    }
    Ok(copies)
}

pub(crate) fn copy_request(request: &Blocked) -> Result<Blocked, NoMemory>
    ensures { IfOk result (λ c. c ≡ request.now) }
{
    request.clone()
}

pub(crate) fn drop_numbered(requests: &mut Vec<Blocked>, number: u64)
    ensures { requests.new.items ≡ filter (λ b. not (b.number == number)) requests.old.items }
{
    requests.retain(|b| !(b.number == number));
}

pub(crate) fn drop_of(requests: &mut Vec<Blocked>, session: u64)
    ensures { requests.new.items ≡ filter (λ b. not (b.session == session)) requests.old.items }
{
    requests.retain(|b| !(b.session == session));
}

pub(crate) fn drop_under(requests: &mut Vec<Blocked>, x: u64)
    ensures { requests.new.items ≡ filter (λ b. not (calls b.transaction x)) requests.old.items }
{
    requests.retain(|b| !is_caller(b.transaction, x));
}

pub(crate) fn drop_at(requests: &mut Vec<Blocked>, space: u64)
    ensures { requests.new.items ≡ filter (λ b. not (b.space == space && is_some b.transaction)) requests.old.items }
{
    requests.retain(|b| !(b.space == space && b.transaction.is_some()));
}

pub(crate) fn first_numbered(requests: &[Blocked], number: u64) -> Option<&Blocked>
    ensures { option_copied result ≡ find (λ b. b.number == number) requests.now }
{
    requests.iter().find(|b| b.number == number)
}

pub(crate) fn first_passing<'a, P: Test<Blocked>>(
    requests: &'a [Blocked],
    test: &P,
) -> Option<&'a Blocked>
    ensures { option_copied result ≡ find (λ b. P.is_passed test.now b) requests.now }
{
    requests.iter().find(|b| test.passes(b))
}

pub(crate) fn any_takes<O: Offer>(requests: &[Blocked], number: u64, offer: &O) -> bool
    ensures { result ≡ list_any (λ b. O.is_taker offer.now number b) requests.now }
{
    requests.iter().any(|b| offer.takes(number, b))
}

pub(crate) fn any_freed<O: Offer>(requests: &[Blocked], number: u64, offer: &O) -> bool
    ensures { result ≡ list_any (freed_numbered (O.is_freed offer.now) number) requests.now }
{
    requests.iter().any(|b| frees_numbered(offer, number, b))
}

pub(crate) fn any_waits_for_conflict(requests: &[Blocked]) -> bool
    ensures { result ≡ list_any (λ b. waits_for_conflict b.form) requests.now }
{
    requests.iter().any(|b| is_if(b.form))
}

/// The numbers of the requests that wait for a conflict to end and ask for a row.
pub(crate) fn numbers_waiting_for(
    alloc: Global,
    requests: &[Blocked],
    classes: &Classes,
    row: &Row,
) -> Result<Vec<u64>, NoMemory>
    ensures { IfOk result (λ v. IsTrue (list_all (λ b. not (waits_for classes.now row.now b) || has v.items b.number) requests.now)) }
{
    list_waiting_for(alloc, requests, classes, row)
}

fn list_waiting_for(
    alloc: Global,
    requests: &[Blocked],
    classes: &Classes,
    row: &Row,
) -> Result<Vec<u64>, NoMemory>
    ensures { IfOk result (λ v. v.items ≡ map (λ b. b.number) (filter (waits_for classes.now row.now) requests.now)) }
{
    let waiting = requests
        .iter()
        .filter(|b| is_if(b.form) && wants(classes, b, row));
    waiting.map(|b| b.number).collect(alloc)
}

pub(crate) fn any_asked(requests: &[Blocked], session: u64, id: u64) -> bool
    ensures { result ≡ list_any (λ b. b.session == session && b.id == id) requests.now }
{
    requests.iter().any(|b| b.session == session && b.id == id)
}

pub(crate) fn count_asked(requests: &[Blocked], session: u64) -> usize
    ensures { result ≡ length (filter (λ b. b.session == session) requests.now) }
{
    requests.iter().filter(|b| b.session == session).count()
}

pub(crate) fn count_waiting(requests: &[Blocked], space: u64) -> usize
    ensures { result ≡ length (filter (λ b. b.space == space) requests.now) }
{
    requests.iter().filter(|b| b.space == space).count()
}

pub(crate) fn spaces_numbered(
    alloc: Global,
    requests: &[Blocked],
    number: u64,
) -> Result<Vec<u64>, NoMemory>
    ensures { IfOk result (λ v. v.items ≡ map (λ b. b.space) (filter (λ b. b.number == number) requests.now)) }
{
    let named = requests.iter().filter(|b| b.number == number);
    named.map(|b| b.space).collect(alloc)
}

/// The least of those whose end has come. They are gone through from the last to the first, and the
/// earlier one is kept.
pub(crate) fn first_over(requests: &[Blocked], time: u64) -> Option<Item>
    ensures { result ≡ first_item (over_by time (map blocked_end requests.now)) }
{
    last_to_first(requests, time)
}

pub(crate) fn last_to_first(requests: &[Blocked], time: u64) -> Option<Item>
    ensures { result ≡ fold earlier_of None (map blocked_end (filter (λ b. nat_le b.end time) (reverse requests.now))) }
{
    let over = requests.iter().rev().filter(|b| b.end <= time);
    over.map(request_item).fold(None, kept)
}

pub(crate) fn kept(other: Option<Item>, item: Item) -> Option<Item>
    ensures { result ≡ earlier_of other item }
{
    earlier(other, item)
}

pub(crate) fn request_item(request: &Blocked) -> Item
    ensures { result ≡ blocked_end request.now }
{
    Item {
        end: request.end,
        rank: Rank::Blocked,
        number: request.number,
    }
}

pub(crate) fn asked_under(
    alloc: Global,
    requests: &[Blocked],
    transactions: &[u64],
) -> Result<Vec<Asker>, NoMemory>
    ensures { IfOk result (λ v. v.items ≡ askers_under transactions.now requests.now) }
{
    let under = requests
        .iter()
        .filter(|b| is_under(b.transaction, transactions));
    under.map(asker_of).collect(alloc)
}

pub(crate) fn is_under(caller: Option<u64>, transactions: &[u64]) -> bool
    ensures { result ≡ list_any (calls caller) transactions.now }
{
    transactions.iter().any(|x| is_caller(caller, *x))
}

pub(crate) fn asked_at(
    alloc: Global,
    requests: &[Blocked],
    space: u64,
) -> Result<Vec<Asker>, NoMemory>
    ensures { IfOk result (λ v. v.items ≡ askers_at space requests.now) }
{
    let there = requests
        .iter()
        .filter(|b| b.space == space && b.transaction.is_some());
    there.map(asker_of).collect(alloc)
}

pub(crate) fn asker_of(request: &Blocked) -> Asker
    ensures { result ≡ asker request.now }
{
    Asker {
        session: request.session,
        id: request.id,
    }
}
