//! Who waits for a conflict to end, of requests that are found by hints: whom a row may hold up,
//! and who isn't held up any more.
ghost use Rattle.std.specs.Prelude.{◌≡◌, ◌==◌, ◌&&◌, ◌||◌, [], ◌∷◌, not, find, option_copied, IfOk, IsTrue};
ghost use Rattle.std.specs.List.{list_any, list_all};
ghost use Rattle.jsp_types.specs.declared.class.Class.{Class};
ghost use Rattle.jsp_model.specs.Sight.{is_if as waits_for_conflict};
ghost use Rattle.jsp_model.specs.Lookup.{contains as has};
ghost use Rattle.jsp_wait.specs.Sought.{if_key, any_if_key};
ghost use Rattle.jsp_wait.specs.Offered.{takes_one, freed_numbered, freed_among, waits_for};

use crate::by_number::{ByNumber, Requests, key_of_any_if, key_of_if};
use crate::offer::Offer;
use jsp_keyed::{Keys, lesser};
use jsp_keys::ByEntry;
use jsp_model::{Blocked, Row};
use jsp_sight::{is_if, wants};
use jsp_table::Test;
use jsp_types::{Classes, Entry, NoMemory};
use std::alloc::Global;

/// Whether a request at a space waits for a conflict to end.
#[derive(Drop)]
struct OfConflicts {
    space: u64,
}

impl Test<Blocked> for OfConflicts {
    ghost is_passed = { λ t b. b.space == t.space && waits_for_conflict b.form };

    fn passes(&self, request: &Blocked) -> bool {
        request.space == self.space && is_if(request.form)
    }
}

impl Keys for OfConflicts {
    ghost sought = { λ t seed. if_key seed t.space ∷ [] };

    fn sought_count(&self, _seed: u64) -> usize {
        1
    }

    fn sought_key(&self, seed: u64, _place: usize) -> u64 {
        key_of_if(seed, self.space)
    }
}

/// Whether a request waits for a conflict to end, wherever that is.
#[derive(Drop)]
struct OfAnyConflict {}

impl Test<Blocked> for OfAnyConflict {
    ghost is_passed = { λ _ b. waits_for_conflict b.form };

    fn passes(&self, request: &Blocked) -> bool {
        is_if(request.form)
    }
}

impl Keys for OfAnyConflict {
    ghost sought = { λ _ seed. any_if_key seed ∷ [] };

    fn sought_count(&self, _seed: u64) -> usize {
        1
    }

    fn sought_key(&self, seed: u64, _place: usize) -> u64 {
        key_of_any_if(seed)
    }
}

/// Whether a request at a space waited for a conflict that is gone.
#[derive(Drop)]
struct Freed<'a, O: Offer> {
    offer: &'a O,
    space: u64,
}

impl<'a, O: Offer> Test<Blocked> for Freed<'a, O> {
    ghost is_passed = { λ t b. b.space == t.space && (waits_for_conflict b.form && O.is_freed t.offer.now b) };

    fn passes(&self, request: &Blocked) -> bool {
        request.space == self.space && (is_if(request.form) && self.offer.frees(request))
    }
}

impl<'a, O: Offer> Keys for Freed<'a, O> {
    ghost sought = { λ t seed. if_key seed t.space ∷ [] };

    fn sought_count(&self, _seed: u64) -> usize {
        1
    }

    fn sought_key(&self, seed: u64, _place: usize) -> u64 {
        key_of_if(seed, self.space)
    }
}

/// Whether a request waits for a conflict to end and asks for a row.
#[derive(Drop)]
struct WaitsFor<'a> {
    classes: &'a Classes,
    row: &'a Row,
}

impl<'a> Test<Blocked> for WaitsFor<'a> {
    ghost is_passed = { λ t b. waits_for t.classes.now t.row.now b };

    fn passes(&self, request: &Blocked) -> bool {
        is_if(request.form) && wants(self.classes, request, self.row)
    }
}

impl<'a> ByEntry for WaitsFor<'a> {
    ghost classes_of = { λ t. t.classes.now };

    ghost space_of = { λ t. t.row.now.space };

    ghost entry_of = { λ t. t.row.now.entry };

    fn classes(&self) -> &Classes {
        self.classes
    }

    fn space(&self) -> u64 {
        self.row.space
    }

    fn entry(&self) -> &Entry {
        &self.row.entry
    }
}

/// Whether no request waits for a conflict to end.
pub(crate) fn are_all_patient(requests: &Requests) -> bool
    ensures { result ≡ not (list_any (λ b. waits_for_conflict b.form) requests.now) }
{
    requests.first_above(0, &OfAnyConflict {}).is_none()
}

/// Whether no request at a space waits for a conflict to end.
fn is_free_of_conflicts(requests: &Requests, space: u64) -> bool
    ensures { result ≡ not (list_any (λ b. b.space == space && waits_for_conflict b.form) requests.now) }
{
    requests.first_above(0, &OfConflicts { space }).is_none()
}

/// Numbers, among which are those of all requests that wait for a conflict to end and ask for a
/// row.
pub(crate) fn waiting_for(
    alloc: Global,
    requests: &Requests,
    classes: &Classes,
    row: &Row,
) -> Result<Vec<u64>, NoMemory>
    ensures { IfOk result (λ v. IsTrue (list_all (λ b. not (waits_for classes.now row.now b) || has v.items b.number) requests.now)) }
{
    // Most often nobody there waits for a conflict to end, and then whoever asks for the row
    // needn't be looked at.
    if is_free_of_conflicts(requests, row.space) {
        return Ok(Vec::new(alloc));
    }
    requests.passing(&WaitsFor { classes, row })?.to_vec(alloc)
}

fn is_let_go<O: Offer>(offer: &O, request: &Blocked) -> bool
    ensures { result ≡ (waits_for_conflict request.now.form && O.is_freed offer.now request.now) }
{
    is_if(request.form) && offer.frees(request)
}

/// The request of a number, where it waits for a conflict to end and isn't held up any more.
fn first_freed_numbered<'a, O: Offer>(
    requests: &'a Requests,
    number: u64,
    offer: &O,
) -> Option<&'a Blocked>
    ensures { option_copied result ≡ find (freed_numbered (O.is_freed offer.now) number) requests.now }
{
    // Which says that the numbers rise.
    let _ = requests.places();
    let Some(request) = requests.get(number) else {
        return None;
    };
    if is_let_go(offer, request) {
        Some(request)
    } else {
        None
    }
}

/// The same, where it is at the space.
fn freed_at<'a, O: Offer>(
    requests: &'a Requests,
    space: u64,
    number: u64,
    offer: &O,
) -> Option<&'a Blocked>
    ensures { option_copied result ≡ find (λ b. b.space == space && freed_numbered (O.is_freed offer.now) number b) requests.now }
{
    // Which says that the numbers rise.
    let _ = requests.places();
    let Some(request) = first_freed_numbered(requests, number, offer) else {
        return None;
    };
    if request.space == space {
        Some(request)
    } else {
        None
    }
}

/// Whether the request of a number waits for a conflict to end and isn't held up any more.
pub(crate) fn is_freed<O: Offer>(requests: &Requests, number: u64, offer: &O) -> bool
    ensures { result ≡ list_any (freed_numbered (O.is_freed offer.now) number) requests.now }
{
    first_freed_numbered(requests, number, offer).is_some()
}

/// The first at a space, of those of some numbers, that waits for a conflict to end and isn't held
/// up.
fn first_freed_of<'a, O: Offer>(
    requests: &'a Requests,
    space: u64,
    numbers: &[u64],
    offer: &O,
) -> Option<&'a Blocked>
    ensures { option_copied result ≡ find (takes_one (freed_numbered (O.is_freed offer.now)) space numbers.now) requests.now }
{
    // Which says that the numbers rise.
    let _ = requests.places();
    let mut first = None;
    'numbers: for number in numbers {
        first = lesser::<Blocked, ByNumber>(first, freed_at(requests, space, *number, offer));
    }
    first
}

/// The first at a space that waits for a conflict to end and isn't held up, of those of some
/// numbers or, where none are given, of all.
pub(crate) fn first_freed<'a, O: Offer>(
    requests: &'a Requests,
    space: u64,
    among: Option<&[u64]>,
    offer: &O,
) -> Option<&'a Blocked>
    ensures { option_copied result ≡ find (λ b. b.space == space && freed_among (O.is_freed offer.now) (option_copied among.entry) b) requests.now }
{
    match among {
        None => requests.first_above(0, &Freed { offer, space }),
        Some(numbers) => first_freed_of(requests, space, numbers, offer),
    }
}
