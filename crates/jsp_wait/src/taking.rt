//! Who may be given a row on offer, of requests that are found by hints.
ghost use Rattle.std.specs.Prelude.{◌≡◌, ℕ, List, ◌==◌, ◌&&◌, find, option_copied};
ghost use Rattle.std.specs.List.{list_any};
ghost use Rattle.jsp_types.specs.declared.class.Class.{Class};
ghost use Rattle.jsp_types.specs.declared.entry.Entry.{Entry as OfEntry};
ghost use Rattle.jsp_wait.specs.Offered.{AskForIt, takes_one, freed_numbered, freed_among, waits_no_more};

use crate::by_number::{ByNumber, Requests};
use crate::freeing::first_freed;
use crate::offer::Offer;
use jsp_keyed::lesser;
use jsp_keys::ByEntry;
use jsp_model::{Blocked, Row};
use jsp_sight::is_if;
use jsp_table::Test;
use jsp_types::{Classes, Entry};

/// Whether a request may be given the row of a number.
#[derive(Drop)]
struct Taker<'a, O: Offer> {
    offer: &'a O,
    number: u64,
    row: &'a Row,
}

impl<'a, O: Offer> Test<Blocked> for Taker<'a, O> {
    ghost is_passed = { λ t b. O.is_taker t.offer.now t.number b };

    fn passes(&self, request: &Blocked) -> bool {
        self.offer.takes(self.number, request)
    }
}

impl<'a, O: Offer> ByEntry for Taker<'a, O> {
    ghost classes_of = { λ t. O.classes_of t.offer.now };

    ghost space_of = { λ t. t.row.now.space };

    ghost entry_of = { λ t. t.row.now.entry };

    fn classes(&self) -> &Classes {
        self.offer.classes()
    }

    fn space(&self) -> u64 {
        self.row.space
    }

    fn entry(&self) -> &Entry {
        &self.row.entry
    }
}

/// Whether a request at a space may be given one of the rows.
#[derive(Drop)]
pub(crate) struct TakesOne<'a, O: Offer> {
    pub(crate) space: u64,
    pub(crate) numbers: &'a [u64],
    pub(crate) offer: &'a O,
}

impl<'a, O: Offer> Test<Blocked> for TakesOne<'a, O> {
    ghost is_passed = { λ t b. takes_one (O.is_taker t.offer.now) t.space t.numbers.now b };

    fn passes(&self, request: &Blocked) -> bool {
        request.space == self.space && takes_any(self.offer, self.numbers, request)
    }
}

/// Whether a request at a space waits no more.
#[derive(Drop)]
pub(crate) struct Stirred<'a, O: Offer> {
    pub(crate) space: u64,
    pub(crate) numbers: &'a [u64],
    pub(crate) among: Option<&'a [u64]>,
    pub(crate) offer: &'a O,
}

impl<'a, O: Offer> Test<Blocked> for Stirred<'a, O> {
    ghost is_passed = { λ t b. waits_no_more (O.is_taker t.offer.now) (freed_among (O.is_freed t.offer.now) (option_copied t.among)) t.space t.numbers.now b };

    fn passes(&self, request: &Blocked) -> bool {
        request.space == self.space
            && (takes_any(self.offer, self.numbers, request)
                || frees(self.offer, self.among, request))
    }
}

fn takes_any<O: Offer>(offer: &O, numbers: &[u64], request: &Blocked) -> bool
    ensures { result ≡ list_any (λ n. O.is_taker offer.now n request.now) numbers.now }
{
    numbers.iter().any(|number| offer.takes(*number, request))
}

/// Whether a request that waits for a conflict to end isn't held up, of those of some numbers or,
/// where none are given, of all.
fn frees<O: Offer>(offer: &O, among: Option<&[u64]>, request: &Blocked) -> bool
    ensures { result ≡ freed_among (O.is_freed offer.now) (option_copied among.entry) request.now }
{
    match among {
        None => is_if(request.form) && offer.frees(request),
        Some(numbers) => frees_any(offer, numbers, request),
    }
}

fn frees_any<O: Offer>(offer: &O, numbers: &[u64], request: &Blocked) -> bool
    ensures { result ≡ list_any (λ n. freed_numbered (O.is_freed offer.now) n request.now) numbers.now }
{
    numbers
        .iter()
        .any(|number| frees_numbered(offer, *number, request))
}

pub(crate) fn frees_numbered<O: Offer>(offer: &O, number: u64, request: &Blocked) -> bool
    ensures { result ≡ freed_numbered (O.is_freed offer.now) number request.now }
{
    number == request.number && (is_if(request.form) && offer.frees(request))
}

/// The first that may be given the row of a number.
fn first_taker_of<'a, O: Offer>(
    requests: &'a Requests,
    number: u64,
    offer: &O,
) -> Option<&'a Blocked>
    requires { AskForIt (O.classes_of offer.now) (O.row_of offer.now) (O.is_taker offer.now) }
    ensures { option_copied result ≡ find (λ b. O.is_taker offer.now number b) requests.now }
{
    match offer.row(number) {
        None => None,
        Some(row) => requests.first_matching(0, &Taker { offer, number, row }),
    }
}

/// Whether one of them may be given the row of a number.
pub(crate) fn is_wanted<O: Offer>(requests: &Requests, number: u64, offer: &O) -> bool
    requires { AskForIt (O.classes_of offer.now) (O.row_of offer.now) (O.is_taker offer.now) }
    ensures { result ≡ list_any (λ b. O.is_taker offer.now number b) requests.now }
{
    first_taker_of(requests, number, offer).is_some()
}

/// The first at a space that may be given the row of a number.
fn first_taker_at<'a, O: Offer>(
    requests: &'a Requests,
    space: u64,
    number: u64,
    offer: &O,
) -> Option<&'a Blocked>
    requires { AskForIt (O.classes_of offer.now) (O.row_of offer.now) (O.is_taker offer.now) }
    ensures { option_copied result ≡ find (λ b. b.space == space && O.is_taker offer.now number b) requests.now }
{
    match offer.row(number) {
        None => None,
        Some(row) => {
            if row.space != space {
                return None;
            }
            requests.first_matching(0, &Taker { offer, number, row })
        }
    }
}

/// The first at a space that may be given one of the rows.
pub(crate) fn first_taker<'a, O: Offer>(
    requests: &'a Requests,
    space: u64,
    numbers: &[u64],
    offer: &O,
) -> Option<&'a Blocked>
    requires { AskForIt (O.classes_of offer.now) (O.row_of offer.now) (O.is_taker offer.now) }
    ensures { option_copied result ≡ find (takes_one (O.is_taker offer.now) space numbers.now) requests.now }
{
    // Which says that the numbers rise.
    let _ = requests.places();
    let mut first = None;
    'numbers: for number in numbers {
        first = lesser::<Blocked, ByNumber>(first, first_taker_at(requests, space, *number, offer));
    }
    first
}

/// The first at a space that waits no more: it may be given one of the rows, or waited for a
/// conflict that is gone, and is one of some requests or, where none are given, any.
pub(crate) fn first_stirred<'a, O: Offer>(
    requests: &'a Requests,
    space: u64,
    numbers: &[u64],
    among: Option<&[u64]>,
    offer: &O,
) -> Option<&'a Blocked>
    requires { AskForIt (O.classes_of offer.now) (O.row_of offer.now) (O.is_taker offer.now) }
    ensures { option_copied result ≡ find (waits_no_more (O.is_taker offer.now) (freed_among (O.is_freed offer.now) (option_copied among.entry)) space numbers.now) requests.now }
{
    // Which says that the numbers rise.
    let _ = requests.places();
    let taker = first_taker(requests, space, numbers, offer);
    let freed = first_freed(requests, space, among, offer);
    lesser::<Blocked, ByNumber>(taker, freed)
}
