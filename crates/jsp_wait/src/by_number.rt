//! The keys of requests that wait.
ghost use Rattle.std.specs.Prelude.{◌≡◌, ◌<◌, ◌++◌, ℕ, length, slice_index};
ghost use Rattle.jsp_model.specs.declared.state.Blocked.{Blocked as OfBlocked};
ghost use Rattle.jsp_lease.specs.declared.item.Rank.TheVariants.{Blocked as OfRank};
ghost use Rattle.jsp_keys.specs.Templates.{keys_of_all};
ghost use Rattle.jsp_wait.specs.Sought.{under_key, if_key, any_if_key, caller_keys, held_keys, request_keys};

use crate::scanned::copy_request;
use jsp_keyed::{Keyed, Keying};
use jsp_keys::{count_keys_of_all, key_of_all, key_of_number, key_of_transaction};
use jsp_model::{Blocked, Rank};
use jsp_sight::is_if;
use jsp_table::Numbering;
use jsp_types::NoMemory;

/// Requests go by their numbers. Each is named under its transaction, if it has one, as one that
/// waits for a conflict to end, if it does, and under the keys of its templates.
#[derive(Drop)]
pub(crate) struct ByNumber {}

/// The requests that wait, found by hints.
pub(crate) type Requests = Keyed<Blocked, ByNumber>;

impl Numbering<Blocked> for ByNumber {
    ghost number_of = { λ b. b.number };

    fn number(request: &Blocked) -> u64 {
        request.number
    }
}

impl Keying<Blocked> for ByNumber {
    ghost keys_of = { request_keys };

    ghost end_of = { λ b. b.end };

    ghost rank_of = { OfRank };

    fn count(_seed: u64, request: &Blocked) -> usize {
        let of_templates = count_keys_of_all(request.templates.as_slice());
        let behind_caller = count_held_keys(request) + of_templates;
        count_caller_keys(request) + behind_caller
    }

    fn key(seed: u64, request: &Blocked, place: usize) -> u64 {
        key_at(seed, request, place)
    }

    fn end(request: &Blocked) -> u64 {
        request.end
    }

    fn rank() -> Rank {
        Rank::Blocked
    }

    fn copy(request: &Blocked) -> Result<Blocked, NoMemory> {
        copy_request(request)
    }
}

fn key_at(seed: u64, request: &Blocked, place: usize) -> u64
    ensures { result ≡ slice_index (request_keys seed request.now) place }
{
    let callers = count_caller_keys(request);
    if place < callers {
        return caller_key_at(seed, request, place);
    }
    key_behind_caller(seed, request, place - callers)
}

/// The key at a place among those that aren't its transaction's.
fn key_behind_caller(seed: u64, request: &Blocked, place: usize) -> u64
    ensures { result ≡ slice_index (held_keys seed request.now ++ keys_of_all seed request.now.space request.now.templates) place }
{
    if !is_if(request.form) {
        return key_of_place(seed, request, place);
    }
    match place {
        0 => key_of_any_if(seed),
        1 => key_of_if(seed, request.space),
        _ => key_of_place(seed, request, place - 2),
    }
}

/// The key at this place among those of its templates, and 0 past the last.
fn key_of_place(seed: u64, request: &Blocked, place: usize) -> u64
    ensures { result ≡ slice_index (keys_of_all seed request.now.space request.now.templates) place }
{
    key_of_all(seed, request.space, request.templates.as_slice(), place)
}

fn count_caller_keys(request: &Blocked) -> usize
    ensures count { (seed : ℕ) → result ≡ length (caller_keys seed request.now) }
    ensures few { result < 3 }
{
    match request.transaction {
        None => 0,
        Some(_) => 2,
    }
}

fn caller_key_at(seed: u64, request: &Blocked, place: usize) -> u64
    requires { place < length (caller_keys seed request.now) }
    ensures { result ≡ slice_index (caller_keys seed request.now) place }
{
    match request.transaction {
        None => 0,
        Some(x) => {
            if place == 0 {
                key_of_transaction(seed, x)
            } else {
                key_of_under(seed, request.space)
            }
        }
    }
}

fn count_held_keys(request: &Blocked) -> usize
    ensures count { (seed : ℕ) → result ≡ length (held_keys seed request.now) }
    ensures few { result < 3 }
{
    if is_if(request.form) { 2 } else { 0 }
}

pub(crate) fn key_of_under(seed: u64, space: u64) -> u64
    ensures { result ≡ under_key seed space }
{
    key_of_number(seed, 6, space)
}

pub(crate) fn key_of_if(seed: u64, space: u64) -> u64
    ensures { result ≡ if_key seed space }
{
    key_of_number(seed, 7, space)
}

pub(crate) fn key_of_any_if(seed: u64) -> u64
    ensures { result ≡ any_if_key seed }
{
    key_of_number(seed, 10, 0)
}
