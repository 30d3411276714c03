//! The keys of registrations.
ghost use Rattle.std.specs.Prelude.{◌≡◌, slice_index};
ghost use Rattle.jsp_model.specs.declared.state.Registration.{Registration as OfRegistration};
ghost use Rattle.jsp_lease.specs.declared.item.Rank.TheVariants.{Registration as OfRank};
ghost use Rattle.jsp_notify.specs.Sought.{caller_key, registration_keys};

use crate::scanned::copy_of;
use jsp_keyed::{Keyed, Keying};
use jsp_keys::{
    count_template_keys, key_of_session, key_of_space, key_of_transaction, template_key,
};
use jsp_model::{Rank, Registration};
use jsp_table::Numbering;
use jsp_types::NoMemory;

/// Registrations go by their numbers. Each is named under its session, its transaction, its space,
/// and the keys of its template.
#[derive(Drop)]
pub(crate) struct ByNumber {}

/// Registrations, found by hints.
pub(crate) type Found = Keyed<Registration, ByNumber>;

impl Numbering<Registration> for ByNumber {
    ghost number_of = { λ r. r.number };

    fn number(registration: &Registration) -> u64 {
        registration.number
    }
}

impl Keying<Registration> for ByNumber {
    ghost keys_of = { registration_keys };

    ghost end_of = { λ r. r.end };

    ghost rank_of = { OfRank };

    fn count(_seed: u64, registration: &Registration) -> usize {
        3 + count_template_keys(&registration.template)
    }

    fn key(seed: u64, registration: &Registration, place: usize) -> u64 {
        key_at(seed, registration, place)
    }

    fn end(registration: &Registration) -> u64 {
        registration.end
    }

    fn rank() -> Rank {
        Rank::Registration
    }

    fn copy(registration: &Registration) -> Result<Registration, NoMemory> {
        copy_of(registration)
    }
}

fn key_at(seed: u64, registration: &Registration, place: usize) -> u64
    ensures { result ≡ slice_index (registration_keys seed registration.now) place }
{
    match place {
        0 => key_of_session(seed, registration.session),
        1 => key_of_caller(seed, registration),
        2 => key_of_space(seed, registration.space),
        _ => template_key(seed, registration.space, &registration.template, place - 3),
    }
}

fn key_of_caller(seed: u64, registration: &Registration) -> u64
    ensures { result ≡ caller_key seed registration.now }
{
    match registration.transaction {
        None => key_of_session(seed, registration.session),
        Some(x) => key_of_transaction(seed, x),
    }
}
