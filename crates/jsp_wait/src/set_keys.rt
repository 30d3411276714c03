//! How match sets are found.
ghost use Rattle.std.specs.Prelude.{◌≡◌, slice_index, IfOk};
ghost use Rattle.std.specs.Option.{option_map_or};
ghost use Rattle.jsp_model.specs.declared.state.MatchSet.{MatchSet as OfMatchSet};
ghost use Rattle.jsp_lease.specs.declared.item.Rank.TheVariants.{MatchSet as OfRank};
ghost use Rattle.jsp_keys.specs.Keys.{session_key, transaction_key};
ghost use Rattle.jsp_wait.specs.Sets.{set_keys};

use jsp_keyed::Keying;
use jsp_keys::{key_of_session, key_of_space, key_of_transaction};
use jsp_model::{MatchSet, Rank};
use jsp_table::Numbering;
use jsp_types::NoMemory;

/// Match sets go by their numbers. Each is named under its session, its transaction and its space.
#[derive(Drop)]
pub(crate) struct SetsByNumber {}

impl Numbering<MatchSet> for SetsByNumber {
    ghost number_of = { λ m. m.number };

    fn number(set: &MatchSet) -> u64 {
        set.number
    }
}

impl Keying<MatchSet> for SetsByNumber {
    ghost keys_of = { set_keys };

    ghost end_of = { λ m. m.end };

    ghost rank_of = { OfRank };

    fn count(_seed: u64, _set: &MatchSet) -> usize {
        3
    }

    fn key(seed: u64, set: &MatchSet, place: usize) -> u64 {
        key_at(seed, set, place)
    }

    fn end(set: &MatchSet) -> u64 {
        set.end
    }

    fn rank() -> Rank {
        Rank::MatchSet
    }

    fn copy(set: &MatchSet) -> Result<MatchSet, NoMemory> {
        copy_set(set)
    }
}

fn key_at(seed: u64, set: &MatchSet, place: usize) -> u64
    ensures { result ≡ slice_index (set_keys seed set.now) place }
{
    match place {
        0 => key_of_session(seed, set.session),
        1 => key_of_caller(seed, set),
        2 => key_of_space(seed, set.space),
        _ => 0,
    }
}

/// What has no transaction has its session's key once more.
fn key_of_caller(seed: u64, set: &MatchSet) -> u64
    ensures { result ≡ option_map_or (transaction_key seed) set.now.transaction (session_key seed set.now.session) }
{
    match set.transaction {
        None => key_of_session(seed, set.session),
        Some(x) => key_of_transaction(seed, x),
    }
}

fn copy_set(set: &MatchSet) -> Result<MatchSet, NoMemory>
    ensures { IfOk result (λ c. c ≡ set.now) }
{
    set.clone()
}
