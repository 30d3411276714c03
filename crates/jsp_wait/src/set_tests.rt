//! What is asked of match sets, and under which key they are sought.
ghost use Rattle.std.specs.Prelude.{◌==◌, [], ◌∷◌};
ghost use Rattle.jsp_model.specs.Lookup.{is_caller as calls};
ghost use Rattle.jsp_keys.specs.Keys.{space_key, session_key, transaction_key};

use jsp_keyed::Keys;
use jsp_keys::{key_of_session, key_of_space, key_of_transaction};
use jsp_list::Reading;
use jsp_model::MatchSet;
use jsp_sight::is_caller;
use jsp_table::Test;

/// Whether it is a session's.
#[derive(Drop)]
pub(crate) struct SetOfSession {
    pub(crate) session: u64,
}

impl Test<MatchSet> for SetOfSession {
    ghost is_passed = { λ t m. m.session == t.session };

    fn passes(&self, set: &MatchSet) -> bool {
        set.session == self.session
    }
}

impl Keys for SetOfSession {
    ghost sought = { λ t seed. session_key seed t.session ∷ [] };

    fn sought_count(&self, _seed: u64) -> usize {
        1
    }

    fn sought_key(&self, seed: u64, _place: usize) -> u64 {
        key_of_session(seed, self.session)
    }
}

/// Whether it is under a transaction.
#[derive(Drop)]
pub(crate) struct SetUnder {
    pub(crate) transaction: u64,
}

impl Test<MatchSet> for SetUnder {
    ghost is_passed = { λ t m. calls m.transaction t.transaction };

    fn passes(&self, set: &MatchSet) -> bool {
        is_caller(set.transaction, self.transaction)
    }
}

impl Keys for SetUnder {
    ghost sought = { λ t seed. transaction_key seed t.transaction ∷ [] };

    fn sought_count(&self, _seed: u64) -> usize {
        1
    }

    fn sought_key(&self, seed: u64, _place: usize) -> u64 {
        key_of_transaction(seed, self.transaction)
    }
}

/// Whether it shows the rows of a space.
#[derive(Drop)]
pub(crate) struct SetAt {
    pub(crate) space: u64,
}

impl Test<MatchSet> for SetAt {
    ghost is_passed = { λ t m. m.space == t.space };

    fn passes(&self, set: &MatchSet) -> bool {
        set.space == self.space
    }
}

impl Keys for SetAt {
    ghost sought = { λ t seed. space_key seed t.space ∷ [] };

    fn sought_count(&self, _seed: u64) -> usize {
        1
    }

    fn sought_key(&self, seed: u64, _place: usize) -> u64 {
        key_of_space(seed, self.space)
    }
}

/// Its space.
#[derive(Drop)]
pub(crate) struct SpaceOfSet {}

impl Reading<MatchSet> for SpaceOfSet {
    ghost value_of = { λ _ m. m.space };

    fn read(&self, set: &MatchSet) -> u64 {
        set.space
    }
}
