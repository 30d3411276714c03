//! What is asked of requests that wait, and under which keys they are found.
ghost use Rattle.std.specs.Prelude.{◌==◌, ◌&&◌, [], ◌∷◌, map, is_some};
ghost use Rattle.std.specs.List.{list_any};
ghost use Rattle.jsp_model.specs.Lookup.{is_caller as calls};
ghost use Rattle.jsp_keys.specs.Keys.{transaction_key};
ghost use Rattle.jsp_wait.specs.Sought.{under_key};

use crate::by_number::key_of_under;
use crate::scanned::is_under;
use jsp_keyed::Keys;
use jsp_keys::key_of_transaction;
use jsp_model::Blocked;
use jsp_sight::is_caller;
use jsp_table::Test;

/// Whether it is under one of some transactions.
#[derive(Drop)]
pub(crate) struct Under<'a> {
    pub(crate) transactions: &'a [u64],
}

impl<'a> Test<Blocked> for Under<'a> {
    ghost is_passed = { λ t b. list_any (calls b.transaction) t.transactions.now };

    fn passes(&self, request: &Blocked) -> bool {
        is_under(request.transaction, self.transactions)
    }
}

impl<'a> Keys for Under<'a> {
    ghost sought = { λ t seed. map (transaction_key seed) t.transactions.now };

    fn sought_count(&self, _seed: u64) -> usize {
        self.transactions.len()
    }

    fn sought_key(&self, seed: u64, place: usize) -> u64 {
        key_of_transaction(seed, self.transactions[place])
    }
}

/// Whether it is under a transaction.
#[derive(Drop)]
pub(crate) struct UnderIt {
    pub(crate) transaction: u64,
}

impl Test<Blocked> for UnderIt {
    ghost is_passed = { λ t b. calls b.transaction t.transaction };

    fn passes(&self, request: &Blocked) -> bool {
        is_caller(request.transaction, self.transaction)
    }
}

impl Keys for UnderIt {
    ghost sought = { λ t seed. transaction_key seed t.transaction ∷ [] };

    fn sought_count(&self, _seed: u64) -> usize {
        1
    }

    fn sought_key(&self, seed: u64, _place: usize) -> u64 {
        key_of_transaction(seed, self.transaction)
    }
}

/// Whether it is at a space, under a transaction.
#[derive(Drop)]
pub(crate) struct UnderAny {
    pub(crate) space: u64,
}

impl Test<Blocked> for UnderAny {
    ghost is_passed = { λ t b. b.space == t.space && is_some b.transaction };

    fn passes(&self, request: &Blocked) -> bool {
        request.space == self.space && request.transaction.is_some()
    }
}

impl Keys for UnderAny {
    ghost sought = { λ t seed. under_key seed t.space ∷ [] };

    fn sought_count(&self, _seed: u64) -> usize {
        1
    }

    fn sought_key(&self, seed: u64, _place: usize) -> u64 {
        key_of_under(seed, self.space)
    }
}

/// Whether it is at a space and passes a test.
#[derive(Drop)]
pub(crate) struct At<'a, P: Test<Blocked>> {
    pub(crate) space: u64,
    pub(crate) test: &'a P,
}

impl<'a, P: Test<Blocked>> Test<Blocked> for At<'a, P> {
    ghost is_passed = { λ t b. b.space == t.space && P.is_passed t.test.now b };

    fn passes(&self, request: &Blocked) -> bool {
        request.space == self.space && self.test.passes(request)
    }
}
