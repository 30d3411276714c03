//! How transactions are found.
ghost use Rattle.std.specs.Prelude.{◌≡◌, ℕ, List, [], IfOk};
ghost use Rattle.jsp_model.specs.declared.state.Transaction.{Transaction as OfTransaction};
ghost use Rattle.jsp_lease.specs.declared.item.Rank.TheVariants.{Transaction as OfRank};

use jsp_keyed::Keying;
use jsp_lease::Rank;
use jsp_model::Transaction;
use jsp_table::Numbering;
use jsp_types::NoMemory;

/// Transactions go by their numbers. Nothing else is asked of them, so they have no keys.
#[derive(Drop)]
pub(crate) struct ByNumber {}

impl Numbering<Transaction> for ByNumber {
    ghost number_of = { λ t. t.number };

    fn number(transaction: &Transaction) -> u64 {
        transaction.number
    }
}

impl Keying<Transaction> for ByNumber {
    ghost keys_of = { λ _ _. [] };

    ghost end_of = { λ t. t.end };

    ghost rank_of = { OfRank };

    fn count(_seed: u64, _transaction: &Transaction) -> usize {
        0
    }

    fn key(_seed: u64, _transaction: &Transaction, _place: usize) -> u64 {
        0
    }

    fn end(transaction: &Transaction) -> u64 {
        transaction.end
    }

    fn rank() -> Rank {
        Rank::Transaction
    }

    fn copy(transaction: &Transaction) -> Result<Transaction, NoMemory> {
        copy_transaction(transaction)
    }
}

fn copy_transaction(transaction: &Transaction) -> Result<Transaction, NoMemory>
    ensures { IfOk result (λ c. c ≡ transaction.now) }
{
    transaction.clone()
}
