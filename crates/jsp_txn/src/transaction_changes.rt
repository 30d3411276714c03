//! What becomes of a transaction: a space joins it, leaves it again or votes, or its lease is
//! renewed.
ghost use Rattle.std.specs.Prelude.{◌≡◌, map, OnOk, OnErr};
ghost use Rattle.jsp_txn.specs.Joining.{with_joined, without_last};
ghost use Rattle.jsp_txn.specs.Voting.{voting_in};

use crate::voting::vote_in;
use jsp_model::{Joined, Transaction, Vote};
use jsp_table::{Change, TryChange};
use jsp_types::NoMemory;

/// A space joins it.
#[derive(Drop)]
pub(crate) struct Join {
    pub(crate) joined: Joined,
}

impl TryChange<Transaction> for Join {
    ghost changed = { λ j t. with_joined j.joined t };

    fn try_change(&self, transaction: &mut Transaction) -> Result<(), NoMemory> {
        push_joined(transaction, self.joined)
    }
}

fn push_joined(transaction: &mut Transaction, joined: Joined) -> Result<(), NoMemory>
    ensures ok { OnOk result (transaction.new ≡ with_joined joined transaction.old) }
    ensures err { OnErr result (transaction.new ≡ transaction.old) }
{
    transaction.joined.push(joined)?;
    Ok(())
}

/// The space that joined last leaves it.
#[derive(Drop)]
pub(crate) struct Leave {}

impl Change<Transaction> for Leave {
    ghost changed = { λ _ t. without_last t };

    fn change(&self, transaction: &mut Transaction) {
        drop_last(transaction);
    }
}

fn drop_last(transaction: &mut Transaction)
    ensures { transaction.new ≡ without_last transaction.old }
{
    let joined = &mut transaction.joined;
    let _joined = joined.items.pop();
}

/// A space votes.
#[derive(Drop)]
pub(crate) struct CastVote {
    pub(crate) space: u64,
    pub(crate) vote: Vote,
}

impl Change<Transaction> for CastVote {
    ghost changed = { λ v t. record t { joined = map (voting_in v.space v.vote) t.joined } };

    fn change(&self, transaction: &mut Transaction) {
        let joined = &mut transaction.joined;
        vote_in(&mut joined.items, self.space, self.vote);
    }
}

/// Its lease ends then.
#[derive(Drop)]
pub(crate) struct EndAt {
    pub(crate) end: u64,
}

impl Change<Transaction> for EndAt {
    ghost changed = { λ e t. record t { end = e.end } };

    fn change(&self, transaction: &mut Transaction) {
        transaction.end = self.end;
    }
}
