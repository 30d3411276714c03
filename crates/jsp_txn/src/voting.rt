//! The votes of joined spaces. Nothing here takes memory.
ghost use Rattle.std.specs.Prelude.{◌≡◌, map};
ghost use Rattle.jsp_txn.specs.Voting.{voting_in};

use jsp_model::{Joined, Vote};

/// What the spaces voted, once this one has.
pub(crate) fn vote_in(joined: &mut [Joined], space: u64, vote: Vote)
    ensures { joined.new ≡ map (voting_in space vote) joined.old }
{
    'joined: for one in joined.iter_mut() {
        vote_at(one, space, vote);
    }
}

fn vote_at(joined: &mut Joined, space: u64, vote: Vote)
    ensures { joined.new ≡ voting_in space vote joined.old }
{
    if joined.space == space {
        joined.vote = Some(vote);
    }
}
