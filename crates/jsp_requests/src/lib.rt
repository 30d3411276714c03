//! What a client asks, over all the operations of both versions.
//!
//! Each kind of operation has a file with its refusals, its change and its answer; those on entries
//! stand in jsp_entries, those of registrations and match sets in jsp_grants. `judge` looks at a
//! request once: whether it is refused, for the first reason that applies (`refusal`), and else what
//! rows it wants, which jsp_entries then gives it. `ask` has the matches over all the others, and
//! their contracts are the definitions of jsp_model: `accept` makes the change of a request that
//! isn't refused (`accepted`), whole or not at all, `answer` is what it is answered at once and
//! `told_others` what others are told by it. Nothing here speaks of the limits of a state but where
//! a sum has to fit.
#![tactic(auto)]

mod ask;
mod batch;
mod extend;
mod judging;
mod lease;
mod telling;
mod transaction;

pub use ask::{accept, answer, told_others};
pub use judging::{Judged, judge};
pub use telling::{answer_commit, refuse_under};
