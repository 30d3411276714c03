//! What others are told by a request or a decision: blocked requests that are refused, and commits
//! that are answered.
ghost use Rattle.std.specs.Prelude.{◌≡◌, ◌++◌, ◌∷◌, [], if◌then◌else◌, Some, IfOk, OnOk};
ghost use Rattle.jsp_reply.specs.declared.reply.Reply.TheVariants as says;
ghost use Rattle.jsp_model.specs.Answers.{refuse_under as refused_under, answer_commit as commit_answered, aborted_reply};
ghost use Rattle.jsp_requests.specs.Telling.{all_refused, at_space_refused, commits_answered, decision};

use jsp_core::Core;
use jsp_model::Commit;
use jsp_reply::{Refusal, Reply};
use jsp_types::NoMemory;
use jsp_wait::Asker;
use std::alloc::Global;

/// The blocked requests under these transactions, which left the active state, are refused, in
/// arrival order (this profile's own).
pub fn refuse_under(
    alloc: Global,
    state: &Core,
    transactions: &[u64],
) -> Result<Vec<(u64, Reply)>, NoMemory>
    ensures { IfOk result (λ v. v.items ≡ refused_under state.now transactions.now) }
{
    let askers = state.blocked.askers_under(alloc, transactions)?;
    refuse_each(alloc, askers.as_slice(), Refusal::LeftActive)
}

/// Each of these requests is refused so.
fn refuse_each(
    alloc: Global,
    askers: &[Asker],
    refusal: Refusal,
) -> Result<Vec<(u64, Reply)>, NoMemory>
    ensures { IfOk result (λ v. v.items ≡ all_refused refusal askers.now) }
{
    let mut told = Vec::new(alloc);
    'askers: for asker in askers {
        told.push((asker.session, refusal_of(asker.id, refusal)))?;
    }
    Ok(told)
}

fn refusal_of(id: u64, refusal: Refusal) -> Reply
    ensures { result ≡ says.Refused (Some id) refusal }
{
    Reply::Refused {
        id: Some(id),
        refusal,
    }
}

/// The blocked requests under a transaction at a space that is reset are refused, in arrival order
/// (this profile's own).
pub(crate) fn refuse_at(
    alloc: Global,
    state: &Core,
    space: u64,
) -> Result<Vec<(u64, Reply)>, NoMemory>
    ensures { IfOk result (λ v. v.items ≡ at_space_refused space state.now.blocked) }
{
    let askers = state.blocked.askers_at(alloc, space)?;
    refuse_each(alloc, askers.as_slice(), Refusal::CrashCount)
}

/// The commit of the transaction, if it was asked, is answered: done, or refused since the
/// transaction is aborted (Jini Transactions).
pub fn answer_commit(
    alloc: Global,
    state: &Core,
    x: u64,
    commits: bool,
) -> Result<Vec<(u64, Reply)>, NoMemory>
    ensures { IfOk result (λ v. v.items ≡ commit_answered state.now x (λ id. if commits then says.Done id else aborted_reply id)) }
{
    answer_each(alloc, state.commits.as_slice(), x, commits)
}

fn answer_each(
    alloc: Global,
    commits: &[Commit],
    x: u64,
    done: bool,
) -> Result<Vec<(u64, Reply)>, NoMemory>
    ensures { IfOk result (λ v. v.items ≡ commits_answered x done commits.now) }
{
    let mut told = Vec::new(alloc);
    'commits: for commit in commits {
        answer_if_of(&mut told, commit, x, done)?;
    }
    Ok(told)
}

fn answer_if_of(
    told: &mut Vec<(u64, Reply)>,
    commit: &Commit,
    x: u64,
    done: bool,
) -> Result<(), NoMemory>
    ensures { OnOk result (told.new.items ≡ told.old.items ++ commits_answered x done (commit.now ∷ [])) }
{
    if commit.transaction == x {
        told.push((commit.session, decision_of(commit.id, done)))?;
    }
    Ok(())
}

fn decision_of(id: u64, done: bool) -> Reply
    ensures { result ≡ decision done id }
{
    if done {
        Reply::Done { id }
    } else {
        refusal_of(id, Refusal::Aborted)
    }
}
