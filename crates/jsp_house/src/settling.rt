//! What a settle turn does.
ghost use Rattle.std.specs.Prelude.{◌≡◌, None, Some, false, IfErr, option_copied, find, is_none, vec_len};
ghost use Rattle.std.specs.List.{list_any};
ghost use Rattle.jsp_model.specs.House.{MayStop, Settles, answer_to, next_turn as answers_next};
ghost use Rattle.jsp_model.specs.Settling.{settle_step as next_turn, turn_of as turn, turn_at, first_unquiet as first_of_all};
ghost use Rattle.jsp_model.specs.Steps.{is_vote_to_abort as says_to_abort};
ghost use Rattle.jsp_quiet.specs.Steady.{IsSteady};
ghost use Rattle.jsp_house.specs.Making.{KeepsLog};

use crate::owing::owe;
use crate::performing::{clear, perform};
use crate::unquiet::{first_to_quiet, first_unquiet};
use jsp_core::{Core, LiveImage};
use jsp_model::{Joined, Settled, Step, Stopped, Vote, Why};
use jsp_state::transaction_of;
use std::alloc::Global;
use std::slice::from_ref;

/// Makes the next vote or the decision of the transaction whose commit was asked first. Where none
/// votes it makes the first space that isn't quiet quiet, together with what an earlier call left.
pub(crate) fn settle(
    alloc: Global,
    image: &mut LiveImage,
    debt: &mut Vec<u64>,
    bound: Option<u64>,
    log: &mut Vec<Step>,
) -> Result<Settled, Stopped>
    requires { IsSteady image.old }
    ensures settles { Settles image.old image.new debt.old.items debt.new.items log.old.items log.new.items result }
    ensures unasked { next_turn image.old ≡ None → IfErr result (λ e. e.done ≡ false) }
    ensures keeps { KeepsLog image.old image.new bound log.old log.new }
    ensures why { IfErr result (λ e. MayStop bound (vec_len log.new) e.why) }
{
    match settle_step(image.state()) {
        None => quiet_next(alloc, image, debt, bound, log),
        Some(step) => {
            let settled = answer_of(&step);
            match perform(alloc, image, debt, step, bound, log) {
                Err(stopped) => Err(stopped),
                Ok(()) => Ok(settled),
            }
        }
    }
}

/// What the next settle turn answers, if a transaction votes.
pub(crate) fn turn(state: &Core) -> Option<Settled>
    ensures { result ≡ answers_next state.now }
{
    match settle_step(state) {
        None => None,
        Some(step) => Some(answer_of(&step)),
    }
}

/// Whether every space is quiet.
pub(crate) fn all_quiet(image: &LiveImage) -> bool
    ensures { result ≡ is_none (first_of_all image.now) }
{
    first_unquiet(image).is_none()
}

fn answer_of(step: &Step) -> Settled
    ensures { result ≡ answer_to step.now }
{
    match step {
        Step::Vote { .. } => Settled::Voted,
        _ => Settled::Decided,
    }
}

fn quiet_next(
    alloc: Global,
    image: &mut LiveImage,
    debt: &mut Vec<u64>,
    bound: Option<u64>,
    log: &mut Vec<Step>,
) -> Result<Settled, Stopped>
    requires steady { IsSteady image.old }
    requires none { next_turn image.old ≡ None }
    ensures settles { Settles image.old image.new debt.old.items debt.new.items log.old.items log.new.items result }
    ensures not_done { IfErr result (λ e. e.done ≡ false) }
    ensures keeps { KeepsLog image.old image.new bound log.old log.new }
    ensures why { IfErr result (λ e. MayStop bound (vec_len log.new) e.why) }
{
    match first_to_quiet(image) {
        None => match clear(alloc, image, debt, false, bound, log) {
            Err(stopped) => Err(stopped),
            Ok(()) => Ok(Settled::Idle),
        },
        Some(space) => quiet_space(alloc, image, debt, space, bound, log),
    }
}

/// Makes this space quiet, and what is owed.
fn quiet_space(
    alloc: Global,
    image: &mut LiveImage,
    debt: &mut Vec<u64>,
    space: u64,
    bound: Option<u64>,
    log: &mut Vec<Step>,
) -> Result<Settled, Stopped>
    requires none { next_turn image.old ≡ None }
    requires found { first_of_all image.old ≡ Some space }
    ensures settles { Settles image.old image.new debt.old.items debt.new.items log.old.items log.new.items result }
    ensures not_done { IfErr result (λ e. e.done ≡ false) }
    ensures keeps { KeepsLog image.old image.new bound log.old log.new }
    ensures why { IfErr result (λ e. MayStop bound (vec_len log.new) e.why) }
{
    if let Err(_) = owe(debt, from_ref(&space)) {
        return Err(Stopped {
            why: Why::NoMemory,
            done: false,
        });
    }
    match clear(alloc, image, debt, false, bound, log) {
        Err(stopped) => Err(stopped),
        Ok(()) => Ok(Settled::Quieted),
    }
}

/// The step of a settle turn, if a transaction votes.
pub(crate) fn settle_step(state: &Core) -> Option<Step>
    ensures { result ≡ next_turn state.now }
{
    match state.commits.as_slice().first() {
        None => None,
        Some(commit) => Some(turn_of(state, commit.transaction)),
    }
}

/// An abort as soon as a vote is for it, else the next vote, and else a commit.
fn turn_of(state: &Core, transaction: u64) -> Step
    ensures { result ≡ turn state.now transaction }
{
    match transaction_of(state, transaction) {
        None => Step::Decide {
            transaction,
            commits: true,
        },
        Some(found) => turn_among(transaction, found.joined.as_slice()),
    }
}

fn turn_among(transaction: u64, joined: &[Joined]) -> Step
    ensures { result ≡ turn_at transaction joined.now }
{
    if any_votes_to_abort(joined) {
        return Step::Decide {
            transaction,
            commits: false,
        };
    }
    match next_to_vote(joined) {
        None => Step::Decide {
            transaction,
            commits: true,
        },
        Some(j) => Step::Vote {
            transaction,
            space: j.space,
        },
    }
}

fn any_votes_to_abort(joined: &[Joined]) -> bool
    ensures { result ≡ list_any says_to_abort joined.now }
{
    joined.iter().any(is_vote_to_abort)
}

fn is_vote_to_abort(joined: &Joined) -> bool
    ensures { result ≡ says_to_abort joined.now }
{
    matches!(joined.vote, Some(Vote::Aborted))
}

/// The first joined space that hasn't voted.
fn next_to_vote<'a>(joined: &'a [Joined]) -> Option<&'a Joined>
    ensures { option_copied result ≡ find (λ j. is_none j.vote) joined.now }
{
    joined.iter().find(|j| j.vote.is_none())
}
