//! A state with the limits of the profile in its type.
ghost use Rattle.std.specs.Prelude.{◌≡◌, IfOk};
ghost use Rattle.jsp_model.specs.Limits.{IsWithinLimits};

use crate::{
    Blocked, Commit, MatchSet, Outbox, Registration, Row, Session, Space, State, Transaction,
};
use jsp_reply::Said;
use jsp_types::{Classes, Items, NoMemory};
use std::alloc::Global;
use std::marker::Model;

/// A state within its limits. Contracts see it as the state.
///
/// The limits stand in `specs/Limits.antt`. Whoever changes the state shows them again.
#[derive(Drop)]
pub struct Image {
    pub state: State,
}

impl Model for Image {
    ghost use Rattle.jsp_model.specs.declared.state.State.{State};
    ghost use Rattle.jsp_model.specs.Limits.{IsWithinLimits};

    ghost Value = { State };

    ghost view = { λ a. a.state };

    ghost invariant = { λ a. IsWithinLimits a.state };
}

impl Image {
    /// The state.
    pub fn state(&self) -> &State
        ensures state { result.now ≡ self.now }
        ensures limits { IsWithinLimits self.now }
    {
        &self.state
    }

    /// The same image again.
    pub fn copy(&self, alloc: Global) -> Result<Image, NoMemory>
        ensures { IfOk result (λ i. i ≡ self.now) }
    {
        let state = copy_of(alloc, &self.state)?;
        Ok(Image { state })
    }
}

fn copy_of(alloc: Global, state: &State) -> Result<State, NoMemory>
    ensures { IfOk result (λ c. c ≡ state.now) }
{
    Ok(State {
        classes: copy_classes(&state.classes)?,
        spaces: copy_spaces(&state.spaces)?,
        sessions: copy_sessions(&state.sessions)?,
        last_session: state.last_session,
        time: state.time,
        next_number: state.next_number,
        rows: copy_rows(&state.rows)?,
        registrations: copy_registrations(&state.registrations)?,
        blocked: copy_blocked(alloc, &state.blocked)?,
        transactions: copy_transactions(&state.transactions)?,
        commits: copy_commits(&state.commits)?,
        sets: copy_sets(&state.sets)?,
        outboxes: copy_outboxes(alloc, &state.outboxes)?,
    })
}

fn copy_classes(classes: &Classes) -> Result<Classes, NoMemory>
    ensures { IfOk result (λ c. c ≡ classes.now) }
{
    classes.clone()
}

fn copy_spaces(spaces: &Items<Space>) -> Result<Items<Space>, NoMemory>
    ensures { IfOk result (λ c. c ≡ spaces.now) }
{
    spaces.clone()
}

fn copy_sessions(sessions: &Items<Session>) -> Result<Items<Session>, NoMemory>
    ensures { IfOk result (λ c. c ≡ sessions.now) }
{
    sessions.clone()
}

fn copy_rows(rows: &Items<Row>) -> Result<Items<Row>, NoMemory>
    ensures { IfOk result (λ c. c ≡ rows.now) }
{
    rows.clone()
}

fn copy_registrations(registrations: &Items<Registration>) -> Result<Items<Registration>, NoMemory>
    ensures { IfOk result (λ c. c ≡ registrations.now) }
{
    registrations.clone()
}

fn copy_blocked(alloc: Global, blocked: &Items<Blocked>) -> Result<Items<Blocked>, NoMemory>
    ensures { IfOk result (λ c. c ≡ blocked.now) }
{
    let mut copies = Items::new(alloc);
    for request in blocked.as_slice() {
        copies.push(copy_request(request)?)?;
    }
    Ok(copies)
}

fn copy_request(request: &Blocked) -> Result<Blocked, NoMemory>
    ensures { IfOk result (λ c. c ≡ request.now) }
{
    request.clone()
}

fn copy_transactions(transactions: &Items<Transaction>) -> Result<Items<Transaction>, NoMemory>
    ensures { IfOk result (λ c. c ≡ transactions.now) }
{
    transactions.clone()
}

fn copy_commits(commits: &Items<Commit>) -> Result<Items<Commit>, NoMemory>
    ensures { IfOk result (λ c. c ≡ commits.now) }
{
    commits.clone()
}

fn copy_sets(sets: &Items<MatchSet>) -> Result<Items<MatchSet>, NoMemory>
    ensures { IfOk result (λ c. c ≡ sets.now) }
{
    sets.clone()
}

fn copy_outboxes(alloc: Global, outboxes: &Items<Outbox>) -> Result<Items<Outbox>, NoMemory>
    ensures { IfOk result (λ c. c ≡ outboxes.now) }
{
    let mut copies = Items::new(alloc);
    for outbox in outboxes.as_slice() {
        copies.push(copy_outbox(alloc, outbox)?)?;
    }
    Ok(copies)
}

fn copy_outbox(alloc: Global, outbox: &Outbox) -> Result<Outbox, NoMemory>
    ensures { IfOk result (λ c. c ≡ outbox.now) }
{
    Ok(Outbox {
        session: outbox.session,
        answers: copy_answers(alloc, &outbox.answers)?,
    })
}

fn copy_answers(alloc: Global, answers: &Items<Said>) -> Result<Items<Said>, NoMemory>
    ensures { IfOk result (λ c. c ≡ answers.now) }
{
    let mut copies = Items::new(alloc);
    for said in answers.as_slice() {
        copies.push(copy_said(said)?)?;
    }
    Ok(copies)
}

fn copy_said(said: &Said) -> Result<Said, NoMemory>
    ensures { IfOk result (λ c. c ≡ said.now) }
{
    said.clone()
}
