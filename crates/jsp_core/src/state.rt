//! The state of the spaces, in lists that are searched.
ghost use Rattle.std.specs.Prelude.{◌≡◌, IfOk, IsTrue};
ghost use Rattle.jsp_model.specs.Limits.{are_outboxes};

use crate::Sessions;
use jsp_model::{Blocked, Commit, MatchSet, Outbox, Registration, Row, Space, State, Transaction};
use jsp_notify::Registrations;
use jsp_outbox::Outboxes;
use jsp_store::{Keeping, Rows};
use jsp_txn::Transactions;
use jsp_types::{Classes, Items, NoMemory};
use jsp_wait::{MatchSets, Waiters};
use std::alloc::Global;
use std::marker::Model;

/// The whole state. Contracts see it as a `State`, field by field.
#[derive(Drop)]
pub struct Core {
    pub classes: Classes,
    pub spaces: Items<Space>,
    pub sessions: Sessions,
    pub last_session: u64,
    pub time: u64,
    pub next_number: u64,
    pub rows: Rows,
    pub registrations: Registrations,
    pub blocked: Waiters,
    pub transactions: Transactions,
    pub commits: Items<Commit>,
    pub sets: MatchSets,
    pub outboxes: Outboxes,
}

impl Model for Core {
    ghost use Rattle.jsp_model.specs.declared.state.State.{State};

    ghost Value = { State };

    ghost view = { λ s. record { classes = s.classes; spaces = s.spaces; sessions = s.sessions; last_session = s.last_session; time = s.time; next_number = s.next_number; rows = s.rows; registrations = s.registrations; blocked = s.blocked; transactions = s.transactions; commits = s.commits; sets = s.sets; outboxes = s.outboxes } };
}

impl Core {
    /// The program's form of a state, whose lists are kept so.
    pub fn of(alloc: Global, state: State, keeping: Keeping) -> Result<Core, NoMemory>
        requires { IsTrue (are_outboxes state.outboxes) }
        ensures { IfOk result (λ c. c ≡ state) }
    {
        let State {
            classes,
            spaces,
            sessions,
            last_session,
            time,
            next_number,
            rows,
            registrations,
            blocked,
            transactions,
            commits,
            sets,
            outboxes,
        } = state;
        let (rows, registrations, blocked) = searched_of(
            alloc,
            rows,
            registrations,
            blocked,
            keeping,
        )?;
        let (transactions, sets, outboxes) = kept_of(alloc, transactions, sets, outboxes, keeping)?;
        Ok(Core {
            classes,
            spaces,
            sessions: Sessions::of(sessions),
            last_session,
            time,
            next_number,
            rows,
            registrations,
            blocked,
            transactions,
            commits,
            sets,
            outboxes,
        })
    }

    /// A plain copy of the state.
    pub fn to_state(&self, alloc: Global) -> Result<State, NoMemory>
        ensures { IfOk result (λ c. c ≡ self.now) }
    {
        Ok(State {
            classes: copy_classes(&self.classes)?,
            spaces: copy_spaces(&self.spaces)?,
            sessions: self.sessions.to_items()?,
            last_session: self.last_session,
            time: self.time,
            next_number: self.next_number,
            rows: self.rows.to_items()?,
            registrations: self.registrations.to_items()?,
            blocked: self.blocked.to_items(alloc)?,
            transactions: self.transactions.to_items()?,
            commits: copy_commits(&self.commits)?,
            sets: self.sets.to_items()?,
            outboxes: self.outboxes.to_items(alloc)?,
        })
    }
}

/// The lists that are searched by what they hold. (In two parts, so that few things have to go
/// where memory is refused.)
fn searched_of(
    alloc: Global,
    rows: Items<Row>,
    registrations: Items<Registration>,
    blocked: Items<Blocked>,
    keeping: Keeping,
) -> Result<(Rows, Registrations, Waiters), NoMemory>
    ensures { IfOk result (λ l. (l.0 ≡ rows) × (l.1 ≡ registrations) × (l.2 ≡ blocked)) }
{
    let blocked = waiters_of(alloc, blocked, keeping)?;
    let registrations = registrations_of(alloc, registrations, keeping)?;
    let rows = Rows::of(alloc, rows, keeping)?;
    Ok((rows, registrations, blocked))
}

/// The other lists of things that come and go.
fn kept_of(
    alloc: Global,
    transactions: Items<Transaction>,
    sets: Items<MatchSet>,
    outboxes: Items<Outbox>,
    keeping: Keeping,
) -> Result<(Transactions, MatchSets, Outboxes), NoMemory>
    requires { IsTrue (are_outboxes outboxes) }
    ensures { IfOk result (λ l. (l.0 ≡ transactions) × (l.1 ≡ sets) × (l.2 ≡ outboxes)) }
{
    let transactions = transactions_of(alloc, transactions, keeping)?;
    let sets = sets_of(alloc, sets, keeping)?;
    let outboxes = Outboxes::of(outboxes)?;
    Ok((transactions, sets, outboxes))
}

fn waiters_of(alloc: Global, blocked: Items<Blocked>, keeping: Keeping) -> Result<Waiters, NoMemory>
    ensures { IfOk result (λ w. w ≡ blocked) }
{
    match keeping {
        Keeping::Scanned => Ok(Waiters::scanned(alloc, blocked)),
        Keeping::Hinted { seed } => Waiters::of(alloc, blocked, seed),
    }
}

fn registrations_of(
    alloc: Global,
    registrations: Items<Registration>,
    keeping: Keeping,
) -> Result<Registrations, NoMemory>
    ensures { IfOk result (λ r. r ≡ registrations) }
{
    match keeping {
        Keeping::Scanned => Ok(Registrations::scanned(alloc, registrations)),
        Keeping::Hinted { seed } => Registrations::of(alloc, registrations, seed),
    }
}

fn transactions_of(
    alloc: Global,
    transactions: Items<Transaction>,
    keeping: Keeping,
) -> Result<Transactions, NoMemory>
    ensures { IfOk result (λ t. t ≡ transactions) }
{
    match keeping {
        Keeping::Scanned => Ok(Transactions::scanned(alloc, transactions)),
        Keeping::Hinted { seed } => Transactions::of(alloc, transactions, seed),
    }
}

fn sets_of(alloc: Global, sets: Items<MatchSet>, keeping: Keeping) -> Result<MatchSets, NoMemory>
    ensures { IfOk result (λ m. m ≡ sets) }
{
    match keeping {
        Keeping::Scanned => Ok(MatchSets::scanned(alloc, sets)),
        Keeping::Hinted { seed } => MatchSets::of(alloc, sets, seed),
    }
}

fn copy_classes(classes: &Classes) -> Result<Classes, NoMemory>
    ensures { IfOk result (λ c. c ≡ classes.now) }
{
    classes.clone()
}

fn copy_spaces(spaces: &Items<Space>) -> Result<Items<Space>, NoMemory>
    ensures { IfOk result (λ c. c ≡ spaces.now) }
{
    spaces.clone()
}

fn copy_commits(commits: &Items<Commit>) -> Result<Items<Commit>, NoMemory>
    ensures { IfOk result (λ c. c ≡ commits.now) }
{
    commits.clone()
}
