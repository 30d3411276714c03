//! The spaces that a step touches.
ghost use Rattle.std.specs.Prelude.{◌≡◌, ◌==◌, IfOk, filter, flat_map, map};
ghost use Rattle.jsp_model.specs.Lookup.{named as number_named, joined_spaces as joined_by};
ghost use Rattle.jsp_model.specs.Quiet.{are_quiet as all_quiet};
ghost use Rattle.jsp_model.specs.Touches.{touches as touched, ask_touches as touched_by_ask, item_touches as touched_by_item, lease_touches as touched_by_lease, set_touches as touched_by_set, name_touches as touched_by_name};

use crate::spaces::Spaces;
use jsp_core::{Core, LiveImage};
use jsp_model::{Joined, Step};
use jsp_state::{is_quiet, named, space_named, transaction_of};
use jsp_types::NoMemory;
use jsp_wire::Ask;
use std::alloc::Global;

/// The spaces that the step touches, by their places in the configured order; one may stand there
/// twice. A request, an end or a vote is made only where they are quiet (this profile's own).
#[tactic(auto, unfolding(jsp_model::specs::Touches::touches))]
pub fn touches(alloc: Global, image: &LiveImage, step: &Step) -> Result<Spaces, NoMemory>
    ensures { IfOk result (λ v. v ≡ touched image.now step.now) }
{
    let state = image.state();
    match step {
        Step::Ask { asked, .. } => ask_touches(alloc, state, asked.ask()),
        Step::Due { item } => item_touches(alloc, state, item.number),
        Step::Vote { space, .. } => Ok(Spaces::one(*space)),
        _ => Ok(Spaces::none(alloc)),
    }
}

/// Whether each of the spaces is quiet: it owes nothing.
pub fn are_quiet(image: &LiveImage, spaces: &[u64]) -> bool
    ensures { result ≡ all_quiet image.now spaces.now }
{
    spaces.iter().all(|space| is_quiet(image, *space))
}

/// The spaces that a request touches.
pub fn ask_touches(alloc: Global, state: &Core, ask: &Ask) -> Result<Spaces, NoMemory>
    ensures { IfOk result (λ v. v ≡ touched_by_ask state.now ask.now) }
{
    match ask {
        Ask::Write(asked) => Ok(name_touches(alloc, state, asked.space.as_str())),
        Ask::WriteAll(asked) => Ok(name_touches(alloc, state, asked.space.as_str())),
        Ask::Read(asked) => Ok(name_touches(alloc, state, asked.space.as_str())),
        Ask::ReadIf(asked) => Ok(name_touches(alloc, state, asked.space.as_str())),
        Ask::Take(asked) => Ok(name_touches(alloc, state, asked.space.as_str())),
        Ask::TakeIf(asked) => Ok(name_touches(alloc, state, asked.space.as_str())),
        Ask::TakeMany(asked) => Ok(name_touches(alloc, state, asked.space.as_str())),
        Ask::Notify(asked) => Ok(name_touches(alloc, state, asked.space.as_str())),
        Ask::Contents(asked) => Ok(name_touches(alloc, state, asked.space.as_str())),
        Ask::Reset { space } => Ok(name_touches(alloc, state, space.as_str())),
        Ask::Renew { lease, .. } => lease_touches(alloc, state, named(*lease)),
        Ask::Cancel { lease } => lease_touches(alloc, state, named(*lease)),
        Ask::RenewAll { leases } => renewals_touch(alloc, state, leases.as_slice()),
        Ask::CancelAll { leases } => leases_touch(alloc, state, leases.as_slice()),
        Ask::Commit { txn } => decision_touches(alloc, state, named(*txn)),
        Ask::Abort { txn } => decision_touches(alloc, state, named(*txn)),
        Ask::Next { set, .. } => set_touches(alloc, state, named(*set)),
        Ask::CloseSet { set } => set_touches(alloc, state, named(*set)),
        _ => Ok(Spaces::none(alloc)),
    }
}

/// The space of this name, if there is one.
fn name_touches(alloc: Global, state: &Core, name: &str) -> Spaces
    ensures { result ≡ touched_by_name state.now name.now }
{
    match space_named(state, name) {
        None => Spaces::none(alloc),
        Some(space) => Spaces::one(space),
    }
}

fn renewals_touch(alloc: Global, state: &Core, leases: &[(i64, i64)]) -> Result<Spaces, NoMemory>
    ensures { IfOk result (λ v. v ≡ flat_map (λ l. touched_by_lease state.now (number_named l.0)) leases.now) }
{
    let mut spaces = Vec::new(alloc);
    'leases: for lease in leases {
        let touched = spaces_of_lease(alloc, state, named(lease.0))?;
        spaces.extend_from_slice(touched.as_slice())?;
    }
    Ok(Spaces::several(spaces))
}

fn leases_touch(alloc: Global, state: &Core, leases: &[i64]) -> Result<Spaces, NoMemory>
    ensures { IfOk result (λ v. v ≡ flat_map (λ l. touched_by_lease state.now (number_named l)) leases.now) }
{
    let mut spaces = Vec::new(alloc);
    'leases: for lease in leases {
        let touched = spaces_of_lease(alloc, state, named(*lease))?;
        spaces.extend_from_slice(touched.as_slice())?;
    }
    Ok(Spaces::several(spaces))
}

fn lease_touches(alloc: Global, state: &Core, number: u64) -> Result<Spaces, NoMemory>
    ensures { IfOk result (λ v. v ≡ touched_by_lease state.now number) }
{
    Ok(Spaces::several(spaces_of_lease(alloc, state, number)?))
}

/// The spaces that the end of the item of this number touches.
pub(crate) fn item_touches(alloc: Global, state: &Core, number: u64) -> Result<Spaces, NoMemory>
    ensures { IfOk result (λ v. v ≡ touched_by_item state.now number) }
{
    let mut spaces = spaces_of_lease(alloc, state, number)?;
    let blocked = state.blocked.spaces_of(alloc, number)?;
    spaces.extend_from_slice(blocked.as_slice())?;
    Ok(Spaces::several(spaces))
}

/// The space of the match set of this number.
fn set_touches(alloc: Global, state: &Core, number: u64) -> Result<Spaces, NoMemory>
    ensures { IfOk result (λ v. v ≡ touched_by_set state.now number) }
{
    Ok(Spaces::several(state.sets.spaces_of(alloc, number)?))
}

/// The spaces that joined the transaction.
fn decision_touches(alloc: Global, state: &Core, x: u64) -> Result<Spaces, NoMemory>
    ensures { IfOk result (λ v. v ≡ joined_by state.now x) }
{
    Ok(Spaces::several(joined_spaces(alloc, state, x)?))
}

/// The space of the row, registration or match set of this number, or the joined spaces of the
/// transaction.
fn spaces_of_lease(alloc: Global, state: &Core, number: u64) -> Result<Vec<u64>, NoMemory>
    ensures { IfOk result (λ v. v.items ≡ touched_by_lease state.now number) }
{
    let mut spaces = state.rows.spaces_of(alloc, number)?;
    let hearing = state.registrations.spaces_of(alloc, number)?;
    spaces.extend_from_slice(hearing.as_slice())?;
    let shown = state.sets.spaces_of(alloc, number)?;
    spaces.extend_from_slice(shown.as_slice())?;
    let joined = joined_spaces(alloc, state, number)?;
    spaces.extend_from_slice(joined.as_slice())?;
    Ok(spaces)
}

/// The spaces that joined the transaction, in a vector.
fn joined_spaces(alloc: Global, state: &Core, x: u64) -> Result<Vec<u64>, NoMemory>
    ensures { IfOk result (λ v. v.items ≡ joined_by state.now x) }
{
    match transaction_of(state, x) {
        None => Ok(Vec::new(alloc)),
        Some(transaction) => spaces_of_joined(alloc, transaction.joined.as_slice()),
    }
}

fn spaces_of_joined(alloc: Global, joined: &[Joined]) -> Result<Vec<u64>, NoMemory>
    ensures { IfOk result (λ v. v.items ≡ map (λ j. j.space) joined.now) }
{
    joined.iter().map(|j| j.space).collect(alloc)
}
