//! Which requests a step stirs, of those that wait for a conflict to end: whoever asks for a row
//! that the step may let go or take away.
ghost use Rattle.std.specs.Prelude.{◌≡◌, ◌==◌, ◌&&◌, ◌||◌, ℕ, true, false, not, map, find, option_map, option_copied, IfOk, IsTrue, None};
ghost use Rattle.std.specs.List.{list_all};
ghost use Rattle.std.specs.Option.{option_map_or};
ghost use Rattle.jsp_model.specs.declared.state.Row.{Row as OfRow};
ghost use Rattle.jsp_model.specs.Lookup.{contains as has, named as number_named};
ghost use Rattle.jsp_model.specs.Limits.{are_rising};
ghost use Rattle.jsp_sight.specs.Rows.{unmarked};
ghost use Rattle.jsp_wait.specs.Offered.{waits_for};
ghost use Rattle.jsp_core.specs.Offering.{is_offered};
ghost use Rattle.jsp_quiet.specs.Freeing.{ends, ask_ends, frees_any as lets_any_go, ends_any as may_end_any, ends_conflict};
ghost use Rattle.jsp_model.specs.declared.state.State.{State};
ghost use Rattle.jsp_quiet.specs.Waking.{is_marked};
ghost use Rattle.jsp_machine.specs.Unmarking.{is_unmarked, cancelled, ask_cancelled, is_leased, is_touched_by};
ghost use Rattle.jsp_machine.specs.Stirring.{are_named_for};

use crate::offering::{
    Unmarking, are_many, cancelled_by, may_free_any, unmarked_by, unmarked_everywhere,
};
use jsp_core::{Core, Offers};
use jsp_model::{Row, Step};
use jsp_state::named;
use jsp_types::NoMemory;
use jsp_wire::Ask;
use std::alloc::Global;

/// Stirs the requests that wait for a conflict to end and ask for a row that a step to come may let
/// go or take away. Where it can't be said which rows these are, all are stirred.
pub(crate) fn stir(alloc: Global, state: &Core, stirred: &mut Offers, step: &Step, is_steady: bool)
    requires { IsTrue (are_rising 0 state.now.next_number (map (λ r. r.number) state.now.rows)) }
    ensures any { may_end_any state.now step.now ≡ true → (is_steady && lets_any_go state.now step.now) ≡ false → stirred.new ≡ None }
    ensures stirred { list_all (λ r. not (ends_conflict state.now step.now r) || are_named_for state.now stirred.new r) state.now.rows ≡ true }
    ensures keeps { (n : ℕ) → is_offered stirred.old n ≡ true → is_offered stirred.new n ≡ true }
{
    if ends_any(state, step, is_steady) {
        stirred.open();
    } else if !state.blocked.are_all_patient() {
        stir_let_go(alloc, state, stirred, step);
    }
}

/// Whether a step may end any conflict: a space is reset, or, where it isn't known that the state
/// is steady, a class is declared that wasn't before.
fn ends_any(state: &Core, step: &Step, is_steady: bool) -> bool
    ensures { may_end_any state.now step.now ≡ true → (is_steady && lets_any_go state.now step.now) ≡ false → result ≡ true }
{
    resets(step) || may_free_any(state, step, is_steady)
}

fn resets(step: &Step) -> bool
    ensures { (st : State) → may_end_any st step.now ≡ (result || lets_any_go st step.now) }
{
    match step {
        Step::Ask { asked, .. } => matches!(asked.ask(), Ask::Reset { .. }),
        _ => false,
    }
}

fn stir_let_go(alloc: Global, state: &Core, stirred: &mut Offers, step: &Step)
    requires { IsTrue (are_rising 0 state.now.next_number (map (λ r. r.number) state.now.rows)) }
    ensures stirred { list_all (λ r. not (ends_conflict state.now step.now r) || are_named_for state.now stirred.new r) state.now.rows ≡ true }
    ensures keeps { (n : ℕ) → is_offered stirred.old n ≡ true → is_offered stirred.new n ≡ true }
{
    stir_touched(alloc, state, stirred, cancelled_by(step));
    stir_if_unmarked(alloc, state, stirred, unmarked_by(state, step));
    stir_if_ended(alloc, state, stirred, ended_by(step));
}

/// Stirs whoever asks for a row of one of these leases, or for one that bears marks of the
/// transactions that are among them.
fn stir_touched(alloc: Global, state: &Core, stirred: &mut Offers, leases: &[i64])
    requires { IsTrue (are_rising 0 state.now.next_number (map (λ r. r.number) state.now.rows)) }
    ensures stirred { list_all (λ r. not (is_touched_by leases.now r) || are_named_for state.now stirred.new r) state.now.rows ≡ true }
    ensures keeps { (n : ℕ) → is_offered stirred.old n ≡ true → is_offered stirred.new n ≡ true }
{
    'leases: for lease in leases {
        stir_for_lease(alloc, state, stirred, lease);
    }
}

fn stir_for_lease(alloc: Global, state: &Core, stirred: &mut Offers, lease: &i64)
    requires { IsTrue (are_rising 0 state.now.next_number (map (λ r. r.number) state.now.rows)) }
    ensures stirred { list_all (λ r. not (is_marked (number_named lease.now) r || r.number == number_named lease.now) || are_named_for state.now stirred.new r) state.now.rows ≡ true }
    ensures keeps { (n : ℕ) → is_offered stirred.old n ≡ true → is_offered stirred.new n ≡ true }
{
    let number = number_of(lease);
    stir_unmarked(alloc, state, stirred, unmarked_everywhere(number));
    stir_for(alloc, state, stirred, number);
}

fn number_of(lease: &i64) -> u64
    ensures { result ≡ number_named lease.now }
{
    named(*lease)
}

fn stir_if_unmarked(alloc: Global, state: &Core, stirred: &mut Offers, unmarking: Option<Unmarking>)
    requires { IsTrue (are_rising 0 state.now.next_number (map (λ r. r.number) state.now.rows)) }
    ensures stirred { list_all (λ r. not (option_map_or (λ u. is_unmarked u r) unmarking false) || are_named_for state.now stirred.new r) state.now.rows ≡ true }
    ensures keeps { (n : ℕ) → is_offered stirred.old n ≡ true → is_offered stirred.new n ≡ true }
{
    if let Some(unmarking) = unmarking {
        stir_unmarked(alloc, state, stirred, unmarking);
    }
}

fn stir_if_ended(alloc: Global, state: &Core, stirred: &mut Offers, number: Option<u64>)
    requires { IsTrue (are_rising 0 state.now.next_number (map (λ r. r.number) state.now.rows)) }
    ensures stirred { list_all (λ r. not (option_map_or (λ n. r.number == n) number false) || are_named_for state.now stirred.new r) state.now.rows ≡ true }
    ensures keeps { (n : ℕ) → is_offered stirred.old n ≡ true → is_offered stirred.new n ≡ true }
{
    if let Some(number) = number {
        stir_for(alloc, state, stirred, number);
    }
}

/// The number of the row whose lease a step may end, but for those that it cancels together.
fn ended_by(step: &Step) -> Option<u64>
    ensures { (r : OfRow) → ends step.now r ≡ (is_leased (cancelled step.now) r || option_map_or (λ n. r.number == n) result false) }
{
    match step {
        Step::Ask { asked, .. } => ended_by_request(asked.ask()),
        Step::Due { item } => Some(item.number),
        _ => None,
    }
}

fn ended_by_request(ask: &Ask) -> Option<u64>
    ensures { (r : OfRow) → ask_ends ask.now r ≡ (is_leased (ask_cancelled ask.now) r || option_map_or (λ n. r.number == n) result false) }
{
    match ask {
        Ask::Cancel { lease } => Some(named(*lease)),
        _ => None,
    }
}

/// Stirs whoever asks for one of the rows that may be let go.
fn stir_unmarked(alloc: Global, state: &Core, stirred: &mut Offers, unmarking: Unmarking)
    requires { IsTrue (are_rising 0 state.now.next_number (map (λ r. r.number) state.now.rows)) }
    ensures stirred { list_all (λ r. not (is_unmarked unmarking r) || are_named_for state.now stirred.new r) state.now.rows ≡ true }
    ensures keeps { (n : ℕ) → is_offered stirred.old n ≡ true → is_offered stirred.new n ≡ true }
{
    if are_many(state, unmarking) {
        stirred.open();
        return;
    }
    match numbers_held(alloc, state, unmarking) {
        Ok(numbers) => stir_for_all(alloc, state, stirred, numbers.as_slice()),
        Err(_) => stirred.open(),
    }
}

fn numbers_held(alloc: Global, state: &Core, unmarking: Unmarking) -> Result<Vec<u64>, NoMemory>
    ensures { IfOk result (λ v. list_all (λ r. not (is_unmarked unmarking r) || has v.items r.number) state.now.rows ≡ true) }
{
    state
        .rows
        .held_by(alloc, unmarking.transaction, unmarking.space)
}

/// Stirs whoever asks for one of the rows of these numbers.
fn stir_for_all(alloc: Global, state: &Core, stirred: &mut Offers, numbers: &[u64])
    requires { IsTrue (are_rising 0 state.now.next_number (map (λ r. r.number) state.now.rows)) }
    ensures stirred { list_all (λ r. not (has numbers.now r.number) || are_named_for state.now stirred.new r) state.now.rows ≡ true }
    ensures keeps { (n : ℕ) → is_offered stirred.old n ≡ true → is_offered stirred.new n ≡ true }
{
    'numbers: for number in numbers {
        stir_for(alloc, state, stirred, *number);
    }
}

/// Stirs whoever asks for the row of a number.
fn stir_for(alloc: Global, state: &Core, stirred: &mut Offers, number: u64)
    requires { IsTrue (are_rising 0 state.now.next_number (map (λ r. r.number) state.now.rows)) }
    ensures stirred { list_all (λ r. not (r.number == number) || are_named_for state.now stirred.new r) state.now.rows ≡ true }
    ensures keeps { (n : ℕ) → is_offered stirred.old n ≡ true → is_offered stirred.new n ≡ true }
{
    let Some(row) = row_of(state, number) else {
        return;
    };
    match waiting_for(alloc, state, row) {
        Ok(requests) => stirred.add_all(requests.as_slice()),
        Err(_) => stirred.open(),
    }
}

fn row_of(state: &Core, number: u64) -> Option<&Row>
    ensures { option_map unmarked (option_copied result) ≡ option_map unmarked (find (λ r. r.number == number) state.now.rows) }
{
    state.rows.get(number)
}

fn waiting_for(alloc: Global, state: &Core, row: &Row) -> Result<Vec<u64>, NoMemory>
    ensures { IfOk result (λ v. list_all (λ b. not (waits_for state.now.classes row.now b) || has v.items b.number) state.now.blocked ≡ true) }
{
    state.blocked.waiting_for(alloc, &state.classes, row)
}
