//! What a step puts on offer to the requests that wait.
ghost use Rattle.std.specs.Prelude.{◌≡◌, ◌≢◌, ◌&&◌, ◌||◌, ℕ, [], true, false, not, None};
ghost use Rattle.std.specs.List.{list_all};
ghost use Rattle.std.specs.Option.{option_map_or};
ghost use Rattle.jsp_core.specs.Offering.{is_offered};
ghost use Rattle.jsp_model.specs.declared.state.Row.{Row};
ghost use Rattle.jsp_model.specs.declared.step.Step.TheVariants as steps;
ghost use Rattle.jsp_quiet.specs.Freeing.{frees, ask_frees, frees_any as lets_any_go, ask_frees_any};
ghost use Rattle.jsp_types.specs.Classes.{is_declared};
ghost use Rattle.jsp_model.specs.Lookup.{named as number_named};
ghost use Rattle.jsp_quiet.specs.Waking.{is_marked};
ghost use Rattle.jsp_machine.specs.Unmarking.{is_unmarked, cancelled, ask_cancelled, is_marked_by};

use jsp_core::{Core, Offers};
use jsp_model::Step;
use jsp_state::named;
use jsp_transactions::would_vote_not_changed;
use jsp_wire::Ask;
use std::alloc::Global;

/// So many rows are named one by one, whoever waits.
const FEW_ROWS: usize = 64;

/// The rows that may be let go: those that bear a mark of a transaction, in a space or, where none
/// is named, in all.
#[derive(Clone, Copy)]
pub(crate) struct Unmarking {
    pub(crate) transaction: u64,
    pub(crate) space: Option<u64>,
}

/// Offers the rows that a step to come may let go: those that bear marks of the transaction whose
/// marks it takes away. Where it can't be said which these are, any row is on offer. Where nobody
/// waits, none need be.
pub(crate) fn offer_let_go(
    alloc: Global,
    state: &Core,
    offers: &mut Offers,
    step: &Step,
    is_steady: bool,
)
    ensures any { lets_any_go state.now step.now ≡ true → is_steady ≡ false → offers.new ≡ None }
    ensures freed { state.now.blocked ≢ [] → list_all (λ r. not (frees state.now step.now r) || is_offered offers.new r.number) state.now.rows ≡ true }
    ensures keeps { (n : ℕ) → is_offered offers.old n ≡ true → is_offered offers.new n ≡ true }
{
    if may_free_any(state, step, is_steady) {
        offers.open();
    } else if !state.blocked.is_known_empty() {
        offer_marked(alloc, state, offers, cancelled_by(step));
        offer_if_held(alloc, state, offers, unmarked_by(state, step));
    }
}

fn offer_if_held(alloc: Global, state: &Core, offers: &mut Offers, unmarking: Option<Unmarking>)
    ensures held { list_all (λ r. not (option_map_or (λ u. is_unmarked u r) unmarking false) || is_offered offers.new r.number) state.now.rows ≡ true }
    ensures keeps { (n : ℕ) → is_offered offers.old n ≡ true → is_offered offers.new n ≡ true }
{
    if let Some(unmarking) = unmarking {
        offer_held(alloc, state, offers, unmarking);
    }
}

/// Offers the rows that bear marks of the transactions that are among these leases.
fn offer_marked(alloc: Global, state: &Core, offers: &mut Offers, leases: &[i64])
    ensures held { list_all (λ r. not (is_marked_by leases.now r) || is_offered offers.new r.number) state.now.rows ≡ true }
    ensures keeps { (n : ℕ) → is_offered offers.old n ≡ true → is_offered offers.new n ≡ true }
{
    'leases: for lease in leases {
        offer_for_lease(alloc, state, offers, lease);
    }
}

fn offer_for_lease(alloc: Global, state: &Core, offers: &mut Offers, lease: &i64)
    ensures held { list_all (λ r. not (is_marked (number_named lease.now) r) || is_offered offers.new r.number) state.now.rows ≡ true }
    ensures keeps { (n : ℕ) → is_offered offers.old n ≡ true → is_offered offers.new n ≡ true }
{
    offer_held(alloc, state, offers, unmarked_everywhere(named(*lease)));
}

/// The leases that a step cancels together.
pub(crate) fn cancelled_by(step: &Step) -> &[i64]
    ensures { result.now ≡ cancelled step.now }
{
    match step {
        Step::Ask { asked, .. } => cancelled_by_request(asked.ask()),
        _ => &[],
    }
}

fn cancelled_by_request(ask: &Ask) -> &[i64]
    ensures { result.now ≡ ask_cancelled ask.now }
{
    match ask {
        Ask::CancelAll { leases } => leases.as_slice(),
        _ => &[],
    }
}

/// Whether so many rows may be let go that it takes longer to name each than to look, for each
/// request that waits, whether any is for it, and so again whenever one is answered.
pub(crate) fn are_many(state: &Core, unmarking: Unmarking) -> bool {
    let rows = state
        .rows
        .held_count(unmarking.transaction, unmarking.space);
    let waiting = state.blocked.most_waiting();
    FEW_ROWS < rows && waiting.saturating_mul(waiting) < rows
}

/// Offers the rows that may be let go.
fn offer_held(alloc: Global, state: &Core, offers: &mut Offers, unmarking: Unmarking)
    ensures held { list_all (λ r. not (is_unmarked unmarking r) || is_offered offers.new r.number) state.now.rows ≡ true }
    ensures keeps { (n : ℕ) → is_offered offers.old n ≡ true → is_offered offers.new n ≡ true }
{
    if are_many(state, unmarking) {
        offers.open();
        return;
    }
    match state
        .rows
        .held_by(alloc, unmarking.transaction, unmarking.space)
    {
        Ok(numbers) => offers.add_all(numbers.as_slice()),
        Err(_) => offers.open(),
    }
}

/// Whether a step may let any row go, where it isn't known that the state is steady.
pub(crate) fn may_free_any(state: &Core, step: &Step, is_steady: bool) -> bool
    ensures { result ≡ (not is_steady && lets_any_go state.now step.now) }
{
    !is_steady && frees_any(state, step)
}

/// Whether a step may let any row go: a class is declared that wasn't before.
fn frees_any(state: &Core, step: &Step) -> bool
    ensures { result ≡ lets_any_go state.now step.now }
{
    match step {
        Step::Ask { asked, .. } => asks_to_free_any(state, asked.ask()),
        _ => false,
    }
}

fn asks_to_free_any(state: &Core, ask: &Ask) -> bool
    ensures { result ≡ ask_frees_any state.now ask.now }
{
    match ask {
        Ask::Declare(declare) => is_undeclared(state, declare.class.as_str()),
        _ => false,
    }
}

fn is_undeclared(state: &Core, class: &str) -> bool
    ensures { result ≡ not (is_declared state.now.classes class.now) }
{
    state.classes.line_of(class).is_none()
}

/// The rows that a step may let go, if it may let some go, but for what it cancels together.
pub(crate) fn unmarked_by(state: &Core, step: &Step) -> Option<Unmarking>
    ensures { (r : Row) → frees state.now step.now r ≡ (is_marked_by (cancelled step.now) r || option_map_or (λ u. is_unmarked u r) result false) }
{
    match step {
        Step::Ask { asked, .. } => unmarked_by_request(asked.ask()),
        Step::Due { item } => Some(unmarked_everywhere(item.number)),
        Step::Vote { transaction, space } => unmarked_by_vote(state, *transaction, *space),
        Step::Decide { transaction, .. } => Some(unmarked_everywhere(*transaction)),
        _ => None,
    }
}

/// A vote that nothing is changed lets go what was read in its own space, and no other vote lets
/// any row go.
fn unmarked_by_vote(state: &Core, transaction: u64, space: u64) -> Option<Unmarking>
    ensures { (r : Row) → frees state.now (steps.Vote transaction space) r ≡ option_map_or (λ u. is_unmarked u r) result false }
{
    if !would_vote_not_changed(state, transaction, space) {
        return None;
    }
    Some(Unmarking {
        transaction,
        space: Some(space),
    })
}

fn unmarked_by_request(ask: &Ask) -> Option<Unmarking>
    ensures { (r : Row) → ask_frees ask.now r ≡ (is_marked_by (ask_cancelled ask.now) r || option_map_or (λ u. is_unmarked u r) result false) }
{
    match ask {
        Ask::Cancel { lease } => Some(unmarked_everywhere(named(*lease))),
        Ask::Abort { txn } => Some(unmarked_everywhere(named(*txn))),
        _ => None,
    }
}

pub(crate) fn unmarked_everywhere(transaction: u64) -> Unmarking
    ensures transaction { result.transaction ≡ transaction }
    ensures space { result.space ≡ None }
{
    Unmarking {
        transaction,
        space: None,
    }
}
