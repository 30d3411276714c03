//! What a space that isn't quiet owes next, and which of several spaces comes first.
ghost use Rattle.std.specs.Prelude.{◌≡◌, ℕ, List, ◌==◌, ◌&&◌, ◌||◌, not, length, find, Some, None, IfOk, IfSome, IfNone, IsTrue, IsFalse};
ghost use Rattle.std.specs.List.{list_all, list_any};
ghost use Rattle.jsp_model.specs.Quiet.{are_quiet, is_quiet, must_wait};
ghost use Rattle.jsp_model.specs.Steps.{is_legal};
ghost use Rattle.jsp_model.specs.House.{comes_in_turn};
ghost use Rattle.jsp_quiet.specs.Quieting.{quiets};

use crate::unquiet::count_spaces;
use jsp_core::{Core, LiveImage};
use jsp_machine::choose;
use jsp_model::{Blocked, Step};
use jsp_state::{contains, first_answerable, first_grantable};
use jsp_types::NoMemory;
use std::alloc::Global;

/// A step that quiets one of these spaces, the first one in the configured order that isn't quiet.
pub(crate) fn quieting_of(
    alloc: Global,
    image: &LiveImage,
    spaces: &[u64],
) -> Result<Option<Step>, NoMemory>
    ensures legal { IfOk result (λ o. IfSome o (λ s. IsTrue (is_legal image.now s))) }
    ensures quiets { IfOk result (λ o. IfSome o (λ s. IsTrue (quiets s))) }
    ensures turn { IfOk result (λ o. IfSome o (λ s. (owed : List ℕ) → IsTrue (comes_in_turn image.now owed s))) }
    ensures some { IfOk result (λ o. IfSome o (λ s. IsFalse (are_quiet image.now spaces.now))) }
    ensures none { IfOk result (λ o. IfNone o (IsTrue (are_quiet image.now spaces.now))) }
{
    let count = count_spaces(image);
    'places: for space in 0..count {
        if contains(spaces, space) {
            if let Some(step) = quieting_step(alloc, image, space)? {
                return Ok(Some(step));
            }
        }
    }
    Ok(None)
}

/// The next step that makes a space quieter, or nothing where it is quiet: a grant to the request
/// that came first of those with an available row; else the answer that there is nothing, in
/// arrival order; else the next event of the registration with the least number, of those that have
/// heard of one. The order is this profile's own.
fn quieting_step(alloc: Global, image: &LiveImage, space: u64) -> Result<Option<Step>, NoMemory>
    ensures legal { IfOk result (λ o. IfSome o (λ s. IsTrue (is_legal image.now s))) }
    ensures quiets { IfOk result (λ o. IfSome o (λ s. IsTrue (quiets s))) }
    ensures turn { IfOk result (λ o. IfSome o (λ s. (owed : List ℕ) → IsTrue (comes_in_turn image.now owed s))) }
    ensures some { IfOk result (λ o. IfSome o (λ s. IsFalse (is_quiet image.now space))) }
    ensures none { IfOk result (λ o. IfNone o (IsTrue (is_quiet image.now space))) }
{
    match first_answerable(image, space) {
        Some(waiting) => Ok(Some(answering_step(alloc, image, space, waiting)?)),
        None => Ok(telling_step(image, space)),
    }
}

/// A grant, where a request has an available row; else the answer to the first that has to wait no
/// longer.
fn answering_step(
    alloc: Global,
    image: &LiveImage,
    space: u64,
    waiting: &Blocked,
) -> Result<Step, NoMemory>
    requires { find (λ b. b.space == space && not (must_wait image.now b)) image.now.blocked ≡ Some waiting.now }
    ensures legal { IfOk result (λ s. IsTrue (is_legal image.now s)) }
    ensures quiets { IfOk result (λ s. IsTrue (quiets s)) }
    ensures turn { IfOk result (λ s. (owed : List ℕ) → IsTrue (comes_in_turn image.now owed s)) }
{
    let state = image.state();
    match first_grantable(image, space) {
        Some(blocked) => {
            let rows = choose(alloc, state, blocked)?;
            Ok(Step::Grant {
                blocked: blocked.number,
                rows,
            })
        }
        None => Ok(Step::Empty {
            blocked: waiting.number,
        }),
    }
}

/// The next event, where all that wait have to.
fn telling_step(image: &LiveImage, space: u64) -> Option<Step>
    requires { find (λ b. b.space == space && not (must_wait image.now b)) image.now.blocked ≡ None }
    ensures legal { IfSome result (λ s. IsTrue (is_legal image.now s)) }
    ensures quiets { IfSome result (λ s. IsTrue (quiets s)) }
    ensures turn { IfSome result (λ s. (owed : List ℕ) → IsTrue (comes_in_turn image.now owed s)) }
    ensures some { IfSome result (λ s. IsFalse (is_quiet image.now space)) }
    ensures none { IfNone result (IsTrue (is_quiet image.now space)) }
{
    let state = image.state();
    match next_owed(state, space) {
        None => None,
        Some(registration) => Some(Step::Tell { registration }),
    }
}

/// The number of a registration of the space that is owed an event.
fn next_owed(state: &Core, space: u64) -> Option<u64>
    ensures some { IfSome result (λ n. IsTrue (list_any (λ r. r.number == n && (r.space == space && not (length r.owed == 0))) state.now.registrations)) }
    ensures none { IfNone result (IsTrue (list_all (λ r. not (r.space == space) || length r.owed == 0) state.now.registrations)) }
{
    state.registrations.next_owed(space)
}
