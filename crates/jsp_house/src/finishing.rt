//! The steps that nobody has to ask for, also before what is to come.
ghost use Rattle.std.specs.Prelude.{◌≡◌, ℕ, List, ◌++◌, ◌∷◌, [], OnOk, OnErr, Some, IfOk, IfErr, IfSome, IfNone, IsTrue, IsFalse, option_copied, option_map, vec_len};
ghost use Rattle.jsp_model.specs.declared.house.Why.TheVariants as why;
ghost use Rattle.jsp_model.specs.House.{Covers, OwesOnce, Goes, MayStop, comes_in_turn, is_unasked};
ghost use Rattle.jsp_model.specs.Due.{due as due_now};
ghost use Rattle.jsp_model.specs.Quiet.{are_quiet};
ghost use Rattle.jsp_model.specs.Touches.{touches as touched_by};
ghost use Rattle.jsp_model.specs.Steps.{is_legal, next};
ghost use Rattle.jsp_quiet.specs.Quieting.{quiets};
ghost use Rattle.jsp_machine.specs.Judging.{judged_in};
ghost use Rattle.jsp_house.specs.Making.{KeepsLog};
ghost use Rattle.jsp_house.specs.Owing.{IsDone};

use crate::applying::apply_touched;
use crate::making::make;
use crate::owing::owe;
use crate::quieting::quieting_of;
use crate::to_come::Coming;
use jsp_core::LiveImage;
use jsp_lease::Item;
use jsp_machine::{Judged, due, touches};
use jsp_model::{Step, Why};
use jsp_types::NoMemory;
use std::alloc::Global;

/// Makes the steps that nobody has to ask for, until each space that is owed, or that the step to
/// come touches, is quiet and nothing is due. Each space that they touch is owed from then on, so
/// the debt says of all of them that they are quiet, or what is left where the call is stopped.
/// Where all this is so already, no step is made.
pub(crate) fn finish<T: Coming>(
    alloc: Global,
    image: &mut LiveImage,
    debt: &mut Vec<u64>,
    to_come: Option<&T>,
    bound: Option<u64>,
    log: &mut Vec<Step>,
) -> Result<(), Why>
    ensures goes { Goes image.old image.new debt.old.items debt.new.items log.old.items log.new.items }
    ensures done { OnOk result (IsDone image.new debt.new.items (option_map T.step (option_copied to_come.entry))) }
    ensures idle { IsDone image.old debt.old.items (option_map T.step (option_copied to_come.entry)) → (vec_len log.new ≡ vec_len log.old) × IfErr result (λ w. w ≡ why.NoMemory) }
    ensures keeps { KeepsLog image.old image.new bound log.old log.new }
    ensures why { IfErr result (λ w. MayStop bound (vec_len log.new) w) }
{
    'steps: while let Some(step) = next_step(alloc, image, debt.as_slice(), to_come)? {
        make_owing(alloc, image, debt, step, Judged::Plain, bound, log)?;
    }
    Ok(())
}

/// Makes a step, and owes it to the spaces that it touches.
pub(crate) fn make_owing(
    alloc: Global,
    image: &mut LiveImage,
    debt: &mut Vec<u64>,
    step: Step,
    judged: Judged,
    bound: Option<u64>,
    log: &mut Vec<Step>,
) -> Result<(), Why>
    requires legal { IsTrue (is_legal image.old step) }
    requires judged { judged ≡ judged_in image.old step }
    ensures made { OnOk result (image.new ≡ next image.old step) }
    ensures log { OnOk result (log.new.items ≡ log.old.items ++ step ∷ []) }
    ensures owes { OnOk result (Covers debt.new.items (touched_by image.old step)) }
    ensures stays { Covers debt.new.items debt.old.items }
    ensures once { OwesOnce debt.old.items debt.new.items }
    ensures err { OnErr result ((image.new ≡ image.old) × (log.new.items ≡ log.old.items)) }
    ensures keeps { KeepsLog image.old image.new bound log.old log.new }
    ensures why { IfErr result (λ w. MayStop bound (vec_len log.new) w) }
{
    let spaces = touches(alloc, image, &step)?;
    owe(debt, spaces.as_slice())?;
    make(alloc, image, step, judged, bound, log)
}

/// The next step that nobody has to ask for: one that quiets a space that is owed; else what is
/// due, once the spaces that it touches are quiet; else one that quiets a space that the step to
/// come touches.
fn next_step<T: Coming>(
    alloc: Global,
    image: &mut LiveImage,
    debt: &[u64],
    to_come: Option<&T>,
) -> Result<Option<Step>, NoMemory>
    ensures same { image.new ≡ image.old }
    ensures legal { IfOk result (λ o. IfSome o (λ s. IsTrue (is_legal image.old s))) }
    ensures unasked { IfOk result (λ o. IfSome o (λ s. IsTrue (is_unasked s))) }
    ensures turn { IfOk result (λ o. IfSome o (λ s. IsTrue (comes_in_turn image.old debt.now s))) }
    ensures some { IfOk result (λ o. IfSome o (λ s. IsDone image.old debt.now (option_map T.step (option_copied to_come.entry)) → ⊥)) }
    ensures none { IfOk result (λ o. IfNone o (IsDone image.old debt.now (option_map T.step (option_copied to_come.entry)))) }
{
    apply_touched(alloc, image, debt, to_come);
    let state = image.state();
    if let Some(step) = quieting_of(alloc, image, debt)? {
        return Ok(Some(step));
    }
    if let Some(item) = due(state) {
        return Ok(Some(ending(alloc, image, item)?));
    }
    match to_come {
        None => Ok(None),
        Some(coming) => quieting_for(alloc, image, coming),
    }
}

/// What is due, or a step that quiets a space that this touches.
fn ending(alloc: Global, image: &LiveImage, item: Item) -> Result<Step, NoMemory>
    requires { due_now image.now ≡ Some item }
    ensures legal { IfOk result (λ s. IsTrue (is_legal image.now s)) }
    ensures turn { IfOk result (λ s. (owed : List ℕ) → IsTrue (are_quiet image.now owed) → IsTrue (comes_in_turn image.now owed s)) }
    ensures unasked { IfOk result (λ s. IsTrue (is_unasked s)) }
{
    let end = Step::Due { item };
    match quieting_for(alloc, image, &end)? {
        None => Ok(end),
        Some(step) => Ok(step),
    }
}

/// A step that quiets a space that what is to come touches.
fn quieting_for<T: Coming>(
    alloc: Global,
    image: &LiveImage,
    coming: &T,
) -> Result<Option<Step>, NoMemory>
    ensures legal { IfOk result (λ o. IfSome o (λ s. IsTrue (is_legal image.now s))) }
    ensures quiets { IfOk result (λ o. IfSome o (λ s. IsTrue (quiets s))) }
    ensures turn { IfOk result (λ o. IfSome o (λ s. (owed : List ℕ) → IsTrue (comes_in_turn image.now owed s))) }
    ensures some { IfOk result (λ o. IfSome o (λ s. IsFalse (are_quiet image.now (touched_by image.now (T.step coming.now))))) }
    ensures none { IfOk result (λ o. IfNone o (IsTrue (are_quiet image.now (touched_by image.now (T.step coming.now))))) }
{
    let spaces = coming.touches(alloc, image)?;
    quieting_of(alloc, image, spaces.as_slice())
}
