//! A step that was asked for, with all that goes before it and follows from it.
ghost use Rattle.std.specs.Prelude.{◌≡◌, ◌≤◌, ◌^◌, ◌++◌, ◌∷◌, [], true, false, None, Some, OnOk, OnErr, IfOk, IfErr, IsTrue, vec_len};
ghost use Rattle.jsp_model.specs.declared.house.Why.TheVariants as why;
ghost use Rattle.jsp_model.specs.House.{Covers, OwesOnce, MayStop, WasFull, Finishes, bare, is_unasked};
ghost use Rattle.jsp_model.specs.Limits.{IsWithinLimits};
ghost use Rattle.jsp_model.specs.Touches.{touches as touched_by};
ghost use Rattle.jsp_model.specs.Steps.{next};
ghost use Rattle.jsp_machine.specs.Judging.{judged_in};
ghost use Rattle.jsp_house.specs.Making.{KeepsLog, Performs, MakesOwn, may_come, has_rows};
ghost use Rattle.jsp_house.specs.Owing.{IsDone};

use crate::choosing::choose_rows;
use crate::finishing::{finish, make_owing};
use jsp_core::{Core, LiveImage};
use jsp_machine::{Judged, judge};
use jsp_model::{Step, Stopped, Why};
use jsp_types::NoMemory;
use std::alloc::Global;

/// A step that was asked for, with its rows, and what was found out of its request.
#[derive(Drop)]
struct Own {
    step: Step,
    judged: Judged,
}

/// Quiets what the step touches, makes it, and then what follows from it by itself.
pub(crate) fn perform(
    alloc: Global,
    image: &mut LiveImage,
    debt: &mut Vec<u64>,
    step: Step,
    bound: Option<u64>,
    log: &mut Vec<Step>,
) -> Result<(), Stopped>
    requires may_come { IsTrue (may_come image.old step) }
    requires bare { bare step ≡ step }
    ensures performs { Performs image.old image.new debt.old.items debt.new.items log.old.items log.new.items step result }
    ensures ready { IsDone image.old debt.old.items (Some step) → WasFull bound (vec_len log.old) result }
    ensures keeps { KeepsLog image.old image.new bound log.old log.new }
    ensures why { IfErr result (λ e. MayStop bound (vec_len log.new) e.why) }
{
    if let Err(why) = finish(alloc, image, debt, Some(&step), bound, log) {
        return Err(Stopped { why, done: false });
    }
    perform_ready(alloc, image, debt, step, bound, log)
}

/// The same where nothing is due and all that the step touches, and all that is owed, is quiet.
pub(crate) fn perform_ready(
    alloc: Global,
    image: &mut LiveImage,
    debt: &mut Vec<u64>,
    step: Step,
    bound: Option<u64>,
    log: &mut Vec<Step>,
) -> Result<(), Stopped>
    requires may_come { IsTrue (may_come image.old step) }
    requires done { IsDone image.old debt.old.items (Some step) }
    ensures performs { Performs image.old image.new debt.old.items debt.new.items log.old.items log.new.items step result }
    ensures full { WasFull bound (vec_len log.old) result }
    ensures keeps { KeepsLog image.old image.new bound log.old log.new }
    ensures why { IfErr result (λ e. MayStop bound (vec_len log.new) e.why) }
{
    match make_own(alloc, image, debt, step, bound, log) {
        Err(why) => Err(Stopped { why, done: false }),
        Ok(()) => clear(alloc, image, debt, true, bound, log),
    }
}

/// Makes the step, with the rows that it gives.
fn make_own(
    alloc: Global,
    image: &mut LiveImage,
    debt: &mut Vec<u64>,
    step: Step,
    bound: Option<u64>,
    log: &mut Vec<Step>,
) -> Result<(), Why>
    requires may_come { IsTrue (may_come image.old step) }
    requires done { IsDone image.old debt.old.items (Some step) }
    ensures made { OnOk result (MakesOwn image.old image.new debt.old.items debt.new.items log.old.items log.new.items step) }
    ensures stays { Covers debt.new.items debt.old.items }
    ensures once { OwesOnce debt.old.items debt.new.items }
    ensures err { OnErr result ((image.new ≡ image.old) × (log.new.items ≡ log.old.items)) }
    ensures keeps { KeepsLog image.old image.new bound log.old log.new }
    ensures why { IfErr result (λ w. MayStop bound (vec_len log.new) w) }
{
    let own = with_rows(alloc, image.state(), step)?;
    make_owing(alloc, image, debt, own.step, own.judged, bound, log)
}

/// The step with the rows that its request is given. It is judged here once, for all that comes of
/// it.
fn with_rows(alloc: Global, state: &Core, step: Step) -> Result<Own, NoMemory>
    requires { IsWithinLimits state.now }
    ensures same { IfOk result (λ own. bare own.step ≡ bare step) }
    ensures rows { IfOk result (λ own. has_rows state.now own.step ≡ true) }
    ensures judged { IfOk result (λ own. own.judged ≡ judged_in state.now own.step) }
{
    match step {
        Step::Ask { session, asked, .. } => {
            let judged = judge(alloc, state, session, asked.id(), asked.ask())?;
            let rows = choose_rows(alloc, state, &judged)?;
            let step = Step::Ask {
                session,
                asked,
                rows,
            };
            Ok(Own { step, judged })
        }
        other => Ok(Own {
            step: other,
            judged: Judged::Plain,
        }),
    }
}

/// Makes what is owed and due; then nothing is owed any more.
pub(crate) fn clear(
    alloc: Global,
    image: &mut LiveImage,
    debt: &mut Vec<u64>,
    done: bool,
    bound: Option<u64>,
    log: &mut Vec<Step>,
) -> Result<(), Stopped>
    ensures finishes { Finishes image.old image.new debt.old.items debt.new.items log.old.items log.new.items result }
    ensures done { IfErr result (λ e. e.done ≡ done) }
    ensures idle { IsDone image.old debt.old.items None → IfErr result (λ e. e.why ≡ why.NoMemory) }
    ensures keeps { KeepsLog image.old image.new bound log.old log.new }
    ensures why { IfErr result (λ e. MayStop bound (vec_len log.new) e.why) }
{
    match finish::<Step>(alloc, image, debt, None, bound, log) {
        Err(why) => Err(Stopped { why, done }),
        Ok(()) => {
            debt.clear();
            Ok(())
        }
    }
}
