//! Making steps and entering them in the log.
ghost use Rattle.std.specs.Prelude.{◌≡◌, ◌<◌, ◌≤◌, ◌+◌, ◌-◌, ◌++◌, ◌∷◌, [], OnOk, OnErr, IfErr, IsTrue, length, vec_len, vec_capacity};
ghost use Rattle.jsp_model.specs.House.{MayStop, is_full as reaches};
ghost use Rattle.jsp_model.specs.Steps.{is_legal, next};
ghost use Rattle.jsp_machine.specs.Judging.{judged_in};
ghost use Rattle.jsp_house.specs.Making.{KeepsLog};

use jsp_core::{Core, LiveImage};
use jsp_machine::{Judged, apply_judged};
use jsp_model::{Step, Why};
use jsp_table::make_room;
use jsp_types::NoMemory;
use std::alloc::Global;

/// Makes a legal step, whose request was judged so, and enters it in the log, whole or not at all.
pub(crate) fn make(
    alloc: Global,
    image: &mut LiveImage,
    step: Step,
    judged: Judged,
    bound: Option<u64>,
    log: &mut Vec<Step>,
) -> Result<(), Why>
    requires legal { IsTrue (is_legal image.old step) }
    requires judged { judged ≡ judged_in image.old step }
    ensures made { OnOk result (image.new ≡ next image.old step) }
    ensures log { OnOk result (log.new.items ≡ log.old.items ++ step ∷ []) }
    ensures err { OnErr result ((image.new ≡ image.old) × (log.new.items ≡ log.old.items)) }
    ensures keeps { KeepsLog image.old image.new bound log.old log.new }
    ensures why { IfErr result (λ w. MayStop bound (vec_len log.new) w) }
{
    if is_full(log, bound) {
        return Err(Why::EraFull);
    }
    make_within(alloc, image, step, judged, log)?;
    Ok(())
}

/// Whether the log has reached its bound.
pub(crate) fn is_full(log: &Vec<Step>, bound: Option<u64>) -> bool
    ensures { result ≡ reaches bound (vec_len log.now) }
{
    match bound {
        None => false,
        Some(most) => most <= log.len() as u64,
    }
}

/// The same where the log isn't full.
fn make_within(
    alloc: Global,
    image: &mut LiveImage,
    step: Step,
    judged: Judged,
    log: &mut Vec<Step>,
) -> Result<(), NoMemory>
    requires legal { IsTrue (is_legal image.old step) }
    requires judged { judged ≡ judged_in image.old step }
    ensures made { OnOk result (image.new ≡ next image.old step) }
    ensures log { OnOk result (log.new.items ≡ log.old.items ++ step ∷ []) }
    ensures err { OnErr result ((image.new ≡ image.old) × (log.new.items ≡ log.old.items)) }
    ensures room { OnOk result (length image.old.sessions < vec_capacity log.new - vec_len log.new) }
    ensures len { OnOk result (vec_len log.new ≡ vec_len log.old + 1) }
    ensures spare { OnErr result (vec_capacity log.old - vec_len log.old ≤ vec_capacity log.new - vec_len log.new) }
    ensures same { OnErr result (vec_len log.new ≡ vec_len log.old) }
{
    reserve_places(image.state(), log)?;
    apply_judged(alloc, image, &step, judged)?;
    enter(log, step);
    Ok(())
}

/// Makes room in the log for a step, and for a closing of each session that is open after it: of
/// those that are open now, and of one that it may open.
pub(crate) fn reserve_places(state: &Core, log: &mut Vec<Step>) -> Result<(), NoMemory>
    ensures items { log.new.items ≡ log.old.items }
    ensures len { vec_len log.new ≡ vec_len log.old }
    ensures capacity { vec_capacity log.old ≤ vec_capacity log.new }
    ensures ok { OnOk result (vec_len log.new + (length state.now.sessions + 2) ≤ vec_capacity log.new) }
{
    make_room(log, state.sessions.len() + 2)
}

/// Enters a step in the log, which has room for it.
pub(crate) fn enter(log: &mut Vec<Step>, step: Step)
    requires { vec_len log.old < vec_capacity log.old }
    ensures items { log.new.items ≡ log.old.items ++ step ∷ [] }
    ensures len { vec_len log.new ≡ vec_len log.old + 1 }
    ensures capacity { vec_capacity log.old ≤ vec_capacity log.new }
{
    log.push(step).unwrap();
}
