//! Handing out answers, and closing sessions.
ghost use Rattle.std.specs.Prelude.{◌≡◌, ◌≤◌, ◌<◌, ◌+◌, ◌-◌, [], ◌∷◌, false, IfOk, IfErr, OnErr, OnOk, length, take, min, vec_len, vec_capacity};
ghost use Rattle.jsp_model.specs.declared.step.Step.TheVariants as step;
ghost use Rattle.jsp_model.specs.House.{Makes, MayStop, KeepsRoom, handed_out, shuts, next_waiting as waits_next};
ghost use Rattle.jsp_model.specs.Outboxes.{outbox_of};
ghost use Rattle.jsp_house.specs.Making.{KeepsLog};

use crate::making::{enter, is_full, reserve_places};
use jsp_core::{Core, LiveImage};
use jsp_machine::{hand_out, is_open, shut, waiting};
use jsp_model::{Step, Stopped, Why};
use jsp_reply::Said;
use jsp_types::NoMemory;
use std::alloc::Global;

/// Hands out the next answers of a session, at most so many, in one step, or in none where there
/// are none.
pub(crate) fn answer(
    alloc: Global,
    image: &mut LiveImage,
    session: u64,
    most: u64,
    bound: Option<u64>,
    log: &mut Vec<Step>,
) -> Result<Vec<Said>, Stopped>
    ensures answers { IfOk result (λ v. v.items ≡ take most (outbox_of image.old session)) }
    ensures steps { IfOk result (λ v. Makes image.old image.new log.old.items log.new.items (handed_out session (length v.items))) }
    ensures err { OnErr result ((image.new ≡ image.old) × (log.new.items ≡ log.old.items)) }
    ensures not_done { IfErr result (λ e. e.done ≡ false) }
    ensures keeps { KeepsLog image.old image.new bound log.old log.new }
    ensures why { IfErr result (λ e. MayStop bound (vec_len log.new) e.why) }
{
    let count = most.min(waiting(image.state(), session));
    if count == 0 {
        return Ok(Vec::new(alloc));
    }
    match answer_some(alloc, image, session, count, bound, log) {
        Ok(answers) => Ok(answers),
        Err(why) => Err(Stopped { why, done: false }),
    }
}

/// Hands out so many answers of those that wait, and enters the step in the log, whole or not at
/// all.
fn answer_some(
    alloc: Global,
    image: &mut LiveImage,
    session: u64,
    count: u64,
    bound: Option<u64>,
    log: &mut Vec<Step>,
) -> Result<Vec<Said>, Why>
    requires some { 1 ≤ count }
    requires there { count ≤ length (outbox_of image.old session) }
    ensures answers { IfOk result (λ v. v.items ≡ take count (outbox_of image.old session)) }
    ensures steps { IfOk result (λ v. Makes image.old image.new log.old.items log.new.items (step.HandOut session count ∷ [])) }
    ensures err { OnErr result ((image.new ≡ image.old) × (log.new.items ≡ log.old.items)) }
    ensures keeps { KeepsLog image.old image.new bound log.old log.new }
    ensures why { IfErr result (λ w. MayStop bound (vec_len log.new) w) }
{
    if is_full(log, bound) {
        return Err(Why::EraFull);
    }
    Ok(answer_within(alloc, image, session, count, log)?)
}

/// The same where the log isn't full.
fn answer_within(
    alloc: Global,
    image: &mut LiveImage,
    session: u64,
    count: u64,
    log: &mut Vec<Step>,
) -> Result<Vec<Said>, NoMemory>
    requires some { 1 ≤ count }
    requires there { count ≤ length (outbox_of image.old session) }
    ensures answers { IfOk result (λ v. v.items ≡ take count (outbox_of image.old session)) }
    ensures steps { IfOk result (λ v. Makes image.old image.new log.old.items log.new.items (step.HandOut session count ∷ [])) }
    ensures err { OnErr result ((image.new ≡ image.old) × (log.new.items ≡ log.old.items)) }
    ensures room { OnOk result (length image.old.sessions < vec_capacity log.new - vec_len log.new) }
    ensures len { OnOk result (vec_len log.new ≡ vec_len log.old + 1) }
    ensures spare { OnErr result (vec_capacity log.old - vec_len log.old ≤ vec_capacity log.new - vec_len log.new) }
    ensures same { OnErr result (vec_len log.new ≡ vec_len log.old) }
{
    reserve_places(image.state(), log)?;
    let answers = hand_out(alloc, image, session, count as usize)?;
    enter(log, Step::HandOut { session, count });
    Ok(answers)
}

/// Closes a session, if it is open. Takes no memory: the log has room for the step.
pub(crate) fn close(image: &mut LiveImage, session: u64, log: &mut Vec<Step>)
    requires { vec_len log.old < vec_capacity log.old }
    ensures steps { Makes image.old image.new log.old.items log.new.items (shuts image.old session) }
    ensures room { KeepsRoom image.old image.new (vec_capacity log.old - vec_len log.old) (vec_capacity log.new - vec_len log.new) }
{
    if is_open(image.state(), session) {
        shut(image, session);
        enter(log, Step::Shut { session });
    }
}

/// The least session above this number that has answers waiting.
pub(crate) fn next_waiting(state: &Core, after: u64) -> Option<u64>
    ensures { result ≡ waits_next state.now after }
{
    state.outboxes.next_after(after)
}
