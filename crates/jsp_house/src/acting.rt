//! What an act does.
ghost use Rattle.std.specs.Prelude.{◌≡◌, ◌^◌, ◌&&◌, nat_le, nat_lt, true, false, None, OnOk, IfErr, IsTrue, vec_len};
ghost use Rattle.jsp_model.specs.declared.house.Input.TheVariants as input;
ghost use Rattle.jsp_model.specs.declared.house.Why.TheVariants as why;
ghost use Rattle.jsp_model.specs.House.{Acts, Goes, IsReady, MayStop, WasFull, OpensNone, is_input, accepts as takes, acted, step_of as own_step};
ghost use Rattle.jsp_house.specs.Making.{KeepsLog};
ghost use Rattle.jsp_house.specs.Owing.{IsDone};
ghost use Rattle.jsp_model.specs.declared.limits.TheConstants.{LAST_SESSION};

use crate::finishing::finish;
use crate::making::make;
use crate::performing::perform_ready;
use jsp_core::LiveImage;
use jsp_machine::{Judged, is_open};
use jsp_model::{Input, LAST_SESSION, Step, Stopped, Why};
use jsp_types::Items;
use std::alloc::Global;

/// Finishes what an earlier call left and quiets what the input's own step touches, also where the
/// input isn't accepted; then makes that step, and what follows from it.
pub(crate) fn act(
    alloc: Global,
    image: &mut LiveImage,
    debt: &mut Vec<u64>,
    input: Input,
    bound: Option<u64>,
    log: &mut Vec<Step>,
) -> Result<(), Stopped>
    requires { IsTrue (is_input input) }
    ensures acts { Acts image.old image.new debt.old.items debt.new.items log.old.items log.new.items input result }
    ensures passed_over { takes image.old input ≡ false → IfErr result (λ e. e.done ≡ false) }
    ensures opens { OpensNone input result }
    ensures ready { IsReady image.old debt.old.items input → WasFull bound (vec_len log.old) result }
    ensures keeps { KeepsLog image.old image.new bound log.old log.new }
    ensures why { IfErr result (λ e. MayStop bound (vec_len log.new) e.why) }
{
    if let Err(why) = make_ready(alloc, image, debt, &input, bound, log) {
        return Err(Stopped { why, done: false });
    }
    act_ready(alloc, image, debt, input, bound, log)
}

/// The same of a house that was made ready for the input.
pub(crate) fn act_ready(
    alloc: Global,
    image: &mut LiveImage,
    debt: &mut Vec<u64>,
    input: Input,
    bound: Option<u64>,
    log: &mut Vec<Step>,
) -> Result<(), Stopped>
    requires input { IsTrue (is_input input) }
    requires ready { IsReady image.old debt.old.items input }
    ensures acts { Acts image.old image.new debt.old.items debt.new.items log.old.items log.new.items input result }
    ensures passed_over { takes image.old input ≡ false → IfErr result (λ e. e.done ≡ false) }
    ensures opens { OpensNone input result }
    ensures full { WasFull bound (vec_len log.old) result }
    ensures keeps { KeepsLog image.old image.new bound log.old log.new }
    ensures why { IfErr result (λ e. MayStop bound (vec_len log.new) e.why) }
{
    if !accepts(image, &input) {
        debt.clear();
        return Ok(());
    }
    if let Input::Open { session } = input {
        return open_ready(alloc, image, debt, session, bound, log);
    }
    perform_ready(alloc, image, debt, step_of(alloc, input), bound, log)
}

/// Makes what an earlier call left, what is due, and what the spaces owe that the input touches.
/// All that was touched stays owed.
pub(crate) fn make_ready(
    alloc: Global,
    image: &mut LiveImage,
    debt: &mut Vec<u64>,
    input: &Input,
    bound: Option<u64>,
    log: &mut Vec<Step>,
) -> Result<(), Why>
    ensures goes { Goes image.old image.new debt.old.items debt.new.items log.old.items log.new.items }
    ensures ready { OnOk result (IsReady image.new debt.new.items input.now) }
    ensures idle { IsReady image.old debt.old.items input.now → (vec_len log.new ≡ vec_len log.old) × IfErr result (λ w. w ≡ why.NoMemory) }
    ensures keeps { KeepsLog image.old image.new bound log.old log.new }
    ensures why { IfErr result (λ w. MayStop bound (vec_len log.new) w) }
{
    finish(alloc, image, debt, Some(input), bound, log)
}

/// Whether the input makes a step. What comes from a closed session is passed over, and so is the
/// opening of a number that isn't above all earlier ones.
fn accepts(image: &LiveImage, input: &Input) -> bool
    ensures { result ≡ takes image.now input.now }
{
    let state = image.state();
    match input {
        Input::Open { session } => may_open(state.last_session, *session),
        Input::Clock { .. } => true,
        Input::Ask { session, .. } => is_open(state, *session),
        Input::Fault { session, .. } => is_open(state, *session),
    }
}

fn may_open(last: u64, session: u64) -> bool
    ensures { result ≡ (nat_le 1 session && nat_lt last session && nat_le session LAST_SESSION) }
{
    1 <= session && last < session && session <= LAST_SESSION
}

/// The input's own step. The rows of a request are chosen when nothing is due any more.
fn step_of(alloc: Global, input: Input) -> Step
    ensures { result ≡ own_step input }
{
    match input {
        Input::Open { session } => Step::Open { session },
        Input::Clock { time } => Step::Clock { time },
        Input::Ask { session, asked } => Step::Ask {
            session,
            asked,
            rows: Items::new(alloc),
        },
        Input::Fault {
            session,
            id,
            refusal,
        } => Step::Fault {
            session,
            id,
            refusal,
        },
    }
}

/// Opens a session where nothing is left and nothing is due. That touches nothing and makes nothing
/// due, so no call that is stopped has opened one.
fn open_ready(
    alloc: Global,
    image: &mut LiveImage,
    debt: &mut Vec<u64>,
    session: u64,
    bound: Option<u64>,
    log: &mut Vec<Step>,
) -> Result<(), Stopped>
    requires accepted { takes image.old (input.Open session) ≡ true }
    requires done { IsDone image.old debt.old.items None }
    ensures acts { Acts image.old image.new debt.old.items debt.new.items log.old.items log.new.items (input.Open session) result }
    ensures not_done { IfErr result (λ e. e.done ≡ false) }
    ensures full { WasFull bound (vec_len log.old) result }
    ensures keeps { KeepsLog image.old image.new bound log.old log.new }
    ensures why { IfErr result (λ e. MayStop bound (vec_len log.new) e.why) }
{
    match make(
        alloc,
        image,
        Step::Open { session },
        Judged::Plain,
        bound,
        log,
    ) {
        Err(why) => Err(Stopped { why, done: false }),
        Ok(()) => {
            debt.clear();
            Ok(())
        }
    }
}
