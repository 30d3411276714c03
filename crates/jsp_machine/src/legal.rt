//! Which steps are legal.
ghost use Rattle.std.specs.Prelude.{◌≡◌, ◌^◌, IfOk};
ghost use Rattle.jsp_model.specs.declared.step.Step.TheVariants as step;
ghost use Rattle.jsp_model.specs.Steps.{is_legal as legal, is_fault as is_a_fault};
ghost use Rattle.jsp_machine.specs.Judging.{judged_in};

use crate::choosing::{may_ask, may_grant, may_say_nothing};
use crate::deciding::{may_decide, may_end, may_vote};
use crate::judging::judge_in;
use crate::telling::may_tell;
use jsp_core::{Core, LiveImage};
use jsp_model::{LAST_SESSION, Step};
use jsp_reply::Refusal;
use jsp_requests::Judged;
use jsp_state::{is_open, waiting};
use jsp_types::NoMemory;
use std::alloc::Global;

/// Whether the step is legal in the state (which steps there are is this profile's own).
pub fn is_legal(alloc: Global, image: &LiveImage, step: &Step) -> Result<bool, NoMemory>
    ensures { IfOk result (λ b. b ≡ legal image.now step.now) }
{
    let judged = judge_in(alloc, image.state(), step)?;
    is_legal_judged(alloc, image, step, &judged)
}

/// The same of a step whose request was judged so.
pub(crate) fn is_legal_judged(
    alloc: Global,
    image: &LiveImage,
    step: &Step,
    judged: &Judged,
) -> Result<bool, NoMemory>
    requires { judged.now ≡ judged_in image.now step.now }
    ensures { IfOk result (λ b. b ≡ legal image.now step.now) }
{
    let state = image.state();
    match step {
        Step::Open { session } => Ok(may_open(state, *session)),
        Step::Shut { session } => Ok(may_shut(state, *session)),
        Step::Clock { time } => Ok(may_clock(state, *time)),
        Step::Ask {
            session,
            asked,
            rows,
        } => may_ask(alloc, image, *session, asked, rows.as_slice(), judged),
        Step::Fault {
            session,
            id,
            refusal,
        } => Ok(may_fault(state, *session, *id, *refusal)),
        Step::Grant { blocked, rows } => Ok(may_grant(state, *blocked, rows.as_slice())),
        Step::Empty { blocked } => Ok(may_say_nothing(state, *blocked)),
        Step::Tell { registration } => Ok(may_tell(state, *registration)),
        Step::Due { item } => may_end(alloc, image, *item),
        Step::Vote { transaction, space } => Ok(may_vote(image, *transaction, *space)),
        Step::Decide {
            transaction,
            commits,
        } => Ok(may_decide(state, *transaction, *commits)),
        Step::HandOut { session, count } => Ok(may_hand_out(state, *session, *count)),
    }
}

#[tactic(auto, unfolding(jsp_model::specs::Steps::is_legal))]
fn may_open(state: &Core, session: u64) -> bool
    ensures { result ≡ legal state.now (step.Open session) }
{
    1 <= session && state.last_session < session && session <= LAST_SESSION
}

#[tactic(auto, unfolding(jsp_model::specs::Steps::is_legal))]
fn may_shut(state: &Core, session: u64) -> bool
    ensures { result ≡ legal state.now (step.Shut session) }
{
    is_open(state, session)
}

#[tactic(auto, unfolding(jsp_model::specs::Steps::is_legal))]
fn may_clock(state: &Core, time: u64) -> bool
    ensures { result ≡ legal state.now (step.Clock time) }
{
    true
}

#[tactic(auto, unfolding(jsp_model::specs::Steps::is_legal))]
fn may_fault(state: &Core, session: u64, id: Option<u64>, refusal: Refusal) -> bool
    ensures { result ≡ legal state.now (step.Fault session id refusal) }
{
    is_open(state, session) && is_fault(refusal)
}

fn is_fault(refusal: Refusal) -> bool
    ensures { result ≡ is_a_fault refusal }
{
    matches!(
        refusal,
        Refusal::BadJson | Refusal::BadRequest | Refusal::TooLong
    )
}

#[tactic(auto, unfolding(jsp_model::specs::Steps::is_legal))]
fn may_hand_out(state: &Core, session: u64, count: u64) -> bool
    ensures { result ≡ legal state.now (step.HandOut session count) }
{
    1 <= count && count <= waiting(state, session)
}
