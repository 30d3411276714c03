//! What a legal step says, each answer within its limits.
ghost use Rattle.std.specs.Prelude.{◌≡◌, IfOk, IsTrue, filter};
ghost use Rattle.std.specs.List.{list_all};
ghost use Rattle.jsp_reply.specs.Limits.{is_within_limits};
ghost use Rattle.jsp_model.specs.Lookup.{is_open as has_open};
ghost use Rattle.jsp_model.specs.Answers.{Saying, said as said_by};
ghost use Rattle.jsp_model.specs.Steps.{is_legal};
ghost use Rattle.jsp_machine.specs.Judging.{judged_in};

use crate::answering::all_said;
use crate::judging::judge_in;
use crate::step_request::keeps_its_request;
use jsp_core::{Core, LiveImage};
use jsp_model::Step;
use jsp_reply::{Reply, Said};
use jsp_requests::Judged;
use jsp_state::is_open;
use jsp_types::NoMemory;
use std::alloc::Global;

/// What a legal step says, in order, each answer or event to its session. Nothing is said to a
/// closed session (this profile's own).
pub fn said(alloc: Global, image: &LiveImage, step: &Step) -> Result<Vec<(u64, Said)>, NoMemory>
    requires { IsTrue (is_legal image.now step.now) }
    ensures { IfOk result (λ v. v.items ≡ said_by image.now step.now) }
{
    let judged = judge_in(alloc, image.state(), step)?;
    said_judged(alloc, image, step, &judged)
}

/// The same of a step whose request was judged so.
pub(crate) fn said_judged(
    alloc: Global,
    image: &LiveImage,
    step: &Step,
    judged: &Judged,
) -> Result<Vec<(u64, Said)>, NoMemory>
    requires legal { IsTrue (is_legal image.now step.now) }
    requires judged { judged.now ≡ judged_in image.now step.now }
    ensures { IfOk result (λ v. v.items ≡ said_by image.now step.now) }
{
    keeps_its_request(step);
    let state = image.state();
    let mut replies = all_said(alloc, state, step, judged)?;
    drop_unheard(state, &mut replies);
    within_limits(alloc, replies)
}

/// What would be said to closed sessions isn't.
fn drop_unheard(state: &Core, replies: &mut Vec<(u64, Reply)>)
    ensures { replies.new.items ≡ filter (λ a. has_open state.now a.0) replies.old.items }
{
    replies.retain(|a| is_open(state, a.0));
}

/// The replies, with their limits in their types.
fn within_limits(alloc: Global, replies: Vec<(u64, Reply)>) -> Result<Vec<(u64, Said)>, NoMemory>
    requires { IsTrue (list_all (λ (a : Saying). is_within_limits a.1) replies.items) }
    ensures { IfOk result (λ v. v.items ≡ replies.items) }
{
    let mut sayings = Vec::new(alloc);
    let mut rest = replies.into_iter();
    'replies: while let Some((session, reply)) = rest.next() {
        sayings.push((session, Said::new(reply)))?;
    }
    Ok(sayings)
}
