//! The state after a step.
ghost use Rattle.std.specs.Prelude.{◌≡◌, ◌≤◌, true, false, length, take, OnOk, OnErr, IfOk, IsTrue};
ghost use Rattle.jsp_model.specs.declared.step.Step.TheVariants as step;
ghost use Rattle.jsp_model.specs.Lookup.{is_open};
ghost use Rattle.jsp_model.specs.Answers.{said as said_by};
ghost use Rattle.jsp_model.specs.Steps.{is_legal, next};
ghost use Rattle.jsp_model.specs.Outboxes.{outbox_of};
ghost use Rattle.jsp_model.specs.Limits.{IsWithinLimits};
ghost use Rattle.jsp_machine.specs.Judging.{judged_in};
ghost use Rattle.jsp_machine.specs.Posting.{with_posted, without_posted};
ghost use Rattle.jsp_model.proofs.Outboxes.{is_hand_out};

use crate::judging::judge_in;
use crate::offering::offer_let_go;
use crate::saying::said_judged;
use crate::step_change::change;
use crate::step_request::keeps_its_request;
use crate::stirring::stir;
use jsp_core::{Core, LiveImage};
use jsp_model::Step;
use jsp_outbox::Posted;
use jsp_reply::Said;
use jsp_requests::Judged;
use jsp_state::{close, hand_out as hand_out_of, withdraw};
use jsp_types::NoMemory;
use std::alloc::Global;

/// Makes a legal step, whole or not at all where a growth is refused.
pub fn apply(alloc: Global, image: &mut LiveImage, step: &Step) -> Result<(), NoMemory>
    requires { IsTrue (is_legal image.old step.now) }
    ensures ok { OnOk result (image.new ≡ next image.old step.now) }
    ensures err { OnErr result (image.new ≡ image.old) }
    ensures limits { IsWithinLimits image.new }
{
    let judged = judge_in(alloc, image.state(), step)?;
    apply_judged(alloc, image, step, judged)
}

/// The same of a step whose request was judged so.
pub fn apply_judged(
    alloc: Global,
    image: &mut LiveImage,
    step: &Step,
    judged: Judged,
) -> Result<(), NoMemory>
    requires legal { IsTrue (is_legal image.old step.now) }
    requires judged { judged ≡ judged_in image.old step.now }
    ensures ok { OnOk result (image.new ≡ next image.old step.now) }
    ensures err { OnErr result (image.new ≡ image.old) }
    ensures limits { IsWithinLimits image.new }
{
    if let Step::HandOut { session, count } = step {
        let _answers = hand_out(alloc, image, *session, *count as usize)?;
        return Ok(());
    }
    make_and_offer(alloc, image, step, judged)?;
    withdraw(image);
    Ok(())
}

/// Makes a step, offers what it writes and lets go to the requests that wait, and stirs those of
/// which it may end the conflict.
fn make_and_offer(
    alloc: Global,
    image: &mut LiveImage,
    step: &Step,
    judged: Judged,
) -> Result<(), NoMemory>
    requires legal { IsTrue (is_legal image.old step.now) }
    requires judged { judged ≡ judged_in image.old step.now }
    requires no_hand_out { is_hand_out step.now ≡ false }
    ensures ok { OnOk result (image.new ≡ next image.old step.now) }
    ensures err { OnErr result (image.new ≡ image.old) }
    ensures limits { IsWithinLimits image.new }
{
    keeps_its_request(step);
    let sayings = said_judged(alloc, image, step, &judged)?;
    let first_new = next_number(&image.state);
    let is_steady = image.is_steady;
    offer_let_go(alloc, &image.state, &mut image.offers, step, is_steady);
    stir(alloc, &image.state, &mut image.stirred, step, is_steady);
    let made = make(alloc, &mut image.state, step, judged, sayings);
    let past_new = next_number(&image.state);
    image.offers.add_between(first_new, past_new);
    made
}

fn next_number(state: &Core) -> u64
    ensures { result ≡ state.now.next_number }
{
    state.next_number
}

/// Posts what a step says and makes its change. Where the change is refused memory, what was posted
/// is taken back.
fn make(
    alloc: Global,
    state: &mut Core,
    step: &Step,
    judged: Judged,
    sayings: Vec<(u64, Said)>,
) -> Result<(), NoMemory>
    requires limits { IsWithinLimits state.old }
    requires legal { is_legal state.old step.now ≡ true }
    requires judged { judged ≡ judged_in state.old step.now }
    requires sayings { sayings.items ≡ said_by state.old step.now }
    requires no_hand_out { is_hand_out step.now ≡ false }
    ensures ok { OnOk result (state.new ≡ next state.old step.now) }
    ensures err { OnErr result (state.new ≡ state.old) }
{
    let posts = post_in(alloc, state, sayings)?;
    if let Err(e) = change(alloc, state, step, judged) {
        take_back_in(state, posts);
        return Err(e);
    }
    Ok(())
}

/// Posts what is said, whole or not at all, and answers where it was posted.
fn post_in(
    alloc: Global,
    state: &mut Core,
    sayings: Vec<(u64, Said)>,
) -> Result<Vec<Posted>, NoMemory>
    ensures ok { OnOk result (state.new ≡ with_posted sayings.items state.old) }
    ensures back { IfOk result (λ ps. without_posted ps.items state.new ≡ state.old) }
    ensures err { OnErr result (state.new ≡ state.old) }
{
    let outboxes = &mut state.outboxes;
    outboxes.post_all(alloc, sayings)
}

/// Takes back what was posted last.
fn take_back_in(state: &mut Core, posts: Vec<Posted>)
    ensures { state.new ≡ without_posted posts.items state.old }
{
    let outboxes = &mut state.outboxes;
    outboxes.take_all_back(posts);
}

/// Hands out the next answers of a session, so many of those that wait for it, whole or not at all.
pub fn hand_out(
    alloc: Global,
    image: &mut LiveImage,
    session: u64,
    count: usize,
) -> Result<Vec<Said>, NoMemory>
    requires some { 1 ≤ count }
    requires there { count ≤ length (outbox_of image.old session) }
    ensures answers { IfOk result (λ v. v.items ≡ take count (outbox_of image.old session)) }
    ensures ok { OnOk result (image.new ≡ next image.old (step.HandOut session count)) }
    ensures err { OnErr result (image.new ≡ image.old) }
    ensures limits { IsWithinLimits image.new }
{
    hand_out_of(alloc, &mut image.state, session, count)
}

/// Closes an open session. Takes no memory.
pub fn shut(image: &mut LiveImage, session: u64)
    requires { is_open image.old session ≡ true }
    ensures { image.new ≡ next image.old (step.Shut session) }
{
    close(&mut image.state, session);
}
