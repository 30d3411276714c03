//! The abstract machine run as a program: whether a step is legal in a state, what it says, and the
//! state after it.
//!
//! Each call has a definition of jsp_model as its contract: `is_legal` and `apply` those of
//! `specs/Steps.antt` there, `said` that of `specs/Answers.antt`, `touches` that of
//! `specs/Touches.antt`, for every step and request and over every state within its limits. A step
//! is applied whole, or not at all where a growth is refused. `replay` runs a list of steps from
//! the empty state of a config and `replay_from` from any state: they answer Ok exactly where the
//! steps are a run, with the state after them and all that they say, and else the place of the
//! first step that isn't legal where it stands. A house that keeps such a state chooses its steps
//! with what is given out again here from the crates below.
#![tactic(auto)]

mod answering;
mod applying;
mod choosing;
mod deciding;
mod emptiness;
mod judging;
mod legal;
mod offering;
mod replaying;
mod saying;
mod spaces;
mod step_change;
mod step_request;
mod stirring;
mod telling;
mod touching;

pub use applying::{apply, apply_judged, hand_out, shut};
pub use emptiness::empty_image;
pub use jsp_requests::{Judged, judge};
pub use jsp_state::{choose, due, first_end, is_open, is_quiet, waiting};
pub use legal::is_legal;
pub use replaying::{ReplayFault, Replayed, replay, replay_from};
pub use saying::said;
pub use spaces::Spaces;
pub use touching::{are_quiet, ask_touches, touches};
