//! What is found out of the request in a step: once, and handed to all that need it.
ghost use Rattle.std.specs.Prelude.{◌≡◌, ◌≤◌, IfOk};
ghost use Rattle.jsp_machine.specs.Judging.{judged_in};
ghost use Rattle.jsp_model.specs.declared.limits.TheConstants.{LAST_TIME};

use jsp_core::Core;
use jsp_model::Step;
use jsp_requests::{Judged, judge};
use jsp_types::NoMemory;
use std::alloc::Global;

/// Judges the request in a step. Where the step has none, it isn't refused and is for no rows.
pub(crate) fn judge_in(alloc: Global, state: &Core, step: &Step) -> Result<Judged, NoMemory>
    requires { state.now.time ≤ LAST_TIME }
    ensures { IfOk result (λ j. j ≡ judged_in state.now step.now) }
{
    match step {
        Step::Ask { session, asked, .. } => {
            judge(alloc, state, *session, asked.id(), asked.ask())
        }
        _ => Ok(Judged::Plain),
    }
}
