//! The rows that the step of a request gives.
ghost use Rattle.std.specs.Prelude.{◌≡◌, map, true, IfOk, IsTrue};
ghost use Rattle.jsp_model.specs.Limits.{are_rising};
ghost use Rattle.jsp_machine.specs.Judging.{fits};

use jsp_core::Core;
use jsp_machine::{Judged, choose};
use jsp_types::{Items, NoMemory};
use std::alloc::Global;

/// The rows that a request is given which was judged so: of those that it may be given the ones with
/// the least numbers, and none where there is none, or where it is refused or isn't for rows.
pub(crate) fn choose_rows(
    alloc: Global,
    state: &Core,
    judged: &Judged,
) -> Result<Items<u64>, NoMemory>
    requires { IsTrue (are_rising 0 state.now.next_number (map (λ r. r.number) state.now.rows)) }
    ensures { IfOk result (λ ns. fits state.now judged.now ns ≡ true) }
{
    match judged {
        Judged::Rows(wanted) => choose(alloc, state, &wanted.request),
        Judged::Refused(_) | Judged::Plain => Ok(Items::new(alloc)),
    }
}
