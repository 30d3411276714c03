//! Why a call of a house stops, where nothing bounds the log.
ghost use Rattle.std.specs.Prelude.{◌≡◌};
ghost use Rattle.jsp_model.specs.declared.house.Why.TheVariants as why;

use jsp_model::{Stopped, Why};
use jsp_types::NoMemory;

/// A growth was refused: no call is stopped for another reason then.
pub(crate) fn no_memory(stopped: Stopped) -> NoMemory
    requires { stopped.why ≡ why.NoMemory }
{
    match stopped.why {
        Why::NoMemory => NoMemory,
        Why::EraFull | Why::Sessions | Why::Audit => unreachable!(),
    }
}
