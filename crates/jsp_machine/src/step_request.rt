//! What a request in a step keeps by its type.
ghost use Rattle.std.specs.Prelude.{IsTrue};
ghost use Rattle.jsp_model.specs.Limits.{has_fitting_request};

use jsp_model::Step;

/// The request in a step, if it has one, keeps the limits of requests.
pub(crate) fn keeps_its_request(step: &Step)
    ensures { IsTrue (has_fitting_request step.now) }
{
    if let Step::Ask { asked, .. } = step {
        let _ask = asked.ask();
    }
}
