//! What is to come: a step, or an input whose step isn't made yet.
ghost use Rattle.std.specs.Prelude.{◌≡◌, IfOk};
ghost use Rattle.jsp_model.specs.declared.step.Step.{Step};
ghost use Rattle.jsp_model.specs.House.{step_of};
ghost use Rattle.jsp_model.specs.Touches.{touches as touched_by};

use jsp_core::LiveImage;
use jsp_machine::{Spaces, ask_touches, touches};
use jsp_model::{Input, Step};
use jsp_types::NoMemory;
use std::alloc::Global;

/// What is to come, before which the spaces are made quiet that its step touches.
pub(crate) trait Coming {
    /// Its step, without rows.
    ghost step: { Self → Step };

    /// The spaces that its step touches.
    fn touches(&self, alloc: Global, image: &LiveImage) -> Result<Spaces, NoMemory>
        ensures { IfOk result (λ v. v ≡ touched_by image.now (step self.now)) };
}

impl Coming for Step {
    ghost step = { λ s. s };

    fn touches(&self, alloc: Global, image: &LiveImage) -> Result<Spaces, NoMemory> {
        touches(alloc, image, self)
    }
}

impl Coming for Input {
    ghost step = { step_of };

    #[tactic(auto, unfolding(jsp_model::specs::Touches::touches))]
    fn touches(&self, alloc: Global, image: &LiveImage) -> Result<Spaces, NoMemory> {
        match self {
            Input::Ask { asked, .. } => ask_touches(alloc, image.state(), asked.ask()),
            _ => Ok(Spaces::none(alloc)),
        }
    }
}
