//! Whether a space owes anything.
ghost use Rattle.std.specs.Prelude.{◌≡◌, ◌==◌, ◌||◌, not};
ghost use Rattle.std.specs.List.{list_all};
ghost use Rattle.jsp_model.specs.Quiet.{is_quiet as quiet, must_wait as waits};

use crate::offered::first_answerable;
use jsp_core::LiveImage;

/// Whether the space owes nothing: no blocked request there can be answered, and no event is to be
/// told.
#[tactic(auto, unfolding(jsp_model::specs::Quiet::is_quiet))]
pub fn is_quiet(image: &LiveImage, space: u64) -> bool
    ensures { result ≡ quiet image.now space }
{
    all_wait(image, space) && image.state().registrations.none_is_owed(space)
}

fn all_wait(image: &LiveImage, space: u64) -> bool
    ensures { result ≡ list_all (λ b. not (b.space == space) || waits image.now b) image.now.blocked }
{
    first_answerable(image, space).is_none()
}
