//! Whether a history is at rest.
ghost use Rattle.std.specs.Prelude.{◌≡◌, true, false};
ghost use Rattle.std.specs.List.{list_all};
ghost use Rattle.jsp_model.specs.Quiet.{is_quiet as quiet};
ghost use Rattle.jsp_model.specs.Settling.{places};
ghost use Rattle.jsp_closing.specs.Closing.{IsAtRest};

use jsp_core::LiveImage;
use jsp_machine::is_quiet;

/// Whether no transaction votes, and every space is quiet.
pub(crate) fn is_at_rest(image: &LiveImage) -> bool
    ensures so { result ≡ true → IsAtRest image.now }
    ensures not_so { result ≡ false → IsAtRest image.now → ⊥ }
{
    image.state().commits.as_slice().is_empty() && are_all_quiet(image)
}

fn are_all_quiet(image: &LiveImage) -> bool
    ensures { result ≡ list_all (quiet image.now) (places image.now) }
{
    let count = image.state().spaces.as_slice().len() as u64;
    (0..count).all(|space| is_quiet(image, space))
}
