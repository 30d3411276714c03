//! Which space is to be made quiet next.
ghost use Rattle.std.specs.Prelude.{◌≡◌, length};
ghost use Rattle.jsp_model.specs.Quiet.{are_quiet as all_quiet};
ghost use Rattle.jsp_model.specs.Limits.{IsWithinLimits};
ghost use Rattle.jsp_model.specs.Settling.{first_unquiet as first_of_all};

use jsp_core::LiveImage;
use jsp_machine::is_quiet;

/// How many spaces there are.
pub(crate) fn count_spaces(image: &LiveImage) -> u64
    ensures count { result ≡ length image.now.spaces }
    ensures limits { IsWithinLimits image.now }
{
    image.state().spaces.as_slice().len() as u64
}

/// The first space, in the configured order, that isn't quiet.
pub(crate) fn first_unquiet(image: &LiveImage) -> Option<u64>
    ensures { result ≡ first_of_all image.now }
{
    let count = image.state().spaces.as_slice().len() as u64;
    (0..count).find(|space| !is_quiet(image, *space))
}

/// The same. The spaces up to it have applied what was decided, and their registrations were told
/// of it.
pub(crate) fn first_to_quiet(image: &mut LiveImage) -> Option<u64>
    ensures found { result ≡ first_of_all image.old }
    ensures same { image.new ≡ image.old }
{
    let count = image.state().spaces.as_slice().len() as u64;
    'spaces: for space in 0..count {
        image.apply_in(space);
        if !is_quiet(image, space) {
            break 'spaces;
        }
    }
    first_unquiet(image)
}

/// Whether each of these spaces is quiet.
pub(crate) fn are_quiet(image: &LiveImage, spaces: &[u64]) -> bool
    ensures { result ≡ all_quiet image.now spaces.now }
{
    spaces.iter().all(|space| is_quiet(image, *space))
}
