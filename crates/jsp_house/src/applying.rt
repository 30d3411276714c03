//! The spaces that are about to be touched apply what was decided before, and registrations are
//! told what commits tell them. No step is made by that, and the state is the same. Nothing here
//! fails: where memory for a list of spaces is refused, all spaces apply what was decided.
ghost use Rattle.std.specs.Prelude.{◌≡◌};

use crate::to_come::Coming;
use jsp_core::LiveImage;
use jsp_machine::{due, touches};
use jsp_model::Step;
use std::alloc::Global;

/// Those that are owed, and those that what is due, or to come, touches.
pub(crate) fn apply_touched<T: Coming>(
    alloc: Global,
    image: &mut LiveImage,
    owed: &[u64],
    to_come: Option<&T>,
)
    ensures { image.new ≡ image.old }
{
    if !image.has_pending() {
        return;
    }
    apply_unless_cleared(image, owed);
    apply_due(alloc, image);
    if let Some(coming) = to_come {
        apply_coming(alloc, image, coming);
    }
}

fn apply_due(alloc: Global, image: &mut LiveImage)
    ensures { image.new ≡ image.old }
{
    image.apply_due();
    if let Some(item) = due(image.state()) {
        apply_step(alloc, image, &Step::Due { item });
    }
}

fn apply_step(alloc: Global, image: &mut LiveImage, step: &Step)
    ensures { image.new ≡ image.old }
{
    match touches(alloc, image, step) {
        Ok(spaces) => apply_unless_cleared(image, spaces.as_slice()),
        Err(_) => image.apply_all(),
    }
}

fn apply_coming<T: Coming>(alloc: Global, image: &mut LiveImage, coming: &T)
    ensures { image.new ≡ image.old }
{
    match coming.touches(alloc, image) {
        Ok(spaces) => apply_in(image, spaces.as_slice()),
        Err(_) => image.apply_all(),
    }
}

fn apply_in(image: &mut LiveImage, spaces: &[u64])
    ensures { image.new ≡ image.old }
{
    'spaces: for space in spaces {
        image.apply_in(*space);
    }
}

/// What these spaces were reset of isn't in the way of what only makes them quiet.
pub(crate) fn apply_unless_cleared(image: &mut LiveImage, spaces: &[u64])
    ensures { image.new ≡ image.old }
{
    'spaces: for space in spaces {
        image.apply_unless_cleared(*space);
    }
}
