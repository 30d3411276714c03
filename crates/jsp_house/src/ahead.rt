//! What spaces apply ahead of a call, a part at a time, so that the call itself has little to
//! apply. No step is made by that, and the state is the same. Nothing here fails: where memory for
//! a list of spaces is refused, the call applies all by itself.
ghost use Rattle.std.specs.Prelude.{◌≡◌};

use crate::settling::settle_step;
use crate::to_come::Coming;
use jsp_core::LiveImage;
use jsp_model::Input;
use std::alloc::Global;

/// In how many spaces one part applies something at most.
const MOST_SPACES: u64 = 4;

/// Some of what was decided is applied in the spaces that the input touches, or where a row ends by
/// its reading of the clock. Whether nothing is left there.
pub(crate) fn apply_before(alloc: Global, image: &mut LiveImage, input: &Input) -> bool
    ensures { image.new ≡ image.old }
{
    if !image.has_pending() {
        return true;
    }
    match input {
        Input::Clock { time } => image.apply_due_part(*time),
        _ => apply_coming(alloc, image, input),
    }
}

/// The same where the next vote or decision touches a space, or in all spaces where none is to
/// come.
pub(crate) fn apply_before_turn(alloc: Global, image: &mut LiveImage) -> bool
    ensures { image.new ≡ image.old }
{
    if !image.has_pending() {
        return true;
    }
    match settle_step(image.state()) {
        None => apply_everywhere(image),
        Some(step) => apply_coming(alloc, image, &step),
    }
}

fn apply_coming<T: Coming>(alloc: Global, image: &mut LiveImage, coming: &T) -> bool
    ensures { image.new ≡ image.old }
{
    match coming.touches(alloc, image) {
        Ok(spaces) => apply_parts(image, spaces.as_slice()),
        Err(_) => true,
    }
}

fn apply_parts(image: &mut LiveImage, spaces: &[u64]) -> bool
    ensures { image.new ≡ image.old }
{
    'spaces: for space in spaces {
        if !image.apply_part(*space) {
            return false;
        }
    }
    true
}

fn apply_everywhere(image: &mut LiveImage) -> bool
    ensures { image.new ≡ image.old }
{
    let count = image.state().spaces.as_slice().len() as u64;
    let mut applied: u64 = 0;
    'spaces: for space in 0..count {
        if image.has_unapplied(space) {
            if applied == MOST_SPACES || !image.apply_part(space) {
                return false;
            }
            applied = applied.saturating_add(1);
        }
    }
    true
}
