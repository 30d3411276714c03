//! How far the clock goes on at once.
ghost use Rattle.std.specs.Prelude.{◌≡◌, ◌≤◌};

use crate::applying::apply_unless_cleared;
use crate::unquiet::are_quiet;
use jsp_core::LiveImage;
use jsp_machine::{first_end, touches};
use jsp_model::{Item, Step};
use std::alloc::Global;
use std::cmp::min;

/// The time of the next end, or the one before it where a space isn't quiet that this touches: it
/// couldn't end there. The reading, where nothing ends by then.
pub(crate) fn next_time(alloc: Global, image: &mut LiveImage, reading: u64) -> u64
    ensures within { result ≤ reading }
    ensures same { image.new ≡ image.old }
{
    let Some(item) = first_end(image.state(), reading) else {
        return reading;
    };
    let time = if may_end(alloc, image, item) {
        item.end
    } else {
        item.end.saturating_sub(1)
    };
    min(time, reading)
}

/// Whether each space is quiet that the item's end touches. Without memory to tell, yes.
fn may_end(alloc: Global, image: &mut LiveImage, item: Item) -> bool
    ensures { image.new ≡ image.old }
{
    let Ok(spaces) = touches(alloc, image, &Step::Due { item }) else {
        return true;
    };
    apply_unless_cleared(image, spaces.as_slice());
    are_quiet(image, spaces.as_slice())
}
