//! The steps of an era that is over, which are taken a few at a time, to be freed where nobody
//! waits for it, and their room with them: all at once would hold up everybody.
ghost use Rattle.std.specs.Prelude.{◌≡◌, ◌≤◌, [], vec_len, vec_capacity};

use jsp_model::Step;
use std::mem;

/// How many steps of an era that is over one call takes, which is more than it makes as a rule: so
/// none is left when the next era is over.
pub const MOST_OLD: usize = 16;

/// How much room one call lets go at least, in steps, but for the last of it.
const MANY: usize = 4096;

/// Empties a log. Its steps change places with those that were set aside before, if there is memory
/// for as long a log; else they are freed here.
pub(crate) fn set_aside(log: &mut Vec<Step>, gone: &mut Vec<Step>)
    ensures items { log.new.items ≡ [] }
    ensures len { vec_len log.new ≡ 0 }
    ensures room { vec_capacity log.old ≤ vec_capacity log.new }
{
    gone.clear();
    if gone.reserve(log.capacity()).is_ok() {
        mem::swap(log, gone);
    } else {
        log.clear();
    }
}

/// Moves a few of those that were set aside, as many as there is room for, and lets go of what room
/// they left once that is much, or all of it.
pub(crate) fn take_some(gone: &mut Vec<Step>, old: &mut Vec<Step>) {
    for _ in 0..MOST_OLD {
        if old.len() == old.capacity() {
            break;
        }
        let Some(step) = gone.pop() else {
            break;
        };
        let _ = old.push(step);
    }
    let spare = gone.capacity().saturating_sub(gone.len());
    if gone.is_empty() || spare >= MANY {
        gone.shrink_to_fit();
    }
}
