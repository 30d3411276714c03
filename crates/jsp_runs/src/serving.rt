//! Whole runs over lines in memory: each is sent its answers, and the history is whole.
ghost use Rattle.std.specs.Prelude.{◌≤◌};

use crate::lines::{Lines, SOUND, Talk, Wire, door, frames};
use crate::spaces::two_spaces;
use crate::talks::{ASKS_ON, DECLARE, FINDS, QUIET, SPACES, WAITS};
use crate::watch::{Answer, Dial, Held, Watch, watch_of};
use jsp_floor::{Bounds, Closed, Ended, LineReport, run_house};
use jsp_house::{RowsHouse, replay};
use jsp_model::Config;
use std::alloc::Global;
use std::sync::Wait;
use std::sync::atomic::Ordering;
use std::test::Fail;
use std::thread::Threads;
use std::time;

// How many steps an era holds, where none is to end.
pub(crate) const ERA: u64 = 1_048_576;

// Whether the steps are a run, where all of them are there.
fn is_run(alloc: Global, config: &Config, closed: &Closed) -> bool {
    match closed {
        Closed::Whole { steps, .. } => replay(alloc, config, steps.as_slice(), 0).is_ok(),
        Closed::Sealed { .. } => true,
    }
}

// Serves the lines, and sees that none waited in vain.
pub(crate) fn serve<T: Threads + Wait + time::Clock + Sync>(
    rt: &T,
    alloc: Global,
    watch: &Watch<'_, T>,
    era: u64,
    noon: Option<Answer>,
    talks: &[Talk],
    wire: Wire,
) -> Result<Closed, Fail>
    requires { (1 ≤ era) × (era ≤ 16777216) }
{
    let config = two_spaces(alloc)?;
    let house = RowsHouse::new(alloc, &config)?;
    let lines = door(alloc, watch, talks, wire)?;
    let dial = Dial { watch, noon };
    let bounds = Bounds {
        lines: 8,
        era,
        era_bytes: u64::MAX,
        backlog: u64::MAX,
        backlog_bytes: u64::MAX,
    };
    let Ok(closed) = run_house(rt, alloc, house, &config, bounds, 0, lines, watch, &dial) else {
        return Err(Fail::new("a fault"));
    };
    if watch.is_late.load(Ordering::SeqCst) {
        return Err(Fail::new("waited in vain"));
    }
    if !is_run(alloc, &config, &closed) {
        return Err(Fail::new("no run"));
    }
    Ok(closed)
}

// Sees that each line was sent the frames of its answers.
pub(crate) fn sees<T: Wait>(
    alloc: Global,
    watch: &Watch<'_, T>,
    talks: &[Talk],
) -> Result<(), Fail> {
    for (place, talk) in talks.iter().enumerate() {
        let wanted = frames(alloc, talk.answers)?;
        let Some(line) = watch.lines.get(place + 1) else {
            return Err(Fail::new("too many lines"));
        };
        if line.written.lock(watch.rt).as_slice() != wanted.as_slice() {
            return Err(Fail::new("other answers"));
        }
    }
    Ok(())
}

// Whether a line came to its end, with nothing left to read or write and nothing failed.
fn is_sound(alloc: Global, line: &LineReport, talk: &Talk) -> Result<bool, Fail> {
    let has_failed = !line.is_whole || line.read_failed || line.write_failed;
    let has_read = line.read.as_slice() == frames(alloc, talk.asks)?.as_slice();
    let has_written = line.written.as_slice() == frames(alloc, talk.answers)?.as_slice();
    Ok(line.ended == Ended::End && !has_failed && has_read && has_written)
}

// Whether the whole history is there, with each line as it should be, by the numbers of their
// sessions.
fn is_whole(alloc: Global, closed: &Closed, talks: &[Talk]) -> Result<bool, Fail> {
    let Closed::Whole { lines, .. } = closed else {
        return Ok(false);
    };
    for (place, (line, talk)) in lines.iter().zip(talks.iter()).enumerate() {
        if line.session != place as u64 + 1 || !is_sound(alloc, line, talk)? {
            return Ok(false);
        }
    }
    Ok(lines.len() == talks.len())
}

// Serves the lines, sees that each was sent its answers, and says whether the history is whole.
fn plays<'a, T: Threads + Wait + time::Clock + Sync>(
    rt: &'a T,
    alloc: Global,
    era: u64,
    held: &'a [Held],
    noon: Option<Answer>,
    talks: &[Talk],
) -> Result<bool, Fail>
    requires { (1 ≤ era) × (era ≤ 16777216) }
{
    let watch = watch_of(rt, alloc, held)?;
    let closed = serve(rt, alloc, &watch, era, noon, talks, SOUND)?;
    sees(alloc, &watch, talks)?;
    is_whole(alloc, &closed, talks)
}

#[test]
fn a_take_is_given_what_another_line_writes(rt: HostRuntime) -> Result<(), Fail> {
    let held = [Held {
        session: 1,
        nth: 1,
        until: Answer { session: 2, nth: 2 },
    }];
    assert!(rt; plays(&rt, rt.alloc(), ERA, &held, None, &FINDS)?);
    assert!(rt; !plays(&rt, rt.alloc(), 1, &held, None, &FINDS)?);
    assert!(rt; plays(&rt, rt.alloc(), ERA, &[], None, &WAITS)?);
    assert!(rt; !plays(&rt, rt.alloc(), 1, &[], None, &WAITS)?);
    Ok(())
}

// While the gate holds a frame of a line, its answers to others' acts are written.
#[test]
fn a_line_is_written_to_while_its_frame_is_held(rt: HostRuntime) -> Result<(), Fail> {
    let held = [Held {
        session: 1,
        nth: 3,
        until: Answer { session: 1, nth: 2 },
    }];
    for _ in 0..100 {
        assert!(rt; plays(&rt, rt.alloc(), ERA, &held, None, &ASKS_ON)?);
    }
    Ok(())
}

const TRANSACTION: [Talk; 1] = [Talk {
    asks: &[
        DECLARE,
        r#"{"id":2,"op":"txn","lease":1000}"#,
        r#"{"id":3,"op":"write","space":"a","entry":{"class":"Job","fields":{"n":1}},"lease":1000,"txn":1}"#,
        r#"{"id":4,"op":"commit","txn":1}"#,
        r#"{"id":5,"op":"read","space":"a","template":{"class":"Job","fields":{"n":1}},"timeout":0}"#,
        r#"{"id":6,"op":"spaces"}"#,
        r#"{"id":7,"op":"read","space":"a","template":{"class":"Job","fields":{"n":1}},"timeout":0}"#,
    ],
    answers: &[
        r#"{"id":1,"ok":null}"#,
        r#"{"id":2,"ok":{"lease":1,"ms":1000}}"#,
        r#"{"id":3,"ok":{"lease":2,"ms":1000}}"#,
        r#"{"id":4,"ok":null}"#,
        r#"{"id":5,"ok":{"class":"Job","fields":{"n":1}}}"#,
        r#"{"id":6,"ok":["a","b"]}"#,
        r#"{"id":7,"ok":null}"#,
    ],
    ..QUIET
}];

#[test]
fn a_commit_is_settled_and_its_entry_goes_with_its_lease(rt: HostRuntime) -> Result<(), Fail> {
    let committed = Answer { session: 1, nth: 4 };
    let read = Answer { session: 1, nth: 5 };
    let held = [
        Held {
            session: 1,
            nth: 5,
            until: committed,
        },
        Held {
            session: 1,
            nth: 6,
            until: read,
        },
    ];
    assert!(rt; plays(&rt, rt.alloc(), ERA, &held, Some(read), &TRANSACTION)?);
    Ok(())
}

// The first answer of a session.
fn first(session: u64) -> Option<Answer> {
    Some(Answer { session, nth: 1 })
}

// Each line waits for the next one: in a read, in a write, or at the gate.
fn chain() -> [Talk; 8] {
    [
        Talk {
            first_read: first(2),
            ..SPACES
        },
        Talk {
            first_write: first(3),
            ..SPACES
        },
        SPACES,
        Talk {
            first_read: first(5),
            ..SPACES
        },
        Talk {
            first_write: first(6),
            ..SPACES
        },
        SPACES,
        Talk {
            first_read: first(8),
            ..SPACES
        },
        SPACES,
    ]
}

#[test]
fn eight_lines_wait_each_for_the_next_one(rt: HostRuntime) -> Result<(), Fail> {
    let held = [
        Held {
            session: 3,
            nth: 1,
            until: Answer { session: 4, nth: 1 },
        },
        Held {
            session: 6,
            nth: 1,
            until: Answer { session: 7, nth: 1 },
        },
    ];
    let chain = chain();
    for _ in 0..100 {
        assert!(rt; plays(&rt, rt.alloc(), ERA, &held, None, &chain)?);
    }
    Ok(())
}
