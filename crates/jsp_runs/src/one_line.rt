//! One line over a floor: how often it is read, and where the comparison passes that it is cut.
ghost use Rattle.std.specs.Prelude.{◌≡◌, ◌+◌, ◌^◌, true, IfSome};
ghost use Rattle.jsp_closing.specs.Closing.{IsAtRest, RestsAfter};

use crate::lines::{Connected, Incoming, Outgoing, SOUND, Talk, door};
use crate::serving::{ERA, sees};
use crate::spaces::two_spaces;
use crate::talks::{QUIET, SPACES};
use crate::watch::{Dial, Watch, watch_of};
use jsp_closing::close;
use jsp_drive::Era;
use jsp_floor::{Closed, Ended, Floor, Left, LineDone, LineReport, RunFault, Shared, ShutFor};
use jsp_house::RowsHouse;
use jsp_kept::{InParts, Kept};
use jsp_model::{Config, House, Settled};
use std::alloc::Global;
use std::io::{Read, Write};
use std::marker::Brand;
use std::sync::Wait;
use std::sync::atomic::AtomicU64;
use std::sync::ledger::{Blank, Ledger};
use std::test::Fail;
use std::thread::Threads;
use std::time;

const PARTS: u64 = (1 << 31) + 1;

// More requests than a line is read that may be read eight times.
const MANY: [Talk; 1] = [Talk {
    asks: &[r#"{"id":1,"op":"spaces"}"#; 10],
    answers: &[r#"{"id":1,"ok":["a","b"]}"#; 8],
    ..QUIET
}];

// Whether a line's session is shut before its first request, and by whom.
#[derive(Clone, Copy)]
enum Shut {
    Never,
    ByLine,
    ByHouse(ShutFor),
}

// A floor over an empty house of two spaces.
fn floor_of<A: Ledger, O: Ledger>(
    alloc: Global,
    config: &Config,
    asks: Blank,
    outs: Blank,
) -> Result<Floor<RowsHouse, A, O>, Fail>
    requires asks { (asks.name ≡ A.name) × (asks.parts ≡ A.parts) × (A.parts ≡ 2 ^ 31 + 1) }
    requires outs { (outs.name ≡ O.name) × (outs.parts ≡ O.parts) × (O.parts ≡ 2 ^ 31 + 1) }
{
    let house = RowsHouse::new(alloc, config)?;
    let kept = Kept::<RowsHouse, A, O>::new(alloc, house, config, ERA, asks, outs)?;
    Ok(Floor::new(alloc, kept, 1, u64::MAX, u64::MAX, u64::MAX)?)
}

// Serves a line of these frames, which may be read eight times, over a floor. Answers what it read
// and wrote, and how it left.
fn serve_over<
    'w,
    'a,
    H: InParts + Send,
    A: Ledger + Send + Sync,
    O: Ledger + Send + Sync,
    T: Threads + Wait + time::Clock + Sync,
>(
    rt: &T,
    alloc: Global,
    watch: &'w Watch<'a, T>,
    floor: &Floor<H, A, O>,
    talks: &[Talk],
    shut: Shut,
) -> Result<
    (
        LineDone<A, O, Incoming<'w, 'a, T>, Outgoing<'w, 'a, T>>,
        Left,
    ),
    Fail,
> {
    let dial = Dial { watch, noon: None };
    let shared = Shared {
        rt,
        alloc,
        floor,
        gate: watch,
        clock: &dial,
    };
    let Ok((asks, outs)) = floor.begin(rt) else {
        return Err(Fail::new("no session"));
    };
    let session = asks.session();
    match shut {
        Shut::Never => {}
        Shut::ByLine => floor.shut(rt, session),
        Shut::ByHouse(why) => floor.shut_for(rt, session, why),
    }
    let Some((incoming, outgoing)) = door(alloc, watch, talks, SOUND)?.left.pop() else {
        return Err(Fail::new("no line"));
    };
    let hangup = Connected {
        requests: AtomicU64::new(0),
    };
    let done = shared.serve_line(incoming, outgoing, &hangup, asks, outs, 8);
    Ok((done, floor.leave(rt, session)))
}

// Serves a line that may be read eight times. Answers how it ended, how often it was read, and how
// many of its requests were acted.
fn read_eight_times<
    A: Ledger + Send + Sync,
    O: Ledger + Send + Sync,
    T: Threads + Wait + time::Clock + Sync,
>(
    rt: &T,
    alloc: Global,
    watch: &Watch<'_, T>,
    asks: Blank,
    outs: Blank,
) -> Result<(Ended, u64, u64), Fail>
    requires asks { (asks.name ≡ A.name) × (asks.parts ≡ A.parts) × (A.parts ≡ 2 ^ 31 + 1) }
    requires outs { (outs.name ≡ O.name) × (outs.parts ≡ O.parts) × (O.parts ≡ 2 ^ 31 + 1) }
{
    let config = two_spaces(alloc)?;
    let floor = floor_of::<A, O>(alloc, &config, asks, outs)?;
    let served = serve_over(rt, alloc, watch, &floor, &MANY, Shut::Never);
    drop(floor);
    let (done, _left) = served?;
    Ok((done.read.ended, done.reader.reads, done.read.seat.count()))
}

#[test]
fn a_line_is_read_no_more_often_than_its_bound(rt: HostRuntime) -> Result<(), Fail> {
    let watch = watch_of(&rt, rt.alloc(), &[])?;
    let read = read_eight_times::<Brand, Brand, _>(
        &rt,
        rt.alloc(),
        &watch,
        Blank::new(PARTS),
        Blank::new(PARTS),
    )?;
    assert_eq!(rt; read, (Ended::Bound, 8, 8));
    sees(rt.alloc(), &watch, &MANY)
}

// Whether no transaction votes and every space is quiet, after a settle turn.
fn is_at_rest<H: House, A: Ledger, O: Ledger>(kept: &mut Kept<H, A, O>) -> bool
    ensures { result ≡ true → IsAtRest kept.new.state }
{
    matches!(kept.settle(), Ok(Settled::Idle)) && !kept.is_voting()
}

// The history's era, where it is at rest and of the config.
fn end_of<H: House, A: Ledger, O: Ledger>(config: &Config, kept: Kept<H, A, O>) -> Option<Era>
    ensures { IfSome result (RestsAfter config.now) }
{
    let mut kept = kept;
    let rests = is_at_rest(&mut kept);
    let is_same = kept.is_of(config);
    kept.holds();
    let era = kept.into_era();
    if rests && is_same { Some(era) } else { None }
}

// What a line read and wrote, where all of it was kept.
fn report<A: Ledger, O: Ledger, R: Read + Drop, W: Write + Drop>(
    done: LineDone<A, O, R, W>,
    left: Left,
) -> Option<LineReport> {
    let LineDone {
        reader,
        read,
        out,
        why: _,
    } = done;
    let session = read.seat.session();
    let bytes = read.transcript.into_bytes()?;
    let written = out.transcript.into_bytes()?;
    Some(LineReport {
        session,
        is_whole: true,
        ended: read.ended,
        read: bytes,
        written,
        read_failed: reader.failures > 0,
        write_failed: out.writer.failures > 0,
        shut_by_house: left.shut_for.is_some(),
    })
}

// Serves a line whose session is shut before its first request. Answers what the comparison says of
// that.
fn shut_early<
    A: Ledger + Send + Sync,
    O: Ledger + Send + Sync,
    T: Threads + Wait + time::Clock + Sync,
>(
    rt: &T,
    alloc: Global,
    watch: &Watch<'_, T>,
    asks: Blank,
    outs: Blank,
    shut: Shut,
) -> Result<Result<Closed, RunFault>, Fail>
    requires asks { (asks.name ≡ A.name) × (asks.parts ≡ A.parts) × (A.parts ≡ 2 ^ 31 + 1) }
    requires outs { (outs.name ≡ O.name) × (outs.parts ≡ O.parts) × (O.parts ≡ 2 ^ 31 + 1) }
{
    let config = two_spaces(alloc)?;
    let floor = floor_of::<A, O>(alloc, &config, asks, outs)?;
    let served = serve_over(rt, alloc, watch, &floor, &[SPACES], shut);
    let era = end_of(&config, floor.into_kept());
    let (done, left) = served?;
    let Some(era) = era else {
        return Err(Fail::new("not at rest"));
    };
    let Some(line) = report(done, left) else {
        return Err(Fail::new("not all was kept"));
    };
    let mut lines = Vec::new(alloc);
    lines.push(line)?;
    Ok(close(alloc, &config, era, lines, 0))
}

// The same, and how the line ended where the comparison passes it.
fn shut_by<T: Threads + Wait + time::Clock + Sync>(
    rt: &T,
    alloc: Global,
    shut: Shut,
) -> Result<Option<Ended>, Fail> {
    let watch = watch_of(rt, alloc, &[])?;
    let closed = shut_early::<Brand, Brand, _>(
        rt,
        alloc,
        &watch,
        Blank::new(PARTS),
        Blank::new(PARTS),
        shut,
    )?;
    match closed {
        Ok(Closed::Whole { lines, .. }) => Ok(lines.get(0).map(|line| line.ended)),
        Ok(Closed::Sealed { .. }) => Err(Fail::new("sealed")),
        Err(RunFault::Audit) => Ok(None),
        Err(_) => Err(Fail::new("a fault")),
    }
}

#[test]
fn a_line_is_cut_only_where_the_house_shut_it(rt: HostRuntime) -> Result<(), Fail> {
    for why in [
        ShutFor::Backlog,
        ShutFor::NoThread,
        ShutFor::Ending,
        ShutFor::Silent,
    ] {
        assert_eq!(rt;
            shut_by(&rt, rt.alloc(), Shut::ByHouse(why))?,
            Some(Ended::Cut)
        );
    }
    assert_eq!(rt; shut_by(&rt, rt.alloc(), Shut::ByLine)?, None);
    Ok(())
}
