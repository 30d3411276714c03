//! How long a connection has made no whole request, and how long it may make none.
ghost use Rattle.std.specs.Prelude.{◌≡◌, ◌-◌, ◌*◌};
ghost use Rattle.std.specs.Duration.{as_nanos};

use std::io;
use std::sync::atomic::{AtomicU64, Ordering};
use std::time::{Clock, Duration, Instant};

/// How long a connection has made no whole request. It counts from the last one, or from the
/// connection's beginning: a byte now and then doesn't begin it anew, nor does a call that was
/// interrupted.
#[derive(Drop)]
pub(crate) struct Idle {
    /// How long it may make none, if that is bounded.
    most: Option<Duration>,
    start: Instant,
    /// How many requests there were when it was looked last, and when there were so many first, in
    /// milliseconds after the start.
    seen: AtomicU64,
    since: AtomicU64,
}

impl Idle {
    /// From now on.
    pub(crate) fn new(system: &impl Clock, most: Option<Duration>) -> io::Result<Idle> {
        Ok(Idle {
            most,
            start: Instant::now(system)?,
            seen: AtomicU64::new(0),
            since: AtomicU64::new(0),
        })
    }

    /// How much time is left, in whole milliseconds, where so many requests were made and that is
    /// bounded: zero once it is over.
    pub(crate) fn left(
        &self,
        system: &impl Clock,
        requests: &AtomicU64,
    ) -> io::Result<Option<Duration>> {
        let (since, now) = self.times(system, requests)?;
        match self.most {
            None => Ok(None),
            Some(most) => Ok(Some(left_at(now, since, most))),
        }
    }

    /// For how many milliseconds none was made, where there were so many.
    pub(crate) fn silent(&self, system: &impl Clock, requests: &AtomicU64) -> u64 {
        match self.times(system, requests) {
            Ok((since, now)) => now.saturating_sub(since),
            Err(_) => 0,
        }
    }

    /// Since when there are so many requests, and the time now, in milliseconds after the start.
    fn times(&self, system: &impl Clock, requests: &AtomicU64) -> io::Result<(u64, u64)> {
        let now = u64::try_from(self.start.elapsed(system)?.as_millis()).unwrap_or(u64::MAX);
        let requests = requests.load(Ordering::SeqCst);
        if self.seen.load(Ordering::SeqCst) != requests {
            // The time comes first: the other half, once it sees the number, counts from there too.
            self.since.store(now, Ordering::SeqCst);
            self.seen.store(requests, Ordering::SeqCst);
        }
        Ok((self.since.load(Ordering::SeqCst), now))
    }
}

/// How much is left now of a time that began then, both in milliseconds: zero once it is over.
fn left_at(now: u64, then: u64, most: Duration) -> Duration
    ensures { as_nanos result ≡ as_nanos most - (now - then) * 1_000_000 }
{
    most.saturating_sub(Duration::from_millis(now.saturating_sub(then)))
}
