//! Threads, where a full machine may refuse one.
use std::thread;
use std::thread::{JoinHandle, Scope};
use std::time::{Clock, Duration};

/// After how many milliseconds a thread is asked for again.
const PAUSE: u64 = 50;

/// How often one is asked for.
const TRIES: u64 = 20;

/// Starts a thread of the scope. Where none can be had for a second, there is none. To be called
/// where nobody waits.
pub fn start<'s, E, R: Clock, F: FnOnce() -> T + Send + Drop + 's, T: Send + Drop + 's>(
    rt: &R,
    scope: &Scope<'s, E>,
    work: F,
) -> Option<JoinHandle<T>>
    requires { F.pre work }
{
    let mut work = work;
    for _ in 0..TRIES {
        match scope.spawn(work) {
            Ok(thread) => return Some(thread),
            Err(refused) => work = refused.value,
        }
        thread::sleep(rt, Duration::from_millis(PAUSE));
    }
    None
}
