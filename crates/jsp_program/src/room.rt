//! What a server needs of the system before it says that it listens.
use crate::fault::Fault;
use crate::standard::open_null_device;
use std::fs::{File, Files};
use std::sync::{Mutex, Wait};
use std::thread::{self, Threads};

/// How many threads serve a first connection: one that reads it, one that writes what others cause,
/// and the one that settles for all.
const THREADS: usize = 3;

/// Whether a first connection can be served: a descriptor is left for it, and the threads that it
/// takes can be started. Without them a server would listen and answer nobody.
pub(crate) fn find_room<R: Files<File = File> + Threads + Wait + Sync>(
    rt: &R,
) -> Result<(), Fault> {
    match open_null_device(rt) {
        Ok(_descriptor) => {}
        Err(error) => return Err(Fault::NoDescriptor(error)),
    }
    if can_start(rt, THREADS) {
        Ok(())
    } else {
        Err(Fault::NoThreads)
    }
}

/// Whether so many threads can be started at once. Each waits until the last one was asked for, and
/// then ends.
fn can_start<R: Threads + Wait + Sync>(rt: &R, count: usize) -> bool {
    let gate = Mutex::new(());
    thread::scope(thread::scope_env(), rt, |scope| -> bool {
        let closed = gate.lock(rt);
        let mut have_started = true;
        for _ in 0..count {
            if scope.spawn(|| drop(gate.lock(rt))).is_err() {
                have_started = false;
                break;
            }
        }
        drop(closed);
        have_started
    })
}
