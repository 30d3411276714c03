//! A program for tests alone: runs a script over a house, and makes each call again that is stopped
//! for want of memory.
//!
//!     jsp_retry hall|rows|kept
//!
//! reads a script of `jsp script`, but for `hex` lines, over the spaces a and b, and prints what
//! that prints. A call whose own step wasn't made is made again; where it was made, what it left is
//! finished. Whenever one is stopped, all steps so far are replayed. At the end it tells on
//! standard error how many calls were stopped without their own step, and how many with it. It ends
//! with status 1 where the steps are no run, or a line isn't understood, and with 2 where it
//! couldn't begin.
#![tactic(auto)]

mod bare;
mod calls;
mod fault;
mod in_eras;
mod lines;
mod over;
mod runner;

use fault::Fault;
use over::run_over;
use std::alloc::Global;
use std::io::{Read, Write};
use std::process::ExitCode;

/// The bytes of standard input.
fn read_all<R: Read>(alloc: Global, input: &mut R) -> Result<Vec<u8>, Fault> {
    let mut bytes = Vec::new(alloc);
    match input.read_to_end(&mut bytes) {
        Ok(_) => Ok(bytes),
        Err(_) => Err(Fault::NotBegun),
    }
}

fn main(rt: HostRuntime) -> ExitCode {
    let alloc = rt.alloc();
    let Ok(words) = std::env::args(&rt) else {
        return ExitCode::from(2);
    };
    let Ok(words) = words.collect::<Vec<String>>(alloc) else {
        return ExitCode::from(2);
    };
    let [_, word] = words.as_slice() else {
        return ExitCode::from(2);
    };
    let Ok(bytes) = read_all(alloc, &mut rt.stdin()) else {
        return ExitCode::from(2);
    };
    match run_over(alloc, word.as_str(), bytes.as_slice()) {
        Ok(done) => {
            let (unmade, made) = (done.unmade, done.made);
            let told = eprintln!(rt; "{unmade} {made}");
            match rt.stdout().write_all(done.printed.as_slice()) {
                Ok(()) if told.is_ok() => ExitCode::SUCCESS,
                _ => ExitCode::from(1),
            }
        }
        Err(Fault::NotBegun) => ExitCode::from(2),
        Err(fault) => {
            let _ = eprintln!(rt; "jsp_retry: {fault}");
            ExitCode::from(1)
        }
    }
}
