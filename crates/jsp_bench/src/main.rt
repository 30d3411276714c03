//! Jobs of a tuple space, for measuring how long they take: `jsp_bench JOB COUNT SEED`.
//!
//! Each job is a script of requests that the seed makes, of a size that the count says. Most are
//! run as scripts, by `script` of jsp_script; others are served to a line in memory, by `run_house`
//! of jsp_floor, as a server serves a client that waits for each answer. What all sessions are sent
//! goes into a digest, which is printed: so two builds that answer alike print alike. It promises
//! nothing beyond its safety, and that it ends as what it calls does.
#![tactic(auto)]

mod crowd;
mod dice;
mod digest;
mod documents;
mod job;
mod lookups;
mod script_text;
mod served;
mod watchers;
mod workers;

use job::{Job, run};
use std::process::ExitCode;

fn main(rt: HostRuntime) -> ExitCode {
    let alloc = rt.alloc();
    let Ok(words) = std::env::args(&rt) else {
        return ExitCode::from(2);
    };
    let Ok(words) = words.collect::<Vec<String>>(alloc) else {
        return ExitCode::from(2);
    };
    let Some(job) = Job::from_words(words.as_slice()) else {
        let _ = eprintln!(rt; "jsp_bench: JOB COUNT SEED");
        return ExitCode::from(2);
    };
    match run(&rt, alloc, job) {
        Some(digest) => {
            let (hash, bytes) = (digest.hash, digest.bytes);
            match println!(rt; "{bytes} bytes {hash:016x}") {
                Ok(()) => ExitCode::SUCCESS,
                Err(_) => ExitCode::from(1),
            }
        }
        None => {
            let _ = eprintln!(rt; "jsp_bench: failed");
            ExitCode::from(1)
        }
    }
}
