//! Which jobs there are, and how each is run.
use crate::crowd::crowd_script;
use crate::digest::Digest;
use crate::documents::documents_script;
use crate::lookups::lookups_script;
use crate::served::served;
use crate::watchers::watchers_script;
use crate::workers::workers_script;
use jsp_house::{Hall, Seeds};
use jsp_model::Config;
use jsp_script::{Status, script};
use jsp_types::{Items, NoMemory, Text};
use std::alloc::{AllocError, Global};
use std::sync::Wait;
use std::thread::Threads;
use std::time;

/// The spaces of each job.
const SPACES: [&str; 3] = ["a", "b", "c"];

/// What kind of job it is.
#[derive(Clone, Copy, PartialEq, Eq)]
enum Kind {
    Workers,
    Watchers,
    Crowd,
    Lookups,
    Documents,
}

/// A job of so many parts.
#[derive(Clone, Copy)]
pub(crate) struct Job {
    kind: Kind,
    count: u64,
    seed: u64,
}

impl Job {
    /// The job that the words of a command ask for, which begin with the program's name.
    pub(crate) fn from_words(words: &[String]) -> Option<Job> {
        let [_, kind, count, seed] = words else {
            return None;
        };
        let kind = match kind.as_str() {
            "workers" => Kind::Workers,
            "watchers" => Kind::Watchers,
            "crowd" => Kind::Crowd,
            "lookups" => Kind::Lookups,
            "documents" => Kind::Documents,
            _ => return None,
        };
        Some(Job {
            kind,
            count: count.as_str().parse().ok()?,
            seed: seed.as_str().parse().ok()?,
        })
    }

    fn text(self, alloc: Global) -> Result<String, AllocError> {
        match self.kind {
            Kind::Workers => workers_script(alloc, self.count, self.seed),
            Kind::Watchers => watchers_script(alloc, self.count, self.seed),
            Kind::Crowd => crowd_script(alloc, self.count, self.seed),
            Kind::Lookups => lookups_script(alloc, self.count, self.seed),
            Kind::Documents => documents_script(alloc, self.count, self.seed),
        }
    }
}

/// Runs a job, and answers the digest of all that was sent, or none where it failed.
pub(crate) fn run<T: Threads + Wait + time::Clock + Sync>(
    rt: &T,
    alloc: Global,
    job: Job,
) -> Option<Digest> {
    let config = config(alloc).ok()??;
    let text = job.text(alloc).ok()?;
    match job.kind {
        Kind::Lookups | Kind::Documents => { served(rt, alloc, &config, job.seed, text.as_str()) }
        Kind::Workers | Kind::Watchers => scripted(alloc, &config, false, text.as_str()),
        Kind::Crowd => scripted(alloc, &config, true, text.as_str()),
    }
}

fn config(alloc: Global) -> Result<Option<Config>, NoMemory> {
    let mut names = Items::new(alloc);
    for name in SPACES {
        names.push(Text::from_str(alloc, name)?)?;
    }
    Ok(Config::new(names))
}

fn scripted(alloc: Global, config: &Config, audits: bool, text: &str) -> Option<Digest> {
    let seeds = Seeds::known();
    let house = Hall::new(alloc, config, seeds.house);
    let replay = if audits { Some(seeds.replay) } else { None };
    let mut input = text.as_bytes();
    let mut printed = Digest::EMPTY;
    let mut faults = Digest::EMPTY;
    let ending = script(
        alloc,
        house,
        config,
        replay,
        &mut input,
        &mut printed,
        &mut faults,
    );
    match ending.status {
        Status::Done => Some(printed),
        Status::Failed => None,
    }
}
