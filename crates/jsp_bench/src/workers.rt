//! A pool of workers: jobs in one space, their results in another.
use crate::dice::Dice;
use crate::script_text::{HOUR, ScriptText};
use std::alloc::{AllocError, Global};

/// How many workers there are, how many kinds of jobs, and how many jobs stand at first.
const WORKERS: u32 = 12;

const KINDS: u32 = 24;

const STANDING: u64 = 600;

/// Sessions of one script.
#[derive(Drop)]
struct Pool {
    script: ScriptText,
    dice: Dice,
    master: u64,
    workers: Vec<u64>,
}

/// A script in which so many jobs are done. A master writes jobs of several kinds, which stand in
/// the space `a` for a while. A worker takes one of its kind under a transaction, writes its result
/// into `b`, and commits; some give up. For urgent jobs workers wait. The master takes each result
/// by its job. Each worker has an entry that says that it is there, and renews its lease.
pub(crate) fn workers_script(alloc: Global, jobs: u64, seed: u64) -> Result<String, AllocError> {
    let mut script = ScriptText::new(alloc);
    let master = script.open()?;
    script.say(
        master,
        r#""op":"declare","class":"Job","fields":{"number":"int","kind":"text","words":"text"}"#,
    )?;
    script.say(
        master,
        r#""op":"declare","class":"Urgent","parent":"Job","fields":{"until":"int"}"#,
    )?;
    script.say(
        master,
        r#""op":"declare","class":"Result","fields":{"job":"int","by":"int","length":"int"}"#,
    )?;
    script.say(
        master,
        r#""op":"declare","class":"Presence","fields":{"worker":"int"}"#,
    )?;
    let mut pool = Pool {
        script,
        dice: Dice::new(seed),
        master,
        workers: Vec::new(alloc),
    };
    let first_presence = pool.greet()?;
    for job in 0..STANDING {
        let kind = pool.dice.below(KINDS);
        pool.write_job(job, kind)?;
    }
    for job in STANDING..STANDING.saturating_add(jobs) {
        pool.work(job, first_presence)?;
    }
    Ok(pool.script.text)
}

impl Pool {
    /// The workers come, and each writes that it is there. Answers the number of the first such
    /// entry.
    fn greet(&mut self) -> Result<u64, AllocError> {
        for worker in 0..WORKERS {
            let session = self.script.open()?;
            self.workers.push(session)?;
            self.script.ask(session)?;
            write!(
                self.script.text,
                r#""op":"write","space":"b","entry":{{"class":"Presence","fields":{{"worker":{worker}}}}},"lease":60000"#
            )?;
            self.script.end_numbered()?;
        }
        Ok(self.script.last().saturating_sub(u64::from(WORKERS) - 1))
    }

    fn write_job(&mut self, job: u64, kind: u32) -> Result<(), AllocError> {
        let weight = self.dice.below(1_000_000);
        self.script.ask(self.master)?;
        write!(
            self.script.text,
            r#""op":"write","space":"a","entry":{{"class":"Job","fields":{{"number":{job},"kind":"kind-{kind}","words":"resize image {weight} to a width of 640"}}}},"lease":{HOUR}"#
        )?;
        self.script.end_numbered()?;
        Ok(())
    }

    /// A job comes, and one is done.
    fn work(&mut self, job: u64, first_presence: u64) -> Result<(), AllocError> {
        let place = self.dice.below(WORKERS);
        let Some(worker) = self.workers.get(place as usize) else {
            return Ok(());
        };
        let worker = *worker;
        if self.dice.is_once_in(5) {
            self.hurry(job, worker)?;
        } else {
            let kind = self.dice.below(KINDS);
            self.write_job(job, kind)?;
            self.take_and_tell(job, worker, kind)?;
        }
        if self.dice.is_once_in(8) {
            let presence = first_presence.saturating_add(u64::from(place));
            self.script.ask(worker)?;
            write!(
                self.script.text,
                r#""op":"renew","lease":{presence},"ms":60000"#
            )?;
            self.script.end()?;
        }
        if self.dice.is_once_in(16) {
            self.script.pass(40)?;
        }
        Ok(())
    }

    /// A worker takes the oldest job of a kind under a transaction and writes a result, and the
    /// master takes that. Once in sixteen times the worker gives up.
    fn take_and_tell(&mut self, job: u64, worker: u64, kind: u32) -> Result<(), AllocError> {
        let txn = self.script.begin(worker, 10_000)?;
        self.script.ask(worker)?;
        write!(
            self.script.text,
            r#""op":"take","space":"a","template":{{"class":"Job","fields":{{"kind":"kind-{kind}"}}}},"timeout":0,"txn":{txn}"#
        )?;
        self.script.end()?;
        if self.dice.is_once_in(16) {
            self.script.ask(worker)?;
            write!(self.script.text, r#""op":"abort","txn":{txn}"#)?;
            return self.script.end();
        }
        self.tell(job, worker, Some(txn))?;
        self.script.commit(worker, txn, 2)?;
        self.collect(job)
    }

    /// A worker waits for an urgent job, which then comes.
    fn hurry(&mut self, job: u64, worker: u64) -> Result<(), AllocError> {
        self.script.ask(worker)?;
        self.script.text.push_str(
            r#""op":"take","space":"a","template":{"class":"Urgent","fields":{}},"timeout":60000"#,
        )?;
        self.script.end_numbered()?;
        let until = self.dice.below(1_000_000);
        self.script.ask(self.master)?;
        write!(
            self.script.text,
            r#""op":"write","space":"a","entry":{{"class":"Urgent","fields":{{"number":{job},"kind":"urgent","words":"send the bill","until":{until}}}}},"lease":{HOUR}"#
        )?;
        self.script.end_numbered()?;
        self.tell(job, worker, None)?;
        self.collect(job)
    }

    fn tell(&mut self, job: u64, worker: u64, txn: Option<u64>) -> Result<(), AllocError> {
        let length = self.dice.below(100_000);
        self.script.ask(worker)?;
        write!(
            self.script.text,
            r#""op":"write","space":"b","entry":{{"class":"Result","fields":{{"job":{job},"by":{worker},"length":{length}}}}},"lease":600000"#
        )?;
        if let Some(txn) = txn {
            write!(self.script.text, r#","txn":{txn}"#)?;
        }
        self.script.end_numbered()?;
        Ok(())
    }

    fn collect(&mut self, job: u64) -> Result<(), AllocError> {
        self.script.ask(self.master)?;
        write!(
            self.script.text,
            r#""op":"take","space":"b","template":{{"class":"Result","fields":{{"job":{job}}}}},"timeout":0"#
        )?;
        self.script.end()
    }
}
