//! A space that is awkward to search: what is common is looked for, much of it is held, and many
//! wait in vain.
use crate::dice::Dice;
use crate::script_text::{HOUR, ScriptText};
use std::alloc::{AllocError, Global};

/// How deep the classes go, how many colours and sizes entries have, and how many stand.
const DEPTH: u32 = 8;

const COLOURS: u32 = 3;

const SIZES: u32 = 60;

const STANDING: u32 = 3_000;

/// How many of them a transaction takes for good, and how many sessions wait for how much each.
const HELD: u32 = 600;

const SESSIONS: u32 = 16;

const WAITS: u32 = 40;

#[derive(Drop)]
struct Crowd {
    script: ScriptText,
    dice: Dice,
    sessions: Vec<u64>,
    /// What a number stands for that was not given yet.
    fresh: u64,
}

/// A script with so many turns over entries of few colours and sizes, in classes below one another.
/// A transaction holds the first entries, and requests wait for what hardly ever comes. In a turn
/// an entry of a class, a colour and a size is looked for, and a new one is written; now and then a
/// transaction over two spaces is aborted, a session breaks off with what it waits for, a space is
/// reset, and requests are refused.
pub(crate) fn crowd_script(alloc: Global, turns: u64, seed: u64) -> Result<String, AllocError> {
    let mut crowd = Crowd {
        script: ScriptText::new(alloc),
        dice: Dice::new(seed),
        sessions: Vec::new(alloc),
        fresh: 0,
    };
    let first = crowd.script.open()?;
    crowd.declare(first)?;
    for _ in 0..STANDING {
        crowd.write(first, "a", None)?;
    }
    crowd.hold(first)?;
    for _ in 0..SESSIONS {
        let session = crowd.enter()?;
        crowd.sessions.push(session)?;
    }
    for _ in 0..turns {
        crowd.turn()?;
    }
    Ok(crowd.script.text)
}

impl Crowd {
    /// Declares classes, each below the one before.
    fn declare(&mut self, session: u64) -> Result<(), AllocError> {
        self.script.say(
            session,
            r#""op":"declare","class":"Thing0","fields":{"colour":"text","size":"int","whole":"bool","number":"int"}"#,
        )?;
        for depth in 1..DEPTH {
            let above = depth.saturating_sub(1);
            self.script.ask(session)?;
            write!(
                self.script.text,
                r#""op":"declare","class":"Thing{depth}","parent":"Thing{above}","fields":{{"mark{depth}":"text"}}"#
            )?;
            self.script.end()?;
        }
        Ok(())
    }

    fn write(&mut self, session: u64, space: &str, txn: Option<u64>) -> Result<(), AllocError> {
        let depth = self.dice.below(DEPTH);
        let colour = self.dice.below(COLOURS);
        let size = self.dice.below(SIZES);
        self.fresh = self.fresh.saturating_add(1);
        let number = self.fresh;
        self.script.ask(session)?;
        write!(
            self.script.text,
            r#""op":"write","space":"{space}","entry":{{"class":"Thing{depth}","fields":{{"colour":"colour {colour}","size":{size},"whole":true,"number":{number}}}}},"lease":{HOUR}"#
        )?;
        if let Some(txn) = txn {
            write!(self.script.text, r#","txn":{txn}"#)?;
        }
        self.script.end_numbered()?;
        Ok(())
    }

    /// Begins to look for an entry of a class, a colour and a size.
    fn search(
        &mut self,
        session: u64,
        operation: &str,
        txn: Option<u64>,
    ) -> Result<(), AllocError> {
        let depth = self.dice.below(DEPTH);
        let colour = self.dice.below(COLOURS);
        let size = self.dice.below(SIZES);
        self.script.ask(session)?;
        write!(
            self.script.text,
            r#""op":"{operation}","space":"a","template":{{"class":"Thing{depth}","fields":{{"colour":"colour {colour}","size":{size},"whole":true}}}},"timeout":0"#
        )?;
        if let Some(txn) = txn {
            write!(self.script.text, r#","txn":{txn}"#)?;
        }
        self.script.end()
    }

    /// A transaction takes the first entries, and stays open.
    fn hold(&mut self, session: u64) -> Result<(), AllocError> {
        let txn = self.script.begin(session, HOUR)?;
        for _ in 0..HELD {
            self.script.ask(session)?;
            write!(
                self.script.text,
                r#""op":"take","space":"a","template":null,"timeout":0,"txn":{txn}"#
            )?;
            self.script.end()?;
        }
        Ok(())
    }

    /// A session comes that waits for entries that aren't there, each of a number of its own.
    fn enter(&mut self) -> Result<u64, AllocError> {
        let session = self.script.open()?;
        for _ in 0..WAITS {
            let number = self.dice.below(1_000_000);
            self.script.ask(session)?;
            write!(
                self.script.text,
                r#""op":"take","space":"a","template":{{"class":"Thing0","fields":{{"whole":false,"number":{number}}}}},"timeout":{HOUR}"#
            )?;
            self.script.end_numbered()?;
        }
        Ok(session)
    }

    fn turn(&mut self) -> Result<(), AllocError> {
        let place = self.dice.below(SESSIONS) as usize;
        let Some(session) = self.sessions.get(place) else {
            return Ok(());
        };
        let session = *session;
        self.search(session, "read", None)?;
        self.search(session, "take", None)?;
        self.write(session, "a", None)?;
        if self.dice.is_once_in(6) {
            self.undo(session)?;
        }
        if self.dice.is_once_in(10) {
            self.err(session)?;
        }
        if self.dice.is_once_in(60) {
            writeln!(self.script.text, "shut {session}")?;
            let next = self.enter()?;
            if let Some(held) = self.sessions.get_mut(place) {
                *held = next;
            }
        }
        if self.dice.is_once_in(40) {
            self.refill(session)?;
        }
        Ok(())
    }

    /// A transaction takes and writes in two spaces, and is aborted.
    fn undo(&mut self, session: u64) -> Result<(), AllocError> {
        let txn = self.script.begin(session, HOUR)?;
        for _ in 0..3 {
            self.search(session, "take_if", Some(txn))?;
            self.write(session, "b", Some(txn))?;
        }
        self.script.ask(session)?;
        write!(self.script.text, r#""op":"abort","txn":{txn}"#)?;
        self.script.end()
    }

    /// Requests that are refused.
    fn err(&mut self, session: u64) -> Result<(), AllocError> {
        self.script.say(
            session,
            r#""op":"take","space":"a","template":{"class":"Nothing","fields":{"size":1}},"timeout":0"#,
        )?;
        self.script.say(
            session,
            r#""op":"write","space":"a","entry":{"class":"Thing3","fields":{"size":"large"}},"lease":1"#,
        )?;
        self.script.say(
            session,
            r#""op":"take","space":"a","template":[null],"timeout":0"#,
        )?;
        writeln!(self.script.text, "send {session} {{\"id\":1,\"op\":")?;
        Ok(())
    }

    /// A space is filled a little, and reset.
    fn refill(&mut self, session: u64) -> Result<(), AllocError> {
        for _ in 0..10 {
            self.write(session, "c", None)?;
        }
        self.script.say(session, r#""op":"reset","space":"c""#)
    }
}
