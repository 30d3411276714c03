//! Sessions that watch what is written, and list it.
use crate::dice::Dice;
use crate::script_text::ScriptText;
use std::alloc::{AllocError, Global};

/// How many sessions watch, what each asks to be told of, and how many topics and levels there are.
const WATCHERS: u32 = 40;

const WATCHES: u32 = 20;

const TOPICS: u32 = 300;

const LEVELS: u32 = 8;

#[derive(Drop)]
struct Hub {
    script: ScriptText,
    dice: Dice,
    writer: u64,
    watchers: Vec<u64>,
    first_watch: u64,
}

/// A script with so many entries written, each for two seconds. Sessions are told of those whose
/// topic and level they watch, list them by pages, look for one of a topic and level, renew what
/// they watch by, and cancel entries.
pub(crate) fn watchers_script(
    alloc: Global,
    entries: u64,
    seed: u64,
) -> Result<String, AllocError> {
    let mut script = ScriptText::new(alloc);
    let writer = script.open()?;
    script.say(
        writer,
        r#""op":"declare","class":"Reading","fields":{"topic":"text","level":"int","value":"int"}"#,
    )?;
    let mut hub = Hub {
        script,
        dice: Dice::new(seed),
        writer,
        watchers: Vec::new(alloc),
        first_watch: 1,
    };
    for _ in 0..WATCHERS {
        hub.enter()?;
    }
    for _ in 0..entries {
        hub.write()?;
        if hub.dice.is_once_in(4) {
            hub.look()?;
        }
        if hub.dice.is_once_in(12) {
            hub.list()?;
        }
        if hub.dice.is_once_in(24) {
            hub.renew()?;
            hub.cancel()?;
        }
        if hub.dice.is_once_in(8) {
            hub.script.pass(20)?;
        }
    }
    Ok(hub.script.text)
}

impl Hub {
    /// A session comes, and watches topics, some of them at one level alone.
    fn enter(&mut self) -> Result<(), AllocError> {
        let session = self.script.open()?;
        self.watchers.push(session)?;
        self.script.say(session, r#""op":"hello","version":2"#)?;
        for watch in 0..WATCHES {
            let topic = self.dice.below(TOPICS);
            self.script.ask(session)?;
            write!(
                self.script.text,
                r#""op":"notify","space":"a","template":{{"class":"Reading","fields":{{"topic":"topic/{topic}""#
            )?;
            if watch % 4 == 0 {
                let level = self.dice.below(LEVELS);
                write!(self.script.text, r#","level":{level}"#)?;
            }
            write!(
                self.script.text,
                r#"}}}},"lease":3600000,"handback":"watch {session}.{watch}""#
            )?;
            self.script.end_numbered()?;
        }
        Ok(())
    }

    fn write(&mut self) -> Result<(), AllocError> {
        let topic = self.dice.below(TOPICS);
        let level = self.dice.below(LEVELS);
        let value = self.dice.below(1_000_000);
        self.script.ask(self.writer)?;
        write!(
            self.script.text,
            r#""op":"write","space":"a","entry":{{"class":"Reading","fields":{{"topic":"topic/{topic}","level":{level},"value":{value}}}}},"lease":2000"#
        )?;
        self.script.end_numbered()?;
        Ok(())
    }

    fn watcher(&mut self) -> u64 {
        let place = self.dice.below(WATCHERS);
        match self.watchers.get(place as usize) {
            Some(session) => *session,
            None => self.writer,
        }
    }

    /// Looks for an entry of a topic and level.
    fn look(&mut self) -> Result<(), AllocError> {
        let session = self.watcher();
        let topic = self.dice.below(TOPICS);
        let level = self.dice.below(LEVELS);
        self.script.ask(session)?;
        write!(
            self.script.text,
            r#""op":"read","space":"a","template":{{"class":"Reading","fields":{{"topic":"topic/{topic}","level":{level}}}}},"timeout":0"#
        )?;
        self.script.end()
    }

    /// Lists the entries of a level, two pages of them.
    fn list(&mut self) -> Result<(), AllocError> {
        let session = self.watcher();
        let level = self.dice.below(LEVELS);
        self.script.ask(session)?;
        write!(
            self.script.text,
            r#""op":"contents","space":"a","template":{{"class":"Reading","fields":{{"level":{level}}}}},"lease":60000"#
        )?;
        let set = self.script.end_numbered()?;
        for _ in 0..2 {
            self.script.ask(session)?;
            write!(self.script.text, r#""op":"next","set":{set},"most":16"#)?;
            self.script.end()?;
        }
        self.script.ask(session)?;
        write!(self.script.text, r#""op":"close_set","set":{set}"#)?;
        self.script.end()
    }

    /// Renews eight of the leases that a session watches by.
    fn renew(&mut self) -> Result<(), AllocError> {
        let session = self.watcher();
        let first = self.dice.below(WATCHERS * WATCHES);
        self.script.ask(session)?;
        self.script.text.push_str(r#""op":"renew_all","leases":["#)?;
        for place in 0..8 {
            let comma = if place == 0 { "" } else { "," };
            let lease = self.first_watch.saturating_add(u64::from(
                first.wrapping_add(place) % (WATCHERS * WATCHES),
            ));
            write!(self.script.text, "{comma}[{lease},3600000]")?;
        }
        self.script.text.push_str("]")?;
        self.script.end()
    }

    /// Cancels entries that were written of late, of which some may be gone.
    fn cancel(&mut self) -> Result<(), AllocError> {
        let last = self.script.last();
        self.script.ask(self.writer)?;
        self.script
            .text
            .push_str(r#""op":"cancel_all","leases":["#)?;
        for place in 0..8 {
            let comma = if place == 0 { "" } else { "," };
            let lease = last.saturating_sub(u64::from(self.dice.below(200)));
            write!(self.script.text, "{comma}{lease}")?;
        }
        self.script.text.push_str("]")?;
        self.script.end()
    }
}
