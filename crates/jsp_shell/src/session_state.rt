//! What the two threads of a session share: what is open, what was refused, and where lines are
//! printed.
use crate::advice::{advice, refusal_of};
use crate::fault::{NotSent, ShellFault};
use crate::listing::MatchSet;
use crate::open::{Open, Task};
use crate::options::Options;
use crate::refused::{Refused, has_fault};
use crate::screen::Screen;
use jsp_forms::{Classes, Declaration, Line, Misfit, Purpose, Request, read_line};
use jsp_frame::frame;
use jsp_reply::Refusal;
use serde_json::Value as Json;
use std::alloc::{AllocError, Global};
use std::collections::BTreeMap;
use std::io::{Stderr, Stdout};
use std::{mem, str};

/// The id of the client's own requests: that of version 2 at the start, and `bye` at the end.
pub(crate) const OWN: u64 = 0;

/// How far a session has come.
#[derive(Clone, Copy, PartialEq, Eq)]
enum Stage {
    /// More may be asked.
    Open,
    /// Nothing more is asked, and the session goes on for the events of a watch.
    Watching,
    /// The input has ended. Once all is answered the session is left.
    Ended,
    /// A `bye` of this id was sent.
    Leaving(u64),
    /// It was said whether anything was refused.
    Closed,
}

/// What is to be done after an answer.
#[derive(Drop)]
pub(crate) enum Turn {
    /// To wait for the next.
    Wait,
    /// To send this frame.
    Send(Vec<u8>),
    /// To send `bye`.
    Leave,
    /// To end.
    End,
}

/// What the two threads of a session share.
#[derive(Drop)]
pub(crate) struct SessionState {
    alloc: Global,
    options: Options,
    screen: Screen,
    /// The requests that aren't answered yet, by their ids.
    open: BTreeMap<u64, Open>,
    /// The last id that was given.
    last: u64,
    /// The request whose answer the next line waits for.
    held_by: Option<u64>,
    classes: Classes,
    refused: Refused,
    stage: Stage,
    /// Why the input isn't read to its end.
    fault: Option<ShellFault>,
}

impl SessionState {
    /// Before the first line, with the client's own request for version 2 open.
    pub(crate) fn new(
        alloc: Global,
        options: Options,
        out: Stdout,
        faults: Stderr,
    ) -> Result<SessionState, ShellFault> {
        let mut open = BTreeMap::new(alloc);
        open.insert(OWN, Open::own())?;
        Ok(SessionState {
            alloc,
            options,
            screen: Screen::new(alloc, out, faults, options.has_prompt),
            open,
            last: OWN,
            held_by: None,
            classes: Classes::new(alloc),
            refused: Refused::new(),
            stage: Stage::Open,
            fault: None,
        })
    }

    /// The frame of a request, which has the next id from now on and is open.
    pub(crate) fn ask(&mut self, line: u64, request: Request) -> Result<Vec<u8>, NotSent> {
        let misfit = self.classes.check(&request)?;
        let open = Open::new(self.alloc, line, &request, misfit)?;
        let holds_up = open.holds_up();
        let is_bye = request.purpose() == Purpose::Bye;
        let id = self.last.saturating_add(1);
        let frame = self.frame(request, id)?;
        self.open.insert(id, open)?;
        self.last = id;
        if holds_up {
            self.held_by = Some(id);
        }
        if is_bye {
            self.stage = Stage::Leaving(id);
        }
        Ok(frame)
    }

    fn frame(&self, request: Request, id: u64) -> Result<Vec<u8>, NotSent> {
        let payload = request.payload(self.alloc, id)?;
        Ok(frame(self.alloc, payload.as_slice())?)
    }

    /// Whether the next line is to wait for an answer.
    pub(crate) fn is_held_up(&self) -> bool {
        self.held_by.is_some()
    }

    /// The one request of a client was asked, or none was.
    pub(crate) fn end_request(&mut self) -> Result<Turn, ShellFault> {
        if self.open.values().any(|open| open.is_watch()) {
            self.stage = Stage::Watching;
            return Ok(Turn::Wait);
        }
        self.end_input()
    }

    /// The input has ended. A person is told what is waited for.
    pub(crate) fn end_input(&mut self) -> Result<Turn, ShellFault> {
        if self.stage == Stage::Open {
            self.stage = Stage::Ended;
            self.screen.begin_line()?;
            if self.options.is_typed {
                self.tell_open()?;
            }
        }
        Ok(self.next_turn())
    }

    /// Tells which requests aren't answered yet.
    fn tell_open(&mut self) -> Result<(), ShellFault> {
        let mut ids = String::new(self.alloc);
        for (id, open) in &self.open {
            if *id == OWN {
                continue;
            }
            let line = open.line;
            let comma = if ids.is_empty() { "" } else { ", " };
            let told = format!(in self.alloc; "{comma}{id} (line {line})")?;
            ids.push_str(told.as_str())?;
        }
        if ids.is_empty() {
            return Ok(());
        }
        self.screen
            .tell(0, format_args!("waits for the answers to {ids}"))
    }

    /// The input can't be read to its end.
    pub(crate) fn fail(&mut self, fault: ShellFault) {
        self.fault = Some(fault);
    }

    /// Why the session ended early: a fault of the input, which ends the connection, comes before
    /// what was met there.
    pub(crate) fn why(&mut self, met: ShellFault) -> ShellFault {
        self.fault.take().unwrap_or(met)
    }

    /// Leaves the session where nothing is open any more.
    fn next_turn(&mut self) -> Turn {
        if self.stage == Stage::Ended && self.open.is_empty() {
            self.stage = Stage::Leaving(OWN);
            return Turn::Leave;
        }
        Turn::Wait
    }

    /// Prints an answer or an event, and tells of a refusal.
    pub(crate) fn answer(&mut self, payload: &[u8]) -> Result<Turn, ShellFault> {
        let Ok(text) = str::from_utf8(payload) else {
            return Err(ShellFault::NotJson);
        };
        let answer = match Json::from_str(self.alloc, text) {
            Ok(answer) => answer,
            Err(error) if error.is_memory() => return Err(ShellFault::NoMemory),
            Err(_) => return Err(ShellFault::NotJson),
        };
        let id = answer.get("id").and_then(Json::as_u64);
        let open = match id {
            Some(id) => self.open.remove(&id),
            None => None,
        };
        match (id, open) {
            (Some(id), Some(open)) => match open.next_set(&answer) {
                Some(set) => return self.list(id, open.line, set, &answer),
                None => self.take(id, open, &answer, text)?,
            },
            (id, _) => self.take_other(id, &answer, text)?,
        }
        match (self.stage, id) {
            (Stage::Leaving(bye), Some(id)) if bye == id => return Ok(Turn::End),
            _ => {}
        }
        self.prompt()?;
        Ok(self.next_turn())
    }

    /// Prints what was said, but for answers to the client's own requests that aren't refused.
    fn print(&mut self, id: Option<u64>, answer: &Json, text: &str) -> Result<(), ShellFault> {
        if id == Some(OWN) && !has_fault(answer) {
            return Ok(());
        }
        self.screen.print(text)
    }

    /// Takes an event, or an answer to none of the requests that are open, as that to the last
    /// `bye` is.
    fn take_other(&mut self, id: Option<u64>, answer: &Json, text: &str) -> Result<(), ShellFault> {
        self.print(id, answer, text)?;
        self.refused.note_answer(answer);
        self.tell_refusals(0, None, answer)
    }

    /// Takes the answer to a request, which is open no more.
    fn take(&mut self, id: u64, open: Open, answer: &Json, text: &str) -> Result<(), ShellFault> {
        self.print(Some(id), answer, text)?;
        self.refused.note_answer(answer);
        let Open { line, task, misfit } = open;
        self.tell_refusals(line, misfit.as_ref(), answer)?;
        self.finish(line, task, answer)?;
        if self.held_by == Some(id) {
            self.held_by = None;
        }
        Ok(())
    }

    /// Does what is to be done at the answer to a request.
    fn finish(&mut self, line: u64, task: Task, answer: &Json) -> Result<(), ShellFault> {
        match task {
            Task::Nothing => {}
            Task::Learn(declaration) => self.learn(declaration, answer)?,
            Task::Find => self.look_for_entry(line, answer)?,
            Task::Watch => {
                if self.stage == Stage::Watching && has_fault(answer) {
                    self.stage = Stage::Ended;
                }
            }
            Task::List(_set) => {}
        }
        Ok(())
    }

    /// Knows the class that was declared, unless that was refused.
    fn learn(&mut self, declaration: Option<Declaration>, answer: &Json) -> Result<(), ShellFault> {
        if has_fault(answer) {
            return Ok(());
        }
        if let Some(declaration) = declaration {
            self.classes.add(declaration)?;
        }
        Ok(())
    }

    /// Tells where no entry was found, and one must be.
    fn look_for_entry(&mut self, line: u64, answer: &Json) -> Result<(), ShellFault> {
        if self.options.must_find && self.refused.note_search(answer) {
            self.screen.tell(line, "no entry")?;
        }
        Ok(())
    }

    /// Prints the entries of a listing's page, and asks for what comes next, under the listing's
    /// id.
    fn list(
        &mut self,
        id: u64,
        line: u64,
        set: MatchSet,
        answer: &Json,
    ) -> Result<Turn, ShellFault> {
        let page = answer.get("ok").and_then(|page| page.get("entries"));
        if let Some(entries) = page.and_then(Json::as_array) {
            for entry in entries {
                let text = entry.to_string(self.alloc)?;
                self.screen.print(text.as_str())?;
            }
        }
        let asked = set.line(self.alloc)?;
        let Ok(Line::Request(request)) = read_line(self.alloc, asked.as_bytes()) else {
            return Err(ShellFault::NoMemory);
        };
        let Ok(frame) = self.frame(request, id) else {
            return Err(ShellFault::NoMemory);
        };
        let open = Open {
            line,
            task: Task::List(Some(set)),
            misfit: None,
        };
        self.open.insert(id, open)?;
        Ok(Turn::Send(frame))
    }

    /// Tells of the refusals that an answer says, its own or those of its items.
    fn tell_refusals(
        &mut self,
        line: u64,
        misfit: Option<&Misfit>,
        answer: &Json,
    ) -> Result<(), ShellFault> {
        if let Some(number) = answer.get("fault").and_then(Json::as_u64) {
            self.tell_refusal(line, misfit, number)?;
        }
        if let Some(items) = answer.get("ok").and_then(Json::as_array) {
            for item in items {
                if let Some(number) = item.get("fault").and_then(Json::as_u64) {
                    self.tell_refusal(line, None, number)?;
                }
            }
        }
        Ok(())
    }

    fn tell_refusal(
        &mut self,
        line: u64,
        misfit: Option<&Misfit>,
        number: u64,
    ) -> Result<(), ShellFault> {
        let Some(refusal) = refusal_of(number) else {
            return self.screen.tell(line, format_args!("refused, {number}"));
        };
        let what_to_do = advice(refusal);
        match misfit {
            Some(misfit) if matches!(refusal, Refusal::BadEntry) => self.screen.tell(
                line,
                format_args!("refused, {number} {refusal:?}: {misfit}; {what_to_do}"),
            ),
            _ => self.screen.tell(
                line,
                format_args!("refused, {number} {refusal:?}: {what_to_do}"),
            ),
        }
    }

    /// Tells why nothing is sent for a line.
    pub(crate) fn refuse(&mut self, line: u64, fault: NotSent) -> Result<(), ShellFault> {
        self.refused.note();
        self.screen.tell(line, fault)
    }

    /// Tells that nothing is sent for a line behind one that leaves the session, unless that is
    /// closed: what is told counts as refused. Answers whether more may be told.
    pub(crate) fn refuse_left(
        &mut self,
        line: u64,
        left_by: &'static str,
    ) -> Result<bool, ShellFault> {
        if self.stage == Stage::Closed {
            return Ok(false);
        }
        self.refuse(line, NotSent::Left(left_by))?;
        Ok(true)
    }

    /// Prints help.
    pub(crate) fn show(&mut self, help: &str) -> Result<(), ShellFault> {
        self.screen.show(help)
    }

    /// A line was typed to its end.
    pub(crate) fn end_typed(&mut self) {
        self.screen.end_typed();
    }

    /// Shows a prompt, where a line may be typed and goes on at once.
    pub(crate) fn prompt(&mut self) -> Result<(), ShellFault> {
        if self.stage != Stage::Open || self.is_held_up() {
            return Ok(());
        }
        self.screen.prompt()
    }

    /// Whether anything was refused, at the end. What wasn't answered by then counts as refused.
    pub(crate) fn close(&mut self) -> Result<Refused, ShellFault> {
        self.stage = Stage::Closed;
        let open = mem::replace(&mut self.open, BTreeMap::new(self.alloc));
        for (_, open) in open {
            self.refused.note();
            self.screen.tell(open.line, "not answered")?;
        }
        Ok(mem::replace(&mut self.refused, Refused::new()))
    }
}
