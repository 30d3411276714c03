//! A request that isn't answered yet.
use crate::listing::MatchSet;
use jsp_forms::{Declaration, Misfit, Purpose, Request};
use serde_json::Value as Json;
use std::alloc::{AllocError, Global};

/// What is to be done at an answer, beside printing it.
#[derive(Drop)]
pub(crate) enum Task {
    Nothing,
    /// To know the class that was declared, where the request says one.
    Learn(Option<Declaration>),
    /// To see whether an entry was found.
    Find,
    /// To go on being told, unless it is refused.
    Watch,
    /// To list the entries of its match set, once that is opened.
    List(Option<MatchSet>),
}

impl Task {
    /// What is to be done at the answer to a request.
    fn of(alloc: Global, request: &Request) -> Result<Task, AllocError> {
        Ok(match request.purpose() {
            Purpose::Declare => Task::Learn(Declaration::of(alloc, request)?),
            Purpose::Search => Task::Find,
            Purpose::Watch => Task::Watch,
            Purpose::List => Task::List(None),
            Purpose::Bye | Purpose::Quit | Purpose::Other => Task::Nothing,
        })
    }
}

/// A request that isn't answered yet.
#[derive(Drop)]
pub(crate) struct Open {
    /// The number of its line, or 0 where it is the client's own.
    pub(crate) line: u64,
    pub(crate) task: Task,
    /// What of it doesn't fit its class, where that is known.
    pub(crate) misfit: Option<Misfit>,
}

impl Open {
    /// One of the client's own.
    pub(crate) fn own() -> Open {
        Open {
            line: 0,
            task: Task::Nothing,
            misfit: None,
        }
    }

    /// The request of a line.
    pub(crate) fn new(
        alloc: Global,
        line: u64,
        request: &Request,
        misfit: Option<Misfit>,
    ) -> Result<Open, AllocError> {
        Ok(Open {
            line,
            task: Task::of(alloc, request)?,
            misfit,
        })
    }

    /// How a listing goes on after an answer; none where this is no listing, or that is its end.
    pub(crate) fn next_set(&self, answer: &Json) -> Option<MatchSet> {
        match self.task {
            Task::List(None) => MatchSet::opened_by(answer),
            Task::List(Some(set)) => set.after(answer),
            _ => None,
        }
    }

    /// Whether the next line waits for its answer: what the line means may hang on the classes that
    /// are known by then, and what it prints isn't to stand within a listing.
    pub(crate) fn holds_up(&self) -> bool {
        matches!(self.task, Task::Learn(_) | Task::List(_))
    }

    pub(crate) fn is_watch(&self) -> bool {
        matches!(self.task, Task::Watch)
    }
}
