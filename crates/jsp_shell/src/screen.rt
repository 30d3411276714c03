//! Where a session prints and tells.
use crate::fault::ShellFault;
use crate::print::{Said, print_line, print_lines};
use std::alloc::Global;
use std::fmt::Display;
use std::io::{Stderr, Stdout};

/// What stands where a person may type a line.
const PROMPT: &str = "jsp> ";

/// Where a session prints and tells. What is printed while a prompt stands there begins on a line
/// of its own, behind what is typed so far.
#[derive(Drop)]
pub(crate) struct Screen {
    alloc: Global,
    out: Stdout,
    faults: Stderr,
    has_prompt: bool,
    /// Whether the last line that was printed is a prompt.
    is_prompting: bool,
}

impl Screen {
    pub(crate) fn new(alloc: Global, out: Stdout, faults: Stderr, has_prompt: bool) -> Screen {
        Screen {
            alloc,
            out,
            faults,
            has_prompt,
            is_prompting: false,
        }
    }

    /// Prints a prompt, where there is to be one and none stands there.
    pub(crate) fn prompt(&mut self) -> Result<(), ShellFault> {
        if !self.has_prompt || self.is_prompting {
            return Ok(());
        }
        self.is_prompting = true;
        print_lines(&mut self.out, PROMPT)
    }

    /// A line was typed to its end, which a terminal shows as one.
    pub(crate) fn end_typed(&mut self) {
        self.is_prompting = false;
    }

    /// Begins a line, where a prompt stands there.
    pub(crate) fn begin_line(&mut self) -> Result<(), ShellFault> {
        if !self.is_prompting {
            return Ok(());
        }
        self.is_prompting = false;
        print_lines(&mut self.out, "\n")
    }

    /// Prints what a server said.
    pub(crate) fn print(&mut self, text: &str) -> Result<(), ShellFault> {
        self.begin_line()?;
        print_line(self.alloc, &mut self.out, Said::Json, text)
    }

    /// Prints help, whose lines end by a newline each.
    pub(crate) fn show(&mut self, help: &str) -> Result<(), ShellFault> {
        self.begin_line()?;
        print_lines(&mut self.out, help)
    }

    /// Tells something of a line, or of none where its number is 0.
    pub(crate) fn tell<D: Display + Drop>(&mut self, line: u64, what: D) -> Result<(), ShellFault> {
        let told = if line == 0 {
            format!(in self.alloc; "jsp: {what}")?
        } else {
            format!(in self.alloc; "jsp: line {line}: {what}")?
        };
        self.begin_line()?;
        // Who can't be told is still answered.
        match print_line(self.alloc, &mut self.faults, Said::Words, told.as_str()) {
            Err(ShellFault::NoMemory) => Err(ShellFault::NoMemory),
            _ => Ok(()),
        }
    }
}
