//! What is answered without a server.
use crate::fault::ShellFault;
use crate::refused::Refused;
use crate::screen::Screen;
use jsp_forms::{Line, read_line};
use std::alloc::Global;
use std::io::{Stderr, Stdout};

/// Prints how requests are written, by a line as `help` or `help take`, and answers whether that
/// wasn't understood.
pub fn show_help(
    alloc: Global,
    line: &str,
    out: Stdout,
    faults: Stderr,
) -> Result<Refused, ShellFault> {
    let mut screen = Screen::new(alloc, out, faults, false);
    let mut refused = Refused::new();
    match read_line(alloc, line.as_bytes()) {
        Ok(Line::Nothing) => {}
        Ok(Line::Help(text)) => screen.show(text.as_str())?,
        Ok(Line::Request(request)) => drop(request),
        Err(fault) => {
            refused.note();
            screen.tell(0, fault)?;
        }
    }
    Ok(refused)
}
