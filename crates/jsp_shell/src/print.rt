//! Lines for people and programs, in which a terminal finds nothing to obey.
ghost use Rattle.std.specs.Prelude.{◌≡◌, ◌++◌, ◌<◌, IfOk, OnOk};
ghost use Rattle.std.specs.Io.KnownBytes.{Appends};
ghost use Rattle.std.specs.Char.{is_control};
ghost use Rattle.std.specs.List.{list_any, flat_map};
ghost use Rattle.std.specs.Str.{chars};
ghost use Rattle.std.specs.String.{string_bytes};
ghost use Rattle.jsp_shell.specs.Printed.{escape_of, told, shown, line_of};

use crate::fault::ShellFault;
use std::alloc::{AllocError, Global};
use std::io::Write;

/// What a line says.
#[derive(Clone, Copy)]
pub(crate) enum Said {
    /// Words for people, which may quote what was typed.
    Words,
    /// What was found to be JSON. It stays the same JSON.
    Json,
}

/// Whether a text has a control character.
fn has_control(text: &str) -> bool
    ensures { result ≡ list_any is_control (chars text.now) }
{
    text.chars().any(|next| next.is_control())
}

/// Appends the escape of a control character.
fn push_escape(line: &mut String, control: char) -> Result<(), AllocError>
    requires { control < 256 }
    ensures { OnOk result (string_bytes line.new ≡ string_bytes line.old ++ escape_of control) }
{
    let code = control as u32;
    line.push_str("\\u00")?;
    line.push(char::from_digit(code / 16, 16).unwrap())?;
    line.push(char::from_digit(code % 16, 16).unwrap())
}

/// Appends a character as it is told.
fn push_told(line: &mut String, next: char) -> Result<(), AllocError>
    ensures { OnOk result (string_bytes line.new ≡ string_bytes line.old ++ told next) }
{
    if next.is_control() {
        push_escape(line, next)
    } else {
        line.push(next)
    }
}

/// Appends a character as it is shown.
fn push_shown(line: &mut String, said: Said, next: char) -> Result<(), AllocError>
    ensures { OnOk result (string_bytes line.new ≡ string_bytes line.old ++ shown said next) }
{
    match said {
        Said::Json if next < ' ' => line.push(' '),
        Said::Json | Said::Words => push_told(line, next),
    }
}

/// Appends a text, each character as it is shown.
fn push_all(line: &mut String, said: Said, text: &str) -> Result<(), AllocError>
    ensures { OnOk result (string_bytes line.new ≡ string_bytes line.old ++ flat_map (shown said) (chars text.now)) }
{
    'characters: for next in text.chars() {
        push_shown(line, said, next)?;
    }
    Ok(())
}

/// A line, and its end. Where there is nothing to escape, as in most, it is copied at once.
fn line(alloc: Global, said: Said, text: &str) -> Result<String, AllocError>
    ensures { IfOk result (λ line. string_bytes line ≡ line_of said text.now) }
{
    let mut line = String::with_capacity(alloc, text.len().saturating_add(1))?;
    if has_control(text) {
        push_all(&mut line, said, text)?;
    } else {
        line.push_str(text)?;
    }
    line.push('\n')?;
    Ok(line)
}

/// Prints what was said as a line, in one piece, so that other threads' lines don't come between.
pub(crate) fn print_line<W: Write>(
    alloc: Global,
    out: &mut W,
    said: Said,
    text: &str,
) -> Result<(), ShellFault>
    ensures { OnOk result (Appends (W.contents out.old) (W.contents out.new) (line_of said text.now)) }
{
    let line = line(alloc, said, text)?;
    print_lines(out, line.as_str())
}

/// Prints lines of the client's own, which end by a newline, in one piece too.
pub(crate) fn print_lines<W: Write>(out: &mut W, lines: &str) -> Result<(), ShellFault>
    ensures { OnOk result (Appends (W.contents out.old) (W.contents out.new) lines.now) }
{
    match out.write_all(lines.as_bytes()) {
        Ok(()) => Ok(()),
        Err(_) => Err(ShellFault::Write),
    }
}
