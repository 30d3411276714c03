//! How requests are written, for people.
use crate::form::{FORMS, Form, Member, Place, Shape, Usual};
use std::alloc::{AllocError, Global};
use std::fmt;

const BEFORE: &str = "\
A line is a request in JSON, without its id, or one of these. A value is a number, true, false or else text; quotes, as
in JSON, make text of what has blanks, commas or only digits. A field that is named like a word of the form, as lease,
needs JSON. `help take` says more of take. `rlwrap jsp client ADDR` lets lines be edited and found again.
";

impl fmt::Display for Member {
    fn fmt<W: fmt::Write>(&self, f: &mut fmt::Formatter<W>) -> fmt::Result {
        let name = self.name;
        match self.place {
            Place::Word => write!(f, " {name}"),
            Place::Rest => write!(f, " {}", words(self.shape)),
            Place::Named(usual) => {
                write!(f, " [{name}")?;
                if let Some(also) = self.also {
                    write!(f, "|{also}")?;
                }
                match usual {
                    Usual::Nothing if self.shape == Shape::Number => write!(f, "=number]"),
                    Usual::Nothing => write!(f, "=text]"),
                    Usual::Number(number) => write!(f, "={number}]"),
                    Usual::EmptyText => write!(f, "=\"\"]"),
                }
            }
        }
    }
}

/// The words of a member of many words.
fn words(shape: Shape) -> &'static str {
    match shape {
        Shape::Kinds => "[field:kind..]",
        Shape::Entry => "class [field=value..]",
        Shape::Template => "[class [field=value..]]",
        Shape::Entries => "class [field=value..][, class ..]",
        Shape::Templates => "class [field=value..][, class ..]",
        Shape::Pairs => "lease:ms [lease:ms..]",
        Shape::Text | Shape::Number | Shape::Numbers => "lease [lease..]",
    }
}

impl fmt::Display for Form {
    fn fmt<W: fmt::Write>(&self, f: &mut fmt::Formatter<W>) -> fmt::Result {
        write!(f, "{}", self.name)?;
        if let Some(also) = self.also {
            write!(f, "|{also}")?;
        }
        for member in self.members {
            write!(f, "{member}")?;
        }
        Ok(())
    }
}

/// How one operation is written, or all of them.
pub(crate) fn help(alloc: Global, form: Option<&Form>) -> Result<String, AllocError> {
    match form {
        Some(form) => {
            let Form { about, example, .. } = form;
            format!(in alloc; "{form}\n  {about}\n  {example}\n")
        }
        None => help_on_all(alloc),
    }
}

fn help_on_all(alloc: Global) -> Result<String, AllocError> {
    let mut text = String::from_str(alloc, BEFORE)?;
    for form in &FORMS {
        let line = format!(in alloc; "  {form}\n")?;
        text.push_str(line.as_str())?;
    }
    Ok(text)
}
