//! What tests begin with: two spaces, and what is asked by a payload.
use jsp_model::{Config, Stopped};
use jsp_types::{Items, Text};
use jsp_wire::{Asked, read_ask};
use std::alloc::Global;
use std::test::Fail;

/// The spaces a and b.
pub(crate) fn two_spaces(alloc: Global) -> Result<Config, Fail> {
    let mut names = Items::new(alloc);
    names.push(Text::from_str(alloc, "a")?)?;
    names.push(Text::from_str(alloc, "b")?)?;
    match Config::new(names) {
        Some(config) => Ok(config),
        None => Err(Fail::new("no config")),
    }
}

/// What a payload asks.
pub(crate) fn asked(alloc: Global, payload: &str) -> Result<Asked, Fail> {
    match read_ask(alloc, payload.as_bytes()) {
        Ok(asked) => Ok(asked),
        Err(_) => Err(Fail::new("no request")),
    }
}

/// Fails where a call was stopped.
pub(crate) fn not_stopped<T: Drop>(outcome: Result<T, Stopped>) -> Result<(), Fail> {
    match outcome {
        Ok(_) => Ok(()),
        Err(_) => Err(Fail::new("stopped")),
    }
}
