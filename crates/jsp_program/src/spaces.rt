//! The spaces' names, and what is wrong with them.
use crate::arguments::NAMES;
use crate::fault::Fault;
use clap::ArgMatches;
use jsp_model::Config;
use jsp_types::{Items, NoMemory, Text};
use std::alloc::Global;
use thiserror::Error;

/// What is wrong with names of spaces.
#[derive(Debug, Drop, Error)]
pub(crate) enum BadName {
    #[error("'{0}' isn't 1 to 64 letters, digits, '_', '.' or '$'")]
    Form(String),
    #[error("'{0}' is there twice")]
    Twice(String),
    #[error("there are {0}, and at most 64 may be")]
    TooMany(usize),
}

/// The config of the names that were given, or the fault of the first that can't be used.
pub(crate) fn config(alloc: Global, given: &ArgMatches<'_>) -> Result<Config, Fault> {
    let mut spaces = Vec::new(alloc);
    if let Some(names) = given.get_strs(NAMES) {
        for name in names {
            check(alloc, spaces.as_slice(), name)?;
            add(alloc, &mut spaces, name)?;
        }
    }
    let count = spaces.len();
    match Config::new(Items::from_vec(spaces)) {
        Some(config) => Ok(config),
        None => Err(Fault::BadName(BadName::TooMany(count))),
    }
}

fn add(alloc: Global, spaces: &mut Vec<Text>, name: &str) -> Result<(), NoMemory> {
    spaces.push(Text::from_str(alloc, name)?)?;
    Ok(())
}

/// Whether the name can be that of one more space.
fn check(alloc: Global, earlier: &[Text], name: &str) -> Result<(), Fault> {
    if !is_name(alloc, name)? {
        return Err(Fault::BadName(BadName::Form(String::from_str(alloc, name)?)));
    }
    if earlier.iter().any(|space| space.as_str() == name) {
        return Err(Fault::BadName(BadName::Twice(String::from_str(alloc, name)?)));
    }
    Ok(())
}

/// Whether it can be the name of a space that is alone.
fn is_name(alloc: Global, name: &str) -> Result<bool, NoMemory> {
    let mut spaces = Items::new(alloc);
    spaces.push(Text::from_str(alloc, name)?)?;
    Ok(Config::new(spaces).is_some())
}
