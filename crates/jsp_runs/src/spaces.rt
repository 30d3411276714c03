//! The spaces of the runs.
use jsp_model::Config;
use jsp_types::{Items, Text};
use std::alloc::Global;
use std::test::Fail;

/// The spaces a and b.
pub(crate) fn two_spaces(alloc: Global) -> Result<Config, Fail> {
    let mut names = Items::new(alloc);
    names.push(Text::from_str(alloc, "a")?)?;
    names.push(Text::from_str(alloc, "b")?)?;
    match Config::new(names) {
        Some(config) => Ok(config),
        None => Err(Fail::new("no config")),
    }
}
