//! A declared class with what it holds by descent.
use crate::{Class, Items, Kind, Text};

/// A declared class, the names in its line of descent from itself upwards, and its whole list of
/// fields, the inherited first. Both are kept so that a question about a class takes no memory.
#[derive(Drop)]
pub(crate) struct Known {
    pub class: Class,
    pub line: Items<Text>,
    pub fields: Items<(Text, Kind)>,
}
