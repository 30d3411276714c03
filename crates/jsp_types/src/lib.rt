//! Values, classes, entries and templates, and when a template matches an entry.
//!
//! A class has a parent or none and fields of three kinds; what it inherits comes first and is
//! never hidden. An entry has a class and a value or null for each of the class's fields. A
//! template matches the entries of its class and of that class's subclasses that equal each of its
//! fields that isn't null (JavaSpaces). The contracts cite `specs/Classes.antt` and
//! `specs/Matching.antt`: a declaration extends the list of classes or leaves it, a check gives the
//! entry or the first fault that applies, and `matches` is the definition.
#![tactic(auto)]

mod adding;
mod checking;
mod class;
mod classes;
mod declaring;
mod descendants;
mod entry;
mod items;
mod known;
mod matching;
mod names;
mod names_below;
mod places;
mod shared;
mod short_text;
mod sorting;
mod text;
mod value;

pub use checking::{
    check_entry, check_template, entry_fault, fill_entry, fill_template, template_fault,
};
pub use class::{Class, ClassFault, DeclareError};
pub use classes::Classes;
pub use declaring::MOST_FIELDS;
pub use entry::{Entry, EntryError, EntryFault, Raw, Template};
pub use items::Items;
pub use matching::matches;
pub use std::alloc::AllocError as NoMemory;
pub use text::Text;
pub use value::{Kind, Value};
