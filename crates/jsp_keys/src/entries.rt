//! The keys by which an entry seeks the templates that may match it. Those of templates that ask
//! for one value at most it seeks under that of no class, of each of its values, and of its class
//! and those above that.
ghost use Rattle.std.specs.Prelude.{◌≡◌, ◌<◌, ◌++◌, ◌∷◌, ℕ, List, length, slice_index};
ghost use Rattle.jsp_types.specs.declared.class.Class.{Class};
ghost use Rattle.jsp_types.specs.declared.entry.Entry.{Entry as OfEntry};
ghost use Rattle.jsp_types.specs.Classes.{line_of};
ghost use Rattle.jsp_keys.specs.Keys.{any_key};
ghost use Rattle.jsp_keys.specs.Templates.{line_keys};

use crate::ValueKeys;
use crate::keys::key_of_class;
use crate::templates::key_of_any;
use jsp_types::{Classes, Entry};

/// What things are sought by: an entry at a space, which the template of each thing that passes
/// matches.
pub trait ByEntry {
    ghost classes_of: { Self → List Class };

    ghost space_of: { Self → ℕ };

    ghost entry_of: { Self → OfEntry };

    fn classes(&self) -> &Classes
        ensures { result.now ≡ classes_of self.now };

    fn space(&self) -> u64
        ensures { result ≡ space_of self.now };

    fn entry(&self) -> &Entry
        ensures { result.now ≡ entry_of self.now };
}

/// How many keys there are of templates that ask for one value at most and may match an entry of
/// the class at a space, the keys of whose values are these.
pub fn count_entry_keys(classes: &Classes, class: &str, values: &ValueKeys) -> usize
    ensures { (seed : ℕ) (space : ℕ) → result ≡ length (any_key seed space ∷ (values.now ++ line_keys seed classes.now space class.now)) }
{
    1 + values.len() + line_length(classes, class)
}

/// The key at a place among these.
pub fn entry_key(
    seed: u64,
    classes: &Classes,
    space: u64,
    class: &str,
    values: &ValueKeys,
    place: usize,
) -> u64
    requires { place < length (any_key seed space ∷ (values.now ++ line_keys seed classes.now space class.now)) }
    ensures { result ≡ slice_index (any_key seed space ∷ (values.now ++ line_keys seed classes.now space class.now)) place }
{
    if place == 0 {
        return key_of_any(seed, space);
    }
    let place = place - 1;
    let count = values.len();
    if place < count {
        return values.get(place);
    }
    line_key(seed, classes, space, class, place - count)
}

fn line_length(classes: &Classes, class: &str) -> usize
    ensures { result ≡ length (line_of classes.now class.now) }
{
    match classes.line_of(class) {
        None => 1,
        Some(line) => line.len(),
    }
}

/// The key of the class at a place in a class's line of descent.
fn line_key(seed: u64, classes: &Classes, space: u64, class: &str, place: usize) -> u64
    requires { place < length (line_of classes.now class.now) }
    ensures { result ≡ slice_index (line_keys seed classes.now space class.now) place }
{
    match classes.line_of(class) {
        None => key_of_class(seed, space, class),
        Some(line) => key_of_class(seed, space, line[place].as_str()),
    }
}
