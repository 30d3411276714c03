//! The declared classes.
ghost use Rattle.std.specs.Prelude.{◌≡◌, ◌==◌, if◌then◌else◌, [], length, option_copied, find, MatchOption, IfOk, IfSome, IsTrue, Some, None, option_and_then, ◌||◌, ℕ, List, true, bytes_eq};
ghost use Rattle.std.specs.List.{slice_get, list_any};
ghost use Rattle.jsp_types.specs.Classes.{class_named, is_declared, is_sub, line_of, declared_fields, is_within_limits};
ghost use Rattle.jsp_types.specs.NameMaps.{looked_up};
ghost use Rattle.jsp_types.specs.Places.{if_named, found_at};

use crate::descendants::Descendants;
use crate::known::Known;
use crate::places::Places;
use crate::shared::Shared;
use crate::{Items, Kind, NoMemory, Text};
use std::alloc::Global;
use std::marker::Model;

/// The declared classes. Contracts see the list of them, in the order of their declarations.
#[derive(Drop)]
pub struct Classes {
    pub(crate) alloc: Global,
    pub(crate) known: Items<Shared>,
    pub(crate) places: Places,
    pub(crate) descendants: Descendants,
}

impl Model for Classes {
    ghost use Rattle.std.specs.Prelude.{List};
    ghost use Rattle.jsp_types.specs.declared.class.Class.{Class};
    ghost use Rattle.jsp_types.specs.Known.{classes_of};
    ghost use Rattle.jsp_types.specs.Storage.{AreKeptWith};

    ghost Value = { List Class };

    ghost view = { λ a. classes_of a.known };

    ghost invariant = { λ a. AreKeptWith a.known a.places a.descendants };
}

impl Clone for Classes {
    ghost is_clone = { λ classes copy. copy ≡ classes };

    fn clone(&self) -> Result<Classes, NoMemory> {
        Ok(Classes {
            alloc: self.alloc,
            known: copy_of(&self.known)?,
            places: self.places.clone()?,
            descendants: self.descendants.clone()?,
        })
    }
}

/// A copy.
fn copy_of(known: &Items<Shared>) -> Result<Items<Shared>, NoMemory>
    ensures { IfOk result (λ copy. copy ≡ known.now) }
{
    known.clone()
}

/// Up to so many classes are found by comparing their names sooner than by their places.
const FEW: usize = 8;

/// What is kept of the class of that name, which is looked for one by one.
fn first_named<'a>(known: &'a [Shared], name: &str) -> Option<&'a Known>
    ensures { option_copied result ≡ find (λ k. bytes_eq k.class.name name.now) known.now }
{
    match first_of_name(known, name) {
        None => None,
        Some(shared) => Some(shared.get()),
    }
}

fn first_of_name<'a>(known: &'a [Shared], name: &str) -> Option<&'a Shared>
    ensures { option_copied result ≡ find (λ k. bytes_eq k.class.name name.now) known.now }
{
    known.iter().find(|shared| shared.is_of(name))
}

/// What is kept of the class of that name, by the place that is noted for it.
fn find_known<'a>(known: &'a [Shared], places: &Places, name: &str) -> Option<&'a Known>
    ensures { option_copied result ≡ found_at (looked_up places.now.shared) known.now name.now }
{
    match places.get(name) {
        None => None,
        Some(place) => known_at(known, place, name),
    }
}

/// What stands at the place, where it has the name.
fn known_at<'a>(known: &'a [Shared], place: usize, name: &str) -> Option<&'a Known>
    ensures { option_copied result
        ≡ option_and_then (if_named name.now) (slice_get known.now place) }
{
    match known.get(place) {
        None => None,
        Some(shared) => get_if_named(shared, name),
    }
}

/// What is kept, where it is of a class of that name.
fn get_if_named<'a>(shared: &'a Shared, name: &str) -> Option<&'a Known>
    ensures { option_copied result ≡ if_named name.now shared.now }
{
    if shared.is_of(name) {
        return Some(shared.get());
    }
    None
}

impl Classes {
    ghost use Rattle.jsp_types.specs.Known.{IsKeptOf};

    /// No classes.
    pub fn new(alloc: Global) -> Self
        ensures { result ≡ [] }
    {
        Classes {
            alloc,
            known: Items::new(alloc),
            places: Places::new(),
            descendants: Descendants::new(),
        }
    }

    /// What is kept of the class of that name.
    pub(crate) fn known(&self, name: &str) -> Option<&Known>
        ensures { MatchOption result
            (class_named self.now name.now ≡ None)
            (λ known. IsKeptOf self.now name.now known.now) }
    {
        let known = self.known.as_slice();
        if known.len() <= FEW {
            return first_named(known, name);
        }
        find_known(known, &self.places, name)
    }

    /// How many classes are declared.
    pub fn len(&self) -> usize
        ensures { result ≡ length self.now }
    {
        self.known.as_slice().len()
    }

    /// Whether none is.
    pub fn is_empty(&self) -> bool
        ensures { result ≡ (length self.now == 0) }
    {
        self.known.as_slice().is_empty()
    }

    /// Whether the class is the other or has it in its line of descent. Takes no memory.
    pub fn is_sub(&self, class: &str, ancestor: &str) -> bool
        ensures { result ≡ is_sub self.now class.now ancestor.now }
    {
        ancestor == class
            || match self.known(class) {
                None => false,
                Some(known) => known
                    .line
                    .as_slice()
                    .iter()
                    .any(|name| ancestor == name.as_str()),
            }
    }

    /// The class, its parent, its parent's parent and so on, at most 16, or none where it isn't
    /// declared. Takes no memory.
    pub fn line_of(&self, class: &str) -> Option<&[Text]>
        ensures { option_copied result ≡ (if is_declared self.now class.now then Some (line_of self.now class.now) else None) }
    {
        match self.known(class) {
            None => None,
            Some(known) => Some(known.line.as_slice()),
        }
    }

    /// The names of the classes that have this one in their line of descent, itself apart, in the
    /// order of their declarations. A class whose declaration was refused memory may be named too.
    /// Takes no memory.
    pub fn below(&self, name: &str) -> &[Text]
        ensures { (c : List ℕ) → is_sub self.now c name.now ≡ true
            → (bytes_eq c name.now || list_any (bytes_eq c) result.now) ≡ true }
    {
        self.descendants.get(name)
    }

    /// The class's fields, the inherited first, or none where the class isn't declared. Takes no
    /// memory.
    pub fn fields_of(&self, class: &str) -> Option<&[(Text, Kind)]>
        ensures fields { option_copied result ≡ declared_fields self.now class.now }
        ensures within_limits { IfSome result
            (λ fields. IsTrue (is_within_limits class.now fields.now)) }
    {
        match self.known(class) {
            None => None,
            Some(known) => Some(known.fields.as_slice()),
        }
    }
}
