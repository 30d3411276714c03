//! The names of the classes below one class.
ghost use Rattle.std.specs.Prelude.{◌≡◌, ℕ, [], List, true, bytes_eq, IfOk, OnOk};
ghost use Rattle.std.specs.List.{list_any};

use crate::{Items, NoMemory, Text};
use std::alloc::Global;
use std::marker::Model;

/// Names, each once, in the order in which they were added.
#[derive(Drop)]
pub(crate) struct Names {
    names: Items<Text>,
}

impl Model for Names {
    ghost use Rattle.std.specs.Prelude.{List, ℕ};

    ghost Value = { List (List ℕ) };

    ghost view = { λ a. a.names };
}

impl Clone for Names {
    ghost is_clone = { λ names copy. copy ≡ names };

    fn clone(&self) -> Result<Names, NoMemory> {
        Ok(Names {
            names: copy_names(&self.names)?,
        })
    }
}

fn copy_names(names: &Items<Text>) -> Result<Items<Text>, NoMemory>
    ensures { IfOk result (λ copy. copy ≡ names.now) }
{
    names.clone()
}

fn copy_name(name: &Text) -> Result<Text, NoMemory>
    ensures { IfOk result (λ copy. copy ≡ name.now) }
{
    name.clone()
}

impl Names {
    /// No names.
    pub(crate) fn new(alloc: Global) -> Self
        ensures { result ≡ [] }
    {
        Names {
            names: Items::new(alloc),
        }
    }

    /// The names.
    pub(crate) fn as_slice(&self) -> &[Text]
        ensures { result.now ≡ self.now }
    {
        self.names.as_slice()
    }

    /// Adds a name at the end, where it isn't there already: a class whose declaration was refused
    /// memory may be declared again.
    pub(crate) fn add(&mut self, name: &Text) -> Result<(), NoMemory>
        ensures ok { OnOk result (list_any (bytes_eq name.now) self.new ≡ true) }
        ensures keeps { (other : List ℕ) → list_any (bytes_eq other) self.old ≡ true
            → list_any (bytes_eq other) self.new ≡ true }
    {
        if !is_among(self.as_slice(), name) {
            self.names.push(copy_name(name)?)?;
        }
        Ok(())
    }
}

fn is_among(names: &[Text], name: &Text) -> bool
    ensures { result ≡ list_any (bytes_eq name.now) names.now }
{
    names.iter().any(|other| name.is(other.as_str()))
}
