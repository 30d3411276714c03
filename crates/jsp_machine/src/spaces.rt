//! Some of the spaces.
ghost use Rattle.std.specs.Prelude.{◌≡◌, ◌∷◌, []};

use std::alloc::Global;
use std::marker::Model;
use std::slice::from_ref;

/// Some spaces, by their places in the configured order. One alone takes no memory. Contracts see
/// them as a list.
#[derive(Drop)]
pub struct Spaces {
    places: Places,
}

#[derive(Drop)]
enum Places {
    One(u64),
    Several(Vec<u64>),
}

impl Model for Spaces {
    ghost use Rattle.std.specs.Prelude.{ℕ, List};
    ghost use Rattle.jsp_machine.specs.Places.{listed};

    ghost Value = { List ℕ };

    ghost view = { λ s. listed s.places };
}

impl Spaces {
    /// No space.
    pub fn none(alloc: Global) -> Spaces
        ensures { result ≡ [] }
    {
        Spaces::several(Vec::new(alloc))
    }

    /// One space alone.
    pub fn one(space: u64) -> Spaces
        ensures { result ≡ space ∷ [] }
    {
        Spaces {
            places: Places::One(space),
        }
    }

    /// The spaces of a vector.
    pub fn several(spaces: Vec<u64>) -> Spaces
        ensures { result ≡ spaces.items }
    {
        Spaces {
            places: Places::Several(spaces),
        }
    }

    /// The spaces.
    pub fn as_slice(&self) -> &[u64]
        ensures { result.now ≡ self.now }
    {
        match &self.places {
            Places::One(space) => from_ref(space),
            Places::Several(spaces) => spaces.as_slice(),
        }
    }
}
