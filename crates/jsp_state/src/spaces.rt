//! Spaces, by their names and by their places in the configured order.
ghost use Rattle.std.specs.Prelude.{◌≡◌, map, IfOk, position, bytes_eq};
ghost use Rattle.jsp_model.specs.Lookup.{space_named as place_named, crash_count as crash_count_of};
ghost use Rattle.jsp_model.specs.Requests.{place_of as place_in};

use jsp_core::Core;
use jsp_model::Space;
use jsp_types::{Items, NoMemory, Text};
use std::alloc::Global;

/// The place of the space of this name, if there is one.
pub fn space_named(state: &Core, name: &str) -> Option<u64>
    ensures { result ≡ place_named state.now name.now }
{
    match position_of(state.spaces.as_slice(), name) {
        None => None,
        Some(place) => Some(place as u64),
    }
}

fn position_of(spaces: &[Space], name: &str) -> Option<usize>
    ensures { result ≡ position (λ p. bytes_eq p.name name.now) spaces.now }
{
    spaces.iter().position(|p| p.name.is(name))
}

/// The place of a space that is there.
pub fn place_of(state: &Core, name: &str) -> u64
    ensures { result ≡ place_in state.now name.now }
{
    space_named(state, name).unwrap_or(0)
}

/// How often the space was reset, and once.
pub fn crash_count(state: &Core, space: u64) -> u64
    ensures { result ≡ crash_count_of state.now space }
{
    let spaces = state.spaces.as_slice();
    match spaces.get(space as usize) {
        None => 0,
        Some(found) => found.crash_count,
    }
}

/// The names of the spaces, in their order.
pub fn names_of(alloc: Global, state: &Core) -> Result<Items<Text>, NoMemory>
    ensures { IfOk result (λ v. v ≡ map (λ p. p.name) state.now.spaces) }
{
    copy_names(alloc, state.spaces.as_slice())
}

fn copy_names(alloc: Global, spaces: &[Space]) -> Result<Items<Text>, NoMemory>
    ensures { IfOk result (λ v. v ≡ map (λ p. p.name) spaces.now) }
{
    let mut names = Items::new(alloc);
    'spaces: for space in spaces {
        names.push(space.name.clone()?)?;
    }
    Ok(names)
}
