//! The places of classes in the list of them, by name.
ghost use Rattle.std.specs.Prelude.{◌≡◌, ℕ, List, None, string_bytes, IfOk, OnOk, OnErr};
ghost use Rattle.std.specs.Arc.{arc_value};
ghost use Rattle.std.specs.HashMap.{get_by_text};
ghost use Rattle.jsp_types.specs.NameMaps.{looked_up, with_value, AreSame};

use crate::NoMemory;
use std::alloc::Global;
use std::collections::HashMap;
use std::sync::Arc;

/// A place for each name.
type PlaceMap = HashMap<String, usize>;

/// The places that are noted for names. Copies share the map until one of them changes: each commit
/// copies the classes, and declarations are rare.
#[derive(Drop)]
pub(crate) struct Places {
    pub(crate) shared: Option<Arc<PlaceMap>>,
}

impl Clone for Places {
    ghost is_clone = { λ places copy. AreSame (looked_up copy.shared) (looked_up places.shared) };

    fn clone(&self) -> Result<Places, NoMemory> {
        let shared = match &self.shared {
            None => None,
            Some(map) => Some(Arc::try_clone(map)?),
        };
        Ok(Places { shared })
    }
}

impl Places {
    /// No places.
    pub(crate) fn new() -> Self
        ensures { (name : List ℕ) → looked_up result.shared name ≡ None }
    {
        Places { shared: None }
    }

    /// The place that is noted for a name. Takes no memory.
    pub(crate) fn get(&self, name: &str) -> Option<usize>
        ensures { result ≡ looked_up self.now.shared name.now }
    {
        match &self.shared {
            None => None,
            Some(map) => map.get(name).copied(),
        }
    }

    /// Notes a place for a name, in the stead of any that is noted. On `Err` nothing is changed.
    pub(crate) fn note(&mut self, alloc: Global, name: &str, place: usize) -> Result<(), NoMemory>
        ensures ok { let old = looked_up self.old.shared in
            OnOk result (AreSame (looked_up self.new.shared) (with_value old name.now place)) }
        ensures err { OnErr result
            (AreSame (looked_up self.new.shared) (looked_up self.old.shared)) }
    {
        let key = String::from_str(alloc, name)?;
        match &mut self.shared {
            None => self.shared = Some(first_map(alloc, key, place)?),
            Some(map) => note_in(map, key, place)?,
        }
        Ok(())
    }
}

/// A map of one place.
fn first_map(alloc: Global, key: String, place: usize) -> Result<Arc<PlaceMap>, NoMemory>
    ensures { IfOk result
        (λ map. AreSame (get_by_text (arc_value map))
        (with_value (λ _. None) (string_bytes key) place)) }
{
    let mut map = HashMap::new(alloc);
    map.insert(key, place)?;
    Ok(Arc::new(alloc, map)?)
}

/// Notes a place in a map, which is copied first where others share it.
fn note_in(shared: &mut Arc<PlaceMap>, key: String, place: usize) -> Result<(), NoMemory>
    ensures ok { let old = get_by_text (arc_value shared.old) in
        OnOk result
        (AreSame (get_by_text (arc_value shared.new)) (with_value old (string_bytes key) place)) }
    ensures err { OnErr result
        (AreSame (get_by_text (arc_value shared.new)) (get_by_text (arc_value shared.old))) }
{
    let map = Arc::make_mut(shared)?;
    map.insert(key, place)?;
    Ok(())
}
