//! The names of the classes below each class.
ghost use Rattle.std.specs.Prelude.{◌≡◌, ℕ, [], List, true, None, unwrap_or, IfOk, OnOk};
ghost use Rattle.std.specs.Arc.{arc_value};
ghost use Rattle.std.specs.HashMap.{get_by_text};
ghost use Rattle.jsp_types.specs.NameMaps.{looked_up, AreSame};
ghost use Rattle.jsp_types.specs.Descendants.{is_in, IsBelow, IsNoted, Keeps};

use crate::names_below::Names;
use crate::{NoMemory, Text};
use std::alloc::Global;
use std::collections::HashMap;
use std::sync::Arc;

/// A list of names for each name.
type Lists = HashMap<String, Names>;

/// For each class the names of the classes that have it in their line of descent, itself apart.
/// Copies share the lists until one of them changes, as they share the places.
#[derive(Drop)]
pub(crate) struct Descendants {
    pub(crate) shared: Option<Arc<Lists>>,
}

impl Clone for Descendants {
    ghost is_clone = { λ old copy. AreSame (looked_up copy.shared) (looked_up old.shared) };

    fn clone(&self) -> Result<Descendants, NoMemory> {
        let shared = match &self.shared {
            None => None,
            Some(lists) => Some(Arc::try_clone(lists)?),
        };
        Ok(Descendants { shared })
    }
}

impl Descendants {
    /// No lists.
    pub(crate) fn new() -> Self
        ensures { (name : List ℕ) → looked_up result.shared name ≡ None }
    {
        Descendants { shared: None }
    }

    /// The names below a name. Takes no memory.
    pub(crate) fn get(&self, name: &str) -> &[Text]
        ensures { result.now ≡ unwrap_or (looked_up self.now.shared name.now) [] }
    {
        match &self.shared {
            None => &[],
            Some(lists) => list_of(lists, name),
        }
    }

    /// Notes the first name of a line below each of the others. On `Err` no name goes that was
    /// noted.
    pub(crate) fn note_line(&mut self, alloc: Global, line: &[Text]) -> Result<(), NoMemory>
        ensures ok { OnOk result (IsNoted (looked_up self.new.shared) line.now) }
        ensures keeps { Keeps (looked_up self.old.shared) (looked_up self.new.shared) }
    {
        match line {
            [] => Ok(()),
            [name, above @ ..] => self.note_above(alloc, name, above),
        }
    }

    fn note_above(&mut self, alloc: Global, name: &Text, above: &[Text]) -> Result<(), NoMemory>
        ensures ok { OnOk result (IsBelow (looked_up self.new.shared) name.now above.now) }
        ensures keeps { Keeps (looked_up self.old.shared) (looked_up self.new.shared) }
    {
        'above: for ancestor in above {
            self.note(alloc, ancestor.as_str(), name)?;
        }
        Ok(())
    }

    /// Notes a name below another.
    fn note(&mut self, alloc: Global, ancestor: &str, name: &Text) -> Result<(), NoMemory>
        ensures ok { OnOk result
            (is_in (looked_up self.new.shared ancestor.now) name.now ≡ true) }
        ensures keeps { Keeps (looked_up self.old.shared) (looked_up self.new.shared) }
    {
        match &mut self.shared {
            None => self.shared = Some(first_lists(alloc, ancestor, name)?),
            Some(lists) => note_in(alloc, lists, ancestor, name)?,
        }
        Ok(())
    }
}

fn list_of<'a>(lists: &'a Lists, name: &str) -> &'a [Text]
    ensures { result.now ≡ unwrap_or (get_by_text lists.now name.now) [] }
{
    match lists.get(name) {
        None => &[],
        Some(names) => names.as_slice(),
    }
}

/// The lists that have one name below another.
fn first_lists(alloc: Global, ancestor: &str, name: &Text) -> Result<Arc<Lists>, NoMemory>
    ensures { IfOk result
        (λ lists. is_in (get_by_text (arc_value lists) ancestor.now) name.now ≡ true) }
{
    let mut lists = HashMap::new(alloc);
    add_to(alloc, &mut lists, ancestor, name)?;
    Ok(Arc::new(alloc, lists)?)
}

/// Notes a name below another in lists, which are copied first where others share them.
fn note_in(
    alloc: Global,
    shared: &mut Arc<Lists>,
    ancestor: &str,
    name: &Text,
) -> Result<(), NoMemory>
    ensures ok { OnOk result
        (is_in (get_by_text (arc_value shared.new) ancestor.now) name.now ≡ true) }
    ensures keeps { let old = get_by_text (arc_value shared.old) in
        Keeps old (get_by_text (arc_value shared.new)) }
{
    let lists = Arc::make_mut(shared)?;
    add_to(alloc, lists, ancestor, name)
}

fn add_to(alloc: Global, lists: &mut Lists, ancestor: &str, name: &Text) -> Result<(), NoMemory>
    ensures ok { OnOk result (is_in (get_by_text lists.new ancestor.now) name.now ≡ true) }
    ensures keeps { Keeps (get_by_text lists.old) (get_by_text lists.new) }
{
    if let Some(names) = lists.get_mut(ancestor) {
        return names.add(name);
    }
    begin_list(alloc, lists, ancestor, name)
}

/// Notes the first name below another.
fn begin_list(alloc: Global, lists: &mut Lists, ancestor: &str, name: &Text) -> Result<(), NoMemory>
    requires { get_by_text lists.old ancestor.now ≡ None }
    ensures ok { OnOk result (is_in (get_by_text lists.new ancestor.now) name.now ≡ true) }
    ensures keeps { Keeps (get_by_text lists.old) (get_by_text lists.new) }
{
    let key = String::from_str(alloc, ancestor)?;
    let mut names = Names::new(alloc);
    names.add(name)?;
    lists.insert(key, names)?;
    Ok(())
}
