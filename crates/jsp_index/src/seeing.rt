//! The classes that the rows of each space have.
ghost use Rattle.std.specs.Prelude.{◌≡◌, ◌==◌, ◌&&◌, if◌then◌else◌, not, ℕ, true, false, [], List, filter, bytes_eq, OnOk};
ghost use Rattle.std.specs.Bool.{OnTrue};
ghost use Rattle.std.specs.List.{AllByRecursion, list_any};
ghost use Rattle.jsp_model.specs.declared.state.Row.{Row as OfRow};
ghost use Rattle.jsp_index.specs.Seen.{seen_in as classes_in, IsAmong, IsSeen, AreSeen, KeepsSeen};
ghost use Rattle.jsp_table.specs.Numbers.{contains};

use crate::NoMemory;
use crate::by_number::RowsByNumber;
use crate::seeking::OfClass;
use jsp_model::Row;
use jsp_table::Numbers;
use jsp_types::{Items, Text};
use std::alloc::Global;
use std::collections::HashMap;

/// The classes that were seen in each space, those of its rows among them.
pub(crate) type Seen = HashMap<u64, Items<Text>>;

/// How many classes a space may have seen for which nothing is forgotten. So few are soon looked
/// through, and a class whose only row is written and taken by turns isn't copied each time.
const FEW: usize = 8;

/// The classes that were seen in a space.
pub(crate) fn seen_in(seen: &Seen, space: u64) -> &[Text]
    ensures { result.now ≡ classes_in seen.now space }
{
    match seen.get(&space) {
        None => &[],
        Some(classes) => classes.as_slice(),
    }
}

/// Sees the classes of rows. None goes, on `Err` either.
pub(crate) fn see_all(alloc: Global, seen: &mut Seen, rows: &[Row]) -> Result<(), NoMemory>
    ensures ok { OnOk result (AreSeen seen.new rows.now) }
    ensures keeps { KeepsSeen seen.old seen.new }
{
    'rows: for row in rows {
        see(alloc, seen, row.space, &row.entry.class)?;
    }
    Ok(())
}

/// Sees a class in a space.
fn see(alloc: Global, seen: &mut Seen, space: u64, class: &Text) -> Result<(), NoMemory>
    ensures ok { OnOk result (IsSeen seen.new space class.now) }
    ensures keeps { KeepsSeen seen.old seen.new }
{
    if let Some(classes) = seen.get_mut(&space) {
        return see_class(classes, class);
    }
    let mut classes = Items::new(alloc);
    see_class(&mut classes, class)?;
    seen.insert(space, classes)?;
    Ok(())
}

/// Adds a class to those seen, if it isn't there.
fn see_class(seen: &mut Items<Text>, class: &Text) -> Result<(), NoMemory>
    ensures ok { OnOk result (IsAmong seen.new class.now) }
    ensures keeps { (c : List ℕ) → IsAmong seen.old c → IsAmong seen.new c }
{
    if !has_class(seen.as_slice(), class.as_str()) {
        seen.push(class.clone()?)?;
    }
    Ok(())
}

fn has_class(seen: &[Text], class: &str) -> bool
    ensures { result ≡ list_any (λ c. bytes_eq c class.now) seen.now }
{
    seen.iter().any(|c| c.is(class))
}

/// Where more than a few classes were seen in the space of a row that goes, and no other row there
/// has its class, that is forgotten. Takes no memory.
pub(crate) fn forget_with(seen: &mut Seen, rows: &RowsByNumber, row: &Row)
    ensures { AreSeen seen.old rows.now → AreSeen seen.new (filter (λ r. not (r.number == row.now.number)) rows.now) }
{
    let (space, class) = (row.space, row.entry.class.as_str());
    if FEW < seen_in(seen, space).len() && is_last_of_class(rows, row.number, space, class) {
        forget(seen, space, class);
    }
}

/// Whether no other row of the space has the class.
fn is_last_of_class(rows: &RowsByNumber, number: u64, space: u64, class: &str) -> bool
    ensures { OnTrue result (AllByRecursion (λ (r : OfRow). (r.space == space && bytes_eq r.entry.class class.now) ≡ true → r.number ≡ number) rows.now) }
{
    is_only(rows.numbers_under(&OfClass { space, class }), number)
}

/// Whether a list has this number alone.
fn is_only(numbers: &Numbers, number: u64) -> bool
    ensures { OnTrue result ((n : ℕ) → contains numbers.now n ≡ true → n ≡ number) }
{
    numbers.len() == 1 && numbers.contains(number)
}

/// Forgets a class of a space. Takes no memory.
fn forget(seen: &mut Seen, space: u64, class: &str)
    ensures { (s : ℕ) (c : List ℕ) → (s == space && bytes_eq c class.now) ≡ false → IsSeen seen.old s c → IsSeen seen.new s c }
{
    if let Some(classes) = seen.get_mut(&space) {
        forget_class(&mut classes.items, class);
    }
}

fn forget_class(classes: &mut Vec<Text>, class: &str)
    ensures { (c : List ℕ) → bytes_eq c class.now ≡ false → IsAmong classes.old.items c → IsAmong classes.new.items c }
{
    classes.retain(|c| !c.is(class));
}

/// Forgets all classes of a space. Takes no memory.
pub(crate) fn forget_all(seen: &mut Seen, space: u64)
    ensures { (s : ℕ) → classes_in seen.new s ≡ (if s == space then [] else classes_in seen.old s) }
{
    seen.remove(&space);
}
