//! The rows of a space, found by the values that they have in some fields together.
ghost use Rattle.std.specs.Prelude.{◌≡◌, ◌==◌, ℕ, List, true, false, option_copied, find, bytes_eq, IfSome, IfOk};
ghost use Rattle.jsp_types.specs.declared.class.Class.{Class as OfClass};
ghost use Rattle.jsp_types.specs.declared.entry.Template.TheVariants.{Like};
ghost use Rattle.jsp_table.specs.Finding.{AreNamed};
ghost use Rattle.jsp_table.specs.Numbers.{contains};
ghost use Rattle.jsp_index.specs.Finding.{number as number_of, is_like};
ghost use Rattle.jsp_types.specs.Matching.{value_at};
ghost use Rattle.jsp_model.specs.declared.state.Row.{Row as OfRow};
ghost use Rattle.jsp_index.specs.Shapes.{key_of_values as values_key, some_value, is_learned, IsNamedBy, IsShaped};
ghost use Rattle.jsp_table.specs.Hints.{names};

use crate::NoMemory;
use crate::by_number::RowsByNumber;
use crate::row_tests::InSpace;
use jsp_keys::{key_of_field, key_of_number, key_of_space};
use jsp_model::Row;
use jsp_table::{Hints, Numbers};
use jsp_types::{Entry, Items, Text, Value};
use std::alloc::Global;

/// How many rows are learned at a call at least.
const PART: usize = 64;

/// The numbers of a space's rows by the key of the values that they have in fields of these names.
/// Those of the rows below a number, or of all, are there.
#[derive(Drop)]
pub(crate) struct Shape {
    pub(crate) space: u64,
    pub(crate) names: Items<Text>,
    pub(crate) hints: Hints,
    pub(crate) below: u64,
    pub(crate) is_whole: bool,
    /// When it was last asked for, counted in calls.
    pub(crate) asked: u64,
}

impl Shape {
    /// The shape of a template's values in a space, of which nothing is learned yet. Those that are
    /// null aren't in it.
    pub(crate) fn new(
        alloc: Global,
        space: u64,
        fields: &[(Text, Value)],
        call: u64,
    ) -> Result<Self, NoMemory>
        ensures { IfOk result (λ shape. (seed : ℕ) (r : OfRow) → IsNamedBy seed r shape) }
    {
        Ok(Shape {
            space,
            names: names_of(alloc, fields)?,
            hints: Hints::new(alloc),
            below: 0,
            is_whole: false,
            asked: call,
        })
    }

    /// Whether it is the shape of the template's values in the space.
    pub(crate) fn is_of(&self, space: u64, fields: &[(Text, Value)]) -> bool {
        self.space == space && are_names_of(self.names.as_slice(), fields)
    }

    /// The numbers of the space's rows that have the template's values here, if it has learned all
    /// rows.
    pub(crate) fn listed<'a>(
        &'a self,
        none: &'a Numbers,
        seed: u64,
        space: u64,
        like: &Entry,
    ) -> Option<&'a Numbers>
        ensures { IfSome (option_copied result) (λ numbers. (classes : List OfClass) (rows : List OfRow) → IsShaped seed self.now rows → AreNamed number_of (is_like classes space (Like like.now)) numbers rows) }
    {
        if !self.is_whole || self.space != space {
            return None;
        }
        let (names, fields) = (self.names.as_slice(), like.fields.as_slice());
        let Some(key) = key_of_values(seed, space, names, fields) else {
            return None;
        };
        Some(numbers_at(&self.hints, none, key))
    }

    /// Whether it has learned where the row is.
    fn has_learned(&self, row: &Row) -> bool
        ensures { result ≡ is_learned self.now row.now }
    {
        row.space == self.space && (self.is_whole || row.number < self.below)
    }

    /// The key of the row's values, if none of them is null.
    fn key_of(&self, seed: u64, row: &Row) -> Option<u64>
        ensures { result ≡ values_key seed self.now.space self.now.names row.now.entry.fields }
    {
        key_of_values(
            seed,
            self.space,
            self.names.as_slice(),
            row.entry.fields.as_slice(),
        )
    }

    /// Names a row, if it has learned where that is. Where memory is refused nothing is learned any
    /// more.
    pub(crate) fn add(&mut self, alloc: Global, seed: u64, row: &Row)
        ensures named { IsNamedBy seed row.now self.new }
        ensures keeps { (r : OfRow) → IsNamedBy seed r self.old → IsNamedBy seed r self.new }
    {
        if !self.has_learned(row) {
            return;
        }
        let Some(key) = self.key_of(seed, row) else {
            return;
        };
        if self.hints.add(key, row.number).is_err() {
            self.forget(alloc);
        }
    }

    /// Nothing is learned any more.
    fn forget(&mut self, alloc: Global)
        ensures { (seed : ℕ) (r : OfRow) → IsNamedBy seed r self.new }
    {
        self.is_whole = false;
        self.below = 0;
        self.hints = Hints::new(alloc);
    }

    /// Takes a row that goes from its list, if it has learned where that is. Takes no memory.
    pub(crate) fn remove(&mut self, seed: u64, row: &Row)
        ensures { (r : OfRow) → (r.number == row.now.number) ≡ false → IsNamedBy seed r self.old → IsNamedBy seed r self.new }
    {
        if !self.has_learned(row) {
            return;
        }
        let Some(key) = self.key_of(seed, row) else {
            return;
        };
        self.hints.remove(key, row.number);
    }

    /// Learns so many of the rows more, in their order. Where memory is refused it begins anew.
    pub(crate) fn learn(
        &mut self,
        alloc: Global,
        seed: u64,
        rows: &RowsByNumber,
        count: usize,
        call: u64,
    )
        ensures { IsShaped seed self.old rows.now → IsShaped seed self.new rows.now }
    {
        self.asked = call;
        'rows: for _count in 0..count.max(PART) {
            if self.is_whole {
                return;
            }
            self.learn_next(alloc, seed, rows);
        }
    }

    /// Learns the next row, or that there is none.
    fn learn_next(&mut self, alloc: Global, seed: u64, rows: &RowsByNumber)
        ensures { IsShaped seed self.old rows.now → IsShaped seed self.new rows.now }
    {
        let in_space = InSpace { space: self.space };
        let numbers = rows.numbers_under(&in_space);
        match rows.first_named(numbers, self.below.saturating_sub(1), &in_space) {
            None => self.is_whole = true,
            Some(row) => {
                self.below = row.number.saturating_add(1);
                self.add(alloc, seed, row);
            }
        }
    }
}

/// The numbers that a key's list has, or these where it has none.
fn numbers_at<'a>(hints: &'a Hints, none: &'a Numbers, key: u64) -> &'a Numbers
    ensures { (n : ℕ) → names hints.now key n ≡ true → contains result.now n ≡ true }
{
    match hints.get(key) {
        None => none,
        Some(numbers) => numbers,
    }
}

/// The key of the values in fields of these names, if none of them is null.
pub(crate) fn key_of_values(
    seed: u64,
    space: u64,
    names: &[Text],
    fields: &[(Text, Value)],
) -> Option<u64>
    ensures { result ≡ values_key seed space names.now fields.now }
{
    let [name, rest @ ..] = names else {
        return Some(key_of_space(seed, space));
    };
    let value = value_in(fields, name.as_str())?;
    let key = key_of_values(seed, space, rest, fields)?;
    let value = key_of_field(seed, space, name.as_str(), value);
    Some(key_of_number(key, 10, value))
}

/// The value of the field of a name, if that isn't null.
fn value_in<'a>(fields: &'a [(Text, Value)], name: &str) -> Option<&'a Value>
    ensures { option_copied result ≡ some_value (value_at fields.now name.now) }
{
    let Some(field) = field_in(fields, name) else {
        return None;
    };
    if field.1.is_null() {
        return None;
    }
    Some(&field.1)
}

fn field_in<'a>(fields: &'a [(Text, Value)], name: &str) -> Option<&'a (Text, Value)>
    ensures { option_copied result ≡ find (λ f. bytes_eq f.0 name.now) fields.now }
{
    fields.iter().find(|field| field.0.is(name))
}

/// The names of the fields that aren't null.
fn names_of(alloc: Global, fields: &[(Text, Value)]) -> Result<Items<Text>, NoMemory> {
    let mut names = Items::new(alloc);
    for field in fields {
        if !field.1.is_null() {
            names.push(field.0.clone()?)?;
        }
    }
    Ok(names)
}

/// Whether these are the names of the fields that aren't null, in their order.
fn are_names_of(names: &[Text], fields: &[(Text, Value)]) -> bool {
    let mut left = names;
    for field in fields {
        if !field.1.is_null() {
            let [name, rest @ ..] = left else {
                return false;
            };
            if !name.is(field.0.as_str()) {
                return false;
            }
            left = rest;
        }
    }
    left.is_empty()
}
