//! The shapes by which rows are found, of all spaces.
ghost use Rattle.std.specs.Prelude.{◌≡◌, ◌==◌, ◌++◌, ◌∷◌, ◌⊎◌, [], not, false, ℕ, List, filter, option_copied, IfSome};
ghost use Rattle.jsp_types.specs.declared.class.Class.{Class as OfClass};
ghost use Rattle.jsp_types.specs.declared.entry.Template.TheVariants.{Like};
ghost use Rattle.jsp_model.specs.declared.state.Row.{Row as OfRow};
ghost use Rattle.jsp_table.specs.Finding.{AreNamed};
ghost use Rattle.jsp_index.specs.Finding.{number as number_of, is_like};
ghost use Rattle.jsp_index.specs.Shapes.{AreShaped, IsNamedByAll};

use crate::by_number::RowsByNumber;
use crate::shape::Shape;
use jsp_model::Row;
use jsp_table::Numbers;
use jsp_types::{Entry, Items, Text, Value};
use std::alloc::Global;

/// How many shapes there are at most.
const MOST: usize = 8;

/// The shapes that are learned or were begun.
#[derive(Drop)]
pub(crate) struct Shapes {
    pub(crate) list: Items<Shape>,
    /// No numbers, for values that no row has together.
    none: Numbers,
    /// How often one was asked for.
    calls: u64,
}

impl Shapes {
    /// No shapes.
    pub(crate) fn new(alloc: Global) -> Self
        ensures { result.list ≡ [] }
    {
        Shapes {
            list: Items::new(alloc),
            none: Numbers::new(alloc),
            calls: 0,
        }
    }

    /// Forgets all of them. Takes no memory.
    pub(crate) fn clear(&mut self)
        ensures { self.new.list ≡ [] }
    {
        self.list.items.clear();
    }

    /// Forgets those of a space, whose rows go. Takes no memory.
    pub(crate) fn forget(&mut self, space: u64)
        ensures { (seed : ℕ) (rows : List OfRow) → AreShaped seed self.old.list rows → AreShaped seed self.new.list (filter (λ (r : OfRow). not (r.space == space)) rows) }
    {
        forget_at(&mut self.list.items, space);
    }

    /// Names rows that come.
    pub(crate) fn add(&mut self, alloc: Global, seed: u64, rows: &[Row])
        ensures { (before : List OfRow) → AreShaped seed self.old.list before → AreShaped seed self.new.list (before ++ rows.now) }
    {
        add_rows(alloc, seed, &mut self.list.items, rows);
    }

    /// Takes a row that goes from all lists. Takes no memory.
    pub(crate) fn remove(&mut self, seed: u64, row: &Row)
        ensures { (rows : List OfRow) → AreShaped seed self.old.list rows → AreShaped seed self.new.list (filter (λ (r : OfRow). not (r.number == row.now.number)) rows) }
    {
        remove_row(seed, &mut self.list.items, row);
    }

    /// The numbers of the space's rows that have the template's values in the fields of a shape
    /// that is learned wholly: those of the shape of which there are the fewest.
    pub(crate) fn listed(&self, seed: u64, space: u64, like: &Entry) -> Option<&Numbers>
        ensures { IfSome (option_copied result) (λ numbers. (classes : List OfClass) (rows : List OfRow) → AreShaped seed self.now.list rows → AreNamed number_of (is_like classes space (Like like.now)) numbers rows) }
    {
        shortest(self.list.as_slice(), &self.none, seed, space, like)
    }

    /// Whether the shape of a template's values has learned all rows of the space.
    pub(crate) fn has_learned(&self, space: u64, fields: &[(Text, Value)]) -> bool {
        let shapes = self.list.as_slice();
        shapes
            .iter()
            .any(|shape| shape.is_of(space, fields) && shape.is_whole)
    }

    /// Learns so many rows more of the shape of a template's values, or begins it, in the stead of
    /// the one that wasn't asked for the longest where there are as many as there may be. Where
    /// memory is refused that isn't done.
    pub(crate) fn learn(
        &mut self,
        alloc: Global,
        seed: u64,
        rows: &RowsByNumber,
        space: u64,
        fields: &[(Text, Value)],
        count: usize,
    )
        ensures { AreShaped seed self.old.list rows.now → AreShaped seed self.new.list rows.now }
    {
        self.calls = self.calls.saturating_add(1);
        let shapes = &mut self.list.items;
        match place_of(shapes.as_slice(), space, fields) {
            Some(place) => learn_at(alloc, seed, shapes, rows, place, count, self.calls),
            None => begin(alloc, shapes, space, fields, self.calls),
        }
    }
}

fn learn_at(
    alloc: Global,
    seed: u64,
    shapes: &mut Vec<Shape>,
    rows: &RowsByNumber,
    place: usize,
    count: usize,
    call: u64,
)
    ensures { AreShaped seed shapes.old.items rows.now → AreShaped seed shapes.new.items rows.now }
{
    if place < shapes.len() {
        shapes[place].learn(alloc, seed, rows, count, call);
    }
}

fn forget_at(shapes: &mut Vec<Shape>, space: u64)
    ensures { (seed : ℕ) (rows : List OfRow) → AreShaped seed shapes.old.items rows → AreShaped seed shapes.new.items (filter (λ (r : OfRow). not (r.space == space)) rows) }
{
    shapes.retain(|shape| !(shape.space == space));
}

fn add_rows(alloc: Global, seed: u64, shapes: &mut Vec<Shape>, rows: &[Row])
    ensures { (before : List OfRow) → AreShaped seed shapes.old.items before → AreShaped seed shapes.new.items (before ++ rows.now) }
{
    'rows: for row in rows {
        add_row(alloc, seed, shapes, row);
    }
}

fn add_row(alloc: Global, seed: u64, shapes: &mut Vec<Shape>, row: &Row)
    ensures named { IsNamedByAll seed shapes.new.items row.now }
    ensures keeps { (r : OfRow) → IsNamedByAll seed shapes.old.items r → IsNamedByAll seed shapes.new.items r }
{
    add_to_all(alloc, seed, shapes.as_mut_slice(), row);
}

fn remove_row(seed: u64, shapes: &mut Vec<Shape>, row: &Row)
    ensures { (rows : List OfRow) → AreShaped seed shapes.old.items rows → AreShaped seed shapes.new.items (filter (λ (r : OfRow). not (r.number == row.now.number)) rows) }
{
    remove_from_all(seed, shapes.as_mut_slice(), row);
}

fn add_to_all(alloc: Global, seed: u64, shapes: &mut [Shape], row: &Row)
    ensures named { IsNamedByAll seed shapes.new row.now }
    ensures keeps { (r : OfRow) → IsNamedByAll seed shapes.old r → IsNamedByAll seed shapes.new r }
{
    'shapes: for shape in shapes.iter_mut() {
        shape.add(alloc, seed, row);
    }
}

fn remove_from_all(seed: u64, shapes: &mut [Shape], row: &Row)
    ensures { (r : OfRow) → (r.number == row.now.number) ≡ false → IsNamedByAll seed shapes.old r → IsNamedByAll seed shapes.new r }
{
    'shapes: for shape in shapes.iter_mut() {
        shape.remove(seed, row);
    }
}

fn shortest<'a>(
    shapes: &'a [Shape],
    none: &'a Numbers,
    seed: u64,
    space: u64,
    like: &Entry,
) -> Option<&'a Numbers>
    ensures { IfSome (option_copied result) (λ numbers. (classes : List OfClass) (rows : List OfRow) → AreShaped seed shapes.now rows → AreNamed number_of (is_like classes space (Like like.now)) numbers rows) }
{
    let mut shortest = None;
    'shapes: for shape in shapes {
        shortest = shorter(shortest, shape.listed(none, seed, space, like));
    }
    shortest
}

/// The shorter list of two, or the one that there is.
fn shorter<'a>(one: Option<&'a Numbers>, other: Option<&'a Numbers>) -> Option<&'a Numbers>
    ensures { (option_copied result ≡ option_copied one.entry) ⊎ (option_copied result ≡ option_copied other.entry) }
{
    match (one, other) {
        (None, other) => other,
        (one, None) => one,
        (Some(one), Some(other)) => Some(if one.len() <= other.len() { one } else { other }),
    }
}

/// The place of the shape of the template's values in the space.
fn place_of(shapes: &[Shape], space: u64, fields: &[(Text, Value)]) -> Option<usize> {
    shapes.iter().position(|shape| shape.is_of(space, fields))
}

/// Begins the shape of a template's values.
fn begin(alloc: Global, shapes: &mut Vec<Shape>, space: u64, fields: &[(Text, Value)], call: u64)
    ensures { (seed : ℕ) (rows : List OfRow) → AreShaped seed shapes.old.items rows → AreShaped seed shapes.new.items rows }
{
    let Ok(shape) = Shape::new(alloc, space, fields, call) else {
        return;
    };
    if shapes.len() < MOST {
        push(shapes, shape);
        return;
    }
    let place = longest_unasked(shapes.as_slice());
    if place < shapes.len() {
        shapes[place] = shape;
    }
}

/// Adds a shape, where memory allows.
fn push(shapes: &mut Vec<Shape>, shape: Shape)
    ensures { (shapes.new.items ≡ shapes.old.items ++ shape ∷ []) ⊎ (shapes.new.items ≡ shapes.old.items) }
{
    match shapes.push(shape) {
        Ok(()) => {}
        Err(_) => {}
    }
}

/// The place of the shape that wasn't asked for the longest.
fn longest_unasked(shapes: &[Shape]) -> usize {
    let first = shapes.iter().map(|shape| shape.asked).min().unwrap_or(0);
    shapes
        .iter()
        .position(|shape| shape.asked == first)
        .unwrap_or(0)
}
