//! The lists of a request's object.
ghost use Rattle.jsp_wire.specs.Tree.{view, items_view};
ghost use Rattle.jsp_wire.specs.Parts.{Gives, number_of, each_item, two_numbers, pair_of, numbers_at, pairs_at, raw_of, template_of, entries_at, templates_at};

use crate::adding::add;
use crate::fault::Flaw;
use crate::field::{raw, template};
use crate::tree::Tree;
use jsp_types::{Items, Raw};
use std::alloc::Global;

fn number(json: &Tree<'_>) -> Result<i64, Flaw>
    ensures { Gives result (number_of (view json.now)) }
{
    json.as_i64().ok_or(Flaw::Refused)
}

fn numbers(alloc: Global, items: &[Tree<'_>]) -> Result<Items<i64>, Flaw>
    ensures { Gives result (each_item number_of (items_view items.now)) }
{
    let mut found = Items::new(alloc);
    for json in items {
        let number = number(json)?;
        add(&mut found, number, items.len())?;
    }
    Ok(found)
}

/// The numbers of the list at a key.
pub(crate) fn numbers_at(alloc: Global, json: &Tree<'_>, name: &str) -> Result<Items<i64>, Flaw>
    ensures { Gives result (numbers_at name.now (view json.now)) }
{
    match json.get(name).and_then(Tree::as_array) {
        None => Err(Flaw::Refused),
        Some(items) => numbers(alloc, items),
    }
}

#[tactic(auto, using(crate::proofs::Pair::too_few, crate::proofs::Pair::too_many))]
fn two_numbers(items: &[Tree<'_>]) -> Result<(i64, i64), Flaw>
    ensures { Gives result (two_numbers (items_view items.now)) }
{
    match items {
        [first, second] => Ok((number(first)?, number(second)?)),
        _ => Err(Flaw::Refused),
    }
}

fn pair(json: &Tree<'_>) -> Result<(i64, i64), Flaw>
    ensures { Gives result (pair_of (view json.now)) }
{
    match json.as_array() {
        None => Err(Flaw::Refused),
        Some(items) => two_numbers(items),
    }
}

fn pairs(alloc: Global, items: &[Tree<'_>]) -> Result<Items<(i64, i64)>, Flaw>
    ensures { Gives result (each_item pair_of (items_view items.now)) }
{
    let mut found = Items::new(alloc);
    for json in items {
        let pair = pair(json)?;
        add(&mut found, pair, items.len())?;
    }
    Ok(found)
}

/// The pairs of numbers of the list at a key, each an array of exactly two.
pub(crate) fn pairs_at(
    alloc: Global,
    json: &Tree<'_>,
    name: &str,
) -> Result<Items<(i64, i64)>, Flaw>
    ensures { Gives result (pairs_at name.now (view json.now)) }
{
    match json.get(name).and_then(Tree::as_array) {
        None => Err(Flaw::Refused),
        Some(items) => pairs(alloc, items),
    }
}

fn entries(alloc: Global, items: &[Tree<'_>]) -> Result<Items<Raw>, Flaw>
    ensures { Gives result (each_item raw_of (items_view items.now)) }
{
    let mut found = Items::new(alloc);
    for json in items {
        let entry = raw(alloc, json)?;
        add(&mut found, entry, items.len())?;
    }
    Ok(found)
}

/// The entries of the list at a key.
pub(crate) fn entries_at(alloc: Global, json: &Tree<'_>, name: &str) -> Result<Items<Raw>, Flaw>
    ensures { Gives result (entries_at name.now (view json.now)) }
{
    match json.get(name).and_then(Tree::as_array) {
        None => Err(Flaw::Refused),
        Some(items) => entries(alloc, items),
    }
}

fn templates(alloc: Global, items: &[Tree<'_>]) -> Result<Items<Option<Raw>>, Flaw>
    ensures { Gives result (each_item template_of (items_view items.now)) }
{
    let mut found = Items::new(alloc);
    for json in items {
        let like = template(alloc, json)?;
        add(&mut found, like, items.len())?;
    }
    Ok(found)
}

/// The templates of the list at a key.
pub(crate) fn templates_at(
    alloc: Global,
    json: &Tree<'_>,
    name: &str,
) -> Result<Items<Option<Raw>>, Flaw>
    ensures { Gives result (templates_at name.now (view json.now)) }
{
    match json.get(name).and_then(Tree::as_array) {
        None => Err(Flaw::Refused),
        Some(items) => templates(alloc, items),
    }
}
