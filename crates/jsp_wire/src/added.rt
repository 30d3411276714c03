//! The operations that version 2 adds.
ghost use Rattle.jsp_wire.specs.Tree.{view};
ghost use Rattle.jsp_wire.specs.declared.ask.Version.TheVariants.{Two};
ghost use Rattle.jsp_wire.specs.Parts.{Gives};
ghost use Rattle.jsp_wire.specs.Operations.{write_all_of, take_many_of, contents_of, next_of, close_set_of, added_of};

use crate::fault::Flaw;
use crate::field::{count_at, number_at, only, optional_number_at, template_at, text_at};
use crate::list::{entries_at, templates_at};
use crate::tree::Tree;
use crate::{Ask, Contents, TakeMany, Version, WriteAll};
use std::alloc::Global;

#[tactic(auto, unfolding(crate::specs::Operations::write_all_of))]
fn write_all(alloc: Global, json: &Tree<'_>) -> Result<Ask, Flaw>
    ensures { Gives result (write_all_of (view json.now)) }
{
    only(json, &["id", "op", "space", "entries", "lease", "txn"])?;
    let space = text_at(alloc, json, "space")?;
    let entries = entries_at(alloc, json, "entries")?;
    let lease = number_at(json, "lease")?;
    let txn = optional_number_at(json, "txn")?;
    Ok(Ask::WriteAll(WriteAll {
        space,
        entries,
        lease,
        txn,
    }))
}

#[tactic(auto, unfolding(crate::specs::Operations::take_many_of))]
fn take_many(alloc: Global, json: &Tree<'_>) -> Result<Ask, Flaw>
    ensures { Gives result (take_many_of (view json.now)) }
{
    only(
        json,
        &["id", "op", "space", "templates", "most", "timeout", "txn"],
    )?;
    let space = text_at(alloc, json, "space")?;
    let templates = templates_at(alloc, json, "templates")?;
    let most = count_at(json, "most")?;
    let timeout = number_at(json, "timeout")?;
    let txn = optional_number_at(json, "txn")?;
    Ok(Ask::TakeMany(TakeMany {
        space,
        templates,
        most,
        timeout,
        txn,
    }))
}

#[tactic(auto, unfolding(crate::specs::Operations::contents_of))]
fn contents(alloc: Global, json: &Tree<'_>) -> Result<Ask, Flaw>
    ensures { Gives result (contents_of (view json.now)) }
{
    only(json, &["id", "op", "space", "template", "lease", "txn"])?;
    let space = text_at(alloc, json, "space")?;
    let template = template_at(alloc, json, "template")?;
    let lease = number_at(json, "lease")?;
    let txn = optional_number_at(json, "txn")?;
    Ok(Ask::Contents(Contents {
        space,
        template,
        lease,
        txn,
    }))
}

#[tactic(auto, unfolding(crate::specs::Operations::next_of))]
fn next(json: &Tree<'_>) -> Result<Ask, Flaw>
    ensures { Gives result (next_of (view json.now)) }
{
    only(json, &["id", "op", "set", "most"])?;
    let set = number_at(json, "set")?;
    let most = count_at(json, "most")?;
    Ok(Ask::Next { set, most })
}

#[tactic(auto, unfolding(crate::specs::Operations::close_set_of))]
fn close_set(json: &Tree<'_>) -> Result<Ask, Flaw>
    ensures { Gives result (close_set_of (view json.now)) }
{
    only(json, &["id", "op", "set"])?;
    let set = number_at(json, "set")?;
    Ok(Ask::CloseSet { set })
}

#[tactic(auto, unfolding(crate::specs::Operations::added_of))]
fn by_name(alloc: Global, name: &str, json: &Tree<'_>) -> Result<Ask, Flaw>
    ensures { Gives result (added_of Two name.now (view json.now)) }
{
    match name {
        "write_all" => write_all(alloc, json),
        "take_many" => take_many(alloc, json),
        "contents" => contents(alloc, json),
        "next" => next(json),
        "close_set" => close_set(json),
        _ => Err(Flaw::Refused),
    }
}

/// An operation of version 2, which a line of version 1 hasn't.
#[tactic(auto, unfolding(crate::specs::Operations::added_of))]
pub(crate) fn added(
    alloc: Global,
    version: Version,
    name: &str,
    json: &Tree<'_>,
) -> Result<Ask, Flaw>
    ensures { Gives result (added_of version name.now (view json.now)) }
{
    match version {
        Version::One => Err(Flaw::Refused),
        Version::Two => by_name(alloc, name, json),
    }
}
