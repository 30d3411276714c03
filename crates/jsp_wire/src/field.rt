//! The parts of a request's object.
ghost use Rattle.std.specs.Prelude.{◌≡◌, map, option_map, Some};
ghost use Rattle.jsp_wire.specs.Tree.{view, members_view, members_in_order, members_by_ref};
ghost use Rattle.jsp_wire.specs.Parts.{Gives, is_known, only, only_members, or_null, number_of, text_at, number_at, count_at, version_numbered, version_at, optional_text_at, optional_number_at, id_at, each_member, members_at, value_of, kind_named, kind_of, kinds_at, raw_of, entry_at, template_of, template_at};
ghost use Rattle.serde_json.specs.Find.{as_str};

use crate::Version;
use crate::adding::add;
use crate::fault::Flaw;
use crate::members::{is_ascending, ordered};
use crate::tree::Tree;
use jsp_types::{Items, Kind, Raw, Text, Value};
use std::alloc::Global;
use std::collections::BTreeMap;

/// Whether the value is an object with no key beside these.
#[inline(always)]
pub(crate) fn only(json: &Tree<'_>, names: &[&str]) -> Result<(), Flaw>
    ensures { Gives result (only (map (λ n. n.now) names.now) (view json.now)) }
{
    match json.as_object() {
        None => Err(Flaw::Refused),
        Some(members) => only_members(members, names),
    }
}

#[inline(always)]
fn only_members<'a>(members: &[(&'a str, Tree<'a>)], names: &[&str]) -> Result<(), Flaw>
    ensures { Gives result
        (only_members (map (λ n. n.now) names.now) (members_view members.now)) }
{
    for (name, _) in members {
        if !is_known(name, names) {
            return Err(Flaw::Refused);
        }
    }
    Ok(())
}

#[inline(always)]
fn is_known(name: &str, names: &[&str]) -> bool
    ensures { result ≡ is_known (map (λ n. n.now) names.now) name.now }
{
    for known in names {
        if *known == name {
            return true;
        }
    }
    false
}

fn text(alloc: Global, text: &str) -> Result<Text, Flaw>
    ensures { Gives result (Some text.now) }
{
    Ok(Text::from_str(alloc, text)?)
}

/// The text at a key, as it stands in the payload.
pub(crate) fn str_at<'a>(json: &Tree<'a>, name: &str) -> Option<&'a str>
    ensures { option_map (λ s. s.now) result ≡ text_at name.now (view json.now) }
{
    json.get(name).and_then(Tree::as_str)
}

/// The text at a key.
pub(crate) fn text_at(alloc: Global, json: &Tree<'_>, name: &str) -> Result<Text, Flaw>
    ensures { Gives result (text_at name.now (view json.now)) }
{
    let found = str_at(json, name).ok_or(Flaw::Refused)?;
    text(alloc, found)
}

/// The number at a key.
pub(crate) fn number_at(json: &Tree<'_>, name: &str) -> Result<i64, Flaw>
    ensures { Gives result (number_at name.now (view json.now)) }
{
    json.get(name).and_then(Tree::as_i64).ok_or(Flaw::Refused)
}

/// The number at a key, where it isn't negative.
pub(crate) fn count_at(json: &Tree<'_>, name: &str) -> Result<u64, Flaw>
    ensures { Gives result (count_at name.now (view json.now)) }
{
    let n = number_at(json, name)?;
    if n < 0 {
        return Err(Flaw::Refused);
    }
    Ok(n as u64)
}

fn version_numbered(n: u64) -> Result<Version, Flaw>
    ensures { Gives result (version_numbered n) }
{
    match n {
        1 => Ok(Version::One),
        2 => Ok(Version::Two),
        _ => Err(Flaw::Refused),
    }
}

/// The version at a key: 1 or 2.
pub(crate) fn version_at(json: &Tree<'_>, name: &str) -> Result<Version, Flaw>
    ensures { Gives result (version_at name.now (view json.now)) }
{
    version_numbered(count_at(json, name)?)
}

/// The request's id: a number from 0 to 9,223,372,036,854,775,807.
pub(crate) fn id_at(json: &Tree<'_>) -> Option<u64>
    ensures { result ≡ id_at (view json.now) }
{
    let id = json.get("id").and_then(Tree::as_i64)?;
    if id < 0 { None } else { Some(id as u64) }
}

fn text_or_null(alloc: Global, json: &Tree<'_>) -> Result<Option<Text>, Flaw>
    ensures { Gives result (or_null as_str (view json.now)) }
{
    if json.is_null() {
        return Ok(None);
    }
    let found = json.as_str().ok_or(Flaw::Refused)?;
    Ok(Some(text(alloc, found)?))
}

fn number_or_null(json: &Tree<'_>) -> Result<Option<i64>, Flaw>
    ensures { Gives result (or_null number_of (view json.now)) }
{
    if json.is_null() {
        return Ok(None);
    }
    let found = json.as_i64().ok_or(Flaw::Refused)?;
    Ok(Some(found))
}

/// The text at a key that may be absent or null.
pub(crate) fn optional_text_at(
    alloc: Global,
    json: &Tree<'_>,
    name: &str,
) -> Result<Option<Text>, Flaw>
    ensures { Gives result (optional_text_at name.now (view json.now)) }
{
    match json.get(name) {
        None => Ok(None),
        Some(value) => text_or_null(alloc, value),
    }
}

/// The number at a key that may be absent or null.
pub(crate) fn optional_number_at(json: &Tree<'_>, name: &str) -> Result<Option<i64>, Flaw>
    ensures { Gives result (optional_number_at name.now (view json.now)) }
{
    match json.get(name) {
        None => Ok(None),
        Some(value) => number_or_null(value),
    }
}

fn value(alloc: Global, json: &Tree<'_>) -> Result<Value, Flaw>
    ensures { Gives result (value_of (view json.now)) }
{
    match json {
        Tree::Null => Ok(Value::Null),
        Tree::Bool(b) => Ok(Value::Bool(*b)),
        Tree::Number(n) => match n.as_i64() {
            None => Err(Flaw::Refused),
            Some(n) => Ok(Value::Int(n)),
        },
        Tree::Text(found) => Ok(Value::Text(text(alloc, found)?)),
        Tree::List(_) | Tree::Object(_) => Err(Flaw::Refused),
    }
}

/// The values of the members, in byte order of their keys.
fn values<'a>(alloc: Global, members: &[(&'a str, Tree<'a>)]) -> Result<Items<(Text, Value)>, Flaw>
    ensures { Gives result (each_member value_of (members_view members.now)) }
{
    if is_ascending(members) {
        return values_in_order(alloc, members);
    }
    let ordered = ordered(alloc, members)?;
    values_by_ref(alloc, &ordered)
}

/// The values of members as they stand.
fn values_in_order<'a>(
    alloc: Global,
    members: &[(&'a str, Tree<'a>)],
) -> Result<Items<(Text, Value)>, Flaw>
    ensures { Gives result (each_member value_of (members_in_order members.now)) }
{
    let mut found = Items::new(alloc);
    for (name, json) in members {
        let value = value(alloc, json)?;
        let name = text(alloc, name)?;
        add(&mut found, (name, value), members.len())?;
    }
    Ok(found)
}

/// The values of members by the order of their keys.
fn values_by_ref(
    alloc: Global,
    members: &BTreeMap<&str, &Tree<'_>>,
) -> Result<Items<(Text, Value)>, Flaw>
    ensures { Gives result (each_member value_of (members_by_ref members.now.entries)) }
{
    let mut found = Items::new(alloc);
    for (name, json) in members.iter() {
        let value = value(alloc, json)?;
        let name = text(alloc, name)?;
        add(&mut found, (name, value), members.len())?;
    }
    Ok(found)
}

fn values_at(alloc: Global, json: &Tree<'_>, name: &str) -> Result<Items<(Text, Value)>, Flaw>
    ensures { Gives result (members_at value_of name.now (view json.now)) }
{
    match json.get(name).and_then(Tree::as_object) {
        None => Err(Flaw::Refused),
        Some(members) => values(alloc, members),
    }
}

fn kind_named(name: &str) -> Option<Kind>
    ensures { result ≡ kind_named name.now }
{
    match name {
        "int" => Some(Kind::Int),
        "text" => Some(Kind::Text),
        "bool" => Some(Kind::Bool),
        _ => None,
    }
}

fn kind(json: &Tree<'_>) -> Result<Option<Kind>, Flaw>
    ensures { Gives result (kind_of (view json.now)) }
{
    match json.as_str() {
        None => Err(Flaw::Refused),
        Some(name) => Ok(kind_named(name)),
    }
}

/// The kinds of the members, in byte order of their keys.
fn kinds<'a>(
    alloc: Global,
    members: &[(&'a str, Tree<'a>)],
) -> Result<Items<(Text, Option<Kind>)>, Flaw>
    ensures { Gives result (each_member kind_of (members_view members.now)) }
{
    let ordered = ordered(alloc, members)?;
    kinds_by_ref(alloc, &ordered)
}

/// The kinds of members by the order of their keys.
fn kinds_by_ref(
    alloc: Global,
    members: &BTreeMap<&str, &Tree<'_>>,
) -> Result<Items<(Text, Option<Kind>)>, Flaw>
    ensures { Gives result (each_member kind_of (members_by_ref members.now.entries)) }
{
    let mut found = Items::new(alloc);
    for (name, json) in members.iter() {
        let kind = kind(json)?;
        let name = text(alloc, name)?;
        add(&mut found, (name, kind), members.len())?;
    }
    Ok(found)
}

/// The names of kinds at a key, each under its field's name.
pub(crate) fn kinds_at(
    alloc: Global,
    json: &Tree<'_>,
    name: &str,
) -> Result<Items<(Text, Option<Kind>)>, Flaw>
    ensures { Gives result (kinds_at name.now (view json.now)) }
{
    match json.get(name).and_then(Tree::as_object) {
        None => Err(Flaw::Refused),
        Some(members) => kinds(alloc, members),
    }
}

/// An entry.
#[tactic(auto, unfolding(crate::specs::Parts::raw_of))]
pub(crate) fn raw(alloc: Global, json: &Tree<'_>) -> Result<Raw, Flaw>
    ensures { Gives result (raw_of (view json.now)) }
{
    only(json, &["class", "fields"])?;
    let class = text_at(alloc, json, "class")?;
    let fields = values_at(alloc, json, "fields")?;
    Ok(Raw { class, fields })
}

/// The entry at a key.
pub(crate) fn entry_at(alloc: Global, json: &Tree<'_>, name: &str) -> Result<Raw, Flaw>
    ensures { Gives result (entry_at name.now (view json.now)) }
{
    match json.get(name) {
        None => Err(Flaw::Refused),
        Some(value) => raw(alloc, value),
    }
}

/// A template: null, or as an entry.
pub(crate) fn template(alloc: Global, json: &Tree<'_>) -> Result<Option<Raw>, Flaw>
    ensures { Gives result (template_of (view json.now)) }
{
    if json.is_null() {
        return Ok(None);
    }
    let like = raw(alloc, json)?;
    Ok(Some(like))
}

/// The template at a key.
pub(crate) fn template_at(alloc: Global, json: &Tree<'_>, name: &str) -> Result<Option<Raw>, Flaw>
    ensures { Gives result (template_at name.now (view json.now)) }
{
    match json.get(name) {
        None => Err(Flaw::Refused),
        Some(value) => template(alloc, value),
    }
}
