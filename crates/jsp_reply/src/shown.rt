//! Entries as JSON.
ghost use Rattle.std.specs.Prelude.{◌∷◌, [], map, codes};
ghost use Rattle.json.specs.Token as token;
ghost use Rattle.serde_json.specs.Data.{object, no_members};
ghost use Rattle.jsp_reply.specs.Text.{value_data, with_fields};
ghost use Rattle.jsp_reply.specs.Json.{list_data, entry_data, page_data};
ghost use Rattle.jsp_reply.specs.Ordered.{members_of};
ghost use Rattle.jsp_reply.specs.Tokens.{Adds, AddsTokens, tokens_of};

use crate::members::{Members, are_in_order, in_order};
use crate::pairs::{write_flag, write_name, write_text};
use json::Writer;
use jsp_types::{Entry, NoMemory, Text, Value};
use std::alloc::Global;

fn write_value(out: &mut Writer, value: &Value) -> Result<(), NoMemory>
    ensures { Adds result out.old out.new (value_data value.now) }
{
    match value {
        Value::Null => out.null(),
        Value::Int(n) => out.i64(*n),
        Value::Text(text) => out.string(text.as_str()),
        Value::Bool(b) => out.boolean(*b),
    }
}

fn write_member(out: &mut Writer, name: &str, value: &Value) -> Result<(), NoMemory>
    ensures { AddsTokens result out.old out.new
        (token.key name.now ∷ tokens_of (value_data value.now)) }
{
    out.key(name)?;
    write_value(out, value)
}

/// The fields in the order in which they are given.
fn write_list(out: &mut Writer, fields: &[(Text, Value)]) -> Result<(), NoMemory>
    ensures { Adds result out.old out.new (object (members_of fields.now)) }
{
    out.begin_object()?;
    for (name, value) in fields {
        write_member(out, name.as_str(), value)?;
    }
    out.end_object()
}

fn write_members(out: &mut Writer, members: &Members<'_>) -> Result<(), NoMemory>
    ensures { Adds result out.old out.new
        (object (members_of (map (λ m. (m.0.now, m.1.now)) members.now.entries))) }
{
    out.begin_object()?;
    for (name, value) in members.iter() {
        write_member(out, name, value)?;
    }
    out.end_object()
}

/// Fields in any order. Those that stand as JSON has them are written as they stand.
fn write_fields(alloc: Global, out: &mut Writer, fields: &[(Text, Value)]) -> Result<(), NoMemory>
    ensures { Adds result out.old out.new (object (with_fields fields.now no_members)) }
{
    if are_in_order(fields) {
        return write_list(out, fields);
    }
    let members = in_order(alloc, fields)?;
    write_members(out, &members)
}

fn begin_entry(out: &mut Writer, class: &str) -> Result<(), NoMemory>
    ensures { AddsTokens result out.old out.new
        (token.begin_object ∷ token.key (codes "class") ∷ token.string class.now
        ∷ token.key (codes "fields") ∷ []) }
{
    out.begin_object()?;
    write_text(out, "class", class)?;
    write_name(out, "fields")
}

/// An entry: its class, and all its fields in byte order of their names.
pub(crate) fn write_entry(alloc: Global, out: &mut Writer, entry: &Entry) -> Result<(), NoMemory>
    ensures { Adds result out.old out.new (entry_data entry.now) }
{
    begin_entry(out, entry.class.as_str())?;
    write_fields(alloc, out, entry.fields.as_slice())?;
    out.end_object()
}

/// The entries in their order.
pub(crate) fn write_entries(
    alloc: Global,
    out: &mut Writer,
    entries: &[Entry],
) -> Result<(), NoMemory>
    ensures { Adds result out.old out.new (list_data entry_data entries.now) }
{
    out.begin_array()?;
    for entry in entries {
        write_entry(alloc, out, entry)?;
    }
    out.end_array()
}

fn begin_page(out: &mut Writer, end: bool) -> Result<(), NoMemory>
    ensures { AddsTokens result out.old out.new (token.begin_object ∷ token.key (codes "end")
        ∷ token.boolean end ∷ token.key (codes "entries") ∷ []) }
{
    out.begin_object()?;
    write_flag(out, "end", end)?;
    write_name(out, "entries")
}

/// Entries of a match set, and whether these were its last.
pub(crate) fn write_page(
    alloc: Global,
    out: &mut Writer,
    end: bool,
    entries: &[Entry],
) -> Result<(), NoMemory>
    ensures { Adds result out.old out.new (page_data end entries.now) }
{
    begin_page(out, end)?;
    write_entries(alloc, out, entries)?;
    out.end_object()
}
