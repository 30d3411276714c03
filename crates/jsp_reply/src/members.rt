//! The fields of an entry as JSON has them: of each name the last, in byte order of their names.
ghost use Rattle.std.specs.Prelude.{◌≡◌, map, IfOk, OnOk, IsTrue};
ghost use Rattle.serde_json.specs.Data.{no_members, put};
ghost use Rattle.jsp_reply.specs.Text.{value_data, with_fields};
ghost use Rattle.jsp_reply.specs.Ordered.{members_of};

use jsp_types::{NoMemory, Text, Value};
use std::alloc::Global;
use std::collections::BTreeMap;

/// Each name with its value.
pub(crate) type Members<'a> = BTreeMap<&'a str, &'a Value>;

/// Whether each name comes before the next one, so that the fields stand as JSON has them.
pub(crate) fn are_in_order(fields: &[(Text, Value)]) -> bool
    ensures { IsTrue result → members_of fields.now ≡ with_fields fields.now no_members }
{
    fields.is_sorted_by(|a, b| a.0.as_str() < b.0.as_str())
}

/// Puts a member at its place, or its value in the place of that of its name.
fn put_member<'a>(
    members: &mut Members<'a>,
    name: &'a str,
    value: &'a Value,
) -> Result<(), NoMemory>
    ensures { OnOk result (members_of (map (λ m. (m.0.now, m.1.now)) members.new.entries)
        ≡ put name.now (value_data value.now)
        (members_of (map (λ m. (m.0.now, m.1.now)) members.old.entries))) }
{
    members.insert(name, value)?;
    Ok(())
}

/// The fields as JSON has them, whatever their order.
pub(crate) fn in_order<'a>(
    alloc: Global,
    fields: &'a [(Text, Value)],
) -> Result<Members<'a>, NoMemory>
    ensures { IfOk result (λ members. members_of (map (λ m. (m.0.now, m.1.now)) members.entries)
        ≡ with_fields fields.now no_members) }
{
    let mut members = Members::new(alloc);
    for (name, value) in fields {
        put_member(&mut members, name.as_str(), value)?;
    }
    Ok(members)
}
