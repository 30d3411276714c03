//! The members of an object, put in one by one.
ghost use Rattle.std.specs.Prelude.{◌≡◌, OnOk, IfOk, true};
ghost use Rattle.serde_json.specs.Data.{put};
ghost use Rattle.jsp_wire.specs.Tree.{view, members_view, members_in_order, members_by_ref};

use crate::tree::{Members, Tree};
use jsp_types::NoMemory;
use std::alloc::Global;
use std::collections::BTreeMap;

/// Room that is made at once for the members of an object that has one.
const FIRST_MEMBERS: usize = 8;

/// Makes room for the members of an object, before the first of them.
fn make_room(members: &mut Members<'_>) -> Result<(), NoMemory>
    ensures { OnOk result (members.new.items ≡ members.old.items) }
{
    if members.is_empty() {
        members.reserve(FIRST_MEMBERS)?;
    }
    Ok(())
}

/// Puts a member behind those that are there. Of a key that comes twice the last value counts.
pub(crate) fn put<'a>(
    members: &mut Members<'a>,
    key: &'a str,
    tree: Tree<'a>,
) -> Result<(), NoMemory>
    ensures { OnOk result (members_view members.new.items
        ≡ put key.now (view tree.entry) (members_view members.old.items)) }
{
    make_room(members)?;
    members.push((key, tree))?;
    Ok(())
}

/// Whether each key is above the one before it, so that the members stand in byte order of their
/// keys.
pub(crate) fn is_ascending<'a>(members: &[(&'a str, Tree<'a>)]) -> bool
    ensures { result ≡ true → members_view members.now ≡ members_in_order members.now }
{
    for later in 1..members.len() {
        let (before, _) = &members[later - 1];
        let (key, _) = &members[later];
        if !before.cmp(key).is_lt() {
            return false;
        }
    }
    true
}

/// The members in byte order of their keys, each key once.
pub(crate) fn ordered<'t, 'a>(
    alloc: Global,
    members: &'t [(&'a str, Tree<'a>)],
) -> Result<BTreeMap<&'a str, &'t Tree<'a>>, NoMemory>
    ensures { IfOk result (λ found. members_by_ref found.entries ≡ members_view members.now) }
{
    let mut found = BTreeMap::new(alloc);
    for (key, tree) in members {
        found.insert(*key, tree)?;
    }
    Ok(found)
}
