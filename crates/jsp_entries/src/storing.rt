//! Written rows, stored beside the registrations that are owed them.
ghost use Rattle.std.specs.Prelude.{◌≡◌, ◌++◌, map, true, OnOk, OnErr};
ghost use Rattle.jsp_notify.specs.Hearing.{all_of, have_heard};
ghost use Rattle.jsp_notify.specs.Owing.{owed};

use jsp_model::Row;
use jsp_notify::{Heard, Listeners, Registrations};
use jsp_store::Rows;
use jsp_types::{Classes, NoMemory};

/// Stores the rows, and registrations are owed them.
pub(crate) fn store(
    classes: &Classes,
    stored: &mut Rows,
    registrations: &mut Registrations,
    rows: Vec<Row>,
    caller: Option<u64>,
) -> Result<(), NoMemory>
    ensures rows { OnOk result (stored.new ≡ stored.old ++ rows.items) }
    ensures owed { OnOk result (registrations.new ≡ map (owed classes.now caller rows.items) registrations.old) }
    ensures rows_stay { OnErr result (stored.new ≡ stored.old) }
    ensures owed_stay { OnErr result (registrations.new ≡ registrations.old) }
{
    let listeners = registrations.listeners_for(rows.as_slice())?;
    store_beside(classes, stored, listeners, rows, caller)?;
    Ok(())
}

/// Stores the rows beside registrations that are owed them: at once, or where these are very many
/// later.
fn store_beside(
    classes: &Classes,
    stored: &mut Rows,
    listeners: &mut Listeners,
    rows: Vec<Row>,
    caller: Option<u64>,
) -> Result<(), NoMemory>
    requires { have_heard listeners.old rows.items ≡ true }
    ensures rows { OnOk result (stored.new ≡ stored.old ++ rows.items) }
    ensures owed { OnOk result (all_of listeners.new ≡ map (owed classes.now caller rows.items) (all_of listeners.old)) }
    ensures rows_stay { OnErr result (stored.new ≡ stored.old) }
    ensures owed_stay { OnErr result (all_of listeners.new ≡ all_of listeners.old) }
{
    if listeners.are_many_for(rows.len()) {
        return store_recorded(classes, stored, listeners, rows, caller);
    }
    store_owed(classes, stored, &mut listeners.heard, rows, caller)?;
    Ok(())
}

/// Stores the rows. What registrations are owed of them is recorded, and told later.
fn store_recorded(
    classes: &Classes,
    stored: &mut Rows,
    listeners: &mut Listeners,
    mut rows: Vec<Row>,
    caller: Option<u64>,
) -> Result<(), NoMemory>
    ensures rows { OnOk result (stored.new ≡ stored.old ++ rows.items) }
    ensures owed { OnOk result (all_of listeners.new ≡ map (owed classes.now caller rows.items) (all_of listeners.old)) }
    ensures rows_stay { OnErr result (stored.new ≡ stored.old) }
    ensures owed_stay { OnErr result (all_of listeners.new ≡ all_of listeners.old) }
{
    listeners.record(classes, rows.as_slice(), caller)?;
    match stored.append(&mut rows) {
        Ok(()) => Ok(()),
        Err(e) => {
            listeners.forget_last();
            Err(e)
        }
    }
}

/// Stores the rows beside registrations that are owed them.
fn store_owed(
    classes: &Classes,
    stored: &mut Rows,
    heard: &mut Heard,
    mut rows: Vec<Row>,
    caller: Option<u64>,
) -> Result<(), NoMemory>
    ensures rows { OnOk result (stored.new ≡ stored.old ++ rows.items) }
    ensures owed { OnOk result (heard.new ≡ map (owed classes.now caller rows.items) heard.old) }
    ensures rows_stay { OnErr result (stored.new ≡ stored.old) }
    ensures owed_stay { OnErr result (heard.new ≡ heard.old) }
{
    heard.owe_all(classes, rows.as_slice(), caller)?;
    match stored.append(&mut rows) {
        Ok(()) => Ok(()),
        Err(e) => {
            heard.forgive_all(classes, rows.as_slice(), caller);
            Err(e)
        }
    }
}
