//! From a payload to a request.
ghost use Rattle.std.specs.Prelude.{Some};
ghost use Rattle.jsp_wire.specs.Tree.{view};
ghost use Rattle.jsp_wire.specs.declared.ask.Version.TheVariants.{One};
ghost use Rattle.jsp_wire.specs.Parts.{Gives};
ghost use Rattle.jsp_wire.specs.Operations.{declare_of, write_of, search_of, notify_of, renew_of, cancel_of, renew_all_of, cancel_all_of, begin_of, transaction_of, reset_of, keyless_of, hello_of, ask_of};
ghost use Rattle.jsp_wire.specs.Reading.{TellsReading, request_of, reading_of, reading};

use crate::added::added;
use crate::fault::{Flaw, WireFault};
use crate::field::{
    entry_at, id_at, kinds_at, number_at, only, optional_number_at, optional_text_at, str_at,
    template_at, text_at, version_at,
};
use crate::list::{numbers_at, pairs_at};
use crate::parse::parse;
use crate::tree::Tree;
use crate::{Ask, Asked, Declare, Notify, Request, Search, Version, Write};
use json::Scratch;
use std::alloc::Global;

/// The longest payload that is read in a scratch space that is kept, which grows to its length.
const KEPT_ROOM: usize = 4096;

#[tactic(auto, unfolding(crate::specs::Operations::declare_of))]
fn declare(alloc: Global, json: &Tree<'_>) -> Result<Ask, Flaw>
    ensures { Gives result (declare_of (view json.now)) }
{
    only(json, &["id", "op", "class", "parent", "fields"])?;
    let class = text_at(alloc, json, "class")?;
    let parent = optional_text_at(alloc, json, "parent")?;
    let fields = kinds_at(alloc, json, "fields")?;
    Ok(Ask::Declare(Declare {
        class,
        parent,
        fields,
    }))
}

#[tactic(auto, unfolding(crate::specs::Operations::write_of))]
fn write(alloc: Global, json: &Tree<'_>) -> Result<Ask, Flaw>
    ensures { Gives result (write_of (view json.now)) }
{
    only(json, &["id", "op", "space", "entry", "lease", "txn"])?;
    let space = text_at(alloc, json, "space")?;
    let entry = entry_at(alloc, json, "entry")?;
    let lease = number_at(json, "lease")?;
    let txn = optional_number_at(json, "txn")?;
    Ok(Ask::Write(Write {
        space,
        entry,
        lease,
        txn,
    }))
}

#[tactic(auto, unfolding(crate::specs::Operations::search_of))]
fn search(alloc: Global, json: &Tree<'_>) -> Result<Search, Flaw>
    ensures { Gives result (search_of (view json.now)) }
{
    only(json, &["id", "op", "space", "template", "timeout", "txn"])?;
    let space = text_at(alloc, json, "space")?;
    let template = template_at(alloc, json, "template")?;
    let timeout = number_at(json, "timeout")?;
    let txn = optional_number_at(json, "txn")?;
    Ok(Search {
        space,
        template,
        timeout,
        txn,
    })
}

#[tactic(auto, unfolding(crate::specs::Operations::notify_of))]
fn notify(alloc: Global, json: &Tree<'_>) -> Result<Ask, Flaw>
    ensures { Gives result (notify_of (view json.now)) }
{
    only(
        json,
        &["id", "op", "space", "template", "lease", "handback", "txn"],
    )?;
    let space = text_at(alloc, json, "space")?;
    let template = template_at(alloc, json, "template")?;
    let lease = number_at(json, "lease")?;
    let handback = text_at(alloc, json, "handback")?;
    let txn = optional_number_at(json, "txn")?;
    Ok(Ask::Notify(Notify {
        space,
        template,
        lease,
        handback,
        txn,
    }))
}

#[tactic(auto, unfolding(crate::specs::Operations::renew_of))]
fn renew(json: &Tree<'_>) -> Result<Ask, Flaw>
    ensures { Gives result (renew_of (view json.now)) }
{
    only(json, &["id", "op", "lease", "ms"])?;
    let lease = number_at(json, "lease")?;
    let ms = number_at(json, "ms")?;
    Ok(Ask::Renew { lease, ms })
}

#[tactic(auto, unfolding(crate::specs::Operations::cancel_of))]
fn cancel(json: &Tree<'_>) -> Result<Ask, Flaw>
    ensures { Gives result (cancel_of (view json.now)) }
{
    only(json, &["id", "op", "lease"])?;
    let lease = number_at(json, "lease")?;
    Ok(Ask::Cancel { lease })
}

#[tactic(auto, unfolding(crate::specs::Operations::renew_all_of))]
fn renew_all(alloc: Global, json: &Tree<'_>) -> Result<Ask, Flaw>
    ensures { Gives result (renew_all_of (view json.now)) }
{
    only(json, &["id", "op", "leases"])?;
    let leases = pairs_at(alloc, json, "leases")?;
    Ok(Ask::RenewAll { leases })
}

#[tactic(auto, unfolding(crate::specs::Operations::cancel_all_of))]
fn cancel_all(alloc: Global, json: &Tree<'_>) -> Result<Ask, Flaw>
    ensures { Gives result (cancel_all_of (view json.now)) }
{
    only(json, &["id", "op", "leases"])?;
    let leases = numbers_at(alloc, json, "leases")?;
    Ok(Ask::CancelAll { leases })
}

#[tactic(auto, unfolding(crate::specs::Operations::begin_of))]
fn begin(json: &Tree<'_>) -> Result<Ask, Flaw>
    ensures { Gives result (begin_of (view json.now)) }
{
    only(json, &["id", "op", "lease"])?;
    let lease = number_at(json, "lease")?;
    Ok(Ask::Txn { lease })
}

/// The transaction that an operation is about, which can't be null.
#[tactic(auto, unfolding(crate::specs::Operations::transaction_of))]
fn transaction(json: &Tree<'_>) -> Result<i64, Flaw>
    ensures { Gives result (transaction_of (view json.now)) }
{
    only(json, &["id", "op", "txn"])?;
    let txn = number_at(json, "txn")?;
    Ok(txn)
}

#[tactic(auto, unfolding(crate::specs::Operations::reset_of))]
fn reset(alloc: Global, json: &Tree<'_>) -> Result<Ask, Flaw>
    ensures { Gives result (reset_of (view json.now)) }
{
    only(json, &["id", "op", "space"])?;
    let space = text_at(alloc, json, "space")?;
    Ok(Ask::Reset { space })
}

/// An operation without keys of its own.
#[tactic(auto, unfolding(crate::specs::Operations::keyless_of))]
fn keyless(json: &Tree<'_>, ask: Ask) -> Result<Ask, Flaw>
    ensures { Gives result (keyless_of ask (view json.now)) }
{
    only(json, &["id", "op"])?;
    Ok(ask)
}

#[tactic(auto, unfolding(crate::specs::Operations::hello_of))]
fn hello(json: &Tree<'_>) -> Result<Ask, Flaw>
    ensures { Gives result (hello_of (view json.now)) }
{
    only(json, &["id", "op", "version"])?;
    let version = version_at(json, "version")?;
    Ok(Ask::Hello { version })
}

#[tactic(auto, unfolding(crate::specs::Operations::ask_of))]
fn ask(alloc: Global, version: Version, name: &str, json: &Tree<'_>) -> Result<Ask, Flaw>
    ensures { Gives result (ask_of version name.now (view json.now)) }
{
    match name {
        "declare" => declare(alloc, json),
        "write" => write(alloc, json),
        "read" => Ok(Ask::Read(search(alloc, json)?)),
        "read_if" => Ok(Ask::ReadIf(search(alloc, json)?)),
        "take" => Ok(Ask::Take(search(alloc, json)?)),
        "take_if" => Ok(Ask::TakeIf(search(alloc, json)?)),
        "notify" => notify(alloc, json),
        "renew" => renew(json),
        "cancel" => cancel(json),
        "renew_all" => renew_all(alloc, json),
        "cancel_all" => cancel_all(alloc, json),
        "txn" => begin(json),
        "commit" => Ok(Ask::Commit {
            txn: transaction(json)?,
        }),
        "abort" => Ok(Ask::Abort {
            txn: transaction(json)?,
        }),
        "state" => Ok(Ask::State {
            txn: transaction(json)?,
        }),
        "reset" => reset(alloc, json),
        "spaces" => keyless(json, Ask::Spaces),
        "bye" => keyless(json, Ask::Bye),
        "hello" => hello(json),
        _ => added(alloc, version, name, json),
    }
}

#[tactic(auto, unfolding(crate::specs::Reading::request_of))]
fn request(alloc: Global, version: Version, json: &Tree<'_>) -> Result<Asked, Flaw>
    ensures { Gives result (request_of version (view json.now)) }
{
    let Some(id) = id_at(json) else {
        return Err(Flaw::Refused);
    };
    let Some(name) = str_at(json, "op") else {
        return Err(Flaw::Refused);
    };
    let ask = ask(alloc, version, name, json)?;
    match Asked::checked(alloc, Request { id, ask })? {
        None => Err(Flaw::Refused),
        Some(asked) => Ok(asked),
    }
}

fn request_or_fault(alloc: Global, version: Version, json: &Tree<'_>) -> Result<Asked, WireFault>
    ensures { TellsReading result (reading_of version (Some (view json.now))) }
{
    match request(alloc, version, json) {
        Ok(asked) => Ok(asked),
        Err(Flaw::Memory) => Err(WireFault::NoMemory),
        Err(Flaw::Refused) => Err(WireFault::BadRequest { id: id_at(json) }),
    }
}

/// The request that a payload is on a line of version 1, as each line is at first, or its one
/// fault.
///
/// It has the operations of version 1 and `hello`. All else is as [`read_ask_in`] says.
pub fn read_ask(alloc: Global, payload: &[u8]) -> Result<Asked, WireFault>
    ensures { TellsReading result (reading One payload.now) }
{
    read_ask_in(alloc, Version::One, payload)
}

/// The request that a payload is on a line of this version, or its one fault.
///
/// A payload is JSON (RFC 8259) as serde_json reads it, nested at most 127 deep. A request is an
/// object with `id`, `op` and the keys of its operation and no other; `parent` and `txn` may be
/// absent or null, but for the `txn` of `commit`, `abort` and `state`. `leases` is a list, of
/// numbers to cancel them and of pairs `[lease, ms]` to renew them; a pair is an array of exactly
/// two numbers. A line of version 2 has the operations of version 1 and `write_all`, `take_many`,
/// `contents`, `next` and `close_set`. The limits of a request are those of [`Asked`]. The
/// operations, their keys and these limits are this profile's own.
pub fn read_ask_in(alloc: Global, version: Version, payload: &[u8]) -> Result<Asked, WireFault>
    ensures { TellsReading result (reading version payload.now) }
{
    read_within(alloc, version, payload, &mut Scratch::new(alloc))
}

/// The same, in a scratch space that is kept from payload to payload. It keeps room for a payload
/// of 4,096 bytes; a longer one is read in a space of its own.
pub fn read_ask_with(
    alloc: Global,
    version: Version,
    payload: &[u8],
    scratch: &mut Scratch,
) -> Result<Asked, WireFault>
    ensures { TellsReading result (reading version payload.now) }
{
    if payload.len() > KEPT_ROOM {
        return read_ask_in(alloc, version, payload);
    }
    read_within(alloc, version, payload, scratch)
}

#[tactic(auto, unfolding(crate::specs::Reading::reading))]
fn read_within(
    alloc: Global,
    version: Version,
    payload: &[u8],
    scratch: &mut Scratch,
) -> Result<Asked, WireFault>
    ensures { TellsReading result (reading version payload.now) }
{
    match parse(alloc, payload, scratch) {
        Ok(json) => request_or_fault(alloc, version, &json),
        Err(Flaw::Memory) => Err(WireFault::NoMemory),
        Err(Flaw::Refused) => Err(WireFault::BadJson),
    }
}
