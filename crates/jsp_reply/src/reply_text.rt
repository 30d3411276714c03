//! From a reply to its text.
ghost use Rattle.std.specs.Prelude.{◌≡◌, ◌<◌, ◌∷◌, [], IfOk, length, codes, decimal};
ghost use Rattle.serde_json.specs.Data.{string};
ghost use Rattle.json.specs.Token as token;
ghost use Rattle.jsp_reply.specs.Text.{text_of, bound_of};
ghost use Rattle.jsp_reply.specs.Json.{list_data, state_data, id_data, refused_data, event_data, reply_data};
ghost use Rattle.jsp_reply.specs.Tokens.{Adds, AddsTokens};

use crate::leases::{write_batch, write_lease, write_lease_answers};
use crate::pairs::{write_count, write_name, write_text};
use crate::shown::{write_entries, write_entry, write_page};
use crate::{Refusal, Reply, Said, TxnState};
use json::Writer;
use jsp_types::{NoMemory, Text};
use std::alloc::Global;

/// Room that most answers need no more than.
const FIRST_ROOM: usize = 128;

fn write_names(out: &mut Writer, names: &[Text]) -> Result<(), NoMemory>
    ensures { Adds result out.old out.new (list_data string names.now) }
{
    out.begin_array()?;
    for name in names {
        out.string(name.as_str())?;
    }
    out.end_array()
}

fn write_state(out: &mut Writer, state: TxnState) -> Result<(), NoMemory>
    ensures { Adds result out.old out.new (state_data state) }
{
    match state {
        TxnState::Active => out.string("active"),
        TxnState::Voting => out.string("voting"),
    }
}

fn write_id(out: &mut Writer, id: Option<u64>) -> Result<(), NoMemory>
    ensures { Adds result out.old out.new (id_data id) }
{
    match id {
        Some(id) => out.u64(id),
        None => out.null(),
    }
}

fn write_refused(out: &mut Writer, id: Option<u64>, refusal: Refusal) -> Result<(), NoMemory>
    ensures { Adds result out.old out.new (refused_data id refusal) }
{
    out.begin_object()?;
    write_count(out, "fault", u64::from(refusal.number()))?;
    write_name(out, "id")?;
    write_id(out, id)?;
    out.end_object()
}

fn begin_event(out: &mut Writer, handback: &str, lease: u64) -> Result<(), NoMemory>
    ensures { AddsTokens result out.old out.new
        (token.begin_object ∷ token.key (codes "handback") ∷ token.string handback.now
        ∷ token.key (codes "lease") ∷ token.number (decimal lease) ∷ []) }
{
    out.begin_object()?;
    write_text(out, "handback", handback)?;
    write_count(out, "lease", lease)
}

fn write_event(out: &mut Writer, handback: &str, lease: u64, sequence: u64) -> Result<(), NoMemory>
    ensures { Adds result out.old out.new (event_data handback.now lease sequence) }
{
    begin_event(out, handback, lease)?;
    write_count(out, "seq", sequence)?;
    out.end_object()
}

/// What stands before the value of an answer.
fn begin_answer(out: &mut Writer, id: u64) -> Result<(), NoMemory>
    ensures { AddsTokens result out.old out.new (token.begin_object ∷ token.key (codes "id")
        ∷ token.number (decimal id) ∷ token.key (codes "ok") ∷ []) }
{
    out.begin_object()?;
    write_count(out, "id", id)?;
    write_name(out, "ok")
}

fn write_reply(alloc: Global, out: &mut Writer, reply: &Reply) -> Result<(), NoMemory>
    ensures { Adds result out.old out.new (reply_data reply.now) }
{
    match reply {
        Reply::Done { id } | Reply::Nothing { id } => {
            begin_answer(out, *id)?;
            out.null()?;
        }
        Reply::Leased { id, lease, ms } => {
            begin_answer(out, *id)?;
            write_lease(out, *lease, *ms)?;
        }
        Reply::Shown { id, entry } => {
            begin_answer(out, *id)?;
            write_entry(alloc, out, entry)?;
        }
        Reply::State { id, state } => {
            begin_answer(out, *id)?;
            write_state(out, *state)?;
        }
        Reply::Names { id, names } => {
            begin_answer(out, *id)?;
            write_names(out, names.as_slice())?;
        }
        Reply::Leases { id, items } => {
            begin_answer(out, *id)?;
            write_lease_answers(out, items.as_slice())?;
        }
        Reply::Batch { id, leases, ms } => {
            begin_answer(out, *id)?;
            write_batch(out, leases.as_slice(), *ms)?;
        }
        Reply::Many { id, entries } => {
            begin_answer(out, *id)?;
            write_entries(alloc, out, entries.as_slice())?;
        }
        Reply::Page { id, end, entries } => {
            begin_answer(out, *id)?;
            write_page(alloc, out, *end, entries.as_slice())?;
        }
        Reply::Refused { id, refusal } => return write_refused(out, *id, *refusal),
        Reply::Told {
            handback,
            lease,
            sequence,
        } => {
            out.begin_object()?;
            write_name(out, "event")?;
            write_event(out, handback.as_str(), *lease, *sequence)?;
        }
    }
    out.end_object()
}

pub(crate) fn reply_text(alloc: Global, reply: &Reply) -> Result<Vec<u8>, NoMemory>
    ensures { IfOk result (λ v. v.items ≡ text_of reply.now) }
{
    let mut out = Writer::new(Vec::with_capacity(alloc, FIRST_ROOM)?);
    write_reply(alloc, &mut out, reply)?;
    Ok(out.into_inner())
}

/// The one text of an answer or an event: compact JSON, its keys in byte order.
///
/// It is shorter than 65,536 bytes; that of leases drawn together or of several entries is shorter
/// than 1,048,576.
pub fn text(alloc: Global, said: &Said) -> Result<Vec<u8>, NoMemory>
    ensures text { IfOk result (λ v. v.items ≡ text_of said.now) }
    ensures short { IfOk result (λ v. length v.items < bound_of said.now) }
{
    reply_text(alloc, said.reply())
}
