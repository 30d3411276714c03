//! Leases and what became of them, as JSON.
ghost use Rattle.std.specs.Prelude.{◌∷◌, [], codes};
ghost use Rattle.std.specs.Fmt.{signed_decimal};
ghost use Rattle.json.specs.Token as token;
ghost use Rattle.jsp_reply.specs.Json.{count, list_data, lease_data, batch_data, lease_answer_data};
ghost use Rattle.jsp_reply.specs.Tokens.{Adds, AddsTokens};

use crate::pairs::{write_count, write_name};
use crate::{LeaseAnswer, LeaseOutcome};
use json::Writer;
use jsp_types::NoMemory;

/// A lease and its time.
pub(crate) fn write_lease(out: &mut Writer, lease: u64, ms: u64) -> Result<(), NoMemory>
    ensures { Adds result out.old out.new (lease_data (count lease) ms) }
{
    out.begin_object()?;
    write_count(out, "lease", lease)?;
    write_count(out, "ms", ms)?;
    out.end_object()
}

fn write_numbers(out: &mut Writer, numbers: &[u64]) -> Result<(), NoMemory>
    ensures { Adds result out.old out.new (list_data count numbers.now) }
{
    out.begin_array()?;
    for number in numbers {
        out.u64(*number)?;
    }
    out.end_array()
}

/// Leases that were drawn together, and their time.
pub(crate) fn write_batch(out: &mut Writer, leases: &[u64], ms: u64) -> Result<(), NoMemory>
    ensures { Adds result out.old out.new (batch_data leases.now ms) }
{
    out.begin_object()?;
    write_name(out, "leases")?;
    write_numbers(out, leases)?;
    write_count(out, "ms", ms)?;
    out.end_object()
}

/// A lease as it was asked, which may be followed by more.
fn begin_lease(out: &mut Writer, lease: i64) -> Result<(), NoMemory>
    ensures { AddsTokens result out.old out.new
        (token.begin_object ∷ token.key (codes "lease") ∷ token.number (signed_decimal lease) ∷ []) }
{
    out.begin_object()?;
    write_name(out, "lease")?;
    out.i64(lease)
}

fn write_lease_answer(out: &mut Writer, answer: &LeaseAnswer) -> Result<(), NoMemory>
    ensures { Adds result out.old out.new (lease_answer_data answer.now) }
{
    match answer.outcome {
        LeaseOutcome::Renewed(ms) => {
            begin_lease(out, answer.lease)?;
            write_count(out, "ms", ms)?;
            out.end_object()
        }
        LeaseOutcome::Cancelled => {
            begin_lease(out, answer.lease)?;
            out.end_object()
        }
        LeaseOutcome::Refused(refusal) => {
            out.begin_object()?;
            write_count(out, "fault", u64::from(refusal.number()))?;
            write_name(out, "lease")?;
            out.i64(answer.lease)?;
            out.end_object()
        }
    }
}

/// What became of each lease, under the number that was asked.
pub(crate) fn write_lease_answers(out: &mut Writer, answers: &[LeaseAnswer]) -> Result<(), NoMemory>
    ensures { Adds result out.old out.new (list_data lease_answer_data answers.now) }
{
    out.begin_array()?;
    for answer in answers {
        write_lease_answer(out, answer)?;
    }
    out.end_array()
}
