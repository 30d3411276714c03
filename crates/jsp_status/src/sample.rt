//! The lines of metrics.
ghost use Rattle.std.specs.Prelude.{◌≡◌, ◌++◌, OnOk};
ghost use Rattle.jsp_status.specs.Sample.{end_text, head_of, known_metric, kind_text, label_text, labelled, metric_text, numbered, numbered_labels};

use crate::decimal::push_decimal;
use crate::label::push_in_label;
use crate::metric::{Kind, Metric};
use std::alloc::{AllocError, Global};

/// Appends what stands before the samples of a metric.
#[tactic(auto, unfolding(crate::specs::Sample::head_of))]
pub(crate) fn push_head(text: &mut Vec<u8>, metric: Metric) -> Result<(), AllocError>
    ensures { OnOk result (text.new.items ≡ text.old.items ++ head_of metric) }
{
    text.extend_from_slice(b"# HELP ")?;
    text.extend_from_slice(metric.name().as_bytes())?;
    text.extend_from_slice(b" ")?;
    text.extend_from_slice(metric.help().as_bytes())?;
    text.extend_from_slice(b"\n# TYPE ")?;
    text.extend_from_slice(metric.name().as_bytes())?;
    push_kind(text, metric.kind())
}

fn push_kind(text: &mut Vec<u8>, kind: Kind) -> Result<(), AllocError>
    ensures { OnOk result (text.new.items ≡ text.old.items ++ kind_text kind) }
{
    match kind {
        Kind::Counter => text.extend_from_slice(b" counter\n"),
        Kind::Gauge => text.extend_from_slice(b" gauge\n"),
    }
}

/// Appends a metric with one sample.
#[tactic(auto, unfolding(crate::specs::Sample::metric_text))]
pub(crate) fn push_metric(
    alloc: Global,
    text: &mut Vec<u8>,
    metric: Metric,
    number: u64,
) -> Result<(), AllocError>
    ensures { OnOk result (text.new.items ≡ text.old.items ++ metric_text metric number) }
{
    push_head(text, metric)?;
    text.extend_from_slice(metric.name().as_bytes())?;
    text.extend_from_slice(b" ")?;
    push_decimal(alloc, text, number)?;
    text.extend_from_slice(b"\n")
}

/// Appends a metric with one sample, where it is known.
pub(crate) fn push_known(
    alloc: Global,
    text: &mut Vec<u8>,
    metric: Metric,
    number: Option<u64>,
) -> Result<(), AllocError>
    ensures { OnOk result (text.new.items ≡ text.old.items ++ known_metric metric number) }
{
    match number {
        Some(number) => push_metric(alloc, text, metric, number),
        None => Ok(()),
    }
}

/// Appends a label and its value.
#[tactic(auto, unfolding(crate::specs::Sample::label_text))]
fn push_label(text: &mut Vec<u8>, label: &str, value: &str) -> Result<(), AllocError>
    ensures { OnOk result (text.new.items ≡ text.old.items ++ label_text label.now value.now) }
{
    text.extend_from_slice(label.as_bytes())?;
    text.extend_from_slice(b"=\"")?;
    push_in_label(text, value)?;
    text.extend_from_slice(b"\"")
}

/// Appends the end of a sample that has labels.
#[tactic(auto, unfolding(crate::specs::Sample::end_text))]
fn push_end(alloc: Global, text: &mut Vec<u8>, number: u64) -> Result<(), AllocError>
    ensures { OnOk result (text.new.items ≡ text.old.items ++ end_text number) }
{
    text.extend_from_slice(b"} ")?;
    push_decimal(alloc, text, number)?;
    text.extend_from_slice(b"\n")
}

/// Appends a sample with a label.
#[tactic(auto, unfolding(crate::specs::Sample::labelled))]
pub(crate) fn push_labelled(
    alloc: Global,
    text: &mut Vec<u8>,
    metric: Metric,
    label: &str,
    value: &str,
    number: u64,
) -> Result<(), AllocError>
    ensures { OnOk result (text.new.items ≡ text.old.items ++ labelled metric label.now value.now number) }
{
    text.extend_from_slice(metric.name().as_bytes())?;
    text.extend_from_slice(b"{")?;
    push_label(text, label, value)?;
    push_end(alloc, text, number)
}

/// Appends a number and a name as labels.
#[tactic(auto, unfolding(crate::specs::Sample::numbered_labels))]
fn push_numbered_labels(
    alloc: Global,
    text: &mut Vec<u8>,
    place: u64,
    name: &str,
) -> Result<(), AllocError>
    ensures { OnOk result (text.new.items ≡ text.old.items ++ numbered_labels place name.now) }
{
    let digits = place.to_string(alloc)?;
    push_label(text, "number", digits.as_str())?;
    text.extend_from_slice(b",")?;
    push_label(text, "name", name)
}

/// Appends a sample with a number and a name as labels.
#[tactic(auto, unfolding(crate::specs::Sample::numbered))]
pub(crate) fn push_numbered(
    alloc: Global,
    text: &mut Vec<u8>,
    metric: Metric,
    place: u64,
    name: &str,
    number: u64,
) -> Result<(), AllocError>
    ensures { OnOk result (text.new.items ≡ text.old.items ++ numbered metric place name.now number) }
{
    text.extend_from_slice(metric.name().as_bytes())?;
    text.extend_from_slice(b"{")?;
    push_numbered_labels(alloc, text, place, name)?;
    push_end(alloc, text, number)
}
