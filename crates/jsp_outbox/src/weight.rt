//! About how much memory answers take.
use jsp_reply::{Reply, Said};
use jsp_types::{Entry, Text, Value};

/// What an answer, an entry or a field takes beside its texts, in bytes.
const PLACE: u64 = 48;

/// About how many bytes an answer takes.
pub(crate) fn weight_of(said: &Said) -> u64 {
    match said.reply() {
        Reply::Shown { entry, .. } => weight_of_entry(entry).saturating_add(PLACE),
        Reply::Many { entries, .. } => weight_of_entries(entries.as_slice()),
        Reply::Page { entries, .. } => weight_of_entries(entries.as_slice()),
        Reply::Leases { items, .. } => weight_of_list(items.as_slice().len()),
        Reply::Batch { leases, .. } => weight_of_list(leases.as_slice().len()),
        Reply::Names { names, .. } => weight_of_list(names.as_slice().len()),
        Reply::Told { handback, .. } => weight_of_text(handback),
        _ => PLACE,
    }
}

/// About how many bytes these answers take.
pub(crate) fn weight_of_all(answers: &[Said]) -> u64 {
    let mut weight = 0_u64;
    for said in answers {
        weight = weight.saturating_add(weight_of(said));
    }
    weight
}

/// About how many bytes an answer takes, if there is one.
pub(crate) fn weight_of_some(said: &Option<Said>) -> u64 {
    match said {
        None => 0,
        Some(said) => weight_of(said),
    }
}

fn weight_of_entries(entries: &[Entry]) -> u64 {
    let mut weight = PLACE;
    for entry in entries {
        weight = weight.saturating_add(weight_of_entry(entry));
    }
    weight
}

fn weight_of_entry(entry: &Entry) -> u64 {
    let mut weight = weight_of_text(&entry.class);
    for (name, value) in entry.fields.as_slice() {
        weight = weight.saturating_add(weight_of_text(name));
        if let Value::Text(text) = value {
            weight = weight.saturating_add(text.as_str().len() as u64);
        }
    }
    weight
}

/// What so many numbers or short texts take.
fn weight_of_list(count: usize) -> u64 {
    PLACE.saturating_mul(count as u64).saturating_add(PLACE)
}

/// What something takes that has this text.
fn weight_of_text(text: &Text) -> u64 {
    PLACE.saturating_add(text.as_str().len() as u64)
}
