//! Entries and templates checked against the declared classes.
ghost use Rattle.std.specs.Prelude.{◌≡◌, nat_le, sum_by, find, bytes_eq, None, Some, option_map, option_copied, IfOk, IfErr, OnOk, IsTrue};
ghost use Rattle.std.specs.List.{list_all};
ghost use Rattle.std.specs.Option.{option_map_or};
ghost use Rattle.jsp_types.specs.Matching.{text_len, value_at, entry_of, entry_fault, template_of, template_fault, is_small, is_small_template};
ghost use Rattle.jsp_types.specs.Checking.{is_field_among, filled, filled_entry, is_bad_for, IsAccepted};

use crate::known::Known;
use crate::matching::find_value;
use crate::names::are_distinct;
use crate::{
    Classes, Entry, EntryError, EntryFault, Items, Kind, NoMemory, Raw, Template, Text, Value,
};
use std::alloc::Global;

/// How many bytes of text an entry may hold.
const MOST_TEXT: usize = 8192;

/// The kind of the field of that name.
fn kind_of(fields: &[(Text, Kind)], name: &str) -> Option<Kind>
    ensures { result ≡ option_map (λ f. f.1) (find (λ f. bytes_eq f.0 name.now) fields.now) }
{
    match fields.iter().find(|field| field.0.is(name)) {
        None => None,
        Some(field) => Some(field.1),
    }
}

/// Whether it is one of these fields, with a value of the field's kind.
fn is_field_among(fields: &[(Text, Kind)], given: &(Text, Value)) -> bool
    ensures { result ≡ is_field_among fields.now given.now }
{
    match kind_of(fields, given.0.as_str()) {
        None => false,
        Some(kind) => given.1.has_kind(kind),
    }
}

/// How many bytes of text are given for the field.
fn text_len_at(given: &[(Text, Value)], name: &str) -> usize
    ensures { result ≡ text_len (value_at given.now name.now) }
{
    match find_value(given, name) {
        None => 0,
        Some(value) => value.text_len(),
    }
}

/// Whether the texts that are given for these fields are within the limit together.
fn is_text_within_limit(fields: &[(Text, Kind)], given: &[(Text, Value)]) -> bool
    ensures { result ≡ nat_le (sum_by (λ f. text_len (value_at given.now f.0)) fields.now) 8192 }
{
    let mut room = MOST_TEXT;
    for field in fields {
        let len = text_len_at(given, field.0.as_str());
        if room < len {
            return false;
        }
        room -= len;
    }
    true
}

/// Whether each is one of these fields, with a value of the field's kind.
fn are_among(fields: &[(Text, Kind)], given: &[(Text, Value)]) -> bool
    ensures { result ≡ list_all (is_field_among fields.now) given.now }
{
    given.iter().all(|field| is_field_among(fields, field))
}

/// Whether a class with these fields has no such entry.
fn is_bad(fields: &[(Text, Kind)], given: &[(Text, Value)]) -> bool
    ensures { result ≡ is_bad_for fields.now given.now }
{
    // Once each is one of the class's few fields, names that differ are few.
    !are_among(fields, given) || !are_distinct(given) || !is_text_within_limit(fields, given)
}

/// The value that is given for the field, null where none is.
fn value_at(given: &[(Text, Value)], name: &str) -> Result<Value, NoMemory>
    ensures { IfOk result (λ value. value ≡ value_at given.now name.now) }
{
    match find_value(given, name) {
        None => Ok(Value::Null),
        Some(value) => value.clone(),
    }
}

/// These fields, each with the value that is given for it.
fn filled(
    alloc: Global,
    fields: &[(Text, Kind)],
    given: &[(Text, Value)],
) -> Result<Items<(Text, Value)>, NoMemory>
    ensures { IfOk result (λ values. values ≡ filled fields.now given.now) }
{
    let mut values = Items::from_vec(Vec::with_capacity(alloc, fields.len())?);
    for field in fields {
        let name = field.0.clone()?;
        let value = value_at(given, field.0.as_str())?;
        values.push((name, value))?;
    }
    Ok(values)
}

/// What is kept of the entry's class, where the entry isn't refused.
fn accepting<'a>(classes: &'a Classes, raw: &Raw) -> Result<&'a Known, EntryFault>
    ensures ok { IfOk result (λ known. IsAccepted classes.now raw.now known.now.fields) }
    ensures name { IfOk result (λ known. known.now.class.name ≡ raw.now.class) }
    ensures err { IfErr result (λ fault. entry_fault classes.now raw.now ≡ Some fault) }
{
    let Some(known) = classes.known(raw.class.as_str()) else {
        return Err(EntryFault::UnknownClass);
    };
    if is_bad(known.fields.as_slice(), raw.fields.as_slice()) {
        return Err(EntryFault::BadEntry);
    }
    Ok(known)
}

/// Why an entry is refused, the first fault that applies: its class isn't declared
/// (`UnknownClass`), or it gives a field twice, a field that the class hasn't or a value of another
/// kind, or its texts are past 8,192 bytes together (`BadEntry`). Takes no memory.
pub fn entry_fault(classes: &Classes, raw: &Raw) -> Option<EntryFault>
    ensures { result ≡ entry_fault classes.now raw.now }
{
    accepting(classes, raw).err()
}

/// Why a template is refused, as an entry is. The null template isn't. Takes no memory.
pub fn template_fault(classes: &Classes, raw: Option<&Raw>) -> Option<EntryFault>
    ensures { result ≡ template_fault classes.now (option_copied raw.entry) }
{
    match raw {
        None => None,
        Some(raw) => entry_fault(classes, raw),
    }
}

/// The entry, with null for each field that isn't given, or why it is refused (`EntryError::Fault`,
/// as `entry_fault`). `NoMemory` comes only where it isn't refused.
pub fn check_entry(alloc: Global, classes: &Classes, raw: &Raw) -> Result<Entry, EntryError>
    ensures entry { IfOk result (λ entry. entry ≡ entry_of classes.now raw.now) }
    ensures within_limits { IfOk result (λ entry. IsTrue (is_small entry)) }
    ensures ok { OnOk result (entry_fault classes.now raw.now ≡ None) }
    ensures err { IfErr result
        (λ error. error
        ≡ option_map_or EntryError.Fault (entry_fault classes.now raw.now) EntryError.NoMemory) }
{
    let known = accepting(classes, raw)?;
    let entry = entry_with(alloc, known, raw)?;
    Ok(entry)
}

/// The entry of this class, with null for each field that isn't given.
fn entry_with(alloc: Global, known: &Known, raw: &Raw) -> Result<Entry, NoMemory>
    ensures { IfOk result (λ entry. entry ≡ filled_entry known.now raw.now) }
{
    // The names as they were declared, whose bytes all entries of the class share.
    let class = known.class.name.clone()?;
    let fields = filled(alloc, known.fields.as_slice(), raw.fields.as_slice())?;
    Ok(Entry { class, fields })
}

/// An entry that isn't refused, with null for each field that isn't given. It isn't checked again.
pub fn fill_entry(alloc: Global, classes: &Classes, raw: &Raw) -> Result<Entry, NoMemory>
    requires { entry_fault classes.now raw.now ≡ None }
    ensures { IfOk result (λ entry. entry ≡ entry_of classes.now raw.now) }
{
    match classes.known(raw.class.as_str()) {
        None => unreachable!(),
        Some(known) => entry_with(alloc, known, raw),
    }
}

/// A template that isn't refused, with null for each field that isn't given. It isn't checked again.
pub fn fill_template(
    alloc: Global,
    classes: &Classes,
    raw: Option<&Raw>,
) -> Result<Template, NoMemory>
    requires { template_fault classes.now (option_copied raw) ≡ None }
    ensures { IfOk result (λ template. template ≡ template_of classes.now (option_copied raw.entry)) }
{
    match raw {
        None => Ok(Template::Any),
        Some(raw) => Ok(Template::Like(fill_entry(alloc, classes, raw)?)),
    }
}

/// The template, with null for each field that isn't given, or why it is refused
/// (`EntryError::Fault`, as `template_fault`). `NoMemory` comes only where it isn't refused.
pub fn check_template(
    alloc: Global,
    classes: &Classes,
    raw: Option<&Raw>,
) -> Result<Template, EntryError>
    ensures template { IfOk result
        (λ template. template ≡ template_of classes.now (option_copied raw.entry)) }
    ensures within_limits { IfOk result (λ template. IsTrue (is_small_template template)) }
    ensures ok { OnOk result (template_fault classes.now (option_copied raw.entry) ≡ None) }
    ensures err { IfErr result
        (λ error. error
        ≡ option_map_or
        EntryError.Fault
        (template_fault classes.now (option_copied raw.entry))
        EntryError.NoMemory) }
{
    match raw {
        None => Ok(Template::Any),
        Some(raw) => Ok(Template::Like(check_entry(alloc, classes, raw)?)),
    }
}
