//! When a template matches an entry.
ghost use Rattle.std.specs.Prelude.{◌≡◌, find, bytes_eq, option_copied, option_map, ◌||◌};
ghost use Rattle.std.specs.List.{list_all};
ghost use Rattle.jsp_types.specs.Matching.{matches, is_null, value_eq, value_at};

use crate::{Classes, Entry, Template, Text, Value};

/// The value that is given for the field, if one is.
pub(crate) fn find_value<'a>(fields: &'a [(Text, Value)], name: &str) -> Option<&'a Value>
    ensures { option_copied result
        ≡ option_map (λ f. f.1) (find (λ f. bytes_eq f.0 name.now) fields.now) }
{
    match fields.iter().find(|field| field.0.is(name)) {
        None => None,
        Some(field) => Some(&field.1),
    }
}

/// Whether the field has the value. It is null where none is given.
fn has_value(fields: &[(Text, Value)], name: &str, value: &Value) -> bool
    ensures { result ≡ value_eq value.now (value_at fields.now name.now) }
{
    match find_value(fields, name) {
        None => value.is_null(),
        Some(found) => value.is(found),
    }
}

/// Whether each value of the template that isn't null is the entry's.
fn has_values(fields: &[(Text, Value)], template: &[(Text, Value)]) -> bool
    ensures { result
        ≡ list_all (λ f. is_null f.1 || value_eq f.1 (value_at fields.now f.0)) template.now }
{
    template.iter().all(|field| field.1.is_null() || has_value(fields, field.0.as_str(), &field.1))
}

/// Whether the template matches the entry: it is the null template, or the entry's class is the
/// template's or one of its subclasses and the entry has each of the template's values that isn't
/// null (JavaSpaces). Takes no memory.
pub fn matches(classes: &Classes, template: &Template, entry: &Entry) -> bool
    ensures { result ≡ matches classes.now template.now entry.now }
{
    match template {
        Template::Any => true,
        Template::Like(like) => {
            // Values differ more often than classes, and are compared sooner.
            has_values(entry.fields.as_slice(), like.fields.as_slice())
                && classes.is_sub(entry.class.as_str(), like.class.as_str())
        }
    }
}
