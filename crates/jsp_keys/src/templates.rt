//! The keys under which a template is found by the entries that it may match: that it asks for
//! nothing at all, its class where it asks for no value, the value where it asks for one, and else
//! each of its values.
ghost use Rattle.std.specs.Prelude.{◌≡◌, ◌<◌, ℕ, List, length, slice_index, not, ◌||◌, option_copied, [], bytes_eq};
ghost use Rattle.std.specs.List.{list_any, slice_get};
ghost use Rattle.jsp_types.specs.Matching.{is_null as has_null};
ghost use Rattle.jsp_keys.specs.Keys.{any_key, several_key, count_key, mix as mixed};
ghost use Rattle.jsp_keys.specs.Templates.{values_behind, values_asked, like_keys, template_values, key_count, template_keys, keys_of_all};

use crate::keys::{key_of_class, key_of_field, key_of_number};
use crate::mixing::mix;
use jsp_types::{Template, Text, Value};

/// Under how many of its values a template stands at most.
pub const MOST_VALUES: usize = 4;

/// How many keys these templates have together.
pub fn count_keys_of_all(templates: &[Template]) -> usize
    ensures { (seed : ℕ) (space : ℕ) → result ≡ length (keys_of_all seed space templates.now) }
{
    let mut count = 0;
    'templates: for place in 0..templates.len() {
        count += count_template_keys(&templates[place]);
    }
    count
}

/// The key at a place among those of these templates at a space, and 0 past the last.
pub fn key_of_all(seed: u64, space: u64, templates: &[Template], place: usize) -> u64
    ensures { result ≡ slice_index (keys_of_all seed space templates.now) place }
{
    let mut left = place;
    'templates: for at in 0..templates.len() {
        let values = count_template_values(&templates[at]);
        let count = count_keys(values);
        if left < count {
            return key_by_values(seed, space, &templates[at], values, left);
        }
        left -= count;
    }
    0
}

/// How many keys a template has, of which the least is 1 and the most one more than `MOST_VALUES`.
pub fn count_template_keys(template: &Template) -> usize
    ensures count { (seed : ℕ) (space : ℕ) → result ≡ length (template_keys seed space template.now) }
    ensures few { result < 6 }
{
    count_keys(count_template_values(template))
}

/// The key at a place among those of a template at a space, and 0 past the last.
pub fn template_key(seed: u64, space: u64, template: &Template, place: usize) -> u64
    ensures { result ≡ slice_index (template_keys seed space template.now) place }
{
    key_by_values(
        seed,
        space,
        template,
        count_template_values(template),
        place,
    )
}

/// How many keys stand for so many values.
fn count_keys(values: usize) -> usize
    requires { values < 5 }
    ensures { result ≡ key_count values }
{
    if values < 2 { 1 } else { values + 1 }
}

/// The key at a place, of a template that stands under so many values.
fn key_by_values(seed: u64, space: u64, template: &Template, values: usize, place: usize) -> u64
    requires { values ≡ length (template_values template.now) }
    ensures { result ≡ slice_index (template_keys seed space template.now) place }
{
    match template {
        Template::Any => {
            if place == 0 {
                key_of_any(seed, space)
            } else {
                0
            }
        }
        Template::Like(like) => like_key(
            seed,
            space,
            like.class.as_str(),
            like.fields.as_slice(),
            values,
            place,
        ),
    }
}

fn like_key(
    seed: u64,
    space: u64,
    class: &str,
    fields: &[(Text, Value)],
    values: usize,
    place: usize,
) -> u64
    requires { values ≡ length (values_asked fields.now) }
    ensures { result ≡ slice_index (like_keys seed space class.now (values_asked fields.now)) place }
{
    if values < 2 {
        return key_of_one(seed, space, class, fields, place);
    }
    if place == 0 {
        return key_of_count(seed, values as u64, space);
    }
    match value_asked(fields, place - 1) {
        None => 0,
        Some(field) => { key_of_several(seed, values as u64, space, field.0.as_str(), &field.1) }
    }
}

/// The key of a template that asks for one value at most.
fn key_of_one(seed: u64, space: u64, class: &str, fields: &[(Text, Value)], place: usize) -> u64
    requires { length (values_asked fields.now) < 2 }
    ensures { result ≡ slice_index (like_keys seed space class.now (values_asked fields.now)) place }
{
    if place > 0 {
        return 0;
    }
    match value_asked(fields, 0) {
        None => key_of_class(seed, space, class),
        Some(field) => key_of_field(seed, space, field.0.as_str(), &field.1),
    }
}

/// How many values a template stands under.
fn count_template_values(template: &Template) -> usize
    ensures count { result ≡ length (template_values template.now) }
    ensures few { result < 5 }
{
    match template {
        Template::Any => 0,
        Template::Like(like) => count_values(like.fields.as_slice()),
    }
}

fn count_values(fields: &[(Text, Value)]) -> usize
    ensures count { result ≡ length (values_asked fields.now) }
    ensures few { result < 5 }
{
    let count = count_all_values(fields);
    if count < MOST_VALUES {
        count
    } else {
        MOST_VALUES
    }
}

/// How many values it asks for, each name once.
fn count_all_values(fields: &[(Text, Value)]) -> usize
    ensures { result ≡ length (values_behind [] fields.now) }
{
    let mut count = 0;
    'fields: for at in 0..fields.len() {
        if is_value(&fields[..at], &fields[at]) {
            count += 1;
        }
    }
    count
}

/// The value at a place among those that it stands under.
fn value_asked(fields: &[(Text, Value)], place: usize) -> Option<&(Text, Value)>
    ensures { option_copied result ≡ slice_get (values_asked fields.now) place }
{
    if place >= MOST_VALUES {
        return None;
    }
    nth_value(fields, place)
}

/// The value at a place among all that it asks for, each name once.
fn nth_value(fields: &[(Text, Value)], place: usize) -> Option<&(Text, Value)>
    ensures { option_copied result ≡ slice_get (values_behind [] fields.now) place }
{
    let mut left = place;
    'fields: for at in 0..fields.len() {
        let field = &fields[at];
        if is_value(&fields[..at], field) {
            if left == 0 {
                return Some(field);
            }
            left -= 1;
        }
    }
    None
}

/// Whether it asks for the field's value, and for none of the name before it.
fn is_value(before: &[(Text, Value)], field: &(Text, Value)) -> bool
    ensures { result ≡ not (has_null field.now.1 || list_any (λ g. bytes_eq g.0 field.now.0) before.now) }
{
    !field.1.is_null() && !has_name(before, field.0.as_str())
}

fn has_name(fields: &[(Text, Value)], name: &str) -> bool
    ensures { result ≡ list_any (λ g. bytes_eq g.0 name.now) fields.now }
{
    fields.iter().any(|field| field.0.is(name))
}

pub fn key_of_any(seed: u64, space: u64) -> u64
    ensures { result ≡ any_key seed space }
{
    key_of_number(seed, 8, space)
}

pub fn key_of_count(seed: u64, count: u64, space: u64) -> u64
    ensures { result ≡ count_key seed count space }
{
    mix(key_of_number(seed, 9, space), count)
}

fn key_of_several(seed: u64, count: u64, space: u64, name: &str, value: &Value) -> u64
    ensures { result ≡ several_key seed count space name.now value.now }
{
    key_of_one_among(key_of_field(seed, space, name, value), count)
}

/// The key of one of so many values, from the key of what asks for this one alone.
pub fn key_of_one_among(value: u64, count: u64) -> u64
    ensures { result ≡ mixed value count }
{
    mix(value, count)
}
