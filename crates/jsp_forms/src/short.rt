//! Requests in their short forms.
use crate::fault::LineFault;
use crate::form::{Form, Member, Place, Shape};
use crate::request::Request;
use crate::word::{number, text, value};
use serde_json::{Map, Value as Json, put};
use std::alloc::Global;

/// The request of an operation's words.
pub(crate) fn read_short(
    alloc: Global,
    form: &'static Form,
    words: &[String],
) -> Result<Request, LineFault> {
    let mut request = Request::new(alloc, form, true);
    let mut rest = Vec::new(alloc);
    let mut place = 0usize;
    for word in words {
        let word = word.as_str();
        if let Some((member, given)) = named(form, word) {
            request.set(alloc, member, plain(alloc, member.shape, given)?)?;
        } else if let Some(member) = form.word(place) {
            request.set(alloc, member, plain(alloc, member.shape, word)?)?;
            place = place.saturating_add(1);
        } else {
            rest.push(word)?;
        }
    }
    set_rest(alloc, &mut request, rest.as_slice())?;
    request.set_usual(alloc)?;
    request.check()?;
    Ok(request)
}

/// The member that a word names, and the value that it gives.
fn named<'w>(form: &'static Form, word: &'w str) -> Option<(&'static Member, &'w str)> {
    let (name, given) = word.split_once('=')?;
    Some((form.named(name)?, given))
}

/// The value of a member that is one word.
fn plain(alloc: Global, shape: Shape, word: &str) -> Result<Json, LineFault> {
    match shape {
        Shape::Number => number(alloc, word),
        _ => text(alloc, word),
    }
}

/// Gives the request its member of many words.
fn set_rest(alloc: Global, request: &mut Request, rest: &[&str]) -> Result<(), LineFault> {
    let form = request.form();
    let place = form
        .members
        .iter()
        .find(|member| member.place == Place::Rest);
    match (place, rest) {
        (Some(member), _) => match many(alloc, member.shape, rest)? {
            Some(json) => request.set(alloc, member, json),
            None => Ok(()),
        },
        (None, []) => Ok(()),
        (None, [word, ..]) => Err(LineFault::TooMuch {
            op: form.name,
            word: String::from_str(alloc, word)?,
        }),
    }
}

/// The value of a member of many words; none where it is missing.
fn many(alloc: Global, shape: Shape, words: &[&str]) -> Result<Option<Json>, LineFault> {
    match shape {
        Shape::Kinds => Ok(Some(kinds(alloc, words)?)),
        Shape::Template => Ok(Some(template(alloc, words)?)),
        _ if words.is_empty() => Ok(None),
        Shape::Entry => Ok(Some(entry(alloc, words)?)),
        Shape::Entries => Ok(Some(list(alloc, shape, words)?)),
        Shape::Templates => Ok(Some(list(alloc, shape, words)?)),
        Shape::Pairs => Ok(Some(pairs(alloc, words)?)),
        Shape::Text | Shape::Number | Shape::Numbers => Ok(Some(numbers(alloc, words)?)),
    }
}

/// An object from a field's name to its kind.
fn kinds(alloc: Global, words: &[&str]) -> Result<Json, LineFault> {
    let mut fields = Map::new(alloc);
    for word in words {
        let Some((name, kind)) = word.split_once(':') else {
            return Err(not_part(alloc, "`field:kind`", word)?);
        };
        set_field(alloc, &mut fields, name, text(alloc, kind)?)?;
    }
    Ok(Json::Object(fields))
}

/// An entry: its class, and its fields.
fn entry(alloc: Global, words: &[&str]) -> Result<Json, LineFault> {
    let [class, given @ ..] = words else {
        return Err(not_part(alloc, "an entry", "")?);
    };
    let mut fields = Map::new(alloc);
    for word in given {
        let Some((name, given)) = word.split_once('=') else {
            return Err(not_part(alloc, "`field=value`", word)?);
        };
        set_field(alloc, &mut fields, name, value(alloc, given)?)?;
    }
    let mut entry = Map::new(alloc);
    put(&mut entry, alloc, "class", text(alloc, class)?)?;
    put(&mut entry, alloc, "fields", Json::Object(fields))?;
    Ok(Json::Object(entry))
}

/// A template, which is null where it matches all.
fn template(alloc: Global, words: &[&str]) -> Result<Json, LineFault> {
    match words {
        [] | ["*"] => Ok(Json::Null),
        _ => entry(alloc, words),
    }
}

/// Entries or templates with commas between them. None of them is left empty.
fn list(alloc: Global, shape: Shape, words: &[&str]) -> Result<Json, LineFault> {
    let mut list = Vec::new(alloc);
    for part in words.split(|word| *word == ",") {
        let json = match shape {
            Shape::Templates if !part.is_empty() => template(alloc, part)?,
            _ => entry(alloc, part)?,
        };
        list.push(json)?;
    }
    Ok(Json::Array(list))
}

/// A list of leases with the time that is asked for each.
fn pairs(alloc: Global, words: &[&str]) -> Result<Json, LineFault> {
    let mut list = Vec::new(alloc);
    for word in words {
        let Some((lease, ms)) = word.split_once(':') else {
            return Err(not_part(alloc, "`lease:ms`", word)?);
        };
        let mut pair = Vec::new(alloc);
        pair.push(number(alloc, lease)?)?;
        pair.push(number(alloc, ms)?)?;
        list.push(Json::Array(pair))?;
    }
    Ok(Json::Array(list))
}

/// A list of numbers.
fn numbers(alloc: Global, words: &[&str]) -> Result<Json, LineFault> {
    let mut list = Vec::new(alloc);
    for word in words {
        list.push(number(alloc, word)?)?;
    }
    Ok(Json::Array(list))
}

/// Gives an entry or a class a field that it hasn't.
fn set_field(
    alloc: Global,
    fields: &mut Map<String, Json>,
    name: &str,
    value: Json,
) -> Result<(), LineFault> {
    if fields.contains_key(name) {
        return Err(LineFault::Twice(String::from_str(alloc, name)?));
    }
    put(fields, alloc, name, value)?;
    Ok(())
}

fn not_part(alloc: Global, wanted: &'static str, word: &str) -> Result<LineFault, LineFault> {
    Ok(LineFault::NotPart {
        wanted,
        word: String::from_str(alloc, word)?,
    })
}
