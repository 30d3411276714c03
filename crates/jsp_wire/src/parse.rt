//! From a payload to JSON, in one pass over its tokens.
ghost use Rattle.std.specs.Prelude.{◌≡◌, ◌<◌, length, None, Some, Err, IfOk, OnOk};
ghost use Rattle.jsp_wire.specs.declared.fault.Flaw.TheVariants.{Refused};
ghost use Rattle.json.specs.Json.{value, items, members};
ghost use Rattle.serde_json.specs.Data.{no_members};
ghost use Rattle.serde_json.specs.Read.{of_json, of_items, of_members, converted, read as read_text};
ghost use Rattle.jsp_wire.specs.Parse.{Parses};
ghost use Rattle.jsp_wire.specs.Reading.{json_of};
ghost use Rattle.jsp_wire.specs.Tree.{view, items_view, members_view};

use crate::fault::Flaw;
use crate::members::put;
use crate::number::number;
use crate::tree::{Members, Tree};
use json::{Reader, Scratch, Token};
use std::alloc::Global;

/// How deep arrays and objects may nest.
const MOST_DEEP: usize = 127;

/// The JSON that a payload is.
pub(crate) fn parse<'a>(
    alloc: Global,
    payload: &'a [u8],
    scratch: &'a mut Scratch,
) -> Result<Tree<'a>, Flaw>
    ensures { Parses result (json_of payload.now) }
{
    match simdutf8::basic::from_utf8(payload) {
        Ok(text) => whole(alloc, text, scratch),
        Err(_) => Err(Flaw::Refused),
    }
}

fn whole<'a>(alloc: Global, text: &'a str, scratch: &'a mut Scratch) -> Result<Tree<'a>, Flaw>
    ensures { Parses result (read_text text.now) }
{
    let mut reader = Reader::new(text, scratch)?;
    let tree = value(alloc, &mut reader, MOST_DEEP)?;
    if reader.next().is_some() {
        return Err(Flaw::Refused);
    }
    Ok(tree)
}

/// The next value, in which arrays and objects nest at most so deep.
#[inline(always)]
#[cycle(read)]
fn value<'a>(alloc: Global, reader: &mut Reader<'a>, depth: usize) -> Result<Tree<'a>, Flaw>
    ensures ok { IfOk result
        (λ tree. converted of_json (value depth reader.old) ≡ Some (view tree, reader.new)) }
    ensures refused { result ≡ Err Refused → converted of_json (value depth reader.old) ≡ None }
    ensures shorter { OnOk result (length reader.new < length reader.old) }
{
    let token = reader.next().ok_or(Flaw::Refused)?;
    match token {
        Token::Null => Ok(Tree::Null),
        Token::Bool(b) => Ok(Tree::Bool(b)),
        Token::Number(text) => match number(text) {
            Some(number) => Ok(Tree::Number(number)),
            None => Err(Flaw::Refused),
        },
        Token::String(text) => Ok(Tree::Text(text)),
        Token::BeginArray => {
            if depth == 0 {
                return Err(Flaw::Refused);
            }
            Ok(Tree::List(list(alloc, reader, depth - 1)?))
        }
        Token::BeginObject => {
            if depth == 0 {
                return Err(Flaw::Refused);
            }
            Ok(Tree::Object(object(alloc, reader, depth - 1)?))
        }
        Token::EndArray | Token::EndObject | Token::Key(_) | Token::Bad => Err(Flaw::Refused),
    }
}

/// The items of an array up to its end.
#[inline(never)]
#[cycle(read)]
fn list<'a>(alloc: Global, reader: &mut Reader<'a>, depth: usize) -> Result<Vec<Tree<'a>>, Flaw>
    ensures ok { IfOk result
        (λ found. converted of_items (items (value depth) (length reader.old) reader.old)
        ≡ Some (items_view found.items, reader.new)) }
    ensures refused { result ≡ Err Refused
        → converted of_items (items (value depth) (length reader.old) reader.old) ≡ None }
    ensures shorter { OnOk result (length reader.new < length reader.old) }
{
    let mut found = Vec::new(alloc);
    'items: while !reader.take_end_array() {
        let item = value(alloc, reader, depth)?;
        found.push(item)?;
    }
    Ok(found)
}

/// The members of an object up to its end.
#[inline(never)]
#[cycle(read)]
fn object<'a>(alloc: Global, reader: &mut Reader<'a>, depth: usize) -> Result<Members<'a>, Flaw>
    ensures ok { IfOk result
        (λ found. converted (λ ms. of_members ms no_members)
        (members (value depth) (length reader.old) reader.old)
        ≡ Some (members_view found.items, reader.new)) }
    ensures refused { result ≡ Err Refused
        → converted (λ ms. of_members ms no_members)
        (members (value depth) (length reader.old) reader.old) ≡ None }
    ensures shorter { OnOk result (length reader.new < length reader.old) }
{
    let mut found: Members<'a> = Vec::new(alloc);
    'members: loop {
        let Ok(key) = reader.next_key() else {
            return Err(Flaw::Refused);
        };
        let Some(key) = key else {
            return Ok(found);
        };
        let member = value(alloc, reader, depth)?;
        put(&mut found, key, member)?;
    }
}
