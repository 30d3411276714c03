//! Requests in the protocol's JSON, without their id.
use crate::fault::LineFault;
use crate::form::form_of;
use crate::request::Request;
use serde_json::{Map, Value as Json};
use std::alloc::Global;

/// The request of a line of JSON. Which members it has is checked, and not what they are: that the
/// server says.
pub(crate) fn read_json(alloc: Global, line: &str) -> Result<Request, LineFault> {
    let Json::Object(members) = Json::from_str(alloc, line)? else {
        return Err(LineFault::NoOperation);
    };
    if members.contains_key("id") {
        return Err(LineFault::HasId);
    }
    let op = match members.get("op") {
        Some(Json::String(op)) => op.clone()?,
        _ => return Err(LineFault::NoOperation),
    };
    let Some(form) = form_of(op.as_str()) else {
        return Err(LineFault::UnknownOperation(op));
    };
    if form.op != op.as_str() {
        return Err(LineFault::UnknownOperation(op));
    }
    let mut request = Request::new(alloc, form, false);
    set_all(alloc, &mut request, members)?;
    request.check()?;
    Ok(request)
}

/// Gives a request the members of its JSON.
fn set_all(
    alloc: Global,
    request: &mut Request,
    members: Map<String, Json>,
) -> Result<(), LineFault> {
    for (name, value) in members {
        if name.as_str() == "op" {
            continue;
        }
        let form = request.form();
        match form.member(name.as_str()) {
            Some(member) => request.set(alloc, member, value)?,
            None => {
                return Err(LineFault::TooMuch {
                    op: form.name,
                    word: name,
                });
            }
        }
    }
    Ok(())
}
