//! The classes that were declared, as far as a client knows them.
use crate::fault::LineFault;
use crate::form::{Form, Shape};
use crate::meant::Nearest;
use crate::misfit::{Kind, Misfit};
use crate::request::Request;
use serde_json::{Map, Value as Json};
use std::alloc::{AllocError, Global};
use std::collections::BTreeMap;

/// The kinds of fields by their names.
type Fields = BTreeMap<String, Kind>;

/// What a request declares.
#[derive(Drop)]
pub struct Declaration {
    class: String,
    parent: Option<String>,
    /// The class's own fields.
    fields: Fields,
}

impl Declaration {
    /// What a request declares; none where it isn't a `declare`, or has what no server takes.
    pub fn of(alloc: Global, request: &Request) -> Result<Option<Declaration>, AllocError> {
        let Some(class) = request.get("class").and_then(Json::as_str) else {
            return Ok(None);
        };
        let Some(given) = request.get("fields").and_then(Json::as_object) else {
            return Ok(None);
        };
        let mut fields = Fields::new(alloc);
        for (name, kind) in given {
            let Some(kind) = kind.as_str().and_then(kind_of) else {
                return Ok(None);
            };
            fields.insert(name.clone()?, kind)?;
        }
        let parent = match request.get("parent").and_then(Json::as_str) {
            Some(parent) => Some(String::from_str(alloc, parent)?),
            None => None,
        };
        Ok(Some(Declaration {
            class: String::from_str(alloc, class)?,
            parent,
            fields,
        }))
    }
}

fn kind_of(name: &str) -> Option<Kind> {
    match name {
        "int" => Some(Kind::Int),
        "text" => Some(Kind::Text),
        "bool" => Some(Kind::Bool),
        _ => None,
    }
}

/// What of entries is compared with their classes.
#[derive(Clone, Copy, PartialEq, Eq)]
enum Aspect {
    Names,
    Kinds,
}

/// The classes that a client knows whole: each was declared, and so was its parent before it. All
/// else about classes is for the server to say.
#[derive(Drop)]
pub struct Classes {
    alloc: Global,
    /// All fields of a class, inherited ones too, by its name.
    known: BTreeMap<String, Fields>,
}

impl Classes {
    /// Before any is declared.
    pub fn new(alloc: Global) -> Classes {
        Classes {
            alloc,
            known: BTreeMap::new(alloc),
        }
    }

    /// A server took a declaration.
    pub fn add(&mut self, declaration: Declaration) -> Result<(), AllocError> {
        let Declaration {
            class,
            parent,
            mut fields,
        } = declaration;
        if let Some(parent) = parent {
            let Some(inherited) = self.known.get(parent.as_str()) else {
                return Ok(());
            };
            for (name, kind) in inherited {
                fields.insert(name.clone()?, *kind)?;
            }
        }
        self.known.insert(class, fields)?;
        Ok(())
    }

    /// Why a server refuses a request's entries or templates, where the classes that are known say
    /// so. A fault where the request is in a short form, and has a field that its class hasn't: it
    /// isn't to be sent.
    pub fn check(&self, request: &Request) -> Result<Option<Misfit>, LineFault> {
        match self.misfit(request, Aspect::Names)? {
            Some(misfit) if request.is_short() => Err(LineFault::Unfit(misfit)),
            // In JSON a name isn't a slip of the other words.
            Some(Misfit::Misspelt { class, field, .. }) => {
                Ok(Some(Misfit::NoField { class, field }))
            }
            Some(misfit) => Ok(Some(misfit)),
            None => Ok(self.misfit(request, Aspect::Kinds)?),
        }
    }

    /// The first of a request's entries and templates that doesn't fit in this.
    fn misfit(&self, request: &Request, aspect: Aspect) -> Result<Option<Misfit>, AllocError> {
        let form = request.form();
        for member in form.members {
            let found = match (member.shape, request.get(member.name)) {
                (Shape::Entry | Shape::Template, Some(entry)) => {
                    self.misfit_of(form, entry, aspect)?
                }
                (Shape::Entries | Shape::Templates, Some(Json::Array(entries))) => {
                    self.misfit_among(form, entries.as_slice(), aspect)?
                }
                _ => None,
            };
            if found.is_some() {
                return Ok(found);
            }
        }
        Ok(None)
    }

    fn misfit_among(
        &self,
        form: &'static Form,
        entries: &[Json],
        aspect: Aspect,
    ) -> Result<Option<Misfit>, AllocError> {
        for entry in entries {
            let found = self.misfit_of(form, entry, aspect)?;
            if found.is_some() {
                return Ok(found);
            }
        }
        Ok(None)
    }

    /// The first field of an entry or a template that doesn't fit its class in this.
    fn misfit_of(
        &self,
        form: &'static Form,
        entry: &Json,
        aspect: Aspect,
    ) -> Result<Option<Misfit>, AllocError> {
        let Some(class) = entry.get("class").and_then(Json::as_str) else {
            return Ok(None);
        };
        let Some(fields) = self.known.get(class) else {
            return Ok(None);
        };
        let Some(given) = entry.get("fields").and_then(Json::as_object) else {
            return Ok(None);
        };
        match aspect {
            Aspect::Names => unknown_field(self.alloc, form, class, fields, given),
            Aspect::Kinds => other_kind(self.alloc, class, fields, given),
        }
    }
}

/// The first field that isn't its class's.
fn unknown_field(
    alloc: Global,
    form: &'static Form,
    class: &str,
    fields: &Fields,
    given: &Map<String, Json>,
) -> Result<Option<Misfit>, AllocError> {
    for (name, _) in given {
        if fields.contains_key(name.as_str()) {
            continue;
        }
        let class = String::from_str(alloc, class)?;
        let field = name.clone()?;
        return Ok(Some(match meant_by(alloc, form, fields, name.as_str())? {
            Some(meant) => Misfit::Misspelt {
                class,
                field,
                meant,
            },
            None => Misfit::NoField { class, field },
        }));
    }
    Ok(None)
}

/// What a field that isn't there was to be: a member that the form names, or a field of the class.
fn meant_by(
    alloc: Global,
    form: &'static Form,
    fields: &Fields,
    word: &str,
) -> Result<Option<String>, AllocError> {
    let mut nearest = Nearest::new(word);
    for member in form.members {
        if !member.is_named(member.name) {
            continue;
        }
        nearest.look_at(alloc, member.name)?;
        if let Some(also) = member.also {
            nearest.look_at(alloc, also)?;
        }
    }
    for (name, _) in fields {
        nearest.look_at(alloc, name.as_str())?;
    }
    match nearest.name() {
        Some(name) => Ok(Some(String::from_str(alloc, name)?)),
        None => Ok(None),
    }
}

/// The first field whose value is of another kind than its class says.
fn other_kind(
    alloc: Global,
    class: &str,
    fields: &Fields,
    given: &Map<String, Json>,
) -> Result<Option<Misfit>, AllocError> {
    for (name, value) in given {
        match fields.get(name.as_str()) {
            Some(kind) if !is_of(value, *kind) => {
                return Ok(Some(Misfit::OtherKind {
                    class: String::from_str(alloc, class)?,
                    field: name.clone()?,
                    kind: *kind,
                }));
            }
            _ => {}
        }
    }
    Ok(None)
}

/// Whether a field of this kind may have a value. Null it may always have.
fn is_of(value: &Json, kind: Kind) -> bool {
    match value {
        Json::Null => true,
        Json::Number(_) => kind == Kind::Int,
        Json::String(_) => kind == Kind::Text,
        Json::Bool(_) => kind == Kind::Bool,
        Json::Array(_) | Json::Object(_) => false,
    }
}
