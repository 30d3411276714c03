//! A request, without its id.
ghost use Rattle.std.specs.Prelude.{◌≤◌, IfOk, length};

use crate::fault::LineFault;
use crate::form::{Form, Member, Place, Purpose, Usual};
use serde_json::{Map, Value as Json, put};
use std::alloc::Global;

/// The most bytes of a line, and of a payload: the limit of the protocol's version 2.
pub const MOST_BYTES: usize = 1_048_576;

/// An operation, and the members of its JSON beside `id` and `op`.
#[derive(Drop)]
pub struct Request {
    form: &'static Form,
    members: Map<String, Json>,
    is_short: bool,
}

impl Request {
    /// A request that has no member yet. It is written in a short form, or in JSON.
    pub(crate) fn new(alloc: Global, form: &'static Form, is_short: bool) -> Request {
        Request {
            form,
            members: Map::new(alloc),
            is_short,
        }
    }

    pub(crate) fn form(&self) -> &'static Form {
        self.form
    }

    /// What it is for.
    pub fn purpose(&self) -> Purpose {
        self.form.purpose
    }

    /// Whether it was written in a short form.
    pub(crate) fn is_short(&self) -> bool {
        self.is_short
    }

    /// The value of a member.
    pub(crate) fn get(&self, name: &str) -> Option<&Json> {
        self.members.get(name)
    }

    /// Gives it a member, unless it has that.
    pub(crate) fn set(
        &mut self,
        alloc: Global,
        member: &'static Member,
        value: Json,
    ) -> Result<(), LineFault> {
        if self.members.contains_key(member.name) {
            return Err(LineFault::Twice(String::from_str(alloc, member.name)?));
        }
        put(&mut self.members, alloc, member.name, value)?;
        Ok(())
    }

    /// Gives it what short forms have in the place of members that they don't name.
    pub(crate) fn set_usual(&mut self, alloc: Global) -> Result<(), LineFault> {
        for member in self.form.members {
            if self.members.contains_key(member.name) {
                continue;
            }
            match member.place {
                Place::Named(Usual::Number(number)) => {
                    put(&mut self.members, alloc, member.name, Json::from(number))?;
                }
                Place::Named(Usual::EmptyText) => {
                    let text = Json::try_from_str(alloc, "")?;
                    put(&mut self.members, alloc, member.name, text)?;
                }
                Place::Named(Usual::Nothing) | Place::Word | Place::Rest => {}
            }
        }
        Ok(())
    }

    /// Checks that no member is missing.
    pub(crate) fn check(&self) -> Result<(), LineFault> {
        let missing = self.form.members.iter().find(|member| !member.is_optional()
            && !self.members.contains_key(member.name));
        match missing {
            Some(member) => Err(LineFault::Missing {
                op: self.form.name,
                member: member.name,
            }),
            None => Ok(()),
        }
    }

    /// Its payload under this id.
    pub fn payload(self, alloc: Global, id: u64) -> Result<Vec<u8>, LineFault>
        ensures { IfOk result (λ payload. length payload.items ≤ 1048576) }
    {
        let Request {
            form,
            mut members,
            ..
        } = self;
        put(&mut members, alloc, "id", Json::from(id))?;
        let op = Json::try_from_str(alloc, form.op)?;
        put(&mut members, alloc, "op", op)?;
        let payload = Json::Object(members).to_vec(alloc)?;
        if payload.len() > MOST_BYTES {
            return Err(LineFault::TooLong);
        }
        Ok(payload)
    }
}
