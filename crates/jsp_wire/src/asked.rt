//! A request that keeps its limits in its type.
ghost use Rattle.std.specs.Prelude.{◌≡◌, IfOk, IsTrue};
ghost use Rattle.jsp_wire.specs.Limits.{has_fitting_parts, is_within_limits, within_limits};

use crate::limits::is_within_limits;
use crate::{Ask, Request};
use jsp_types::NoMemory;
use std::alloc::Global;
use std::marker::Model;

/// A request within its limits. Contracts see it as the request.
///
/// An id is at most 9,223,372,036,854,775,807. A handback has at most 256 bytes, a batch 1 to 64
/// leases or entries; 1 to 8 templates and 1 to 16 entries are asked for together. It stands in a
/// block of its own, so that whatever has one, as a step of a history, is small.
#[derive(Drop)]
pub struct Asked {
    request: Box<Request>,
}

impl Model for Asked {
    ghost use Rattle.std.specs.Prelude.{IsTrue};
    ghost use Rattle.jsp_wire.specs.declared.ask.Request.{Request};
    ghost use Rattle.jsp_wire.specs.Limits.{is_within_limits};

    ghost Value = { Request };

    ghost view = { λ a. a.request.value };

    ghost invariant = { λ a. IsTrue (is_within_limits a.request.value) };
}

impl Asked {
    /// The request, if it keeps its limits.
    pub fn checked(alloc: Global, request: Request) -> Result<Option<Asked>, NoMemory>
        ensures { IfOk result (λ asked. asked ≡ within_limits request) }
    {
        if !is_within_limits(&request) {
            return Ok(None);
        }
        let request = Box::new(alloc, request)?;
        Ok(Some(Asked { request }))
    }

    /// The request's id.
    pub fn id(&self) -> u64
        ensures { result ≡ self.now.id }
    {
        self.request.id
    }

    /// What it asks; its texts and lists keep their limits.
    pub fn ask(&self) -> &Ask
        ensures asked { result.now ≡ self.now.ask }
        ensures limits { IsTrue (is_within_limits self.now) }
        ensures fits { IsTrue (has_fitting_parts self.now.ask) }
    {
        &self.request.ask
    }
}
