//! An answer or an event that keeps its limits in its type.
ghost use Rattle.std.specs.Prelude.{◌≡◌, IsTrue};
ghost use Rattle.jsp_reply.specs.Limits.{is_within_limits};

use crate::Reply;
use std::marker::Model;

/// An answer or an event within its limits. Contracts see it as the answer or event.
///
/// Its text is shorter than 65,536 bytes, or than 1,048,576 where it shows several entries.
#[derive(Clone, Drop)]
pub struct Said {
    reply: Reply,
}

impl Model for Said {
    ghost use Rattle.std.specs.Prelude.{IsTrue};
    ghost use Rattle.jsp_reply.specs.declared.reply.Reply.{Reply};
    ghost use Rattle.jsp_reply.specs.Limits.{is_within_limits};

    ghost Value = { Reply };

    ghost view = { λ a. a.reply };

    ghost invariant = { λ a. IsTrue (is_within_limits a.reply) };
}

impl Said {
    /// The answer or event, which keeps its limits.
    pub fn new(reply: Reply) -> Said
        requires { IsTrue (is_within_limits reply) }
        ensures { result ≡ reply }
    {
        Said { reply }
    }

    /// The answer or event.
    pub fn reply(&self) -> &Reply
        ensures said { result.now ≡ self.now }
        ensures limits { IsTrue (is_within_limits self.now) }
    {
        &self.reply
    }
}
