//! From a payload to what its session asks.
ghost use Rattle.std.specs.Prelude.{◌≡◌, ℕ, IfOk, IsTrue};
ghost use Rattle.jsp_model.specs.declared.state.State.{State};
ghost use Rattle.jsp_model.specs.Lookup.{is_open};
ghost use Rattle.jsp_model.specs.House.{is_input, step_of, accepts};
ghost use Rattle.jsp_drive.specs.Versions.{version_asked, version_after};
ghost use Rattle.jsp_drive.specs.Line.{IsHeardAs, input_of, is_line_input, version_by};

use jsp_model::Input;
use jsp_reply::Refusal;
use jsp_types::NoMemory;
use jsp_wire::{Ask, Asked, Scratch, Version, WireFault, read_ask_with};
use std::alloc::Global;

/// What a session asks, without the session's number.
#[derive(Drop)]
pub enum LineInput {
    /// A request.
    Ask(Asked),
    /// Bytes that are no request: their id, where they have one, and why they are refused.
    Fault(Option<u64>, Refusal),
}

impl LineInput {
    /// The input of this session. Of a `Fault` the caller's condition is that of [`Input::Fault`];
    /// each input that a line gives keeps it.
    pub fn of_session(self, session: u64) -> Input
        ensures value { result ≡ input_of session self }
        ensures input { is_input result ≡ is_line_input self }
        // So it is passed over where the session isn't open.
        ensures accepted { (st : State) → accepts st result ≡ is_open st session }
    {
        match self {
            LineInput::Ask(asked) => Input::Ask { session, asked },
            LineInput::Fault(id, refusal) => Input::Fault {
                session,
                id,
                refusal,
            },
        }
    }

    /// The version of the line behind it, where it was `version`.
    pub(crate) fn version_behind(&self, version: Version) -> Version
        ensures { result ≡ version_by version self.now }
    {
        match self {
            LineInput::Ask(asked) => version_asked(asked.ask(), version),
            LineInput::Fault(_, _) => version,
        }
    }
}

/// The version that a `hello` names; else the one that there is.
fn version_asked(ask: &Ask, version: Version) -> Version
    ensures { result ≡ version_asked version ask.now }
{
    match ask {
        Ask::Hello { version } => *version,
        _ => version,
    }
}

/// What a session asks by a payload on a line of this version: its request, or its one fault.
pub(crate) fn hear(
    alloc: Global,
    version: Version,
    payload: &[u8],
    scratch: &mut Scratch,
) -> Result<LineInput, NoMemory>
    ensures heard { IfOk result (IsHeardAs version payload.now) }
    ensures behind { IfOk result (λ x. version_by version x ≡ version_after version payload.now) }
    ensures input { IfOk result (λ x. IsTrue (is_line_input x)) }
{
    match read_ask_with(alloc, version, payload, scratch) {
        Ok(asked) => Ok(LineInput::Ask(asked)),
        Err(WireFault::BadJson) => Ok(LineInput::Fault(None, Refusal::BadJson)),
        Err(WireFault::BadRequest { id }) => Ok(LineInput::Fault(id, Refusal::BadRequest)),
        Err(WireFault::NoMemory) => Err(NoMemory),
    }
}
