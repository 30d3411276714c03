//! What a stream asks is determined.
ghost use Rattle.std.specs.Prelude.{ℕ, ◌<◌, List, slice_index};
ghost use Rattle.jsp_wire.specs.declared.ask.Version.{Version};
ghost use Rattle.jsp_drive.specs.Versions.{HasReading, HasOneReading};

/// The law that a stream of bytes has one reading, though its frames may change the version of the
/// line: from either version on there are payloads, each within the limit that is in force at it,
/// and a rest that begins with no further frame, and there are no others. So how it was cut into
/// pieces does not matter, nor when a `hello` was heard.
pub fn one_reading()
    ensures some { (v : Version) (stream : List ℕ) → ((i : ℕ) → slice_index stream i < 256)
        → HasReading v stream }
    ensures only { (v : Version) (stream : List ℕ) → HasOneReading v stream }
{}
