//! What a session asks by its bytes, piece by piece.
ghost use Rattle.std.specs.Prelude.{◌≡◌, ◌++◌, ℕ, [], IfOk, OnOk, OnErr, IsOk, IsErr, IsTrue};
ghost use Rattle.jsp_frame.specs.Stream.{HasNoFrame};
ghost use Rattle.jsp_drive.specs.Versions.{longest};
ghost use Rattle.jsp_drive.specs.Line.{start, with_rest, IsOpen, IsClosed, IsOutOfMemory, IsCutting, HearsNext, IsNextOf, is_next};
ghost use Rattle.jsp_drive.specs.Giving.{Gave, FeedsStream, FollowsStream};

use crate::hear::{LineInput, hear};
use jsp_frame::{Cut, Unframer};
use jsp_reply::Refusal;
use jsp_types::NoMemory;
use jsp_wire::{Scratch, Version};
use std::alloc::Global;
use std::marker::Model;

/// The longest payload of a request, in bytes (this profile's own).
fn limit(version: Version) -> u32
    ensures { result ≡ longest version }
{
    match version {
        Version::One => 65_536,
        Version::Two => 1_048_576,
    }
}

/// What comes next on a line.
#[derive(Drop)]
pub enum Next {
    /// What the session asks next.
    Input(LineInput),
    /// Less than a frame is there.
    More,
    /// A frame was too long, and its fault was given. Nothing comes after it.
    Closed,
}

#[derive(Clone, Copy, Drop)]
enum Phase {
    Open,
    Closed,
    NoMemory,
}

/// The bytes of one session that come in pieces, as what it asks by them.
///
/// Clauses see the bytes that are in no frame yet, the version of the line behind those that are,
/// and whether inputs can still come. Each frame is one input, in order, read in the version that
/// the line has at it. It begins in version 1, and a `hello` changes it from the next frame on. A
/// length past the limit of the version, 65,536 bytes in version 1 and 1,048,576 in version 2, is
/// one fault, the last input. Once out of memory every `feed` and `next` is [`NoMemory`], and what
/// is held then is left open.
#[derive(Drop)]
pub struct Line {
    alloc: Global,
    frames: Unframer,
    version: Version,
    phase: Phase,
}

impl Model for Line {
    ghost use Rattle.jsp_drive.specs.Line.{Unheard, CutsFor};

    ghost Value = { Unheard };

    ghost view = { λ l. record { rest = l.frames.rest; version = l.version; phase = l.phase } };

    ghost invariant = { λ l. CutsFor l.phase l.version l.frames };
}

impl Line {
    /// Before the first byte of a session. It takes no memory.
    pub fn new(alloc: Global) -> Line
        ensures value { result ≡ start }
        ensures stream { (s : ℕ) → Gave s [] [] result }
    {
        Line {
            alloc,
            frames: Unframer::new(alloc, limit(Version::One)),
            version: Version::One,
            phase: Phase::Open,
        }
    }

    /// Appends a piece of any length to the rest. Once the line is closed the piece is dropped, and
    /// no memory is taken.
    pub fn feed(&mut self, piece: &[u8]) -> Result<(), NoMemory>
        ensures appended { IsOpen self.old
            → OnOk result (self.new ≡ with_rest self.old (self.old.rest ++ piece.now)) }
        ensures closed { IsClosed self.old → IsOk result × (self.new ≡ self.old) }
        // By the stream that the line was fed: the piece is its end.
        ensures stream { OnOk result (FeedsStream self.old piece.now self.new) }
        ensures out_of_memory { IsOutOfMemory self.old → IsErr result }
        ensures err { OnErr result (IsOutOfMemory self.new) }
    {
        match self.phase {
            Phase::NoMemory => return Err(NoMemory),
            Phase::Closed => return Ok(()),
            Phase::Open => {}
        }
        let fed = self.frames.feed(piece);
        if fed.is_err() {
            self.phase = Phase::NoMemory;
        }
        fed
    }

    /// What the session asks by the next frame, which is cut off the rest, or why there is nothing.
    /// A length past the limit is a fault as soon as its fourth byte is there, and the line is
    /// closed from then on. A `hello` changes the version and the limit of what follows it, also of
    /// bytes that are there already. Memory is taken only for a frame.
    pub fn next(&mut self) -> Result<Next, NoMemory>
        ensures ok { IfOk result (λ next. IsNextOf self.old next self.new) }
        // By the stream: this is what the session asks next, and all was given where it is no
        // input.
        ensures stream { IfOk result (λ next. FollowsStream self.old next self.new) }
        // What is given may be acted.
        ensures input { IfOk result (λ next. IsTrue (is_next next)) }
        ensures no_frame { IsOpen self.old
            → HasNoFrame (longest self.old.version) self.old.rest → IsOk result }
        ensures closed { IsClosed self.old → IsOk result }
        ensures out_of_memory { IsOutOfMemory self.old → IsErr result }
        ensures err { OnErr result (IsOutOfMemory self.new) }
    {
        let mut scratch = Scratch::new(self.alloc);
        self.next_with(&mut scratch)
    }

    /// The same, in a scratch space that is kept from frame to frame.
    pub fn next_with(&mut self, scratch: &mut Scratch) -> Result<Next, NoMemory>
        ensures ok { IfOk result (λ next. IsNextOf self.old next self.new) }
        // By the stream: this is what the session asks next, and all was given where it is no
        // input.
        ensures stream { IfOk result (λ next. FollowsStream self.old next self.new) }
        // What is given may be acted.
        ensures input { IfOk result (λ next. IsTrue (is_next next)) }
        ensures no_frame { IsOpen self.old
            → HasNoFrame (longest self.old.version) self.old.rest → IsOk result }
        ensures closed { IsClosed self.old → IsOk result }
        ensures out_of_memory { IsOutOfMemory self.old → IsErr result }
        ensures err { OnErr result (IsOutOfMemory self.new) }
    {
        match self.phase {
            Phase::NoMemory => return Err(NoMemory),
            Phase::Closed => return Ok(Next::Closed),
            Phase::Open => {}
        }
        match hear_next(self.alloc, self.version, &mut self.frames, scratch) {
            Ok(Next::Input(input)) => {
                let version = input.version_behind(self.version);
                self.frames.widen(limit(version));
                self.version = version;
                Ok(Next::Input(input))
            }
            Ok(Next::More) => Ok(Next::More),
            Ok(Next::Closed) => {
                self.phase = Phase::Closed;
                Ok(Next::Input(LineInput::Fault(None, Refusal::TooLong)))
            }
            Err(NoMemory) => {
                self.phase = Phase::NoMemory;
                Err(NoMemory)
            }
        }
    }
}

/// What is asked by the next frame, which is cut off. `Closed` says that its length is past the
/// limit.
fn hear_next(
    alloc: Global,
    version: Version,
    frames: &mut Unframer,
    scratch: &mut Scratch,
) -> Result<Next, NoMemory>
    requires { IsCutting version frames.old }
    ensures ok { IfOk result (λ next. HearsNext version frames.old next frames.new) }
    ensures input { IfOk result (λ next. IsTrue (is_next next)) }
    ensures no_frame { HasNoFrame (longest version) frames.old.rest → IsOk result }
{
    match frames.next()? {
        Cut::Frame(payload) => Ok(Next::Input(hear(alloc, version, payload.as_slice(), scratch)?)),
        Cut::More => Ok(Next::More),
        Cut::TooLong => Ok(Next::Closed),
    }
}
