//! A stream that comes piece by piece.
ghost use Rattle.std.specs.Prelude.{◌≡◌, ◌++◌, [], IfOk, OnOk, OnErr, IsOk, IsErr};

use crate::NoMemory;
use crate::front::{cut_front, line_codec};
use bytes::BytesMut;
use std::alloc::Global;
use std::marker::Model;
use tokio_util::codec::LengthDelimitedCodec;

/// What comes next on a stream.
#[derive(Debug, Drop)]
pub enum Cut {
    /// The payload of the next frame.
    Frame(Vec<u8>),
    /// Less than a frame is there.
    More,
    /// The next frame's length is past the limit. Nothing is cut after it.
    TooLong,
}

#[derive(Clone, Copy, Drop)]
enum Phase {
    Open,
    TooLong,
    NoMemory,
}

/// Cuts a stream that comes in pieces into its frames.
///
/// Clauses see the limit, the rest, which are the bytes of the stream that are in no frame yet, and
/// whether frames can still come. Once out of memory every `feed` and `next` is [`NoMemory`], and
/// what the unframer holds is left open.
#[derive(Drop)]
pub struct Unframer {
    limit: u32,
    codec: LengthDelimitedCodec,
    buffer: BytesMut,
    phase: Phase,
}

impl Model for Unframer {
    ghost use Rattle.jsp_frame.specs.Unframer.{Incoming};
    ghost use Rattle.jsp_frame.specs.Codec.{CutsWhileOpen};

    ghost Value = { Incoming };

    ghost view = { λ u. record { limit = u.limit; rest = u.buffer.items; phase = u.phase } };

    ghost invariant = { λ u. CutsWhileOpen u.phase u.codec u.limit };
}

impl Unframer {
    ghost use Rattle.jsp_frame.specs.Stream.{HasNoFrame};
    ghost use Rattle.jsp_frame.specs.Unframer.{start, with_limit, with_rest, IsOpen, IsPastLimit, IsOutOfMemory, CutsNext};

    /// Before the first byte of a stream whose payloads have at most `limit` bytes. It takes no
    /// memory.
    pub fn new(alloc: Global, limit: u32) -> Unframer
        ensures { result ≡ start limit }
    {
        Unframer {
            limit,
            codec: line_codec(limit),
            buffer: BytesMut::new(alloc),
            phase: Phase::Open,
        }
    }

    /// Appends a piece of any length to the rest. After `TooLong` the piece is dropped, and no
    /// memory is taken.
    pub fn feed(&mut self, piece: &[u8]) -> Result<(), NoMemory>
        ensures appended { IsOpen self.old
            → OnOk result (self.new ≡ with_rest self.old (self.old.rest ++ piece.now)) }
        ensures past_limit { IsPastLimit self.old → IsOk result × (self.new ≡ self.old) }
        ensures out_of_memory { IsOutOfMemory self.old → IsErr result }
        ensures err { OnErr result (IsOutOfMemory self.new) }
    {
        match self.phase {
            Phase::NoMemory => Err(NoMemory),
            Phase::TooLong => Ok(()),
            Phase::Open => {
                let appended = self.buffer.extend_from_slice(piece);
                if appended.is_err() {
                    self.phase = Phase::NoMemory;
                }
                appended
            }
        }
    }

    /// Cuts the next frame off the rest, or says why there is none. A payload of exactly the limit
    /// is a frame; a length past it is `TooLong` as soon as its fourth byte is there, and from then
    /// on. Memory is taken only for a frame.
    pub fn next(&mut self) -> Result<Cut, NoMemory>
        ensures ok { IfOk result (λ cut. CutsNext self.old cut self.new) }
        ensures no_frame { IsOpen self.old → HasNoFrame self.old.limit self.old.rest → IsOk result }
        ensures past_limit { IsPastLimit self.old → IsOk result }
        ensures out_of_memory { IsOutOfMemory self.old → IsErr result }
        ensures err { OnErr result (IsOutOfMemory self.new) }
    {
        match self.phase {
            Phase::NoMemory => return Err(NoMemory),
            Phase::TooLong => return Ok(Cut::TooLong),
            Phase::Open => {}
        }
        let cut = cut_front(&mut self.buffer, &mut self.codec, self.limit);
        match &cut {
            Ok(Cut::TooLong) => self.phase = Phase::TooLong,
            Ok(_) => {}
            Err(_) => self.phase = Phase::NoMemory,
        }
        cut
    }

    /// Sets the limit of the frames that are not yet cut, which may also be a lower one. The rest
    /// stays, and so does what `TooLong` or `NoMemory` ended.
    pub fn widen(&mut self, limit: u32)
        ensures { self.new ≡ with_limit self.old limit }
    {
        self.codec.set_max_frame_length(limit as usize);
        self.limit = limit;
    }
}
