//! The bytes of one direction of a line.
ghost use Rattle.std.specs.Prelude.{◌≡◌, ◌++◌, ℕ, List, [], false, IfSome, IfNone, OnOk};
ghost use Rattle.jsp_line.specs.declared.transcript.Transcript.TheVariants.{NoMemory as NoRoom, Whole};
ghost use Rattle.jsp_line.specs.Bytes.{IsTranscript, has_bytes};

use crate::sealed::Sealed;
use jsp_types::NoMemory;
use std::alloc::Global;

/// All bytes of one direction of a line, or why there are none.
#[derive(Drop)]
pub enum Transcript {
    Whole(Vec<u8>),
    /// They were dropped, since an era was sealed: they are compared with no history.
    Sealed(Sealed),
    /// There was no memory for them.
    NoMemory,
}

impl Transcript {
    /// Before the first byte.
    pub(crate) fn new(alloc: Global) -> Transcript
        ensures bytes { IsTranscript result [] }
        ensures room { result ≡ NoRoom → ⊥ }
    {
        Transcript::Whole(Vec::new(alloc))
    }

    /// Adds bytes. Where there is no memory for them, all are dropped.
    pub(crate) fn add(&mut self, bytes: &[u8]) -> Result<(), NoMemory>
        ensures added { (all : List ℕ) → IsTranscript self.old all → IsTranscript self.new (all ++ bytes.now) }
        ensures kept { OnOk result (self.new ≡ NoRoom → self.old ≡ NoRoom) }
    {
        let added = match self {
            Transcript::Whole(whole) => whole.extend_from_slice(bytes),
            Transcript::Sealed(_) | Transcript::NoMemory => Ok(()),
        };
        if added.is_err() {
            *self = Transcript::NoMemory;
        }
        added
    }

    /// Drops the bytes.
    pub(crate) fn forget(&mut self, sealed: Sealed)
        ensures bytes { (all : List ℕ) → IsTranscript self.new all }
        ensures room { self.new ≡ NoRoom → ⊥ }
    {
        *self = Transcript::Sealed(sealed);
    }

    /// Whether it has the bytes.
    pub(crate) fn has_bytes(&self) -> bool
        ensures { result ≡ has_bytes self.now }
    {
        matches!(self, Transcript::Whole(_))
    }

    /// The bytes, where they weren't dropped.
    pub fn into_bytes(self) -> Option<Vec<u8>>
        ensures some { IfSome result (λ bytes. self ≡ Whole bytes) }
        ensures none { IfNone result (has_bytes self ≡ false) }
    {
        match self {
            Transcript::Whole(bytes) => Some(bytes),
            Transcript::Sealed(_) | Transcript::NoMemory => None,
        }
    }
}
