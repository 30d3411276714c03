//! A digest of all that was written.
use std::io::{self, Write};

/// The FNV-1a hash of what was written, and how much it was.
#[derive(Clone, Copy, Drop)]
pub(crate) struct Digest {
    pub(crate) hash: u64,
    pub(crate) bytes: u64,
}

impl Digest {
    pub(crate) const EMPTY: Digest = Digest {
        hash: 0xcbf2_9ce4_8422_2325,
        bytes: 0,
    };
}

impl Write for Digest {
    fn write(&mut self, buf: &[u8]) -> io::Result<usize> {
        let mut hash = self.hash;
        for byte in buf {
            hash = (hash ^ u64::from(*byte)).wrapping_mul(0x0100_0000_01b3);
        }
        self.hash = hash;
        self.bytes = self.bytes.saturating_add(buf.len() as u64);
        Ok(buf.len())
    }

    fn flush(&mut self) -> io::Result<()> {
        Ok(())
    }
}
