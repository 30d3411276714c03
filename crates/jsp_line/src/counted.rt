//! A reader or writer whose calls and failures are counted.
ghost use Rattle.std.specs.Prelude.{◌≡◌, ◌≤◌, ◌<◌, ◌+◌, ℕ, length, take, OnErr, OnOk};
ghost use Rattle.std.specs.Io.{ReadsAtMost};
ghost use Rattle.std.specs.Io.KnownBytes.{ReadConsumes, Appends};
ghost use Rattle.jsp_line.specs.Bytes.{saturated};

use std::io;
use std::io::{Read, Write};

/// Passes its calls on, and counts its reads and the calls that failed, each up to 2^64 - 1.
#[derive(Drop)]
pub struct Counted<T> {
    pub inner: T,
    pub reads: u64,
    pub failures: u64,
}

impl<T> Counted<T> {
    pub(crate) fn new(inner: T) -> Counted<T>
        ensures inner { result.inner ≡ inner }
        ensures none { result.failures ≡ 0 }
    {
        Counted {
            inner,
            reads: 0,
            failures: 0,
        }
    }
}

impl<R: Read> Counted<R> {
    /// One read, whose failure is counted.
    pub(crate) fn read_once(&mut self, buf: &mut [u8]) -> io::Result<usize>
        ensures bound { ReadsAtMost result buf.new }
        ensures bytes { ReadConsumes (R.remaining self.old.inner) (R.remaining self.new.inner) result buf.new }
        ensures ok { OnOk result (self.new.failures ≡ self.old.failures) }
        ensures err { OnErr result (self.new.failures ≡ saturated self.old.failures) }
        ensures counted { self.new.reads ≡ saturated self.old.reads }
    {
        let result = self.inner.read(buf);
        self.reads = self.reads.saturating_add(1);
        if result.is_err() {
            self.failures = self.failures.saturating_add(1);
        }
        result
    }
}

impl<W: Write> Counted<W> {
    /// One write of a rest that isn't empty: how many bytes it took. Where it took none it failed,
    /// and that is counted.
    pub(crate) fn write_once(&mut self, rest: &[u8]) -> usize
        requires { 0 < length rest.now }
        ensures bound { result ≤ length rest.now }
        ensures bytes { Appends (W.contents self.old.inner) (W.contents self.new.inner) (take result rest.now) }
        ensures ok { 0 < result → self.new.failures ≡ self.old.failures }
        ensures err { result ≡ 0 → self.new.failures ≡ saturated self.old.failures }
    {
        let taken = match self.inner.write(rest) {
            Ok(n) => n,
            Err(_) => 0,
        };
        if taken == 0 {
            self.failures = self.failures.saturating_add(1);
        }
        taken
    }
}
