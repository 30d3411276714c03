//! The lines of the input, each within a bound.
use crate::fault::NotSent;
use jsp_forms::{LineFault, MOST_BYTES};
use std::alloc::Global;
use std::io::{self, BufRead, BufReader, ErrorKind, Read};

/// The lines of a reader, with their numbers.
#[derive(Drop)]
pub(crate) struct Lines<R: Read + Drop> {
    alloc: Global,
    reader: BufReader<R>,
    /// The number of the last line that was read, from 1 on.
    number: u64,
}

impl<R: Read + Drop> Lines<R> {
    pub(crate) fn new(alloc: Global, reader: R) -> io::Result<Lines<R>> {
        Ok(Lines {
            alloc,
            reader: BufReader::new(alloc, reader)?,
            number: 0,
        })
    }

    pub(crate) fn number(&self) -> u64 {
        self.number
    }

    /// The next line, or none at the end. One that is too long is passed over. After another fault
    /// no more can be read.
    pub(crate) fn next(&mut self) -> Result<Option<Vec<u8>>, NotSent> {
        self.number = self.number.saturating_add(1);
        let mut line = Vec::new(self.alloc);
        for _ in 0..u64::MAX {
            if self.read_some(&mut line)? {
                break;
            }
        }
        if line.is_empty() {
            return Ok(None);
        }
        if line.last() == Some(&b'\n') {
            line.pop();
        }
        if line.len() > MOST_BYTES {
            return Err(NotSent::NotUnderstood(LineFault::TooLong));
        }
        Ok(Some(line))
    }

    /// Whether the input is read further than to the last line's end.
    pub(crate) fn is_ahead(&self) -> bool {
        !self.reader.buffer().is_empty()
    }

    /// The next bytes, which are those that were read ahead, or else those of one read, no bytes
    /// where it was interrupted. None at the end, or where no more can be read.
    pub(crate) fn piece(&mut self) -> Option<&[u8]> {
        match self.reader.fill_buf() {
            Ok(bytes) if bytes.is_empty() => None,
            Ok(bytes) => Some(bytes),
            Err(error) if error.kind() == ErrorKind::Interrupted => Some(&[]),
            Err(_) => None,
        }
    }

    /// Goes on behind so many of them.
    pub(crate) fn pass(&mut self, bytes: usize) {
        self.reader.consume(bytes);
    }

    /// Reads more of a line, and answers whether it has ended. Of one that is too long no more is
    /// kept.
    fn read_some(&mut self, line: &mut Vec<u8>) -> Result<bool, NotSent> {
        let bytes = match self.reader.fill_buf() {
            Ok(bytes) => bytes,
            Err(error) if error.kind() == ErrorKind::Interrupted => return Ok(false),
            Err(error) => return Err(NotSent::from(error)),
        };
        let end = bytes.iter().position(|byte| *byte == b'\n');
        let taken = match end {
            Some(place) => place + 1,
            None => bytes.len(),
        };
        if line.len() <= MOST_BYTES {
            line.extend_from_slice(&bytes[..taken])?;
        }
        let ends = end.is_some() || bytes.is_empty();
        self.reader.consume(taken);
        Ok(ends)
    }
}

impl From<io::Error> for NotSent {
    fn from(error: io::Error) -> NotSent {
        match error.kind() {
            ErrorKind::OutOfMemory => NotSent::NoMemory,
            _ => NotSent::NotRead(error),
        }
    }
}
