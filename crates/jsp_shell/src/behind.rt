//! The lines behind a `bye`, for which nothing is sent.

/// Where the reading of them is. They come in any pieces, and no line is kept.
#[derive(Clone, Copy)]
pub(crate) struct Behind {
    /// The number of the line.
    number: u64,
    /// Whether it has a character that isn't blank.
    is_begun: bool,
}

impl Behind {
    /// Behind the line of this number.
    pub(crate) fn new(number: u64) -> Behind {
        Behind {
            number: number.saturating_add(1),
            is_begun: false,
        }
    }

    /// Reads the next byte, and answers the number of its line where that turns out by it to ask
    /// something: it is neither empty nor a comment.
    pub(crate) fn next(&mut self, byte: u8) -> Option<u64> {
        if byte == b'\n' {
            *self = Behind::new(self.number);
            return None;
        }
        if self.is_begun || byte.is_ascii_whitespace() {
            return None;
        }
        self.is_begun = true;
        (byte != b'#').then_some(self.number)
    }
}
