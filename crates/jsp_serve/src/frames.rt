//! Which of the frames that are written to a connection are answers.

/// How many bytes the length of a frame has.
const HEAD: usize = 4;

/// Where in its payload an event has an `e`, and no answer: `{"event":`, `{"id":`, `{"fault":`.
const KIND: usize = 2;

/// How far frames are written, whose bytes come a few at a time.
#[derive(Clone, Copy)]
pub(crate) struct Frames {
    /// How many bytes of a frame's length were written, and the number that these make.
    head: usize,
    length: usize,
    /// How many bytes of its payload were written.
    place: usize,
}

impl Frames {
    pub(crate) fn new() -> Frames {
        Frames {
            head: 0,
            length: 0,
            place: 0,
        }
    }

    /// Goes on by these bytes, and counts the answers among them.
    pub(crate) fn count_answers(&mut self, bytes: &[u8]) -> u64 {
        let mut answers: u64 = 0;
        let mut at = 0;
        for _ in 0..bytes.len() {
            if at >= bytes.len() {
                break;
            }
            let rest = &bytes[at..];
            if self.is_answer_in(rest) {
                answers = answers.saturating_add(1);
            }
            at = at.saturating_add(self.step(rest));
        }
        answers
    }

    /// Whether the payload that goes on with these bytes shows in them that it is an answer.
    fn is_answer_in(&self, bytes: &[u8]) -> bool {
        if self.head < HEAD || KIND < self.place {
            return false;
        }
        match bytes.get(KIND - self.place) {
            Some(byte) => *byte != b'e',
            None => false,
        }
    }

    /// Goes on by the next byte of a length, or by what there is of a payload: by so many bytes.
    fn step(&mut self, bytes: &[u8]) -> usize {
        if self.head < HEAD {
            self.head += 1;
            let byte = bytes.first().copied().unwrap_or(0);
            self.length = self
                .length
                .wrapping_mul(256)
                .wrapping_add(usize::from(byte));
            return 1;
        }
        let count = self.length.saturating_sub(self.place).min(bytes.len());
        self.place = self.place.saturating_add(count);
        if self.place >= self.length {
            *self = Frames::new();
        }
        count
    }
}
