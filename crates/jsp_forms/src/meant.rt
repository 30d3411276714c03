//! The name that was meant by a word which is none.
use std::alloc::{AllocError, Global};
use strsim::damerau_levenshtein;

/// The most bytes of a name, and so of a word that may stand for one.
const MOST_BYTES: usize = 64;

/// The nearest name so far to a word.
#[derive(Clone, Copy)]
pub(crate) struct Nearest<'n> {
    word: &'n str,
    /// A name is near where fewer slips than these lead to the word: a letter that is missing,
    /// added or another, or two that are swapped. At first these are three, and fewer at a short
    /// word.
    bound: usize,
    name: Option<&'n str>,
}

impl<'n> Nearest<'n> {
    /// Before the first name.
    pub(crate) fn new(word: &'n str) -> Nearest<'n> {
        let half = word.chars().count().div_ceil(2);
        Nearest {
            word,
            bound: if word.len() > MOST_BYTES {
                0
            } else {
                half.min(3)
            },
            name: None,
        }
    }

    /// Looks at a name.
    pub(crate) fn look_at(&mut self, alloc: Global, name: &'n str) -> Result<(), AllocError> {
        if self.bound == 0 || name.len() > MOST_BYTES {
            return Ok(());
        }
        let slips = damerau_levenshtein(alloc, self.word, name)?;
        if slips < self.bound {
            self.bound = slips;
            self.name = Some(name);
        }
        Ok(())
    }

    pub(crate) fn name(&self) -> Option<&'n str> {
        self.name
    }
}
