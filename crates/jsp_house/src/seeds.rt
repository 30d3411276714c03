//! The seeds of the keys by which things are found.
use std::random::RandomSource;

/// The seeds of the keys by which things are found. No answer depends on them, but time does: who
/// knows one can choose many texts that have one key, and each search looks through all of them.
#[derive(Clone, Copy, Debug, PartialEq, Eq)]
pub struct Seeds {
    /// Of the house.
    pub house: u64,
    /// Of the replay that is compared with what was sent.
    pub replay: u64,
}

impl Seeds {
    /// Numbers that nobody can know, or none where the system gives none.
    pub fn random(rt: &impl RandomSource) -> Option<Seeds> {
        Some(Seeds {
            house: random_number(rt)?,
            replay: random_number(rt)?,
        })
    }

    /// Numbers that everybody may know.
    pub fn known() -> Seeds {
        Seeds {
            house: 0,
            replay: 0,
        }
    }
}

fn random_number(rt: &impl RandomSource) -> Option<u64> {
    let mut bytes = [0; 8];
    rt.fill_bytes(&mut bytes).ok()?;
    Some(u64::from_le_bytes(bytes))
}
