//! What a status says of what was counted.
use crate::refusals::refusal_name;
use jsp_line::Counts;
use jsp_model::Config;
use jsp_status::{RefusalCount, SpaceStatus};
use std::alloc::{AllocError, Global};

/// The refusals that came.
pub(crate) fn refusals_of(alloc: Global, counts: &Counts) -> Result<Vec<RefusalCount>, AllocError> {
    let mut refusals = Vec::new(alloc);
    for (number, count) in counts.refusals.iter().enumerate() {
        if *count > 0 {
            refusals.push(RefusalCount {
                number: number as u64,
                name: String::from_str(alloc, refusal_name(number))?,
                count: *count,
            })?;
        }
    }
    Ok(refusals)
}

/// What stands in each space.
pub(crate) fn spaces_of(
    alloc: Global,
    config: &Config,
    counts: &Counts,
) -> Result<Vec<SpaceStatus>, AllocError> {
    let mut spaces = Vec::new(alloc);
    for (name, space) in config.spaces().iter().zip(counts.spaces.as_slice()) {
        spaces.push(SpaceStatus {
            name: String::from_str(alloc, name.as_str())?,
            rows: space.rows,
            waiting: space.waiting,
            registrations: space.registrations,
            match_sets: space.match_sets,
        })?;
    }
    Ok(spaces)
}
