//! The lines of a script, but for bytes that are no frames.

/// What a line asks for.
#[derive(Clone, Copy)]
pub(crate) enum Act<'a> {
    Open { session: u64 },
    Send { session: u64, payload: &'a str },
    Shut { session: u64 },
    Clock { time: u64 },
    Settle,
}

/// Whether a line asks for nothing.
pub(crate) fn is_passed_over(line: &str) -> bool {
    line.is_empty() || line.starts_with('#')
}

/// What a line asks for, if it is understood.
pub(crate) fn read_act(line: &str) -> Option<Act<'_>> {
    if line == "settle" {
        return Some(Act::Settle);
    }
    let (kind, rest) = line.split_once(' ')?;
    match kind {
        "open" => Some(Act::Open {
            session: rest.parse().ok()?,
        }),
        "send" => {
            let (session, payload) = rest.split_once(' ')?;
            Some(Act::Send {
                session: session.parse().ok()?,
                payload,
            })
        }
        "shut" => Some(Act::Shut {
            session: rest.parse().ok()?,
        }),
        "clock" => Some(Act::Clock {
            time: rest.parse().ok()?,
        }),
        _ => None,
    }
}
