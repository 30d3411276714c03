//! What a lease is granted.
ghost use Rattle.std.specs.Prelude.{◌≡◌, ◌≤◌};
ghost use Rattle.jsp_lease.specs.Granted.{granted as granted_of, ms_of as granted_ms};
ghost use Rattle.jsp_lease.specs.declared.granting.TheConstants.{LONGEST_LEASE};

/// The longest lease, in milliseconds: an hour (this profile's own).
pub const LONGEST_LEASE: u64 = 3_600_000;

/// What ANY is granted, in milliseconds: a minute (this profile's own).
pub const ANY_LEASE: u64 = 60_000;

/// What a lease of the asked time is granted, in milliseconds: the least of that time and an hour,
/// a minute for ANY (-1), and nothing for another negative time. A lease of 0 ends at once.
///
/// That less may be granted than was asked for, and ANY, are of Jini Distributed Leasing; the
/// numbers are this profile's own.
pub fn granted(asked: i64) -> Option<u64>
    ensures { result ≡ granted_of asked }
{
    if asked >= 0 {
        return Some((asked as u64).min(LONGEST_LEASE));
    }
    if asked == -1 {
        return Some(ANY_LEASE);
    }
    None
}

/// What a lease of the asked time is granted, in milliseconds, or 0 where nothing is.
pub fn ms_of(asked: i64) -> u64
    ensures ms { result ≡ granted_ms asked }
    ensures limit { result ≤ LONGEST_LEASE }
{
    granted(asked).unwrap_or(0)
}
