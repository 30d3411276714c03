//! The limits of a request.
ghost use Rattle.std.specs.Prelude.{◌≡◌};
ghost use Rattle.jsp_wire.specs.Limits.{is_between, has_fitting_parts, is_within_limits};

use crate::{Ask, Request};

fn is_between(low: usize, high: usize, n: usize) -> bool
    ensures { result ≡ is_between low high n }
{
    low <= n && n <= high
}

fn has_fitting_parts(ask: &Ask) -> bool
    ensures { result ≡ has_fitting_parts ask.now }
{
    match ask {
        Ask::Notify(notify) => notify.handback.as_str().len() <= 256,
        Ask::RenewAll { leases } => is_between(1, 64, leases.as_slice().len()),
        Ask::CancelAll { leases } => is_between(1, 64, leases.as_slice().len()),
        Ask::WriteAll(write) => is_between(1, 64, write.entries.as_slice().len()),
        Ask::TakeMany(search) => {
            is_between(1, 8, search.templates.as_slice().len())
                && 1 <= search.most
                && search.most <= 16
        }
        Ask::Next { most, .. } => 1 <= *most && *most <= 16,
        _ => true,
    }
}

/// Whether the request keeps its limits.
pub(crate) fn is_within_limits(request: &Request) -> bool
    ensures { result ≡ is_within_limits request.now }
{
    request.id < 1 << 63 && has_fitting_parts(&request.ask)
}
