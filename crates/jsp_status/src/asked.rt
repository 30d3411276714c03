//! What a request asks for.
ghost use Rattle.std.specs.Prelude.{◌≡◌};
ghost use Rattle.jsp_status.specs.Answer.{asked_by};

use bytes::Bytes;
use http::Request;

/// What a request asks for, by its method and path.
pub(crate) enum Asked {
    Page,
    Json,
    Metrics,
    UnknownPath,
    UnknownMethod,
}

pub(crate) fn read_asked(request: &Request<Bytes>) -> Asked
    ensures { result ≡ asked_by request.now }
{
    let method = request.method().as_str();
    let path = request.uri().path();
    if method != "GET" && method != "HEAD" {
        Asked::UnknownMethod
    } else if path == "/" {
        Asked::Page
    } else if path == "/status.json" {
        Asked::Json
    } else if path == "/metrics" {
        Asked::Metrics
    } else {
        Asked::UnknownPath
    }
}
