//! Responses to requests.
ghost use Rattle.std.specs.Prelude.{◌≡◌, ◌++◌, ◌∷◌, [], codes, OnOk};
ghost use Rattle.http_server.specs.Response.{fields_of};
ghost use Rattle.jsp_status.specs.Answer.{IsAnswer};

use crate::asked::{Asked, read_asked};
use crate::json::to_json;
use crate::metrics::to_metrics;
use crate::page::to_page;
use crate::status::Status;
use bytes::{BufMut, Bytes};
use http::{HeaderValue, Request, StatusCode, header};
use http_server::{Response, Service};
use std::alloc::{AllocError, Global};

/// The responses about one status.
#[derive(Drop)]
pub(crate) struct Pages<'a> {
    pub(crate) alloc: Global,
    pub(crate) status: &'a Status,
}

impl Service for Pages<'_> {
    ghost answers = { λ old request response new. IsAnswer old.status.now request response × (new ≡ old) };

    fn call(
        &mut self,
        request: &Request<Bytes>,
        response: &mut Response,
    ) -> Result<(), AllocError> {
        response.add_header(header::CONNECTION, HeaderValue::from_static("close"))?;
        match read_asked(request) {
            Asked::Page => {
                let page = to_page(self.alloc, self.status)?;
                let kind = HeaderValue::from_static("text/html; charset=utf-8");
                fill(response, kind, &page)?;
                Ok(())
            }
            Asked::Json => {
                let json = to_json(self.alloc, self.status)?;
                let kind = HeaderValue::from_static("application/json");
                fill(response, kind, json.as_bytes())?;
                Ok(())
            }
            Asked::Metrics => {
                let metrics = to_metrics(self.alloc, self.status)?;
                let kind = HeaderValue::from_static("text/plain; version=0.0.4; charset=utf-8");
                fill(response, kind, &metrics)?;
                Ok(())
            }
            Asked::UnknownPath => {
                response.status = StatusCode::NOT_FOUND;
                Ok(())
            }
            Asked::UnknownMethod => {
                response.status = StatusCode::METHOD_NOT_ALLOWED;
                response.add_header(header::ALLOW, HeaderValue::from_static("GET, HEAD"))?;
                Ok(())
            }
        }
    }
}

/// Gives a response its body, which isn't to be kept, since the numbers change.
fn fill(response: &mut Response, kind: HeaderValue, body: &[u8]) -> Result<(), AllocError>
    ensures status { response.new.status ≡ response.old.status }
    ensures headers { OnOk result (fields_of response.new ≡ fields_of response.old
        ++ (codes "content-type", kind.bytes) ∷ (codes "cache-control", codes "no-store") ∷ []) }
    ensures body { OnOk result (response.new.body.items ≡ response.old.body.items ++ body.now) }
{
    response.add_header(header::CONTENT_TYPE, kind)?;
    response.add_header(header::CACHE_CONTROL, HeaderValue::from_static("no-store"))?;
    response.body.put_slice(body)
}
