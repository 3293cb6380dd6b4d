//! Looks at the bytes that a client sent, before its connection is given them.
//!
//! It decides only when the connection gets bytes, and never what becomes of them. What it holds back is given later,
//! unchanged and in order.
//!
//! Defined in: `specs/Meaning/Fronts.antt`.
//! Tested in: `lg_http_tests/src/serving.rt`.
ghost use Rattle.std.specs.Prelude.{◌≡◌, ◌≤◌, ◌↔◌, length, map, All, IsTrue, IsFalse};
ghost use Rattle.httparse.specs.Spans.{IsHeaderWithin, IsRequestWithin, IsRequestOf, header_bytes};
ghost use Rattle.lg_text.specs.Meaning.Cutting.{before, behind};
ghost use Rattle.lg_http.specs.Support.Only.{IsOnlyRequest};
ghost use Rattle.lg_http.specs.Meaning.Fronts.{IsFraming, AreBodiless, IsFront, query_mark};

use crate::site::{Site, Wait};
use http_server::MAX_HEADERS;
use httparse::Status;
use httparse::spans::{EMPTY_HEADER_SPAN, HeaderSpan, RequestSpans, parse_request};
use lg_text::cut_at;

/// The longest head of a request, in bytes. A longer one is refused with 431, or 414 if its first line is too long.
pub(crate) const MAX_HEAD: usize = 8 * 1024;

/// What stands at the front of the bytes that are held.
#[derive(Clone, Copy, Debug, PartialEq, Eq)]
pub(crate) enum Front {
    /// No whole head yet, and there is room for more.
    Partial,
    /// A request without a body, of so many bytes, and what it waits for.
    Request(usize, Option<Wait>),
    /// No request of this kind: one with a body, one that is too long, or none at all. The connection is given all
    /// bytes, and is closed behind its answer.
    Other,
}

/// Whether a field of this name says that a body follows.
fn is_framing(name: &[u8]) -> bool
    ensures { IsTrue result ↔ IsFraming name.now }
{
    name.eq_ignore_ascii_case(b"content-length") || name.eq_ignore_ascii_case(b"transfer-encoding")
}

/// Whether one of the fields says that a body follows.
#[tactic(auto, using(crate::proofs::FramingLaws::framing_found, crate::proofs::FramingLaws::framing_none))]
fn announce_body(held: &[u8], spans: &[HeaderSpan]) -> bool
    requires { All (IsHeaderWithin (length held.now)) spans.now }
    ensures none { IsFalse result → AreBodiless (map (header_bytes held.now) spans.now) }
    ensures one { IsTrue result → ¬ (AreBodiless (map (header_bytes held.now) spans.now)) }
{
    for span in spans {
        if is_framing(span.name.of(held)) {
            return true;
        }
    }
    false
}

/// What a GET of this target waits for.
fn wait_of<S: Site>(site: &S, target: &[u8]) -> Option<Wait>
    ensures { S.waits (before query_mark target.now) (behind query_mark target.now) result }
{
    let (path, query) = cut_at(target, b'?');
    site.wait_of(path, query)
}

/// What a whole head is.
#[tactic(auto, using(crate::proofs::FramingLaws::none_is_long, crate::proofs::FramingLaws::none_has_body))]
fn front_of<S: Site>(site: &S, held: &[u8], spans: &[HeaderSpan], head: &RequestSpans) -> Front
    requires within { IsRequestWithin held.now spans.now head.now }
    requires complete { IsRequestOf held.now spans.now head.now }
    requires found { IsOnlyRequest held.now spans.now head.now }
    ensures { IsFront S.waits held.now result }
{
    if head.len > MAX_HEAD {
        return Front::Other;
    }
    if announce_body(held, &spans[..head.headers]) {
        return Front::Other;
    }
    if head.method.of(held) == b"GET".as_slice() {
        Front::Request(head.len, wait_of(site, head.path.of(held)))
    } else {
        Front::Request(head.len, None)
    }
}

/// What stands at the front of these bytes.
pub(crate) fn look_at<S: Site>(site: &S, held: &[u8]) -> Front
    ensures { IsFront S.waits held.now result }
{
    let mut spans = [EMPTY_HEADER_SPAN; MAX_HEADERS];
    match parse_request(held, &mut spans) {
        Ok(Status::Complete(head)) => front_of(site, held, &spans, &head),
        Ok(Status::Partial) if held.len() < MAX_HEAD => Front::Partial,
        _ => Front::Other,
    }
}
