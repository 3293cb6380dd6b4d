//! The server's own refusals as JSON, in the place of the empty ones of `http_server`.
//!
//! Defined in: `specs/Meaning/Own.antt`.
//! Tested in: `lg_http_tests/src/serving.rt`.
ghost use Rattle.std.specs.Prelude.{◌≡◌};
ghost use Rattle.lg_http.specs.Meaning.Own.{own_text, own_for, own_of_part, own_of_read, own_in};

use http_server::{Reason, Refusal, State};
use http1::ReadError;

/// Why a request is refused before the site sees it (RFC 9110, section 15; RFC 6585, section 5).
#[derive(Clone, Copy, Debug, PartialEq, Eq)]
pub(crate) enum OwnRefusal {
    /// 400: it is no request, or a part of one.
    BadRequest,
    /// 413.
    BodyTooLarge,
    /// 414.
    TargetTooLong,
    /// 431.
    FieldsTooLarge,
    /// 501: a transfer coding other than chunked.
    UnknownCoding,
    /// 500: the site's answer can't be sent.
    Internal,
}

const BAD_REQUEST: &[u8] =
    b"HTTP/1.1 400 Bad Request\r\nconnection: close\r\ncontent-type: application/json\r\n\
content-length: 23\r\n\r\n{\"error\":\"bad request\"}";

const BODY_TOO_LARGE: &[u8] =
    b"HTTP/1.1 413 Content Too Large\r\nconnection: close\r\ncontent-type: application/json\r\n\
content-length: 26\r\n\r\n{\"error\":\"body too large\"}";

const TARGET_TOO_LONG: &[u8] =
    b"HTTP/1.1 414 URI Too Long\r\nconnection: close\r\ncontent-type: application/json\r\n\
content-length: 27\r\n\r\n{\"error\":\"target too long\"}";

const FIELDS_TOO_LARGE: &[u8] =
    b"HTTP/1.1 431 Request Header Fields Too Large\r\nconnection: close\r\ncontent-type: application/json\r\n\
content-length: 35\r\n\r\n{\"error\":\"header fields too large\"}";

const UNKNOWN_CODING: &[u8] =
    b"HTTP/1.1 501 Not Implemented\r\nconnection: close\r\ncontent-type: application/json\r\n\
content-length: 34\r\n\r\n{\"error\":\"coding not implemented\"}";

const INTERNAL: &[u8] =
    b"HTTP/1.1 500 Internal Server Error\r\nconnection: close\r\ncontent-type: application/json\r\n\
content-length: 26\r\n\r\n{\"error\":\"internal error\"}";

impl OwnRefusal {
    /// The whole response, which announces the close.
    pub(crate) fn text(self) -> &'static [u8]
        ensures { result.now ≡ own_text self }
    {
        match self {
            OwnRefusal::BadRequest => BAD_REQUEST,
            OwnRefusal::BodyTooLarge => BODY_TOO_LARGE,
            OwnRefusal::TargetTooLong => TARGET_TOO_LONG,
            OwnRefusal::FieldsTooLarge => FIELDS_TOO_LARGE,
            OwnRefusal::UnknownCoding => UNKNOWN_CODING,
            OwnRefusal::Internal => INTERNAL,
        }
    }

    /// What stands in the place of an error of reading.
    fn of_read(error: ReadError) -> OwnRefusal
        ensures { result ≡ own_of_read error }
    {
        match error {
            ReadError::UriTooLong => OwnRefusal::TargetTooLong,
            e if e.status() == 431 => OwnRefusal::FieldsTooLarge,
            _ => OwnRefusal::BadRequest,
        }
    }

    /// What stands in the place of a part that `http` refuses.
    fn of_part(error: http::Error) -> OwnRefusal
        ensures { result ≡ own_of_part error }
    {
        match error {
            http::Error::HeaderName | http::Error::MaxSizeReached => OwnRefusal::FieldsTooLarge,
            http::Error::Uri(e) if e.is_too_long() => OwnRefusal::TargetTooLong,
            _ => OwnRefusal::BadRequest,
        }
    }

    /// What stands in the place of a refusal.
    fn of(why: Refusal) -> OwnRefusal
        ensures { result ≡ own_for why }
    {
        match why {
            Refusal::Unreadable(e) => OwnRefusal::of_read(e),
            Refusal::BodyTooLarge => OwnRefusal::BodyTooLarge,
            Refusal::InvalidPart(e) => OwnRefusal::of_part(e),
            Refusal::UnknownCoding => OwnRefusal::UnknownCoding,
            Refusal::InvalidResponse(_) => OwnRefusal::Internal,
            _ => OwnRefusal::BadRequest,
        }
    }

    /// What a connection in this state is refused with, if it is.
    pub(crate) fn found_in(state: State) -> Option<OwnRefusal>
        ensures { result ≡ own_in state }
    {
        match state {
            State::Closing(Reason::Refused(why)) => Some(OwnRefusal::of(why)),
            _ => None,
        }
    }
}
