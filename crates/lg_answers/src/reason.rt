//! Why a request has no route.
//!
//! Defined in: `specs/Meaning/Reasons.antt`.
//! Tested in: `lg_answers_tests/src/route.rt`.
ghost use Rattle.std.specs.Prelude.{◌≡◌};
ghost use Rattle.lg_answers.specs.Meaning.Reasons.{fault_status, reason_text};

use lg_http::HttpStatus;
use thiserror::Error;

/// Why a request has no route.
#[derive(Clone, Copy, Debug, PartialEq, Eq, Error)]
pub enum RouteFault {
    /// The path is none of those that there are.
    #[error("there is nothing at this path")]
    UnknownPath,
    /// The path takes POST alone.
    #[error("this path takes POST alone")]
    PostOnly,
    /// What stands behind `/v1/members/` or `/v1/explain/` is no name.
    #[error("a name has to be 1 to 32 bytes of A-Z a-z 0-9 . _ -")]
    NoName,
    /// The path takes no query, and there is one.
    #[error("this path takes no query")]
    NoQuery,
    /// The query of `/v1/members` isn't `status=` with one of the four statuses.
    #[error("the query has to be status=alive, status=suspect, status=failed or status=left")]
    BadStatus,
    /// The query of `/v1/changes` isn't made of `after=V` and `wait_ms=W`, each at most once.
    #[error("the query takes after=V and wait_ms=W, each at most once, with V of 1 to 16 digits and W 0 to 30000")]
    BadChanges,
    /// The query of `/v1/prometheus` isn't `port=P`.
    #[error("the query has to be port=P, with P of 1 to 65535")]
    BadPort,
}

impl RouteFault {
    /// The status of the answer: 404 if the path is unknown, 405 if it takes POST alone, or else 400 (RFC 9110,
    /// sections 15.5.1, 15.5.5 and 15.5.6).
    pub fn status(self) -> HttpStatus
        ensures { result ≡ fault_status self }
    {
        match self {
            RouteFault::UnknownPath => HttpStatus::NotFound,
            RouteFault::PostOnly => HttpStatus::PostOnly,
            RouteFault::NoName
            | RouteFault::NoQuery
            | RouteFault::BadStatus
            | RouteFault::BadChanges
            | RouteFault::BadPort => HttpStatus::BadRequest,
        }
    }

    /// The fault in words, for the body of the answer. No byte of it needs an escape in JSON.
    pub fn text(self) -> &'static str
        ensures { result.now ≡ reason_text self }
    {
        match self {
            RouteFault::UnknownPath => "there is nothing at this path",
            RouteFault::PostOnly => "this path takes POST alone",
            RouteFault::NoName => "a name has to be 1 to 32 bytes of A-Z a-z 0-9 . _ -",
            RouteFault::NoQuery => "this path takes no query",
            RouteFault::BadStatus => {
                "the query has to be status=alive, status=suspect, status=failed or status=left"
            }
            RouteFault::BadChanges => {
                "the query takes after=V and wait_ms=W, each at most once, with V of 1 to 16 digits and W 0 to 30000"
            }
            RouteFault::BadPort => "the query has to be port=P, with P of 1 to 65535",
        }
    }
}
