//! What is shown to the clients, as a trait that the program above implements.
//!
//! Defined in: `specs/Meaning/Answers.antt`.
//! Tested in: `lg_http_tests/src/serving.rt`.
ghost use Rattle.std.specs.Prelude.{◌≡◌, ℕ, List, Option, IfOk, option_map};
ghost use Rattle.lg_http.specs.declared.site.HttpAnswer.{HttpAnswer};
ghost use Rattle.lg_http.specs.declared.site.Wait.{Wait};
ghost use Rattle.lg_http.specs.Meaning.Asked.{AskedValue, asked_value};
ghost use Rattle.lg_http.specs.Meaning.Answers.{status_number, kind_words, would_wait, IsSiteOrder};

use crate::asked::OtherRequest;
use std::alloc::{AllocError, Global};

/// The status of an answer (RFC 9110, section 15).
#[derive(Clone, Copy, Debug, PartialEq, Eq)]
pub enum HttpStatus {
    /// 200.
    Fine,
    /// 400: the path or the query isn't of the form that the resource takes.
    BadRequest,
    /// 403: the client may not ask for this.
    Forbidden,
    /// 404: there is no such resource.
    NotFound,
    /// 405: the resource takes POST alone. The answer has `allow: POST`.
    PostOnly,
    /// 503: the resource is there, and isn't well now.
    Unavailable,
}

impl HttpStatus {
    /// The code, 200 to 503.
    pub fn number(self) -> u16
        ensures { result ≡ status_number self }
    {
        match self {
            HttpStatus::Fine => 200,
            HttpStatus::BadRequest => 400,
            HttpStatus::Forbidden => 403,
            HttpStatus::NotFound => 404,
            HttpStatus::PostOnly => 405,
            HttpStatus::Unavailable => 503,
        }
    }
}

/// The media type of an answer's body.
#[derive(Clone, Copy, Debug, PartialEq, Eq)]
pub enum Kind {
    /// JSON (RFC 8259).
    Json,
    /// A page.
    Html,
    /// The text format of Prometheus, version 0.0.4.
    Metrics,
}

impl Kind {
    /// The value of `content-type`.
    pub fn words(self) -> &'static str
        ensures { result.now ≡ kind_words self }
    {
        match self {
            Kind::Json => "application/json",
            Kind::Html => "text/html; charset=utf-8",
            Kind::Metrics => "text/plain; version=0.0.4; charset=utf-8",
        }
    }
}

/// What a client gets. To HEAD its body isn't sent.
#[derive(Debug, Drop)]
pub struct HttpAnswer {
    pub status: HttpStatus,
    pub kind: Kind,
    pub body: Vec<u8>,
}

/// What a long poll waits for: a version after `after`, for `wait_ms` milliseconds at the most. More than 30,000 ms
/// count as 30,000 ms.
#[derive(Clone, Copy, Debug, PartialEq, Eq)]
pub struct Wait {
    pub after: u64,
    pub wait_ms: u64,
}

impl Wait {
    /// Whether a request that waits for this would wait now, if the site shows this version.
    pub(crate) fn lasts_at(self, version: u64) -> bool
        ensures { result ≡ would_wait version (Some self) }
    {
        self.wait_ms > 0 && version <= self.after
    }
}

/// What a server shows. One thread asks it, and no call may wait for anybody.
pub trait Site {
    // What a state answers to a path and a query.
    ghost answers: { Self → List ℕ → Option (List ℕ) → HttpAnswer → Type 0 };

    // What a state answers to a request whose method is neither GET nor HEAD, if it has an answer.
    ghost acts: { Self → AskedValue → Option HttpAnswer → Type 0 };

    // The version of what a state shows.
    ghost version: { Self → ℕ };

    // Of two states, the second is the first or a later one.
    ghost later: { Self → Self → Type 0 };

    // A request for a path and a query waits for this, or for nothing.
    ghost waits: { List ℕ → Option (List ℕ) → Option Wait → Type 0 };

    /// Takes in what there is to show now. Returns its version, a number that grows with each change.
    fn refresh(&mut self) -> u64
        ensures version { result ≡ version self.new }
        ensures goes_on { later self.old self.new };

    /// What a GET of this path and query waits for, if it waits. It is answered at once if `wait_ms` is 0, or if the
    /// version is after `after`. The bytes are as the client sent them: percent-encoding isn't undone.
    fn wait_of(&self, path: &[u8], query: Option<&[u8]>) -> Option<Wait>
        ensures { waits path.now (option_map (λ q. q.now) query.entry) result };

    /// The answer to a GET or HEAD of this path and query, from what was taken in last. The error is refused memory
    /// alone, and closes the client's connection. The bytes are as the client sent them.
    fn answer(
        &self,
        alloc: Global,
        path: &[u8],
        query: Option<&[u8]>,
    ) -> Result<HttpAnswer, AllocError>
        ensures { IfOk result (λ a. answers self.now path.now (option_map (λ q. q.now) query.entry) a) };

    /// The answer to a request whose method is neither GET nor HEAD. None if the site has none: the client gets 405 and
    /// `allow: GET, HEAD`. The error is refused memory alone, and closes the client's connection.
    fn act(&self, alloc: Global, asked: &OtherRequest<'_>) -> Result<Option<HttpAnswer>, AllocError>
        ensures { IfOk result (λ a. acts self.now (asked_value asked.now) a) };

    // A state counts as later than itself, and what is later than a later one is later.
    ghost order: { IsSiteOrder later };
}
