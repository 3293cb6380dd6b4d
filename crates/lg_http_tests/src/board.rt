//! What the server of the tests shows: a number.
ghost use Rattle.std.specs.Prelude.{⊤};

use lg_http::{HttpAnswer, HttpStatus, Kind, OtherRequest, Site, Wait};
use std::alloc::{AllocError, Global};
use std::sync::atomic::AtomicU64;
use std::sync::atomic::Ordering::SeqCst;

/// How long a long poll waits at most, in milliseconds.
pub(crate) const WAIT_MS: u64 = 300;

/// How long the query `long` waits at most, in milliseconds.
const LONG_MS: u64 = 30_000;

/// How many bytes the largest answer has: more than the system holds for a client that reads nothing.
pub(crate) const LARGE: usize = 16 * 1024 * 1024;

/// A number that another thread changes.
#[derive(Drop)]
pub(crate) struct Board<'a> {
    pub(crate) number: &'a AtomicU64,
    pub(crate) seen: u64,
}

/// An answer with this body.
fn answer_of(
    alloc: Global,
    status: HttpStatus,
    kind: Kind,
    body: &[u8],
) -> Result<HttpAnswer, AllocError> {
    Ok(HttpAnswer {
        status,
        kind,
        body: Vec::from_slice(alloc, body)?,
    })
}

/// The largest answer.
fn large(alloc: Global) -> Result<HttpAnswer, AllocError> {
    let mut body = Vec::new(alloc);
    body.resize(LARGE, b'a')?;
    Ok(HttpAnswer {
        status: HttpStatus::Fine,
        kind: Kind::Html,
        body,
    })
}

/// The answer at the path that takes POST alone, to another method.
fn post_only(alloc: Global) -> Result<HttpAnswer, AllocError> {
    answer_of(
        alloc,
        HttpStatus::PostOnly,
        Kind::Json,
        b"{\"error\":\"post only\"}",
    )
}

impl<'a> Site for Board<'a> {
    ghost answers = { λ site path query answer. ⊤ };

    ghost acts = { λ site asked answer. ⊤ };

    ghost version = { λ site. site.seen };

    ghost later = { λ first second. ⊤ };

    ghost waits = { λ path query wait. ⊤ };

    ghost order = { record { same = λ _. tt; both = λ _ _ _ _ _. tt } };

    fn refresh(&mut self) -> u64 {
        self.seen = self.number.load(SeqCst);
        self.seen
    }

    fn wait_of(&self, path: &[u8], query: Option<&[u8]>) -> Option<Wait> {
        let wait_ms = match query {
            Some(b"at-once") => 0,
            Some(b"long") => LONG_MS,
            Some(_) => WAIT_MS,
            None => return None,
        };
        if path == b"/next".as_slice() {
            Some(Wait { after: 0, wait_ms })
        } else {
            None
        }
    }

    fn answer(
        &self,
        alloc: Global,
        path: &[u8],
        _query: Option<&[u8]>,
    ) -> Result<HttpAnswer, AllocError> {
        match path {
            b"/" => answer_of(alloc, HttpStatus::Fine, Kind::Html, b"<p>page</p>"),
            b"/metrics" => answer_of(alloc, HttpStatus::Fine, Kind::Metrics, b"number 0\n"),
            b"/bad" => answer_of(
                alloc,
                HttpStatus::BadRequest,
                Kind::Json,
                b"{\"error\":\"bad\"}",
            ),
            b"/large" => large(alloc),
            b"/ill" => answer_of(
                alloc,
                HttpStatus::Unavailable,
                Kind::Json,
                b"{\"ill\":true}",
            ),
            b"/act" => post_only(alloc),
            b"/next" if self.seen == 0 => answer_of(
                alloc,
                HttpStatus::Fine,
                Kind::Json,
                b"{\"number\":0}",
            ),
            b"/next" => answer_of(alloc, HttpStatus::Fine, Kind::Json, b"{\"number\":1}"),
            _ => answer_of(
                alloc,
                HttpStatus::NotFound,
                Kind::Json,
                b"{\"error\":\"unknown\"}",
            ),
        }
    }

    fn act(
        &self,
        alloc: Global,
        asked: &OtherRequest<'_>,
    ) -> Result<Option<HttpAnswer>, AllocError> {
        if asked.path != b"/act".as_slice() {
            return Ok(None);
        }
        if asked.method != "POST" {
            return Ok(Some(post_only(alloc)?));
        }
        let is_marked = asked.field("x-mark") == Some(b"here".as_slice());
        let status = if is_marked && asked.is_loopback {
            HttpStatus::Fine
        } else {
            HttpStatus::Forbidden
        };
        let answer = answer_of(alloc, status, Kind::Json, b"{\"acted\":0}")?;
        Ok(Some(answer))
    }
}
