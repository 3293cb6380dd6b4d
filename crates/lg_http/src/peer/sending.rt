//! Sending an answer to a client.
//!
//! Defined in: `specs/Meaning/Phases.antt`, `specs/Meaning/Peers.antt`.
//! Tested in: `lg_http_tests/src/serving.rt`, `lg_http_tests/src/late.rt`.
ghost use Rattle.std.specs.Prelude.{◌≡◌, ◌≢◌, ◌<◌, ◌+◌};
ghost use Rattle.lg_http.specs.Meaning.Phases.{MayBecome};
ghost use Rattle.lg_http.specs.Meaning.Peers.{stream_of, calls_of, KeepsTime, IsWithinLimit};

use super::{DRAIN_MS, LIMIT_MS, OwnText, Peer, Phase, Step, Turn};
use std::io;
use std::io::Write;
use std::net::Shutdown;

impl Peer {
    /// A step of sending an answer.
    pub(super) fn send(&mut self, turn: &Turn) -> Step
        requires phase { self.old.phase ≡ Phase.Answering }
        requires timely { turn.now.at < self.old.until }
        ensures moves { MayBecome self.old.phase self.new.phase }
        ensures current { result ≢ Step.Gone → turn.now.at < self.new.until }
        ensures time { result ≢ Step.Gone → KeepsTime turn.now.at self.old self.new }
        ensures calls { calls_of self.new ≡ calls_of self.old }
        ensures held { self.new.held ≡ self.old.held }
        ensures stream { stream_of self.new ≡ stream_of self.old }
    {
        if !self.can_write {
            return Step::Wait;
        }
        match self.write_once() {
            Ok(0) => Step::Gone,
            Ok(_) => {
                self.until = turn.at.milliseconds().saturating_add(LIMIT_MS);
                self.go_on(turn)
            }
            Err(e) => Step::after_failure(e.kind(), &mut self.can_write),
        }
    }

    /// Writes once: the server's own refusal, or else what the connection has to say.
    fn write_once(&mut self) -> io::Result<usize>
        ensures phase { self.new.phase ≡ self.old.phase }
        ensures until { self.new.until ≡ self.old.until }
        ensures calls { calls_of self.new ≡ calls_of self.old }
        ensures held { self.new.held ≡ self.old.held }
        ensures stream { stream_of self.new ≡ stream_of self.old }
    {
        let Some(OwnText { why, sent }) = self.own else {
            return self.http.write_to(&mut self.stream);
        };
        let rest: &[u8] = match why.text().get(sent..) {
            Some(rest) => rest,
            None => b"",
        };
        let count = self.stream.write(rest)?;
        let sent = sent.saturating_add(count);
        self.own = Some(OwnText { why, sent });
        Ok(count)
    }

    /// Whether something is left to send.
    fn has_output(&self) -> bool {
        match self.own {
            Some(own) => own.sent < own.why.text().len(),
            None => self.http.wants_write(),
        }
    }

    /// Goes on behind a write: with the rest of the answer, with the next request, or with the end.
    fn go_on(&mut self, turn: &Turn) -> Step
        requires phase { self.old.phase ≡ Phase.Answering }
        requires time { self.old.until ≡ turn.now.at + LIMIT_MS }
        ensures moves { MayBecome self.old.phase self.new.phase }
        ensures current { result ≢ Step.Gone → turn.now.at < self.new.until }
        ensures time { result ≢ Step.Gone → IsWithinLimit turn.now.at self.new }
        ensures http { self.new.http ≡ self.old.http }
        ensures held { self.new.held ≡ self.old.held }
    {
        if self.has_output() {
            return Step::On;
        }
        if self.own.is_none() && !self.http.is_done() {
            self.phase = Phase::Reading;
            self.is_fresh = true;
            return Step::On;
        }
        // If all that the client sent was read, the close loses nothing.
        let is_read = self.own.is_none() && !self.is_last;
        if is_read || self.ended || self.stream.shutdown(Shutdown::Write).is_err() {
            return Step::Gone;
        }
        self.phase = Phase::Draining;
        self.until = turn.at.milliseconds().saturating_add(DRAIN_MS);
        Step::On
    }
}
