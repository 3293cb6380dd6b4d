//! Giving the connection what was held back.
//!
//! Defined in: `specs/Meaning/Peers.antt`.
//! Tested in: `lg_http_tests/src/serving.rt`.
ghost use Rattle.std.specs.Prelude.{◌≡◌, ◌≢◌, ◌≤◌, ◌<◌, ◌+◌, length, IfOk, OnErr};
ghost use Rattle.http_server.specs.Connection.{config_of, history};
ghost use Rattle.http_server.specs.History.{Rests};
ghost use Rattle.lg_http.specs.Meaning.Answers.{AddsCalls, RepliesAmong};
ghost use Rattle.lg_http.specs.Meaning.Phases.{IsGiven};
ghost use Rattle.lg_http.specs.Meaning.Peers.{stream_of, calls_of, Answers};

use super::{LIMIT_MS, OwnText, Peer, Phase, Step, Turn};
use crate::desk::Desk;
use crate::own::OwnRefusal;
use crate::site::Site;
use bytes::Buf;
use http_server::Connection;
use std::io;

/// Has a connection answer what it was given.
fn advance<S: Site>(http: &mut Connection, desk: &mut Desk<S>)
    requires { desk.old.version ≡ S.version desk.old.site }
    ensures answers { AddsCalls (RepliesAmong S.answers S.acts S.version S.waits desk.old.hosts desk.old.others
        desk.old.is_loopback) desk.old.site (history http.old).calls (history http.new).calls }
    ensures site { desk.new.site ≡ desk.old.site }
    ensures hosts { desk.new.hosts ≡ desk.old.hosts }
    ensures rests { Rests (config_of http.new) (history http.new) }
    ensures received { (history http.new).received ≡ (history http.old).received }
{
    http.advance(desk);
}

impl Peer {
    /// Gives the connection the first bytes that are held, and has it answer.
    pub(super) fn give<S: Site>(&mut self, desk: &mut Desk<S>, turn: &Turn, len: usize) -> Step
        requires length { len ≤ length self.old.held.items }
        requires version { turn.now.version ≡ S.version desk.old.site }
        ensures phase { result ≢ Step.Gone → IsGiven self.new.phase }
        ensures time { result ≢ Step.Gone → self.new.until ≡ turn.now.at + LIMIT_MS }
        // Each whole request that the connection was given is answered now.
        ensures rests { result ≢ Step.Gone → Rests (config_of self.new.http) (history self.new.http) }
        ensures stream { stream_of self.new ≡ stream_of self.old }
        ensures answers { Answers (RepliesAmong S.answers S.acts S.version S.waits desk.old.hosts turn.now.others
            turn.now.is_loopback) desk.old.site self.old self.new }
        ensures site { desk.new.site ≡ desk.old.site }
        ensures hosts { desk.new.hosts ≡ desk.old.hosts }
        ensures bounded { length self.new.held.items ≤ length self.old.held.items }
    {
        if self.feed(len).is_err() {
            return Step::Gone;
        }
        desk.version = turn.version;
        desk.others = turn.others;
        desk.is_loopback = turn.is_loopback;
        advance(&mut self.http, desk);
        self.until = turn.at.milliseconds().saturating_add(LIMIT_MS);
        self.turn_to_answer()
    }

    /// Goes on to send what the connection has to say, if it has.
    fn turn_to_answer(&mut self) -> Step
        ensures phase { result ≢ Step.Gone → IsGiven self.new.phase }
        ensures http { self.new.http ≡ self.old.http }
        ensures held { self.new.held ≡ self.old.held }
        ensures until { self.new.until ≡ self.old.until }
    {
        if let Some(why) = OwnRefusal::found_in(self.http.state()) {
            self.own = Some(OwnText { why, sent: 0 });
        } else if self.http.is_done() {
            return Step::Gone;
        } else if !self.http.wants_write() {
            self.phase = Phase::Reading;
            self.is_fresh = !self.held.is_empty();
            return Step::On;
        }
        self.phase = Phase::Answering;
        Step::On
    }

    /// Gives the connection some of the first bytes that are held.
    fn feed_once(&mut self, len: usize) -> io::Result<usize>
        requires { len ≤ length self.old.held.items }
        ensures stream { stream_of self.new ≡ stream_of self.old }
        ensures calls { calls_of self.new ≡ calls_of self.old }
        ensures count { IfOk result (λ n. length self.old.held.items ≡ n + length self.new.held.items) }
        ensures bound { IfOk result (λ n. n ≤ len) }
        ensures err { OnErr result (self.new.held.items ≡ self.old.held.items) }
    {
        let mut bytes = &self.held.as_slice()[..len];
        let count = self.http.read_from(&mut bytes)?;
        self.held.advance(count);
        Ok(count)
    }

    /// Gives the connection the first bytes that are held, and tells it of the end if that has come.
    fn feed(&mut self, len: usize) -> io::Result<()>
        requires { len ≤ length self.old.held.items }
        ensures stream { stream_of self.new ≡ stream_of self.old }
        ensures calls { calls_of self.new ≡ calls_of self.old }
        ensures bounded { length self.new.held.items ≤ length self.old.held.items }
    {
        let mut left = len;
        for _ in 0..len {
            if left == 0 {
                break;
            }
            left -= self.feed_once(left)?;
        }
        if self.ended && self.held.is_empty() {
            let mut nothing: &[u8] = b"";
            self.http.read_from(&mut nothing)?;
        }
        Ok(())
    }
}
