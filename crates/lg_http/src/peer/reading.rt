//! Reading from a client, and what is done with a request.
//!
//! Defined in: `specs/Meaning/Phases.antt`, `specs/Meaning/Peers.antt`.
//! Tested in: `lg_http_tests/src/serving.rt`, `lg_http_tests/src/late.rt`.
ghost use Rattle.std.specs.Prelude.{◌≡◌, ◌≢◌, ◌≤◌, ◌<◌, ◌+◌, ◌⊎◌, length, MatchOption};
ghost use Rattle.lg_http.specs.declared.peer.Phase.TheVariants.{Parked};
ghost use Rattle.lg_http.specs.Meaning.Answers.{RepliesAmong};
ghost use Rattle.lg_http.specs.Meaning.Phases.{MayBecome, IsAwake};
ghost use Rattle.lg_http.specs.Meaning.Peers.{GoesOn, Answers, IsCurrent, IsBounded, KeepsTime, WaitsFrom};
ghost use Rattle.lg_http.specs.Meaning.Peers.{calls_of, stream_of};

use super::{MAX_WAIT_MS, Peer, Phase, ROOM, Step, Turn};
use crate::desk::Desk;
use crate::gate::{Front, MAX_HEAD, look_at};
use crate::site::{Site, Wait};
use crate::slots::MAX_PARKED;
use std::io::Read;

impl Peer {
    /// Reads once from the socket, if there is room.
    fn receive(&mut self) -> Step
        ensures phase { self.new.phase ≡ self.old.phase }
        ensures until { self.new.until ≡ self.old.until }
        ensures calls { calls_of self.new ≡ calls_of self.old }
        ensures stream { GoesOn self.old self.new }
        ensures bounded { IsBounded self.old → IsBounded self.new }
    {
        if !self.can_read || self.held.len() >= MAX_HEAD {
            return Step::Wait;
        }
        let mut room = [0; ROOM];
        match self.stream.read(&mut room) {
            Ok(count) => {
                self.ended = count == 0;
                self.is_fresh = true;
                match self.held.extend_from_slice(&room[..count]) {
                    Ok(()) => Step::On,
                    Err(_) => Step::Gone,
                }
            }
            Err(e) => Step::after_failure(e.kind(), &mut self.can_read),
        }
    }

    /// Reads what nobody wants any more.
    pub(super) fn drain(&mut self) -> Step
        ensures phase { self.new.phase ≡ self.old.phase }
        ensures until { self.new.until ≡ self.old.until }
        ensures calls { calls_of self.new ≡ calls_of self.old }
        ensures bounded { IsBounded self.new }
    {
        self.held.clear();
        if self.ended {
            return Step::Gone;
        }
        self.receive()
    }

    /// A step of a long poll. One whose client has sent all that it will is closed: the client may be gone.
    #[tactic(auto, using(crate::proofs::ChainLaws::adds_nothing))]
    pub(super) fn wait<S: Site>(&mut self, desk: &mut Desk<S>, turn: &Turn, after: u64) -> Step
        requires phase { self.old.phase ≡ Parked after }
        requires version { turn.now.version ≡ S.version desk.old.site }
        ensures moves { result ≢ Step.Gone → MayBecome self.old.phase self.new.phase }
        ensures current { result ≢ Step.Gone → IsCurrent turn.now.at turn.now.version self.new }
        ensures came { after < turn.now.version → result ≢ Step.Gone → IsAwake self.new.phase }
        ensures over { self.old.until ≤ turn.now.at → result ≢ Step.Gone → IsAwake self.new.phase }
        ensures time { result ≢ Step.Gone → KeepsTime turn.now.at self.old self.new }
        ensures stream { GoesOn self.old self.new }
        ensures answers { Answers (RepliesAmong S.answers S.acts S.version S.waits desk.old.hosts turn.now.others
            turn.now.is_loopback) desk.old.site self.old self.new }
        ensures site { desk.new.site ≡ desk.old.site }
        ensures hosts { desk.new.hosts ≡ desk.old.hosts }
        ensures bounded { IsBounded self.old → IsBounded self.new }
    {
        if after < turn.version || turn.at.milliseconds() >= self.until {
            // What is held has only grown since the request was parked, so all of it is there.
            let len = self.front.min(self.held.len());
            return self.give(desk, turn, len);
        }
        if self.ended {
            return Step::Gone;
        }
        self.receive()
    }

    /// A step of reading a request.
    pub(super) fn read<S: Site>(&mut self, desk: &mut Desk<S>, turn: &Turn) -> Step
        requires phase { self.old.phase ≡ Phase.Reading }
        requires timely { turn.now.at < self.old.until }
        requires version { turn.now.version ≡ S.version desk.old.site }
        ensures moves { result ≢ Step.Gone → MayBecome self.old.phase self.new.phase }
        ensures current { result ≢ Step.Gone → IsCurrent turn.now.at turn.now.version self.new }
        ensures parks { MAX_PARKED ≤ turn.now.others → result ≢ Step.Gone → IsAwake self.new.phase }
        ensures time { result ≢ Step.Gone → KeepsTime turn.now.at self.old self.new }
        ensures stream { GoesOn self.old self.new }
        ensures answers { Answers (RepliesAmong S.answers S.acts S.version S.waits desk.old.hosts turn.now.others
            turn.now.is_loopback) desk.old.site self.old self.new }
        ensures site { desk.new.site ≡ desk.old.site }
        ensures hosts { desk.new.hosts ≡ desk.old.hosts }
        ensures bounded { IsBounded self.old → IsBounded self.new }
    {
        if !self.is_fresh {
            return self.receive();
        }
        self.is_fresh = false;
        let len = self.held.len();
        if self.is_last {
            return self.give(desk, turn, len);
        }
        match look_at(&desk.site, self.held.as_slice()) {
            Front::Request(front, wait) => self.begin(desk, turn, front, wait),
            Front::Partial if !self.ended => Step::On,
            Front::Partial if len == 0 => Step::Gone,
            Front::Partial | Front::Other => {
                self.is_last = true;
                self.give(desk, turn, len)
            }
        }
    }

    /// Answers the request at the front, or parks it. One that too many others keep from waiting is answered so.
    #[tactic(auto, using(crate::proofs::ChainLaws::adds_nothing))]
    fn begin<S: Site>(
        &mut self,
        desk: &mut Desk<S>,
        turn: &Turn,
        front: usize,
        wait: Option<Wait>,
    ) -> Step
        requires phase { self.old.phase ≡ Phase.Reading }
        requires front { front ≤ length self.old.held.items }
        requires version { turn.now.version ≡ S.version desk.old.site }
        ensures moves { result ≢ Step.Gone → MayBecome self.old.phase self.new.phase }
        ensures current { result ≢ Step.Gone → IsCurrent turn.now.at turn.now.version self.new }
        ensures parks { MAX_PARKED ≤ turn.now.others → result ≢ Step.Gone → IsAwake self.new.phase }
        ensures waits { result ≢ Step.Gone → IsAwake self.new.phase
            ⊎ MatchOption wait ⊥ (λ w. WaitsFrom turn.now.at w self.new) }
        ensures time { result ≢ Step.Gone → KeepsTime turn.now.at self.old self.new }
        ensures stream { stream_of self.new ≡ stream_of self.old }
        ensures answers { Answers (RepliesAmong S.answers S.acts S.version S.waits desk.old.hosts turn.now.others
            turn.now.is_loopback) desk.old.site self.old self.new }
        ensures site { desk.new.site ≡ desk.old.site }
        ensures hosts { desk.new.hosts ≡ desk.old.hosts }
        ensures bounded { IsBounded self.old → IsBounded self.new }
    {
        match wait {
            Some(wait) if wait.lasts_at(turn.version) && turn.others < MAX_PARKED => {
                self.phase = Phase::Parked(wait.after);
                self.front = front;
                self.until = turn
                    .at
                    .milliseconds()
                    .saturating_add(wait.wait_ms.min(MAX_WAIT_MS));
                Step::On
            }
            _ => self.give(desk, turn, front),
        }
    }
}
