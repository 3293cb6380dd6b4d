//! Two loops that meet: neither can end by itself. The ticking loop's first packet waits until the other loop receives.
//! That receiving waits until the packet is handed over. Each waits ten seconds at most.
ghost use Rattle.std.specs.Prelude.{◌≡◌, ◌+◌, MatchBool};

use super::links::put;
use lg_clock::Clock;
use lg_node::{Link, LinkFault, MAX_DATAGRAM};
use lg_rules::Addr;
use lg_testing::{at, local};
use lg_timing::Moment;
use std::sync::atomic::AtomicBool;
use std::sync::atomic::Ordering::SeqCst;
use std::time::Duration;
use std::{rt, thread};

/// How many milliseconds one loop waits for the other at most.
const PATIENCE_MS: u64 = 10_000;

/// A Ping of a numbered 7, with the claim that d is alive at 127.0.0.1:7004 with the incarnation 0.
const PING_OF_D: &[u8; 26] =
    b"SL\x01\x01\x01a\x00\x00\x00\x07\x01b\x01\x01\x01d\x7f\x00\x00\x01\x1b\x5c\x00\x00\x00\x00";

/// What the loops wait for.
#[derive(Drop)]
pub struct Meeting {
    /// A packet was handed over.
    sent: AtomicBool,
    /// After that, a datagram was waited for.
    received: AtomicBool,
    /// The loops are to stop.
    pub stop: AtomicBool,
}

impl Meeting {
    /// What the loops wait for, as they begin.
    pub fn new() -> Meeting {
        Meeting {
            sent: AtomicBool::new(false),
            received: AtomicBool::new(false),
            stop: AtomicBool::new(false),
        }
    }

    /// Waits until one of its flags is set, the loops are to stop, or patience ends. Returns whether that flag is set.
    fn waits_for<R: rt::Clock>(&self, rt: &R, flag: &AtomicBool) -> bool {
        for _ in 0..PATIENCE_MS {
            if flag.load(SeqCst) {
                return true;
            }
            if self.stop.load(SeqCst) {
                return false;
            }
            thread::sleep(rt, Duration::from_millis(1));
        }
        false
    }
}

/// A link that waits for the other loop.
#[derive(Drop)]
pub struct MeetingLink<'a, R> {
    rt: &'a R,
    meeting: &'a Meeting,
    /// Which call fails, counted from 1, or 0 if none does.
    fails_at: u64,
    /// How many calls were made.
    made: u64,
    /// How many of them waited for a datagram.
    received: u64,
    /// How often a call failed.
    pub failures: u64,
}

impl<'a, R> MeetingLink<'a, R> {
    /// A link of one loop.
    pub fn new(rt: &'a R, meeting: &'a Meeting, fails_at: u64) -> MeetingLink<'a, R> {
        MeetingLink {
            rt,
            meeting,
            fails_at,
            made: 0,
            received: 0,
            failures: 0,
        }
    }

    /// Counts a call that met the other loop or didn't. Returns whether it fails; a failure is counted too.
    fn fails(&mut self, met: bool) -> bool
        ensures { MatchBool result (self.new.failures ≡ self.old.failures + 1)
            (self.new.failures ≡ self.old.failures) }
    {
        self.made = self.made.saturating_add(1);
        let fails = !met || self.made == self.fails_at;
        if !fails || self.failures == u64::MAX {
            return false;
        }
        self.failures += 1;
        true
    }

    /// Which receiving this is, counted from 1.
    fn next(&mut self) -> u64
        ensures { self.new.failures ≡ self.old.failures }
    {
        self.received = self.received.saturating_add(1);
        self.received
    }
}

impl<'a, R: rt::Clock> MeetingLink<'a, R> {
    /// Waits in the first receiving until a packet was handed over, and says that a datagram is waited for. Returns
    /// whether one was handed over.
    fn meet(&self) -> bool {
        let met = self.meeting.waits_for(self.rt, &self.meeting.sent);
        self.meeting.received.store(met, SeqCst);
        met
    }
}

impl<'a, R: rt::Clock> Link for MeetingLink<'a, R> {
    ghost use Rattle.std.specs.Prelude.{false, []};

    ghost tells = { false };

    ghost log = { λ l. [] };

    ghost failed = { λ l. l.failures };

    /// Fails if the other loop doesn't receive.
    fn send(&mut self, _to: Addr, _bytes: &[u8]) -> Result<(), LinkFault> {
        self.meeting.sent.store(true, SeqCst);
        let met = self.meeting.waits_for(self.rt, &self.meeting.received);
        if self.fails(met) {
            Err(LinkFault)
        } else {
            Ok(())
        }
    }

    /// The first one fails if no packet was handed over. At the second the loops are told to stop, unless it fails.
    fn receive(
        &mut self,
        buffer: &mut [u8; MAX_DATAGRAM],
        _limit_ms: u64,
    ) -> Result<Option<(Addr, usize)>, LinkFault> {
        let is_first = self.next() == 1;
        let met = !is_first || self.meet();
        if self.fails(met) {
            return Err(LinkFault);
        }
        if is_first {
            return Ok(Some((local(7001), put(buffer, PING_OF_D))));
        }
        self.meeting.stop.store(true, SeqCst);
        Ok(None)
    }

    fn failures(&self) -> u64 {
        self.failures
    }
}

/// A clock at which it is always 0. Its pauses last a millisecond.
#[derive(Drop)]
pub struct StandingClock<'a, R> {
    pub rt: &'a R,
}

impl<'a, R: rt::Clock> Clock for StandingClock<'a, R> {
    fn now(&self) -> Moment {
        at(0)
    }

    fn pause(&self, _ms: u64) {
        thread::sleep(self.rt, Duration::from_millis(1));
    }
}
