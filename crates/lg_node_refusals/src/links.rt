//! A link and clocks that never fail.
ghost use Rattle.std.specs.Prelude.{◌≤◌};

use lg_clock::Clock;
use lg_node::{Link, LinkFault, MAX_DATAGRAM};
use lg_rules::Addr;
use lg_testing::{at, local};
use lg_timing::Moment;
use std::sync::atomic::Ordering::SeqCst;
use std::sync::atomic::{AtomicBool, AtomicU64};
use std::time::Duration;
use std::{rt, thread};

/// A Ping of a numbered 7, with the claim that d is alive at 127.0.0.1:7004 with the incarnation 0.
const PING_OF_D: &[u8; 26] =
    b"SL\x01\x01\x01a\x00\x00\x00\x07\x01b\x01\x01\x01d\x7f\x00\x00\x01\x1b\x5c\x00\x00\x00\x00";

/// A Ping of a numbered 8.
const PING_8: &[u8; 13] = b"SL\x01\x01\x01a\x00\x00\x00\x08\x01b\x00";

/// How many milliseconds one loop waits for the other at most.
const PATIENCE_MS: u64 = 10_000;

/// By what the loops of a node see each other.
#[derive(Drop)]
pub struct Signs {
    /// The loops are to stop.
    pub stop: AtomicBool,
    /// A packet was handed over, or nobody waits for that.
    sent: AtomicBool,
}

impl Signs {
    /// The signs as the loops begin. A first receiving waits for a packet of the other loop, if there is one.
    pub fn new(are_two: bool) -> Signs {
        Signs {
            stop: AtomicBool::new(false),
            sent: AtomicBool::new(!are_two),
        }
    }

    /// Waits until a packet was handed over, the loops are to stop, or patience ends.
    fn wait<R: rt::Clock>(&self, rt: &R) {
        for _ in 0..PATIENCE_MS {
            if self.sent.load(SeqCst) || self.stop.load(SeqCst) {
                return;
            }
            thread::sleep(rt, Duration::from_millis(1));
        }
    }
}

/// A link over which two Pings come. At the second the loops are told to stop.
#[derive(Drop)]
pub struct PingLink<'m, R> {
    rt: &'m R,
    signs: &'m Signs,
    /// How often a datagram was waited for.
    received: u64,
    /// How many packets were handed over.
    pub handed: usize,
}

impl<'m, R> PingLink<'m, R> {
    /// A link that wasn't called yet.
    pub fn new(rt: &'m R, signs: &'m Signs) -> PingLink<'m, R> {
        PingLink {
            rt,
            signs,
            received: 0,
            handed: 0,
        }
    }
}

/// Copies bytes to the front of a buffer. Returns how many.
fn put(buffer: &mut [u8; MAX_DATAGRAM], bytes: &[u8]) -> usize
    ensures { result ≤ MAX_DATAGRAM }
{
    let length = bytes.len().min(MAX_DATAGRAM);
    buffer[..length].copy_from_slice(&bytes[..length]);
    length
}

impl<'m, R: rt::Clock> Link for PingLink<'m, R> {
    ghost use Rattle.std.specs.Prelude.{false, []};

    ghost tells = { false };

    ghost log = { λ l. [] };

    ghost failed = { λ l. 0 };

    fn send(&mut self, _to: Addr, _bytes: &[u8]) -> Result<(), LinkFault> {
        self.signs.sent.store(true, SeqCst);
        self.handed = self.handed.saturating_add(1);
        Ok(())
    }

    /// Each datagram comes from 127.0.0.1:7001.
    fn receive(
        &mut self,
        buffer: &mut [u8; MAX_DATAGRAM],
        _limit_ms: u64,
    ) -> Result<Option<(Addr, usize)>, LinkFault> {
        self.received = self.received.saturating_add(1);
        if self.received == 1 {
            self.signs.wait(self.rt);
            return Ok(Some((local(7001), put(buffer, PING_OF_D))));
        }
        self.signs.stop.store(true, SeqCst);
        if self.received == 2 {
            return Ok(Some((local(7001), put(buffer, PING_8))));
        }
        Ok(None)
    }

    fn failures(&self) -> u64 {
        0
    }
}

/// A clock that begins at 0, and goes on by its pauses alone, which take no time.
#[derive(Drop)]
pub struct MovingClock {
    now: AtomicU64,
}

impl MovingClock {
    /// A clock at 0.
    pub fn new() -> MovingClock {
        MovingClock {
            now: AtomicU64::new(0),
        }
    }
}

impl Clock for MovingClock {
    fn now(&self) -> Moment {
        at(self.now.load(SeqCst))
    }

    fn pause(&self, ms: u64) {
        self.now.fetch_add(ms, SeqCst);
    }
}

/// A clock at which it is always 0. Its pauses last a millisecond.
#[derive(Drop)]
pub struct StandingClock<'m, R> {
    pub rt: &'m R,
}

impl<'m, R: rt::Clock> Clock for StandingClock<'m, R> {
    fn now(&self) -> Moment {
        at(0)
    }

    fn pause(&self, _ms: u64) {
        thread::sleep(self.rt, Duration::from_millis(1));
    }
}
