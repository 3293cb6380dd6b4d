//! A link in memory.
ghost use Rattle.std.specs.Prelude.{◌≡◌, ◌+◌, ◌≤◌, MatchBool};

use arrayvec::ArrayVec;
use lg_node::{Link, LinkFault, MAX_DATAGRAM};
use lg_rules::{Addr, Ip};
use lg_testing::local;
use std::sync::atomic::AtomicBool;
use std::sync::atomic::Ordering::SeqCst;

/// A Ping of a for b, numbered 7.
pub(super) const PING_7: &[u8; 13] = b"SL\x01\x01\x01a\x00\x00\x00\x07\x01b\x00";

/// A Ping numbered 8.
const PING_8: &[u8; 13] = b"SL\x01\x01\x01a\x00\x00\x00\x08\x01b\x00";

/// A Ping numbered 7, with the claim that b is alive at 127.0.0.1:7000 with the incarnation 1,000,000,000.
const OUSTING_PING: &[u8; 26] =
    b"SL\x01\x01\x01a\x00\x00\x00\x07\x01b\x01\x01\x01b\x7f\x00\x00\x01\x1b\x58\x3b\x9a\xca\x00";

/// The Acks of b with these numbers.
const ACK_7: &[u8; 11] = b"SL\x01\x03\x01b\x00\x00\x00\x07\x00";

const ACK_8: &[u8; 11] = b"SL\x01\x03\x01b\x00\x00\x00\x08\x00";

/// The Ping of b for c with its first number.
const PING_OF_C: &[u8; 13] = b"SL\x01\x01\x01b\x00\x00\x00\x01\x01c\x00";

/// The Gossip of b that says that it has left, at 127.0.0.1:7000 with the incarnation 0.
const LEFT_OF_B: &[u8; 22] =
    b"SL\x03\x07\x00\x01b\x01\x04\x01b\x04\x7f\x00\x00\x01\x1b\x58\x00\x00\x00\x00";

/// What comes over a link.
#[derive(Clone, Copy)]
pub enum Coming {
    /// No datagram comes in time.
    Nothing,
    /// A datagram of no bytes, which is no packet.
    Empty,
    /// A datagram of one byte, which is no packet.
    OneByte,
    /// A Ping numbered 7.
    Ping7,
    /// A Ping numbered 8.
    Ping8,
    /// A Ping numbered 7, with a claim that nothing can refute.
    OustingPing,
}

impl Coming {
    /// The bytes of the datagram. If none comes, there are no bytes.
    fn bytes(self) -> &'static [u8] {
        match self {
            Coming::Nothing | Coming::Empty => b"",
            Coming::OneByte => b"S",
            Coming::Ping7 => PING_7,
            Coming::Ping8 => PING_8,
            Coming::OustingPing => OUSTING_PING,
        }
    }
}

/// What some bytes spell, among the packets that are looked for.
#[derive(Clone, Copy, PartialEq, Eq)]
pub enum Spelled {
    Ack7,
    Ack8,
    PingOfC,
    LeftOfB,
    Other,
}

impl Spelled {
    /// What these bytes spell.
    fn of(bytes: &[u8]) -> Spelled {
        if bytes == &ACK_7[..] {
            Spelled::Ack7
        } else if bytes == &ACK_8[..] {
            Spelled::Ack8
        } else if bytes == &PING_OF_C[..] {
            Spelled::PingOfC
        } else if bytes == &LEFT_OF_B[..] {
            Spelled::LeftOfB
        } else {
            Spelled::Other
        }
    }
}

/// One call of a link.
#[derive(Clone, Copy, PartialEq, Eq)]
pub enum Call {
    /// It waited for a datagram, at most this many milliseconds.
    Receive {
        limit_ms: u64,
    },
    /// A packet was handed over for a port of 127.0.0.1. The port is 0 if it was for another address. It was sent or
    /// not.
    Send {
        what: Spelled,
        port: u16,
        sent: bool,
    },
}

/// The port of an address at 127.0.0.1, and 0 for another address.
pub(super) fn port_of(to: Addr) -> u16 {
    if to.ip == Ip::V4([127, 0, 0, 1]) {
        to.port
    } else {
        0
    }
}

impl Default for Call {
    ghost is_default = { λ _. Unit {0} };

    fn default() -> Self {
        Call::Receive { limit_ms: 0 }
    }
}

/// What a link does, call by call.
#[derive(Clone, Copy)]
pub struct Script {
    /// What comes first. After the third nothing comes.
    pub first: Coming,
    pub second: Coming,
    pub third: Coming,
    /// At which receiving the loop is told to stop, counted from 1, or 0 if it isn't.
    pub stops_at: u64,
    /// Which call fails, counted from 1, or 0 if none does.
    pub fails_at: u64,
    /// The port of 127.0.0.1 to which nothing can be sent, if there is one.
    pub refuses: Option<u16>,
}

/// A link over which nothing comes, and whose calls don't fail.
pub(super) const QUIET: Script = Script {
    first: Coming::Nothing,
    second: Coming::Nothing,
    third: Coming::Nothing,
    stops_at: 0,
    fails_at: 0,
    refuses: None,
};

impl Script {
    /// What comes at a receiving, counted from 1.
    fn coming(&self, receiving: u64) -> Coming {
        match receiving {
            1 => self.first,
            2 => self.second,
            3 => self.third,
            _ => Coming::Nothing,
        }
    }
}

/// A link that does what its script says, and keeps its first 16 calls.
#[derive(Drop)]
pub(super) struct MemoryLink<'a> {
    script: Script,
    stop: &'a AtomicBool,
    /// How many calls were made.
    made: u64,
    /// How many of them waited for a datagram.
    pub(super) received: u64,
    pub(super) calls: ArrayVec<Call, 16>,
    pub(super) failures: u64,
}

impl<'a> MemoryLink<'a> {
    /// A link that wasn't called yet.
    pub(super) fn new(script: Script, stop: &'a AtomicBool) -> MemoryLink<'a> {
        MemoryLink {
            script,
            stop,
            made: 0,
            received: 0,
            calls: ArrayVec::new(),
            failures: 0,
        }
    }

    /// Counts a call, which may be one that is refused. Returns whether it fails; a failure is counted too.
    fn fails(&mut self, is_refused: bool) -> bool
        ensures { MatchBool result (self.new.failures ≡ self.old.failures + 1)
            (self.new.failures ≡ self.old.failures) }
    {
        self.made = self.made.saturating_add(1);
        let fails = is_refused || self.made == self.script.fails_at;
        if !fails || self.failures == u64::MAX {
            return false;
        }
        self.failures += 1;
        true
    }

    /// Keeps a call, if there is room.
    fn keep(&mut self, call: Call)
        ensures { self.new.failures ≡ self.old.failures }
    {
        if !self.calls.is_full() {
            self.calls.push(call);
        }
    }

    /// What comes next.
    fn next(&mut self) -> Coming
        ensures { self.new.failures ≡ self.old.failures }
    {
        self.received = self.received.saturating_add(1);
        if self.received == self.script.stops_at {
            self.stop.store(true, SeqCst);
        }
        self.script.coming(self.received)
    }
}

/// Copies bytes to the front of a buffer. Returns how many.
pub(super) fn put(buffer: &mut [u8; MAX_DATAGRAM], bytes: &[u8]) -> usize
    ensures { result ≤ MAX_DATAGRAM }
{
    let length = bytes.len().min(MAX_DATAGRAM);
    buffer[..length].copy_from_slice(&bytes[..length]);
    length
}

impl<'a> Link for MemoryLink<'a> {
    ghost use Rattle.std.specs.Prelude.{false, []};

    ghost tells = { false };

    ghost log = { λ l. [] };

    ghost failed = { λ l. l.failures };

    fn send(&mut self, to: Addr, bytes: &[u8]) -> Result<(), LinkFault> {
        let port = port_of(to);
        let refuses = self.script.refuses;
        let fails = self.fails(refuses == Some(port));
        self.keep(Call::Send {
            what: Spelled::of(bytes),
            port,
            sent: !fails,
        });
        if fails { Err(LinkFault) } else { Ok(()) }
    }

    /// Each datagram comes from 127.0.0.1:7001.
    fn receive(
        &mut self,
        buffer: &mut [u8; MAX_DATAGRAM],
        limit_ms: u64,
    ) -> Result<Option<(Addr, usize)>, LinkFault> {
        let coming = self.next();
        let fails = self.fails(false);
        self.keep(Call::Receive { limit_ms });
        if fails {
            return Err(LinkFault);
        }
        match coming {
            Coming::Nothing => Ok(None),
            _ => Ok(Some((local(7001), put(buffer, coming.bytes())))),
        }
    }

    fn failures(&self) -> u64 {
        self.failures
    }
}
