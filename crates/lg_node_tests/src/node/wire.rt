//! A link in memory under a keyed one, and the keys and the datagrams of its tests.
ghost use Rattle.std.specs.Prelude.{◌≡◌, ◌+◌, MatchBool};

use super::links::{port_of, put};
use arrayvec::ArrayVec;
use lg_node::{Counted, Link, LinkFault, MAX_DATAGRAM};
use lg_rules::Addr;
use lg_seal::{GroupKey, Keys};
use lg_testing::local;

/// The key `00 01 .. 1f`.
pub(super) const FIRST: [u8; 32] =
    *b"\x00\x01\x02\x03\x04\x05\x06\x07\x08\x09\x0a\x0b\x0c\x0d\x0e\x0f\
    \x10\x11\x12\x13\x14\x15\x16\x17\x18\x19\x1a\x1b\x1c\x1d\x1e\x1f";

/// The key `c0 c1 .. df`.
pub(super) const SECOND: [u8; 32] =
    *b"\xc0\xc1\xc2\xc3\xc4\xc5\xc6\xc7\xc8\xc9\xca\xcb\xcc\xcd\xce\xcf\
    \xd0\xd1\xd2\xd3\xd4\xd5\xd6\xd7\xd8\xd9\xda\xdb\xdc\xdd\xde\xdf";

/// The Ping numbered 7, sealed with the first key. The tags of these constants are those of the module `hmac` of
/// Python.
pub(super) const SEALED: &[u8] = b"LK\x01SL\x01\x01\x01a\x00\x00\x00\x07\x01b\x00\
    \x67\xae\xea\x53\xab\x87\x50\x65\xc3\xb8\x5b\xc2\x84\x04\x6d\x0f";

/// The same, sealed with the second key.
pub(super) const SEALED_SECOND: &[u8] = b"LK\x01SL\x01\x01\x01a\x00\x00\x00\x07\x01b\x00\
    \x14\x27\x90\x39\x14\x9d\x24\x3d\x69\x97\xa8\x0b\x0c\x60\x98\xd7";

/// The same, sealed with the key `40 41 .. 5f`, which no link here has.
pub(super) const SEALED_OTHER: &[u8] = b"LK\x01SL\x01\x01\x01a\x00\x00\x00\x07\x01b\x00\
    \x20\xd2\xf6\x88\x13\x02\x4a\xc2\xda\xba\x18\x12\xf5\xe9\x1b\x58";

/// The same, sealed with the first key in version 2 of the wrapper, which there isn't.
pub(super) const SEALED_VERSION_2: &[u8] = b"LK\x02SL\x01\x01\x01a\x00\x00\x00\x07\x01b\x00\
    \xa4\x1a\x0b\xd3\x08\xe4\xda\x27\xdb\xb0\x6a\x3d\xbc\xdb\x6b\x02";

/// No bytes, sealed with the first key.
pub(super) const SEALED_NOTHING: &[u8] = b"LK\x01\
    \x27\x04\x5b\xb3\xe4\x47\x59\xb7\xbe\xda\x1a\x79\x3b\xd0\xe0\x59";

/// What a receiving of a link comes to.
#[derive(Clone, Copy)]
pub enum Arrival<'a> {
    /// A datagram with these bytes, from 127.0.0.1:7001.
    Datagram(&'a [u8]),
    /// No datagram comes in time.
    Nothing,
    /// Receiving fails.
    Fault,
}

/// A link over which one thing comes after another, and then nothing. It keeps what was handed to it last.
#[derive(Drop)]
pub(super) struct Wire<'a> {
    coming: &'a [Arrival<'a>],
    /// How many of these have come.
    come: usize,
    /// Whether nothing can be sent.
    pub(super) is_cut: bool,
    /// How many datagrams were handed over.
    pub(super) handed: u64,
    /// The port and the bytes of the last one.
    pub(super) port: u16,
    pub(super) bytes: ArrayVec<u8, MAX_DATAGRAM>,
    /// How long the last call of `receive` was to wait, in milliseconds.
    pub(super) limit_ms: u64,
    failures: u64,
}

impl<'a> Wire<'a> {
    /// A link over which these come.
    pub(super) fn new(coming: &'a [Arrival<'a>]) -> Wire<'a> {
        Wire {
            coming,
            come: 0,
            is_cut: false,
            handed: 0,
            port: 0,
            bytes: ArrayVec::new(),
            limit_ms: 0,
            failures: 0,
        }
    }

    /// What comes next.
    fn next(&mut self) -> Arrival<'a>
        ensures { self.new.failures ≡ self.old.failures }
    {
        let next = self.coming.get(self.come).copied();
        self.come = self.come.saturating_add(1);
        next.unwrap_or(Arrival::Nothing)
    }

    /// Counts a failure, if a number is left for it. Returns whether it did.
    fn count(&mut self) -> bool
        ensures { MatchBool result (self.new.failures ≡ self.old.failures + 1)
            (self.new.failures ≡ self.old.failures) }
    {
        if self.failures == u64::MAX {
            return false;
        }
        self.failures += 1;
        true
    }

    /// Keeps what was handed over, if there is room.
    fn keep(&mut self, to: Addr, bytes: &[u8])
        ensures { self.new.failures ≡ self.old.failures }
    {
        self.handed = self.handed.saturating_add(1);
        self.port = port_of(to);
        self.bytes.clear();
        let _full = self.bytes.try_extend_from_slice(bytes).is_err();
    }
}

impl<'a> Link for Wire<'a> {
    ghost use Rattle.std.specs.Prelude.{false, []};

    ghost tells = { false };

    ghost log = { λ l. [] };

    ghost failed = { λ l. l.failures };

    fn send(&mut self, to: Addr, bytes: &[u8]) -> Result<(), LinkFault> {
        self.keep(to, bytes);
        if self.is_cut && self.count() {
            return Err(LinkFault);
        }
        Ok(())
    }

    fn receive(
        &mut self,
        buffer: &mut [u8; MAX_DATAGRAM],
        limit_ms: u64,
    ) -> Result<Option<(Addr, usize)>, LinkFault> {
        self.limit_ms = limit_ms;
        match self.next() {
            Arrival::Datagram(bytes) => Ok(Some((local(7001), put(buffer, bytes)))),
            Arrival::Fault if self.count() => Err(LinkFault),
            _ => Ok(None),
        }
    }

    fn failures(&self) -> u64 {
        self.failures
    }
}

/// One key.
pub(super) fn only(bytes: [u8; 32]) -> Keys {
    Keys {
        first: GroupKey::new(bytes),
        second: None,
    }
}

/// Two keys, of which the first signs.
pub(super) fn both(first: [u8; 32], second: [u8; 32]) -> Keys {
    Keys {
        first: GroupKey::new(first),
        second: Some(GroupKey::new(second)),
    }
}

/// These counts.
pub(super) const fn counts(unsigned: u64, forged: u64) -> Counted {
    Counted { unsigned, forged }
}
