//! The link of a node: over UDP, with keys or without.
//!
//! Defined in: `specs/Meaning/NodeLinks.antt`, `specs/Meaning/Turns.antt`.
//! Tested in: `lg_node_tests/src/node/asking.rt`, `cases/nodes`, `cases/keys`.
ghost use Rattle.std.specs.Prelude.{◌≡◌, ◌+◌, ◌≤◌, IfOk, IfSome, OnErr, OnOk, option_copied};

use crate::keyed::{Counted, KeyedLink};
use crate::link::{Link, LinkFault, MAX_DATAGRAM};
use crate::udp::UdpLink;
use lg_counters::Counters;
use lg_rules::Addr;
use lg_seal::Keys;

/// A keyed link over UDP. What it drops is counted for the status server.
#[derive(Drop)]
pub struct NotedLink<'s, 'c> {
    link: KeyedLink<UdpLink<'s>>,
    counters: &'c Counters,
}

/// A link over UDP, with keys or without.
#[derive(Drop)]
pub enum NodeLink<'s, 'c> {
    /// Datagrams go as they are.
    Plain(UdpLink<'s>),
    /// Only sealed datagrams go.
    Keyed(NotedLink<'s, 'c>),
}

/// Notes what a keyed link has dropped from some counts to others.
fn note_dropped(counters: &Counters, before: Counted, after: Counted) {
    if after.unsigned != before.unsigned {
        counters.note_unsigned();
    }
    if after.forged != before.forged {
        counters.note_forged();
    }
}

impl<'s, 'c> NotedLink<'s, 'c> {
    /// As [`Link::receive`].
    fn receive(
        &mut self,
        buffer: &mut [u8; MAX_DATAGRAM],
        limit_ms: u64,
    ) -> Result<Option<(Addr, usize)>, LinkFault>
        ensures fits { IfOk result (λ o. IfSome o (λ came. came.1 ≤ MAX_DATAGRAM)) }
        ensures received { OnOk result (self.new.link.inner.failures ≡ self.old.link.inner.failures) }
        ensures failed { OnErr result (self.new.link.inner.failures ≡ self.old.link.inner.failures + 1) }
    {
        let before = self.link.counted();
        let received = self.link.receive(buffer, limit_ms);
        note_dropped(self.counters, before, self.link.counted());
        received
    }
}

impl<'s, 'c> NodeLink<'s, 'c> {
    ghost use Rattle.lg_turns.specs.Meaning.NodeLinks.{link_keys, udp_of};

    /// A link that uses this one: with exactly these keys if there are any, and else without.
    pub fn new(udp: UdpLink<'s>, keys: Option<&Keys>, counters: &'c Counters) -> NodeLink<'s, 'c>
        ensures keys { link_keys result ≡ option_copied keys.entry }
        ensures inner { udp_of result ≡ udp.entry }
    {
        match keys {
            Some(keys) => NodeLink::Keyed(NotedLink {
                link: KeyedLink::new(udp, keys),
                counters,
            }),
            None => NodeLink::Plain(udp),
        }
    }
}

impl<'s, 'c> Link for NodeLink<'s, 'c> {
    ghost use Rattle.std.specs.Prelude.{false, []};
    ghost use Rattle.lg_turns.specs.Meaning.NodeLinks.{failures_of};

    ghost tells = { false };

    ghost log = { λ l. [] };

    ghost failed = { λ l. failures_of l };

    fn send(&mut self, to: Addr, bytes: &[u8]) -> Result<(), LinkFault> {
        match self {
            NodeLink::Plain(udp) => udp.send(to, bytes),
            NodeLink::Keyed(noted) => noted.link.send(to, bytes),
        }
    }

    fn receive(
        &mut self,
        buffer: &mut [u8; MAX_DATAGRAM],
        limit_ms: u64,
    ) -> Result<Option<(Addr, usize)>, LinkFault> {
        match self {
            NodeLink::Plain(udp) => udp.receive(buffer, limit_ms),
            NodeLink::Keyed(noted) => noted.receive(buffer, limit_ms),
        }
    }

    fn failures(&self) -> u64 {
        match self {
            NodeLink::Plain(udp) => udp.failures(),
            NodeLink::Keyed(noted) => noted.link.failures(),
        }
    }
}
