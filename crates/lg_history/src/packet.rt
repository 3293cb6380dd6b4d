//! Packets, in as much memory as their claims need.
//!
//! Defined in: this file.
//! Tested in: `lg_agent_tests/src/history/entries.rt`.
ghost use Rattle.std.specs.Prelude.{◌≡◌, IfOk};

use arrayvec::ArrayVec;
use lg_detector::{NoMemory, Outgoing};
use lg_packet::{Body, Packet, Version};
use lg_rules::{Addr, Claim, Name};
use std::alloc::Global;
use std::marker::Model;

/// A packet whose claims are in a list of exactly their number. A contract sees it as the packet.
#[derive(Drop)]
pub(crate) struct StoredPacket {
    version: Version,
    group: Option<Name>,
    sender: Name,
    body: Body,
    claims: Vec<Claim>,
}

impl Model for StoredPacket {
    ghost use Rattle.std.specs.Prelude.{◌≤◌, length};
    ghost use Rattle.lg_packet.specs.declared.packet.Packet.{Packet};
    ghost use Rattle.lg_rules.specs.declared.claim.TheConstants.{MAX_CLAIMS};

    ghost Value = { Packet };

    ghost view = { λ p. record {
      version = p.version;
      group = p.group;
      sender = p.sender;
      body = p.body;
      claims = record { items = p.claims.items };
    } };

    ghost invariant = { λ p. length p.claims.items ≤ MAX_CLAIMS };
}

impl StoredPacket {
    /// Stores a packet. Allocates memory for its claims, if it has any.
    pub(crate) fn of(alloc: Global, packet: &Packet) -> Result<StoredPacket, NoMemory>
        ensures { IfOk result (λ stored. stored ≡ packet.now) }
    {
        let claims = Vec::from_slice(alloc, packet.claims.as_slice())?;
        Ok(StoredPacket {
            version: packet.version,
            group: packet.group,
            sender: packet.sender,
            body: packet.body,
            claims,
        })
    }

    /// The packet.
    pub(crate) fn packet(&self) -> Packet
        ensures { result ≡ self.now }
    {
        let mut claims = ArrayVec::new();
        let copied = claims.try_extend_from_slice(self.claims.as_slice());
        prove!(copied.is_ok());
        Packet {
            version: self.version,
            group: self.group,
            sender: self.sender,
            body: self.body,
            claims,
        }
    }
}

/// A packet to be sent, and where it goes. A contract sees it as the two.
#[derive(Drop)]
pub(crate) struct StoredOutgoing {
    to: Addr,
    packet: StoredPacket,
}

impl Model for StoredOutgoing {
    ghost use Rattle.lg_detector.specs.declared.reply.Outgoing.{Outgoing};

    ghost Value = { Outgoing };

    ghost view = { λ o. record { to = o.to; packet = o.packet } };
}

impl StoredOutgoing {
    /// Stores a packet to be sent. Allocates memory for its claims, if it has any.
    pub(crate) fn of(alloc: Global, outgoing: &Outgoing) -> Result<StoredOutgoing, NoMemory>
        ensures { IfOk result (λ stored. stored ≡ outgoing.now) }
    {
        let packet = StoredPacket::of(alloc, &outgoing.packet)?;
        Ok(StoredOutgoing {
            to: outgoing.to,
            packet,
        })
    }

    /// The body of the packet.
    pub(crate) fn body(&self) -> &Body
        ensures { result.now ≡ self.now.packet.body }
    {
        &self.packet.body
    }

    /// The packet, and where it goes.
    pub(crate) fn outgoing(&self) -> Outgoing
        ensures { result ≡ self.now }
    {
        Outgoing {
            to: self.to,
            packet: self.packet.packet(),
        }
    }
}
