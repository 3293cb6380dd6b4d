//! Packets: their bodies, and the claims that ride on them.
//!
//! Defined in: `specs/Meaning/Spelling.antt`.
//! Tested in: `lg_parts_tests/src/packet.rt`.
ghost use Rattle.std.specs.Prelude.{◌≡◌};

use arrayvec::ArrayVec;
use lg_rules::{Addr, Claim, MAX_CLAIMS, Name, Version};

/// What a packet asks for, answers or tells (SWIM, section 3.1). The Nack is Lifeguard's. Pull, Page and Gossip are
/// this project's choice.
#[derive(Clone, Copy, Debug, PartialEq, Eq)]
pub enum Body {
    /// Asks a member for an Ack with this number.
    Ping {
        /// The number of the probe.
        number: u32,
        /// The member that is asked.
        target: Name,
    },
    /// Asks a helper to probe a member for the sender: SWIM's ping-req, an indirect probe.
    PingReq {
        /// The number of the sender's own probe.
        number: u32,
        /// The member to be probed.
        target: Name,
        /// Where the target is reached. So the helper needn't know the target (this project's choice).
        addr: Addr,
    },
    /// Acknowledges a Ping or, on behalf of its target, a PingReq.
    Ack {
        /// The number of the Ping or the PingReq.
        number: u32,
        /// The sender of the Ping or the PingReq that it answers. Versions 1 and 2 don't tell it.
        receiver: Option<Name>,
    },
    /// Tells the sender of a PingReq that the helper has no Ack of the target so far (Lifeguard, local health aware
    /// probe).
    Nack {
        /// The number of the PingReq.
        number: u32,
        /// The sender of the PingReq that it answers. Versions 1 and 2 don't tell it.
        receiver: Option<Name>,
    },
    /// Asks for the next records after a name, or for the first records if it has no name. In this way a member that
    /// joins learns the table (push-pull, anti-entropy): by pages of records over datagrams (this project's choice).
    Pull {
        /// The name after which records are asked for: those of the names that come after it in the order of names.
        after: Option<Name>,
    },
    /// Answers a Pull: the claims of the packet are a page of records (this project's choice).
    Page,
    /// Tells news: only the claims of the packet; nothing answers it (this project's choice). Versions 1 and 2 tell it
    /// as a Page.
    Gossip,
}

/// What one member sends to another in one datagram.
#[derive(Debug, Drop)]
pub struct Packet {
    /// The version of the format in which it is spelled.
    pub version: Version,
    /// The group of the sender, if it has one. Versions 1 and 2 don't tell it.
    pub group: Option<Name>,
    /// The member that sent it.
    pub sender: Name,
    /// What it asks for or answers.
    pub body: Body,
    /// The claims about members that ride on it (piggyback), in the order in which they are heard (SWIM, section
    /// 4.1).
    pub claims: ArrayVec<Claim, MAX_CLAIMS>,
}

impl Packet {
    /// Copies the packet. Allocates no memory.
    pub fn copy(&self) -> Packet
        ensures { result ≡ self.now }
    {
        let mut claims = ArrayVec::new();
        let copied = claims.try_extend_from_slice(&self.claims);
        prove!(copied.is_ok());
        Packet {
            version: self.version,
            group: self.group,
            sender: self.sender,
            body: self.body,
            claims,
        }
    }
}

/// An Ack of the member `a` in version 1, with the number 0, no receiver, no group and no claims. It fills those places
/// of a row of fixed capacity that hold no packet.
impl Default for Packet {
    ghost use Rattle.std.specs.Prelude.{◌≡◌, [], ◌∷◌, None};
    ghost use Rattle.lg_packet.specs.declared.packet.Body.TheVariants.{Ack};
    ghost use Rattle.lg_rules.specs.declared.version.Version.TheVariants.{One};

    ghost is_default = { λ p.
        p ≡ record {
          version = One;
          group = None;
          sender = 97 ∷ [];
          body = Ack 0 None;
          claims = record { items = [] };
        } };

    fn default() -> Self {
        Packet {
            version: Version::default(),
            group: None,
            sender: Name::default(),
            body: Body::Ack {
                number: 0,
                receiver: None,
            },
            claims: ArrayVec::new(),
        }
    }
}
