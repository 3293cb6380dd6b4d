//! A packet to be sent, before its version, its sender and its claims are written.
//!
//! Defined in: `specs/Meaning/Send.antt`.
//! Tested in: `lg_detector_tests/src/detector/probing.rt`.
use lg_packet::Body;
use lg_rules::Addr;

/// Where a packet goes, and what it asks for or answers.
#[derive(Clone, Copy, Debug, PartialEq, Eq)]
pub(crate) struct Message {
    /// Where it goes.
    pub(crate) to: Addr,
    /// What it asks for or answers.
    pub(crate) body: Body,
}

/// An Ack numbered 0 to the address 0.0.0.0:0. It fills the slots of a fixed-capacity row that hold no message.
impl Default for Message {
    ghost use Rattle.std.specs.Prelude.{◌≡◌, [], ◌∷◌, None};
    ghost use Rattle.lg_rules.specs.declared.addr.Ip.TheVariants.{V4};
    ghost use Rattle.lg_packet.specs.declared.packet.Body.TheVariants.{Ack};

    ghost is_default = { λ m. m
        ≡ record { to = record { ip = V4 (0 ∷ 0 ∷ 0 ∷ 0 ∷ []); port = 0 }; body = Ack 0 None } };

    fn default() -> Self {
        Message {
            to: Addr::default(),
            body: Body::Ack {
                number: 0,
                receiver: None,
            },
        }
    }
}
