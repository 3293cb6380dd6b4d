//! A link: datagrams come over it, and are handed to it.
//!
//! Defined in: `specs/Meaning/Links.antt`.
//! Tested in: `lg_node_tests/src/node/receiving.rt`.

use lg_rules::Addr;

/// How many bytes of a datagram are read: 1280, the least MTU of IPv6 (RFC 8200, section 5). No packet is longer than
/// 1,207, and a sealed one has at most 1,226.
pub const MAX_DATAGRAM: usize = 1280;

/// Receiving or sending failed. The link has counted it.
#[derive(Clone, Copy, Debug, PartialEq, Eq)]
pub struct LinkFault;

/// Datagrams come over it, and are handed to it.
pub trait Link {
    ghost use Rattle.std.specs.Prelude.{◌≡◌, ◌≤◌, ◌+◌, ℕ, Bool, true, List, [], ◌∷◌, ◌++◌};
    ghost use Rattle.std.specs.Prelude.{is_ok, OnOk, OnErr, IfOk, IfSome};
    ghost use Rattle.lg_turns.specs.Meaning.Links.{LinkEvent, reception};
    ghost use Rattle.lg_turns.specs.Meaning.Links.LinkEvent.{Handed};

    // Whether contracts can see what it did.
    ghost tells: { Bool };

    // What it did, if contracts can see that.
    ghost log: { Self → List LinkEvent };

    // How often it failed.
    ghost failed: { Self → ℕ };

    /// Hands a datagram over, for an address. The error is that it wasn't sent, and then the link has counted that.
    /// Even one that was sent may be lost on its way.
    fn send(&mut self, to: Addr, bytes: &[u8]) -> Result<(), LinkFault>
        ensures told { tells ≡ true → log self.new ≡ log self.old ++ Handed to bytes.now (is_ok result) ∷ [] }
        ensures sent { OnOk result (failed self.new ≡ failed self.old) }
        ensures failed { OnErr result (failed self.new ≡ failed self.old + 1) };

    /// Waits for a datagram, at most `limit_ms` milliseconds. Its bytes are put at the start of the buffer. If it has
    /// more than [`MAX_DATAGRAM`] bytes, the rest is cut off. Returns the address that it came from and how many bytes
    /// there are, or none if none came in time. The error is that receiving failed, and then the link has counted that.
    fn receive(
        &mut self,
        buffer: &mut [u8; MAX_DATAGRAM],
        limit_ms: u64,
    ) -> Result<Option<(Addr, usize)>, LinkFault>
        ensures fits { IfOk result (λ o. IfSome o (λ came. came.1 ≤ MAX_DATAGRAM)) }
        ensures told { tells ≡ true → log self.new ≡ log self.old ++ reception limit_ms result buffer.new ∷ [] }
        ensures received { OnOk result (failed self.new ≡ failed self.old) }
        ensures failed { OnErr result (failed self.new ≡ failed self.old + 1) };

    /// How often it failed.
    fn failures(&self) -> u64
        ensures { result ≡ failed self.now };
}
