//! A keyed link: a link around another, over which only sealed datagrams go.
//!
//! Defined in: `specs/Meaning/Keyed.antt`.
//! Tested in: `lg_node_tests/src/node/keyed.rt`.
ghost use Rattle.std.specs.Prelude.{◌≡◌, ◌+◌, ◌≤◌, ◌∷◌, ◌++◌, [], true, take, is_ok, IfErr, IfOk, IfSome, OnErr, OnOk};
ghost use Rattle.lg_seal.specs.Meaning.Sealing.{IsRefused, IsSealed, sealed};
ghost use Rattle.lg_turns.specs.Meaning.Keyed.{counted_with, Opens};
ghost use Rattle.lg_turns.specs.Meaning.Links.{LinkEvent, reception};
ghost use Rattle.lg_turns.specs.Meaning.Links.LinkEvent.{Handed};

use crate::link::{Link, LinkFault, MAX_DATAGRAM};
use arrayvec::ArrayVec;
use lg_packet::MAX_PACKET;
use lg_rules::Addr;
use lg_seal::{Keys, SEAL_LEN, SealFault, Sealer, TAG_LEN};

/// The most bytes of a sealed packet: 1,226.
const MAX_SEALED: usize = MAX_PACKET + SEAL_LEN;

/// Where the packet of a sealed datagram begins.
const PACKET_START: usize = SEAL_LEN - TAG_LEN;

/// How many datagrams a keyed link has dropped. Each count goes up to 2^64 - 1, and stays there.
#[derive(Clone, Copy, Debug, Default, PartialEq, Eq)]
pub struct Counted {
    /// Those that weren't sealed in this version, or were too short for it, as those of a member without keys.
    pub unsigned: u64,
    /// Those that were sealed, but with none of the keys, or were changed on their way.
    pub forged: u64,
}

impl Counted {
    /// The counts when one more datagram was dropped, for this fault.
    fn with(self, fault: SealFault) -> Counted
        ensures { result ≡ counted_with fault self }
    {
        let Counted { unsigned, forged } = self;
        match fault {
            SealFault::Unsigned => Counted {
                unsigned: unsigned.saturating_add(1),
                forged,
            },
            SealFault::Forged => Counted {
                unsigned,
                forged: forged.saturating_add(1),
            },
        }
    }
}

/// A link around another: what it sends is sealed with the first key, and what it receives is taken only if it is
/// sealed with one of the keys. So the loops of a node needn't know of keys.
#[derive(Drop)]
pub struct KeyedLink<L> {
    inner: L,
    keys: Sealer,
    counted: Counted,
}

/// Puts the packet of a datagram at the start of the buffer, in whose first `length` bytes the datagram is. Returns how
/// many bytes the packet has.
fn unseal(keys: &Sealer, buffer: &mut [u8; MAX_DATAGRAM], length: usize) -> Result<usize, SealFault>
    requires { length ≤ MAX_DATAGRAM }
    ensures fits { IfOk result (λ packet_len. packet_len ≤ MAX_DATAGRAM) }
    ensures taken { IfOk result
        (λ packet_len. IsSealed keys.now (take length buffer.old) (take packet_len buffer.new)) }
    ensures refused { IfErr result (λ fault. IsRefused keys.now (take length buffer.old) fault) }
{
    let packet_len = keys.open(&buffer[..length])?.len();
    buffer.copy_within(PACKET_START..PACKET_START + packet_len, 0);
    Ok(packet_len)
}

impl<L: Link> KeyedLink<L> {
    /// A link around this one, with these keys. It has dropped nothing yet.
    pub fn new(inner: L, keys: &Keys) -> KeyedLink<L>
        ensures inner { result.inner ≡ inner }
        ensures keys { result.keys ≡ keys.now }
        ensures counted { result.counted ≡ record { unsigned = 0; forged = 0 } }
    {
        KeyedLink {
            inner,
            keys: Sealer::new(keys),
            counted: Counted::default(),
        }
    }

    /// The inner link.
    pub fn get_ref(&self) -> &L
        ensures { result.now ≡ self.now.inner }
    {
        &self.inner
    }

    /// How many datagrams it has dropped.
    pub fn counted(&self) -> Counted
        ensures { result ≡ self.now.counted }
    {
        self.counted
    }
}

/// The clauses of `send` and `receive` say what becomes of each datagram, if the inner link tells what it does. A
/// contract that knows no more of a keyed link than that it is a [`Link`] sees its failures alone: a link that tells
/// has to hand over all bytes, and a keyed one hands over those of a packet at most.
impl<L: Link> Link for KeyedLink<L> {
    ghost use Rattle.std.specs.Prelude.{false, []};

    ghost tells = { false };

    ghost log = { λ l. [] };

    ghost failed = { λ l. L.failed l.inner };

    /// Seals a packet with the first key, and hands that to the inner link once, which sends it or fails as
    /// [`Link::send`] says. Of bytes that are longer than any packet only the first 1,207 are sealed and sent. It
    /// allocates nothing.
    fn send(&mut self, to: Addr, bytes: &[u8]) -> Result<(), LinkFault>
        ensures sealed { L.tells ≡ true → L.log self.new.inner ≡ L.log self.old.inner
            ++ Handed to (sealed self.old.keys.first (take MAX_PACKET bytes.now)) (is_ok result) ∷ [] }
        ensures sent { OnOk result (L.failed self.new.inner ≡ L.failed self.old.inner) }
        ensures failed { OnErr result (L.failed self.new.inner ≡ L.failed self.old.inner + 1) }
        ensures keys { self.new.keys ≡ self.old.keys }
        ensures counted { self.new.counted ≡ self.old.counted }
    {
        let packet = &bytes[..MAX_PACKET.min(bytes.len())];
        let mut room = ArrayVec::<u8, MAX_SEALED>::new();
        self.keys.seal(packet, &mut room);
        self.inner.send(to, room.as_slice())
    }

    /// Waits for a datagram of the inner link, once and at most `limit_ms` milliseconds. If it is sealed with one of
    /// the keys, its packet is put at the start of the buffer, and the rest is as [`Link::receive`] says. Any other
    /// datagram is dropped and counted, and then none came, though the time isn't over: who still waits calls again.
    /// So however many such datagrams come, each call returns, and a loop sees its stop flag. It allocates nothing.
    fn receive(
        &mut self,
        buffer: &mut [u8; MAX_DATAGRAM],
        limit_ms: u64,
    ) -> Result<Option<(Addr, usize)>, LinkFault>
        ensures fits { IfOk result (λ o. IfSome o (λ came. came.1 ≤ MAX_DATAGRAM)) }
        ensures opened { L.tells ≡ true → (inside : LinkEvent)
            × (L.log self.new.inner ≡ L.log self.old.inner ++ inside ∷ [])
            × Opens self.old.keys inside (reception limit_ms result buffer.new) self.old.counted self.new.counted }
        ensures received { OnOk result (L.failed self.new.inner ≡ L.failed self.old.inner) }
        ensures failed { OnErr result (L.failed self.new.inner ≡ L.failed self.old.inner + 1) }
        ensures keys { self.new.keys ≡ self.old.keys }
    {
        let Some((source, length)) = self.inner.receive(buffer, limit_ms)? else {
            return Ok(None);
        };
        match unseal(&self.keys, buffer, length) {
            Ok(packet_len) => Ok(Some((source, packet_len))),
            Err(fault) => {
                self.counted = self.counted.with(fault);
                Ok(None)
            }
        }
    }

    fn failures(&self) -> u64 {
        self.inner.failures()
    }
}
