//! Decodes packets: reads the one that some bytes spell.
//!
//! Defined in: `specs/Meaning/Decoding.antt`, `specs/Meaning/Spelling.antt`, `specs/Meaning/Fault.antt`,
//! `specs/Meaning/Reading.antt`.
//! Tested in: `lg_parts_tests/src/packet.rt`.
ghost use Rattle.std.specs.Prelude.{◌≡◌, [], IfOk, IfErr, OnOk, OnErr, Ok, Err};
ghost use Rattle.lg_packet.specs.declared.packet.Packet.{Packet};
ghost use Rattle.lg_packet.specs.Meaning.Decoding.{DecodesTo};
ghost use Rattle.lg_packet.specs.Meaning.Fault.{fault_of};
ghost use Rattle.lg_packet.specs.Meaning.Reading.{packet_of};
ghost use Rattle.lg_packet.specs.Meaning.Spelling.{Spells};

use crate::fault::Fault;
use crate::packet::Packet;
use crate::reading::Reader;

/// Replaces a packet by the one that the bytes spell. All of the bytes have to belong to it.
///
/// It refuses what [`decode`] refuses, with the same fault. After that, the packet has the version, the group, the
/// sender and the body that it had, and no claims. Nothing is allocated. Of the packet, it writes only the version, the
/// group, the sender, the body, the claims that it had, and the claims that it gets.
// If this were inlined, the compiler could take a caller's packet apart and copy it piece by piece, several times.
#[inline(never)]
pub(crate) fn decode_into(bytes: &[u8], packet: &mut Packet) -> Result<(), Fault>
    // On success the bytes spell the packet. On an error they spell none, and it is their fault.
    ensures found { OnOk result (Spells bytes.now packet.new) }
    ensures refused { IfErr result (λ f. DecodesTo bytes.now (Err f)) }
    // The same result as a function of the bytes.
    ensures exact { OnOk result (packet_of bytes.now ≡ Ok packet.new) }
    ensures fault { IfErr result (λ f. packet_of bytes.now ≡ Err f) }
    // What an error leaves.
    ensures left { OnErr result (packet.new ≡ record packet.old { claims = record { items = [] } }) }
{
    packet.claims.clear();
    let mut reader = Reader { rest: bytes };
    let read = reader.packet(packet);
    if read.is_err() {
        packet.claims.clear();
    }
    read
}

/// Decodes the packet that the bytes spell. All of the bytes have to belong to it.
///
/// The bytes are judged from the first on. The error is the fault of the first byte that can't stand in its place, or
/// [`Fault::Short`] if each can and more are due. Nothing is allocated.
pub fn decode(bytes: &[u8]) -> Result<Packet, Fault>
    // The bytes spell the packet that is returned.
    ensures found { IfOk result (λ p. Spells bytes.now p) }
    // A packet that the bytes spell is returned.
    ensures only { (p : Packet) → Spells bytes.now p → result ≡ Ok p }
    // The error is the fault of the bytes.
    ensures fault { IfErr result (λ f. f ≡ fault_of bytes.now) }
    // The result is a packet exactly if the bytes spell it, and their fault exactly if they spell none.
    ensures decodes { DecodesTo bytes.now result }
    // The same result as a function of the bytes.
    ensures exact { result ≡ packet_of bytes.now }
{
    let mut packet = Packet::default();
    decode_into(bytes, &mut packet)?;
    Ok(packet)
}
