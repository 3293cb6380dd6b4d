//! Seals packets with a key, and opens the datagrams that are sealed.
//!
//! Defined in: `specs/Meaning/Sealing.antt`.
//! Tested in: `lg_seal_tests/src/sealing.rt`.
ghost use Rattle.std.specs.Prelude.{◌≡◌, ◌↔◌, ◌+◌, ◌≤◌, ◌++◌, IfErr, IfOk, IsTrue, length};
ghost use Rattle.arrayvec.specs.ArrayVec.{array_vec_len};
ghost use Rattle.lg_seal.specs.Meaning.Sealing.{IsRefused, IsSealed, IsTagOf, sealed};
ghost use Rattle.lg_seal.specs.Meaning.Tags.{tag_of};

use crate::fault::SealFault;
use crate::key::Keys;
use crate::tag::{Signer, TAG_LEN, are_equal};
use arrayvec::ArrayVec;
use std::marker::Model;

/// What each sealed datagram begins with: the mark `LK`, and the version of this format, 1 (this project's choice). A
/// packet that isn't sealed begins with `SL`. So members with keys and members without refuse each other's datagrams at
/// the first byte.
const HEAD: [u8; 3] = [0x4c, 0x4b, 0x01];

/// How many bytes longer a sealed datagram is than its packet: 19, for the head and the tag.
pub const SEAL_LEN: usize = HEAD.len() + TAG_LEN;

/// Appends bytes for which there is room.
fn put<const N: usize>(room: &mut ArrayVec<u8, N>, bytes: &[u8])
    requires { array_vec_len room.old + length bytes.now ≤ N }
    ensures { room.new.items ≡ room.old.items ++ bytes.now }
{
    let written = room.try_extend_from_slice(bytes);
    prove!(written.is_ok());
}

/// The keys of a group, ready to seal and to open. A contract sees them as the keys.
#[derive(Drop)]
pub struct Sealer {
    first: Signer,
    second: Option<Signer>,
}

impl Model for Sealer {
    ghost use Rattle.lg_seal.specs.declared.key.Keys.{Keys};

    ghost Value = { Keys };

    ghost view = { λ s. record { first = s.first; second = s.second } };

    ghost inverse = { λ keys. record { first = keys.first; second = keys.second } };
}

/// Whether these bytes are the tag of what is signed, under a key.
fn is_tag_of(key: &Signer, signed: &[u8], tag: &[u8; TAG_LEN]) -> bool
    ensures { IsTrue result ↔ (tag_of key.now signed.now ≡ tag.now) }
{
    are_equal(&key.tag_of(signed), tag)
}

impl Sealer {
    /// Keys, made ready.
    pub fn new(keys: &Keys) -> Sealer
        ensures { result ≡ keys.now }
    {
        Sealer {
            first: Signer::new(keys.first),
            second: keys.second.map(Signer::new),
        }
    }

    /// Seals a packet with the first key: replaces what the room holds by the head, the packet, and the tag of both.
    ///
    /// It never fails, and allocates nothing.
    pub fn seal<const N: usize>(&self, packet: &[u8], room: &mut ArrayVec<u8, N>)
        requires { length packet.now + SEAL_LEN ≤ N }
        ensures { room.new.items ≡ sealed self.now.first packet.now }
    {
        room.clear();
        put(room, &HEAD);
        put(room, packet);
        let tag = self.first.tag_of(room.as_slice());
        put(room, &tag.0);
    }

    /// Whether these bytes are the tag of what is signed, under one of the keys.
    fn is_signed(&self, signed: &[u8], tag: &[u8; TAG_LEN]) -> bool
        ensures { IsTrue result ↔ IsTagOf self.now signed.now tag.now }
    {
        is_tag_of(&self.first, signed, tag)
            || self
                .second
                .as_ref()
                .is_some_and(|key| is_tag_of(key, signed, tag))
    }

    /// The packet of a datagram that is sealed with one of the keys.
    ///
    /// Ok says that the tag is right under a key, and nothing else: it doesn't say who sealed the datagram, or when, or
    /// whether it comes for the first time. The call allocates nothing.
    pub fn open<'a>(&self, datagram: &'a [u8]) -> Result<&'a [u8], SealFault>
        ensures taken { IfOk result (λ packet. IsSealed self.now datagram.now packet.now) }
        ensures refused { IfErr result (λ fault. IsRefused self.now datagram.now fault) }
    {
        let (signed, tag) = datagram.split_last_chunk().ok_or(SealFault::Unsigned)?;
        let packet = signed.strip_prefix(&HEAD).ok_or(SealFault::Unsigned)?;
        if !self.is_signed(signed, tag) {
            return Err(SealFault::Forged);
        }
        Ok(packet)
    }
}
