//! Laws of keys and of sealed datagrams. The calls do nothing.
//!
//! Defined in: `specs/Meaning/Reading.antt`, `specs/Meaning/Sealing.antt`.
//! Tested in: `lg_seal_tests/src/sealing.rt`.
ghost use Rattle.std.specs.Prelude.{◌≡◌, ◌≢◌, ◌↔◌, ◌*◌, ◌∷◌, ℕ, List, Some, IsSome, length};
ghost use Rattle.std.specs.List.{AllPass};
ghost use Rattle.hex.specs.Hex.{IsBytes, encode_lower, encode_upper, is_hex_digit};
ghost use Rattle.lg_seal.specs.declared.fault.SealFault.{SealFault};
ghost use Rattle.lg_seal.specs.declared.key.Keys.{Keys};
ghost use Rattle.lg_seal.specs.Meaning.Reading.{key_bytes, key_of};
ghost use Rattle.lg_seal.specs.Meaning.Sealing.{IsRefused, IsSealed, IsTagOf};
ghost use Rattle.lg_seal.specs.Meaning.Sealing.{first_mark, sealed, signed_part};
ghost use Rattle.lg_seal.specs.Meaning.Tags.{tag_of};

/// A line spells a key exactly if it is 64 hex digits. The hex text of a key, in either case, spells that key.
pub fn spelled_key()
    ensures digits { (line : List ℕ)
        → IsSome (key_of line) ↔ ((length line ≡ 2 * key_bytes) × AllPass is_hex_digit line) }
    ensures lower { (key : List ℕ) → IsBytes key → length key ≡ key_bytes → key_of (encode_lower key) ≡ Some key }
    ensures upper { (key : List ℕ) → IsBytes key → length key ≡ key_bytes → key_of (encode_upper key) ≡ Some key }
{}

/// A datagram is opened in one way at most: it is sealed from one packet alone, or is refused for one fault alone.
pub fn one_outcome()
    ensures packet { (keys : Keys) (datagram p q : List ℕ)
        → IsSealed keys datagram p → IsSealed keys datagram q → p ≡ q }
    ensures apart { (keys : Keys) (datagram packet : List ℕ) (fault : SealFault)
        → IsSealed keys datagram packet → ¬ (IsRefused keys datagram fault) }
    ensures fault { (keys : Keys) (datagram : List ℕ) (f g : SealFault)
        → IsRefused keys datagram f → IsRefused keys datagram g → f ≡ g }
{}

/// What is sealed with the first key or with the second is sealed with one of the keys, so
/// [`Sealer::open`](crate::Sealer::open) gives its packet back.
pub fn sealed_opens()
    ensures first { (keys : Keys) (packet : List ℕ) → IsSealed keys (sealed keys.first packet) packet }
    ensures second { (keys : Keys) (key packet : List ℕ)
        → keys.second ≡ Some key → IsSealed keys (sealed key packet) packet }
{}

/// What is sealed with another key is forged, unless its tag is by chance also the tag under one of the keys. What
/// begins with another byte than the mark does, as each packet, isn't sealed.
pub fn other_key()
    ensures forged { (keys : Keys) (key packet : List ℕ)
        → ¬ (IsTagOf keys (signed_part packet) (tag_of key (signed_part packet)))
        → IsRefused keys (sealed key packet) SealFault.Forged }
    ensures unmarked { (keys : Keys) (byte : ℕ) (rest : List ℕ)
        → byte ≢ first_mark → IsRefused keys (byte ∷ rest) SealFault.Unsigned }
{}
