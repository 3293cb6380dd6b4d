//! Laws of the spellings of packets. The calls do nothing.
//!
//! Defined in: `specs/Meaning/Decoding.antt`, `specs/Meaning/Spelling.antt`, `specs/Meaning/Fault.antt`.
//! Tested in: `lg_parts_tests/src/packet.rt`.
ghost use Rattle.std.specs.Prelude.{◌≡◌, ℕ, List, [], ◌∷◌, ◌++◌, Some, Result};
ghost use Rattle.std.specs.List.{AllByRecursion};
ghost use Rattle.lg_packet.specs.declared.packet.Packet.{Packet};
ghost use Rattle.lg_packet.specs.declared.fault.Fault.{Fault};
ghost use Rattle.lg_packet.specs.Meaning.Bytes.{IsByte};
ghost use Rattle.lg_packet.specs.Meaning.Decoding.{DecodesTo};
ghost use Rattle.lg_packet.specs.Meaning.Reading.{packet_of};
ghost use Rattle.lg_packet.specs.Meaning.Fault.{IncarnationFits, Stands, fault_behind, fault_of};
ghost use Rattle.lg_packet.specs.Meaning.Spelling.{BeginsSpelling, IsPacket, spellable, spelling};

/// No two packets have the same spelling, and no spelling is the beginning of another.
pub fn one_spelling()
    ensures apart { (p q : Packet) → IsPacket p → IsPacket q → spelling p ≡ spelling q → p ≡ q }
    ensures whole { (p q : Packet) (rest : List ℕ) → IsPacket p → IsPacket q
        → spelling p ++ rest ≡ spelling q → rest ≡ [] }
{}

/// A packet that has a spelling of its own is told as it is.
pub fn own_spelling()
    ensures { (p : Packet) → IsPacket p → spellable p ≡ p }
{}

/// Bytes decode to one thing alone, and reading their fields from left to right gives it.
pub fn one_reading()
    ensures one { (bytes : List ℕ) (r s : Result Packet Fault)
        → DecodesTo bytes r → DecodesTo bytes s → r ≡ s }
    ensures read { (bytes : List ℕ) → AllByRecursion IsByte bytes → DecodesTo bytes (packet_of bytes) }
{}

/// The fault of bytes is that of the first byte that can't stand in its place, whatever follows it. If each byte can,
/// it is [`Fault::Short`](crate::Fault::Short).
pub fn first_bad_byte()
    ensures bad { (front rest : List ℕ) (b : ℕ) (f : Fault) → Stands front
        → fault_behind front b ≡ Some f → fault_of (front ++ b ∷ rest) ≡ f }
    ensures none { (bytes : List ℕ) → Stands bytes → fault_of bytes ≡ Fault.Short }
{}

/// Some spelling begins with a front exactly if two things hold. Each byte of the front can stand in its place. And
/// an incarnation that the front ends in can still be at most [`MAX_INCARNATION`](lg_rules::MAX_INCARNATION).
///
/// The second is needed because an incarnation is judged at its fourth byte. Three bytes that already make it too
/// great can stand, but no spelling begins with them.
pub fn begun_spelling()
    ensures stands { (front : List ℕ) → BeginsSpelling front → Stands front }
    ensures incarnation { (front : List ℕ) → BeginsSpelling front → IncarnationFits front }
    ensures fits { (front : List ℕ) → AllByRecursion IsByte front
        → Stands front → IncarnationFits front → BeginsSpelling front }
{}
