//! The bytes of datagrams.
use arrayvec::ArrayVec;
use lg_packet::{Body, MAX_PACKET, encode};
use lg_rules::{Claim, Status};
use lg_testing::{claim, letter, packet, ping};

/// The bytes of a packet of the member named by a letter.
pub fn spelled(sender: u8, body: Body, claims: &[Claim]) -> ArrayVec<u8, MAX_PACKET> {
    let mut bytes = ArrayVec::new();
    encode(&packet(sender, body, claims), &mut bytes);
    bytes
}

/// The bytes of a Ping of a for b with this number. It says that one of sixteen members is alive, at an incarnation
/// that rises by 1 with every 64 numbers.
pub fn ping_of(number: u32) -> ArrayVec<u8, MAX_PACKET> {
    let member = letter(b'c' + (number % 16) as u8);
    spelled(
        b'a',
        ping(number, b'b'),
        &[claim(member, Status::Alive, number / 64)],
    )
}
