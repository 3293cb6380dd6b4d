//! Names, addresses, moments and claims.
use lg_rules::{Addr, Claim, Incarnation, Name, Status};
use lg_timing::Moment;

/// The name that a text spells, or the default name if it spells none.
pub fn name(text: &[u8]) -> Name {
    Name::new(text).unwrap_or_default()
}

/// The name that is one letter.
pub fn letter(byte: u8) -> Name {
    name(&[byte])
}

/// The last decimal digit of a number.
fn digit(number: u32) -> u8 {
    b'0' + (number % 10) as u8
}

/// The name `m` with the last three decimal digits of a number.
pub fn numbered(number: u32) -> Name {
    name(&[b'm', digit(number / 100), digit(number / 10), digit(number)])
}

/// A port of 127.0.0.1.
pub fn local(port: u16) -> Addr {
    Addr::v4([127, 0, 0, 1], port)
}

/// A moment in milliseconds.
pub fn at(milliseconds: u64) -> Moment {
    Moment::new(milliseconds).unwrap_or_default()
}

/// An incarnation, or 0 for a number that is too great.
pub fn incarnation(number: u32) -> Incarnation {
    Incarnation::new(number).unwrap_or_default()
}

/// A claim about a member at port 7000.
pub fn claim(name: Name, status: Status, number: u32) -> Claim {
    Claim {
        name,
        addr: local(7000),
        status,
        incarnation: incarnation(number),
    }
}

/// The claim that the member named by a letter is alive.
pub fn alive(member: u8, number: u32) -> Claim {
    claim(letter(member), Status::Alive, number)
}

/// The claim that the member named by a letter has failed.
pub fn failed(member: u8, number: u32) -> Claim {
    claim(letter(member), Status::Failed, number)
}

/// The claim that the member named by a letter is suspected by the one named by another.
pub fn suspect(member: u8, number: u32, accuser: u8) -> Claim {
    claim(letter(member), Status::Suspect(letter(accuser)), number)
}
