//! Reads the four numbers of an IPv4 address.
//!
//! Defined in: `specs/Meaning/Octets.antt`.
//! Tested in: `cases/config_forms.case`, `cases/ask.case`.
ghost use Rattle.std.specs.Prelude.{◌≡◌};
ghost use Rattle.lg_text.specs.Meaning.Octets.{octet_of, octets_of};

use crate::cutting::cut_at;
use crate::number::number_in;

/// The number of an address that a text spells, 0 to 255, without leading zeros.
fn octet_in(text: &[u8]) -> Option<u8>
    ensures { result ≡ octet_of text.now }
{
    if text.len() > 1 && text[0] == b'0' {
        return None;
    }
    u8::try_from(number_in(text)?).ok()
}

/// The four numbers of the IPv4 address that a text spells: A.B.C.D, each 0 to 255.
///
/// A number with a leading zero, as in `010.0.0.1`, is refused: some programs read it as octal digits.
#[tactic(auto, unfolding(crate::specs::Meaning::Octets::octets_of))]
pub fn octets_in(text: &[u8]) -> Option<[u8; 4]>
    ensures { result ≡ octets_of text.now }
{
    let (first, rest) = cut_at(text, b'.');
    let (second, rest) = cut_at(rest?, b'.');
    let (third, fourth) = cut_at(rest?, b'.');
    let first = octet_in(first)?;
    let second = octet_in(second)?;
    let third = octet_in(third)?;
    let fourth = octet_in(fourth?)?;
    Some([first, second, third, fourth])
}
