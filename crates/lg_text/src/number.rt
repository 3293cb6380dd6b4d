//! Reads a number of decimal digits, and a port.
//!
//! Defined in: `specs/Meaning/Numbers.antt`, `specs/Meaning/Ranges.antt`.
//! Tested in: `cases/sim_commands.case`, `cases/sim_lines.case`, `cases/config_forms.case`.
ghost use Rattle.std.specs.Prelude.{◌≡◌};
ghost use Rattle.std.specs.Char.{is_ascii_digit};
ghost use Rattle.std.specs.List.{list_all};
ghost use Rattle.lg_text.specs.Meaning.Numbers.{number_of, number_within, port_among, port_of};

use std::str;

/// The most digits of a number: 16 (this project's choice).
pub const MAX_DIGITS: usize = 16;

/// Whether a text has nothing but decimal digits.
fn are_digits(text: &[u8]) -> bool
    ensures { result ≡ list_all is_ascii_digit text.now }
{
    text.iter().all(|byte| byte.is_ascii_digit())
}

/// The number that a text spells: 1 to [`MAX_DIGITS`] decimal digits and nothing else. The first digits may be zeros.
///
/// It is at most 9,999,999,999,999,999. A text with a sign, a blank or more digits is no number.
pub fn number_in(text: &[u8]) -> Option<u64>
    ensures { result ≡ number_of text.now }
{
    if text.len() > MAX_DIGITS || !are_digits(text) {
        return None;
    }
    str::from_utf8(text).ok()?.parse().ok()
}

/// The number that a text spells, if it is at least `least` and at most `most`. See [`number_in`] for the form.
pub fn number_within(text: &[u8], least: u64, most: u64) -> Option<u64>
    ensures { result ≡ number_within least most text.now }
{
    let number = number_in(text)?;
    (least..=most).contains(&number).then_some(number)
}

/// A number, if it is that of a port: 1 to 65535 (this project's choice: no member is reached at port 0).
pub fn port_among(number: u64) -> Option<u16>
    ensures { result ≡ port_among number }
{
    if number == 0 {
        return None;
    }
    u16::try_from(number).ok()
}

/// The port that a text spells, 1 to 65535. See [`number_in`] for the form.
pub fn port_in(text: &[u8]) -> Option<u16>
    ensures { result ≡ port_of text.now }
{
    port_among(number_in(text)?)
}
