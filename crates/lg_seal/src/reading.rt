//! Reads keys from a text.
//!
//! Defined in: `specs/Meaning/Reading.antt`.
//! Tested in: `lg_seal_tests/src/keys.rt`.
ghost use Rattle.std.specs.Prelude.{◌≡◌};
ghost use Rattle.lg_text.specs.Meaning.Lines.{lines_of};
ghost use Rattle.lg_seal.specs.Meaning.Reading.{key_of, keys_after, keys_of};

use crate::fault::KeyFault;
use crate::key::{GroupKey, KEY_LEN, Keys};
use hex::FromHex;
use lg_text::cut_line;

/// The key that a line spells: exactly 64 hex digits, each of either case.
#[tactic(auto, unfolding(crate::specs::Meaning::Reading::key_of))]
fn key_in(line: &[u8]) -> Option<GroupKey>
    ensures { result ≡ key_of line.now }
{
    let bytes = <[u8; KEY_LEN] as FromHex>::from_hex(line).ok()?;
    Some(GroupKey::new(bytes))
}

/// The keys of a text, one or two lines of exactly 64 hex digits each, of either case, or its first fault from the top.
///
/// A line ends with a newline byte, or with the text. The first line spells the key that signs. A carriage return, a
/// blank and an empty line are faults like any other byte that is no digit (this project's choice).
pub fn keys_in(text: &[u8]) -> Result<Keys, KeyFault>
    ensures { result ≡ keys_of text.now }
{
    if text.is_empty() {
        return Err(KeyFault::NoKey);
    }
    let (line, rest) = cut_line(text);
    let first = key_in(line).ok_or(KeyFault::BadLine(1))?;
    keys_behind(first, rest)
}

/// The keys of a text whose first line spells `first`, where `rest` follows that line.
#[tactic(auto, using(crate::proofs::KeyLines::too_many))]
fn keys_behind(first: GroupKey, rest: &[u8]) -> Result<Keys, KeyFault>
    ensures { result ≡ keys_after first (lines_of rest.now) }
{
    if rest.is_empty() {
        return Ok(Keys {
            first,
            second: None,
        });
    }
    let (line, rest) = cut_line(rest);
    let second = key_in(line).ok_or(KeyFault::BadLine(2))?;
    if !rest.is_empty() {
        return Err(KeyFault::TooManyLines);
    }
    if first == second {
        return Err(KeyFault::SameKeys);
    }
    Ok(Keys {
        first,
        second: Some(second),
    })
}
