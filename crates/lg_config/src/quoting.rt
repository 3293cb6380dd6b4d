//! Quotes a text of a file, so that a terminal takes it for nothing else.
//!
//! Defined in: `specs/Meaning/Quoting.antt`.
//! Tested in: `cases/config_reasons.case`.
ghost use Rattle.std.specs.Prelude.{◌≡◌, ◌++◌, IfOk, OnOk, map, string_bytes, take};
ghost use Rattle.lg_config.specs.Meaning.Quoting.{most_shown, quoted, shown_byte, shown_end};

use std::alloc::{AllocError, Global};

/// The most bytes of a text that are shown: 64 (this project's choice).
const MAX_SHOWN: usize = 64;

/// A byte as it is shown: itself if it is printable ASCII, or else a question mark.
fn shown_byte(byte: u8) -> char
    ensures { result ≡ shown_byte byte }
{
    match byte {
        b' '..=b'~' => char::from(byte),
        _ => '?',
    }
}

/// Appends the bytes of a text as they are shown.
fn put_shown(text: &[u8], shown: &mut String) -> Result<(), AllocError>
    ensures { OnOk result (string_bytes shown.new ≡ string_bytes shown.old ++ map shown_byte text.now) }
{
    for byte in text {
        shown.push(shown_byte(*byte))?;
    }
    Ok(())
}

/// The bytes that are shown of a text.
fn front_of(text: &[u8]) -> &[u8]
    ensures { result.now ≡ take most_shown text.now }
{
    if text.len() > MAX_SHOWN {
        &text[..MAX_SHOWN]
    } else {
        text
    }
}

/// What stands behind the bytes that are shown of a text: two dots, if not all are shown.
fn shown_end(text: &[u8]) -> &'static str
    ensures { result.now ≡ shown_end text.now }
{
    if text.len() > MAX_SHOWN { ".." } else { "" }
}

/// A text in double quotes, of which at most the first 64 bytes are shown.
pub(crate) fn quoted(alloc: Global, text: &[u8]) -> Result<String, AllocError>
    ensures { IfOk result (λ quote. string_bytes quote ≡ quoted text.now) }
{
    let mut shown = String::new(alloc);
    put_shown(front_of(text), &mut shown)?;
    let end = shown_end(text);
    format!(in alloc; "\"{shown}{end}\"")
}
