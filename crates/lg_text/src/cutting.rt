//! Cuts a text at a byte.
//!
//! Defined in: `specs/Meaning/Cutting.antt`.
//! Tested in: `cases/config_forms.case`, `cases/config_seeds.case`, `cases/sim_lines.case`.
ghost use Rattle.std.specs.Prelude.{◌≡◌, position};
ghost use Rattle.std.specs.Option.{option_map};
ghost use Rattle.lg_text.specs.Meaning.Cutting.{before, behind, is_byte};

/// The place of the first such byte in a text.
fn place_of(text: &[u8], byte: u8) -> Option<usize>
    ensures { result ≡ position (is_byte byte) text.now }
{
    text.iter().position(|b| *b == byte)
}

/// What stands before the first such byte of a text, and what stands behind it.
///
/// If the text has no such byte, all of it is before, and nothing, None, is behind. What is behind a last byte is
/// empty.
pub fn cut_at(text: &[u8], byte: u8) -> (&[u8], Option<&[u8]>)
    ensures before { result.0.now ≡ before byte text.now }
    ensures behind { option_map (λ rest. rest.now) result.1 ≡ behind byte text.now }
{
    match place_of(text, byte) {
        Some(at) => (&text[..at], Some(&text[at + 1..])),
        None => (text, None),
    }
}
