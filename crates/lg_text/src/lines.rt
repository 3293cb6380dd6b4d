//! Cuts a text into lines.
//!
//! Defined in: `specs/Meaning/Lines.antt`.
//! Tested in: `cases/answer.case`, `cases/limits.case`.
ghost use Rattle.std.specs.Prelude.{◌≡◌, ◌<◌, ◌≤◌, ◌∷◌, length};
ghost use Rattle.lg_text.specs.Meaning.Lines.{lines_of};

use crate::cutting::cut_at;

/// The first line of a text that has one, without its newline byte, and what follows the line.
pub fn cut_line(text: &[u8]) -> (&[u8], &[u8])
    requires { 0 < length text.now }
    ensures lines { lines_of text.now ≡ result.0.now ∷ lines_of result.1.now }
    ensures within { length result.0.now ≤ length text.now }
    ensures shorter { length result.1.now < length text.now }
{
    let (line, rest) = cut_at(text, b'\n');
    (line, rest.unwrap_or(&[]))
}
