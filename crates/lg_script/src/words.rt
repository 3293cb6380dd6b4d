//! Cuts a line into its words.
//!
//! Defined in: `specs/Meaning/Words.antt`, `specs/Meaning/Commands.antt`, `lg_text/specs/Meaning/Cutting.antt`.
//! Tested in: `cases/sim_lines.case`.
ghost use Rattle.std.specs.Prelude.{◌≡◌, ◌∷◌, count_by, drop, find};
ghost use Rattle.std.specs.List.{list_all};
ghost use Rattle.std.specs.Option.{option_map};
ghost use Rattle.lg_script.specs.Meaning.Commands.{word_at};
ghost use Rattle.lg_script.specs.Meaning.Words.{is_filled, parts_of};
ghost use Rattle.lg_script.specs.Support.Cutting.{words_left};
ghost use Rattle.lg_text.specs.Meaning.Cutting.{is_byte};

use lg_text::cut_at;

/// The first part of a text, and what is left after its space, if there is one.
pub(crate) fn cut_part(text: &[u8]) -> (&[u8], Option<&[u8]>)
    ensures { parts_of text.now ≡ result.0.now ∷ words_left result.1 }
{
    cut_at(text, b' ')
}

/// The first of the words that are left, and those after it. If none is left, the word is empty.
pub(crate) fn cut_word<'a>(words: Option<&'a [u8]>) -> (&'a [u8], Option<&'a [u8]>)
    ensures word { result.0.now ≡ word_at (words_left words.entry) 0 }
    ensures rest { words_left result.1 ≡ drop 1 (words_left words.entry) }
{
    match words {
        Some(text) => cut_part(text),
        None => (&[], None),
    }
}

/// The first of a line's parts that isn't empty.
pub(crate) fn first_word(line: &[u8]) -> Option<&[u8]>
    ensures { option_map (λ word. word.now) result ≡ find is_filled (parts_of line.now) }
{
    line.split(|byte| *byte == b' ')
        .find(|part| !part.is_empty())
}

/// Whether no part of a line is empty, so that its words are separated by single spaces.
pub(crate) fn are_words(line: &[u8]) -> bool
    ensures { result ≡ list_all is_filled (parts_of line.now) }
{
    line.split(|byte| *byte == b' ')
        .all(|part| !part.is_empty())
}

/// How many spaces a line has. It has one more part than spaces.
pub(crate) fn spaces_in(line: &[u8]) -> usize
    ensures { result ≡ count_by (is_byte 32) line.now }
{
    line.iter().filter(|byte| **byte == b' ').count()
}
