//! Reads a line of a script.
//!
//! Defined in: `specs/Meaning/Lines.antt`, `specs/Meaning/Words.antt`.
//! Tested in: `cases/sim_lines.case`, `cases/sim_faults.case`.
ghost use Rattle.std.specs.Prelude.{◌≡◌};
ghost use Rattle.lg_script.specs.Meaning.Lines.{command_of, is_passed_over};
ghost use Rattle.lg_script.specs.Meaning.Words.{are_words_of, parts_of, verb_in};

use crate::command::Command;
use crate::fault::ScriptFault;
use crate::reading::command_named;
use crate::verb::{Verb, takes_words, verb_of};
use crate::words::{are_words, cut_part, first_word, spaces_in};

/// Whether a line is passed over: it is empty or begins with `#`.
fn is_passed_over(line: &[u8]) -> bool
    ensures { result ≡ is_passed_over line.now }
{
    line.is_empty() || line[0] == b'#'
}

/// The command that the first word of a line names.
fn verb_in(line: &[u8]) -> Option<Verb>
    ensures { result ≡ verb_in (parts_of line.now) }
{
    verb_of(first_word(line)?)
}

/// Whether a line's words are separated by single spaces, and are as many as the command takes.
fn are_words_of(verb: Verb, line: &[u8]) -> bool
    ensures { result ≡ are_words_of verb (parts_of line.now) }
{
    takes_words(verb, spaces_in(line)) && are_words(line)
}

/// The command of a line without its newline byte. It is None if the line is empty or begins with `#`; such a line is
/// passed over (this project's choice).
///
/// The words stand between single spaces, and every other byte belongs to a word. The error is the first of these:
///
/// - [`ScriptFault::Command`] if the first word, which is looked for after leading spaces, names no command, or there
///   is no word;
/// - [`ScriptFault::Words`] if a space leads, trails or is doubled, or the command takes another number of words;
/// - [`ScriptFault::Value`] if a word is out of its form or range, a key is unknown, or there are more than 16 seeds.
///
/// No memory is allocated. The time is in proportion to the line.
#[tactic(auto, unfolding(crate::specs::Meaning::Lines::command_of))]
pub fn command_in(line: &[u8]) -> Result<Option<Command>, ScriptFault>
    ensures { result ≡ command_of line.now }
{
    if is_passed_over(line) {
        return Ok(None);
    }
    let verb = verb_in(line).ok_or(ScriptFault::Command)?;
    if !are_words_of(verb, line) {
        return Err(ScriptFault::Words);
    }
    let (_, words) = cut_part(line);
    let command = command_named(verb, words).ok_or(ScriptFault::Value)?;
    Ok(Some(command))
}
