//! Names and statuses as text.
//!
//! Defined in: `lg_lines/specs/Meaning/Records.antt`.
//! Tested in: `lg_explain_tests/src/texts.rt`.
ghost use Rattle.std.specs.Prelude.{◌≡◌};
ghost use Rattle.lg_lines.specs.Meaning.Records.{status_text};
ghost use Rattle.lg_accounts.specs.Meaning.Json.{truth_json};
ghost use Rattle.lg_accounts.specs.Meaning.Sentences.{teller_text};

use lg_rules::{Name, Status};
use std::str;

/// The text of a name.
pub(crate) fn name_text(name: &Name) -> &str
    ensures { result.now ≡ name.now }
{
    match str::from_utf8(name.as_bytes()) {
        Ok(text) => text,
        Err(_) => "",
    }
}

/// The text of the name of the sender of a packet.
pub(crate) fn teller_text(teller: &Option<Name>) -> &str
    ensures { result.now ≡ teller_text teller.now }
{
    match teller {
        Some(name) => name_text(name),
        None => "Somebody",
    }
}

/// The word for a status.
pub(crate) fn status_word(status: &Status) -> &'static str
    ensures { result.now ≡ status_text status.now }
{
    match status {
        Status::Alive => "alive",
        Status::Suspect(_) => "suspect",
        Status::Failed => "failed",
        Status::Left => "left",
    }
}

/// A truth value as JSON has it.
#[tactic(auto, unfolding(crate::specs::Meaning::Json::truth_json))]
pub(crate) fn truth_word(truth: bool) -> &'static str
    ensures { result.now ≡ truth_json truth }
{
    if truth { "true" } else { "false" }
}
