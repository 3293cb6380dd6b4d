//! Writes the health, and faults, as JSON.
//!
//! Defined in: `specs/Meaning/Bodies.antt`.
//! Tested in: `lg_answers_tests/src/answer.rt`.
ghost use Rattle.std.specs.Prelude.{◌≡◌, ◌++◌, IfOk, OnOk, length, string_bytes};
ghost use Rattle.lg_answers.specs.Meaning.Bodies.{error_body, health_body, health_counts, health_front, health_times};
ghost use Rattle.lg_answers.specs.Meaning.Bodies.{live_among, truth_text};

use crate::snapshot::Snapshot;
use lg_check::text_of_name;
use lg_rules::Record;
use std::alloc::{AllocError, Global};

/// The word for a truth in JSON.
pub(crate) fn truth_word(truth: bool) -> &'static str
    ensures { result.now ≡ truth_text truth }
{
    if truth { "true" } else { "false" }
}

/// Appends the word for a truth in JSON.
pub(crate) fn put_truth(truth: bool, text: &mut String) -> Result<(), AllocError>
    ensures { OnOk result (string_bytes text.new ≡ string_bytes text.old ++ truth_text truth) }
{
    text.push_str(truth_word(truth))
}

/// How many of some members aren't gone: neither Failed nor Left.
pub(crate) fn live_among(members: &[Record]) -> usize
    ensures { result ≡ live_among members.now }
{
    members
        .iter()
        .filter(|member| !member.status.is_gone())
        .count()
}

/// Appends the name, the score and the incarnation.
fn put_front(snapshot: &Snapshot, text: &mut String) -> Result<(), AllocError>
    ensures { OnOk result (string_bytes text.new ≡ string_bytes text.old ++ health_front snapshot.now) }
{
    let name = text_of_name(&snapshot.name);
    let score = snapshot.score;
    let incarnation = snapshot.incarnation.number();
    write!(
        text,
        "{{\"name\":\"{name}\",\"score\":{score},\"incarnation\":{incarnation}"
    )
}

/// Appends how many members are live, and how many are known.
fn put_counts(members: &[Record], text: &mut String) -> Result<(), AllocError>
    ensures { OnOk result (string_bytes text.new
        ≡ string_bytes text.old ++ health_counts (live_among members.now) (length members.now)) }
{
    let live = live_among(members);
    let known = members.len();
    write!(text, ",\"live\":{live},\"known\":{known}")
}

/// Appends whether the member is ousted, and the times.
fn put_times(snapshot: &Snapshot, text: &mut String) -> Result<(), AllocError>
    ensures { OnOk result (string_bytes text.new ≡ string_bytes text.old ++ health_times snapshot.now) }
{
    let ousted = truth_word(snapshot.ousted);
    let uptime = snapshot.uptime_ms;
    let stood_still = snapshot.stood_still_ms;
    write!(
        text,
        ",\"ousted\":{ousted},\"uptime_ms\":{uptime},\"stood_still_ms\":{stood_still}}}"
    )
}

/// The body of the health.
#[tactic(auto, unfolding(crate::specs::Meaning::Bodies::health_body))]
pub(crate) fn health_body(alloc: Global, snapshot: &Snapshot) -> Result<String, AllocError>
    ensures { IfOk result (λ body. string_bytes body ≡ health_body snapshot.now) }
{
    let mut text = String::new(alloc);
    put_front(snapshot, &mut text)?;
    put_counts(&snapshot.records, &mut text)?;
    put_times(snapshot, &mut text)?;
    Ok(text)
}

/// The body of a fault, in words that need no escape in JSON.
pub(crate) fn error_body(alloc: Global, reason: &str) -> Result<String, AllocError>
    ensures { IfOk result (λ body. string_bytes body ≡ error_body reason.now) }
{
    format!(in alloc; "{{\"error\":\"{reason}\"}}")
}
