//! The answer that tells what a node's recording has of a member.
//!
//! Defined in: `specs/Meaning/Explaining.antt`, `specs/Meaning/Answers.antt`.
//! Tested in: `lg_answers_tests/src/explaining.rt`, `lg_answers_refusals/src/refused_memory.rt`.
ghost use Rattle.std.specs.Prelude.{◌≡◌, IfOk, string_bytes};
ghost use Rattle.lg_answers.specs.Meaning.Answers.{answer_value, explained_answer};
ghost use Rattle.lg_answers.specs.Meaning.Explaining.{missing_front, told_body, unended};

use crate::answer::error_answer;
use lg_http::{HttpAnswer, HttpStatus, Kind};
use std::alloc::{AllocError, Global};

/// What happened in so many last milliseconds may be missing in what a recording tells: 1,000 (this project's choice).
/// The recorder of a node takes entries once in so many, by `RECORD_MS` of `lg_recorder`, on which this crate doesn't
/// stand.
pub const MISSING_MS: u64 = 1000;

/// What a node's recording tells of a member, as whoever read it hands it in.
#[derive(Debug, Drop)]
pub enum Explained {
    /// The node doesn't record.
    Unrecorded,
    /// The folder of the recording, or a file in it, can't be read.
    Unreadable,
    /// The accounts of the member as JSON: one line with a newline at its end, as `lg explain NAME --json` writes it.
    Told(Vec<u8>),
}

/// A text without the newline at its end, or all of one that ends with another byte.
fn unended(text: &[u8]) -> &[u8]
    ensures { result.now ≡ unended text.now }
{
    match text.strip_suffix(b"\n") {
        Some(line) => line,
        None => text,
    }
}

/// What stands before the accounts.
fn front(alloc: Global) -> Result<String, AllocError>
    ensures { IfOk result (λ text. string_bytes text ≡ missing_front) }
{
    let missing = MISSING_MS;
    format!(in alloc; "{{\"missing_ms\":{missing},\"explained\":")
}

/// The body that tells the accounts of a member, which are handed in as a line of JSON.
#[tactic(auto, unfolding(crate::specs::Meaning::Explaining::told_body))]
fn told_body(alloc: Global, accounts: &[u8]) -> Result<Vec<u8>, AllocError>
    ensures { IfOk result (λ body. body.items ≡ told_body accounts.now) }
{
    let mut body = front(alloc)?.into_bytes();
    body.extend_from_slice(unended(accounts))?;
    body.extend_from_slice(b"}")?;
    Ok(body)
}

/// The answer that tells what a node's recording has of a member.
///
/// It is 404 if the node doesn't record, 503 if its recording can't be read, each with the fault in words, and else 200
/// with [`MISSING_MS`] and the accounts: `{"missing_ms":1000,"explained":ACCOUNTS}`. The newline at the end of the
/// accounts is left out, and nothing else of them is looked at. Memory is allocated for the body. The only error is
/// that it was refused.
pub fn explained_answer(alloc: Global, explained: &Explained) -> Result<HttpAnswer, AllocError>
    ensures { IfOk result (λ answer. answer_value answer ≡ explained_answer explained.now) }
{
    match explained {
        Explained::Unrecorded => {
            error_answer(alloc, HttpStatus::NotFound, "this node doesn't record")
        }
        Explained::Unreadable => error_answer(
            alloc,
            HttpStatus::Unavailable,
            "the recording can't be read",
        ),
        Explained::Told(accounts) => Ok(HttpAnswer {
            status: HttpStatus::Fine,
            kind: Kind::Json,
            body: told_body(alloc, accounts)?,
        }),
    }
}
