//! Writes the steps of an entry as JSON. Nothing in them needs an escape.
//!
//! Each function here appends to a text. If memory is refused, that is its only error, and the text may have grown by a
//! part of what was to be appended.
//!
//! Defined in: `specs/Meaning/Json.antt`.
//! Tested in: `lg_explain_tests/src/texts.rt`.
ghost use Rattle.std.specs.Prelude.{◌≡◌, ◌++◌, OnOk, codes, string_bytes};
ghost use Rattle.std.specs.List.{flat_map};
ghost use Rattle.lg_rules.specs.Meaning.Claim.{accuser_of};
ghost use Rattle.lg_accounts.specs.Meaning.Json.{array_values, by_json, ended_json, helper_json, later_value};
ghost use Rattle.lg_accounts.specs.Meaning.Json.{name_json, pinged_front, pinged_json, record_json, minute_json};
ghost use Rattle.lg_accounts.specs.Meaning.Json.{scored_json, status_json, step_json, timeout_json, unanswered_front};
ghost use Rattle.lg_accounts.specs.Meaning.Json.{unanswered_json};

use crate::names::{name_text, status_word, truth_word};
use crate::step::{Helper, NoteStep};
use lg_detector::NoMemory;
use lg_rules::{Addr, Claim, Name};
use lg_text::put_addr;

/// Appends a name in quotes, or `null`.
pub(crate) fn put_name(name: &Option<Name>, text: &mut String) -> Result<(), NoMemory>
    ensures { OnOk result (string_bytes text.new ≡ string_bytes text.old ++ name_json name.now) }
{
    match name {
        None => text.push_str("null"),
        Some(name) => {
            let name = name_text(name);
            write!(text, "\"{name}\"")
        }
    }
}

/// Appends a helper.
#[tactic(auto, unfolding(crate::specs::Meaning::Json::helper_json))]
fn put_helper(helper: &Helper, text: &mut String) -> Result<(), NoMemory>
    ensures { OnOk result (string_bytes text.new ≡ string_bytes text.old ++ helper_json helper.now) }
{
    text.push_str("{\"member\":")?;
    put_name(&helper.name, text)?;
    text.push_str(",\"address\":\"")?;
    put_addr(&helper.addr, text)?;
    text.push_str("\"}")
}

/// Appends helpers, each behind a comma.
fn put_other_helpers(others: &[Helper], text: &mut String) -> Result<(), NoMemory>
    ensures { OnOk result
        (string_bytes text.new ≡ string_bytes text.old ++ flat_map (later_value helper_json) others.now) }
{
    for helper in others {
        text.push_str(",")?;
        put_helper(helper, text)?;
    }
    Ok(())
}

/// Appends helpers, with commas between them.
fn put_helpers(helpers: &[Helper], text: &mut String) -> Result<(), NoMemory>
    ensures { OnOk result (string_bytes text.new ≡ string_bytes text.old ++ array_values helper_json helpers.now) }
{
    match helpers {
        [] => Ok(()),
        [helper, others @ ..] => {
            put_helper(helper, text)?;
            put_other_helpers(others, text)
        }
    }
}

/// Appends what stands before the address of a probe that began.
#[tactic(auto, unfolding(crate::specs::Meaning::Json::pinged_front))]
fn put_pinged_front(probe: u32, text: &mut String) -> Result<(), NoMemory>
    ensures { OnOk result (string_bytes text.new ≡ string_bytes text.old ++ pinged_front probe) }
{
    write!(
        text,
        "{{\"step\":\"pinged\",\"probe\":{probe},\"address\":\""
    )
}

/// Appends that a probe began.
#[tactic(auto, unfolding(crate::specs::Meaning::Json::pinged_json))]
fn put_pinged(probe: u32, addr: &Addr, text: &mut String) -> Result<(), NoMemory>
    ensures { OnOk result (string_bytes text.new ≡ string_bytes text.old ++ pinged_json probe addr.now) }
{
    put_pinged_front(probe, text)?;
    put_addr(addr, text)?;
    text.push_str("\"}")
}

/// Appends what stands before the helpers that were asked.
#[tactic(auto, unfolding(crate::specs::Meaning::Json::unanswered_front))]
fn put_unanswered_front(within: u64, text: &mut String) -> Result<(), NoMemory>
    ensures { OnOk result (string_bytes text.new ≡ string_bytes text.old ++ unanswered_front within) }
{
    write!(
        text,
        "{{\"step\":\"unanswered\",\"within\":{within}}},{{\"step\":\"asked\",\"helpers\":["
    )
}

/// Appends that no Ack came in time, and who was asked then.
#[tactic(auto, unfolding(crate::specs::Meaning::Json::unanswered_json))]
fn put_unanswered(within: u64, helpers: &[Helper], text: &mut String) -> Result<(), NoMemory>
    ensures { OnOk result (string_bytes text.new ≡ string_bytes text.old ++ unanswered_json within helpers.now) }
{
    put_unanswered_front(within, text)?;
    put_helpers(helpers, text)?;
    text.push_str("]}")
}

/// Appends who sent an Ack or a Nack.
#[tactic(auto, unfolding(crate::specs::Meaning::Json::by_json))]
fn put_by(word: &str, by: &str, text: &mut String) -> Result<(), NoMemory>
    ensures { OnOk result (string_bytes text.new ≡ string_bytes text.old ++ by_json word.now by.now) }
{
    write!(text, "{{\"step\":\"{word}\",\"by\":\"{by}\"}}")
}

/// Appends how a round ended.
#[tactic(auto, unfolding(crate::specs::Meaning::Json::ended_json))]
fn put_ended(is_failed: bool, text: &mut String) -> Result<(), NoMemory>
    ensures { OnOk result (string_bytes text.new ≡ string_bytes text.old ++ ended_json is_failed) }
{
    let truth = truth_word(is_failed);
    write!(text, "{{\"step\":\"ended\",\"failed\":{truth}}}")
}

/// Appends how the health score changed.
#[tactic(auto, unfolding(crate::specs::Meaning::Json::scored_json))]
fn put_scored(before: u64, after: u64, text: &mut String) -> Result<(), NoMemory>
    ensures { OnOk result (string_bytes text.new ≡ string_bytes text.old ++ scored_json before after) }
{
    write!(
        text,
        "{{\"step\":\"score\",\"before\":{before},\"after\":{after}}}"
    )
}

/// Appends what stands before the address of a record.
#[tactic(auto, unfolding(crate::specs::Meaning::Json::status_json))]
fn put_status(word: &str, status: &str, incarnation: u32, text: &mut String) -> Result<(), NoMemory>
    ensures { OnOk result (string_bytes text.new
        ≡ string_bytes text.old ++ status_json word.now status.now incarnation) }
{
    write!(
        text,
        "{{\"step\":\"{word}\",\"status\":\"{status}\",\"incarnation\":{incarnation},\"address\":\""
    )
}

/// Appends a claim that was told, or a record that changed, with the word for which of them it is.
#[tactic(auto, unfolding(crate::specs::Meaning::Json::record_json))]
fn put_record(word: &str, claim: &Claim, text: &mut String) -> Result<(), NoMemory>
    ensures { OnOk result (string_bytes text.new ≡ string_bytes text.old ++ record_json word.now claim.now) }
{
    let status = status_word(&claim.status);
    put_status(word, status, claim.incarnation.number(), text)?;
    put_addr(&claim.addr, text)?;
    text.push_str("\",\"accuser\":")?;
    put_name(&claim.accuser(), text)?;
    text.push_str("}")
}

/// Appends the timeout of a suspicion.
#[tactic(auto, unfolding(crate::specs::Meaning::Json::timeout_json))]
fn put_timeout(
    live: u64,
    confirmations: u64,
    most: u64,
    timeout_ms: u64,
    text: &mut String,
) -> Result<(), NoMemory>
    ensures { OnOk result (string_bytes text.new
        ≡ string_bytes text.old ++ timeout_json live confirmations most timeout_ms) }
{
    write!(
        text,
        "{{\"step\":\"timeout\",\"live\":{live},\"confirmations\":{confirmations}"
    )?;
    write!(text, ",\"most\":{most},\"timeout\":{timeout_ms}}}")
}

/// Appends how the rounds of the minute before ended, and for how long the clock stood still in it.
#[tactic(auto, unfolding(crate::specs::Meaning::Json::minute_json))]
fn put_minute(
    ended: u64,
    suspected: u64,
    stood_still_ms: u64,
    text: &mut String,
) -> Result<(), NoMemory>
    ensures { OnOk result (string_bytes text.new
        ≡ string_bytes text.old ++ minute_json ended suspected stood_still_ms) }
{
    write!(
        text,
        "{{\"step\":\"minute\",\"ended\":{ended},\"suspected\":{suspected},\"stood_still\":{stood_still_ms}}}"
    )
}

/// Appends a step.
fn put_step(step: &NoteStep, text: &mut String) -> Result<(), NoMemory>
    ensures { OnOk result (string_bytes text.new ≡ string_bytes text.old ++ step_json step.now) }
{
    match step {
        NoteStep::Pinged { probe, addr } => put_pinged(*probe, addr, text),
        NoteStep::Unanswered { within, helpers } => put_unanswered(
            *within,
            helpers.as_slice(),
            text,
        ),
        NoteStep::Nacked { by } => put_by("nack", name_text(by), text),
        NoteStep::Acked { by } => put_by("ack", name_text(by), text),
        NoteStep::RoundEnded { is_failed } => put_ended(*is_failed, text),
        NoteStep::Scored { before, after } => put_scored(*before, *after, text),
        NoteStep::Told { claim } => put_record("told", claim, text),
        NoteStep::TimeOver => text.push_str("{\"step\":\"time_over\"}"),
        NoteStep::Changed { record } => put_record("changed", record, text),
        NoteStep::Suspected {
            live,
            confirmations,
            most,
            timeout_ms,
        } => put_timeout(*live, *confirmations, *most, *timeout_ms, text),
        NoteStep::Minute {
            ended,
            suspected,
            stood_still_ms,
        } => put_minute(*ended, *suspected, *stood_still_ms, text),
    }
}

/// Appends steps, each behind a comma.
fn put_other_steps(others: &[NoteStep], text: &mut String) -> Result<(), NoMemory>
    ensures { OnOk result
        (string_bytes text.new ≡ string_bytes text.old ++ flat_map (later_value step_json) others.now) }
{
    for step in others {
        text.push_str(",")?;
        put_step(step, text)?;
    }
    Ok(())
}

/// Appends steps, with commas between them.
pub(crate) fn put_steps(steps: &[NoteStep], text: &mut String) -> Result<(), NoMemory>
    ensures { OnOk result (string_bytes text.new ≡ string_bytes text.old ++ array_values step_json steps.now) }
{
    match steps {
        [] => Ok(()),
        [step, others @ ..] => {
            put_step(step, text)?;
            put_other_steps(others, text)
        }
    }
}
