//! Writes what an entry tells of a member, in sentences.
//!
//! Each function here appends to a text. If memory is refused, that is its only error, and the text may have grown by a
//! part of what was to be appended.
//!
//! Defined in: `specs/Meaning/Sentences.antt`.
//! Tested in: `lg_explain_tests/src/texts.rt`.
ghost use Rattle.std.specs.Prelude.{◌≡◌, ◌++◌, OnOk, string_bytes};
ghost use Rattle.std.specs.List.{flat_map};
ghost use Rattle.lg_text.specs.Meaning.Addresses.{addr_text};
ghost use Rattle.lg_accounts.specs.Meaning.Sentences.{asked_text, at_incarnation, changed_text, claim_by_status};
ghost use Rattle.lg_accounts.specs.Meaning.Sentences.{claim_text, ended_text, acked_text, helper_text, live_text};
ghost use Rattle.lg_accounts.specs.Meaning.Sentences.{nacked_text, other_helpers, pinged_text, rose_or_fell};
ghost use Rattle.lg_accounts.specs.Meaning.Sentences.{rounds_text, scored_text, sentence_behind, sentence_text};
ghost use Rattle.lg_accounts.specs.Meaning.Sentences.{sentences_text, stood_text, timeout_text, told_alive, told_gone};
ghost use Rattle.lg_accounts.specs.Meaning.Sentences.{told_suspect, unanswered_text};

use crate::names::{name_text, teller_text};
use crate::step::{Helper, NoteStep};
use lg_detector::NoMemory;
use lg_rules::{Addr, Claim, Name, Status};
use lg_text::put_addr;

/// Appends that a probe began.
#[tactic(auto, unfolding(crate::specs::Meaning::Sentences::pinged_text))]
fn put_pinged(probe: u32, addr: &Addr, text: &mut String) -> Result<(), NoMemory>
    ensures { OnOk result (string_bytes text.new ≡ string_bytes text.old ++ pinged_text probe addr.now) }
{
    write!(text, "We pinged it (probe {probe}, at ")?;
    put_addr(addr, text)?;
    text.push_str(").")
}

/// Appends the name of a helper, or else its address.
fn put_helper(helper: &Helper, text: &mut String) -> Result<(), NoMemory>
    ensures { OnOk result (string_bytes text.new ≡ string_bytes text.old ++ helper_text helper.now) }
{
    match &helper.name {
        Some(name) => text.push_str(name_text(name)),
        None => put_addr(&helper.addr, text),
    }
}

/// Appends the helpers behind the first.
fn put_other_helpers(others: &[Helper], text: &mut String) -> Result<(), NoMemory>
    ensures { OnOk result (string_bytes text.new ≡ string_bytes text.old ++ other_helpers others.now) }
{
    let mut rest = others;
    'others: while let [helper, more @ ..] = rest {
        text.push_str(if more.is_empty() { " and " } else { ", " })?;
        put_helper(helper, text)?;
        rest = more;
    }
    Ok(())
}

/// Appends who was asked to ping the member.
#[tactic(auto, unfolding(crate::specs::Meaning::Sentences::asked_text))]
fn put_asked(helpers: &[Helper], text: &mut String) -> Result<(), NoMemory>
    ensures { OnOk result (string_bytes text.new ≡ string_bytes text.old ++ asked_text helpers.now) }
{
    match helpers {
        [] => text.push_str("There was nobody to ask."),
        [helper, others @ ..] => {
            text.push_str("We asked ")?;
            put_helper(helper, text)?;
            put_other_helpers(others, text)?;
            text.push_str(" to ping it.")
        }
    }
}

/// Appends that no Ack came in time, and who was asked then.
#[tactic(auto, unfolding(crate::specs::Meaning::Sentences::unanswered_text))]
fn put_unanswered(within: u64, helpers: &[Helper], text: &mut String) -> Result<(), NoMemory>
    ensures { OnOk result (string_bytes text.new ≡ string_bytes text.old ++ unanswered_text within helpers.now) }
{
    write!(text, "No Ack came within {within} ms. ")?;
    put_asked(helpers, text)
}

/// Appends who sent a Nack.
#[tactic(auto, unfolding(crate::specs::Meaning::Sentences::nacked_text))]
fn put_nacked(by: &str, text: &mut String) -> Result<(), NoMemory>
    ensures { OnOk result (string_bytes text.new ≡ string_bytes text.old ++ nacked_text by.now) }
{
    write!(text, "{by} sent a Nack: no Ack of it had come.")
}

/// Appends who sent an Ack.
#[tactic(auto, unfolding(crate::specs::Meaning::Sentences::acked_text))]
fn put_acked(by: &str, text: &mut String) -> Result<(), NoMemory>
    ensures { OnOk result (string_bytes text.new ≡ string_bytes text.old ++ acked_text by.now) }
{
    write!(text, "{by} sent an Ack.")
}

/// The sentence that says how a round ended.
fn ended_text(is_failed: bool) -> &'static str
    ensures { result.now ≡ ended_text is_failed }
{
    if is_failed {
        "The round ended without an Ack."
    } else {
        "The round ended."
    }
}

/// The word for how the score changed.
fn rose_or_fell(before: u64, after: u64) -> &'static str
    ensures { result.now ≡ rose_or_fell before after }
{
    if after < before { "fell" } else { "rose" }
}

/// Appends how the health score changed.
#[tactic(auto, unfolding(crate::specs::Meaning::Sentences::scored_text))]
fn put_scored(before: u64, after: u64, text: &mut String) -> Result<(), NoMemory>
    ensures { OnOk result (string_bytes text.new ≡ string_bytes text.old ++ scored_text before after) }
{
    let verb = rose_or_fell(before, after);
    write!(text, "Our health score {verb} from {before} to {after}.")
}

/// Appends who told that the member is alive.
#[tactic(auto, unfolding(crate::specs::Meaning::Sentences::told_alive))]
fn put_told_alive(
    teller: &str,
    incarnation: u32,
    addr: &Addr,
    text: &mut String,
) -> Result<(), NoMemory>
    ensures { OnOk result (string_bytes text.new
        ≡ string_bytes text.old ++ told_alive teller.now incarnation addr.now) }
{
    text.push_str(teller)?;
    write!(
        text,
        " told us that it is alive at incarnation {incarnation}, at "
    )?;
    put_addr(addr, text)?;
    text.push_str(".")
}

/// Appends who told that the member is suspected.
#[tactic(auto, unfolding(crate::specs::Meaning::Sentences::told_suspect))]
fn put_told_suspect(
    teller: &str,
    accuser: &str,
    incarnation: u32,
    text: &mut String,
) -> Result<(), NoMemory>
    ensures { OnOk result (string_bytes text.new
        ≡ string_bytes text.old ++ told_suspect teller.now accuser.now incarnation) }
{
    text.push_str(teller)?;
    write!(
        text,
        " told us that {accuser} suspects it at incarnation {incarnation}."
    )
}

/// Appends who told that the member failed or left.
#[tactic(auto, unfolding(crate::specs::Meaning::Sentences::told_gone))]
fn put_told_gone(
    teller: &str,
    fate: &str,
    incarnation: u32,
    text: &mut String,
) -> Result<(), NoMemory>
    ensures { OnOk result (string_bytes text.new
        ≡ string_bytes text.old ++ told_gone teller.now fate.now incarnation) }
{
    text.push_str(teller)?;
    write!(
        text,
        " told us that it {fate} at incarnation {incarnation}."
    )
}

/// Appends what a claim says of the member, and who told it.
fn put_claim(teller: &Option<Name>, claim: &Claim, text: &mut String) -> Result<(), NoMemory>
    ensures { OnOk result (string_bytes text.new ≡ string_bytes text.old ++ claim_text teller.now claim.now) }
{
    let teller = teller_text(teller);
    let incarnation = claim.incarnation.number();
    match &claim.status {
        Status::Alive => put_told_alive(teller, incarnation, &claim.addr, text),
        Status::Suspect(accuser) => {
            put_told_suspect(teller, name_text(accuser), incarnation, text)
        }
        Status::Failed => put_told_gone(teller, "failed", incarnation, text),
        Status::Left => put_told_gone(teller, "left", incarnation, text),
    }
}

/// Appends words, an incarnation and a full stop.
#[tactic(auto, unfolding(crate::specs::Meaning::Sentences::at_incarnation))]
fn put_at_incarnation(words: &str, incarnation: u32, text: &mut String) -> Result<(), NoMemory>
    ensures { OnOk result (string_bytes text.new ≡ string_bytes text.old ++ at_incarnation words.now incarnation) }
{
    write!(text, "{words} at incarnation {incarnation}.")
}

/// Appends what the member was taken as.
fn put_changed(status: &Status, incarnation: u32, text: &mut String) -> Result<(), NoMemory>
    ensures { OnOk result (string_bytes text.new ≡ string_bytes text.old ++ changed_text status.now incarnation) }
{
    match status {
        Status::Alive => put_at_incarnation("We took it as alive", incarnation, text),
        Status::Suspect(_) => put_at_incarnation("We suspected it", incarnation, text),
        Status::Failed => text.push_str("We took it as failed."),
        Status::Left => text.push_str("We took it as left."),
    }
}

/// Appends how many live members were known.
#[tactic(auto, unfolding(crate::specs::Meaning::Sentences::live_text))]
fn put_live(live: u64, text: &mut String) -> Result<(), NoMemory>
    ensures { OnOk result (string_bytes text.new ≡ string_bytes text.old ++ live_text live) }
{
    write!(text, "We knew {live} live members. ")
}

/// Appends the timeout of a suspicion.
#[tactic(auto, unfolding(crate::specs::Meaning::Sentences::timeout_text))]
fn put_timeout(
    confirmations: u64,
    most: u64,
    timeout_ms: u64,
    text: &mut String,
) -> Result<(), NoMemory>
    ensures { OnOk result (string_bytes text.new
        ≡ string_bytes text.old ++ timeout_text confirmations most timeout_ms) }
{
    write!(
        text,
        "After {confirmations} of {most} confirmations the timeout was {timeout_ms} ms."
    )
}

/// Appends how the rounds of the minute before ended.
#[tactic(auto, unfolding(crate::specs::Meaning::Sentences::rounds_text))]
fn put_rounds(ended: u64, suspected: u64, text: &mut String) -> Result<(), NoMemory>
    ensures { OnOk result (string_bytes text.new ≡ string_bytes text.old ++ rounds_text ended suspected) }
{
    write!(
        text,
        "In the minute before, {ended} of our rounds ended, {suspected} of them with a suspicion, "
    )
}

/// Appends for how long the clock stood still in it.
#[tactic(auto, unfolding(crate::specs::Meaning::Sentences::stood_text))]
fn put_stood(stood_still_ms: u64, text: &mut String) -> Result<(), NoMemory>
    ensures { OnOk result (string_bytes text.new ≡ string_bytes text.old ++ stood_text stood_still_ms) }
{
    write!(text, "and our clock stood still for {stood_still_ms} ms.")
}

/// Appends the sentences of a step. `teller` is the sender of the packet that was heard, if one was.
pub(crate) fn put_sentence(
    teller: &Option<Name>,
    step: &NoteStep,
    text: &mut String,
) -> Result<(), NoMemory>
    ensures { OnOk result (string_bytes text.new ≡ string_bytes text.old ++ sentence_text teller.now step.now) }
{
    match step {
        NoteStep::Pinged { probe, addr } => put_pinged(*probe, addr, text),
        NoteStep::Unanswered { within, helpers } => put_unanswered(
            *within,
            helpers.as_slice(),
            text,
        ),
        NoteStep::Nacked { by } => put_nacked(name_text(by), text),
        NoteStep::Acked { by } => put_acked(name_text(by), text),
        NoteStep::RoundEnded { is_failed } => text.push_str(ended_text(*is_failed)),
        NoteStep::Scored { before, after } => put_scored(*before, *after, text),
        NoteStep::Told { claim } => put_claim(teller, claim, text),
        NoteStep::TimeOver => text.push_str("The time was over, and no refutation had come."),
        NoteStep::Changed { record } => {
            put_changed(&record.status, record.incarnation.number(), text)
        }
        NoteStep::Suspected {
            live,
            confirmations,
            most,
            timeout_ms,
        } => {
            put_live(*live, text)?;
            put_timeout(*confirmations, *most, *timeout_ms, text)
        }
        NoteStep::Minute {
            ended,
            suspected,
            stood_still_ms,
        } => {
            put_rounds(*ended, *suspected, text)?;
            put_stood(*stood_still_ms, text)
        }
    }
}

/// Appends the sentences of some steps, each step behind a blank.
fn put_other_sentences(
    teller: &Option<Name>,
    others: &[NoteStep],
    text: &mut String,
) -> Result<(), NoMemory>
    ensures { OnOk result (string_bytes text.new
        ≡ string_bytes text.old ++ flat_map (sentence_behind teller.now) others.now) }
{
    for step in others {
        text.push_str(" ")?;
        put_sentence(teller, step, text)?;
    }
    Ok(())
}

/// Appends the sentences of some steps, with a blank between them.
pub(crate) fn put_sentences(
    teller: &Option<Name>,
    steps: &[NoteStep],
    text: &mut String,
) -> Result<(), NoMemory>
    ensures { OnOk result (string_bytes text.new ≡ string_bytes text.old ++ sentences_text teller.now steps.now) }
{
    match steps {
        [] => Ok(()),
        [step, others @ ..] => {
            put_sentence(teller, step, text)?;
            put_other_sentences(teller, others, text)
        }
    }
}
