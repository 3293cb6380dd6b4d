//! Writes the accounts of a member as text.
//!
//! Each function here that takes a `String` appends to it. If memory is refused, that is its only error, and the text
//! may have grown by a part of what was to be appended.
//!
//! Defined in: `specs/Meaning/Accounts.antt`.
//! Tested in: `lg_explain_tests/src/texts.rt`.
ghost use Rattle.std.specs.Prelude.{◌≡◌, ◌++◌, OnErr, OnOk, codes, decimal, map, string_bytes};
ghost use Rattle.std.specs.List.{flat_map};
ghost use Rattle.lg_accounts.specs.Meaning.Accounts.{account_text, accounts_text, fate_front, fate_text, heading_by};
ghost use Rattle.lg_accounts.specs.Meaning.Accounts.{missing_line, note_line, shown_entry, source_text};
ghost use Rattle.lg_accounts.specs.Meaning.Accounts.{text_of_accounts, verdict_heading};
ghost use Rattle.lg_accounts.specs.Meaning.Values.{account_value, note_value};

use crate::account::{Account, Note};
use crate::dates::put_date;
use crate::names::name_text;
use crate::sentences::put_sentences;
use crate::verdict::MemberVerdict;
use lg_detector::NoMemory;
use lg_rules::{Name, Status};

/// What became of the member by a verdict.
fn fate_text(status: &Status) -> &'static str
    ensures { result.now ≡ fate_text status.now }
{
    match status {
        Status::Alive => " was alive",
        Status::Suspect(_) => " was suspected",
        Status::Failed => " failed",
        Status::Left => " left",
    }
}

/// Appends from whom the node had a verdict.
fn put_source(teller: &Option<Name>, text: &mut String) -> Result<(), NoMemory>
    ensures { OnOk result (string_bytes text.new ≡ string_bytes text.old ++ source_text teller.now) }
{
    match teller {
        None => text.push_str("here"),
        Some(sender) => {
            let sender = name_text(sender);
            write!(text, "as {sender} told")
        }
    }
}

/// Appends whose fate it is, and the moment of it.
#[tactic(auto, unfolding(crate::specs::Meaning::Accounts::fate_front))]
fn put_fate(name: &str, fate: &str, moment: u64, text: &mut String) -> Result<(), NoMemory>
    ensures { OnOk result (string_bytes text.new ≡ string_bytes text.old ++ fate_front name.now fate.now moment) }
{
    write!(text, "{name}{fate} at {moment} ms (")
}

/// Appends the heading of an account that has this verdict.
#[tactic(auto, unfolding(crate::specs::Meaning::Accounts::verdict_heading))]
fn put_verdict(name: &str, verdict: &MemberVerdict, text: &mut String) -> Result<(), NoMemory>
    ensures { OnOk result (string_bytes text.new ≡ string_bytes text.old ++ verdict_heading name.now verdict.now) }
{
    let fate = fate_text(&verdict.record_after.status);
    put_fate(name, fate, verdict.moment.milliseconds(), text)?;
    put_date(verdict.wall_ms, text)?;
    text.push_str("), ")?;
    put_source(&verdict.teller, text)?;
    text.push_str(".")
}

/// Appends the heading of an account, by its last verdict.
pub(crate) fn put_heading(
    name: &str,
    verdict: &Option<MemberVerdict>,
    text: &mut String,
) -> Result<(), NoMemory>
    ensures { OnOk result (string_bytes text.new ≡ string_bytes text.old ++ heading_by name.now verdict.now) }
{
    match verdict {
        Some(verdict) => put_verdict(name, verdict, text),
        None => text.push_str(name),
    }
}

/// Appends the number of an entry, if it is shown.
fn put_entry(shows_entries: bool, entry: u64, text: &mut String) -> Result<(), NoMemory>
    ensures { OnOk result (string_bytes text.new ≡ string_bytes text.old ++ shown_entry shows_entries entry) }
{
    if shows_entries {
        write!(text, " [{entry}]")
    } else {
        Ok(())
    }
}

/// Appends two blanks and a moment.
fn put_moment(moment: u64, text: &mut String) -> Result<(), NoMemory>
    ensures { OnOk result (string_bytes text.new ≡ string_bytes text.old ++ (codes "  " ++ decimal moment)) }
{
    write!(text, "  {moment}")
}

/// Appends the line of an entry.
#[tactic(auto, unfolding(crate::specs::Meaning::Accounts::note_line))]
fn put_note(shows_entries: bool, note: &Note, text: &mut String) -> Result<(), NoMemory>
    ensures { OnOk result (string_bytes text.new
        ≡ string_bytes text.old ++ note_line shows_entries (note_value note.now)) }
{
    put_moment(note.moment.milliseconds(), text)?;
    put_entry(shows_entries, note.entry, text)?;
    text.push_str("  ")?;
    put_sentences(&note.teller, &note.steps, text)?;
    text.push_str("\n")
}

/// Appends the lines of entries.
fn put_notes(shows_entries: bool, notes: &[Note], text: &mut String) -> Result<(), NoMemory>
    ensures { OnOk result (string_bytes text.new
        ≡ string_bytes text.old ++ flat_map (note_line shows_entries) (map note_value notes.now)) }
{
    for note in notes {
        put_note(shows_entries, note, text)?;
    }
    Ok(())
}

/// The last line of an account.
fn missing_line(is_known: bool) -> &'static str
    ensures { result.now ≡ missing_line is_known }
{
    if is_known {
        ""
    } else {
        "  Some of the past is missing, so scores and timeouts may not be told.\n"
    }
}

/// Appends an account.
#[tactic(auto, unfolding(crate::specs::Meaning::Accounts::account_text))]
fn put_account(
    name: &str,
    shows_entries: bool,
    account: &Account,
    text: &mut String,
) -> Result<(), NoMemory>
    ensures { OnOk result (string_bytes text.new
        ≡ string_bytes text.old ++ account_text name.now shows_entries (account_value account.now)) }
{
    put_heading(name, &account.verdict(), text)?;
    text.push_str("\n")?;
    put_notes(shows_entries, &account.notes, text)?;
    text.push_str(missing_line(account.is_known))
}

/// Appends accounts, one behind another.
fn put_others(
    name: &str,
    shows_entries: bool,
    others: &[Account],
    text: &mut String,
) -> Result<(), NoMemory>
    ensures { OnOk result (string_bytes text.new
        ≡ string_bytes text.old ++ flat_map (account_text name.now shows_entries) (map account_value others.now)) }
{
    for account in others {
        put_account(name, shows_entries, account, text)?;
    }
    Ok(())
}

/// Appends all accounts, or that there are none.
fn put_all(
    name: &str,
    shows_entries: bool,
    accounts: &[Account],
    text: &mut String,
) -> Result<(), NoMemory>
    ensures { OnOk result (string_bytes text.new
        ≡ string_bytes text.old ++ text_of_accounts name.now shows_entries (map account_value accounts.now)) }
{
    match accounts {
        [] => {
            text.push_str(name)?;
            text.push_str(" has not been suspected, and has neither failed nor left.\n")
        }
        [account, others @ ..] => {
            put_account(name, shows_entries, account, text)?;
            put_others(name, shows_entries, others, text)
        }
    }
}

/// Appends the accounts of a member to a text, in the order given: of each the heading, a line for each entry, and a
/// last line if some of the past is missing. If there are none, it appends a line that says so.
///
/// With `shows_entries` the number of an entry in its life stands behind its moment. Moments are in milliseconds, and
/// dates in UTC. Memory is allocated for what is appended, once to write it and once if the text has to grow. The only
/// error is that memory was refused; the text is then unchanged.
#[tactic(auto, unfolding(crate::specs::Meaning::Accounts::accounts_text))]
pub fn put_accounts(
    member: &Name,
    accounts: &[Account],
    shows_entries: bool,
    text: &mut Vec<u8>,
) -> Result<(), NoMemory>
    ensures put { OnOk result
        (text.new.items ≡ text.old.items ++ accounts_text member.now shows_entries accounts.now) }
    ensures refused { OnErr result (text.new.items ≡ text.old.items) }
{
    let mut written = String::new(*text.allocator());
    put_all(name_text(member), shows_entries, accounts, &mut written)?;
    text.extend_from_slice(written.as_bytes())
}
