//! Writes the accounts of a member as JSON. Nothing in them needs an escape.
//!
//! Each function here that takes a `String` appends to it. If memory is refused, that is its only error, and the text
//! may have grown by a part of what was to be appended.
//!
//! Defined in: `specs/Meaning/Json.antt`.
//! Tested in: `lg_explain_tests/src/texts.rt`.
ghost use Rattle.std.specs.Prelude.{◌≡◌, ◌++◌, OnErr, OnOk, map, string_bytes};
ghost use Rattle.std.specs.List.{flat_map};
ghost use Rattle.lg_accounts.specs.Meaning.Json.{account_front, account_json, accounts_json, array_values, entry_json};
ghost use Rattle.lg_accounts.specs.Meaning.Json.{known_json, later_value, member_front, note_json, times_json};
ghost use Rattle.lg_accounts.specs.Meaning.Json.{json_of_accounts, verdict_json, verdict_status};
ghost use Rattle.lg_accounts.specs.Meaning.Values.{account_value, note_value};

use crate::account::{Account, Note};
use crate::json_steps::{put_name, put_steps};
use crate::names::{name_text, status_word, truth_word};
use crate::verdict::MemberVerdict;
use lg_detector::NoMemory;
use lg_rules::Name;

/// Appends a moment and a wall time, and the key of the sender of a packet.
#[tactic(auto, unfolding(crate::specs::Meaning::Json::times_json))]
fn put_times(moment: u64, wall_ms: u64, text: &mut String) -> Result<(), NoMemory>
    ensures { OnOk result (string_bytes text.new ≡ string_bytes text.old ++ times_json moment wall_ms) }
{
    write!(text, "\"moment\":{moment},\"wall\":{wall_ms},\"told_by\":")
}

/// Appends the number of an entry.
#[tactic(auto, unfolding(crate::specs::Meaning::Json::entry_json))]
fn put_entry(entry: u64, text: &mut String) -> Result<(), NoMemory>
    ensures { OnOk result (string_bytes text.new ≡ string_bytes text.old ++ entry_json entry) }
{
    write!(text, "{{\"entry\":{entry},")
}

/// Appends an entry.
#[tactic(auto, unfolding(crate::specs::Meaning::Json::note_json))]
fn put_note(note: &Note, text: &mut String) -> Result<(), NoMemory>
    ensures { OnOk result (string_bytes text.new ≡ string_bytes text.old ++ note_json (note_value note.now)) }
{
    put_entry(note.entry, text)?;
    put_times(note.moment.milliseconds(), note.wall_ms, text)?;
    put_name(&note.teller, text)?;
    text.push_str(",\"steps\":[")?;
    put_steps(&note.steps, text)?;
    text.push_str("]}")
}

/// Appends entries, each behind a comma.
fn put_other_notes(others: &[Note], text: &mut String) -> Result<(), NoMemory>
    ensures { OnOk result (string_bytes text.new
        ≡ string_bytes text.old ++ flat_map (later_value note_json) (map note_value others.now)) }
{
    for note in others {
        text.push_str(",")?;
        put_note(note, text)?;
    }
    Ok(())
}

/// Appends entries, with commas between them.
fn put_notes(notes: &[Note], text: &mut String) -> Result<(), NoMemory>
    ensures { OnOk result (string_bytes text.new
        ≡ string_bytes text.old ++ array_values note_json (map note_value notes.now)) }
{
    match notes {
        [] => Ok(()),
        [note, others @ ..] => {
            put_note(note, text)?;
            put_other_notes(others, text)
        }
    }
}

/// Appends the status of a verdict.
#[tactic(auto, unfolding(crate::specs::Meaning::Json::verdict_status))]
fn put_status(status: &str, text: &mut String) -> Result<(), NoMemory>
    ensures { OnOk result (string_bytes text.new ≡ string_bytes text.old ++ verdict_status status.now) }
{
    write!(text, "{{\"status\":\"{status}\",")
}

/// Appends the fields of a verdict.
#[tactic(auto, unfolding(crate::specs::Meaning::Json::verdict_json))]
fn put_verdict(verdict: &MemberVerdict, text: &mut String) -> Result<(), NoMemory>
    ensures { OnOk result (string_bytes text.new ≡ string_bytes text.old ++ verdict_json verdict.now) }
{
    put_status(status_word(&verdict.record_after.status), text)?;
    put_times(verdict.moment.milliseconds(), verdict.wall_ms, text)?;
    put_name(&verdict.teller, text)
}

/// Appends the fields of the last verdict of an account.
fn put_account_front(verdict: &Option<MemberVerdict>, text: &mut String) -> Result<(), NoMemory>
    ensures { OnOk result (string_bytes text.new ≡ string_bytes text.old ++ account_front verdict.now) }
{
    match verdict {
        None => { text.push_str("{\"status\":null,\"moment\":null,\"wall\":null,\"told_by\":null") }
        Some(verdict) => put_verdict(verdict, text),
    }
}

/// Appends whether all events since the opening are known, and the key of the entries.
#[tactic(auto, unfolding(crate::specs::Meaning::Json::known_json))]
fn put_known(is_known: bool, text: &mut String) -> Result<(), NoMemory>
    ensures { OnOk result (string_bytes text.new ≡ string_bytes text.old ++ known_json is_known) }
{
    let truth = truth_word(is_known);
    write!(text, ",\"known\":{truth},\"notes\":[")
}

/// Appends an account.
#[tactic(auto, unfolding(crate::specs::Meaning::Json::account_json))]
fn put_account(account: &Account, text: &mut String) -> Result<(), NoMemory>
    ensures { OnOk result (string_bytes text.new ≡ string_bytes text.old ++ account_json (account_value account.now)) }
{
    put_account_front(&account.verdict(), text)?;
    put_known(account.is_known, text)?;
    put_notes(&account.notes, text)?;
    text.push_str("]}")
}

/// Appends accounts, each behind a comma.
fn put_others(others: &[Account], text: &mut String) -> Result<(), NoMemory>
    ensures { OnOk result (string_bytes text.new
        ≡ string_bytes text.old ++ flat_map (later_value account_json) (map account_value others.now)) }
{
    for account in others {
        text.push_str(",")?;
        put_account(account, text)?;
    }
    Ok(())
}

/// Appends accounts, with commas between them.
fn put_list(accounts: &[Account], text: &mut String) -> Result<(), NoMemory>
    ensures { OnOk result (string_bytes text.new
        ≡ string_bytes text.old ++ array_values account_json (map account_value accounts.now)) }
{
    match accounts {
        [] => Ok(()),
        [account, others @ ..] => {
            put_account(account, text)?;
            put_others(others, text)
        }
    }
}

/// Appends what stands before the accounts.
#[tactic(auto, unfolding(crate::specs::Meaning::Json::member_front))]
fn put_front(name: &str, text: &mut String) -> Result<(), NoMemory>
    ensures { OnOk result (string_bytes text.new ≡ string_bytes text.old ++ member_front name.now) }
{
    write!(text, "{{\"member\":\"{name}\",\"accounts\":[")
}

/// Appends a member and its accounts, as a line.
fn put_line(name: &str, accounts: &[Account], text: &mut String) -> Result<(), NoMemory>
    ensures { OnOk result (string_bytes text.new
        ≡ string_bytes text.old ++ json_of_accounts name.now (map account_value accounts.now)) }
{
    put_front(name, text)?;
    put_list(accounts, text)?;
    text.push_str("]}\n")
}

/// Appends the accounts of a member to a text as JSON, in the order given: one line, with a newline at its end.
///
/// Moments and wall times are in milliseconds, wall times since the beginning of 1970 in UTC. Memory is allocated for
/// what is appended, once to write it and once if the text has to grow. The only error is that memory was refused; the
/// text is then unchanged.
#[tactic(auto, unfolding(crate::specs::Meaning::Json::accounts_json))]
pub fn put_accounts_json(
    member: &Name,
    accounts: &[Account],
    text: &mut Vec<u8>,
) -> Result<(), NoMemory>
    ensures put { OnOk result (text.new.items ≡ text.old.items ++ accounts_json member.now accounts.now) }
    ensures refused { OnErr result (text.new.items ≡ text.old.items) }
{
    let mut written = String::new(*text.allocator());
    put_line(name_text(member), accounts, &mut written)?;
    text.extend_from_slice(written.as_bytes())
}
