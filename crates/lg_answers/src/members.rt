//! Writes members as JSON.
//!
//! Each function here that is named `put_` appends to a text. If memory is refused, that is its only error, and the
//! text may have grown by a part of what was to be appended.
//!
//! Defined in: `specs/Meaning/Members.antt`.
//! Tested in: `lg_answers_tests/src/answer.rt`.
ghost use Rattle.std.specs.Prelude.{◌≡◌, ◌++◌, IfOk, OnOk, codes, decimal, string_bytes};
ghost use Rattle.std.specs.List.{flat_map};
ghost use Rattle.lg_lines.specs.Meaning.Records.{status_text};
ghost use Rattle.lg_answers.specs.Meaning.Members.{behind_address, behind_comma, comma_separated, member_body};
ghost use Rattle.lg_answers.specs.Meaning.Members.{member_fields, member_json, members_asked, members_body};
ghost use Rattle.lg_answers.specs.Meaning.Members.{members_front_of, moment_front};
ghost use Rattle.lg_answers.specs.Support.Pieces.{accuser_end, behind_front, behind_name, standing_words};

use crate::route::StatusKind;
use crate::snapshot::Snapshot;
use itoa::Buffer;
use lg_check::text_of_name;
use lg_rules::{Addr, Record, Status};
use lg_text::put_ip;
use std::alloc::{AllocError, Global};

/// The most bytes of a member with its comma.
const MEMBER_BYTES: usize = 198;

/// The most bytes of what stands around the members.
const AROUND_BYTES: usize = 128;

/// The word for a status.
pub(crate) fn status_word(status: &Status) -> &'static str
    ensures { result.now ≡ status_text status.now }
{
    match status {
        Status::Alive => "alive",
        Status::Suspect(_) => "suspect",
        Status::Failed => "failed",
        Status::Left => "left",
    }
}

/// Appends a number in decimal. A table has two for each member, and `write!` takes longer for them.
fn put_number(number: u64, text: &mut String) -> Result<(), AllocError>
    ensures { OnOk result (string_bytes text.new ≡ string_bytes text.old ++ decimal number) }
{
    let mut digits = Buffer::new();
    text.push_str(digits.format(number))
}

/// Appends words and a number behind them.
fn put_numbered(words: &str, number: u64, text: &mut String) -> Result<(), AllocError>
    ensures { OnOk result (string_bytes text.new ≡ string_bytes text.old ++ (words.now ++ decimal number)) }
{
    text.push_str(words)?;
    put_number(number, text)
}

/// Appends words and a text behind them.
fn put_text(words: &str, behind: &str, text: &mut String) -> Result<(), AllocError>
    ensures { OnOk result (string_bytes text.new ≡ string_bytes text.old ++ (words.now ++ behind.now)) }
{
    text.push_str(words)?;
    text.push_str(behind)
}

/// What stands between a name and an incarnation.
fn standing_words(status: &Status) -> &'static str
    ensures { result.now ≡ standing_words status.now }
{
    match status {
        Status::Alive => "\",\"status\":\"alive\",\"incarnation\":",
        Status::Suspect(_) => "\",\"status\":\"suspect\",\"incarnation\":",
        Status::Failed => "\",\"status\":\"failed\",\"incarnation\":",
        Status::Left => "\",\"status\":\"left\",\"incarnation\":",
    }
}

/// Appends words, and the name, the status and the incarnation of a member behind them.
fn put_standing(words: &str, member: &Record, text: &mut String) -> Result<(), AllocError>
    ensures { OnOk result (string_bytes text.new
        ≡ string_bytes text.old ++ (words.now ++ behind_name member.now)) }
{
    put_text(words, text_of_name(&member.name), text)?;
    let incarnation = u64::from(member.incarnation.number());
    put_numbered(standing_words(&member.status), incarnation, text)
}

/// Appends words, and an address and a port behind them.
pub(crate) fn put_address(words: &str, addr: &Addr, text: &mut String) -> Result<(), AllocError>
    ensures { OnOk result (string_bytes text.new
        ≡ string_bytes text.old ++ (words.now ++ behind_address addr.now)) }
{
    text.push_str(words)?;
    put_ip(&addr.ip, text)?;
    put_numbered("\",\"port\":", u64::from(addr.port), text)
}

/// Appends the accuser of a member that is suspected, or `null`, and the end of the member.
fn put_accuser(status: &Status, text: &mut String) -> Result<(), AllocError>
    ensures { OnOk result (string_bytes text.new ≡ string_bytes text.old ++ accuser_end status.now) }
{
    match status {
        Status::Suspect(accuser) => {
            put_text(",\"accuser\":\"", text_of_name(accuser), text)?;
            text.push_str("\"}")
        }
        Status::Alive | Status::Failed | Status::Left => text.push_str(",\"accuser\":null}"),
    }
}

/// Appends words and a member behind them, from its name on. Constant words that follow one another are one literal,
/// since a table has hundreds of members, and each piece takes its time.
#[tactic(auto, unfolding(crate::specs::Support::Pieces::behind_front))]
fn put_behind(words: &str, member: &Record, text: &mut String) -> Result<(), AllocError>
    ensures { OnOk result (string_bytes text.new
        ≡ string_bytes text.old ++ (words.now ++ behind_front member.now)) }
{
    put_standing(words, member, text)?;
    put_address(",\"address\":\"", &member.addr, text)?;
    put_accuser(&member.status, text)
}

/// Appends the fields of a member, and the brace behind them.
pub(crate) fn put_fields(member: &Record, text: &mut String) -> Result<(), AllocError>
    ensures { OnOk result (string_bytes text.new
        ≡ string_bytes text.old ++ (member_fields member.now ++ codes "}")) }
{
    put_behind("\"name\":\"", member, text)
}

/// Appends a member.
fn put_member(member: &Record, text: &mut String) -> Result<(), AllocError>
    ensures { OnOk result (string_bytes text.new ≡ string_bytes text.old ++ member_json member.now) }
{
    put_behind("{\"name\":\"", member, text)
}

/// Appends a comma and a member.
fn put_other(member: &Record, text: &mut String) -> Result<(), AllocError>
    ensures { OnOk result (string_bytes text.new ≡ string_bytes text.old ++ behind_comma member_json member.now) }
{
    put_behind(",{\"name\":\"", member, text)
}

/// Appends members, each behind a comma.
fn put_others(members: &[Record], text: &mut String) -> Result<(), AllocError>
    ensures { OnOk result
        (string_bytes text.new ≡ string_bytes text.old ++ flat_map (behind_comma member_json) members.now) }
{
    for member in members {
        put_other(member, text)?;
    }
    Ok(())
}

/// Appends members with commas between them.
fn put_members(members: &[Record], text: &mut String) -> Result<(), AllocError>
    ensures { OnOk result
        (string_bytes text.new ≡ string_bytes text.old ++ comma_separated member_json members.now) }
{
    match members {
        [] => Ok(()),
        [member, others @ ..] => {
            put_member(member, text)?;
            put_others(others, text)
        }
    }
}

/// The members of one status, in the order that they have.
pub(crate) fn members_of(
    alloc: Global,
    kind: StatusKind,
    members: &[Record],
) -> Result<Vec<Record>, AllocError>
    ensures { IfOk result (λ found. found.items ≡ members_asked (Some kind) members.now) }
{
    let found = members
        .iter()
        .copied()
        .filter(|member| kind.is_of(&member.status))
        .collect(alloc)?;
    Ok(found)
}

/// Appends the members of one status, with commas between them.
fn put_members_of(
    alloc: Global,
    kind: StatusKind,
    members: &[Record],
    text: &mut String,
) -> Result<(), AllocError>
    ensures { OnOk result (string_bytes text.new ≡ string_bytes text.old
        ++ comma_separated member_json (members_asked (Some kind) members.now)) }
{
    let found = members_of(alloc, kind, members)?;
    put_members(&found, text)
}

/// Appends a version and a moment.
#[tactic(auto, unfolding(crate::specs::Meaning::Members::moment_front))]
pub(crate) fn put_moment(version: u64, moment: u64, text: &mut String) -> Result<(), AllocError>
    ensures { OnOk result (string_bytes text.new ≡ string_bytes text.old ++ moment_front version moment) }
{
    write!(text, "{{\"version\":{version},\"moment_ms\":{moment},")
}

/// Appends what stands between the moment and the members.
#[tactic(auto, unfolding(crate::specs::Meaning::Members::members_front_of))]
fn put_members_front(name: &str, text: &mut String) -> Result<(), AllocError>
    ensures { OnOk result (string_bytes text.new ≡ string_bytes text.old ++ members_front_of name.now) }
{
    write!(text, "\"name\":\"{name}\",\"members\":[")
}

/// The body of the members of a look: all, or those of one status, in the order of names. Memory is allocated for the
/// text, once, 198 bytes for each record, and for a copy of the records if a status is asked for.
#[tactic(auto, unfolding(crate::specs::Meaning::Members::members_body))]
pub(crate) fn members_body(
    alloc: Global,
    snapshot: &Snapshot,
    kind: Option<StatusKind>,
) -> Result<String, AllocError>
    ensures { IfOk result (λ body. string_bytes body ≡ members_body snapshot.now kind) }
{
    let room = snapshot.records.len().saturating_mul(MEMBER_BYTES);
    let mut text = String::with_capacity(alloc, room.saturating_add(AROUND_BYTES))?;
    put_moment(snapshot.version, snapshot.moment.milliseconds(), &mut text)?;
    put_members_front(text_of_name(&snapshot.name), &mut text)?;
    match kind {
        Some(kind) => put_members_of(alloc, kind, &snapshot.records, &mut text)?,
        None => put_members(&snapshot.records, &mut text)?,
    }
    text.push_str("]}")?;
    Ok(text)
}

/// The body of one member.
#[tactic(auto, unfolding(crate::specs::Meaning::Members::member_body))]
pub(crate) fn member_body(
    alloc: Global,
    version: u64,
    member: &Record,
) -> Result<String, AllocError>
    ensures { IfOk result (λ body. string_bytes body ≡ member_body version member.now) }
{
    let mut text = String::new(alloc);
    write!(text, "{{\"version\":{version},")?;
    put_fields(member, &mut text)?;
    Ok(text)
}
