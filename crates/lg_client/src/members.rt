//! Reads the members of an answer.
//!
//! Defined in: `specs/Meaning/Members.antt`.
//! Tested in: `lg_client_tests/src/asking.rt`, `lg_client_tests/src/damaged.rt`, `lg_client_tests/src/edits.rt`.
ghost use Rattle.std.specs.Prelude.{◌≡◌};
ghost use Rattle.serde_json.specs.View.{items_view, view};
ghost use Rattle.lg_client.specs.Meaning.Fields.{each_read};
ghost use Rattle.lg_client.specs.Meaning.Members.{addr_said, incarnation_said, member_said, members_of_answer};
ghost use Rattle.lg_client.specs.Meaning.Members.{incarnation_among, plain_status, standing_said};
ghost use Rattle.lg_client.specs.Meaning.Members.{status_said, suspicion_said};
ghost use Rattle.lg_client.specs.Support.Reading.{IsReadAs, PutsRow};

use crate::fault::AskFault;
use crate::fields::{name_at, natural_at, rows_at, text_at};
use lg_rules::{Addr, Claim, Incarnation, Record, Status};
use lg_text::{ip_in, port_among};
use serde_json::Value;
use std::alloc::Global;

/// The address of a member, of IPv4 or IPv6, and its port.
#[tactic(auto, unfolding(crate::specs::Meaning::Members::addr_said))]
fn addr_in(member: &Value) -> Option<Addr>
    ensures { result ≡ addr_said (view member.now) }
{
    let ip = ip_in(text_at(member, "address")?)?;
    let port = port_among(natural_at(member, "port")?)?;
    Some(Addr { ip, port })
}

/// A status, if the member has no accuser.
fn plain_status(status: Status, member: &Value) -> Option<Status>
    ensures { result ≡ plain_status status (view member.now) }
{
    match member.get("accuser") {
        Some(Value::Null) => Some(status),
        _ => None,
    }
}

/// The status of a member that is suspected: its accuser.
fn suspicion_in(member: &Value) -> Option<Status>
    ensures { result ≡ suspicion_said (view member.now) }
{
    match name_at(member, "accuser") {
        Some(accuser) => Some(Status::Suspect(accuser)),
        None => None,
    }
}

/// The status of a member whose status has this word.
fn standing_in(word: &[u8], member: &Value) -> Option<Status>
    ensures { result ≡ standing_said word.now (view member.now) }
{
    if word == "alive".as_bytes() {
        plain_status(Status::Alive, member)
    } else if word == "suspect".as_bytes() {
        suspicion_in(member)
    } else if word == "failed".as_bytes() {
        plain_status(Status::Failed, member)
    } else if word == "left".as_bytes() {
        plain_status(Status::Left, member)
    } else {
        None
    }
}

/// The status of a member, with its accuser if it is suspected.
fn status_in(member: &Value) -> Option<Status>
    ensures { result ≡ status_said (view member.now) }
{
    match text_at(member, "status") {
        Some(word) => standing_in(word.as_bytes(), member),
        None => None,
    }
}

/// A number as an incarnation, if it is at most 1,000,000,000.
fn incarnation_of(number: u64) -> Option<Incarnation>
    ensures { result ≡ incarnation_among number }
{
    match u32::try_from(number) {
        Ok(number) => Incarnation::new(number),
        Err(_) => None,
    }
}

/// The incarnation that an object says.
pub(crate) fn incarnation_in(object: &Value) -> Option<Incarnation>
    ensures { result ≡ incarnation_said (view object.now) }
{
    match natural_at(object, "incarnation") {
        Some(number) => incarnation_of(number),
        None => None,
    }
}

/// The record of a member.
#[tactic(auto, unfolding(crate::specs::Meaning::Members::member_said))]
pub(crate) fn member_in(member: &Value) -> Option<Record>
    ensures { result ≡ member_said (view member.now) }
{
    let name = name_at(member, "name")?;
    let addr = addr_in(member)?;
    let status = status_in(member)?;
    let incarnation = incarnation_in(member)?;
    Some(Claim {
        name,
        addr,
        status,
        incarnation,
    })
}

/// Appends a record to others.
fn put_row(rows: &mut Vec<Record>, member: &Record) -> Result<(), AskFault>
    ensures { PutsRow rows.old.items rows.new.items member.now result }
{
    // Built anew from its parts, since the checker doesn't follow a whole record into a generic call.
    let Claim {
        name,
        addr,
        status,
        incarnation,
    } = *member;
    let row = Claim {
        name,
        addr,
        status,
        incarnation,
    };
    match rows.push(row) {
        Ok(()) => Ok(()),
        Err(_) => Err(AskFault::Memory),
    }
}

/// The records that the elements of an array say.
fn rows_in(alloc: Global, values: &[Value]) -> Result<Vec<Record>, AskFault>
    ensures { IsReadAs (λ rows. rows.items) (each_read member_said (items_view values.now)) result }
{
    let mut rows = Vec::new(alloc);
    for value in values {
        let Some(row) = member_in(value) else {
            return Err(AskFault::Bad);
        };
        match put_row(&mut rows, &row) {
            Ok(()) => {}
            Err(fault) => return Err(fault),
        }
    }
    Ok(rows)
}

/// The members that an answer says. If one of them isn't what is documented, that is [`AskFault::Bad`]. Memory is
/// allocated for the records.
pub(crate) fn members_in(alloc: Global, answer: &Value) -> Result<Vec<Record>, AskFault>
    ensures { IsReadAs (λ rows. rows.items) (members_of_answer (view answer.now)) result }
{
    match rows_at(answer, "members") {
        Some(values) => rows_in(alloc, values),
        None => Err(AskFault::Bad),
    }
}
