//! Writes the members that are alive as targets of Prometheus, for its discovery of services over HTTP.
//!
//! Defined in: `specs/Meaning/Targets.antt`, `lg_text/specs/Meaning/Addresses.antt`.
//! Tested in: `lg_answers_tests/src/answer.rt`, `gate/watching`.
ghost use Rattle.std.specs.Prelude.{◌≡◌, ◌++◌, IfOk, OnOk, string_bytes};
ghost use Rattle.std.specs.List.{flat_map};
ghost use Rattle.lg_text.specs.Meaning.Addresses.{addr_text};
ghost use Rattle.lg_answers.specs.Meaning.Members.{behind_comma, comma_separated};
ghost use Rattle.lg_answers.specs.Meaning.Targets.{address_label, name_label, target_addr, target_field, target_json};
ghost use Rattle.lg_answers.specs.Meaning.Targets.{target_port, targets_body};

use crate::members::members_of;
use crate::route::StatusKind;
use crate::snapshot::Snapshot;
use lg_check::text_of_name;
use lg_rules::{Addr, Record};
use lg_text::put_addr;
use std::alloc::{AllocError, Global};

/// The port of the targets: the one that is asked for, or else that at which the node itself answers.
fn target_port(asked: Option<u16>, status: Option<Addr>) -> Option<u16>
    ensures { result ≡ target_port asked status }
{
    match (asked, status) {
        (Some(port), _) => Some(port),
        (None, Some(addr)) => Some(addr.port),
        (None, None) => None,
    }
}

/// Where the target of a member answers: at the member's address, and at this port if there is one.
fn target_addr(port: Option<u16>, addr: &Addr) -> Addr
    ensures { result ≡ target_addr port addr.now }
{
    match port {
        Some(port) => Addr { ip: addr.ip, port },
        None => *addr,
    }
}

/// Appends an address and a port between words.
fn put_between(before: &str, addr: &Addr, behind: &str, text: &mut String) -> Result<(), AllocError>
    ensures { OnOk result (string_bytes text.new
        ≡ string_bytes text.old ++ (before.now ++ (addr_text addr.now ++ behind.now))) }
{
    text.push_str(before)?;
    put_addr(addr, text)?;
    text.push_str(behind)
}

/// Appends the brace of a group and its target.
#[tactic(auto, unfolding(crate::specs::Meaning::Targets::target_field))]
fn put_target_field(addr: &Addr, text: &mut String) -> Result<(), AllocError>
    ensures { OnOk result (string_bytes text.new ≡ string_bytes text.old ++ target_field addr.now) }
{
    put_between("{\"targets\":[\"", addr, "\"],", text)
}

/// Appends the label with the name of a member. No byte of a name needs an escape.
#[tactic(auto, unfolding(crate::specs::Meaning::Targets::name_label))]
fn put_name_label(name: &str, text: &mut String) -> Result<(), AllocError>
    ensures { OnOk result (string_bytes text.new ≡ string_bytes text.old ++ name_label name.now) }
{
    write!(text, "\"labels\":{{\"__meta_lg_name\":\"{name}\",")
}

/// Appends the label with the address of a member, and the braces behind it.
#[tactic(auto, unfolding(crate::specs::Meaning::Targets::address_label))]
fn put_address_label(addr: &Addr, text: &mut String) -> Result<(), AllocError>
    ensures { OnOk result (string_bytes text.new ≡ string_bytes text.old ++ address_label addr.now) }
{
    put_between("\"__meta_lg_address\":\"", addr, "\"}}", text)
}

/// Appends a group with the target of a member.
#[tactic(auto, unfolding(crate::specs::Meaning::Targets::target_json))]
fn put_target(port: Option<u16>, member: &Record, text: &mut String) -> Result<(), AllocError>
    ensures { OnOk result (string_bytes text.new ≡ string_bytes text.old ++ target_json port member.now) }
{
    put_target_field(&target_addr(port, &member.addr), text)?;
    put_name_label(text_of_name(&member.name), text)?;
    put_address_label(&member.addr, text)
}

/// Appends groups, each behind a comma.
fn put_other_targets(
    port: Option<u16>,
    members: &[Record],
    text: &mut String,
) -> Result<(), AllocError>
    ensures { OnOk result
        (string_bytes text.new ≡ string_bytes text.old ++ flat_map (behind_comma (target_json port)) members.now) }
{
    for member in members {
        text.push_str(",")?;
        put_target(port, member, text)?;
    }
    Ok(())
}

/// Appends groups with commas between them.
fn put_targets(port: Option<u16>, members: &[Record], text: &mut String) -> Result<(), AllocError>
    ensures { OnOk result
        (string_bytes text.new ≡ string_bytes text.old ++ comma_separated (target_json port) members.now) }
{
    match members {
        [] => Ok(()),
        [member, others @ ..] => {
            put_target(port, member, text)?;
            put_other_targets(port, others, text)
        }
    }
}

/// The body of the targets of a look: a group for each member that is alive, this one too, in the order of names. Each
/// target is at the port that is asked for, or else at that of this node's own status server. Memory is allocated for
/// the text and for a copy of the records.
#[tactic(auto, unfolding(crate::specs::Meaning::Targets::targets_body))]
pub(crate) fn targets_body(
    alloc: Global,
    snapshot: &Snapshot,
    status: Option<Addr>,
    asked: Option<u16>,
) -> Result<String, AllocError>
    ensures { IfOk result (λ body. string_bytes body ≡ targets_body snapshot.now status asked) }
{
    let alive = members_of(alloc, StatusKind::Alive, &snapshot.records)?;
    let mut text = String::new(alloc);
    text.push_str("[")?;
    put_targets(target_port(asked, status), &alive, &mut text)?;
    text.push_str("]")?;
    Ok(text)
}
