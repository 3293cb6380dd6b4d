//! Says in words why a file and options mean no configuration.
//!
//! Defined in: `specs/Meaning/Reasons.antt`.
//! Tested in: `cases/config_reasons.case`, `lg_command_tests/src/config.rt`.
ghost use Rattle.std.specs.Prelude.{◌≡◌, ◌≤◌, ℕ, List, IfOk, length, string_bytes};
ghost use Rattle.toml.specs.Errors.{IsMemory, IsWithin, span_start};
ghost use Rattle.toml.specs.View.{table_view};
ghost use Rattle.lg_config.specs.Meaning.Options.{options_of};
ghost use Rattle.lg_config.specs.Meaning.Reasons.{config_reason, key_of_fault, line_at, line_reason, reason_of};
ghost use Rattle.lg_config.specs.Meaning.Reasons.{unnumbered_reason, IsReason, IsTomlReason};

use crate::bind_reasons::bind_reason;
use crate::document::{Unread, table_with};
use crate::family::family_reason;
use crate::fault::FileFault;
use crate::finding::auto_reason;
use crate::form_reasons::{path_reason, seeds_reason, value_reason};
use crate::given::Given;
use crate::group_reasons::group_reason;
use crate::key_reasons::key_reason;
use crate::keys::KEY_FILE;
use crate::leave_reasons::leave_reason;
use crate::lookup::seeds_at;
use crate::node_keys::NodeKey;
use crate::ranges::{member_reason, own_reason};
use crate::status_reasons::{loopback_reason, open_reason, status_reason};
use lg_timing::{ConfigFault, KEYS, Key};
use std::alloc::{AllocError, Global};
use toml::Table;
use toml::de::Error;

/// The key of the member's number that has a fault. None for the faults of the seeds and of the group.
fn key_of_fault(fault: ConfigFault) -> Option<Key>
    ensures { result ≡ key_of_fault fault }
{
    KEYS.iter()
        .copied()
        .find(|key| key.row().fault.number() == fault.number())
}

/// The reason of a fault of no number: of the group, or else of the seeds.
fn unnumbered_reason(alloc: Global, fault: ConfigFault, table: &Table) -> Result<String, AllocError>
    ensures { IfOk result (λ text. string_bytes text ≡ unnumbered_reason fault (table_view table.now)) }
{
    match fault {
        ConfigFault::Group => group_reason(alloc, table),
        _ => seeds_reason(alloc, seeds_at(table)),
    }
}

/// The reason of a fault that the check of a configuration finds, given the key of the member's number that has it.
fn config_reason(
    alloc: Global,
    key: Option<Key>,
    fault: ConfigFault,
    table: &Table,
) -> Result<String, AllocError>
    ensures { IfOk result (λ text. string_bytes text ≡ config_reason key fault (table_view table.now)) }
{
    match key {
        Some(key) => member_reason(alloc, key, table),
        None => unnumbered_reason(alloc, fault, table),
    }
}

/// The reason of a table's fault.
fn reason_of(alloc: Global, fault: FileFault, table: &Table) -> Result<String, AllocError>
    ensures { IfOk result (λ text. string_bytes text ≡ reason_of fault (table_view table.now)) }
{
    match fault {
        FileFault::Config(broken) => config_reason(alloc, key_of_fault(broken), broken, table),
        FileFault::Syntax => String::from_str(alloc, "the file is TOML\n"),
        FileFault::Key => key_reason(alloc, table),
        FileFault::Value => value_reason(alloc, table),
        FileFault::Pull => own_reason(alloc, NodeKey::PullMs, table),
        FileFault::Stall => own_reason(alloc, NodeKey::StallMs, table),
        FileFault::Status => status_reason(alloc, table),
        FileFault::StatusOpen => open_reason(alloc, table),
        FileFault::StatusNotLoopback => loopback_reason(alloc, table),
        FileFault::KeyFile => path_reason(alloc, KEY_FILE, table),
        FileFault::Leave => leave_reason(alloc, table),
        FileFault::Bind => bind_reason(alloc, table),
        FileFault::Family => family_reason(alloc, table),
        FileFault::Resolve => own_reason(alloc, NodeKey::ResolveMs, table),
        FileFault::Auto => String::from_str(alloc, auto_reason()),
        FileFault::RecordMb => own_reason(alloc, NodeKey::RecordMb, table),
    }
}

/// The number of the line at a place of a text, from 1 on.
fn line_at(place: usize, text: &[u8]) -> u64
    requires { place ≤ length text.now }
    ensures { result ≡ line_at place text.now }
{
    let mut line = 1;
    for byte in &text[..place] {
        if *byte == b'\n' {
            line += 1;
        }
    }
    line
}

/// The reason of a line that is no TOML.
fn line_reason(alloc: Global, line: u64, message: &str) -> Result<String, AllocError>
    ensures { IfOk result (λ text. string_bytes text ≡ line_reason line message.now) }
{
    format!(in alloc; "line {line} is no TOML: {message}\n")
}

/// The place at which an error begins. An error of memory has none.
fn place_of(error: &Error) -> usize
    ensures within { (length : ℕ) → span_start error.now ≤ length → result ≤ length }
    ensures starts { ¬ (IsMemory error.now) → result ≡ span_start error.now }
{
    match error.span() {
        Some(span) => span.start,
        None => 0,
    }
}

/// The reason of a text that is no TOML.
fn toml_reason(alloc: Global, bytes: &[u8], error: &Error) -> Result<String, AllocError>
    requires { IsWithin bytes.now error.now }
    ensures reason { IfOk result (λ text. IsTomlReason bytes.now (string_bytes text)) }
    // The line is that in which the error begins.
    ensures line { ¬ (IsMemory error.now) → IfOk result (λ text. (message : List ℕ)
        × (string_bytes text ≡ line_reason (line_at (span_start error.now) bytes.now) message)) }
{
    line_reason(alloc, line_at(place_of(error), bytes), error.message())
}

/// What is wrong with a file and options whose answer is this fault, in a line of words.
///
/// It names the key, its value as it is given, and what is allowed. At most 64 bytes of a text are quoted, and
/// those that aren't printable ASCII are written as `?`, so that a terminal takes them for nothing else (this
/// project's choice). Of a file that is no TOML it names the line.
///
/// The file is read once more. The only error is that memory was refused. Memory is allocated for the table that both
/// spell, and for the line.
pub fn reason(
    alloc: Global,
    bytes: &[u8],
    given: &[Given<'_>],
    fault: FileFault,
) -> Result<String, AllocError>
    ensures { IfOk result (λ text. IsReason fault (options_of given.now) bytes.now (string_bytes text)) }
{
    match table_with(alloc, bytes, given) {
        Ok(table) => reason_of(alloc, fault, &table),
        Err(Unread::NoMemory) => Err(AllocError),
        Err(Unread::TooLong) => String::from_str(alloc, "the file has more than 65536 bytes\n"),
        Err(Unread::NoUtf8) => String::from_str(alloc, "the file isn't UTF-8\n"),
        Err(Unread::NoToml(error)) => toml_reason(alloc, bytes, &error),
    }
}
