//! The lines in words: who starts, which address was found, why a socket can't be bound, why a file can't be read, and
//! why a status server ended early.
//!
//! Defined in: `specs/Meaning/Words.antt`.
//! Tested in: `lg_command_tests/src/launch/starts.rt`, `cases/node.case`.
ghost use Rattle.std.specs.Prelude.{◌≡◌, IfOk, string_bytes};
ghost use Rattle.lg_run.specs.Meaning.Words.{bind_words, link_reason, read_reason, read_words};
ghost use Rattle.std.specs.Option.{option_map};
ghost use Rattle.lg_run.specs.Meaning.Words.{auto_line, file_words, seed_count, start_line, unfound_reason};

use lg_check::{addr_text, text_of_name};
use lg_config::NodeConfig;
use lg_rules::Addr;
use std::alloc::{AllocError, Global};
use std::io::ErrorKind;

/// How many seeds there are, in words.
fn seed_count(alloc: Global, count: usize) -> Result<String, AllocError>
    ensures { IfOk result (λ text. string_bytes text ≡ seed_count count) }
{
    if count == 1 {
        String::from_str(alloc, "1 seed")
    } else {
        format!(in alloc; "{count} seeds")
    }
}

/// The file of a configuration, or that there is none, in words.
fn file_words(alloc: Global, file: Option<&str>) -> Result<String, AllocError>
    ensures { IfOk result (λ text. string_bytes text ≡ file_words (option_map (λ path. path.now) file.entry)) }
{
    match file {
        Some(path) => format!(in alloc; "file {path}"),
        None => String::from_str(alloc, "no file"),
    }
}

/// The line of a node that starts: who runs where, with which file, in which version it writes its packets, and how
/// many seeds it has. Allocates the line; the only error is that memory was refused.
pub(crate) fn start_line(
    alloc: Global,
    file: Option<&str>,
    node: &NodeConfig,
) -> Result<String, AllocError>
    ensures { IfOk result (λ text.
        string_bytes text ≡ start_line (option_map (λ path. path.now) file.entry) node.now) }
{
    let addr = addr_text(alloc, node.config.addr)?;
    let seeds = seed_count(alloc, node.seeds.len())?;
    let file = file_words(alloc, file)?;
    let name = text_of_name(&node.config.name);
    let wire = node.config.wire;
    format!(in alloc; "lg: {name} at {addr}, {file}, wire {wire}, {seeds}\n")
}

/// The line that says which address of its own a node found. Allocates the line; the only error is that memory was
/// refused.
pub(crate) fn auto_line(alloc: Global, addr: Addr) -> Result<String, AllocError>
    ensures { IfOk result (λ text. string_bytes text ≡ auto_line addr) }
{
    let addr = addr_text(alloc, addr)?;
    format!(in alloc; "lg: the address auto is {addr}\n")
}

/// The reason of a node whose address of its own wasn't found, as a line.
pub(crate) fn unfound_reason() -> &'static str
    ensures { result.now ≡ unfound_reason }
{
    "the address auto wasn't found: no seed resolves to an address that this machine reaches\n"
}

/// Why an address can't be bound.
fn bind_words(kind: ErrorKind) -> &'static str
    ensures { result.now ≡ bind_words kind }
{
    match kind {
        ErrorKind::AddrInUse => "the address is in use",
        ErrorKind::AddrNotAvailable => "the address isn't one of this machine's",
        ErrorKind::PermissionDenied => "permission is denied",
        ErrorKind::OutOfMemory => "memory is refused",
        _ => "the machine refuses it",
    }
}

/// The reason of a socket that can't be bound to an address, as a line. Allocates the line; the only error is that
/// memory was refused.
pub(crate) fn link_reason(alloc: Global, addr: Addr, kind: ErrorKind) -> Result<String, AllocError>
    ensures { IfOk result (λ text. string_bytes text ≡ link_reason addr kind) }
{
    let addr = addr_text(alloc, addr)?;
    let words = bind_words(kind);
    format!(in alloc; "{addr} can't be bound: {words}\n")
}

/// Why a file can't be read.
fn read_words(kind: ErrorKind) -> &'static str
    ensures { result.now ≡ read_words kind }
{
    match kind {
        ErrorKind::NotFound => "there is no such file",
        ErrorKind::IsADirectory => "it is a folder",
        ErrorKind::NotADirectory => "a part of its path is no folder",
        ErrorKind::PermissionDenied => "permission is denied",
        _ => "the machine refuses it",
    }
}

/// The reason of a file that can't be read, as a line. Allocates the line; the only error is that memory was refused.
pub(crate) fn read_reason(alloc: Global, file: &str, kind: ErrorKind) -> Result<String, AllocError>
    ensures { IfOk result (λ text. string_bytes text ≡ read_reason file.now kind) }
{
    let words = read_words(kind);
    format!(in alloc; "the file {file} can't be read: {words}\n")
}
