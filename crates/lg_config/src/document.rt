//! Reads the bytes of a file as TOML, and puts options in place of what it says.
//!
//! Defined in: `specs/Meaning/Answer.antt`, `Options.antt`.
//! Tested in: `cases/config.case`.
ghost use Rattle.lg_config.specs.Meaning.Options.{options_of};
ghost use Rattle.lg_config.specs.Support.Reading.{IsTableWith, IsParsed, IsText, SaysUnread};

use crate::fault::{FileFault, ReadFault};
use crate::given::{Given, with_options};
use std::alloc::{AllocError, Global};
use std::str;
use toml::Table;
use toml::de::Error;

/// The most bytes of a configuration file: 65,536 (this project's choice).
pub const MAX_FILE: usize = 65_536;

/// Why bytes weren't read as a document.
#[derive(Clone, Copy, Debug)]
pub(crate) enum Unread {
    /// Memory was refused.
    NoMemory,
    /// There are too many.
    TooLong,
    /// They aren't UTF-8.
    NoUtf8,
    /// They are no TOML.
    NoToml(Error),
}

impl From<Unread> for ReadFault {
    ghost from_gives = { λ unread told. SaysUnread unread told };

    fn from(unread: Unread) -> ReadFault {
        match unread {
            Unread::NoMemory => ReadFault::NoMemory,
            Unread::TooLong | Unread::NoUtf8 | Unread::NoToml(_) => ReadFault::File(
                FileFault::Syntax,
            ),
        }
    }
}

/// The text that the bytes of a file spell, if they are UTF-8 and not too many.
fn text_in(bytes: &[u8]) -> Result<&str, Unread>
    ensures { IsText bytes.now result }
{
    if bytes.len() > MAX_FILE {
        return Err(Unread::TooLong);
    }
    match str::from_utf8(bytes) {
        Ok(text) => Ok(text),
        Err(_) => Err(Unread::NoUtf8),
    }
}

/// The table that the bytes of a file spell.
///
/// The error says why they spell none, or that memory was refused. The memory that is allocated is that of the table.
fn table_in(alloc: Global, bytes: &[u8]) -> Result<Table, Unread>
    ensures { IsParsed bytes.now result }
{
    let text = match text_in(bytes) {
        Ok(text) => text,
        Err(unread) => return Err(unread),
    };
    match toml::table_from_str(alloc, text) {
        Ok(table) => Ok(table),
        Err(error) if error.is_memory() => Err(Unread::NoMemory),
        Err(error) => Err(Unread::NoToml(error)),
    }
}

/// The table that the bytes of a file and options spell together.
///
/// The error says why the bytes spell none, or that memory was refused. The memory that is allocated is that of the
/// table.
pub(crate) fn table_with(alloc: Global, bytes: &[u8], given: &[Given<'_>]) -> Result<Table, Unread>
    ensures { IsTableWith (options_of given.now) bytes.now result }
{
    let mut table = match table_in(alloc, bytes) {
        Ok(table) => table,
        Err(unread) => return Err(unread),
    };
    if given.is_empty() {
        return Ok(table);
    }
    match with_options(alloc, given, &mut table) {
        Ok(()) => Ok(table),
        Err(AllocError) => Err(Unread::NoMemory),
    }
}
