//! Paths of files and folders.
//!
//! Defined in: `specs/Meaning/Paths.antt`.
//! Tested in: `cases/config_key_file.case`, `cases/config_record.case`, `lg_command_tests/src/config.rt`.
ghost use Rattle.std.specs.Prelude.{◌≡◌};
ghost use Rattle.lg_config.specs.Meaning.Paths.{is_path, is_path_byte, path_of};

use arrayvec::ArrayVec;
use lg_timing::is_within;
use std::marker::Model;
use std::str;

/// The most bytes of a path: 255 (this project's choice).
pub const MAX_PATH: usize = 255;

/// The path of a file or a folder: a text of 1 to 255 bytes of printable ASCII. A contract sees its bytes.
#[derive(Debug, Drop)]
pub struct FilePath {
    bytes: ArrayVec<u8, MAX_PATH>,
}

impl Model for FilePath {
    ghost use Rattle.std.specs.Prelude.{◌≡◌, true, ℕ, List};
    ghost use Rattle.std.specs.Str.{is_utf8};

    ghost Value = { List ℕ };

    ghost view = { λ p. p.bytes.items };

    ghost invariant = { λ p. is_utf8 p.bytes.items ≡ true };
}

/// Whether a byte may stand in a path: it is printable ASCII, so that a terminal takes it for nothing else.
fn is_path_byte(byte: u8) -> bool
    ensures { result ≡ is_path_byte byte }
{
    matches!(byte, b' '..=b'~')
}

/// Whether a text is a path.
fn is_path(text: &[u8]) -> bool
    ensures { result ≡ is_path text.now }
{
    is_within(1, MAX_PATH as u64, text.len() as u64) && text.iter().all(|byte| is_path_byte(*byte))
}

impl FilePath {
    /// The path that a text is. None if the text has no bytes, more than 255, or one that isn't printable ASCII.
    pub fn of(text: &str) -> Option<FilePath>
        ensures { result ≡ path_of text.now }
    {
        if !is_path(text.as_bytes()) {
            return None;
        }
        let mut bytes = ArrayVec::new();
        bytes.try_extend_from_slice(text.as_bytes()).ok()?;
        Some(FilePath { bytes })
    }

    /// An equal path. Allocates nothing.
    pub fn copy(&self) -> FilePath
        ensures { result ≡ self.now }
    {
        let mut bytes = ArrayVec::new();
        bytes.try_extend_from_slice(&self.bytes).unwrap();
        FilePath { bytes }
    }

    /// The text of the path.
    pub fn as_str(&self) -> &str
        ensures { result.now ≡ self.now }
    {
        match str::from_utf8(self.bytes.as_slice()) {
            Ok(text) => text,
            Err(_) => unreachable!(),
        }
    }
}
