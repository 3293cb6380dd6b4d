//! The command `version`: which version the program has, and how it was built.
//!
//! Defined in: `specs/Meaning/Version.antt`.
//! Tested in: `cases/command_line.case`, `gate/package`, `lg_command_refusals/src/plays.rt`.
ghost use Rattle.std.specs.Prelude.{◌≡◌, IfOk};
ghost use Rattle.lg_commands.specs.Meaning.Version.{build_lines, build_in, unknown_lines, version_lines};
ghost use Rattle.lg_commands.specs.Meaning.Version.{version_text};

use lg_text::cut_at;
use std::alloc::{AllocError, Global};

/// The version of the program, and those of the packets that it reads and writes.
const VERSION_LINES: &str = "version 0.9.0\npackets 1 to 3\n";

/// What is written if the end of the program's file has no note of a build.
const UNKNOWN_LINES: &str =
    "commit unknown\nkit unknown\nproved unknown: the program has no note of its build\n";

/// The mark with which a note begins.
const BUILD_MARK: &[u8] = b"lg build 1\n";

/// The version of the program, and of the packets, as lines.
#[tactic(auto, unfolding(crate::specs::Meaning::Version::version_lines))]
fn version_lines() -> &'static [u8]
    ensures { result.now ≡ version_lines }
{
    VERSION_LINES.as_bytes()
}

/// What is written if there is no note.
#[tactic(auto, unfolding(crate::specs::Meaning::Version::unknown_lines))]
fn unknown_lines() -> &'static [u8]
    ensures { result.now ≡ unknown_lines }
{
    UNKNOWN_LINES.as_bytes()
}

/// What the end of the program's file says of its build, as lines.
fn build_lines(end: &[u8]) -> &[u8]
    ensures { result.now ≡ build_lines (build_in end.now) }
{
    match end.strip_prefix(BUILD_MARK) {
        Some(note) => {
            let (lines, _) = cut_at(note, 0);
            lines
        }
        None => unknown_lines(),
    }
}

/// What the command `version` writes, by the end of the program's file (this project's choice). The error is refused
/// memory.
#[tactic(auto, unfolding(crate::specs::Meaning::Version::version_text))]
pub(crate) fn version_text(alloc: Global, end: &[u8]) -> Result<Vec<u8>, AllocError>
    ensures { IfOk result (λ text. text.items ≡ version_text end.now) }
{
    let mut text = Vec::new(alloc);
    text.extend_from_slice(version_lines())?;
    text.extend_from_slice(build_lines(end))?;
    Ok(text)
}
