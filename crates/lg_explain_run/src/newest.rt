//! What a node's recording tells of a member while the node records: by the newest files of its folder.
//!
//! Defined in: `specs/Meaning/Newest.antt`, `lg_explain/specs/Meaning/Folders.antt`.
//! Tested in: `lg_answers_tests/src/showing.rt`, `cases/recordings`.
ghost use Rattle.std.specs.Prelude.{◌≡◌, IfOk};
ghost use Rattle.lg_explain_run.specs.Meaning.Newest.{TellsNewest, latest_question};

use crate::form::{AccountForm, text_of};
use lg_explain::{MemberQuestion, explain_files};
use lg_recorder::{DiskFolder, RecordFolder};
use lg_replay::{DiskFiles, FolderFault, RecordingFiles};
use lg_rules::Name;
use lg_timing::{MAX_MOMENT, Moment};
use std::alloc::Global;
use std::fs::Files;
use std::io::ErrorKind;

/// How many bytes the newest files have at most that are read (this project's choice): two files of a recording with
/// the default `record_mb`.
pub const MAX_NEWEST_BYTES: u64 = 16_777_216;

/// The newest files of a recording in a folder of the machine: as many of the last ones as have at most
/// [`MAX_NEWEST_BYTES`] together.
#[derive(Drop)]
struct NewestFiles<'p, R: Files> {
    alloc: Global,
    folder: DiskFolder<R>,
    files: DiskFiles<'p, R>,
}

impl<'p, R: Files + AllocGlobal + Clone + Drop> RecordingFiles for NewestFiles<'p, R> {
    ghost use Rattle.std.specs.Prelude.{false, []};

    ghost tells = { false };

    ghost past = { λ d. [] };

    fn list(&mut self, numbers: &mut Vec<u64>) -> Result<(), ErrorKind> {
        numbers.clear();
        let mut stored = Vec::new(self.alloc);
        self.folder.list(&mut stored)?;
        let mut left = MAX_NEWEST_BYTES;
        for file in stored.iter().rev() {
            if file.size > left {
                break;
            }
            left -= file.size;
            if numbers.push(file.number).is_err() {
                return Err(ErrorKind::OutOfMemory);
            }
        }
        numbers.sort_unstable();
        Ok(())
    }

    fn read(&mut self, number: u64, bytes: &mut Vec<u8>) -> Result<(), ErrorKind> {
        self.files.read(number, bytes)
    }
}

/// What is asked for: the latest account of a member.
fn latest_question(name: &Name) -> MemberQuestion
    ensures { result ≡ latest_question name.now }
{
    MemberQuestion {
        name: *name,
        at: Moment::new(MAX_MOMENT).unwrap(),
        all: false,
    }
}

/// What the newest files of the recording in the folder at a path tell of a member, as JSON: its latest account, as
/// [`explain_recording`](crate::explain_recording) writes it. The node may write the files meanwhile: what of an entry
/// isn't there whole isn't read.
///
/// The newest files are as many of the last ones as have at most [`MAX_NEWEST_BYTES`] together. Each is read whole, and
/// freed before the next is read. The error says what of that failed: [`FolderFault::NoFile`] if the folder has no file
/// of a recording, or only a larger one last; [`FolderFault::Write`] never comes.
pub fn explain_newest<R: Files + AllocGlobal + Clone + Drop>(
    rt: &R,
    alloc: Global,
    folder: &str,
    name: &Name,
) -> Result<Vec<u8>, FolderFault>
    ensures { IfOk result (λ text. TellsNewest name.now text.items) }
{
    let path = format!(in alloc; "{folder}")?;
    let mut files = NewestFiles {
        alloc,
        folder: DiskFolder::new(rt.clone()?, alloc, path),
        files: DiskFiles::new(rt, alloc, folder),
    };
    let question = latest_question(name);
    let accounts = explain_files(alloc, &mut files, &question)?;
    let text = text_of(alloc, name, &accounts, AccountForm::Json)?;
    Ok(text)
}
