//! Explains the files of a folder.
//!
//! Defined in: `specs/Meaning/Folders.antt`, `specs/Support/FolderAccounts.antt`,
//! `lg_replay/specs/Meaning/Folders.antt`.
//! Tested in: `lg_explain_tests/src/explaining.rt`.
ghost use Rattle.std.specs.Prelude.{◌≡◌, ◌∷◌, ◌++◌, [], ℕ, List, IfErr, IfOk, OnOk, false, map};
ghost use Rattle.lg_replay.specs.Meaning.Files.{RecordingFile};
ghost use Rattle.lg_replay.specs.Meaning.Folders.{FilesCall, file_number};
ghost use Rattle.lg_explain.specs.Meaning.Folders.{ExplainsAll, ExplainsListed, FailsAtReading};
ghost use Rattle.lg_explain.specs.Meaning.Folders.{FailsToExplain};
ghost use Rattle.lg_explain.specs.Support.Explained.{HasExplained};
ghost use Rattle.lg_explain.specs.Support.FolderAccounts.{TakenAll, TakenOnByFile, TakenSoFar};

use crate::explainer::Explainer;
use crate::question::MemberQuestion;
use lg_accounts::Account;
use lg_replay::{DiskFiles, FolderFault, RecordingFiles, list_numbers, read_bytes};
use std::alloc::Global;
use std::fs::Files;

/// Reads the file with a number, and takes it. Its bytes are freed then.
fn take_next<S: RecordingFiles>(
    alloc: Global,
    files: &mut S,
    number: u64,
    question: &MemberQuestion,
    explainer: &mut Explainer,
) -> Result<(), FolderFault>
    ensures done { OnOk result ((before : List FilesCall) (earlier : List RecordingFile)
        → TakenSoFar S.tells before (S.past files.old) explainer.old question.now earlier
        → TakenOnByFile S.tells before (S.past files.new) explainer.new question.now earlier number) }
    ensures fault { IfErr result (λ fault. (before : List FilesCall) (earlier : List RecordingFile)
        (numbers others : List ℕ)
        → TakenSoFar S.tells before (S.past files.old) explainer.old question.now earlier
        → numbers ≡ map file_number earlier ++ number ∷ others
        → FailsAtReading S.tells before (S.past files.new) numbers fault) }
{
    let _ = question;
    let bytes = read_bytes(alloc, files, number)?;
    explainer.take_file(alloc, &bytes)?;
    Ok(())
}

/// Reads the files with these numbers one after another, and takes each.
fn take_each<S: RecordingFiles>(
    alloc: Global,
    files: &mut S,
    numbers: &[u64],
    question: &MemberQuestion,
    explainer: &mut Explainer,
) -> Result<(), FolderFault>
    requires { HasExplained explainer.old question.now [] }
    ensures done { OnOk result (TakenAll S.tells (S.past files.old) (S.past files.new) numbers.now explainer.new
        question.now) }
    ensures fault { IfErr result (FailsAtReading S.tells (S.past files.old) (S.past files.new) numbers.now) }
{
    for number in numbers {
        take_next(alloc, files, *number, question, explainer)?;
    }
    Ok(())
}

/// Explains the files of a recording behind their list.
fn explain_listed<S: RecordingFiles>(
    alloc: Global,
    files: &mut S,
    numbers: &[u64],
    question: &MemberQuestion,
) -> Result<Vec<Account>, FolderFault>
    ensures done { IfOk result (λ accounts. ExplainsListed S.tells (S.past files.old) (S.past files.new) numbers.now
        question.now accounts.items) }
    ensures fault { IfErr result (FailsAtReading S.tells (S.past files.old) (S.past files.new) numbers.now) }
{
    let mut explainer = Explainer::new(alloc, *question)?;
    take_each(alloc, files, numbers, question, &mut explainer)?;
    let accounts = explainer.finish(alloc)?;
    Ok(accounts)
}

/// The accounts of a recording that are asked for, by its files.
///
/// They are listed once, and read in the order of their numbers: each whole, and freed before the next is read. So the
/// memory is in proportion to the greatest file, to the accounts that are kept, and to the episode that runs, besides a
/// detector.
///
/// The error says what of that failed: [`FolderFault::Write`] never comes. No accounts are given then.
pub fn explain_files<S: RecordingFiles>(
    alloc: Global,
    files: &mut S,
    question: &MemberQuestion,
) -> Result<Vec<Account>, FolderFault>
    ensures done { IfOk result (λ accounts. ExplainsAll S.tells (S.past files.old) (S.past files.new) question.now
        accounts.items) }
    ensures fault { IfErr result (FailsToExplain S.tells (S.past files.old) (S.past files.new)) }
{
    let numbers = list_numbers(alloc, files)?;
    explain_listed(alloc, files, &numbers, question)
}

/// The accounts of a recording in the folder at a path, as [`explain_files`] gives them.
///
/// A file's name is ten decimal digits and `.lgr`; other names are passed over. Contracts don't see what the machine
/// lists and reads: the accounts are the stated ones of some files in the order of their numbers.
pub fn explain_folder<R: Files + AllocGlobal + Clone + Drop>(
    rt: &R,
    alloc: Global,
    path: &str,
    question: &MemberQuestion,
) -> Result<Vec<Account>, FolderFault>
    ensures done { IfOk result (λ accounts. ExplainsAll false [] [] question.now accounts.items) }
    ensures fault { IfErr result (FailsToExplain false [] []) }
{
    let mut files = DiskFiles::new(rt, alloc, path);
    explain_files(alloc, &mut files, question)
}
