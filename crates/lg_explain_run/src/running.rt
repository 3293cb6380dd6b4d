//! Tells about a member from the recording in a folder, and tells how that went.
//!
//! Defined in: `specs/Meaning/Running.antt`, `lg_explain/specs/Meaning/Folders.antt`,
//! `lg_replay_run/specs/Meaning/Running.antt`.
//! Tested in: `cases/explain.case`, `cases/recordings`.
ghost use Rattle.std.specs.Prelude.{◌≡◌, IfErr, IfOk};
ghost use Rattle.lg_explain_run.specs.Meaning.Running.{ExplainsFolder, LacksAccounts, TellsAccounts, accounts_status};

use crate::form::{AccountForm, text_of};
use lg_accounts::Account;
use lg_explain::{MemberQuestion, explain_folder};
use lg_replay::FolderFault;
use lg_replay_run::tell_fault;
use lg_text::{FaultStream, write_whole};
use std::alloc::Global;
use std::fs::Files;
use std::io::Write;

/// Tells what a question asks about a member from the recording in the folder at a path, as [`explain_folder`] finds
/// it, and gives the exit status: 0 if there is an account, and 1 if there is none, which is written too.
///
/// It is 1 as well if the folder or a file can't be read, memory is refused, or the text can't be written, and
/// [`tell_fault`] tells that. The text is written once all of it is made, and then the writer is flushed: so nothing is
/// written unless it is the writing that fails, and then a beginning of it may be.
pub fn explain_recording<R, W, F>(
    rt: &R,
    alloc: Global,
    folder: &str,
    question: &MemberQuestion,
    form: AccountForm,
    writer: &mut W,
    faults: &mut F,
) -> u8
where
    R: Files + AllocGlobal + Clone + Drop,
    W: Write,
    F: FaultStream,
    ensures { ExplainsFolder (W.contents writer.old) (W.contents writer.new) (F.reported faults.old)
        (F.reported faults.new) folder.now question.now form result }
{
    match tell_accounts(rt, alloc, folder, question, form, writer) {
        Ok(status) => status,
        Err(fault) => tell_fault(alloc, folder, fault, faults),
    }
}

/// Writes the accounts, and gives the status.
fn tell_accounts<R, W>(
    rt: &R,
    alloc: Global,
    folder: &str,
    question: &MemberQuestion,
    form: AccountForm,
    writer: &mut W,
) -> Result<u8, FolderFault>
where
    R: Files + AllocGlobal + Clone + Drop,
    W: Write,
    ensures told { IfOk result (TellsAccounts (W.contents writer.old) (W.contents writer.new) question.now form) }
    ensures fault { IfErr result (LacksAccounts (W.contents writer.old) (W.contents writer.new) question.now form) }
{
    let accounts = explain_folder(rt, alloc, folder, question)?;
    let text = text_of(alloc, &question.name, &accounts, form)?;
    write_whole(writer, &text)?;
    Ok(status_of(&accounts))
}

/// The exit status by the accounts.
pub(crate) fn status_of(accounts: &[Account]) -> u8
    ensures { result ≡ accounts_status accounts.now }
{
    if accounts.is_empty() { 1 } else { 0 }
}
