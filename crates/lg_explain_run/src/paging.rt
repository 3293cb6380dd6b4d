//! Tells about a member from the recording in a folder by a page in a file, and tells how that went.
//!
//! Defined in: `specs/Meaning/Paging.antt`, `specs/Meaning/Running.antt`, `lg_accounts/specs/Meaning/Pages.antt`,
//! `lg_explain/specs/Meaning/Folders.antt`, `lg_replay_run/specs/Meaning/Running.antt`.
//! Tested in: `cases/explain.case`, `cases/recordings`, `lg_explain_tests/src/paging.rt`.
ghost use Rattle.std.specs.Prelude.{◌≡◌, IfErr, IfOk};
ghost use Rattle.lg_explain_run.specs.Meaning.Paging.{ExplainsPage, IsOfReading, WritesFile};
ghost use Rattle.lg_explain_run.specs.Support.Pages.{IsPage};

use crate::files::PageFiles;
use crate::running::status_of;
use crate::telling::tell_unwritten;
use lg_accounts::put_accounts_page;
use lg_explain::{MemberQuestion, explain_folder};
use lg_replay::FolderFault;
use lg_replay_run::tell_fault;
use lg_text::FaultStream;
use std::alloc::Global;
use std::fs::Files;

/// A page, and the exit status if it is written.
#[derive(Drop)]
struct Page {
    text: Vec<u8>,
    status: u8,
}

/// Tells what a question asks about a member from the recording in the folder at a path, as [`explain_folder`] finds
/// it, by a page of HTML, which it writes into the file at another path. Gives the exit status: 0 if there is an
/// account, and 1 if there is none, which the page says.
///
/// It is 1 as well if the folder or a file of it can't be read or memory is refused, which [`tell_fault`] tells, and if
/// the page can't be written. That is told by two lines: `lg: write`, and which file it is, and why. The page is
/// written once all of it is made. So the file is as it was unless it is the writing that fails, and then it has a
/// beginning of the page if it could be opened ([`PageFiles::write`]).
pub fn explain_page<R, P, F>(
    rt: &R,
    alloc: Global,
    folder: &str,
    question: &MemberQuestion,
    path: &str,
    files: &mut P,
    faults: &mut F,
) -> u8
where
    R: Files + AllocGlobal + Clone + Drop,
    P: PageFiles,
    F: FaultStream,
    ensures { ExplainsPage P.tells (P.past files.old) (P.past files.new) (F.reported faults.old)
        (F.reported faults.new) folder.now question.now path.now result }
{
    match page_of(rt, alloc, folder, question) {
        Ok(page) => write_page(alloc, &page, path, files, faults),
        Err(fault) => tell_fault(alloc, folder, fault, faults),
    }
}

/// The page of what a question asks about a member, and the status by whether there is an account.
fn page_of<R: Files + AllocGlobal + Clone + Drop>(
    rt: &R,
    alloc: Global,
    folder: &str,
    question: &MemberQuestion,
) -> Result<Page, FolderFault>
    ensures page { IfOk result (IsPage question.now) }
    ensures fault { IfErr result IsOfReading }
{
    let accounts = explain_folder(rt, alloc, folder, question)?;
    let mut text = Vec::new(alloc);
    put_accounts_page(&question.name, &accounts, &mut text)?;
    let status = status_of(&accounts);
    Ok(Page { text, status })
}

/// Writes a page into the file at a path, and gives the status of the page. If it can't be written, that is told, and
/// the status is 1.
fn write_page<P: PageFiles, F: FaultStream>(
    alloc: Global,
    page: &Page,
    path: &str,
    files: &mut P,
    faults: &mut F,
) -> u8
    ensures { WritesFile P.tells (P.past files.old) (P.past files.new) (F.reported faults.old) (F.reported faults.new)
        path.now page.now.text.items page.now.status result }
{
    match files.write(path, &page.text) {
        Ok(()) => page.status,
        Err(kind) => tell_unwritten(alloc, path, kind, faults),
    }
}
