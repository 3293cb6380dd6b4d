//! Pages that are written into files: what a file is handed, what is told of its faults, and files of the machine.

use crate::explaining::{EVENTS, file, question};
use lg_accounts::put_accounts_page;
use lg_explain::explain_folder;
use lg_explain_run::{MachineFiles, PageFiles, explain_page};
use lg_testing::FaultRow;
use lg_timing::MAX_MOMENT;
use std::alloc::{AllocError, Global};
use std::io::ErrorKind;
use std::test::Fail;
use std::{env, fs, process};

/// Files in memory: what was last written, and how often. Each write fails by an error of this kind, if there is one.
#[derive(Drop)]
struct MemoryFiles {
    path: String,
    text: Vec<u8>,
    writes: usize,
    kind: Option<ErrorKind>,
}

impl MemoryFiles {
    fn new(alloc: Global, kind: Option<ErrorKind>) -> MemoryFiles {
        MemoryFiles {
            path: String::new(alloc),
            text: Vec::new(alloc),
            writes: 0,
            kind,
        }
    }

    fn put(&mut self, path: &str, text: &[u8]) -> Result<(), AllocError> {
        self.writes = self.writes.saturating_add(1);
        self.path.clear();
        self.path.push_str(path)?;
        self.text.clear();
        self.text.extend_from_slice(text)
    }
}

impl PageFiles for MemoryFiles {
    ghost use Rattle.std.specs.Prelude.{false, []};

    ghost tells = { false };

    ghost past = { λ m. [] };

    fn write(&mut self, path: &str, text: &[u8]) -> Result<(), ErrorKind> {
        self.put(path, text).map_err(|_| ErrorKind::OutOfMemory)?;
        match self.kind {
            Some(kind) => Err(kind),
            None => Ok(()),
        }
    }
}

/// A folder of its own under the machine's temporary one, with the recording of one life.
fn recorded_path(rt: &HostRuntime, name: &str) -> Result<String, Fail> {
    let base = env::temp_dir(rt)?;
    let base = base.as_str();
    let id = process::id(rt.process());
    let path = format!(in rt.alloc(); "{base}/lg_page_{name}_{id}")?;
    fs::create_dir(rt, path.as_str())?;
    let first = format!(in rt.alloc(); "{path}/0000000001.lgr")?;
    let bytes = file(rt.alloc(), 0, EVENTS)?;
    fs::write(rt, first, bytes.as_slice())?;
    Ok(path)
}

/// Writes a page of `b`, as it was at a moment, into the file `b.html`. Gives the status.
fn written_page<const N: usize>(
    rt: &HostRuntime,
    folder: &str,
    at: u64,
    files: &mut MemoryFiles,
    faults: &mut FaultRow<N>,
) -> u8 {
    let asked = question(at, false);
    explain_page(rt, rt.alloc(), folder, &asked, "b.html", files, faults)
}

/// The page that is due of `b` by the recording in a folder.
fn due_page(rt: &HostRuntime, folder: &str) -> Result<Vec<u8>, Fail> {
    let asked = question(MAX_MOMENT, false);
    let Ok(accounts) = explain_folder(rt, rt.alloc(), folder, &asked) else {
        return Err(Fail::from(AllocError));
    };
    let mut page = Vec::new(rt.alloc());
    put_accounts_page(&asked.name, &accounts, &mut page)?;
    Ok(page)
}

#[test]
fn hands_the_page_to_its_file(rt: HostRuntime) -> Result<(), Fail> {
    let folder = recorded_path(&rt, "file")?;
    let due = due_page(&rt, &folder)?;
    let mut files = MemoryFiles::new(rt.alloc(), None);
    let mut faults = FaultRow::<100>::empty();
    let status = written_page(&rt, &folder, MAX_MOMENT, &mut files, &mut faults);
    let mut early_files = MemoryFiles::new(rt.alloc(), None);
    let none = written_page(&rt, &folder, 0, &mut early_files, &mut faults);
    fs::remove_dir_all(&rt, folder.as_str())?;
    assert_eq!(rt; (status, files.writes), (0, 1));
    assert!(rt; files.path.as_str() == "b.html" && files.text.as_slice() == due.as_slice());
    assert_eq!(rt; (none, early_files.writes), (1, 1));
    assert!(rt; faults.text().is_empty());
    Ok(())
}

/// What is told of a file that can't be written by an error of a kind, and whether the status is 1.
fn told_of(rt: &HostRuntime, folder: &str, kind: ErrorKind) -> Result<(Vec<u8>, bool), Fail> {
    let mut files = MemoryFiles::new(rt.alloc(), Some(kind));
    let mut faults = FaultRow::<100>::empty();
    let status = written_page(rt, folder, MAX_MOMENT, &mut files, &mut faults);
    let told = Vec::from_slice(rt.alloc(), faults.text())?;
    Ok((told, status == 1 && files.writes == 1))
}

#[test]
fn tells_why_a_file_is_not_written(rt: HostRuntime) -> Result<(), Fail> {
    let folder = recorded_path(&rt, "faults")?;
    let rows = [
        (ErrorKind::NotFound, "its folder isn't there"),
        (ErrorKind::NotADirectory, "a part of its path is no folder"),
        (ErrorKind::IsADirectory, "it is a folder"),
        (ErrorKind::PermissionDenied, "permission is denied"),
        (ErrorKind::ReadOnlyFilesystem, "its disk can only be read"),
        (ErrorKind::StorageFull, "no space is left"),
        (ErrorKind::QuotaExceeded, "no space is left"),
        (ErrorKind::FileTooLarge, "it would be too large"),
        (ErrorKind::BrokenPipe, "nobody reads it"),
        (ErrorKind::WriteZero, "it takes nothing"),
        (ErrorKind::OutOfMemory, "memory is refused"),
        (ErrorKind::Other, "the machine refuses it"),
    ];
    for (kind, words) in rows {
        let due = format!(in rt.alloc(); "lg: write\nthe file b.html can't be written: {words}\n")?;
        let (told, is_one) = told_of(&rt, &folder, kind)?;
        assert!(rt; is_one && told.as_slice() == due.as_bytes());
    }
    fs::remove_dir_all(&rt, folder.as_str())?;
    Ok(())
}

#[test]
fn leaves_the_file_if_the_folder_is_not_read(rt: HostRuntime) -> Result<(), Fail> {
    let folder = recorded_path(&rt, "unread")?;
    fs::remove_dir_all(&rt, folder.as_str())?;
    let mut files = MemoryFiles::new(rt.alloc(), None);
    let mut faults = FaultRow::<200>::empty();
    let status = written_page(&rt, &folder, MAX_MOMENT, &mut files, &mut faults);
    assert_eq!(rt; (status, files.writes), (1, 0));
    assert!(rt; faults.text().starts_with(b"lg: read\n"));
    Ok(())
}

#[test]
fn writes_files_of_the_machine(rt: HostRuntime) -> Result<(), Fail> {
    let folder = recorded_path(&rt, "machine")?;
    let path = format!(in rt.alloc(); "{folder}/b.html")?;
    let beneath = format!(in rt.alloc(); "{folder}/none/b.html")?;
    let mut files = MachineFiles::new(&rt);
    let made = files.write(path.as_str(), b"a page\n");
    let shorter = files.write(path.as_str(), b"page\n");
    let text = fs::read(&rt, path.as_str())?;
    let rows = [
        files.write(beneath.as_str(), b"page\n"),
        files.write(folder.as_str(), b"page\n"),
    ];
    fs::remove_dir_all(&rt, folder.as_str())?;
    assert_eq!(rt; (made, shorter), (Ok(()), Ok(())));
    assert!(rt; text.as_slice() == b"page\n".as_slice());
    let due = [Err(ErrorKind::NotFound), Err(ErrorKind::IsADirectory)];
    assert_eq!(rt; rows, due);
    Ok(())
}
