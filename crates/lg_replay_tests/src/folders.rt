//! Files that are listed and read one after another, with each call failing in turn, each write, and each allocation.

use crate::making::all;
use crate::rows::{BOTH, HEALTH, OPENED, SEVENTH, TWELFTH, file_of};
use lg_replay::{
    FolderFault, MAX_FILE_BYTES, RecordingFiles, ReplayCounts, ReplayEnd, Replayed, replay_files,
};
use lg_testing::Room;
use lg_text::WriteFault;
use std::alloc::{AllocError, Global};
use std::io::ErrorKind;
use std::test::Fail;

/// How the replay of the two files ends: the second can't be checked.
pub(crate) const DONE: Replayed = Replayed {
    end: ReplayEnd::Unchecked,
    counts: ReplayCounts {
        entries: 2,
        differing: 0,
        unchecked: 1,
    },
};

/// Files in memory. One of the calls to them fails.
#[derive(Drop)]
struct MemoryFiles {
    numbers: Vec<u64>,
    bytes: Vec<Vec<u8>>,
    /// How many calls there were.
    calls: usize,
    /// The call that fails, counted from 1, or 0 if none does.
    fails_at: usize,
    /// How it fails.
    kind: ErrorKind,
    /// How many more bytes a file has, zeros that are read behind the others.
    more: usize,
}

impl MemoryFiles {
    /// No files.
    fn new(alloc: Global) -> MemoryFiles {
        MemoryFiles {
            numbers: Vec::new(alloc),
            bytes: Vec::new(alloc),
            calls: 0,
            fails_at: 0,
            kind: ErrorKind::PermissionDenied,
            more: 0,
        }
    }

    /// Files 7 and 12: an opening, and an entry of which the opening is missing.
    fn both(alloc: Global) -> Result<MemoryFiles, AllocError> {
        let mut files = MemoryFiles::new(alloc);
        files.numbers.extend_from_slice(&[7, 12])?;
        files.bytes.push(file_of(alloc, OPENED)?)?;
        files.bytes.push(file_of(alloc, HEALTH)?)?;
        Ok(files)
    }

    /// Counts a call, which may be the one that fails.
    fn call(&mut self) -> Result<(), ErrorKind> {
        self.calls = self.calls.saturating_add(1);
        if self.calls == self.fails_at {
            Err(self.kind)
        } else {
            Ok(())
        }
    }

    /// Puts the bytes of the file with a number behind others.
    fn put(&self, number: u64, bytes: &mut Vec<u8>) -> Result<(), AllocError> {
        for (index, other) in self.numbers.iter().enumerate() {
            if *other == number && index < self.bytes.len() {
                bytes.extend_from_slice(&self.bytes[index])?;
            }
        }
        bytes.resize(bytes.len().saturating_add(self.more), 0)?;
        Ok(())
    }
}

impl RecordingFiles for MemoryFiles {
    ghost use Rattle.std.specs.Prelude.{false, []};

    ghost tells = { false };

    ghost past = { λ m. [] };

    fn list(&mut self, numbers: &mut Vec<u64>) -> Result<(), ErrorKind> {
        numbers.clear();
        let put = numbers.extend_from_slice(&self.numbers);
        numbers.sort_unstable();
        put.map_err(|_| ErrorKind::OutOfMemory)?;
        self.call()
    }

    fn read(&mut self, number: u64, bytes: &mut Vec<u8>) -> Result<(), ErrorKind> {
        bytes.clear();
        self.put(number, bytes).map_err(|_| ErrorKind::OutOfMemory)?;
        self.call()
    }
}

/// How files are replayed, and whether this was written.
fn replays(
    alloc: Global,
    files: &mut MemoryFiles,
    parts: &[&str],
) -> Result<(Result<Replayed, FolderFault>, bool), Fail> {
    let mut room = Room::failing(0);
    let ended = replay_files(alloc, files, &all(), &mut room);
    let mut due = Vec::new(alloc);
    for part in parts {
        due.extend_from_slice(part.as_bytes())?;
    }
    Ok((ended, room.has(&due)))
}

#[test]
fn replays_files(rt: HostRuntime) -> Result<(), Fail> {
    let alloc = rt.alloc();
    let mut files = MemoryFiles::both(alloc)?;
    let due = (Ok(DONE), true);
    assert_eq!(rt; replays(alloc, &mut files, &[SEVENTH, TWELFTH, BOTH])?, due);
    // One list, and a read for each file.
    assert_eq!(rt; files.calls, 3);
    Ok(())
}

#[test]
fn tells_that_there_is_no_file(rt: HostRuntime) -> Result<(), Fail> {
    let alloc = rt.alloc();
    let mut files = MemoryFiles::new(alloc);
    let due = (Err(FolderFault::NoFile), true);
    assert_eq!(rt; replays(alloc, &mut files, &[])?, due);
    Ok(())
}

#[test]
fn tells_each_call_that_fails(rt: HostRuntime) -> Result<(), Fail> {
    let alloc = rt.alloc();
    let kind = ErrorKind::PermissionDenied;
    let rows: [(FolderFault, &[&str]); 3] = [
        (FolderFault::Unlisted(kind), &[]),
        (FolderFault::Unread { number: 7, kind }, &[]),
        (FolderFault::Unread { number: 12, kind }, &[SEVENTH]),
    ];
    for (index, (fault, told)) in rows.iter().enumerate() {
        let mut files = MemoryFiles::both(alloc)?;
        files.fails_at = index.saturating_add(1);
        assert_eq!(rt; replays(alloc, &mut files, told)?, (Err(*fault), true));
        let mut refused = MemoryFiles::both(alloc)?;
        refused.fails_at = index.saturating_add(1);
        refused.kind = ErrorKind::OutOfMemory;
        let due = (Err(FolderFault::Memory), true);
        assert_eq!(rt; replays(alloc, &mut refused, told)?, due);
    }
    Ok(())
}

#[test]
fn refuses_what_is_too_large(rt: HostRuntime) -> Result<(), Fail> {
    let alloc = rt.alloc();
    let mut files = MemoryFiles::both(alloc)?;
    files.more = MAX_FILE_BYTES;
    let due = (Err(FolderFault::TooLarge { number: 7 }), true);
    assert_eq!(rt; replays(alloc, &mut files, &[])?, due);
    Ok(())
}

/// The writer takes a byte a call, and is flushed behind each file and behind the last line. What was written is a
/// beginning of what is told, whichever call fails.
#[test]
fn tells_each_write_that_fails(rt: HostRuntime) -> Result<(), Fail> {
    let alloc = rt.alloc();
    let mut whole = Vec::new(alloc);
    let mut flushes = [0usize; 3];
    for (index, part) in [SEVENTH, TWELFTH, BOTH].iter().enumerate() {
        whole.extend_from_slice(part.as_bytes())?;
        flushes[index] = whole.len().saturating_add(index).saturating_add(1);
    }
    for fails_at in 1..whole.len().saturating_add(4) {
        let mut files = MemoryFiles::both(alloc)?;
        let mut room = Room::failing(fails_at);
        let ended = replay_files(alloc, &mut files, &all(), &mut room);
        let kind = ErrorKind::BrokenPipe;
        assert_eq!(rt;
            ended,
            Err(FolderFault::Write(WriteFault { kind })),
            "{fails_at}"
        );
        let passed = flushes.iter().filter(|flush| **flush < fails_at).count();
        let written = fails_at.saturating_sub(1).saturating_sub(passed);
        assert!(rt; room.has(&whole[..written.min(whole.len())]), "{fails_at}");
    }
    Ok(())
}

/// This passes with memory, and with any one allocation refused.
#[test]
fn tells_refused_memory(rt: HostRuntime) -> Result<(), Fail> {
    let alloc = rt.alloc();
    let Ok(mut files) = MemoryFiles::both(alloc) else {
        return Ok(());
    };
    let mut room = Room::failing(0);
    let ended = replay_files(alloc, &mut files, &all(), &mut room);
    let text = [SEVENTH.as_bytes(), TWELFTH.as_bytes(), BOTH.as_bytes()];
    let seventh = text[0].len();
    let both = seventh + text[1].len();
    match ended {
        Ok(done) => {
            assert_eq!(rt; done, DONE);
            assert_eq!(rt; room.len, both + text[2].len());
        }
        Err(FolderFault::Memory) => {
            assert!(rt; room.len == 0 || room.len == seventh || room.len == both);
        }
        Err(_) => assert!(rt; false),
    }
    Ok(())
}
