//! Batches that a recorder writes to a folder in memory.
use crate::folder::MemoryFolder;
use crate::plain::{PlainBatch, told_in};
use lg_recorder::Recorder;
use std::alloc::{AllocError, Global};
use std::io::ErrorKind;
use std::process::Abort;
use std::test::Fail;

/// The batch of so many entries behind a number, whose lines have 100 bytes.
fn batch(first: u64, count: usize) -> PlainBatch {
    PlainBatch {
        first,
        count,
        length: 100,
    }
}

/// The same, whose lines have 1,000 bytes.
fn long_batch(first: u64, count: usize) -> PlainBatch {
    PlainBatch {
        first,
        count,
        length: 1000,
    }
}

/// The numbers of the files of a folder.
fn numbers(alloc: Global, folder: &MemoryFolder) -> Result<Vec<u64>, AllocError> {
    folder.files.iter().map(|file| file.number).collect(alloc)
}

/// Whether these grow from one to the next.
fn grow(told: &[u64]) -> bool {
    told.windows(2).all(|pair| pair[0] < pair[1])
}

/// Batches that follow one another go to one file, and an empty one does nothing.
#[test]
fn one_file(rt: HostRuntime) -> Result<(), Fail> {
    let mut folder = MemoryFolder::new(rt.alloc());
    let mut recorder = Recorder::new(rt.alloc(), 64);
    assert_eq!(rt; recorder.record(&mut folder, &batch(0, 0), &mut ()), Ok(()));
    assert_eq!(rt; folder.calls, 0);
    for (first, count) in [(0, 3), (3, 0), (3, 1), (4, 2000)] {
        assert_eq!(rt;
            recorder.record(&mut folder, &batch(first, count), &mut ()),
            Ok(())
        );
    }
    assert_eq!(rt; numbers(rt.alloc(), &folder)?.as_slice(), [1].as_slice());
    let told = told_in(rt.alloc(), &folder).ok_or("faulty")?;
    assert_eq!(rt; told.len(), 2004);
    assert!(rt; grow(&told));
    let counts = recorder.counts();
    assert_eq!(rt;
        (counts.entries, counts.lost, counts.failures),
        (2004, 0, 0)
    );
    assert_eq!(rt; counts.bytes, folder.size() as u64);
    Ok(())
}

/// A gap begins a file, whose head says the number of its first entry.
#[test]
fn gaps(rt: HostRuntime) -> Result<(), Fail> {
    let mut folder = MemoryFolder::new(rt.alloc());
    let mut recorder = Recorder::new(rt.alloc(), 64);
    for (first, count) in [(0, 3), (5, 2), (7, 1), (100, 1)] {
        assert_eq!(rt;
            recorder.record(&mut folder, &batch(first, count), &mut ()),
            Ok(())
        );
    }
    let told = told_in(rt.alloc(), &folder).ok_or("faulty")?;
    assert_eq!(rt; told.as_slice(), [0, 1, 2, 5, 6, 7, 100].as_slice());
    assert_eq!(rt;
        numbers(rt.alloc(), &folder)?.as_slice(),
        [1, 2, 3].as_slice()
    );
    Ok(())
}

/// A recording of one megabyte has files of 125,000 bytes and one batch at most, and no more than eight of them.
#[test]
fn sizes(rt: HostRuntime) -> Result<(), Fail> {
    let mut folder = MemoryFolder::new(rt.alloc());
    let mut recorder = Recorder::new(rt.alloc(), 1);
    for index in 0..300u64 {
        assert_eq!(rt;
            recorder.record(&mut folder, &batch(index * 100, 100), &mut ()),
            Ok(())
        );
        assert!(rt; folder.size() <= 1_010_000, "{index}");
    }
    let numbers = numbers(rt.alloc(), &folder)?;
    assert!(rt; grow(&numbers));
    assert_eq!(rt; (numbers.len(), numbers.last().copied()), (7, Some(24)));
    for file in &folder.files {
        assert!(rt; file.bytes.len() < 135_100);
    }
    let told = told_in(rt.alloc(), &folder).ok_or("faulty")?;
    assert_eq!(rt; told.last().copied(), Some(29_999));
    assert_eq!(rt; told.first().copied(), Some(29_999 + 1 - told.len() as u64));
    Ok(())
}

/// Files of an earlier life are kept as long as there is room, count as the others do, and the next file's number is
/// greater than theirs.
#[test]
fn earlier_life(rt: HostRuntime) -> Result<(), Fail> {
    let mut folder = MemoryFolder::new(rt.alloc());
    for (number, size) in [(3, 800_000), (7, 50_000), (8, 25_000)] {
        folder.put(number, size)?;
    }
    let mut recorder = Recorder::new(rt.alloc(), 1);
    assert_eq!(rt;
        recorder.record(&mut folder, &batch(0, 2000), &mut ()),
        Ok(())
    );
    assert_eq!(rt;
        numbers(rt.alloc(), &folder)?.as_slice(),
        [3, 7, 8, 9].as_slice()
    );
    assert_eq!(rt;
        recorder.record(&mut folder, &batch(2000, 1), &mut ()),
        Ok(())
    );
    assert_eq!(rt;
        numbers(rt.alloc(), &folder)?.as_slice(),
        [7, 8, 9, 10].as_slice()
    );
    Ok(())
}

/// The batches of a play in which calls fail. The entries of two are more than a piece.
const PLAYED: [(u64, usize); 10] = [
    (0, 3),
    (3, 150),
    (153, 2),
    (155, 140),
    (295, 1),
    (296, 1),
    (297, 1),
    (298, 1),
    (299, 1),
    (300, 1),
];

/// Plays these batches. Gives whether one failed, after it has looked at what each call gave.
fn play(rt: &impl Abort, alloc: Global, folder: &mut MemoryFolder) -> Result<bool, Fail> {
    let mut recorder = Recorder::new(alloc, 1);
    let mut has_failed = false;
    let mut is_failing = false;
    for (first, count) in PLAYED {
        match recorder.record(folder, &long_batch(first, count), &mut ()) {
            Ok(()) => is_failing = false,
            Err(fault) => {
                assert_eq!(rt; fault.is_first, !is_failing);
                is_failing = true;
                has_failed = true;
            }
        }
    }
    let counts = recorder.counts();
    assert_eq!(rt; counts.entries + counts.lost, 301);
    assert_eq!(rt; has_failed, counts.failures > 0);
    Ok(has_failed)
}

/// Each call fails in turn, by itself or with the three behind it. What is told then is in order, and the
/// recorder goes on with the next batch.
#[test]
fn failures(rt: HostRuntime) -> Result<(), Fail> {
    for torn in [0, 7, 1_000_000] {
        for more in [0, 3] {
            for fails_from in 1..=16 {
                let mut folder = MemoryFolder::new(rt.alloc());
                folder.fails_from = fails_from;
                folder.fails_to = fails_from + more;
                folder.torn = torn;
                let has_failed = play(&rt, rt.alloc(), &mut folder)?;
                assert_eq!(rt; has_failed, fails_from <= folder.calls, "{fails_from}");
                let told = told_in(rt.alloc(), &folder).ok_or("faulty")?;
                assert!(rt; grow(&told), "{torn} {more} {fails_from}");
                assert_eq!(rt;
                    told.last().copied(),
                    Some(300),
                    "{torn} {more} {fails_from}"
                );
            }
        }
    }
    Ok(())
}

/// A full disk is told once, and then again after something was written.
#[test]
fn told_once(rt: HostRuntime) -> Result<(), Fail> {
    let mut folder = MemoryFolder::new(rt.alloc());
    let mut recorder = Recorder::new(rt.alloc(), 1);
    assert_eq!(rt; recorder.record(&mut folder, &batch(0, 1), &mut ()), Ok(()));
    let mut told = Vec::new(rt.alloc());
    for (first, fails_to) in [(1, 1000), (2, 1000), (3, 0), (4, 1000), (5, 1000)] {
        folder.fails_to = fails_to;
        match recorder.record(&mut folder, &batch(first, 1), &mut ()) {
            Ok(()) => told.push("")?,
            Err(fault) if fault.is_first => told.push(fault.line())?,
            Err(_) => told.push("silent")?,
        }
    }
    let full = "the recording has a gap: the disk is full\n";
    assert_eq!(rt;
        told.as_slice(),
        [full, "silent", "", full, "silent"].as_slice()
    );
    assert_eq!(rt; recorder.counts().lost, 4);
    let numbers = told_in(rt.alloc(), &folder).ok_or("faulty")?;
    assert_eq!(rt; numbers.as_slice(), [0, 3].as_slice());
    Ok(())
}

/// A number of more than ten digits is no file's.
#[test]
fn greatest_number(rt: HostRuntime) -> Result<(), Fail> {
    let mut folder = MemoryFolder::new(rt.alloc());
    folder.put(9_999_999_999, 1)?;
    let mut recorder = Recorder::new(rt.alloc(), 1);
    let recorded = recorder.record(&mut folder, &batch(0, 1), &mut ());
    assert_eq!(rt;
        recorded.map_err(|fault| fault.kind),
        Err(ErrorKind::InvalidFilename)
    );
    Ok(())
}
