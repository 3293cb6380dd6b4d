//! A recorder over files of the machine.
use crate::plain::{PlainBatch, told_by};
use lg_recorder::{DiskFolder, RecordFault, RecordFolder, Recorder, StoredFile};
use std::alloc::AllocError;
use std::io::ErrorKind;
use std::os::unix::fs::PermissionsExt;
use std::test::Fail;
use std::{env, fs, process};

/// A folder of its own under the machine's temporary one.
fn fresh_path(rt: &HostRuntime, name: &str) -> Result<String, Fail> {
    let base = env::temp_dir(rt)?;
    let base = base.as_str();
    let id = process::id(rt.process());
    let path = format!(in rt.alloc(); "{base}/lg_recorder_{name}_{id}")?;
    fs::create_dir(rt, path.as_str())?;
    Ok(path)
}

/// A batch behind a number, of so many entries of 50 bytes.
fn batch(first: u64, count: usize) -> PlainBatch {
    PlainBatch {
        first,
        count,
        length: 50,
    }
}

/// Two lives record to a folder, in which other files lie. The files of the first are kept, only their owner reads
/// them, and they tell what was recorded.
#[test]
fn two_lives(rt: HostRuntime) -> Result<(), Fail> {
    let path = fresh_path(&rt, "lives")?;
    let path = path.as_str();
    for name in [
        "other",
        "00000000012.lgr",
        "000000012.lgr",
        "0000000012.lgx",
        "000000001x.lgr",
    ] {
        fs::write(&rt, format!(in rt.alloc(); "{path}/{name}")?, "other")?;
    }
    for first in [0, 7] {
        let mut folder = DiskFolder::new(rt, rt.alloc(), String::from_str(rt.alloc(), path)?);
        let mut recorder = Recorder::new(rt.alloc(), 1);
        assert_eq!(rt;
            recorder.record(&mut folder, &batch(first, 3), &mut ()),
            Ok(())
        );
        assert_eq!(rt;
            recorder.record(&mut folder, &batch(first + 3, 2), &mut ()),
            Ok(())
        );
        recorder.close(&mut folder);
    }
    let mut listed = Vec::new(rt.alloc());
    let mut folder = DiskFolder::new(rt, rt.alloc(), String::from_str(rt.alloc(), path)?);
    assert_eq!(rt; folder.list(&mut listed), Ok(()));
    let sizes = [
        StoredFile {
            number: 1,
            size: 258,
        },
        StoredFile {
            number: 2,
            size: 258,
        },
    ];
    assert_eq!(rt; listed.as_slice(), sizes.as_slice());
    for (number, first) in [(1, 0), (2, 7)] {
        let file = format!(in rt.alloc(); "{path}/{number:010}.lgr")?;
        let told = told_by(rt.alloc(), &fs::read(&rt, file.as_str())?).ok_or("faulty")?;
        let due = [first, first + 1, first + 2, first + 3, first + 4];
        assert_eq!(rt; told.as_slice(), due.as_slice());
        let mode = fs::metadata(&rt, file.as_str())?.permissions().mode() & 0o777;
        assert_eq!(rt; mode, 0o600);
    }
    assert_eq!(rt; folder.begin(2), Err(ErrorKind::AlreadyExists));
    assert_eq!(rt; folder.append(b"x"), Err(ErrorKind::NotFound));
    assert_eq!(rt; folder.delete(1), Ok(()));
    assert_eq!(rt; folder.delete(1), Err(ErrorKind::NotFound));
    fs::remove_dir_all(&rt, path)?;
    assert_eq!(rt; folder.list(&mut listed), Err(ErrorKind::NotFound));
    Ok(())
}

/// The open file is deleted. That is a fault, the entries since then are lost, and the next batch begins a file.
#[test]
fn deleted_file(rt: HostRuntime) -> Result<(), Fail> {
    let path = fresh_path(&rt, "deleted")?;
    let path = path.as_str();
    let mut folder = DiskFolder::new(rt, rt.alloc(), String::from_str(rt.alloc(), path)?);
    let mut recorder = Recorder::new(rt.alloc(), 1);
    assert_eq!(rt; recorder.record(&mut folder, &batch(0, 3), &mut ()), Ok(()));
    fs::remove_file(&rt, format!(in rt.alloc(); "{path}/0000000001.lgr")?)?;
    let recorded = recorder.record(&mut folder, &batch(3, 3), &mut ());
    let kind = ErrorKind::NotFound;
    assert_eq!(rt;
        recorded,
        Err(RecordFault {
            kind,
            is_first: true
        })
    );
    assert_eq!(rt; recorder.record(&mut folder, &batch(6, 2), &mut ()), Ok(()));
    assert_eq!(rt; recorder.counts().lost, 3);
    recorder.close(&mut folder);
    let file = format!(in rt.alloc(); "{path}/0000000002.lgr")?;
    let told = told_by(rt.alloc(), &fs::read(&rt, file.as_str())?).ok_or("faulty")?;
    assert_eq!(rt; told.as_slice(), [6, 7].as_slice());
    fs::remove_dir_all(&rt, path)?;
    Ok(())
}

/// A folder that isn't there is a fault, and once it is there the recording goes on.
#[test]
fn lost_folder(rt: HostRuntime) -> Result<(), Fail> {
    let path = fresh_path(&rt, "lost")?;
    let path = path.as_str();
    fs::remove_dir(&rt, path)?;
    let mut folder = DiskFolder::new(rt, rt.alloc(), String::from_str(rt.alloc(), path)?);
    let mut recorder = Recorder::new(rt.alloc(), 1);
    for is_first in [true, false] {
        let recorded = recorder.record(&mut folder, &batch(0, 3), &mut ());
        assert_eq!(rt;
            recorded,
            Err(RecordFault {
                kind: ErrorKind::NotFound,
                is_first
            })
        );
    }
    fs::create_dir(&rt, path)?;
    assert_eq!(rt; recorder.record(&mut folder, &batch(3, 3), &mut ()), Ok(()));
    assert_eq!(rt; recorder.counts().lost, 6);
    fs::remove_dir_all(&rt, path)?;
    Ok(())
}
