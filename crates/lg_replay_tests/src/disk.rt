//! Files of the machine, in a folder of their own.

use crate::folders::DONE;
use crate::making::all;
use crate::rows::{BOTH, HEALTH, OPENED, SEVENTH, TWELFTH, file_of};
use lg_replay::{FolderFault, Replayed, replay_folder};
use lg_testing::Room;
use std::io::ErrorKind;
use std::test::Fail;
use std::{env, fs, process};

/// A folder of its own under the machine's temporary one.
fn fresh_path(rt: &HostRuntime, name: &str) -> Result<String, Fail> {
    let base = env::temp_dir(rt)?;
    let base = base.as_str();
    let id = process::id(rt.process());
    let path = format!(in rt.alloc(); "{base}/lg_replay_{name}_{id}")?;
    fs::create_dir(rt, path.as_str())?;
    Ok(path)
}

/// How the folder at a path is replayed, and whether this was written.
fn replays(
    rt: &HostRuntime,
    path: &str,
    parts: &[&str],
) -> Result<(Result<Replayed, FolderFault>, bool), Fail> {
    let mut room = Room::failing(0);
    let ended = replay_folder(rt, rt.alloc(), path, &all(), &mut room);
    let mut due = Vec::new(rt.alloc());
    for part in parts {
        due.extend_from_slice(part.as_bytes())?;
    }
    Ok((ended, room.has(&due)))
}

/// Writes a file.
fn put(rt: &HostRuntime, path: &str, name: &str, bytes: &[u8]) -> Result<(), Fail> {
    fs::write(rt, format!(in rt.alloc(); "{path}/{name}")?, bytes)?;
    Ok(())
}

/// The later file is made first, and other files lie beside them.
#[test]
fn replays_a_folder(rt: HostRuntime) -> Result<(), Fail> {
    let path = fresh_path(&rt, "files")?;
    let path = path.as_str();
    put(&rt, path, "0000000012.lgr", &file_of(rt.alloc(), HEALTH)?)?;
    put(&rt, path, "0000000007.lgr", &file_of(rt.alloc(), OPENED)?)?;
    for name in [
        "other",
        "00000000012.lgr",
        "000000012.lgr",
        "0000000008.lgx",
        "000000001x.lgr",
    ] {
        put(&rt, path, name, b"other")?;
    }
    let ended = replays(&rt, path, &[SEVENTH, TWELFTH, BOTH])?;
    fs::remove_dir_all(&rt, path)?;
    assert_eq!(rt; ended, (Ok(DONE), true));
    Ok(())
}

#[test]
fn tells_what_cannot_be_read(rt: HostRuntime) -> Result<(), Fail> {
    let path = fresh_path(&rt, "faults")?;
    let path = path.as_str();
    put(&rt, path, "other", b"other")?;
    let none = replays(&rt, path, &[])?;
    put(&rt, path, "0000000007.lgr", &file_of(rt.alloc(), OPENED)?)?;
    fs::create_dir(&rt, format!(in rt.alloc(); "{path}/0000000009.lgr")?)?;
    let folder = replays(&rt, path, &[SEVENTH])?;
    fs::remove_dir_all(&rt, path)?;
    let missing = replays(&rt, path, &[])?;
    assert_eq!(rt; none, (Err(FolderFault::NoFile), true));
    let kind = ErrorKind::IsADirectory;
    assert_eq!(rt;
        folder,
        (Err(FolderFault::Unread { number: 9, kind }), true)
    );
    let kind = ErrorKind::NotFound;
    assert_eq!(rt; missing, (Err(FolderFault::Unlisted(kind)), true));
    Ok(())
}
