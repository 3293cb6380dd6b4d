//! Key files at whose path another file is seen than the one that is opened, as if somebody swapped them meanwhile. The
//! files are of Linux's /proc: only the user who runs the test may use `environ`, and all may read `stat`.
use lg_config::{FilePath, NodeConfig};
use lg_run::{NoKeys, keys_at};
use std::alloc::{Allocator, Global};
use std::fs::{Metadata, OpenOptions};
use std::io;
use std::os::unix::fs::MetadataExt;
use std::rt::Files;

/// A machine whose files are swapped.
#[derive(Drop)]
struct Swapped<'a, R> {
    rt: &'a R,
    /// The file that is seen at each path but that of the running program.
    seen: &'static str,
    /// The file that is opened at each path.
    opened: &'static str,
    /// The file that is seen at the path of the running program: its owner is the user.
    program: &'static str,
}

impl<'a, R: Files> Files for Swapped<'a, R> {
    type File = R::File;

    type Dir = R::Dir;

    fn open_file(&self, how: &OpenOptions, _path: &str) -> io::Result<R::File> {
        self.rt.open_file(how, self.opened)
    }

    fn open_dir(&self, path: &str) -> io::Result<R::Dir> {
        self.rt.open_dir(path)
    }

    fn metadata(&self, path: &str) -> io::Result<Metadata> {
        let seen = if path == "/proc/self" {
            self.program
        } else {
            self.seen
        };
        self.rt.metadata(seen)
    }

    fn symlink_metadata(&self, path: &str) -> io::Result<Metadata> {
        self.rt.symlink_metadata(path)
    }

    fn copy(&self, from: &str, to: &str) -> io::Result<u64> {
        self.rt.copy(from, to)
    }

    fn rename(&self, from: &str, to: &str) -> io::Result<()> {
        self.rt.rename(from, to)
    }

    fn remove_file(&self, path: &str) -> io::Result<()> {
        self.rt.remove_file(path)
    }

    fn create_dir(&self, path: &str) -> io::Result<()> {
        self.rt.create_dir(path)
    }

    fn remove_dir(&self, path: &str) -> io::Result<()> {
        self.rt.remove_dir(path)
    }

    fn remove_dir_all<B: Allocator>(&self, alloc: B, path: &str) -> io::Result<()> {
        self.rt.remove_dir_all(alloc, path)
    }
}

/// What comes of a key file.
#[derive(Clone, Copy, Debug, PartialEq, Eq)]
enum Came {
    /// It is read. It spells no keys.
    Read,
    /// It isn't, for this.
    Unread(NoKeys),
    /// It is read if root runs the test, and else it belongs to another user.
    Foreign,
}

/// The file that is seen, the one that is opened, that of the running program, and what comes of it: a file of the
/// user's own, which each of the others is one time in place of; and one of a user who isn't known, or is root.
const ROWS: [(&str, &str, &str, Came); 7] = [
    (OWN, OWN, PROGRAM, Came::Read),
    (OWN, SHARED, PROGRAM, Came::Unread(NoKeys::Shared)),
    (SHARED, OWN, PROGRAM, Came::Read),
    ("/dev/null", OWN, PROGRAM, Came::Unread(NoKeys::Irregular)),
    (OWN, "/dev/null", PROGRAM, Came::Unread(NoKeys::Irregular)),
    (OWN, OWN, "/nowhere", Came::Foreign),
    (OWN, OWN, "/", Came::Foreign),
];

/// A file that only the user may use, one that all may read, and the folder of the running program.
const OWN: &str = "/proc/self/environ";

const SHARED: &str = "/proc/self/stat";

const PROGRAM: &str = "/proc/self";

/// Whether this comes of a key file on a machine, where root or another user runs the test.
fn comes<R: Files>(
    machine: &Swapped<'_, R>,
    alloc: Global,
    path: &Option<FilePath>,
    came: Came,
    is_root: bool,
) -> bool {
    let given = keys_at(machine, alloc, path);
    match (came, given) {
        (Came::Read, Err(NoKeys::Text(_))) => true,
        (Came::Unread(wanted), Err(none)) => none == wanted,
        (Came::Foreign, Err(NoKeys::Text(_))) => is_root,
        (Came::Foreign, Err(NoKeys::Foreign)) => !is_root,
        _ => false,
    }
}

/// The mode, the owner and the kind are those of the opened file. One of another kind isn't opened.
#[test]
fn of_the_opened_file(rt: HostRuntime) {
    let read = NodeConfig::read(rt.alloc(), b"name = \"b\"\nkey_file = \"k\"", &[]);
    assert!(rt; read.is_ok(), "no configuration");
    let Ok(node) = read else {
        return;
    };
    let is_root = rt.metadata("/proc/self").is_ok_and(|seen| seen.uid() == 0);
    for row in ROWS {
        let (seen, opened, program, came) = row;
        let machine = Swapped {
            rt: &rt,
            seen,
            opened,
            program,
        };
        let is_so = comes(&machine, rt.alloc(), &node.key_file, came, is_root);
        assert!(rt; is_so, "{row:?}");
    }
}
