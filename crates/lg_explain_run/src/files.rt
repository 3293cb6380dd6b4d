//! Files that pages are written into.
//!
//! Defined in: `specs/Meaning/Files.antt`.
//! Tested in: `cases/recordings`, `lg_explain_tests/src/paging.rt`.

use std::fs;
use std::fs::Files;
use std::io::ErrorKind;

/// Files that pages are written into.
pub trait PageFiles {
    ghost use Rattle.std.specs.Prelude.{◌≡◌, Bool, true, List, ◌∷◌};
    ghost use Rattle.lg_explain_run.specs.Meaning.Files.{PageWrite};
    ghost use Rattle.lg_explain_run.specs.Meaning.Files.PageWrite.{Wrote};

    // Whether contracts can see what was written.
    ghost tells: { Bool };

    // What was written, the latest first, if contracts can see that.
    ghost past: { Self → List PageWrite };

    /// Writes a text into the file at a path, in place of what the file has. It is made if it isn't there.
    ///
    /// The error is the system's kind. If the file couldn't be made or opened, it is as it was. Else it has a beginning
    /// of the text then: none of it, a part or all.
    fn write(&mut self, path: &str, text: &[u8]) -> Result<(), ErrorKind>
        ensures { tells ≡ true → past self.new ≡ Wrote path.now text.now result ∷ past self.old };
}

/// Files of the machine. One that is made gets the mode that the system gives a new file.
#[derive(Clone, Copy, Debug)]
pub struct MachineFiles<'p, R> {
    rt: &'p R,
}

impl<'p, R: Files> MachineFiles<'p, R> {
    /// The files of this machine. None is touched yet.
    pub fn new(rt: &'p R) -> MachineFiles<'p, R> {
        MachineFiles { rt }
    }
}

impl<'p, R: Files> PageFiles for MachineFiles<'p, R> {
    ghost use Rattle.std.specs.Prelude.{false, []};

    ghost tells = { false };

    ghost past = { λ m. [] };

    fn write(&mut self, path: &str, text: &[u8]) -> Result<(), ErrorKind> {
        fs::write(self.rt, path, text).map_err(|error| error.kind())
    }
}
