//! Tells the version of the program, and how it was built.
//!
//! A build appends a note to the file of the program, so that it goes wherever the program is copied. The machine's
//! loader doesn't read it.
//!
//! Defined in: `lg_commands/specs/Meaning/Version.antt`.
//! Tested in: `cases/command_line.case`, `gate/package`.
ghost use Rattle.lg_cli.specs.Meaning.Running.{TellsVersion};

use lg_commands::write_version;
use lg_text::FaultStream;
use std::alloc::Global;
use std::io::{Read, Seek, SeekFrom, Write};
use std::rt::Files;
use std::{fs, io};

/// How many bytes a build appends to the file of the program.
const NOTE_BYTES: usize = 256;

/// How far before the end of the file these begin.
const BEFORE_END: i64 = -256;

/// The file of the program that runs (proc_pid_exe(5)).
const OWN_FILE: &str = "/proc/self/exe";

/// Reads the last bytes of the program's own file.
fn read_end<M: Files>(rt: &M, end: &mut [u8; NOTE_BYTES]) -> io::Result<()> {
    let mut file = fs::open(rt, OWN_FILE)?;
    file.seek(SeekFrom::End(BEFORE_END))?;
    file.read_exact(end)
}

/// The last bytes of the program's own file, or zeros if they can't be read.
fn own_end<M: Files>(rt: &M) -> [u8; NOTE_BYTES] {
    let mut end = [0; NOTE_BYTES];
    match read_end(rt, &mut end) {
        Ok(()) => end,
        Err(_) => [0; NOTE_BYTES],
    }
}

/// Runs the command `version`, as [`write_version`] does, for the last 256 bytes of the program's own file. If these
/// can't be read, nothing is known of its build. Gives the exit status.
pub fn tell_version<M: Files, W: Write, F: FaultStream>(
    rt: &M,
    alloc: Global,
    writer: &mut W,
    faults: &mut F,
) -> u8
    ensures { TellsVersion writer.old writer.new (W.contents writer.old) (W.contents writer.new)
        (F.reported faults.old) (F.reported faults.new) result }
{
    let end = own_end(rt);
    write_version(alloc, &end, writer, faults)
}
