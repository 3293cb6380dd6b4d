//! Reads the keys of a group from their file, and tells why a file gives none.
//!
//! Defined in: `specs/Meaning/KeyTelling.antt`, `lg_seal/specs/Meaning/Reading.antt`.
//! Tested in: `cases/keys`, `lg_command_tests/src/launch/keys.rt`.
ghost use Rattle.std.specs.Prelude.{◌≡◌, ◌≤◌, ℕ, List, length, Err, Ok, None, IfErr, IfOk, IfSome, IsSome, OnErr};
ghost use Rattle.lg_seal.specs.declared.fault.KeyFault.{KeyFault};
ghost use Rattle.lg_seal.specs.Meaning.Reading.{keys_of};
ghost use Rattle.lg_run.specs.Meaning.KeyTelling.{bad_line, is_owner, key_fault_line, no_keys_line};
ghost use Rattle.lg_run.specs.Meaning.KeyTelling.{refused_by, IsTextless, TellsNoKeys};
ghost use Rattle.lg_run.specs.Meaning.Running.{AreKeysAt};

use crate::reporting::{tell, tell_both};
use crate::told::Told;
use arrayvec::ArrayString;
use itoa::Buffer;
use lg_config::FilePath;
use lg_seal::{KEY_LEN, KeyFault, Keys, keys_in};
use lg_text::FaultStream;
use std::alloc::Global;
use std::fs::OpenFile;
use std::io::{ErrorKind, Read};
use std::os::unix::fs::MetadataExt;
use std::rt::Files;
use std::{fs, io};

/// The most bytes of a text of keys: two lines of two hex digits for each byte of a key, and a newline behind each.
const MAX_KEY_TEXT: u64 = 2 * (2 * KEY_LEN as u64 + 1);

/// The user root.
const ROOT: u32 = 0;

/// The folder of the running program. It belongs to the user whose rights the program has (Linux, proc(5)).
const OWN_PROCESS: &str = "/proc/self";

/// The bits of a file's mode by which others than its owner may read it, write to it or run it.
const OTHERS: u32 = 0o077;

/// The most bytes of a line that says why a file gives no keys, its newline included.
const MAX_KEY_LINE: usize = 48;

/// Why a file gives no keys.
#[derive(Clone, Copy, Debug, PartialEq, Eq)]
pub enum NoKeys {
    /// Memory for its text was refused.
    Memory,
    /// The file can't be read.
    Read,
    /// It is no regular file.
    Irregular,
    /// It belongs to another user than root and the one who runs the node.
    Foreign,
    /// Others than its owner may read it, write to it or run it.
    Shared,
    /// Its text spells no keys.
    Text(KeyFault),
}

/// Why a file can't be looked at or read.
fn unread(error: &io::Error) -> NoKeys
    ensures { IsTextless result }
{
    match error.kind() {
        ErrorKind::OutOfMemory => NoKeys::Memory,
        _ => NoKeys::Read,
    }
}

/// The user whose rights the node has. None if the machine doesn't tell.
fn own_user<R: Files>(rt: &R) -> Option<u32> {
    match fs::metadata(rt, OWN_PROCESS) {
        Ok(seen) => Some(seen.uid()),
        Err(_) => None,
    }
}

/// Whether a file belongs to root or to this user, if there is one.
fn is_owner(user: Option<u32>, owner: u32) -> bool
    ensures { result ≡ is_owner user owner }
{
    match user {
        Some(user) => owner == ROOT || owner == user,
        None => owner == ROOT,
    }
}

/// Why an opened file gives no keys, by whether it is a regular file, its owner and its mode.
fn refusal_of(is_file: bool, user: Option<u32>, owner: u32, mode: u32) -> Option<NoKeys>
    ensures is { result ≡ refused_by is_file user owner mode }
    ensures textless { IfSome result IsTextless }
{
    if !is_file {
        return Some(NoKeys::Irregular);
    }
    if !is_owner(user, owner) {
        return Some(NoKeys::Foreign);
    }
    if mode & OTHERS == 0 {
        None
    } else {
        Some(NoKeys::Shared)
    }
}

/// Opens the file at a path, if it is a regular one. No other is opened: opening a FIFO would wait for its writer.
fn open_regular<R: Files>(rt: &R, path: &str) -> Result<R::File, NoKeys>
    ensures { IfErr result IsTextless }
{
    match fs::metadata(rt, path) {
        Ok(seen) if seen.is_file() => {}
        Ok(_) => return Err(NoKeys::Irregular),
        Err(error) => return Err(unread(&error)),
    }
    match fs::open(rt, path) {
        Ok(file) => Ok(file),
        Err(error) => Err(unread(&error)),
    }
}

/// Judges an opened file by its kind, its owner and its mode. They are those of the file that was opened, whose path
/// this doesn't know: nobody can put another file in its place meanwhile.
fn judge<O: OpenFile>(file: &O, user: Option<u32>) -> Result<(), NoKeys>
    ensures { IfErr result IsTextless }
{
    let seen = match file.metadata() {
        Ok(seen) => seen,
        Err(error) => return Err(unread(&error)),
    };
    match refusal_of(seen.is_file(), user, seen.uid(), seen.mode()) {
        Some(none) => Err(none),
        None => Ok(()),
    }
}

/// The text of an opened file that only this user or root may use, as far as a text of keys goes, and a byte more.
fn text_of<O>(alloc: Global, file: O, user: Option<u32>) -> Result<Vec<u8>, NoKeys>
where
    O: Read + OpenFile + Drop,
    ensures { IfErr result IsTextless }
{
    judge(&file, user)?;
    let mut text = Vec::new(alloc);
    match file.take(MAX_KEY_TEXT + 1).read_to_end(&mut text) {
        Ok(_) => Ok(text),
        Err(error) => Err(unread(&error)),
    }
}

/// The keys of a file: one or two lines, as [`keys_in`] reads them. At most 131 bytes are read. Memory is allocated for
/// them, and freed again.
#[tactic(auto, using(crate::proofs::KeyLaws::textless))]
fn keys_of_file<R: Files>(rt: &R, alloc: Global, path: &str) -> Result<Keys, NoKeys>
    ensures keys { IfOk result (λ keys. (text : List ℕ) × (keys_of text ≡ Ok keys)) }
    ensures fault { IfErr result (λ none. (fault : KeyFault) → none ≡ NoKeys.Text fault
        → (text : List ℕ) × (keys_of text ≡ Err fault)) }
{
    let file = open_regular(rt, path)?;
    let text = text_of(alloc, file, own_user(rt))?;
    match keys_in(&text) {
        Ok(keys) => Ok(keys),
        Err(fault) => Err(NoKeys::Text(fault)),
    }
}

/// The keys of a group whose file has this path, or none if the group has no key file.
///
/// The file has to be a regular one, belong to root or to the user whose rights the program has, and have a mode by
/// which nobody else may use it. It is first looked at by its path, and isn't opened if it is of another kind. Then the
/// opened file is judged. Who the user is, the owner of `/proc/self` says; if there is none, the file has to be root's.
/// At most 131 bytes are read. Memory is allocated for them, and freed again.
pub fn keys_at<R: Files>(
    rt: &R,
    alloc: Global,
    path: &Option<FilePath>,
) -> Result<Option<Keys>, NoKeys>
    ensures keys { IfOk result (AreKeysAt path.now) }
    ensures fault { IfErr result (λ none. (fault : KeyFault) → none ≡ NoKeys.Text fault
        → (text : List ℕ) × (keys_of text ≡ Err fault)) }
    ensures plain { path.now ≡ None → result ≡ Ok None }
    ensures named { OnErr result (IsSome path.now) }
{
    match path {
        None => Ok(None),
        Some(path) => Ok(Some(keys_of_file(rt, alloc, path.as_str())?)),
    }
}

/// A line of a text that fits.
fn line_with(text: &str) -> ArrayString<MAX_KEY_LINE>
    requires { length text.now ≤ MAX_KEY_LINE }
    ensures { result.bytes ≡ text.now }
{
    let mut line = ArrayString::new();
    line.push_str(text);
    line
}

/// The line of a line that spells no key, by its number.
fn bad_line(number: u8) -> ArrayString<MAX_KEY_LINE>
    ensures { result.bytes ≡ bad_line number }
{
    let mut digits = Buffer::new();
    let mut line = line_with("line ");
    line.push_str(digits.format(number));
    line.push_str(" of the key file isn't 64 hex digits\n");
    line
}

/// Why a text spells no keys, as a line.
fn key_fault_line(fault: KeyFault) -> ArrayString<MAX_KEY_LINE>
    ensures { result.bytes ≡ key_fault_line fault }
{
    match fault {
        KeyFault::NoKey => line_with("the key file has no key\n"),
        KeyFault::BadLine(number) => bad_line(number),
        KeyFault::TooManyLines => line_with("the key file has more than two lines\n"),
        KeyFault::SameKeys => line_with("both keys of the key file are the same\n"),
    }
}

/// Why a file gives no keys, as a line. It is empty if memory was refused.
fn no_keys_line(fault: NoKeys) -> ArrayString<MAX_KEY_LINE>
    ensures { result.bytes ≡ no_keys_line fault }
{
    match fault {
        NoKeys::Memory => ArrayString::new(),
        NoKeys::Read => line_with("the key file can't be read\n"),
        NoKeys::Irregular => line_with("the key file is no regular file\n"),
        NoKeys::Foreign => line_with("the key file belongs to another user\n"),
        NoKeys::Shared => line_with("others than its owner can use the key file\n"),
        NoKeys::Text(fault) => key_fault_line(fault),
    }
}

/// Reports why a file gives no keys, and gives the status.
pub(crate) fn tell_no_keys<F: FaultStream>(fault: NoKeys, faults: &mut F) -> u8
    ensures { TellsNoKeys (F.reported faults.old) (F.reported faults.new) fault result }
{
    match fault {
        NoKeys::Memory => tell(Told::Memory, faults),
        NoKeys::Read | NoKeys::Irregular | NoKeys::Foreign | NoKeys::Shared | NoKeys::Text(_) => {
            tell_both(Told::Key, no_keys_line(fault).as_str(), faults)
        }
    }
}
