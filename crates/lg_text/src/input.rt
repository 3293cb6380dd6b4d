//! Reads an input whole, up to a limit.
//!
//! Defined in: `specs/Meaning/Running.antt`.
//! Tested in: `cases/limits.case`, `lg_command_tests/src/readers.rt`, `lg_command_tests/src/limits.rt`.
ghost use Rattle.std.specs.Prelude.{◌≡◌, ◌≢◌, ◌+◌, ◌-◌, ◌≤◌, ◌<◌, ◌++◌, false};
ghost use Rattle.std.specs.Prelude.{◌⊎◌, IfErr, IfOk, OnOk, Ok, length, vec_len};
ghost use Rattle.std.specs.Io.KnownBytes.{Consumes, IsAtEnd};
ghost use Rattle.lg_text.specs.Meaning.Faults.{is_unwritten};
ghost use Rattle.lg_text.specs.Meaning.Running.{TakesAtMost, TakesMore};
ghost use Rattle.lg_text.specs.Support.Input.{Grows};

use crate::fault::{InputFault, RunFault};
use std::alloc::Global;
use std::io::{ErrorKind, Read};

/// The most bytes of an input: 1,048,576 (this project's choice).
pub const MAX_INPUT: usize = 1_048_576;

/// The most read calls for an input: two for each byte of an input that is one byte too long. So a reader that gives
/// a byte at a time may be interrupted before each byte.
const MAX_READS: usize = 2 * (MAX_INPUT + 1);

/// The most bytes of one read call.
const MAX_CHUNK: usize = 8192;

/// How far an input was read.
#[derive(Clone, Copy, Debug, PartialEq, Eq)]
enum Progress {
    /// More may follow.
    More,
    /// Nothing follows.
    End,
}

/// Reads all that a reader has left, at most [`MAX_INPUT`] bytes.
///
/// A longer or endless input is [`InputFault::TooLong`]. It is found after at most `MAX_INPUT + 1` bytes and
/// `2 * (MAX_INPUT + 1)` read calls. An interrupted call is made again within these calls. Any other error of the
/// reader is [`InputFault::Failed`] with its kind, and so is an interruption of the last of these calls. The memory
/// that is allocated is in proportion to the bytes; if it is refused, the fault is [`RunFault::Memory`].
pub fn read_input<R: Read>(alloc: Global, reader: &mut R) -> Result<Vec<u8>, RunFault>
    ensures all { IfOk result (λ input. Consumes (R.remaining reader.old) (R.remaining reader.new) input.items) }
    ensures end { OnOk result (IsAtEnd (R.remaining reader.new)) }
    ensures within { IfOk result (λ input. vec_len input ≤ MAX_INPUT) }
    ensures taken { TakesAtMost (MAX_INPUT + 1) (R.remaining reader.old) (R.remaining reader.new) }
    ensures few { IfErr result (λ fault. fault ≢ RunFault.Read InputFault.TooLong
        → TakesAtMost MAX_INPUT (R.remaining reader.old) (R.remaining reader.new)) }
    ensures many { IfErr result (λ fault. fault ≡ RunFault.Read InputFault.TooLong
        → TakesMore MAX_INPUT (R.remaining reader.old) (R.remaining reader.new)) }
    ensures refused { IfErr result (λ fault. is_unwritten fault ≡ false) }
{
    let mut input = Vec::new(alloc);
    let mut chunk = [0; MAX_CHUNK];
    for _ in 0..MAX_READS {
        match read_more(reader, &mut chunk, &mut input)? {
            Progress::End => return Ok(input),
            Progress::More => {}
        }
    }
    Err(RunFault::Read(InputFault::Failed(ErrorKind::Interrupted)))
}

/// Makes one read call, and appends its bytes to the input if the input isn't too long then.
fn read_more<R: Read>(
    reader: &mut R,
    chunk: &mut [u8],
    input: &mut Vec<u8>,
) -> Result<Progress, RunFault>
    requires space { 0 < length chunk.old }
    requires room { vec_len input.old ≤ MAX_INPUT }
    ensures grows { OnOk result
        (Grows (R.remaining reader.old) (R.remaining reader.new) input.old.items input.new.items) }
    ensures within { OnOk result (vec_len input.new ≤ MAX_INPUT) }
    ensures taken { TakesAtMost (MAX_INPUT + 1 - vec_len input.old) (R.remaining reader.old) (R.remaining reader.new) }
    ensures few { IfErr result (λ fault. fault ≢ RunFault.Read InputFault.TooLong
        → TakesAtMost (MAX_INPUT - vec_len input.old) (R.remaining reader.old) (R.remaining reader.new)) }
    ensures many { IfErr result (λ fault. fault ≡ RunFault.Read InputFault.TooLong
        → TakesMore (MAX_INPUT - vec_len input.old) (R.remaining reader.old) (R.remaining reader.new)) }
    ensures end { result ≡ Ok Progress.End → IsAtEnd (R.remaining reader.new) }
    ensures refused { IfErr result (λ fault. is_unwritten fault ≡ false) }
{
    let most = chunk.len().min(MAX_INPUT + 1 - input.len());
    match reader.read(&mut chunk[..most]) {
        Ok(0) => Ok(Progress::End),
        Ok(count) => {
            keep_read(&chunk[..count], input)?;
            Ok(Progress::More)
        }
        Err(error) => {
            if error.kind() == ErrorKind::Interrupted {
                Ok(Progress::More)
            } else {
                Err(RunFault::Read(InputFault::Failed(error.kind())))
            }
        }
    }
}

/// Appends what was read to the input, if the input isn't too long then.
fn keep_read(read: &[u8], input: &mut Vec<u8>) -> Result<(), RunFault>
    requires { vec_len input.old ≤ MAX_INPUT }
    ensures grown { OnOk result (input.new.items ≡ input.old.items ++ read.now) }
    ensures within { OnOk result (vec_len input.new ≤ MAX_INPUT) }
    ensures refused { IfErr result (λ fault.
        ((fault ≡ RunFault.Memory) × (vec_len input.old + length read.now ≤ MAX_INPUT))
        ⊎ ((fault ≡ RunFault.Read InputFault.TooLong) × (MAX_INPUT < vec_len input.old + length read.now))) }
{
    if read.len() > MAX_INPUT - input.len() {
        return Err(RunFault::Read(InputFault::TooLong));
    }
    input.extend_from_slice(read)?;
    Ok(())
}
