//! Plays the lines of a script, up to the first that is faulty.

use crate::group::Group;
use crate::member::{Output, Stop};
use arrayvec::ArrayVec;
use itoa::Buffer;
use lg_detector::{NoMemory, Reply};
use lg_script::{ScriptFault, command_in};
use lg_text::{MAX_INPUT, cut_line};
use std::alloc::{AllocError, Global};

/// Carries out the command of a line, if it has one.
fn run_line(
    alloc: Global,
    line: &[u8],
    group: &mut Group,
    output: &mut Output,
) -> Result<(), Stop> {
    match command_in(line) {
        Ok(None) => Ok(()),
        Ok(Some(command)) => group.run(alloc, command, output),
        Err(fault) => Err(Stop::Faulty(fault)),
    }
}

/// Writes the line of a fault, with the number of the faulty line.
fn put_fault(number: u64, fault: ScriptFault, text: &mut Vec<u8>) -> Result<(), NoMemory> {
    let mut digits = Buffer::new();
    text.extend_from_slice(b"fault ")?;
    text.extend_from_slice(digits.format(number).as_bytes())?;
    text.push(b' ')?;
    text.extend_from_slice(fault.text().as_bytes())?;
    text.push(b'\n')?;
    Ok(())
}

/// What a script of at most [`MAX_INPUT`] bytes writes. Time and memory are in proportion to the script and to what it
/// writes. The only error is that memory was refused.
pub fn play_script(alloc: Global, input: &[u8]) -> Result<Vec<u8>, NoMemory> {
    let mut group = Group::new(alloc);
    let mut output = Output {
        text: Vec::new(alloc),
        sent: Vec::new(alloc),
        reply: Reply::default(),
        row: ArrayVec::new(),
    };
    let mut rest = input;
    for number in 1..=MAX_INPUT as u64 {
        if rest.is_empty() {
            break;
        }
        let (line, after) = cut_line(rest);
        match run_line(alloc, line, &mut group, &mut output) {
            Ok(()) => {}
            Err(Stop::NoMemory) => return Err(AllocError),
            Err(Stop::Faulty(fault)) => {
                put_fault(number, fault, &mut output.text)?;
                break;
            }
        }
        rest = after;
    }
    group.replay_all(alloc, &mut output)?;
    Ok(output.text)
}
