//! A program that plays a script over a group of up to 64 detectors. The fuzzer of `cases/fuzz` runs it.
//!
//! The script is that of `lg sim`, and so is what it writes, but for three things. There may be 64 members. The `open`
//! of a name that is open starts this member again, from nothing. And at the end, and before a member is started again,
//! all events that a member heard are replayed by a new detector: each has to give the reply that it gave before. The
//! last line is then `replayed N`, if N events of all members were replayed, and `differs N` if one gave another reply.
#![tactic(auto)]

mod group;
mod member;
mod script;

use lg_text::{RunFault, read_input, report, write_whole};
use std::alloc::Global;
use std::io::{Read, Write};
use std::process::ExitCode;

/// The exit status of a run that failed.
const FAILED: u8 = 1;

/// Plays the script that a reader gives, and writes what comes of it.
fn play<R: Read, W: Write>(alloc: Global, reader: &mut R, writer: &mut W) -> Result<(), RunFault> {
    let input = read_input(alloc, reader)?;
    let text = script::play_script(alloc, &input)?;
    write_whole(writer, &text)?;
    Ok(())
}

fn main(rt: HostRuntime) -> ExitCode {
    match play(rt.alloc(), &mut rt.stdin(), &mut rt.stdout()) {
        Ok(()) => ExitCode::SUCCESS,
        Err(fault) => {
            report(&mut rt.stderr(), fault.text());
            ExitCode::from(FAILED)
        }
    }
}
