//! Runs the lines of a script, up to the first that is faulty.
//!
//! Defined in: `specs/Meaning/Text.antt`.
//! Tested in: `cases/sim.case`, `cases/sim_faults.case`.
ghost use Rattle.std.specs.Prelude.{◌≡◌, ◌≢◌, ◌≤◌, ◌++◌, IfErr, IfOk, List, OnOk, length};
ghost use Rattle.lg_script.specs.declared.command.Command.{Command as Commanded};
ghost use Rattle.lg_sim.specs.Meaning.Text.{fault_line, line_fault, script_end, script_text};
ghost use Rattle.lg_sim.specs.Support.After.{IsClusterAfter, IsClusterReached, RanLine, StopsAt};

use crate::cluster::{Cluster, Stop};
use crate::command::run_command;
use crate::host::RunBuffers;
use arrayvec::ArrayVec;
use itoa::Buffer;
use lg_detector::{NoMemory, Reply};
use lg_script::{ScriptFault, command_in};
use lg_text::{MAX_INPUT, RunEnd, cut_line};
use std::alloc::{AllocError, Global};

/// What a script writes, and how its run ends.
#[derive(Debug, Drop)]
pub struct Written {
    /// The text.
    pub text: Vec<u8>,
    /// How the run ends.
    pub end: RunEnd,
}

/// Appends the line of a fault to a text, with the number of the faulty line.
fn put_fault(number: u64, fault: ScriptFault, text: &mut Vec<u8>) -> Result<(), NoMemory>
    ensures { OnOk result (text.new.items ≡ text.old.items ++ fault_line number fault) }
{
    let mut digits = Buffer::new();
    text.extend_from_slice(b"fault ")?;
    text.extend_from_slice(digits.format(number).as_bytes())?;
    text.push(b' ')?;
    text.extend_from_slice(fault.text().as_bytes())?;
    text.push(b'\n')?;
    Ok(())
}

/// Runs a line: carries out its command, if it has one, and appends what that gives to a text.
fn run_line(
    alloc: Global,
    line: &[u8],
    cluster: &mut Cluster,
    buffers: &mut RunBuffers,
    text: &mut Vec<u8>,
) -> Result<(), Stop>
    requires { IsClusterReached cluster.old }
    ensures stops { (before : List Commanded) → IsClusterAfter cluster.old before
        → StopsAt result (line_fault line.now before) }
    ensures unchanged { IfErr result (λ stop. stop ≢ Stop.NoMemory
        → (cluster.new ≡ cluster.old) × (text.new.items ≡ text.old.items)) }
    ensures runs { OnOk result ((before : List Commanded) → IsClusterAfter cluster.old before
        → RanLine cluster.new text.old.items text.new.items before line.now) }
{
    match command_in(line) {
        Ok(None) => Ok(()),
        Ok(Some(command)) => run_command(alloc, command, cluster, buffers, text),
        Err(fault) => Err(Stop::Faulty(fault)),
    }
}

/// What a script writes: for each line, what its command gives after the commands before it. The first faulty line
/// ends the text with its fault.
///
/// Time and memory are in proportion to the script and to what it writes. The only error is that memory was refused.
pub fn run_script(alloc: Global, input: &[u8]) -> Result<Written, NoMemory>
    requires { length input.now ≤ MAX_INPUT }
    ensures text { IfOk result (λ written. written.text.items ≡ script_text input.now) }
    ensures end { IfOk result (λ written. written.end ≡ script_end input.now) }
{
    let mut cluster = Cluster::new(alloc);
    let mut buffers = RunBuffers {
        reply: Reply::default(),
        row: ArrayVec::new(),
    };
    let mut text = Vec::new(alloc);
    let mut number = 1;
    let mut rest = input;
    'lines: while !rest.is_empty() {
        let (line, after) = cut_line(rest);
        match run_line(alloc, line, &mut cluster, &mut buffers, &mut text) {
            Ok(()) => {}
            Err(Stop::NoMemory) => return Err(AllocError),
            Err(Stop::Faulty(fault)) => {
                put_fault(number, fault, &mut text)?;
                let end = RunEnd::Faulty;
                return Ok(Written { text, end });
            }
        }
        number += 1;
        rest = after;
    }
    let end = RunEnd::Done;
    Ok(Written { text, end })
}
