//! The commands, each with an input and what comes of it if nothing fails.
use crate::streams::{Pieces, Streams};
use lg_commands::{Numbers, answer_named, order_lists, simulate, timeouts_of};
use lg_testing::Room;
use lg_text::{FaultStream, RunFault, read_input, report, write_whole};
use std::alloc::Global;

/// A command that is run over streams.
#[derive(Clone, Copy, Debug)]
pub enum Command {
    /// Reads an input whole, and writes it.
    Copying,
    /// `sim`.
    Sim,
    /// `answer` for the name `b`.
    Answer,
    /// `order` for the names `a` and `b` and the words 0, 0, 1 and 0.
    Order,
    /// `timeouts` for four members and the defaults.
    Timeouts,
}

/// A command, its input, the text that it writes, and its status.
#[derive(Clone, Copy, Debug)]
pub struct Play {
    /// The command.
    pub command: Command,
    /// The input.
    pub input: &'static str,
    /// The text.
    pub text: &'static str,
    /// The status.
    pub status: u8,
}

/// The commands that read. Their inputs are a text with an empty line and a last one without a newline, a script with
/// a faulty line, and a Ping, which has an Ack.
pub const READING: [Play; 3] = [
    Play {
        command: Command::Copying,
        input: "ab\n\nc",
        text: "ab\n\nc",
        status: 0,
    },
    Play {
        command: Command::Sim,
        input: "open a 7001 0 b:7002\ntick a 0\ntable b\n\n",
        text: "next 0\nfired round-start\nsend 1 127.0.0.1:7002 534c0101016100000001016200\n\
            next 500\nfault 3 member\n",
        status: 3,
    },
    Play {
        command: Command::Answer,
        input: "534c0101016100000007016200\n",
        text: "534c010301620000000700\n",
        status: 0,
    },
];

/// The commands that read nothing, and a script with each kind of line that has a reply of its own.
pub const OTHERS: [Play; 3] = [
    Play {
        command: Command::Order,
        input: "",
        text: "a\nb\nb\na\n",
        status: 0,
    },
    Play {
        command: Command::Timeouts,
        input: "",
        text: "min 5000\nmax 30000\n0 5000\n",
        status: 0,
    },
    Play {
        command: Command::Sim,
        input: "open a 7001 0 b:7002\nset beta 5\ntick a 0\nleave a 5\ntable a\n",
        text: "next 0\nfired round-start\nsend 1 127.0.0.1:7002 534c0101016100000001016200\nnext 500\n\
            send 2 127.0.0.1:7002 534c01060161010301617f0000011b5900000000\n\
            record a left 0 127.0.0.1:7001\nnext 1005\n\
            record a left 0 127.0.0.1:7001\nrecord b alive 0 127.0.0.1:7002\n",
        status: 0,
    },
];

/// Reads an input whole and writes it.
fn copy(alloc: Global, reader: &mut Pieces, writer: &mut Room) -> Result<(), RunFault> {
    let input = read_input(alloc, reader)?;
    write_whole(writer, &input)?;
    Ok(())
}

/// The status of copying an input. A fault is reported as the commands do it.
fn copying<F: FaultStream>(
    alloc: Global,
    reader: &mut Pieces,
    writer: &mut Room,
    faults: &mut F,
) -> u8 {
    match copy(alloc, reader, writer) {
        Ok(()) => 0,
        Err(fault) => {
            report(faults, fault.text());
            1
        }
    }
}

impl Command {
    /// Runs the command, and gives its status.
    pub fn run(self, alloc: Global, streams: &mut Streams) -> u8 {
        self.run_over(
            alloc,
            &mut streams.reader,
            &mut streams.writer,
            &mut streams.faults,
        )
    }

    /// Runs the command over these streams, and gives its status.
    pub fn run_over<F: FaultStream>(
        self,
        alloc: Global,
        reader: &mut Pieces,
        writer: &mut Room,
        faults: &mut F,
    ) -> u8 {
        let numbers = Numbers {
            members: 4,
            confirmations: 3,
            alpha: 5,
            beta: 6,
            interval_ms: 1000,
        };
        match self {
            Command::Copying => copying(alloc, reader, writer, faults),
            Command::Sim => simulate(alloc, reader, writer, faults),
            Command::Answer => answer_named(alloc, "b", reader, writer, faults),
            Command::Order => order_lists(alloc, "a,b", "0,0,1,0", writer, faults),
            Command::Timeouts => timeouts_of(alloc, &numbers, writer, faults),
        }
    }
}

impl Play {
    /// Whether a run that ended with a status came out as it does if nothing fails: all was read and written, one
    /// byte a call, and nothing was reported.
    pub fn is_met(&self, status: u8, streams: &Streams) -> bool {
        status == self.status
            && streams.reader.left.is_empty()
            && streams.writer.has(self.text.as_bytes())
            && streams.writer.calls == self.text.len().saturating_add(1)
            && streams.faults.calls == 0
    }
}
