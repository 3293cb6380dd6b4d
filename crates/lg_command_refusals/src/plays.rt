//! The commands that read an input or lists, each with what comes of it if nothing fails.
use lg_commands::{Numbers, answer_named, order_lists, simulate, timeouts_of, write_version};
use lg_testing::Room;
use lg_text::{RunFault, read_input, report, write_whole};
use std::alloc::Global;
use std::io;
use std::io::Read;

/// A reader that gives one byte a call, so that what is read grows step by step.
#[derive(Drop)]
struct Bytes<'a> {
    left: &'a [u8],
}

impl Read for Bytes<'_> {
    fn read(&mut self, buf: &mut [u8]) -> io::Result<usize> {
        if buf.is_empty() || self.left.is_empty() {
            return Ok(0);
        }
        buf[0] = self.left[0];
        self.left = &self.left[1..];
        Ok(1)
    }
}

/// A command that is run over streams.
#[derive(Clone, Copy, Debug)]
pub enum Command {
    /// Reads an input whole, and writes it.
    Copying,
    /// `sim`.
    Sim,
    /// `answer` for the name `b`.
    Answer,
    /// `order` for the names `a` and `b` and the words 0, 0, 1 and 0.
    Order,
    /// `timeouts` for four members and the defaults.
    Timeouts,
    /// `version`, whose input stands for the end of the program's file.
    Version,
}

/// A command, its input, the text that it writes, and its status.
#[derive(Clone, Copy, Debug)]
pub struct Play {
    command: Command,
    input: &'static str,
    text: &'static str,
    status: u8,
}

/// A text with an empty line and a last one without a newline. A script with a faulty line, and one with each kind of
/// line that has a reply of its own. A Ping, which has an Ack. The note of a build, and none.
pub const PLAYS: [Play; 8] = [
    Play {
        command: Command::Copying,
        input: "ab\n\nc",
        text: "ab\n\nc",
        status: 0,
    },
    Play {
        command: Command::Sim,
        input: "open a 7001 0 b:7002\ntick a 0\ntable b\n\n",
        text: "next 0\nfired round-start\nsend 1 127.0.0.1:7002 534c0101016100000001016200\n\
            next 500\nfault 3 member\n",
        status: 3,
    },
    Play {
        command: Command::Answer,
        input: "534c0101016100000007016200\n",
        text: "534c010301620000000700\n",
        status: 0,
    },
    Play {
        command: Command::Order,
        input: "",
        text: "a\nb\nb\na\n",
        status: 0,
    },
    Play {
        command: Command::Timeouts,
        input: "",
        text: "min 5000\nmax 30000\n0 5000\n",
        status: 0,
    },
    Play {
        command: Command::Sim,
        input: "open a 7001 0 b:7002\nset beta 5\ntick a 0\nleave a 5\ntable a\n",
        text: "next 0\nfired round-start\nsend 1 127.0.0.1:7002 534c0101016100000001016200\nnext 500\n\
            send 2 127.0.0.1:7002 534c01060161010301617f0000011b5900000000\n\
            record a left 0 127.0.0.1:7001\nnext 1005\n\
            record a left 0 127.0.0.1:7001\nrecord b alive 0 127.0.0.1:7002\n",
        status: 0,
    },
    Play {
        command: Command::Version,
        input: "lg build 1\ncommit 27499ed3\nkit k\nproved yes\n\0\0\0",
        text: "version 0.9.0\npackets 1 to 3\ncommit 27499ed3\nkit k\nproved yes\n",
        status: 0,
    },
    Play {
        command: Command::Version,
        input: "",
        text: "version 0.9.0\npackets 1 to 3\ncommit unknown\nkit unknown\n\
            proved unknown: the program has no note of its build\n",
        status: 0,
    },
];

/// Reads an input whole and writes it.
fn copy(alloc: Global, reader: &mut Bytes<'_>, writer: &mut Room) -> Result<(), RunFault> {
    let input = read_input(alloc, reader)?;
    write_whole(writer, &input)?;
    Ok(())
}

/// The status of copying an input. A fault is reported as the commands do it.
fn copying(alloc: Global, reader: &mut Bytes<'_>, writer: &mut Room, faults: &mut Room) -> u8 {
    match copy(alloc, reader, writer) {
        Ok(()) => 0,
        Err(fault) => {
            report(faults, fault.text());
            1
        }
    }
}

impl Command {
    /// Runs the command over an input, and gives its status.
    fn run(self, alloc: Global, input: &[u8], writer: &mut Room, faults: &mut Room) -> u8 {
        let numbers = Numbers {
            members: 4,
            confirmations: 3,
            alpha: 5,
            beta: 6,
            interval_ms: 1000,
        };
        let mut reader = Bytes { left: input };
        match self {
            Command::Copying => copying(alloc, &mut reader, writer, faults),
            Command::Sim => simulate(alloc, &mut reader, writer, faults),
            Command::Answer => answer_named(alloc, "b", &mut reader, writer, faults),
            Command::Order => order_lists(alloc, "a,b", "0,0,1,0", writer, faults),
            Command::Timeouts => timeouts_of(alloc, &numbers, writer, faults),
            Command::Version => write_version(alloc, input, writer, faults),
        }
    }
}

impl Play {
    /// Whether a run comes out as it does with memory. None if it was refused memory, and wrote nothing then.
    pub fn is_met(&self, alloc: Global) -> Option<bool> {
        let (mut writer, mut faults) = (Room::failing(0), Room::failing(0));
        let input = self.input.as_bytes();
        let status = self.command.run(alloc, input, &mut writer, &mut faults);
        if status == 1 && writer.calls == 0 && faults.has(b"lg: memory\n") {
            return None;
        }
        let is_written = writer.has(self.text.as_bytes());
        Some(status == self.status && is_written && faults.calls == 0)
    }
}
