//! What is told of a node's run.
//!
//! Defined in: `specs/Meaning/Telling.antt`, `lg_config/specs/Meaning/Faults.antt`.
//! Tested in: `lg_command_tests/src/launch/told.rt`.
ghost use Rattle.std.specs.Prelude.{◌≡◌, ◌≤◌, length};
ghost use Rattle.lg_run.specs.Meaning.Telling.{status_told, line_of, config_line, refusal_told};
ghost use Rattle.lg_run.specs.Meaning.Telling.{fault_told};

use arrayvec::ArrayString;
use itoa::Buffer;
use lg_agent::Refusal;
use lg_config::FileFault;
use lg_text::{MAX_FAULT_TEXT, RunFault, WriteFault};

/// The most bytes of what is told, its newlines included: those of the two lines of a table that can't be written since
/// the file would be too large.
pub const MAX_LINE: usize = MAX_FAULT_TEXT;

/// What is told of a node's run: an exit status, and a line on standard error if the status isn't 0, or two (this
/// project's choice).
#[derive(Clone, Copy, Debug, PartialEq, Eq)]
pub enum Told {
    /// The node ran to its end, and its table was written.
    Done,
    /// Memory was refused.
    Memory,
    /// The configuration file couldn't be read.
    Read,
    /// The table couldn't be written; a beginning of it may have been.
    Write(WriteFault),
    /// The history was full.
    History,
    /// A loop made as many turns as it may.
    Turns,
    /// A call was refused for another reason, or the machine's clock couldn't be read.
    Refused,
    /// The agent wasn't closed.
    Close,
    /// The configuration file means no configuration.
    Config(FileFault),
    /// Another member said something of this member that it can't refute. The table was written.
    Ousted,
    /// The socket couldn't be bound, or receiving failed.
    Link,
    /// The status server couldn't be bound to its address.
    Status,
    /// The key file gives none.
    Key,
}

impl Told {
    /// The exit status: 0 for [`Told::Done`], 3 for [`Told::Config`], 4 for [`Told::Ousted`], 5 for [`Told::Link`],
    /// 6 for [`Told::Status`], 9 for [`Told::Key`], and 1 for the others.
    pub fn status(self) -> u8
        ensures { result ≡ status_told self }
    {
        match self {
            Told::Done => 0,
            Told::Config(_) => 3,
            Told::Ousted => 4,
            Told::Link => 5,
            Told::Status => 6,
            Told::Key => 9,
            Told::Memory
            | Told::Read
            | Told::Write(_)
            | Told::History
            | Told::Turns
            | Told::Refused
            | Told::Close => 1,
        }
    }

    /// The line, with its newline: `lg: ` and a word, or `lg: config N` with the number of the fault. It is empty for
    /// [`Told::Done`]. For [`Told::Write`] a second line says why. Allocates no memory.
    pub fn line(self) -> ArrayString<MAX_LINE>
        ensures { result.bytes ≡ line_of self }
    {
        match self {
            Told::Done => ArrayString::new(),
            Told::Memory => line_with(RunFault::Memory.text()),
            Told::Read => line_with("lg: read\n"),
            Told::Write(fault) => line_with(fault.text()),
            Told::History => line_with("lg: history\n"),
            Told::Turns => line_with("lg: turns\n"),
            Told::Refused => line_with("lg: refused\n"),
            Told::Close => line_with("lg: close\n"),
            Told::Config(fault) => config_line(fault.number()),
            Told::Ousted => line_with("lg: ousted\n"),
            Told::Link => line_with("lg: link\n"),
            Told::Status => line_with("lg: status\n"),
            Told::Key => line_with("lg: key\n"),
        }
    }
}

/// A line of a text that fits.
fn line_with(text: &str) -> ArrayString<MAX_LINE>
    requires { length text.now ≤ MAX_LINE }
    ensures { result.bytes ≡ text.now }
{
    let mut line = ArrayString::new();
    line.push_str(text);
    line
}

/// The line of a faulty configuration file, by the number of the fault.
fn config_line(number: u8) -> ArrayString<MAX_LINE>
    ensures { result.bytes ≡ config_line number }
{
    let mut digits = Buffer::new();
    let mut line = line_with("lg: config ");
    line.push_str(digits.format(number));
    line.push_str("\n");
    line
}

impl From<Refusal> for Told {
    ghost from_gives = { λ refusal told. told ≡ refusal_told refusal };

    fn from(refusal: Refusal) -> Told {
        match refusal {
            Refusal::NoMemory => Told::Memory,
            Refusal::HistoryFull(_) => Told::History,
            Refusal::BadPacket(_) | Refusal::Behind { .. } | Refusal::NoPlace | Refusal::NoView =>
                Told::Refused,
        }
    }
}

impl From<RunFault> for Told {
    ghost from_gives = { λ fault told. told ≡ fault_told fault };

    fn from(fault: RunFault) -> Told {
        match fault {
            RunFault::Memory => Told::Memory,
            RunFault::Read(_) => Told::Read,
            RunFault::Write(fault) => Told::Write(fault),
        }
    }
}
