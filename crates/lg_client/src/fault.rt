//! Why nothing is told of a node, or not all.
//!
//! Defined in: `specs/Meaning/Faults.antt`.
//! Tested in: `cases/ask.case`, `lg_client_tests/src/damaged.rt`, `lg_client_tests/src/waiting.rt`.
ghost use Rattle.std.specs.Prelude.{◌≡◌};
ghost use Rattle.lg_client.specs.Meaning.Faults.{ask_fault_status, ask_fault_text};

use lg_text::{RunFault, WriteFault};
use thiserror::Error;

/// Why nothing is told of a node, or not all (this project's choice).
#[derive(Clone, Copy, Debug, PartialEq, Eq, Error)]
pub enum AskFault {
    /// The text spells no address with a port; nobody was asked.
    #[error("the address is none of the form A.B.C.D:PORT or [IPV6]:PORT")]
    Address,
    /// Nobody listens there, or the answer didn't come whole in time.
    #[error("nobody answers, or not to the end")]
    Unanswered,
    /// The node has no room for the question now, and it was asked again.
    #[error("the node is too busy to answer")]
    Busy,
    /// What came is no answer of a node.
    #[error("the answer is none of a node's status server")]
    Bad,
    /// Memory was refused; nothing of the answer was written.
    #[error("memory was refused")]
    Memory,
    /// The text couldn't be written; a beginning of it may have been.
    #[error(transparent)]
    Write(WriteFault),
}

impl AskFault {
    /// The exit status: 3 for [`AskFault::Address`], 7 for [`AskFault::Unanswered`], 8 for [`AskFault::Bad`], 10 for
    /// [`AskFault::Busy`], and 1 for the others.
    pub fn status(self) -> u8
        ensures { result ≡ ask_fault_status self }
    {
        match self {
            AskFault::Address => 3,
            AskFault::Unanswered => 7,
            AskFault::Bad => 8,
            AskFault::Busy => 10,
            AskFault::Memory | AskFault::Write(_) => 1,
        }
    }

    /// The line that reports the fault, with its newline. A fault of writing has a second line that says why, as in
    /// [`WriteFault::text`].
    pub fn text(self) -> &'static str
        ensures { result.now ≡ ask_fault_text self }
    {
        match self {
            AskFault::Address => "lg: bad address\n",
            AskFault::Unanswered => "lg: no answer\n",
            AskFault::Bad => "lg: bad answer\n",
            AskFault::Busy => "lg: busy\n",
            AskFault::Memory => RunFault::Memory.text(),
            AskFault::Write(fault) => fault.text(),
        }
    }
}
