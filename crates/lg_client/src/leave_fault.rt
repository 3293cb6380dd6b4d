//! Why it isn't known that a node has left.
//!
//! Defined in: `specs/Meaning/Leaving.antt`.
//! Tested in: `lg_client_tests/src/leaving.rt`.
ghost use Rattle.std.specs.Prelude.{◌≡◌};
ghost use Rattle.lg_client.specs.Meaning.Leaving.{leave_fault_status, leave_fault_text};

use crate::fault::AskFault;
use thiserror::Error;

/// Why it isn't known that a node has left (this project's choice).
#[derive(Clone, Copy, Debug, PartialEq, Eq, Error)]
pub enum LeaveFault {
    /// The text is no name of a member; the node wasn't asked.
    #[error("the text is no name of a member")]
    Name,
    /// The node couldn't be asked for its name or to leave, or it didn't answer that it leaves.
    #[error(transparent)]
    Asking(AskFault),
    /// The node answered that it leaves, and takes connections 70,000 milliseconds later.
    #[error("the node leaves, and hasn't ended")]
    Staying,
}

impl LeaveFault {
    /// The exit status: 3 for [`LeaveFault::Name`], that of the fault for [`LeaveFault::Asking`], and 1 for
    /// [`LeaveFault::Staying`].
    pub fn status(self) -> u8
        ensures { result ≡ leave_fault_status self }
    {
        match self {
            LeaveFault::Name => 3,
            LeaveFault::Asking(fault) => fault.status(),
            LeaveFault::Staying => 1,
        }
    }

    /// The line that reports the fault, with its newline.
    pub fn text(self) -> &'static str
        ensures { result.now ≡ leave_fault_text self }
    {
        match self {
            LeaveFault::Name => "lg: bad names\n",
            LeaveFault::Asking(fault) => fault.text(),
            LeaveFault::Staying => "lg: not ended\n",
        }
    }
}
