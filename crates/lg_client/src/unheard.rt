//! Why a question has no answer, and how long is waited until it is asked again.
//!
//! Defined in: `specs/Meaning/Waiting.antt`.
//! Tested in: `lg_client_tests/src/waiting.rt`.
ghost use Rattle.std.specs.Prelude.{◌≡◌};
ghost use Rattle.lg_client.specs.Meaning.Waiting.{ask_fault_of, put_off_by, seconds_of};

use crate::fault::AskFault;

/// The least and the most that is waited, in seconds (this project's choice).
const LEAST_WAIT: u64 = 1;

const MOST_WAIT: u64 = 5;

/// Why a node is to be asked later.
#[derive(Clone, Copy, Debug, PartialEq, Eq)]
pub(crate) enum Delay {
    /// It answered 503, and to ask again after so many seconds.
    Told(u64),
    /// The connection was closed before a byte came.
    Closed,
}

impl Delay {
    /// How long is waited, in seconds: as it was told, but at least 1 and at most 5. Behind a connection that was
    /// closed it is 1.
    pub(crate) fn seconds(self) -> u64
        ensures { result ≡ seconds_of self }
    {
        match self {
            Delay::Told(said) => LEAST_WAIT.max(MOST_WAIT.min(said)),
            Delay::Closed => LEAST_WAIT,
        }
    }
}

/// Why a question has no answer.
#[derive(Clone, Copy, Debug, PartialEq, Eq)]
pub(crate) enum Unheard {
    /// The node is busy. It is to be asked later.
    Later(Delay),
    /// Nobody listens there, or the answer didn't come whole in time.
    Lacking,
    /// What came is no answer of a node.
    Wrong,
    /// Memory was refused.
    NoMemory,
}

impl Unheard {
    /// Why the node is to be asked later, if it is.
    pub(crate) fn delay(self) -> Option<Delay>
        ensures { result ≡ put_off_by self }
    {
        match self {
            Unheard::Later(delay) => Some(delay),
            Unheard::Lacking | Unheard::Wrong | Unheard::NoMemory => None,
        }
    }

    /// The fault that is told if the question isn't asked again.
    pub(crate) fn fault(self) -> AskFault
        ensures { result ≡ ask_fault_of self }
    {
        match self {
            Unheard::Later(_) => AskFault::Busy,
            Unheard::Lacking => AskFault::Unanswered,
            Unheard::Wrong => AskFault::Bad,
            Unheard::NoMemory => AskFault::Memory,
        }
    }
}
