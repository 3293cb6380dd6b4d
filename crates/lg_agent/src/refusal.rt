//! Why a call or a look is refused, and why an agent isn't closed.
//!
//! Defined in: `specs/Meaning/Numbers.antt`, `specs/Meaning/Calls.antt`, `specs/Meaning/Closing.antt`.
//! Tested in: `lg_agent_tests/src/agent/rows.rt`, `lg_command_tests/src/launch/told.rt`.
ghost use Rattle.std.specs.Prelude.{◌≡◌};
ghost use Rattle.lg_agent.specs.Meaning.Numbers.{refusal_number, close_fault_number};

use lg_packet::Fault;
use lg_view::NoView;
use thiserror::Error;

/// Why a call or a look was refused. It has then changed nothing, and made no entry.
///
/// If several refusals apply, a call gets the first in this order: `BadPacket`, `NoMemory` for the pass's own list,
/// `Behind`, `NoPlace`, `HistoryFull`, `NoMemory` for the history and the publication.
#[derive(Clone, Copy, Debug, PartialEq, Eq, Error)]
pub enum Refusal {
    /// The bytes are no packet.
    #[error("the bytes are no packet: {0}")]
    BadPacket(Fault),
    /// Memory was refused.
    #[error("memory was refused")]
    NoMemory,
    /// As many entries are stored as the configuration allows, which is the number here, and a rotation makes room. Or
    /// there were 4,000,000,000 events, and that is then the number here; nothing makes room then.
    #[error("the history is full: {0} entries are its limit")]
    HistoryFull(u64),
    /// The pass has seen more events than are published. This should never happen.
    #[error("the pass has seen {seen} events, and {here} are published")]
    Behind {
        /// How many events the pass has seen.
        seen: u64,
        /// How many are published.
        here: u64,
    },
    /// The seat isn't from 1 to the number of places; or, at an opening, there was no reader for a seat.
    #[error("there is no such place, or no reader for one")]
    NoPlace,
    /// At a look: the published value wasn't handed out. While the agent is open, this should never happen.
    #[error("{view}", view = NoView)]
    NoView,
}

impl Refusal {
    /// The number of the refusal: 1 to 6, in the order of the variants.
    pub fn number(&self) -> u8
        ensures { result ≡ refusal_number self.now }
    {
        match self {
            Refusal::BadPacket(_) => 1,
            Refusal::NoMemory => 2,
            Refusal::HistoryFull(_) => 3,
            Refusal::Behind { .. } => 4,
            Refusal::NoPlace => 5,
            Refusal::NoView => 6,
        }
    }
}

/// Why an agent wasn't closed. If several faults apply, it is the first in the order `Foreign`, `Missing`, `Differs`.
#[derive(Clone, Copy, Debug, PartialEq, Eq, Error)]
pub enum CloseFault {
    /// Some seat from 1 to the number of places has no [`Spent`](crate::Spent).
    #[error("a place has no Spent")]
    Missing,
    /// Some [`Spent`](crate::Spent) has another agent's name, or a seat that isn't from 1 to the number of places, or
    /// one that another has as well.
    #[error("a Spent is another agent's, or has a place that isn't there, or that another Spent has")]
    Foreign,
    /// The calls of a [`Spent`](crate::Spent) aren't those of its seat in the history. Entries that were cut off are
    /// compared by their number, the others by their positions. Or, which should never happen, the calls are those, and
    /// the [`Spent`](crate::Spent) has seen more events than the history has; the index is then that after its last
    /// call.
    #[error("the calls of place {seat} aren't those of the history, from call {index} on")]
    Differs {
        /// The least such seat; of those that only saw too much, that of the first in the list.
        seat: usize,
        /// The first index, counted over all calls of the pass, at which the two lists differ; one of them may end
        /// there. If the numbers differ, it is the lesser of the two.
        index: u64,
    },
}

impl CloseFault {
    /// The number of the fault: 1 to 3, in the order of the variants.
    pub fn number(&self) -> u8
        ensures { result ≡ close_fault_number self.now }
    {
        match self {
            CloseFault::Missing => 1,
            CloseFault::Foreign => 2,
            CloseFault::Differs { .. } => 3,
        }
    }
}
