//! What is wrong with a line of input.
//!
//! Defined in: `specs/Meaning/Spelled.antt`.
//! Tested in: `cases/answer.case`.
ghost use Rattle.std.specs.Prelude.{◌≡◌};
ghost use Rattle.lg_commands.specs.Meaning.Spelled.{fault_text};

use lg_packet::Fault;
use thiserror::Error;

/// What is wrong with a line that should spell a packet in hex.
#[derive(Clone, Copy, Debug, PartialEq, Eq, Error)]
pub enum LineFault {
    /// It isn't pairs of hex digits.
    #[error("a line has to be pairs of hex digits")]
    NotHex,
    /// It is the hex of bytes that are no packet.
    #[error(transparent)]
    Refused(Fault),
}

impl LineFault {
    /// The text of the fault: its number and its name.
    pub fn text(self) -> &'static str
        ensures { result.now ≡ fault_text self }
    {
        match self {
            LineFault::NotHex => "bad hex",
            LineFault::Refused(Fault::Short) => "fault 1 Short",
            LineFault::Refused(Fault::Magic) => "fault 2 Magic",
            LineFault::Refused(Fault::Version) => "fault 3 Version",
            LineFault::Refused(Fault::Kind) => "fault 4 Kind",
            LineFault::Refused(Fault::Name) => "fault 5 Name",
            LineFault::Refused(Fault::Count) => "fault 6 Count",
            LineFault::Refused(Fault::ClaimKind) => "fault 7 ClaimKind",
            LineFault::Refused(Fault::Incarnation) => "fault 8 Incarnation",
            LineFault::Refused(Fault::Trailing) => "fault 9 Trailing",
            LineFault::Refused(Fault::Family) => "fault 10 Family",
        }
    }
}
