//! Why a line is faulty.
//!
//! Defined in: `specs/Meaning/Faults.antt`.
//! Tested in: `cases/sim_faults.case`, `cases/sim_lines.case`.
ghost use Rattle.std.specs.Prelude.{◌≡◌};
ghost use Rattle.lg_script.specs.Meaning.Faults.{fault_word};

use thiserror::Error;

/// Why a line is faulty. The faults of one line are looked for in this order (this project's choice).
#[derive(Clone, Copy, Debug, PartialEq, Eq, Error)]
pub enum ScriptFault {
    /// The first word names no command, or there is none.
    #[error("a line begins with set, open, tick, deliver, ask, health, pull, leave or table")]
    Command,
    /// A space is doubled, leads or trails, or the command takes another number of words.
    #[error("one space stands between two words, and each command takes words of its own")]
    Words,
    /// A word is out of its form or range, a key is unknown, or an `open` has more than 16 seeds or gives a
    /// configuration that fails its check.
    #[error("a word is out of its form or its range")]
    Value,
    /// A member with the name or the port of an `open` is open already.
    #[error("a member with this name or port is open already")]
    Double,
    /// An `open` would open a seventeenth member.
    #[error("at most 16 members can be opened")]
    Full,
    /// No member of this name is open.
    #[error("no member of this name is open")]
    Member,
    /// No packet of this number was sent.
    #[error("no packet of this number was sent")]
    Packet,
}

impl ScriptFault {
    /// The word that reports the fault.
    pub fn text(self) -> &'static str
        ensures { result.now ≡ fault_word self }
    {
        match self {
            ScriptFault::Command => "command",
            ScriptFault::Words => "words",
            ScriptFault::Value => "value",
            ScriptFault::Double => "double",
            ScriptFault::Full => "full",
            ScriptFault::Member => "member",
            ScriptFault::Packet => "packet",
        }
    }
}
