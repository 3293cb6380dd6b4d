//! The commands of a script.
//!
//! Defined in: `specs/Meaning/Commands.antt`.
//! Tested in: `cases/sim_commands.case`.
use arrayvec::ArrayVec;
use lg_rules::Name;
use lg_timing::{Key, MAX_SEEDS, Moment, Seed};

/// How many random words a tick or a leave has: 8 (this project's choice).
pub const RANDOM_WORDS: usize = 8;

/// A command of a script (this project's choice).
#[derive(Debug, PartialEq, Eq, Drop)]
pub enum Command {
    /// Sets a number in the configuration of the members that are opened later.
    Set {
        /// Which number.
        key: Key,
        /// Its new value. The range is judged when a member is opened.
        number: u64,
    },
    /// Sets the group of the members that are opened later.
    SetGroup {
        /// Which group. Whether a member may belong to it is judged when the member is opened.
        group: Name,
    },
    /// Opens a member.
    Open {
        /// Its name.
        name: Name,
        /// Its port at 127.0.0.1, 1 to 65535.
        port: u16,
        /// When.
        now: Moment,
        /// The members that it knows from the start. Whether their names differ is judged elsewhere.
        seeds: ArrayVec<Seed, MAX_SEEDS>,
    },
    /// Time has passed for a member.
    Tick {
        /// Which member.
        name: Name,
        /// When.
        now: Moment,
        /// Its random words. Those that the line lacks are 0.
        words: [u32; RANDOM_WORDS],
    },
    /// The member at the destination of a packet hears the packet.
    Deliver {
        /// The number of the packet, from 1 on in the order in which packets were sent. It may be the number of no
        /// packet.
        packet: u64,
        /// When.
        now: Moment,
    },
    /// Asks a member for its record of a name.
    Ask {
        /// Which member.
        name: Name,
        /// When.
        now: Moment,
        /// Whose record.
        other: Name,
    },
    /// Asks a member for its health score, its incarnation and how many members aren't gone.
    Health {
        /// Which member.
        name: Name,
        /// When.
        now: Moment,
    },
    /// Tells a member to send a Pull.
    Pull {
        /// Which member.
        name: Name,
        /// When.
        now: Moment,
        /// To which port at 127.0.0.1, 1 to 65535.
        port: u16,
    },
    /// A member leaves.
    Leave {
        /// Which member.
        name: Name,
        /// When.
        now: Moment,
        /// Its random words. Those that the line lacks are 0.
        words: [u32; RANDOM_WORDS],
    },
    /// Shows the table of a member.
    Table {
        /// Which member.
        name: Name,
    },
}
