//! The events: what happens to a detector.
//!
//! Defined in: `specs/Meaning/Step.antt`.
//! Tested in: `lg_detector_testing/src/happening.rt`.
ghost use Rattle.std.specs.Prelude.{◌≡◌};

use lg_packet::Packet;
use lg_rules::{Addr, Name};
use lg_timing::{Config, Moment};

/// What happens to a detector. Each event has a moment, which the caller hands in. If a later moment was handed in
/// before, the detector goes by that one.
#[derive(Debug, Drop)]
pub enum Event {
    /// The detector is opened. The first event is an opening, and no later one is.
    Open {
        /// When.
        now: Moment,
        /// What it is opened with.
        config: Config,
    },
    /// Time has passed. The first of the timers that are due fires, if one is due, and no other.
    Tick {
        /// When.
        now: Moment,
        /// Random words. The first one chooses whom a round probes. Each in turn picks a helper.
        words: [u32; 8],
    },
    /// A packet is heard.
    Heard {
        /// When.
        now: Moment,
        /// The address that the datagram came from.
        source: Addr,
        /// The packet.
        packet: Packet,
    },
    /// Asks for the record of a name.
    Ask {
        /// When.
        now: Moment,
        /// Whose record.
        name: Name,
    },
    /// Asks for the health score, this member's incarnation and the number of members.
    Health {
        /// When.
        now: Moment,
    },
    /// Asks another member for its table, page by page, and sends it this member's record (this project's choice).
    Pull {
        /// When.
        now: Moment,
        /// The address of the member that is asked.
        peer: Addr,
    },
    /// This member leaves its group, for good (this project's choice). Its own record becomes Left, it probes nobody
    /// any more, and some members are told at once. A further leave does nothing but move the moment.
    Leave {
        /// When.
        now: Moment,
        /// Random words. Each in turn picks a member that is told at once.
        words: [u32; 8],
    },
}

impl Event {
    /// An equal event. Allocates nothing.
    pub fn copy(&self) -> Event
        ensures { result ≡ self.now }
    {
        match self {
            Event::Open { now, config } => Event::Open {
                now: *now,
                config: config.copy(),
            },
            Event::Tick { now, words } => Event::Tick {
                now: *now,
                words: *words,
            },
            Event::Heard {
                now,
                source,
                packet,
            } => Event::Heard {
                now: *now,
                source: *source,
                packet: packet.copy(),
            },
            Event::Ask { now, name } => Event::Ask {
                now: *now,
                name: *name,
            },
            Event::Health { now } => Event::Health { now: *now },
            Event::Pull { now, peer } => Event::Pull {
                now: *now,
                peer: *peer,
            },
            Event::Leave { now, words } => Event::Leave {
                now: *now,
                words: *words,
            },
        }
    }
}
