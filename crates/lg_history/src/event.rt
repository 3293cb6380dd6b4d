//! Events, in as much memory as they need.
//!
//! Defined in: `specs/Support/Stored.antt`.
//! Tested in: `lg_agent_tests/src/history/entries.rt`.
ghost use Rattle.std.specs.Prelude.{◌≡◌, IfOk};

use crate::packet::StoredPacket;
use lg_detector::{Event, NoMemory};
use lg_rules::{Addr, Name};
use lg_timing::{Config, Moment};
use std::alloc::Global;
use std::marker::Model;

/// A packet that was heard, and where it came from.
#[derive(Drop)]
pub(crate) struct Hearing {
    source: Addr,
    packet: StoredPacket,
}

/// What an event has besides its moment. What is larger than a pointer is in a box, so that an entry is small.
#[derive(Drop)]
enum Content {
    Opens(Box<Config>),
    Ticks(Box<[u32; 8]>),
    Hears(Box<Hearing>),
    Asks(Box<Name>),
    AsksHealth,
    Pulls(Addr),
    Leaves(Box<[u32; 8]>),
}

/// An event in at most one box, besides the list of a packet's claims. A contract sees it as the event.
#[derive(Drop)]
pub(crate) struct StoredEvent {
    moment: Moment,
    content: Content,
}

impl Model for StoredEvent {
    ghost use Rattle.lg_detector.specs.declared.event.Event.{Event};
    ghost use Rattle.lg_history.specs.Support.Stored.{event_in};

    ghost Value = { Event };

    ghost view = { λ e. event_in e.moment e.content };
}

impl StoredEvent {
    /// Stores an event. Allocates memory for what the event has besides its moment.
    pub(crate) fn of(alloc: Global, event: &Event) -> Result<StoredEvent, NoMemory>
        ensures { IfOk result (λ stored. stored ≡ event.now) }
    {
        let (moment, content) = match event {
            Event::Open { now, config } => {
                (*now, Content::Opens(Box::new(alloc, config.copy())?))
            }
            Event::Tick { now, words } => (*now, Content::Ticks(Box::new(alloc, *words)?)),
            Event::Heard {
                now,
                source,
                packet,
            } => {
                let packet = StoredPacket::of(alloc, packet)?;
                let hearing = Hearing {
                    source: *source,
                    packet,
                };
                (*now, Content::Hears(Box::new(alloc, hearing)?))
            }
            Event::Ask { now, name } => (*now, Content::Asks(Box::new(alloc, *name)?)),
            Event::Health { now } => (*now, Content::AsksHealth),
            Event::Pull { now, peer } => (*now, Content::Pulls(*peer)),
            Event::Leave { now, words } => (*now, Content::Leaves(Box::new(alloc, *words)?)),
        };
        Ok(StoredEvent { moment, content })
    }

    /// The event.
    pub(crate) fn event(&self) -> Event
        ensures { result ≡ self.now }
    {
        let now = self.moment;
        match &self.content {
            Content::Opens(config) => Event::Open {
                now,
                config: config.copy(),
            },
            Content::Ticks(words) => Event::Tick {
                now,
                words: **words,
            },
            Content::Hears(hearing) => Event::Heard {
                now,
                source: hearing.source,
                packet: hearing.packet.packet(),
            },
            Content::Asks(name) => Event::Ask { now, name: **name },
            Content::AsksHealth => Event::Health { now },
            Content::Pulls(peer) => Event::Pull { now, peer: *peer },
            Content::Leaves(words) => Event::Leave {
                now,
                words: **words,
            },
        }
    }
}
