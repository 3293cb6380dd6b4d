//! Compares events.
use lg_detector::Event;
use lg_testing::is_same_packet;
use lg_timing::Config;

/// Whether two configurations are equal in the fields that these tests set, and in all but numbers.
fn is_same_config(one: &Config, other: &Config) -> bool {
    one.interval_ms == other.interval_ms
        && one.timeout_ms == other.timeout_ms
        && one.history_limit == other.history_limit
        && one.seeds.as_slice() == other.seeds.as_slice()
        && one.name == other.name
        && one.addr == other.addr
}

/// Whether two events are equal, with configurations compared as above.
pub fn is_same_event(one: &Event, other: &Event) -> bool {
    match (one, other) {
        (
            Event::Open { now, config },
            Event::Open {
                now: then,
                config: stored,
            },
        ) => { now == then && is_same_config(config, stored) }
        (
            Event::Tick { now, words },
            Event::Tick {
                now: then,
                words: stored,
            },
        ) => { now == then && words == stored }
        (
            Event::Heard {
                now,
                source,
                packet,
            },
            Event::Heard {
                now: then,
                source: from,
                packet: stored,
            },
        ) => now == then && source == from && is_same_packet(packet, stored),
        (
            Event::Ask { now, name },
            Event::Ask {
                now: then,
                name: stored,
            },
        ) => { now == then && name == stored }
        (Event::Health { now }, Event::Health { now: then }) => now == then,
        (
            Event::Pull { now, peer },
            Event::Pull {
                now: then,
                peer: stored,
            },
        ) => { now == then && peer == stored }
        (
            Event::Leave { now, words },
            Event::Leave {
                now: then,
                words: stored,
            },
        ) => { now == then && words == stored }
        _ => false,
    }
}
