//! Published pairs of b at 127.0.0.1:7000, which is opened at 0.
mod keeper;
mod looks;
mod playing;
mod threads;

use lg_detector::Event;
use lg_rules::Claim;
use lg_testing::{alive, at, letter, local, packet, ping};
use lg_timing::Config;

/// The opening of b with the default numbers.
fn opening() -> Event {
    Event::Open {
        now: at(0),
        config: Config::new(letter(b'b'), local(7000)),
    }
}

/// A Ping of a for b with a claim, at a moment in milliseconds.
fn says(now: u64, claim: Claim) -> Event {
    Event::Heard {
        now: at(now),
        source: local(1),
        packet: packet(b'a', ping(7, b'b'), &[claim]),
    }
}

/// A Ping of a for b, at 0, that says that c is alive.
fn ping_of_a() -> Event {
    says(0, alive(b'c', 0))
}

/// A tick at a moment in milliseconds, whose words are all 0.
fn tick_at(now: u64) -> Event {
    Event::Tick {
        now: at(now),
        words: [0; 8],
    }
}

/// A tick at 0.
fn tick() -> Event {
    tick_at(0)
}
