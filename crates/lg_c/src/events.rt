//! The events that C tells.
//!
//! Defined in: `specs/Meaning/Events.antt`.
ghost use Rattle.std.specs.Prelude.{◌≡◌};
ghost use Rattle.lg_c.specs.Meaning.Events.{ask_from_c, health_from_c, heard_from_c, leave_from_c};
ghost use Rattle.lg_c.specs.Meaning.Events.{moment_from_c, open_from_c, pull_from_c, tick_from_c};

use crate::status::{BAD_PACKET, BAD_VALUE};
use lg_c_values::{LgAddress, LgConfig, LgName};
use lg_detector::Event;
use lg_packet::decode;
use lg_timing::Moment;

/// The moment with this number of milliseconds, if it is in its range.
fn moment_in(now: u64) -> Option<Moment>
    ensures { result ≡ moment_from_c now }
{
    Moment::new(now)
}

/// An opening.
pub(crate) fn open_event(config: &LgConfig, now: u64) -> Result<Event, u32>
    ensures { result ≡ open_from_c config.now now }
{
    match (moment_in(now), config.config()) {
        (Some(now), Some(config)) => Ok(Event::Open { now, config }),
        _ => Err(BAD_VALUE),
    }
}

/// A datagram that is heard.
pub(crate) fn heard_event(bytes: &[u8], source: &LgAddress, now: u64) -> Result<Event, u32>
    ensures { result ≡ heard_from_c bytes.now source.now now }
{
    let (Some(now), Some(source)) = (moment_in(now), source.addr()) else {
        return Err(BAD_VALUE);
    };
    match decode(bytes) {
        Ok(packet) => Ok(Event::Heard {
            now,
            source,
            packet,
        }),
        Err(_) => Err(BAD_PACKET),
    }
}

/// A tick.
pub(crate) fn tick_event(words: &[u32; 8], now: u64) -> Result<Event, u32>
    ensures { result ≡ tick_from_c words.now now }
{
    match moment_in(now) {
        Some(now) => Ok(Event::Tick { now, words: *words }),
        None => Err(BAD_VALUE),
    }
}

/// A question for a record.
pub(crate) fn ask_event(name: &LgName, now: u64) -> Result<Event, u32>
    ensures { result ≡ ask_from_c name.now now }
{
    match (moment_in(now), name.name()) {
        (Some(now), Some(name)) => Ok(Event::Ask { now, name }),
        _ => Err(BAD_VALUE),
    }
}

/// A question for the health.
pub(crate) fn health_event(now: u64) -> Result<Event, u32>
    ensures { result ≡ health_from_c now }
{
    match moment_in(now) {
        Some(now) => Ok(Event::Health { now }),
        None => Err(BAD_VALUE),
    }
}

/// A member is to be asked for its table.
pub(crate) fn pull_event(peer: &LgAddress, now: u64) -> Result<Event, u32>
    ensures { result ≡ pull_from_c peer.now now }
{
    match (moment_in(now), peer.addr()) {
        (Some(now), Some(peer)) => Ok(Event::Pull { now, peer }),
        _ => Err(BAD_VALUE),
    }
}

/// This member leaves.
pub(crate) fn leave_event(words: &[u32; 8], now: u64) -> Result<Event, u32>
    ensures { result ≡ leave_from_c words.now now }
{
    match moment_in(now) {
        Some(now) => Ok(Event::Leave { now, words: *words }),
        None => Err(BAD_VALUE),
    }
}
