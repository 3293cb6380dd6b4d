//! The relays (indirect probes for others): the target of a PingReq for another member is pinged, and the asker gets
//! what comes of it (SWIM, section 3.1; Lifeguard, local health aware probe).
//!
//! - A relay is opened: `RelayNack` and `RelayEnd` are set for its number. The score scales neither.
//! - RelayNack, if no Ack came by then: the asker gets a Nack with the asker's number, and the relay stays open.
//! - RelayEnd: the relay is closed, and nothing is sent.
//! - The target's Ack closes the relay and cancels both timers. The asker gets an Ack with the asker's number.
//!
//! Defined in: `specs/Meaning/Relaying.antt`, `specs/Support/State.antt`, `specs/Meaning/Timing.antt`.
//! Tested in: `lg_detector_tests/src/detector/relaying.rt`.
ghost use Rattle.std.specs.Prelude.{◌≡◌, ◌<◌, ◌≤◌, ◌+◌};
ghost use Rattle.std.specs.Prelude.{[], ◌∷◌, length, option_copied, is_some};
ghost use Rattle.lg_timers.specs.Meaning.Timers.{with_timer, without_timer};
ghost use Rattle.lg_probe.specs.Meaning.Relays.{asker_at, ended_asker, TargetAcked};
ghost use Rattle.lg_probe.specs.Support.Relays.{relays_with};
ghost use Rattle.lg_membership.specs.Support.Reached.{IsGood};
ghost use Rattle.lg_detector.specs.Meaning.Timing.{nack_time, relay_time};
ghost use Rattle.lg_detector.specs.Meaning.Tick.{nack_to};
ghost use Rattle.lg_detector.specs.Meaning.Hear.{ack_to, nack_of};
ghost use Rattle.lg_detector.specs.Support.State.{close_relay, open_relay, with_relay, without_relay, without_ended};
ghost use Rattle.lg_detector.specs.Support.State.{nack_relay};
ghost use Rattle.lg_detector.specs.Support.Send.{packets_state, send_all_state};

use super::Detector;
use super::numbers::next_number;
use crate::message::Message;
use crate::sends::Sends;
use lg_packet::Body;
use lg_probe::{Asker, MAX_RELAYS, Relays};
use lg_rules::Name;
use lg_timers::{MAX_TIMERS, Timer, TimerId, Timers};
use lg_timing::{Config, MAX_INTERVAL_MS};

/// How long after its opening a relay sends its Nack, in milliseconds. The score doesn't scale it.
fn nack_time(config: Option<&Config>) -> u64
    requires { IsGood (option_copied config) }
    ensures time { result ≡ nack_time (option_copied config.entry) }
    ensures within { result ≤ MAX_INTERVAL_MS }
{
    match config {
        Some(config) => config.timeout_ms * config.nack_thousandths / 1000,
        None => 0,
    }
}

/// How long after its opening a relay is closed, in milliseconds. The score doesn't scale it.
fn relay_time(config: Option<&Config>) -> u64
    requires { IsGood (option_copied config) }
    ensures time { result ≡ relay_time (option_copied config.entry) }
    ensures within { result ≤ MAX_INTERVAL_MS }
{
    match config {
        Some(config) => config.interval_ms,
        None => 0,
    }
}

/// Sets the timers of a relay that is opened: when its Nack is sent, and when it is closed.
fn set_relay(timers: &mut Timers, nack: u64, end: u64, number: u32)
    requires { length timers.old + 1 < MAX_TIMERS }
    ensures { timers.new ≡ with_relay nack end number timers.old }
{
    timers.reset(Timer {
        deadline: end,
        id: TimerId::RelayEnd(number),
    });
    timers.reset(Timer {
        deadline: nack,
        id: TimerId::RelayNack(number),
    });
}

/// Cancels the timers of a relay.
fn cancel_relay(timers: &mut Timers, number: u32)
    ensures { timers.new ≡ without_relay number timers.old }
{
    timers.cancel(&TimerId::RelayEnd(number));
    timers.cancel(&TimerId::RelayNack(number));
}

/// Takes an Ack for the relays: the Ack of a relay's target closes the relay. Returns the asker of that relay.
pub(super) fn take_ack(
    relays: &mut Relays,
    timers: &mut Timers,
    number: u32,
    sender: &Name,
) -> Option<Asker>
    ensures asker { result ≡ ended_asker number sender.now relays.old }
    ensures relays { relays.new ≡ relays_with relays.old (TargetAcked number sender.now) }
    ensures timers { timers.new
        ≡ without_ended (is_some (ended_asker number sender.now relays.old)) number timers.old }
{
    let asker = relays.ack(number, sender);
    if asker.is_some() {
        cancel_relay(timers, number);
    }
    asker
}

/// The Ack for one that asked, with its number.
pub(super) fn ack_to(asker: &Asker) -> Message
    ensures { result ∷ [] ≡ ack_to asker.now }
{
    Message {
        to: asker.addr,
        body: Body::Ack {
            number: asker.number,
            receiver: Some(asker.name),
        },
    }
}

/// The Nack for one that asked, with its number.
pub(super) fn nack_of(asker: &Asker) -> Message
    ensures { result ∷ [] ≡ nack_of asker.now }
{
    Message {
        to: asker.addr,
        body: Body::Nack {
            number: asker.number,
            receiver: Some(asker.name),
        },
    }
}

impl Detector {
    /// Opens a relay to a target, for an asker. It takes the next sequence number. An earlier relay that still has that
    /// number is closed, since the numbers begin anew behind the greatest.
    #[tactic(auto, unfolding(crate::specs::Support::State::open_relay))]
    pub(super) fn open_relay(&mut self, target: &Name, asker: &Asker)
        requires { length self.old.relays < MAX_RELAYS }
        ensures { self.new ≡ open_relay target.now asker.now self.old }
    {
        let parts = &mut *self.parts;
        let now = parts.moment.milliseconds();
        let config = parts.membership.config();
        let nack = now + nack_time(config);
        let end = now + relay_time(config);
        parts.relays.close(parts.number);
        parts.relays.add(parts.number, target, *asker);
        set_relay(&mut parts.timers, nack, end, parts.number);
        parts.number = next_number(parts.number);
    }

    /// Sends the asker of a relay a Nack, since no Ack has come so far. The relay stays open. Overwrites what `sends`
    /// held.
    #[inline(never)]
    pub(super) fn send_nack(&mut self, number: u32, sends: &mut Sends)
        ensures state { self.new
            ≡ send_all_state (nack_to (asker_at number self.old.relays)) (nack_relay number self.old) }
        ensures sends { sends.new.items
            ≡ packets_state (nack_to (asker_at number self.old.relays)) (nack_relay number self.old) }
    {
        match self.nack_relay(number) {
            Some(asker) => self.send(&nack_of(&asker), sends),
            None => sends.clear(),
        }
    }

    /// Returns the asker of a relay, which is to get its Nack. The relay stays open.
    fn nack_relay(&mut self, number: u32) -> Option<Asker>
        ensures state { self.new ≡ nack_relay number self.old }
        ensures asker { result ≡ asker_at number self.old.relays }
    {
        let parts = &mut *self.parts;
        parts.timers.cancel(&TimerId::RelayNack(number));
        parts.relays.get(number)
    }

    /// Closes a relay.
    #[inline(never)]
    pub(super) fn close_relay(&mut self, number: u32)
        ensures { self.new ≡ close_relay number self.old }
    {
        let parts = &mut *self.parts;
        parts.relays.close(number);
        cancel_relay(&mut parts.timers, number);
    }
}
