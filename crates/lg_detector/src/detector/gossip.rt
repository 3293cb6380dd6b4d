//! Gossips: packets that carry news alone, beside those of the probes (this project's choice). An event that leaves a
//! claim in the queue that may still be sent sets the timer `Gossip`, unless it is set or nobody else is there to tell.
//! When it fires, some members are picked as helpers are, and each is sent a Gossip with claims of the queue, one
//! after another, as long as one may still be sent. A member gossips only if its `wire` is 3 and its `gossip_ms` isn't
//! 0. The score scales none of this.
//!
//! Defined in: `specs/Meaning/Timing.antt`, `specs/Meaning/Tick.antt`, `specs/Support/State.antt`.
//! Tested in: `lg_news_tests/src/gossiping.rt`.
ghost use Rattle.std.specs.Prelude.{◌≡◌, ◌<◌, ◌≤◌, ◌+◌, [], length, option_copied, IfSome, None};
ghost use Rattle.lg_timers.specs.declared.timer.TimerId.TheVariants.{Gossip};
ghost use Rattle.lg_timers.specs.Meaning.Timers.{without_timer};
ghost use Rattle.lg_membership.specs.Support.Reached.{IsGood};
ghost use Rattle.lg_detector.specs.Meaning.Probing.{gossip_to_in};
ghost use Rattle.lg_detector.specs.Meaning.Tick.{gossips_for};
ghost use Rattle.lg_timing.specs.Meaning.Config.{IsChecked, version_of};
ghost use Rattle.lg_detector.specs.Meaning.Timing.{gossip_delay_of, gossip_delay};
ghost use Rattle.lg_detector.specs.Support.Send.{packets_state, send_all_state};
ghost use Rattle.lg_detector.specs.Support.State.{end_event, gossip_fired, has_to_tell_state, next_gossip, with_gossip};
ghost use Rattle.lg_detector.specs.Support.Step.{view_state};
ghost use Rattle.lg_detector.specs.Support.Tick.{ended_state, has_gossiped, messages_state, told_state};
ghost use Rattle.lg_detector.specs.Support.Tick.{while_news_state};

use super::Detector;
use crate::message::Message;
use crate::sends::{Sends, make_slots};
use lg_packet::Body;
use lg_probe::{Helpers, MAX_HELPERS};
use lg_rules::Version;
use lg_timers::{MAX_TIMERS, Timer, TimerId, Timers};
use lg_timing::{Config, MAX_GOSSIP_MS};

/// How long news waits for its first gossip with a configuration, in milliseconds, if it is gossiped at all.
fn delay_in(config: &Config) -> Option<u64>
    requires { IsChecked config.now }
    ensures delay { result ≡ gossip_delay_of (version_of config.now) config.now.gossip_ms }
    ensures within { IfSome result (λ delay. delay ≤ MAX_GOSSIP_MS) }
{
    match config.version() {
        Version::Three if config.gossip_ms != 0 => Some(config.gossip_ms),
        _ => None,
    }
}

/// The same of a member, which has no configuration before its opening.
fn gossip_delay(config: Option<&Config>) -> Option<u64>
    requires { IsGood (option_copied config) }
    ensures delay { result ≡ gossip_delay (option_copied config.entry) }
    ensures within { IfSome result (λ delay. delay ≤ MAX_GOSSIP_MS) }
{
    match config {
        Some(config) => delay_in(config),
        None => None,
    }
}

/// To how many members a gossip goes.
fn gossip_to(config: Option<&Config>) -> usize
    requires { IsGood (option_copied config) }
    ensures count { result ≡ gossip_to_in (option_copied config.entry) }
    ensures few { result ≤ MAX_HELPERS }
{
    match config {
        Some(config) => config.gossip_to as usize,
        None => 0,
    }
}

/// Sets the timer of the next gossip, unless it is set already or none is due.
fn set_gossip(timers: &mut Timers, set: Option<u64>, next: Option<u64>)
    requires { length timers.old < MAX_TIMERS }
    ensures { timers.new ≡ with_gossip set next timers.old }
{
    if set.is_some() {
        return;
    }
    if let Some(deadline) = next {
        timers.reset(Timer {
            deadline,
            id: TimerId::Gossip,
        });
    }
}

/// Sets the timer of the next gossip anew once it has fired, or cancels it if none is due.
fn renew_gossip(timers: &mut Timers, next: Option<u64>)
    requires { length timers.old < MAX_TIMERS }
    ensures { timers.new ≡ with_gossip None next (without_timer Gossip timers.old) }
{
    match next {
        Some(deadline) => timers.reset(Timer {
            deadline,
            id: TimerId::Gossip,
        }),
        None => {
            timers.cancel(&TimerId::Gossip);
        }
    }
}

/// Whether the timer of the gossip fired.
fn has_gossiped(fired: &Option<Timer>) -> bool
    ensures { result ≡ has_gossiped fired.now }
{
    matches!(
        fired,
        Some(Timer {
            id: TimerId::Gossip,
            ..
        })
    )
}

impl Detector {
    /// Whether there is news, and somebody to tell it to.
    fn has_to_tell(&self) -> bool
        ensures { result ≡ has_to_tell_state self.now }
    {
        self.parts.membership.has_news() && !self.parts.order.is_empty()
    }

    /// When news is gossiped next: at the deadline that is set, or else as `gossip_later` says.
    fn next_gossip(&self) -> Option<u64>
        ensures { result ≡ next_gossip self.now }
    {
        match self.parts.gossip {
            Some(deadline) => Some(deadline),
            None => self.gossip_later(),
        }
    }

    /// When news is gossiped next if no gossip is set: a delay after this moment, if there is something to tell.
    // Each event asks this, mostly to no effect, so a call would cost more than the rest.
    #[inline(always)]
    fn gossip_later(&self) -> Option<u64>
        ensures { result ≡ next_gossip (gossip_fired self.now) }
    {
        match gossip_delay(self.parts.membership.config()) {
            Some(delay) if self.has_to_tell() => Some(self.parts.moment.milliseconds() + delay),
            _ => None,
        }
    }

    /// Ends an event by which this timer fired, if one did. If it was the gossip's own, it is still set.
    pub(super) fn end_event(&mut self, fired: &Option<Timer>)
        ensures { self.new ≡ ended_state fired.now self.old }
    {
        if has_gossiped(fired) {
            self.gossip_anew();
        } else {
            self.gossip_on();
        }
    }

    /// Sets the next gossip, if one is to be set and none is.
    #[tactic(auto, unfolding(crate::specs::Support::State::end_event))]
    fn gossip_on(&mut self)
        ensures { self.new ≡ end_event self.old }
    {
        let next = self.next_gossip();
        let parts = &mut *self.parts;
        set_gossip(&mut parts.timers, parts.gossip, next);
        parts.gossip = next;
    }

    /// Once the gossip has fired, sets the next one, if one is to be set. Its timer stays in its place for that.
    #[tactic(auto, unfolding(crate::specs::Support::State::end_event))]
    #[inline(never)]
    fn gossip_anew(&mut self)
        ensures { self.new ≡ end_event (gossip_fired self.old) }
    {
        let next = self.gossip_later();
        let parts = &mut *self.parts;
        renew_gossip(&mut parts.timers, next);
        parts.gossip = next;
    }

    /// Gossips: tells the news to the members that the words pick. Overwrites what `sends` held. The timer of the
    /// gossip stays set, until the event ends.
    #[inline(never)]
    pub(super) fn gossip(&mut self, words: &[u32; 8], sends: &mut Sends)
        ensures state { self.new ≡ send_all_state (messages_state Gossip words.now self.old) self.old }
        ensures sends { sends.new.items ≡ packets_state (messages_state Gossip words.now self.old) self.old }
    {
        let told = self.pick_told(words);
        self.tell_each(&told, sends);
    }

    /// Whom the words pick.
    fn pick_told(&self, words: &[u32; 8]) -> Helpers
        ensures { result ≡ told_state words.now self.now }
    {
        let mut told = Helpers::new();
        let count = gossip_to(self.parts.membership.config());
        told.pick_any(&self.parts.order, count, words);
        told
    }

    /// Sends a Gossip to each of these that has a record, as long as there is news. Overwrites what `sends` held.
    fn tell_each(&mut self, told: &Helpers, sends: &mut Sends)
        ensures state { self.new
            ≡ send_all_state (while_news_state (gossips_for (view_state self.old) told.now) self.old) self.old }
        ensures sends { sends.new.items
            ≡ packets_state (while_news_state (gossips_for (view_state self.old) told.now) self.old) self.old }
    {
        let names = told.names();
        let slots = &mut sends.slots;
        make_slots(slots, names.len());
        let mut count = 0;
        for index in 0..names.len() {
            if !self.parts.membership.has_news() {
                break;
            }
            if let Some(to) = self.addr_near(&names[index], told.likely_index(index)) {
                let body = Body::Gossip;
                self.put_packet(&Message { to, body }, &mut slots[count]);
                count += 1;
            }
        }
        sends.count = count;
    }
}
