//! The rounds of probing, one each protocol period (interval), and the timers of a round (SWIM, sections 3.1 and 4.3;
//! Lifeguard, local health aware probe).
//!
//! - A round starts: the order chooses a member by the first random word. It is pinged with the next sequence number
//!   at the address of its record. `Direct` is set one scaled timeout later and `RoundEnd` one scaled interval later,
//!   by the score at the start. If nobody can be chosen, the next round starts one scaled interval later.
//! - Direct, if no Ack counted by then: helpers are picked by the words and asked to ping the target (an indirect
//!   probe).
//! - The round ends: if no Ack counted, the score is marked, and this member suspects the target, unless its record
//!   is Failed. The next round starts at once.
//!
//! Defined in: `specs/Meaning/Probing.antt`, `specs/Support/State.antt`, `specs/Meaning/Tick.antt`.
//! Tested in: `lg_detector_tests/src/detector/probing.rt`, `lg_detector_tests/src/detector/acks.rt`.
ghost use Rattle.std.specs.Prelude.{◌≡◌, ◌<◌, ◌≤◌, ◌+◌, []};
ghost use Rattle.std.specs.Prelude.{◌∷◌, Some, length, option_copied, option_map};
ghost use Rattle.std.specs.Option.{option_to_list};
ghost use Rattle.lg_probe.specs.Meaning.Round.{Asked, Acked, Nacked, round_with};
ghost use Rattle.lg_packet.specs.declared.packet.Body.TheVariants.{PingReq};
ghost use Rattle.lg_timers.specs.declared.timer.TimerId.TheVariants.{Direct, RoundStart};
ghost use Rattle.lg_membership.specs.Meaning.Gossip.{version_sent};
ghost use Rattle.lg_membership.specs.Support.Reached.{IsGood};
ghost use Rattle.lg_detector.specs.Meaning.Timing.{scaled_interval, scaled_timeout, is_first};
ghost use Rattle.lg_detector.specs.Meaning.Probing.{asked_about, indirect_in};
ghost use Rattle.lg_detector.specs.Meaning.Tick.{ping_at, requests, requests_of};
ghost use Rattle.lg_detector.specs.Meaning.Tick.{failure_of, suspect_of, accusation, found};
ghost use Rattle.lg_detector.specs.Support.State.{start_round, ask_helpers, end_round, chosen_state, helpers_state};
ghost use Rattle.lg_detector.specs.Support.State.{choice_unless, chose_unless, with_start};
ghost use Rattle.lg_detector.specs.Support.State.{with_round, round_of_choice, number_after};
ghost use Rattle.lg_detector.specs.Support.State.{with_probe, marked_end, marked_ack, without_direct};
ghost use Rattle.lg_detector.specs.Support.Send.{packets_state, send_all_state};
ghost use Rattle.lg_detector.specs.Support.Step.{view_state};
ghost use Rattle.lg_detector.specs.Support.Tick.{messages_state};

use super::Detector;
use super::numbers::next_number;
use crate::message::Message;
use crate::sends::{Sends, make_slots};
use lg_packet::Body;
use lg_probe::{Helpers, MAX_HELPERS, Order, Round};
use lg_rules::{Addr, Claim, Name, Record, Status};
use lg_timers::{MAX_TIMERS, Timer, TimerId, Timers};
use lg_timing::{Config, MAX_SCALED_MS, Score};

/// The interval (protocol period), scaled by the score, in milliseconds.
pub(super) fn scaled_interval(score: &Score, config: Option<&Config>) -> u64
    requires { IsGood (option_copied config) }
    ensures interval { result ≡ scaled_interval (option_copied config.entry) score.now }
    ensures within { result ≤ MAX_SCALED_MS }
{
    match config {
        Some(config) => score.interval(config),
        None => 0,
    }
}

/// The timeout of a probe, scaled by the score, in milliseconds.
fn scaled_timeout(score: &Score, config: Option<&Config>) -> u64
    requires { IsGood (option_copied config) }
    ensures timeout { result ≡ scaled_timeout (option_copied config.entry) score.now }
    ensures within { result ≤ MAX_SCALED_MS }
{
    match config {
        Some(config) => score.timeout(config),
        None => 0,
    }
}

/// How many helpers are asked.
fn indirect(config: Option<&Config>) -> usize
    requires { IsGood (option_copied config) }
    ensures indirect { result ≡ indirect_in (option_copied config.entry) }
    ensures few { result ≤ MAX_HELPERS }
{
    match config {
        Some(config) => config.indirect as usize,
        None => 0,
    }
}

/// Sets the timers for a time in which nobody is probed: the next round starts at this moment.
pub(super) fn set_start(timers: &mut Timers, deadline: u64)
    requires { length timers.old < MAX_TIMERS }
    ensures { timers.new ≡ with_start deadline timers.old }
{
    timers.cancel(&TimerId::RoundEnd);
    timers.cancel(&TimerId::Direct);
    timers.reset(Timer {
        deadline,
        id: TimerId::RoundStart,
    });
}

/// Sets the timers of a probe: when the round ends, and when helpers are asked.
fn set_probe(timers: &mut Timers, end: u64, direct: u64)
    requires { length timers.old + 1 < MAX_TIMERS }
    ensures { timers.new ≡ with_probe end direct timers.old }
{
    timers.cancel(&TimerId::RoundStart);
    timers.reset(Timer {
        deadline: direct,
        id: TimerId::Direct,
    });
    timers.reset(Timer {
        deadline: end,
        id: TimerId::RoundEnd,
    });
}

/// Sets the timers of a round that chose a member, or nobody.
fn set_round(timers: &mut Timers, chosen: &Option<Name>, end: u64, direct: u64)
    requires { length timers.old + 1 < MAX_TIMERS }
    ensures { timers.new ≡ with_round chosen.now end direct timers.old }
{
    match chosen {
        Some(_) => set_probe(timers, end, direct),
        None => set_start(timers, end),
    }
}

/// The round of the chosen member, if there is one, with this sequence number.
fn new_round(number: u32, chosen: &Option<Name>) -> Option<Round>
    ensures { result ≡ round_of_choice number chosen.now }
{
    match chosen {
        Some(target) => Some(Round::new(number, target)),
        None => None,
    }
}

/// The next sequence number, after a round chose a member or nobody.
fn number_after(number: u32, chosen: &Option<Name>) -> u32
    ensures { result ≡ number_after number chosen.now }
{
    match chosen {
        Some(_) => next_number(number),
        None => number,
    }
}

/// Marks the score if the round that runs ends without an Ack that counts.
fn mark_end(score: &mut Score, round: Option<Round>)
    ensures { score.new ≡ marked_end round score.old }
{
    if let Some(round) = round {
        let mark = round.end();
        if mark != 0 {
            score.mark(mark);
        }
    }
}

/// Takes an Ack for the round that runs. The first one that counts marks the score, and no helpers are asked then.
pub(super) fn take_ack(
    round: &mut Option<Round>,
    score: &mut Score,
    timers: &mut Timers,
    number: u32,
    sender: &Name,
)
    ensures round { round.new ≡ option_map (λ r. round_with r (Acked number sender.now)) round.old }
    ensures score { score.new ≡ marked_ack (is_first number sender.now round.old) score.old }
    ensures timers { timers.new ≡ without_direct (is_first number sender.now round.old) timers.old }
{
    let is_first = match round {
        Some(round) => round.ack(number, sender),
        None => false,
    };
    if is_first {
        score.mark(-1);
        timers.cancel(&TimerId::Direct);
    }
}

/// Takes a Nack for the round that runs.
pub(super) fn take_nack(round: &mut Option<Round>, number: u32, sender: &Name)
    ensures { round.new ≡ option_map (λ r. round_with r (Nacked number sender.now)) round.old }
{
    if let Some(round) = round {
        round.nack(number, sender);
    }
}

/// Notes that the helpers are asked, if a probe runs.
fn ask(round: &mut Option<Round>, helpers: &Helpers)
    ensures { round.new ≡ option_map (λ r. round_with r (Asked helpers.now)) round.old }
{
    if let Some(round) = round {
        round.ask(helpers);
    }
}

/// The Ping of a member at the address of its record, with this sequence number.
fn ping(number: u32, target: &Record) -> Message
    ensures { result ∷ [] ≡ ping_at number (Some target.now) }
{
    Message {
        to: target.addr,
        body: Body::Ping {
            number,
            target: target.name,
        },
    }
}

/// The PingReq that asks the helper at an address to ping a target at the address of the target's record.
fn request(number: u32, target: &Record, to: Addr) -> Message
    ensures { result ≡ record { to = to; body = PingReq number target.now.name target.now.addr } }
{
    Message {
        to,
        body: Body::PingReq {
            number,
            target: target.name,
            addr: target.addr,
        },
    }
}

/// The claim that this member suspects another one, unless that one is gone.
fn accusation(me: &Name, current: &Record) -> Option<Claim>
    ensures { option_to_list result ≡ accusation me.now current.now.status current.now }
{
    match current.status {
        Status::Alive | Status::Suspect(_) => Some(Claim {
            status: Status::Suspect(*me),
            ..*current
        }),
        Status::Failed | Status::Left => None,
    }
}

/// Lets the order choose by a word. A member that has left chooses nobody.
fn choose_unless(has_left: bool, order: &mut Order, word: u32) -> Option<Name>
    ensures order { order.new ≡ chose_unless has_left word order.old }
    ensures chosen { result ≡ choice_unless has_left word order.old }
{
    if has_left { None } else { order.choose(word) }
}

impl Detector {
    /// The claim that the end of the round makes if no Ack counted: its target is suspected.
    pub(super) fn failure(&self) -> Option<Claim>
        ensures { option_to_list result ≡ failure_of self.now.membership.own.name self.now.round (view_state self.now) }
    {
        match &self.parts.round {
            Some(round) if !round.is_acked() => self.accusation_of(&round.target()),
            _ => None,
        }
    }

    /// The claim that a member is suspected, if it has a record that isn't Failed.
    fn accusation_of(&self, member: &Name) -> Option<Claim>
        ensures { option_to_list result
            ≡ suspect_of self.now.membership.own.name (found member.now (view_state self.now)) }
    {
        match self.record_of(member) {
            Some(record) => accusation(&self.name(), &record),
            None => None,
        }
    }

    /// Starts a round, and pings the member that it chooses. Overwrites what `sends` held.
    #[inline(never)]
    pub(super) fn start_round(&mut self, words: &[u32; 8], sends: &mut Sends)
        ensures state { self.new
            ≡ send_all_state (messages_state RoundStart words.now self.old) (start_round words.now self.old) }
        ensures sends { sends.new.items
            ≡ packets_state (messages_state RoundStart words.now self.old) (start_round words.now self.old) }
    {
        let number = self.parts.number;
        match self.choose(words) {
            Some(target) => self.send_ping(number, &target, sends),
            None => sends.clear(),
        }
    }

    /// Pings a member with this sequence number, if it has a record. Overwrites what `sends` held.
    fn send_ping(&mut self, number: u32, target: &Name, sends: &mut Sends)
        ensures state { self.new
            ≡ send_all_state (ping_at number (found target.now (view_state self.old))) self.old }
        ensures sends { sends.new.items
            ≡ packets_state (ping_at number (found target.now (view_state self.old))) self.old }
    {
        match self.record_of(target) {
            Some(record) => self.send(&ping(number, &record), sends),
            None => sends.clear(),
        }
    }

    /// Lets the order choose, unless this member has left, and sets the timers of the round anew.
    fn choose(&mut self, words: &[u32; 8]) -> Option<Name>
        ensures state { self.new ≡ start_round words.now self.old }
        ensures chosen { result ≡ chosen_state words.now self.old }
    {
        let parts = &mut *self.parts;
        let now = parts.moment.milliseconds();
        let config = parts.membership.config();
        let end = now + scaled_interval(&parts.score, config);
        let direct = now + scaled_timeout(&parts.score, config);
        let has_left = parts.membership.has_left();
        let chosen = choose_unless(has_left, &mut parts.order, words[0]);
        parts.round = new_round(parts.number, &chosen);
        parts.number = number_after(parts.number, &chosen);
        set_round(&mut parts.timers, &chosen, end, direct);
        chosen
    }

    /// Picks helpers and asks them, in the order in which they were picked. After that no more are asked. Overwrites
    /// what `sends` held.
    #[inline(never)]
    pub(super) fn ask_helpers(&mut self, words: &[u32; 8], sends: &mut Sends)
        ensures state { self.new
            ≡ send_all_state (messages_state Direct words.now self.old) (ask_helpers words.now self.old) }
        ensures sends { sends.new.items
            ≡ packets_state (messages_state Direct words.now self.old) (ask_helpers words.now self.old) }
    {
        let helpers = self.begin_asking(words);
        self.send_requests(&helpers, sends);
    }

    /// Picks helpers, and notes that they are asked. After that no more are asked.
    fn begin_asking(&mut self, words: &[u32; 8]) -> Helpers
        ensures state { self.new ≡ ask_helpers words.now self.old }
        ensures helpers { result ≡ helpers_state words.now self.old }
    {
        let helpers = self.pick(words);
        let parts = &mut *self.parts;
        parts.timers.cancel(&TimerId::Direct);
        ask(&mut parts.round, &helpers);
        helpers
    }

    /// The helpers that the words pick.
    fn pick(&self, words: &[u32; 8]) -> Helpers
        ensures { result ≡ helpers_state words.now self.now }
    {
        let mut helpers = Helpers::new();
        if let Some(target) = self.asked_about() {
            let count = indirect(self.parts.membership.config());
            helpers.pick(&self.parts.order, &target, count, words);
        }
        helpers
    }

    /// The target of the round that runs, if helpers can be asked to ping it. They can't if it has no record, or if
    /// the version that is sent can't tell its address.
    fn asked_about(&self) -> Option<Name>
        ensures { result ≡ asked_about (version_sent self.now.membership.config) (view_state self.now)
            (option_map (λ r. r.target) self.now.round) }
    {
        let Some(round) = &self.parts.round else {
            return None;
        };
        let target = round.target();
        match self.record_of(&target) {
            Some(record) if self.version().tells(&record.addr) => Some(target),
            _ => None,
        }
    }

    /// Sends helpers the PingReqs of the round that runs. Each asks its helper to ping the target at the address of
    /// the target's record. Overwrites what `sends` held.
    fn send_requests(&mut self, helpers: &Helpers, sends: &mut Sends)
        ensures state { self.new
            ≡ send_all_state (requests self.old.round (view_state self.old) helpers.now) self.old }
        ensures sends { sends.new.items
            ≡ packets_state (requests self.old.round (view_state self.old) helpers.now) self.old }
    {
        let Some(round) = &self.parts.round else {
            sends.clear();
            return;
        };
        let number = round.number();
        match self.record_of(&round.target()) {
            Some(target) => self.request_each(number, &target, helpers, sends),
            None => sends.clear(),
        }
    }

    /// Sends the PingReqs for a target to those that have a record, with this sequence number. Overwrites what
    /// `sends` held.
    fn request_each(&mut self, number: u32, target: &Record, helpers: &Helpers, sends: &mut Sends)
        ensures state { self.new
            ≡ send_all_state (requests_of number (Some target.now) (view_state self.old) helpers.now) self.old }
        ensures sends { sends.new.items
            ≡ packets_state (requests_of number (Some target.now) (view_state self.old) helpers.now) self.old }
    {
        let names = helpers.names();
        let slots = &mut sends.slots;
        make_slots(slots, names.len());
        let mut count = 0;
        for index in 0..names.len() {
            if let Some(to) = self.addr_near(&names[index], helpers.likely_index(index)) {
                self.put_packet(&request(number, target, to), &mut slots[count]);
                count += 1;
            }
        }
        sends.count = count;
    }

    /// Ends a round. The caller applies the claim that its target is suspected.
    pub(super) fn end_round(&mut self)
        ensures { self.new ≡ end_round self.old }
    {
        let parts = &mut *self.parts;
        mark_end(&mut parts.score, parts.round.take());
        set_start(&mut parts.timers, parts.moment.milliseconds());
    }
}
