//! The slots of a server, each of which has a client's connection or is free.
//!
//! Defined in: `specs/Meaning/Slots.antt`.
//! Tested in: `lg_http_tests/src/serving.rt`, `lg_http_tests/src/crowd.rt`.
ghost use Rattle.std.specs.Prelude.{◌≡◌, ◌≤◌, ◌<◌, ◌+◌, ◌-◌, [], length, get_or, position, replicate, All};
ghost use Rattle.std.specs.Prelude.{IfOk, IfSome, IsSome, Some, None};
ghost use Rattle.lg_http.specs.declared.hosts.Hosts.{Hosts};
ghost use Rattle.lg_http.specs.Meaning.Answers.{RepliesAmong, Replies};
ghost use Rattle.lg_http.specs.Meaning.Parked.{loopback_in, parked_count, parked_in};
ghost use Rattle.lg_http.specs.Meaning.Peers.{Answers, IsCurrent, IsBounded, IsNewPeer};
ghost use Rattle.lg_http.specs.Meaning.Phases.{IsAwake};
ghost use Rattle.lg_http.specs.Meaning.Slots.{InSlot, IsAnsweredSlot, HadTurn, AreFree, AreSlots, AreServed, AddsEnded};
ghost use Rattle.lg_http.specs.Meaning.Slots.{noted_from, is_free, is_to_have, place_for};

use crate::desk::Desk;
use crate::peer::{Left, Peer, Turn};
use crate::site::Site;
use http_server::Log;
use lg_timing::Moment;
use mio::event::Event;
use std::alloc::{AllocError, Global};

/// The most connections at once.
pub const MAX_PEERS: usize = 256;

/// The most long polls that wait at once.
pub const MAX_PARKED: usize = 192;

/// The connections of a server.
#[derive(Drop)]
pub(crate) struct Slots {
    slots: Vec<Option<Peer>>,
    /// The connections that left their slots, as they stood then, and when. It is for the proofs alone, and takes no
    /// memory.
    ended: EndedLog,
}

type EndedLog = Log<Peer, Moment>;

/// What the connections leave in a turn.
#[derive(Clone, Copy, Debug)]
pub(crate) struct Rest {
    /// How many long polls wait.
    pub(crate) parked: usize,
    /// How long the server may wait, in milliseconds.
    pub(crate) wait_ms: u64,
}

/// How many long polls a slot has that wait: one or none.
fn parked_of(slot: &Option<Peer>) -> usize
    ensures { result ≡ parked_in slot.now }
{
    match slot {
        Some(peer) if peer.is_parked() => 1,
        _ => 0,
    }
}

/// Whether a slot's client is on loopback. A free slot has none.
fn loopback_of(slot: &Option<Peer>) -> bool
    ensures { result ≡ loopback_in slot.now }
{
    match slot {
        Some(peer) => peer.is_loopback(),
        None => false,
    }
}

/// Lets a connection do what it can. Gives how long it may wait then, in milliseconds, or nothing if it is over.
fn run_peer<S: Site>(peer: &mut Peer, desk: &mut Desk<S>, turn: &Turn) -> Option<u64>
    requires { turn.now.version ≡ S.version desk.old.site }
    ensures current { IsSome result → IsCurrent turn.now.at turn.now.version peer.new }
    ensures parks { IsAwake peer.old.phase → MAX_PARKED ≤ turn.now.others → IsSome result → IsAwake peer.new.phase }
    ensures answers { Answers (RepliesAmong S.answers S.acts S.version S.waits desk.old.hosts turn.now.others
        turn.now.is_loopback) desk.old.site peer.old peer.new }
    ensures site { desk.new.site ≡ desk.old.site }
    ensures hosts { desk.new.hosts ≡ desk.old.hosts }
    ensures bounded { IsBounded peer.old → IsBounded peer.new }
{
    if !peer.is_due(turn) {
        return Some(peer.left_ms(turn.at));
    }
    match peer.run(desk, turn) {
        Left::Waiting => Some(peer.left_ms(turn.at)),
        Left::Busy => Some(0),
        Left::Gone => None,
    }
}

// The next two are apart and take any type, so that the checker doesn't take a connection apart at each place that
// drops one.

/// Frees a place. What it had is dropped.
fn free<T: Drop>(place: &mut Option<T>)
    ensures { place.new ≡ None }
{
    *place = None;
}

/// Puts a value into a place. What it had is dropped.
fn fill<T: Drop>(place: &mut Option<T>, value: T)
    ensures { place.new ≡ Some value }
{
    *place = Some(value);
}

/// Lets the connection of a slot do what it can. One that is over is noted among the ended, and its slot is free. Gives
/// how long it may wait then, in milliseconds.
fn run_slot<S: Site>(
    slot: &mut Option<Peer>,
    ended: &mut EndedLog,
    desk: &mut Desk<S>,
    turn: &Turn,
) -> u64
    requires { turn.now.version ≡ S.version desk.old.site }
    ensures current { InSlot (IsCurrent turn.now.at turn.now.version) slot.new }
    ensures parks { MAX_PARKED ≤ turn.now.others → parked_in slot.new ≤ parked_in slot.old }
    ensures bounded { InSlot IsBounded slot.old → InSlot IsBounded slot.new }
    ensures had { HadTurn (RepliesAmong S.answers S.acts S.version S.waits desk.old.hosts turn.now.others
        turn.now.is_loopback) desk.old.site slot.old slot.new ended.old.items ended.new.items }
    ensures site { desk.new.site ≡ desk.old.site }
    ensures hosts { desk.new.hosts ≡ desk.old.hosts }
{
    let Some(peer) = slot else {
        return u64::MAX;
    };
    if let Some(wait_ms) = run_peer(peer, desk, turn) {
        return wait_ms;
    }
    *ended = ended.and(peer, &turn.at);
    free(slot);
    u64::MAX
}

/// Lets the connection of the next slot do what it can.
fn run_next<S: Site>(
    slot: &mut Option<Peer>,
    ended: &mut EndedLog,
    desk: &mut Desk<S>,
    at: Moment,
    version: u64,
    rest: Rest,
) -> Rest
    requires counted { parked_in slot.old ≤ rest.parked }
    requires version { version ≡ S.version desk.old.site }
    ensures current { InSlot (IsCurrent at version) slot.new }
    ensures count { result.parked + parked_in slot.old ≡ rest.parked + parked_in slot.new }
    ensures few { rest.parked ≤ MAX_PARKED → result.parked ≤ MAX_PARKED }
    ensures bounded { InSlot IsBounded slot.old → InSlot IsBounded slot.new }
    // Whether a long poll is one too many is by those that wait in the other slots, and whether the client is on
    // loopback by the slot.
    ensures had { HadTurn (RepliesAmong S.answers S.acts S.version S.waits desk.old.hosts
        (rest.parked - parked_in slot.old) (loopback_in slot.old))
        desk.old.site slot.old slot.new ended.old.items ended.new.items }
    ensures site { desk.new.site ≡ desk.old.site }
    ensures hosts { desk.new.hosts ≡ desk.old.hosts }
{
    let others = rest.parked - parked_of(slot);
    let turn = Turn {
        at,
        version,
        others,
        is_loopback: loopback_of(slot),
    };
    let wait_ms = run_slot(slot, ended, desk, &turn);
    Rest {
        parked: others.saturating_add(parked_of(slot)),
        wait_ms: rest.wait_ms.min(wait_ms),
    }
}

/// Lets the connection of each slot do what it can.
#[tactic(auto, using(crate::proofs::SlotLaws::ends_none))]
fn run_all<S: Site>(
    slots: &mut Vec<Option<Peer>>,
    ended: &mut EndedLog,
    desk: &mut Desk<S>,
    at: Moment,
    version: u64,
    start: Rest,
) -> Rest
    requires counted { start.parked ≡ parked_count slots.old.items }
    requires version { version ≡ S.version desk.old.site }
    ensures current { All (InSlot (IsCurrent at version)) slots.new.items }
    ensures parked { result.parked ≡ parked_count slots.new.items }
    ensures served { AreSlots (Replies S.answers S.acts S.version S.waits desk.old.hosts) S.later desk.old.site
        slots.old.items
        → AreSlots (Replies S.answers S.acts S.version S.waits desk.old.hosts) S.later desk.old.site slots.new.items
        × AddsEnded (Replies S.answers S.acts S.version S.waits desk.old.hosts) S.later desk.old.site
        ended.old.items ended.new.items }
    ensures site { desk.new.site ≡ desk.old.site }
    ensures hosts { desk.new.hosts ≡ desk.old.hosts }
{
    let mut rest = start;
    for slot in slots.iter_mut() {
        rest = run_next(slot, ended, desk, at, version, rest);
    }
    rest
}

/// Notes what the system tells of a slot's socket.
fn note_slot<S: Site>(slot: &mut Option<Peer>, event: &Event)
    ensures parked { parked_in slot.new ≡ parked_in slot.old }
    ensures bounded { InSlot IsBounded slot.old → InSlot IsBounded slot.new }
    ensures answered { (hosts : Hosts) (site : S)
        → IsAnsweredSlot (Replies S.answers S.acts S.version S.waits hosts) S.later site slot.old
        → IsAnsweredSlot (Replies S.answers S.acts S.version S.waits hosts) S.later site slot.new }
{
    if let Some(peer) = slot {
        peer.note(event);
    }
}

/// Notes the connection of a slot among the ended, if it has one.
fn note_end(ended: &mut EndedLog, slot: &Option<Peer>, at: Moment)
    ensures { ended.new.items ≡ noted_from ended.old.items at slot.now }
{
    if let Some(peer) = slot {
        *ended = ended.and(peer, &at);
    }
}

/// Whether a new connection may have a slot: it is free, or its connection may yield it.
fn may_yield(slot: &Option<Peer>, at: Moment) -> bool
    ensures { result ≡ is_to_have at slot.now }
{
    match slot {
        Some(peer) => peer.may_yield(at),
        None => true,
    }
}

/// The first slot that is free, if there is one.
fn first_free(slots: &[Option<Peer>]) -> Option<usize>
    ensures number { IfSome result (λ number. number < length slots.now) }
    ensures place { result ≡ position is_free slots.now }
{
    slots.iter().position(|slot| slot.is_none())
}

/// The first slot that a new connection may have, if there is one.
fn first_to_have(slots: &[Option<Peer>], at: Moment) -> Option<usize>
    ensures number { IfSome result (λ number. number < length slots.now) }
    ensures place { result ≡ position (is_to_have at) slots.now }
{
    slots.iter().position(|slot| may_yield(slot, at))
}

/// So many places that are free. The error is refused memory.
fn free_places<T: Drop>(alloc: Global, count: usize) -> Result<Vec<Option<T>>, AllocError>
    ensures { IfOk result (λ places. places.items ≡ replicate count None) }
{
    let mut places = Vec::with_capacity(alloc, count)?;
    for number in 0..count {
        // The counter is named, so that the invariant can tell how many places there are.
        let _number = number;
        places.push(None)?;
    }
    Ok(places)
}

// Some methods have the type parameter of a site for their contracts alone.
impl Slots {
    /// Free slots. The error is refused memory.
    pub(crate) fn new(alloc: Global) -> Result<Slots, AllocError>
        ensures free { IfOk result (λ s. AreFree s.slots.items) }
        ensures ended { IfOk result (λ s. s.ended.items ≡ []) }
    {
        Ok(Slots {
            slots: free_places(alloc, MAX_PEERS)?,
            ended: Log::new(),
        })
    }

    /// How many long polls wait.
    fn parked(&self) -> usize
        ensures { result ≡ parked_count self.now.slots.items }
    {
        let mut count = 0;
        for slot in &self.slots {
            count += parked_of(slot);
        }
        count
    }

    /// Lets each connection do what it can at this moment, when the site shows this version.
    pub(crate) fn run<S: Site>(&mut self, desk: &mut Desk<S>, at: Moment, version: u64) -> Rest
        requires { version ≡ S.version desk.old.site }
        ensures current { All (InSlot (IsCurrent at version)) self.new.slots.items }
        ensures parked { result.parked ≡ parked_count self.new.slots.items }
        ensures served { AreSlots (Replies S.answers S.acts S.version S.waits desk.old.hosts) S.later desk.old.site
            self.old.slots.items
            → AreServed (Replies S.answers S.acts S.version S.waits desk.old.hosts) S.later desk.new.site
            self.old self.new }
        ensures site { desk.new.site ≡ desk.old.site }
        ensures hosts { desk.new.hosts ≡ desk.old.hosts }
    {
        let rest = Rest {
            parked: self.parked(),
            wait_ms: u64::MAX,
        };
        run_all(&mut self.slots, &mut self.ended, desk, at, version, rest)
    }

    /// Notes what the system tells of a slot's socket. Other numbers than those of slots are passed over.
    pub(crate) fn note<S: Site>(&mut self, number: usize, event: &Event)
        ensures { (hosts : Hosts) (site : S)
            → AreSlots (Replies S.answers S.acts S.version S.waits hosts) S.later site self.old.slots.items
            → AreServed (Replies S.answers S.acts S.version S.waits hosts) S.later site self.old self.new }
    {
        if number < self.slots.len() {
            note_slot::<S>(&mut self.slots[number], event);
        }
    }

    /// The slot for a new connection, if there is one: a free one, or else one whose connection may yield it.
    pub(crate) fn place_for(&self, at: Moment) -> Option<usize>
        ensures number { IfSome result (λ number. number < length self.now.slots.items) }
        ensures place { result ≡ place_for at self.now.slots.items }
    {
        match first_free(&self.slots) {
            Some(number) => Some(number),
            None => first_to_have(&self.slots, at),
        }
    }

    /// Puts a new connection into a slot. The one that had it is closed, and noted among the ended.
    pub(crate) fn put<S: Site>(&mut self, number: usize, peer: Peer, at: Moment)
        requires room { number < length self.old.slots.items }
        requires fresh { IsNewPeer peer }
        ensures served { (hosts : Hosts) (site : S)
            → AreSlots (Replies S.answers S.acts S.version S.waits hosts) S.later site self.old.slots.items
            → AreServed (Replies S.answers S.acts S.version S.waits hosts) S.later site self.old self.new }
        ensures noted { self.new.ended.items
            ≡ noted_from self.old.ended.items at (get_or self.old.slots.items number None) }
    {
        note_end(&mut self.ended, &self.slots[number], at);
        fill(&mut self.slots[number], peer);
    }
}
