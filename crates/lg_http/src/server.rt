//! The loop over all sockets.
//!
//! Defined in: `specs/Meaning/Slots.antt`.
//! Tested in: `lg_http_tests/src/serving.rt`, `lg_http_tests/src/crowd.rt`.
ghost use Rattle.std.specs.Prelude.{◌≡◌, ◌≢◌, ◌≤◌, ◌+◌, min, [], ◌⊎◌, IfOk, All};
ghost use Rattle.lg_http.specs.declared.hosts.Hosts.{Hosts};
ghost use Rattle.lg_http.specs.Meaning.Answers.{Replies};
ghost use Rattle.lg_http.specs.Meaning.Peers.{IsCurrent};
ghost use Rattle.lg_http.specs.Meaning.Slots.{AreFree, AreSlots, AreServed, IsTold, InSlot, slots_of, ended_of};

use crate::desk::Desk;
use crate::listener::{Client, Listener};
use crate::peer::Peer;
use crate::signal::{Signal, Told};
use crate::site::Site;
use crate::slots::{MAX_PEERS, Slots};
use lg_clock::Clock;
use lg_timing::Moment;
use mio::{Events, Poll, Token};
use std::alloc::{AllocError, Global};
use std::hash::RandomState;
use std::io;
use std::io::ErrorKind;
use std::net::Net;
use std::random::RandomSource;
use std::time::Duration;

const LISTENER: Token = Token(MAX_PEERS);

const SIGNAL: Token = Token(MAX_PEERS + 1);

/// How many connections are taken before the others have their turn.
const ACCEPTS: u32 = 32;

/// The longest that a turn waits, in milliseconds.
const LONGEST_MS: u64 = 10_000;

/// How long no connection is taken once that has failed, in milliseconds: if there are too many descriptors, it would
/// fail at once again.
const PAUSE_MS: u64 = 100;

/// Why a server has ended.
#[derive(Clone, Copy, Debug, PartialEq, Eq)]
pub enum ServerEnd {
    /// It was told to stop, or it has made 2^64 - 1 turns.
    Stopped,
    /// The system's wait failed.
    WaitFailed(ErrorKind),
}

/// What a server did.
#[derive(Clone, Copy, Debug, Default, PartialEq, Eq)]
pub struct ServerCounts {
    /// How often it went over its connections. No more than 2^64 - 1 are counted.
    pub turns: u64,
    /// Connections that got a slot.
    pub accepted: u64,
    /// Connections that were closed at once, since no slot was free and none yielded.
    pub turned_away: u64,
    /// Connections that failed to be taken or watched, for a reason of the system's.
    pub failed: u64,
}

/// A server of at most [`MAX_PEERS`] connections. Its slots and events are allocated when it is made. Later each
/// connection allocates what it holds back, a request and an answer.
#[derive(Drop)]
pub struct Server {
    alloc: Global,
    keys: RandomState,
    poll: Poll,
    events: Events,
    listener: Listener,
    slots: Slots,
    /// A client may be waiting.
    can_accept: bool,
    /// No connection is taken before this moment, in milliseconds.
    accept_from: u64,
    counts: ServerCounts,
    /// That it was told to stop, if it was.
    told: Option<Told>,
}

// What a server is made of is made in two functions, so that the checker takes apart few values if something fails.

/// What is allocated when a server is made. The error is refused memory.
fn room(alloc: Global) -> Result<(Events, Slots), AllocError>
    ensures free { IfOk result (λ made. AreFree made.1.slots.items) }
    ensures ended { IfOk result (λ made. made.1.ended.items ≡ []) }
{
    let events = Events::with_capacity(alloc, MAX_PEERS)?;
    let slots = Slots::new(alloc)?;
    Ok((events, slots))
}

/// What waits for the listener, and for the signal by which other threads reach the server. The error is the system's.
fn watch(rt: &impl Net, listener: &mut Listener) -> io::Result<(Poll, Signal)> {
    let poll = Poll::new(rt)?;
    let signal = Signal::new(poll.registry(), SIGNAL)?;
    listener.register(poll.registry(), LISTENER)?;
    Ok((poll, signal))
}

/// Notes which sockets are ready. Gives whether a client may be waiting.
fn note_events<S: Site>(events: &Events, slots: &mut Slots) -> bool
    ensures { (hosts : Hosts) (site : S)
        → AreSlots (Replies S.answers S.acts S.version S.waits hosts) S.later site slots.old.slots.items
        → AreServed (Replies S.answers S.acts S.version S.waits hosts) S.later site slots.old slots.new }
{
    let mut can_accept = false;
    for event in events.iter() {
        let token = event.token();
        if token == LISTENER {
            can_accept = true;
        } else {
            slots.note::<S>(token.0, event);
        }
    }
    can_accept
}

// Some functions have the type parameter of a site for their contracts alone.
impl Server {
    /// A server on a listener, and the signal by which other threads reach it. The error is the system's, or refused
    /// memory.
    pub fn new(
        rt: &(impl Net + RandomSource),
        alloc: Global,
        mut listener: Listener,
    ) -> io::Result<(Server, Signal)>
        ensures free { IfOk result (λ made. AreFree (slots_of made.0)) }
        ensures ended { IfOk result (λ made. ended_of made.0 ≡ []) }
    {
        let keys = RandomState::new(rt)?;
        let (events, slots) = room(alloc)?;
        let (poll, signal) = watch(rt, &mut listener)?;
        let server = Server {
            alloc,
            keys,
            poll,
            events,
            listener,
            slots,
            can_accept: true,
            accept_from: 0,
            counts: ServerCounts::default(),
            told: None,
        };
        Ok((server, signal))
    }

    /// Serves until it is told to stop. The clock's moments have to go on as real time does.
    pub fn serve<S: Site, C: Clock>(
        &mut self,
        desk: &mut Desk<S>,
        clock: &C,
        signal: &Signal,
    ) -> (ServerEnd, ServerCounts)
        ensures free { AreFree (slots_of self.old)
            → AreServed (Replies S.answers S.acts S.version S.waits desk.old.hosts) S.later desk.new.site
            self.old.slots self.new.slots }
        ensures served { AreSlots (Replies S.answers S.acts S.version S.waits desk.old.hosts) S.later desk.old.site
            (slots_of self.old)
            → AreServed (Replies S.answers S.acts S.version S.waits desk.old.hosts) S.later desk.new.site
            self.old.slots self.new.slots }
        ensures goes_on { S.later desk.old.site desk.new.site }
        ensures hosts { desk.new.hosts ≡ desk.old.hosts }
        // It stops only if it was told to, or after so many turns.
        ensures stopped { result.0 ≡ ServerEnd.Stopped → IsTold self.new ⊎ (u64.MAX ≤ result.1.turns) }
        ensures counts { result.1 ≡ self.new.counts }
    {
        for number in 0..u64::MAX {
            // The counter is named, so that the invariant can tell how many turns were made.
            let _number = number;
            self.told = signal.told();
            if self.told.is_some() {
                return (ServerEnd::Stopped, self.counts);
            }
            if let Err(kind) = self.turn(desk, clock, signal) {
                return (ServerEnd::WaitFailed(kind), self.counts);
            }
        }
        (ServerEnd::Stopped, self.counts)
    }

    /// Lets each connection do what it can, waits for the sockets, and takes new connections. The error is that the
    /// system's wait failed.
    fn turn<S: Site, C: Clock>(
        &mut self,
        desk: &mut Desk<S>,
        clock: &C,
        signal: &Signal,
    ) -> Result<(), ErrorKind>
        ensures turns { self.new.counts.turns ≡ min (self.old.counts.turns + 1) u64.MAX }
        ensures served { AreSlots (Replies S.answers S.acts S.version S.waits desk.old.hosts) S.later desk.old.site
            (slots_of self.old)
            → AreServed (Replies S.answers S.acts S.version S.waits desk.old.hosts) S.later desk.new.site
            self.old.slots self.new.slots }
        ensures goes_on { S.later desk.old.site desk.new.site }
        ensures hosts { desk.new.hosts ≡ desk.old.hosts }
    {
        self.counts.turns = self.counts.turns.saturating_add(1);
        let wait_ms = self.run_clients(desk, clock.now(), signal);
        let timeout = Duration::from_millis(wait_ms);
        if let Err(e) = self.poll.poll(&mut self.events, Some(timeout)) {
            return Err(e.kind());
        }
        if note_events::<S>(&self.events, &mut self.slots) {
            self.can_accept = true;
        }
        self.accept_some::<S>(clock.now());
        Ok(())
    }

    /// Lets each connection do what it can. Gives how long the next wait may be, in milliseconds.
    fn run_clients<S: Site>(&mut self, desk: &mut Desk<S>, at: Moment, signal: &Signal) -> u64
        // It waits only if no long poll waits for a version that came.
        ensures current { result ≢ 0 → All (InSlot (IsCurrent at (S.version desk.new.site))) (slots_of self.new) }
        ensures turns { self.new.counts.turns ≡ self.old.counts.turns }
        ensures served { AreSlots (Replies S.answers S.acts S.version S.waits desk.old.hosts) S.later desk.old.site
            (slots_of self.old)
            → AreServed (Replies S.answers S.acts S.version S.waits desk.old.hosts) S.later desk.new.site
            self.old.slots self.new.slots }
        ensures goes_on { S.later desk.old.site desk.new.site }
        ensures hosts { desk.new.hosts ≡ desk.old.hosts }
    {
        let version = desk.site.refresh();
        let rest = self.slots.run(desk, at, version);
        let wait_ms = rest.wait_ms.min(self.accept_wait(at)).min(LONGEST_MS);
        // A change wakes the server also while nobody asks, so that the site sees each soon after it was published. One
        // that came before this isn't missed.
        signal.await_change();
        if desk.site.refresh() == version {
            wait_ms
        } else {
            0
        }
    }

    /// How long it is until a connection is taken, in milliseconds.
    fn accept_wait(&self, at: Moment) -> u64 {
        if self.can_accept {
            self.accept_from.saturating_sub(at.milliseconds())
        } else {
            LONGEST_MS
        }
    }

    /// Takes some of the connections that wait.
    fn accept_some<S: Site>(&mut self, at: Moment)
        ensures served { (hosts : Hosts) (site : S)
            → AreSlots (Replies S.answers S.acts S.version S.waits hosts) S.later site (slots_of self.old)
            → AreServed (Replies S.answers S.acts S.version S.waits hosts) S.later site self.old.slots self.new.slots }
        ensures turns { self.new.counts.turns ≡ self.old.counts.turns }
    {
        for _ in 0..ACCEPTS {
            if !self.can_accept || at.milliseconds() < self.accept_from {
                break;
            }
            match self.listener.accept() {
                Ok(client) => self.admit::<S>(client, at),
                Err(kind) => self.not_accepted(kind, at),
            }
        }
    }

    /// Notes that no connection was taken, and why.
    fn not_accepted(&mut self, kind: ErrorKind, at: Moment)
        ensures slots { self.new.slots ≡ self.old.slots }
        ensures turns { self.new.counts.turns ≡ self.old.counts.turns }
    {
        match kind {
            ErrorKind::WouldBlock => self.can_accept = false,
            ErrorKind::Interrupted => {}
            _ => {
                self.counts.failed = self.counts.failed.wrapping_add(1);
                self.accept_from = at.milliseconds().saturating_add(PAUSE_MS);
            }
        }
    }

    /// Gives a connection a slot, or closes it if there is none.
    fn admit<S: Site>(&mut self, client: Client, at: Moment)
        ensures served { (hosts : Hosts) (site : S)
            → AreSlots (Replies S.answers S.acts S.version S.waits hosts) S.later site (slots_of self.old)
            → AreServed (Replies S.answers S.acts S.version S.waits hosts) S.later site self.old.slots self.new.slots }
        ensures turns { self.new.counts.turns ≡ self.old.counts.turns }
    {
        let Some(number) = self.slots.place_for(at) else {
            self.counts.turned_away = self.counts.turned_away.wrapping_add(1);
            return;
        };
        let mut peer = Peer::new(self.alloc, self.keys, client, at);
        if peer.register(self.poll.registry(), Token(number)) {
            self.slots.put::<S>(number, peer, at);
            self.counts.accepted = self.counts.accepted.wrapping_add(1);
        } else {
            // So that the checker doesn't take it apart here.
            drop(peer);
            self.counts.failed = self.counts.failed.wrapping_add(1);
        }
    }
}
