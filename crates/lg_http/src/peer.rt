//! A client's connection: its socket, what is held back, and where it stands.
//!
//! Defined in: `specs/Meaning/Phases.antt`, `specs/Meaning/Peers.antt`.
//! Tested in: `lg_http_tests/src/serving.rt`, `lg_http_tests/src/late.rt`.
ghost use Rattle.std.specs.Prelude.{◌≡◌, ◌≢◌, ℕ, ◌≤◌, ◌<◌, ◌+◌, ◌-◌, ◌↔◌, IsFalse};
ghost use Rattle.lg_http.specs.declared.peer.Phase.TheVariants.{Parked};
ghost use Rattle.lg_http.specs.declared.slots.TheConstants.{MAX_PARKED};
ghost use Rattle.lg_http.specs.Meaning.Answers.{RepliesAmong};
ghost use Rattle.lg_http.specs.Meaning.Phases.{MayBecome, IsAwake, IsDraining, may_yield};
ghost use Rattle.lg_http.specs.Meaning.Peers.{calls_of, GoesOn, Answers, IsCurrent, IsBounded, IsNewPeer, KeepsTime};

use crate::desk::Desk;
use crate::gate::MAX_HEAD;
use crate::listener::Client;
use crate::own::OwnRefusal;
use crate::site::Site;
use bytes::BytesMut;
use http_server::{Config, Connection};
use http1::Limits;
use lg_timing::Moment;
use mio::event::Event;
use mio::net::TcpStream;
use mio::{Interest, Registry, Token};
use std::alloc::Global;
use std::hash::RandomState;
use std::io::ErrorKind;

mod giving;
mod reading;
mod sending;

/// How long a client may take for the head of a request, and between two parts of its answer, in milliseconds.
const LIMIT_MS: u64 = 5_000;

/// How long a client that has sent no whole request keeps its slot if all are taken, in milliseconds.
const FRESH_MS: u64 = 250;

/// How long what a client still sends is read and dropped behind the last answer, in milliseconds.
const DRAIN_MS: u64 = 1_000;

/// The longest wait of a long poll, in milliseconds.
const MAX_WAIT_MS: u64 = 30_000;

/// The most that is read at once, in bytes.
const ROOM: usize = 4 * 1024;

/// The most that is held back of what a client sent, in bytes.
const MAX_HELD: usize = MAX_HEAD + ROOM;

/// The longest body of a request, in bytes. A longer one is refused with 413.
const MAX_BODY: usize = 1024;

/// How many steps a connection makes before the others have their turn.
const STEPS: u32 = 64;

/// Where a connection stands.
#[derive(Clone, Copy, Debug, PartialEq, Eq)]
pub(crate) enum Phase {
    /// A request is read.
    Reading,
    /// The request at the front is a long poll, which waits for a version after this one.
    Parked(u64),
    /// An answer is sent.
    Answering,
    /// The last answer was sent. What comes is dropped, so that the client can read it before the close.
    Draining,
}

/// What a step found.
#[derive(Clone, Copy, Debug, PartialEq, Eq)]
enum Step {
    /// There is more to do.
    On,
    /// The socket has to be ready first.
    Wait,
    /// The connection is over.
    Gone,
}

impl Step {
    /// What a read or a write that failed leaves to do. If the socket isn't ready, that is noted.
    fn after_failure(kind: ErrorKind, is_ready: &mut bool) -> Step
        ensures blocked { kind ≡ ErrorKind.WouldBlock → (result ≡ Step.Wait) × IsFalse is_ready.new }
        ensures again { kind ≡ ErrorKind.Interrupted → (result ≡ Step.On) × (is_ready.new ≡ is_ready.old) }
        ensures failed { kind ≢ ErrorKind.WouldBlock → kind ≢ ErrorKind.Interrupted → result ≡ Step.Gone }
    {
        match kind {
            ErrorKind::WouldBlock => {
                *is_ready = false;
                Step::Wait
            }
            ErrorKind::Interrupted => Step::On,
            _ => Step::Gone,
        }
    }
}

/// What a turn left.
#[derive(Clone, Copy, Debug, PartialEq, Eq)]
pub(crate) enum Left {
    Waiting,
    /// There is more to do at once.
    Busy,
    /// The connection is over.
    Gone,
}

/// What the connections share in a turn.
#[derive(Clone, Copy, Debug)]
pub(crate) struct Turn {
    pub(crate) at: Moment,
    /// The version of what the site shows.
    pub(crate) version: u64,
    /// How many long polls of other connections wait.
    pub(crate) others: usize,
    /// Whether the connection's client is on loopback.
    pub(crate) is_loopback: bool,
}

/// A refusal of the server's own, and how many bytes of its text were sent.
#[derive(Clone, Copy, Debug)]
struct OwnText {
    why: OwnRefusal,
    sent: usize,
}

/// A client's connection. It holds back at most 12 KiB of what the client sent, and has given `http_server` at most a
/// head of 8 KiB and a body of 1 KiB that aren't answered. It holds one answer at a time.
#[derive(Drop)]
pub(crate) struct Peer {
    stream: TcpStream,
    /// Whether the client's address is loopback.
    is_loopback: bool,
    http: Connection,
    /// What the client sent, and `http` wasn't given yet.
    held: BytesMut,
    /// What is sent in the place of the output of `http`.
    own: Option<OwnText>,
    phase: Phase,
    /// How many bytes the request at the front has, if it is a long poll that waits.
    front: usize,
    /// When the phase ends at the latest, in milliseconds.
    until: u64,
    can_read: bool,
    can_write: bool,
    /// The client has sent all that it will.
    ended: bool,
    /// The connection is closed behind the next answer, and `http` is given all that comes.
    is_last: bool,
    /// `held` wasn't looked at since it changed.
    is_fresh: bool,
}

fn config() -> Config {
    Config {
        limits: Limits {
            max_head_len: MAX_HEAD,
            max_extensions_len: 256,
            max_trailers_len: 1024,
        },
        max_body_len: MAX_BODY,
        max_pending: 64 * 1024,
        read_size: 1024,
    }
}

impl Peer {
    /// A connection that begins at this moment. Allocates nothing. The keys are those of the maps of header fields.
    pub(crate) fn new(alloc: Global, keys: RandomState, client: Client, at: Moment) -> Peer
        ensures new { IsNewPeer result }
        ensures loopback { result.is_loopback ≡ client.is_loopback }
        ensures time { result.until ≡ at + LIMIT_MS }
    {
        let Client {
            stream,
            is_loopback,
        } = client;
        Peer {
            stream,
            is_loopback,
            http: Connection::new(alloc, keys, config()),
            held: BytesMut::new(alloc),
            own: None,
            phase: Phase::Reading,
            front: 0,
            until: at.milliseconds().saturating_add(LIMIT_MS),
            can_read: true,
            can_write: true,
            ended: false,
            is_last: false,
            is_fresh: false,
        }
    }

    /// Has the system tell when the socket is ready. Whether it can.
    pub(crate) fn register(&mut self, registry: &Registry, token: Token) -> bool
        ensures { IsNewPeer self.old → IsNewPeer self.new }
    {
        let both = Interest::READABLE | Interest::WRITABLE;
        let is_registered = registry.register(&mut self.stream, token, both).is_ok();
        let _nodelay = self.stream.set_nodelay(true).is_ok();
        is_registered
    }

    /// Notes what the system tells of the socket.
    pub(crate) fn note(&mut self, event: &Event)
        ensures phase { self.new.phase ≡ self.old.phase }
        ensures until { self.new.until ≡ self.old.until }
        ensures calls { calls_of self.new ≡ calls_of self.old }
        ensures held { self.new.held ≡ self.old.held }
    {
        if event.is_readable() || event.is_read_closed() || event.is_error() {
            self.can_read = true;
        }
        if event.is_writable() || event.is_write_closed() || event.is_error() {
            self.can_write = true;
        }
    }

    /// Whether its client is on loopback.
    pub(crate) fn is_loopback(&self) -> bool
        ensures { result ≡ self.now.is_loopback }
    {
        self.is_loopback
    }

    /// Whether it is a long poll that waits.
    pub(crate) fn is_parked(&self) -> bool
        ensures { IsFalse result ↔ IsAwake self.now.phase }
    {
        matches!(self.phase, Phase::Parked(_))
    }

    /// How many milliseconds are left until its phase ends.
    pub(crate) fn left_ms(&self, at: Moment) -> u64
        ensures { result ≡ self.now.until - at }
    {
        self.until.saturating_sub(at.milliseconds())
    }

    /// Whether a new connection may have its slot if all are taken: its last answer was sent, or it has waited a while
    /// for a request.
    pub(crate) fn may_yield(&self, at: Moment) -> bool
        ensures { result ≡ may_yield self.now.phase (self.now.until - at) }
    {
        match self.phase {
            Phase::Draining => true,
            Phase::Reading => self.left_ms(at) <= LIMIT_MS - FRESH_MS,
            Phase::Parked(_) | Phase::Answering => false,
        }
    }

    /// Whether it has something to do.
    pub(crate) fn is_due(&self, turn: &Turn) -> bool
        ensures { IsFalse result → IsCurrent turn.now.at turn.now.version self.now }
    {
        if turn.at.milliseconds() >= self.until {
            return true;
        }
        match self.phase {
            Phase::Reading => self.can_read || self.is_fresh,
            Phase::Parked(after) => after < turn.version || self.can_read,
            Phase::Answering => self.can_write,
            Phase::Draining => self.can_read,
        }
    }

    /// Does what can be done at once, but no more than some steps.
    #[tactic(auto, using(crate::proofs::ChainLaws::adds_both))]
    pub(crate) fn run<S: Site>(&mut self, desk: &mut Desk<S>, turn: &Turn) -> Left
        requires { turn.now.version ≡ S.version desk.old.site }
        ensures current { result ≢ Left.Gone → IsCurrent turn.now.at turn.now.version self.new }
        ensures parks { IsAwake self.old.phase → MAX_PARKED ≤ turn.now.others → result ≢ Left.Gone
            → IsAwake self.new.phase }
        ensures time { result ≢ Left.Gone → KeepsTime turn.now.at self.old self.new }
        ensures answers { Answers (RepliesAmong S.answers S.acts S.version S.waits desk.old.hosts turn.now.others
            turn.now.is_loopback) desk.old.site self.old self.new }
        ensures site { desk.new.site ≡ desk.old.site }
        ensures hosts { desk.new.hosts ≡ desk.old.hosts }
        ensures bounded { IsBounded self.old → IsBounded self.new }
    {
        let mut step = self.step(desk, turn);
        for _ in 1..STEPS {
            if step != Step::On {
                break;
            }
            step = self.step(desk, turn);
        }
        match step {
            Step::On => Left::Busy,
            Step::Wait => Left::Waiting,
            Step::Gone => Left::Gone,
        }
    }

    /// One step.
    #[tactic(auto, using(crate::proofs::ChainLaws::adds_nothing))]
    fn step<S: Site>(&mut self, desk: &mut Desk<S>, turn: &Turn) -> Step
        requires { turn.now.version ≡ S.version desk.old.site }
        ensures moves { result ≢ Step.Gone → MayBecome self.old.phase self.new.phase }
        ensures current { result ≢ Step.Gone → IsCurrent turn.now.at turn.now.version self.new }
        // A client that is late loses its slot, but for a long poll, which is answered then.
        ensures late { IsAwake self.old.phase → self.old.until ≤ turn.now.at → result ≡ Step.Gone }
        ensures came { (after : ℕ) → self.old.phase ≡ Parked after → after < turn.now.version
            → result ≢ Step.Gone → IsAwake self.new.phase }
        ensures over { (after : ℕ) → self.old.phase ≡ Parked after → self.old.until ≤ turn.now.at
            → result ≢ Step.Gone → IsAwake self.new.phase }
        ensures parks { IsAwake self.old.phase → MAX_PARKED ≤ turn.now.others → result ≢ Step.Gone
            → IsAwake self.new.phase }
        ensures time { result ≢ Step.Gone → KeepsTime turn.now.at self.old self.new }
        ensures keeps { ¬ (IsDraining self.old.phase) → GoesOn self.old self.new }
        ensures answers { Answers (RepliesAmong S.answers S.acts S.version S.waits desk.old.hosts turn.now.others
            turn.now.is_loopback) desk.old.site self.old self.new }
        ensures site { desk.new.site ≡ desk.old.site }
        ensures hosts { desk.new.hosts ≡ desk.old.hosts }
        ensures bounded { IsBounded self.old → IsBounded self.new }
    {
        match self.phase {
            Phase::Parked(after) => self.wait(desk, turn, after),
            _ if turn.at.milliseconds() >= self.until => Step::Gone,
            Phase::Reading => self.read(desk, turn),
            Phase::Answering => self.send(turn),
            Phase::Draining => self.drain(),
        }
    }
}
