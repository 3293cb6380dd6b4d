//! One loop of a node by itself, and all threads of a node at once.
ghost use Rattle.std.specs.Prelude.{◌≡◌, ◌≤◌};

use crate::links::{MovingClock, PingLink, Signs, StandingClock};
use arrayvec::ArrayVec;
use left_right::Absorb;
use lg_agent::{AgentName, Pass, Spent};
use lg_detector::Event;
use lg_loops::NodeLoops;
use lg_node::{
    Both, ChangeSignal, Counters, Ended, LoopEnd, MAX_TURNS, PcgDice, Plan, ReceivingLoop,
    ResolvedSeeds, ServerSide, Settings, Shared, Side, Sides, StatusServer, TickingLoop,
    Unrecorded, Watched, Watching, join_threads,
};
use lg_rules::Name;
use lg_testing::{Room, at, letter, local};
use lg_timing::{Config, MAX_MOMENT};
use lg_view::{Published, Update};
use std::alloc::Global;
use std::fs::Files;
use std::rt;
use std::sync::Wait;
use std::sync::atomic::AtomicBool;
use std::sync::atomic::Ordering::SeqCst;
use std::thread::Threads;

/// How many turns a loop may make. A turn that has nothing to do lasts a millisecond or more.
const BOUND: u64 = 20_000;

/// How long a turn waits at most, in milliseconds.
const WAIT_MS: u64 = 20;

/// Which loop runs by itself.
#[derive(Clone, Copy, Debug)]
pub enum Alone {
    Receiving,
    /// The ticking one, until this moment. The member may leave then.
    Ticking(u64, bool),
}

/// What a loop did that ran by itself.
#[derive(Clone, Copy)]
pub struct AloneSeen {
    pub end: LoopEnd,
    /// How many calls of its pass were answered, and how many were refused, as the status server would tell.
    pub answered: u64,
    pub refused: u64,
    /// How many packets it handed over.
    pub handed: usize,
    /// Whether the other loops are told to stop.
    pub stop: bool,
}

/// What loops note for others.
#[derive(Drop)]
struct Noted {
    page_heard: AtomicBool,
    counters: Counters,
    changes: ChangeSignal,
    resolved: ResolvedSeeds,
}

impl Noted {
    /// Nothing is noted so far of the member of this name.
    fn new(name: Name) -> Noted
        ensures { result.counters.name ≡ name }
    {
        Noted {
            page_heard: AtomicBool::new(false),
            counters: Counters::new(name, at(0)),
            changes: ChangeSignal::new(),
            resolved: ResolvedSeeds::new(),
        }
    }
}

/// A plan of ticks until a moment, at which the member may leave. It doesn't linger then.
fn ticks_until(until: u64, leaves: bool) -> Plan {
    Plan {
        name: Name::default(),
        own: local(7000),
        fixed: ArrayVec::new(),
        seeds: ArrayVec::new(),
        learns: false,
        interval_ms: 0,
        pull_ms: 0,
        until: at(until),
        leaves,
    }
}

/// What the loops share: a clock, and one flag by which they are told to stop.
fn shared<'a, R, C>(
    rt: &'a R,
    alloc: Global,
    clock: &'a C,
    stop: &'a AtomicBool,
    noted: &'a Noted,
) -> Shared<'a, R, C>
    ensures bound { result.bound ≡ BOUND }
    ensures name { result.counters.now.name ≡ noted.now.counters.name }
{
    Shared {
        rt,
        alloc,
        clock,
        stop,
        over: stop,
        page_heard: &noted.page_heard,
        group: None,
        counters: &noted.counters,
        changes: &noted.changes,
        signal: None,
        bound: BOUND,
        endless: false,
        wait_ms: WAIT_MS,
        pause_ms: WAIT_MS,
        deadlines: noted.resolved.deadlines(),
        resolved: &noted.resolved,
        recorder: None,
    }
}

/// Runs one loop of a side.
fn run_loop<'m, A: AgentName, R: Wait + rt::Clock>(
    shared: &Shared<'_, R, MovingClock>,
    side: Side<'_, PingLink<'m, R>, A>,
    alone: Alone,
) -> Ended<PingLink<'m, R>, A>
    requires { shared.now.bound ≤ MAX_TURNS }
{
    match alone {
        Alone::Receiving => NodeLoops::receive_loop(shared, side),
        Alone::Ticking(until, leaves) => {
            NodeLoops::tick_loop(shared, side, PcgDice::new(0), ticks_until(until, leaves))
        }
    }
}

/// Runs one loop with a pass, and a link that gives these signs.
fn run_pass<'m, A: AgentName, R: Wait + rt::Clock>(
    rt: &'m R,
    alloc: Global,
    signs: &'m Signs,
    pass: Pass<'_, A>,
    alone: Alone,
) -> (AloneSeen, Spent<A>) {
    let clock = MovingClock::new();
    let noted = Noted::new(Name::default());
    let shared = shared(rt, alloc, &clock, &signs.stop, &noted);
    let side = Side::new(pass, PingLink::new(rt, signs));
    let Ended { link, spent, end } = run_loop(&shared, side, alone);
    let seen = AloneSeen {
        end,
        answered: spent.made(),
        refused: noted.counters.counts().calls_refused,
        handed: link.handed,
        stop: signs.stop.load(SeqCst),
    };
    (seen, spent)
}

/// Runs one loop with a pass.
pub fn run_alone<A: AgentName, R: Wait + rt::Clock>(
    rt: &R,
    alloc: Global,
    pass: Pass<'_, A>,
    alone: Alone,
) -> (AloneSeen, Spent<A>) {
    let signs = Signs::new(false);
    run_pass(rt, alloc, &signs, pass, alone)
}

/// What a watcher has told.
#[derive(Clone, Copy, Debug, PartialEq, Eq)]
pub enum Text {
    /// Nothing.
    Empty,
    /// Its last line alone.
    End,
    /// The records of b and c, which are known from the start, and its last line; or that of d too before the last
    /// line.
    Known,
    Other,
}

/// The texts of a watcher.
const TEXTS: [(Text, &[u8]); 4] = [
    (Text::Empty, b""),
    (Text::End, b"0 stood-still 0\n"),
    (
        Text::Known,
        b"0 record b alive 0 127.0.0.1:7000\n0 record c alive 0 127.0.0.1:7003\n0 stood-still 0\n",
    ),
    (
        Text::Known,
        b"0 record b alive 0 127.0.0.1:7000\n0 record c alive 0 127.0.0.1:7003\n\
            0 record d alive 0 127.0.0.1:7004\n0 stood-still 0\n",
    ),
];

impl Text {
    /// What was written.
    fn of(writer: &Room) -> Text {
        for (text, bytes) in TEXTS {
            if writer.has(bytes) {
                return text;
            }
        }
        Text::Other
    }
}

/// How both loops ended, and how the watcher did, if there was one.
#[derive(Clone, Copy)]
pub struct BothSeen {
    pub receiving: LoopEnd,
    pub ticking: LoopEnd,
    pub watched: Option<Watched>,
    pub text: Text,
}

/// The settings of a node that nobody asks.
fn settings_of(follow: bool) -> Settings {
    Settings {
        bind: local(7000),
        seeds: ArrayVec::new(),
        learns: false,
        resolve_ms: 60_000,
        shown_seeds: ArrayVec::new(),
        dice: 1,
        pull_ms: 0,
        stall_ms: 0,
        follow,
        status: None,
        status_open: false,
        leave: true,
        record_folder: None,
        keys: None,
    }
}

/// The four passes of a node.
#[derive(Drop)]
struct Four<'p, A: AgentName>
where
    Published<A>: Absorb<Update<A>, State = [Event; 0]>,
{
    receiver: Pass<'p, A>,
    ticker: Pass<'p, A>,
    watcher: Pass<'p, A>,
    status: Pass<'p, A>,
}

/// These passes, unless there are fewer than four.
fn taken<'p, A: AgentName>(passes: Vec<Pass<'p, A>>) -> Option<Four<'p, A>> {
    let mut passes = passes;
    let status = passes.pop()?;
    let watcher = passes.pop()?;
    let ticker = passes.pop()?;
    let receiver = passes.pop()?;
    Some(Four {
        receiver,
        ticker,
        watcher,
        status,
    })
}

/// What those leave who only look: each pass, and how the watcher ended, if the node was followed.
#[derive(Drop)]
struct Looked<'p, A: AgentName>
where
    Published<A>: Absorb<Update<A>, State = [Event; 0]>,
{
    watcher: Pass<'p, A>,
    watched: Option<Watched>,
    status: Pass<'p, A>,
}

/// What the threads of a node leave, and what its watcher told.
type Ran<'p, 'm, R, A> = (Looked<'p, A>, Both<PingLink<'m, R>, A>, Text);

/// Runs the threads of a node that nobody asks, until its link tells it to stop. One clock always says 0.
fn run_threads<'p, 'm, A, R>(
    rt: &'m R,
    alloc: Global,
    signs: &'m Signs,
    passes: Four<'p, A>,
    follow: bool,
) -> Ran<'p, 'm, R, A>
where
    A: AgentName + Send + Sync,
    R: Threads + Wait + Files + rt::Clock + AllocGlobal + Clone + Sync + Drop,
    R::File: Send,
    R::Dir: Send,
{
    let name = letter(b'b');
    let config = Config::new(name, local(7102));
    let settings = settings_of(follow);
    let clock = StandingClock { rt };
    let noted = Noted::new(name);
    let shared = shared(rt, alloc, &clock, &signs.stop, &noted);
    let Four {
        receiver,
        ticker,
        watcher,
        status,
    } = passes;
    let sides = Sides::of(
        NodeLoops,
        Side::new(receiver, PingLink::new(rt, signs)),
        Side::new(ticker, PingLink::new(rt, signs)),
        PcgDice::new(0),
        ticks_until(MAX_MOMENT, false),
    );
    let server: Option<StatusServer<'m, 'm, R>> = None;
    let server = ServerSide {
        config: &config,
        settings: &settings,
        pass: status,
        server,
    };
    let (mut writer, mut faults) = (Room::failing(0), Room::failing(0));
    let watching = Watching::new(&shared, follow, watcher, &mut writer);
    let (watched, (served, (both, _unrecorded))) = join_threads(
        &shared,
        sides,
        server,
        watching,
        &mut faults,
        Unrecorded,
    );
    let looked = Looked {
        watcher: watched.0,
        watched: watched.1.1,
        status: served.0,
    };
    (looked, both, Text::of(&writer))
}

/// Runs the threads of a node that nobody asks, with four passes, until its link tells it to stop. There may be a
/// watcher. Nothing comes of fewer passes.
pub fn run_both<A, R>(
    rt: &R,
    alloc: Global,
    passes: Vec<Pass<'_, A>>,
    follow: bool,
) -> Option<(BothSeen, [Spent<A>; 4])>
where
    A: AgentName + Send + Sync,
    R: Threads + Wait + Files + rt::Clock + AllocGlobal + Clone + Sync + Drop,
    R::File: Send,
    R::Dir: Send,
{
    let signs = Signs::new(true);
    let (looked, (received, ticked), text) = run_threads(rt, alloc, &signs, taken(passes)?, follow);
    let seen = BothSeen {
        receiving: received.end,
        ticking: ticked.end,
        watched: looked.watched,
        text,
    };
    let left = [
        looked.watcher.finish(),
        looked.status.finish(),
        received.spent,
        ticked.spent,
    ];
    Some((seen, left))
}
