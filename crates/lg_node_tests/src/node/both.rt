//! All threads of a node at once: both loops, which wait for each other (`meeting.rt`), and a watcher if the node is
//! followed.
ghost use Rattle.std.specs.Prelude.{◌≡◌};

use super::loops::{Noted, WAIT_MS, ticks_until};
use super::meeting::{Meeting, MeetingLink, StandingClock};
use super::playing::{Play, Shown, told};
use arrayvec::ArrayVec;
use left_right::Absorb;
use lg_agent::{AgentName, Pass, Spent};
use lg_agent_testing::{Case, Ending, Left, Outcome};
use lg_detector::Event;
use lg_loops::NodeLoops;
use lg_node::{
    Both, ChangeSignal, Counters, LoopEnd, PcgDice, ResolvedSeeds, ServerSide, Settings, Shared,
    Side, Sides, StatusServer, Unrecorded, Watched, Watching, Why, join_threads,
};
use lg_testing::{Room, at, letter, local};
use lg_timing::{Config, MAX_MOMENT};
use lg_view::{Published, Update};
use std::alloc::Global;
use std::fs::Files;
use std::rt;
use std::sync::Wait;
use std::sync::atomic::AtomicBool;
use std::thread::Threads;

/// How many turns a loop may make. A turn that has nothing to do lasts a millisecond or more.
const BOUND: u64 = 20_000;

/// Which call of the receiving loop's link fails, and which of the ticking one's, counted from 1. With 0 none does.
type FailsAt = [u64; 2];

/// How both loops are run.
#[derive(Clone, Copy)]
pub struct BothRun {
    fails_at: FailsAt,
    /// Whether a watcher tells what the node learns.
    follow: bool,
}

/// How both loops ended, how often their links failed, and what a watcher told.
#[derive(Clone, Copy)]
pub struct BothSeen {
    pub receiving: LoopEnd,
    pub ticking: LoopEnd,
    pub receiving_failures: u64,
    pub ticking_failures: u64,
    /// How the watcher ended, if there was one.
    pub watched: Option<Watched>,
    pub text: Text,
}

/// What a watcher has told.
#[derive(Clone, Copy, Debug, PartialEq, Eq)]
pub enum Text {
    /// Nothing.
    Empty,
    /// Its last line alone.
    End,
    /// The records of b and c, which are known from the start, and its last line.
    Known,
    /// The same, and that of d before the last line.
    Learned,
    /// Another text.
    Other,
}

/// The texts of a watcher but the empty one.
const TEXTS: [(Text, &[u8]); 3] = [
    (Text::End, b"0 stood-still 0\n"),
    (
        Text::Known,
        b"0 record b alive 0 127.0.0.1:7000\n0 record c alive 0 127.0.0.1:7003\n0 stood-still 0\n",
    ),
    (
        Text::Learned,
        b"0 record b alive 0 127.0.0.1:7000\n0 record c alive 0 127.0.0.1:7003\n\
            0 record d alive 0 127.0.0.1:7004\n0 stood-still 0\n",
    ),
];

impl Text {
    /// What was written.
    fn of(writer: &Room) -> Text {
        if writer.has(b"") {
            return Text::Empty;
        }
        for (text, bytes) in TEXTS {
            if writer.has(bytes) {
                return text;
            }
        }
        Text::Other
    }
}

/// The settings of a node that nobody asks.
fn settings(follow: bool) -> Settings {
    Settings {
        bind: local(7000),
        seeds: ArrayVec::new(),
        learns: false,
        resolve_ms: 60_000,
        shown_seeds: ArrayVec::new(),
        dice: 1,
        pull_ms: 0,
        stall_ms: 0,
        follow,
        status: None,
        status_open: false,
        leave: true,
        record_folder: None,
        keys: None,
    }
}

/// The four passes of a node.
#[derive(Drop)]
struct Four<'a, A: AgentName>
where
    Published<A>: Absorb<Update<A>, State = [Event; 0]>,
{
    receiver: Pass<'a, A>,
    ticker: Pass<'a, A>,
    watcher: Pass<'a, A>,
    status: Pass<'a, A>,
}

/// These passes, unless there are fewer than four.
fn taken<'a, A: AgentName>(passes: Vec<Pass<'a, A>>) -> Option<Four<'a, A>> {
    let mut passes = passes;
    let status = passes.pop()?;
    let watcher = passes.pop()?;
    let ticker = passes.pop()?;
    let receiver = passes.pop()?;
    Some(Four {
        receiver,
        ticker,
        watcher,
        status,
    })
}

/// What the loops share: one clock, and the flag by which they are told to stop.
fn shared<'a, R, C>(
    rt: &'a R,
    alloc: Global,
    clock: &'a C,
    stop: &'a AtomicBool,
    noted: &'a Noted,
) -> Shared<'a, R, C>
    ensures bound { result.bound ≡ BOUND }
    ensures name { result.counters.now.name ≡ noted.now.counters.name }
{
    Shared {
        rt,
        alloc,
        clock,
        stop,
        over: stop,
        page_heard: &noted.page_heard,
        group: None,
        counters: &noted.counters,
        changes: &noted.changes,
        signal: None,
        bound: BOUND,
        endless: false,
        wait_ms: WAIT_MS,
        pause_ms: WAIT_MS,
        deadlines: noted.resolved.deadlines(),
        resolved: &noted.resolved,
        recorder: None,
    }
}

/// What those leave who only look: each pass, and how the watcher ended, if the node was followed.
#[derive(Drop)]
struct Looked<'p, A: AgentName>
where
    Published<A>: Absorb<Update<A>, State = [Event; 0]>,
{
    watcher: Pass<'p, A>,
    watched: Option<Watched>,
    status: Pass<'p, A>,
}

/// What the threads of a node leave, and what its watcher told.
type Ran<'p, 'm, R, A> = (Looked<'p, A>, Both<MeetingLink<'m, R>, A>, Text);

/// Runs the threads of a node that nobody asks, until the last moment. One clock always says 0.
fn run_threads<'p, 'm, A, R>(
    rt: &'m R,
    alloc: Global,
    meeting: &'m Meeting,
    passes: Four<'p, A>,
    run: BothRun,
) -> Ran<'p, 'm, R, A>
where
    A: AgentName + Send + Sync,
    R: Threads + Wait + Files + rt::Clock + AllocGlobal + Clone + Sync + Drop,
    R::File: Send,
    R::Dir: Send,
{
    let name = letter(b'b');
    let config = Config::new(name, local(7102));
    let settings = settings(run.follow);
    let clock = StandingClock { rt };
    let noted = Noted {
        page_heard: AtomicBool::new(false),
        counters: Counters::new(name, at(0)),
        changes: ChangeSignal::new(),
        resolved: ResolvedSeeds::new(),
    };
    let shared = shared(rt, alloc, &clock, &meeting.stop, &noted);
    let Four {
        receiver,
        ticker,
        watcher,
        status,
    } = passes;
    let sides = Sides::of(
        NodeLoops,
        Side::new(receiver, MeetingLink::new(rt, meeting, run.fails_at[0])),
        Side::new(ticker, MeetingLink::new(rt, meeting, run.fails_at[1])),
        PcgDice::new(0),
        ticks_until(at(MAX_MOMENT)),
    );
    let server: Option<StatusServer<'m, 'm, R>> = None;
    let server = ServerSide {
        config: &config,
        settings: &settings,
        pass: status,
        server,
    };
    let mut writer = Room::failing(0);
    let mut faults = Room::failing(0);
    let watching = Watching::new(&shared, run.follow, watcher, &mut writer);
    let (watched, (served, (both, _unrecorded))) = join_threads(
        &shared,
        sides,
        server,
        watching,
        &mut faults,
        Unrecorded,
    );
    let looked = Looked {
        watcher: watched.0,
        watched: watched.1.1,
        status: served.0,
    };
    (looked, both, Text::of(&writer))
}

/// Runs both loops of a node with four passes.
pub fn run_both<A, R>(
    rt: &R,
    alloc: Global,
    passes: Vec<Pass<'_, A>>,
    run: BothRun,
    spents: Vec<Spent<A>>,
) -> Left<A, Shown>
where
    A: AgentName + Send + Sync,
    R: Threads + Wait + Files + rt::Clock + AllocGlobal + Clone + Sync + Drop,
    R::File: Send,
    R::Dir: Send,
{
    let Some(passes) = taken(passes) else {
        return Left::nothing(spents);
    };
    let meeting = Meeting::new();
    let (looked, (received, ticked), text) = run_threads(rt, alloc, &meeting, passes, run);
    let seen = BothSeen {
        receiving: received.end,
        ticking: ticked.end,
        receiving_failures: received.link.failures,
        ticking_failures: ticked.link.failures,
        watched: looked.watched,
        text,
    };
    let mut spents = spents;
    let _refused = spents.push(looked.watcher.finish()).is_err();
    let _refused = spents.push(looked.status.finish()).is_err();
    Left::with_both(spents, (received.spent, ticked.spent), Shown::Both(seen))
}

/// An agent that knows c, and runs both loops.
pub fn both_loops(run: BothRun) -> Case<Play> {
    let mut case = Case::new(4, Play::Both(run));
    case.others = 1;
    case
}

/// What both loops tell, and how their agent ended.
pub fn seen_in(outcome: &Outcome<Shown>) -> Option<(BothSeen, Ending)> {
    match &outcome.seen {
        Some(Shown::Both(seen)) => Some((*seen, outcome.ending)),
        _ => None,
    }
}

/// A name, and which call of each link fails. Then why the receiving loop ends and after how many turns, how many
/// packets of each loop weren't sent, and how many entries there are in the end.
type Row = (&'static str, FailsAt, Why, u64, [u64; 2], u64);

/// The receiving loop waits for a Ping, answers it, and waits again. The ticking loop makes a tick, and sends a Ping.
const ROWS: &[Row] = &[
    ("no failure", [0, 0], Why::Stopped, 2, [0, 0], 3),
    ("first receiving", [1, 0], Why::LinkFailed, 1, [0, 0], 2),
    ("the Ack", [2, 0], Why::Stopped, 2, [1, 0], 3),
    ("second receiving", [3, 0], Why::LinkFailed, 2, [0, 0], 3),
    ("the Ping", [0, 1], Why::Stopped, 2, [0, 1], 3),
];

impl BothSeen {
    /// Whether the receiving loop ended as a row says, and the ticking one was stopped.
    fn is(&self, row: &Row) -> bool {
        let (_, _, why, turns, [unsent, lost], _) = *row;
        let end = LoopEnd {
            why,
            dropped: 0,
            unsent,
            turns,
        };
        let lost_link = u64::from(why == Why::LinkFailed);
        self.receiving == end
            && self.receiving_failures == unsent.saturating_add(lost_link)
            && self.ticking.why == Why::Stopped
            && self.ticking.unsent == lost
            && self.ticking_failures == lost
    }

    /// What a watcher tells that tells all. A receiving loop that made two turns has heard the Ping, which tells of d.
    fn whole_text(&self) -> Text {
        if self.receiving.turns == 2 {
            Text::Learned
        } else {
            Text::Known
        }
    }

    /// Whether a watcher has told all, if there was to be one, and otherwise nothing was told.
    fn has_told(&self, follow: bool) -> bool {
        match self.watched {
            Some(watched) => follow && watched == Watched::Told && self.text == self.whole_text(),
            None => !follow && self.text == Text::Empty,
        }
    }
}

/// The Ping of the ticking loop is handed over while the other loop receives. The receiving loop answers a Ping, and
/// is told to stop. Each call of their links fails in turn. A packet that isn't sent ends no loop, and its event stays
/// in the history. If a receiving fails, the ticking loop, which has no other reason to end, is stopped. Each row runs
/// once alone, and once with a watcher, which has no reason to end either. It has told what the loops heard.
#[test]
fn both_run_at_once(rt: HostRuntime) {
    for row in ROWS {
        let (name, fails_at, .., entries) = *row;
        for follow in [false, true] {
            let run = BothRun { fails_at, follow };
            let outcome = told(&rt, rt.alloc(), both_loops(run)).ok();
            let seen = outcome.as_ref().and_then(seen_in);
            let met = seen.is_some_and(|(both, ending)| {
                both.is(row) && both.has_told(follow) && ending == Ending::closed(None, entries)
            });
            assert!(rt; met, "{name}, {follow}");
        }
    }
}
