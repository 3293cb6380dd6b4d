//! Threads that make calls and look at once, and some of which cut entries off. Afterwards a detector is given the
//! events of the history, and has to give the history's replies. It has heard the entries that were cut off; if there
//! are none, it is a fresh one.
use super::calls::{Call, Happens, Heard, is_known, make_call_into, number};
use crate::playing::{Play, Shown, told};
use left_right::Absorb;
use lg_agent::{AgentName, Pass, Refusal, Spent};
use lg_agent_testing::{Case, Ending, Left};
use lg_detector::{Event, Reply};
use lg_view::{Published, Update};
use std::alloc::Global;
use std::rt;
use std::sync::{Mutex, Wait};
use std::thread::{Threads, scope, scope_env};

/// How often a call is made at most. One that finds the history full is made again after a rotation, and other
/// threads may have filled it meanwhile.
const TRIES: u32 = 10_000;

/// What a thread does when a call finds the history full.
#[derive(Clone, Copy, PartialEq, Eq)]
pub enum WhenFull {
    /// It rotates, and makes the call again.
    Rotates,
    /// It gives the call up, if the refusal names this many entries as the limit.
    GoesOn(u64),
}

/// What one thread does.
#[derive(Clone, Copy)]
pub struct Task {
    /// How many calls it makes.
    pub calls: u32,
    /// After how many of its calls it rotates, each time.
    pub rotates_after: u32,
    pub when_full: WhenFull,
    /// Whether it looks before and after each call.
    pub looks: bool,
}

impl Task {
    /// This many calls between looks, and no rotation unless the history is full.
    fn new(calls: u32, when_full: WhenFull) -> Task {
        Task {
            calls,
            rotates_after: u32::MAX,
            when_full,
            looks: true,
        }
    }
}

/// The call of a turn: a datagram, a tick or a question.
fn call_of(turn: u32) -> Happens {
    let now = 10 * u64::from(turn);
    match turn % 5 {
        0 => Happens::Datagram(now, Heard::Turn(turn)),
        1 => Happens::Tick(now, turn),
        2 => Happens::Ask(now),
        3 => Happens::Health(now),
        _ => Happens::Pull(now),
    }
}

/// What a call came to.
#[derive(Clone, Copy)]
enum Came {
    /// It was answered, at this place.
    At(u64),
    /// The history was full, and the thread gives the call up.
    Full,
    /// Neither, or a look beside it went back.
    Wrong,
}

/// What a call came to, by itself.
fn came_of(place: Result<u64, Refusal>, when_full: WhenFull) -> Came {
    match place {
        Ok(place) => Came::At(place),
        Err(Refusal::HistoryFull(limit)) if when_full == WhenFull::GoesOn(limit) => Came::Full,
        Err(_) => Came::Wrong,
    }
}

/// Whether the look before an answered call has seen no more than came before it, and the look after it has seen the
/// call at least. For a refused call, whether no look beside it went back.
fn is_between(before: Option<u64>, came: Came, after: Option<u64>) -> bool {
    match (before, came, after) {
        (Some(before), Came::At(place), Some(after)) => before <= place && place < after,
        (Some(before), Came::Full, Some(after)) => before <= after,
        _ => false,
    }
}

/// What the calls of threads came to.
#[derive(Clone, Copy, Debug, Default, PartialEq, Eq)]
pub struct Tally {
    /// How many calls have no place above that of the call before, or stand beside a look that went back.
    wrong: u64,
    /// How many calls found the history full, and weren't made again.
    full: u64,
    /// How many entries were cut off.
    cut: u64,
}

impl Tally {
    /// Counts something that went wrong.
    fn miss(&mut self) {
        self.wrong = self.wrong.wrapping_add(1);
    }

    /// Adds what another thread's calls came to.
    fn add(&mut self, other: Tally) {
        self.wrong = self.wrong.wrapping_add(other.wrong);
        self.full = self.full.wrapping_add(other.full);
        self.cut = self.cut.wrapping_add(other.cut);
    }
}

/// A rotation of a thread.
fn rotate<A: AgentName, R: Wait>(rt: &R, alloc: Global, pass: &mut Pass<'_, A>, tally: &mut Tally) {
    match number(rt, alloc, pass, Call::Rotate) {
        Some(cut) => tally.cut = tally.cut.wrapping_add(cut),
        None => tally.miss(),
    }
}

/// One call of a thread. A thread that rotates does so as long as the history is full, and makes the call again.
fn make<A: AgentName, R: Wait>(
    rt: &R,
    alloc: Global,
    pass: &mut Pass<'_, A>,
    happens: Happens,
    when_full: WhenFull,
    tally: &mut Tally,
) -> Came {
    let mut reply = Reply::default();
    for _ in 1..TRIES {
        let place = make_call_into(rt, alloc, pass, happens, &mut reply);
        let is_full = matches!(place, Err(Refusal::HistoryFull(_)));
        if !is_full || when_full != WhenFull::Rotates {
            return came_of(place, when_full);
        }
        rotate(rt, alloc, pass, tally);
    }
    let place = make_call_into(rt, alloc, pass, happens, &mut reply);
    came_of(place, when_full)
}

/// One call between two looks, neither of which may go back. b's own record has to be known.
fn make_between_looks<A: AgentName, R: Wait>(
    rt: &R,
    alloc: Global,
    pass: &mut Pass<'_, A>,
    happens: Happens,
    when_full: WhenFull,
    tally: &mut Tally,
) -> Came {
    let before = number(rt, alloc, pass, Call::Version);
    let came = make(rt, alloc, pass, happens, when_full, tally);
    let knows_itself = is_known(rt, alloc, pass, b'b');
    let after = number(rt, alloc, pass, Call::Version);
    if is_between(before, came, after) && knows_itself {
        came
    } else {
        Came::Wrong
    }
}

/// All calls of one thread, and what they came to.
fn make_all<A: AgentName, R: Wait>(
    rt: &R,
    alloc: Global,
    pass: &mut Pass<'_, A>,
    task: Task,
) -> Tally {
    let mut tally = Tally::default();
    // The opening's place.
    let mut last: u64 = 0;
    for turn in 1..=task.calls {
        let happens = call_of(turn);
        let came = if task.looks {
            make_between_looks(rt, alloc, pass, happens, task.when_full, &mut tally)
        } else {
            make(rt, alloc, pass, happens, task.when_full, &mut tally)
        };
        match came {
            Came::At(place) if last < place => last = place,
            Came::Full => tally.full = tally.full.wrapping_add(1),
            _ => tally.miss(),
        }
        if turn.checked_rem(task.rotates_after) == Some(0) {
            rotate(rt, alloc, pass, &mut tally);
        }
    }
    tally
}

/// What the threads leave, and what their calls came to.
#[derive(Drop)]
struct Done<A: AgentName> {
    spents: Vec<Spent<A>>,
    tally: Tally,
}

/// A pass with its task, for a thread of its own.
#[derive(Drop)]
struct Worker<'a, 'b, A: AgentName>
where
    Published<A>: Absorb<Update<A>, State = [Event; 0]>,
{
    pass: Pass<'a, A>,
    task: Task,
    done: &'b Mutex<Done<A>>,
}

impl<'a, 'b, A: AgentName> Worker<'a, 'b, A> {
    /// All calls of the thread, and what it leaves. That has to count each call that was answered.
    fn work<R: Wait>(self, rt: &R, alloc: Global) {
        let Worker { pass, task, done } = self;
        let mut pass = pass;
        let mut tally = make_all(rt, alloc, &mut pass, task);
        let spent = pass.finish();
        if spent.made().wrapping_add(tally.full) != u64::from(task.calls) {
            tally.miss();
        }
        hand_in(rt, done, spent, tally);
    }
}

/// Hands in what a thread leaves.
fn hand_in<A: AgentName, R: Wait>(rt: &R, done: &Mutex<Done<A>>, spent: Spent<A>, tally: Tally) {
    let mut done = done.lock(rt);
    done.tally.add(tally);
    if done.spents.push(spent).is_err() {
        done.tally.miss();
    }
}

/// A thread for each pass, each with its task.
pub fn work_all<A: AgentName + Send + Sync, R: Threads + Wait + Sync>(
    rt: &R,
    alloc: Global,
    passes: Vec<Pass<'_, A>>,
    tasks: &[Task],
    spents: Vec<Spent<A>>,
) -> Left<A, Shown> {
    let done = Mutex::new(Done {
        spents,
        tally: Tally::default(),
    });
    let shared = &done;
    scope(scope_env(), rt, |scope| {
        let mut passes = passes;
        for &task in tasks {
            let Some(pass) = passes.pop() else {
                break;
            };
            let worker = Worker {
                pass,
                task,
                done: shared,
            };
            let _refused = scope.spawn(move || worker.work(rt, alloc)).is_err();
        }
    });
    let Done { spents, tally } = done.into_inner();
    let seen = Some(Shown::Threads(tally));
    Left { spents, seen }
}

/// What the calls of threads with these tasks came to, and how their agent ended.
fn played<R>(rt: &R, alloc: Global, limit: u64, tasks: &[Task]) -> Option<(Tally, Ending)>
where
    R: Threads + Wait + rt::Clock + Sync,
{
    let mut case = Case::new(tasks.len(), Play::Threads(tasks));
    case.limit = limit;
    let outcome = told(rt, alloc, case).ok()?;
    match outcome.seen {
        Some(Shown::Threads(tally)) => Some((tally, outcome.ending)),
        _ => None,
    }
}

/// How many calls each thread makes, what it does when the history is full, how many entries there are in the end,
/// and how many calls were given up. Eight threads with the same number of calls. Three threads, the third of which
/// ends with no call made. Eight threads for whose last 4,001 calls there is no room.
const ROWS: &[(&[u32], WhenFull, u64, u64)] = &[
    (&[2000; 8], WhenFull::Rotates, 16_001, 0),
    (&[100, 50, 0], WhenFull::Rotates, 151, 0),
    (&[3000; 8], WhenFull::GoesOn(20_000), 20_000, 4001),
];

/// Tasks of eight threads, the first of which make these numbers of calls, and the others none.
fn tasks_of(calls: &[u32], when_full: WhenFull) -> [Task; 8] {
    let mut tasks = [Task::new(0, when_full); 8];
    for (task, count) in tasks.iter_mut().zip(calls) {
        task.calls = *count;
    }
    tasks
}

/// What calls that all went well come to, if this many were given up, and how their agent ends.
fn wanted(entries: u64, full: u64) -> (Tally, Ending) {
    let mut tally = Tally::default();
    tally.full = full;
    (tally, Ending::closed(None, entries))
}

/// The calls of all threads make one history.
#[test]
fn threads_make_one_history(rt: HostRuntime) {
    for (calls, when_full, entries, full) in ROWS {
        let tasks = tasks_of(calls, *when_full);
        let threads = &tasks[..calls.len().min(8)];
        let want = Some(wanted(*entries, *full));
        assert_eq!(rt; played(&rt, rt.alloc(), 20_000, threads), want, "{entries}");
    }
}

/// Eight threads that make this many calls each, and the first of which rotates after each hundred of its calls.
fn rotating(calls: u32, looks: bool) -> [Task; 8] {
    let mut task = Task::new(calls, WhenFull::Rotates);
    task.looks = looks;
    let mut tasks = [task; 8];
    tasks[0].rotates_after = 100;
    tasks
}

/// How many calls each of eight threads makes, for how many entries the history has room, and whether each call is
/// between looks. With little room all threads rotate: the others make some 700 calls while the first makes a hundred.
const ROTATING: &[(u32, u64, bool)] = &[
    (2000, 200, true),
    (3000, 200, true),
    (3000, 200, false),
    (3000, 20_000, false),
];

/// Whether all calls of eight threads were answered, and an agent with this much room was closed. Its last rotation
/// left room for all of them.
fn is_rotated(tally: Tally, ending: Ending, calls: u32, limit: u64) -> bool {
    let entries = u64::from(calls).saturating_mul(8).saturating_add(1);
    let mut want = Ending::closed(None, entries);
    want.base = Some(tally.cut);
    tally.wrong == 0
        && tally.full == 0
        && ending == want
        && entries.saturating_sub(limit) <= tally.cut
}

/// The calls of threads that rotate meanwhile make one history too, and none is refused in the end.
#[test]
fn threads_that_rotate(rt: HostRuntime) {
    for (calls, limit, looks) in ROTATING {
        let tasks = rotating(*calls, *looks);
        let met = match played(&rt, rt.alloc(), *limit, &tasks) {
            Some((tally, ending)) => is_rotated(tally, ending, *calls, *limit),
            None => false,
        };
        assert!(rt; met, "{calls} calls, room for {limit}, looks: {looks}");
    }
}
