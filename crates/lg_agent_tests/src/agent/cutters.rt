//! Eight threads that share an agent. The first rotates now and then, and hears what is handed out. With the entries
//! that are left in the end, that is one history.
ghost use Rattle.std.specs.Prelude.{◌≡◌, ◌<◌, ◌≤◌};

use super::calls::{Happens, Heard, make_call_into};
use super::replaying::Replayed;
use left_right::Absorb;
use lg_agent::{Agent, AgentName, CutOff, Pass, Spent};
use lg_agent_testing::{abandon, close, config, open, room};
use lg_detector::{Event, Reply};
use lg_view::{Published, UnnamedBook, Update};
use std::alloc::Global;
use std::marker::Brand;
use std::sync::{Mutex, Wait};
use std::thread::{Threads, scope, scope_env};

/// How many threads there are, and how many calls each makes.
const THREADS: usize = 8;

const CALLS: u32 = 400;

/// After how many of its calls the first thread rotates, each time.
const ROTATES_AFTER: u32 = 50;

/// What the thread has that rotates: what it rotates into, and the detector that hears it.
#[derive(Drop)]
struct Cutter {
    into: CutOff,
    replayed: Replayed,
    /// How many rotations were refused, or answered another number than that of the entries that they handed out.
    wrong: u64,
}

impl Cutter {
    /// Nothing is cut off yet. None if memory was refused.
    fn new(alloc: Global) -> Option<Cutter> {
        Some(Cutter {
            into: CutOff::new(alloc),
            replayed: Replayed::fresh(alloc)?,
            wrong: 0,
        })
    }

    /// Rotates, and hears what is handed out.
    fn cut<A: AgentName, R: Wait>(&mut self, rt: &R, alloc: Global, pass: &mut Pass<'_, A>) {
        let count = pass.rotate_into(rt, alloc, &mut self.into);
        if count != Ok(self.into.entries().len() as u64) {
            self.wrong = self.wrong.wrapping_add(1);
        }
        self.replayed.hear_next(alloc, &self.into);
    }
}

/// The call of a turn: a datagram, a tick or a question.
fn call_of(turn: u32) -> Happens {
    let now = 10 * u64::from(turn);
    match turn % 3 {
        0 => Happens::Datagram(now, Heard::Turn(turn)),
        1 => Happens::Tick(now, turn),
        _ => Happens::Ask(now),
    }
}

/// What the threads leave.
#[derive(Drop)]
struct Done<A: AgentName> {
    spents: Vec<Spent<A>>,
    cutter: Option<Cutter>,
    /// How many calls were refused.
    refused: u64,
}

/// A pass, for a thread of its own. The first one has something to rotate into.
#[derive(Drop)]
struct Worker<'a, 'b, A: AgentName>
where
    Published<A>: Absorb<Update<A>, State = [Event; 0]>,
{
    pass: Pass<'a, A>,
    cutter: Option<Cutter>,
    done: &'b Mutex<Done<A>>,
}

impl<'a, 'b, A: AgentName> Worker<'a, 'b, A> {
    /// All calls of the thread, with rotations between them if it rotates. Returns how many calls were refused.
    fn call_all<R: Wait>(&mut self, rt: &R, alloc: Global) -> u64 {
        let mut reply = Reply::default();
        let mut refused: u64 = 0;
        for turn in 1..=CALLS {
            let made = make_call_into(rt, alloc, &mut self.pass, call_of(turn), &mut reply);
            if made.is_err() {
                refused = refused.wrapping_add(1);
            }
            match &mut self.cutter {
                Some(cutter) if turn % ROTATES_AFTER == 0 => cutter.cut(rt, alloc, &mut self.pass),
                _ => {}
            }
        }
        refused
    }

    /// All that the thread does. Hands in what it leaves.
    fn work<R: Wait>(self, rt: &R, alloc: Global) {
        let mut worker = self;
        let refused = worker.call_all(rt, alloc);
        let Worker { pass, cutter, done } = worker;
        let spent = pass.finish();
        let mut done = done.lock(rt);
        done.refused = done.refused.wrapping_add(refused);
        let _refused = done.spents.push(spent).is_err();
        if cutter.is_some() {
            done.cutter = cutter;
        }
    }
}

/// A thread for each pass, the first of which rotates.
fn work_all<A: AgentName + Send + Sync, R: Threads + Wait + Sync>(
    rt: &R,
    alloc: Global,
    passes: Vec<Pass<'_, A>>,
    spents: Vec<Spent<A>>,
) -> Done<A> {
    let done = Mutex::new(Done {
        spents,
        cutter: None,
        refused: 0,
    });
    let shared = &done;
    scope(scope_env(), rt, |scope| {
        let mut cutter = Cutter::new(alloc);
        for pass in passes {
            let worker = Worker {
                pass,
                cutter: cutter.take(),
                done: shared,
            };
            let _refused = scope.spawn(move || worker.work(rt, alloc)).is_err();
        }
    });
    done.into_inner()
}

/// What came of it.
#[derive(Clone, Copy, Debug, PartialEq, Eq)]
struct Came {
    /// How many calls were refused, and how many rotations went wrong.
    refused: u64,
    wrong: u64,
    /// How many entries the detector has heard, with those that were left in the end, if each has its reply.
    heard: Option<u64>,
    /// How many entries there were in the end, and whether what was handed out are those that were cut off.
    entries: u64,
    cut_off: bool,
}

/// What came of the threads, once their agent is closed.
fn came_of<A: AgentName, R: Wait>(rt: &R, agent: Agent<A>, done: Done<A>) -> Option<Came> {
    let Done {
        spents,
        cutter,
        refused,
    } = done;
    let closed = match close(rt, agent, spents) {
        Ok(closed) => closed,
        Err(unclosed) => {
            let _fault = abandon(rt, unclosed);
            return None;
        }
    };
    let Cutter {
        into: _,
        replayed,
        wrong,
    } = cutter?;
    let mut replayed = replayed;
    let cut_off = replayed.count() == Some(closed.base());
    replayed.hear(closed.history());
    Some(Came {
        refused,
        wrong,
        heard: replayed.count(),
        entries: closed.count(),
        cut_off,
    })
}

/// Opens an agent, and has eight threads share it.
fn played<A: AgentName + Send + Sync, R: Threads + Wait + Sync>(
    rt: &R,
    alloc: Global,
    book: UnnamedBook,
    places: usize,
) -> Option<Came>
    requires book { book.seen.book ≡ A.book }
    requires places { (places ≡ A.places) × (0 < places) × (places ≤ 32) }
{
    let mut agent = open::<A, R>(rt, alloc, book, config(20_000, 0), places).ok()?;
    let passes = agent.passes(alloc).unwrap_or(Vec::new(alloc));
    let done = work_all(rt, alloc, passes, room(alloc, places));
    came_of(rt, agent, done)
}

/// What one of eight threads is handed out, behind one another and with what is left, is one history.
#[test]
fn threads_make_one_history_of_parts(rt: HostRuntime) {
    let came = played::<Brand, _>(&rt, rt.alloc(), UnnamedBook::new(), THREADS);
    let want = Came {
        refused: 0,
        wrong: 0,
        heard: Some(3_201),
        entries: 3_201,
        cut_off: true,
    };
    assert_eq!(rt; came, Some(want));
}
