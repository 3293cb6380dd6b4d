//! How the ticking loop of a node finds its group: at which moments it asks for tables, and whom. Then what it does
//! after as many turns as its bound allows.
use super::clocks::{MemoryClock, SteppingDice};
use super::links::port_of;
use super::loops::{Noted, shared};
use super::playing::{Play, Shown, told};
use arrayvec::ArrayVec;
use lg_agent::{AgentName, Pass, Spent};
use lg_agent_testing::{Case, Left, Outcome, config, last_pass, spelled};
use lg_loops::NodeLoops;
use lg_node::{
    Ended, Link, LinkFault, LoopEnd, MAX_DATAGRAM, MAX_FOUND, MAX_TURNS, Plan, Side, TickingLoop,
    Why,
};
use lg_rules::{Addr, Claim};
use lg_testing::{at, failed, local, ping};
use std::alloc::Global;
use std::fs::Files;
use std::rt;
use std::sync::Wait;
use std::sync::atomic::AtomicBool;
use std::sync::atomic::Ordering::SeqCst;
use std::thread::Threads;

/// The Pull of b at 127.0.0.1:7000 for the first records.
const PULL_OF_B: &[u8; 21] =
    b"SL\x01\x05\x01b\x00\x01\x01\x01b\x7f\x00\x00\x01\x1b\x58\x00\x00\x00\x00";

/// The ports of the seeds.
pub(super) const C: u16 = 7003;

const D: u16 = 7004;

const E: u16 = 7005;

/// The port of c once it has failed. Those of d and e follow.
const FAILED_C: u16 = 7103;

/// The port of the first address that hosts are found to have. The port of b comes next, and others follow.
pub(super) const HOST: u16 = 6999;

/// The port of the first address that they have later.
pub(super) const MOVED: u16 = 7201;

/// More Pulls than any loop here hands over.
pub(super) const NEVER: usize = 1_000;

/// More turns than any loop here makes.
const MANY: u64 = 100_000;

/// A Pull: the moment at which it was handed over, and the port of 127.0.0.1 for which.
pub(super) type Pulled = (u64, u16);

/// What a ticking loop of b meets. It begins at 0, and nobody answers it.
#[derive(Clone, Copy)]
pub struct Search {
    /// How many of c, d and e are its seeds.
    pub(super) others: u8,
    /// How many of them, from c on, have failed before it begins.
    pub(super) failed: u8,
    /// How long it is at most from one asking for a table in turn to the next, in milliseconds. With 0 there is none.
    pub(super) pull_ms: u64,
    /// Whether hosts are among its seeds, whose addresses it learns.
    pub(super) learns: bool,
    /// How many addresses they were found to have before it begins, from [`HOST`] on.
    pub(super) found: u8,
    /// How many they have once so many Pulls were handed over, from [`MOVED`] on.
    pub(super) found_later: (usize, u8),
    pub(super) dice: SteppingDice,
    /// A Page is heard once so many Pulls were handed over. With 0 it was heard before the loop.
    pub(super) page_after: usize,
    /// When it ends.
    pub(super) until: u64,
    /// How many turns it may make, and whether it then counts them anew and goes on.
    pub(super) bound: u64,
    pub(super) endless: bool,
}

/// A loop that knows c, d and e, has heard a Page, and asks nobody in turn. Its interval is a second.
pub(super) const KNOWN: Search = Search {
    others: 3,
    failed: 0,
    pull_ms: 0,
    learns: false,
    found: 0,
    found_later: (NEVER, 0),
    dice: SteppingDice { word: 0, step: 0 },
    page_after: 0,
    until: 0,
    bound: MANY,
    endless: false,
};

/// The same, if it asks every 700 ms, and chooses members by the word 0.
const ASKING: Search = Search {
    pull_ms: 700,
    until: 2101,
    ..KNOWN
};

impl Search {
    /// An agent of b with this loop.
    fn case(self) -> Case<Play> {
        let mut case = Case::new(1, Play::Find(self));
        case.others = self.others;
        case
    }

    /// Whom the loop asks and until when it runs, as in a node of the same configuration.
    fn plan(&self) -> Plan {
        let config = config(20_000, self.others);
        let mut seeds = ArrayVec::new();
        for seed in &config.seeds {
            seeds.push(seed.addr);
        }
        Plan::new(&config, &seeds, self.learns, self.pull_ms, at(self.until))
    }

    /// Lets b hear who has failed, and at which ports.
    fn tell_failed<A: AgentName, R: Wait>(&self, rt: &R, alloc: Global, pass: &mut Pass<'_, A>) {
        for index in 0..self.failed.min(3) {
            let claim = Claim {
                addr: local(FAILED_C.wrapping_add(u16::from(index))),
                ..failed(b'c' + index, 0)
            };
            let bytes = spelled(b'a', ping(1, b'b'), &[claim]);
            let _refused = pass
                .datagram(rt, alloc, at(0), local(7001), bytes.as_slice())
                .is_err();
        }
    }
}

/// So many addresses, with ports from one on.
fn addresses(first: u16, count: u8) -> ArrayVec<Addr, MAX_FOUND> {
    let mut found = ArrayVec::new();
    for index in 0..count.min(8) {
        found.push(local(first.wrapping_add(u16::from(index))));
    }
    found
}

/// A link that keeps the first 16 Pulls. A Page is heard once so many were handed over, and hosts have other addresses
/// once so many were.
#[derive(Drop)]
struct PullLink<'a, R> {
    rt: &'a R,
    clock: &'a MemoryClock,
    noted: &'a Noted,
    page_after: usize,
    found_later: (usize, u8),
    pulls: ArrayVec<Pulled, 16>,
}

impl<'a, R: Wait> Link for PullLink<'a, R> {
    ghost use Rattle.std.specs.Prelude.{false, []};

    ghost tells = { false };

    ghost log = { λ l. [] };

    ghost failed = { λ l. 0 };

    fn send(&mut self, to: Addr, bytes: &[u8]) -> Result<(), LinkFault> {
        if bytes == &PULL_OF_B[..] && !self.pulls.is_full() {
            self.pulls.push((self.clock.milliseconds(), port_of(to)));
        }
        if self.pulls.len() == self.page_after {
            self.noted.page_heard.store(true, SeqCst);
        }
        let (pulls, count) = self.found_later;
        if self.pulls.len() == pulls {
            self.noted.resolved.tell(self.rt, &addresses(MOVED, count));
        }
        Ok(())
    }

    fn receive(
        &mut self,
        _buffer: &mut [u8; MAX_DATAGRAM],
        _limit_ms: u64,
    ) -> Result<Option<(Addr, usize)>, LinkFault> {
        Ok(None)
    }

    fn failures(&self) -> u64 {
        0
    }
}

/// How a loop ended and at which moment, and the first 16 Pulls that it handed over.
#[derive(Drop)]
pub struct Found {
    end: LoopEnd,
    over: u64,
    pulls: ArrayVec<Pulled, 16>,
}

/// Runs the loop with a pass over a link that shares this clock and this flag.
fn run_loop<'a, A: AgentName, R: Wait>(
    rt: &'a R,
    alloc: Global,
    pass: Pass<'_, A>,
    search: Search,
    clock: &'a MemoryClock,
    noted: &'a Noted,
) -> Ended<PullLink<'a, R>, A> {
    let stop = AtomicBool::new(false);
    let bound = search.bound.min(MAX_TURNS);
    let shared = shared(rt, alloc, clock, &stop, noted, bound, search.endless);
    let link = PullLink {
        rt,
        clock,
        noted,
        page_after: search.page_after,
        found_later: search.found_later,
        pulls: ArrayVec::new(),
    };
    NodeLoops::tick_loop(&shared, Side { pass, link }, search.dice, search.plan())
}

/// Lets the pass hear who has failed, and runs the loop with it.
fn run_pass<A: AgentName, R: Wait>(
    rt: &R,
    alloc: Global,
    pass: Pass<'_, A>,
    search: Search,
) -> (Found, Spent<A>) {
    let mut pass = pass;
    search.tell_failed(rt, alloc, &mut pass);
    let clock = MemoryClock::new(0);
    let noted = Noted::new(search.page_after == 0);
    if search.found > 0 {
        noted.resolved.tell(rt, &addresses(HOST, search.found));
    }
    let Ended { link, spent, end } = run_loop(rt, alloc, pass, search, &clock, &noted);
    let found = Found {
        end,
        over: clock.milliseconds(),
        pulls: link.pulls,
    };
    (found, spent)
}

/// Runs the loop with the last pass.
pub fn run_search<A: AgentName, R: Wait>(
    rt: &R,
    alloc: Global,
    passes: Vec<Pass<'_, A>>,
    search: Search,
    spents: Vec<Spent<A>>,
) -> Left<A, Shown> {
    let Some(pass) = last_pass(passes) else {
        return Left::nothing(spents);
    };
    let (found, spent) = run_pass(rt, alloc, pass, search);
    Left::with(spents, spent, Shown::Found(found))
}

/// What is found by an agent whose history a detector replays.
fn found_in(outcome: &Outcome<Shown>) -> Option<&Found> {
    if outcome.ending.fault.is_some() || outcome.ending.replayed != outcome.ending.entries {
        return None;
    }
    match &outcome.seen {
        Some(Shown::Found(found)) => Some(found),
        _ => None,
    }
}

/// Whether a loop runs until its time is over, and hands over these Pulls and no others.
pub(super) fn asks<R>(rt: &R, alloc: Global, search: Search, pulls: &[Pulled]) -> bool
where
    R: Threads + Wait + Files + rt::Clock + AllocGlobal + Clone + Sync + Drop,
    R::File: Send,
    R::Dir: Send,
{
    let Ok(outcome) = told(rt, alloc, search.case()) else {
        return false;
    };
    found_in(&outcome).is_some_and(|found| {
        found.end.why == Why::Stopped && found.pulls.as_slice() == pulls
    })
}

/// The word by which a loop that has heard a Page chooses a member at 1400, when it ends, and its Pulls. The members
/// are c, d and e, in this order, and these are its seeds too. At 700 and at 2100 it is the turn of a seed.
const CHOSEN: &[(u32, u64, &[Pulled])] = &[
    (0, 2101, &[(700, C), (1400, C), (2100, D)]),
    (0, 1400, &[(700, C)]),
    (1, 1401, &[(700, C), (1400, D)]),
    (2, 1401, &[(700, C), (1400, E)]),
    (4, 1401, &[(700, C), (1400, D)]),
];

#[test]
fn words_choose_members(rt: HostRuntime) {
    for &(word, until, pulls) in CHOSEN {
        let dice = SteppingDice { word, step: 0 };
        let search = Search {
            dice,
            until,
            ..ASKING
        };
        assert!(rt; asks(&rt, rt.alloc(), search, pulls), "{word}, {until}");
    }
}

/// The seeds c and d are asked after one second and after two.
const TWICE: &[Pulled] = &[(1000, C), (1000, D), (2000, C), (2000, D)];

/// How many seeds a loop has, how many of them have failed, after how many Pulls it hears a Page, when it ends, and its
/// Pulls.
const SEEDS: &[(u8, u8, usize, u64, &[Pulled])] = &[
    (2, 0, NEVER, 1000, &[]),
    (2, 0, NEVER, 2001, TWICE),
    (0, 0, NEVER, 4001, &[]),
    (2, 0, 0, 4001, &[]),
    (2, 0, 4, 4001, TWICE),
    // A seed that waits is asked all the same.
    (2, 0, 3, 4001, TWICE),
    // Both others have failed, and then only one.
    (2, 2, 0, 2001, TWICE),
    (2, 1, 0, 4001, &[]),
    // The Ping of c at 0 isn't answered. So c is suspected at 1000, before the look, and has failed 5000 ms later.
    (1, 0, 1, 7001, &[(1000, C), (6000, C), (7000, C)]),
];

#[test]
fn seeds_are_asked(rt: HostRuntime) {
    for &(others, failed, page_after, until, pulls) in SEEDS {
        let search = Search {
            others,
            failed,
            page_after,
            until,
            ..KNOWN
        };
        let met = asks(&rt, rt.alloc(), search, pulls);
        assert!(rt; met, "{others}, {failed}, {page_after}, {until}");
    }
}

/// Other loops, and their Pulls.
const OTHERS: &[(&str, Search, &[Pulled])] = &[
    (
        "never",
        Search {
            pull_ms: 0,
            ..ASKING
        },
        &[],
    ),
    (
        "nobody",
        Search {
            others: 0,
            ..ASKING
        },
        &[],
    ),
    // The record of a member that has failed has the port that was told then. A seed is asked where the file has it.
    (
        "one that has failed",
        Search {
            failed: 1,
            until: 1401,
            ..ASKING
        },
        &[(700, C), (1400, FAILED_C)],
    ),
    // Of the words 0, 1 and so on the tick at 0 takes the first.
    (
        "by the next words",
        Search {
            pull_ms: 100,
            dice: SteppingDice { word: 0, step: 1 },
            until: 401,
            ..KNOWN
        },
        &[(100, C), (200, D), (300, D), (400, E)],
    ),
    (
        "the first seed comes behind the last",
        Search {
            others: 2,
            pull_ms: 100,
            until: 501,
            ..KNOWN
        },
        &[(100, C), (200, C), (300, D), (400, C), (500, C)],
    ),
    (
        "each time twice as long after the one before",
        Search {
            pull_ms: 5000,
            until: 7001,
            ..KNOWN
        },
        &[(1000, C), (3000, C), (7000, D)],
    ),
    // A look is first. When it says that the seeds are to be asked, the times are counted from it.
    (
        "from a look",
        Search {
            pull_ms: 1000,
            page_after: NEVER,
            until: 1001,
            ..KNOWN
        },
        &[(1000, C), (1000, D), (1000, E)],
    ),
    (
        "soon behind a Page",
        Search {
            others: 2,
            pull_ms: 5000,
            page_after: 2,
            until: 4001,
            ..KNOWN
        },
        &[(1000, C), (1000, D), (2000, C), (4000, C)],
    ),
    // The turns are counted anew, and the moments go on.
    (
        "endless",
        Search {
            bound: 3,
            endless: true,
            ..ASKING
        },
        &[(700, C), (1400, C), (2100, D)],
    ),
];

#[test]
fn members_and_seeds_are_asked(rt: HostRuntime) {
    for &(name, search, pulls) in OTHERS {
        assert!(rt; asks(&rt, rt.alloc(), search, pulls), "{name}");
    }
}

/// Loops that know nobody. There is a tick at 0, and then each turn pauses 20 ms, the last one until the end. A loop is
/// given by its bound, whether it is endless, and its end time. Then come why it ends, how many turns are counted, and
/// at which moment.
const ENDS: &[(u64, bool, u64, Why, u64, u64)] = &[
    (MANY, false, 121, Why::Stopped, 8, 121),
    (3, false, 121, Why::ReadBound, 3, 40),
    (0, false, 121, Why::ReadBound, 0, 0),
    // Eight turns are two times three, and two more.
    (3, true, 121, Why::Stopped, 2, 121),
    // Nine turns are three times three, and none more.
    (3, true, 141, Why::Stopped, 0, 141),
];

/// Whether a loop ends so, at this moment.
fn ends<R>(rt: &R, alloc: Global, search: Search, end: LoopEnd, over: u64) -> bool
where
    R: Threads + Wait + Files + rt::Clock + AllocGlobal + Clone + Sync + Drop,
    R::File: Send,
    R::Dir: Send,
{
    let Ok(outcome) = told(rt, alloc, search.case()) else {
        return false;
    };
    found_in(&outcome).is_some_and(|found| found.end == end && found.over == over)
}

#[test]
fn an_endless_loop_goes_on(rt: HostRuntime) {
    for &(bound, endless, until, why, turns, over) in ENDS {
        let search = Search {
            others: 0,
            until,
            bound,
            endless,
            ..KNOWN
        };
        let end = LoopEnd {
            why,
            dropped: 0,
            unsent: 0,
            turns,
        };
        let met = ends(&rt, rt.alloc(), search, end, over);
        assert!(rt; met, "{bound}, {endless}, {until}");
    }
}
