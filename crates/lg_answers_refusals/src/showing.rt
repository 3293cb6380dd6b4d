//! What a node shows over HTTP, from looks at an agent of b in memory, while memory is refused once. Another pass hears
//! packets.
ghost use Rattle.std.specs.Prelude.{◌≡◌};

use Step::{Alive, Fails, Gets, Shows, Suspect, Tells, Tick};
use arrayvec::ArrayVec;
use lg_agent::{Agent, AgentName, Pass};
use lg_answers::ShownConfig;
use lg_clock::Clock;
use lg_counters::Counters;
use lg_http::Site;
use lg_packet::encode;
use lg_rules::Claim;
use lg_status_server::{NodeSite, SiteBasis};
use lg_testing::{alive, at, failed, letter, local, packet, ping, suspect};
use lg_timing::{Config, Moment};
use lg_view::UnnamedBook;
use std::alloc::Global;
use std::fs::Files;
use std::marker::Brand;
use std::str;
use std::sync::Wait;
use std::sync::atomic::Ordering::SeqCst;
use std::sync::atomic::{AtomicBool, AtomicU64};

/// What is done with a site and an agent, in order.
#[derive(Clone, Copy)]
enum Step<'a> {
    /// b hears in a Ping of a, at this moment, that the member named by a letter is alive.
    Alive(u64, u8),
    /// The same that it is suspected by a.
    Suspect(u64, u8),
    /// The same that it has failed.
    Fails(u64, u8),
    /// b ticks at this moment.
    Tick(u64),
    /// The site looks at this moment, and the newest change that it shows has this version.
    Shows(u64, u64),
    /// A request for this path and query is answered by this body.
    Gets(&'a str, Option<&'a str>, &'a str),
    /// The body that answers a request for this path has this text in it.
    Tells(&'a str, &'a str),
}

/// A clock that somebody sets.
#[derive(Drop)]
struct SetClock {
    now: AtomicU64,
}

impl Clock for SetClock {
    fn now(&self) -> Moment {
        at(self.now.load(SeqCst))
    }

    fn pause(&self, _ms: u64) {}
}

/// b hears in a Ping of a what is claimed of a member.
fn hears<A: AgentName, R: Wait>(
    rt: &R,
    alloc: Global,
    pass: &mut Pass<'_, A>,
    now: u64,
    claim: Claim,
) -> bool {
    let mut bytes = ArrayVec::new();
    encode(&packet(b'a', ping(1, b'b'), &[claim]), &mut bytes);
    pass.datagram(rt, alloc, at(now), local(7001), bytes.as_slice())
        .is_ok()
}

/// Does a step with the agent. Returns whether it went well, or none if the step is for the site.
fn happens<A: AgentName, R: Wait>(
    rt: &R,
    alloc: Global,
    pass: &mut Pass<'_, A>,
    step: Step<'_>,
) -> Option<bool> {
    match step {
        Alive(now, member) => Some(hears(rt, alloc, pass, now, alive(member, 0))),
        Suspect(now, member) => Some(hears(rt, alloc, pass, now, suspect(member, 0, b'a'))),
        Fails(now, member) => Some(hears(rt, alloc, pass, now, failed(member, 0))),
        Tick(now) => Some(pass.tick(rt, alloc, at(now), [0; 8]).is_ok()),
        Shows(..) | Gets(..) | Tells(..) => None,
    }
}

/// Whether the body of an answer is this text, or has it in it.
fn answers<S: Site>(
    alloc: Global,
    site: &S,
    path: &str,
    query: Option<&str>,
    text: &str,
    is_whole: bool,
) -> bool {
    let Ok(answer) = site.answer(alloc, path.as_bytes(), query.map(str::as_bytes)) else {
        return false;
    };
    match str::from_utf8(answer.body.as_slice()) {
        Ok(body) if is_whole => body == text,
        Ok(body) => body.contains(text),
        Err(_) => false,
    }
}

/// Whether the site does what a step says.
fn shows<S: Site>(alloc: Global, clock: &SetClock, site: &mut S, step: Step<'_>) -> bool {
    match step {
        Shows(now, version) => {
            clock.now.store(now, SeqCst);
            site.refresh() == version
        }
        Gets(path, query, body) => answers(alloc, site, path, query, body, true),
        Tells(path, text) => answers(alloc, site, path, None, text, false),
        _ => false,
    }
}

/// Does the steps with a pass and a site. One that went otherwise is done once more. Returns the index of the first
/// that went otherwise again.
fn first_unmet<A: AgentName, S: Site, R: Wait>(
    rt: &R,
    alloc: Global,
    clock: &SetClock,
    pass: &mut Pass<'_, A>,
    site: &mut S,
    steps: &[Step<'_>],
) -> Option<usize> {
    for (index, step) in steps.iter().enumerate() {
        let met = match happens(rt, alloc, pass, *step) {
            None => shows(alloc, clock, site, *step) || shows(alloc, clock, site, *step),
            Some(false) => happens(rt, alloc, pass, *step) == Some(true),
            Some(true) => true,
        };
        if !met {
            return Some(index);
        }
    }
    None
}

/// What a site that nobody may see from elsewhere shows, of a node that doesn't record.
fn basis_of<'n, R>(
    rt: &'n R,
    alloc: Global,
    clock: &'n SetClock,
    counters: &'n Counters,
    stop: &'n AtomicBool,
    config: ShownConfig,
) -> SiteBasis<'n, SetClock, R> {
    SiteBasis {
        rt,
        alloc,
        clock,
        counters,
        config,
        stop,
        leave: true,
        folder: None,
    }
}

/// Does the steps with two passes of an agent: one that hears, and one that the site looks with. There is no outcome if
/// memory was refused.
fn play_with<A: AgentName, R: Wait + Files + AllocGlobal + Clone + Drop>(
    rt: &R,
    alloc: Global,
    passes: Vec<Pass<'_, A>>,
    config: &Config,
    steps: &[Step<'_>],
) -> Option<Option<usize>> {
    let mut passes = passes;
    let mut hearer = passes.pop()?;
    let clock = SetClock {
        now: AtomicU64::new(0),
    };
    let counters = Counters::new(letter(b'b'), at(0));
    let config = ShownConfig {
        config: config.copy(),
        numbers: Vec::new(alloc),
        status: Some(local(8946)),
        status_open: true,
        leave: true,
        bind: local(7000),
        seeds: ArrayVec::new(),
    };
    let stop = AtomicBool::new(false);
    let basis = basis_of(rt, alloc, &clock, &counters, &stop, config);
    let mut site = NodeSite::new(passes.pop()?, basis).ok()?;
    Some(first_unmet(rt, alloc, &clock, &mut hearer, &mut site, steps))
}

/// Opens an agent of two places, which forgets a member a second after it is gone, and does the steps with it.
fn play_in<A: AgentName, R: Wait + Files + AllocGlobal + Clone + Drop>(
    rt: &R,
    alloc: Global,
    book: UnnamedBook,
    places: usize,
    steps: &[Step<'_>],
) -> Option<Option<usize>>
    requires book { book.seen.book ≡ A.book }
    requires places { (places ≡ A.places) × (places ≡ 2) }
{
    let mut config = Config::new(letter(b'b'), local(7000));
    config.forget_ms = 1000;
    config.check().ok()?;
    let mut agent = Agent::<A>::open(rt, alloc, book, at(0), config.copy(), places).ok()?;
    let outcome = match agent.passes(alloc) {
        Ok(passes) => play_with(rt, alloc, passes, &config, steps),
        Err(_) => None,
    };
    agent.abandon(rt);
    outcome
}

/// Does the steps with an agent of its own.
fn play<R: Wait + Files + AllocGlobal + Clone + Drop>(
    rt: &R,
    alloc: Global,
    steps: &[Step<'_>],
) -> Option<Option<usize>> {
    play_in::<Brand, R>(rt, alloc, UnnamedBook::new(), 2, steps)
}

/// The steps of a case, and what they show.
const CASES: &[(&str, &[Step])] = &[
    (
        "b alone, and what was shown stays until the next look",
        &[
            Shows(7, 1),
            Gets(
                "/v1/members",
                None,
                "{\"version\":1,\"moment_ms\":7,\"name\":\"b\",\"members\":[{\"name\":\"b\",\"status\":\"alive\",\
                 \"incarnation\":0,\"address\":\"127.0.0.1\",\"port\":7000,\"accuser\":null}]}",
            ),
            Alive(20, b'c'),
            Gets(
                "/v1/members/c",
                None,
                "{\"error\":\"no member of this name is known\"}",
            ),
            Shows(25, 2),
            Gets(
                "/v1/changes",
                Some("after=1&wait_ms=0"),
                "{\"version\":2,\"missed\":false,\"changes\":[{\"version\":2,\"moment_ms\":20,\"name\":\"c\",\
                 \"status\":\"alive\",\"incarnation\":0,\"address\":\"127.0.0.1\",\"port\":7000,\"accuser\":null}]}",
            ),
            Tells("/v1/config", "\"status\":\"127.0.0.1:8946\""),
        ],
    ),
    (
        "each look shows what happened since the one before",
        &[
            Shows(7, 1),
            Alive(20, b'c'),
            Shows(25, 2),
            Suspect(40, b'c'),
            Shows(45, 3),
            Gets(
                "/v1/members/c",
                None,
                "{\"version\":3,\"name\":\"c\",\"status\":\"suspect\",\"incarnation\":0,\"address\":\"127.0.0.1\",\
                 \"port\":7000,\"accuser\":\"a\"}",
            ),
        ],
    ),
    (
        "a member that has failed is forgotten a second later, by the second tick: the first one starts a round",
        &[
            Alive(20, b'c'),
            Fails(30, b'c'),
            Tick(1030),
            Shows(1031, 3),
            Tells("/metrics", "\nlg_members{status=\"failed\"} 1\n"),
            Tick(1032),
            Shows(1035, 5),
            Gets(
                "/v1/changes",
                Some("after=3&wait_ms=0"),
                "{\"version\":5,\"missed\":false,\"changes\":[{\"version\":5,\"moment_ms\":1032,\"name\":\"c\",\
                 \"status\":\"forgotten\",\"incarnation\":null,\"address\":null,\"port\":null,\
                 \"accuser\":null}]}",
            ),
        ],
    ),
];

/// If any one allocation is refused, an event, a look or an answer comes the next time as it should have come.
#[test]
fn shows_after_refused_memory(rt: HostRuntime) {
    for (case, steps) in CASES {
        let unmet = match play(&rt, rt.alloc(), steps) {
            None => play(&rt, rt.alloc(), steps),
            unmet => unmet,
        };
        assert!(rt; unmet == Some(None), "{case}: step {unmet:?}");
    }
}
