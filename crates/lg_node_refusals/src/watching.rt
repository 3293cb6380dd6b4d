//! A watcher over an agent of b in memory, while memory is refused once. Another pass of the agent hears packets of a
//! during the pauses of the watcher's clock.
ghost use Rattle.std.specs.Prelude.{◌≡◌};

use arrayvec::ArrayVec;
use left_right::Absorb;
use lg_agent::{Agent, AgentName, Pass};
use lg_clock::Clock;
use lg_detector::Event;
use lg_follow::{News, Watched, watch};
use lg_packet::encode;
use lg_rules::Claim;
use lg_testing::{Room, alive, at, letter, local, packet, ping, suspect};
use lg_timing::{Config, Moment};
use lg_view::{Published, UnnamedBook, Update};
use std::alloc::Global;
use std::marker::Brand;
use std::sync::atomic::Ordering::SeqCst;
use std::sync::atomic::{AtomicBool, AtomicU64};
use std::sync::{Mutex, MutexGuard, Wait};

/// A clock that begins at 0 and goes on only by its pauses. In the first the agent hears that c is alive, in the third
/// that it is suspected, and in the fifth the watcher is told to stop.
#[derive(Drop)]
struct PausingClock<'a, 'p, A: AgentName, R>
where
    Published<A>: Absorb<Update<A>, State = [Event; 0]>,
{
    rt: &'a R,
    alloc: Global,
    pass: Mutex<Pass<'p, A>>,
    stop: &'a AtomicBool,
    /// How many pauses there were.
    made: AtomicU64,
    now: AtomicU64,
}

/// Hears a claim in a packet of a. If memory is refused, it is heard once more.
fn hear<A: AgentName, R: Wait>(
    rt: &R,
    alloc: Global,
    pass: &mut Pass<'_, A>,
    now: Moment,
    claim: Claim,
) {
    let mut bytes = ArrayVec::new();
    encode(&packet(b'a', ping(1, b'b'), &[claim]), &mut bytes);
    for _ in 0..2 {
        let heard = pass.datagram(rt, alloc, now, local(7001), bytes.as_slice());
        if heard.is_ok() {
            return;
        }
    }
}

impl<'a, 'p, A: AgentName, R: Wait> PausingClock<'a, 'p, A, R> {
    /// The agent hears a claim.
    fn hear(&self, claim: Claim) {
        let mut guard = self.pass.lock(self.rt);
        hear(self.rt, self.alloc, &mut guard, self.now(), claim);
        MutexGuard::unlock(guard);
    }
}

impl<'a, 'p, A: AgentName, R: Wait> Clock for PausingClock<'a, 'p, A, R> {
    fn now(&self) -> Moment {
        at(self.now.load(SeqCst))
    }

    fn pause(&self, ms: u64) {
        self.now.fetch_add(ms, SeqCst);
        match self.made.fetch_add(1, SeqCst) {
            0 => self.hear(alive(b'c', 0)),
            2 => self.hear(suspect(b'c', 0, b'a')),
            1 | 3 => {}
            _ => self.stop.store(true, SeqCst),
        }
    }

    fn stood_still(&self) -> u64 {
        150
    }
}

/// Its news are its pauses: between two looks of a watcher pass 50 milliseconds.
impl<'a, 'p, A: AgentName, R: Wait> News for PausingClock<'a, 'p, A, R> {
    fn wait(&self, _most_ms: Option<u64>) {
        self.pause(50);
    }
}

/// Watches with one pass, while the other hears what happens. Returns how the watcher ended, and what it wrote.
fn watch_with<'p, A: AgentName, R: Wait>(
    rt: &R,
    alloc: Global,
    passes: Vec<Pass<'p, A>>,
) -> Option<(Watched, Room)> {
    let mut passes = passes;
    let hearer = passes.pop()?;
    let mut watcher = passes.pop()?;
    let stop = AtomicBool::new(false);
    let clock = PausingClock {
        rt,
        alloc,
        pass: Mutex::new(hearer),
        stop: &stop,
        made: AtomicU64::new(0),
        now: AtomicU64::new(0),
    };
    let mut writer = Room::failing(0);
    let watched = watch(alloc, &clock, &clock, &stop, &mut watcher, &mut writer);
    Some((watched, writer))
}

/// Opens an agent of two places, and watches it. There is no outcome if memory for the agent or its passes was refused.
fn run_in<A: AgentName, R: Wait>(
    rt: &R,
    alloc: Global,
    book: UnnamedBook,
    places: usize,
) -> Option<(Watched, Room)>
    requires book { book.seen.book ≡ A.book }
    requires places { (places ≡ A.places) × (places ≡ 2) }
{
    let config = Config::new(letter(b'b'), local(7000));
    config.check().ok()?;
    let mut agent = Agent::<A>::open(rt, alloc, book, at(0), config, places).ok()?;
    let outcome = match agent.passes(alloc) {
        Ok(passes) => watch_with(rt, alloc, passes),
        Err(_) => None,
    };
    agent.abandon(rt);
    outcome
}

/// Watches an agent.
fn run<R: Wait>(rt: &R, alloc: Global) -> Option<(Watched, Room)> {
    run_in::<Brand, R>(rt, alloc, UnnamedBook::new(), 2)
}

/// What is told if memory is refused to no look, or to the one that would have told of c or of the suspicion: what
/// isn't told in one turn is told in the next, with the moment of its change. And what is told if memory is refused to
/// the look that would have told of b: the first look that is told then finds c as well, and the moment of its packet.
/// Each with the number of texts, so that c and the suspicion are told in turns of their own.
const PUT_OFF: [(&str, usize); 2] = [
    (
        "0 record b alive 0 127.0.0.1:7000\n50 record c alive 0 127.0.0.1:7000\n\
            150 record c suspect 0 127.0.0.1:7000 by a\n250 stood-still 150\n",
        4,
    ),
    (
        "50 record b alive 0 127.0.0.1:7000\n50 record c alive 0 127.0.0.1:7000\n\
            150 record c suspect 0 127.0.0.1:7000 by a\n250 stood-still 150\n",
        3,
    ),
];

/// If any one allocation is refused, no line is lost: it is told in the turn after that. Each text is written in one
/// go, one byte a call, and then flushed.
#[test]
fn tells_later_after_refused_memory(rt: HostRuntime) {
    let outcome = match run(&rt, rt.alloc()) {
        None => run(&rt, rt.alloc()),
        outcome => outcome,
    };
    let met = outcome.is_some_and(|(watched, writer)| {
        watched == Watched::Told
            && PUT_OFF.iter().any(|(text, texts)| {
                writer.has(text.as_bytes()) && writer.calls == text.len().saturating_add(*texts)
            })
    });
    assert!(rt; met);
}
