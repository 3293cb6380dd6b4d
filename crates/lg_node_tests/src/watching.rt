//! A watcher over an agent of b in memory, which is opened at 0 and forgets who is gone after one second. Another pass
//! of the agent hears packets of a, and ticks, during the pauses of the watcher's clock.
ghost use Rattle.std.specs.Prelude.{◌≡◌};

use arrayvec::ArrayVec;
use left_right::Absorb;
use lg_agent::{Agent, AgentName, Pass};
use lg_clock::Clock;
use lg_detector::Event;
use lg_follow::{News, RETRY_MS, Watched, watch};
use lg_packet::encode;
use lg_rules::Claim;
use lg_testing::{Room, alive, at, failed, letter, local, packet, ping, suspect};
use lg_timing::{Config, Moment};
use lg_view::{Published, UnnamedBook, Update};
use std::alloc::Global;
use std::marker::Brand;
use std::process::Abort;
use std::sync::atomic::Ordering::SeqCst;
use std::sync::atomic::{AtomicBool, AtomicU64, AtomicUsize};
use std::sync::{Mutex, MutexGuard, Wait};

/// What happens during a pause. A letter names the member that a claim is about, which b hears.
#[derive(Clone, Copy, Debug)]
enum Happens {
    /// It is alive, at an incarnation.
    Alive(u8, u32),
    /// It is alive, at each incarnation from 0 to this one.
    Rises(u8, u32),
    /// It is suspected, at an incarnation, by the member named by the second letter.
    Suspect(u8, u32, u8),
    /// It has failed, at an incarnation.
    Failed(u8, u32),
    /// So many milliseconds pass.
    Passes(u64),
    /// A tick.
    Tick,
    /// The stop flag is set.
    Stop,
}

use Happens::{Alive, Failed, Passes, Rises, Stop, Suspect, Tick};

/// What happens in each pause of a watcher, and what comes of it.
#[derive(Clone, Copy, Debug)]
struct Watching {
    /// Whether the stop flag is set from the start.
    stopped: bool,
    /// What happens in each pause. After the last of them the stop flag is set.
    pauses: &'static [&'static [Happens]],
    /// How many texts are written, the last line among them.
    texts: usize,
    /// All that is written.
    text: &'static str,
}

/// A clock that begins at 0 and goes on only by its pauses. What happens in a pause comes to the agent by a pass.
#[derive(Drop)]
struct PausingClock<'a, 'p, A: AgentName, R>
where
    Published<A>: Absorb<Update<A>, State = [Event; 0]>,
{
    rt: &'a R,
    alloc: Global,
    pass: Mutex<Pass<'p, A>>,
    stop: &'a AtomicBool,
    pauses: &'static [&'static [Happens]],
    /// How many pauses there were.
    made: AtomicUsize,
    now: AtomicU64,
}

/// Hears a claim in a packet of a.
fn hear<A: AgentName, R: Wait>(
    rt: &R,
    alloc: Global,
    pass: &mut Pass<'_, A>,
    now: Moment,
    claim: Claim,
) {
    let mut bytes = ArrayVec::new();
    encode(&packet(b'a', ping(1, b'b'), &[claim]), &mut bytes);
    let _ = pass.datagram(rt, alloc, now, local(7001), bytes.as_slice());
}

impl<'a, 'p, A: AgentName, R: Wait> PausingClock<'a, 'p, A, R> {
    /// These happen, in this order.
    fn happen_all(&self, happening: &[Happens]) {
        for happens in happening {
            self.happen(*happens);
        }
    }

    /// What happens.
    fn happen(&self, happens: Happens) {
        match happens {
            Alive(member, number) => self.hear(alive(member, number)),
            Rises(member, last) => {
                for number in 0..=last {
                    self.hear(alive(member, number));
                }
            }
            Suspect(member, number, accuser) => self.hear(suspect(member, number, accuser)),
            Failed(member, number) => self.hear(failed(member, number)),
            Passes(ms) => {
                self.now.fetch_add(ms, SeqCst);
            }
            Tick => self.tick(),
            Stop => self.stop.store(true, SeqCst),
        }
    }

    /// The agent hears a claim.
    fn hear(&self, claim: Claim) {
        let mut guard = self.pass.lock(self.rt);
        hear(self.rt, self.alloc, &mut guard, self.now(), claim);
        MutexGuard::unlock(guard);
    }

    /// The agent ticks.
    fn tick(&self) {
        let mut guard = self.pass.lock(self.rt);
        let _ = guard.tick(self.rt, self.alloc, self.now(), [0; 8]);
        MutexGuard::unlock(guard);
    }
}

impl<'a, 'p, A: AgentName, R: Wait> Clock for PausingClock<'a, 'p, A, R> {
    fn now(&self) -> Moment {
        at(self.now.load(SeqCst))
    }

    fn pause(&self, ms: u64) {
        self.now.fetch_add(ms, SeqCst);
        let made = self.made.fetch_add(1, SeqCst);
        match self.pauses.get(made) {
            Some(happening) => self.happen_all(happening),
            None => self.stop.store(true, SeqCst),
        }
    }

    fn stood_still(&self) -> u64 {
        150
    }
}

/// Its news are its pauses: between two looks of a watcher pass 50 milliseconds.
impl<'a, 'p, A: AgentName, R: Wait> News for PausingClock<'a, 'p, A, R> {
    fn wait(&self, _most_ms: Option<u64>) {
        self.pause(50);
    }
}

/// What came of a watcher.
#[derive(Drop)]
struct Outcome {
    watched: Watched,
    writer: Room,
}

/// Watches with one pass, while the other hears what happens.
fn watch_with<'p, A: AgentName, R: Wait>(
    rt: &R,
    alloc: Global,
    passes: Vec<Pass<'p, A>>,
    watching: &Watching,
    fails_at: usize,
) -> Option<Outcome> {
    let mut passes = passes;
    let hearer = passes.pop()?;
    let mut watcher = passes.pop()?;
    let stop = AtomicBool::new(watching.stopped);
    let clock = PausingClock {
        rt,
        alloc,
        pass: Mutex::new(hearer),
        stop: &stop,
        pauses: watching.pauses,
        made: AtomicUsize::new(0),
        now: AtomicU64::new(0),
    };
    let mut writer = Room::failing(fails_at);
    let watched = watch(alloc, &clock, &clock, &stop, &mut watcher, &mut writer);
    Some(Outcome { watched, writer })
}

/// Opens an agent of two places, and watches it. There is no outcome if memory for the agent or its passes was refused.
fn run_in<A: AgentName, R: Wait>(
    rt: &R,
    alloc: Global,
    book: UnnamedBook,
    places: usize,
    watching: &Watching,
    fails_at: usize,
) -> Option<Outcome>
    requires book { book.seen.book ≡ A.book }
    requires places { (places ≡ A.places) × (places ≡ 2) }
{
    let mut config = Config::new(letter(b'b'), local(7000));
    config.forget_ms = 1000;
    config.check().ok()?;
    let mut agent = Agent::<A>::open(rt, alloc, book, at(0), config, places).ok()?;
    let outcome = match agent.passes(alloc) {
        Ok(passes) => watch_with(rt, alloc, passes, watching, fails_at),
        Err(_) => None,
    };
    agent.abandon(rt);
    outcome
}

/// Watches an agent, over a writer whose call with this number fails, counted from 1, or none if it is 0.
fn run<R: Wait>(rt: &R, alloc: Global, watching: &Watching, fails_at: usize) -> Option<Outcome> {
    run_in::<Brand, R>(rt, alloc, UnnamedBook::new(), 2, watching, fails_at)
}

/// One that is told to stop before its first look. A new member, which is suspected and fails. Two changes of a member
/// between two looks, both told: it is suspected and fails, or is suspected and refutes it. Packets that change
/// nothing, after which nothing is written. Two new members, told in the order in which they came. A change and the
/// stop in one pause. A member that failed and is forgotten one second later, or is forgotten and known again between
/// two looks: of the two ticks the first starts a round.
const ROWS: [Watching; 9] = [
    Watching {
        stopped: true,
        pauses: &[&[Alive(b'c', 0)]],
        texts: 2,
        text: "0 record b alive 0 127.0.0.1:7000\n0 stood-still 150\n",
    },
    Watching {
        stopped: false,
        pauses: &[
            &[Alive(b'c', 0)],
            &[],
            &[Suspect(b'c', 0, b'a')],
            &[Failed(b'c', 0)],
        ],
        texts: 5,
        text: "0 record b alive 0 127.0.0.1:7000\n50 record c alive 0 127.0.0.1:7000\n\
            150 record c suspect 0 127.0.0.1:7000 by a\n200 record c failed 0 127.0.0.1:7000\n\
            250 stood-still 150\n",
    },
    Watching {
        stopped: false,
        pauses: &[
            &[Alive(b'c', 0)],
            &[Suspect(b'c', 0, b'a'), Failed(b'c', 0)],
        ],
        texts: 4,
        text: "0 record b alive 0 127.0.0.1:7000\n50 record c alive 0 127.0.0.1:7000\n\
            100 record c suspect 0 127.0.0.1:7000 by a\n100 record c failed 0 127.0.0.1:7000\n\
            150 stood-still 150\n",
    },
    Watching {
        stopped: false,
        pauses: &[&[Alive(b'c', 0)], &[Suspect(b'c', 0, b'a'), Alive(b'c', 1)]],
        texts: 4,
        text: "0 record b alive 0 127.0.0.1:7000\n50 record c alive 0 127.0.0.1:7000\n\
            100 record c suspect 0 127.0.0.1:7000 by a\n100 record c alive 1 127.0.0.1:7000\n\
            150 stood-still 150\n",
    },
    Watching {
        stopped: false,
        pauses: &[&[Alive(b'c', 1)], &[Alive(b'c', 1)], &[Alive(b'c', 0)]],
        texts: 3,
        text: "0 record b alive 0 127.0.0.1:7000\n50 record c alive 1 127.0.0.1:7000\n200 stood-still 150\n",
    },
    Watching {
        stopped: false,
        pauses: &[&[Alive(b'c', 7), Alive(b'a', 2)]],
        texts: 3,
        text: "0 record b alive 0 127.0.0.1:7000\n50 record c alive 7 127.0.0.1:7000\n\
            50 record a alive 2 127.0.0.1:7000\n100 stood-still 150\n",
    },
    Watching {
        stopped: false,
        pauses: &[&[], &[Alive(b'c', 0), Stop], &[Failed(b'c', 0)]],
        texts: 3,
        text: "0 record b alive 0 127.0.0.1:7000\n100 record c alive 0 127.0.0.1:7000\n100 stood-still 150\n",
    },
    Watching {
        stopped: false,
        pauses: &[
            &[Alive(b'c', 0)],
            &[Failed(b'c', 0)],
            &[Passes(1000), Tick, Tick],
        ],
        texts: 5,
        text: "0 record b alive 0 127.0.0.1:7000\n50 record c alive 0 127.0.0.1:7000\n\
            100 record c failed 0 127.0.0.1:7000\n1150 forgotten c\n1200 stood-still 150\n",
    },
    Watching {
        stopped: false,
        pauses: &[
            &[Alive(b'c', 0)],
            &[Failed(b'c', 0)],
            &[Passes(1000), Tick, Tick, Alive(b'c', 0)],
        ],
        texts: 5,
        text: "0 record b alive 0 127.0.0.1:7000\n50 record c alive 0 127.0.0.1:7000\n\
            100 record c failed 0 127.0.0.1:7000\n1150 forgotten c\n\
            1150 record c alive 0 127.0.0.1:7000\n1200 stood-still 150\n",
    },
];

/// Each change is told, byte for byte. Each text is written in one go, one byte a call, and then flushed.
#[test]
fn tells_each_change(rt: HostRuntime) {
    for row in ROWS {
        let met = run(&rt, rt.alloc(), &row, 0).is_some_and(|outcome| has_told(
            &outcome, row.text, row.texts,
        ));
        assert!(rt; met && RETRY_MS == 50, "{row:?}");
    }
}

/// One change more than are kept between two looks, 1,025: the first of them isn't told any more.
const MISSED: Watching = Watching {
    stopped: false,
    pauses: &[&[], &[Rises(b'c', 1024)]],
    texts: 3,
    text: "0 record b alive 0 127.0.0.1:7000\n100 missed\n100 record b alive 0 127.0.0.1:7000\n\
        100 record c alive 1024 127.0.0.1:7000\n150 stood-still 150\n",
};

/// A watcher that missed a change says so, and tells all records.
#[test]
fn says_that_it_missed_changes(rt: HostRuntime) {
    let met = run(&rt, rt.alloc(), &MISSED, 0).is_some_and(|outcome| has_told(
        &outcome,
        MISSED.text,
        MISSED.texts,
    ));
    assert!(rt; met, "{MISSED:?}");
}

/// Whether a watcher ended at the call that fails, with a beginning of its text written.
fn ends_at(outcome: &Outcome, text: &str, call: usize) -> bool {
    outcome.watched == Watched::WriterFailed
        && outcome.writer.calls == call
        && outcome.writer.len <= text.len()
        && outcome.writer.has(&text.as_bytes()[..outcome.writer.len])
}

/// Runs a row in which each call of the writer fails in turn.
fn check_failing_calls(rt: &(impl Abort + Wait + AllocGlobal), row: &Watching) {
    for call in 0..row.text.len().saturating_add(row.texts) {
        let met = run(rt, rt.alloc(), row, call + 1).is_some_and(|outcome| ends_at(
            &outcome,
            row.text,
            call + 1,
        ));
        assert!(rt; met, "{row:?}, behind {call} calls");
    }
}

/// A watcher whose writer fails, also at a flush, ends there and makes no further call.
#[test]
fn ends_where_the_writer_fails(rt: HostRuntime) {
    for row in ROWS {
        check_failing_calls(&rt, &row);
    }
}

/// Whether a watcher wrote this text, and in so many pieces.
fn has_told(outcome: &Outcome, text: &str, texts: usize) -> bool {
    outcome.watched == Watched::Told
        && outcome.writer.has(text.as_bytes())
        && outcome.writer.calls == text.len().saturating_add(texts)
}
