//! What a source takes from a pass is spelled, and read back as what the pass was replied.
ghost use Rattle.std.specs.Prelude.{◌≡◌};

use lg_agent::{AgentName, Pass, Spent};
use lg_agent_testing::{abandon, close, config, last_pass, open, room};
use lg_batches::{EntrySource, Subject};
use lg_clock::Clock;
use lg_detector::{Answer, Event, Standing};
use lg_heads::{Before, read_head};
use lg_recorder::{Batch, BatchSource};
use lg_recording::{Entries, Recorded, read_start};
use lg_rules::{Incarnation, Status};
use lg_testing::{at, letter, local};
use lg_timing::{Config, Moment};
use lg_view::UnnamedBook;
use std::alloc::Global;
use std::marker::Brand;
use std::rt;
use std::sync::Wait;
use std::sync::atomic::AtomicU64;
use std::sync::atomic::Ordering::SeqCst;

/// The bytes of a configuration file, and the version of a program.
const TEXT: &[u8] = b"name = \"b\"\n";

const PROGRAM: &[u8] = b"0.9.0";

/// A clock at which it is always 7, and which has left out as many milliseconds as it is told.
#[derive(Drop)]
struct Seven {
    left_out_ms: AtomicU64,
}

impl Clock for Seven {
    fn now(&self) -> Moment {
        at(7)
    }

    fn pause(&self, _ms: u64) {}

    fn stood_still(&self) -> u64 {
        self.left_out_ms.load(SeqCst)
    }
}

/// What is told of an entry: its seat, its moment, how many members it answers, and for how many milliseconds the clock
/// stood still.
type EntryTold = (usize, u64, u64, u64);

/// What a file says before its entries, and what each entry is.
#[derive(Clone, Copy, Debug, PartialEq, Eq)]
struct Told {
    first: u64,
    known: Option<(Standing, u64)>,
    entries: [Option<EntryTold>; 3],
}

/// What is told of an entry. It answers members if it is a question for the health score.
fn entry_told(recorded: &Recorded) -> EntryTold {
    let moment = match &recorded.event {
        Event::Open { now, .. } => now.milliseconds(),
        Event::Health { now } => now.milliseconds(),
        _ => 999,
    };
    let members = match &recorded.reply.answer {
        Some(Answer::Health { members, .. }) => *members,
        _ => 0,
    };
    (recorded.seat, moment, members, recorded.stood_still_ms)
}

/// What was known before, if it is of a table with b alone.
fn before_told(before: &Option<Before>) -> Option<(Standing, u64)> {
    let before = before.as_ref()?;
    let record = before.table.first()?;
    if record.name != letter(b'b') || record.addr != local(7000) || record.status != Status::Alive {
        return None;
    }
    Some((before.standing, before.table.len() as u64))
}

/// The bytes of a file that begins with what a source took last. None if memory was refused.
fn file_of<B: Batch>(alloc: Global, source: &B) -> Option<Vec<u8>> {
    let mut text = Vec::new(alloc);
    source.put_head(&mut text).ok()?;
    let mut buffers = source.buffers();
    for index in 0..source.len() {
        source.put_entry(index, &mut buffers, &mut text).ok()?;
    }
    Some(text)
}

/// What such a file tells of b. None if it tells something else, or can't be read.
fn told_in(alloc: Global, bytes: &[u8]) -> Option<Told> {
    let (body, rest) = read_start(bytes).ok()?;
    let head = read_head(alloc, body).ok()?;
    if head.name != letter(b'b')
        || head.text != TEXT
        || head.program != PROGRAM
        || head.now != at(7)
    {
        return None;
    }
    let mut told = Told {
        first: head.first,
        known: before_told(&head.before),
        entries: [None; 3],
    };
    let mut entries = Entries { rest };
    for place in &mut told.entries {
        match entries.next_entry() {
            Some(Ok(recorded)) => *place = Some(entry_told(&recorded)),
            Some(Err(_)) => return None,
            None => {}
        }
    }
    Some(told)
}

/// Asks twice for the health score and takes that; asks once more and takes that; takes what is there then; and asks a
/// last time and takes that. Before each of these the clock has left out more.
fn taken<A: AgentName, R: Wait + rt::Clock>(
    rt: &R,
    alloc: Global,
    config: &Config,
    pass: &mut Pass<'_, A>,
) -> Option<[Told; 4]> {
    let subject = Subject {
        config,
        text: TEXT,
        program: PROGRAM,
    };
    let clock = Seven {
        left_out_ms: AtomicU64::new(0),
    };
    let mut source = EntrySource::new(rt, alloc, &clock, subject);
    pass.health(rt, alloc, at(1)).ok()?;
    pass.health(rt, alloc, at(2)).ok()?;
    clock.left_out_ms.store(100, SeqCst);
    source.take(pass);
    let first = told_in(alloc, file_of(alloc, &source)?.as_slice())?;
    pass.health(rt, alloc, at(3)).ok()?;
    clock.left_out_ms.store(250, SeqCst);
    source.take(pass);
    let second = told_in(alloc, file_of(alloc, &source)?.as_slice())?;
    clock.left_out_ms.store(300, SeqCst);
    source.take(pass);
    let third = told_in(alloc, file_of(alloc, &source)?.as_slice())?;
    pass.health(rt, alloc, at(4)).ok()?;
    clock.left_out_ms.store(330, SeqCst);
    source.take(pass);
    let fourth = told_in(alloc, file_of(alloc, &source)?.as_slice())?;
    Some([first, second, third, fourth])
}

/// Opens an agent of one place, and has its pass taken from.
fn taken_of<A: AgentName, R: Wait + rt::Clock>(
    rt: &R,
    alloc: Global,
    book: UnnamedBook,
    places: usize,
) -> Option<[Told; 4]>
    requires book { book.seen.book ≡ A.book }
    requires places { (places ≡ A.places) × (places ≡ 1) }
{
    let own = config(10, 0);
    let mut agent = open::<A, R>(rt, alloc, book, config(10, 0), places).ok()?;
    let mut spents: Vec<Spent<A>> = room(alloc, places);
    let mut told = None;
    if let Some(pass) = last_pass(agent.passes(alloc).unwrap_or(Vec::new(alloc))) {
        let mut pass = pass;
        told = taken(rt, alloc, &own, &mut pass);
        let _refused = spents.push(pass.finish()).is_err();
    }
    if let Err(unclosed) = close(rt, agent, spents) {
        let _fault = abandon(rt, unclosed);
    }
    told
}

/// Files of four batches: those behind the first begin behind entries, and say what was known then. The first entry of
/// each has for how long the clock stood still since the batch before, and that of the fourth since the second, as the
/// third has no entries.
#[test]
fn batches_are_read_back(rt: HostRuntime) {
    let told = taken_of::<Brand, _>(&rt, rt.alloc(), UnnamedBook::new(), 1);
    let fresh = Standing {
        score: 0,
        number: Incarnation::new(0).unwrap_or_default(),
        ousted: false,
    };
    let want = [
        Told {
            first: 0,
            known: None,
            entries: [Some((0, 0, 0, 100)), Some((1, 1, 1, 0)), Some((1, 2, 1, 0))],
        },
        Told {
            first: 3,
            known: Some((fresh, 1)),
            entries: [Some((1, 3, 1, 150)), None, None],
        },
        Told {
            first: 4,
            known: Some((fresh, 1)),
            entries: [None, None, None],
        },
        Told {
            first: 4,
            known: Some((fresh, 1)),
            entries: [Some((1, 4, 1, 80)), None, None],
        },
    ];
    assert_eq!(rt; told, Some(want));
}
