//! Rotations that hand out what they cut off: by one pass, and by one of eight threads.
ghost use Rattle.std.specs.Prelude.{◌≡◌, ◌<◌, ◌≤◌};

use super::calls::Happens::{self, Ask, Health, Tick};
use super::calls::make_call_into;
use super::replaying::Replayed;
use crate::comparing::is_same_event;
use lg_agent::{Agent, AgentName, Closed, CutOff, Pass, Refusal, Spent};
use lg_agent_testing::{abandon, close, config, last_pass, open, room};
use lg_detector::{Event, Reply};
use lg_history::Entry;
use lg_testing::{at, letter};
use lg_view::UnnamedBook;
use std::alloc::Global;
use std::marker::Brand;
use std::sync::Wait;

/// Calls of one pass, and a rotation behind them: the base, the seats and the events of what it hands out.
type Row = (&'static [Happens], u64, &'static [(usize, Happens)]);

/// The calls of an agent with room for three entries. The third rotation finds nothing to cut off. The opening is
/// shown as a question for the health score at 0.
const ROWS: &[Row] = &[
    (
        &[Health(1), Tick(2, 0)],
        0,
        &[(0, Health(0)), (1, Health(1)), (1, Tick(2, 0))],
    ),
    (
        &[Ask(3), Tick(4, 0), Health(5)],
        3,
        &[(1, Ask(3)), (1, Tick(4, 0)), (1, Health(5))],
    ),
    (&[], 6, &[]),
    (&[Health(6)], 6, &[(1, Health(6))]),
];

/// Whether an event is the one that a call makes, or the opening where one is wanted.
fn is_event(event: &Event, happens: Happens) -> bool {
    let wanted = match happens {
        Tick(now, word) => Event::Tick {
            now: at(now),
            words: [word; 8],
        },
        Ask(now) => Event::Ask {
            now: at(now),
            name: letter(b'c'),
        },
        Health(0) => return matches!(event, Event::Open { .. }),
        Health(now) => Event::Health { now: at(now) },
        _ => return false,
    };
    is_same_event(event, &wanted)
}

/// Whether entries have these seats and events.
fn are_entries(entries: &[Entry], wanted: &[(usize, Happens)]) -> bool {
    let mut same = entries.len() == wanted.len();
    for (entry, (seat, happens)) in entries.iter().zip(wanted) {
        same = same && entry.seat() == *seat && is_event(&entry.event(), *happens);
    }
    same
}

/// Makes the calls of a row, and rotates. Whether what is handed out is that of the row. If the history is full, one
/// more call is refused before.
fn goes<A: AgentName, R: Wait>(
    rt: &R,
    alloc: Global,
    pass: &mut Pass<'_, A>,
    row: &Row,
    into: &mut CutOff,
) -> bool {
    let (calls, base, entries) = *row;
    let mut reply = Reply::default();
    for happens in calls {
        if make_call_into(rt, alloc, pass, *happens, &mut reply).is_err() {
            return false;
        }
    }
    if entries.len() == 3 {
        let refused = make_call_into(rt, alloc, pass, Health(9), &mut reply);
        if refused != Err(Refusal::HistoryFull(3)) {
            return false;
        }
    }
    let count = pass.rotate_into(rt, alloc, into);
    count == Ok(entries.len() as u64) && into.base() == base && are_entries(into.entries(), entries)
}

/// Makes all rows with one pass and one `CutOff`. How many entries a fresh detector has heard then, if all went as it
/// should.
fn cut_by_rows<A: AgentName, R: Wait>(
    rt: &R,
    alloc: Global,
    pass: &mut Pass<'_, A>,
) -> Option<u64> {
    let mut into = CutOff::new(alloc);
    let mut replayed = Replayed::fresh(alloc)?;
    for row in ROWS {
        if !goes(rt, alloc, pass, row, &mut into) {
            return None;
        }
        replayed.hear_next(alloc, &into);
    }
    replayed.count()
}

/// What is left of an agent.
fn closed<A: AgentName, R: Wait>(rt: &R, agent: Agent<A>, spents: Vec<Spent<A>>) -> Option<Closed> {
    match close(rt, agent, spents) {
        Ok(closed) => Some(closed),
        Err(unclosed) => {
            let _fault = abandon(rt, unclosed);
            None
        }
    }
}

/// How many entries a fresh detector has heard, how many the agent has, and how many of them were cut off.
type Counts = (Option<u64>, u64, u64);

/// Opens an agent of one place, makes all rows, and closes it.
fn rows_of<A: AgentName, R: Wait>(
    rt: &R,
    alloc: Global,
    book: UnnamedBook,
    places: usize,
) -> Option<Counts>
    requires book { book.seen.book ≡ A.book }
    requires places { (places ≡ A.places) × (places ≡ 1) }
{
    let mut agent = open::<A, R>(rt, alloc, book, config(3, 0), places).ok()?;
    let mut spents = room(alloc, places);
    let mut heard = None;
    if let Some(pass) = last_pass(agent.passes(alloc).unwrap_or(Vec::new(alloc))) {
        let mut pass = pass;
        heard = cut_by_rows(rt, alloc, &mut pass);
        let _refused = spents.push(pass.finish()).is_err();
    }
    let closed = closed(rt, agent, spents)?;
    Some((heard, closed.count(), closed.base()))
}

/// Rotations of one pass into one `CutOff`: what they hand out are all entries, with the replies of a fresh detector.
#[test]
fn hands_out_what_it_cuts_off(rt: HostRuntime) {
    let seen = rows_of::<Brand, _>(&rt, rt.alloc(), UnnamedBook::new(), 1);
    assert_eq!(rt; seen, Some((Some(7), 7, 7)));
}
