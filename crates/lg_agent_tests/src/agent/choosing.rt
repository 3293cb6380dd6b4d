//! Whom the rounds of an agent chose, by the history that is left of it. b knows c, d and e. Each word picks one of
//! those that its round hasn't chosen yet, in the order of names. So 4 picks the second of three, 0 the first of two,
//! and 5 the one that is left.
ghost use Rattle.std.specs.Prelude.{◌≡◌};

use super::calls::Happens::{self, Datagram, Tick};
use super::calls::{Heard, make_call};
use lg_agent::{Agent, AgentName, Closed, Pass, Refusal, Spent};
use lg_agent_testing::{abandon, close, config, last_pass, open};
use lg_testing::letter;
use lg_view::UnnamedBook;
use std::alloc::Global;
use std::marker::Brand;
use std::sync::Wait;

/// Three rounds, which start at the positions 1, 4 and 7. The ticks between end a round.
const CALLS: &[Happens] = &[
    Tick(0, 4),
    Datagram(10, Heard::Ack(b'd', 1)),
    Tick(1000, 0),
    Tick(1000, 0),
    Datagram(1010, Heard::Ack(b'c', 2)),
    Tick(2000, 0),
    Tick(2000, 5),
];

/// A number of calls after which there is no rotation.
const NEVER: usize = 8;

/// All calls, with a rotation after `cut` of them.
fn make_all<A: AgentName, R: Wait>(
    rt: &R,
    alloc: Global,
    pass: &mut Pass<'_, A>,
    cut: usize,
) -> Result<(), Refusal> {
    for (made, call) in CALLS.iter().enumerate() {
        if made == cut {
            pass.rotate(rt, alloc)?;
        }
        make_call(rt, alloc, pass, *call)?;
    }
    if cut == CALLS.len() {
        pass.rotate(rt, alloc)?;
    }
    Ok(())
}

/// What a pass leaves, if all went well.
fn spent<A: AgentName, R: Wait>(
    rt: &R,
    alloc: Global,
    pass: Pass<'_, A>,
    cut: usize,
) -> Result<Spent<A>, Refusal> {
    let mut pass = pass;
    make_all(rt, alloc, &mut pass, cut)?;
    Ok(pass.finish())
}

/// What the only pass leaves, if all went well.
fn spents<A: AgentName, R: Wait>(
    rt: &R,
    alloc: Global,
    agent: &mut Agent<A>,
    cut: usize,
) -> Vec<Spent<A>> {
    let mut spents = Vec::new(alloc);
    let Ok(passes) = agent.passes(alloc) else {
        return spents;
    };
    let Some(pass) = last_pass(passes) else {
        return spents;
    };
    if let Ok(spent) = spent(rt, alloc, pass, cut) {
        let _refused = spents.push(spent).is_err();
    }
    spents
}

/// What is left of an agent.
fn closed<A: AgentName, R: Wait>(
    rt: &R,
    alloc: Global,
    book: UnnamedBook,
    places: usize,
    cut: usize,
) -> Result<Closed, Refusal>
    requires book { book.seen.book ≡ A.book }
    requires places { (places ≡ A.places) × (places ≡ 1) }
{
    let mut agent = open::<A, R>(rt, alloc, book, config(20_000, 3), places)?;
    let spents = spents(rt, alloc, &mut agent, cut);
    match close(rt, agent, spents) {
        Ok(closed) => Ok(closed),
        Err(unclosed) => {
            abandon(rt, unclosed);
            Err(Refusal::NoPlace)
        }
    }
}

/// What is left of an agent with one pass, whose history is rotated after `cut` calls.
fn told<R: Wait>(rt: &R, alloc: Global, cut: usize) -> Result<Closed, Refusal> {
    closed::<Brand, R>(rt, alloc, UnnamedBook::new(), 1, cut)
}

/// Whether the rounds from one position up to another chose the members named by these letters.
fn chose(alloc: Global, closed: &Closed, from: u64, to: u64, letters: &[u8]) -> bool {
    match closed.choices(alloc, from, to) {
        Ok(names) => {
            names.len() == letters.len()
                && names
                    .iter()
                    .zip(letters)
                    .all(|(name, byte)| *name == letter(*byte))
        }
        Err(_) => false,
    }
}

/// A name, after how many calls the history is rotated, the positions, and the letters of those that were chosen.
type Row = (&'static str, usize, u64, u64, &'static [u8]);

const ROWS: &[Row] = &[
    ("all", NEVER, 0, 8, b"dce"),
    ("more than there are", NEVER, 0, 100, b"dce"),
    ("two rounds", NEVER, 0, 7, b"dc"),
    ("the second one", NEVER, 4, 7, b"c"),
    ("behind the second one", NEVER, 5, 7, b""),
    ("backwards", NEVER, 8, 0, b""),
    ("without the first one", 3, 0, 8, b"ce"),
    ("the last one", 4, 4, 8, b"e"),
    ("before the base", 4, 0, 5, b""),
    ("nothing is stored", 7, 0, 8, b""),
];

/// Whether the rounds of an agent are told as a row says.
fn is_told<R: Wait>(rt: &R, alloc: Global, row: &Row) -> bool {
    let (_, cut, from, to, letters) = *row;
    match told(rt, alloc, cut) {
        Ok(closed) => chose(alloc, &closed, from, to, letters),
        Err(_) => false,
    }
}

#[test]
fn tells_whom_rounds_chose(rt: HostRuntime) {
    for row in ROWS {
        let (name, ..) = row;
        assert!(rt; is_told(&rt, rt.alloc(), row), "{name}");
    }
}

/// Whether an agent with eight entries has this base and this many entries after it, each from the first place or the
/// opening. For the entries before the base there has to be a summary.
fn is_left(closed: &Closed, base: u64, stored: usize) -> bool {
    let made_here = closed
        .history()
        .iter()
        .all(|entry| entry.seat() == 1 || base == 0);
    closed.count() == 8
        && closed.base() == base
        && closed.history().len() == stored
        && closed.summary().is_some() == (base > 0)
        && made_here
}

/// What is left after a rotation, and without one.
#[test]
fn keeps_what_follows_a_rotation(rt: HostRuntime) {
    for (cut, base, stored) in [(NEVER, 0, 8), (0, 1, 7), (6, 7, 1), (7, 8, 0)] {
        let closed = told(&rt, rt.alloc(), cut);
        let met = closed
            .as_ref()
            .is_ok_and(|closed| is_left(closed, base, stored));
        assert!(rt; met, "{cut}");
    }
}
