//! A loop whose call is refused memory ends with it, and nothing is lost. If memory for the thread of the receiving
//! loop is refused, no loop makes a turn. A watcher without a thread watches when the loops have ended.
use crate::loops::Alone::{self, Receiving, Ticking};
use crate::loops::{BothSeen, Text};
use crate::playing::{Case, Outcome, Play, Shown, told_at_last};
use lg_agent::Refusal;
use lg_node::{LoopEnd, Watched, Why};
use std::alloc::Global;
use std::fs::Files;
use std::rt;
use std::sync::Wait;
use std::thread::Threads;

/// After how many turns a loop of two calls ends: if memory is refused to the first call, to the second, or to neither.
/// How many packets each answered call hands over. How many entries may be cut off for the second call.
type Turns = ([u64; 3], usize, u64);

/// Whether this many entries may be cut off after this many calls were answered. A rotation may have been answered
/// whose call was refused afterwards.
fn allows(cut: u64, answered: u64, base: u64) -> bool {
    match answered {
        0 => base == 0,
        1 => base == 0 || base == cut,
        _ => base == cut,
    }
}

/// Whether the loop ended after these turns, at the call that met the refusal if one did, and counted that call for the
/// status server. Each answered call, and no other, is in the pass's list and in the history, and handed its packets
/// over.
fn is_whole(outcome: &Outcome, want: &Turns) -> bool {
    let Shown::Alone(seen) = &outcome.shown else {
        return false;
    };
    let ([first, second, neither], packets, cut) = *want;
    let refused = Why::Refused(Refusal::NoMemory);
    let (why, turns, calls_refused) = match seen.answered {
        0 => (refused, first, 1),
        1 => (refused, second, 1),
        _ => (Why::Stopped, neither, 0),
    };
    seen.end.why == why
        && seen.end.turns == turns
        && seen.refused == calls_refused
        && seen.stop
        && outcome.entries == seen.answered.wrapping_add(1)
        && allows(cut, seen.answered, outcome.base)
        && seen.handed == packets.wrapping_mul(seen.answered as usize)
}

/// Two Pings, each of which is answered if its call is. Ticks at 0 and 1000, with 50 pauses between them. The history
/// has room for all entries, or for two, which are cut off for the second call.
const LOOPS: [(Alone, u64, Turns); 4] = [
    (Receiving, 20_000, ([1, 2, 2], 1, 0)),
    (Ticking(1010, false), 20_000, ([1, 52, 53], 0, 0)),
    (Receiving, 2, ([1, 2, 2], 1, 2)),
    (Ticking(1010, false), 2, ([1, 52, 53], 0, 2)),
];

#[test]
fn one_loop(rt: HostRuntime) {
    for row in LOOPS {
        let (alone, limit, turns) = row;
        let case = Case {
            limit,
            knows_c: false,
            wire: 1,
            play: Play::Alone(alone),
        };
        let outcome = told_at_last(&rt, rt.alloc(), &case);
        let met = outcome
            .as_ref()
            .is_ok_and(|outcome| is_whole(outcome, &turns));
        assert!(rt; met, "{row:?}");
    }
}

/// Whether the loop made one turn, in which the member left and told one other, or was refused to.
fn has_left(outcome: &Outcome) -> bool {
    let Shown::Alone(seen) = &outcome.shown else {
        return false;
    };
    let (why, calls_refused) = match seen.answered {
        0 => (Why::Refused(Refusal::NoMemory), 1),
        _ => (Why::Stopped, 0),
    };
    seen.end.why == why
        && seen.end.turns == 1
        && seen.refused == calls_refused
        && seen.stop
        && outcome.entries == seen.answered.wrapping_add(1)
        && seen.handed == seen.answered as usize
}

/// A ticking loop that is to stop at once, and at whose end the member leaves. If memory is refused to that call, the
/// loop says so, and tells nobody.
#[test]
fn a_leave(rt: HostRuntime) {
    let case = Case {
        limit: 20_000,
        knows_c: true,
        wire: 3,
        play: Play::Alone(Ticking(0, true)),
    };
    let outcome = told_at_last(&rt, rt.alloc(), &case);
    assert!(rt; outcome.as_ref().is_ok_and(has_left));
}

/// What is seen of both loops of a node that knows c, and how many entries there are in the end.
fn both_loops<R>(rt: &R, alloc: Global, follow: bool) -> Option<(BothSeen, u64)>
where
    R: Threads + Wait + Files + rt::Clock + AllocGlobal + Clone + Sync + Drop,
    R::File: Send,
    R::Dir: Send,
{
    let case = Case {
        limit: 20_000,
        knows_c: true,
        wire: 1,
        play: Play::Both(follow),
    };
    let outcome = told_at_last(rt, alloc, &case).ok()?;
    match outcome.shown {
        Shown::Both(seen) => Some((seen, outcome.entries)),
        Shown::Alone(_) => None,
    }
}

/// Whether there was a thread for the receiving loop, or neither loop made a turn. In that case the agent holds only
/// its opening. If there was one, the ticking loop has made a turn.
fn is_still(both: &BothSeen, entries: u64) -> bool {
    let had_none = both.receiving.why == Why::Refused(Refusal::NoMemory)
        && both.receiving.turns == 0;
    let still = LoopEnd {
        why: Why::Stopped,
        dropped: 0,
        unsent: 0,
        turns: 0,
    };
    both.ticking != still || had_none && entries == 1
}

/// Whether a watcher has told all that it had to, or says that it was refused memory. That it tries again when a look
/// was refused is shown by `watching.rt`.
fn told_or_refused(both: &BothSeen) -> bool {
    match both.watched {
        Some(Watched::Told) => both.text == Text::Known,
        Some(Watched::Refused(Refusal::NoMemory)) => {
            matches!(both.text, Text::End | Text::Known)
        }
        _ => false,
    }
}

/// Both loops. Memory may be refused to the thread of the receiving loop; then the ticking loop makes no turn either.
#[test]
fn a_thread(rt: HostRuntime) {
    let seen = both_loops(&rt, rt.alloc(), false);
    assert!(rt; seen.is_some_and(|(both, entries)| is_still(&both, entries)));
}

/// Both loops and a watcher. If memory is refused to the watcher's thread, it watches when the loops have ended.
#[test]
fn a_watcher(rt: HostRuntime) {
    let seen = both_loops(&rt, rt.alloc(), true);
    assert!(rt;
        seen.is_some_and(|(both, entries)| is_still(&both, entries) && told_or_refused(&both))
    );
}
