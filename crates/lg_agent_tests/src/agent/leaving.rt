//! What passes leave: how many calls each made, how many of its positions it cut off, and those that are left.
use super::calls::Happens::{Datagram, Health};
use super::calls::{Call, Heard};
use super::steps::Row;
use super::wanted::Want::{Healthy, Number, Refused};
use crate::playing::{Play, Shown, told};
use lg_agent::{AgentName, Refusal, Spent};
use lg_agent_testing::Case;
use lg_packet::Fault;
use lg_testing::letter;
use std::alloc::Global;
use std::sync::Wait;
use std::thread::Threads;

/// What one pass left.
#[derive(Clone, Copy, Debug, Default, PartialEq, Eq)]
pub struct LeftBy {
    /// Its seat.
    seat: usize,
    /// How many calls it made.
    made: u64,
    /// How many of its positions it cut off.
    gone: u64,
    /// The sum of the positions that are left.
    sum: u64,
    /// How many events it has seen.
    seen: u64,
}

impl LeftBy {
    /// What is left where there is no pass of this seat.
    pub fn nothing(seat: usize) -> LeftBy {
        let mut left = LeftBy::default();
        left.seat = seat;
        left
    }

    /// Whether it is of this seat.
    pub fn is_of(&self, seat: usize) -> bool {
        self.seat == seat
    }
}

/// What a pass of this member, b, left.
pub fn left_by<A: AgentName>(spent: &Spent<A>) -> LeftBy {
    if spent.name() != letter(b'b') {
        return LeftBy::default();
    }
    let mut sum: u64 = 0;
    for place in spent.calls() {
        sum = sum.wrapping_add(*place);
    }
    LeftBy {
        seat: spent.seat(),
        made: spent.made(),
        gone: spent.gone(),
        sum,
        seen: spent.seen(),
    }
}

/// What each of two passes leaves after these steps, if each step gave what it should.
fn played<R>(rt: &R, alloc: Global, rows: &[Row]) -> Option<[LeftBy; 2]>
where
    R: Threads + Wait + std::rt::Clock + Sync,
{
    let outcome = told(rt, alloc, Case::new(2, Play::Steps(rows))).ok()?;
    match &outcome.seen {
        Some(Shown::Steps(played)) if played.wrong.is_none() => Some(played.left),
        _ => None,
    }
}

/// What a pass leaves: how many calls it made, how many of its positions it cut off, the sum of those that are left,
/// and how many events it has seen.
type Leaves = (u64, u64, u64, u64);

impl LeftBy {
    /// The pass in this seat left this.
    fn of(seat: usize, leaves: Leaves) -> LeftBy {
        let (made, gone, sum, seen) = leaves;
        LeftBy {
            seat,
            made,
            gone,
            sum,
            seen,
        }
    }
}

/// The first call of the first pass, and two more at these places.
const CALLS: Row = (0, Call::Event(Health(1)), Healthy(1, 1, 0));

const CALLS_AT_2: Row = (0, Call::Event(Health(1)), Healthy(2, 1, 0));

const CALLS_AT_3: Row = (0, Call::Event(Health(1)), Healthy(3, 1, 0));

/// A call of the second pass, after one of the first.
const OTHER_CALLS: Row = (1, Call::Event(Health(1)), Healthy(2, 1, 0));

/// A rotation of the second pass, which cuts off the opening and two calls.
const OTHER_ROTATES: Row = (1, Call::Rotate, Number(3));

/// A rotation of the first pass, when nothing is stored.
const ROTATES: Row = (0, Call::Rotate, Number(0));

/// A look of the first pass, after two calls.
const LOOKS: Row = (0, Call::Version, Number(3));

/// A datagram of the first pass that is no packet.
const IS_REFUSED: Row = (
    0,
    Call::Event(Datagram(1, Heard::OneByte)),
    Refused(Refusal::BadPacket(Fault::Short)),
);

/// A name, the steps, and what each pass left.
type LeavingRow = (&'static str, &'static [Row], Leaves, Leaves);

const LEAVING: &[LeavingRow] = &[
    (
        "no rotation",
        &[CALLS, OTHER_CALLS, LOOKS, CALLS_AT_3],
        (2, 0, 4, 4),
        (1, 0, 2, 3),
    ),
    (
        "an answered call",
        &[CALLS, OTHER_CALLS, OTHER_ROTATES, CALLS_AT_3],
        (2, 1, 3, 4),
        (1, 1, 0, 3),
    ),
    (
        "two positions",
        &[CALLS, CALLS_AT_2, OTHER_ROTATES, CALLS_AT_3],
        (3, 2, 3, 4),
        (0, 0, 0, 1),
    ),
    (
        "a refused call",
        &[CALLS, OTHER_CALLS, OTHER_ROTATES, IS_REFUSED],
        (1, 0, 1, 2),
        (1, 1, 0, 3),
    ),
    (
        "a look",
        &[CALLS, OTHER_CALLS, OTHER_ROTATES, LOOKS],
        (1, 0, 1, 3),
        (1, 1, 0, 3),
    ),
    (
        "a rotation",
        &[CALLS, OTHER_CALLS, OTHER_ROTATES, ROTATES],
        (1, 1, 0, 2),
        (1, 1, 0, 3),
    ),
];

/// The first pass makes one call or two. The second may make another one, and rotates. A pass cuts off its own
/// positions at its next answered call or at its own rotation, and never before.
#[test]
fn cuts_its_positions(rt: HostRuntime) {
    for (name, steps, first, second) in LEAVING {
        let want = Some([LeftBy::of(1, *first), LeftBy::of(2, *second)]);
        assert_eq!(rt; played(&rt, rt.alloc(), steps), want, "{name}");
    }
}
