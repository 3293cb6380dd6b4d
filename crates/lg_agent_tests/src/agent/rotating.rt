//! Agents with room for three entries. Some entries are cut off.
use super::calls::Call;
use super::calls::Happens::Health;
use super::rows::{case, play};
use super::steps::Row;
use super::wanted::Want::{self, Healthy, Number, Refused};
use lg_agent::{CloseFault, Refusal};
use lg_agent_testing::Ending;

const FULL: Want = Refused(Refusal::HistoryFull(3));

/// One pass fills the history twice. Its places go on after those that were cut off, and so do the versions.
const FILLS_IT: &[Row] = &[
    (0, Call::Event(Health(1)), Healthy(1, 1, 0)),
    (0, Call::Event(Health(2)), Healthy(2, 1, 0)),
    (0, Call::Event(Health(3)), FULL),
    (0, Call::Rotate, Number(3)),
    (0, Call::Event(Health(3)), Healthy(3, 1, 0)),
    (0, Call::Version, Number(4)),
    (0, Call::Members, Number(1)),
];

/// Two passes, each of which rotates between calls of the other, three times in all.
const TAKES_TURNS: &[Row] = &[
    (0, Call::Event(Health(1)), Healthy(1, 1, 0)),
    (1, Call::Event(Health(1)), Healthy(2, 1, 0)),
    (1, Call::Rotate, Number(3)),
    (0, Call::Event(Health(1)), Healthy(3, 1, 0)),
    (0, Call::Rotate, Number(1)),
    (1, Call::Version, Number(4)),
    (1, Call::Event(Health(1)), Healthy(4, 1, 0)),
    (1, Call::Event(Health(1)), Healthy(5, 1, 0)),
    (0, Call::Event(Health(1)), Healthy(6, 1, 0)),
    (1, Call::Event(Health(1)), FULL),
    (1, Call::Rotate, Number(3)),
    (0, Call::Event(Health(1)), Healthy(7, 1, 0)),
];

/// A second rotation finds nothing to cut off.
const TWICE: &[Row] = &[(0, Call::Rotate, Number(1)), (0, Call::Rotate, Number(0))];

/// A name, how many places the agent has, and the steps. Then the fault of the first closing if what the first pass
/// left is missing there, how many entries there were in the end, and how many of them were cut off.
type AgentRow = (
    &'static str,
    usize,
    &'static [Row],
    Option<CloseFault>,
    u64,
    u64,
);

const AGENTS: &[AgentRow] = &[
    ("one pass", 1, FILLS_IT, None, 4, 3),
    ("twice", 1, TWICE, None, 1, 1),
    ("two passes", 2, TAKES_TURNS, None, 8, 7),
    (
        "one is missing",
        2,
        TAKES_TURNS,
        Some(CloseFault::Missing),
        8,
        7,
    ),
];

/// What each call gives around rotations, and how the agent ends, perhaps at the second try.
#[test]
fn goes_on_after_a_rotation(rt: HostRuntime) {
    for (name, places, steps, fault, entries, base) in AGENTS {
        let mut case = case(*places, 0, 3, steps);
        case.at_once = fault.is_none();
        let mut ending = Ending::closed(*fault, *entries);
        ending.base = Some(*base);
        let want = Some((None, 0, ending));
        assert_eq!(rt; play(&rt, rt.alloc(), case), want, "{name}");
    }
}
