//! A writer and two readers, each in a thread of its own.
use super::keeper::Keeper;
use super::opening;
use super::playing::{Play, Shown, told};
use lg_detector::Event;
use lg_testing::at;
use lg_view::{Look, PairName};
use std::alloc::Global;
use std::sync::Wait;
use std::thread::{Threads, join};

/// How many events the writer publishes after the opening.
const EVENTS: u64 = 1000;

/// How often a reader looks at most.
const MAX_LOOKS: u64 = 20_000_000;

/// The last version that a reader found, and whether one was less than an earlier one.
pub(super) type Read = (u64, bool);

/// Publishes the opening and the events after it. Returns how many were published.
fn write<P: PairName, R: Wait>(rt: &R, alloc: Global, keeper: &mut Keeper<P>) -> u64 {
    let mut published = u64::from(keeper.take(rt, alloc, &opening()));
    for moment in 0..EVENTS {
        if keeper.take(rt, alloc, &Event::Health { now: at(moment) }) {
            published = published.wrapping_add(1);
        }
    }
    published
}

/// Looks until all is published.
fn read<P: PairName>(look: &mut Look<P>) -> Read {
    let mut last = 0;
    let mut goes_back = false;
    for _ in 0..MAX_LOOKS {
        let version = look.version().unwrap_or(0);
        goes_back = goes_back || version < last || look.seen() != version;
        last = version;
        if last > EVENTS {
            break;
        }
    }
    (last, goes_back)
}

/// A writer, and two readers beside it.
pub(super) fn play_threads<P: PairName + Send + Sync, R: Threads + Wait + Sync>(
    rt: &R,
    alloc: Global,
    keeper: &mut Keeper<P>,
    one: &mut Look<P>,
    two: &mut Look<P>,
) -> Shown {
    let (published, (first, second)) = join(
        rt,
        || write(rt, alloc, keeper),
        || join(rt, || read(one), || read(two)),
    );
    Shown::Threads(published, first, second)
}

#[test]
fn versions_never_go_back(rt: HostRuntime) {
    let outcome = told(&rt, rt.alloc(), Play::Threads);
    let met = outcome.is_ok_and(|outcome| {
        matches!(
            outcome.shown,
            Shown::Threads(1001, (1001, false), (1001, false))
        )
    });
    assert!(rt; met);
}
