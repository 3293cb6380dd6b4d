//! Looks, and what they answer.
ghost use Rattle.std.specs.Prelude.{◌≡◌, [], true};
ghost use Rattle.std.specs.Bool.{OnTrue};
ghost use Rattle.lg_view.specs.Meaning.Views.{begins_open};

use super::keeper::Keeper;
use super::playing::{Outcome, Play, Shown, told};
use super::{ping_of_a, says, tick, tick_at};
use lg_changes::{Altered, Behind, Change};
use lg_detector::{Event, Standing};
use lg_rules::Claim;
use lg_testing::{alive, at, failed, incarnation, letter, local, suspect};
use lg_timing::Config;
use lg_view::{Look, PairName};
use std::alloc::Global;
use std::ops::Range;
use std::sync::Wait;

/// The outcome of each check in [`NAMES`].
pub(super) type Checks = [bool; 19];

/// What has to hold.
const NAMES: [&str; 19] = [
    "a told reader has seen the opening",
    "the first deadline is 0",
    "the version is 1",
    "c isn't known",
    "a Ping is heard",
    "nothing is seen unless one looks",
    "c is known",
    "what was looked at is seen",
    "a round begins",
    "its Ping waits for 500 ms",
    "the version is 3",
    "b and c are members",
    "c is suspected at 400",
    "c is alive after all at 410",
    "both changes are told, and what came before isn't",
    "all changes are told",
    "1,025 changes more are heard",
    "the first of these is no longer kept, and the others are",
    "that c fails and is forgotten are the last changes",
];

/// Opens b, which forgets who is gone after one second, and tells both looks of it.
fn opens<P: PairName, R: Wait>(
    rt: &R,
    alloc: Global,
    keeper: &mut Keeper<P>,
    one: &mut Look<P>,
    two: &mut Look<P>,
) -> bool
    requires { keeper.old ≡ [] }
    ensures { OnTrue result ((begins_open one.new ≡ true) × (begins_open two.new ≡ true)) }
{
    let mut config = Config::new(letter(b'b'), local(7000));
    config.forget_ms = 1000;
    let opening = Event::Open { now: at(0), config };
    keeper.take(rt, alloc, &opening) && keeper.tell(one) && keeper.tell(two)
}

/// Two looks at b that were told of the opening: before c is heard of, after that, and after a round has begun.
fn look_on<P: PairName, R: Wait>(
    rt: &R,
    alloc: Global,
    keeper: &mut Keeper<P>,
    one: &mut Look<P>,
    two: &mut Look<P>,
) -> Checks
    requires { (begins_open one.old ≡ true) × (begins_open two.old ≡ true) }
{
    let (c, known) = (letter(b'c'), alive(b'c', 0));
    [
        one.seen() == 1,
        one.next_deadline() == Ok(0),
        one.version() == Ok(1),
        one.status_of(&c) == Ok(None),
        keeper.take(rt, alloc, &ping_of_a()),
        one.seen() == 1,
        one.status_of(&c) == Ok(Some(known)),
        one.seen() == 2,
        keeper.take(rt, alloc, &tick()),
        two.next_deadline() == Ok(500),
        one.version() == Ok(3),
        has_both(alloc, one),
        keeper.take(rt, alloc, &says(400, suspect(b'c', 0, b'd'))),
        keeper.take(rt, alloc, &says(410, alive(b'c', 1))),
        tells(alloc, two, 3, &refuted()),
        tells(alloc, two, 0, &all_changes()),
        hears_more(rt, alloc, keeper),
        keeps_the_newest(alloc, two),
        tells_who_is_forgotten(rt, alloc, keeper, two),
    ]
}

/// What was altered, with how many events there were then and the moment.
fn altered(version: u64, now: u64, altered: Altered) -> Change {
    Change {
        version,
        moment: at(now),
        altered,
    }
}

/// A change of the record of c or of b.
fn change(version: u64, now: u64, member: Claim) -> Change {
    altered(version, now, Altered::Recorded(member))
}

/// The suspicion of c and its end, 10 ms later.
fn refuted() -> [Change; 2] {
    [
        change(4, 400, suspect(b'c', 0, b'd')),
        change(5, 410, alive(b'c', 1)),
    ]
}

/// All changes since the opening.
fn all_changes() -> [Change; 4] {
    let [suspected, cleared] = refuted();
    [
        change(1, 0, alive(b'b', 0)),
        change(2, 0, alive(b'c', 0)),
        suspected,
        cleared,
    ]
}

/// Whether a look tells just these changes behind a version, and that the last event came at 410.
fn tells<P: PairName>(alloc: Global, look: &mut Look<P>, version: u64, wanted: &[Change]) -> bool {
    let Ok(found) = look.overview(alloc, version) else {
        return false;
    };
    match &found.changes {
        Behind::All(rows) => rows.as_slice() == wanted && found.moment == at(410),
        Behind::Missed(_) => false,
    }
}

/// The incarnations of c that are heard one after another: 1,025, one more than changes are kept.
const MORE: Range<u32> = 2..1027;

/// Whether b hears that c is alive at each of these incarnations.
fn hears_more<P: PairName, R: Wait>(rt: &R, alloc: Global, keeper: &mut Keeper<P>) -> bool {
    for incarnation in MORE {
        if !keeper.take(rt, alloc, &says(420, alive(b'c', incarnation))) {
            return false;
        }
    }
    true
}

/// Whether a look says that changes behind the fifth event are missed, and tells each of the 1,024 behind the sixth.
fn keeps_the_newest<P: PairName>(alloc: Global, look: &mut Look<P>) -> bool {
    let (Ok(fifth), Ok(sixth)) = (look.overview(alloc, 5), look.overview(alloc, 6)) else {
        return false;
    };
    match (&fifth.changes, &sixth.changes) {
        (Behind::Missed(_), Behind::All(rows)) => {
            rows.len() == 1024
                && rows.iter().zip(MORE.skip(1)).all(|(row, incarnation)| row.altered
                    == Altered::Recorded(alive(b'c', incarnation)))
        }
        _ => false,
    }
}

/// That c fails and is forgotten one second later, behind a version.
fn gone_behind(version: u64) -> [Change; 2] {
    [
        change(version.saturating_add(1), 430, failed(b'c', 1027)),
        altered(
            version.saturating_add(5),
            1430,
            Altered::Forgotten(letter(b'c')),
        ),
    ]
}

/// Whether b hears that c fails, ticks through its round, and forgets c.
fn forgets_c<P: PairName, R: Wait>(rt: &R, alloc: Global, keeper: &mut Keeper<P>) -> bool {
    if !keeper.take(rt, alloc, &says(430, failed(b'c', 1027))) {
        return false;
    }
    // The round's target isn't acked, the round ends, the next one starts, and c is forgotten.
    for _ in 0..4 {
        if !keeper.take(rt, alloc, &tick_at(1430)) {
            return false;
        }
    }
    true
}

/// Whether a look tells just these changes behind a version.
fn tells_just<P: PairName>(
    alloc: Global,
    look: &mut Look<P>,
    version: u64,
    wanted: &[Change],
) -> bool {
    let Ok(found) = look.overview(alloc, version) else {
        return false;
    };
    match &found.changes {
        Behind::All(rows) => rows.as_slice() == wanted,
        Behind::Missed(_) => false,
    }
}

/// Whether b forgets c once it has failed, and a look tells just that.
fn tells_who_is_forgotten<P: PairName, R: Wait>(
    rt: &R,
    alloc: Global,
    keeper: &mut Keeper<P>,
    look: &mut Look<P>,
) -> bool {
    let Ok(before) = look.version() else {
        return false;
    };
    forgets_c(rt, alloc, keeper) && tells_just(alloc, look, before, &gone_behind(before))
}

/// Whether b and c are the members, as a look sees them, and b knows of itself that nothing was held against it.
fn has_both<P: PairName>(alloc: Global, look: &mut Look<P>) -> bool {
    let both = [alive(b'b', 0), alive(b'c', 0)];
    let standing = Standing {
        score: 0,
        number: incarnation(0),
        ousted: false,
    };
    match (look.members(alloc), look.overview(alloc, 3)) {
        (Ok(members), Ok(overview)) => {
            members.as_slice() == both.as_slice()
                && overview.records.as_slice() == both.as_slice()
                && overview.version == 3
                && overview.standing == standing
        }
        _ => false,
    }
}

/// The checks of two looks, which are told of the opening. None if they couldn't be told.
pub(super) fn play_looks<P: PairName, R: Wait>(
    rt: &R,
    alloc: Global,
    keeper: &mut Keeper<P>,
    one: &mut Look<P>,
    two: &mut Look<P>,
) -> Option<Checks>
    requires { keeper.old ≡ [] }
{
    if opens(rt, alloc, keeper, one, two) {
        Some(look_on(rt, alloc, keeper, one, two))
    } else {
        None
    }
}

/// The first thing that has to hold and didn't.
fn first_unmet(rows: &Checks) -> Option<&'static str> {
    for (met, name) in rows.iter().zip(NAMES.iter()) {
        if !*met {
            return Some(*name);
        }
    }
    None
}

/// The first thing that didn't hold in an outcome.
fn unmet_in(outcome: &Outcome) -> Option<&'static str> {
    match &outcome.shown {
        Shown::Looks(Some(rows)) => first_unmet(rows),
        _ => Some("each look is told of the opening"),
    }
}

/// Two looks answer from what was published last, and answer nothing once the feed has ended.
#[test]
fn looks_read_anew(rt: HostRuntime) {
    let seen = match told(&rt, rt.alloc(), Play::Looks) {
        Ok(outcome) => (unmet_in(&outcome), outcome.ended, outcome.seen),
        Err(_) => (Some("a pair is made"), false, 0),
    };
    assert_eq!(rt; seen, (None, true, 3));
}
