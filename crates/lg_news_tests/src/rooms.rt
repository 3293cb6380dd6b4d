//! Room for new members: where 255 others are known, a member that is gone is forgotten for them.
use crate::playing::{blank, play_on};
use lg_detector::{Detector, MAX_MEMBERS};
use lg_detector_testing::Happens::{First, FromIn, In, Opens};
use lg_detector_testing::Setting::{self, ForgetMs, GossipMs, Wire};
use lg_detector_testing::Step::{
    self, Changed, Fired, Forgot, Known, Members, Next, Pings, Sends, Takes, Ticks,
};
use lg_packet::Version::Three;
use lg_testing::Due::{Forget, RoundStart};
use lg_testing::bodies::Says::Gossip;
use lg_testing::says::Said::{self, Alive, Failed, Left, Numbered, Suspect};
use std::alloc::Global;
use std::process::Abort;

/// b with 252 numbered members, and three others.
fn full_with(rt: &impl Abort, alloc: Global, settings: &[Setting], last: &[Said]) -> Detector {
    let mut detector = blank(rt, alloc);
    let opens = [Takes(Opens(0, settings))];
    play_on(rt, &mut detector, "opens", &opens);
    for packet in 0..21_u32 {
        let first = packet.saturating_mul(12);
        let twelve = [0, 1, 2, 3, 4, 5, 6, 7, 8, 9, 10, 11].map(|one| Numbered(first.saturating_add(
            one,
        )));
        let hears = [Takes(In(0, Three, "a", Gossip, &twelve))];
        play_on(rt, &mut detector, "numbered", &hears);
    }
    let hears = [Takes(In(0, Three, "a", Gossip, last)), Members(MAX_MEMBERS)];
    play_on(rt, &mut detector, "full", &hears);
    detector
}

/// b, which forgets, with 252 numbered members, and c, d and e.
fn full(rt: &impl Abort, alloc: Global) -> Detector {
    let settings = [Wire(3), GossipMs(0), ForgetMs(1000)];
    let last = [Alive("c", 0), Alive("d", 0), Alive("e", 0)];
    full_with(rt, alloc, &settings, &last)
}

/// b with the default numbers but for its `forget_ms`, and with the 255 numbered members m000 to m254.
pub(crate) fn knows_numbered(rt: &impl Abort, alloc: Global, forget_ms: u64) -> Detector {
    let settings = [ForgetMs(forget_ms)];
    let last = [Numbered(252), Numbered(253), Numbered(254)];
    full_with(rt, alloc, &settings, &last)
}

/// A case: its name, the `forget_ms` of b, and what happens once m000 to m254 are known.
pub(crate) type NumberedCase = (&'static str, u64, &'static [Step<'static>]);

/// Plays each case on its own b, which knows m000 to m254.
pub(crate) fn play_numbered(rt: &impl Abort, alloc: Global, cases: &[NumberedCase]) {
    for (case, forget_ms, steps) in cases {
        let mut detector = knows_numbered(rt, alloc, *forget_ms);
        play_on(rt, &mut detector, case, steps);
    }
}

/// What happens once 255 others are known, and what comes of it.
const ROOM: &[Step<'static>] = &[
    Takes(In(50, Three, "a", Gossip, &[Alive("x", 0)])),
    Changed(&[]),
    Forgot(&[]),
    Known("x", None),
    Takes(FromIn(60, Three, "d", 7000, Gossip, &[Left("d", 0)])),
    Takes(FromIn(
        70,
        Three,
        "a",
        7000,
        Gossip,
        &[Failed("e", 0), Failed("c", 0)],
    )),
    // That another one is gone makes no room.
    Takes(FromIn(
        80,
        Three,
        "a",
        7000,
        Gossip,
        &[Failed("x", 0), Left("y", 0)],
    )),
    Changed(&[]),
    Forgot(&[]),
    Takes(FromIn(90, Three, "a", 7000, Gossip, &[Alive("x", 0)])),
    Changed(&[Alive("x", 0)]),
    Forgot(&["d"]),
    Takes(FromIn(95, Three, "a", 7000, Gossip, &[Alive("y", 0)])),
    Changed(&[Alive("y", 0)]),
    Forgot(&["c"]),
    Known("c", None),
    Known("e", Some(Failed("e", 0))),
    Members(MAX_MEMBERS),
];

/// Nobody is gone: there is no room for x. Then d is gone first, and c and e after it, at one moment: d is forgotten
/// for x, and c, which has the lesser name, for y.
#[test]
fn makes_room(rt: HostRuntime) {
    let mut detector = full(&rt, rt.alloc());
    play_on(&rt, &mut detector, "makes room", ROOM);
}

/// What happens once 255 others are known, and what comes of it.
const COMES_BACK: &[Step<'static>] = &[
    Takes(In(
        50,
        Three,
        "a",
        Gossip,
        &[Failed("c", 0), Alive("x", 0), Left("d", 0), Alive("c", 0)],
    )),
    Changed(&[Alive("x", 0)]),
    Forgot(&["c", "d"]),
    Known("c", Some(Alive("c", 0))),
    Known("d", None),
    Takes(In(
        50,
        Three,
        "a",
        Gossip,
        &[Failed("e", 0), Alive("y", 0), Failed("x", 0), Alive("e", 1)],
    )),
    Changed(&[Alive("e", 1), Alive("y", 0)]),
    Forgot(&["e", "x"]),
    Members(MAX_MEMBERS),
];

/// In one packet c fails, is forgotten for x, and comes back in the place of d: its record is the one from before, so
/// that it didn't change. e comes back as another one.
#[test]
fn comes_back_as_before(rt: HostRuntime) {
    let mut detector = full(&rt, rt.alloc());
    play_on(&rt, &mut detector, "comes back", COMES_BACK);
}

/// m003 and m005 are gone at one moment, and m001 after them: they are forgotten in this order. What says that an
/// unknown member is gone takes no room, and for x6 nobody that is gone is left.
const BY_DEADLINES: NumberedCase = (
    "by their deadlines",
    60_000,
    &[
        Takes(In(10, Three, "a", Gossip, &[Failed("m005", 0)])),
        Changed(&[Failed("m005", 0)]),
        Forgot(&[]),
        Takes(In(10, Three, "a", Gossip, &[Left("m003", 0)])),
        Changed(&[Left("m003", 0)]),
        Forgot(&[]),
        Takes(In(20, Three, "a", Gossip, &[Failed("m001", 0)])),
        Changed(&[Failed("m001", 0)]),
        Forgot(&[]),
        Takes(In(25, Three, "a", Gossip, &[Failed("x0", 0), Left("x0", 0)])),
        Changed(&[]),
        Forgot(&[]),
        Takes(In(
            30,
            Three,
            "a",
            Gossip,
            &[
                Alive("x1", 0),
                Suspect("x2", 0, "a"),
                Failed("x3", 0),
                Left("x4", 0),
                Alive("x5", 0),
                Alive("x6", 0),
            ],
        )),
        Changed(&[Alive("x1", 0), Suspect("x2", 0, "a"), Alive("x5", 0)]),
        Forgot(&["m003", "m005", "m001"]),
        Members(MAX_MEMBERS),
    ],
);

/// With a `forget_ms` of 0 there is no room for x1, though m005 is gone.
const FORGETS_NOBODY: NumberedCase = (
    "nobody is forgotten",
    0,
    &[
        Takes(In(10, Three, "a", Gossip, &[Failed("m005", 0)])),
        Changed(&[Failed("m005", 0)]),
        Takes(In(20, Three, "a", Gossip, &[Alive("x1", 0)])),
        Changed(&[]),
        Forgot(&[]),
    ],
);

/// m003 is forgotten by its timer. So there is room for one, which is x2: x1 is gone.
const BY_ITS_TIMER: NumberedCase = (
    "by its timer",
    1_000,
    &[
        Takes(In(10, Three, "a", Gossip, &[Left("m003", 0)])),
        Takes(First(1010)),
        Fired(RoundStart(0)),
        Sends(1),
        Pings(1, "m000"),
        Next(1010),
        Ticks(1010, Forget(1010, "m003"), &[], 1510),
        Takes(In(
            1020,
            Three,
            "a",
            Gossip,
            &[Failed("x1", 0), Alive("x2", 0), Alive("x3", 0)],
        )),
        Changed(&[Alive("x2", 0)]),
        Forgot(&[]),
    ],
);

/// m005 is forgotten for x1, and comes back in the place of m009. It fails once more, so that it is what it was before.
/// Then it is forgotten for x2. At 40 nobody is gone but those of the packet itself.
const IN_ONE_PACKET: NumberedCase = (
    "in one packet",
    60_000,
    &[
        Takes(In(10, Three, "a", Gossip, &[Failed("m005", 0)])),
        Takes(In(20, Three, "a", Gossip, &[Failed("m009", 0)])),
        Takes(In(
            30,
            Three,
            "a",
            Gossip,
            &[Alive("x1", 0), Alive("m005", 0), Failed("m005", 0)],
        )),
        Changed(&[Alive("x1", 0)]),
        Forgot(&["m005", "m009"]),
        Known("m005", Some(Failed("m005", 0))),
        Takes(In(30, Three, "a", Gossip, &[Alive("x2", 0)])),
        Changed(&[Alive("x2", 0)]),
        Forgot(&["m005"]),
        Takes(In(
            40,
            Three,
            "a",
            Gossip,
            &[
                Failed("m007", 0),
                Alive("x3", 0),
                Left("x3", 0),
                Alive("x4", 0),
            ],
        )),
        Changed(&[Alive("x4", 0)]),
        Forgot(&["m007", "x3"]),
        Members(MAX_MEMBERS),
    ],
);

/// Each case of room where all others have numbers.
#[test]
fn makes_room_among_numbered(rt: HostRuntime) {
    let cases = &[BY_DEADLINES, FORGETS_NOBODY, BY_ITS_TIMER, IN_ONE_PACKET];
    play_numbered(&rt, rt.alloc(), cases);
}
