//! A member that is suspected, fails, comes back, is suspected and fails again. What b knows of it is the same, in
//! whichever order the claims come.
use crate::playing::{opened, play_on};
use lg_detector::Detector;
use lg_detector_testing::Happens::{Health, Tick};
use lg_detector_testing::Step::{self, AnswersHealth, Hears, Next, Table, Takes};
use lg_testing::says::Said::{self, Alive, Failed, Suspect};
use std::process::Abort;

/// What is said of c. Each claim overrides those before it.
const SAID: [Said; 5] = [
    Suspect("c", 0, "a"),
    Failed("c", 0),
    Alive("c", 1),
    Suspect("c", 1, "a"),
    Failed("c", 1),
];

/// a, d and e are known.
const OTHERS: &[Step<'static>] = &[Hears(0, &[Alive("a", 0), Alive("d", 0), Alive("e", 0)])];

/// The five members, with a record of c.
const fn with_c(record: Said) -> [Said; 5] {
    [
        Alive("a", 0),
        Alive("b", 0),
        record,
        Alive("d", 0),
        Alive("e", 0),
    ]
}

/// How many members aren't gone, and the next deadline once a round has started at 40,000, for each number of
/// claims that came. A suspicion that was raised at 2000 lasts until 32,000. If there is none, helpers are asked at
/// 40,500.
const AFTER: [(u64, u64); 5] = [
    (5, 32_000),
    (4, 40_500),
    (5, 40_500),
    (5, 32_000),
    (4, 40_500),
];

/// An order of five places, if the five digits of a number to the base of 5 are one.
fn order_of(number: usize) -> Option<[usize; 5]> {
    let places = [
        number % 5,
        number / 5 % 5,
        number / 25 % 5,
        number / 125 % 5,
        number / 625 % 5,
    ];
    (0..5)
        .all(|place| places.iter().any(|it| *it == place))
        .then_some(places)
}

/// Hears the claims up to a place, in an order. The last of these that was said stands then, whatever the order.
fn hears_in_order(rt: &impl Abort, detector: &mut Detector, places: &[usize; 5], last: usize) {
    play_on(rt, detector, "before", OTHERS);
    for place in places.iter().filter(|place| **place <= last) {
        if let Some(said) = SAID.get(*place) {
            play_on(rt, detector, "a claim", &[Hears(2000, &[*said])]);
        }
    }
}

#[test]
fn knows_the_same_in_each_order(rt: HostRuntime) {
    for places in (0..3125).filter_map(order_of) {
        for (last, (said, (live, next))) in SAID.iter().zip(AFTER.iter()).enumerate() {
            let mut detector = opened(&rt, rt.alloc());
            hears_in_order(&rt, &mut detector, &places, last);
            let steps = [
                Table(&with_c(*said)),
                Takes(Health(2000)),
                AnswersHealth(0, 0, *live),
                Takes(Tick(40_000)),
                Next(*next),
            ];
            play_on(&rt, &mut detector, "known", &steps);
        }
    }
}
