//! Relays. b is opened at 0, and its first round starts at 0 with nobody to choose. a asks from port 7001, and the
//! member that is to be pinged is at port 7003.
use crate::playing::{opened, play, play_on};
use lg_detector::Detector;
use lg_detector_testing::DetectorCase;
use lg_detector_testing::Happens::{From, Ping, Tick};
use lg_detector_testing::Step::{self, Chose, Fired, Next, Pings, Sends, Sent, Takes};
use lg_testing::Due::{Nothing, RelayEnd, RelayNack, RoundEnd, RoundStart};
use lg_testing::bodies::Says::{self, Ack, Nack, Request};
use lg_testing::says::Said::{Alive, Suspect};
use std::process::Abort;

/// The Ping is sent for a, so it chooses nobody. An Ack after the Nack is still passed on.
const NACKED: DetectorCase = (
    "a relay and its Nack",
    &[
        Takes(From(510, "a", 7001, Request(1, "c", 7003), &[])),
        Sends(1),
        Sent(0, 7003, Says::Ping(1, "c"), &[]),
        Chose(None),
        Next(0),
        Takes(Tick(910)),
        Next(910),
        Takes(Tick(910)),
        Fired(RelayNack(910, 1)),
        Sends(1),
        Sent(0, 7001, Nack(1), &[]),
        Next(1510),
        Takes(From(915, "c", 7003, Ack(1), &[])),
        Sends(1),
        Sent(0, 7001, Ack(1), &[]),
        Next(1910),
    ],
);

/// An Ack of another member than the target, or of another number, does nothing. Nor does one of the target once the
/// relay has ended.
const ENDED: DetectorCase = (
    "no Ack",
    &[
        Takes(Tick(0)),
        Takes(From(0, "a", 7001, Request(7, "c", 7003), &[])),
        Takes(From(10, "d", 7003, Ack(1), &[])),
        Sends(0),
        Takes(From(10, "c", 7003, Ack(2), &[])),
        Sends(0),
        Takes(Tick(400)),
        Fired(RelayNack(400, 1)),
        Sent(0, 7001, Nack(7), &[]),
        Takes(Tick(1000)),
        Fired(RelayEnd(1000, 1)),
        Sends(0),
        Takes(From(1000, "c", 7003, Ack(1), &[])),
        Sends(0),
    ],
);

/// An Ack in time cancels both timers of the relay, whatever port it comes from. A second one isn't passed on.
const ACKED: DetectorCase = (
    "an Ack in time",
    &[
        Takes(Tick(0)),
        Takes(From(10, "a", 7001, Request(7, "c", 7003), &[])),
        Next(410),
        Takes(From(100, "c", 9999, Ack(1), &[])),
        Sent(0, 7001, Ack(7), &[]),
        Next(1000),
        Takes(From(110, "c", 7003, Ack(1), &[])),
        Sends(0),
    ],
);

/// The timers of a relay aren't scaled by the score, which two refutations have raised to 2.
const UNSCALED: DetectorCase = (
    "a score of 2",
    &[
        Takes(Ping(0, 1, "z", &[Suspect("b", 0, "a"), Suspect("b", 1, "a")])),
        Takes(Tick(0)),
        Next(3000),
        Takes(From(10, "a", 7001, Request(7, "c", 7003), &[])),
        Next(410),
        Takes(Tick(410)),
        Fired(RelayNack(410, 1)),
        Next(1010),
        Takes(Tick(1010)),
        Fired(RelayEnd(1010, 1)),
        Next(3000),
    ],
);

/// Probes and relays are numbered together.
const NUMBERED: DetectorCase = (
    "two probes and a relay",
    &[
        Takes(Ping(0, 1, "z", &[Alive("c", 0)])),
        Takes(Tick(0)),
        Pings(1, "c"),
        Takes(From(10, "a", 7001, Request(7, "d", 7003), &[])),
        Pings(2, "d"),
        Takes(From(20, "c", 7000, Ack(1), &[])),
        Takes(Tick(1000)),
        Fired(RelayNack(410, 2)),
        Takes(Tick(1000)),
        Fired(RoundEnd(1000)),
        Takes(Tick(1000)),
        Pings(3, "c"),
    ],
);

/// A request for b itself is acked at once. The claims of a request are said before its target is pinged, so the
/// target's record goes with the Ping.
const REQUESTS: &[DetectorCase] = &[
    (
        "a request for b",
        &[
            Takes(From(0, "a", 7001, Request(9, "b", 7003), &[])),
            Sends(1),
            Sent(0, 7001, Ack(9), &[]),
        ],
    ),
    (
        "c is suspected",
        &[
            Takes(From(0, "a", 7001, Request(1, "c", 7003), &[Suspect("c", 0, "a")])),
            Sent(0, 7003, Says::Ping(1, "c"), &[Suspect("c", 0, "a")]),
        ],
    ),
];

/// 64 relays are open.
const FULL: &[Step<'static>] = &[
    Takes(From(10, "a", 7001, Request(5, "c", 7003), &[])),
    Sends(1),
    Sent(0, 7001, Nack(5), &[]),
    Takes(From(10, "a", 7001, Request(6, "b", 7003), &[])),
    Sent(0, 7001, Ack(6), &[]),
    Takes(From(20, "c", 7003, Ack(64), &[])),
    Sent(0, 7001, Ack(5), &[]),
    Takes(From(20, "a", 7001, Request(8, "c", 7003), &[])),
    Sent(0, 7003, Says::Ping(65, "c"), &[]),
];

/// One request heard twice opens two relays. At most 64 are open. A request that is refused takes no number.
#[test]
fn refuses_beyond_64(rt: HostRuntime) {
    let mut detector = opened(&rt, rt.alloc());
    for number in 1..65 {
        let steps = [
            Takes(From(10, "a", 7001, Request(5, "c", 7003), &[])),
            Sent(0, 7003, Says::Ping(number, "c"), &[]),
        ];
        play_on(&rt, &mut detector, "a relay", &steps);
    }
    play_on(&rt, &mut detector, "64 relays", FULL);
}

/// How many requests are relayed at once.
const RELAYS: u32 = 64;

/// What happens once for each relay, by its number.
#[derive(Clone, Copy)]
enum Each {
    /// A request at 0 is relayed by a Ping with the same number.
    Relayed,
    /// A tick at 1000 sends the relay's Nack.
    Nacked,
    /// A tick at 1000 ends the relay.
    Ended,
}

impl Each {
    /// The steps for the relay with this number.
    fn steps(self, number: u32) -> [Step<'static>; 4] {
        match self {
            Each::Relayed => [
                Takes(From(0, "a", 7001, Request(number, "c", 7003), &[])),
                Sends(1),
                Sent(0, 7003, Says::Ping(number, "c"), &[]),
                Next(0),
            ],
            Each::Nacked => [
                Takes(Tick(1000)),
                Fired(RelayNack(400, number)),
                Sends(1),
                Sent(0, 7001, Nack(number), &[]),
            ],
            Each::Ended => [
                Takes(Tick(1000)),
                Fired(RelayEnd(1000, number)),
                Sends(0),
                Next(1000),
            ],
        }
    }

    /// Plays the steps for each relay, in the order of their numbers.
    fn play(self, rt: &impl Abort, detector: &mut Detector, case: &str) {
        for number in 1..=RELAYS {
            play_on(rt, detector, case, &self.steps(number));
        }
    }
}

/// The 65th request is refused. The first round starts at 0, with nobody to choose.
const ONE_TOO_MANY: &[Step<'static>] = &[
    Takes(From(0, "a", 7001, Request(65, "c", 7003), &[])),
    Sends(1),
    Sent(0, 7001, Nack(65), &[]),
    Takes(Tick(0)),
    Fired(RoundStart(0)),
    Chose(None),
    Sends(0),
    Next(400),
];

/// All relays have ended, so a further request is relayed.
const ONE_MORE: &[Step<'static>] = &[
    Takes(From(1000, "a", 7001, Request(66, "c", 7003), &[])),
    Sends(1),
    Sent(0, 7003, Says::Ping(65, "c"), &[]),
];

/// 65 requests come at once, and later a 66th. Each tick does one thing: 64 send a Nack, and 64 more end a relay.
#[test]
fn a_flood_of_requests(rt: HostRuntime) {
    let mut detector = opened(&rt, rt.alloc());
    Each::Relayed.play(&rt, &mut detector, "a request");
    play_on(&rt, &mut detector, "one too many", ONE_TOO_MANY);
    Each::Nacked.play(&rt, &mut detector, "a Nack");
    Each::Ended.play(&rt, &mut detector, "an end");
    play_on(&rt, &mut detector, "one more", ONE_MORE);
}

/// A relay is opened at the latest moment that was handed in, if its request's moment is earlier. Its target's Ack is
/// passed on at any moment.
const OUT_OF_ORDER: DetectorCase = (
    "moments out of order",
    &[
        Takes(Tick(0)),
        Takes(Ping(700, 1, "b", &[])),
        Takes(From(510, "a", 7001, Request(1, "c", 7003), &[])),
        Takes(From(600, "a", 7001, Request(2, "c", 7003), &[])),
        Next(1000),
        Takes(Tick(1000)),
        Next(1100),
        Takes(Tick(1050)),
        Fired(Nothing),
        Takes(Tick(1100)),
        Fired(RelayNack(1100, 1)),
        Takes(Tick(300)),
        Fired(RelayNack(1100, 2)),
        Next(1700),
        Takes(From(20, "c", 7003, Ack(2), &[])),
        Sent(0, 7001, Ack(2), &[]),
        Takes(Tick(1699)),
        Fired(Nothing),
        Takes(Tick(1700)),
        Fired(RelayEnd(1700, 1)),
        Next(2000),
    ],
);

/// Each case of a relay.
const PLAYED: &[&[DetectorCase]] = &[
    &[NACKED],
    &[ENDED],
    &[ACKED],
    &[UNSCALED],
    &[NUMBERED],
    REQUESTS,
    &[OUT_OF_ORDER],
];

#[test]
fn relays(rt: HostRuntime) {
    for cases in PLAYED {
        play(&rt, rt.alloc(), cases);
    }
}
