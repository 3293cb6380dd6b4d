//! Acks and Nacks name their receiver in version 3. One for another receiver does nothing, but its claims are heard.
use crate::answers::{are_sent, comes};
use crate::playing::{blank, play_blank, resume_each};
use lg_detector::{Detector, Reply};
use lg_detector_testing::Happens::{First, Health, In, Opens, TickBy};
use lg_detector_testing::Setting::{self, GossipMs, Own, Seed, Wire};
use lg_detector_testing::Step::{AnswersHealth, Changed, Fired, Known, Sends, SentIn, Takes};
use lg_detector_testing::{DetectorCase, event_of, takes};
use lg_packet::Version::{Three, Two};
use lg_testing::Due::{Direct, RoundEnd};
use lg_testing::bodies::Says::{Ack, AckFor, NackFor, Ping, Request};
use lg_testing::local;
use lg_testing::says::Said::{self, Alive, AliveAt, Suspect};
use lg_testing::says::{Member, are_said};

/// b knows c and d, and doesn't gossip.
const B: &[Setting] = &[Wire(3), GossipMs(0), Seed("c", 7000), Seed("d", 7000)];

/// d helps b, which probes c. What both answer is for x, so it doesn't count for b, and no Nack came either.
const FOR_ANOTHER: DetectorCase = (
    "for another",
    &[
        Takes(Opens(0, B)),
        Takes(First(0)),
        SentIn(Three, 7000, Ping(1, "c"), &[Alive("b", 0)]),
        Takes(First(500)),
        Fired(Direct(500)),
        SentIn(Three, 7000, Request(1, "c", 7000), &[Alive("b", 0)]),
        Takes(In(600, Three, "d", NackFor(1, "x"), &[])),
        Takes(In(600, Three, "d", AckFor(1, "x"), &[])),
        Takes(In(600, Three, "c", AckFor(1, "x"), &[Alive("e", 0)])),
        Sends(0),
        Changed(&[Alive("e", 0)]),
        Known("e", Some(Alive("e", 0))),
        Takes(First(1000)),
        Fired(RoundEnd(1000)),
        Changed(&[Suspect("c", 0, "b")]),
        Takes(Health(1000)),
        AnswersHealth(2, 0, 4),
    ],
);

/// The same answers for b count: the Nack of d, and then the Ack of c.
const FOR_B: &[DetectorCase] = &[
    (
        "a Nack",
        &[
            Takes(Opens(0, B)),
            Takes(First(0)),
            Takes(First(500)),
            Takes(In(600, Three, "d", NackFor(1, "b"), &[])),
            Takes(First(1000)),
            Fired(RoundEnd(1000)),
            Changed(&[Suspect("c", 0, "b")]),
            Takes(Health(1000)),
            AnswersHealth(1, 0, 3),
        ],
    ),
    (
        "an Ack",
        &[
            Takes(Opens(0, B)),
            Takes(First(0)),
            Takes(First(500)),
            Takes(In(600, Three, "c", AckFor(1, "b"), &[])),
            Takes(First(1000)),
            Fired(RoundEnd(1000)),
            Changed(&[]),
            Takes(Health(1000)),
            AnswersHealth(0, 0, 3),
        ],
    ),
];

/// With each `wire` an Ack of version 3 for another ends no relay, and one for b does.
const RELAYED: &[DetectorCase] = &[
    (
        "a relay, wire 2",
        &[
            Takes(Opens(0, &[Wire(2)])),
            Takes(In(0, Three, "a", Request(9, "c", 7003), &[])),
            Sends(1),
            Takes(In(10, Three, "c", AckFor(1, "x"), &[])),
            Sends(0),
            Takes(In(10, Three, "c", AckFor(1, "b"), &[])),
            Sends(1),
            SentIn(Two, 1, Ack(9), &[]),
        ],
    ),
    (
        "a relay, wire 3",
        &[
            Takes(Opens(0, &[Wire(3)])),
            Takes(In(0, Three, "a", Request(9, "c", 7003), &[])),
            SentIn(Three, 7003, Ping(1, "c"), &[Alive("b", 0)]),
            Takes(In(10, Three, "c", AckFor(1, "x"), &[])),
            Sends(0),
            Takes(In(10, Three, "c", AckFor(1, "b"), &[])),
            Sends(1),
            SentIn(Three, 1, AckFor(9, "a"), &[Alive("b", 0)]),
        ],
    ),
];

/// Each case, resumed at each place.
#[test]
fn hears_what_is_for_it(rt: HostRuntime) {
    for cases in [&[FOR_ANOTHER], FOR_B, RELAYED] {
        play_blank(&rt, rt.alloc(), cases);
        resume_each(&rt, rt.alloc(), &None, cases);
    }
}

/// a at port 7001 pings c at port 7003, and tells of itself.
const PING: &[u8] = b"SL\x03\x01\x00\x01a\x00\x00\x00\x01\x01c\x01\
    \x01\x01a\x04\x7f\x00\x00\x01\x1b\x59\x00\x00\x00\x00";

/// a asks b at port 7002 to ping c.
const REQUEST: &[u8] = b"SL\x03\x02\x00\x01a\x00\x00\x00\x01\x01c\x04\x7f\x00\x00\x01\x1b\x5b\x01\
    \x01\x01a\x04\x7f\x00\x00\x01\x1b\x59\x00\x00\x00\x00";

/// b pings c for a, and tells of a and of itself.
const RELAYED_PING: &[u8] = b"SL\x03\x01\x00\x01b\x00\x00\x00\x01\x01c\x02\
    \x01\x01a\x04\x7f\x00\x00\x01\x1b\x59\x00\x00\x00\x00\
    \x01\x01b\x04\x7f\x00\x00\x01\x1b\x5a\x00\x00\x00\x00";

/// b pings a in a round of its own.
const PING_OF_B: &[u8] = b"SL\x03\x01\x00\x01b\x00\x00\x00\x02\x01a\x02\
    \x01\x01a\x04\x7f\x00\x00\x01\x1b\x59\x00\x00\x00\x00\
    \x01\x01b\x04\x7f\x00\x00\x01\x1b\x5a\x00\x00\x00\x00";

/// b has no Ack for a so far.
const NACK: &[u8] = b"SL\x03\x04\x00\x01b\x00\x00\x00\x01\x01a\x00";

/// a acks the Ping of b.
const ACK_OF_A: &[u8] = b"SL\x03\x03\x00\x01a\x00\x00\x00\x02\x01b\x01\
    \x01\x01a\x04\x7f\x00\x00\x01\x1b\x59\x00\x00\x00\x00";

/// c acks the Ping of b.
const ACK: &[u8] = b"SL\x03\x03\x00\x01c\x00\x00\x00\x01\x01b\x03\
    \x01\x01a\x04\x7f\x00\x00\x01\x1b\x59\x00\x00\x00\x00\
    \x01\x01b\x04\x7f\x00\x00\x01\x1b\x5a\x00\x00\x00\x00\
    \x01\x01c\x04\x7f\x00\x00\x01\x1b\x5b\x00\x00\x00\x00";

/// b passes the Ack on to a.
const PASSED_ON: &[u8] = b"SL\x03\x03\x00\x01b\x00\x00\x00\x01\x01a\x03\
    \x01\x01c\x04\x7f\x00\x00\x01\x1b\x5b\x00\x00\x00\x00\
    \x01\x01a\x04\x7f\x00\x00\x01\x1b\x59\x00\x00\x00\x00\
    \x01\x01b\x04\x7f\x00\x00\x01\x1b\x5a\x00\x00\x00\x00";

/// What comes to a member, or happens to it: nothing but a tick, or bytes from a port.
#[derive(Clone, Copy)]
enum Comes {
    /// A tick, whose first word is this.
    Ticks(u64, u32),
    /// Bytes at a moment, from a port.
    Bytes(u64, u16, &'static [u8]),
}

/// What comes to a member, and then the port to which one packet is sent, and its bytes. There are none if nothing is
/// sent. Then the records that change, and the next deadline.
type Row = (Comes, u16, &'static [u8], &'static [Said], u64);

/// A member, and how it is opened. Then what comes to it, one after another.
type Played = (Member, &'static [Setting], &'static [Row]);

/// a probes c, with the help of b, whose Nack and Ack say that they are for a. The Ack of c says that it is for b. None
/// of them gossips.
const PLAYED: &[Played] = &[
    (
        "a",
        &[
            Own("a", 7001),
            Wire(3),
            GossipMs(0),
            Seed("b", 7002),
            Seed("c", 7003),
        ],
        &[
            (Comes::Ticks(0, 1), 7003, PING, &[], 500),
            (Comes::Ticks(500, 0), 7002, REQUEST, &[], 1000),
            (
                Comes::Bytes(920, 7002, PING_OF_B),
                7002,
                ACK_OF_A,
                &[],
                1000,
            ),
            (Comes::Bytes(920, 7002, NACK), 0, b"", &[], 1000),
            (Comes::Bytes(935, 7002, PASSED_ON), 0, b"", &[], 1000),
            (Comes::Ticks(1000, 0), 0, b"", &[], 1000),
        ],
    ),
    (
        "b",
        &[Own("b", 7002), Wire(3), GossipMs(0)],
        &[
            (
                Comes::Bytes(510, 7001, REQUEST),
                7003,
                RELAYED_PING,
                &[AliveAt("a", 7001)],
                0,
            ),
            (Comes::Ticks(510, 0), 7001, PING_OF_B, &[], 910),
            (Comes::Ticks(910, 0), 7001, NACK, &[], 1010),
            (
                Comes::Bytes(930, 7003, ACK),
                7001,
                PASSED_ON,
                &[AliveAt("c", 7003)],
                1010,
            ),
            (Comes::Bytes(931, 7003, ACK), 0, b"", &[], 1010),
        ],
    ),
    (
        "c",
        &[Own("c", 7003), Wire(3), GossipMs(0)],
        &[(
            Comes::Bytes(920, 7002, RELAYED_PING),
            7002,
            ACK,
            &[AliveAt("a", 7001), AliveAt("b", 7002)],
            0,
        )],
    ),
];

/// Lets something come to a member. Returns whether it was accepted.
fn come(detector: &mut Detector, what: &Comes, reply: &mut Reply) -> bool {
    match what {
        Comes::Ticks(now, word) => {
            let words = [*word, 0, 0, 0, 0, 0, 0, 0];
            takes(detector, &event_of(&TickBy(*now, words)), reply)
        }
        Comes::Bytes(now, port, bytes) => comes(detector, *now, *port, bytes, reply),
    }
}

/// Whether each packet goes to a port.
fn go_to(reply: &Reply, port: u16) -> bool {
    reply
        .sends
        .as_slice()
        .iter()
        .all(|sent| sent.to == local(port))
}

/// Lets what a row says come to a member. Returns whether the member replies as the row says.
fn comes_as(detector: &mut Detector, row: &Row, reply: &mut Reply) -> bool {
    let (what, port, bytes, changed, next) = row;
    come(detector, what, reply)
        && are_sent(reply, bytes)
        && go_to(reply, *port)
        && are_said(reply.changed.as_slice(), changed)
        && reply.next == *next
}

/// Three members tell one another for whom their answers are. What one sends is what comes to the other.
#[test]
fn names_its_receivers(rt: HostRuntime) {
    for (member, settings, rows) in PLAYED {
        let mut detector = blank(&rt, rt.alloc());
        let mut reply = Reply::default();
        detector.absorb(&event_of(&Opens(0, settings)));
        for (number, row) in rows.iter().enumerate() {
            let met = comes_as(&mut detector, row, &mut reply);
            assert!(rt; met, "{member}, row {number}: {reply:?}");
        }
    }
}
