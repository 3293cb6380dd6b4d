//! Slots of the table. The slot of a name that was forgotten is given to a later name: nothing that was kept of the
//! first one counts for the later one. As long as a name is known, what was kept of it stays.
use crate::playing::{play_blank, resume_each};
use crate::rooms::{NumberedCase, play_numbered};
use lg_detector_testing::DetectorCase;
use lg_detector_testing::Happens::{Ack, First, Health, In, Nack, Opens, Tick, TickBy};
use lg_detector_testing::Setting::{ForgetMs, Interval, Seed};
use lg_detector_testing::Step::{
    self, AnswersHealth, Changed, Fired, Forgot, Next, Pings, Replies, Sends, Sent, Takes, Ticks,
};
use lg_packet::Version::Three;
use lg_testing::Due::{Direct, Forget, Nothing, RoundEnd, RoundStart, Suspicion};
use lg_testing::bodies::Says::{Gossip, Request};
use lg_testing::says::Said::{Alive, AliveAt, Failed, Left, LeftAt, Suspect, SuspectAt};

/// m007 is probed and then forgotten for x. Nobody is asked to help, and nobody is accused. x wasn't chosen in this
/// round: it is the last of 255 candidates.
const A_TARGET: NumberedCase = (
    "a target",
    60_000,
    &[
        Takes(TickBy(0, [7, 0, 0, 0, 0, 0, 0, 0])),
        Fired(RoundStart(0)),
        Sends(1),
        Pings(1, "m007"),
        Next(500),
        Takes(In(10, Three, "a", Gossip, &[Left("m007", 0)])),
        Changed(&[Left("m007", 0)]),
        Takes(In(20, Three, "a", Gossip, &[Alive("x", 0)])),
        Changed(&[Alive("x", 0)]),
        Forgot(&["m007"]),
        Ticks(500, Direct(500), &[], 1000),
        Ticks(1000, RoundEnd(1000), &[], 1000),
        Takes(Health(1000)),
        AnswersHealth(1, 0, 256),
        Takes(TickBy(1000, [254, 0, 0, 0, 0, 0, 0, 0])),
        Fired(RoundStart(1000)),
        Sends(1),
        Pings(2, "x"),
        Next(2000),
    ],
);

/// The slot of a target that was forgotten is that of x.
#[test]
fn gives_the_slot_of_a_target(rt: HostRuntime) {
    play_numbered(&rt, rt.alloc(), &[A_TARGET]);
}

/// b forgets after a second, and knows c, d, e and f.
const OPENS: Step<'static> = Takes(Opens(
    0,
    &[
        ForgetMs(1000),
        Seed("c", 7000),
        Seed("d", 7000),
        Seed("e", 7000),
        Seed("f", 7000),
    ],
));

/// d suspects c at 0, and leaves at 10.
const D_SUSPECTS: Step<'static> = Takes(In(0, Three, "a", Gossip, &[Suspect("c", 0, "d")]));

const D_LEAVES: Step<'static> = Takes(In(10, Three, "a", Gossip, &[Left("d", 0)]));

/// A tick whose first word chooses the second candidate.
const SECOND: [u32; 8] = [1, 0, 0, 0, 0, 0, 0, 0];

/// x becomes known, once d is forgotten. Then x suspects c, d does so again, and e does.
const X_COMES: Step<'static> = Takes(In(1020, Three, "a", Gossip, &[Alive("x", 0)]));

const X_SUSPECTS: Step<'static> = Takes(In(1020, Three, "a", Gossip, &[Suspect("c", 0, "x")]));

const D_SUSPECTS_AGAIN: Step<'static> = Takes(In(
    1020,
    Three,
    "a",
    Gossip,
    &[Suspect("c", 0, "d")],
));

const E_SUSPECTS: Step<'static> = Takes(In(1020, Three, "a", Gossip, &[Suspect("c", 0, "e")]));

/// d suspects c and is forgotten, and x has its slot. x confirms the suspicion, and d doesn't: it did before.
const AN_ACCUSER: DetectorCase = (
    "an accuser",
    &[
        OPENS,
        D_SUSPECTS,
        Changed(&[Suspect("c", 0, "d")]),
        D_LEAVES,
        Changed(&[Left("d", 0)]),
        Takes(TickBy(1010, SECOND)),
        Fired(RoundStart(0)),
        Sends(1),
        Pings(1, "e"),
        Next(1010),
        Ticks(1010, Forget(1010, "d"), &[], 1510),
        X_COMES,
        Changed(&[Alive("x", 0)]),
        X_SUSPECTS,
        Changed(&[]),
        D_SUSPECTS_AGAIN,
        Changed(&[]),
        Takes(Tick(40_000)),
        Fired(Direct(1510)),
        Takes(Tick(40_000)),
        Fired(RoundEnd(2010)),
        Changed(&[Suspect("e", 0, "b")]),
        Takes(Tick(40_000)),
        Fired(Suspicion(17_500, "c")),
        Changed(&[Failed("c", 0)]),
    ],
);

/// e confirms the suspicion too, and is forgotten: its confirmation stays.
const ANOTHER_ACCUSER: DetectorCase = (
    "another accuser",
    &[
        OPENS,
        D_SUSPECTS,
        D_LEAVES,
        Takes(TickBy(1010, SECOND)),
        Ticks(1010, Forget(1010, "d"), &[], 1510),
        X_COMES,
        X_SUSPECTS,
        D_SUSPECTS_AGAIN,
        E_SUSPECTS,
        Changed(&[]),
        Takes(In(1030, Three, "a", Gossip, &[Left("e", 0)])),
        Changed(&[Left("e", 0)]),
        Takes(Tick(2030)),
        Fired(Direct(1510)),
        Takes(Tick(2030)),
        Fired(RoundEnd(2010)),
        Changed(&[]),
        Takes(TickBy(2030, SECOND)),
        Fired(RoundStart(2030)),
        Sends(1),
        Pings(2, "f"),
        Next(2030),
        Ticks(2030, Forget(2030, "e"), &[], 3530),
        Takes(Tick(40_000)),
        Fired(Direct(3530)),
        Takes(Tick(40_000)),
        Fired(RoundEnd(5030)),
        Changed(&[Suspect("f", 0, "b")]),
        Takes(Tick(40_000)),
        Fired(Suspicion(10_200, "c")),
        Changed(&[Failed("c", 0)]),
    ],
);

/// d is asked to help and is forgotten, and x has its slot. The Ack and the Nack of x don't count. The Nack of d does,
/// so that the score rises by one only.
const A_HELPER: DetectorCase = (
    "a helper",
    &[
        Takes(Opens(
            0,
            &[
                Interval(3000),
                ForgetMs(1000),
                Seed("c", 7003),
                Seed("d", 7004),
            ],
        )),
        Takes(First(0)),
        Fired(RoundStart(0)),
        Sends(1),
        Pings(1, "c"),
        Next(500),
        Takes(First(500)),
        Fired(Direct(500)),
        Sends(1),
        Sent(0, 7004, Request(1, "c", 7003), &[]),
        Next(3000),
        Takes(In(510, Three, "a", Gossip, &[LeftAt("d", 0, 7004)])),
        Changed(&[LeftAt("d", 0, 7004)]),
        Ticks(1510, Forget(1510, "d"), &[], 3000),
        Takes(In(1520, Three, "a", Gossip, &[AliveAt("x", 7005)])),
        Changed(&[AliveAt("x", 7005)]),
        Replies(Ack(1530, "x", 1), Nothing, &[], &[], 3000),
        Replies(Nack(1540, "x", 1), Nothing, &[], &[], 3000),
        Replies(Nack(1550, "d", 1), Nothing, &[], &[], 3000),
        Ticks(3000, RoundEnd(3000), &[SuspectAt("c", 0, "b", 7003)], 3000),
        Takes(Health(3000)),
        AnswersHealth(1, 0, 3),
    ],
);

/// c was chosen, left and came back. It was known all the time, so it stays chosen in its round.
const COMES_BACK: DetectorCase = (
    "a target that left and came back",
    &[
        Takes(Opens(0, &[Seed("c", 7000), Seed("d", 7000)])),
        Takes(First(0)),
        Pings(1, "c"),
        Takes(Ack(10, "c", 1)),
        Takes(In(20, Three, "a", Gossip, &[Left("c", 0)])),
        Changed(&[Left("c", 0)]),
        Takes(In(30, Three, "a", Gossip, &[Alive("c", 1)])),
        Changed(&[Alive("c", 1)]),
        Takes(First(1000)),
        Fired(RoundEnd(1000)),
        Takes(First(1000)),
        Fired(RoundStart(1000)),
        Pings(2, "d"),
    ],
);

/// Each case, resumed at each place.
#[test]
fn keeps_what_goes_by_names(rt: HostRuntime) {
    let cases = &[AN_ACCUSER, ANOTHER_ACCUSER, A_HELPER, COMES_BACK];
    play_blank(&rt, rt.alloc(), cases);
    resume_each(&rt, rt.alloc(), &None, cases);
}
