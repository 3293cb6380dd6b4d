//! Copies, events that are absorbed, and summaries that are overwritten.
use crate::playing::blank;
use lg_detector::{Detector, Reply};
use lg_detector_testing::Happens::{self, Ask, From, Health, Opens, Ping, Pull, Tick};
use lg_detector_testing::{event_of, is_same_reply, is_same_state, takes};
use lg_testing::bodies::Says::{Ack, PullFirst};
use lg_testing::says::Said::{Alive, Suspect};
use std::alloc::Global;
use std::process::Abort;

/// An opening, claims, Acks, Pulls and questions. The ticks fire the start of a round, the asking of helpers, and the
/// end of the round.
const HAPPENED: &[Happens<'static>] = &[
    Opens(50, &[]),
    Ping(60, 1, "c", &[Alive("c", 0), Suspect("d", 2, "a")]),
    Ping(40, 2, "b", &[Suspect("b", 0, "c"), Alive("c", 1)]),
    From(70, "a", 1, Ack(3), &[Alive("a", 9)]),
    Tick(75),
    Ask(80, "d"),
    Health(85),
    Pull(86),
    From(87, "a", 1, PullFirst, &[]),
    Ping(90, 4, "b", &[Suspect("b", 1_000_000_000, "c")]),
    Tick(6000),
    Tick(6000),
];

/// Copies of replies are equal to them. A second detector, to which copies of the events happen, stays equal to the
/// first.
#[test]
fn copies_are_equal(rt: HostRuntime) {
    let mut detector = blank(&rt, rt.alloc());
    let mut second = blank(&rt, rt.alloc());
    let (mut reply, mut again) = (Reply::default(), Reply::default());
    for happens in HAPPENED {
        let event = event_of(happens);
        let accepted = takes(&mut detector, &event, &mut reply)
            && takes(&mut second, &event.copy(), &mut again);
        let same = is_same_reply(&reply, &again) && is_same_reply(&reply, &reply.copy());
        assert!(rt;
            accepted && same && is_same_state(&second, &detector),
            "{event:?}"
        );
    }
}

/// A detector that absorbs each event stays equal to one that steps by it, also in its next reply. The suspicion of
/// d, raised at 60 among three, is still to fire.
#[test]
fn absorbs_as_it_steps(rt: HostRuntime) {
    let mut detector = blank(&rt, rt.alloc());
    let mut absorbing = blank(&rt, rt.alloc());
    let (mut reply, mut again) = (Reply::default(), Reply::default());
    for happens in HAPPENED {
        let event = event_of(happens);
        let accepted = takes(&mut detector, &event, &mut reply);
        absorbing.absorb(&event);
        assert!(rt;
            accepted && is_same_state(&absorbing, &detector),
            "{event:?}"
        );
    }
    let last = event_of(&Ping(0, 5, "b", &[]));
    let accepted = takes(&mut detector, &last, &mut reply)
        && takes(&mut absorbing, &last, &mut again);
    let wanted = reply.sends.len() == 1 && reply.next == 5060 && reply.ousted;
    assert!(rt;
        accepted && is_same_reply(&reply, &again) && wanted,
        "{reply:?}"
    );
}

/// A detector after so many of the events.
fn after(rt: &impl Abort, alloc: Global, count: usize) -> Detector {
    let mut detector = blank(rt, alloc);
    for happens in HAPPENED.iter().take(count) {
        detector.absorb(&event_of(happens));
    }
    detector
}

/// A summary of all events is overwritten by that of the first ones, of one event more each time. What is resumed from
/// it takes the other events as the detector does to which the first ones happened.
#[test]
fn overwrites_a_summary(rt: HostRuntime) {
    let whole = after(&rt, rt.alloc(), HAPPENED.len());
    let mut summary = whole.summary(rt.alloc()).expect(&rt, "there is memory");
    for count in 0..=HAPPENED.len() {
        let mut detector = after(&rt, rt.alloc(), count);
        detector.summary_into(&mut summary);
        let mut resumed = Detector::resume(rt.alloc(), &summary).expect(&rt, "there is memory");
        let (mut reply, mut again) = (Reply::default(), Reply::default());
        let mut same = is_same_state(&resumed, &detector);
        for happens in HAPPENED.iter().skip(count) {
            let event = event_of(happens);
            let accepted = takes(&mut detector, &event, &mut reply);
            same = takes(&mut resumed, &event, &mut again) == accepted
                && is_same_reply(&reply, &again)
                && is_same_state(&resumed, &detector)
                && same;
        }
        assert!(rt; same, "{count}");
    }
}
