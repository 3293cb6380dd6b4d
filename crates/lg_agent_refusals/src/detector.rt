//! Detectors, their tables and their summaries.
use lg_detector::{Detector, Event, NoMemory, Reply};
use lg_testing::{alive, at, letter, local, packet, ping};
use lg_timing::Config;
use std::alloc::Global;

/// A detector makes an event, if it accepts it. Gives the next deadline, and how many records changed.
fn made(detector: &mut Detector, event: &Event) -> (u64, usize) {
    let mut reply = Reply::default();
    if detector.accepts(event) {
        detector.step(event, &mut reply);
    }
    (reply.next, reply.changed.len())
}

/// A tick whose words are all 0.
fn ticked(detector: &mut Detector, now: u64) -> (u64, usize) {
    let (now, words) = (at(now), [0; 8]);
    made(detector, &Event::Tick { now, words })
}

/// A detector of b that is opened at 0 and hears of c.
fn heard(alloc: Global) -> Result<Detector, NoMemory> {
    let mut detector = Detector::blank(alloc)?;
    let (now, source) = (at(0), local(1));
    let config = Config::new(letter(b'b'), local(7000));
    let packet = packet(b'a', ping(7, b'b'), &[alive(b'c', 0)]);
    made(&mut detector, &Event::Open { now, config });
    made(
        &mut detector,
        &Event::Heard {
            now,
            source,
            packet,
        },
    );
    Ok(detector)
}

/// What is wrong with the table of a detector that knows b and c: 0 for nothing, 1 if memory was refused, or 2.
fn wrong_in_table(alloc: Global, detector: &Detector) -> usize {
    match detector.table(alloc) {
        Ok(table) if table.as_slice() == [alive(b'b', 0), alive(b'c', 0)].as_slice() => 0,
        Ok(_) => 2,
        Err(_) => 1,
    }
}

/// Two detectors give two tables each. If any one allocation is refused, only the call that wanted it fails.
#[test]
fn goes_on_after_refused_memory(rt: HostRuntime) {
    let mut wrong = 0_usize;
    for _ in 0..2 {
        let found = match heard(rt.alloc()) {
            Ok(detector) => {
                let first = wrong_in_table(rt.alloc(), &detector);
                first.saturating_add(wrong_in_table(rt.alloc(), &detector))
            }
            Err(_) => 1,
        };
        wrong = wrong.saturating_add(found);
    }
    assert!(rt; wrong <= 1, "{wrong}");
}

/// A detector that is resumed from a summary of this one. If memory is refused once, it is asked for again.
fn resumed_from(alloc: Global, whole: &Detector) -> Result<Detector, NoMemory> {
    let summary = match whole.summary(alloc) {
        Err(_) => whole.summary(alloc)?,
        Ok(summary) => summary,
    };
    match Detector::resume(alloc, &summary) {
        Err(_) => Detector::resume(alloc, &summary),
        resumed => resumed,
    }
}

/// Moments of ticks after a probe that nobody acks, with the next deadline, and how many records change: helpers would
/// be asked, c is suspected, and the next round starts.
const NOT_ACKED: [(u64, (u64, usize)); 3] = [
    (500, (1000, 0)),
    (1000, (1000, 1)),
    (1000, (2000, 0)),
];

/// Whether a detector ticks so.
fn is_not_acked(detector: &mut Detector) -> bool {
    let mut met = true;
    for (now, want) in NOT_ACKED {
        met = ticked(detector, now) == want && met;
    }
    met
}

/// If memory is refused to a summary or to a resumed detector, the detector and the summary stay as they were.
#[test]
fn resumes_after_refused_memory(rt: HostRuntime) {
    let mut shown = false;
    for _ in 0..2 {
        if let Ok(mut whole) = heard(rt.alloc()) {
            let round = ticked(&mut whole, 0);
            let mut resumed = resumed_from(rt.alloc(), &whole).expect(&rt, "one refusal at most");
            let met = is_not_acked(&mut whole) && is_not_acked(&mut resumed);
            assert!(rt; met && round == (500, 0));
            shown = true;
        }
    }
    assert!(rt; shown);
}
