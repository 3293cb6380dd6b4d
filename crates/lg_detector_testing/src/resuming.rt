//! Detectors that go on from a summary. The summary is taken at any place among the events of a play. From there on,
//! the detector that is resumed from it replies like the one that all the events happened to. Each play of a b that
//! is opened at 0 is resumed in this way.
use crate::comparing::{is_same_reply, is_same_state};
use crate::happening::{Happens, event_of};
use crate::playing::{DetectorCase, Mismatch, Step, takes};
use lg_detector::{Detector, Event, NoMemory, Reply};
use std::alloc::Global;

/// What happens in a step. The claims that a step hears in several Pings come in one here.
fn happens_in<'a>(step: &Step<'a>) -> Option<Happens<'a>> {
    match step {
        Step::Takes(happens) => Some(*happens),
        Step::Refuses(happens) => Some(*happens),
        Step::Replies(happens, _, _, _, _) => Some(*happens),
        Step::Hears(now, said) => Some(Happens::Ping(*now, 1, "z", said)),
        Step::Ticks(now, _, _, _) => Some(Happens::Tick(*now)),
        _ => None,
    }
}

/// What happens before any step of a play.
pub type Opening = Option<Happens<'static>>;

/// A detector after the opening and the first steps.
fn before(
    alloc: Global,
    opening: &Opening,
    steps: &[Step<'_>],
    place: usize,
) -> Result<Detector, NoMemory> {
    let mut detector = Detector::blank(alloc)?;
    if let Some(happens) = opening {
        detector.absorb(&event_of(happens));
    }
    for step in steps.iter().take(place) {
        if let Some(happens) = happens_in(step) {
            detector.absorb(&event_of(&happens));
        }
    }
    Ok(detector)
}

/// Whether two detectors give the same reply to an event, and are equal after it.
fn take_alike(one: &mut Detector, other: &mut Detector, event: &Event) -> bool {
    let (mut reply, mut again) = (Reply::default(), Reply::default());
    let accepted = takes(one, event, &mut reply);
    takes(other, event, &mut again) == accepted
        && is_same_reply(&reply, &again)
        && is_same_state(one, other)
}

/// Whether two detectors go on the same way from a place in the steps on.
fn go_alike(one: &mut Detector, other: &mut Detector, steps: &[Step<'_>], place: usize) -> bool {
    let mut alike = is_same_state(one, other);
    for step in steps.iter().skip(place) {
        if let Some(happens) = happens_in(step) {
            alike = take_alike(one, other, &event_of(&happens)) && alike;
        }
    }
    alike
}

/// Resumes a detector at a place in the steps, and takes a summary of the resumed one as well. Both summaries are
/// resumed once more after their detectors have gone on. Returns whether each of the three goes on like the detector
/// that all events happened to.
fn goes_on(
    alloc: Global,
    opening: &Opening,
    steps: &[Step<'_>],
    place: usize,
) -> Result<bool, NoMemory> {
    let mut whole = before(alloc, opening, steps, place)?;
    let summary = whole.summary(alloc)?;
    let mut resumed = Detector::resume(alloc, &summary)?;
    let again = resumed.summary(alloc)?;
    let mut alike = go_alike(&mut whole, &mut resumed, steps, place);
    for kept in [summary, again] {
        let mut whole = before(alloc, opening, steps, place)?;
        let mut late = Detector::resume(alloc, &kept)?;
        alike = go_alike(&mut whole, &mut late, steps, place) && alike;
    }
    Ok(alike)
}

/// The first place in the steps of a case at which a resumed detector goes on in another way.
fn resume<'a>(
    alloc: Global,
    opening: &Opening,
    case: &'a str,
    steps: &[Step<'_>],
) -> Result<(), Mismatch<'a>> {
    for place in 0..=steps.len() {
        if !goes_on(alloc, opening, steps, place)? {
            return Err(Mismatch::Resumed(case, place));
        }
    }
    Ok(())
}

/// Resumes detectors at each place of each case, up to the first that goes on in another way.
pub fn resume_each(
    alloc: Global,
    opening: &Opening,
    cases: &[DetectorCase],
) -> Result<(), Mismatch<'static>> {
    for (case, steps) in cases {
        resume(alloc, opening, case, steps)?;
    }
    Ok(())
}
