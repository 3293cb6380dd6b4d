//! Plays on detectors. Each asserts that it goes as its case says, and else tells where it doesn't.
use lg_detector::Detector;
use lg_detector_testing::{DetectorCase, Opening, Step};
use std::alloc::Global;
use std::process::Abort;

/// A detector that nothing has happened to.
pub(crate) fn blank(rt: &impl Abort, alloc: Global) -> Detector {
    Detector::blank(alloc).expect(rt, "there is memory")
}

/// b, opened at 0.
pub(crate) fn opened(rt: &impl Abort, alloc: Global) -> Detector {
    lg_detector_testing::opened(alloc).expect(rt, "there is memory")
}

/// Plays the steps of a case on a detector.
pub(crate) fn play_on(rt: &impl Abort, detector: &mut Detector, case: &str, steps: &[Step<'_>]) {
    let played = lg_detector_testing::play_on(detector, case, steps);
    assert!(rt; played.is_ok(), "{played:?}");
}

/// Plays each case on its own detector, to which nothing has happened.
pub(crate) fn play_blank(rt: &impl Abort, alloc: Global, cases: &[DetectorCase]) {
    let played = lg_detector_testing::play_blank(alloc, cases);
    assert!(rt; played.is_ok(), "{played:?}");
}

/// Plays each case on its own b, opened at 0. Then resumes such a b at each place of the case.
pub(crate) fn play(rt: &impl Abort, alloc: Global, cases: &[DetectorCase]) {
    let played = lg_detector_testing::play(alloc, cases);
    assert!(rt; played.is_ok(), "{played:?}");
}

/// Resumes detectors at each place of each case.
pub(crate) fn resume_each(
    rt: &impl Abort,
    alloc: Global,
    opening: &Opening,
    cases: &[DetectorCase],
) {
    let resumed = lg_detector_testing::resume_each(alloc, opening, cases);
    assert!(rt; resumed.is_ok(), "{resumed:?}");
}
