//! What the calls of C do with an event.
//!
//! Defined in: `specs/Support/Calling.antt`, `specs/Meaning/Calls.antt`.
ghost use Rattle.std.specs.Prelude.{◌≡◌, [], ◌∷◌, None, Ok, true, false};
ghost use Rattle.lg_detector.specs.Meaning.Step.{is_accepted, reply_after};
ghost use Rattle.lg_detector.specs.Support.Step.{state_after};
ghost use Rattle.lg_c.specs.Support.Calling.{Advances, AnswersHeld, AnswersTold, OpensHeld};
ghost use Rattle.lg_c.specs.Meaning.Replies.{c_reply};

use crate::handle::LgDetector;
use crate::reply::LgReply;
use crate::status::{BAD_CONFIG, CLOSED, ENDED, NO_MEMORY, OK, OPEN};
use lg_detector::{Detector, Event, Reply};
use std::alloc::Global;
use std::mem;

/// Hands an event to a detector, if it accepts it, and writes the reply.
fn advance(detector: &mut Detector, event: &Event, out: &mut LgReply) -> u32
    ensures { Advances event.now detector.old out.old result detector.new out.new }
{
    if !detector.accepts(event) {
        return ENDED;
    }
    let mut reply = Reply::default();
    detector.step(event, &mut reply);
    out.write(&reply);
    OK
}

/// Hands the event that C tells to a detector, and writes the reply. If C tells none, it answers why.
fn answer(detector: &mut Detector, told: &Result<Event, u32>, out: &mut LgReply) -> u32
    ensures { AnswersTold told.now detector.old out.old result detector.new out.new }
{
    match told {
        Ok(event) => advance(detector, event, out),
        Err(status) => *status,
    }
}

/// Hands the event that C tells to the detector that C holds.
pub(crate) fn happen(
    alloc: Global,
    detector: &mut LgDetector,
    told: &Result<Event, u32>,
    out: &mut LgReply,
) -> u32
    ensures { AnswersHeld told.now detector.old.kept.value out.old result detector.new.kept.value out.new }
{
    let taken = mem::replace(detector, LgDetector::closed());
    let Some(mut held) = taken.take(alloc) else {
        return CLOSED;
    };
    let status = answer(&mut held, told, out);
    *detector = LgDetector::of(held);
    status
}

/// Hands the first event to a detector, if it accepts it, and writes the reply.
fn begin(detector: &mut Detector, event: &Event, out: &mut LgReply) -> bool
    requires { detector.old ≡ state_after [] }
    ensures accepted { result ≡ is_accepted (event.now ∷ []) }
    ensures state { result ≡ true → detector.new ≡ state_after (event.now ∷ []) }
    ensures reply { result ≡ true → out.new ≡ c_reply (reply_after [] event.now) out.old }
    ensures unchanged { result ≡ false → out.new ≡ out.old }
{
    if !detector.accepts(event) {
        return false;
    }
    let mut reply = Reply::default();
    detector.step(event, &mut reply);
    out.write(&reply);
    true
}

/// Opens a closed detector by the event that C tells, and writes the reply.
fn open_closed(alloc: Global, detector: &mut LgDetector, event: &Event, out: &mut LgReply) -> u32
    requires { detector.old.kept.value ≡ None }
    ensures { OpensHeld (Ok event.now) None out.old result detector.new.kept.value out.new }
{
    let Ok(blank) = Detector::blank(alloc) else {
        return NO_MEMORY;
    };
    let Ok(mut held) = Box::new(alloc, blank) else {
        return NO_MEMORY;
    };
    if !begin(&mut held, event, out) {
        return BAD_CONFIG;
    }
    *detector = LgDetector::of(held);
    OK
}

/// Opens the detector that C holds by the event that C tells, if it is closed, and writes the reply.
pub(crate) fn open(
    alloc: Global,
    detector: &mut LgDetector,
    told: &Result<Event, u32>,
    out: &mut LgReply,
) -> u32
    ensures { OpensHeld told.now detector.old.kept.value out.old result detector.new.kept.value out.new }
{
    let taken = mem::replace(detector, LgDetector::closed());
    if let Some(held) = taken.take(alloc) {
        *detector = LgDetector::of(held);
        return OPEN;
    }
    match told {
        Ok(event) => open_closed(alloc, detector, event, out),
        Err(status) => *status,
    }
}
