//! Telling a node to leave.
//!
//! Defined in: `lg_answers/specs/Meaning/Leaving.antt`.
//! Tested in: `lg_answers_tests/src/leaving.rt`, `lg_answers_refusals/src/refused_memory.rt`.
ghost use Rattle.std.specs.Prelude.{◌≡◌, IfOk, codes, option_map};
ghost use Rattle.std.specs.Str.{bytes_eq};
ghost use Rattle.lg_http.specs.Meaning.Asked.{asked_value};
ghost use Rattle.lg_answers.specs.Meaning.Answers.{answer_value};
ghost use Rattle.lg_answers.specs.Meaning.Leaving.{act_answer, leave_answer, leave_field, leave_reply};

use lg_answers::{LEAVE_FIELD, LeaveAsked, LeaveReply, is_leave, leave_reply};
use lg_http::{HttpAnswer, OtherRequest};
use lg_rules::Name;
use std::alloc::{AllocError, Global};
use std::sync::atomic::AtomicBool;
use std::sync::atomic::Ordering::SeqCst;

/// What the answer to a request to leave depends on.
fn leave_asked<'r>(asked: &'r OtherRequest<'_>) -> LeaveAsked<'r>
    ensures post { result.is_post ≡ bytes_eq asked.now.method.now (codes "POST") }
    ensures loopback { result.is_loopback ≡ asked.now.is_loopback }
    ensures named { option_map (λ value. value.now) result.named ≡ (asked_value asked.now).field leave_field }
{
    LeaveAsked {
        is_post: asked.method == "POST",
        is_loopback: asked.is_loopback,
        named: asked.field(LEAVE_FIELD),
    }
}

/// The answer of the node with this name to a request to leave, if it may be asked to leave and if not. Only if the
/// answer is that it leaves, `stop` is set. Memory is allocated for the body. The only error is that it was refused:
/// then `stop` stays as it is.
pub fn leave(
    alloc: Global,
    name: &Name,
    is_on: bool,
    asked: LeaveAsked<'_>,
    stop: &AtomicBool,
) -> Result<HttpAnswer, AllocError>
    ensures { IfOk result (λ answer. answer_value answer
        ≡ leave_answer name.now (leave_reply name.now is_on asked.entry.is_post asked.entry.is_loopback
        (option_map (λ value. value.now) asked.entry.named))) }
{
    let reply = leave_reply(name, is_on, asked);
    let answer = reply.answer(alloc, name)?;
    if reply == LeaveReply::Leaves {
        stop.store(true, SeqCst);
    }
    Ok(answer)
}

/// What the node with this name answers to a request whose method is neither GET nor HEAD, if it may be asked to leave
/// and if not. None if the request isn't one to leave. Otherwise as [`leave`] answers.
#[tactic(auto, using(crate::proofs::ActLaws::acted, crate::proofs::ActLaws::not_acted))]
pub(crate) fn act(
    alloc: Global,
    name: &Name,
    is_on: bool,
    asked: &OtherRequest<'_>,
    stop: &AtomicBool,
) -> Result<Option<HttpAnswer>, AllocError>
    ensures { IfOk result (λ answer.
        option_map answer_value answer ≡ act_answer name.now is_on (asked_value asked.now)) }
{
    if !is_leave(asked.path) {
        return Ok(None);
    }
    let answer = leave(alloc, name, is_on, leave_asked(asked), stop)?;
    Ok(Some(answer))
}
