//! Asks a node a question, and tells what it answers.
//!
//! Defined in: `specs/Meaning/Telling.antt`, `specs/Meaning/Told.antt`.
//! Tested in: `cases/ask.case`, `lg_client_tests/src/asking.rt`, `lg_client_tests/src/damaged.rt`,
//! `lg_client_tests/src/waiting.rt`.
ghost use Rattle.std.specs.Prelude.{◌≡◌};
ghost use Rattle.lg_text.specs.Meaning.Reporting.{Reports};
ghost use Rattle.lg_client.specs.Meaning.Faults.{ask_fault_status, ask_fault_text};
ghost use Rattle.lg_client.specs.Meaning.Questions.{codes_of};
ghost use Rattle.lg_client.specs.Meaning.Telling.{IsAnswerTold, TellsAnswer, told_status};
ghost use Rattle.lg_client.specs.Meaning.Told.{question_told};
ghost use Rattle.lg_client.specs.Support.Reading.{told_shown};
ghost use Rattle.lg_client.specs.Support.Receiving.{IsFetched};
ghost use Rattle.lg_client.specs.Support.Asking.{AnswersQuestion, IsToldAt};

use crate::address::address_in;
use crate::asker::ask_twice;
use crate::asking::{NetAsker, Node, PATIENCE_MS};
use crate::fault::AskFault;
use crate::receiving::Answer;
use crate::resource::{NodeQuestion, Resource};
use crate::told::{Told, told_in};
use lg_text::{FaultStream, report, write_whole};
use std::alloc::Global;
use std::io::Write;
use std::net::Net;
use std::rt;

/// Reports a fault, and gives its status.
pub(crate) fn tell<F: FaultStream>(fault: AskFault, faults: &mut F) -> u8
    ensures line { Reports (F.reported faults.old) (F.reported faults.new) (ask_fault_text fault) }
    ensures status { result ≡ ask_fault_status fault }
{
    report(faults, fault.text());
    fault.status()
}

/// What an answer tells, if one came.
#[tactic(auto, using(crate::proofs::AskLaws::answers_from, crate::proofs::AskLaws::unheard_from))]
fn told_from(
    alloc: Global,
    resource: Resource,
    json: bool,
    fetched: Result<Answer, AskFault>,
) -> Result<Told, AskFault>
    requires { IsFetched (codes_of resource) fetched }
    ensures { AnswersQuestion (codes_of resource) told_shown (question_told resource json) result }
{
    match fetched {
        Ok(answer) => told_in(alloc, resource, json, answer.body()),
        Err(fault) => Err(fault),
    }
}

/// What the node at the address of a question answers.
#[tactic(auto, using(crate::proofs::AskLaws::told_at, crate::proofs::AskLaws::unasked_at))]
fn told_at<M: Net + rt::Clock>(
    rt: &M,
    alloc: Global,
    question: &NodeQuestion<'_>,
) -> Result<Told, AskFault>
    ensures { IsToldAt question.now.at.now (codes_of question.now.resource) told_shown
        (question_told question.now.resource question.now.json) result }
{
    let address = match address_in(question.at) {
        Ok(address) => address,
        Err(fault) => return Err(fault),
    };
    let node = Node {
        at: question.at,
        address,
        patience_ms: PATIENCE_MS,
    };
    let mut asker = NetAsker { rt, alloc, node };
    let resource = question.resource;
    let fetched = ask_twice(&mut asker, resource.target(), resource.codes());
    told_from(alloc, resource, question.json, fetched)
}

/// The status of what is told.
fn told_status(is_ousted: bool) -> u8
    ensures { result ≡ told_status is_ousted }
{
    if is_ousted { 4 } else { 0 }
}

/// Writes what an answer tells, and gives the status.
fn write_told<W: Write, F: FaultStream>(told: &Told, writer: &mut W, faults: &mut F) -> u8
    ensures { IsAnswerTold (W.contents writer.old) (W.contents writer.new)
        (F.reported faults.old) (F.reported faults.new) (told_shown told.now) result }
{
    match write_whole(writer, &told.text) {
        Ok(()) => told_status(told.is_ousted),
        Err(fault) => tell(AskFault::Write(fault), faults),
    }
}

/// Asks a node a question, and writes what it answers: its members or its health, as lines, or with `json` as the body
/// came, with a newline behind it. Gives the exit status.
///
/// The text of the address is A.B.C.D:PORT, or an IPv6 address in brackets before :PORT. The request is
/// `GET /v1/members` or `GET /v1/health`, on a connection of its own. The answer has at most 1,048,576 bytes with its
/// head, and the status code 200; that of a health may be 503 too. Its body is read as JSON, and fields that aren't
/// known are passed over. The whole text is made before its first byte is written.
///
/// The status is 0, or 4 if the node says that it was ousted. If nothing can be told, that is reported in a line, and
/// the status is that of the fault ([`AskFault::status`]): 3 if the text spells no address, 7 if nobody takes the
/// connection within 2 seconds, or it ends or is silent for 10 seconds before the answer is whole, 8 if what came is no
/// answer of a node, 10 if the node is busy, 1 if memory is refused. Then nothing is written. If the text isn't written
/// whole, the status is 1. A line that `faults` doesn't take is dropped.
///
/// The node is busy if it closes the connection before a byte came, or answers 503 with `Retry-After` in seconds. (A
/// health may have the code 503, so its text is told in any case.) Then this waits, and asks once more: after a second,
/// or after as many as the answer says, at least 1 and at most 5. The status is 10 if the node is busy again.
///
/// Memory is allocated in proportion to the answer. Which bytes come is up to the network: no contract says it.
pub fn tell_answer<M: Net + rt::Clock, W: Write, F: FaultStream>(
    rt: &M,
    alloc: Global,
    question: &NodeQuestion<'_>,
    writer: &mut W,
    faults: &mut F,
) -> u8
    ensures { TellsAnswer question.now.at.now question.now.resource question.now.json writer.old writer.new
        (W.contents writer.old) (W.contents writer.new) (F.reported faults.old) (F.reported faults.new) result }
{
    match told_at(rt, alloc, question) {
        Ok(told) => write_told(&told, writer, faults),
        Err(fault) => tell(fault, faults),
    }
}
