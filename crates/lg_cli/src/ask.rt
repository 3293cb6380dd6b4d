//! Asks a running node, as a command wishes.
//!
//! Defined in: `specs/Meaning/Running.antt`, `lg_client/specs/Meaning/Telling.antt`, `Watching.antt`.
//! Tested in: `cases/ask.case`, `cases/status`.
ghost use Rattle.lg_cli.specs.Meaning.Running.{AsksNode};

use lg_client::{NodeQuestion, Resource, tell_answer, watch_changes};
use lg_command_line::Question;
use lg_text::FaultStream;
use std::alloc::Global;
use std::io::Write;
use std::net::Net;
use std::rt;

/// What the words of the command `members`, `status` or `watch` ask for.
#[derive(Clone, Copy, Debug)]
pub struct AskWords<'a> {
    /// What the node is asked, which says which of the commands it is.
    pub question: Question,
    /// The text of the address at which the node answers, with its port. It may spell no address.
    pub at: &'a str,
    /// Whether the answers are written as they come, in place of lines.
    pub json: bool,
}

/// Asks a node what a command asks for, and writes what it answers. Gives the exit status.
///
/// `members` and `status` are [`tell_answer`], which asks for one answer. `watch` is [`watch_changes`], which asks
/// until that fails. Both say what is written, told and allocated, and when they ask once more.
pub fn ask_node<M, W, F>(
    rt: &M,
    alloc: Global,
    words: &AskWords<'_>,
    writer: &mut W,
    faults: &mut F,
) -> u8
where
    M: Net + rt::Clock,
    W: Write,
    F: FaultStream,
    ensures { AsksNode words.now.question words.now.at.now words.now.json writer.old writer.new
        (W.contents writer.old) (W.contents writer.new) (F.reported faults.old) (F.reported faults.new) result }
{
    let AskWords { question, at, json } = *words;
    match question {
        Question::Members => {
            let resource = Resource::Members;
            let question = NodeQuestion { at, resource, json };
            tell_answer(rt, alloc, &question, writer, faults)
        }
        Question::Status => {
            let resource = Resource::Health;
            let question = NodeQuestion { at, resource, json };
            tell_answer(rt, alloc, &question, writer, faults)
        }
        Question::Watch => watch_changes(rt, alloc, at, json, writer, faults),
    }
}
