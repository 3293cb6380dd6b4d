//! Watches an agent from its start until it is told to stop.
//!
//! Defined in: `specs/Meaning/Sights.antt`, `specs/Support/Telling.antt`.
//! Tested in: `lg_node_tests/src/watching.rt`.
ghost use Rattle.lg_follow.specs.Meaning.Sights.{HasWatched};
ghost use Rattle.lg_follow.specs.Support.Telling.{FinishedAs};

use crate::lines::stood_line;
use crate::news::News;
use crate::watched::Watched;
use crate::watcher::Watcher;
use lg_agent::{AgentName, Pass};
use lg_clock::Clock;
use lg_text::write_whole;
use std::alloc::Global;
use std::io::Write;
use std::sync::atomic::AtomicBool;
use std::sync::atomic::Ordering::SeqCst;

/// How long a watcher waits at most, in milliseconds, before it tries a look anew that was refused (this project's
/// choice).
pub const RETRY_MS: u64 = 50;

/// Writes the last line, unless the writer has failed before.
fn finish<C: Clock, W: Write>(clock: &C, writer: &mut W, turned: Watched) -> Watched
    ensures { FinishedAs turned result (W.contents writer.old) (W.contents writer.new) }
{
    if let Watched::WriterFailed = turned {
        return turned;
    }
    let line = stood_line(clock.now(), clock.stood_still());
    match write_whole(writer, line.as_bytes()) {
        Ok(()) => turned,
        Err(_) => Watched::WriterFailed,
    }
}

/// Tells each change of a record, and each name that was forgotten, until the stop flag is set: each once, in the order
/// in which they happened, also those that came and went between two looks.
///
/// It begins with a line for each member, its own included, in the order of names:
/// `MS record NAME STATUS INCARNATION ADDRESS:PORT`, as [`put_table`](lg_lines::put_table) writes a record. Then it
/// looks whenever there is news, and tells each change since the look before: by such a line if a record changed, and
/// by a line `MS forgotten NAME` if a name was forgotten. MS of a change is the greatest moment handed in by then, in
/// milliseconds, and MS of a member the greatest that the look found. If more than 1,024 changes came between two
/// looks, they aren't all kept ([`MAX_CHANGES`](lg_changes::MAX_CHANGES)). It writes a line `MS missed` in their place,
/// and then a line for each member. The news has to come when the stop flag was set too. After the flag was seen, it
/// looks once more, and ends with a line `MS stood-still N`: by the moment MS its clock has left out N milliseconds.
///
/// Its looks take no lock. A turn before which no event came allocates nothing; others allocate memory for 256 records,
/// for a copy of the changes, and for the text if it has to grow. If memory or the view is refused, the lines are told
/// in the next turn, after [`RETRY_MS`] at most. The text of a look is written only once it is whole, and then the
/// writer is flushed. A writer that fails ends the watcher at once.
pub fn watch<A: AgentName, C: Clock, N: News, W: Write>(
    alloc: Global,
    clock: &C,
    news: &N,
    stop: &AtomicBool,
    pass: &mut Pass<'_, A>,
    writer: &mut W,
) -> Watched
    ensures { HasWatched pass.old pass.new (W.contents writer.old) (W.contents writer.new) result }
{
    let mut watcher = Watcher::new(alloc);
    for _ in 0..u64::MAX {
        if stop.load(SeqCst) {
            break;
        }
        match watcher.turn(alloc, pass, writer) {
            Watched::WriterFailed => return Watched::WriterFailed,
            Watched::Told => news.wait(None),
            Watched::Refused(_) => news.wait(Some(RETRY_MS)),
        }
    }
    let turned = watcher.turn(alloc, pass, writer);
    finish(clock, writer, turned)
}
