//! Asks a node for changes, again and again, and tells what it answers.
//!
//! Defined in: `specs/Meaning/Watching.antt`, `specs/Meaning/Told.antt`.
//! Tested in: `cases/ask.case`, `lg_client_tests/src/watching.rt`, `lg_client_tests/src/waiting.rt`.
ghost use Rattle.std.specs.Prelude.{◌≡◌};
ghost use Rattle.lg_client.specs.Meaning.Addresses.{HasNodeAddress};
ghost use Rattle.lg_client.specs.Meaning.Questions.{changes_codes};
ghost use Rattle.lg_client.specs.Meaning.Told.{changes_told};
ghost use Rattle.lg_client.specs.Meaning.Watching.{WatchesChanges, next_version};
ghost use Rattle.lg_client.specs.Support.Asking.{AnswersQuestion};
ghost use Rattle.lg_client.specs.Support.Reading.{told_news_shown};
ghost use Rattle.lg_client.specs.Support.Receiving.{IsFetched};

use crate::address::address_in;
use crate::asker::{Asker, ask_again};
use crate::asking::{NetAsker, Node, WATCH_PATIENCE_MS};
use crate::fault::AskFault;
use crate::receiving::Answer;
use crate::resource::changes_target;
use crate::telling::tell;
use crate::told::{ToldNews, news_told_in};
use lg_text::{FaultStream, write_whole};
use std::alloc::Global;
use std::io::Write;
use std::net::Net;
use std::rt;

/// The status codes that an answer with changes may have.
const CODES: [u16; 1] = [200];

/// Where the watching stands.
#[derive(Clone, Copy, Debug)]
struct Place {
    /// The version to ask from.
    version: u64,
    /// There was no answer yet.
    is_first: bool,
}

/// The version to ask from next: that of the answer, or 0 if it is less than what was asked for.
fn next_version(asked: u64, version: u64) -> u64
    ensures { result ≡ next_version asked version }
{
    if version < asked { 0 } else { version }
}

/// What an answer tells, if one came.
#[tactic(auto, using(crate::proofs::AskLaws::answers_from, crate::proofs::AskLaws::unheard_from))]
fn news_from(
    alloc: Global,
    json: bool,
    is_first: bool,
    fetched: Result<Answer, AskFault>,
) -> Result<ToldNews, AskFault>
    requires { IsFetched changes_codes fetched }
    ensures { AnswersQuestion changes_codes told_news_shown (changes_told json is_first) result }
{
    match fetched {
        Ok(answer) => news_told_in(alloc, json, is_first, answer.body()),
        Err(fault) => Err(fault),
    }
}

/// What a node answers if it is asked for changes.
fn news_at<A: Asker>(
    alloc: Global,
    asker: &mut A,
    json: bool,
    place: Place,
) -> Result<ToldNews, AskFault>
    ensures { AnswersQuestion changes_codes told_news_shown (changes_told json place.is_first) result }
{
    let Ok(target) = changes_target(alloc, place.version) else {
        return Err(AskFault::Memory);
    };
    let fetched = ask_again(asker, target.as_str(), &CODES);
    news_from(alloc, json, place.is_first, fetched)
}

/// Asks a node for changes until that fails.
fn watch<M: Net + rt::Clock, W: Write, F: FaultStream>(
    alloc: Global,
    asker: &mut NetAsker<'_, M>,
    json: bool,
    writer: &mut W,
    faults: &mut F,
) -> u8
    requires { HasNodeAddress asker.old.node.at.now }
    ensures { WatchesChanges asker.old.node.at.now json writer.old writer.new
        (W.contents writer.old) (W.contents writer.new) (F.reported faults.old) (F.reported faults.new) result }
{
    let mut place = Place {
        version: 0,
        is_first: true,
    };
    for _ in 0..u64::MAX {
        let news = match news_at(alloc, asker, json, place) {
            Ok(news) => news,
            Err(fault) => return tell(fault, faults),
        };
        match write_whole(writer, &news.text) {
            Ok(()) => {}
            Err(fault) => return tell(AskFault::Write(fault), faults),
        }
        place = Place {
            version: next_version(place.version, news.version),
            is_first: false,
        };
    }
    tell(AskFault::Unanswered, faults)
}

/// Asks the node at an address for changes, again and again, and writes each as it comes: its moment in milliseconds,
/// and the line of its record or `forgotten` and a name; or with `json` each answer as it came. Gives the exit status
/// once that fails.
///
/// The text of the address is A.B.C.D:PORT, or an IPv6 address in brackets before :PORT. A request is
/// `GET /v1/changes?after=V&wait_ms=30000`, on a connection of its own. V is 0 at first, then the version of the answer
/// before. If that is less than what was asked for, the node has begun anew, and V is 0 again. If an answer says that
/// changes are missing, a line `missed` comes before those of the table, but not at first. Of an answer without changes
/// nothing is written. The text of an answer is made before its first byte is written.
///
/// It ends by a fault alone, with the statuses and lines of [`tell_answer`](crate::tell_answer); but the connection may
/// be silent for 40 seconds, since the node waits for a change. A busy node doesn't end it: this waits, and asks again.
/// Only if the connection is closed before a byte came for the 60th time in a row, the status is 10. Memory is
/// allocated in proportion to an answer, and given back before the next.
pub fn watch_changes<M: Net + rt::Clock, W: Write, F: FaultStream>(
    rt: &M,
    alloc: Global,
    at: &str,
    json: bool,
    writer: &mut W,
    faults: &mut F,
) -> u8
    ensures { WatchesChanges at.now json writer.old writer.new (W.contents writer.old) (W.contents writer.new)
        (F.reported faults.old) (F.reported faults.new) result }
{
    match address_in(at) {
        Ok(address) => {
            let node = Node {
                at,
                address,
                patience_ms: WATCH_PATIENCE_MS,
            };
            let mut asker = NetAsker { rt, alloc, node };
            watch(alloc, &mut asker, json, writer, faults)
        }
        Err(fault) => tell(fault, faults),
    }
}
