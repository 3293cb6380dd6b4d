//! Asks a node again if it is busy.
//!
//! Defined in: `specs/Meaning/Waiting.antt`.
//! Tested in: `lg_client_tests/src/waiting.rt`, `lg_client_tests/src/leaving.rt`.
ghost use Rattle.std.specs.Prelude.{◌≡◌, ◌<◌, true};
ghost use Rattle.lg_client.specs.Meaning.Waiting.{AsksAgain, AsksOnce, AsksTwice, closed_with, delay_of, told_of};
ghost use Rattle.lg_client.specs.Support.Receiving.{IsFetched};

use crate::fault::AskFault;
use crate::receiving::Answer;
use crate::unheard::{Delay, Unheard};
use lg_rules::Name;

/// How often in a row a connection may be closed before a byte came: 60 (this project's choice).
const MOST_CLOSED: u64 = 60;

/// How often the same question is put off at most.
const MOST_PUT_OFF: u64 = u64::MAX;

/// Asks a node, and waits.
pub(crate) trait Asker {
    ghost use Rattle.std.specs.Prelude.{◌≡◌, ◌∷◌, ◌++◌, [], Bool, List, true};
    ghost use Rattle.lg_client.specs.Meaning.Waiting.{AskEvent};
    ghost use Rattle.lg_client.specs.Meaning.Waiting.AskEvent.{Asked, AskedToLeave, Connected, Paused, Waited};
    ghost use Rattle.lg_client.specs.Support.Receiving.{IsHeard};

    // Whether contracts can see what it did.
    ghost tells: { Bool };

    // What it did, if contracts can see that.
    ghost log: { Self → List AskEvent };

    /// Asks for a target: an answer with one of these status codes, or why there is none.
    fn ask(&mut self, target: &str, codes: &[u16]) -> Result<Answer, Unheard>
        ensures heard { IsHeard codes.now result }
        ensures told { tells ≡ true → log self.new ≡ log self.old ++ Asked result ∷ [] };

    /// Waits so many seconds.
    fn wait(&mut self, seconds: u64)
        ensures told { tells ≡ true → log self.new ≡ log self.old ++ Waited seconds ∷ [] };

    /// Asks the node to leave by this name: an answer with one of these status codes, or why there is none.
    fn ask_to_leave(&mut self, name: &Name, codes: &[u16]) -> Result<Answer, Unheard>
        ensures heard { IsHeard codes.now result }
        ensures told { tells ≡ true → log self.new ≡ log self.old ++ AskedToLeave name.now result ∷ [] };

    /// Connects to the node, and closes the connection. Whether that could be done.
    fn connects(&mut self) -> bool
        ensures told { tells ≡ true → log self.new ≡ log self.old ++ Connected result ∷ [] };

    /// Pauses so many milliseconds.
    fn pause(&mut self, milliseconds: u64)
        ensures told { tells ≡ true → log self.new ≡ log self.old ++ Paused milliseconds ∷ [] };
}

/// Why a question is to be asked later, if its outcome says so.
fn delay_of(outcome: &Result<Answer, Unheard>) -> Option<Delay>
    ensures { result ≡ delay_of outcome.now }
{
    match outcome {
        Ok(_) => None,
        Err(why) => why.delay(),
    }
}

/// What is given for an outcome if the question isn't asked again.
pub(crate) fn told(outcome: Result<Answer, Unheard>) -> Result<Answer, AskFault>
    ensures { result ≡ told_of outcome }
{
    match outcome {
        Ok(answer) => Ok(answer),
        Err(why) => Err(why.fault()),
    }
}

/// Asks once, and not again.
#[tactic(auto, using(crate::proofs::AskLaws::fetched_by, crate::proofs::AskerLaws::asks_once))]
fn ask_once<A: Asker>(asker: &mut A, target: &str, codes: &[u16]) -> Result<Answer, AskFault>
    ensures heard { IsFetched codes.now result }
    ensures asked { A.tells ≡ true → AsksOnce (A.log asker.old) (A.log asker.new) result }
{
    told(asker.ask(target, codes))
}

/// Asks, and once more if the node is busy. If it still is, that is [`AskFault::Busy`].
pub(crate) fn ask_twice<A: Asker>(
    asker: &mut A,
    target: &str,
    codes: &[u16],
) -> Result<Answer, AskFault>
    ensures heard { IsFetched codes.now result }
    ensures asked { A.tells ≡ true → AsksTwice (A.log asker.old) (A.log asker.new) result }
{
    let outcome = asker.ask(target, codes);
    let Some(delay) = delay_of(&outcome) else {
        return told(outcome);
    };
    asker.wait(delay.seconds());
    ask_once(asker, target, codes)
}

/// How often the connection was closed in a row, by how often it was before.
fn closed_with(closed: u64, delay: Delay) -> u64
    requires { closed < MOST_CLOSED }
    ensures { result ≡ closed_with closed delay }
{
    match delay {
        Delay::Told(_) => 0,
        Delay::Closed => closed + 1,
    }
}

/// Asks until the node isn't busy. If it closes the connection for the 60th time in a row, that is [`AskFault::Busy`].
pub(crate) fn ask_again<A: Asker>(
    asker: &mut A,
    target: &str,
    codes: &[u16],
) -> Result<Answer, AskFault>
    ensures heard { IsFetched codes.now result }
    ensures asked { A.tells ≡ true → AsksAgain (A.log asker.old) (A.log asker.new) result }
{
    let mut closed = 0;
    for turn in 0..MOST_PUT_OFF {
        let outcome = asker.ask(target, codes);
        let Some(delay) = delay_of(&outcome) else {
            return told(outcome);
        };
        closed = closed_with(closed, delay);
        if closed >= MOST_CLOSED {
            return told(outcome);
        }
        asker.wait(delay.seconds());
    }
    ask_once(asker, target, codes)
}
