//! What is left of an agent that was closed.
//!
//! Defined in: `specs/Meaning/Closing.antt`, `lg_history/specs/Meaning/Rest.antt`.
//! Tested in: `lg_agent_tests/src/agent/choosing.rt`.
ghost use Rattle.std.specs.Prelude.{◌≡◌, ◌≤◌, ◌+◌, ◌++◌, [], List, length, take, max, true, Some, None};
ghost use Rattle.std.specs.Prelude.{IfOk, MatchOption};
ghost use Rattle.lg_detector.specs.declared.event.Event.{Event as Happened};
ghost use Rattle.lg_detector.specs.Meaning.Choice.{targets_after};
ghost use Rattle.lg_detector.specs.Meaning.Step.{is_accepted};
ghost use Rattle.lg_history.specs.Meaning.History.{Answered, events};
ghost use Rattle.lg_history.specs.Meaning.Rest.{StandsFor};
ghost use Rattle.lg_agent.specs.Meaning.Closing.{HasWindows, IsWell};

use lg_detector::{NoMemory, Summary};
use lg_history::Entry;
use lg_rules::Name;
use std::alloc::Global;
use std::marker::Model;

/// The history of an agent that was closed. A contract sees it as the list of the stored entries, how many were cut
/// off before them, and the summary of those.
#[derive(Drop)]
pub struct Closed {
    summary: Option<Summary>,
    base: u64,
    entries: Vec<Entry>,
}

impl Model for Closed {
    ghost use Rattle.lg_agent.specs.Meaning.Closing.{ClosedValue, IsWell};

    ghost Value = { ClosedValue };

    ghost view = { λ c. record { summary = c.summary; base = c.base; history = c.entries.items } };

    // Each reply is that of the definitions.
    ghost invariant = { λ c. IsWell record { summary = c.summary; base = c.base; history = c.entries.items } };
}

impl Closed {
    /// A history whose replies are those of the definitions.
    pub(crate) fn over(summary: Option<Summary>, base: u64, entries: Vec<Entry>) -> Closed
        requires { IsWell record { summary = summary; base = base; history = entries.items } }
        ensures { result ≡ record { summary = summary; base = base; history = entries.items } }
    {
        Closed {
            summary,
            base,
            entries,
        }
    }

    /// The stored entries: all of them, that of the opening first, or those since the last rotation.
    pub fn history(&self) -> &[Entry]
        ensures { result.now ≡ self.now.history }
    {
        self.entries.as_slice()
    }

    /// How many entries there were, with that of the opening and those that were cut off.
    pub fn count(&self) -> u64
        ensures { result ≡ length self.now.history + self.now.base }
    {
        self.base + self.entries.len() as u64
    }

    /// The position of the first stored entry: how many were cut off before it.
    pub fn base(&self) -> u64
        ensures same { result ≡ self.now.base }
        // Whatever events the summary stands for, this is how many they are. Without a summary there are none.
        ensures length { (f : List Happened) → StandsFor self.now.summary f → result ≡ length f }
    {
        self.base
    }

    /// The summary of the entries before the stored ones, if there were any.
    pub fn summary(&self) -> Option<&Summary>
        ensures same { MatchOption result (self.now.summary ≡ None) (λ s. self.now.summary ≡ Some s.now) }
        // There are events that it stands for, after which the stored entries have the replies of the definitions.
        ensures well { IsWell self.now }
    {
        self.summary.as_ref()
    }

    /// Whom the starts of rounds chose (SWIM, section 4.3): the targets of the entries at the positions from `from`
    /// up to `to`, which doesn't count, in order. If `from` is before the first stored entry, that entry's position
    /// is taken in its stead. Allocates the list. The only error is that memory was refused.
    pub fn choices(&self, alloc: Global, from: u64, to: u64) -> Result<Vec<Name>, NoMemory>
        // After whatever events the summary stands for.
        ensures gained { (f : List Happened) → StandsFor self.now.summary f
            → is_accepted (f ++ events self.now.history) ≡ true
            → IfOk result (λ names. max from self.now.base ≤ to
            → targets_after (take to (f ++ events self.now.history))
            ≡ targets_after (take (max from self.now.base) (f ++ events self.now.history)) ++ names.items) }
        ensures none { IfOk result (λ names. to ≤ max from self.now.base → names.items ≡ []) }
        // While the others that aren't gone stay the same p names, any 2p - 1 choices in a row have each of them.
        ensures windows { (f : List Happened) → StandsFor self.now.summary f
            → is_accepted (f ++ events self.now.history) ≡ true
            → IfOk result (λ names. max from self.now.base ≤ to
            → HasWindows (take (max from self.now.base) (f ++ events self.now.history))
            (take to (f ++ events self.now.history)) names.items) }
    {
        let mut names = Vec::new(alloc);
        for place in from.max(self.base)..to.min(self.count()) {
            if let Some(name) = self.entries[(place - self.base) as usize].chosen() {
                names.push(name)?;
            }
        }
        Ok(names)
    }
}
