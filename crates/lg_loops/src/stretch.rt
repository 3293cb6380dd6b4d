//! What a loop counts of its turns.
//!
//! Defined in: this file.
//! Tested in: `lg_node_tests/src/node/receiving.rt`, `lg_node_tests/src/node/ticking.rt`.
ghost use Rattle.std.specs.Prelude.{◌≡◌, ◌≤◌, ◌<◌, ◌+◌, ◌*◌};

use crate::turned::Turned;
use lg_turns::{LoopEnd, MAX_TURNS, Why};

/// What a loop has counted of its turns, since it began or began to count anew.
#[derive(Drop)]
pub(crate) struct Stretch {
    /// How many datagrams were dropped.
    pub(crate) dropped: u64,
    /// How many packets weren't sent.
    pub(crate) unsent: u64,
    /// How many turns were made.
    pub(crate) turns: u64,
}

impl Stretch {
    /// No turn was made so far.
    pub(crate) fn new() -> Stretch
        ensures { result ≡ record { dropped = 0; unsent = 0; turns = 0 } }
    {
        Stretch {
            dropped: 0,
            unsent: 0,
            turns: 0,
        }
    }

    /// Counts one more turn.
    pub(crate) fn add(&mut self, turned: &Turned)
        requires turns { self.old.turns < MAX_TURNS }
        requires dropped { (self.old.dropped ≤ self.old.turns) × (turned.now.dropped ≤ 1) }
        requires unsent { (self.old.unsent ≤ 8 * self.old.turns) × (turned.now.unsent ≤ 8) }
        ensures { self.new ≡ record {
          dropped = self.old.dropped + turned.now.dropped;
          unsent = self.old.unsent + turned.now.unsent;
          turns = self.old.turns + 1;
        } }
    {
        self.dropped += turned.dropped;
        self.unsent += turned.unsent;
        self.turns += 1;
    }

    /// The end of a loop that ends now, for this reason.
    pub(crate) fn end(&self, why: Why) -> LoopEnd
        ensures { result ≡ record {
          why = why;
          dropped = self.now.dropped;
          unsent = self.now.unsent;
          turns = self.now.turns;
        } }
    {
        LoopEnd {
            why,
            dropped: self.dropped,
            unsent: self.unsent,
            turns: self.turns,
        }
    }
}
