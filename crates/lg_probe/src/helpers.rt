//! The helpers of a probe, which are asked for an indirect probe (ping-req).
//!
//! Defined in: `specs/Meaning/Helpers.antt`, `specs/Meaning/Order.antt`.
//! Tested in: `lg_parts_tests/src/probe.rt`.
ghost use Rattle.std.specs.Prelude.{◌≡◌, ◌<◌, ◌≤◌, List, [], length};
ghost use Rattle.lg_probe.specs.Meaning.Helpers.{picked};
ghost use Rattle.lg_probe.specs.Meaning.Order.{OrderFact, names_after, order_after, without};

use crate::order::Order;
use arrayvec::ArrayVec;
use lg_rules::{Name, RANDOM_WORDS};
use std::marker::Model;

/// The most helpers of a probe: 8, one for each random word (this project's choice).
pub const MAX_HELPERS: usize = RANDOM_WORDS;

/// The helpers of a probe, at most 8, in the order in which they were picked: members that are asked to probe its
/// target too (the indirect probe; SWIM, section 3.1). No call allocates memory. A contract sees their names.
#[derive(Debug, Drop)]
pub struct Helpers {
    names: ArrayVec<Name, MAX_HELPERS>,
    // At the index of each name, how many of the names that the order knows come before it.
    indexes: [u8; MAX_HELPERS],
}

impl Model for Helpers {
    ghost use Rattle.std.specs.Prelude.{List, ℕ};

    ghost Value = { List (List ℕ) };

    ghost view = { λ h. h.names.items };
}

impl Helpers {
    /// No helpers.
    pub fn new() -> Helpers
        ensures { result ≡ [] }
    {
        Helpers {
            names: ArrayVec::new(),
            indexes: [0; MAX_HELPERS],
        }
    }

    /// Replaces the helpers by at most `k` new ones. They are picked from the names that have joined `others` and not
    /// left. The target isn't picked. `k` is at most 8.
    ///
    /// They are picked one after another, until `k` are picked or no name remains. Each word picks the name whose
    /// index in the order of names, from 0, is the word modulo the number of remaining names.
    pub fn pick(&mut self, others: &Order, target: &Name, k: usize, words: &[u32; RANDOM_WORDS])
        requires { k ≤ MAX_HELPERS }
        ensures picked { self.new ≡ picked k words.now (without target.now others.now.names) }
        // If the order is the one after some facts (the latest first), they are picked from the names that joined and
        // didn't leave.
        ensures past { (past : List OrderFact) → others.now ≡ order_after past
            → self.new ≡ picked k words.now (without target.now (names_after past)) }
    {
        others.pick(target, &words[..k], &mut self.names, &mut self.indexes);
    }

    /// Replaces the helpers by at most `count` new ones. They are picked as `pick` does, from all the names that have
    /// joined `order` and not left: nobody is left out. `count` is at most 8.
    ///
    /// A detector picks by it whom a gossip goes to.
    pub fn pick_any(&mut self, order: &Order, count: usize, words: &[u32; RANDOM_WORDS])
        requires { count ≤ MAX_HELPERS }
        ensures { self.new ≡ picked count words.now order.now.names }
    {
        order.pick_any(&words[..count], &mut self.names, &mut self.indexes);
    }

    /// Their names, in the order in which they were picked.
    pub fn names(&self) -> &[Name]
        ensures names { result.now ≡ self.now }
        ensures few { length result.now ≤ MAX_HELPERS }
    {
        self.names.as_slice()
    }

    /// The index at which the record of the helper at an index probably is, among the records of the others: how many
    /// names that the order knew, when it was picked, come before it. It is there if since then nobody became known or
    /// was forgotten, and nobody is gone that isn't forgotten. It serves to look there first, so no clause says it.
    pub fn likely_index(&self, index: usize) -> usize
        requires { index < MAX_HELPERS }
    {
        usize::from(self.indexes[index])
    }
}
