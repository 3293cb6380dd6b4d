//! A round of probing: one probe of a target, and the mark that it earns.
//!
//! Defined in: `specs/Meaning/Round.antt`.
//! Tested in: `lg_parts_tests/src/probe.rt`.
ghost use Rattle.std.specs.Prelude.{◌≡◌, ◌≤◌, List, [], ◌∷◌, length};
ghost use Rattle.lg_probe.specs.Meaning.Round.{RoundFact, Asked, Acked, Nacked, ack_counts, is_first_ack, nack_counts};
ghost use Rattle.lg_probe.specs.Meaning.Round.{is_acked, mark_of, round_of, round_with, silent_in};

use crate::helpers::{Helpers, MAX_HELPERS};
use crate::names::{is_listed, push_all, take_out};
use arrayvec::ArrayVec;
use lg_bit_set::BitSet;
use lg_rules::Name;
use std::marker::Model;

/// A probe of a target, and what came of it so far: which helpers were asked (ping-req), which of them sent a nack,
/// and whether an ack counted (SWIM, section 3.1; Lifeguard, local health aware probe). No call allocates memory.
#[derive(Debug, Drop)]
pub struct Round {
    number: u32,
    target: Name,
    asked: ArrayVec<Name, MAX_HELPERS>,
    // The asked helpers that have sent no nack yet, by their indexes.
    silent: BitSet,
    acked: bool,
}

impl Model for Round {
    ghost use Rattle.lg_bit_set.specs.Meaning.Flags.{entries_in};
    ghost use Rattle.lg_probe.specs.Meaning.Round.{RoundValue};
    ghost use Rattle.lg_probe.specs.Support.Order.{IsPart};

    ghost Value = { RoundValue };

    ghost view = { λ r. record {
      number = r.number;
      target = r.target;
      asked = r.asked.items;
      silent = entries_in r.silent r.asked.items;
      acked = r.acked;
    } };

    ghost invariant = { λ r. IsPart r.asked.items (entries_in r.silent r.asked.items) r.silent };
}

impl Round {
    /// A round whose probe has this number and this target. No helper is asked yet.
    pub fn new(number: u32, target: &Name) -> Round
        ensures { result ≡ round_of number target.now [] }
    {
        Round {
            number,
            target: *target,
            asked: ArrayVec::new(),
            silent: BitSet::new(),
            acked: false,
        }
    }

    /// Copies the round. Allocates no memory.
    pub fn copy(&self) -> Round
        ensures { result ≡ self.now }
    {
        let mut asked = ArrayVec::new();
        asked.try_extend_from_slice(&self.asked).unwrap();
        Round {
            number: self.number,
            target: self.target,
            asked,
            silent: self.silent,
            acked: self.acked,
        }
    }

    /// The number of the probe.
    pub fn number(&self) -> u32
        ensures { result ≡ self.now.number }
    {
        self.number
    }

    /// The member that is probed.
    pub fn target(&self) -> Name
        ensures { result ≡ self.now.target }
    {
        self.target
    }

    /// Whether an ack counted.
    pub fn is_acked(&self) -> bool
        ensures { result ≡ self.now.acked }
    {
        self.acked
    }

    /// The helpers that were asked last, at most 8, in the order in which they were picked.
    pub fn asked(&self) -> &[Name]
        ensures asked { result.now ≡ self.now.asked }
        ensures few { length result.now ≤ MAX_HELPERS }
    {
        self.asked.as_slice()
    }

    /// These helpers are asked, and replace those asked before. From now on their acks and nacks count.
    pub fn ask(&mut self, helpers: &Helpers)
        ensures round { self.new ≡ round_with self.old (Asked helpers.now) }
        // If this was the round after some facts (the latest first), it is now the one after those and this one.
        ensures past { (past : List RoundFact) → let after = round_of self.old.number self.old.target in
            self.old ≡ after past → self.new ≡ after (Asked helpers.now ∷ past) }
    {
        self.asked.clear();
        push_all(&mut self.asked, helpers.names());
        self.silent = BitSet::below(self.asked.len());
    }

    /// Whether an ack counts: it has the number of the round, and comes from the target or from an asked helper.
    #[tactic(auto, using(lg_rules::proofs::KeyOrder::names_eq))]
    fn ack_counts(&self, number: u32, sender: &Name) -> bool
        ensures { result ≡ ack_counts self.now.number self.now.target self.now.asked number sender.now }
    {
        number == self.number && (*sender == self.target || is_listed(&self.asked, sender))
    }

    /// Takes an ack, and returns whether it is the first that counts. An ack counts if it has the number of the
    /// round, and comes from the target or from a helper that was asked before.
    pub fn ack(&mut self, number: u32, sender: &Name) -> bool
        ensures first { result ≡ is_first_ack self.old number sender.now }
        ensures round { self.new ≡ round_with self.old (Acked number sender.now) }
        ensures past { (past : List RoundFact) → let after = round_of self.old.number self.old.target in
            self.old ≡ after past → self.new ≡ after (Acked number sender.now ∷ past) }
    {
        let is_first = !self.acked && self.ack_counts(number, sender);
        self.acked = self.acked || is_first;
        is_first
    }

    /// Takes a nack, and returns whether it counts. It counts if it has the number of the round, and is the first
    /// from a helper that was asked before.
    pub fn nack(&mut self, number: u32, sender: &Name) -> bool
        ensures counts { result ≡ nack_counts self.old number sender.now }
        ensures round { self.new ≡ round_with self.old (Nacked number sender.now) }
        ensures past { (past : List RoundFact) → let after = round_of self.old.number self.old.target in
            self.old ≡ after past → self.new ≡ after (Nacked number sender.now ∷ past) }
    {
        if number != self.number {
            return false;
        }
        take_out(self.asked.as_slice(), &mut self.silent, sender)
    }

    /// Ends the round, and returns the mark that it earns: 0 if an ack counted, else 1, or 2 if an asked helper sent
    /// no nack. A round that failed and asked nobody earns 1.
    pub fn end(self) -> i8
        ensures mark { result ≡ mark_of self.acked self.silent }
        ensures past { (past : List RoundFact) → self ≡ round_of self.number self.target past
            → result ≡ mark_of (is_acked self.number self.target past) (silent_in self.number past) }
    {
        if self.acked {
            0
        } else if self.silent.is_empty() {
            1
        } else {
            2
        }
    }
}
