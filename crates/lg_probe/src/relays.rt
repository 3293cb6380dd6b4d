//! The relays of a helper: probes of a target for another member.
//!
//! Defined in: `specs/Meaning/Relays.antt`.
//! Tested in: `lg_parts_tests/src/probe.rt`.
ghost use Rattle.std.specs.Prelude.{◌≡◌, ◌<◌, ◌≤◌, List, [], ◌∷◌, length, None, position};
ghost use Rattle.lg_probe.specs.Meaning.Relays.{RelayFact, Opened, TargetAcked, Closed, relays_after};
ghost use Rattle.lg_probe.specs.Meaning.Relays.{AreApart, asker_at, ended_asker, has_number, is_ended, is_open};
ghost use Rattle.lg_probe.specs.Support.Relays.{AreUpTo, relays_with};

use arrayvec::ArrayVec;
use lg_rules::{Addr, Name};
use std::marker::Model;

/// The most relays that are open at once: 64 (this project's choice).
pub const MAX_RELAYS: usize = 64;

/// Who asked for a relay, and by which number: the sender of a PingReq.
#[derive(Clone, Copy, Debug, Default, PartialEq, Eq)]
pub struct Asker {
    /// The member.
    pub name: Name,
    /// Where it is reached.
    pub addr: Addr,
    /// The number of its own probe.
    pub number: u32,
}

/// A probe of a target for another member, its asker, which sent a ping-req. The asker is told of the target's ack
/// (SWIM, section 3.1), or that none came yet (Lifeguard, local health aware probe).
#[derive(Clone, Copy, Debug, Default, PartialEq, Eq)]
pub struct Relay {
    /// The number of this probe.
    pub number: u32,
    /// The member that is probed.
    pub target: Name,
    /// Who asked for it, and by which number.
    pub asker: Asker,
}

/// The relays that are open, at most 64, in the order in which they were opened (SWIM, section 3.1). No call
/// allocates memory. A contract sees the row of relays.
#[derive(Debug, Drop)]
pub struct Relays {
    open: ArrayVec<Relay, MAX_RELAYS>,
    /// No open relay has a greater number, so that a new number needn't be looked for among theirs.
    greatest: u32,
}

impl Model for Relays {
    ghost use Rattle.std.specs.Prelude.{List};
    ghost use Rattle.lg_probe.specs.declared.relays.Relay.{Relay as OneRelay};

    ghost Value = { List OneRelay };

    ghost view = { λ r. r.open.items };

    ghost use Rattle.lg_probe.specs.Support.Relays.{AreKeptRelays};

    ghost invariant = { λ r. AreKeptRelays r.greatest r.open.items };
}

impl Relay {
    /// Whether it has this number.
    fn has_number(&self, number: u32) -> bool
        ensures { result ≡ has_number number self.now }
    {
        self.number == number
    }

    /// Whether an ack with this number from this sender ends it.
    #[tactic(auto, using(lg_rules::proofs::KeyOrder::names_eq))]
    fn is_ended(&self, number: u32, sender: &Name) -> bool
        ensures { result ≡ is_ended number sender.now self.now }
    {
        self.number == number && self.target == *sender
    }
}

/// The index of the first relay that an ack with this number from this sender ends, if there is one.
fn place_ended(relays: &[Relay], number: u32, sender: &Name) -> Option<usize>
    ensures { result ≡ position (is_ended number sender.now) relays.now }
{
    relays
        .iter()
        .position(|relay| relay.is_ended(number, sender))
}

/// The index of the first relay with this number, if there is one. No relay has a number above `greatest`.
fn place_of(relays: &[Relay], greatest: u32, number: u32) -> Option<usize>
    requires { AreUpTo greatest relays.now }
    ensures { result ≡ position (has_number number) relays.now }
{
    if greatest < number {
        return None;
    }
    relays.iter().position(|relay| relay.has_number(number))
}

impl Relays {
    /// No open relays.
    pub fn new() -> Relays
        ensures { result ≡ relays_after [] }
    {
        Relays {
            open: ArrayVec::new(),
            greatest: 0,
        }
    }

    /// Overwrites other relays by these, in place. Copies no more relays than there are. Allocates no memory.
    pub fn copy_into(&self, into: &mut Relays)
        ensures { into.new ≡ self.now }
    {
        into.open.clear();
        into.open.try_extend_from_slice(&self.open).unwrap();
        into.greatest = self.greatest;
    }

    /// How many relays are open, at most 64.
    pub fn len(&self) -> usize
        ensures count { result ≡ length self.now }
        ensures few { result ≤ MAX_RELAYS }
        // No two of them have the same number.
        ensures apart { AreApart self.now }
    {
        self.open.len()
    }

    /// Opens a relay with this number to a target, for this asker. Fewer than 64 have to be open, and none with this
    /// number.
    pub fn add(&mut self, number: u32, target: &Name, asker: Asker)
        requires room { length self.old < MAX_RELAYS }
        requires apart { asker_at number self.old ≡ None }
        ensures relays { self.new ≡ relays_with self.old (Opened record {
          number = number;
          target = target.now;
          asker = asker;
        }) }
        // If these were the relays open after some facts (the latest first), they are now those open after these and
        // this one.
        ensures past { (past : List RelayFact) → self.old ≡ relays_after past
            → self.new ≡ relays_after (Opened record {
              number = number;
              target = target.now;
              asker = asker;
            } ∷ past) }
    {
        self.open.push(Relay {
            number,
            target: *target,
            asker,
        });
        self.greatest = self.greatest.max(number);
    }

    /// The asker of the open relay with this number, if there is such a relay.
    pub fn get(&self, number: u32) -> Option<Asker>
        ensures { result ≡ asker_at number self.now }
    {
        self.open
            .iter()
            .find(|relay| relay.has_number(number))
            .map(|relay| relay.asker)
    }

    /// Takes an ack. If a relay with its number to its sender is open, closes it, and returns its asker.
    pub fn ack(&mut self, number: u32, sender: &Name) -> Option<Asker>
        ensures asker { result ≡ ended_asker number sender.now self.old }
        ensures relays { self.new ≡ relays_with self.old (TargetAcked number sender.now) }
        ensures past { (past : List RelayFact) → self.old ≡ relays_after past
            → self.new ≡ relays_after (TargetAcked number sender.now ∷ past) }
    {
        let place = place_ended(self.open.as_slice(), number, sender)?;
        let relay = self.open.remove(place);
        Some(relay.asker)
    }

    /// Closes the relay with this number, and returns whether it was open.
    pub fn close(&mut self, number: u32) -> bool
        ensures was_open { result ≡ is_open number self.old }
        ensures relays { self.new ≡ relays_with self.old (Closed number) }
        ensures past { (past : List RelayFact) → self.old ≡ relays_after past
            → self.new ≡ relays_after (Closed number ∷ past) }
    {
        match place_of(self.open.as_slice(), self.greatest, number) {
            Some(place) => {
                self.open.remove(place);
                true
            }
            None => false,
        }
    }
}
