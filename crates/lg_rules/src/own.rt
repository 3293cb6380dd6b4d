//! What a member knows of itself, its incarnation above all.
//!
//! Defined in: `specs/Meaning/Own.antt`.
//! Tested in: `lg_parts_tests/src/rules.rt`.
ghost use Rattle.std.specs.Prelude.{◌≡◌, ◌≢◌, List, [], ◌∷◌, true, nat_lt, if◌then◌else◌};
ghost use Rattle.lg_rules.specs.declared.claim.Claim.{Claim as Said};
ghost use Rattle.lg_rules.specs.Meaning.Own.{OwnFact, Told, TakesLeave};
ghost use Rattle.lg_rules.specs.Meaning.Own.{left_hearing_at, oneself_changed, oneself_hearing, own_hearing};
ghost use Rattle.lg_rules.specs.Meaning.Own.{own_heard, own_of, own_record};

use crate::addr::Addr;
use crate::claim::{Claim, Record, Status};
use crate::incarnation::Incarnation;
use crate::name::Name;
use std::alloc::AllocError;
use std::marker::Model;

/// What a claim did to this member when it heard it.
#[derive(Clone, Copy, Debug, PartialEq, Eq)]
pub enum OwnHeard {
    /// The claim suspected this member at its incarnation or a greater one. It is refuted: this member's incarnation
    /// is now one more than the claim's.
    Refuted,
    /// The claim said that this member is alive at a greater incarnation than its own, or that it failed or left at
    /// its incarnation or a greater one. This member's incarnation is now one more than the claim's.
    ///
    /// Or this member has left, and the claim has a greater incarnation than its own. This member's incarnation is now
    /// the claim's.
    Raised,
    /// The claim would refute or raise, but its incarnation is the greatest one, so that this member can't have a
    /// greater one. The flag `ousted` is set. A claim never does this to a member that has left.
    Ousted,
    /// The claim doesn't override this member's own record, or is about another member. Nothing changed.
    Ignored,
}

/// What a member knows of itself: its name, its address, its incarnation, whether it was ousted, and whether it left.
///
/// Only the member itself raises its incarnation, by which it refutes suspicions (SWIM, section 4.2). The incarnation
/// starts at 0. A claim that nothing can refute ousts the member for good. A member that leaves has left for good, and
/// refutes nothing any more (both are this project's choices). A contract sees a record of the five.
#[derive(Debug)]
pub struct Own {
    name: Name,
    addr: Addr,
    number: Incarnation,
    ousted: bool,
    left: bool,
}

impl Model for Own {
    ghost use Rattle.lg_rules.specs.Meaning.Own.{OwnValue};

    ghost Value = { OwnValue };

    ghost view = { λ o. record {
      name = o.name;
      addr = o.addr;
      number = o.number;
      ousted = o.ousted;
      left = o.left;
    } };

    ghost inverse = { λ me. record {
      name = me.name;
      addr = me.addr;
      number = me.number;
      ousted = me.ousted;
      left = me.left;
    } };
}

impl Clone for Own {
    ghost use Rattle.std.specs.Prelude.{◌≡◌, ⊤};

    ghost is_clone = { λ x y. y ≡ x };

    ghost is_infallible = { λ _. ⊤ };

    fn clone(&self) -> Result<Self, AllocError> {
        Ok(*self)
    }
}

impl Copy for Own {}

impl Own {
    /// A member with this name and address that has heard nothing, and hasn't left: its incarnation is 0.
    pub fn new(name: Name, addr: Addr) -> Own
        ensures { result ≡ own_of name addr [] }
    {
        Own {
            name,
            addr,
            number: Incarnation::default(),
            ousted: false,
            left: false,
        }
    }

    /// This member's name.
    pub fn name(&self) -> Name
        ensures { result ≡ self.now.name }
    {
        self.name
    }

    /// This member's address.
    pub fn addr(&self) -> Addr
        ensures { result ≡ self.now.addr }
    {
        self.addr
    }

    /// This member's incarnation.
    pub fn number(&self) -> Incarnation
        ensures { result ≡ self.now.number }
    {
        self.number
    }

    /// Whether a claim came that nothing can refute. Once set, it stays set.
    pub fn ousted(&self) -> bool
        ensures { result ≡ self.now.ousted }
    {
        self.ousted
    }

    /// Whether this member left. Once it has, it stays so.
    pub fn has_left(&self) -> bool
        ensures { result ≡ self.now.left }
    {
        self.left
    }

    /// This member's own record, at its incarnation and its address: Alive, or Left if it has left.
    pub fn record(&self) -> Record
        ensures { result ≡ own_record self.now }
    {
        let status = if self.left {
            Status::Left
        } else {
            Status::Alive
        };
        Claim {
            name: self.name,
            addr: self.addr,
            status,
            incarnation: self.number,
        }
    }

    /// This member leaves, for good. Its own record is Left at its incarnation from now on. A further call does
    /// nothing.
    pub fn leave(&mut self)
        ensures own { self.new ≡ record self.old { left = true } }
        // If this was the state after some facts (the latest first), it is now the state after those and this leave.
        ensures past { (past : List OwnFact) → let after = own_of self.old.name self.old.addr in
            self.old ≡ after past → self.new ≡ after (TakesLeave ∷ past) }
    {
        self.left = true;
    }

    /// Hears a claim. In the tables, n is this member's incarnation. If it hasn't left:
    ///
    /// | Claim | Effect |
    /// |---|---|
    /// | Suspect(i), n <= i < 1,000,000,000 | Refuted: n becomes i + 1 |
    /// | Failed(i) or Left(i), n <= i < 1,000,000,000 | Raised: n becomes i + 1 |
    /// | Alive(i), n < i < 1,000,000,000 | Raised: n becomes i + 1 |
    /// | the same four, but i = 1,000,000,000 | Ousted: n stays |
    /// | any other, and any about another member | Ignored |
    ///
    /// If it has left, its own record is Left at n before the call and after it:
    ///
    /// | Claim | Effect |
    /// |---|---|
    /// | Alive(i), Suspect(i), Failed(i) or Left(i), n < i | Raised: n becomes i |
    /// | any other, and any about another member | Ignored |
    pub fn hear(&mut self, claim: &Claim) -> OwnHeard
        ensures hearing { result ≡ own_hearing self.old claim.now }
        ensures own { self.new ≡ own_heard self.old claim.now }
        // If this was the state after some facts (the latest first), it is now the state after those and this claim.
        ensures past { (past : List OwnFact) → let after = own_of self.old.name self.old.addr in
            self.old ≡ after past → self.new ≡ after (Told claim.now ∷ past) }
        // Claims about other members change nothing here.
        ensures others { (past : List OwnFact) (c : Said) → let after = own_of self.old.name self.old.addr in
            c.name ≢ self.old.name → after (Told c ∷ past) ≡ after past }
    {
        if claim.name == self.name {
            self.hear_status(claim.status, claim.incarnation)
        } else {
            OwnHeard::Ignored
        }
    }

    /// Hears that this member has a status at an incarnation.
    fn hear_status(&mut self, status: Status, incarnation: Incarnation) -> OwnHeard
        ensures hearing { result ≡ oneself_hearing self.old status incarnation }
        ensures own { let hearing = oneself_hearing self.old status incarnation in
            self.new ≡ oneself_changed hearing incarnation self.old }
    {
        if self.left {
            return self.follow(incarnation);
        }
        let hearing = match status {
            Status::Suspect(_) if incarnation.number() >= self.number.number() => OwnHeard::Refuted,
            Status::Failed if incarnation.number() >= self.number.number() => OwnHeard::Raised,
            Status::Left if incarnation.number() >= self.number.number() => OwnHeard::Raised,
            Status::Alive if incarnation.number() > self.number.number() => OwnHeard::Raised,
            Status::Alive | Status::Suspect(_) | Status::Failed | Status::Left => {
                return OwnHeard::Ignored;
            }
        };
        match incarnation.successor() {
            Some(number) => {
                self.number = number;
                hearing
            }
            None => self.oust(),
        }
    }

    /// Hears, once this member has left, that it has some status at an incarnation.
    fn follow(&mut self, incarnation: Incarnation) -> OwnHeard
        ensures hearing { result ≡ left_hearing_at incarnation self.old.number }
        ensures own { self.new ≡ (if nat_lt self.old.number incarnation
            then record self.old { number = incarnation } else self.old) }
    {
        if incarnation.number() > self.number.number() {
            self.number = incarnation;
            OwnHeard::Raised
        } else {
            OwnHeard::Ignored
        }
    }

    /// Sets the flag `ousted`.
    fn oust(&mut self) -> OwnHeard
        ensures hearing { result ≡ OwnHeard.Ousted }
        ensures own { self.new ≡ record self.old { ousted = true } }
    {
        self.ousted = true;
        OwnHeard::Ousted
    }
}
