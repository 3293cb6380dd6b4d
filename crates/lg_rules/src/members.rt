//! The table of members: the records of the others, and what a claim about another member does to them.
//!
//! Defined in: `specs/Meaning/Table.antt`, `specs/Meaning/Rows.antt`.
//! Tested in: `lg_parts_tests/src/rules.rt`.
ghost use Rattle.std.specs.Prelude.{◌≡◌, ◌≢◌, ◌≤◌, ◌<◌};
ghost use Rattle.std.specs.Prelude.{ℕ, List, [], ◌∷◌, length, map, slice_get, slice_index_or};
ghost use Rattle.std.specs.Prelude.{option_copied, None, Some, true, false};
ghost use Rattle.lg_rules.specs.declared.claim.Claim.{Claim as Said};
ghost use Rattle.lg_rules.specs.Meaning.Claim.{name_of};
ghost use Rattle.lg_rules.specs.Meaning.Own.{OwnFact, Told, Forgets, TakesLeave};
ghost use Rattle.lg_rules.specs.Meaning.Rows.{name_cmp, Rises, is_among, row_at};
ghost use Rattle.lg_rules.specs.Meaning.Table.{members_forgot, hearing_of, known_of, live_in, members_heard};
ghost use Rattle.lg_rules.specs.Meaning.Table.{table_needs_room, slot_given_back, slot_in};
ghost use Rattle.lg_rules.specs.Meaning.Table.{names_by_slot, record_of, roster};
ghost use Rattle.lg_rules.specs.Meaning.Unforgotten.{first_known, first_record, slots_by_appearance};

use crate::claim::{Claim, Record};
use crate::name::Name;
use crate::records::{add, find_record, hear_known, is_unwelcome, take_out};
use crate::rows::index_in_rows;
use crate::slots::{FREE, Slot, free_place, give_slot, take_slot};
use arrayvec::ArrayVec;
use lg_rows::Rows;
use std::marker::Model;

/// The most members that are known beside this member: 255 (this project's choice).
pub const MAX_OTHERS: usize = 255;

/// The most members that are known, this member included: 256.
pub const MAX_MEMBERS: usize = MAX_OTHERS + 1;

/// What hearing a claim about another member did.
#[derive(Clone, Copy, Debug, PartialEq, Eq)]
pub enum Heard {
    /// It made or replaced the record of the member that it is about.
    Overrode,
    /// It accuses a member that is suspected already, at the incarnation of that member's record. The table is as
    /// before.
    Accused,
    /// It has the status and the incarnation of the record, and is no accusation. The table is as before.
    Same,
    /// It says nothing new. Or it says of an unknown member that it is gone, and this member forgets. The table is as
    /// before.
    Ignored,
    /// The member that it is about is unknown, and 255 others are known already. The table is as before.
    NoRoom,
}

/// The records of the other members, at most 255, in the order of their names.
///
/// A name is known from the first claim about it for which there is room, until it is forgotten. The record of a member
/// is the first claim about it, since it became known, that no such claim overrides (SWIM, section 4.2). No call
/// allocates memory. A contract sees this member's name, whether it forgets members, the list of the records, and for
/// each slot the name that has it.
#[derive(Debug, Drop)]
pub struct Members {
    own: Name,
    // For each slot but the own one the index of its record, or `FREE`. Fields lie in the order written here, so these
    // bytes stand beside those of the own name.
    indexes: [u8; MAX_OTHERS],
    // Whether members that are gone are forgotten.
    forgets: bool,
    // In the order of names. A record stays in its place, as long as its name is known.
    records: Rows<Record, MAX_OTHERS>,
    // The slot of each record's name.
    slots: ArrayVec<Slot, MAX_OTHERS>,
    // How many members aren't gone, this member included. The count is kept, since each suspicion that is raised
    // needs it.
    live: usize,
}

impl Model for Members {
    ghost use Rattle.lg_rules.specs.Meaning.Table.{MembersValue};

    ghost Value = { MembersValue };

    ghost use Rattle.std.specs.Prelude.{map};
    ghost use Rattle.lg_rules.specs.Meaning.Claim.{name_of};
    ghost use Rattle.lg_rules.specs.Support.Slots.{held_names};

    ghost view = { λ m. record {
      own = m.own;
      forgets = m.forgets;
      table = m.records.items;
      names = held_names m.own (map name_of m.records.items) m.indexes;
    } };

    ghost use Rattle.lg_rules.specs.Support.Members.{AreKept};

    ghost invariant = { λ m. AreKept m.own m.records.items m.live m.slots.items m.indexes };
}

impl Members {
    /// Overwrites another table by this one, in place. Allocates no memory.
    pub fn copy_into(&self, into: &mut Members)
        ensures { into.new ≡ self.now }
    {
        into.own = self.own;
        into.indexes.copy_from_slice(&self.indexes);
        into.forgets = self.forgets;
        self.records.copy_into(&mut into.records);
        into.slots.clear();
        into.slots.try_extend_from_slice(&self.slots).unwrap();
        into.live = self.live;
    }

    /// The table of a member with this name, which knows no other member. `forgets` says whether it forgets members
    /// that are gone.
    pub fn new(own: &Name, forgets: bool) -> Members
        ensures { result ≡ known_of forgets own.now [] }
    {
        Members {
            own: *own,
            indexes: [FREE; MAX_OTHERS],
            forgets,
            records: Rows::new(),
            slots: ArrayVec::new(),
            live: 1,
        }
    }

    /// Drops all that was heard, and starts over for a member with this name. `forgets` says whether it forgets members
    /// that are gone.
    pub fn restart(&mut self, own: &Name, forgets: bool)
        ensures { self.new ≡ known_of forgets own.now [] }
    {
        self.own = *own;
        self.indexes = [FREE; MAX_OTHERS];
        self.forgets = forgets;
        self.records.clear();
        self.slots.clear();
        self.live = 1;
    }

    /// This member's name.
    pub fn own(&self) -> Name
        ensures { result ≡ self.now.own }
    {
        self.own
    }

    /// How many other members are known, each of which has a record: at most 255.
    #[inline]
    pub fn count(&self) -> usize
        ensures count { result ≡ length self.now.table }
        ensures few { result ≤ MAX_OTHERS }
        // They are in the order of names, each name once.
        ensures rises { Rises name_cmp (map name_of self.now.table) }
    {
        self.records.len()
    }

    /// The record of another member, or `None` if it isn't known.
    pub fn get(&self, name: &Name) -> Option<&Record>
        ensures { option_copied result ≡ row_at name_cmp name_of name.now self.now.table }
    {
        find_record(&self.records, name)
    }

    /// The record at an index, from 0, in the order of names. `None` if there are no more than `index` records.
    #[inline]
    pub fn at(&self, index: usize) -> Option<&Record>
        ensures { option_copied result ≡ slice_get self.now.table index }
    {
        self.records.get(index)
    }

    /// The slot of a known name, or `None` if the name isn't known. This member's own name has slot 0.
    pub fn slot_of(&self, name: &Name) -> Option<Slot>
        ensures slot { result ≡ slot_in name.now self.now.names }
        ensures own { slot_in self.now.own self.now.names ≡ Some 0 }
        // At the slot of a name stands the name,
        ensures named { (slot : ℕ) → result ≡ Some slot → slice_index_or self.now.names slot None ≡ Some name.now }
        // and no other name has its slot.
        ensures alone { (slot : ℕ) (other : List ℕ) → result ≡ Some slot → slot_in other self.now.names ≡ Some slot
            → other ≡ name.now }
    {
        match index_in_rows(&self.records, name) {
            Ok(at) => Some(self.slots[at]),
            Err(_) if *name == self.own => Some(Slot::own()),
            Err(_) => None,
        }
    }

    /// The name that has a slot, or `None` if the slot is free. It takes no search.
    pub fn name_at(&self, slot: Slot) -> Option<&Name>
        ensures name { option_copied result ≡ slice_index_or self.now.names slot None }
        // The name that is found has this slot.
        ensures slot { (name : List ℕ) → option_copied result ≡ Some name → slot_in name self.now.names ≡ Some slot }
    {
        if slot == Slot::own() {
            return Some(&self.own);
        }
        let index = usize::from(self.indexes[usize::from(slot.number()) - 1]);
        if index < self.records.len() {
            Some(&self.records[index].name)
        } else {
            None
        }
    }

    /// How many members aren't gone, which is neither Failed nor Left, this member included: 1 to 256.
    pub fn live(&self) -> usize
        ensures count { result ≡ live_in self.now.table }
        ensures few { result ≤ MAX_MEMBERS }
    {
        // The checker learns here that the row holds at most 255 records.
        let _ = self.records.len();
        self.live
    }

    /// Hears a claim about another member.
    ///
    /// A claim about an unknown member becomes its record if fewer than 255 others are known, unless this member
    /// forgets and the claim says that its member is gone. A claim that overrides the record replaces it, with its
    /// address and its accuser. A name that becomes known gets the lowest free slot, and keeps it until it is
    /// forgotten.
    #[tactic(auto, unfolding(crate::specs::Meaning::Table::takes))]
    pub fn hear(&mut self, claim: &Claim) -> Heard
        requires { claim.now.name ≢ self.old.own }
        ensures hearing { result ≡ hearing_of self.old.forgets self.old.table claim.now }
        ensures members { self.new ≡ members_heard self.old claim.now }
        // A slot keeps its name.
        ensures kept { (slot : ℕ) (name : List ℕ) → slice_index_or self.old.names slot None ≡ Some name
            → slice_index_or self.new.names slot None ≡ Some name }
        // If the table was the one after some facts (the latest first), it is now the one after those and this claim.
        ensures past { (past : List OwnFact) → let after = known_of self.old.forgets self.old.own in
            self.old ≡ after past → self.new ≡ after (Told claim.now ∷ past) }
        // Claims about this member itself change nothing here, nor does its leave.
        ensures oneself { (past : List OwnFact) (c : Said) → let after = known_of self.old.forgets self.old.own in
            c.name ≡ self.old.own → after (Told c ∷ past) ≡ after past }
        ensures leave { (past : List OwnFact) → let after = known_of self.old.forgets self.old.own in
            after (TakesLeave ∷ past) ≡ after past }
    {
        match index_in_rows(&self.records, &claim.name) {
            Ok(at) => hear_known(&mut self.records, &mut self.live, at, claim),
            Err(_) if is_unwelcome(self.forgets, claim.status) => Heard::Ignored,
            Err(at) => match free_place(&self.indexes) {
                None => Heard::NoRoom,
                Some(free) => {
                    add(&mut self.records, &mut self.live, at, claim);
                    give_slot(&mut self.slots, &mut self.indexes, at, free);
                    Heard::Overrode
                }
            },
        }
    }

    /// Whether a claim about another member brings a member for which there is no room until one is forgotten: this
    /// member forgets, 255 others are known, the claim's member is none of them, and isn't gone by the claim.
    pub fn needs_room(&self, claim: &Claim) -> bool
        ensures { result ≡ table_needs_room self.now claim.now }
    {
        match self.get(&claim.name) {
            Some(_) => false,
            None => self.forgets && self.records.is_full() && !claim.status.is_gone(),
        }
    }

    /// Forgets another member: its record is dropped, its name is unknown, and its slot is free. All other members keep
    /// their records and their slots. Returns the slot that it had. If it wasn't known, or is this member itself,
    /// nothing changes, and `None` is returned.
    pub fn forget(&mut self, name: &Name) -> Option<Slot>
        ensures slot { result ≡ slot_given_back name.now self.old }
        ensures members { self.new ≡ members_forgot name.now self.old }
        // If the table was the one after some facts, it is now the one after those and this forgetting.
        ensures past { (past : List OwnFact) → let after = known_of self.old.forgets self.old.own in
            self.old ≡ after past → self.new ≡ after (Forgets name.now ∷ past) }
        // The name of another has no slot from now on, and each other name keeps its own.
        ensures gone { name.now ≢ self.old.own → slot_in name.now self.new.names ≡ None }
        ensures others { (other : List ℕ) → other ≢ name.now
            → slot_in other self.new.names ≡ slot_in other self.old.names }
        // If the name was known, there is room now.
        ensures room { (slot : ℕ) → result ≡ Some slot → length self.new.table < MAX_OTHERS }
    {
        if *name == self.own {
            return None;
        }
        match index_in_rows(&self.records, name) {
            Ok(at) => {
                take_out(&mut self.records, &mut self.live, at);
                Some(take_slot(&mut self.slots, &mut self.indexes, at))
            }
            Err(_) => None,
        }
    }
}

/// A member that never forgets knows the first 255 others of whom it heard. The record of each is the earliest claim
/// about it that no claim about it overrides, and the names have their slots by order of appearance. This is a law, and
/// the call does nothing.
pub fn nothing_is_forgotten()
    ensures known { (own : List ℕ) (past : List Said) → roster false own (map Told past) ≡ first_known own past }
    ensures records { (own name : List ℕ) (past : List Said) → is_among name_cmp name (first_known own past) ≡ true
        → record_of false own (map Told past) name ≡ first_record past name }
    ensures slots { (own : List ℕ) (past : List Said)
        → names_by_slot false own (map Told past) ≡ slots_by_appearance own past }
{}
