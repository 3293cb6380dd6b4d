//! What a claim about another member changes of the suspicions.
//!
//! Defined in: `specs/Meaning/Suspicions.antt`.
//! Tested in: `lg_parts_tests/src/membership/claims.rt`, `lg_parts_tests/src/membership/forgetting.rt`.
ghost use Rattle.std.specs.Prelude.{◌≡◌, ◌≢◌, ◌≤◌, ℕ, IfSome, List, [], length, map, Option, None, Some};
ghost use Rattle.std.specs.Prelude.{option_map};
ghost use Rattle.lg_rules.specs.Meaning.Claim.{accuser_of};
ghost use Rattle.lg_rules.specs.Meaning.Rows.{name_cmp, row_at, Rises};
ghost use Rattle.lg_rules.specs.Meaning.Table.{live_in, members_forgot};
ghost use Rattle.lg_suspicion.specs.Meaning.Parts.{IsKnownTo};
ghost use Rattle.lg_membership.specs.Meaning.Suspicions.{suspected_name, standing_of_row};
ghost use Rattle.lg_membership.specs.Support.Changes.{raised, ended, overriding, joined, accusing, change_by};
ghost use Rattle.lg_membership.specs.Support.Changes.{suspicions_after, deadline_of_change, row_about};
ghost use Rattle.lg_membership.specs.Support.Reached.{IsGood};
ghost use Rattle.lg_membership.specs.Support.Room.{HasSeat};
ghost use Rattle.lg_membership.specs.Support.Rows.{kept_name, row_by, rows_by, row_without, AreKnownTo};
ghost use Rattle.lg_membership.specs.Support.Rows.{IsWithin};

use crate::applied::Deadline;
use crate::suspected::Suspected;
use arrayvec::ArrayVec;
use lg_bit_set::BitSet;
use lg_rules::{Claim, Heard, MAX_OTHERS, Members, Name, Slot, Status, index_of, put_row};
use lg_suspicion::{Suspicion, SuspicionStanding};
use lg_timing::{Config, Moment};
use std::marker::Model;

/// The suspicions of the other members, in the order of names. A contract sees these rows.
#[derive(Debug, Drop)]
pub struct Suspicions {
    rows: ArrayVec<Suspected, MAX_OTHERS>,
    // Each slot that a suspicion keeps as that of an accuser, and maybe others: a slot stays when its suspicion ends.
    accusers: BitSet,
}

impl Model for Suspicions {
    ghost use Rattle.std.specs.Prelude.{List};
    ghost use Rattle.lg_membership.specs.declared.suspected.Suspected.{Suspected as Row};
    ghost use Rattle.lg_membership.specs.Support.Rows.{AreAccusersIn};

    ghost Value = { List Row };

    ghost view = { λ s. s.rows.items };

    ghost invariant = { λ s. AreAccusersIn s.accusers s.rows.items };
}

/// Overwrites suspicions by copies of others.
fn copy_rows(rows: &[Suspected], copies: &mut ArrayVec<Suspected, MAX_OTHERS>)
    requires { length rows.now ≤ MAX_OTHERS }
    ensures { copies.new.items ≡ rows.now }
{
    copies.clear();
    for suspected in rows {
        copies.push(suspected.copy());
    }
}

/// Takes one more accuser of a suspected member. The set then has the slots of the suspicion's accusers, if these are
/// in it before.
fn confirm(
    suspected: &mut Suspected,
    accusers: &mut BitSet,
    members: &Members,
    accuser: &Name,
) -> Deadline
    requires known { IsKnownTo members.now.names suspected.old.suspicion }
    requires within { IsWithin accusers.old suspected.old.suspicion.members }
    ensures row { row_by members.now.names suspected.new
        ≡ joined accuser.now (row_by members.now.names suspected.old) }
    ensures name { suspected.new.name ≡ suspected.old.name }
    ensures known { IsKnownTo members.now.names suspected.new.suspicion }
    ensures within { IsWithin accusers.new suspected.new.suspicion.members }
    ensures more { IsWithin accusers.new accusers.old }
    ensures deadline { let row = row_by members.now.names suspected.old in
        result ≡ deadline_of_change (accusing (Some accuser.now) (Some row)) }
{
    if !suspected.suspicion.accuse(accuser, members) {
        return Deadline::Stays;
    }
    *accusers = accusers.union(&suspected.suspicion.slots());
    Deadline::Stands(suspected.suspicion.deadline())
}

/// Forgets that a name has a slot: a suspicion that has the slot as an accuser has this name from now on.
fn forget_slot(suspected: &mut Suspected, slot: Slot, name: &Name)
    ensures { suspected.new ≡ row_without slot name.now suspected.old }
{
    suspected.suspicion.forget_slot(slot, name);
}

/// The same for each of these suspicions.
fn forget_slots(suspicions: &mut [Suspected], slot: Slot, name: &Name)
    ensures { suspicions.new ≡ map (row_without slot name.now) suspicions.old }
{
    for suspected in suspicions.iter_mut() {
        forget_slot(suspected, slot, name);
    }
}

impl Suspicions {
    /// No suspicion.
    pub(crate) fn new() -> Suspicions
        ensures { result ≡ [] }
    {
        Suspicions {
            rows: ArrayVec::new(),
            accusers: BitSet::new(),
        }
    }

    /// Overwrites other suspicions by these. Copies no more rows than there are. Allocates no memory.
    pub(crate) fn copy_into(&self, into: &mut Suspicions)
        ensures { into.new ≡ self.now }
    {
        copy_rows(self.rows.as_slice(), &mut into.rows);
        into.accusers = self.accusers;
    }

    /// How the suspicion of a member stands, or `None` if it isn't suspected.
    pub(crate) fn standing_of(&self, name: &Name) -> Option<SuspicionStanding>
        requires { Rises name_cmp (map kept_name self.now) }
        ensures standing { (names : List (Option (List ℕ))) → AreKnownTo names self.now
            → result ≡ option_map standing_of_row (row_at name_cmp suspected_name name.now (rows_by names self.now)) }
        ensures counted { IfSome result (λ s. s.confirmations ≤ s.timeout.confirmations) }
    {
        match index_of(self.rows.as_slice(), name) {
            Ok(at) => Some(self.rows[at].suspicion.standing()),
            Err(_) => None,
        }
    }

    /// Drops all suspicions.
    pub(crate) fn clear(&mut self)
        ensures { self.new ≡ [] }
    {
        self.rows.clear();
        self.accusers.clear();
    }

    /// Raises a suspicion of a member: replaces an older one, or adds it. Before the opening it does nothing.
    fn raise(
        &mut self,
        config: &Option<Config>,
        now: Moment,
        members: &Members,
        name: &Name,
        accuser: &Name,
    ) -> Deadline
        requires rises { Rises name_cmp (map kept_name self.old) }
        requires seat { HasSeat kept_name name.now self.old }
        requires good { IsGood config.now }
        requires known { AreKnownTo members.now.names self.old }
        ensures rows { let change = raised config.now now (live_in members.now.table) name.now accuser.now in
            let by = rows_by members.now.names in
            by self.new ≡ suspicions_after change (by self.old) }
        ensures known { AreKnownTo members.now.names self.new }
        ensures deadline { let change = raised config.now now (live_in members.now.table) name.now accuser.now in
            result ≡ deadline_of_change change }
    {
        let Some(config) = config else {
            return Deadline::Stays;
        };
        let live = members.live() as u64;
        let suspicion = Suspicion::raise(now, accuser, live, config);
        let deadline = suspicion.deadline();
        let suspected = Suspected {
            name: *name,
            suspicion,
        };
        put_row(&mut self.rows, suspected);
        Deadline::Stands(deadline)
    }

    /// Ends the suspicion of a member, if there is one.
    pub(crate) fn end(&mut self, name: &Name) -> Deadline
        requires { Rises name_cmp (map kept_name self.old) }
        ensures rows { (names : List (Option (List ℕ))) → let before = rows_by names self.old in
            let row = row_at name_cmp suspected_name name.now before in
            rows_by names self.new ≡ suspicions_after (ended name.now row) before }
        ensures known { (names : List (Option (List ℕ))) → AreKnownTo names self.old
            → AreKnownTo names self.new }
        ensures deadline { (names : List (Option (List ℕ))) → let before = rows_by names self.old in
            result ≡ deadline_of_change (ended name.now (row_at name_cmp suspected_name name.now before)) }
    {
        match index_of(self.rows.as_slice(), name) {
            Ok(at) => {
                self.rows.remove(at);
                Deadline::Ends
            }
            Err(_) => Deadline::Stays,
        }
    }

    /// Raises or ends the suspicion of a member whose record was overridden by a claim.
    fn override_row(
        &mut self,
        config: &Option<Config>,
        now: Moment,
        members: &Members,
        claim: &Claim,
    ) -> Deadline
        requires rises { Rises name_cmp (map kept_name self.old) }
        requires seat { HasSeat kept_name claim.now.name self.old }
        requires good { IsGood config.now }
        requires known { AreKnownTo members.now.names self.old }
        ensures rows { let by = rows_by members.now.names in
            let row = row_about claim.now (by self.old) in
            let change = overriding config.now now (live_in members.now.table) claim.now.name row claim.now.status in
            by self.new ≡ suspicions_after change (by self.old) }
        ensures known { AreKnownTo members.now.names self.new }
        ensures deadline { let row = row_about claim.now (rows_by members.now.names self.old) in
            let change = overriding config.now now (live_in members.now.table) claim.now.name row claim.now.status in
            result ≡ deadline_of_change change }
    {
        match claim.status {
            Status::Suspect(accuser) => self.raise(config, now, members, &claim.name, &accuser),
            Status::Alive | Status::Failed | Status::Left => self.end(&claim.name),
        }
    }

    /// Takes one more accuser of a member, if that is suspected.
    fn join(&mut self, members: &Members, name: &Name, accuser: &Name) -> Deadline
        requires rises { Rises name_cmp (map kept_name self.old) }
        requires known { AreKnownTo members.now.names self.old }
        ensures rows { let by = rows_by members.now.names in
            let row = row_at name_cmp suspected_name name.now (by self.old) in
            by self.new ≡ suspicions_after (accusing (Some accuser.now) row) (by self.old) }
        ensures known { AreKnownTo members.now.names self.new }
        ensures deadline { let before = rows_by members.now.names self.old in
            let row = row_at name_cmp suspected_name name.now before in
            result ≡ deadline_of_change (accusing (Some accuser.now) row) }
    {
        let Ok(at) = index_of(self.rows.as_slice(), name) else {
            return Deadline::Stays;
        };
        confirm(&mut self.rows[at], &mut self.accusers, members, accuser)
    }

    /// Takes a claim that accuses a member that is suspected already.
    fn accuse(&mut self, members: &Members, claim: &Claim) -> Deadline
        requires rises { Rises name_cmp (map kept_name self.old) }
        requires known { AreKnownTo members.now.names self.old }
        ensures rows { let by = rows_by members.now.names in
            let change = accusing (accuser_of claim.now.status) (row_about claim.now (by self.old)) in
            by self.new ≡ suspicions_after change (by self.old) }
        ensures known { AreKnownTo members.now.names self.new }
        ensures deadline { let row = row_about claim.now (rows_by members.now.names self.old) in
            result ≡ deadline_of_change (accusing (accuser_of claim.now.status) row) }
    {
        match claim.status {
            Status::Suspect(accuser) => self.join(members, &claim.name, &accuser),
            Status::Alive | Status::Failed | Status::Left => Deadline::Stays,
        }
    }

    /// Takes a claim about another member that was heard, and changes the suspicions by it. `members` are those known
    /// after the claim: each accuser still has its slot there. They are counted only if a suspicion is raised.
    pub(crate) fn suspect(
        &mut self,
        config: &Option<Config>,
        now: Moment,
        members: &Members,
        heard: Heard,
        claim: &Claim,
    ) -> Deadline
        requires rises { Rises name_cmp (map kept_name self.old) }
        requires seat { heard ≡ Heard.Overrode → HasSeat kept_name claim.now.name self.old }
        requires good { IsGood config.now }
        requires known { AreKnownTo members.now.names self.old }
        ensures rows { let by = rows_by members.now.names in
            let row = row_about claim.now (by self.old) in
            let change = change_by heard config.now now (live_in members.now.table) row claim.now in
            by self.new ≡ suspicions_after change (by self.old) }
        ensures known { AreKnownTo members.now.names self.new }
        ensures deadline { let row = row_about claim.now (rows_by members.now.names self.old) in
            let change = change_by heard config.now now (live_in members.now.table) row claim.now in
            result ≡ deadline_of_change change }
    {
        match heard {
            Heard::Overrode => self.override_row(config, now, members, claim),
            Heard::Accused => self.accuse(members, claim),
            Heard::Same | Heard::Ignored | Heard::NoRoom => Deadline::Stays,
        }
    }

    /// Forgets that a name has a slot: each suspicion that has the slot as an accuser has this name from now on.
    fn forget_slot(&mut self, slot: Slot, name: &Name)
        ensures { self.new ≡ map (row_without slot name.now) self.old }
    {
        if !self.accusers.contains(slot.number()) {
            return;
        }
        forget_slots(self.rows.as_mut_slice(), slot, name);
        self.accusers.remove(slot.number());
    }

    /// Forgets another member in the table of members, and that its name had a slot. Who is suspected by it still is.
    pub(crate) fn give_back(&mut self, members: &mut Members, name: &Name)
        requires other { name.now ≢ members.old.own }
        requires known { AreKnownTo members.old.names self.old }
        ensures members { members.new ≡ members_forgot name.now members.old }
        ensures rows { rows_by members.new.names self.new ≡ rows_by members.old.names self.old }
        ensures known { AreKnownTo members.new.names self.new }
    {
        match members.forget(name) {
            Some(slot) => self.forget_slot(slot, name),
            None => {}
        }
    }
}
