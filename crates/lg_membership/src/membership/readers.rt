//! What a member can be asked about its group.
//!
//! Defined in: `specs/Meaning/Log.antt`, `specs/Meaning/Gossip.antt`, `specs/Meaning/Suspicions.antt`,
//! `lg_rules/specs/Meaning/Table.antt`, `lg_rules/specs/Meaning/Own.antt`.
//! Tested in: `lg_parts_tests/src/membership/claims.rt`.
ghost use Rattle.std.specs.Prelude.{◌≡◌, ◌≤◌, ◌<◌, [], false, IfSome, length, option_copied, option_map, true};
ghost use Rattle.lg_rules.specs.Meaning.Claim.{name_of};
ghost use Rattle.lg_rules.specs.Meaning.Own.{own_record};
ghost use Rattle.lg_rules.specs.Meaning.Rows.{name_cmp, row_at};
ghost use Rattle.lg_rules.specs.Meaning.Table.{live_in};
ghost use Rattle.lg_gossip.specs.Meaning.Queue.{has_news};
ghost use Rattle.lg_membership.specs.Meaning.Gossip.{fill, news, version_sent};
ghost use Rattle.lg_membership.specs.declared.addressee.Addressee.TheVariants.{Anybody};
ghost use Rattle.lg_membership.specs.Meaning.Log.{GroupLog, config, own, group_view, live};
ghost use Rattle.lg_membership.specs.Meaning.Suspicions.{suspected_name, standing_of_row, standing_of_suspected};
ghost use Rattle.lg_membership.specs.Support.State.{group_state_of, shown};

use super::{Membership, is_same_name};
use arrayvec::ArrayVec;
use lg_rules::{
    Addr, Incarnation, MAX_MEMBERS, MAX_OTHERS, Members, Name, Record, Version, put_row,
};
use lg_suspicion::SuspicionStanding;
use lg_timing::Config;

impl Membership {
    /// The configuration that the member was opened with, or `None` before the opening.
    pub fn config(&self) -> Option<&Config>
        ensures state { option_copied result ≡ self.now.config }
        ensures log { (log : GroupLog) → self.now ≡ group_state_of log → option_copied result ≡ config log }
    {
        self.config.as_ref()
    }

    /// The version of the format in which this member sends; version 1 before the opening.
    pub fn version(&self) -> Version
        ensures { result ≡ version_sent self.now.config }
    {
        match &self.config {
            Some(config) => config.version(),
            None => Version::One,
        }
    }

    /// This member's name. Before the opening it is a placeholder.
    pub fn name(&self) -> Name
        ensures state { result ≡ self.now.own.name }
        ensures log { (log : GroupLog) → self.now ≡ group_state_of log → result ≡ (own log).name }
    {
        self.own.name()
    }

    /// This member's own record, at its incarnation and its address: Alive, or Left if it has left.
    pub fn own_record(&self) -> Record
        ensures state { result ≡ own_record self.now.own }
        ensures log { (log : GroupLog) → self.now ≡ group_state_of log → result ≡ own_record (own log) }
    {
        self.own.record()
    }

    /// This member's incarnation.
    pub fn number(&self) -> Incarnation
        ensures state { result ≡ self.now.own.number }
        ensures log { (log : GroupLog) → self.now ≡ group_state_of log → result ≡ (own log).number }
    {
        self.own.number()
    }

    /// Whether a claim about this member came that nothing can refute.
    pub fn is_ousted(&self) -> bool
        ensures state { result ≡ self.now.own.ousted }
        ensures log { (log : GroupLog) → self.now ≡ group_state_of log → result ≡ (own log).ousted }
    {
        self.own.ousted()
    }

    /// Whether this member left. Its name stays known, and it still counts as one that isn't gone.
    pub fn has_left(&self) -> bool
        ensures state { result ≡ self.now.own.left }
        ensures log { (log : GroupLog) → self.now ≡ group_state_of log → result ≡ (own log).left }
    {
        self.own.has_left()
    }

    /// How many members aren't gone, this member included, even if it left: 1 to 256.
    pub fn live(&self) -> usize
        ensures count { result ≡ live_in self.now.members.table }
        ensures few { result ≤ MAX_MEMBERS }
        ensures log { (log : GroupLog) → self.now ≡ group_state_of log → result ≡ live log }
    {
        self.members.live()
    }

    /// Whether a claim of the queue may still be sent.
    pub fn has_news(&self) -> bool
        ensures state { result ≡ has_news self.now.queue (live_in self.now.members.table) }
        ensures log { (log : GroupLog) → self.now ≡ group_state_of log → result ≡ news log }
        // Without news a packet to anybody takes no claim, and with news it takes some.
        ensures none { (log : GroupLog) → self.now ≡ group_state_of log → result ≡ false → fill Anybody log ≡ [] }
        ensures some { (log : GroupLog) → self.now ≡ group_state_of log → result ≡ true
            → 0 < length (fill Anybody log) }
    {
        self.queue.has_news(self.members.live())
    }

    /// The record of the member with this name, which may be this member itself, or `None` if it isn't known.
    // Without this each call on the way would copy the record.
    #[inline(always)]
    pub fn record_of(&self, name: &Name) -> Option<Record>
        ensures state { result ≡ row_at name_cmp name_of name.now (shown self.now) }
        ensures log { (log : GroupLog) → self.now ≡ group_state_of log
            → result ≡ row_at name_cmp name_of name.now (group_view log) }
    {
        if self.config.is_none() {
            return None;
        }
        let own = self.own.record();
        if is_same_name(&own.name, name) {
            return Some(own);
        }
        self.members.get(name).copied()
    }

    /// How the suspicion of the member with this name stands, or `None` if it isn't suspected (Lifeguard, local health
    /// aware suspicion). This member never suspects itself. Allocates no memory.
    pub fn suspicion_of(&self, name: &Name) -> Option<SuspicionStanding>
        ensures state { result ≡ option_map standing_of_row
            (row_at name_cmp suspected_name name.now self.now.suspicions) }
        ensures log { (log : GroupLog) → self.now ≡ group_state_of log
            → result ≡ standing_of_suspected log name.now }
        // No more confirmations count than may.
        ensures counted { IfSome result (λ s. s.confirmations ≤ s.timeout.confirmations) }
    {
        self.suspicions.standing_of(name)
    }

    /// The address of the member with this name, which may be this member itself, or `None` if it isn't known. If its
    /// record is the one at the index `near` of those of the others, from 0 in the order of names, it is found without
    /// a search. Any other index makes this slower alone.
    pub fn addr_near(&self, name: &Name, near: usize) -> Option<Addr>
        ensures { result ≡ option_map (λ r. r.addr) (row_at name_cmp name_of name.now (shown self.now)) }
    {
        if self.config.is_none() {
            return None;
        }
        match self.members.at(near) {
            Some(record) if is_same_name(&record.name, name) => Some(record.addr),
            _ => self.addr_of(name),
        }
    }

    /// The address of the member with this name, found by a search.
    #[inline(never)]
    fn addr_of(&self, name: &Name) -> Option<Addr>
        ensures { result ≡ option_map (λ r. r.addr) (row_at name_cmp name_of name.now (shown self.now)) }
    {
        match self.record_of(name) {
            Some(record) => Some(record.addr),
            None => None,
        }
    }

    /// Replaces what the row holds by the records of all members, this member included, in the order of names. Before
    /// the opening nobody is known.
    pub fn put_table(&self, row: &mut ArrayVec<Record, MAX_MEMBERS>)
        ensures state { row.new.items ≡ shown self.now }
        ensures log { (log : GroupLog) → self.now ≡ group_state_of log → row.new.items ≡ group_view log }
    {
        row.clear();
        if self.config.is_some() {
            copy_all(&self.members, row);
            // Taken apart, since the checker doesn't follow a whole record into a generic call.
            let Record {
                name,
                addr,
                status,
                incarnation,
            } = self.own.record();
            let own = Record {
                name,
                addr,
                status,
                incarnation,
            };
            put_row(row, own);
        }
    }
}

/// Copies the records of all others into an empty row.
fn copy_all(members: &Members, row: &mut ArrayVec<Record, MAX_MEMBERS>)
    requires { row.old.items ≡ [] }
    ensures all { row.new.items ≡ members.now.table }
    ensures few { length row.new.items ≤ MAX_OTHERS }
{
    for index in 0..members.count() {
        match members.at(index) {
            Some(other) => row.push(*other),
            None => {}
        }
    }
}
