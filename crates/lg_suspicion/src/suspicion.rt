//! The suspicion of one member, and how its deadline shrinks.
//!
//! `Suspicion::accuse` takes one more accuser. If that one counts, `Suspicion::deadline` then gives an earlier
//! deadline, or the same one. The deadline is the moment at which the suspicion was raised plus the timeout after the
//! confirmations so far, `SuspicionTimeout::after` of `lg_timing/src/timeout.rt`. With no confirmation that is the
//! greatest timeout, and with all that may count the least one. In between, one more confirmation never makes it
//! longer. If no confirmation may count, since there are few members, the timeout is the least one from the start.
//!
//! The first accuser is kept by its name, as the record of the member has it too. Another one that is known when it
//! accuses is kept as its slot, in a set, until its name is forgotten: then it is kept by its name. A stranger is kept
//! by its name, stays so if it becomes known later, and doesn't count again.
//!
//! Defined in: `specs/Meaning/Accusers.antt`, `specs/Meaning/Parts.antt`,
//! `lg_timing/specs/Meaning/Timeouts.antt`.
//! Tested in: `lg_parts_tests/src/suspicion.rt`.
ghost use Rattle.std.specs.Prelude.{◌≡◌, ℕ, ◌≤◌, ◌<◌, ◌+◌, ◌||◌, Bool, false, List, [], ◌∷◌, ◌++◌, length, slice_set};
ghost use Rattle.std.specs.Prelude.{option_copied, Option, Some};
ghost use Rattle.arrayvec.specs.ArrayVec.{array_vec_len};
ghost use Rattle.lg_rules.specs.declared.claim.Claim.{Claim as Said};
ghost use Rattle.lg_rules.specs.Meaning.Rows.{name_cmp, is_among};
ghost use Rattle.lg_rules.specs.Meaning.Slots.{free_slot, freed, is_held, slot_in};
ghost use Rattle.lg_rules.specs.Meaning.Table.{names_heard};
ghost use Rattle.lg_timing.specs.Meaning.Config.{IsChecked};
ghost use Rattle.lg_timing.specs.Meaning.TimeoutValue.{TimeoutValue};
ghost use Rattle.lg_timing.specs.Meaning.Timeouts.{range_of};
ghost use Rattle.lg_suspicion.specs.Meaning.Accusers.{suspicion_after, accuser_counts, accused};
ghost use Rattle.lg_suspicion.specs.Meaning.Accusers.{deadline_of, deadline_by_set, set_of, standing_of_suspicion};
ghost use Rattle.lg_suspicion.specs.Meaning.Parts.{SuspicionParts, suspicion_by, accuser_count};
ghost use Rattle.lg_suspicion.specs.Meaning.Parts.{deadline_of_parts, IsKnownTo, parts_without, standing_of_parts};
ghost use Rattle.lg_suspicion.specs.Support.Accusers.{has_slot, members_with, named_with};

use crate::standing::SuspicionStanding;
use arrayvec::ArrayVec;
use lg_bit_set::{BitSet, NUMBERS};
use lg_rules::{Members, Name, Slot};
use lg_timing::{
    Config, MAX_CONFIRMATIONS, MAX_LIVE, MAX_MOMENT, MAX_SUSPICION_MS, Moment, SuspicionTimeout,
};
use std::marker::Model;

/// The most accusers that count: 6, the first one and [`MAX_CONFIRMATIONS`] others (this project's choice).
pub const MAX_ACCUSERS: usize = MAX_CONFIRMATIONS as usize + 1;

/// The last moment at which a suspected member is taken as failed: 1,000,000,057,792,000 milliseconds.
pub const MAX_DEADLINE: u64 = MAX_MOMENT + MAX_SUSPICION_MS;

/// The suspicion of a member: when it was raised, and who accuses the member (Lifeguard, local health aware
/// suspicion).
///
/// The first accuser counts. So do the first others, which confirm the suspicion: as many as confirmations may count.
/// How many these are is fixed when the suspicion is raised. A contract sees the moment, the timeouts, the accusers
/// that are kept as slots, and those that are kept by their names. The names that have slots make that a suspicion
/// with its accusers by name. The default fills rows of fixed capacity: it was raised at 0 by the default name, and has
/// timeouts of 0.
#[derive(Debug, Drop)]
pub struct Suspicion {
    raised: Moment,
    timeout: SuspicionTimeout,
    // The slots of the accusers that confirmed the suspicion and were known when they did.
    members: BitSet,
    // The names of the first accuser and of strangers.
    named: ArrayVec<Name, MAX_ACCUSERS>,
}

impl Model for Suspicion {
    ghost use Rattle.lg_suspicion.specs.Meaning.Parts.{SuspicionParts};
    ghost use Rattle.lg_suspicion.specs.Support.Accusers.{HasAccusers};

    ghost Value = { SuspicionParts };

    ghost view = { λ s. record {
      raised = s.raised;
      timeout = s.timeout;
      members = s.members;
      named = s.named.items;
    } };

    ghost invariant = { λ s. HasAccusers s.timeout s.members s.named.items };
}

impl Default for Suspicion {
    ghost use Rattle.std.specs.Prelude.{◌≡◌, ◌∷◌, []};
    ghost use Rattle.lg_bit_set.specs.Meaning.Flags.{no_flags};

    ghost is_default = { λ s. s
        ≡ record {
          raised = 0;
          timeout = record { min = 0; max = 0; confirmations = 0 };
          members = no_flags;
          named = (97 ∷ []) ∷ [];
        } };

    fn default() -> Self {
        let mut named = ArrayVec::new();
        named.push(Name::default());
        Suspicion {
            raised: Moment::default(),
            timeout: SuspicionTimeout::default(),
            members: BitSet::new(),
            named,
        }
    }
}

/// Whether a slot, if there is one, is in a set.
fn has_slot(members: &BitSet, slot: Option<&Slot>) -> bool
    ensures { result ≡ has_slot (option_copied slot.entry) members.now }
{
    match slot {
        Some(slot) => members.contains(slot.number()),
        None => false,
    }
}

/// Adds an accuser: its slot, if it has one, and else its name.
fn add(
    members: &mut BitSet,
    named: &mut ArrayVec<Name, MAX_ACCUSERS>,
    slot: Option<Slot>,
    accuser: &Name,
)
    requires { array_vec_len named.old < MAX_ACCUSERS }
    ensures members { members.new ≡ members_with slot members.old }
    ensures named { named.new.items ≡ named_with slot accuser.now named.old.items }
    ensures number { (number : ℕ) → slot ≡ Some number → number < 256 }
{
    match slot {
        Some(slot) => members.insert(slot.number()),
        None => named.push(*accuser),
    }
}

impl Suspicion {
    /// Copies the suspicion. Allocates no memory.
    pub fn copy(&self) -> Suspicion
        ensures { result ≡ self.now }
    {
        let mut named = ArrayVec::new();
        named.try_extend_from_slice(&self.named).unwrap();
        Suspicion {
            raised: self.raised,
            timeout: self.timeout,
            members: self.members,
            named,
        }
    }

    /// The suspicion of another member that `accuser` raises at the moment `now`. `live` is how many members aren't
    /// gone, this member and the suspected one included: 1 to [`MAX_LIVE`].
    pub fn raise(now: Moment, accuser: &Name, live: u64, config: &Config) -> Suspicion
        requires checked { IsChecked config.now }
        requires some { 1 ≤ live }
        requires within { live ≤ MAX_LIVE }

        // Whichever names have the slots,
        ensures raised { (names : List (Option (List ℕ))) → suspicion_by names result
            ≡ record { raised = now; timeout = range_of live config.now; accusers = accuser.now ∷ [] } }

        // it is the suspicion after one accuser.
        ensures first { (names : List (Option (List ℕ))) → suspicion_by names result
            ≡ suspicion_after now (range_of live config.now) (accuser.now ∷ []) }

        ensures known { (names : List (Option (List ℕ))) → IsKnownTo names result }
    {
        let mut named = ArrayVec::new();
        let first = *accuser;
        named.push(first);
        Suspicion {
            raised: now,
            timeout: SuspicionTimeout::new(live, config),
            members: BitSet::new(),
            named,
        }
    }

    /// The slots of the accusers that confirmed the suspicion, were known when they did, and weren't forgotten since.
    #[inline(always)]
    pub fn slots(&self) -> BitSet
        ensures { result ≡ self.now.members }
    {
        self.members
    }

    /// How many accusers count, 1 to [`MAX_ACCUSERS`].
    fn accusers(&self) -> usize
        ensures count { result ≡ accuser_count self.now }
        ensures some { 1 ≤ result }
        ensures counted { result ≤ self.now.timeout.confirmations + 1 }
        ensures size { length self.now.members ≡ NUMBERS }
    {
        self.members.len() + self.named.len()
    }

    /// Whether an accuser is one of those that are kept by their names.
    fn is_named(&self, accuser: &Name) -> bool
        ensures { result ≡ is_among name_cmp accuser.now self.now.named }
    {
        self.named.contains(accuser)
    }

    /// Takes one more accusation, and returns whether its accuser counts. It counts if fewer accusers count than may,
    /// and it isn't one of them. Otherwise nothing changes. `members` is this member's table, in which each
    /// accuser that is kept as its slot still has it.
    pub fn accuse(&mut self, accuser: &Name, members: &Members) -> bool
        requires known { IsKnownTo members.now.names self.old }

        ensures counts { result ≡ accuser_counts (suspicion_by members.now.names self.old) accuser.now }
        ensures accused { suspicion_by members.now.names self.new
            ≡ accused (suspicion_by members.now.names self.old) accuser.now }

        ensures known { IsKnownTo members.now.names self.new }
        ensures unchanged { result ≡ false → self.new ≡ self.old }

        // An accuser never moves the deadline to a later moment.
        ensures never_later { deadline_of (suspicion_by members.now.names self.new)
            ≤ deadline_of (suspicion_by members.now.names self.old) }

        // If this was the suspicion after some accusers (the latest first), it is now the one after those and this
        // one.
        ensures counted { let suspicion = suspicion_by members.now.names in
            (past : List (List ℕ))
            → suspicion self.old ≡ suspicion_after self.old.raised self.old.timeout past
            → suspicion self.new ≡ suspicion_after self.old.raised self.old.timeout (accuser.now ∷ past) }
    {
        if self.accusers() as u64 > self.timeout.confirmations() {
            return false;
        }
        if self.is_named(accuser) {
            return false;
        }
        let slot = members.slot_of(accuser);
        if has_slot(&self.members, slot.as_ref()) {
            return false;
        }
        add(&mut self.members, &mut self.named, slot, accuser);
        true
    }

    /// Forgets that a name has a slot, which is freed. If the slot is among the accusers, the accuser is kept by this
    /// name from now on. It counts as before, and the deadline stays.
    pub fn forget_slot(&mut self, slot: Slot, name: &Name)
        ensures parts { self.new ≡ parts_without slot name.now self.old }

        // By the names that are left, it is the suspicion that it was by those before.
        ensures known { (names : List (Option (List ℕ))) → slot_in name.now names ≡ Some slot → IsKnownTo names self.old
            → IsKnownTo (freed name.now names) self.new }
        ensures same { (names : List (Option (List ℕ))) → slot_in name.now names ≡ Some slot → IsKnownTo names self.old
            → suspicion_by (freed name.now names) self.new ≡ suspicion_by names self.old }
        ensures deadline { deadline_of_parts self.new ≡ deadline_of_parts self.old }
    {
        // The checker learns here how many confirmations may count, so that there is room for the name.
        let _ = self.timeout.confirmations();
        if !self.members.contains(slot.number()) {
            return;
        }
        self.members.remove(slot.number());
        self.named.push(*name);
    }

    /// When the member is taken as failed: the moment of the raise plus the timeout after the confirmations, which
    /// are the accusers that count without the first. It is at most [`MAX_DEADLINE`] milliseconds.
    pub fn deadline(&self) -> u64
        ensures parts { result ≡ deadline_of_parts self.now }

        // By whichever names have the slots, it is the deadline of the suspicion.
        ensures deadline { (names : List (Option (List ℕ))) → IsKnownTo names self.now
            → result ≡ deadline_of (suspicion_by names self.now) }

        // After any list of accusers, the deadline is the one of their set.
        ensures by_set { (names : List (Option (List ℕ))) (past : List (List ℕ)) → IsKnownTo names self.now
            → suspicion_by names self.now ≡ suspicion_after self.now.raised self.now.timeout past
            → result ≡ deadline_by_set self.now.raised self.now.timeout (set_of past) }

        ensures within { result ≤ MAX_DEADLINE }
    {
        self.raised.milliseconds() + self.timeout.after(self.accusers() as u64 - 1)
    }

    /// How the suspicion stands: when it was raised, its timeouts, and how many confirmations came that count.
    /// Allocates nothing.
    pub fn standing(&self) -> SuspicionStanding
        ensures parts { result ≡ standing_of_parts self.now }

        // By whichever names have the slots, it is how the suspicion stands.
        ensures standing { (names : List (Option (List ℕ))) → IsKnownTo names self.now
            → result ≡ standing_of_suspicion (suspicion_by names self.now) }

        // No more confirmations count than may.
        ensures counted { result.confirmations ≤ result.timeout.confirmations }
    {
        SuspicionStanding {
            raised: self.raised,
            timeout: self.timeout,
            confirmations: self.accusers() as u64 - 1,
        }
    }
}

/// The deadline is a function of the moment of the raise, the timeouts and the set of accusers. Two lists of accusers
/// with the same names, in any order and each any number of times, give the same deadline. This is a law, and the
/// call does nothing.
pub fn deadlines_are_by_the_set()
    ensures { (raised : ℕ) (timeout : TimeoutValue) (past other : List (List ℕ))
        → ((name : List ℕ) → is_among name_cmp name past ≡ is_among name_cmp name other)
        → deadline_of (suspicion_after raised timeout past) ≡ deadline_of (suspicion_after raised timeout other) }
{}

/// A name that gets a free slot leaves each suspicion as it is: its accusers keep their names. So does a claim that the
/// table of members hears. This is a law, and the call does nothing.
pub fn accusers_keep_their_names()
    ensures given { (names : List (Option (List ℕ))) (name : List ℕ) (slot : ℕ) (parts : SuspicionParts)
        → free_slot names ≡ Some slot → is_held name names ≡ false → IsKnownTo names parts
        → let after = slice_set names slot (Some name) in
        IsKnownTo after parts × (suspicion_by after parts ≡ suspicion_by names parts) }
    ensures heard { (taken : Bool) (names : List (Option (List ℕ))) (claim : Said) (parts : SuspicionParts)
        → IsKnownTo names parts → let after = names_heard taken names claim in
        IsKnownTo after parts × (suspicion_by after parts ≡ suspicion_by names parts) }
{}
