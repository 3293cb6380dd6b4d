//! Forgetting a member that is gone (this project's choice).
//!
//! Defined in: `specs/Meaning/Log.antt`, `specs/Meaning/Suspicions.antt`, `specs/Meaning/Gossip.antt`.
//! Tested in: `lg_parts_tests/src/membership/forgetting.rt`.
ghost use Rattle.std.specs.Prelude.{◌≡◌, ◌≤◌, ◌<◌, ◌∷◌, false, true};
ghost use Rattle.lg_rules.specs.declared.claim.Claim.{Claim as Said};
ghost use Rattle.lg_membership.specs.Meaning.Log.{GroupLog, Forgot, forgets_in, has_room_for, needs_room};
ghost use Rattle.lg_membership.specs.Support.State.{group_state_of, forget_from_group, has_room_in, needs_room_in};

use super::{Membership, is_same_name};
use lg_rules::{Claim, MAX_CLAIMS, MAX_OTHERS, Name};

impl Membership {
    /// Forgets another member: its record, its suspicion and what is queued about it are dropped, and its slot is free.
    /// Its name is unknown from now on, and what was said of it counts for nothing. Whom it accuses is still accused by
    /// it. If the name is unknown, or is this member's own, nothing changes. Allocates no memory.
    pub fn forget(&mut self, name: &Name)
        ensures state { self.new ≡ forget_from_group name.now self.old }
        // Whatever happened before, the forgetting is added to the log.
        ensures log { (log : GroupLog) → self.old ≡ group_state_of log
            → self.new ≡ group_state_of (Forgot name.now ∷ log) }
    {
        if is_same_name(name, &self.own.name()) {
            return;
        }
        self.suspicions.end(name);
        self.suspicions.give_back(&mut self.members, name);
        self.queue.remove(name);
    }

    /// Whether a claim brings a member for which there is no room until one is forgotten: `forget_ms` isn't 0, 255
    /// others are known, and the claim says of a name that isn't known that it is alive or suspected. Once another name
    /// that is known was forgotten, there is room for it.
    pub fn needs_room(&self, claim: &Claim) -> bool
        ensures state { result ≡ needs_room_in claim.now self.now }
        ensures log { (log : GroupLog) → self.now ≡ group_state_of log → result ≡ needs_room log claim.now }
    {
        !is_same_name(&claim.name, &self.own.name()) && self.members.needs_room(claim)
    }

    /// Whether this member forgets members that are gone.
    pub fn forgets(&self) -> bool
        ensures { result ≡ forgets_in self.now.config }
    {
        match &self.config {
            Some(config) => config.does_forget(),
            None => false,
        }
    }

    /// Whether no claim of so many, one applied after another, can bring a member for which there is no room until one
    /// is forgotten: nobody is ever forgotten, or at most 255 others are known even if each of these claims brings one.
    pub fn has_room_for(&self, count: usize) -> bool
        requires { count ≤ MAX_CLAIMS }
        ensures state { result ≡ has_room_in count self.now }
        ensures log { (log : GroupLog) → self.now ≡ group_state_of log → result ≡ has_room_for log count }
        // If there is room for some claims, none of them needs it.
        ensures none { (log : GroupLog) (c : Said) → self.now ≡ group_state_of log → result ≡ true → 0 < count
            → needs_room log c ≡ false }
    {
        !self.forgets() || self.members.count() + count <= MAX_OTHERS
    }
}
