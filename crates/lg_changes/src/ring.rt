//! Keeps the newest changes, and finds those behind a version.
//!
//! Defined in: `specs/Meaning/Changes.antt`, `specs/Meaning/Kept.antt`.
//! Tested in: `lg_answers_tests/src/ring.rt`.
ghost use Rattle.std.specs.Prelude.{◌≡◌, ◌+◌, ◌<◌, ℕ, List, [], ◌∷◌, ◌++◌, IfOk, filter, map};
ghost use Rattle.std.specs.Option.{option_map};
ghost use Rattle.std.specs.VecDeque.{deque_capacity, deque_len};
ghost use Rattle.lg_changes.specs.declared.change.Change.{Change as Changed};
ghost use Rattle.lg_changes.specs.Meaning.Changes.{recorded_at, forgotten_at, changes_after, is_after, last_version};
ghost use Rattle.lg_changes.specs.Meaning.Kept.{HasBehind, KeepsNewest};

use crate::behind::Behind;
use crate::change::{Altered, Change};
use lg_rules::{Claim, Name, Record};
use lg_timing::Moment;
use std::alloc::{AllocError, Global};
use std::collections::VecDeque;

/// How many changes are kept: 1,024 (this project's choice).
pub const MAX_CHANGES: usize = 1024;

/// The newest changes of what is known of the members, at most [`MAX_CHANGES`].
#[derive(Drop)]
pub struct Changes {
    /// The changes that are kept, the oldest first.
    rows: VecDeque<Change>,
    /// The greatest version of those that are no longer kept, or 0.
    lost: u64,
}

/// Appends a change. If there is room for it, as the caller sees to, nothing is allocated.
fn push(rows: &mut VecDeque<Change>, change: &Change)
    ensures items { deque_len rows.old < deque_capacity rows.old → rows.new.items ≡ rows.old.items ++ change.now ∷ [] }
    ensures len { deque_len rows.old < deque_capacity rows.old → deque_len rows.new ≡ deque_len rows.old + 1 }
    ensures room { deque_len rows.old < deque_capacity rows.old
        → deque_capacity rows.new ≡ deque_capacity rows.old }
{
    // Built anew from its parts, since the checker doesn't follow a whole record into a generic call.
    let altered = match change.altered {
        Altered::Recorded(
            Claim {
                name,
                addr,
                status,
                incarnation,
            },
        ) => Altered::Recorded(Claim {
            name,
            addr,
            status,
            incarnation,
        }),
        Altered::Forgotten(name) => Altered::Forgotten(name),
    };
    // If there is room, this isn't refused.
    let _ = rows.push_back(Change {
        version: change.version,
        moment: change.moment,
        altered,
    });
}

impl Changes {
    /// A ring with no changes. Allocates the room for [`MAX_CHANGES`] of them, which is all that it ever allocates. The
    /// only error is that memory was refused.
    pub fn new(alloc: Global) -> Result<Changes, AllocError>
        ensures { IfOk result (λ ring. KeepsNewest ring []) }
    {
        let rows = VecDeque::with_capacity(alloc, MAX_CHANGES)?;
        Ok(Changes { rows, lost: 0 })
    }

    /// Keeps a change as the newest one. If there is no room for it, the oldest is dropped. Allocates nothing.
    fn keep(&mut self, change: &Change)
        ensures { (all : List Changed) → KeepsNewest self.old all → KeepsNewest self.new (all ++ change.now ∷ []) }
    {
        if self.rows.len() < MAX_CHANGES {
            push(&mut self.rows, change);
            return;
        }
        if let Some(oldest) = self.rows.pop_front() {
            self.lost = self.lost.max(oldest.version);
            push(&mut self.rows, change);
        }
    }

    /// Keeps a change for each of these records, in their order. By then there were `version` events, and `moment` was
    /// the greatest moment handed in. If there are more than [`MAX_CHANGES`] changes, the oldest are dropped. Allocates
    /// nothing.
    pub fn keep_changed(&mut self, version: u64, moment: Moment, members: &[Record])
        ensures { (all : List Changed) → KeepsNewest self.old all
            → KeepsNewest self.new (all ++ map (recorded_at version moment) members.now) }
    {
        for member in members {
            self.keep(&Change {
                version,
                moment,
                altered: Altered::Recorded(*member),
            });
        }
    }

    /// Keeps a change for each of these names of forgotten members, in their order. By then there were `version`
    /// events, and `moment` was the greatest moment handed in. If there are more than [`MAX_CHANGES`] changes, the
    /// oldest are dropped. Allocates nothing.
    pub fn keep_forgotten(&mut self, version: u64, moment: Moment, names: &[Name])
        ensures { (all : List Changed) → KeepsNewest self.old all
            → KeepsNewest self.new (all ++ map (forgotten_at version moment) names.now) }
    {
        for name in names {
            self.keep(&Change {
                version,
                moment,
                altered: Altered::Forgotten(*name),
            });
        }
    }

    /// The version of the newest change, or 0 if there is none. There are changes behind a version if this is greater.
    pub fn last_version(&self) -> u64
        ensures { (all : List Changed) → KeepsNewest self.now all → result ≡ last_version all }
    {
        match self.rows.back() {
            Some(change) => change.version,
            None => 0,
        }
    }

    /// The changes behind a version among those that are kept.
    fn kept_after(&self, alloc: Global, version: u64) -> Result<Vec<Change>, AllocError>
        ensures { IfOk result (λ rows. rows.items ≡ filter (is_after version) self.now.rows.items) }
    {
        self.rows
            .iter()
            .copied()
            .filter(|change| version < change.version)
            .collect(alloc)
    }

    /// The changes behind a version, the oldest first. None if the ring no longer reaches back to that version, since
    /// it dropped a change behind it.
    ///
    /// Memory is allocated for a copy of the changes. The only error is that it was refused.
    pub fn after(&self, alloc: Global, version: u64) -> Result<Option<Vec<Change>>, AllocError>
        ensures { (all : List Changed) → KeepsNewest self.now all → IfOk result (λ found.
            option_map (λ rows. rows.items) found ≡ changes_after version all) }
    {
        if version < self.lost {
            return Ok(None);
        }
        let found = self.kept_after(alloc, version)?;
        Ok(Some(found))
    }

    /// A ring that keeps the same. Allocates what [`Changes::new`] does and, until it ends, a list of the changes. The
    /// only error is that memory was refused.
    fn copy(&self, alloc: Global) -> Result<Changes, AllocError>
        ensures { (all : List Changed) → KeepsNewest self.now all → IfOk result (λ ring. KeepsNewest ring all) }
    {
        let mut ring = Changes::new(alloc)?;
        let rows = self.rows.iter().copied().collect::<Vec<_>>(alloc)?;
        ring.keep_all(&rows);
        ring.lost = self.lost;
        Ok(ring)
    }

    /// What the ring has behind a version: all changes behind it, or a copy of the ring if it has dropped one of
    /// them. Memory is allocated for the copy. The only error is that it was refused.
    pub fn behind(&self, alloc: Global, version: u64) -> Result<Behind, AllocError>
        ensures { (all : List Changed) → KeepsNewest self.now all
            → IfOk result (λ found. HasBehind found version all) }
    {
        match self.after(alloc, version)? {
            Some(rows) => Ok(Behind::All(rows)),
            None => {
                let ring = self.copy(alloc)?;
                Ok(Behind::Missed(ring))
            }
        }
    }

    /// Keeps the changes that another ring has behind a version, if this ring keeps those up to that version. If the
    /// other has dropped some of them, this ring becomes a copy of it. Allocates nothing.
    pub fn catch_up(&mut self, found: Behind)
        ensures { (all more : List Changed) → (version : ℕ) → KeepsNewest self.old all
            → filter (is_after version) (all ++ more) ≡ more → HasBehind found version (all ++ more)
            → KeepsNewest self.new (all ++ more) }
    {
        match found {
            Behind::All(rows) => self.keep_all(&rows),
            Behind::Missed(ring) => *self = ring,
        }
    }

    /// Keeps these changes as the newest ones.
    fn keep_all(&mut self, changes: &[Change])
        ensures { (all : List Changed) → KeepsNewest self.old all → KeepsNewest self.new (all ++ changes.now) }
    {
        for change in changes {
            self.keep(change);
        }
    }
}
