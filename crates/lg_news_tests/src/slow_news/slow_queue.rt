//! The claims that a member tells, as a slow list: each packet looks for its claims one after another.
use super::MOST;
use arrayvec::ArrayVec;
use lg_rules::{Claim, MAX_CLAIMS, Name, Record};

/// The claims that were queued, in any order, at most one about each member, and how often each was sent.
#[derive(Drop)]
pub(super) struct SlowQueue {
    claims: ArrayVec<Claim, MOST>,
    sends: ArrayVec<(Name, u64), MOST>,
}

/// Adds a claim, if there is room.
pub(super) fn add<const ROOM: usize>(claims: &mut ArrayVec<Claim, ROOM>, claim: &Claim) {
    let Claim {
        name,
        addr,
        status,
        incarnation,
    } = *claim;
    if !claims.is_full() {
        claims.push(Claim {
            name,
            addr,
            status,
            incarnation,
        });
    }
}

/// Whether one of these claims is about a member.
fn is_about(claims: &[Claim], name: &Name) -> bool {
    claims.iter().any(|claim| claim.name == *name)
}

/// Whether a claim comes before the first one so far: it was sent less often, or as often and is the first by name.
fn comes_before(row: &(Name, u64), first: &Option<(Name, u64)>) -> bool {
    match first {
        Some(other) => row.1 < other.1 || (row.1 == other.1 && row.0 < other.0),
        None => true,
    }
}

impl SlowQueue {
    /// Nothing is queued.
    pub(super) fn new() -> SlowQueue {
        SlowQueue {
            claims: ArrayVec::new(),
            sends: ArrayVec::new(),
        }
    }

    /// Queues a claim in place of that about its member.
    pub(super) fn put(&mut self, claim: &Claim) {
        let name = claim.name;
        self.claims.retain(|other| other.name != name);
        self.sends.retain(|row| row.0 != name);
        add(&mut self.claims, claim);
        if !self.sends.is_full() {
            self.sends.push((name, 0));
        }
    }

    /// Whether a claim was sent less often than this.
    pub(super) fn has_news(&self, limit: u64) -> bool {
        self.sends.iter().any(|row| row.1 < limit)
    }

    /// Whether the claim about a member was sent less often than this.
    pub(super) fn has_news_of(&self, name: &Name, limit: u64) -> bool {
        self.sends.iter().any(|row| row.0 == *name && row.1 < limit)
    }

    /// The member that the next claim of a packet is about, beside those that the packet tells of: of the claims that
    /// may still be sent, the one that was sent least often, and of these the first by name.
    fn next_of(&self, told: &[Claim], limit: u64) -> Option<Name> {
        let mut first = None;
        for row in self.sends.as_slice() {
            if row.1 < limit && comes_before(row, &first) && !is_about(told, &row.0) {
                first = Some(*row);
            }
        }
        first.map(|row| row.0)
    }

    /// Counts one more send of what is queued about a member.
    fn count_send(&mut self, name: &Name) {
        for row in self.sends.iter_mut() {
            if row.0 == *name {
                row.1 = row.1.saturating_add(1);
            }
        }
    }

    /// Adds what is queued about a member to the claims of a packet.
    fn add_of(&self, name: &Name, claims: &mut ArrayVec<Claim, MAX_CLAIMS>) {
        for claim in self.claims.as_slice() {
            if claim.name == *name {
                add(claims, claim);
            }
        }
    }

    /// The claims of the next packet, at most so many. The packet begins with a record or doesn't.
    pub(super) fn fill(
        &mut self,
        buddy: Option<Record>,
        most: usize,
        limit: u64,
    ) -> ArrayVec<Claim, MAX_CLAIMS> {
        let mut claims = ArrayVec::new();
        if let Some(record) = buddy {
            add(&mut claims, &record);
        }
        for _ in claims.len()..most {
            let Some(name) = self.next_of(claims.as_slice(), limit) else {
                break;
            };
            self.count_send(&name);
            self.add_of(&name, &mut claims);
        }
        claims
    }
}
