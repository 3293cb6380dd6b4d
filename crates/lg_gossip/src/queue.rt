//! The queue of claims that ride on packets.
//!
//! Defined in: `specs/Meaning/Queue.antt`.
//! Tested in: `lg_parts_tests/src/gossip.rt`.
ghost use Rattle.std.specs.Prelude.{◌≡◌, ◌≤◌, ◌<◌, [], false, length, map, None, option_copied, true};
ghost use Rattle.std.specs.List.{IsDistinct};
ghost use Rattle.lg_rules.specs.Meaning.Rows.{name_cmp, is_same, row_at};
ghost use Rattle.lg_rules.specs.Meaning.Claim.{name_of};
ghost use Rattle.lg_gossip.specs.Meaning.Queue.{queued_name, put_of, removed, fill_of, filled};
ghost use Rattle.lg_gossip.specs.Meaning.Queue.{has_news, may_send_about};

use crate::below::is_any_below;
use crate::choice::{buddy_of, count_sends, fewest_after, rows_taken, write_claims};
use crate::limit::send_limit;
use crate::queued::Queued;
use crate::sets::{SETS, clear_sets, close_row, put_fresh, used_after};
use arrayvec::ArrayVec;
use lg_bit_set::BitSet;
use lg_rows::Rows;
use lg_rules::{Claim, MAX_CLAIMS, MAX_LAMBDA, MAX_MEMBERS, Name, Record, Version, index_in_rows};
use std::marker::Model;

/// The most claims of a queue: 256, one for each member (this project's choice).
pub const MAX_QUEUED: usize = MAX_MEMBERS;

/// The claims that ride on packets (piggyback; SWIM, section 4.1): at most one about each member, in the order of
/// names.
///
/// A claim may be sent up to the retransmit limit, `lambda` times for each decimal digit of the number of members.
/// (SWIM takes a logarithm. The digits are this project's choice.) It stays in the queue after that, since with more
/// members it may be sent again. A claim whose address the version of its packets can't tell is never sent. No call
/// allocates memory. A contract sees `lambda`, the version and the list of the claims with their sends.
#[derive(Debug, Drop)]
pub struct Queue {
    lambda: u64,
    /// The version of the packets that take claims.
    version: Version,
    /// No claim was sent less often than this, so that a packet needn't look at all of them.
    fewest: u64,
    /// No set from this index on has a row. It grows with the limit of a packet.
    used: usize,
    /// The indexes of the rows by how often they were sent: a set for each number of sends below 30.
    sent: [BitSet; SETS],
    rows: Rows<Queued, MAX_QUEUED>,
}

impl Model for Queue {
    ghost use Rattle.lg_gossip.specs.Meaning.Queue.{QueueValue};

    ghost Value = { QueueValue };

    ghost use Rattle.lg_gossip.specs.Support.Sound.{IsSound};

    ghost view = { λ q. record { lambda = q.lambda; version = q.version; rows = q.rows.items } };

    ghost invariant = { λ q. IsSound q.lambda q.fewest q.used q.sent q.rows.items };
}

impl Queue {
    /// An empty queue, whose claims ride on packets of a version. They may be sent `lambda` times for each decimal
    /// digit of the number of members. `lambda` is at most 10.
    pub fn new(lambda: u64, version: Version) -> Queue
        requires { lambda ≤ MAX_LAMBDA }
        ensures { result ≡ record { lambda = lambda; version = version; rows = [] } }
    {
        Queue {
            lambda,
            version,
            fewest: u64::MAX,
            used: 1,
            sent: [BitSet::new(); SETS],
            rows: Rows::new(),
        }
    }

    /// Overwrites another queue by this one, in place. Allocates no memory.
    pub fn copy_into(&self, into: &mut Queue)
        ensures { into.new ≡ self.now }
    {
        into.lambda = self.lambda;
        into.version = self.version;
        into.fewest = self.fewest;
        into.used = self.used;
        into.sent.copy_from_slice(&self.sent);
        self.rows.copy_into(&mut into.rows);
    }

    /// The claims with their sends, in the order of names.
    pub fn queued(&self) -> &Rows<Queued, MAX_QUEUED>
        ensures { result.now.items ≡ self.now.rows }
    {
        &self.rows
    }

    /// Whether a claim may still be sent among `live` members, which may be any number: whether it was sent fewer times
    /// than the retransmit limit. If not, a packet without a buddy has no claim.
    pub fn has_news(&self, live: usize) -> bool
        ensures news { result ≡ has_news self.now live }
        // Without news a packet without a buddy takes no claim, and with news it takes some.
        ensures none { result ≡ false → fill_of self.now None live ≡ [] }
        ensures some { result ≡ true → 0 < length (fill_of self.now None live) }
    {
        let limit = send_limit(self.lambda, live);
        is_any_below(&self.rows, &self.sent, limit, self.fewest)
    }

    /// Whether the queue has a claim about the member with this name that may still be sent among `live` members.
    pub fn may_send(&self, name: &Name, live: usize) -> bool
        ensures { result ≡ may_send_about name.now self.now live }
    {
        match index_in_rows(&self.rows, name) {
            Ok(index) => u64::from(self.rows[index].sends) < send_limit(self.lambda, live),
            Err(_) => false,
        }
    }

    /// Forgets all claims, and starts over with another `lambda`, at most 10, and another version.
    pub fn restart(&mut self, lambda: u64, version: Version)
        requires { lambda ≤ MAX_LAMBDA }
        ensures { self.new ≡ record { lambda = lambda; version = version; rows = [] } }
    {
        let Queue {
            lambda: factor,
            version: format,
            fewest,
            used: _,
            sent,
            rows,
        } = self;
        *factor = lambda;
        *format = version;
        *fewest = u64::MAX;
        clear_sets(sent);
        rows.clear();
    }

    /// Queues a claim with no sends: replaces the one about its member, or adds it. If the version can't tell its
    /// address, it counts as sent as often as any claim may be, and no packet takes it.
    ///
    /// If none about its member is queued, fewer than 256 claims have to be queued.
    pub fn put(&mut self, claim: Claim)
        requires { (row_at name_cmp queued_name claim.name self.old.rows ≡ None)
            → length self.old.rows < MAX_QUEUED }
        ensures { self.new ≡ put_of claim self.old }
    {
        put_fresh(
            &mut self.rows,
            &mut self.sent,
            self.used,
            self.version,
            claim,
        );
        self.fewest = 0;
    }

    /// Drops the claim about the member with this name, if there is one. The others stay as they are.
    pub fn remove(&mut self, name: &Name)
        ensures { self.new ≡ removed name.now self.old }
    {
        if let Ok(index) = index_in_rows(&self.rows, name) {
            self.rows.remove(index);
            close_row(&mut self.sent, self.used, index as u8);
        }
    }

    /// Replaces what `claims` holds by the claims of the next packet. `live` is the number of members that aren't
    /// gone, this member included. It may be any number.
    ///
    /// The packet takes the claims that were sent fewer times than the retransmit limit: the first, as many as a packet
    /// of its version has room for, by their sends and then by their names. Each of them counts as sent once more.
    ///
    /// `buddy` is the record that is to stand first, if there is one (Lifeguard's buddy system). It stands first if the
    /// version can tell its address. It takes one of the places, and doesn't count as sent. The queue's claim about its
    /// member is passed over.
    pub fn fill_into(
        &mut self,
        buddy: Option<&Record>,
        live: usize,
        claims: &mut ArrayVec<Claim, MAX_CLAIMS>,
    )
        ensures apart { IsDistinct (is_same name_cmp) (map name_of claims.new.items) }
        ensures claims { claims.new.items ≡ fill_of self.old (option_copied buddy.entry) live }
        ensures queue { self.new ≡ filled self.old (option_copied buddy.entry) live }
    {
        let limit = send_limit(self.lambda, live);
        match buddy {
            // Mostly there is no buddy and no row may be sent any more, and then none is looked at.
            None if limit <= self.fewest => claims.clear(),
            _ => self.take_into(buddy, live, claims),
        }
    }

    /// The same, whether a row may be sent or not.
    // Inlined, it would clear places for rows that no packet takes.
    #[inline(never)]
    fn take_into(
        &mut self,
        buddy: Option<&Record>,
        live: usize,
        claims: &mut ArrayVec<Claim, MAX_CLAIMS>,
    )
        ensures apart { IsDistinct (is_same name_cmp) (map name_of claims.new.items) }
        ensures claims { claims.new.items ≡ fill_of self.old (option_copied buddy.entry) live }
        ensures queue { self.new ≡ filled self.old (option_copied buddy.entry) live }
    {
        let version = self.version;
        let buddy = buddy_of(version, buddy);
        let limit = send_limit(self.lambda, live);
        let taken = rows_taken(&self.rows, &self.sent, version, buddy, limit, self.fewest);
        write_claims(claims, buddy, &self.rows, taken.as_slice());
        self.fewest = fewest_after(taken.as_slice(), version, buddy, limit, self.fewest);
        count_sends(&mut self.rows, &mut self.sent, taken.as_slice());
        self.used = used_after(self.used, limit);
    }

    /// The claims of the next packet, as `fill_into` writes them.
    pub fn fill(&mut self, buddy: Option<&Record>, live: usize) -> ArrayVec<Claim, MAX_CLAIMS>
        ensures apart { IsDistinct (is_same name_cmp) (map name_of result.items) }
        ensures claims { result.items ≡ fill_of self.old (option_copied buddy.entry) live }
        ensures queue { self.new ≡ filled self.old (option_copied buddy.entry) live }
    {
        let mut claims = ArrayVec::new();
        self.fill_into(buddy, live, &mut claims);
        claims
    }
}
