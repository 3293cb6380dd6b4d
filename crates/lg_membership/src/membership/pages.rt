//! The member table by pages, for a member that joins (push-pull).
//!
//! Defined in: `specs/Meaning/Pages.antt`, `specs/Meaning/Log.antt`, `specs/Meaning/Gossip.antt`.
//! Tested in: `lg_parts_tests/src/membership/pages.rt`.
ghost use Rattle.std.specs.Prelude.{◌≡◌, ◌≤◌, [], map, option_copied};
ghost use Rattle.arrayvec.specs.ArrayVec.{array_vec_len};
ghost use Rattle.lg_rules.specs.Meaning.Claim.{name_of};
ghost use Rattle.lg_rules.specs.Meaning.Rows.{name_cmp, Rises};
ghost use Rattle.lg_membership.specs.Meaning.Gossip.{version_sent};
ghost use Rattle.lg_membership.specs.Meaning.Log.{GroupLog, config, group_view};
ghost use Rattle.lg_membership.specs.Meaning.Pages.{is_behind, is_in_page, page_of};
ghost use Rattle.lg_membership.specs.Support.State.{group_state_of, shown, with_paged};

use super::Membership;
use arrayvec::ArrayVec;
use lg_rules::{MAX_CLAIMS, Members, Name, Record, Version, put_row};

/// The most records of a page and one more: this member's own record is put among them before the page is cut.
const MAX_GATHERED: usize = MAX_CLAIMS + 1;

impl Membership {
    /// Replaces what the row holds by the records of a page (this project's choice). These are the first six records
    /// of all members, or the first twelve in version 3, this member included, whose names come after the given one in
    /// the order of names. If no name is given, they are the first of all. A record whose address the version can't
    /// tell is passed over.
    ///
    /// The name needn't be known. The next page comes after the name of this page's last record. No page comes after
    /// one with fewer records than that. Before the opening nobody is known. Allocates no memory.
    pub fn put_page(&self, after: Option<&Name>, row: &mut ArrayVec<Record, MAX_CLAIMS>)
        ensures state { row.new.items
            ≡ page_of (version_sent self.now.config) (option_copied after.entry) (shown self.now) }
        ensures log { (log : GroupLog) → self.now ≡ group_state_of log
            → row.new.items ≡ page_of (version_sent (config log)) (option_copied after.entry) (group_view log) }
    {
        row.clear();
        if self.config.is_some() {
            let version = self.version();
            let mut gathered = ArrayVec::new();
            put_others(&self.members, version, after, &mut gathered);
            put_own(self.own.record(), version, after, &mut gathered);
            gathered.truncate(version.most_claims());
            let copied = row.try_extend_from_slice(gathered.as_slice());
            prove!(copied.is_ok());
        }
    }
}

/// Whether a record comes after a name in the order of names. Each record does if no name is given.
fn is_behind(after: Option<&Name>, candidate: &Record) -> bool
    ensures { result ≡ is_behind (option_copied after.entry) candidate.now }
{
    match after {
        None => true,
        Some(name) => name.cmp(&candidate.name).is_lt(),
    }
}

/// Whether a record can be on the pages after a name: it comes after the name, and the version can tell its address.
fn is_in_page(version: Version, after: Option<&Name>, candidate: &Record) -> bool
    ensures { result ≡ is_in_page version (option_copied after.entry) candidate.now }
{
    is_behind(after, candidate) && version.tells(&candidate.addr)
}

/// Writes the first records of others of the pages after a name, as many as one page can have, into an empty row.
fn put_others(
    members: &Members,
    version: Version,
    after: Option<&Name>,
    row: &mut ArrayVec<Record, MAX_GATHERED>,
)
    requires { row.old.items ≡ [] }
    ensures { row.new.items ≡ page_of version (option_copied after.entry) members.now.table }
{
    let most = version.most_claims();
    for index in 0..members.count() {
        if row.len() == most {
            return;
        }
        match members.at(index) {
            Some(other) => {
                if is_in_page(version, after, other) {
                    row.push(*other);
                }
            }
            None => {}
        }
    }
}

/// Puts a record among those of a page, if it can be on the pages after the given name.
fn put_own(
    own: Record,
    version: Version,
    after: Option<&Name>,
    row: &mut ArrayVec<Record, MAX_GATHERED>,
)
    requires few { array_vec_len row.old ≤ MAX_CLAIMS }
    requires rises { Rises name_cmp (map name_of row.old.items) }
    ensures { row.new.items ≡ with_paged version (option_copied after.entry) own row.old.items }
{
    if is_in_page(version, after, &own) {
        // Taken apart, since the checker doesn't follow a whole record into a generic call.
        let Record {
            name,
            addr,
            status,
            incarnation,
        } = own;
        put_row(
            row,
            Record {
                name,
                addr,
                status,
                incarnation,
            },
        );
    }
}
