//! A gentle merge of tables (this project's choice). Each side of a network that was cut in two tells in its tables
//! that the members of the other side failed. So a member with version 3 doesn't take that from a table of a member
//! that isn't gone here: such a claim only accuses, and whoever is accused has the time of a suspicion to refute it.
//! What a table says of its own sender, that a member left, and what it says of names that aren't known or are gone is
//! applied as it is.
//!
//! Defined in: `specs/Meaning/Apply.antt`, `specs/Meaning/Hear.antt`, `specs/Support/State.antt`.
//! Tested in: `lg_news_tests/src/merging.rt`.
ghost use Rattle.std.specs.Prelude.{◌≡◌, Some};
ghost use Rattle.lg_rules.specs.Meaning.Claim.{name_of};
ghost use Rattle.lg_rules.specs.Meaning.Rows.{name_cmp, row_at};
ghost use Rattle.lg_membership.specs.Meaning.Gossip.{version_sent};
ghost use Rattle.lg_detector.specs.Meaning.Apply.{is_live_record, only_accuses};
ghost use Rattle.lg_detector.specs.Meaning.Hear.{page_sender, table_teller};
ghost use Rattle.lg_detector.specs.Support.State.{as_merged_state};
ghost use Rattle.lg_detector.specs.Support.Step.{view_state};

use super::Detector;
use lg_packet::{Body, Packet};
use lg_rules::{Claim, Name, Status, Version};

/// The sender of a packet, if that is a Page.
fn page_sender(packet: &Packet) -> Option<Name>
    ensures { result ≡ page_sender packet.now.body packet.now.sender }
{
    match packet.body {
        Body::Page => Some(packet.sender),
        _ => None,
    }
}

impl Detector {
    /// Who tells a table by a packet, if this member merges tables gently.
    pub(super) fn table_teller(&self, packet: &Packet) -> Option<Name>
        ensures { result ≡ table_teller (version_sent self.now.membership.config) packet.now }
    {
        match self.version() {
            Version::One | Version::Two => None,
            Version::Three => page_sender(packet),
        }
    }

    /// A claim as it is applied, if `teller` tells it in a table.
    pub(super) fn as_merged(&self, teller: &Option<Name>, claim: &Claim) -> Claim
        ensures { result ≡ as_merged_state teller.now claim.now self.now }
    {
        match teller {
            Some(teller) => self.accused_by(teller, claim),
            None => *claim,
        }
    }

    /// A claim of a table that `teller` tells, as it is applied.
    fn accused_by(&self, teller: &Name, claim: &Claim) -> Claim
        ensures { result ≡ as_merged_state (Some teller.now) claim.now self.now }
    {
        if self.only_accuses(teller, claim) {
            Claim {
                status: Status::Suspect(*teller),
                ..*claim
            }
        } else {
            *claim
        }
    }

    /// Whether a claim of a table only accuses its member.
    fn only_accuses(&self, teller: &Name, claim: &Claim) -> bool
        ensures { result ≡ only_accuses self.now.membership.own.name (view_state self.now) teller.now claim.now }
    {
        matches!(claim.status, Status::Failed)
            && !(self.is_own(&claim.name) || claim.name.cmp(teller).is_eq())
            && self.is_live(&claim.name)
    }

    /// Whether a name is that of a member that isn't gone.
    fn is_live(&self, name: &Name) -> bool
        ensures { result ≡ is_live_record (row_at name_cmp name_of name.now (view_state self.now)) }
    {
        match self.record_of(name) {
            Some(current) => !current.status.is_gone(),
            None => false,
        }
    }
}
