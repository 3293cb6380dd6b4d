//! Groups: a packet of another group than this member's own is dropped (this project's choice).
//!
//! Defined in: `specs/Meaning/Groups.antt`, `specs/Meaning/Hear.antt`.
//! Tested in: `lg_news_tests/src/groups.rt`.
ghost use Rattle.std.specs.Prelude.{◌≡◌, ◌≤◌, length};
ghost use Rattle.lg_detector.specs.Meaning.Groups.{is_of_group, own_group, tells_group};
ghost use Rattle.lg_detector.specs.Meaning.Hear.{claims_heard};

use super::Detector;
use lg_packet::Packet;
use lg_rules::{Claim, MAX_CLAIMS, Name, Version};

/// Whether packets of a version can name a group.
fn tells_group(version: Version) -> bool
    ensures { result ≡ tells_group version }
{
    matches!(version, Version::Three)
}

/// Whether a packet is of a member's group. Those of a member that has none name none.
pub(super) fn is_of_group(group: &Option<Name>, packet: &Packet) -> bool
    ensures { result ≡ is_of_group group.now packet.now }
{
    match (group, &packet.group) {
        (None, other) => other.is_none(),
        (Some(group), Some(other)) => other.cmp(group).is_eq() && tells_group(packet.version),
        (Some(_), None) => false,
    }
}

/// The claims of a packet that are heard: none of one that isn't of the member's group.
pub(super) fn claims_heard<'a>(group: &Option<Name>, packet: &'a Packet) -> &'a [Claim]
    ensures claims { result.now ≡ claims_heard group.now packet.now }
    ensures few { length result.now ≤ MAX_CLAIMS }
{
    if is_of_group(group, packet) {
        packet.claims.as_slice()
    } else {
        &[]
    }
}

impl Detector {
    /// Writes the group that this member belongs to, if it has one.
    pub(super) fn put_group(&self, group: &mut Option<Name>)
        ensures { group.new ≡ own_group self.now.membership.config }
    {
        match self.parts.membership.config() {
            Some(config) => *group = config.group,
            None => *group = None,
        }
    }

    /// The group that this member belongs to, if it has one.
    pub(super) fn group(&self) -> Option<Name>
        ensures { result ≡ own_group self.now.membership.config }
    {
        match self.parts.membership.config() {
            Some(config) => config.group,
            None => None,
        }
    }
}
