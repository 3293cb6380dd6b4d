//! The versions of the format of packets, and what each of them can tell.
//!
//! Defined in: `specs/Meaning/Version.antt`.
//! Tested in: `lg_parts_tests/src/rules.rt`.
ghost use Rattle.std.specs.Prelude.{◌≡◌, ◌≤◌};
ghost use Rattle.lg_rules.specs.Meaning.Version.{most_claims_of, tells};

use crate::addr::{Addr, Ip};
use crate::claim::MAX_CLAIMS;

/// The version of the format in which a packet is spelled (this project's choice). Versions 1 and 2 differ in the
/// version byte alone. Version 3 also tells a group, receivers of Acks and Nacks, IPv6 addresses and who left.
#[derive(Clone, Copy, Debug, Default, PartialEq, Eq)]
pub enum Version {
    /// Version 1, whose byte is `01`.
    #[default]
    One = 1,
    /// Version 2, whose byte is `02`.
    Two = 2,
    /// Version 3, whose byte is `03`.
    Three = 3,
}

impl Version {
    /// The most claims of a packet: 6 in versions 1 and 2, and 12 in version 3.
    pub fn most_claims(self) -> usize
        ensures count { result ≡ most_claims_of self }
        ensures least { 6 ≤ result }
        ensures most { result ≤ MAX_CLAIMS }
    {
        match self {
            Version::One | Version::Two => 6,
            Version::Three => 12,
        }
    }

    /// Whether it can tell an address: version 3 tells each, and the others those of IPv4.
    pub fn tells(self, addr: &Addr) -> bool
        ensures { result ≡ tells self addr.now }
    {
        match (self, addr.ip) {
            (Version::Three, _) | (_, Ip::V4(_)) => true,
            (Version::One | Version::Two, Ip::V6(_)) => false,
        }
    }
}
