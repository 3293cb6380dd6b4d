//! Claims about members, and their records.
//!
//! Defined in: `specs/Meaning/Claim.antt`.
//! Tested in: `lg_parts_tests/src/rules.rt`.
ghost use Rattle.std.specs.Prelude.{◌≡◌};
ghost use Rattle.lg_rules.specs.Meaning.Claim.{accuser_of, is_gone, name_of};

use crate::addr::Addr;
use crate::incarnation::Incarnation;
use crate::name::Name;
use crate::rows::Keyed;

/// The most claims of a packet: 12, those of version 3 (this project's choice).
pub const MAX_CLAIMS: usize = 12;

/// The greatest `lambda`, which is how often a claim may be sent for each decimal digit of the number of live
/// members: 10 (this project's choice).
pub const MAX_LAMBDA: u64 = 10;

/// What is claimed of a member (SWIM, section 4.2). SWIM's Confirm is called Failed here.
#[derive(Clone, Copy, Debug, Default, PartialEq, Eq)]
pub enum Status {
    /// It is alive.
    #[default]
    Alive,
    /// It is suspected. The name is that of its accuser, whose probe it didn't ack.
    Suspect(Name),
    /// It was suspected until the suspicion ran out.
    Failed,
    /// It said of itself that it leaves (this project's choice).
    Left,
}

impl Status {
    /// Whether it is that of a member that is gone: Failed or Left.
    pub fn is_gone(&self) -> bool
        ensures { result ≡ is_gone self.now }
    {
        matches!(self, Status::Failed | Status::Left)
    }
}

/// What is said of a member: its status at an incarnation, and where it is reached. Claims are what members gossip.
#[derive(Clone, Copy, Debug, Default, PartialEq, Eq)]
pub struct Claim {
    /// The member.
    pub name: Name,
    /// Where it is reached.
    pub addr: Addr,
    /// Its status, with the accuser if it is Suspect.
    pub status: Status,
    /// Its incarnation.
    pub incarnation: Incarnation,
}

/// The record of a member: the claim about it that stands.
pub type Record = Claim;

impl Claim {
    /// The member.
    pub fn name(&self) -> Name
        ensures { result ≡ self.now.name }
    {
        self.name
    }

    /// Where it is reached.
    pub fn addr(&self) -> Addr
        ensures { result ≡ self.now.addr }
    {
        self.addr
    }

    /// Its status.
    pub fn status(&self) -> Status
        ensures { result ≡ self.now.status }
    {
        self.status
    }

    /// Its incarnation.
    pub fn incarnation(&self) -> Incarnation
        ensures { result ≡ self.now.incarnation }
    {
        self.incarnation
    }

    /// Who accuses it: some member exactly if its status is Suspect.
    pub fn accuser(&self) -> Option<Name>
        ensures { result ≡ accuser_of self.now.status }
    {
        match self.status {
            Status::Suspect(accuser) => Some(accuser),
            Status::Alive | Status::Failed | Status::Left => None,
        }
    }
}

/// Rows of claims are in the order of the names of the members that they are about.
impl Keyed for Claim {
    ghost key_of = { name_of };

    fn key(&self) -> Name {
        self.name
    }
}
