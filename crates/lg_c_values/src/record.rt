//! A record as C has it.
//!
//! Defined in: `specs/Meaning/Records.antt`.
ghost use Rattle.std.specs.Prelude.{◌≡◌};
ghost use Rattle.lg_c_values.specs.Meaning.Records.{c_accuser, c_record, no_c_record, c_status};

use crate::address::LgAddress;
use crate::name::LgName;
use lg_rules::{Record, Status};

/// A record as C has it.
#[repr(C)]
#[derive(Clone, Copy)]
pub struct LgRecord {
    /// The member.
    pub name: LgName,
    /// Who accuses it, if its status is 2; and else no name.
    pub accuser: LgName,
    /// Where it is reached.
    pub address: LgAddress,
    /// Its incarnation.
    pub incarnation: u32,
    /// Its status: 1 for alive, 2 for suspect, 3 for failed, 4 for left. It is 0 if there is no record.
    pub status: u8,
}

/// The number of a status.
fn status_number(status: &Status) -> u8
    ensures { result ≡ c_status status.now }
{
    match status {
        Status::Alive => 1,
        Status::Suspect(_) => 2,
        Status::Failed => 3,
        Status::Left => 4,
    }
}

/// The accuser that a status has.
fn accuser_of(status: &Status) -> LgName
    ensures { result ≡ c_accuser status.now }
{
    match status {
        Status::Suspect(accuser) => LgName::of(accuser),
        Status::Alive | Status::Failed | Status::Left => LgName::none(),
    }
}

impl LgRecord {
    /// A record for C.
    pub fn of(claim: &Record) -> LgRecord
        ensures { result ≡ c_record claim.now }
    {
        LgRecord {
            name: LgName::of(&claim.name),
            accuser: accuser_of(&claim.status),
            address: LgAddress::of(&claim.addr),
            incarnation: claim.incarnation.number(),
            status: status_number(&claim.status),
        }
    }

    /// No record, for C.
    pub fn none() -> LgRecord
        ensures { result ≡ no_c_record }
    {
        LgRecord {
            name: LgName::none(),
            accuser: LgName::none(),
            address: LgAddress::none(),
            incarnation: 0,
            status: 0,
        }
    }
}

/// The default tells nothing. It fills those places of a row of fixed capacity that hold nothing.
impl Default for LgRecord {
    ghost use Rattle.std.specs.Prelude.{◌≡◌};
    ghost use Rattle.lg_c_values.specs.Meaning.Records.{no_c_record};

    ghost is_default = { λ it. it ≡ no_c_record };

    fn default() -> Self {
        LgRecord::none()
    }
}
