//! Claims as plain data, so that a table of rows is a constant.
use crate::claims::{claim, local, name, numbered};
use arrayvec::ArrayVec;
use lg_rules::{Addr, Claim, MAX_CLAIMS, Name, Status};

/// A member, by its name.
pub type Member = &'static str;

/// A claim or a record. It is at port 7000 if no port is given.
#[derive(Clone, Copy)]
pub enum Said {
    /// A member is alive, at an incarnation.
    Alive(Member, u32),
    /// A member is suspected, at an incarnation, by another.
    Suspect(Member, u32, Member),
    /// A member has failed, at an incarnation.
    Failed(Member, u32),
    /// A member leaves, at an incarnation.
    Left(Member, u32),
    /// A member is alive at incarnation 0, at a port.
    AliveAt(Member, u16),
    /// A member is alive, at an incarnation and a port.
    AliveAs(Member, u32, u16),
    /// A member is suspected, at an incarnation, by another, at a port.
    SuspectAt(Member, u32, Member, u16),
    /// A member has failed, at an incarnation and a port.
    FailedAt(Member, u32, u16),
    /// A member leaves, at an incarnation and a port.
    LeftAt(Member, u32, u16),
    /// The member whose name is `m` and three decimal digits is alive at incarnation 0.
    Numbered(u32),
    /// A member is suspected at incarnation 0, by the member whose name is `m` and three decimal digits.
    Accused(Member, u32),
    /// A member is alive at incarnation 0, at port 7 of ::1.
    AliveFar(Member),
    /// A member is suspected at incarnation 0, by another, at port 7 of ::1.
    SuspectFar(Member, Member),
}

/// The bytes of ::1.
const LOOPBACK: [u8; 16] = [0, 0, 0, 0, 0, 0, 0, 0, 0, 0, 0, 0, 0, 0, 0, 1];

/// Port 7 of ::1, an address of sixteen bytes.
pub fn far() -> Addr {
    Addr::v6(LOOPBACK, 7)
}

/// The name of a member.
pub fn named(member: Member) -> Name {
    name(member.as_bytes())
}

/// The names of at most twelve members.
pub fn names_of(members: &[Member]) -> ArrayVec<Name, MAX_CLAIMS> {
    let mut names = ArrayVec::new();
    for member in members {
        let name = named(member);
        if !names.is_full() {
            names.push(name);
        }
    }
    names
}

/// A claim at port 7000.
fn at_home(member: Member, status: Status, number: u32) -> Claim {
    claim(named(member), status, number)
}

/// The claim at another port.
pub fn moved(claim: Claim, port: u16) -> Claim {
    Claim {
        addr: local(port),
        ..claim
    }
}

/// The claim at port 7 of ::1.
fn moved_far(claim: Claim) -> Claim {
    Claim {
        addr: far(),
        ..claim
    }
}

/// The claim that a member is suspected by another.
fn suspected(member: Member, number: u32, accuser: Name) -> Claim {
    at_home(member, Status::Suspect(accuser), number)
}

/// The claim that is said.
pub fn claim_of(said: &Said) -> Claim {
    match *said {
        Said::Alive(member, number) => at_home(member, Status::Alive, number),
        Said::Suspect(member, number, accuser) => suspected(member, number, named(accuser)),
        Said::Failed(member, number) => at_home(member, Status::Failed, number),
        Said::Left(member, number) => at_home(member, Status::Left, number),
        Said::AliveAt(member, port) => moved(at_home(member, Status::Alive, 0), port),
        Said::AliveAs(member, number, port) => moved(at_home(member, Status::Alive, number), port),
        Said::SuspectAt(member, number, accuser, port) => {
            moved(suspected(member, number, named(accuser)), port)
        }
        Said::FailedAt(member, number, port) => moved(
            at_home(member, Status::Failed, number),
            port,
        ),
        Said::LeftAt(member, number, port) => moved(at_home(member, Status::Left, number), port),
        Said::Numbered(number) => claim(numbered(number), Status::Alive, 0),
        Said::Accused(member, accuser) => suspected(member, 0, numbered(accuser)),
        Said::AliveFar(member) => moved_far(at_home(member, Status::Alive, 0)),
        Said::SuspectFar(member, accuser) => moved_far(suspected(member, 0, named(accuser))),
    }
}

/// The first twelve of some claims.
pub fn claims_of(said: &[Said]) -> ArrayVec<Claim, MAX_CLAIMS> {
    let mut list = ArrayVec::new();
    for one in said {
        // Built anew from its parts, since the checker doesn't follow a whole claim into a generic call.
        let Claim {
            name,
            addr,
            status,
            incarnation,
        } = claim_of(one);
        if !list.is_full() {
            list.push(Claim {
                name,
                addr,
                status,
                incarnation,
            });
        }
    }
    list
}

/// Whether these are the claims that are said, in this order.
pub fn are_said(claims: &[Claim], said: &[Said]) -> bool {
    claims.len() == said.len()
        && claims
            .iter()
            .zip(said.iter())
            .all(|(claim, one)| *claim == claim_of(one))
}

/// Whether a claim is the one that is said, or there is none and none is said.
pub fn is_said(claim: Option<Claim>, said: &Option<Said>) -> bool {
    match said {
        Some(one) => claim == Some(claim_of(one)),
        None => claim == None,
    }
}
