//! Reads the fields of a packet, from the first byte on.
//!
//! Defined in: `specs/Meaning/Reading.antt`.
//! Tested in: `lg_parts_tests/src/packet.rt`.
ghost use Rattle.std.specs.Prelude.{◌≡◌, ◌≤◌, [], length, IfOk};
ghost use Rattle.std.specs.Prelude.{OnErr, Ok, Err, if◌then◌else◌};
ghost use Rattle.std.specs.Int.{w16, w32};
ghost use Rattle.std.specs.List.{list_all};
ghost use Rattle.lg_rules.specs.Meaning.Name.{is_name_byte};
ghost use Rattle.lg_packet.specs.Meaning.Reading.{addr_at, body_at, claim_at, claim_kind_at, claims_at, count_at};
ghost use Rattle.lg_packet.specs.Meaning.Reading.{group_at, head_at, incarnation_at, ip_at, ipv4_at, ipv6_at, kind_at};
ghost use Rattle.lg_packet.specs.Meaning.Reading.{magic_at, name_at, name_bytes_at, name_or_none_at, number_at};
ghost use Rattle.lg_packet.specs.Meaning.Reading.{of_family_at, packet_at, packet_of, receiver_at, some_name_at};
ghost use Rattle.lg_packet.specs.Meaning.Reading.{status_at, version_at};
ghost use Rattle.lg_packet.specs.Support.Gives.{Gives};

use crate::fault::Fault;
use crate::kind::{
    ClaimKind, FIRST_MAGIC, Kind, SECOND_MAGIC, claim_kind_of_byte, kind_of_byte, version_of_byte,
};
use crate::packet::{Body, Packet};
use lg_rules::{
    Addr, Claim, Incarnation, Ip, MAX_CLAIMS, MAX_NAME, Name, Status, Version, is_name_byte,
};

/// Whether each byte may stand in a name.
fn are_name_bytes(text: &[u8]) -> bool
    ensures { result ≡ list_all is_name_byte text.now }
{
    text.iter().all(|byte| is_name_byte(*byte))
}

/// The fault of a name whose end is missing: [`Fault::Name`] if one of the bytes that are there may not stand in a
/// name, or else [`Fault::Short`].
fn cut_name_fault(text: &[u8]) -> Fault
    ensures { result ≡ (if list_all is_name_byte text.now then Fault.Short else Fault.Name) }
{
    if are_name_bytes(text) {
        Fault::Short
    } else {
        Fault::Name
    }
}

/// The bytes that are still to be read.
#[derive(Drop)]
pub(crate) struct Reader<'a> {
    /// Behind an error they are of no use: some may have been read.
    pub(crate) rest: &'a [u8],
}

impl Reader<'_> {
    /// Reads a byte of the magic, which has to be `due`.
    fn magic(&mut self, due: u8) -> Result<(), Fault>
        ensures { Gives (λ _. self.new.rest.now) result (magic_at due self.old.rest.now) }
    {
        match self.rest {
            [] => Err(Fault::Short),
            [byte, rest @ ..] if *byte == due => {
                self.rest = rest;
                Ok(())
            }
            [_, ..] => Err(Fault::Magic),
        }
    }

    fn version(&mut self) -> Result<Version, Fault>
        ensures { Gives (λ x. (x, self.new.rest.now)) result (version_at self.old.rest.now) }
    {
        let [byte, rest @ ..] = self.rest else {
            return Err(Fault::Short);
        };
        self.rest = rest;
        version_of_byte(*byte).ok_or(Fault::Version)
    }

    fn kind(&mut self, version: Version) -> Result<Kind, Fault>
        ensures { Gives (λ x. (x, self.new.rest.now)) result (kind_at version self.old.rest.now) }
    {
        let [byte, rest @ ..] = self.rest else {
            return Err(Fault::Short);
        };
        self.rest = rest;
        kind_of_byte(version, *byte).ok_or(Fault::Kind)
    }

    #[tactic(auto, unfolding(crate::specs::Meaning::Reading::name_at))]
    fn name(&mut self) -> Result<Name, Fault>
        ensures { Gives (λ x. (x, self.new.rest.now)) result (name_at self.old.rest.now) }
    {
        let [len, rest @ ..] = self.rest else {
            return Err(Fault::Short);
        };
        let len = usize::from(*len);
        if len == 0 || len > MAX_NAME {
            return Err(Fault::Name);
        }
        self.rest = rest;
        self.name_bytes(len)
    }

    /// Reads `len` bytes of a name.
    fn name_bytes(&mut self, len: usize) -> Result<Name, Fault>
        requires some { 1 ≤ len }
        requires few { len ≤ MAX_NAME }
        ensures { Gives (λ x. (x, self.new.rest.now)) result (name_bytes_at len self.old.rest.now) }
    {
        if self.rest.len() < len {
            return Err(cut_name_fault(self.rest));
        }
        let (text, rest) = self.rest.split_at(len);
        self.rest = rest;
        Name::new(text).ok().ok_or(Fault::Name)
    }

    fn number(&mut self) -> Result<u32, Fault>
        ensures { Gives (λ x. (x, self.new.rest.now)) result (number_at w32 self.old.rest.now) }
    {
        let [a, b, c, d, rest @ ..] = self.rest else {
            return Err(Fault::Short);
        };
        self.rest = rest;
        Ok(u32::from_be_bytes([*a, *b, *c, *d]))
    }

    /// Reads the four bytes of an IPv4 address.
    fn ipv4(&mut self) -> Result<Ip, Fault>
        ensures { Gives (λ x. (x, self.new.rest.now)) result (ipv4_at self.old.rest.now) }
    {
        let [a, b, c, d, rest @ ..] = self.rest else {
            return Err(Fault::Short);
        };
        self.rest = rest;
        Ok(Ip::V4([*a, *b, *c, *d]))
    }

    /// Reads the sixteen bytes of an IPv6 address.
    fn ipv6(&mut self) -> Result<Ip, Fault>
        ensures { Gives (λ x. (x, self.new.rest.now)) result (ipv6_at self.old.rest.now) }
    {
        let [a, b, c, d, e, f, g, h, i, j, k, l, m, n, o, p, rest @ ..] = self.rest else {
            return Err(Fault::Short);
        };
        self.rest = rest;
        Ok(Ip::V6([
            *a, *b, *c, *d, *e, *f, *g, *h, *i, *j, *k, *l, *m, *n, *o, *p,
        ]))
    }

    /// Reads a byte for the family of an IP address, and then the address.
    fn of_family(&mut self) -> Result<Ip, Fault>
        ensures { Gives (λ x. (x, self.new.rest.now)) result (of_family_at self.old.rest.now) }
    {
        let [family, rest @ ..] = self.rest else {
            return Err(Fault::Short);
        };
        self.rest = rest;
        match *family {
            4 => self.ipv4(),
            6 => self.ipv6(),
            _ => Err(Fault::Family),
        }
    }

    fn ip(&mut self, version: Version) -> Result<Ip, Fault>
        ensures { Gives (λ x. (x, self.new.rest.now)) result (ip_at version self.old.rest.now) }
    {
        match version {
            Version::One | Version::Two => self.ipv4(),
            Version::Three => self.of_family(),
        }
    }

    fn port(&mut self) -> Result<u16, Fault>
        ensures { Gives (λ x. (x, self.new.rest.now)) result (number_at w16 self.old.rest.now) }
    {
        let [a, b, rest @ ..] = self.rest else {
            return Err(Fault::Short);
        };
        self.rest = rest;
        Ok(u16::from_be_bytes([*a, *b]))
    }

    #[tactic(auto, unfolding(crate::specs::Meaning::Reading::addr_at))]
    fn addr(&mut self, version: Version) -> Result<Addr, Fault>
        ensures { Gives (λ x. (x, self.new.rest.now)) result (addr_at version self.old.rest.now) }
    {
        let ip = self.ip(version)?;
        let port = self.port()?;
        Ok(Addr { ip, port })
    }

    /// Reads a name that has to be there.
    #[tactic(auto, unfolding(crate::specs::Meaning::Reading::some_name_at))]
    fn some_name(&mut self) -> Result<Option<Name>, Fault>
        ensures { Gives (λ x. (x, self.new.rest.now)) result (some_name_at self.old.rest.now) }
    {
        let name = self.name()?;
        Ok(Some(name))
    }

    /// Reads a name, or `None` if its length is 0.
    #[tactic(auto, unfolding(crate::specs::Meaning::Reading::name_or_none_at))]
    fn name_or_none(&mut self) -> Result<Option<Name>, Fault>
        ensures { Gives (λ x. (x, self.new.rest.now)) result (name_or_none_at self.old.rest.now) }
    {
        let [len, rest @ ..] = self.rest else {
            return Err(Fault::Short);
        };
        if *len == 0 {
            self.rest = rest;
            return Ok(None);
        }
        self.some_name()
    }

    /// Reads the group, which only version 3 tells.
    fn group(&mut self, version: Version) -> Result<Option<Name>, Fault>
        ensures { Gives (λ x. (x, self.new.rest.now)) result (group_at version self.old.rest.now) }
    {
        match version {
            Version::One | Version::Two => Ok(None),
            Version::Three => self.name_or_none(),
        }
    }

    /// Reads the receiver of an Ack or a Nack, which only version 3 tells.
    fn receiver(&mut self, version: Version) -> Result<Option<Name>, Fault>
        ensures { Gives (λ x. (x, self.new.rest.now)) result (receiver_at version self.old.rest.now) }
    {
        match version {
            Version::One | Version::Two => Ok(None),
            Version::Three => self.some_name(),
        }
    }

    /// Reads the magic, the version and the kind.
    #[tactic(auto, unfolding(crate::specs::Meaning::Reading::head_at))]
    fn head(&mut self) -> Result<(Version, Kind), Fault>
        ensures { Gives (λ x. (x, self.new.rest.now)) result (head_at self.old.rest.now) }
    {
        self.magic(FIRST_MAGIC)?;
        self.magic(SECOND_MAGIC)?;
        let version = self.version()?;
        let kind = self.kind(version)?;
        Ok((version, kind))
    }

    #[tactic(auto, unfolding(crate::specs::Meaning::Reading::body_at))]
    fn body(&mut self, version: Version, kind: Kind) -> Result<Body, Fault>
        ensures { Gives (λ x. (x, self.new.rest.now)) result (body_at version kind self.old.rest.now) }
    {
        match kind {
            Kind::Ping => Ok(Body::Ping {
                number: self.number()?,
                target: self.name()?,
            }),
            Kind::PingReq => Ok(Body::PingReq {
                number: self.number()?,
                target: self.name()?,
                addr: self.addr(version)?,
            }),
            Kind::Ack => Ok(Body::Ack {
                number: self.number()?,
                receiver: self.receiver(version)?,
            }),
            Kind::Nack => Ok(Body::Nack {
                number: self.number()?,
                receiver: self.receiver(version)?,
            }),
            Kind::Pull => Ok(Body::Pull {
                after: self.name_or_none()?,
            }),
            Kind::Page => Ok(Body::Page),
            Kind::Gossip => Ok(Body::Gossip),
        }
    }

    /// Reads an incarnation. It is judged once its four bytes are there.
    #[tactic(auto, unfolding(crate::specs::Meaning::Reading::incarnation_at))]
    fn incarnation(&mut self) -> Result<Incarnation, Fault>
        ensures { Gives (λ x. (x, self.new.rest.now)) result (incarnation_at self.old.rest.now) }
    {
        let number = self.number()?;
        Incarnation::new(number).ok_or(Fault::Incarnation)
    }

    fn claim_kind(&mut self, version: Version) -> Result<ClaimKind, Fault>
        ensures { Gives (λ x. (x, self.new.rest.now)) result (claim_kind_at version self.old.rest.now) }
    {
        let [byte, rest @ ..] = self.rest else {
            return Err(Fault::Short);
        };
        self.rest = rest;
        claim_kind_of_byte(version, *byte).ok_or(Fault::ClaimKind)
    }

    /// The status of a claim of this kind. Reads the accuser if the kind has one.
    #[tactic(auto, unfolding(crate::specs::Meaning::Reading::status_at))]
    fn status(&mut self, kind: ClaimKind) -> Result<Status, Fault>
        ensures { Gives (λ x. (x, self.new.rest.now)) result (status_at kind self.old.rest.now) }
    {
        match kind {
            ClaimKind::Alive => Ok(Status::Alive),
            ClaimKind::Suspect => Ok(Status::Suspect(self.name()?)),
            ClaimKind::Failed => Ok(Status::Failed),
            ClaimKind::Left => Ok(Status::Left),
        }
    }

    #[tactic(auto, unfolding(crate::specs::Meaning::Reading::claim_at))]
    fn claim(&mut self, version: Version) -> Result<Claim, Fault>
        ensures { Gives (λ x. (x, self.new.rest.now)) result (claim_at version self.old.rest.now) }
    {
        let kind = self.claim_kind(version)?;
        let name = self.name()?;
        let addr = self.addr(version)?;
        let incarnation = self.incarnation()?;
        let status = self.status(kind)?;
        Ok(Claim {
            name,
            addr,
            status,
            incarnation,
        })
    }

    /// Reads the count of claims.
    fn count(&mut self, version: Version) -> Result<usize, Fault>
        ensures value { Gives (λ x. (x, self.new.rest.now)) result (count_at version self.old.rest.now) }
        ensures few { IfOk result (λ x. x ≤ MAX_CLAIMS) }
    {
        let [count, rest @ ..] = self.rest else {
            return Err(Fault::Short);
        };
        let count = usize::from(*count);
        if count > version.most_claims() {
            return Err(Fault::Count);
        }
        self.rest = rest;
        Ok(count)
    }

    /// Reads `count` claims into a packet that has none.
    fn claims(&mut self, version: Version, count: usize, packet: &mut Packet) -> Result<(), Fault>
        requires few { count ≤ MAX_CLAIMS }
        requires none { packet.old.claims.items ≡ [] }
        ensures read { let left = self.new.rest.now in
            Gives (λ _. (packet.new.claims.items, left)) result (claims_at version count self.old.rest.now) }
        ensures front { packet.new ≡ record packet.old { claims = packet.new.claims } }
    {
        for _ in 0..count {
            // Built anew from its parts, since the checker doesn't follow a whole claim into the row.
            let Claim {
                name,
                addr,
                status,
                incarnation,
            } = self.claim(version)?;
            packet.claims.push(Claim {
                name,
                addr,
                status,
                incarnation,
            });
        }
        Ok(())
    }

    /// Reads a packet that takes up all of the bytes, into one that has no claims. On an error, that one keeps its
    /// version, its group, its sender and its body.
    #[tactic(auto, unfolding(crate::specs::Meaning::Reading::packet_of, crate::specs::Meaning::Reading::packet_at))]
    pub(crate) fn packet(&mut self, packet: &mut Packet) -> Result<(), Fault>
        requires { packet.old.claims.items ≡ [] }
        ensures read { Gives (λ _. packet.new) result (packet_of self.old.rest.now) }
        ensures left { OnErr result (packet.new ≡ record packet.old { claims = packet.new.claims }) }
    {
        let (version, kind) = self.head()?;
        let group = self.group(version)?;
        let sender = self.name()?;
        let body = self.body(version, kind)?;
        let count = self.count(version)?;
        self.claims(version, count, packet)?;
        // Not `is_empty`: the checker knows the `Option` in a body only if the function names one.
        if self.rest.first().is_some() {
            return Err(Fault::Trailing);
        }
        packet.version = version;
        packet.group = group;
        packet.sender = sender;
        packet.body = body;
        Ok(())
    }
}
