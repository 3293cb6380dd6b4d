//! Writing packets.
//!
//! Defined in: `specs/Meaning/Spelling.antt`, `specs/Meaning/Reading.antt`.
//! Tested in: `lg_parts_tests/src/packet.rt`.
ghost use Rattle.std.specs.Prelude.{◌≡◌, ◌+◌, ◌*◌, ◌<◌, ◌≤◌, ◌++◌, IsTrue, Ok, length, take};
ghost use Rattle.std.specs.Int.{to_be_bytes};
ghost use Rattle.std.specs.List.{AllByRecursion};
ghost use Rattle.arrayvec.specs.ArrayVec.{array_vec_len};
ghost use Rattle.lg_rules.specs.Meaning.Name.{is_name};
ghost use Rattle.lg_rules.specs.Meaning.Version.{most_claims_of};
ghost use Rattle.lg_packet.specs.Meaning.Bytes.{IsByte};
ghost use Rattle.lg_packet.specs.Meaning.Spelling.{AreOctets, IsAddr, IsBody, IsClaim, IsGroup, IsIp, IsNameIfAny};
ghost use Rattle.lg_packet.specs.Meaning.Spelling.{IsReceiver, IsStatus, Spells, of_family, spellable, spellable_addr};
ghost use Rattle.lg_packet.specs.Meaning.Spelling.{spellable_body, spellable_claim, spellable_group, spellable_ip};
ghost use Rattle.lg_packet.specs.Meaning.Spelling.{spellable_receiver, spellable_status, spelled_accuser, spelled_addr};
ghost use Rattle.lg_packet.specs.Meaning.Spelling.{spelled_body, spelled_claim, spelled_claims, spelled_group};
ghost use Rattle.lg_packet.specs.Meaning.Spelling.{spelled_head, spelled_ip, spelled_name, spelled_or_none};
ghost use Rattle.lg_packet.specs.Meaning.Spelling.{four_of, spelled_receiver, spelling};
ghost use Rattle.lg_packet.specs.Meaning.Reading.{packet_of};

use crate::kind::{FIRST_MAGIC, Kind, SECOND_MAGIC, claim_kind_of, kind_of};
use crate::packet::{Body, Packet};
use arrayvec::ArrayVec;
use lg_rules::{Addr, Claim, Ip, MAX_CLAIMS, MAX_NAME, Name, Status, Version};

/// The bytes of the head: the magic, the version and the kind.
const HEAD_ROOM: usize = 4;

/// The bytes of a number or an incarnation.
const NUMBER_ROOM: usize = 4;

/// The most bytes of a name with its length: 33.
const NAME_ROOM: usize = 1 + MAX_NAME;

/// The most bytes of an IP address: 17, a byte for its family and sixteen of its own.
const IP_ROOM: usize = 1 + 16;

/// The most bytes of an address with its port: 19.
const ADDR_ROOM: usize = IP_ROOM + 2;

/// The most bytes of a body: 56, those of a PingReq, which has a number, a name and an address.
const BODY_ROOM: usize = NUMBER_ROOM + NAME_ROOM + ADDR_ROOM;

/// The most bytes of a claim: 90, for its kind, name, address, incarnation and accuser.
const CLAIM_ROOM: usize = 1 + NAME_ROOM + ADDR_ROOM + NUMBER_ROOM + NAME_ROOM;

/// The most bytes of the claims with their count: 1,081, which are 1 and 12 times 90.
const CLAIMS_ROOM: usize = 1 + MAX_CLAIMS * CLAIM_ROOM;

/// The most bytes of a packet: 1,207 (this project's choice). These are 4 of the head, 33 of the group's name, 33 of
/// the sender's name, 56 of the body, and 1,081 of the claims with their count.
pub const MAX_PACKET: usize = HEAD_ROOM + NAME_ROOM + NAME_ROOM + BODY_ROOM + CLAIMS_ROOM;

/// Bytes that are being written.
type Row = ArrayVec<u8, MAX_PACKET>;

fn put(out: &mut Row, bytes: &[u8])
    requires { array_vec_len out.old + length bytes.now ≤ MAX_PACKET }
    ensures { out.new.items ≡ out.old.items ++ bytes.now }
{
    let written = out.try_extend_from_slice(bytes);
    prove!(written.is_ok());
}

/// Writes the magic, the version and the kind.
fn put_head(out: &mut Row, version: Version, kind: Kind)
    requires { array_vec_len out.old + HEAD_ROOM ≤ MAX_PACKET }
    ensures items { out.new.items ≡ out.old.items ++ spelled_head version kind }
    ensures len { array_vec_len out.new ≡ array_vec_len out.old + HEAD_ROOM }
{
    put(out, &[FIRST_MAGIC, SECOND_MAGIC, version as u8, kind as u8]);
}

fn put_name(out: &mut Row, name: &Name)
    requires { array_vec_len out.old + NAME_ROOM ≤ MAX_PACKET }
    ensures items { out.new.items ≡ out.old.items ++ spelled_name name.now }
    ensures len { array_vec_len out.new ≤ array_vec_len out.old + NAME_ROOM }
    ensures name { IsTrue (is_name name.now) }
{
    let text = name.as_bytes();
    out.push(text.len() as u8);
    put(out, text);
}

/// Writes a name, or a length of 0 if there is none.
fn put_or_none(out: &mut Row, name: &Option<Name>)
    requires { array_vec_len out.old + NAME_ROOM ≤ MAX_PACKET }
    ensures items { out.new.items ≡ out.old.items ++ spelled_or_none name.now }
    ensures len { array_vec_len out.new ≤ array_vec_len out.old + NAME_ROOM }
    ensures name { IsNameIfAny name.now }
{
    match name {
        Some(name) => put_name(out, name),
        None => put(out, &[0]),
    }
}

/// Writes the group, which only version 3 tells.
fn put_group(out: &mut Row, version: Version, group: &Option<Name>)
    requires { array_vec_len out.old + NAME_ROOM ≤ MAX_PACKET }
    ensures items { out.new.items ≡ out.old.items ++ spelled_group version group.now }
    ensures len { array_vec_len out.new ≤ array_vec_len out.old + NAME_ROOM }
    ensures group { IsGroup version (spellable_group version group.now) }
{
    match version {
        Version::One | Version::Two => {}
        Version::Three => put_or_none(out, group),
    }
}

/// Writes the bytes of an IP address.
fn put_octets(out: &mut Row, octets: &[u8])
    requires { array_vec_len out.old + length octets.now ≤ MAX_PACKET }
    ensures items { out.new.items ≡ out.old.items ++ octets.now }
    ensures bytes { AllByRecursion IsByte octets.now }
{
    put(out, octets);
}

/// Writes the four bytes of an IPv4 address.
fn put_ipv4(out: &mut Row, octets: [u8; 4])
    requires { array_vec_len out.old + 4 ≤ MAX_PACKET }
    ensures items { out.new.items ≡ out.old.items ++ octets }
    ensures len { array_vec_len out.new ≡ array_vec_len out.old + 4 }
    ensures octets { AreOctets 4 octets }
{
    put_octets(out, &octets);
}

/// Writes the sixteen bytes of an IPv6 address.
fn put_ipv6(out: &mut Row, octets: [u8; 16])
    requires { array_vec_len out.old + 16 ≤ MAX_PACKET }
    ensures items { out.new.items ≡ out.old.items ++ octets }
    ensures len { array_vec_len out.new ≡ array_vec_len out.old + 16 }
    ensures octets { AreOctets 16 octets }
{
    put_octets(out, &octets);
}

/// Writes four bytes of an IP address, or 0.0.0.0 if it is one of sixteen.
fn put_four_of(out: &mut Row, ip: Ip)
    requires { array_vec_len out.old + IP_ROOM ≤ MAX_PACKET }
    ensures items { out.new.items ≡ out.old.items ++ four_of ip }
    ensures len { array_vec_len out.new ≤ array_vec_len out.old + IP_ROOM }
    ensures octets { AreOctets 4 (four_of ip) }
{
    match ip {
        Ip::V4(octets) => put_ipv4(out, octets),
        Ip::V6(_) => put_ipv4(out, [0; 4]),
    }
}

/// Writes a byte for the family of an IP address, and then its bytes.
fn put_of_family(out: &mut Row, ip: Ip)
    requires { array_vec_len out.old + IP_ROOM ≤ MAX_PACKET }
    ensures items { out.new.items ≡ out.old.items ++ of_family ip }
    ensures len { array_vec_len out.new ≤ array_vec_len out.old + IP_ROOM }
    ensures ip { IsIp Version.Three ip }
{
    match ip {
        Ip::V4(octets) => {
            out.push(4);
            put_ipv4(out, octets);
        }
        Ip::V6(octets) => {
            out.push(6);
            put_ipv6(out, octets);
        }
    }
}

fn put_ip(out: &mut Row, version: Version, ip: Ip)
    requires { array_vec_len out.old + IP_ROOM ≤ MAX_PACKET }
    ensures items { out.new.items ≡ out.old.items ++ spelled_ip version ip }
    ensures len { array_vec_len out.new ≤ array_vec_len out.old + IP_ROOM }
    ensures ip { IsIp version (spellable_ip version ip) }
{
    match version {
        Version::One | Version::Two => put_four_of(out, ip),
        Version::Three => put_of_family(out, ip),
    }
}

fn put_addr(out: &mut Row, version: Version, addr: &Addr)
    requires { array_vec_len out.old + ADDR_ROOM ≤ MAX_PACKET }
    ensures items { out.new.items ≡ out.old.items ++ spelled_addr version addr.now }
    ensures len { array_vec_len out.new ≤ array_vec_len out.old + ADDR_ROOM }
    ensures addr { IsAddr version (spellable_addr version addr.now) }
{
    put_ip(out, version, addr.ip);
    put(out, &addr.port.to_be_bytes());
}

/// Writes the receiver of an Ack or a Nack, which only version 3 tells. If there is none, it tells the sender.
fn put_receiver(out: &mut Row, version: Version, sender: &Name, receiver: &Option<Name>)
    requires { array_vec_len out.old + NAME_ROOM ≤ MAX_PACKET }
    ensures items { out.new.items ≡ out.old.items ++ spelled_receiver version sender.now receiver.now }
    ensures len { array_vec_len out.new ≤ array_vec_len out.old + NAME_ROOM }
    ensures receiver { IsReceiver version (spellable_receiver version sender.now receiver.now) }
{
    match version {
        Version::One | Version::Two => {}
        Version::Three => match receiver {
            Some(name) => put_name(out, name),
            None => put_name(out, sender),
        },
    }
}

/// Writes the body of a packet of this sender.
fn put_body(out: &mut Row, version: Version, sender: &Name, body: &Body)
    requires { array_vec_len out.old + BODY_ROOM ≤ MAX_PACKET }
    ensures items { out.new.items ≡ out.old.items ++ spelled_body version sender.now body.now }
    ensures len { array_vec_len out.new ≤ array_vec_len out.old + BODY_ROOM }
    ensures body { IsBody version (spellable_body version sender.now body.now) }
{
    match body {
        Body::Ping { number, target } => {
            put(out, &number.to_be_bytes());
            put_name(out, target);
        }
        Body::PingReq {
            number,
            target,
            addr,
        } => {
            put(out, &number.to_be_bytes());
            put_name(out, target);
            put_addr(out, version, addr);
        }
        Body::Ack { number, receiver } | Body::Nack { number, receiver } => {
            put(out, &number.to_be_bytes());
            put_receiver(out, version, sender, receiver);
        }
        Body::Pull { after } => put_or_none(out, after),
        Body::Page | Body::Gossip => {}
    }
}

fn put_accuser(out: &mut Row, version: Version, status: &Status)
    requires { array_vec_len out.old + NAME_ROOM ≤ MAX_PACKET }
    ensures items { out.new.items ≡ out.old.items ++ spelled_accuser status.now }
    ensures len { array_vec_len out.new ≤ array_vec_len out.old + NAME_ROOM }
    ensures status { IsStatus version (spellable_status version status.now) }
{
    match status {
        Status::Suspect(accuser) => put_name(out, accuser),
        Status::Alive | Status::Failed | Status::Left => {}
    }
}

fn put_claim(out: &mut Row, version: Version, claim: &Claim)
    requires { array_vec_len out.old + CLAIM_ROOM ≤ MAX_PACKET }
    ensures items { out.new.items ≡ out.old.items ++ spelled_claim version claim.now }
    ensures len { array_vec_len out.new ≤ array_vec_len out.old + CLAIM_ROOM }
    ensures claim { IsClaim version (spellable_claim version claim.now) }
{
    out.push(claim_kind_of(version, &claim.status) as u8);
    put_name(out, &claim.name);
    put_addr(out, version, &claim.addr);
    put(out, &claim.incarnation.number().to_be_bytes());
    put_accuser(out, version, &claim.status);
}

/// The claims that a version has room for: the first of these.
fn told(version: Version, claims: &[Claim]) -> &[Claim]
    ensures claims { result.now ≡ take (most_claims_of version) claims.now }
    ensures few { length result.now ≤ MAX_CLAIMS }
{
    let most = version.most_claims();
    if claims.len() < most {
        claims
    } else {
        &claims[..most]
    }
}

/// Writes the count of the claims that the version has room for, and then those.
fn put_claims(out: &mut Row, version: Version, claims: &[Claim])
    requires { array_vec_len out.old + CLAIMS_ROOM ≤ MAX_PACKET }
    ensures items { out.new.items ≡ out.old.items ++ spelled_claims version claims.now }
    ensures each { AllByRecursion (λ c. IsClaim version (spellable_claim version c))
        (take (most_claims_of version) claims.now) }
{
    let told = told(version, claims);
    out.push(told.len() as u8);
    for claim in told {
        put_claim(out, version, claim);
    }
}

/// Encodes a packet: replaces what the row holds by the one spelling of the packet, at most [`MAX_PACKET`] bytes.
///
/// What the packet's version can't spell is told as something else. Versions 1 and 2 tell no group, no receiver, a
/// Gossip as a Page, an IP address of sixteen bytes as 0.0.0.0, a status Left as Failed, and only the first six claims.
/// Version 3 tells an Ack or a Nack without a receiver as one for its own sender, so that nobody takes it. It never
/// fails, and allocates nothing.
#[tactic(auto, unfolding(crate::specs::Meaning::Spelling::spelling))]
pub fn encode(packet: &Packet, out: &mut ArrayVec<u8, MAX_PACKET>)
    // The row holds the spelling of the packet.
    ensures exact { out.new.items ≡ spelling packet.now }
    // Each packet has a spelling, which is that of what it is told as.
    ensures spells { Spells out.new.items (spellable packet.now) }
    // Reading the row gives back what the packet is told as.
    ensures read_back { packet_of out.new.items ≡ Ok (spellable packet.now) }
{
    out.clear();
    put_head(out, packet.version, kind_of(packet.version, &packet.body));
    put_group(out, packet.version, &packet.group);
    put_name(out, &packet.sender);
    put_body(out, packet.version, &packet.sender, &packet.body);
    put_claims(out, packet.version, &packet.claims);
}
