//! Reads the fields of recordings, from the first byte on.
//!
//! Defined in: `specs/Meaning/Scanned.antt`.
//! Tested in: `lg_fields_tests/src/fields.rt`.
ghost use Rattle.std.specs.Prelude.{◌≡◌, ◌<◌, ◌≤◌, IfOk};
ghost use Rattle.lg_fields.specs.Meaning.Scanned.{bounded_scan, byte_scan, check_scan, chunk_scan, count_scan};
ghost use Rattle.lg_fields.specs.Meaning.Scanned.{digits_scan, few_scan, flag_scan, moment_scan, records_in};
ghost use Rattle.lg_fields.specs.Meaning.Scanned.{records_scan, split_scan, text_scan, told_in, told_scan};
ghost use Rattle.lg_fields.specs.Meaning.Scanned.{has_no_group, is_of_first, is_page_body};
ghost use Rattle.lg_fields.specs.Meaning.Scanned.{is_records_page, is_version_three};
ghost use Rattle.lg_fields.specs.Support.Bounds.{digits_bound};
ghost use Rattle.lg_fields.specs.Support.Scans.{Scans};

use crate::fault::FieldFault;
use crate::writing::{CHECK_LEN, check_of_body};
use arrayvec::ArrayVec;
use lg_packet::{Body, Packet, decode};
use lg_rules::{Claim, MAX_CLAIMS, Name, Record, Version};
use lg_timing::Moment;

/// The most bytes that stand before the last one of a number.
const MAX_DIGITS: u8 = 9;

/// The bytes that are still to be read.
///
/// Each method reads one field, and the error is the first fault from the left. Behind an error, the bytes are of no
/// use: some of the field may have been read. Nothing is allocated.
#[derive(Drop)]
pub struct FieldReader<'a> {
    /// The bytes that are still to be read.
    pub rest: &'a [u8],
}

impl<'a> FieldReader<'a> {
    /// Reads one byte. [`FieldFault::Short`] if there is none.
    pub fn byte(&mut self) -> Result<u8, FieldFault>
        ensures { Scans (λ x. (x, self.new.rest.now)) result (byte_scan self.old.rest.now) }
    {
        let [byte, rest @ ..] = self.rest else {
            return Err(FieldFault::Short);
        };
        self.rest = rest;
        Ok(*byte)
    }

    /// Reads the last byte of a number that has as many as one can have.
    #[tactic(auto, unfolding(crate::specs::Meaning::Scanned::digits_scan))]
    fn last_digit(&mut self) -> Result<u64, FieldFault>
        ensures value { Scans (λ x. (x, self.new.rest.now)) result (digits_scan 0 self.old.rest.now) }
        ensures below { IfOk result (λ n. n < 2) }
    {
        let [byte, rest @ ..] = self.rest else {
            return Err(FieldFault::Short);
        };
        if *byte > 1 {
            return Err(FieldFault::Number);
        }
        self.rest = rest;
        Ok(u64::from(*byte))
    }

    /// Reads a number of at most `more` bytes before its last one.
    fn digits(&mut self, more: u8) -> Result<u64, FieldFault>
        requires { more ≤ MAX_DIGITS }
        ensures value { Scans (λ x. (x, self.new.rest.now)) result (digits_scan more self.old.rest.now) }
        ensures below { IfOk result (λ n. n < digits_bound more) }
    {
        if more == 0 {
            return self.last_digit();
        }
        let [byte, rest @ ..] = self.rest else {
            return Err(FieldFault::Short);
        };
        self.rest = rest;
        if *byte < 128 {
            return Ok(u64::from(*byte));
        }
        let others = self.digits(more - 1)?;
        if others == 0 {
            return Err(FieldFault::Number);
        }
        Ok(u64::from(*byte % 128) + 128 * others)
    }

    /// Reads a number, 0 to 2^64 - 1. [`FieldFault::Number`] if it is greater or has more bytes than it needs,
    /// [`FieldFault::Short`] if the bytes end before it does.
    #[tactic(auto, unfolding(crate::specs::Meaning::Scanned::count_scan))]
    pub fn count(&mut self) -> Result<u64, FieldFault>
        ensures { Scans (λ x. (x, self.new.rest.now)) result (count_scan self.old.rest.now) }
    {
        self.digits(MAX_DIGITS)
    }

    /// Reads a number that is at most `most`. [`FieldFault::Number`] if it is greater; else as [`FieldReader::count`].
    #[tactic(auto, unfolding(crate::specs::Meaning::Scanned::bounded_scan))]
    pub fn bounded(&mut self, most: u64) -> Result<u64, FieldFault>
        ensures { Scans (λ x. (x, self.new.rest.now)) result (bounded_scan most self.old.rest.now) }
    {
        let number = self.count()?;
        if number > most {
            return Err(FieldFault::Number);
        }
        Ok(number)
    }

    /// Reads a moment, a number of milliseconds up to [`MAX_MOMENT`](lg_timing::MAX_MOMENT). [`FieldFault::Number`] if
    /// it is greater; else as [`FieldReader::count`].
    #[tactic(auto, unfolding(crate::specs::Meaning::Scanned::bounded_scan))]
    pub fn moment(&mut self) -> Result<Moment, FieldFault>
        ensures { Scans (λ x. (x, self.new.rest.now)) result (moment_scan self.old.rest.now) }
    {
        let number = self.count()?;
        Moment::new(number).ok_or(FieldFault::Number)
    }

    /// Reads how many of something follow, which are at most `most`. [`FieldFault::Count`] if they are more; else as
    /// [`FieldReader::count`].
    #[tactic(auto, unfolding(crate::specs::Meaning::Scanned::few_scan))]
    pub fn few(&mut self, most: usize) -> Result<usize, FieldFault>
        ensures value { Scans (λ x. (x, self.new.rest.now)) result (few_scan most self.old.rest.now) }
        ensures few { IfOk result (λ x. x ≤ most) }
    {
        let number = self.count()?;
        if number > most as u64 {
            return Err(FieldFault::Count);
        }
        Ok(number as usize)
    }

    /// Reads a flag. [`FieldFault::Kind`] if the byte is neither 0 nor 1, [`FieldFault::Short`] if there is none.
    pub fn flag(&mut self) -> Result<bool, FieldFault>
        ensures { Scans (λ x. (x, self.new.rest.now)) result (flag_scan self.old.rest.now) }
    {
        let [byte, rest @ ..] = self.rest else {
            return Err(FieldFault::Short);
        };
        self.rest = rest;
        match *byte {
            0 => Ok(false),
            1 => Ok(true),
            _ => Err(FieldFault::Kind),
        }
    }

    /// Reads `len` bytes.
    fn split(&mut self, len: u64) -> Result<&'a [u8], FieldFault>
        ensures { Scans (λ x. (x.now, self.new.rest.now)) result (split_scan len self.old.rest.now) }
    {
        if (self.rest.len() as u64) < len {
            return Err(FieldFault::Short);
        }
        let (front, rest) = self.rest.split_at(len as usize);
        self.rest = rest;
        Ok(front)
    }

    /// Reads a text: how many bytes it has, and then these. [`FieldFault::Short`] if they aren't there; else as
    /// [`FieldReader::count`].
    #[tactic(auto, unfolding(crate::specs::Meaning::Scanned::text_scan))]
    pub fn text(&mut self) -> Result<&'a [u8], FieldFault>
        ensures { Scans (λ x. (x.now, self.new.rest.now)) result (text_scan self.old.rest.now) }
    {
        let len = self.count()?;
        self.split(len)
    }

    /// Reads a packet behind the number of its bytes. [`FieldFault::Packet`] if the bytes are no packet; else as
    /// [`FieldReader::text`].
    #[tactic(auto, unfolding(crate::specs::Meaning::Scanned::told_scan))]
    pub fn told(&mut self) -> Result<Packet, FieldFault>
        ensures { Scans (λ x. (x, self.new.rest.now)) result (told_scan self.old.rest.now) }
    {
        let bytes = self.text()?;
        told_in(bytes)
    }

    /// Reads some records, at most 12. [`FieldFault::Packet`] if the bytes are no packet, or not the Page that records
    /// are; else as [`FieldReader::text`].
    #[tactic(auto, unfolding(crate::specs::Meaning::Scanned::records_scan))]
    pub fn records(&mut self) -> Result<ArrayVec<Record, MAX_CLAIMS>, FieldFault>
        ensures { Scans (λ x. (x.items, self.new.rest.now)) result (records_scan self.old.rest.now) }
    {
        let bytes = self.text()?;
        records_in(bytes)
    }

    /// Reads the bytes by which a body is checked.
    fn check(&mut self, body: &'a [u8]) -> Result<&'a [u8], FieldFault>
        ensures { Scans (λ x. (x.now, self.new.rest.now)) result (check_scan body.now self.old.rest.now) }
    {
        let check = self.split(CHECK_LEN as u64)?;
        if check != check_of_body(body).as_slice() {
            return Err(FieldFault::Check);
        }
        Ok(body)
    }

    /// Reads a chunk, and gives its body. [`FieldFault::Short`] if the chunk isn't there whole, [`FieldFault::Check`]
    /// if its digest isn't that of the body; else as [`FieldReader::count`].
    #[tactic(auto, unfolding(crate::specs::Meaning::Scanned::chunk_scan))]
    pub fn chunk(&mut self) -> Result<&'a [u8], FieldFault>
        ensures { Scans (λ x. (x.now, self.new.rest.now)) result (chunk_scan self.old.rest.now) }
    {
        let body = self.text()?;
        self.check(body)
    }
}

/// All of the bytes as a packet.
fn told_in(bytes: &[u8]) -> Result<Packet, FieldFault>
    ensures { result ≡ told_in bytes.now }
{
    match decode(bytes) {
        Ok(packet) => Ok(packet),
        Err(_) => Err(FieldFault::Packet),
    }
}

fn is_version_three(version: Version) -> bool
    ensures { result ≡ is_version_three version }
{
    match version {
        Version::One | Version::Two => false,
        Version::Three => true,
    }
}

fn is_page_body(body: &Body) -> bool
    ensures { result ≡ is_page_body body.now }
{
    match body {
        Body::Page => true,
        Body::Ping { .. }
        | Body::PingReq { .. }
        | Body::Ack { .. }
        | Body::Nack { .. }
        | Body::Pull { .. }
        | Body::Gossip => false,
    }
}

fn has_no_group(group: &Option<Name>) -> bool
    ensures { result ≡ has_no_group group.now }
{
    match group {
        None => true,
        Some(_) => false,
    }
}

/// Whether a member is that of the first claim.
fn is_of_first(sender: &Name, claims: &[Claim]) -> bool
    ensures { result ≡ is_of_first sender.now claims.now }
{
    match claims {
        [] => false,
        [first, ..] => *sender == first.name,
    }
}

/// Whether a packet is the Page of its own claims as records.
fn is_records_page(packet: &Packet) -> bool
    ensures { result ≡ is_records_page packet.now }
{
    is_version_three(packet.version)
        && has_no_group(&packet.group)
        && is_page_body(&packet.body)
        && is_of_first(&packet.sender, &packet.claims)
}

/// The records that are all of the bytes.
fn records_in(bytes: &[u8]) -> Result<ArrayVec<Record, MAX_CLAIMS>, FieldFault>
    ensures { Scans (λ x. x.items) result (records_in bytes.now) }
{
    match bytes {
        [] => Ok(ArrayVec::new()),
        [_, ..] => {
            let packet = told_in(bytes)?;
            if is_records_page(&packet) {
                Ok(packet.claims)
            } else {
                Err(FieldFault::Packet)
            }
        }
    }
}
