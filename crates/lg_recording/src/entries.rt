//! Reads the entries of a recording, chunk by chunk.
//!
//! Defined in: `specs/Meaning/Scanning.antt`, `specs/Meaning/Listing.antt`, `specs/Meaning/Next.antt`.
//! Tested in: `lg_recording_tests/src/entries.rt`.
ghost use Rattle.std.specs.Prelude.{◌≡◌};
ghost use Rattle.lg_fields.specs.Support.Scans.{Scans};
ghost use Rattle.lg_recording.specs.Meaning.Listing.{entry_chunk_scan};
ghost use Rattle.lg_recording.specs.Meaning.Next.{GivesNext, recorded_in};
ghost use Rattle.lg_recording.specs.Meaning.Scanning.{recorded_of, recorded_scan};

use crate::reading::{read_event, read_reply, read_seat};
use crate::recorded::Recorded;
use lg_fields::{FieldFault, FieldReader};

/// Reads the parts of an entry.
#[tactic(auto, unfolding(crate::specs::Meaning::Scanning::entry_scan, crate::specs::Meaning::Scanning::recorded_scan))]
fn read_parts(reader: &mut FieldReader<'_>) -> Result<Recorded, FieldFault>
    ensures { Scans (λ x. (recorded_in x, reader.new.rest.now)) result (recorded_scan reader.old.rest.now) }
{
    let seat = read_seat(reader)?;
    let event = read_event(reader)?;
    let reply = read_reply(reader)?;
    let stood_still_ms = reader.count()?;
    Ok(Recorded {
        seat,
        event,
        reply,
        stood_still_ms,
    })
}

/// Reads an entry that takes up all of a body. Allocates nothing.
///
/// The error is the first fault from the left, and [`FieldFault::Trailing`] if the body goes on behind its entry.
#[tactic(auto, unfolding(crate::specs::Meaning::Scanning::recorded_of))]
pub fn read_entry(body: &[u8]) -> Result<Recorded, FieldFault>
    ensures { Scans recorded_in result (recorded_of body.now) }
{
    let mut reader = FieldReader { rest: body };
    let entry = read_parts(&mut reader)?;
    if !reader.rest.is_empty() {
        return Err(FieldFault::Trailing);
    }
    Ok(entry)
}

/// Reads the chunk of an entry.
#[tactic(auto, unfolding(crate::specs::Meaning::Listing::entry_chunk_scan))]
fn read_chunk(reader: &mut FieldReader<'_>) -> Result<Recorded, FieldFault>
    ensures { Scans (λ x. (recorded_in x, reader.new.rest.now)) result (entry_chunk_scan reader.old.rest.now) }
{
    let body = reader.chunk()?;
    read_entry(body)
}

/// The entries that some bytes hold, the earliest first.
#[derive(Drop)]
pub struct Entries<'a> {
    /// The bytes that are still to be read.
    pub rest: &'a [u8],
}

impl Entries<'_> {
    /// Reads the next entry, if bytes are left. Allocates nothing.
    ///
    /// The error is the fault of the chunk that the bytes begin with. They are left as they are then, so a further call
    /// gives the same fault.
    pub fn next_entry(&mut self) -> Option<Result<Recorded, FieldFault>>
        ensures { GivesNext self.old.rest.now self.new.rest.now result }
    {
        if self.rest.is_empty() {
            return None;
        }
        let mut reader = FieldReader { rest: self.rest };
        let read = read_chunk(&mut reader);
        if read.is_ok() {
            self.rest = reader.rest;
        }
        Some(read)
    }
}
