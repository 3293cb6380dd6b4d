//! Reads what a file of a recording begins with.
//!
//! Defined in: `specs/Meaning/Heads.antt`.
//! Tested in: `lg_replay_tests/src/lives.rt`, `lg_replay_tests/src/heads.rt`.
ghost use Rattle.std.specs.Prelude.{◌≡◌};
ghost use Rattle.lg_heads.specs.Meaning.Heads.{head_value};
ghost use Rattle.lg_heads.specs.Support.Reads.{Reads};
ghost use Rattle.lg_replay.specs.Meaning.Heads.{file_head_scan};

use lg_fields::FieldReader;
use lg_heads::{Head, HeadFault, read_head};
use lg_recording::read_start;
use std::alloc::Global;

/// Reads the head of a file. Only its table is allocated. The error is the first fault from the left, or that memory
/// was refused.
#[tactic(auto, unfolding(crate::specs::Meaning::Heads::file_head_scan))]
pub fn read_file_head<'a>(
    alloc: Global,
    reader: &mut FieldReader<'a>,
) -> Result<Head<'a>, HeadFault>
    ensures { Reads (λ x. (head_value x, reader.new.rest.now)) result (file_head_scan reader.old.rest.now) }
{
    let (body, rest) = read_start(reader.rest)?;
    reader.rest = rest;
    read_head(alloc, body)
}
