//! The table of a member of a simulated group, as plain data. Members are numbers.
use lg_rules::{Addr, Name, Record, Status};
use lg_testing::says::moved;
use lg_testing::{claim, numbered};

/// A member, by its number from 0. Its name is `m` and three decimal digits, so the numbers are in the order of names.
pub(super) type Number = u16;

/// The port of the member 0. The ports of the others follow.
const FIRST_PORT: u16 = 7001;

/// What a member knows of one.
#[derive(Clone, Copy)]
pub(super) enum Known {
    /// It is alive, at an incarnation.
    Alive(u32),
    /// It has failed, at an incarnation.
    Failed(u32),
}

/// A table, in the order of names: so many members of which the same is known, then the next ones.
pub(super) type Runs = &'static [(usize, Known)];

/// The name of a member.
pub(super) fn name_of(number: Number) -> Name {
    numbered(u32::from(number))
}

/// The port of a member.
pub(super) fn port_of(number: Number) -> u16 {
    FIRST_PORT.saturating_add(number)
}

/// The version of what a member sends, if the members send these in turn.
pub(super) fn wire_of(wires: &[u64], number: Number) -> u64 {
    let count = wires.len();
    if count == 0 {
        1
    } else {
        wires[usize::from(number) % count]
    }
}

/// The member at a port of 127.0.0.1.
pub(super) fn number_at(addr: &Addr) -> Number {
    addr.port.saturating_sub(FIRST_PORT)
}

/// What a table says of the member in a place, if it goes so far.
fn known_at(runs: &[(usize, Known)], place: usize) -> Option<Known> {
    let mut before = place;
    for (count, known) in runs {
        if before < *count {
            return Some(*known);
        }
        before -= *count;
    }
    None
}

/// Whether a record is that of a member of which this is known.
fn is_record(record: &Record, number: Number, known: Known) -> bool {
    let (status, incarnation) = match known {
        Known::Alive(incarnation) => (Status::Alive, incarnation),
        Known::Failed(incarnation) => (Status::Failed, incarnation),
    };
    *record == moved(claim(name_of(number), status, incarnation), port_of(number))
}

/// Whether a record is what a table says of the member.
fn is_known(record: &Record, number: Number, runs: &[(usize, Known)]) -> bool {
    match known_at(runs, usize::from(number)) {
        Some(known) => is_record(record, number, known),
        None => false,
    }
}

/// Whether these records are a table.
pub(super) fn are_runs(records: &[Record], runs: &[(usize, Known)]) -> bool {
    known_at(runs, records.len()).is_none()
        && (0..Number::MAX)
            .zip(records.iter())
            .all(|(number, record)| is_known(record, number, runs))
}
