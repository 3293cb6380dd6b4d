//! Readers that never end.
use crate::plays::Command;
use crate::streams::{Interrupts, Streams};
use std::process::Abort;

/// A command, the most bytes of a read call, which calls are interrupted, and the least number of calls that are
/// made.
type Row = (Command, usize, Interrupts, usize);

/// What is told of an input that is too long, and of one that is interrupted again and again.
const TOO_LONG: &[u8] = b"lg: read\nstandard input has more than 1048576 bytes\n";

const INTERRUPTED: &[u8] = b"lg: read\nstandard input can't be read: the machine refuses it\n";

/// Each command gives up after few bytes and calls, tells why, and writes nothing.
fn check(rt: &(impl Abort + AllocGlobal), rows: &[Row], told: &[u8]) {
    for row in rows {
        let (command, piece, interrupts, least) = *row;
        let mut streams = Streams::over(b"");
        streams.reader.endless = true;
        streams.reader.piece = piece;
        streams.reader.interrupt(interrupts);
        let status = command.run(rt.alloc(), &mut streams);
        let (calls, given) = (streams.reader.calls, streams.reader.given);
        let met = status == 1
            && given <= 1_048_577
            && calls <= 2_097_154
            && calls >= least
            && streams.writer.calls == 0
            && streams.faults.has(told);
        assert!(rt; met, "{row:?}: {status}, {calls} calls, {given} bytes");
    }
}

/// An input without an end is given up.
#[test]
fn gives_up_on_endless_readers(rt: HostRuntime) {
    let rows = [
        (Command::Answer, 1, Interrupts::Never, 0),
        (Command::Answer, 1, Interrupts::EachSecond, 0),
        (Command::Answer, 1000, Interrupts::Never, 0),
        (Command::Answer, 1_000_000, Interrupts::EachSecond, 0),
        (Command::Sim, 1000, Interrupts::Never, 0),
        (Command::Copying, 1000, Interrupts::Never, 0),
    ];
    check(&rt, &rows, TOO_LONG);
}

/// A reader that is always interrupted is given up.
#[test]
fn gives_up_on_endless_interruptions(rt: HostRuntime) {
    let rows = [(Command::Answer, 1, Interrupts::Always, 2_097_154)];
    check(&rt, &rows, INTERRUPTED);
}
