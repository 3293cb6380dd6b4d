//! Readers that give little at a time, are interrupted or fail.
use crate::plays::READING;
use crate::streams::{Interrupts, Streams};

/// What is told of a reader whose calls fail.
const BROKEN: &[u8] = b"lg: read\nstandard input can't be read: the machine refuses it\n";

/// What is read doesn't depend on the pieces that a reader gives, nor on interruptions.
#[test]
fn reads_piece_by_piece(rt: HostRuntime) {
    // The most bytes of a read call, and which calls are interrupted.
    let rows = [
        (1, Interrupts::Never),
        (1, Interrupts::EachSecond),
        (2, Interrupts::EachSecond),
        (26, Interrupts::Never),
        (27, Interrupts::EachSecond),
        (38, Interrupts::Never),
        (39, Interrupts::EachSecond),
    ];
    for play in READING {
        for (piece, interrupts) in rows {
            let mut streams = Streams::over(play.input.as_bytes());
            streams.reader.piece = piece;
            streams.reader.interrupt(interrupts);
            let status = play.command.run(rt.alloc(), &mut streams);
            assert!(rt;
                play.is_met(status, &streams),
                "{play:?}, {piece}, {interrupts:?}: {status}"
            );
        }
    }
}

/// If any one read fails, also the one that finds the end, no further read is made, and nothing is written.
#[test]
fn fails_where_a_read_fails(rt: HostRuntime) {
    for play in READING {
        for call in 0..play.input.len() + 1 {
            let mut streams = Streams::over(play.input.as_bytes());
            streams.reader.fails_at = call + 1;
            let status = play.command.run(rt.alloc(), &mut streams);
            let met = status == 1
                && streams.reader.calls == call + 1
                && streams.writer.calls == 0
                && streams.faults.has(BROKEN);
            assert!(rt; met, "{play:?}, behind {call} reads: {status}");
        }
    }
}
