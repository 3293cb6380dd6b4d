//! Writers that fail.
use crate::plays::{OTHERS, Play, READING};
use crate::streams::Streams;
use lg_commands::{answer_named, order_lists, write_init};
use lg_testing::{FaultRow, ROOM};
use std::process::Abort;

/// What is told of a writer whose calls fail, and of one that takes no more.
const BROKEN: &[u8] = b"lg: write\nstandard output can't be written: nobody reads it\n";

const FULL: &[u8] = b"lg: write\nstandard output can't be written: it takes nothing\n";

/// Runs a play in which each write call fails in turn, and the flush too.
fn check_failing_writes(rt: &(impl Abort + AllocGlobal), play: &Play) {
    let text = play.text.as_bytes();
    for call in 0..text.len() + 1 {
        let mut streams = Streams::over(play.input.as_bytes());
        streams.writer.fails_at = call + 1;
        let status = play.command.run(rt.alloc(), &mut streams);
        let met = status == 1
            && streams.writer.calls == call + 1
            && streams.writer.has(&text[..call])
            && streams.faults.has(BROKEN);
        assert!(rt; met, "{play:?}, behind {call} writes: {status}");
    }
}

/// A write that fails is told, and no other follows.
#[test]
fn fails_where_a_write_fails(rt: HostRuntime) {
    for play in READING.iter().chain(OTHERS.iter()) {
        check_failing_writes(&rt, play);
    }
}

/// A writer that takes no more bytes is told too.
#[test]
fn fails_where_a_writer_is_full(rt: HostRuntime) {
    for play in READING.iter().chain(OTHERS.iter()) {
        let mut streams = Streams::over(play.input.as_bytes());
        streams.writer.len = ROOM - 4;
        let status = play.command.run(rt.alloc(), &mut streams);
        let met = status == 1 && streams.writer.len == ROOM && streams.faults.has(FULL);
        assert!(rt; met, "{play:?}: {status}");
    }
}

/// `init`, whose text has more bytes than the writer has room for: a write that fails, and a writer that is full.
/// What was written before stays.
#[test]
fn writes_a_beginning_of_a_file(rt: HostRuntime) {
    for (fails_at, written, told) in [(1, 0, BROKEN), (20, 19, BROKEN), (0, ROOM, FULL)] {
        let mut streams = Streams::over(b"");
        streams.writer.fails_at = fails_at;
        let status = write_init(&mut streams.writer, &mut streams.faults);
        let met = status == 1 && streams.writer.len == written && streams.faults.has(told);
        assert!(rt; met, "write {fails_at} fails: {status}");
    }
}

/// A line that the writer of faults doesn't take is dropped, and the status stays.
#[test]
fn drops_what_is_not_taken(rt: HostRuntime) {
    for play in READING.iter().chain(OTHERS.iter()) {
        for (call, text) in [(1, "".as_bytes()), (5, b"lg: ".as_slice())] {
            let mut streams = Streams::over(play.input.as_bytes());
            streams.writer.fails_at = 1;
            streams.faults.fails_at = call;
            let status = play.command.run(rt.alloc(), &mut streams);
            let met = status == 1 && streams.faults.calls == call && streams.faults.has(text);
            assert!(rt; met, "{play:?}, report call {call}: {status}");
        }
    }
}

/// What is told stands whole on a stream that has room for it, and not a byte of it on one that lacks a byte.
#[test]
fn tells_whole_lines(rt: HostRuntime) {
    for play in READING.iter().chain(OTHERS.iter()) {
        let mut streams = Streams::over(play.input.as_bytes());
        streams.writer.fails_at = 1;
        let Streams { reader, writer, .. } = streams;
        let (mut reader, mut writer) = (reader, writer);
        let mut faults: FaultRow<60> = FaultRow::empty();
        let status = play
            .command
            .run_over(rt.alloc(), &mut reader, &mut writer, &mut faults);
        assert!(rt;
            status == 1 && faults.text() == BROKEN,
            "{play:?}: {status}"
        );
    }
    for play in READING {
        let mut streams = Streams::over(play.input.as_bytes());
        streams.reader.fails_at = 1;
        let Streams { reader, writer, .. } = streams;
        let (mut reader, mut writer) = (reader, writer);
        let mut faults: FaultRow<61> = FaultRow::empty();
        let status = play
            .command
            .run_over(rt.alloc(), &mut reader, &mut writer, &mut faults);
        assert!(rt;
            status == 1 && faults.text().is_empty(),
            "{play:?}: {status}"
        );
    }
}

/// So do the lines of bad lists.
#[test]
fn tells_whole_lines_of_bad_lists(rt: HostRuntime) {
    let Streams { reader, writer, .. } = Streams::over(b"");
    let (mut reader, mut writer) = (reader, writer);
    let mut unnamed: FaultRow<14> = FaultRow::empty();
    let mut unlisted: FaultRow<14> = FaultRow::empty();
    let mut unspoken: FaultRow<14> = FaultRow::empty();
    answer_named(rt.alloc(), "b 2", &mut reader, &mut writer, &mut unnamed);
    order_lists(rt.alloc(), "a,a", "0", &mut writer, &mut unlisted);
    order_lists(rt.alloc(), "a", "x", &mut writer, &mut unspoken);
    assert!(rt; unnamed.text() == b"lg: bad names\n".as_slice());
    assert!(rt; unlisted.text() == b"lg: bad names\n".as_slice());
    assert!(rt; unspoken.text() == b"lg: bad words\n".as_slice());
}
