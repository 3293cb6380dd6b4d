//! Recordings that are made by hand: of `a`, which knows `b` from the start.

use lg_detector::{Detector, Event, Reply};
use lg_fields::{put_chunk, put_config, put_count, put_label, put_text};
use lg_packet::Packet;
use lg_recording::{EntryBuffers, put_entry};
use lg_replay::{ReplayEnd, Replayer, Window};
use lg_testing::{ack, at, letter, local, packet};
use lg_timing::{Config, MAX_MOMENT, Seed};
use std::alloc::Global;
use std::test::Fail;

/// How many events a life has.
pub(crate) const EVENTS: usize = 6;

/// The configuration of `a`.
pub(crate) fn config() -> Config {
    let mut config = Config::new(letter(b'a'), local(7001));
    config.seeds.push(Seed {
        name: letter(b'b'),
        addr: local(7002),
    });
    config
}

/// The event with this number of a life: `a` is opened, pings `b` and hears its Ack. Then it is asked for `b`, for its
/// health, and a timer that isn't due is waited for.
pub(crate) fn event(number: usize) -> Event {
    match number {
        0 => Event::Open {
            now: at(0),
            config: config(),
        },
        1 => Event::Tick {
            now: at(0),
            words: [0; 8],
        },
        2 => Event::Heard {
            now: at(20),
            source: local(7002),
            packet: acked(),
        },
        3 => Event::Ask {
            now: at(30),
            name: letter(b'b'),
        },
        4 => Event::Health { now: at(40) },
        _ => Event::Tick {
            now: at(50),
            words: [0; 8],
        },
    }
}

/// The Ack of `b`.
fn acked() -> Packet {
    packet(b'b', ack(1), &[])
}

/// What is told of the first two events of a life.
pub(crate) const OPENED: &str = "at 0 open a 127.0.0.1:7001\n\
next 0\n\
at 0 tick\n\
fired round-start\n\
send 1 127.0.0.1:7002 534c0101016100000001016200\n\
next 500\n";

/// What is told of the third, and of the fourth.
pub(crate) const HEARD: &str = "at 20 heard 127.0.0.1:7002 534c010301620000000100\n\
next 1000\n";

pub(crate) const ASKED: &str = "at 30 ask b\n\
answer b alive 0 127.0.0.1:7002\n\
next 1000\n";

/// What is told of the fifth, and of the sixth.
pub(crate) const HEALTH: &str = "at 40 health\n\
answer score 0 number 0 members 2\n\
next 1000\n";

pub(crate) const IDLE: &str = "at 50 tick\n\
idle\n\
next 1000\n";

/// A text of parts, one behind the other.
pub(crate) fn joined(alloc: Global, parts: &[&str]) -> Result<Vec<u8>, Fail> {
    let mut text = Vec::new(alloc);
    for part in parts {
        text.extend_from_slice(part.as_bytes())?;
    }
    Ok(text)
}

/// What a head says behind the number of the first entry, if that isn't 0: the score 0, the incarnation 0, that `a`
/// isn't ousted, and a table of one record, `b` at 127.0.0.1:7002, as a Page.
pub(crate) const KNOWN: &[u8] = b"\x01\x00\x00\x00\x00\x00\x00\x01\
\x16SL\x03\x06\x00\x01b\x01\x01\x01b\x04\x7f\x00\x00\x01\x1b\x5a\x00\x00\x00\x00";

/// Appends the beginning of a file whose first entry has this number, and whose head has these bytes behind it.
pub(crate) fn put_beginning(
    alloc: Global,
    first: u64,
    known: &[u8],
    out: &mut Vec<u8>,
) -> Result<(), Fail> {
    let mut body = Vec::new(alloc);
    put_label(&letter(b'a'), &mut body)?;
    put_config(&config(), &mut body)?;
    put_text(b"name = \"a\"\n", &mut body)?;
    put_text(b"0.9.0", &mut body)?;
    put_count(1_764_525_600_000, &mut body)?;
    put_count(7, &mut body)?;
    put_count(first, &mut body)?;
    body.extend_from_slice(known)?;
    out.extend_from_slice(b"LGR\x01")?;
    put_chunk(&body, out)?;
    Ok(())
}

/// For how many milliseconds the clock stood still before the event with a number. No line of a replay tells it.
fn stood_still_before(number: usize) -> u64 {
    [0, 1500, 0, 127, 0, u64::MAX][number.min(EVENTS - 1)]
}

/// A file of the events from one to before another of a life. The reply to the event `changed` has another deadline.
pub(crate) fn file(
    alloc: Global,
    from: usize,
    to: usize,
    changed: Option<usize>,
) -> Result<Vec<u8>, Fail> {
    let mut out = Vec::new(alloc);
    let known = if from == 0 { b"\x00" } else { KNOWN };
    put_beginning(alloc, from as u64, known, &mut out)?;
    let mut detector = Detector::blank(alloc)?;
    let mut buffers = EntryBuffers::new(alloc);
    let mut reply = Reply::default();
    for number in 0..to {
        let event = event(number);
        if detector.accepts(&event) {
            detector.step(&event, &mut reply);
        }
        if changed == Some(number) {
            reply.next = 77;
        }
        if number >= from {
            put_entry(
                usize::from(number > 0),
                &event,
                &reply,
                stood_still_before(number),
                &mut buffers,
                &mut out,
            )?;
        }
    }
    Ok(out)
}

/// All moments and members.
pub(crate) fn all() -> Window {
    Window {
        from: at(0),
        to: at(MAX_MOMENT),
        only: None,
    }
}

/// What is told of some files, which have the numbers from 0 on, and how that ends.
pub(crate) fn replayed(
    alloc: Global,
    files: &[Vec<u8>],
    window: &Window,
) -> Result<(Vec<u8>, ReplayEnd), Fail> {
    let mut text = Vec::new(alloc);
    let mut replayer = Replayer::new(alloc)?;
    let mut number = 0u64;
    for bytes in files {
        replayer.replay_file(alloc, number, bytes, window, &mut text)?;
        number = number.saturating_add(1);
    }
    let end = replayer.finish(&mut text)?;
    Ok((text, end))
}
