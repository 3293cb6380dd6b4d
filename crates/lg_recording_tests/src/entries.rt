//! Entries that are written and read back: whole, cut off at each byte, and with each byte changed.

use crate::samples::{SAMPLES, SMALL, STOOD_STILL, sample};
use lg_detector::{Answer, Event, Reply};
use lg_fields::FieldFault;
use lg_recording::{Entries, EntryBuffers, put_entry, put_start, read_start};
use lg_testing::{at, incarnation};
use std::alloc::Global;
use std::test::Fail;

/// Appends the sample with this number.
fn put_sample(number: usize, buffers: &mut EntryBuffers, out: &mut Vec<u8>) -> Result<(), Fail> {
    let (seat, event, reply) = sample(number);
    if seat <= 32 {
        put_entry(seat, &event, &reply, STOOD_STILL[number], buffers, out)?;
    }
    Ok(())
}

/// The samples from one on, one behind the other, and where each ends.
fn all(alloc: Global, from: usize) -> Result<(Vec<u8>, Vec<usize>), Fail> {
    let mut buffers = EntryBuffers::new(alloc);
    let mut out = Vec::new(alloc);
    let mut ends = Vec::new(alloc);
    for number in from..SAMPLES {
        put_sample(number, &mut buffers, &mut out)?;
        ends.push(out.len())?;
    }
    Ok((out, ends))
}

/// How many entries some bytes hold, and the fault behind them.
fn listed(bytes: &[u8]) -> (usize, Option<FieldFault>) {
    let mut entries = Entries { rest: bytes };
    let mut count = 0;
    for _ in 0..1000 {
        match entries.next_entry() {
            None => return (count, None),
            Some(Err(fault)) => return (count, Some(fault)),
            Some(Ok(_)) => count += 1,
        }
    }
    (count, None)
}

/// Whether what is read of the sample with this number is written as the same bytes, and has for how long the clock
/// stood still.
fn is_written_again(alloc: Global, number: usize) -> Result<bool, Fail> {
    let mut buffers = EntryBuffers::new(alloc);
    let mut out = Vec::new(alloc);
    put_sample(number, &mut buffers, &mut out)?;
    let mut again = Vec::new(alloc);
    let mut entries = Entries {
        rest: out.as_slice(),
    };
    let Some(Ok(entry)) = entries.next_entry() else {
        return Ok(false);
    };
    if entry.stood_still_ms != STOOD_STILL[number] {
        return Ok(false);
    }
    if entry.seat <= 32 {
        put_entry(
            entry.seat,
            &entry.event,
            &entry.reply,
            entry.stood_still_ms,
            &mut buffers,
            &mut again,
        )?;
    }
    Ok(entries.rest.is_empty() && out.as_slice() == again.as_slice())
}

/// How many of the ends are at most a place.
fn ends_within(ends: &[usize], place: usize) -> usize {
    let mut count = 0;
    for end in ends {
        if *end <= place {
            count += 1;
        }
    }
    count
}

/// The fault of bytes that are cut off here.
fn cut_fault(ends: &[usize], place: usize) -> Option<FieldFault> {
    if place == 0 || ends.contains(&place) {
        None
    } else {
        Some(FieldFault::Short)
    }
}

#[test]
fn reads_what_was_written(rt: HostRuntime) -> Result<(), Fail> {
    for number in 0..SAMPLES {
        assert!(rt; is_written_again(rt.alloc(), number)?, "{number}");
    }
    let (bytes, _) = all(rt.alloc(), 0)?;
    assert_eq!(rt; listed(bytes.as_slice()), (SAMPLES, None));
    Ok(())
}

/// The event Health at 20 of the seat 1, answered by the score 0, the incarnation 2 and three members, with the next
/// deadline 1000, as RECORDINGS has it: if the clock didn't stand still, and if it did for 1500 ms. The digests are
/// those of the module `hashlib` of Python.
const HEALTH: [(u64, &[u8]); 2] = [
    (
        0,
        b"\x12\x01\x05\x14\x00\x00\x00\x00\x03\x00\x00\x00\x00\x02\x03\x00\xe8\x07\x00\x0b\xe1\xfe\x65",
    ),
    (
        1500,
        b"\x13\x01\x05\x14\x00\x00\x00\x00\x03\x00\x00\x00\x00\x02\x03\x00\xe8\x07\xdc\x0b\x9a\x9d\x3d\xed",
    ),
];

#[test]
fn writes_the_format(rt: HostRuntime) -> Result<(), Fail> {
    let mut buffers = EntryBuffers::new(rt.alloc());
    let mut reply = Reply::default();
    reply.answer = Some(Answer::Health {
        score: 0,
        number: incarnation(2),
        members: 3,
    });
    reply.next = 1000;
    let event = Event::Health { now: at(20) };
    for (stood_still_ms, bytes) in HEALTH {
        let mut out = Vec::new(rt.alloc());
        put_entry(1, &event, &reply, stood_still_ms, &mut buffers, &mut out)?;
        assert_eq!(rt; out.as_slice(), bytes);
    }
    Ok(())
}

#[test]
fn reads_up_to_the_cut(rt: HostRuntime) -> Result<(), Fail> {
    let (bytes, ends) = all(rt.alloc(), 0)?;
    for len in 0..bytes.len() {
        let want = (
            ends_within(ends.as_slice(), len),
            cut_fault(ends.as_slice(), len),
        );
        assert_eq!(rt; listed(&bytes[..len]), want, "{len}");
    }
    Ok(())
}

/// The last end that is at most a place, or the beginning.
fn start_of(ends: &[usize], place: usize) -> usize {
    let mut start = 0;
    for end in ends {
        if *end <= place {
            start = *end;
        }
    }
    start
}

/// A changed byte is a fault of its chunk, by the digest at the latest. The samples before it, and the first ones,
/// which are long, are left out: reading them takes most of the time.
#[test]
fn tells_each_changed_byte(rt: HostRuntime) -> Result<(), Fail> {
    let (mut bytes, ends) = all(rt.alloc(), SMALL)?;
    for place in 0..bytes.len() {
        let start = start_of(ends.as_slice(), place);
        let was = bytes[place];
        for bits in [1, 0x80] {
            bytes[place] = was ^ bits;
            let (count, fault) = listed(&bytes[start..]);
            assert_eq!(rt; count, 0, "{place}");
            assert!(rt; fault.is_some(), "{place}");
        }
        bytes[place] = was;
    }
    Ok(())
}

/// A file with a head of two bytes and all samples, of which each byte of the beginning is changed or missing.
#[test]
fn reads_what_a_file_begins_with(rt: HostRuntime) -> Result<(), Fail> {
    let mut file = Vec::new(rt.alloc());
    put_start(b"\x05\x06", &mut file)?;
    let len = file.len();
    assert_eq!(rt; &file.as_slice()[..7], b"LGR\x01\x02\x05\x06".as_slice());
    let (entries, _) = all(rt.alloc(), SMALL)?;
    file.extend_from_slice(entries.as_slice())?;
    assert_eq!(rt;
        read_start(file.as_slice()),
        Ok((b"\x05\x06".as_slice(), entries.as_slice()))
    );
    for place in 0..len {
        assert_eq!(rt;
            read_start(&file[..place]),
            Err(FieldFault::Short),
            "{place}"
        );
        let was = file[place];
        file[place] = was ^ 1;
        assert!(rt; read_start(file.as_slice()).is_err(), "{place}");
        file[place] = was;
    }
    file[0] = b'M';
    assert_eq!(rt; read_start(file.as_slice()), Err(FieldFault::Magic));
    file[0] = b'L';
    file[3] = 2;
    assert_eq!(rt; read_start(file.as_slice()), Err(FieldFault::Version));
    Ok(())
}
