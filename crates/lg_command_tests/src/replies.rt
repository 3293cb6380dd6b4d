//! The lines of replies that no script gives: many packets, great numbers, and all parts at once.
use arrayvec::ArrayVec;
use lg_detector::{Answer, Event, MAX_FORGOTTEN, MAX_SENDS, Outgoing, Reply, Timer, TimerId};
use lg_lines::put_reply;
use lg_rules::{Addr, Claim, MAX_INCARNATION, Name, Status};
use lg_testing::{ack, at, claim, incarnation, letter, local, name, packet};

/// A reply to a tick, the number of its first packet, and the lines that it gives.
#[derive(Debug, Drop)]
struct Case {
    first: u64,
    reply: Reply,
    lines: &'static str,
}

/// A reply that fires a timer and changes records.
fn changes(id: TimerId, records: &[Claim], next: u64) -> Reply {
    let mut reply = Reply::default();
    reply.fired = Some(Timer { deadline: 0, id });
    for record in records {
        if !reply.changed.is_full() {
            reply.changed.push(*record);
        }
    }
    reply.next = next;
    reply
}

/// The record of a member at a port.
fn record(member: u8, port: u16, status: Status, number: u32) -> Claim {
    let mut record = claim(letter(member), status, number);
    record.addr = local(port);
    record
}

/// A reply that says all that a reply can, except packets.
fn full() -> Reply {
    let suspect = record(b'b', 7002, Status::Suspect(letter(b'a')), 0);
    let mut reply = changes(TimerId::RoundStart, &[suspect], 600);
    reply.answer = Some(Answer::Status(None));
    if !reply.forgotten.is_full() {
        reply.forgotten.push(letter(b'c'));
    }
    reply.ousted = true;
    reply
}

/// A reply with as many packets as it can have.
fn sending() -> Reply {
    let mut reply = changes(TimerId::RelayEnd(4_294_967_295), &[], 7);
    for number in 0..MAX_SENDS as u32 {
        if reply.sends.len() < MAX_SENDS {
            reply.sends.push(Outgoing {
                to: local(9),
                packet: packet(b'a', ack(number), &[]),
            });
        }
    }
    reply
}

/// A reply with as many forgotten names as it can have.
fn forgetting() -> Reply {
    let mut reply = changes(TimerId::Forget(letter(b'a')), &[], 7);
    for number in 0..MAX_FORGOTTEN as u8 {
        if !reply.forgotten.is_full() {
            reply.forgotten.push(letter(b'a' + number));
        }
    }
    reply
}

/// A reply with records at the ends of each range.
fn at_the_ends() -> Reply {
    let longest = name(b"ABCDEFGHIJKLMNOPQRSTUVWXYZ-._019");
    let records = [
        record(b'a', 7001, Status::Alive, 0),
        record(b'c', 7003, Status::Failed, 12),
        Claim {
            name: longest,
            addr: Addr::v4([255, 0, 10, 255], 65535),
            status: Status::Suspect(longest),
            incarnation: incarnation(MAX_INCARNATION),
        },
        Claim {
            name: letter(b'd'),
            addr: Addr::v6([0xfd, 0, 0, 0, 0, 0, 0, 0, 0, 0, 0, 0, 0, 0, 0, 7], 7004),
            status: Status::Left,
            incarnation: incarnation(3),
        },
        Claim {
            name: Name::default(),
            addr: Addr::default(),
            status: Status::Alive,
            incarnation: incarnation(0),
        },
    ];
    changes(TimerId::Suspicion(letter(b'c')), &records, 9500)
}

/// Appends a reply to a text. Gives whether memory was allocated for it. Gives None if other bytes than its lines
/// were appended, or any at all although memory was refused.
fn is_had(alloc: std::alloc::Global, case: &Case) -> Option<bool> {
    let mut row = ArrayVec::new();
    let mut text = Vec::new(alloc);
    if text.push(b'#').is_err() {
        return Some(false);
    }
    let event = Event::Tick {
        now: at(500),
        words: [0; 8],
    };
    let had = case.first < 1 << 33
        && put_reply(&event, case.first, &case.reply, &mut row, &mut text).is_ok();
    let lines = text.as_slice().strip_prefix(b"#")?;
    let wanted = case.lines.as_bytes();
    if had && lines == wanted || !had && lines.is_empty() {
        Some(had)
    } else {
        None
    }
}

/// Each reply gives its lines. Memory may be refused once.
#[test]
fn writes_replies(rt: HostRuntime) {
    let cases = [
        Case {
            first: 1,
            reply: full(),
            lines: "fired round-start\nanswer none\nrecord b suspect 0 127.0.0.1:7002 by a\nforgot c\nousted\n\
                next 600\n",
        },
        Case {
            first: 4_294_967_295,
            reply: sending(),
            lines: "fired relay-end 4294967295\n\
                send 4294967295 127.0.0.1:9 534c010301610000000000\n\
                send 4294967296 127.0.0.1:9 534c010301610000000100\n\
                send 4294967297 127.0.0.1:9 534c010301610000000200\n\
                send 4294967298 127.0.0.1:9 534c010301610000000300\n\
                send 4294967299 127.0.0.1:9 534c010301610000000400\n\
                send 4294967300 127.0.0.1:9 534c010301610000000500\n\
                send 4294967301 127.0.0.1:9 534c010301610000000600\n\
                send 4294967302 127.0.0.1:9 534c010301610000000700\n\
                next 7\n",
        },
        Case {
            first: 1,
            reply: forgetting(),
            lines: "fired forget a\n\
                forgot a\nforgot b\nforgot c\nforgot d\nforgot e\nforgot f\n\
                forgot g\nforgot h\nforgot i\nforgot j\nforgot k\nforgot l\n\
                next 7\n",
        },
        Case {
            first: 1,
            reply: at_the_ends(),
            lines: "fired suspicion c\n\
                record a alive 0 127.0.0.1:7001\n\
                record c failed 12 127.0.0.1:7003\n\
                record ABCDEFGHIJKLMNOPQRSTUVWXYZ-._019 suspect 1000000000 255.0.10.255:65535 \
                by ABCDEFGHIJKLMNOPQRSTUVWXYZ-._019\n\
                record d left 3 [fd00::7]:7004\n\
                record a alive 0 0.0.0.0:0\n\
                next 9500\n",
        },
    ];
    for case in &cases {
        let (first, second) = (is_had(rt.alloc(), case), is_had(rt.alloc(), case));
        let met = first.is_some()
            && second.is_some()
            && (first == Some(true) || second == Some(true));
        assert!(rt; met, "{case:?}: {first:?} {second:?}");
    }
}
