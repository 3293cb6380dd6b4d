//! Heads of files of recordings: against bytes written by hand, read back, cut off at each byte, and with each fault.

use lg_detector::Standing;
use lg_fields::FieldFault;
use lg_heads::{Before, Head, HeadFault, put_head, read_head};
use lg_recording::read_start;
use lg_rules::{Addr, Claim, Record, Status};
use lg_testing::{at, claim, incarnation, letter, local, name, numbered};
use lg_timing::Config;
use std::alloc::Global;
use std::test::Fail;

/// The name `a`, and the default configuration of `a` at 127.0.0.1:7001.
const FRONT: &[u8] =
    b"\x01a\xe8\x07\xf4\x03\x03\x08\x05\x06\x03\x04\xa0\x06\xa0\x9c\x01\x01\x00\xc8\x01\x03\x01\
    \x01a\x04\x7f\x00\x00\x01\x1b\x59\x00\x00";

/// The program `0.9.0`, the wall time 1,800,000,000,000 and the moment 20.
const MIDDLE: &[u8] = b"\x050.9.0\x80\xa0\xf1\xc2\xb1\x34\x14";

/// The flag of 300 entries, the score 2, the incarnation 7 and the flag `ousted`.
const STANDING: &[u8] = b"\xac\x02\x01\x02\x00\x00\x00\x07\x01";

/// Three records, each as a Page: `a` is alive at 7, `b` at an IPv6 address is suspected by `a` at the greatest
/// incarnation, and `c.d` has left.
const ROWS: [&[u8]; 3] = [
    b"\x16SL\x03\x06\x00\x01a\x01\x01\x01a\x04\x7f\x00\x00\x01\x1b\x59\x00\x00\x00\x07",
    b"\x24SL\x03\x06\x00\x01b\x01\x02\x01b\x06\x20\x01\x0d\xb8\x00\x00\x00\x00\x00\x00\x00\x00\x00\x00\x00\x09\xff\xff\
    \x3b\x9a\xca\x00\x01a",
    b"\x1aSL\x03\x06\x00\x03c.d\x01\x04\x03c.d\x04\x7f\x00\x00\x01\x1b\x5b\x00\x00\x00\x00",
];

/// The records that [`ROWS`] are.
fn rows() -> [Record; 3] {
    [
        Claim {
            name: letter(b'a'),
            addr: local(7001),
            status: Status::Alive,
            incarnation: incarnation(7),
        },
        Claim {
            name: letter(b'b'),
            addr: Addr::v6(
                [0x20, 1, 0xd, 0xb8, 0, 0, 0, 0, 0, 0, 0, 0, 0, 0, 0, 9],
                65535,
            ),
            status: Status::Suspect(letter(b'a')),
            incarnation: incarnation(1_000_000_000),
        },
        Claim {
            name: name(b"c.d"),
            addr: local(7003),
            status: Status::Left,
            incarnation: incarnation(0),
        },
    ]
}

/// The head of the node `a` with this configuration file behind so many entries.
fn head_of(text: &[u8], first: u64, before: Option<Before>) -> Head<'_> {
    Head {
        name: letter(b'a'),
        config: Config::new(letter(b'a'), local(7001)),
        text,
        program: b"0.9.0",
        wall_ms: 1_800_000_000_000,
        now: at(20),
        first,
        before,
    }
}

/// What was known, with this table.
fn known(alloc: Global, records: &[Record]) -> Result<Option<Before>, Fail> {
    let mut table = Vec::new(alloc);
    for record in records {
        table.push(*record)?;
    }
    let standing = Standing {
        score: 2,
        number: incarnation(7),
        ousted: true,
    };
    Ok(Some(Before { standing, table }))
}

/// Some bytes one behind the other.
fn joined(alloc: Global, parts: &[&[u8]]) -> Result<Vec<u8>, Fail> {
    let mut bytes = Vec::new(alloc);
    for part in parts {
        bytes.extend_from_slice(part)?;
    }
    Ok(bytes)
}

/// What a file with this head begins with, written behind other bytes and with memory that held others.
fn file_of(alloc: Global, head: &Head<'_>) -> Result<Vec<u8>, Fail> {
    let mut body = joined(alloc, &[b"other"])?;
    let mut out = joined(alloc, &[b"before"])?;
    put_head(head, &mut body, &mut out)?;
    joined(alloc, &[&out.as_slice()[6..]])
}

/// The body of a head.
fn body_of(alloc: Global, head: &Head<'_>) -> Result<Vec<u8>, Fail> {
    let file = file_of(alloc, head)?;
    let (body, rest) = read_start(file.as_slice()).ok().ok_or("a file begins so")?;
    if !rest.is_empty() {
        return Err("bytes follow the head".into());
    }
    joined(alloc, &[body])
}

/// Whether what was known is the same.
fn is_same_before(one: &Option<Before>, other: &Option<Before>) -> bool {
    match (one, other) {
        (None, None) => true,
        (Some(one), Some(other)) => {
            one.standing == other.standing && one.table.as_slice() == other.table.as_slice()
        }
        (None, Some(_)) | (Some(_), None) => false,
    }
}

/// Whether a head is read back from its body as itself. Its configuration is compared by writing it again.
fn is_read_back(alloc: Global, head: &Head<'_>) -> Result<bool, Fail> {
    let body = body_of(alloc, head)?;
    let read = read_head(alloc, body.as_slice())
        .ok()
        .ok_or("a head is there")?;
    let again = body_of(alloc, &read)?;
    Ok(
        read.name == head.name
            && read.text == head.text
            && read.program == head.program
            && read.wall_ms == head.wall_ms
            && read.now == head.now
            && read.first == head.first
            && is_same_before(&read.before, &head.before)
            && again.as_slice() == body.as_slice(),
    )
}

/// The digest is that of the module `hashlib` of Python.
#[test]
fn writes_the_head_of_a_first_file(rt: HostRuntime) -> Result<(), Fail> {
    let head = head_of(b"", 0, None);
    let want = joined(
        rt.alloc(),
        &[
            b"LGR\x01\x32",
            FRONT,
            b"\x00",
            MIDDLE,
            b"\x00\x00",
            b"\x49\x56\xfe\xf5",
        ],
    )?;
    assert_eq!(rt; file_of(rt.alloc(), &head)?.as_slice(), want.as_slice());
    assert!(rt; is_read_back(rt.alloc(), &head)?);
    Ok(())
}

#[test]
fn writes_the_head_of_a_later_file(rt: HostRuntime) -> Result<(), Fail> {
    let text = b"name = \"a\"\n".as_slice();
    let head = head_of(text, 300, known(rt.alloc(), &rows())?);
    let want = joined(
        rt.alloc(),
        &[
            FRONT, b"\x0b", text, MIDDLE, STANDING, b"\x03", ROWS[0], ROWS[1], ROWS[2],
        ],
    )?;
    assert_eq!(rt; body_of(rt.alloc(), &head)?.as_slice(), want.as_slice());
    assert!(rt; is_read_back(rt.alloc(), &head)?);
    Ok(())
}

#[test]
fn reads_a_full_table(rt: HostRuntime) -> Result<(), Fail> {
    let mut records = Vec::new(rt.alloc());
    for number in 0..256 {
        records.push(claim(numbered(number), Status::Failed, number))?;
    }
    let head = head_of(b"", 1, known(rt.alloc(), records.as_slice())?);
    assert!(rt; is_read_back(rt.alloc(), &head)?);
    Ok(())
}

#[test]
fn tells_each_cut(rt: HostRuntime) -> Result<(), Fail> {
    let head = head_of(b"x", 300, known(rt.alloc(), &rows())?);
    let body = body_of(rt.alloc(), &head)?;
    for len in 0..body.len() {
        assert_eq!(rt;
            read_head(rt.alloc(), &body[..len]).err(),
            Some(HeadFault::Field(FieldFault::Short)),
            "{len}"
        );
    }
    Ok(())
}

/// The fault of a body that goes on so behind the name, the configuration, no text, the program and the times.
fn fault_behind(alloc: Global, rest: &[u8]) -> Result<Option<HeadFault>, Fail> {
    let body = joined(alloc, &[FRONT, b"\x00", MIDDLE, rest])?;
    Ok(read_head(alloc, body.as_slice()).err())
}

/// Two records as one Page.
const TWO: &[u8] = b"\x24SL\x03\x06\x00\x01a\x02\
    \x01\x01a\x04\x7f\x00\x00\x01\x1b\x59\x00\x00\x00\x07\
    \x03\x01b\x04\x7f\x00\x00\x01\x1b\x59\x00\x00\x00\x01";

#[test]
fn tells_each_fault(rt: HostRuntime) -> Result<(), Fail> {
    let rows: [(&[u8], FieldFault); 13] = [
        (b"\x00", FieldFault::Short),
        (b"\x80\x00", FieldFault::Number),
        (b"\x00\x02", FieldFault::Kind),
        (b"\x00\x01", FieldFault::Count),
        (b"\x01\x00", FieldFault::Count),
        (b"\x01\x01\x00\x3b\x9a\xca\x01", FieldFault::Incarnation),
        (b"\x01\x01\x00\x00\x00\x00\x00\x02", FieldFault::Kind),
        (b"\x01\x01\x00\x00\x00\x00\x00\x00\x00", FieldFault::Count),
        (
            b"\x01\x01\x00\x00\x00\x00\x00\x00\x81\x02",
            FieldFault::Count,
        ),
        (
            b"\x01\x01\x00\x00\x00\x00\x00\x00\x80\x02",
            FieldFault::Short,
        ),
        (
            b"\x01\x01\x00\x00\x00\x00\x00\x00\x01\x00",
            FieldFault::Count,
        ),
        (
            b"\x01\x01\x00\x00\x00\x00\x00\x00\x01\x01S",
            FieldFault::Packet,
        ),
        (b"\x00\x00\x00", FieldFault::Trailing),
    ];
    for (rest, fault) in rows {
        let told = fault_behind(rt.alloc(), rest)?;
        assert_eq!(rt; told, Some(HeadFault::Field(fault)), "{rest:?}");
    }
    let two = joined(rt.alloc(), &[STANDING, b"\x01", TWO])?;
    assert_eq!(rt;
        fault_behind(rt.alloc(), two.as_slice())?,
        Some(HeadFault::Field(FieldFault::Count))
    );
    Ok(())
}

/// The faults of the name, the address of the configuration, and the moment.
#[test]
fn tells_the_first_fault(rt: HostRuntime) -> Result<(), Fail> {
    assert_eq!(rt;
        read_head(rt.alloc(), b"\x01!").err(),
        Some(HeadFault::Field(FieldFault::Name))
    );
    let family = joined(rt.alloc(), &[&FRONT[..25], b"\x05"])?;
    assert_eq!(rt;
        read_head(rt.alloc(), family.as_slice()).err(),
        Some(HeadFault::Field(FieldFault::Family))
    );
    let late = joined(
        rt.alloc(),
        &[FRONT, b"\x00\x00\x00", b"\xff\xff\xff\xff\xff\xff\xff\x7f"],
    )?;
    assert_eq!(rt;
        read_head(rt.alloc(), late.as_slice()).err(),
        Some(HeadFault::Field(FieldFault::Number))
    );
    Ok(())
}
