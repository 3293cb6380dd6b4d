//! Fields that are written and read back, and chunks that are changed or cut.

use lg_fields::{FieldFault, FieldReader, put_chunk, put_config, put_count, put_records};
use lg_rules::{Addr, Claim, Incarnation, Name, Status};
use lg_timing::Config;
use std::test::*;

/// A member with this name.
fn named(name: &[u8]) -> Name {
    Name::new(name).ok().unwrap_or_default()
}

/// Numbers at the ends of their lengths, and those lengths.
#[test]
fn numbers_come_back(rt: HostRuntime) -> Result<(), Fail> {
    let ends: [(u64, usize); 8] = [
        (0, 1),
        (127, 1),
        (128, 2),
        (300, 2),
        (16_383, 2),
        (16_384, 3),
        (9_223_372_036_854_775_807, 9),
        (u64::MAX, 10),
    ];
    for (number, length) in ends {
        let mut bytes = Vec::new(rt.alloc());
        put_count(number, &mut bytes)?;
        assert_eq!(rt; bytes.len(), length);
        let mut reader = FieldReader { rest: &bytes };
        assert_eq!(rt; reader.count(), Ok(number));
        assert!(rt; reader.rest.is_empty());
    }
    Ok(())
}

/// Numbers in more bytes than they need, or above the greatest.
#[test]
fn long_numbers_are_refused(rt: HostRuntime) {
    let long: [&[u8]; 4] = [
        b"\x80\x00",
        b"\xff\x80\x00",
        b"\x80\x80\x80\x80\x80\x80\x80\x80\x80\x02",
        b"\x80\x80\x80\x80\x80\x80\x80\x80\x80\x80",
    ];
    for bytes in long {
        assert_eq!(rt;
            FieldReader { rest: bytes }.count(),
            Err(FieldFault::Number)
        );
    }
    assert_eq!(rt;
        FieldReader { rest: b"\x80" }.count(),
        Err(FieldFault::Short)
    );
}

/// A configuration and some records come back.
#[test]
fn parts_come_back(rt: HostRuntime) -> Result<(), Fail> {
    let config = Config::new(named(b"a"), Addr::v4([127, 0, 0, 1], 7001));
    let claim = Claim {
        name: named(b"b"),
        addr: Addr::v6([1; 16], 7002),
        status: Status::Suspect(named(b"a")),
        incarnation: Incarnation::default(),
    };
    let mut bytes = Vec::new(rt.alloc());
    put_config(&config, &mut bytes)?;
    put_records(&[claim], &mut bytes)?;
    put_records(&[], &mut bytes)?;
    let mut reader = FieldReader { rest: &bytes };
    let read = reader.config().ok().ok_or("a configuration is there")?;
    assert_eq!(rt; read.name, config.name);
    assert_eq!(rt; read.timeout_ms, 500);
    let some = reader.records().ok().ok_or("a record is there")?;
    assert_eq!(rt; some.as_slice(), [claim].as_slice());
    let none = reader.records().ok().ok_or("no record is there")?;
    assert!(rt; none.is_empty());
    assert!(rt; reader.rest.is_empty());
    Ok(())
}

/// A chunk comes back. With any byte changed, or cut anywhere, it doesn't.
#[test]
fn other_chunks_are_refused(rt: HostRuntime) -> Result<(), Fail> {
    let mut bytes = Vec::new(rt.alloc());
    put_chunk(b"some body", &mut bytes)?;
    assert_eq!(rt; bytes.len(), 14);
    let body = FieldReader { rest: &bytes }.chunk();
    assert_eq!(rt; body, Ok(b"some body".as_slice()));
    for at in 0..bytes.len() {
        assert_eq!(rt;
            FieldReader { rest: &bytes[..at] }.chunk(),
            Err(FieldFault::Short)
        );
        let was = bytes[at];
        bytes[at] = was ^ 1;
        assert!(rt;
            FieldReader { rest: &bytes }.chunk().is_err(),
            "the byte {at}"
        );
        bytes[at] = was;
    }
    Ok(())
}
