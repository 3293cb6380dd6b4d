//! Configuration files that are read, and the reasons of their faults, while memory is refused once.
use lg_config::{FileFault, Given, MAX_FILE, NodeConfig, ReadFault, reason};
use std::alloc::{AllocError, Global};

/// Options of each kind: a text, a number that is no port, and seeds.
const GIVEN: &[Given<'static>] = &[
    Given {
        key: "name",
        text: "b",
    },
    Given {
        key: "port",
        text: "0",
    },
    Given {
        key: "seeds",
        text: "1.2.3.4",
    },
    Given {
        key: "seeds",
        text: "1.2.3.5",
    },
];

/// No options.
const NONE: &[Given<'static>] = &[];

/// An option whose text is no number.
const NO_NUMBER: &[Given<'static>] = &[Given {
    key: "port",
    text: "x",
}];

/// Bytes that are no text, or that are empty, take no memory if there are no options. For another file, and for
/// options, refused memory is answered and nothing else, and the next reading goes well.
#[test]
fn refused_memory(rt: HostRuntime) {
    let long = [b'\n'; MAX_FILE + 1];
    let faulty = b"name = \"b\"\nport = 0\nseeds = [\"c@1.2.3.4:1\"]\ninterval_ms = 5\n";
    let rows = [
        (1, long.as_slice(), NONE, FileFault::Syntax),
        (1, b"\xff".as_slice(), NONE, FileFault::Syntax),
        (1, &long[..MAX_FILE], NONE, FileFault::Key),
        (1, long.as_slice(), GIVEN, FileFault::Syntax),
        (2, faulty.as_slice(), NONE, FileFault::Value),
        (2, b"".as_slice(), GIVEN, FileFault::Value),
        (
            2,
            b"name = 1\nport = true".as_slice(),
            GIVEN,
            FileFault::Value,
        ),
        (2, b"name = \"b\"".as_slice(), NO_NUMBER, FileFault::Key),
    ];
    for (readings, bytes, given, fault) in rows {
        let mut found = NodeConfig::read(rt.alloc(), bytes, given).err();
        if readings == 2 && found == Some(ReadFault::NoMemory) {
            found = NodeConfig::read(rt.alloc(), bytes, given).err();
        }
        assert_eq!(rt; found, Some(ReadFault::File(fault)));
    }
}

/// Unknown keys, each with the known key that the reason names. Three edits are few of eight bytes, two of six, and one
/// of three; four are too many, and so are two of four bytes. Two edits lead from `all_ms` to `pull_ms` and to
/// `stall_ms`, of which the first counts. The first number of a probe is no key of a file.
const UNKNOWN_KEYS: [(&str, Option<&str>); 18] = [
    ("intervall_ms", Some("interval_ms")),
    ("interval", Some("interval_ms")),
    ("nack_thousandth", Some("nack_thousandths")),
    ("status_opne", Some("status_open")),
    ("keyfile", Some("key_file")),
    ("recrod", Some("record")),
    ("recordmb", Some("record_mb")),
    ("groups", Some("group")),
    ("Port", Some("port")),
    ("por", Some("port")),
    ("ports_", Some("port")),
    ("all_ms", Some("pull_ms")),
    ("stall", None),
    ("prot", None),
    ("po", None),
    ("interval_ms____", None),
    ("colour", None),
    ("first", None),
];

/// Whether the reason of a file with an unknown key is the one that is wanted. If memory is refused, that is the only
/// error, and the next reason is right.
fn names(alloc: Global, key: &str, nearest: Option<&str>) -> Result<bool, AllocError> {
    let text = format!(in alloc; "name = \"b\"\n{key} = 1\n")?;
    let wanted = match nearest {
        Some(known) => format!(in alloc;
            "the key \"{key}\" is unknown, and the nearest is \"{known}\"\n"
        )?,
        None => format!(in alloc; "the key \"{key}\" is unknown\n")?,
    };
    let line = match reason(alloc, text.as_bytes(), NONE, FileFault::Key) {
        Ok(line) => line,
        Err(AllocError) => reason(alloc, text.as_bytes(), NONE, FileFault::Key)?,
    };
    Ok(line.as_str() == wanted.as_str())
}

/// The reason of each unknown key names the nearest known one, if one is near.
#[test]
fn nearest_keys_refused_memory(rt: HostRuntime) {
    for row in UNKNOWN_KEYS {
        let (key, nearest) = row;
        let mut is_named = names(rt.alloc(), key, nearest);
        if is_named.is_err() {
            is_named = names(rt.alloc(), key, nearest);
        }
        assert!(rt; is_named == Ok(true), "{row:?}");
    }
}
