//! Runs of nodes and of files, over writers that fail.
use crate::ports::{free_port, with_port};
use lg_config::Source as Origin;
use lg_run::{FaultStreams, RecordFolders, Wishes, file_bytes, run_bytes, tell_no_bytes};
use lg_testing::{Room, at};
use std::alloc::{AllocError, Global};
use std::net::{Net, TcpListener, TcpStream};
use std::random::RandomSource;
use std::rt::Files;
use std::sync::Wait;
use std::sync::atomic::AtomicBool;
use std::thread::Threads;
use std::{io, rt};

/// What is run for a millisecond.
#[derive(Clone, Copy, Debug)]
enum Source {
    /// The bytes of a file, in which `#` stands for a free port.
    Bytes(&'static str),
    /// The file at a path.
    Path(&'static str),
}

use Source::{Bytes, Path};

/// What is run; which call of the output fails, counted from 1, or 0 if none does; then the status, what is written
/// and what is told. What is written has `#` for the port too.
type Row = (Source, usize, u8, &'static str, &'static str);

/// What came of a run.
#[derive(Drop)]
struct Outcome {
    status: u8,
    writer: Room,
    faults: Room,
}

/// Whether this was written, and nothing else. With an empty text, no call may have been made except up to the one
/// that fails.
fn has(room: &Room, text: &[u8]) -> bool {
    room.has(text) && (!text.is_empty() || room.calls <= room.fails_at)
}

impl Outcome {
    /// Whether a run ended with this status, and wrote and told this.
    fn is(&self, status: u8, written: &[u8], told: &str) -> bool {
        self.status == status && has(&self.writer, written) && has(&self.faults, told.as_bytes())
    }
}

/// A run of a millisecond that tells its members at its end.
fn wishes_of(source: Source, stop: &AtomicBool) -> Wishes<'_> {
    let file = match source {
        Bytes(_) => "b.toml",
        Path(path) => path,
    };
    Wishes {
        source: Origin {
            file: Some(file),
            given: &[],
        },
        until: Some(at(1)),
        follow: false,
        stop,
    }
}

/// Runs the node of a source at a port, over an output whose call with this number fails. The error is refused memory.
fn run<R>(
    rt: &R,
    alloc: Global,
    source: Source,
    port: u16,
    fails_at: usize,
) -> Result<Outcome, AllocError>
where
    R: AllocGlobal
        + Wait
        + Threads
        + rt::Clock
        + Files
        + RandomSource
        + FaultStreams
        + RecordFolders,
    R: Net<Listener = TcpListener, Stream = TcpStream> + Copy + Send + Sync + 'static,
    R::File: Send,
    R::Dir: Send,
{
    let (mut writer, mut faults) = (Room::failing(fails_at), Room::failing(0));
    let stop = AtomicBool::new(false);
    let wishes = wishes_of(source, &stop);
    let (writer_of, faults_of) = (&mut writer, &mut faults);
    let status = match source {
        Bytes(text) => {
            let bytes = with_port(alloc, text, port)?;
            run_bytes(rt, alloc, &bytes, &wishes, writer_of, faults_of)
        }
        Path(path) => match file_bytes(rt, alloc, path) {
            Ok(bytes) => run_bytes(rt, alloc, &bytes, &wishes, writer_of, faults_of),
            Err(none) => tell_no_bytes(alloc, path, none, faults_of),
        },
    };
    Ok(Outcome {
        status,
        writer,
        faults,
    })
}

/// How often a row is tried, if another program has taken its port meanwhile.
const TRIES: usize = 10;

/// Whether the run of a row at a free port ends as it should.
fn ends_so<R>(rt: &R, alloc: Global, row: Row) -> io::Result<bool>
where
    R: AllocGlobal
        + Wait
        + Threads
        + rt::Clock
        + Files
        + RandomSource
        + FaultStreams
        + RecordFolders,
    R: Net<Listener = TcpListener, Stream = TcpStream> + Copy + Send + Sync + 'static,
    R::File: Send,
    R::Dir: Send,
{
    let (source, fails_at, status, written, told) = row;
    let port = free_port(rt)?;
    let outcome = run(rt, alloc, source, port, fails_at)?;
    let written = with_port(alloc, written, port)?;
    Ok(outcome.is(status, written.as_slice(), told))
}

/// What is told if the members can't be written.
const UNWRITTEN: &str = "lg: write\nstandard output can't be written: nobody reads it\n";

/// A node alone and a seeded one. An output that fails at its first byte, at a later one, and at the flush after the 33
/// bytes of the table. Files that can't be read or mean no configuration: no such file, a path that is none, an empty
/// path, a folder, an empty file and one without an end. An address that isn't found. Key files that give none: no such
/// file, a device, and a file that others than its owner can use.
const ROWS: [Row; 15] = [
    (
        Bytes("name = \"b\"\nport = #"),
        0,
        0,
        "record b alive 0 127.0.0.1:#\n",
        "",
    ),
    (
        Bytes("name = \"b\"\nport = #\nseeds = [\"a@127.0.0.1:17199\"]"),
        0,
        0,
        "record a alive 0 127.0.0.1:17199\nrecord b alive 0 127.0.0.1:#\n",
        "",
    ),
    (
        Bytes("name = \"b\"\nport = #\naddress = \"auto\"\nseeds = [\"255.255.255.255:17199\"]"),
        0,
        5,
        "",
        "lg: link\nthe address auto wasn't found: no seed resolves to an address that this machine reaches\n",
    ),
    (Bytes("name = \"b\"\nport = #"), 1, 1, "", UNWRITTEN),
    (Bytes("name = \"b\"\nport = #"), 4, 1, "rec", UNWRITTEN),
    (
        Bytes("name = \"b\"\nport = #"),
        34,
        1,
        "record b alive 0 127.0.0.1:#\n",
        UNWRITTEN,
    ),
    (
        Path("/nowhere/b.toml"),
        0,
        1,
        "",
        "lg: read\nthe file /nowhere/b.toml can't be read: there is no such file\n",
    ),
    (
        Path("b\0.toml"),
        0,
        1,
        "",
        "lg: read\nthe file b\0.toml can't be read: the machine refuses it\n",
    ),
    (
        Path(""),
        0,
        1,
        "",
        "lg: read\nthe file  can't be read: there is no such file\n",
    ),
    (
        Path("/"),
        0,
        1,
        "",
        "lg: read\nthe file / can't be read: it is a folder\n",
    ),
    (
        Path("/dev/null"),
        0,
        3,
        "",
        "lg: config 13\nthe key name is missing\n",
    ),
    (
        Path("/dev/zero"),
        0,
        3,
        "",
        "lg: config 12\nthe file has more than 65536 bytes\n",
    ),
    (
        Bytes("name = \"b\"\nport = #\nkey_file = \"/nowhere/b.key\""),
        0,
        9,
        "",
        "lg: key\nthe key file can't be read\n",
    ),
    (
        Bytes("name = \"b\"\nport = #\nkey_file = \"/dev/null\""),
        0,
        9,
        "",
        "lg: key\nthe key file is no regular file\n",
    ),
    (
        Bytes("name = \"b\"\nport = #\nkey_file = \"/proc/self/stat\""),
        0,
        9,
        "",
        "lg: key\nothers than its owner can use the key file\n",
    ),
];

/// Each run ends as it should.
#[test]
fn have_their_statuses(rt: HostRuntime) {
    for row in ROWS {
        let ends = (0..TRIES).any(|_| ends_so(&rt, rt.alloc(), row).is_ok_and(|ends| ends));
        assert!(rt; ends, "{row:?}");
    }
}
