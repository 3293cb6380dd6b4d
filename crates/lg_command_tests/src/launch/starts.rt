//! What is announced of a node before it starts.
use crate::ports::{free_port, with_port};
use lg_config::{Given, Source};
use lg_run::{FaultStreams, RecordFolders, Wishes, run_bytes};
use lg_testing::{Room, at};
use std::alloc::Global;
use std::net::{Net, TcpListener, TcpStream};
use std::random::RandomSource;
use std::rt::Files;
use std::sync::Wait;
use std::sync::atomic::AtomicBool;
use std::thread::Threads;
use std::{io, rt};

/// The file that is named and what options give; further lines of the bytes; the moment at which the node ends, or None
/// for one that is told to stop before it starts; whether it follows; and what is told. Each `#` stands for the node's
/// port.
type Row = (
    Source<'static>,
    &'static str,
    Option<u64>,
    bool,
    &'static str,
);

/// A file without options.
const FILE: Source<'static> = Source {
    file: Some("b.toml"),
    given: &[],
};

/// Options without a file.
const OPTIONS: Source<'static> = Source {
    file: None,
    given: &[
        Given {
            key: "wire",
            text: "3",
        },
        Given {
            key: "seeds",
            text: "127.0.0.1:17199",
        },
    ],
};

/// A node that a time ends is announced only if it follows. The address that is found towards a seed on loopback is
/// loopback, and it is told whether the node is announced or not.
const ROWS: [Row; 8] = [
    (FILE, "", Some(1), false, ""),
    (
        FILE,
        "",
        Some(1),
        true,
        "lg: b at 127.0.0.1:#, file b.toml, wire 1, 0 seeds\n",
    ),
    (
        FILE,
        "wire = 2\nseeds = [\"a@127.0.0.1:17199\"]",
        None,
        false,
        "lg: b at 127.0.0.1:#, file b.toml, wire 2, 1 seed\n",
    ),
    (
        FILE,
        "seeds = [\"a@127.0.0.1:17199\", \"c@1.2.3.4:5\"]",
        None,
        true,
        "lg: b at 127.0.0.1:#, file b.toml, wire 1, 2 seeds\n",
    ),
    (
        OPTIONS,
        "wire = 2",
        None,
        false,
        "lg: b at 127.0.0.1:#, no file, wire 3, 1 seed\n",
    ),
    (
        FILE,
        "address = \"auto\"\nseeds = [\"127.0.0.1:17199\"]",
        Some(1),
        false,
        "lg: the address auto is 127.0.0.1:#\n",
    ),
    (
        FILE,
        "address = \"auto\"\nseeds = [\"127.0.0.1:17199\"]",
        None,
        false,
        "lg: the address auto is 127.0.0.1:#\nlg: b at 127.0.0.1:#, file b.toml, wire 1, 1 seed\n",
    ),
    (
        FILE,
        "seeds = [\"localhost:17199\", \"127.0.0.1:17198\"]",
        None,
        false,
        "lg: b at 127.0.0.1:#, file b.toml, wire 1, 2 seeds\n",
    ),
];

/// Runs the node of a row at a free port. Returns whether it ended with status 0, and told what the row says.
fn runs<R>(rt: &R, alloc: Global, row: Row) -> io::Result<bool>
where
    R: AllocGlobal
        + Wait
        + Threads
        + rt::Clock
        + Files
        + RandomSource
        + FaultStreams
        + RecordFolders,
    R: Net<Listener = TcpListener, Stream = TcpStream> + Copy + Send + Sync + 'static,
    R::File: Send,
    R::Dir: Send,
{
    let (source, line, until, follow, told) = row;
    let port = free_port(rt)?;
    let text = format!(in alloc; "name = \"b\"\nport = {port}\n{line}\n")?;
    let stop = AtomicBool::new(until.is_none());
    let wishes = Wishes {
        source,
        until: until.map(at),
        follow,
        stop: &stop,
    };
    let (mut writer, mut faults) = (Room::failing(0), Room::failing(0));
    let status = run_bytes(
        rt,
        alloc,
        text.as_bytes(),
        &wishes,
        &mut writer,
        &mut faults,
    );
    Ok(status == 0 && faults.has(with_port(alloc, told, port)?.as_slice()))
}

/// How often a run is tried, if another program has taken its port meanwhile.
const TRIES: usize = 10;

/// Each node is announced as it should be, and ends with status 0.
#[test]
fn are_announced(rt: HostRuntime) {
    for row in ROWS {
        let done = (0..TRIES).any(|_| runs(&rt, rt.alloc(), row).is_ok_and(|done| done));
        assert!(rt; done, "{row:?}");
    }
}
