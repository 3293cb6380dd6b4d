//! What is told of a node's end, and what is told first.
ghost use Rattle.lg_timing.specs.Meaning.Config.{IsChecked};

use arrayvec::ArrayVec;
use lg_agent::{CloseFault, Refusal};
use lg_loops::NodeLoops;
use lg_node::{NodeEnd, NodeFault, NodeStart, ResolvedSeeds, Settings, Unrecorded, Why, run_node};
use lg_rules::{Addr, Name};
use lg_run::Told;
use lg_testing::{Room, at};
use lg_text::{RunFault, WriteFault};
use lg_timing::Config;
use std::alloc::Global;
use std::fs::Files;
use std::io::ErrorKind;
use std::net::Net;
use std::random::RandomSource;
use std::rt;
use std::sync::Wait;
use std::sync::atomic::AtomicBool;
use std::thread::Threads;

const FULL: Why = Why::Refused(Refusal::HistoryFull(2));

const NO_MEMORY: Why = Why::Refused(Refusal::NoMemory);

const UNSEEN: Refusal = Refusal::NoView;

const DONE: Result<(), RunFault> = Ok(());

const CUT: WriteFault = WriteFault {
    kind: ErrorKind::WriteZero,
};

const UNWRITTEN: Result<(), RunFault> = Err(RunFault::Write(CUT));

/// How the receiving and the ticking loop ended, why the members were refused, how their table was written, and what
/// is told.
type Row = (Why, Why, Option<Refusal>, Result<(), RunFault>, Told);

/// Rows of an agent that was closed: the first end, and what went wrong after it.
const CLOSED: [Row; 34] = [
    (Why::Stopped, Why::Stopped, None, DONE, Told::Done),
    (Why::Stopped, Why::Ousted, None, DONE, Told::Ousted),
    (Why::Ousted, Why::Stopped, None, DONE, Told::Ousted),
    (Why::Ousted, Why::LinkFailed, None, DONE, Told::Ousted),
    (Why::Ousted, FULL, None, DONE, Told::Ousted),
    (Why::LinkFailed, Why::Stopped, None, DONE, Told::Link),
    (Why::LinkFailed, Why::Ousted, None, DONE, Told::Link),
    (Why::LinkFailed, FULL, None, DONE, Told::Link),
    (Why::Stopped, Why::LinkFailed, None, DONE, Told::Link),
    (FULL, Why::LinkFailed, None, DONE, Told::History),
    (Why::Stopped, FULL, None, DONE, Told::History),
    (NO_MEMORY, Why::Ousted, None, DONE, Told::Memory),
    (Why::Stopped, NO_MEMORY, None, DONE, Told::Memory),
    (Why::ReadBound, Why::Ousted, None, DONE, Told::Turns),
    (Why::Stopped, Why::ReadBound, None, DONE, Told::Turns),
    (Why::Refused(UNSEEN), Why::Ousted, None, DONE, Told::Refused),
    (
        Why::Stopped,
        Why::Stopped,
        Some(UNSEEN),
        DONE,
        Told::Refused,
    ),
    (Why::Stopped, Why::Ousted, Some(UNSEEN), DONE, Told::Refused),
    (Why::Ousted, FULL, Some(UNSEEN), DONE, Told::Refused),
    (
        Why::Stopped,
        Why::Stopped,
        Some(Refusal::NoMemory),
        DONE,
        Told::Memory,
    ),
    (
        Why::Stopped,
        Why::Ousted,
        Some(Refusal::NoMemory),
        DONE,
        Told::Memory,
    ),
    (
        Why::Ousted,
        FULL,
        Some(Refusal::NoMemory),
        DONE,
        Told::Memory,
    ),
    (
        Why::Stopped,
        Why::Stopped,
        Some(UNSEEN),
        UNWRITTEN,
        Told::Refused,
    ),
    (
        Why::Stopped,
        Why::Ousted,
        Some(UNSEEN),
        UNWRITTEN,
        Told::Refused,
    ),
    (Why::Ousted, FULL, Some(UNSEEN), UNWRITTEN, Told::Refused),
    (
        Why::Stopped,
        Why::Stopped,
        None,
        UNWRITTEN,
        Told::Write(CUT),
    ),
    (Why::Stopped, Why::Ousted, None, UNWRITTEN, Told::Write(CUT)),
    (Why::Ousted, FULL, None, UNWRITTEN, Told::Write(CUT)),
    (
        Why::Stopped,
        Why::Stopped,
        None,
        Err(RunFault::Memory),
        Told::Memory,
    ),
    (
        Why::Stopped,
        Why::Ousted,
        None,
        Err(RunFault::Memory),
        Told::Memory,
    ),
    (Why::Ousted, FULL, None, Err(RunFault::Memory), Told::Memory),
    (
        Why::LinkFailed,
        Why::Stopped,
        Some(UNSEEN),
        DONE,
        Told::Link,
    ),
    (Why::LinkFailed, Why::Stopped, None, UNWRITTEN, Told::Link),
    (FULL, Why::Stopped, Some(UNSEEN), UNWRITTEN, Told::History),
];

/// Rows of an agent that wasn't closed.
const UNCLOSED: [Row; 6] = [
    (Why::Stopped, Why::Stopped, None, DONE, Told::Close),
    (Why::Ousted, Why::Stopped, None, DONE, Told::Close),
    (Why::Ousted, Why::Stopped, None, UNWRITTEN, Told::Write(CUT)),
    (
        Why::Stopped,
        Why::Stopped,
        Some(UNSEEN),
        DONE,
        Told::Refused,
    ),
    (
        Why::LinkFailed,
        Why::Stopped,
        Some(UNSEEN),
        DONE,
        Told::Link,
    ),
    (FULL, Why::Stopped, Some(UNSEEN), DONE, Told::History),
];

/// The configuration of b at a port.
fn config(port: u16) -> Config
    ensures { IsChecked result }
{
    let name = Name::new(b"b").unwrap_or_default();
    Config::new(name, Addr::v4([127, 0, 0, 1], port))
}

/// Changes the end of a node to that of each row. Gives the first row that isn't told of it.
fn first_untold(alloc: Global, ran: &mut Result<NodeEnd, NodeFault>, rows: &[Row]) -> Option<Row> {
    for row in rows {
        let (received, ticked, members, written, told) = *row;
        if let Ok(end) = ran {
            end.received.why = received;
            end.ticked.why = ticked;
            end.members = match members {
                Some(refusal) => Err(refusal),
                None => Ok(Vec::new(alloc)),
            };
        }
        if Told::of(ran, written) != told {
            return Some(*row);
        }
    }
    None
}

/// How often a run is tried while it fails.
const TRIES: usize = 10;

/// A run of a node, at a port that the system gives it, that ends at once and tells nothing.
fn run_at_once<R>(rt: &R, alloc: Global) -> Result<NodeEnd, NodeFault>
where
    R: Wait + Threads + Net + Files + rt::Clock + RandomSource + AllocGlobal + Clone + Sync + Drop,
    R::File: Send,
    R::Dir: Send,
{
    let settings = Settings {
        bind: config(0).addr,
        seeds: ArrayVec::new(),
        learns: false,
        resolve_ms: 60_000,
        shown_seeds: ArrayVec::new(),
        dice: 1,
        pull_ms: 0,
        stall_ms: 0,
        follow: false,
        status: None,
        status_open: false,
        leave: true,
        record_folder: None,
        keys: None,
    };
    let stop = AtomicBool::new(false);
    let resolved = ResolvedSeeds::new();
    let mut unread = Room::failing(0);
    let mut untold = Room::failing(0);
    let start = NodeStart {
        loops: NodeLoops,
        config: &config(0),
        settings: &settings,
        until: at(0),
        stop: &stop,
        resolved: &resolved,
    };
    run_node(
        rt,
        alloc,
        &start,
        None::<Unrecorded>,
        &mut unread,
        &mut untold,
    )
}

/// A node that ran. A run fails if memory is refused, and while another program has the port for a moment.
fn ran<R>(rt: &R, alloc: Global) -> Result<NodeEnd, NodeFault>
where
    R: Wait + Threads + Net + Files + rt::Clock + RandomSource + AllocGlobal + Clone + Sync + Drop,
    R::File: Send,
    R::Dir: Send,
{
    let mut ran = run_at_once(rt, alloc);
    for _ in 0..TRIES {
        if ran.is_ok() {
            return ran;
        }
        ran = run_at_once(rt, alloc);
    }
    ran
}

/// The first end is told, the receiving loop's before the ticking loop's. If it has a table, refused members are told
/// before it, then a failed writing, then a fault of closing.
#[test]
fn first_of_what_went_wrong(rt: HostRuntime) {
    let mut ran = ran(&rt, rt.alloc());
    assert_eq!(rt; first_untold(rt.alloc(), &mut ran, CLOSED.as_slice()), None);
    if let Ok(end) = &mut ran {
        end.closed = Err(CloseFault::Missing);
    }
    assert_eq!(rt;
        first_untold(rt.alloc(), &mut ran, UNCLOSED.as_slice()),
        None
    );
}
