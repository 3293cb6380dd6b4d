//! Runs a node from the bytes of its file and options: checks what they mean, finds its own address if that is to be
//! found, runs the node, writes its members, and tells how it ended. The functions stand in this order.
//!
//! Defined in: `specs/Meaning/Running.antt`, `specs/Meaning/Telling.antt`, `lg_text/specs/Meaning/Running.antt`.
//! Tested in: `cases/node.case`, `lg_command_tests/src/launch/ends.rt`.
ghost use Rattle.std.specs.Prelude.{◌≡◌, ◌⊎◌, ℕ, List, [], Err, is_some, IfOk, OnErr, OnOk, string_bytes};
ghost use Rattle.std.specs.Option.{option_map};
ghost use Rattle.lg_config.specs.Meaning.Options.{source_of};
ghost use Rattle.lg_run.specs.Meaning.Running.{node_settings, table_wished, Announces, IsSecond, RunsBytes};
ghost use Rattle.lg_run.specs.Meaning.Running.{Writes};
ghost use Rattle.lg_run.specs.Meaning.Reporting.{ReportsBoth};
ghost use Rattle.lg_run.specs.Meaning.Telling.{line_of, status_told};
ghost use Rattle.lg_run.specs.Meaning.Words.{link_reason, start_line};

use crate::configured::configured;
use crate::first::{started_at, system_time};
use crate::key_file::{keys_at, tell_no_keys};
use crate::recording::{DiskRecord, RecordFolders, recorder_of};
use crate::reporting::{tell, tell_both};
use crate::resolving::resolved_seeds;
use crate::telling::table_of;
use crate::told::Told;
use crate::wishes::{Wishes, end_wished, is_announced};
use crate::words::{link_reason, start_line};
use arrayvec::ArrayVec;
use lg_config::{FilePath, NodeConfig};
use lg_lines::put_table;
use lg_loops::NodeLoops;
use lg_node::{NodeEnd, NodeFault, NodeStart, ResolvedSeeds, Settings, run_node};
use lg_resolve::FaultStreams;
use lg_rules::{Addr, Record};
use lg_seal::Keys;
use lg_text::{FaultStream, RunFault, report, write_text};
use std::alloc::{AllocError, Global};
use std::io::{ErrorKind, Write};
use std::net::{Net, TcpListener, TcpStream};
use std::random::RandomSource;
use std::rt;
use std::rt::Files;
use std::sync::{Arc, Wait};
use std::thread::Threads;

/// Runs the node that the bytes of a file and options mean together, with the keys of the file that it names, if it
/// names one, until its end is wished or the stop flag is set. Writes the members that it knows to `writer`, and gives
/// the exit status. What is told on `faults` of a status other than 0 has one line or two.
///
/// Bytes and options that mean no configuration are told by [`Told::Config`], as [`NodeConfig::read`] answers, and a
/// second line says in words what is wrong with them. Memory that is refused for them is told by [`Told::Memory`]. A
/// key file that gives no keys is told by [`Told::Key`], and a second line says why: it can't be read, it is no regular
/// file, it belongs to another user, others than its owner may use it, or it spells no keys. At most 131 bytes of it
/// are read. No contract can say what it holds. In all these cases nothing is run or written.
///
/// If `address` is `auto`, the node's own address is the one from which this machine reaches the first seed that
/// resolves and that it reaches. No packet is sent for this, and the machine's resolver is waited for if seeds are
/// hosts. The address is told on `faults` in a line. If there is none, that is told by [`Told::Link`], and a second
/// line says why. If it is one of IPv6 and `wire` isn't 3, that is told as other faults of a configuration are. In both
/// cases nothing is run or written.
///
/// If hosts are among the seeds, a thread of its own resolves them while the node runs
/// ([`start_resolving`](lg_resolve::start_resolving)), and tells on the machine's own stream of faults which don't
/// resolve. It isn't joined, so a resolver that hangs holds up nothing. Memory or a thread that is refused for it is
/// told by [`Told::Memory`], and nothing is run.
///
/// If `record` names a folder, a thread of its own records the node there ([`NodeRecord`](lg_batches::NodeRecord)), and
/// tells on a stream of faults of its own what isn't recorded. Its status server tells what the newest files there have
/// of a member. Memory that is refused for the path is told by [`Told::Memory`], and nothing is run.
///
/// A node that follows, or that no time ends, is announced by a line on `faults` before it starts: who runs where, with
/// which file if one is named, in which version it writes its packets, and how many seeds it has. Memory that is
/// refused for this line is told by [`Told::Memory`], and nothing is run.
///
/// It counts its probes and relays from a number that follows from the system's time and its dice. If there are keys,
/// it takes and sends only sealed datagrams. It is run by [`run_node`](lg_node::run_node), and [`Told::of`] says what
/// is told of it. If it follows, its watcher writes what it sees, and nothing else is written. Otherwise, if both loops
/// stopped or the node was ousted, the members are written as [`put_table`](lg_lines::put_table) does, a line each. In
/// all other cases nothing is written. Members that can't be written have a second line, which says why. A socket that
/// can't be bound has one, which says to which address and why. So has a status server, and one that ended before the
/// node. A line that `faults` doesn't take is dropped. Apart from what the node allocates, memory is allocated only for
/// these texts.
///
/// What is said of bytes holds for writers that tell their bytes, as those over memory do.
pub fn run_bytes<R, W, F>(
    rt: &R,
    alloc: Global,
    bytes: &[u8],
    wishes: &Wishes<'_>,
    writer: &mut W,
    faults: &mut F,
) -> u8
where
    R: AllocGlobal
        + Wait
        + Threads
        + rt::Clock
        + Files
        + RandomSource
        + FaultStreams
        + RecordFolders,
    R: Net<Listener = TcpListener, Stream = TcpStream> + Copy + Send + Sync + 'static,
    R::File: Send,
    R::Dir: Send,
    W: Write + Send,
    F: FaultStream + Send,
    ensures { RunsBytes writer.old writer.new (W.contents writer.old) (W.contents writer.new)
        (F.reported faults.old) (F.reported faults.new) bytes.now (source_of wishes.now.source)
        wishes.now.until wishes.now.follow result }
{
    let given = wishes.source.given;
    let node = match configured(rt, alloc, bytes, given, faults) {
        Ok(node) => started_at(system_time(rt), node),
        Err(status) => return status,
    };
    let keys = match keys_at(rt, alloc, &node.key_file) {
        Ok(keys) => keys,
        Err(fault) => {
            drop(node);
            return tell_no_keys(fault, faults);
        }
    };
    let Ok(prepared) = prepare(rt, alloc, bytes, wishes, &node, faults) else {
        drop(keys);
        drop(node);
        return tell(Told::Memory, faults);
    };
    let Prepared { resolved, recorder } = prepared;
    let settings = settings_of(&node, keys, wishes.follow);
    let start = NodeStart {
        loops: NodeLoops,
        config: &node.config,
        settings: &settings,
        until: end_wished(wishes.until),
        stop: wishes.stop,
        resolved: &resolved,
    };
    let ran = run_node(rt, alloc, &start, recorder, writer, faults);
    let written = write_table(alloc, &ran, wishes.follow, writer);
    let status = tell_run(alloc, &node, &ran, Told::of(&ran, written), faults);
    drop(ran);
    drop(resolved);
    drop(settings);
    drop(node);
    status
}

/// The folder of a node's recording, if its configuration names one.
fn folder_of(node: &NodeConfig) -> Option<FilePath>
    ensures { result ≡ node.now.record_folder }
{
    match &node.record_folder {
        Some(folder) => Some(folder.copy()),
        None => None,
    }
}

/// The settings of a node: what its configuration says, with these keys, and whether it follows.
fn settings_of(node: &NodeConfig, keys: Option<Keys>, follow: bool) -> Settings
    ensures { result ≡ node_settings node.now keys follow }
{
    let mut shown_seeds = ArrayVec::new();
    shown_seeds.try_extend_from_slice(&node.seeds).unwrap();
    Settings {
        bind: node.bound_at(),
        seeds: node.asked(),
        learns: !node.hosts().is_empty(),
        resolve_ms: node.resolve_ms,
        shown_seeds,
        dice: node.dice,
        pull_ms: node.pull_ms,
        stall_ms: node.stall_ms,
        follow,
        status: node.status,
        status_open: node.status_open,
        leave: node.leave,
        record_folder: folder_of(node),
        keys,
    }
}

/// What a node is started with besides its configuration: which addresses its hosts have, and what records it.
#[derive(Drop)]
struct Prepared<'n, R: RecordFolders + FaultStreams> {
    resolved: Arc<ResolvedSeeds, Global>,
    recorder: Option<DiskRecord<'n, R>>,
}

/// Makes the recorder of a node that is to be recorded, starts the thread that resolves the hosts among its seeds, if
/// there are any, and announces the node, if it is to be announced. If memory for one of these or the thread is
/// refused, nothing is reported.
fn prepare<'n, R, F>(
    rt: &'n R,
    alloc: Global,
    bytes: &'n [u8],
    wishes: &Wishes<'_>,
    node: &'n NodeConfig,
    faults: &mut F,
) -> Result<Prepared<'n, R>, AllocError>
where
    R: AllocGlobal + Wait + Threads + rt::Clock + FaultStreams + RecordFolders,
    R: Net<Listener = TcpListener, Stream = TcpStream> + Copy + Send + 'static,
    F: FaultStream,
    ensures said { OnOk result (Announces wishes.now.until wishes.now.follow (F.reported faults.old)
        (F.reported faults.new) (start_line (source_of wishes.now.source).file node.now)) }
    ensures records { IfOk result (λ p. is_some p.recorder ≡ is_some node.now.record_folder) }
    ensures refused { OnErr result (faults.new ≡ faults.old) }
{
    let recorder = recorder_of(rt, alloc, node, bytes)?;
    let resolved = resolved_seeds(rt, alloc, node)?;
    if is_announced(wishes) {
        let line = start_line(alloc, wishes.source.file, node)?;
        report(faults, line.as_str());
    }
    Ok(Prepared { resolved, recorder })
}

/// Why an address can't be bound. It is empty if memory for it was refused.
fn bind_line(alloc: Global, addr: Addr, kind: ErrorKind) -> String
    ensures { (string_bytes result ≡ []) ⊎ (string_bytes result ≡ link_reason addr kind) }
{
    match link_reason(alloc, addr, kind) {
        Ok(line) => line,
        Err(_) => String::new(alloc),
    }
}

/// The second line of a node that couldn't be bound. It is empty if there is none, or if memory for it was refused.
fn fault_line(alloc: Global, node: &NodeConfig, fault: &NodeFault) -> String
    ensures { IsSecond node.now (Err fault.now) (string_bytes result) }
{
    match (fault, node.status) {
        (NodeFault::Socket(kind), _) => bind_line(alloc, node.bound_at(), *kind),
        (NodeFault::Status(kind), Some(addr)) => bind_line(alloc, addr, *kind),
        _ => String::new(alloc),
    }
}

/// Reports what is told of a node that was run, with the second line if there is one, and gives the status.
fn tell_run<F: FaultStream>(
    alloc: Global,
    node: &NodeConfig,
    ran: &Result<NodeEnd, NodeFault>,
    told: Told,
    faults: &mut F,
) -> u8
    ensures lines { (second : List ℕ) × IsSecond node.now ran.now second
        × ReportsBoth (F.reported faults.old) (F.reported faults.new) (line_of told) second }
    ensures status { result ≡ status_told told }
{
    match ran {
        Ok(_) => tell_both(told, "", faults),
        Err(fault) => {
            let line = fault_line(alloc, node, fault);
            tell_both(told, line.as_str(), faults)
        }
    }
}

/// The records of the table that is to be written, if one is to be. A node that followed has told its members.
fn table_wished(ran: &Result<NodeEnd, NodeFault>, follow: bool) -> Option<&[Record]>
    ensures { option_map (λ records. records.now) result ≡ table_wished follow ran.now }
{
    if follow { None } else { table_of(ran) }
}

/// Writes the table of a node that was run, if one is to be written: if the node didn't follow, and came to an end that
/// has a table. The whole text is made before its first byte is written.
fn write_table<W: Write>(
    alloc: Global,
    ran: &Result<NodeEnd, NodeFault>,
    follow: bool,
    writer: &mut W,
) -> Result<(), RunFault>
    ensures { Writes writer.old writer.new (W.contents writer.old) (W.contents writer.new)
        (table_wished follow ran.now) result }
{
    let Some(records) = table_wished(ran, follow) else {
        return Ok(());
    };
    let mut text = Vec::new(alloc);
    put_table(records, &mut text)?;
    write_text(writer, &text)
}
