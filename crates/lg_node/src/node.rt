//! A node: an agent whose two loops run over UDP. `start.rt` has what it does, in order.
//!
//! Defined in: `specs/Meaning/Nodes.antt`.
//! Tested in: `lg_node_tests/src/node/asking.rt`, `cases/nodes`.
ghost use Rattle.std.specs.Prelude.{◌≡◌, false, is_some, IfOk, IfErr, OnErr};
ghost use Rattle.lg_timing.specs.Meaning.Config.{IsChecked};
ghost use Rattle.lg_node.specs.Meaning.Nodes.{IsRun, IsEarly, TellsServed};

use crate::serving::status_server;
use crate::sockets::Sockets;
use crate::start::{Setup, open_and_serve};
use arrayvec::ArrayVec;
use lg_agent::{CloseFault, Closed, Refusal};
use lg_answers::SeedPlace;
use lg_config::FilePath;
use lg_follow::Watched;
use lg_rules::{Addr, Record};
use lg_seal::Keys;
use lg_status_server::Served;
use lg_text::FaultStream;
use lg_timing::{Config, MAX_SEEDS, Moment};
use lg_turns::{LoopEnd, NodeRecorder, ReceivingLoop, ResolvedSeeds, SeedAsker, TickingLoop};
use lg_view::UnnamedBook;
use std::alloc::Global;
use std::fs::Files;
use std::io::{ErrorKind, Write};
use std::marker::Brand;
use std::net::Net;
use std::random::RandomSource;
use std::rt;
use std::sync::Wait;
use std::sync::atomic::AtomicBool;
use std::thread::Threads;
use thiserror::Error;

/// What a node is told besides its configuration.
#[derive(Debug, Drop)]
pub struct Settings {
    /// Where its socket for datagrams is bound. Others are told the address of the configuration.
    pub bind: Addr,
    /// The addresses of its seeds: those that it asks for their tables, in this order.
    pub seeds: ArrayVec<Addr, MAX_SEEDS>,
    /// Whether hosts are among its seeds too. Then its ticking loop learns which addresses they have.
    pub learns: bool,
    /// How long it is from one resolving of these hosts to the next, in milliseconds. It is only shown: the node learns
    /// what it is told ([`NodeStart::resolved`]).
    pub resolve_ms: u64,
    /// The seeds that its status server shows, with their names and in this order. The node asks those of `seeds`.
    pub shown_seeds: ArrayVec<SeedPlace, MAX_SEEDS>,
    /// The number that seeds its random words.
    pub dice: u64,
    /// How long it is from one Pull for a member that random words choose to the next, in milliseconds. With 0 there is
    /// none.
    pub pull_ms: u64,
    /// The stall of the node's clock, in milliseconds: the most by which it passes the older of the loops' last turns.
    /// A stall below 25 is taken as 25. With 0 the clock is the machine's.
    pub stall_ms: u64,
    /// Whether the node is followed: a watcher tells on a writer what it learns.
    pub follow: bool,
    /// Where its status server listens, if it has one.
    pub status: Option<Addr>,
    /// Whether that may be an address that isn't loopback. It is only shown: the node listens where it is told to.
    pub status_open: bool,
    /// Whether a request over HTTP may end it ([`serve`](lg_status_server::serve)).
    pub leave: bool,
    /// The folder of its recording, if it has a recorder: its status server tells what the newest files there have of a
    /// member.
    pub record_folder: Option<FilePath>,
    /// The keys of its group, if the group has any. The node then sends and takes only sealed datagrams
    /// ([`KeyedLink`](crate::KeyedLink)), and counts those that it drops for the status server.
    pub keys: Option<Keys>,
}

/// What a node is started with.
#[derive(Clone, Copy)]
pub struct NodeStart<'n, O> {
    /// Which loops it has: those of `lg_loops`.
    pub loops: O,
    /// Its configuration.
    pub config: &'n Config,
    /// What it is told besides.
    pub settings: &'n Settings,
    /// The moment at which its ticking loop ends, in milliseconds from its start.
    pub until: Moment,
    /// The flag that stops it earlier.
    pub stop: &'n AtomicBool,
    /// Which addresses the hosts among its seeds are found to have, while it runs.
    pub resolved: &'n ResolvedSeeds,
}

/// How a node ended whose loops had begun.
#[derive(Drop)]
pub struct NodeEnd {
    /// How the receiving loop ended.
    pub received: LoopEnd,
    /// How the ticking loop ended. The packets to the seeds that weren't sent count among its own.
    pub ticked: LoopEnd,
    /// The records of the members, this one's included, in the order of their names, as both loops left them. Refused
    /// as [`Pass::members`](lg_agent::Pass::members) is.
    pub members: Result<Vec<Record>, Refusal>,
    /// How the watcher ended, if the node was followed.
    pub watched: Option<Watched>,
    /// How the status server ended, if there was one.
    pub served: Option<Served>,
    /// The history, from the last rotation on if there was one, or why the agent wasn't closed.
    pub closed: Result<Closed, CloseFault>,
    /// How many milliseconds the clock of the node has left out, since one of the loops began no turn.
    pub stood_still: u64,
}

/// Why a node ended before its loops.
#[derive(Clone, Copy, Debug, PartialEq, Eq, Error)]
pub enum NodeFault {
    /// The socket couldn't be bound to its address. This is the kind of the error.
    #[error("the socket can't be bound to its address")]
    Socket(ErrorKind),
    /// The status server couldn't be bound to its address, or watched. This is the kind of the error.
    #[error("the status server can't be bound to its address")]
    Status(ErrorKind),
    /// The machine's clock couldn't be read.
    #[error("the machine's clock can't be read")]
    Clock,
    /// The opening, the handing out of the passes, or the call that asks a seed was refused.
    #[error(transparent)]
    Refused(Refusal),
}

/// Runs a node over UDP until a moment, in milliseconds from its start, until somebody sets the stop flag, or until one
/// of its loops ends before that.
///
/// It binds a socket to the address of the settings, opens an agent with five passes, and asks each seed for its table,
/// in order. Then it runs [`join_threads`](crate::join_threads) with the steady clock
/// ([`SteadyClock`](lg_clock::SteadyClock)), the words of [`PcgDice`](crate::PcgDice), and loops that are endless. So
/// the ticking loop asks the seeds until a Page is heard, and again while it is alone. It asks a seed and a member in
/// turn, soon at first and then every `pull_ms`. If hosts are among the seeds, it asks the addresses that they are
/// found to have ([`ResolvedSeeds`]), as soon as it is told them, and never waits for whoever finds them. At the end
/// the members are read, and the agent is closed. A node that hears of no member goes on alone.
///
/// If the configuration's `wire` is 3, this member leaves its group when the ticking loop is told to stop, or its end
/// time comes (this project's choice): it tells at most eight members at once, and [`NodeEnd::members`] has its own
/// record as left. Both loops go on for one interval then. The loop is told to stop by the stop flag, which the
/// receiving loop sets too if it ends by itself. A node with another `wire` tells nobody that it ends: versions 1 and 2
/// can't spell it.
///
/// If the node is followed, the pass that has asked the seeds watches beside the loops ([`lg_follow::watch`]), in a
/// thread of its own, and [`NodeEnd::watched`] says how that ended. A writer that fails ends the watcher alone. If the
/// node isn't followed, or there are no loops, the writer stays as it is.
///
/// If the settings have an address for a status server, it is bound before the agent is opened. It serves beside the
/// loops ([`lg_status_server::serve`]), in a thread of its own and with a pass of its own, until the loops have ended,
/// and [`NodeEnd::served`] says how that ended. A server that fails ends nothing else. It is told on `faults` when it
/// fails, before the node ends, by [`Served::line`](lg_status_server::Served::line). Nothing else is written there.
///
/// If there is a recorder, it records beside the loops ([`NodeRecorder::record`]), in a thread of its own and with a
/// pass of its own. It is told when both have ended, and records what is left then. If no thread can be started for it,
/// it begins when they have ended.
///
/// A turn of the receiving loop waits a tenth of the configuration's `timeout_ms` at most, but at least 5 and at most
/// 50 milliseconds, and at most half of the clock's stall. The ticking loop pauses until there is something to do, for
/// a second at most; a nearer deadline and the stop flag end its pause.
///
/// A full history ends nothing, whether a seed is asked or a loop runs: it is rotated, and the node goes on with a
/// summary in place of its entries. So it never has more than the configuration's `history_limit`. What ends a loop
/// is described at [`receive_loop`](crate::receive_loop) and [`tick_loop`](crate::tick_loop). If one ends, so does the
/// other.
///
/// The configuration has to be checked. The error says why there were no loops: [`NodeFault::Socket`],
/// [`NodeFault::Status`], [`NodeFault::Clock`], or [`NodeFault::Refused`] if memory was refused or there was no reader
/// for a pass. If a seed's call was refused, it may also be [`Refusal::HistoryFull`] or [`Refusal::Behind`], but
/// neither should ever happen.
pub fn run_node<O, R, K, W, F>(
    rt: &R,
    alloc: Global,
    start: &NodeStart<'_, O>,
    recorder: Option<K>,
    writer: &mut W,
    faults: &mut F,
) -> Result<NodeEnd, NodeFault>
where
    O: SeedAsker + TickingLoop + ReceivingLoop + Copy + Send,
    R: Wait + Threads + Net + Files + rt::Clock + RandomSource + AllocGlobal + Clone + Sync + Drop,
    R::File: Send,
    R::Dir: Send,
    K: NodeRecorder + Send + Drop,
    W: Write + Send,
    F: FaultStream + Send,
    requires { IsChecked start.now.config.now }
    ensures ran { IfOk result (IsRun start.now.config.now start.now.settings.now start.now.until
        (W.contents writer.old) (W.contents writer.new) (is_some recorder)) }
    ensures refused { IfErr result (IsEarly start.now.config.now) }
    ensures alone { start.now.settings.now.follow ≡ false → writer.new ≡ writer.old }
    ensures unwritten { OnErr result (writer.new ≡ writer.old) }
    ensures told { IfOk result (λ e. TellsServed e.served (F.reported faults.old) (F.reported faults.new)) }
    ensures untold { OnErr result (faults.new ≡ faults.old) }
{
    let sockets = match Sockets::bind(rt, alloc, start.settings) {
        Ok(sockets) => sockets,
        Err(fault) => {
            drop(recorder);
            return Err(fault);
        }
    };
    let Sockets {
        socket,
        server,
        signal,
    } = sockets;
    let setup = Setup {
        loops: start.loops,
        alloc,
        config: start.config,
        settings: start.settings,
        until: start.until,
        stop: start.stop,
        resolved: start.resolved,
        socket: &socket,
        signal: signal.as_ref(),
    };
    let status = match status_server(rt, setup.signal, server) {
        Ok(status) => status,
        Err(fault) => {
            drop(recorder);
            return Err(fault);
        }
    };
    let book = UnnamedBook::new();
    open_and_serve::<Brand, O, R, K, W, F>(rt, book, &setup, status, recorder, writer, faults)
}
