//! The status server of a node, in a thread beside the loops.
//!
//! Defined in: `specs/Meaning/Nodes.antt`, `specs/Meaning/Starts.antt`,
//! `lg_status_server/specs/Meaning/Served.antt`.
//! Tested in: `cases/status`.
ghost use Rattle.std.specs.Prelude.{◌≡◌, is_some, option_map, IfErr, IfOk, IfSome, Some};
ghost use Rattle.lg_timing.specs.declared.config.Config.{Config as Opened};
ghost use Rattle.lg_follow.specs.Meaning.Sights.{OnlyLooked};
ghost use Rattle.lg_http.specs.Meaning.Slots.{AreFree, slots_of};
ghost use Rattle.lg_node.specs.Meaning.Nodes.{DidServe, IsEarly, ServesIf, TellsServed};
ghost use Rattle.lg_node.specs.Meaning.Starts.{Shows, hosts_of};

use crate::node::{NodeFault, Settings};
use crate::parts::Work;
use arrayvec::ArrayVec;
use left_right::Absorb;
use lg_agent::{AgentName, Pass, Refusal};
use lg_answers::{NodeNumber, ShownConfig};
use lg_clock::{Clock, MachineClock};
use lg_detector::Event;
use lg_http::{Hosts, Server, ServerEnd, Signal};
use lg_rules::Addr;
use lg_status_server::{Served, SiteBasis, serve};
use lg_text::{FaultStream, report};
use lg_timing::Config;
use lg_turns::Shared;
use lg_view::{Published, Update};
use std::alloc::{AllocError, Global};
use std::fs::Files;
use std::rt;

/// A status server that is bound and doesn't serve yet. Only a node makes one.
#[derive(Drop)]
pub struct StatusServer<'s, 'r, R> {
    pub(crate) server: Server,
    /// It is told to stop by this, as soon as the loops have ended.
    pub(crate) signal: &'s Signal,
    /// For the deadlines of its connections.
    pub(crate) machine: MachineClock<'r, R>,
}

/// One of the numbers of the node's own.
fn own_number(key: &'static str, value: u64) -> NodeNumber
    ensures key { result.key.now ≡ key.now }
    ensures value { result.value ≡ value }
{
    NodeNumber { key, value }
}

/// The configuration that a status server shows. Allocates memory for the node's own numbers. The only error is that
/// this was refused.
fn shown_of(alloc: Global, config: &Config, settings: &Settings) -> Result<ShownConfig, AllocError>
    ensures { IfOk result (Shows config.now settings.now) }
{
    let numbers = [
        own_number("dice", settings.dice),
        own_number("pull_ms", settings.pull_ms),
        own_number("stall_ms", settings.stall_ms),
        own_number("resolve_ms", settings.resolve_ms),
    ];
    let mut seeds = ArrayVec::new();
    seeds.try_extend_from_slice(&settings.shown_seeds).unwrap();
    Ok(ShownConfig {
        config: config.copy(),
        numbers: Vec::from_array(alloc, numbers)?,
        status: settings.status,
        status_open: settings.status_open,
        leave: settings.leave,
        bind: settings.bind,
        seeds,
    })
}

/// The hosts that a status server at an address answers to.
fn hosts_of(addr: Option<Addr>) -> Hosts
    ensures { result ≡ hosts_of addr }
{
    match addr {
        Some(addr) if addr.ip.is_loopback() => Hosts::Local,
        _ => Hosts::Any,
    }
}

/// The folder of the recording of which a status server tells, if there is one.
fn folder_of(settings: &Settings) -> Option<&str>
    ensures { option_map (λ folder. folder.now) result ≡ settings.now.record_folder }
{
    match &settings.record_folder {
        Some(folder) => Some(folder.as_str()),
        None => None,
    }
}

/// A status server that is ready to serve, if one is bound. The error is the machine's clock, if it can't be read.
pub(crate) fn status_server<'s, 'r, R: rt::Clock>(
    rt: &'r R,
    signal: Option<&'s Signal>,
    server: Option<Server>,
) -> Result<Option<StatusServer<'s, 'r, R>>, NodeFault>
    requires bound { is_some signal ≡ is_some server }
    requires free { IfSome server (λ server. AreFree (slots_of server)) }
    ensures ready { IfOk result (λ status. is_some status ≡ is_some server) }
    ensures free { IfOk result (λ status. IfSome status (λ status. AreFree (slots_of status.server))) }
    ensures early { (config : Opened) → IfErr result (IsEarly config) }
{
    let Some(server) = server else {
        return Ok(None);
    };
    let Some(signal) = signal else {
        drop(server);
        return Ok(None);
    };
    match MachineClock::new(rt) {
        Ok(machine) => Ok(Some(StatusServer {
            server,
            signal,
            machine,
        })),
        Err(_) => {
            drop(server);
            Err(NodeFault::Clock)
        }
    }
}

/// By what a status server is told to stop, if there is one.
pub(crate) fn signal_of<'s, R>(status: &Option<StatusServer<'s, '_, R>>) -> Option<&'s Signal> {
    match status {
        Some(status) => Some(status.signal),
        None => None,
    }
}

/// Serves with a pass until the loops have ended, and gives it back.
fn serve_with<'p, A, R, C>(
    shared: &Shared<'_, R, C>,
    config: &Config,
    settings: &Settings,
    status: &mut StatusServer<'_, '_, R>,
    pass: Pass<'p, A>,
) -> (Pass<'p, A>, Served)
where
    A: AgentName,
    R: Files + rt::Clock + AllocGlobal + Clone + Drop,
    C: Clock,
    requires { shared.now.counters.now.name ≡ config.now.name }
    ensures looked { OnlyLooked pass.entry result.0 }
    ensures did { DidServe config.now settings.now pass.entry result.0 status.old.server status.new.server
        result.1 }
{
    let Ok(shown) = shown_of(shared.alloc, config, settings) else {
        return (pass, Served::Refused(Refusal::NoMemory));
    };
    let folder = folder_of(settings);
    let basis = SiteBasis {
        rt: shared.rt,
        alloc: shared.alloc,
        clock: shared.clock,
        counters: shared.counters,
        config: shown,
        stop: shared.stop,
        leave: settings.leave,
        folder,
    };
    let hosts = hosts_of(settings.status);
    serve(
        &mut status.server,
        status.signal,
        &status.machine,
        pass,
        basis,
        hosts,
    )
}

/// Reports how a status server ended, unless it was told to stop.
fn report_end<F: FaultStream>(served: Served, faults: &mut F)
    ensures { TellsServed (Some served) (F.reported faults.old) (F.reported faults.new) }
{
    match served {
        Served::Ended(ServerEnd::Stopped, _) => {}
        Served::Ended(ServerEnd::WaitFailed(_), _) => report(faults, served.line()),
        Served::Refused(_) => report(faults, served.line()),
    }
}

/// What a status server leaves: its pass, the stream of faults, and how it ended, if there was one.
pub type ServerLeft<'p, 'f, A, F> = (Pass<'p, A>, (&'f mut F, Option<Served>));

/// Serves with a pass until the loops have ended, if there is a status server. Otherwise it does nothing. A server that
/// ends before that by itself is reported. Gives the pass and the stream back, with how the server ended.
pub(crate) fn serve_if<'p, 'f, A, R, C, F>(
    shared: &Shared<'_, R, C>,
    config: &Config,
    settings: &Settings,
    status: Option<StatusServer<'_, '_, R>>,
    pass: Pass<'p, A>,
    faults: &'f mut F,
) -> ServerLeft<'p, 'f, A, F>
where
    A: AgentName,
    R: Files + rt::Clock + AllocGlobal + Clone + Drop,
    C: Clock,
    F: FaultStream,
    requires free { IfSome status (λ status. AreFree (slots_of status.server)) }
    requires name { shared.now.counters.now.name ≡ config.now.name }
    ensures same { result.1.0.ghost_name ≡ faults.entry.ghost_name }
    ensures served { ServesIf (is_some status.entry) config.now settings.now pass.entry result.0 result.1.1 }
    ensures told { TellsServed result.1.1 (F.reported faults.entry.now) (F.reported result.1.0.now) }
{
    let Some(status) = status else {
        return (pass, (faults, None));
    };
    let mut status = status;
    let (pass, served) = serve_with(shared, config, settings, &mut status, pass);
    report_end(served, faults);
    drop(status);
    (pass, (faults, Some(served)))
}

/// The work of a status server: with what it serves, if there is one.
#[derive(Drop)]
pub(crate) struct Serving<'x, 'a, 'n, 's, 'r, 'p, 'f, A: AgentName, R, C, F>
where
    Published<A>: Absorb<Update<A>, State = [Event; 0]>,
{
    pub(crate) shared: &'x Shared<'a, R, C>,
    pub(crate) config: &'n Config,
    pub(crate) settings: &'n Settings,
    pub(crate) server: Option<StatusServer<'s, 'r, R>>,
    pub(crate) pass: Pass<'p, A>,
    pub(crate) faults: &'f mut F,
}

impl<'x, 'a, 'n, 's, 'r, 'p, 'f, A, R, C, F> Work<ServerLeft<'p, 'f, A, F>>
    for Serving<'x, 'a, 'n, 's, 'r, 'p, 'f, A, R, C, F>
where
    A: AgentName,
    R: Files + rt::Clock + AllocGlobal + Clone + Drop,
    C: Clock,
    F: FaultStream,
{
    ghost needs = { λ w. IfSome w.server (λ server. AreFree (slots_of server.server))
        × (w.shared.now.counters.now.name ≡ w.config.now.name) };

    ghost gives = { λ w r. (r.1.0.ghost_name ≡ w.faults.ghost_name)
        × ServesIf (is_some w.server) w.config.now w.settings.now w.pass r.0 r.1.1
        × TellsServed r.1.1 (F.reported w.faults.now) (F.reported r.1.0.now) };

    fn is_wanted(&self) -> bool {
        self.server.is_some()
    }

    fn work(self) -> ServerLeft<'p, 'f, A, F> {
        serve_if(
            self.shared,
            self.config,
            self.settings,
            self.server,
            self.pass,
            self.faults,
        )
    }
}
