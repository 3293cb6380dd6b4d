//! What a node does before its threads: it hands out the passes of its agent, makes its links, and asks its seeds.
//!
//! Defined in: `specs/Support/Begun.antt`, `specs/Meaning/Nodes.antt`, `lg_turns/specs/Meaning/NodeLinks.antt`.
//! Tested in: `lg_node_tests/src/node/asking.rt`, `cases/nodes`.
ghost use Rattle.std.specs.Prelude.{◌≡◌, ◌∷◌, [], ℕ, All, IfErr, IfOk, IfSome, length};
ghost use Rattle.lg_timing.specs.declared.config.Config.{Config as Opened};
ghost use Rattle.lg_detector.specs.declared.event.Event.TheVariants.{Open};
ghost use Rattle.lg_node.specs.Meaning.Nodes.{fresh_own, IsRefusedEarly};
ghost use Rattle.lg_node.specs.Support.Begun.{HasBegun};
ghost use Rattle.lg_turns.specs.Meaning.NodeLinks.{failures_of, link_keys};
ghost use Rattle.lg_turns.specs.Meaning.Pulling.{plan_of};
ghost use Rattle.lg_turns.specs.Meaning.Turns.{line};
ghost use Rattle.lg_turns.specs.Meaning.Words.{seeded};

use crate::serving::StatusServer;
use crate::start::{PLACES, Setup};
use crate::threads::{ServerSide, Sides};
use left_right::Absorb;
use lg_agent::{Agent, AgentName, Pass, Refusal};
use lg_clock::Clock;
use lg_counters::Counters;
use lg_detector::Event;
use lg_turns::{NodeLink, PcgDice, Plan, SeedAsker, Shared, Side, UdpLink};
use lg_view::{Published, Update};
use std::alloc::Global;
use std::sync::Wait;

/// What the threads of a node begin with, and how many packets weren't sent to the seeds.
#[derive(Drop)]
pub(crate) struct Ready<'p, 'n, 's, 'c, 'r, A: AgentName, O, R>
where
    Published<A>: Absorb<Update<A>, State = [Event; 0]>,
{
    pub(crate) sides: Sides<'p, 'p, NodeLink<'s, 'c>, A, O>,
    /// The pass that has asked the seeds.
    pub(crate) asker: Pass<'p, A>,
    pub(crate) server: ServerSide<'p, 'n, 's, 'r, A, R>,
    /// The recorder's pass.
    pub(crate) recorder: Pass<'p, A>,
    pub(crate) unsent: u64,
}

/// Hands out the passes of a fresh agent, makes the links of a node, and asks the seeds.
pub(crate) fn begin<'p, 'n, 's, 'c, 'r, A, O, R, C>(
    shared: &Shared<'c, R, C>,
    agent: &'p mut Agent<A>,
    setup: &Setup<'n, 's, O>,
    server: Option<StatusServer<'s, 'r, R>>,
) -> Result<Ready<'p, 'n, 's, 'c, 'r, A, O, R>, Refusal>
where
    A: AgentName,
    O: SeedAsker + Copy,
    R: Wait,
    C: Clock,
    requires places { length agent.old.told ≡ PLACES }
    ensures begun { (start : ℕ) → agent.old.name ≡ setup.now.config.now.name
        → All (λ seen. seen ≡ Open start setup.now.config.now ∷ []) agent.old.told
        → IfOk result (λ r. HasBegun setup.now.config.now setup.now.settings.now start
        (line [] (failures_of r.sides.receiver.link)) (line [] (failures_of r.sides.ticker.link))
        r.sides.receiver.pass r.sides.ticker.pass r.asker r.server.pass r.recorder r.unsent) }
    ensures plan { IfOk result (λ r. r.sides.plan
        ≡ plan_of setup.now.config.now setup.now.settings.now.seeds.items setup.now.settings.now.learns
        setup.now.settings.now.pull_ms setup.now.until) }
    ensures dice { IfOk result (λ r. r.sides.dice ≡ seeded setup.now.settings.now.dice) }
    ensures told { IfOk result (λ r. (r.server.config.now ≡ setup.now.config.now)
        × (r.server.settings.now ≡ setup.now.settings.now) × (r.server.server ≡ server.entry)) }
    ensures refused { (start : ℕ) → agent.old.name ≡ setup.now.config.now.name
        → All (λ seen. seen ≡ Open start setup.now.config.now ∷ []) agent.old.told
        → IfErr result (IsRefusedEarly setup.now.config.now) }
{
    let Some(mut passes) = passes_of(shared.alloc, agent) else {
        drop(server);
        return Err(Refusal::NoMemory);
    };
    let mut sends = link_of(shared.counters, setup);
    let unsent = match O::ask_each(shared, &mut passes.asker, &mut sends, &setup.settings.seeds) {
        Ok(unsent) => unsent,
        Err(refusal) => {
            drop(server);
            drop(sends);
            drop(passes);
            return Err(refusal);
        }
    };
    let Passes {
        receiver,
        ticker,
        asker,
        status,
        recorder,
    } = passes;
    let sides = Sides::of(
        setup.loops,
        Side::new(receiver, link_of(shared.counters, setup)),
        Side::new(ticker, sends),
        PcgDice::new(setup.settings.dice),
        Plan::new(
            setup.config,
            &setup.settings.seeds,
            setup.settings.learns,
            setup.settings.pull_ms,
            setup.until,
        ),
    );
    let server = ServerSide {
        config: setup.config,
        settings: setup.settings,
        pass: status,
        server,
    };
    Ok(Ready {
        sides,
        asker,
        server,
        recorder,
        unsent,
    })
}

/// A link over the socket of a node, with its keys if it has any. It hasn't failed yet.
fn link_of<'n, 's, 'c, O>(counters: &'c Counters, setup: &Setup<'n, 's, O>) -> NodeLink<'s, 'c>
    ensures keys { link_keys result ≡ setup.now.settings.now.keys }
    ensures unfailed { failures_of result ≡ 0 }
{
    NodeLink::new(
        UdpLink::new(setup.socket, setup.settings.bind),
        setup.settings.keys.as_ref(),
        counters,
    )
}

/// The five passes of a node.
#[derive(Drop)]
struct Passes<'a, A: AgentName> {
    receiver: Pass<'a, A>,
    ticker: Pass<'a, A>,
    /// It asks the seeds, watches, and reads the members.
    asker: Pass<'a, A>,
    /// It looks for the status server.
    status: Pass<'a, A>,
    /// It rotates for the recorder.
    recorder: Pass<'a, A>,
}

/// The passes of a fresh agent, or none if memory was refused.
fn passes_of<'a, A: AgentName>(alloc: Global, agent: &'a mut Agent<A>) -> Option<Passes<'a, A>>
    requires { length agent.old.told ≡ PLACES }
    ensures { (config : Opened) → (start : ℕ) → agent.old.name ≡ config.name
        → All (λ seen. seen ≡ Open start config ∷ []) agent.old.told
        → IfSome result (λ passes. (passes.receiver ≡ fresh_own config start 1)
        × (passes.ticker ≡ fresh_own config start 2) × (passes.asker ≡ fresh_own config start 3)
        × (passes.status ≡ fresh_own config start 4) × (passes.recorder ≡ fresh_own config start 5)) }
{
    let Ok(passes) = agent.passes(alloc) else {
        return None;
    };
    let mut passes = passes;
    let recorder = passes.pop();
    let status = passes.pop();
    let asker = passes.pop();
    let ticker = passes.pop();
    let receiver = passes.pop();
    drop(passes);
    match (receiver, ticker, asker, status, recorder) {
        (Some(receiver), Some(ticker), Some(asker), Some(status), Some(recorder)) => Some(Passes {
            receiver,
            ticker,
            asker,
            status,
            recorder,
        }),
        (receiver, ticker, asker, status, recorder) => {
            drop(receiver);
            drop(ticker);
            drop(asker);
            drop(status);
            drop(recorder);
            None
        }
    }
}
