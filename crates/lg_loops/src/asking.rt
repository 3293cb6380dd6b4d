//! The seeds are asked for their tables.
//!
//! Defined in: `specs/Meaning/Asking.antt`, `specs/Meaning/Turns.antt`.
//! Tested in: `lg_node_tests/src/node/asking.rt`.
ghost use Rattle.std.specs.Prelude.{◌≤◌, ◌*◌, length, IfOk, IfErr};
ghost use mathlib.Core.List.{IsPrefix};
ghost use Rattle.lg_agent.specs.Meaning.Values.{PassValue};
ghost use Rattle.lg_agent.specs.Meaning.Calls.{IsRefusal};
ghost use Rattle.lg_turns.specs.Meaning.Turns.{line};
ghost use Rattle.lg_turns.specs.Meaning.Asking.{Asked};

use crate::turned::Turned;
use crate::{NodeLoops, calling};
use lg_agent::{AgentName, Pass, Refusal};
use lg_clock::Clock;
use lg_detector::Reply;
use lg_rules::Addr;
use lg_timing::MAX_SEEDS;
use lg_turns::{Link, SeedAsker, Shared};
use std::sync::Wait;

impl SeedAsker for NodeLoops {
    fn ask_each<A: AgentName, R: Wait, L: Link, C: Clock>(
        shared: &Shared<'_, R, C>,
        pass: &mut Pass<'_, A>,
        link: &mut L,
        seeds: &[Addr],
    ) -> Result<u64, Refusal> {
        let mut unsent = 0;
        let mut reply = Reply::default();
        for seed in seeds {
            let now = shared.clock.now();
            calling::pull(shared, pass, now, *seed, &mut reply)?;
            unsent += Turned::of(shared, link, now, &reply).unsent;
        }
        Ok(unsent)
    }
}
