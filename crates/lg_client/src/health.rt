//! Reads the health of an answer.
//!
//! Defined in: `specs/Meaning/Health.antt`.
//! Tested in: `lg_client_tests/src/asking.rt`, `lg_client_tests/src/damaged.rt`, `lg_client_tests/src/edits.rt`.
ghost use Rattle.std.specs.Prelude.{◌≡◌};
ghost use Rattle.serde_json.specs.View.{view};
ghost use Rattle.lg_client.specs.Meaning.Health.{health_said};

use crate::fields::{name_at, natural_at, truth_at};
use crate::members::incarnation_in;
use lg_rules::{Incarnation, Name};
use serde_json::Value;

/// The health of a node, as it says it.
#[derive(Clone, Copy, Debug)]
pub(crate) struct Health {
    /// Its name.
    pub(crate) name: Name,
    /// Its health score.
    pub(crate) score: u64,
    /// Its incarnation.
    pub(crate) incarnation: Incarnation,
    /// How many members are live.
    pub(crate) live: u64,
    /// How many it knows.
    pub(crate) known: u64,
    /// It was ousted.
    pub(crate) ousted: bool,
    /// How long it runs, in milliseconds.
    pub(crate) uptime_ms: u64,
    /// How long it stood still meanwhile, in milliseconds.
    pub(crate) stood_still_ms: u64,
}

/// The health that an answer says, if all its fields are what is documented. Allocates no memory.
#[tactic(auto, unfolding(crate::specs::Meaning::Health::health_said))]
pub(crate) fn health_in(answer: &Value) -> Option<Health>
    ensures { result ≡ health_said (view answer.now) }
{
    let name = name_at(answer, "name")?;
    let score = natural_at(answer, "score")?;
    let incarnation = incarnation_in(answer)?;
    let live = natural_at(answer, "live")?;
    let known = natural_at(answer, "known")?;
    let ousted = truth_at(answer, "ousted")?;
    let uptime_ms = natural_at(answer, "uptime_ms")?;
    let stood_still_ms = natural_at(answer, "stood_still_ms")?;
    Some(Health {
        name,
        score,
        incarnation,
        live,
        known,
        ousted,
        uptime_ms,
        stood_still_ms,
    })
}
