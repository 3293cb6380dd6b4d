//! For how long the clock of the node stood still in the last minute.
//!
//! Defined in: `specs/Meaning/Standstills.antt`, `specs/Support/Standstills.antt`.
//! Tested in: `lg_explain_tests/src/explaining.rt`.
ghost use Rattle.std.specs.Prelude.{◌≡◌, ◌∷◌, ◌≤◌, ◌+◌, ℕ, List, OnOk, filter, nat_lt};
ghost use Rattle.lg_explain.specs.Meaning.Rounds.{recent_ms};
ghost use Rattle.lg_explain.specs.Meaning.Standstills.{recent_stood, stood_at, stood_in_minute};
ghost use Rattle.lg_explain.specs.Support.Standstills.{KeepsStood};
ghost use Rattle.lg_explain.specs.declared.standstills.StoodStill.{StoodStill as Stood};

use crate::rounds::RECENT_MS;
use lg_detector::NoMemory;
use lg_timing::Moment;

/// What an entry says of how long the clock stood still.
#[derive(Clone, Copy, Debug)]
pub(crate) struct StoodStill {
    /// The greatest moment that was handed in so far.
    pub(crate) moment: Moment,
    /// For how many milliseconds the clock stood still since the entries that were taken before it.
    pub(crate) milliseconds: u64,
}

/// Whether what an entry says is less than a minute before a moment.
fn is_recent(now: Moment, stood: &StoodStill) -> bool
    ensures { result ≡ nat_lt now (stood.now.moment + recent_ms) }
{
    now.milliseconds() < stood.moment.milliseconds() + RECENT_MS
}

/// So many milliseconds, if that was less than a minute before a moment.
fn recent_stood(now: Moment, stood: &StoodStill) -> u64
    ensures { result ≡ recent_stood now stood.now }
{
    if is_recent(now, stood) {
        stood.milliseconds
    } else {
        0
    }
}

/// In all so many, or [`u64::MAX`] if they are more.
fn total_stood(now: Moment, all: &[StoodStill]) -> u64
    ensures { result ≡ stood_in_minute now all.now }
{
    let mut total: u64 = 0;
    for stood in all {
        total = total.saturating_add(recent_stood(now, stood));
    }
    total
}

/// For how long the clock stood still less than a minute before an entry at this moment, by what that entry says and by
/// those before it.
pub(crate) fn stood_in_minute(now: Moment, milliseconds: u64, before: &[StoodStill]) -> u64
    ensures { result ≡ stood_in_minute now (stood_at now milliseconds ∷ before.now) }
{
    total_stood(now, before).saturating_add(milliseconds)
}

/// Drops what isn't less than a minute before a moment.
fn drop_earlier(all: &mut Vec<StoodStill>, now: Moment)
    ensures { all.new.items ≡ filter (λ (stood : Stood). nat_lt now (stood.moment + recent_ms)) all.old.items }
{
    all.retain(|stood| is_recent(now, stood));
}

/// Adds what an entry says, by the greatest moment so far. What can't count any more is dropped then.
pub(crate) fn add_stood(
    all: &mut Vec<StoodStill>,
    now: Moment,
    milliseconds: u64,
) -> Result<(), NoMemory>
    ensures { OnOk result ((before : ℕ) (every : List Stood) → before ≤ now → KeepsStood all.old.items before every
        → KeepsStood all.new.items now (stood_at now milliseconds ∷ every)) }
{
    if milliseconds == 0 {
        return Ok(());
    }
    drop_earlier(all, now);
    all.push(StoodStill {
        moment: now,
        milliseconds,
    })?;
    Ok(())
}
