//! How many rounds of the node ended in the last minute.
//!
//! Defined in: `specs/Meaning/Rounds.antt`, `specs/Support/Ends.antt`.
//! Tested in: `lg_explain_tests/src/explaining.rt`.
ghost use Rattle.std.specs.Prelude.{◌≡◌, ◌++◌, ◌≤◌, ℕ, List, OnOk, count_by, filter};
ghost use Rattle.lg_explain.specs.Meaning.Rounds.{end_of_round, is_recent, is_recent_suspecting, recent_rounds};
ghost use Rattle.lg_explain.specs.Support.Ends.{KeepsEnds};
ghost use Rattle.lg_explain.specs.declared.rounds.RoundEnd.{RoundEnd as Ended};

use lg_detector::{NoMemory, Reply};
use lg_notes::{ends_round, suspects_some};
use lg_timing::Moment;

/// The span before an entry in which ends of rounds are counted: a minute, in milliseconds.
pub(crate) const RECENT_MS: u64 = 60_000;

/// The rounds of the node that ended in the minute before an entry.
#[derive(Clone, Copy, Debug)]
pub(crate) struct RecentRounds {
    /// How many ended.
    pub(crate) ended: u64,
    /// How many of these ended with a suspicion of some member.
    pub(crate) suspected: u64,
}

/// The end of a round of the node.
#[derive(Clone, Copy, Debug)]
pub(crate) struct RoundEnd {
    /// The greatest moment that was handed in so far.
    pub(crate) moment: Moment,
    /// Whether some member became suspected then.
    pub(crate) is_suspecting: bool,
}

/// Whether the end of a round is less than a minute before a moment.
fn is_recent(now: Moment, end: &RoundEnd) -> bool
    ensures { result ≡ is_recent now end.now }
{
    now.milliseconds() < end.moment.milliseconds() + RECENT_MS
}

/// Whether the end of a round is less than a minute before a moment, and was with a suspicion.
fn is_recent_suspecting(now: Moment, end: &RoundEnd) -> bool
    ensures { result ≡ is_recent_suspecting now end.now }
{
    is_recent(now, end) && end.is_suspecting
}

/// How many of these rounds ended less than a minute before a moment.
fn ended(now: Moment, ends: &[RoundEnd]) -> usize
    ensures { result ≡ count_by (is_recent now) ends.now }
{
    ends.iter().filter(|end| is_recent(now, end)).count()
}

/// How many of them ended with a suspicion.
fn suspected(now: Moment, ends: &[RoundEnd]) -> usize
    ensures { result ≡ count_by (is_recent_suspecting now) ends.now }
{
    ends.iter()
        .filter(|end| is_recent_suspecting(now, end))
        .count()
}

/// How many of these rounds ended less than a minute before a moment, and how many of them with a suspicion.
pub(crate) fn recent_rounds(now: Moment, ends: &[RoundEnd]) -> RecentRounds
    ensures { result ≡ recent_rounds now ends.now }
{
    RecentRounds {
        ended: ended(now, ends) as u64,
        suspected: suspected(now, ends) as u64,
    }
}

/// Drops the ends of rounds that aren't less than a minute before a moment.
fn drop_earlier(ends: &mut Vec<RoundEnd>, now: Moment)
    ensures { ends.new.items ≡ filter (is_recent now) ends.old.items }
{
    ends.retain(|end| is_recent(now, end));
}

/// Adds the end of a round, if a reply has one, by the greatest moment so far. Those that can't count any more are
/// dropped then.
pub(crate) fn add_end(ends: &mut Vec<RoundEnd>, now: Moment, reply: &Reply) -> Result<(), NoMemory>
    ensures { OnOk result ((before : ℕ) (all : List Ended) → before ≤ now → KeepsEnds ends.old.items before all
        → KeepsEnds ends.new.items now (end_of_round now reply.now ++ all)) }
{
    if !ends_round(reply) {
        return Ok(());
    }
    drop_earlier(ends, now);
    ends.push(RoundEnd {
        moment: now,
        is_suspecting: suspects_some(reply),
    })?;
    Ok(())
}
