//! What a node is asked for besides its configuration.
//!
//! Defined in: `specs/Meaning/Wishes.antt`.
//! Tested in: `cases/node.case`, `lg_command_tests/src/launch/ends.rt`, `starts.rt`.
ghost use Rattle.std.specs.Prelude.{◌≡◌};
ghost use Rattle.lg_run.specs.Meaning.Wishes.{end_wished, is_announced};

use lg_config::Source;
use lg_timing::{MAX_MOMENT, Moment};
use std::sync::atomic::AtomicBool;

/// What a node is asked for: where its configuration comes from, how long it runs and what it tells. And what stops it
/// (this project's choice).
#[derive(Clone, Copy, Debug)]
pub struct Wishes<'a> {
    /// Where its configuration comes from: the path of its file, as lines name it, and options. The bytes of the file
    /// are handed over apart.
    pub source: Source<'a>,
    /// The moment at which it ends, in milliseconds from its start. If there is none, time doesn't end it.
    pub until: Option<Moment>,
    /// Whether each change of a record is written as it happens. Then the members aren't written at the end.
    pub follow: bool,
    /// The flag that stops it earlier.
    pub stop: &'a AtomicBool,
}

/// The moment at which time ends a node.
pub(crate) fn end_wished(until: Option<Moment>) -> Moment
    ensures { result ≡ end_wished until }
{
    match until {
        Some(until) => until,
        None => Moment::new(MAX_MOMENT).unwrap(),
    }
}

/// Whether a node is announced before it starts: if it follows, or time doesn't end it.
pub(crate) fn is_announced(wishes: &Wishes<'_>) -> bool
    ensures { result ≡ is_announced wishes.now.until wishes.now.follow }
{
    wishes.follow || wishes.until.is_none()
}
