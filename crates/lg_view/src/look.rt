//! A reader of a published pair, and what it has seen.
//!
//! Defined in: `lg_detector/specs/Meaning/Step.antt`, `specs/Meaning/Views.antt`, `specs/Meaning/Changes.antt`.
//! Tested in: `lg_agent_tests/src/view/looks.rt`.
ghost use Rattle.std.specs.Prelude.{◌≡◌, length, true, Some, MatchResult};
ghost use Rattle.lg_rules.specs.Meaning.Claim.{name_of};
ghost use Rattle.lg_rules.specs.Meaning.Rows.{name_cmp, row_at};
ghost use Rattle.lg_detector.specs.Meaning.Step.{view_after, deadline_after, is_accepted};
ghost use Rattle.lg_view.specs.Meaning.Views.{begins_open, IsOverview};
ghost use mathlib.Core.List.{IsPrefix};

use self::reading::{
    OverviewBasis, read_deadline, read_front, read_overview, read_status, read_table,
};
use crate::book::PairName;
use crate::front::Front;
use crate::overview::Overview;
use crate::published::Published;
use core::mem::replace_with;
use crossbeam_utils::rule::Unruled;
use left_right::reader::Reader;
use lg_detector::MAX_MEMBERS;
use lg_rules::{Name, Record};
use std::alloc::Global;
use std::marker::Model;
use thiserror::Error;

mod reading;

/// The reader of `left_right`, over the published value.
pub(crate) type LookReader<P> = Reader<Published<P>, (), Unruled>;

/// The published value wasn't handed out, since the feed was ended; or it is after fewer events than the reader has
/// seen. A look takes what was published last, so the second should never happen. But no contract of `left_right`
/// says so.
#[derive(Clone, Copy, Debug, PartialEq, Eq, Error)]
#[error("the published members weren't handed out")]
pub struct NoView;

/// Why a look has no members to give.
#[derive(Clone, Copy, Debug, PartialEq, Eq, Error)]
pub enum MembersFault {
    /// As [`NoView`].
    #[error("{view}", view = NoView)]
    NoView,
    /// Memory was refused.
    #[error("memory was refused")]
    NoMemory,
}

/// A reader of a published pair. A contract sees it as the list of the events that it has seen.
///
/// A look waits for nobody, and keeps nothing open: each call enters the published value, takes its answer and
/// leaves. An answer is that of a list of events that begins with all that was seen before, and this list is then
/// what was seen. After an error, what was seen is as it was.
#[derive(Drop)]
pub struct Look<P: PairName> {
    reader: LookReader<P>,
    pub(crate) seen: Front<P>,
}

impl<P: PairName> Model for Look<P> {
    ghost use Rattle.std.specs.Prelude.{List};
    ghost use Rattle.lg_detector.specs.declared.event.Event.{Event};

    ghost Value = { List Event };

    ghost view = { λ l. l.seen };
}

impl<P: PairName> Look<P> {
    /// A look that has seen a front.
    pub(crate) fn over(reader: LookReader<P>, seen: Front<P>) -> Look<P>
        ensures { result ≡ seen }
    {
        Look { reader, seen }
    }

    /// How many events it has seen, at most 4,000,000,000.
    pub fn seen(&self) -> u64
        ensures length { result ≡ length self.now }
        ensures accepted { is_accepted self.now ≡ true }
    {
        self.seen.len()
    }

    /// The record of a name, this member's included, if it is known. Allocates nothing. The only error is [`NoView`].
    pub fn status_of(&mut self, name: &Name) -> Result<Option<Record>, NoView>
        ensures { MatchResult result
            (λ known. (known ≡ row_at name_cmp name_of name.now (view_after self.new)) × IsPrefix self.old self.new)
            (λ _. self.new ≡ self.old) }
    {
        // A guard of a `match` can't lend the front beside an option, so this is an `if`.
        let Some((record, front)) = replace_with(&mut self.reader, *name, read_status) else {
            return Err(NoView);
        };
        if self.seen.advance_to(&front) {
            Ok(record)
        } else {
            Err(NoView)
        }
    }

    /// The least deadline of the timers that are set, in milliseconds. What was seen has to begin with the opening,
    /// since a timer is always set from then on. Allocates nothing. The only error is [`NoView`].
    #[tactic(auto, using(crate::proofs::DeadlineLaws::known_deadline))]
    pub fn next_deadline(&mut self) -> Result<u64, NoView>
        requires { begins_open self.old ≡ true }
        ensures { MatchResult result
            (λ deadline. (deadline_after self.new ≡ Some deadline) × IsPrefix self.old self.new)
            (λ _. self.new ≡ self.old) }
    {
        match replace_with(&mut self.reader, (), read_deadline) {
            Some((deadline, front)) if self.seen.advance_to(&front) => Ok(deadline),
            _ => Err(NoView),
        }
    }

    /// How many events the published value is after. Allocates nothing. The only error is [`NoView`].
    pub fn version(&mut self) -> Result<u64, NoView>
        ensures { MatchResult result (λ version. (version ≡ length self.new) × IsPrefix self.old self.new)
            (λ _. self.new ≡ self.old) }
    {
        match replace_with(&mut self.reader, (), read_front) {
            Some(front) if self.seen.advance_to(&front) => Ok(front.len()),
            _ => Err(NoView),
        }
    }

    /// The records of all members, this one's included, in the order of their names. Allocates memory for 256
    /// records, before it enters. If that is refused the error is [`MembersFault::NoMemory`], otherwise it is
    /// [`MembersFault::NoView`].
    pub fn members(&mut self, alloc: Global) -> Result<Vec<Record>, MembersFault>
        ensures { MatchResult result
            (λ records. (records.items ≡ view_after self.new) × IsPrefix self.old self.new)
            (λ _. self.new ≡ self.old) }
    {
        let Ok(records) = Vec::with_capacity(alloc, MAX_MEMBERS) else {
            return Err(MembersFault::NoMemory);
        };
        match replace_with(&mut self.reader, records, read_table) {
            Some((records, front)) if self.seen.advance_to(&front) => Ok(records),
            _ => Err(MembersFault::NoView),
        }
    }

    /// The records of all members, how many events they are after and at which moment, what this member knows of itself
    /// after the same events, and the changes behind a version. Allocates memory for 256 records and for a copy of the
    /// changes. This copy is made inside, so a call that publishes may wait for it. Fails as [`Look::members`] does.
    pub fn overview(&mut self, alloc: Global, version: u64) -> Result<Overview, MembersFault>
        ensures { MatchResult result (λ found. IsOverview found version self.new × IsPrefix self.old self.new)
            (λ _. self.new ≡ self.old) }
    {
        let Ok(records) = Vec::with_capacity(alloc, MAX_MEMBERS) else {
            return Err(MembersFault::NoMemory);
        };
        let basis = OverviewBasis {
            alloc,
            records,
            version,
        };
        let Some((overview, front)) = replace_with(&mut self.reader, basis, read_overview) else {
            return Err(MembersFault::NoView);
        };
        let Ok(overview) = overview else {
            return Err(MembersFault::NoMemory);
        };
        if self.seen.advance_to(&front) {
            Ok(overview)
        } else {
            Err(MembersFault::NoView)
        }
    }
}
