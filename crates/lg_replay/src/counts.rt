//! How many entries there are, and the verdicts on them.
//!
//! Defined in: `specs/Meaning/Verdicts.antt`.
//! Tested in: `lg_replay_tests/src/lives.rt`.
ghost use Rattle.std.specs.Prelude.{◌≡◌, ◌+◌, ◌++◌, ◌∷◌, [], IfOk, List, OnOk};
ghost use Rattle.lg_replay.specs.Meaning.Verdicts.{counts_line};
ghost use Rattle.lg_replay.specs.Support.Counted.{HasCounts};
ghost use Rattle.lg_replay.specs.declared.verdict.Verdict.{Verdict as Judged};

use crate::lines::put_counted;
use crate::verdict::Verdict;
use lg_detector::NoMemory;
use std::alloc::AllocError;

/// How many entries there are, and the verdicts on them.
#[derive(Clone, Copy, Debug, Default, PartialEq, Eq)]
pub struct ReplayCounts {
    /// How many entries there are.
    pub entries: u64,
    /// How many of them differ.
    pub differing: u64,
    /// How many of them can't be checked.
    pub unchecked: u64,
}

/// The next number. The error, which is that of refused memory, comes if it doesn't fit 64 bits, which no run reaches.
pub(crate) fn one_more(number: u64) -> Result<u64, NoMemory>
    ensures { IfOk result (λ more. more ≡ number + 1) }
{
    number.checked_add(1).ok_or(AllocError)
}

impl ReplayCounts {
    /// No entries.
    pub(crate) fn new() -> ReplayCounts
        ensures { HasCounts result [] }
    {
        ReplayCounts {
            entries: 0,
            differing: 0,
            unchecked: 0,
        }
    }

    /// ReplayCounts an entry by the verdict on it. The error is that of [`one_more`].
    pub(crate) fn add(&mut self, verdict: Verdict) -> Result<(), NoMemory>
        ensures { OnOk result ((verdicts : List Judged) → HasCounts self.old verdicts
            → HasCounts self.new (verdicts ++ verdict ∷ [])) }
    {
        self.entries = one_more(self.entries)?;
        match verdict {
            Verdict::Same => {}
            Verdict::Differs => self.differing = one_more(self.differing)?,
            Verdict::Unchecked => self.unchecked = one_more(self.unchecked)?,
        }
        Ok(())
    }

    /// Appends the last line to a text.
    pub(crate) fn put_line(&self, text: &mut Vec<u8>) -> Result<(), NoMemory>
        ensures { OnOk result ((verdicts : List Judged) → HasCounts self.now verdicts
            → text.new.items ≡ text.old.items ++ counts_line verdicts) }
    {
        let checked = self.entries.saturating_sub(self.unchecked);
        put_counted("entries ", self.entries, text)?;
        put_counted(" checked ", checked, text)?;
        put_counted(" differing ", self.differing, text)?;
        put_counted(" unchecked ", self.unchecked, text)?;
        text.extend_from_slice(b"\n")?;
        Ok(())
    }
}
