//! How entries are cut off: they are dropped, or handed out.
//!
//! Defined in: `specs/Meaning/Calls.antt`, `specs/Meaning/Values.antt`, `lg_history/specs/Meaning/Rest.antt`.
//! Tested in: `lg_agent_tests/src/agent/rotating.rt`, `lg_agent_tests/src/agent/cutting.rt`.
ghost use Rattle.std.specs.Prelude.{◌≡◌, length, IfOk, IfErr};
ghost use Rattle.lg_agent.specs.declared.refusal.Refusal.TheVariants.{NoMemory};
ghost use Rattle.lg_agent.specs.Meaning.Values.{nothing_cut_off, handed_out};
ghost use Rattle.lg_agent.specs.Meaning.Calls.{IsRotated, IsCutOff};

use super::Kept;
use crate::cut_off::CutOff;
use crate::name::AgentName;
use crate::refusal::Refusal;
use std::alloc::Global;
use std::mem;

impl<A: AgentName> Kept<A> {
    /// Cuts off all stored entries: a summary of all events so far is kept instead, and they are added to the counts
    /// of their seats. Returns how many they were. It is no event: what is published, and what each reader has seen
    /// of it, stays as it is.
    ///
    /// The only refusal is [`Refusal::NoMemory`], if memory for the summary was refused. Then nothing has changed.
    pub fn rotate(&mut self, alloc: Global) -> Result<u64, Refusal>
        ensures rotated { IfOk result (λ n. (n ≡ length self.old.history) × IsRotated self.old self.new) }
        ensures refused { IfErr result (λ e. (e ≡ NoMemory) × (self.new ≡ self.old)) }
    {
        let Ok(summary) = self.detector.summary(alloc) else {
            return Err(Refusal::NoMemory);
        };
        let dropped = self.history.len();
        self.cut = self.made;
        self.history.clear();
        self.summary = Some(summary);
        self.base = self.count;
        Ok(dropped)
    }

    /// Cuts off all stored entries as [`Kept::rotate`] does, and hands them out, with the summary and the number of
    /// those that were cut off before. No entry is copied or dropped, and no memory is freed. `into` must be as
    /// [`CutOff::clear`] leaves it. Returns how many entries it has then.
    ///
    /// Memory is allocated for the summary, unless `into` has kept that of an earlier one. The only refusal is
    /// [`Refusal::NoMemory`], if it was refused. Then nothing has changed.
    pub fn rotate_into(&mut self, alloc: Global, into: &mut CutOff) -> Result<u64, Refusal>
        requires { into.old ≡ nothing_cut_off }
        ensures rotated { IfOk result (λ n. (n ≡ length self.old.history) × IsRotated self.old self.new) }
        // All that was stored is handed out, and the summary is the one that was kept until now.
        ensures handed { IfOk result (λ _. into.new ≡ handed_out self.old) }
        ensures right { IfOk result (λ _. IsCutOff A.places into.new) }
        ensures refused { IfErr result (λ e. (e ≡ NoMemory) × (self.new ≡ self.old) × (into.new ≡ into.old)) }
    {
        let Ok(summary) = into.summary_of(alloc, &self.detector) else {
            return Err(Refusal::NoMemory);
        };
        let moved = self.history.len();
        self.cut = self.made;
        let before = mem::replace(&mut self.summary, Some(summary));
        into.fill(&mut self.history, before, self.base);
        self.base = self.count;
        Ok(moved)
    }
}
