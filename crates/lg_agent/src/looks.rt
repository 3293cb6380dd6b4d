//! What a pass reads without the lock: each look answers from what was published last, and waits for nobody.
//!
//! Defined in: `specs/Meaning/Calls.antt`, `lg_detector/specs/Meaning/Step.antt`, `lg_view/specs/Meaning/Views.antt`,
//! `lg_view/specs/Meaning/Changes.antt`.
//! Tested in: `lg_agent_tests/src/agent/rows.rt`.
ghost use Rattle.std.specs.Prelude.{◌≡◌, ◌⊎◌, length, Some, MatchResult};
ghost use Rattle.lg_rules.specs.Meaning.Claim.{name_of};
ghost use Rattle.lg_rules.specs.Meaning.Rows.{name_cmp, row_at};
ghost use Rattle.lg_detector.specs.Meaning.Step.{view_after, deadline_after};
ghost use Rattle.lg_view.specs.Meaning.Views.{IsOverview};
ghost use Rattle.lg_agent.specs.declared.refusal.Refusal.TheVariants.{NoView, NoMemory};
ghost use Rattle.lg_agent.specs.Meaning.Calls.{IsLook};

use crate::name::AgentName;
use crate::pass::Pass;
use crate::refusal::Refusal;
use crate::spent::Spent;
use lg_rules::{Name, Record};
use lg_view::{MembersFault, Overview};
use std::alloc::Global;

impl<'a, A: AgentName> Pass<'a, A> {
    /// The record of a name, this member's included, if it is known. Allocates nothing and takes no lock. The only
    /// refusal is [`Refusal::NoView`].
    pub fn status_of(&mut self, name: &Name) -> Result<Option<Record>, Refusal>
        ensures { MatchResult result
            (λ r. (r ≡ row_at name_cmp name_of name.now (view_after self.new.seen)) × IsLook self.old self.new)
            (λ e. (e ≡ NoView) × (self.new ≡ self.old)) }
    {
        self.own.status_of(name)
    }

    /// The least deadline of the timers that are set, in milliseconds. Allocates nothing and takes no lock. The only
    /// refusal is [`Refusal::NoView`].
    pub fn next_deadline(&mut self) -> Result<u64, Refusal>
        ensures { MatchResult result (λ n. (deadline_after self.new.seen ≡ Some n) × IsLook self.old self.new)
            (λ e. (e ≡ NoView) × (self.new ≡ self.old)) }
    {
        self.own.next_deadline()
    }

    /// How many events the published value is after; after the opening it is 1. Allocates nothing and takes no lock.
    /// The only refusal is [`Refusal::NoView`].
    pub fn version(&mut self) -> Result<u64, Refusal>
        ensures { MatchResult result (λ n. (n ≡ length self.new.seen) × IsLook self.old self.new)
            (λ e. (e ≡ NoView) × (self.new ≡ self.old)) }
    {
        self.own.version()
    }

    /// The records of all members, this one's included, in the order of their names. Allocates memory for 256 records,
    /// and takes no lock. Refused with [`Refusal::NoMemory`] if that was refused, otherwise with [`Refusal::NoView`].
    pub fn members(&mut self, alloc: Global) -> Result<Vec<Record>, Refusal>
        ensures { MatchResult result
            (λ records. (records.items ≡ view_after self.new.seen) × IsLook self.old self.new)
            (λ e. ((e ≡ NoView) ⊎ (e ≡ NoMemory)) × (self.new ≡ self.old)) }
    {
        self.own.members(alloc)
    }

    /// The records of all members, how many events they are after and at which moment, what this member knows of itself
    /// after the same events (its score, its incarnation, and whether it was ousted), and the changes of these events
    /// behind a version. So all of it agrees. No change is left out: if one behind the version is no longer kept, what
    /// is found says so. Allocates memory for 256 records and for a copy of the changes. It takes no lock; a call that
    /// publishes may wait until the copy is made. Refused as [`Pass::members`] is.
    pub fn overview(&mut self, alloc: Global, version: u64) -> Result<Overview, Refusal>
        ensures { MatchResult result (λ found. IsOverview found version self.new.seen × IsLook self.old self.new)
            (λ e. ((e ≡ NoView) ⊎ (e ≡ NoMemory)) × (self.new ≡ self.old)) }
    {
        self.own.overview(alloc, version)
    }
}

impl<A: AgentName> Spent<A> {
    /// As [`Pass::status_of`].
    fn status_of(&mut self, name: &Name) -> Result<Option<Record>, Refusal>
        ensures { MatchResult result
            (λ r. (r ≡ row_at name_cmp name_of name.now (view_after self.new.seen)) × IsLook self.old self.new)
            (λ e. (e ≡ NoView) × (self.new ≡ self.old)) }
    {
        let answer = self.look.status_of(name);
        // What was seen is an accepted list.
        let _seen = self.look.seen();
        match answer {
            Ok(record) => Ok(record),
            Err(_) => Err(Refusal::NoView),
        }
    }

    /// As [`Pass::next_deadline`].
    fn next_deadline(&mut self) -> Result<u64, Refusal>
        ensures { MatchResult result (λ n. (deadline_after self.new.seen ≡ Some n) × IsLook self.old self.new)
            (λ e. (e ≡ NoView) × (self.new ≡ self.old)) }
    {
        let answer = self.look.next_deadline();
        // What was seen is an accepted list.
        let _seen = self.look.seen();
        match answer {
            Ok(deadline) => Ok(deadline),
            Err(_) => Err(Refusal::NoView),
        }
    }

    /// As [`Pass::version`].
    fn version(&mut self) -> Result<u64, Refusal>
        ensures { MatchResult result (λ n. (n ≡ length self.new.seen) × IsLook self.old self.new)
            (λ e. (e ≡ NoView) × (self.new ≡ self.old)) }
    {
        let answer = self.look.version();
        // What was seen is an accepted list.
        let _seen = self.look.seen();
        match answer {
            Ok(events) => Ok(events),
            Err(_) => Err(Refusal::NoView),
        }
    }

    /// As [`Pass::members`].
    fn members(&mut self, alloc: Global) -> Result<Vec<Record>, Refusal>
        ensures { MatchResult result
            (λ records. (records.items ≡ view_after self.new.seen) × IsLook self.old self.new)
            (λ e. ((e ≡ NoView) ⊎ (e ≡ NoMemory)) × (self.new ≡ self.old)) }
    {
        let answer = self.look.members(alloc);
        // What was seen is an accepted list.
        let _seen = self.look.seen();
        match answer {
            Ok(records) => Ok(records),
            Err(fault) => Err(look_refusal(fault)),
        }
    }

    /// As [`Pass::overview`].
    fn overview(&mut self, alloc: Global, version: u64) -> Result<Overview, Refusal>
        ensures { MatchResult result (λ found. IsOverview found version self.new.seen × IsLook self.old self.new)
            (λ e. ((e ≡ NoView) ⊎ (e ≡ NoMemory)) × (self.new ≡ self.old)) }
    {
        let answer = self.look.overview(alloc, version);
        // What was seen is an accepted list.
        let _seen = self.look.seen();
        match answer {
            Ok(overview) => Ok(overview),
            Err(fault) => Err(look_refusal(fault)),
        }
    }
}

/// The refusal of a look that had no members to give.
fn look_refusal(fault: MembersFault) -> Refusal
    ensures { (result ≡ NoView) ⊎ (result ≡ NoMemory) }
{
    match fault {
        MembersFault::NoView => Refusal::NoView,
        MembersFault::NoMemory => Refusal::NoMemory,
    }
}
