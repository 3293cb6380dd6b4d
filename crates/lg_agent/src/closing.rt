//! Closing: what the passes left is compared with the history.
//!
//! Defined in: `specs/Meaning/Closing.antt`, `specs/Meaning/Values.antt`.
//! Tested in: `lg_agent_tests/src/agent/choosing.rt`.
ghost use Rattle.std.specs.Prelude.{◌≡◌, ◌≤◌, ◌<◌, ◌+◌, ◌^◌, ◌==◌, All, Any, drop, length, None};
ghost use Rattle.std.specs.Prelude.{OnOk, IfOk, IfErr, IsErrAnd};
ghost use Rattle.std.specs.List.{list_any, find, range_with_len};
ghost use mathlib.Core.List.{IsPrefix};
ghost use Rattle.lg_history.specs.Meaning.History.{positions};
ghost use Rattle.lg_history.specs.Meaning.Rest.{IsRest, StandsFor, of_seat};
ghost use Rattle.lg_agent.specs.Meaning.Values.{own_name, all_events, count_of};
ghost use Rattle.lg_agent.specs.Meaning.Closing.{times, is_foreign, is_missing, first_difference};
ghost use Rattle.lg_agent.specs.Meaning.Closing.{difference, difference_at, least_difference};
ghost use Rattle.lg_agent.specs.Meaning.Closing.{close_fault, unless_fault, IsClosed};
ghost use Rattle.lg_agent.specs.Meaning.Closing.{IsRefusedClosing, LacksOne, IsMisplaced};
ghost use Rattle.lg_agent.specs.declared.refusal.CloseFault.TheVariants.{Missing, Foreign};

use crate::agent::Agent;
use crate::closed::Closed;
use crate::kept::Kept;
use crate::name::AgentName;
use crate::refusal::CloseFault;
use crate::spent::Spent;
use left_right::Absorb;
use lg_detector::Event;
use lg_history::Entry;
use lg_view::{Published, Update};
use std::sync::{Mutex, Wait};

/// A refused closing. It hands everything back, unchanged.
pub struct Unclosed<A: AgentName>
where
    Published<A>: Absorb<Update<A>, State = [Event; 0]>,
{
    /// Why it was refused.
    pub fault: CloseFault,
    /// The agent.
    pub agent: Agent<A>,
    /// What the passes left.
    pub spents: Vec<Spent<A>>,
}

/// How many of these have this seat.
fn times<A: AgentName>(spents: &[Spent<A>], seat: usize) -> usize
    ensures { result ≡ times spents.now seat }
{
    spents.iter().filter(|spent| spent.seat() == seat).count()
}

impl<A: AgentName> Spent<A> {
    /// Compares its positions, from the index `moved` on, with those of its seat among these entries, of which the
    /// first has the position `base`. Returns the index of the first of its calls that differs, if one does.
    fn first_difference(&self, moved: usize, base: u64, history: &[Entry]) -> Option<u64>
        requires moved { moved ≤ length self.now.mine }
        requires base { length history.now + base < 2 ^ 64 }
        ensures { result ≡ first_difference (self.now.gone + moved) (drop moved self.now.mine)
            (positions self.now.seat base history.now) }
    {
        // What was seen is an accepted list.
        let _seen = self.look.seen();
        let mut found = moved;
        for place in 0..history.len() {
            if history[place].seat() == self.seat {
                if found >= self.mine.len() || self.mine[found] != base + place as u64 {
                    return Some(self.gone + found as u64);
                }
                found += 1;
            }
        }
        if found < self.mine.len() {
            return Some(self.gone + found as u64);
        }
        None
    }
}

impl<A: AgentName> Kept<A> {
    /// Whether these are what the passes of this agent left: one for each seat, which has the agent's name, and whose
    /// positions are those of its seat in the history. Otherwise it is the fault that is the first in the order
    /// [`CloseFault::Foreign`], [`CloseFault::Missing`], [`CloseFault::Differs`]. Allocates nothing.
    pub fn audit(&self, spents: &[Spent<A>]) -> Result<(), CloseFault>
        ensures { result ≡ unless_fault (close_fault self.now spents.now) }
    {
        if self.has_foreign(spents) {
            return Err(CloseFault::Foreign);
        }
        if self.lacks_one(spents) {
            return Err(CloseFault::Missing);
        }
        match self.least_difference(spents) {
            Some(fault) => Err(fault),
            None => Ok(()),
        }
    }

    /// Whether one of them doesn't belong here.
    fn has_foreign(&self, spents: &[Spent<A>]) -> bool
        ensures { result
            ≡ list_any (is_foreign (own_name (all_events self.now)) self.now.places spents.now) spents.now }
    {
        for spent in spents {
            if self.is_foreign(spents, spent) {
                return true;
            }
        }
        false
    }

    /// Whether this one of them doesn't belong here.
    fn is_foreign(&self, spents: &[Spent<A>], spent: &Spent<A>) -> bool
        ensures { result ≡ is_foreign (own_name (all_events self.now)) self.now.places spents.now spent.now }
    {
        let seat = spent.seat();
        spent.name() != self.name() || seat == 0 || seat > self.places() || times(spents, seat) > 1
    }

    /// Whether some seat has none of them.
    fn lacks_one(&self, spents: &[Spent<A>]) -> bool
        ensures { result ≡ list_any (is_missing spents.now) (range_with_len 1 self.now.places) }
    {
        for place in 0..self.places() {
            if times(spents, place + 1) == 0 {
                return true;
            }
        }
        false
    }

    /// The difference at the least seat that has one.
    fn least_difference(&self, spents: &[Spent<A>]) -> Option<CloseFault>
        ensures { result ≡ least_difference self.now spents.now (range_with_len 1 self.now.places) }
    {
        for place in 0..self.places() {
            let fault = self.difference_at(spents, place + 1);
            if fault.is_some() {
                return fault;
            }
        }
        None
    }

    /// The difference at a seat, if there is one.
    fn difference_at(&self, spents: &[Spent<A>], seat: usize) -> Option<CloseFault>
        ensures { result ≡ difference_at self.now (find (λ s. s.seat == seat) spents.now) }
    {
        for spent in spents {
            if spent.seat() == seat {
                return self.difference(spent);
            }
        }
        None
    }

    /// The fault that the calls of one of them aren't the entries of its seat, if they aren't.
    fn difference(&self, spent: &Spent<A>) -> Option<CloseFault>
        ensures { result ≡ difference self.now spent.now }
    {
        // The count is a `u64`, so all positions fit.
        let _count = self.count();
        let (calls, moved) = spent.cut_at(self.base());
        let cut = self.cut_off(spent.seat);
        if calls != cut {
            return Some(CloseFault::Differs {
                seat: spent.seat,
                index: calls.min(cut),
            });
        }
        match spent.first_difference(moved, self.base(), self.history()) {
            Some(index) => Some(CloseFault::Differs {
                seat: spent.seat,
                index,
            }),
            None => None,
        }
    }

    /// As [`Kept::audit`]; and if that finds nothing, whether one of them has seen more events than the history has.
    /// This should never happen. It would be reported as a difference after the last call.
    fn judge(&self, spents: &[Spent<A>]) -> Result<(), CloseFault>
        ensures audited { OnOk result (close_fault self.now spents.now ≡ None) }
        ensures short { OnOk result (All (λ s. length s.seen ≤ count_of self.now) spents.now) }
        ensures refused { IfErr result (IsRefusedClosing self.now.places spents.now) }
        ensures named { self.now.places ≡ A.places }
    {
        // What is stored is the end of a legal history.
        let _history = self.history();
        let events = self.count();
        self.audit(spents)?;
        for spent in spents {
            if spent.seen() > events {
                return Err(CloseFault::Differs {
                    seat: spent.seat(),
                    index: spent.made(),
                });
            }
        }
        Ok(())
    }

    /// Shows that what each of them has seen begins the events of the history.
    fn compare_all(&self, spents: &[Spent<A>])
        requires { All (λ s. length s.seen ≤ count_of self.now) spents.now }
        ensures { All (λ s. IsPrefix s.seen (all_events self.now)) spents.now }
    {
        for spent in spents {
            self.compare_one(spent);
        }
    }

    /// Shows that what this one has seen begins the events of the history.
    fn compare_one(&self, spent: &Spent<A>)
        requires { length spent.now.seen ≤ count_of self.now }
        ensures { IsPrefix spent.now.seen (all_events self.now) }
    {
        self.compare(&spent.look);
    }
}

impl<A: AgentName> Agent<A> {
    /// Ends the agent, and gives its history. Waits until no reader reads, and allocates nothing.
    ///
    /// It is handed what all passes left, in any order. It is refused with the fault that [`Kept::audit`] finds in
    /// them, or with [`CloseFault::Differs`] after the last call of one that has seen more than the history has,
    /// which no test has met. Then everything is handed back.
    ///
    /// A contract can't see the history that a refused agent goes on with. It says that there is a legal history by
    /// which this is the fault. What the list alone decides is said of the list. If one of it has a seat that isn't
    /// from 1 to the number of places, or a seat that another has as well, the fault is [`CloseFault::Foreign`]. The
    /// fault is [`CloseFault::Missing`] only if some seat has none.
    ///
    /// Two agents may have one name. That each [`Spent`] was finished from a pass of this agent follows from `A`,
    /// which no two agents share.
    pub fn close<R: Wait>(self, rt: &R, spents: Vec<Spent<A>>) -> Result<Closed, Unclosed<A>>
        ensures closed { IfOk result (λ c. IsClosed A.places c spents.items) }
        ensures fault { IfErr result (λ u. IsRefusedClosing A.places spents.items u.fault) }
        // What holds for any history.
        ensures missing { IfErr result (λ u. u.fault ≡ Missing → LacksOne A.places spents.items) }
        ensures foreign { Any (IsMisplaced A.places spents.items) spents.items
            → IsErrAnd result (λ u. u.fault ≡ Foreign) }
        ensures back { IfErr result (λ u. (u.spents.items ≡ spents.items) × (u.agent ≡ self)) }
    {
        let Agent {
            kept,
            name,
            waiting,
        } = self;
        let kept = kept.into_inner();
        if let Err(fault) = kept.judge(spents.as_slice()) {
            let agent = Agent {
                kept: Mutex::new(kept),
                name,
                waiting,
            };
            return Err(Unclosed {
                fault,
                agent,
                spents,
            });
        }
        Ok(closed(rt, kept, spents))
    }
}

/// The history of an agent whose passes agree with it.
fn closed<A: AgentName, R: Wait>(rt: &R, kept: Kept<A>, spents: Vec<Spent<A>>) -> Closed
    requires audited { close_fault kept spents.items ≡ None }
    requires short { All (λ s. length s.seen ≤ count_of kept) spents.items }
    ensures { IsClosed A.places result spents.items }
{
    kept.compare_all(spents.as_slice());
    let (entries, base, summary) = kept.into_history(rt);
    Closed::over(summary, base, entries)
}
