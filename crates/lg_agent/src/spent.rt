//! What a pass keeps, and leaves when it is finished.
//!
//! Defined in: `specs/Meaning/Calls.antt`, `specs/Meaning/Values.antt`.
//! Tested in: `lg_agent_tests/src/agent/leaving.rt`.
ghost use Rattle.std.specs.Prelude.{◌≡◌, ◌+◌, ◌≤◌, drop, length, vec_len, false, MatchResult, IfErr, IfOk, OnErr};
ghost use Rattle.std.specs.Vec.{vec_capacity};
ghost use Rattle.lg_detector.specs.Meaning.Step.{is_open_event};
ghost use Rattle.lg_agent.specs.declared.refusal.Refusal.TheVariants.{NoMemory};
ghost use Rattle.lg_agent.specs.Meaning.Values.{nothing_cut_off, handed_out};
ghost use Rattle.lg_agent.specs.Meaning.Calls.{with_entry, receipt_of, IsCall, IsRefusal};
ghost use Rattle.lg_agent.specs.Meaning.Calls.{IsRotated, IsRotatedPass, IsCutOff};
ghost use Rattle.lg_agent.specs.Meaning.Closing.{below};

use crate::cut_off::CutOff;
use crate::kept::Kept;
use crate::name::AgentName;
use crate::refusal::Refusal;
use lg_detector::{Event, Reply};
use lg_rules::Name;
use lg_view::Look;
use std::alloc::Global;
use std::marker::Model;
use std::sync::{Mutex, MutexGuard, Wait};

/// What a pass keeps, and leaves when it is finished: the name of its agent, its seat, its reader, and the positions of
/// its answered calls in the history.
#[derive(Drop)]
pub struct Spent<A: AgentName> {
    pub(crate) name: Name,
    pub(crate) seat: usize,
    pub(crate) look: Look<A>,
    /// How many of its first calls have no position here any more, since their entries were cut off.
    pub(crate) gone: u64,
    pub(crate) mine: Vec<u64>,
}

impl<A: AgentName> Model for Spent<A> {
    ghost use Rattle.std.specs.Prelude.{◌≡◌, ◌<◌, ◌≤◌, ◌+◌, length, true, All};
    ghost use Rattle.lg_view.specs.Meaning.Views.{begins_open};
    ghost use Rattle.lg_agent.specs.Meaning.Values.{PassValue};

    ghost Value = { PassValue };

    ghost view = { λ s. record { name = s.name; seat = s.seat; seen = s.look; gone = s.gone; mine = s.mine.items } };

    // It has seen the opening, and all its calls, which are fewer than these events. Its seat is one of the agent's.
    ghost invariant = { λ s. (begins_open s.look ≡ true)
        × All (λ k. k < length s.look) s.mine.items
        × (s.gone + length s.mine.items < length s.look)
        × (0 < s.seat)
        × (s.seat ≤ A.places) };
}

impl<A: AgentName> Spent<A> {
    /// The name of its agent.
    pub fn name(&self) -> Name
        ensures { result ≡ self.now.name }
    {
        self.name
    }

    /// Its seat, from 1.
    pub fn seat(&self) -> usize
        ensures { result ≡ self.now.seat }
    {
        self.seat
    }

    /// How many events it has seen.
    pub fn seen(&self) -> u64
        ensures { result ≡ length self.now.seen }
    {
        self.look.seen()
    }

    /// How many of its answered calls have no position here any more: the first ones, whose entries were cut off.
    pub fn gone(&self) -> u64
        ensures { result ≡ self.now.gone }
    {
        self.gone
    }

    /// How many of its calls were answered.
    pub fn made(&self) -> u64
        ensures { result ≡ self.now.gone + length self.now.mine }
    {
        // For the proof: by its contract what was seen is an accepted list, which isn't longer than the sum may be.
        let _seen = self.look.seen();
        self.gone + self.mine.len() as u64
    }

    /// The positions of its answered calls in the history, in order, without the first [`gone`](Spent::gone) ones.
    pub fn calls(&self) -> &[u64]
        ensures { result.now ≡ self.now.mine }
    {
        self.mine.as_slice()
    }

    /// Makes one event, under the lock, which is taken once. Writes the reply over `reply`, and returns the position of
    /// the entry.
    pub(crate) fn call_into<R: Wait>(
        &mut self,
        kept: &Mutex<Kept<A>>,
        rt: &R,
        alloc: Global,
        event: &Event,
        reply: &mut Reply,
    ) -> Result<u64, Refusal>
        requires { is_open_event event.now ≡ false }
        ensures answered { MatchResult result (λ place. IsCall self.old event.now (receipt_of place reply.new) self.new)
            (λ _. (self.new ≡ self.old) × (reply.new ≡ reply.old)) }
        ensures refusal { IfErr result (IsRefusal self.old.seen) }
    {
        let mut guard = kept.lock(rt);
        let answer = self.call_in(&mut guard, rt, alloc, event, reply);
        MutexGuard::unlock(guard);
        answer
    }

    /// Makes one event, by the value under the lock. First it reserves memory for the position. Then it applies the
    /// event, brings the look up to date, and keeps the position. If it is refused, neither the pass nor the value
    /// nor the reply has changed.
    fn call_in<R: Wait>(
        &mut self,
        kept: &mut Kept<A>,
        rt: &R,
        alloc: Global,
        event: &Event,
        reply: &mut Reply,
    ) -> Result<u64, Refusal>
        requires { is_open_event event.now ≡ false }
        ensures answered { IfOk result (λ place. IsCall self.old event.now (receipt_of place reply.new) self.new) }
        ensures history { IfOk result (λ _. kept.new ≡ with_entry kept.old self.old.seat event.now) }
        ensures refused { OnErr result ((self.new ≡ self.old) × (kept.new ≡ kept.old) × (reply.new ≡ reply.old)) }
        ensures refusal { IfErr result (IsRefusal self.old.seen) }
    {
        if self.mine.reserve(1).is_err() {
            return Err(Refusal::NoMemory);
        }
        let base = kept.base();
        let answer = kept.call_into(rt, alloc, self.seat, &mut self.look, event, reply);
        if let Ok(place) = &answer {
            let moved = cut_positions(base, &mut self.mine);
            self.gone += moved as u64;
            self.mine.push_reserved(*place);
        }
        answer
    }

    /// How many of its calls have their entries before the base, and how many of these have positions here.
    pub(crate) fn cut_at(&self, base: u64) -> (u64, usize)
        ensures moved { result.1 ≡ below base self.now.mine }
        ensures few { result.1 ≤ length self.now.mine }
        ensures calls { result.0 ≡ self.now.gone + result.1 }
    {
        // For the proof, as in `made`.
        let _seen = self.look.seen();
        let moved = below(base, self.mine.as_slice());
        (self.gone + moved as u64, moved)
    }

    /// Rotates, under the lock, which is taken once. Returns how many entries were cut off.
    pub(crate) fn rotate<R: Wait>(
        &mut self,
        kept: &Mutex<Kept<A>>,
        rt: &R,
        alloc: Global,
    ) -> Result<u64, Refusal>
        ensures rotated { MatchResult result (λ _. IsRotatedPass self.old self.new)
            (λ e. (e ≡ NoMemory) × (self.new ≡ self.old)) }
    {
        let mut guard = kept.lock(rt);
        let answer = self.rotate_in(&mut guard, alloc);
        MutexGuard::unlock(guard);
        answer
    }

    /// Rotates the value under the lock, and returns how many entries were cut off. If it is refused, neither the pass
    /// nor the value has changed.
    fn rotate_in(&mut self, kept: &mut Kept<A>, alloc: Global) -> Result<u64, Refusal>
        ensures pass { IfOk result (λ _. IsRotatedPass self.old self.new) }
        ensures history { IfOk result (λ n. (n ≡ length kept.old.history) × IsRotated kept.old kept.new) }
        ensures refused { IfErr result (λ e. (e ≡ NoMemory) × (self.new ≡ self.old) × (kept.new ≡ kept.old)) }
    {
        let answer = kept.rotate(alloc);
        if answer.is_ok() {
            self.drop_positions(kept.base());
        }
        answer
    }

    /// Rotates, under the lock, which is taken once, and hands out what is cut off. What is handed in is emptied before
    /// the lock is taken. Returns how many entries were cut off.
    pub(crate) fn rotate_into<R: Wait>(
        &mut self,
        kept: &Mutex<Kept<A>>,
        rt: &R,
        alloc: Global,
        into: &mut CutOff,
    ) -> Result<u64, Refusal>
        ensures rotated { IfOk result (λ _. IsRotatedPass self.old self.new) }
        ensures handed { IfOk result (λ n. (n ≡ length into.new.entries) × IsCutOff A.places into.new) }
        ensures refused { IfErr result (λ e. (e ≡ NoMemory) × (self.new ≡ self.old) × (into.new ≡ nothing_cut_off)) }
    {
        into.clear();
        let mut guard = kept.lock(rt);
        let answer = self.rotate_in_into(&mut guard, alloc, into);
        MutexGuard::unlock(guard);
        answer
    }

    /// Rotates the value under the lock, and hands out what is cut off. If it is refused, neither the pass nor the
    /// value nor what is handed in has changed.
    fn rotate_in_into(
        &mut self,
        kept: &mut Kept<A>,
        alloc: Global,
        into: &mut CutOff,
    ) -> Result<u64, Refusal>
        requires { into.old ≡ nothing_cut_off }
        ensures pass { IfOk result (λ _. IsRotatedPass self.old self.new) }
        ensures history { IfOk result (λ n. (n ≡ length kept.old.history) × IsRotated kept.old kept.new) }
        ensures handed { IfOk result (λ _. (into.new ≡ handed_out kept.old) × IsCutOff A.places into.new) }
        ensures refused { IfErr result (λ e. (e ≡ NoMemory)
            × (self.new ≡ self.old) × (kept.new ≡ kept.old) × (into.new ≡ into.old)) }
    {
        let answer = kept.rotate_into(alloc, into);
        if answer.is_ok() {
            self.drop_positions(kept.base());
        }
        answer
    }

    /// Drops the positions of its calls that are below the base, and keeps their number.
    fn drop_positions(&mut self, base: u64)
        ensures { IsRotatedPass self.old self.new }
    {
        // For the proof, as in `made`.
        let _seen = self.look.seen();
        let moved = cut_positions(base, &mut self.mine);
        self.gone += moved as u64;
    }
}

/// How many of the first positions are below the base.
fn below(base: u64, mine: &[u64]) -> usize
    ensures count { result ≡ below base mine.now }
    ensures few { result ≤ length mine.now }
{
    mine.iter().take_while(|place| **place < base).count()
}

/// Cuts off the first positions that are below the base, and returns how many they were.
fn cut_positions(base: u64, mine: &mut Vec<u64>) -> usize
    ensures count { result ≡ below base mine.old.items }
    ensures few { result ≤ length mine.old.items }
    ensures rest { mine.new.items ≡ drop result mine.old.items }
    ensures room { vec_capacity mine.new ≡ vec_capacity mine.old }
{
    let moved = below(base, mine.as_slice());
    if moved > 0 {
        drop(mine.drain(..moved));
    }
    moved
}
