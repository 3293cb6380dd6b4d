//! The value under the lock: a history, the detector that is after its events, and the feed that publishes them.
//!
//! Defined in: `specs/Meaning/Calls.antt`, `specs/Meaning/Values.antt`, `lg_history/specs/Meaning/Rest.antt`.
//! Tested in: `lg_agent_tests/src/agent/rows.rt`.
ghost use Rattle.std.specs.Prelude.{◌≡◌, ◌<◌, ◌≤◌, ◌⊎◌, [], length, true, false, Some, None};
ghost use Rattle.std.specs.Prelude.{MatchResult, MatchOption, IfOk, IfErr, OnErr};
ghost use mathlib.Core.List.{IsPrefix};
ghost use Rattle.lg_detector.specs.Meaning.Step.{is_open_event, is_accepted, reply_after};
ghost use Rattle.lg_detector.specs.Support.State.{State};
ghost use Rattle.lg_history.specs.Meaning.History.{IsLegal, Answered};
ghost use Rattle.lg_view.specs.Meaning.Views.{begins_open};
ghost use Rattle.lg_history.specs.Meaning.Rest.{IsRest, StandsFor, AnsweredFrom, AreCut, of_seat};
ghost use Rattle.lg_agent.specs.declared.refusal.Refusal.TheVariants.{Behind, NoMemory};
ghost use Rattle.lg_agent.specs.Meaning.Values.{own_name, own_limit, all_events, count_of};
ghost use Rattle.lg_agent.specs.Meaning.Calls.{with_entry, refusal_of, receipt_of, IsAnswered, IsRefusal};

use crate::name::AgentName;
use crate::receipt::Receipt;
use crate::refusal::Refusal;
use left_right::Absorb;
use lg_detector::{Detector, Event, MAX_EVENTS, Reply, Summary};
use lg_history::{Entry, History};
use lg_rules::Name;
use lg_view::{Feed, Look, Published, Update};
use std::alloc::Global;
use std::marker::Model;
use std::sync::Wait;

mod opening;
mod rotating;

/// The most places of an agent, each of which has one pass (this project's choice).
pub const MAX_PLACES: usize = 32;

/// How many seats there are: one for the opening, and one for each place.
pub(crate) const SEATS: usize = MAX_PLACES + 1;

/// The value under an agent's lock. A contract sees it as the number of its places, its limit, the stored entries,
/// and the summary of those that were cut off before them.
///
/// Whenever the lock is free, the stored entries are the end of a legal history. The events of the whole history are
/// those that are published, and the detector is after them.
pub struct Kept<A: AgentName>
where
    Published<A>: Absorb<Update<A>, State = [Event; 0]>,
{
    places: usize,
    limit: u64,
    /// How many entries there have been since the opening, its own included.
    count: u64,
    /// How many of them were cut off.
    base: u64,
    /// The summary of those, if there are any.
    summary: Option<Summary>,
    /// How many of them each seat made.
    cut: [u64; SEATS],
    /// How many of all entries each seat made, so that a rotation needn't go over the stored ones.
    made: [u64; SEATS],
    name: Name,
    history: History,
    detector: Detector,
    feed: Feed<A>,
}

impl<A: AgentName> Model for Kept<A>
where
    Published<A>: Absorb<Update<A>, State = [Event; 0]>,
{
    ghost use Rattle.std.specs.Prelude.{◌≡◌, ℕ, ◌<◌, ◌≤◌, ◌+◌, ◌++◌, [], length, take, None};
    ghost use Rattle.lg_detector.specs.Support.Step.{state_after};
    ghost use Rattle.lg_history.specs.Meaning.History.{events};
    ghost use Rattle.lg_history.specs.Meaning.Rest.{IsRest, StandsFor, made_by, of_seat};
    ghost use Rattle.lg_agent.specs.Meaning.Values.{KeptValue, own_name, own_limit};
    ghost use Rattle.lg_detector.specs.declared.detector.TheConstants.{MAX_EVENTS};
    ghost use Rattle.lg_agent.specs.declared.kept.TheConstants.{MAX_PLACES, SEATS};

    ghost Value = { KeptValue };

    ghost view = { λ k. record {
      places = k.places;
      limit = k.limit;
      summary = k.summary;
      cut = k.cut;
      past = take k.base k.feed.events;
      history = k.history.entries;
    } };

    ghost invariant = { λ k. IsRest k.places (take k.base k.feed.events) k.cut k.history.entries
        × StandsFor k.summary (take k.base k.feed.events)
        × (k.history.prepared ≡ None)
        × (k.detector ≡ state_after k.feed.events)
        × (k.feed.events ≡ take k.base k.feed.events ++ events k.history.entries)
        × (k.feed.waiting ≡ [])
        × (k.count ≡ length k.history.entries + length (take k.base k.feed.events))
        × (k.base ≡ length (take k.base k.feed.events))
        × (k.name ≡ own_name k.feed.events)
        × (k.limit ≡ own_limit k.feed.events)
        × (k.limit ≤ MAX_EVENTS)
        × (0 < k.places)
        × (k.places ≤ MAX_PLACES)
        × (k.places ≡ A.places)
        × (length k.cut ≡ SEATS)
        × (length k.made ≡ SEATS)
        × ((seat : ℕ) → of_seat k.made seat ≡ of_seat k.cut seat + made_by seat k.history.entries) };
}

impl<A: AgentName> Kept<A> {
    /// The stored entries. In every state they are the end of a history that a single thread could have made, with
    /// the places that `A` names. If nothing was cut off, they are the whole of one.
    #[tactic(auto, using(lg_history::proofs::Rests::rest_none))]
    pub fn history(&self) -> &[Entry]
        ensures same { result.now ≡ self.now.history }
        ensures legal { self.now.past ≡ [] → IsLegal self.now.places self.now.history }
        ensures rest { IsRest self.now.places self.now.past self.now.cut self.now.history }
        // The summary is one of what was cut off.
        ensures base { StandsFor self.now.summary self.now.past }
        // The history is full if as many entries are stored as its opening allows.
        ensures limit { self.now.limit ≡ own_limit (all_events self.now) }
        ensures named { self.now.places ≡ A.places }
    {
        self.history.entries()
    }

    /// How many entries there have been since the opening, its own included.
    pub fn count(&self) -> u64
        ensures { result ≡ count_of self.now }
    {
        self.count
    }

    /// How many of them were cut off.
    pub fn base(&self) -> u64
        ensures { result ≡ length self.now.past }
    {
        self.base
    }

    /// How many of them a seat made.
    pub fn cut_off(&self, seat: usize) -> u64
        ensures { result ≡ of_seat self.now.cut seat }
    {
        let cut = self.cut.as_slice();
        if seat < cut.len() { cut[seat] } else { 0 }
    }

    /// The summary of the entries that were cut off, if any were.
    pub fn summary(&self) -> Option<&Summary>
        ensures same { MatchOption result (self.now.summary ≡ None) (λ s. self.now.summary ≡ Some s.now) }
        ensures base { StandsFor self.now.summary self.now.past }
        // All events are accepted. Each stored reply is that of the definitions after all events before it, and the
        // one that follows from the summary.
        ensures accepted { is_accepted (all_events self.now) ≡ true }
        ensures answered { Answered self.now.past self.now.history }
        ensures from { (s : State) → self.now.summary ≡ Some s → AnsweredFrom s self.now.history }
        ensures seats { AreCut self.now.places self.now.past self.now.cut }
    {
        self.summary.as_ref()
    }

    /// How many places there are, 1 to [`MAX_PLACES`].
    pub fn places(&self) -> usize
        ensures places { result ≡ self.now.places }
        ensures range { (0 < result) × (result ≤ MAX_PLACES) }
        ensures named { result ≡ A.places }
    {
        self.places
    }

    /// The member's name, which the opening gave.
    pub fn name(&self) -> Name
        ensures { result ≡ own_name (all_events self.now) }
    {
        self.name
    }

    /// Applies one event of the pass with this seat: the history grows by its entry, and its events are published.
    /// The event must be no opening. Refused as [`Kept::apply_into`] is, and then nothing has changed.
    pub fn apply<R: Wait>(
        &mut self,
        rt: &R,
        alloc: Global,
        seat: usize,
        event: &Event,
    ) -> Result<Receipt, Refusal>
        requires { is_open_event event.now ≡ false }
        ensures answered { IfOk result (λ r. (self.new ≡ with_entry self.old seat event.now)
            × (r.place ≡ count_of self.old)
            × (r.reply ≡ reply_after (all_events self.old) event.now)) }
        ensures refused { OnErr result (self.new ≡ self.old) }
        // Which refusal it is.
        ensures exact { MatchResult result (λ _. refusal_of self.old seat ≡ None)
            (λ e. (refusal_of self.old seat ≡ Some e)
            ⊎ ((e ≡ NoMemory) × (refusal_of self.old seat ≡ None))) }
    {
        let mut reply = Reply::default();
        let place = self.apply_into(rt, alloc, seat, event, &mut reply)?;
        Ok(Receipt { place, reply })
    }

    /// Applies one event as [`Kept::apply`] does, writes the reply over `reply`, and returns the position of the entry
    /// in the history, in which entries that were cut off count.
    ///
    /// It is refused with the first of these that applies. Then nothing has changed, and `reply` is as it was:
    /// - [`Refusal::NoPlace`] if the seat isn't from 1 to the number of places;
    /// - [`Refusal::HistoryFull`] if there were as many events as a detector accepts, or if as many entries are
    ///   stored as are allowed;
    /// - [`Refusal::NoMemory`] if memory was refused for the entry, for the published event, or for the lists that
    ///   hold them.
    pub fn apply_into<R: Wait>(
        &mut self,
        rt: &R,
        alloc: Global,
        seat: usize,
        event: &Event,
        reply: &mut Reply,
    ) -> Result<u64, Refusal>
        requires { is_open_event event.now ≡ false }
        ensures answered { IfOk result (λ place. (self.new ≡ with_entry self.old seat event.now)
            × (place ≡ count_of self.old)
            × (reply.new ≡ reply_after (all_events self.old) event.now)) }
        ensures refused { OnErr result ((self.new ≡ self.old) × (reply.new ≡ reply.old)) }
        // Which refusal it is.
        ensures exact { MatchResult result (λ _. refusal_of self.old seat ≡ None)
            (λ e. (refusal_of self.old seat ≡ Some e)
            ⊎ ((e ≡ NoMemory) × (refusal_of self.old seat ≡ None))) }
    {
        if seat == 0 || seat > self.places {
            return Err(Refusal::NoPlace);
        }
        if self.count >= MAX_EVENTS {
            return Err(Refusal::HistoryFull(MAX_EVENTS));
        }
        if self.history.len() >= self.limit {
            return Err(Refusal::HistoryFull(self.limit));
        }
        if self.history.prepare(alloc, seat, event).is_err() {
            return Err(Refusal::NoMemory);
        }
        // The last thing that can be refused.
        if self.feed.append(alloc, event).is_err() {
            self.history.withdraw();
            return Err(Refusal::NoMemory);
        }
        self.detector.step(event, reply);
        self.history.complete(alloc, reply);
        self.feed.publish(rt);
        self.made[seat] += 1;
        let place = self.count;
        self.count += 1;
        Ok(place)
    }

    /// Brings a reader up to date with the events of the history, which begin with what it has seen. The reader must
    /// not be ahead.
    pub fn tell(&self, look: &mut Look<A>)
        requires { length look.old ≤ count_of self.now }
        ensures begins { IsPrefix look.old (all_events self.now) }
        ensures told { look.new ≡ all_events self.now }
        ensures accepted { is_accepted look.new ≡ true }
    {
        self.feed.tell(look);
    }

    /// Shows that what a reader has seen begins the events of the history. The reader must not be ahead.
    pub fn compare(&self, look: &Look<A>)
        requires { length look.now ≤ count_of self.now }
        ensures { IsPrefix look.now (all_events self.now) }
    {
        self.feed.compare(look);
    }

    /// One call of the pass with this seat: applies its event, writes the reply over `reply`, and brings its look up to
    /// date. Returns the position of the entry. Refused with [`Refusal::Behind`] if the look has seen more than is
    /// published, otherwise as [`Kept::apply_into`] is.
    pub(crate) fn call_into<R: Wait>(
        &mut self,
        rt: &R,
        alloc: Global,
        seat: usize,
        look: &mut Look<A>,
        event: &Event,
        reply: &mut Reply,
    ) -> Result<u64, Refusal>
        requires event { is_open_event event.now ≡ false }
        requires look { begins_open look.old ≡ true }
        requires seat { (0 < seat) × (seat ≤ A.places) }
        ensures answered { IfOk result (λ place. IsAnswered look.old event.now (receipt_of place reply.new) look.new) }
        ensures history { IfOk result (λ _. self.new ≡ with_entry self.old seat event.now) }
        ensures refused { OnErr result ((self.new ≡ self.old) × (look.new ≡ look.old) × (reply.new ≡ reply.old)) }
        ensures refusal { IfErr result (IsRefusal look.old) }
        // Which refusal it is.
        ensures exact { IfErr result (λ e. ((count_of self.old < length look.old)
            × (e ≡ Behind (length look.old) (count_of self.old)))
            ⊎ (refusal_of self.old seat ≡ Some e)
            ⊎ ((e ≡ NoMemory) × (refusal_of self.old seat ≡ None))) }
    {
        let seen = look.seen();
        let here = self.count();
        if here < seen {
            return Err(Refusal::Behind { seen, here });
        }
        // What the look has seen begins all events, so its opening gives the limit.
        self.compare(look);
        let _history = self.history();
        let answer = self.apply_into(rt, alloc, seat, event, reply);
        if answer.is_ok() {
            self.tell(look);
        }
        answer
    }

    /// Ends it, and forgets its history. Waits until no reader reads; from then on each look answers
    /// [`NoView`](Refusal::NoView).
    pub fn end<R: Wait>(self, rt: &R) {
        drop(self.into_history(rt));
    }

    /// Ends the feed. Returns the entries, how many were cut off before them, and the summary of those.
    pub(crate) fn into_history<R: Wait>(self, rt: &R) -> (Vec<Entry>, u64, Option<Summary>)
        ensures same { result.0.items ≡ self.history }
        ensures base { result.1 ≡ length self.past }
        ensures summary { result.2 ≡ self.summary }
        ensures rest { IsRest self.places self.past self.cut self.history }
        ensures stands { StandsFor self.summary self.past }
        ensures named { self.places ≡ A.places }
    {
        let Kept {
            places: _,
            limit: _,
            count: _,
            base,
            summary,
            cut: _,
            made: _,
            name: _,
            history,
            detector,
            feed,
        } = self;
        // A call of `drop` isn't taken apart field by field, as what is let go at the end is.
        drop(detector);
        feed.end(rt);
        (history.into_entries(), base, summary)
    }
}
