//! How the value under the lock begins: with the entry of the opening, which is published.
//!
//! Defined in: `specs/Meaning/Values.antt`, `lg_history/specs/Meaning/History.antt`.
//! Tested in: `lg_agent_tests/src/agent/rows.rt`.
ghost use Rattle.std.specs.Prelude.{◌≡◌, ℕ, ◌<◌, ◌≤◌, ◌⊎◌, [], ◌∷◌, ◌++◌};
ghost use Rattle.std.specs.Prelude.{All, IfOk, IfErr, OnOk, IsTrue, vec_len, None, true};
ghost use Rattle.lg_timing.specs.Meaning.Config.{IsChecked};
ghost use Rattle.lg_detector.specs.declared.event.Event.TheVariants.{Open};
ghost use Rattle.lg_detector.specs.Meaning.Step.{is_accepted, reply_after};
ghost use Rattle.lg_detector.specs.Support.Step.{accepts_of, state_after};
ghost use Rattle.lg_history.specs.Meaning.History.{entry};
ghost use Rattle.lg_history.specs.Meaning.Rest.{of_seat};
ghost use Rattle.lg_agent.specs.declared.refusal.Refusal.TheVariants.{NoMemory, NoPlace};

use super::{Kept, MAX_PLACES, SEATS};
use crate::name::AgentName;
use crate::refusal::Refusal;
use lg_detector::{Detector, Event, NoMemory, Reply};
use lg_history::History;
use lg_timing::{Config, Moment};
use lg_view::{Feed, Look, PairFault, UnnamedBook, pair};
use std::alloc::Global;
use std::sync::Wait;

impl<A: AgentName> Kept<A> {
    /// A history of one entry, that of the opening, and a look for each seat, which has seen nothing.
    ///
    /// The book has to be the one that `A` names, and the configuration has to be checked. The places have to be 1 to
    /// [`MAX_PLACES`], as many as `A` names. Refused with [`Refusal::NoPlace`] if there was no reader for a seat, or
    /// with [`Refusal::NoMemory`] if memory was refused.
    pub fn open<R: Wait>(
        rt: &R,
        alloc: Global,
        book: UnnamedBook,
        now: Moment,
        config: Config,
        places: usize,
    ) -> Result<(Kept<A>, Vec<Look<A>>), Refusal>
        requires book { book.seen.book ≡ A.book }
        requires config { IsChecked config }
        requires places { (0 < places) × (places ≤ MAX_PLACES) × (places ≡ A.places) }
        ensures kept { IfOk result (λ r. r.0 ≡ record {
          places = places;
          limit = config.history_limit;
          summary = None;
          cut = r.0.cut;
          past = [];
          history = entry 0 (Open now config) (reply_after [] (Open now config)) ∷ [];
        }) }
        ensures none_cut { IfOk result (λ r. (seat : ℕ) → of_seat r.0.cut seat ≡ 0) }
        ensures looks { IfOk result (λ r. (vec_len r.1 ≡ places) × All (λ look. look ≡ []) r.1.items) }
        ensures refused { IfErr result (λ e. (e ≡ NoMemory) ⊎ (e ≡ NoPlace)) }
    {
        let (feed, looks) = match pair::<A, R>(rt, alloc, book, places) {
            Ok(both) => both,
            Err(PairFault::NoMemory) => return Err(Refusal::NoMemory),
            Err(PairFault::NoPlace) => return Err(Refusal::NoPlace),
        };
        let kept = Kept::over(rt, alloc, feed, now, config, places)?;
        Ok((kept, looks))
    }

    /// A history of the opening's entry, which is published by a feed that nothing was appended to. If memory is
    /// refused, the feed is ended.
    fn over<R: Wait>(
        rt: &R,
        alloc: Global,
        feed: Feed<A>,
        now: Moment,
        config: Config,
        places: usize,
    ) -> Result<Kept<A>, Refusal>
        requires feed { (feed.events ≡ []) × (feed.waiting ≡ []) }
        requires config { IsChecked config }
        requires places { (0 < places) × (places ≤ MAX_PLACES) × (places ≡ A.places) }
        ensures kept { IfOk result (λ k. k ≡ record {
          places = places;
          limit = config.history_limit;
          summary = None;
          cut = k.cut;
          past = [];
          history = entry 0 (Open now config) (reply_after [] (Open now config)) ∷ [];
        }) }
        ensures none_cut { IfOk result (λ k. (seat : ℕ) → of_seat k.cut seat ≡ 0) }
        ensures refused { IfErr result (λ e. e ≡ NoMemory) }
    {
        let mut feed = feed;
        let (name, limit) = (config.name, config.history_limit);
        let event = Event::Open { now, config };
        let Ok((detector, history)) = happen(alloc, &mut feed, &event) else {
            feed.end(rt);
            return Err(Refusal::NoMemory);
        };
        feed.publish(rt);
        let mut made = [0; SEATS];
        made[0] = 1;
        Ok(Kept {
            places,
            limit,
            count: 1,
            base: 0,
            summary: None,
            cut: [0; SEATS],
            made,
            name,
            history,
            detector,
            feed,
        })
    }
}

/// The opening happens. This makes a detector that it opened, a history of its entry, and a feed on which it waits to
/// be published. The only error is that memory was refused.
fn happen<A: AgentName>(
    alloc: Global,
    feed: &mut Feed<A>,
    event: &Event,
) -> Result<(Detector, History), NoMemory>
    requires feed { (feed.old.events ≡ []) × (feed.old.waiting ≡ []) }
    requires accepts { IsTrue (accepts_of (state_after []) event.now) }
    requires accepted { is_accepted (event.now ∷ []) ≡ true }
    ensures waits { OnOk result (feed.new ≡ record feed.old { waiting = event.now ∷ [] }) }
    ensures detector { IfOk result (λ r. r.0 ≡ state_after (event.now ∷ [])) }
    ensures history { IfOk result (λ r. r.1 ≡ record {
      entries = entry 0 event.now (reply_after [] event.now) ∷ [];
      prepared = None;
    }) }
{
    let mut detector = Detector::blank(alloc)?;
    let mut history = History::new(alloc);
    history.prepare(alloc, 0, event)?;
    feed.append(alloc, event)?;
    let mut reply = Reply::default();
    detector.step(event, &mut reply);
    history.complete(alloc, &reply);
    Ok((detector, history))
}
