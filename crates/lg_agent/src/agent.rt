//! The agent: the value under its lock, and the looks that wait for a pass.
//!
//! Defined in: `specs/Meaning/Values.antt`, `specs/Meaning/Calls.antt`.
//! Tested in: `lg_agent_tests/src/agent/rows.rt`.
ghost use Rattle.std.specs.Prelude.{◌≡◌, ◌<◌, ◌≤◌, ◌+◌, ◌⊎◌, [], ◌∷◌, List, true};
ghost use Rattle.std.specs.Prelude.{All, length, vec_len, IfOk, IfErr};
ghost use Rattle.std.specs.Vec.{vec_capacity};
ghost use Rattle.lg_timing.specs.Meaning.Config.{IsChecked};
ghost use Rattle.lg_detector.specs.declared.event.Event.{Event as Happened};
ghost use Rattle.lg_detector.specs.declared.event.Event.TheVariants.{Open};
ghost use Rattle.lg_view.specs.Meaning.Views.{begins_open};
ghost use Rattle.lg_agent.specs.declared.refusal.Refusal.TheVariants.{NoMemory, NoPlace};
ghost use Rattle.lg_agent.specs.Meaning.Calls.{AreFresh};
ghost use Rattle.lg_agent.specs.Meaning.Values.{all_events};

use crate::kept::{Kept, MAX_PLACES};
use crate::name::AgentName;
use crate::pass::Pass;
use crate::refusal::Refusal;
use crate::spent::Spent;
use left_right::Absorb;
use lg_detector::{Event, NoMemory};
use lg_rules::Name;
use lg_timing::{Config, Moment};
use lg_view::{Look, Published, UnnamedBook, Update};
use std::alloc::Global;
use std::marker::Model;
use std::mem;
use std::sync::{Mutex, Wait};

/// What the threads of a service share. A contract sees the member's name, and for each seat that waits for a pass
/// the events that its look has seen.
///
/// It isn't `Drop`: [`Agent::close`] or [`Agent::abandon`] ends it.
pub struct Agent<A: AgentName>
where
    Published<A>: Absorb<Update<A>, State = [Event; 0]>,
{
    pub(crate) kept: Mutex<Kept<A>>,
    pub(crate) name: Name,
    /// The look of each seat that waits for a pass.
    pub(crate) waiting: Vec<Look<A>>,
}

impl<A: AgentName> Model for Agent<A>
where
    Published<A>: Absorb<Update<A>, State = [Event; 0]>,
{
    ghost use Rattle.std.specs.Prelude.{◌≡◌, ◌≤◌, true, All, length};
    ghost use Rattle.lg_view.specs.Meaning.Views.{begins_open};
    ghost use Rattle.lg_agent.specs.Meaning.Values.{AgentValue};

    ghost Value = { AgentValue };

    ghost view = { λ a. record { name = a.name; told = a.waiting.items } };

    // Each look has seen the opening, and there are no more looks than places.
    ghost invariant = { λ a. All (λ look. begins_open look ≡ true) a.waiting.items
        × (length a.waiting.items ≤ A.places) };
}

impl<A: AgentName> Agent<A> {
    /// Opens an agent with this number of places, at a moment in milliseconds. The opening is published, and each
    /// seat waits for its pass.
    ///
    /// The book has to be the one that `A` names, and the configuration has to be checked. The places have to be 1 to
    /// [`MAX_PLACES`], as many as `A` names. Allocates memory. Refused with [`Refusal::NoMemory`] if that was refused,
    /// or with [`Refusal::NoPlace`] if there was no reader for a seat.
    pub fn open<R: Wait>(
        rt: &R,
        alloc: Global,
        book: UnnamedBook,
        now: Moment,
        config: Config,
        places: usize,
    ) -> Result<Agent<A>, Refusal>
        requires book { book.seen.book ≡ A.book }
        requires config { IsChecked config }
        requires places { (0 < places) × (places ≤ MAX_PLACES) × (places ≡ A.places) }
        ensures name { IfOk result (λ a. a.name ≡ config.name) }
        // Each look has seen this opening.
        ensures told { IfOk result (λ a. (length a.told ≡ places)
            × All (λ seen. seen ≡ Open now config ∷ []) a.told) }
        ensures refused { IfErr result (λ e. (e ≡ NoMemory) ⊎ (e ≡ NoPlace)) }
    {
        let name = config.name;
        let (kept, looks) = Kept::open(rt, alloc, book, now, config, places)?;
        let mut waiting = looks;
        tell_all(&kept, waiting.as_mut_slice());
        Ok(Agent {
            kept: Mutex::new(kept),
            name,
            waiting,
        })
    }

    /// A fresh pass for each seat that waits, in the order of the seats; then none waits. Allocates the list of the
    /// passes, and takes no lock. It is no event. The only error is that memory was refused, and then nothing has
    /// changed.
    pub fn passes(&mut self, alloc: Global) -> Result<Vec<Pass<'_, A>>, NoMemory>
        ensures count { IfOk result (λ passes. vec_len passes ≡ length self.old.told) }
        ensures fresh { IfOk result (λ passes. AreFresh self.old.name 0 passes.items) }
        // If all looks that wait have seen the same events, each pass has seen these.
        ensures seen { (f : List Happened) → All (λ told. told ≡ f) self.old.told
            → IfOk result (λ passes. All (λ pass. pass.seen ≡ f) passes.items) }
    {
        let passes = Vec::with_capacity(alloc, self.waiting.len())?;
        let looks = mem::replace(&mut self.waiting, Vec::new(alloc));
        Ok(hand_out(alloc, &self.kept, self.name, looks, passes))
    }

    /// Ends the agent, and forgets its history. Waits until no reader reads; from then on each look answers
    /// [`Refusal::NoView`].
    pub fn abandon<R: Wait>(self, rt: &R) {
        let Agent {
            kept,
            name: _,
            waiting: _,
        } = self;
        kept.into_inner().end(rt);
    }
}

/// A pass for each of these looks, put into a list with enough capacity for them.
fn hand_out<'a, A: AgentName>(
    alloc: Global,
    kept: &'a Mutex<Kept<A>>,
    name: Name,
    looks: Vec<Look<A>>,
    passes: Vec<Pass<'a, A>>,
) -> Vec<Pass<'a, A>>
    requires looks { All (λ look. begins_open look ≡ true) looks.items }
    requires room { (passes.items ≡ []) × (vec_len looks ≤ vec_capacity passes) }
    requires places { vec_len looks ≤ A.places }
    ensures count { vec_len result ≡ vec_len looks }
    ensures fresh { AreFresh name 0 result.items }
    ensures seen { (f : List Happened) → All (λ look. look ≡ f) looks.items
        → All (λ pass. pass.seen ≡ f) result.items }
{
    let (mut looks, mut passes) = (looks, passes);
    while let Some(look) = looks.pop() {
        let own = Spent {
            name,
            seat: passes.len() + 1,
            look,
            gone: 0,
            mine: Vec::new(alloc),
        };
        passes.push_reserved(Pass { kept, own });
    }
    passes
}

/// Brings each look, none of which has seen anything, up to date with the history.
fn tell_all<A: AgentName>(kept: &Kept<A>, looks: &mut [Look<A>])
    requires { All (λ look. look ≡ []) looks.old }
    ensures told { All (λ look. look ≡ all_events kept.now) looks.new }
    ensures count { length looks.new ≡ length looks.old }
{
    for look in looks {
        kept.tell_first(look);
    }
}

impl<A: AgentName> Kept<A> {
    /// Brings a look that has seen nothing up to date.
    fn tell_first(&self, look: &mut Look<A>)
        requires { look.old ≡ [] }
        ensures { look.new ≡ all_events self.now }
    {
        self.tell(look);
    }
}
