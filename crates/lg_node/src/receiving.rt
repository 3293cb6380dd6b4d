//! The work of the receiving loop, in a thread of its own.
//!
//! Defined in: `lg_turns/specs/Meaning/Turns.antt`, `lg_turns/specs/Meaning/BothLoops.antt`.
//! Tested in: `lg_node_tests/src/node/both.rt`, `lg_node_refusals/src/refused_memory.rt`.
ghost use Rattle.std.specs.Prelude.{◌≡◌, ◌≤◌, true, false};
ghost use Rattle.lg_agent.specs.declared.refusal.Refusal.TheVariants.{NoMemory};
ghost use Rattle.lg_turns.specs.declared.ending.Why.TheVariants.{Refused};

use crate::parts::Work;
use left_right::Absorb;
use lg_agent::{AgentName, Pass, Refusal};
use lg_clock::Clock;
use lg_detector::Event;
use lg_turns::{Ended, Link, ReceivingLoop, Shared, Side, Why};
use lg_view::{Published, Update};
use std::sync::Wait;

/// The receiving loop: what it works with.
#[derive(Drop)]
pub(crate) struct Receiving<'x, 'a, 'l, L, A: AgentName, O, R, C>
where
    Published<A>: Absorb<Update<A>, State = [Event; 0]>,
{
    /// Which loops these are.
    pub(crate) loops: O,
    pub(crate) shared: &'x Shared<'a, R, C>,
    pub(crate) pass: Pass<'l, A>,
    pub(crate) link: L,
}

impl<'x, 'a, 'l, L, A, O, R, C> Work<Ended<L, A>> for Receiving<'x, 'a, 'l, L, A, O, R, C>
where
    L: Link,
    A: AgentName,
    O: ReceivingLoop + Copy,
    R: Wait,
    C: Clock,
{
    ghost use Rattle.std.specs.Prelude.{◌≤◌};
    ghost use Rattle.lg_turns.specs.Meaning.Turns.{line, receives, Lasted};
    ghost use Rattle.lg_turns.specs.declared.shared.TheConstants.{MAX_TURNS};

    ghost needs = { λ w. w.shared.now.bound ≤ MAX_TURNS };

    ghost gives = { λ w r. Lasted (receives w.shared.now.wait_ms) L.tells w.shared.now.bound w.shared.now.endless
        (line (L.log w.link) (L.failed w.link)) (line (L.log r.link) (L.failed r.link))
        w.pass r.spent r.end };

    fn is_wanted(&self) -> bool {
        true
    }

    fn work(self) -> Ended<L, A> {
        O::receive_loop(self.shared, Side::new(self.pass, self.link))
    }
}

/// What the receiving loop leaves. If it had no thread, its end says that memory was refused.
pub(crate) fn end_of<L, A: AgentName>(received: Ended<L, A>, had_thread: bool) -> Ended<L, A>
    ensures had { had_thread ≡ true → result ≡ received }
    ensures lacked { had_thread ≡ false
        → result ≡ record received { end = record received.end { why = Refused NoMemory } } }
{
    let mut received = received;
    if !had_thread {
        received.end.why = Why::Refused(Refusal::NoMemory);
    }
    received
}
