//! The loops of a node, as its start and its threads need them: traits, so that an edit of a loop doesn't prove the
//! start, nor the other way round.
//!
//! Defined in: `specs/Meaning/Turns.antt`, `specs/Meaning/Pulling.antt`, `specs/Meaning/Asking.antt`.
//! Tested in: `lg_node_tests/src/node/both.rt`.
ghost use Rattle.std.specs.Prelude.{◌≤◌, ◌*◌, length, IfOk, IfErr};
ghost use mathlib.Core.List.{IsPrefix};
ghost use Rattle.lg_agent.specs.Meaning.Values.{PassValue};
ghost use Rattle.lg_agent.specs.Meaning.Calls.{IsRefusal};
ghost use Rattle.lg_turns.specs.Meaning.Asking.{Asked};
ghost use Rattle.lg_turns.specs.Meaning.Pulling.{Ticking};
ghost use Rattle.lg_turns.specs.Meaning.Turns.{line, receives, Lasted};

use crate::dice::Dice;
use crate::ending::Ended;
use crate::link::Link;
use crate::plan::Plan;
use crate::shared::{MAX_TURNS, Shared, Side};
use lg_agent::{AgentName, Pass, Refusal};
use lg_clock::Clock;
use lg_rules::Addr;
use lg_timing::MAX_SEEDS;
use std::sync::Wait;

/// Asks the seeds of a node.
pub trait SeedAsker {
    /// Asks the seed at each of these addresses for its table, in order, and goes on if a packet isn't sent. Returns
    /// how many packets weren't sent. The error is the refusal of the first call that is refused, by what the pass had
    /// seen by then.
    fn ask_each<A: AgentName, R: Wait, L: Link, C: Clock>(
        shared: &Shared<'_, R, C>,
        pass: &mut Pass<'_, A>,
        link: &mut L,
        seeds: &[Addr],
    ) -> Result<u64, Refusal>
        requires { length seeds.now ≤ MAX_SEEDS }
        ensures asked { IfOk result (Asked L.tells seeds.now (line (L.log link.old) (L.failed link.old))
            (line (L.log link.new) (L.failed link.new)) pass.old pass.new) }
        ensures few { IfOk result (λ unsent. unsent ≤ 8 * MAX_SEEDS) }
        ensures refused { IfErr result (λ e. (p : PassValue) × IsPrefix pass.old.seen p.seen × IsRefusal p.seen e) };
}

/// The ticking loop of a node.
pub trait TickingLoop {
    /// Ticks whenever the next deadline has come, and hands the packets of the replies to a link, until the stop flag
    /// is set or its end time comes. Meanwhile it finds its group, as the plan says.
    ///
    /// A turn makes one tick if a deadline has come. Otherwise it does the first of these that is to be done:
    /// 1. If hosts are among the seeds, and it was told which addresses they have, it learns these. They are seeds
    ///    then, in the place of those that it learned before.
    /// 2. It asks a seed that waits for this, with a Pull.
    /// 3. It looks at the members, once in [`LOOK_MS`](crate::LOOK_MS) milliseconds, and at once when it has learned
    ///    addresses. If no Page was heard so far, or each other member that it knows is gone, all seeds wait to be
    ///    asked.
    /// 4. It asks a seed and a member in turn for a table, the seed first. The seeds take turns among each other. A
    ///    member is one that random words choose of all that it knows, gone ones too; if it knows nobody, nobody is
    ///    asked. It does so one interval after it began, after a look by which all seeds waited, or after it learned
    ///    addresses. Each further time comes twice as long after the one before, but at most `plan.pull_ms`
    ///    milliseconds after it.
    /// 5. It pauses, until the first of these is due or its end time comes, `shared.pause_ms` milliseconds at most. The
    ///    pause ends early if a nearer deadline is told, or that it is to stop or to learn (`shared.deadlines`).
    ///
    /// A look that is refused is put off to its next time. It allocates memory for 256 records.
    ///
    /// When it is to stop, and `plan.leaves` says so, this member leaves its group, and the packets that tell some
    /// members at once are handed over ([`Pass::leave`](lg_agent::Pass::leave)). Then the loop goes on for one
    /// interval, and doesn't heed the stop flag. Meanwhile it only ticks, so that others hear of the leave, and asks
    /// nobody.
    ///
    /// It makes at most `shared.bound` turns. If it is endless it then goes on, and counts them anew. A packet that
    /// isn't sent is lost, and counted. A full history ends nothing: it is rotated, as
    /// [`Pass::rotate`](lg_agent::Pass::rotate) says, and the call is made then, with the same words.
    ///
    /// It ends with [`Why::Refused`] if a call was refused or a look at the next deadline, and with [`Why::Ousted`]
    /// after a reply that says so. A call is refused if memory is, for it or for the rotation. It is also refused if
    /// the history is still full after a rotation: another pass has filled it meanwhile, or there were as many events
    /// as a detector accepts. It ends with [`Why::ReadBound`] only if it isn't endless. It leaves at none of these
    /// ends. But if the receiving loop has met the reply that says so first, that one sets the stop flag, and this loop
    /// leaves as at any other stop. However the loop ends, it sets the flag by which the receiving loop ends.
    fn tick_loop<A: AgentName, R: Wait, L: Link, C: Clock, D: Dice + Drop>(
        shared: &Shared<'_, R, C>,
        side: Side<'_, L, A>,
        dice: D,
        plan: Plan,
    ) -> Ended<L, A>
        requires { shared.now.bound ≤ MAX_TURNS }
        ensures { Ticking D.throws dice plan L.tells shared.now.bound shared.now.endless
            (line (L.log side.entry.link) (L.failed side.entry.link))
            (line (L.log result.link) (L.failed result.link)) side.entry.pass result.spent result.end };
}

/// The receiving loop of a node.
pub trait ReceivingLoop {
    /// Hears the datagrams that come over a link, and hands the packets of the replies to it, until the ticking loop is
    /// over.
    ///
    /// It makes at most `shared.bound` turns, each of which waits for a datagram, `shared.wait_ms` milliseconds at
    /// most. If it is endless it then goes on, and counts them anew. A datagram whose bytes are no packet is dropped,
    /// and a packet that isn't sent is lost. Both are counted, and so is a packet of another group, which is heard and
    /// does nothing. It tells `shared.deadlines` when the next tick is due after each packet that it has heard, and
    /// wakes the ticking loop by it once the stop flag is set. A full history ends nothing: it is rotated, as
    /// [`Pass::rotate`](lg_agent::Pass::rotate) says, and the datagram is heard then. When a Page was heard, the loop
    /// sets `shared.page_heard`.
    ///
    /// It ends with [`Why::LinkFailed`] if receiving failed, with [`Why::Refused`] if a datagram whose bytes are a
    /// packet couldn't be heard, and with [`Why::Ousted`] after a reply that says so. A datagram can't be heard if
    /// memory was refused, for the call or for the rotation. Nor can it be heard if the history is still full after a
    /// rotation: another pass has filled it meanwhile, or there were as many events as a detector accepts. It ends with
    /// [`Why::ReadBound`] only if it isn't endless. However the loop ends, it sets the stop flag for the ticking loop.
    fn receive_loop<A: AgentName, R: Wait, L: Link, C: Clock>(
        shared: &Shared<'_, R, C>,
        side: Side<'_, L, A>,
    ) -> Ended<L, A>
        requires { shared.now.bound ≤ MAX_TURNS }
        ensures { Lasted (receives shared.now.wait_ms) L.tells shared.now.bound shared.now.endless
            (line (L.log side.entry.link) (L.failed side.entry.link))
            (line (L.log result.link) (L.failed result.link)) side.entry.pass result.spent result.end };
}
