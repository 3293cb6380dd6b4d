//! The steady clock as a value: it is handed the moments of the machine's clock, and gives its own.
//!
//! Defined in: `specs/Meaning/Steady.antt`, `specs/Meaning/Keeping.antt`, `specs/Support/Steady.antt`.
//! Tested in: `lg_node_tests/src/clock.rt`.
ghost use Rattle.std.specs.Prelude.{◌≡◌, ◌≤◌, ◌+◌, ◌-◌, ℕ, List, [], ◌∷◌, Some, None};
ghost use Rattle.lg_clock.specs.Meaning.Keeping.{AreSteady, IsWithinStall};
ghost use Rattle.lg_clock.specs.Meaning.Steady.{Handed, readings, steady_after, held_back};
ghost use Rattle.lg_clock.specs.Support.Steady.{read_at, turned_at};

use crate::clock::Loop;
use crate::last_turns::{LastTurns, pause_end};
use lg_timing::Moment;
use std::marker::Model;

/// The machine's clock, which leaves out the time in which one of a node's two loops began no turn (this project's
/// choice).
///
/// It is handed the moments of the machine's clock, and goes on by as much as these do. But it never passes the older
/// of the two loops' last turns by more than its stall. The last turn of a loop is the moment at which it last began
/// one, or at which the pause ends that it has begun since. The first turn of either loop is taken as one of both, and
/// nothing is held back before it. So once a loop has begun no turn for longer than the stall, and pauses no more, the
/// clock stands still until it does.
///
/// A contract sees its stall, how far the machine's clock has come, its moment and the last turns.
#[derive(Debug, Drop)]
pub struct Steady {
    stall: u64,
    /// The latest moment of the machine's clock.
    machine: Moment,
    moment: Moment,
    /// The last turns of the loops, or none before the first turn.
    turns: Option<LastTurns>,
}

impl Model for Steady {
    ghost use Rattle.lg_clock.specs.Meaning.Steady.{SteadyValue};
    ghost use Rattle.lg_clock.specs.Support.Steady.{IsInOrder};

    ghost Value = { SteadyValue };

    ghost view = { λ s. record { stall = s.stall; machine = s.machine; moment = s.moment; turns = s.turns } };

    ghost invariant = { λ s. IsInOrder record {
      stall = s.stall;
      machine = s.machine;
      moment = s.moment;
      turns = s.turns;
    } };
}

impl Steady {
    /// A clock at moment 0, which was handed nothing so far. It passes the older of the last turns by at most `stall`
    /// milliseconds. A stall of 0 switches this off: then it gives the machine's moments.
    pub fn new(stall: u64) -> Steady
        ensures { result ≡ steady_after stall [] }
    {
        Steady {
            stall,
            machine: Moment::default(),
            moment: Moment::default(),
            turns: None,
        }
    }

    /// The moment, if the machine's clock now shows `machine`. If that is earlier than a moment that was handed in
    /// before, no time has passed.
    pub fn read(&mut self, machine: Moment) -> Moment
        ensures value { self.new ≡ read_at machine self.old }
        ensures moment { result ≡ self.new.moment }
        ensures never_back { self.old.moment ≤ result }
        ensures never_faster { result ≤ self.old.moment + (machine - self.old.machine) }
        ensures within_stall { IsWithinStall self.new }

        // If the clock was handed this before (the latest first), it is now one that was handed this moment, too.
        ensures after { (past : List Handed) → self.old ≡ steady_after self.old.stall past
            → self.new ≡ steady_after self.old.stall
            (record { machine = machine; turned = None; pause = 0 } ∷ past) }
    {
        let free = self.free(machine);
        let held = self.held_back(free);
        self.machine = self.machine.later(machine);
        self.moment = Moment::new(held).unwrap_or_default();
        self.moment
    }

    /// The moment in milliseconds, if nothing is held back.
    fn free(&self, machine: Moment) -> u64
        ensures { result ≡ self.now.moment + (machine - self.now.machine) }
    {
        let passed = machine
            .milliseconds()
            .saturating_sub(self.machine.milliseconds());
        self.moment.milliseconds() + passed
    }

    /// A moment in milliseconds, or a stall after the older of the last turns if that is earlier.
    fn held_back(&self, moment: u64) -> u64
        ensures { result ≡ held_back self.now.stall self.now.turns moment }
    {
        match &self.turns {
            Some(turns) if self.stall > 0 => {
                let last = turns.older().saturating_add(self.stall);
                moment.min(last)
            }
            _ => moment,
        }
    }

    /// A loop begins a turn, and the machine's clock now shows `machine`. The clock is read, and the moment that it
    /// gives is the loop's last turn.
    pub fn begin_turn(&mut self, of: Loop, machine: Moment)
        ensures value { self.new ≡ turned_at machine of 0 self.old }
        ensures never_back { self.old.moment ≤ self.new.moment }
        ensures never_faster { self.new.moment ≤ self.old.moment + (machine - self.old.machine) }
        ensures within_stall { IsWithinStall self.new }

        // If the clock was handed this before (the latest first), it is now one that was handed this turn, too.
        ensures after { (past : List Handed) → self.old ≡ steady_after self.old.stall past
            → self.new ≡ steady_after self.old.stall
            (record { machine = machine; turned = Some of; pause = 0 } ∷ past) }
    {
        self.begin_pause(of, 0, machine);
    }

    /// A loop begins a pause of `ms` milliseconds, and the machine's clock now shows `machine`. The clock is read, and
    /// the moment at which the pause ends is the loop's last turn.
    #[tactic(auto, using(crate::proofs::Turning::turned_is))]
    pub fn begin_pause(&mut self, of: Loop, ms: u64, machine: Moment)
        ensures value { self.new ≡ turned_at machine of ms self.old }
        ensures never_back { self.old.moment ≤ self.new.moment }
        ensures never_faster { self.new.moment ≤ self.old.moment + (machine - self.old.machine) }
        ensures within_stall { IsWithinStall self.new }

        // If the clock was handed this before (the latest first), it is now one that was handed this pause, too.
        ensures after { (past : List Handed) → self.old ≡ steady_after self.old.stall past
            → self.new ≡ steady_after self.old.stall
            (record { machine = machine; turned = Some of; pause = ms } ∷ past) }
    {
        let now = self.read(machine);
        self.turns = Some(LastTurns::after(self.turns, of, pause_end(now, ms)));
    }

    /// The milliseconds that the clock has left out so far: those of the machine's clock less its own.
    pub fn stood_still(&self) -> u64
        ensures { self.now.moment + result ≡ self.now.machine }
    {
        self.machine.milliseconds() - self.moment.milliseconds()
    }
}

/// Each reading of a steady clock keeps time. It doesn't go back. It goes on by at most as much as the machine's clock
/// did, and by less only if it is then just a stall after the older of the loops' last turns. It is never further after
/// that one. With a stall of 0, and before the first turn, it is the machine's moment. This is a law, and the call does
/// nothing.
pub fn steady_clocks_keep_time()
    ensures { (stall : ℕ) (handed : List Handed) → AreSteady stall (readings stall handed) }
{}
