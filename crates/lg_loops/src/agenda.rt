//! When the ticking loop asks seeds and members for their tables.
//!
//! Defined in: `specs/Meaning/Pulling.antt`, `specs/Meaning/Pausing.antt`, `specs/Support/Acted.antt`.
//! Tested in: `lg_node_tests/src/node/finding.rt`, `cases/groups`.
ghost use Rattle.std.specs.Prelude.{◌≡◌, ◌≤◌, ◌<◌, ◌+◌, ◌%◌, [], true, length, min, if◌then◌else◌, MatchOption};
ghost use Rattle.lg_turns.specs.Meaning.Pausing.{time_until, look_left, asking_left, least_time};
ghost use Rattle.lg_loops.specs.Support.Acted.{IsAgenda, IsDuty, IsNoLook, IsNoAsking, IsSeedNext, IsMemberNext};
ghost use Rattle.lg_loops.specs.Support.Acted.{IsNextAgenda, agenda_at};

use lg_rules::Addr;
use lg_timing::Moment;
use lg_turns::{MAX_ASKED, Plan};

/// How long it is from one look whether the seeds are to be asked to the next, in milliseconds.
pub const LOOK_MS: u64 = 1000;

/// The longest time that a number can say, in milliseconds: so long it is until what never comes.
pub(crate) const LONGEST: u64 = u64::MAX;

/// What the ticking loop has done besides its ticks.
#[derive(Clone, Copy, Debug)]
pub(crate) struct Agenda {
    /// From when on there is a look whether the seeds are to be asked.
    next_look: u64,
    /// The moment at which a table was asked for in turn the last time, or that from which this is counted: when a look
    /// said that the seeds are to be asked, or the loop began.
    latest: u64,
    /// How long it is from there until a table is asked for in turn, in milliseconds.
    distance: u64,
    /// Whether a seed is asked then, if there are seeds. Else it is a member.
    is_seeds_turn: bool,
    /// The number of the seed whose turn comes next, from 0.
    next_seed: usize,
    /// How many of the seeds don't wait to be asked: the first ones.
    asked: usize,
    /// Whether this member has left its group.
    left: bool,
}

/// What is to be done if no tick is.
#[derive(Clone, Copy, Debug)]
pub(crate) enum Duty {
    /// A seed at this address, which waits, is to be asked.
    Seed(Addr),
    /// There is to be a look whether the seeds are to be asked.
    Look,
    /// A seed at this address is to be asked, since it is its turn.
    SeedInTurn(Addr),
    /// A member is to be chosen and asked.
    Member,
    /// Nothing, until so many milliseconds have passed: then there is to be a look, or a table is asked for in turn.
    Rest(u64),
}

/// How long it is from now until an interval has passed since a moment, and 0 if it has. What no number can say counts
/// as the longest time.
fn remaining(from: u64, interval: u64, now: Moment) -> u64
    ensures { result ≡ min LONGEST (time_until (from + interval) now) }
{
    let moment = now.milliseconds();
    let passed = moment.saturating_sub(from);
    let ahead = from.saturating_sub(moment);
    ahead.saturating_add(interval.saturating_sub(passed))
}

/// From when on there is a look again, if the last was at a moment.
fn look_behind(now: Moment) -> u64
    ensures { result ≡ now + LOOK_MS }
{
    now.milliseconds() + LOOK_MS
}

/// The number behind a number, in turn: 0 comes behind the last of so many.
fn number_behind(number: usize, count: usize) -> usize
    ensures { 0 < count → result ≡ (number + 1) % count }
{
    if count == 0 {
        return 0;
    }
    (number % count + 1) % count
}

impl Agenda {
    /// The agenda at the beginning of a loop: no seed waits.
    pub(crate) fn begin(plan: &Plan, now: Moment) -> Agenda
        ensures { IsAgenda plan.now now [] result }
    {
        Agenda::at(plan, now, plan.seeds.len())
    }

    /// An agenda that counts everything from a moment. So many of the seeds, the first ones, don't wait.
    fn at(plan: &Plan, now: Moment, asked: usize) -> Agenda
        ensures { result ≡ agenda_at plan.now now asked }
    {
        let moment = now.milliseconds();
        Agenda {
            next_look: look_behind(now),
            latest: moment,
            distance: plan.pull_ms.min(plan.interval_ms),
            is_seeds_turn: true,
            next_seed: 0,
            asked,
            left: false,
        }
    }

    /// How long it is until the next look. If there are no seeds, there is none, and it is the longest time.
    fn until_look(&self, plan: &Plan, now: Moment) -> u64
        ensures left { result ≡ least_time LONGEST (look_left plan.now self.now.next_look now) }
        ensures due { result ≡ 0 → (0 < length plan.now.seeds.items) × (self.now.next_look ≤ now) }
        ensures later { 0 < result → IsNoLook plan.now self.now now }
    {
        if plan.seeds.len() == 0 {
            return LONGEST;
        }
        self.next_look.saturating_sub(now.milliseconds())
    }

    /// How long it is until a table is asked for in turn. If none ever is, it is the longest time.
    fn until_asking(&self, plan: &Plan, now: Moment) -> u64
        ensures left { result ≡ least_time LONGEST (asking_left plan.now (self.now.latest + self.now.distance) now) }
        ensures due { result ≡ 0 → (0 < plan.now.pull_ms) × (self.now.latest + self.now.distance ≤ now) }
        ensures later { 0 < result → IsNoAsking plan.now self.now now }
    {
        if plan.pull_ms == 0 {
            return LONGEST;
        }
        remaining(self.latest, self.distance, now)
    }

    /// The address of the seed whose turn it is, or none if it is that of a member.
    fn seed_in_turn(&self, plan: &Plan) -> Option<Addr>
        ensures { MatchOption result (IsMemberNext plan.now self.now) (IsSeedNext plan.now self.now) }
    {
        let count = plan.seeds.len();
        if !self.is_seeds_turn || count == 0 {
            return None;
        }
        Some(plan.seeds[self.next_seed % count])
    }

    /// What is to be done at a moment.
    pub(crate) fn duty(&self, plan: &Plan, now: Moment) -> Duty
        ensures { IsDuty plan.now self.now now result }
    {
        if self.asked < plan.seeds.len() {
            return Duty::Seed(plan.seeds[self.asked]);
        }
        let look = self.until_look(plan, now);
        if look == 0 {
            return Duty::Look;
        }
        let asking = self.until_asking(plan, now);
        if asking > 0 {
            return Duty::Rest(look.min(asking));
        }
        match self.seed_in_turn(plan) {
            Some(peer) => Duty::SeedInTurn(peer),
            None => Duty::Member,
        }
    }

    /// A seed that waited was asked.
    pub(crate) fn note_seed(&mut self)
        requires { self.old.asked < MAX_ASKED }
        ensures { self.new ≡ record self.old { asked = self.old.asked + 1 } }
    {
        self.asked += 1;
    }

    /// There was a look, and the seeds are to be asked or not. If they are, it is counted anew from here when tables
    /// are asked for in turn.
    pub(crate) fn note_look(&mut self, plan: &Plan, now: Moment, asks: bool)
        ensures { self.new ≡ (if asks then record (agenda_at plan.now now 0) { left = self.old.left }
            else record self.old { next_look = now + LOOK_MS; asked = length plan.now.seeds.items }) }
    {
        if asks {
            let left = self.left;
            *self = Agenda {
                left,
                ..Agenda::at(plan, now, 0)
            };
            return;
        }
        self.next_look = look_behind(now);
        self.asked = plan.seeds.len();
    }

    /// A look was refused: it is put off to the next time.
    pub(crate) fn note_no_look(&mut self, now: Moment)
        ensures { self.new ≡ record self.old { next_look = now + LOOK_MS } }
    {
        self.next_look = look_behind(now);
    }

    /// Other addresses of the seeds were learned, which the plan has: there is a look at once. None waits until then,
    /// and it is counted anew from here when tables are asked for in turn.
    pub(crate) fn note_learned(&mut self, plan: &Plan, now: Moment)
        ensures { self.new ≡ record (agenda_at plan.now now (length plan.now.seeds.items))
            { next_look = now; left = self.old.left } }
    {
        let left = self.left;
        *self = Agenda {
            next_look: now.milliseconds(),
            left,
            ..Agenda::at(plan, now, plan.seeds.len())
        };
    }

    /// A table was asked for in turn, or was to be.
    pub(crate) fn note_asking(&mut self, plan: &Plan, now: Moment)
        ensures { IsNextAgenda plan.now now self.old self.new }
    {
        if self.is_seeds_turn {
            self.next_seed = number_behind(self.next_seed, plan.seeds.len());
        }
        self.is_seeds_turn = !self.is_seeds_turn;
        self.distance = self.distance.saturating_mul(2).min(plan.pull_ms);
        self.latest = now.milliseconds();
    }

    /// The member left: nobody is asked any more.
    pub(crate) fn note_leave(&mut self)
        ensures { self.new ≡ record self.old { distance = 0; asked = 0; left = true } }
    {
        self.distance = 0;
        self.asked = 0;
        self.left = true;
    }

    /// Whether this member has left.
    pub(crate) fn has_left(&self) -> bool
        ensures { result ≡ self.now.left }
    {
        self.left
    }
}
