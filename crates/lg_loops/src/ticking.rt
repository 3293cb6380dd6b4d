//! The ticking loop.
//!
//! Defined in: `specs/Meaning/Turns.antt`, `specs/Meaning/Pulling.antt`, `specs/Meaning/Pausing.antt`,
//! `specs/Support/Acted.antt`.
//! Tested in: `lg_node_tests/src/node/ticking.rt`, `cases/groups`.
ghost use Rattle.std.specs.Prelude.{◌≡◌, ◌≤◌, ◌<◌, ℕ, List, true, false, is_none, if◌then◌else◌, IfSome, MatchOption};
ghost use Rattle.lg_agent.specs.Meaning.Values.{PassValue};
ghost use Rattle.lg_turns.specs.declared.plan.Plan.{Plan as Planned};
ghost use Rattle.lg_turns.specs.Meaning.Leaving.{lingering};
ghost use Rattle.lg_loops.specs.declared.agenda.Duty.TheVariants as duty;
ghost use Rattle.lg_turns.specs.Meaning.Pausing.{longest_pause};
ghost use Rattle.lg_turns.specs.Meaning.Pulling.{Ticking};
ghost use Rattle.lg_turns.specs.Meaning.Turns.{line, words_in, SeesDue, Threw, Turn};
ghost use Rattle.lg_loops.specs.Support.Acted.{Acted, IsAgenda, IsDuty};

use crate::agenda::{Agenda, Duty};
use crate::finding::{ask_in_turn, ask_member, ask_seed, found_for, learn, look};
use crate::stretch::Stretch;
use crate::ticker::Ticker;
use crate::turned::Turned;
use crate::{NodeLoops, calling};
use lg_agent::AgentName;
use lg_clock::{Clock, Loop};
use lg_detector::Reply;
use lg_timing::Moment;
use lg_turns::{Dice, Ended, Link, MAX_TURNS, Plan, Shared, Side, TickingLoop, Why};
use std::sync::Wait;
use std::sync::atomic::Ordering::SeqCst;

/// Ticks, since the next deadline has come.
fn tick<A: AgentName, R: Wait, L: Link, C, D: Dice>(
    shared: &Shared<'_, R, C>,
    ticker: &mut Ticker<'_, L, A, D>,
    now: Moment,
    reply: &mut Reply,
) -> Turned
    ensures { (plan : Planned) → (agenda : Agenda) → (p : PassValue) → SeesDue p now ticker.old.side.pass
        → now < plan.until
        → (acted : Acted plan plan L.tells (line (L.log ticker.old.side.link) (L.failed ticker.old.side.link))
        (line (L.log ticker.new.side.link) (L.failed ticker.new.side.link)) p ticker.new.side.pass agenda agenda
        result)
        × Threw D.throws ticker.old.dice (words_in acted.took.turn) ticker.new.dice }
{
    match calling::tick(
        shared,
        &mut ticker.side.pass,
        now,
        ticker.dice.words(),
        reply,
    ) {
        Ok(_) => Turned::of(shared, &mut ticker.side.link, now, reply),
        Err(refusal) => Turned::refused(shared, refusal),
    }
}

/// How long a turn pauses at a moment that has nothing to do for so long, besides a tick at the next deadline.
fn pause_for(plan: &Plan, deadline: u64, now: Moment, limit: u64, most: u64) -> u64
    ensures { (since : ℕ) → (before : List Turn) → (agenda : Agenda)
        → IsAgenda plan.now since before agenda → IsDuty plan.now agenda now (duty.Rest limit)
        → result ≡ longest_pause most deadline plan.now since before now }
{
    let now = now.milliseconds();
    let until_tick = deadline.saturating_sub(now);
    let until_end = plan.until.milliseconds().saturating_sub(now);
    most.min(until_tick).min(until_end).min(limit)
}

/// Pauses for so many milliseconds, or until an earlier deadline than the next one is told. A loop that lingers tells
/// the clock that both pause, as each turn of it counts as one of both.
fn rest<R, C: Clock>(shared: &Shared<'_, R, C>, ms: u64, deadline: u64, lingers: bool) {
    shared.clock.begin_pause(Loop::Ticking, ms);
    if lingers {
        shared.clock.begin_pause(Loop::Receiving, ms);
    }
    shared.clock.pause_before(ms, deadline, shared.deadlines);
}

/// The moment of the next turn, or none if the loop is to stop: its end time has come, or, if it heeds the stop flag,
/// that flag is set. A loop that doesn't heed it lingers, and the receiving loop may have ended by then, which would
/// hold a steady clock back for ever. So each turn of it counts as one of both loops.
fn next_moment<R: Wait, C: Clock>(
    shared: &Shared<'_, R, C>,
    until: Moment,
    heeds_stop: bool,
) -> Option<Moment>
    ensures { IfSome result (λ now. now < until) }
{
    shared.deadlines.begin_turn(shared.rt);
    shared.clock.begin_turn(Loop::Ticking);
    if !heeds_stop {
        shared.clock.begin_turn(Loop::Receiving);
    } else if shared.stop.load(SeqCst) {
        return None;
    }
    let now = shared.clock.now();
    if now.milliseconds() < until.milliseconds() {
        Some(now)
    } else {
        None
    }
}

/// The turn of a loop that is to stop, if this member leaves then: it leaves its group at a moment, and the packets
/// that tell others are handed over. If the call isn't refused, the loop lingers behind it. The reply is written over
/// `reply`.
fn depart<A: AgentName, R: Wait, L: Link, C, D: Dice>(
    shared: &Shared<'_, R, C>,
    ticker: &mut Ticker<'_, L, A, D>,
    plan: &mut Plan,
    agenda: &mut Agenda,
    now: Moment,
    reply: &mut Reply,
) -> Turned
    ensures acted { plan.old.leaves ≡ true
        → (acted : Acted plan.old plan.new L.tells
        (line (L.log ticker.old.side.link) (L.failed ticker.old.side.link))
        (line (L.log ticker.new.side.link) (L.failed ticker.new.side.link)) ticker.old.side.pass
        ticker.new.side.pass agenda.old agenda.new result)
        × Threw D.throws ticker.old.dice (words_in acted.took.turn) ticker.new.dice }
    ensures plan { plan.new ≡ (if is_none result.why then lingering plan.old now else plan.old) }
{
    match calling::leave(
        shared,
        &mut ticker.side.pass,
        now,
        ticker.dice.words(),
        reply,
    ) {
        Ok(_) => {
            plan.linger(now);
            agenda.note_leave();
            Turned::handed(shared, &mut ticker.side.link, now, reply)
        }
        Err(refusal) => Turned::refused(shared, refusal),
    }
}

/// The next turn of a loop, or none if it is to stop and this member doesn't leave, or has left. If the loop goes on,
/// it ticks if the next deadline has come. Otherwise it learns addresses of seeds if there are any to learn, does what
/// the agenda says, or pauses. A reply is written over `reply`.
fn next_turn<A: AgentName, R: Wait, L: Link, C: Clock, D: Dice>(
    shared: &Shared<'_, R, C>,
    ticker: &mut Ticker<'_, L, A, D>,
    plan: &mut Plan,
    agenda: &mut Agenda,
    reply: &mut Reply,
) -> Option<Turned>
    ensures { MatchOption result ((plan.old.leaves ≡ false) × (ticker.new ≡ ticker.old))
        (λ turned. (acted : Acted plan.old plan.new L.tells
        (line (L.log ticker.old.side.link) (L.failed ticker.old.side.link))
        (line (L.log ticker.new.side.link) (L.failed ticker.new.side.link)) ticker.old.side.pass
        ticker.new.side.pass agenda.old agenda.new turned)
        × Threw D.throws ticker.old.dice (words_in acted.took.turn) ticker.new.dice) }
{
    let Some(now) = next_moment(shared, plan.until, !agenda.has_left()) else {
        if !plan.leaves {
            return None;
        }
        let now = shared.clock.now();
        return Some(depart(shared, ticker, plan, agenda, now, reply));
    };
    let deadline = match ticker.side.pass.next_deadline() {
        Ok(deadline) => deadline,
        Err(refusal) => return Some(Turned::end(Why::Refused(refusal))),
    };
    if deadline <= now.milliseconds() {
        return Some(tick(shared, ticker, now, reply));
    }
    if let Some(found) = found_for(shared, plan) {
        return Some(learn(&ticker.side, plan, agenda, now, &found));
    }
    Some(match agenda.duty(plan, now) {
        Duty::Seed(peer) => ask_seed(shared, &mut ticker.side, agenda, now, peer, reply),
        Duty::Look => look(shared, &mut ticker.side, plan, agenda, now),
        Duty::SeedInTurn(peer) => {
            agenda.note_asking(plan, now);
            ask_in_turn(shared, &mut ticker.side, now, peer, reply)
        }
        Duty::Member => ask_member(shared, ticker, plan, agenda, now, reply),
        Duty::Rest(limit) => {
            let pause = pause_for(plan, deadline, now, limit, shared.pause_ms);
            rest(shared, pause, deadline, agenda.has_left());
            Turned::on()
        }
    })
}

impl TickingLoop for NodeLoops {
    fn tick_loop<A: AgentName, R: Wait, L: Link, C: Clock, D: Dice + Drop>(
        shared: &Shared<'_, R, C>,
        side: Side<'_, L, A>,
        dice: D,
        plan: Plan,
    ) -> Ended<L, A> {
        let mut ticker = Ticker { side, dice };
        let mut agenda = Agenda::begin(&plan, shared.clock.now());
        let mut plan = plan;
        let mut reply = Reply::default();
        let mut stretch = Stretch::new();
        for _ in shared.rt.forever() {
            if stretch.turns == shared.bound {
                if !shared.endless {
                    return ticker
                        .side
                        .end_loop(shared.over, stretch.end(Why::ReadBound));
                }
                stretch = Stretch::new();
                continue;
            }
            let Some(turned) = next_turn(shared, &mut ticker, &mut plan, &mut agenda, &mut reply)
            else {
                return ticker.side.end_loop(shared.over, stretch.end(Why::Stopped));
            };
            stretch.add(&turned);
            if let Some(why) = turned.why {
                return ticker.side.end_loop(shared.over, stretch.end(why));
            }
        }
        unreachable!()
    }
}
