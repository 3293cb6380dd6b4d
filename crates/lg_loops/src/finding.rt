//! The ticking loop finds its group: it asks seeds and members for their tables, and learns which addresses the seeds
//! have that are hosts.
//!
//! Defined in: `specs/Meaning/Pulling.antt`, `specs/Meaning/Resolving.antt`, `specs/Meaning/Turns.antt`,
//! `specs/Support/Acted.antt`.
//! Tested in: `lg_node_tests/src/node/finding.rt`, `lg_node_tests/src/node/resolving.rt`, `cases/groups`.
ghost use Rattle.std.specs.Prelude.{◌≡◌, ◌<◌, ◌||◌, [], true, not, length, IfSome, MatchOption};
ghost use Rattle.std.specs.List.{list_all};
ghost use Rattle.lg_detector.specs.Meaning.Step.{view_after};
ghost use Rattle.lg_agent.specs.Meaning.Values.{PassValue};
ghost use Rattle.lg_agent.specs.Meaning.Calls.{IsLook};
ghost use Rattle.lg_turns.specs.declared.plan.Plan.{Plan as Planned};
ghost use Rattle.lg_turns.specs.Meaning.Resolving.{learning};
ghost use Rattle.lg_loops.specs.declared.agenda.Duty.TheVariants as duty;
ghost use Rattle.lg_turns.specs.Meaning.Pulling.{others_of, has_gone, IsChosen};
ghost use Rattle.lg_turns.specs.Meaning.Turns.{line, words_in, SeesNoneDue, Threw};
ghost use Rattle.lg_loops.specs.Support.Acted.{Acted, IsDuty, IsNextAgenda};

use crate::agenda::Agenda;
use crate::calling;
use crate::ticker::Ticker;
use crate::turned::Turned;
use arrayvec::ArrayVec;
use lg_agent::{AgentName, Pass};
use lg_detector::Reply;
use lg_rules::{Addr, Name, Record};
use lg_timing::Moment;
use lg_turns::{Dice, Link, MAX_ASKED, MAX_FOUND, Plan, Shared, Side};
use std::alloc::Global;
use std::sync::Wait;
use std::sync::atomic::Ordering::SeqCst;

/// The records of the other members, those of members that are gone too, or none if the look was refused.
fn others<A: AgentName>(pass: &mut Pass<'_, A>, alloc: Global, own: &Name) -> Option<Vec<Record>>
    ensures { MatchOption result (pass.new ≡ pass.old)
        (λ records. (records.items ≡ others_of own.now (view_after pass.new.seen)) × IsLook pass.old pass.new) }
{
    let Ok(records) = pass.members(alloc) else {
        return None;
    };
    let mut records = records;
    records.retain(|record| record.name != *own);
    Some(records)
}

/// Whether each of these members is gone, also if there is none.
fn are_gone(others: &[Record]) -> bool
    ensures { result ≡ list_all has_gone others.now }
{
    others.iter().all(|record| record.status.is_gone())
}

/// Whether the seeds are to be asked: if no Page was heard, or if each of the other members is gone.
fn wants_seeds(others: &[Record], page_heard: bool) -> bool
    ensures is { result ≡ (not page_heard || list_all has_gone others.now) }
    ensures alone { list_all has_gone others.now ≡ true → result ≡ true }
{
    !page_heard || are_gone(others)
}

/// The address of the member that random words choose.
fn chosen(records: &[Record], words: &[u32; 8]) -> Addr
    requires { 0 < length records.now }
    ensures { IsChosen words.now records.now result }
{
    records[words[0] as usize % records.len()].addr
}

/// The addresses that the hosts among the seeds were found to have, if they were told and are to be learned.
pub(crate) fn found_for<R: Wait, C>(
    shared: &Shared<'_, R, C>,
    plan: &Plan,
) -> Option<ArrayVec<Addr, MAX_FOUND>>
    ensures { IfSome result (λ found. plan.now.learns ≡ true) }
{
    if !plan.learns {
        return None;
    }
    shared.resolved.take(shared.rt)
}

/// Learns which addresses the hosts among the seeds have.
pub(crate) fn learn<A: AgentName, L: Link>(
    side: &Side<'_, L, A>,
    plan: &mut Plan,
    agenda: &mut Agenda,
    now: Moment,
    found: &ArrayVec<Addr, MAX_FOUND>,
) -> Turned
    ensures plan { plan.new ≡ learning plan.old found.now.items }
    ensures acted { (p : PassValue) → SeesNoneDue p now side.now.pass → now < plan.old.until
        → plan.old.learns ≡ true
        → (acted : Acted plan.old plan.new L.tells (line (L.log side.now.link) (L.failed side.now.link))
        (line (L.log side.now.link) (L.failed side.now.link)) p side.now.pass agenda.old agenda.new result)
        × (words_in acted.took.turn ≡ []) }
{
    let _ = &side.link;
    plan.learn(found);
    agenda.note_learned(plan, now);
    Turned::on()
}

/// Asks a seed that waits.
pub(crate) fn ask_seed<A: AgentName, R: Wait, L: Link, C>(
    shared: &Shared<'_, R, C>,
    side: &mut Side<'_, L, A>,
    agenda: &mut Agenda,
    now: Moment,
    peer: Addr,
    reply: &mut Reply,
) -> Turned
    requires { agenda.old.asked < MAX_ASKED }
    ensures { (plan : Planned) → (p : PassValue) → SeesNoneDue p now side.old.pass → now < plan.until
        → IsDuty plan agenda.old now (duty.Seed peer)
        → (acted : Acted plan plan L.tells (line (L.log side.old.link) (L.failed side.old.link))
        (line (L.log side.new.link) (L.failed side.new.link)) p side.new.pass agenda.old agenda.new result)
        × (words_in acted.took.turn ≡ []) }
{
    agenda.note_seed();
    match calling::pull(shared, &mut side.pass, now, peer, reply) {
        Ok(_) => Turned::of(shared, &mut side.link, now, reply),
        Err(refusal) => Turned::refused(shared, refusal),
    }
}

/// Asks the seed whose turn it is, whether it is known or not. That it is asked now has been noted in the agenda.
pub(crate) fn ask_in_turn<A: AgentName, R: Wait, L: Link, C>(
    shared: &Shared<'_, R, C>,
    side: &mut Side<'_, L, A>,
    now: Moment,
    peer: Addr,
    reply: &mut Reply,
) -> Turned
    ensures { (plan : Planned) → (agenda : Agenda) → (noted : Agenda) → (p : PassValue)
        → SeesNoneDue p now side.old.pass → now < plan.until → IsDuty plan agenda now (duty.SeedInTurn peer)
        → IsNextAgenda plan now agenda noted
        → (acted : Acted plan plan L.tells (line (L.log side.old.link) (L.failed side.old.link))
        (line (L.log side.new.link) (L.failed side.new.link)) p side.new.pass agenda noted result)
        × (words_in acted.took.turn ≡ []) }
{
    match calling::pull(shared, &mut side.pass, now, peer, reply) {
        Ok(_) => Turned::of(shared, &mut side.link, now, reply),
        Err(refusal) => Turned::refused(shared, refusal),
    }
}

/// Looks whether the seeds are to be asked: they are if no Page was heard so far, or if no other member is known that
/// isn't gone. A look that is refused is put off to the next time.
pub(crate) fn look<A: AgentName, R, L: Link, C>(
    shared: &Shared<'_, R, C>,
    side: &mut Side<'_, L, A>,
    plan: &Plan,
    agenda: &mut Agenda,
    now: Moment,
) -> Turned
    ensures { (p : PassValue) → SeesNoneDue p now side.old.pass → now < plan.now.until
        → IsDuty plan.now agenda.old now duty.Look
        → (acted : Acted plan.now plan.now L.tells (line (L.log side.old.link) (L.failed side.old.link))
        (line (L.log side.new.link) (L.failed side.new.link)) p side.new.pass agenda.old agenda.new result)
        × (words_in acted.took.turn ≡ []) }
{
    let Some(records) = others(&mut side.pass, shared.alloc, &plan.name) else {
        agenda.note_no_look(now);
        return Turned::on();
    };
    let asks = wants_seeds(records.as_slice(), shared.page_heard.load(SeqCst));
    agenda.note_look(plan, now, asks);
    Turned::on()
}

/// Chooses a member by random words, and asks it. A choice for which the look is refused is put off to the next time.
pub(crate) fn ask_member<A: AgentName, R: Wait, L: Link, C, D: Dice>(
    shared: &Shared<'_, R, C>,
    ticker: &mut Ticker<'_, L, A, D>,
    plan: &Plan,
    agenda: &mut Agenda,
    now: Moment,
    reply: &mut Reply,
) -> Turned
    ensures { (p : PassValue) → SeesNoneDue p now ticker.old.side.pass → now < plan.now.until
        → IsDuty plan.now agenda.old now duty.Member
        → (acted : Acted plan.now plan.now L.tells
        (line (L.log ticker.old.side.link) (L.failed ticker.old.side.link))
        (line (L.log ticker.new.side.link) (L.failed ticker.new.side.link)) p ticker.new.side.pass agenda.old
        agenda.new result)
        × Threw D.throws ticker.old.dice (words_in acted.took.turn) ticker.new.dice }
{
    agenda.note_asking(plan, now);
    let Some(records) = others(&mut ticker.side.pass, shared.alloc, &plan.name) else {
        return Turned::on();
    };
    if records.len() == 0 {
        return Turned::on();
    }
    let words = ticker.dice.words();
    let peer = chosen(records.as_slice(), &words);
    match calling::pull(shared, &mut ticker.side.pass, now, peer, reply) {
        Ok(_) => Turned::of(shared, &mut ticker.side.link, now, reply),
        Err(refusal) => Turned::refused(shared, refusal),
    }
}
