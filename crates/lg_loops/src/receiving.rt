//! The receiving loop.
//!
//! Defined in: `specs/Meaning/Turns.antt`, `specs/Support/Took.antt`.
//! Tested in: `lg_node_tests/src/node/receiving.rt`.
ghost use Rattle.std.specs.Prelude.{◌≡◌, ◌≤◌, ◌∷◌, ◌++◌, [], List, true};
ghost use Rattle.lg_turns.specs.Meaning.Links.{LinkEvent};
ghost use Rattle.lg_turns.specs.Meaning.Links.LinkEvent.{Received};
ghost use Rattle.lg_turns.specs.Meaning.Turns.{line, receives, Lasted};
ghost use Rattle.lg_loops.specs.Support.Took.{Took};

use crate::stretch::Stretch;
use crate::turned::Turned;
use crate::{NodeLoops, calling};
use lg_agent::{AgentName, Refusal};
use lg_clock::{Clock, Loop};
use lg_detector::Reply;
use lg_rules::Addr;
use lg_timing::Moment;
use lg_turns::{Ended, Link, LoopEnd, MAX_DATAGRAM, MAX_TURNS, ReceivingLoop, Shared, Side, Why};
use std::sync::Wait;
use std::sync::atomic::Ordering::SeqCst;

/// Hears a datagram that came, or drops it if its bytes are no packet. The reply is written over `reply`.
fn hear<A: AgentName, R: Wait, L: Link, C>(
    shared: &Shared<'_, R, C>,
    side: &mut Side<'_, L, A>,
    now: Moment,
    source: Addr,
    bytes: &[u8],
    reply: &mut Reply,
) -> Turned
    // The link's log ends with this datagram.
    ensures { (log : List LinkEvent)
        → (L.tells ≡ true → L.log side.old.link ≡ log ++ Received source bytes.now ∷ [])
        → Took (receives shared.now.wait_ms) L.tells (line log (L.failed side.old.link))
        (line (L.log side.new.link) (L.failed side.new.link)) side.old.pass side.new.pass result }
{
    match calling::datagram(shared, &mut side.pass, now, source, bytes, reply) {
        Ok(heard) => {
            shared.deadlines.tell(shared.rt, reply.next);
            // The detector has dropped a packet of another group, so a Page of one brought no table.
            if heard.group != shared.group {
                shared.counters.note_other_group();
            } else if heard.is_page {
                shared.page_heard.store(true, SeqCst);
            }
            Turned::of(shared, &mut side.link, now, reply)
        }
        Err(refusal) => match refusal {
            Refusal::BadPacket(fault) => {
                shared.counters.note_dropped(fault);
                Turned::dropped()
            }
            _ => Turned::refused(shared, refusal),
        },
    }
}

/// One turn: waits for a datagram, and hears it.
fn receive_turn<A: AgentName, R: Wait, L: Link, C: Clock>(
    shared: &Shared<'_, R, C>,
    side: &mut Side<'_, L, A>,
    buffer: &mut [u8; MAX_DATAGRAM],
    reply: &mut Reply,
) -> Turned
    ensures { Took (receives shared.now.wait_ms) L.tells (line (L.log side.old.link) (L.failed side.old.link))
        (line (L.log side.new.link) (L.failed side.new.link)) side.old.pass side.new.pass result }
{
    match side.link.receive(buffer, shared.wait_ms) {
        Ok(None) => Turned::on(),
        Ok(Some((source, length))) => {
            shared.counters.note_received();
            let now = shared.clock.now();
            hear(shared, side, now, source, &buffer[..length], reply)
        }
        Err(_) => Turned::end(Why::LinkFailed),
    }
}

/// Wakes the ticking loop if the stop flag is set, unless it was woken for that before. Returns whether it has been.
fn wake_to_stop<R: Wait, C>(shared: &Shared<'_, R, C>, is_woken: bool) -> bool {
    if is_woken || !shared.stop.load(SeqCst) {
        return is_woken;
    }
    shared.deadlines.tell(shared.rt, 0);
    true
}

/// Ends the loop of a side as [`Side::end_loop`] does with the stop flag, and wakes the ticking loop for that.
fn end_loop<A: AgentName, R: Wait, L, C>(
    shared: &Shared<'_, R, C>,
    side: Side<'_, L, A>,
    end: LoopEnd,
) -> Ended<L, A>
    ensures link { result.link ≡ side.entry.link }
    ensures spent { result.spent ≡ side.entry.pass }
    ensures end { result.end ≡ end }
{
    let ended = side.end_loop(shared.stop, end);
    shared.deadlines.tell(shared.rt, 0);
    ended
}

impl ReceivingLoop for NodeLoops {
    fn receive_loop<A: AgentName, R: Wait, L: Link, C: Clock>(
        shared: &Shared<'_, R, C>,
        side: Side<'_, L, A>,
    ) -> Ended<L, A> {
        let mut side = side;
        let mut buffer = [0; MAX_DATAGRAM];
        let mut reply = Reply::default();
        let mut stretch = Stretch::new();
        let mut is_woken = false;
        for _ in shared.rt.forever() {
            if stretch.turns == shared.bound {
                if !shared.endless {
                    return end_loop(shared, side, stretch.end(Why::ReadBound));
                }
                stretch = Stretch::new();
                continue;
            }
            shared.clock.begin_turn(Loop::Receiving);
            if shared.over.load(SeqCst) {
                return end_loop(shared, side, stretch.end(Why::Stopped));
            }
            is_woken = wake_to_stop(shared, is_woken);
            let turned = receive_turn(shared, &mut side, &mut buffer, &mut reply);
            stretch.add(&turned);
            if let Some(why) = turned.why {
                return end_loop(shared, side, stretch.end(why));
            }
        }
        unreachable!()
    }
}
