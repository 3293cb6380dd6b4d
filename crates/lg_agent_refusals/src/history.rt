//! Histories whose entries are stored and read back.
use lg_detector::{Event, Reply};
use lg_history::{Entry, History};
use lg_testing::{ack, alive, at, letter, local, packet, ping};
use lg_timing::Config;
use std::alloc::Global;

/// An event of each kind, at a moment of its own.
fn events() -> [Event; 8] {
    let config = Config::new(letter(b'b'), local(7000));
    let heard = packet(b'a', ping(7, b'b'), &[alive(b'c', 0)]);
    let acked = packet(b'c', ack(1), &[]);
    let (source, words, peer) = (local(1), [7; 8], local(7002));
    let name = letter(b'c');
    [
        Event::Open { now: at(0), config },
        Event::Heard {
            now: at(1),
            source,
            packet: heard,
        },
        Event::Heard {
            now: at(2),
            source,
            packet: acked,
        },
        Event::Tick { now: at(3), words },
        Event::Ask { now: at(4), name },
        Event::Health { now: at(5) },
        Event::Pull { now: at(6), peer },
        Event::Leave { now: at(7), words },
    ]
}

/// A reply with this deadline, to which each list adds as much as it has.
fn reply(next: u64) -> Reply {
    let mut reply = Reply::default();
    reply.next = next;
    for byte in b"cdefgh" {
        if !reply.changed.is_full() {
            reply.changed.push(alive(*byte, 0));
        }
    }
    reply
}

/// The moment of an event in milliseconds.
fn moment_of(event: &Event) -> u64 {
    let now = match event {
        Event::Open { now, .. } => now,
        Event::Heard { now, .. } => now,
        Event::Tick { now, .. } => now,
        Event::Ask { now, .. } => now,
        Event::Health { now } => now,
        Event::Pull { now, .. } => now,
        Event::Leave { now, .. } => now,
    };
    now.milliseconds()
}

/// Whether an entry has this seat, and the event and the reply that belong to it.
fn is_of(entry: &Entry, seat: usize) -> bool {
    let next = seat as u64;
    let found = entry.reply();
    entry.seat() == seat
        && moment_of(&entry.event()) == next
        && found.next == next
        && found.changed.as_slice() == reply(next).changed.as_slice()
}

/// Prepares an event. If memory is refused, nothing is prepared and no entry is added, and a second try is made.
/// Returns whether that was so and one of the two tries succeeded.
fn is_prepared(history: &mut History, alloc: Global, seat: usize, event: &Event) -> bool {
    let before = history.len();
    match history.prepare(alloc, seat, event) {
        Ok(()) => history.len() == before,
        Err(_) => {
            history.complete(alloc, &reply(0));
            history.len() == before && history.prepare(alloc, seat, event).is_ok()
        }
    }
}

/// Adds the entry of an event, and reads it back. Returns whether it is the last entry, and one more than before.
fn is_added(history: &mut History, alloc: Global, seat: usize, event: &Event) -> bool {
    let count = history.len().checked_add(1);
    let prepared = is_prepared(history, alloc, seat, event);
    history.complete(alloc, &reply(seat as u64));
    let last = history.entries().last();
    prepared && count == Some(history.len()) && last.is_some_and(|entry| is_of(entry, seat))
}

/// Each event is stored and read back.
#[test]
fn reads_back_after_refused_memory(rt: HostRuntime) {
    let mut history = History::new(rt.alloc());
    let mut met = true;
    for (seat, event) in events().iter().enumerate() {
        met = is_added(&mut history, rt.alloc(), seat, event) && met;
    }
    let entries = history.into_entries();
    for (seat, entry) in entries.iter().enumerate() {
        met = met && is_of(entry, seat);
    }
    assert!(rt; met && entries.len() == 8);
}

/// What was prepared and withdrawn isn't stored, and the next event is.
#[test]
fn withdraws_after_refused_memory(rt: HostRuntime) {
    let all = events();
    let (first, second) = (&all[0], &all[1]);
    let mut history = History::new(rt.alloc());
    let mut met = is_added(&mut history, rt.alloc(), 0, first);
    met = is_prepared(&mut history, rt.alloc(), 1, second) && met;
    history.withdraw();
    history.complete(rt.alloc(), &reply(1));
    met = met && history.len() == 1;
    met = is_added(&mut history, rt.alloc(), 1, second) && met;
    assert!(rt; met);
}
