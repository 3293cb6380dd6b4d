//! The signal that ends a pause of the ticking loop early.
use lg_clock::{Clock, DeadlineSignal, SteadyClock};
use lg_node::ChangeSignal;
use std::sync::Wait;
use std::thread::join;
use std::time::Instant;
use std::{io, rt};

/// How often a pause is ended by another thread.
const ROUNDS: u64 = 1000;

/// What is told behind the beginning of a turn, in order, how long the pause is whose deadline is 500, and whether it
/// ends early.
type Row = (&'static [u64], u64, bool);

/// A pause of 20 ms that isn't ended lasts 20 ms. One that is ended would last half a minute.
const ROWS: &[Row] = &[
    (&[], 20, false),
    (&[500], 20, false),
    (&[900, 500, 700], 20, false),
    (&[499], 30_000, true),
    (&[700, 499], 30_000, true),
    (&[499, 700], 30_000, true),
    (&[0], 30_000, true),
];

/// How many milliseconds a pause of a row lasts by a clock that reads the machine's.
fn pause_of<R: rt::Clock + Wait>(rt: &R, row: &Row) -> io::Result<u64> {
    let (told, ms, _) = *row;
    let signal = DeadlineSignal::new();
    let clock = SteadyClock::new(rt, 0)?;
    // What was told before a turn begins is forgotten.
    signal.tell(rt, 3);
    signal.begin_turn(rt);
    for deadline in told {
        signal.tell(rt, *deadline);
    }
    let begun = Instant::now(rt)?;
    clock.pause_before(ms, 500, &signal);
    let passed = begun.elapsed(rt)?.as_millis();
    Ok(u64::try_from(passed).unwrap_or(u64::MAX))
}

/// An earlier deadline than that of the pause ends it, and no other does.
#[test]
fn ends_a_pause_by_an_earlier_deadline(rt: HostRuntime) {
    for row in ROWS {
        let lasted = pause_of(&rt, row);
        let meets = match (&lasted, row.2) {
            (Ok(lasted), true) => *lasted < 20_000,
            (Ok(lasted), false) => (20..20_000).contains(lasted),
            (Err(_), _) => false,
        };
        assert!(rt; meets, "{row:?}: {lasted:?}");
    }
}

/// The turns of a thread, in each of which it pauses for half a minute unless it is woken. The other thread hears of
/// each turn once it has begun. Returns how many pauses lasted for more than 20 seconds.
fn pause_often<R: rt::Clock + Wait>(rt: &R, signal: &DeadlineSignal, begun: &ChangeSignal) -> u64 {
    let mut long = 0;
    for _ in 0..ROUNDS {
        signal.begin_turn(rt);
        begun.set(rt);
        let start = Instant::now(rt);
        signal.pause(rt, 30_000, 500);
        let lasted = start.and_then(|start| start.elapsed(rt));
        if !lasted.is_ok_and(|lasted| lasted.as_millis() < 20_000) {
            long += 1;
        }
    }
    long
}

/// A deadline that is told while a pause begins isn't lost.
#[test]
fn loses_no_deadline(rt: HostRuntime) {
    let (signal, begun) = (DeadlineSignal::new(), ChangeSignal::new());
    let (long, ()) = join(
        &rt,
        || pause_often(&rt, &signal, &begun),
        || {
            for _ in 0..ROUNDS {
                begun.wait(&rt);
                signal.tell(&rt, 499);
            }
        },
    );
    assert!(rt; long == 0, "{long} pauses weren't ended");
}
