//! The steady clock: over moments of a machine's clock in memory, and with the machine's own clock.
use Loop::{Receiving, Ticking};
use lg_clock::{Clock, Loop, Steady, SteadyClock, steady_clocks_keep_time};
use lg_testing::at;
use std::sync::Wait;
use std::sync::atomic::AtomicU64;
use std::sync::atomic::Ordering::SeqCst;
use std::thread::{Threads, join};
use std::{io, rt};

/// The moment of the machine's clock, the loop that begins a turn if one does, and what has to come: the moment, and
/// how long the clock has stood still.
type Row = (u64, Option<Loop>, u64, u64);

/// Both loops turn each 20 ms.
const TURNING: &[Row] = &[
    (20, Some(Receiving), 20, 0),
    (25, Some(Ticking), 25, 0),
    (40, Some(Receiving), 40, 0),
    (45, Some(Ticking), 45, 0),
    (60, None, 60, 0),
    (60, Some(Receiving), 60, 0),
    (145, None, 145, 0),
    (145, Some(Ticking), 145, 0),
];

/// The process stops for 4,000 ms, twice: between two turns, and before a reading within a turn.
const STOPPED: &[Row] = &[
    (20, Some(Ticking), 20, 0),
    (20, Some(Receiving), 20, 0),
    (4020, Some(Ticking), 120, 3900),
    (4021, None, 120, 3901),
    (4021, Some(Receiving), 120, 3901),
    (4041, Some(Ticking), 140, 3901),
    (8041, None, 220, 7821),
    (8041, Some(Receiving), 220, 7821),
    (8061, Some(Ticking), 240, 7821),
];

/// The ticking loop is blocked for 2,000 ms, and then the receiving loop.
const BLOCKED: &[Row] = &[
    (20, Some(Ticking), 20, 0),
    (20, Some(Receiving), 20, 0),
    (119, Some(Receiving), 119, 0),
    (120, Some(Receiving), 120, 0),
    (121, Some(Receiving), 120, 1),
    (2020, Some(Receiving), 120, 1900),
    (2020, Some(Ticking), 120, 1900),
    (2040, Some(Receiving), 140, 1900),
    (2100, Some(Ticking), 200, 1900),
    (4100, Some(Ticking), 240, 3860),
    (4100, Some(Receiving), 240, 3860),
    (4130, None, 270, 3860),
];

/// The same stop as the first, with a stall of 1,000 ms: so much of it counts.
const STOPPED_WITH_LONG_STALL: &[Row] = &[
    (20, Some(Ticking), 20, 0),
    (20, Some(Receiving), 20, 0),
    (4020, Some(Ticking), 1020, 3000),
    (4021, None, 1020, 3001),
    (4021, Some(Receiving), 1020, 3001),
    (4041, Some(Ticking), 1040, 3001),
];

/// The same stops, and nothing is left out.
const WITHOUT_STALL: &[Row] = &[
    (20, Some(Ticking), 20, 0),
    (20, Some(Receiving), 20, 0),
    (4020, Some(Ticking), 4020, 0),
    (8021, None, 8021, 0),
];

/// Nothing is left out before the first turn, which is taken as one of both loops.
const BEFORE_THE_FIRST_TURN: &[Row] = &[
    (900, None, 900, 0),
    (3000, None, 3000, 0),
    (3000, Some(Receiving), 3000, 0),
    (3500, None, 3100, 400),
    (3600, Some(Ticking), 3100, 500),
    (3650, None, 3100, 550),
    (3700, Some(Receiving), 3100, 600),
    (3750, None, 3150, 600),
];

/// The machine's clock goes back, and no time passes until it has come as far again.
const BACK: &[Row] = &[
    (50, Some(Ticking), 50, 0),
    (30, None, 50, 0),
    (40, Some(Receiving), 50, 0),
    (65, None, 65, 0),
];

/// The last moment.
const LAST: &[Row] = &[
    (0, Some(Ticking), 0, 0),
    (
        1_000_000_000_000_000,
        Some(Receiving),
        1_000_000_000_000_000,
        0,
    ),
];

/// What a clock is handed at a moment of the machine's clock, and what has to come: the moment, and how long the clock
/// has stood still. A loop begins a turn, or a pause of so many milliseconds.
type PauseRow = (u64, Loop, Option<u64>, u64, u64);

/// The ticking loop pauses for 500 ms from 20 ms on, and doesn't come back at its end.
const LATE: &[PauseRow] = &[
    (20, Receiving, None, 20, 0),
    (20, Ticking, None, 20, 0),
    (20, Ticking, Some(500), 20, 0),
    (119, Receiving, None, 119, 0),
    (218, Receiving, None, 218, 0),
    (310, Receiving, None, 310, 0),
    (400, Receiving, None, 400, 0),
    (490, Receiving, None, 490, 0),
    (580, Receiving, None, 580, 0),
    (640, Receiving, None, 620, 20),
    (700, Receiving, None, 620, 80),
    (700, Ticking, None, 620, 80),
    (710, Receiving, None, 630, 80),
];

/// The process stops for 4,000 ms while the ticking loop pauses.
const STOPPED_IN_PAUSE: &[PauseRow] = &[
    (20, Receiving, None, 20, 0),
    (20, Ticking, None, 20, 0),
    (20, Ticking, Some(500), 20, 0),
    (40, Receiving, None, 40, 0),
    (4040, Receiving, None, 140, 3900),
    (4040, Ticking, None, 140, 3900),
    (4060, Receiving, None, 160, 3900),
];

/// The ticking loop is woken at 300 ms, and is then blocked.
const WOKEN: &[PauseRow] = &[
    (20, Receiving, None, 20, 0),
    (20, Ticking, Some(500), 20, 0),
    (100, Receiving, None, 100, 0),
    (200, Receiving, None, 200, 0),
    (300, Ticking, None, 300, 0),
    (300, Receiving, None, 300, 0),
    (390, Receiving, None, 390, 0),
    (700, Receiving, None, 400, 300),
];

/// A pause of more than an hour counts as one of an hour.
const LONG_PAUSE: &[PauseRow] = &[
    (0, Receiving, None, 0, 0),
    (0, Ticking, Some(u64::MAX), 0, 0),
    (0, Receiving, Some(u64::MAX), 0, 0),
    (3_600_100, Receiving, Some(3_600_000), 3_600_100, 0),
    (3_600_200, Receiving, None, 3_600_100, 100),
];

/// The index of the first row at which a clock of a stall of 100 ms gives something else than it should.
fn first_wrong_pause(rows: &[PauseRow]) -> Option<usize> {
    let mut steady = Steady::new(100);
    for (i, row) in rows.iter().enumerate() {
        let (machine, of, pause, moment, stood_still) = *row;
        match pause {
            Some(ms) => steady.begin_pause(of, ms, at(machine)),
            None => steady.begin_turn(of, at(machine)),
        }
        let now = steady.read(at(machine)).milliseconds();
        if now != moment || steady.stood_still() != stood_still {
            return Some(i);
        }
    }
    None
}

/// A clock in memory takes no pause for a stall.
#[test]
fn takes_no_pause_for_a_stall(rt: HostRuntime) {
    for (i, rows) in [LATE, STOPPED_IN_PAUSE, WOKEN, LONG_PAUSE]
        .iter()
        .enumerate()
    {
        let wrong = first_wrong_pause(rows);
        assert!(rt; wrong.is_none(), "play {i}: row {wrong:?}");
    }
}

/// The index of the first row at which a clock of a stall gives something else than it should.
fn first_wrong(stall: u64, rows: &[Row]) -> Option<usize> {
    let mut steady = Steady::new(stall);
    for (i, row) in rows.iter().enumerate() {
        let (machine, turned, moment, stood_still) = *row;
        if let Some(of) = turned {
            steady.begin_turn(of, at(machine));
        }
        let now = steady.read(at(machine)).milliseconds();
        if now != moment || steady.stood_still() != stood_still {
            return Some(i);
        }
    }
    None
}

/// A clock in memory leaves out what it should.
#[test]
fn leaves_out_what_it_should(rt: HostRuntime) {
    let plays = [
        (100, TURNING),
        (100, STOPPED),
        (1000, STOPPED_WITH_LONG_STALL),
        (100, BLOCKED),
        (0, WITHOUT_STALL),
        (100, BEFORE_THE_FIRST_TURN),
        (100, BACK),
        (0, LAST),
        (u64::MAX, LAST),
        (1_000_000_000_000_000, LAST),
    ];
    for (i, (stall, rows)) in plays.iter().enumerate() {
        let wrong = first_wrong(*stall, rows);
        assert!(rt; wrong.is_none(), "play {i}: row {wrong:?}");
    }
    steady_clocks_keep_time();
}

/// Reads a clock a thousand times, and begins a turn each time. Notes the moments for the other threads. Returns
/// whether none is before one that was noted.
fn never_goes_back<C: Clock>(clock: &C, of: Loop, noted: &AtomicU64) -> bool {
    let mut met = true;
    for _ in 0..1000 {
        let before = noted.load(SeqCst);
        clock.begin_turn(of);
        let now = clock.now().milliseconds();
        met &= before <= now;
        noted.store(now, SeqCst);
    }
    met
}

/// Whether two threads that share a steady clock see no moment go back.
fn is_shared<R: rt::Clock + Wait + Threads + Sync>(rt: &R, stall: u64) -> io::Result<bool> {
    let clock = SteadyClock::new(rt, stall)?;
    let noted = AtomicU64::new(0);
    let (received, ticked) = join(
        rt,
        || never_goes_back(&clock, Receiving, &noted),
        || never_goes_back(&clock, Ticking, &noted),
    );
    Ok(received && ticked)
}

/// Whether a steady clock goes on by its stall at most, and tells the rest, if no loop turns for 60 ms.
fn stands_still<R: rt::Clock + Wait>(rt: &R, stall: u64) -> io::Result<bool> {
    let clock = SteadyClock::new(rt, stall)?;
    clock.begin_turn(Receiving);
    clock.begin_turn(Ticking);
    let begun = clock.now().milliseconds();
    clock.pause(60);
    let passed = clock.now().milliseconds().saturating_sub(begun);
    let stood_still = clock.stood_still();
    Ok(match stall {
        0 => passed >= 60 && stood_still == 0,
        _ => passed <= stall && stood_still >= 60_u64.saturating_sub(stall),
    })
}

/// The clock over the machine's own.
#[test]
fn keeps_time_by_the_machine(rt: HostRuntime) {
    for stall in [0, 1, 20] {
        let shared = is_shared(&rt, stall).is_ok_and(|met| met);
        let alone = stands_still(&rt, stall).is_ok_and(|met| met);
        assert!(rt; shared && alone, "{stall}: {shared}, {alone}");
    }
}
