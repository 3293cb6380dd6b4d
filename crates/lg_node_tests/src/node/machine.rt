//! The machine's clock, compared with the instants of the machine, by which it counts.
use lg_clock::{Clock, MachineClock};
use std::time::Instant;
use std::{io, rt};

/// The moment of a clock that paused for `ms` milliseconds after it was made. Then how many milliseconds passed
/// meanwhile, by an instant that was taken before it was made.
fn after_pause<R: rt::Clock>(rt: &R, ms: u64) -> io::Result<(u64, u128)> {
    let begun = Instant::now(rt)?;
    let clock = MachineClock::new(rt)?;
    clock.pause(ms);
    let now = clock.now().milliseconds();
    Ok((now, begun.elapsed(rt)?.as_millis()))
}

/// The clock counts from its making, a millisecond each millisecond. A pause lasts as long as it should. The clock
/// has counted the pause, but no more than has passed.
#[test]
fn counts_milliseconds(rt: HostRuntime) {
    for ms in [0, 1, 60] {
        let seen = after_pause(&rt, ms);
        let met = seen
            .as_ref()
            .is_ok_and(|&(now, passed)| ms <= now && u128::from(now) <= passed);
        assert!(rt; met, "{ms}: {seen:?}");
    }
}
