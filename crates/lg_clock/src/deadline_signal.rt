//! How the ticking loop of a node is woken before its pause is over.
//!
//! Defined in: this file.
//! Tested in: `lg_node_tests/src/node/deadlines.rt`, `cases/groups`.
use std::rt::Clock;
use std::sync::{Condvar, Mutex, Wait};
use std::time::Duration;

/// What stands behind the lock of a [`DeadlineSignal`].
#[derive(Clone, Copy, Debug)]
struct Deadlines {
    /// The earliest deadline that was told since the last turn began.
    told: u64,
    /// The deadline of a pause, or 0 while there is none.
    awaited: u64,
}

/// Ends a pause of the ticking loop if a deadline comes nearer, or if the loop is to stop. The receiving loop tells
/// it each deadline by which its replies go on. The loops share it by reference. No call allocates.
#[derive(Drop)]
pub struct DeadlineSignal {
    deadlines: Mutex<Deadlines>,
    /// Told if a deadline comes that is before that of the pause.
    nearer: Condvar,
}

impl DeadlineSignal {
    /// One that was told nothing.
    pub fn new() -> DeadlineSignal {
        DeadlineSignal {
            deadlines: Mutex::new(Deadlines {
                told: u64::MAX,
                awaited: 0,
            }),
            nearer: Condvar::new(),
        }
    }

    /// The ticking loop begins a turn: what was told before is forgotten. The loop has to look at its next deadline
    /// behind this, since whoever tells one has published it before.
    pub fn begin_turn<R: Wait>(&self, rt: &R) {
        let mut deadlines = self.deadlines.lock(rt);
        deadlines.told = u64::MAX;
    }

    /// Tells a deadline, in milliseconds, or 0 if the loop is to look at its stop flag. It ends a pause whose deadline
    /// is later, and the next one of this turn too. It waits for the lock, which is held only while a pause or a turn
    /// begins or ends, and while a deadline is told.
    pub fn tell<R: Wait>(&self, rt: &R, deadline: u64) {
        let mut deadlines = self.deadlines.lock(rt);
        if deadline >= deadlines.told {
            return;
        }
        deadlines.told = deadline;
        if deadline < deadlines.awaited {
            self.nearer.notify_all();
        }
    }

    /// Pauses for so many milliseconds at most, until an earlier deadline than this one is told. If that was told since
    /// the turn began, this doesn't wait.
    pub fn pause<R: Wait + Clock>(&self, rt: &R, ms: u64, deadline: u64) {
        let mut deadlines = self.deadlines.lock(rt);
        deadlines.awaited = deadline;
        let limit = Duration::from_millis(ms);
        let (mut deadlines, _) = self
            .nearer
            .wait_timeout_while(rt, deadlines, limit, |it| it.told >= it.awaited);
        deadlines.awaited = 0;
    }
}
