//! How the loops tell a thread that a record has changed, or a member was forgotten.
//!
//! Defined in: this file.
//! Tested in: `lg_node_tests/src/node/changing.rt`, `cases/groups`.
use std::rt::Clock;
use std::sync::{Condvar, Mutex, Wait};
use std::time::Duration;

/// Wakes a thread when a record has changed, or a member was forgotten. Threads share it by reference. No call
/// allocates.
#[derive(Drop)]
pub struct ChangeSignal {
    /// Whether it was set since the last wait.
    is_set: Mutex<bool>,
    /// Told whenever it is set.
    set: Condvar,
}

impl ChangeSignal {
    /// One that isn't set.
    pub fn new() -> ChangeSignal {
        ChangeSignal {
            is_set: Mutex::new(false),
            set: Condvar::new(),
        }
    }

    /// Sets it: a record has changed, a member was forgotten, or whoever waits is to look once more. It waits for the
    /// lock, which is held only while a wait begins or ends.
    pub fn set<R: Wait>(&self, rt: &R) {
        *self.is_set.lock(rt) = true;
        self.set.notify_all();
    }

    /// Waits until it is set, and unsets it. If it was set since the last wait, this doesn't wait.
    pub fn wait<R: Wait>(&self, rt: &R) {
        let unset = self.is_set.lock(rt);
        let mut set = self.set.wait_while(rt, unset, |is_set| !*is_set);
        *set = false;
    }

    /// As [`ChangeSignal::wait`], but for so many milliseconds at most.
    pub fn wait_at_most<R: Wait + Clock>(&self, rt: &R, ms: u64) {
        let unset = self.is_set.lock(rt);
        let limit = Duration::from_millis(ms);
        let (mut set, _) = self
            .set
            .wait_timeout_while(rt, unset, limit, |is_set| !*is_set);
        *set = false;
    }
}
