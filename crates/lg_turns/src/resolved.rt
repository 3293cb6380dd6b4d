//! The addresses that were found for the hosts among the seeds of a node, on their way to its ticking loop.
//!
//! Defined in: this file.
//! Tested in: `lg_node_tests/src/node/resolving.rt`, `cases/nodes`.
use arrayvec::ArrayVec;
use lg_clock::DeadlineSignal;
use lg_rules::Addr;
use std::sync::atomic::AtomicBool;
use std::sync::atomic::Ordering::SeqCst;
use std::sync::{Mutex, Wait};

/// The most addresses of hosts that a node asks: 64 (this project's choice).
pub const MAX_FOUND: usize = 64;

/// What a thread that resolves hosts hands to the ticking loop of a node: which addresses they have. The loop looks at
/// it each turn, and never waits for the one who resolves. Both share it by reference. No call allocates.
#[derive(Drop)]
pub struct ResolvedSeeds {
    /// Whether addresses were told that weren't taken.
    is_new: AtomicBool,
    /// The addresses that were told last.
    found: Mutex<ArrayVec<Addr, MAX_FOUND>>,
    /// By which a pause of the ticking loop ends early.
    deadlines: DeadlineSignal,
}

impl ResolvedSeeds {
    /// One that was told nothing.
    pub fn new() -> ResolvedSeeds {
        ResolvedSeeds {
            is_new: AtomicBool::new(false),
            found: Mutex::new(ArrayVec::new()),
            deadlines: DeadlineSignal::new(),
        }
    }

    /// Tells which addresses the hosts have, all of them together, and ends a pause of the ticking loop. It waits for
    /// the lock, which is held only while addresses are told or taken.
    pub fn tell<R: Wait>(&self, rt: &R, found: &ArrayVec<Addr, MAX_FOUND>) {
        let mut told = self.found.lock(rt);
        told.clear();
        told.try_extend_from_slice(found).unwrap();
        drop(told);
        self.is_new.store(true, SeqCst);
        self.deadlines.tell(rt, 0);
    }

    /// The addresses that were told last, or none if they were taken before or nothing was told. Mostly nothing was,
    /// and then this takes no lock.
    pub fn take<R: Wait>(&self, rt: &R) -> Option<ArrayVec<Addr, MAX_FOUND>> {
        if !self.is_new.load(SeqCst) {
            return None;
        }
        self.is_new.store(false, SeqCst);
        let told = self.found.lock(rt);
        let mut found = ArrayVec::new();
        found.try_extend_from_slice(&told).unwrap();
        Some(found)
    }

    /// By which a pause of the ticking loop ends early, also for those who tell it deadlines.
    pub fn deadlines(&self) -> &DeadlineSignal {
        &self.deadlines
    }
}
