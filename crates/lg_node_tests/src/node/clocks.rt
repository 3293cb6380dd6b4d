//! A clock and dice in memory.
use lg_clock::Clock;
use lg_node::Dice;
use lg_testing::at;
use lg_timing::Moment;
use std::sync::atomic::AtomicU64;
use std::sync::atomic::Ordering::SeqCst;

/// A clock that goes on only by its pauses, and tells of them.
#[derive(Drop)]
pub(super) struct MemoryClock {
    now: AtomicU64,
    pauses: AtomicU64,
    longest: AtomicU64,
    sum: AtomicU64,
}

/// The pauses of a clock: how many there were, the longest in milliseconds, and their sum.
#[derive(Clone, Copy, PartialEq, Eq)]
pub struct Pauses {
    pub count: u64,
    pub longest: u64,
    pub sum: u64,
}

impl MemoryClock {
    /// A clock at a moment in milliseconds.
    pub(super) fn new(now: u64) -> MemoryClock {
        MemoryClock {
            now: AtomicU64::new(now),
            pauses: AtomicU64::new(0),
            longest: AtomicU64::new(0),
            sum: AtomicU64::new(0),
        }
    }

    /// Its moment in milliseconds.
    pub(super) fn milliseconds(&self) -> u64 {
        self.now.load(SeqCst)
    }

    /// Its pauses until now.
    pub(super) fn pauses(&self) -> Pauses {
        Pauses {
            count: self.pauses.load(SeqCst),
            longest: self.longest.load(SeqCst),
            sum: self.sum.load(SeqCst),
        }
    }
}

impl Clock for MemoryClock {
    fn now(&self) -> Moment {
        at(self.milliseconds())
    }

    fn pause(&self, ms: u64) {
        self.now.fetch_add(ms, SeqCst);
        self.pauses.fetch_add(1, SeqCst);
        self.sum.fetch_add(ms, SeqCst);
        let longest = self.longest.load(SeqCst).max(ms);
        self.longest.store(longest, SeqCst);
    }
}

/// Dice that always give the same word.
#[derive(Drop)]
pub(super) struct FixedDice {
    pub(super) word: u32,
}

impl Dice for FixedDice {
    ghost throws = { λ _ _ _. Unit {0} };

    fn words(&mut self) -> [u32; 8] {
        [self.word; 8]
    }
}

/// Dice whose first word grows by `step` from throw to throw. The other words are one greater than the first.
#[derive(Clone, Copy)]
pub struct SteppingDice {
    pub(super) word: u32,
    pub(super) step: u32,
}

impl Dice for SteppingDice {
    ghost throws = { λ _ _ _. Unit {0} };

    fn words(&mut self) -> [u32; 8] {
        let first = self.word;
        self.word = first.wrapping_add(self.step);
        let mut words = [first.wrapping_add(1); 8];
        words[0] = first;
        words
    }
}
