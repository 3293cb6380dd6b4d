//! How other threads reach the server.
//!
//! Defined in: this file.
//! Tested in: `lg_http_tests/src/serving.rt`, `lg_http_tests/src/crowd.rt`.

use mio::{Registry, Token, Waker};
use std::io;
use std::sync::atomic::AtomicBool;
use std::sync::atomic::Ordering::SeqCst;

/// Tells the server of a change, and to stop. Threads share it by reference. No call waits, and none allocates.
#[derive(Drop)]
pub struct Signal {
    waker: Waker,
    /// The server sleeps, and a change is to wake it.
    is_awaited: AtomicBool,
    is_stopped: AtomicBool,
}

/// That a server was told to stop. Nothing but a look at the signal makes one.
#[derive(Clone, Copy, Debug)]
pub(crate) struct Told {
    seen: (),
}

impl Signal {
    pub(crate) fn new(registry: &Registry, token: Token) -> io::Result<Signal> {
        Ok(Signal {
            waker: Waker::new(registry, token)?,
            is_awaited: AtomicBool::new(false),
            is_stopped: AtomicBool::new(false),
        })
    }

    /// Call this after each change was published, in the thread that published it. It wakes the server if that sleeps
    /// or is about to, so that its site looks at each change soon, whether anybody asks or not. Otherwise it costs one
    /// load of a flag.
    ///
    /// The change has to be published by an atomic that is `SeqCst`, which [`Site::refresh`](crate::Site::refresh)
    /// reads, or under a lock that `refresh` takes.
    pub fn published(&self) {
        // No change is lost. Before the server sleeps it sets the flag and then looks at the version a second time. If
        // that look misses a change, then in the one order of all `SeqCst` operations the look comes before the change,
        // so the flag was set before the load. If a lock guards the change, the look released it before the publisher
        // took it, so the same holds. The load then finds the flag set, unless another publisher has reset it since,
        // and that one wakes the server. The server looks again after each wake, and sleeps only behind such a look.
        if self.is_awaited.load(SeqCst) && self.is_awaited.swap(false, SeqCst) {
            self.wake();
        }
    }

    /// Tells the server to stop. Its `serve` returns after the turn that it makes now.
    pub fn stop(&self) {
        self.is_stopped.store(true, SeqCst);
        self.wake();
    }

    /// It fails only if the server was woken so often that its count is full, and then it is awake.
    fn wake(&self) {
        let _is_woken = self.waker.wake().is_ok();
    }

    /// Whether the server was told to stop.
    pub(crate) fn told(&self) -> Option<Told> {
        if self.is_stopped.load(SeqCst) {
            Some(Told { seen: () })
        } else {
            None
        }
    }

    /// From now on a change wakes the server. Look at the version again after this: a change just before may have gone
    /// by.
    pub(crate) fn await_change(&self) {
        self.is_awaited.store(true, SeqCst);
    }
}
