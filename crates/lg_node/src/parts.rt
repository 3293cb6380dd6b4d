//! Work that a thread of its own does, if it is wanted and a thread can be started.
//!
//! Defined in: this file.
//! Tested in: `lg_node_tests/src/node/both.rt`, `lg_node_refusals/src/refused_memory.rt`, `cases/nodes`,
//! `cases/groups`, `cases/status`.
ghost use Rattle.std.specs.Prelude.{◌≡◌, IfErr, IfOk};

use lg_turns::Unrecorded;
use std::snapshot::Snapshot;
use std::thread::{Promise, PromisedHandle, Scope, Threads};

/// Work that a thread may do.
pub trait Work<T> {
    // What holds of it before it is done.
    ghost needs: { Self → Type 0 };

    // What holds of it, as it began, and of what it gave.
    ghost gives: { Self → T → Type 0 };

    /// Whether it is wanted in a thread of its own. If it isn't, it is done without one. No clause speaks of this.
    fn is_wanted(&self) -> bool;

    /// Does it.
    fn work(self) -> T
        requires { needs self }
        ensures { gives self result };
}

/// What a thread promises that does some work, and whether one is wanted for it.
#[derive(Drop)]
pub(crate) struct Does<V> {
    work: Snapshot<V>,
    is_wanted: bool,
}

impl<T, V: Work<T>> Promise<T> for Does<V> {
    ghost kept_by = { λ p r. V.gives p.work.value r };
}

impl<V> Does<V> {
    /// The promise of a thread that does this work.
    pub(crate) fn of<T>(work: &V) -> Does<V>
    where
        V: Work<T>,
        ensures { result.work.value ≡ work.now }
    {
        Does {
            work: Snapshot::of(work),
            is_wanted: work.is_wanted(),
        }
    }
}

/// What was made of some work: the thread that does it, or the work itself; and what it promised.
pub(crate) type Started<T, V, F> = (Result<PromisedHandle<T, Does<V>>, F>, Snapshot<Does<V>>);

/// Starts a thread that does some work, if it is wanted and can be started. Otherwise this gives the work back.
pub(crate) fn start_if<'s, E, V: Work<T>, F: FnOnce() -> T + Send + 's, T: Send + Drop + 's>(
    scope: &Scope<'s, E>,
    promise: Does<V>,
    work: F,
) -> Started<T, V, F>
    requires runs { F.pre work }
    requires keeps { (r : T) → F.post work r → V.gives promise.work.value r }
    ensures promised { result.1.value ≡ promise }
    ensures begun { IfOk result.0 (λ h. h.promise ≡ result.1.value) }
    ensures runs { IfErr result.0 (λ f. F.pre f) }
    ensures keeps { IfErr result.0 (λ f. (r : T) → F.post f r → V.gives result.1.value.work.value r) }
{
    let promised = Snapshot::of(&promise);
    if !promise.is_wanted {
        return (Err(work), promised);
    }
    match scope.spawn_with(promise, work) {
        Ok(child) => (Ok(child), promised),
        Err(refused) => (Err(refused.value), promised),
    }
}

/// Waits until the thread that does some work has ended. If none was started, this does the work.
pub(crate) fn join_or_do<R: Threads, V: Work<T>, F: FnOnce() -> T, T>(
    rt: &R,
    started: Started<T, V, F>,
) -> T
    requires begun { IfOk started.0 (λ h. h.promise ≡ started.1.value) }
    requires runs { IfErr started.0 (λ f. F.pre f) }
    requires keeps { IfErr started.0 (λ f. (r : T) → F.post f r → V.gives started.1.value.work.value r) }
    ensures { V.gives started.1.value.work.value result }
{
    let (thread, _promised) = started;
    match thread {
        Ok(child) => child.join(rt),
        Err(work) => work(),
    }
}

impl Work<()> for Unrecorded {
    ghost needs = { λ w. Unit {0} };

    ghost gives = { λ w r. Unit {0} };

    /// Nothing is to be recorded.
    fn is_wanted(&self) -> bool {
        false
    }

    fn work(self) {}
}
