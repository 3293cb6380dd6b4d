//! The signal by which the loops tell a watcher that a record has changed.
use lg_node::ChangeSignal;
use std::thread::join;
use std::time::Instant;

/// How often two threads wake each other.
const ROUNDS: usize = 1000;

/// What was set before a wait isn't missed, and ends one wait.
#[test]
fn remembers_what_was_set(rt: HostRuntime) {
    let signal = ChangeSignal::new();
    signal.set(&rt);
    signal.set(&rt);
    signal.wait(&rt);
    let begun = Instant::now(&rt);
    signal.wait_at_most(&rt, 20);
    let waited = begun.and_then(|begun| begun.elapsed(&rt));
    assert!(rt;
        waited
            .as_ref()
            .is_ok_and(|waited| (20..5_000).contains(&waited.as_millis())),
        "{waited:?}"
    );
}

/// Two threads wake each other in turn. A wake that is lost would leave both waiting.
#[test]
fn loses_no_wake(rt: HostRuntime) {
    let (there, back) = (ChangeSignal::new(), ChangeSignal::new());
    join(
        &rt,
        || {
            for _ in 0..ROUNDS {
                there.set(&rt);
                back.wait(&rt);
            }
        },
        || {
            for _ in 0..ROUNDS {
                there.wait(&rt);
                back.set(&rt);
            }
        },
    );
}
