//! A pump that is made while memory is refused once.
use lg_pump::Pump;

/// A pump for which memory is refused isn't made, and the next one is.
#[test]
fn makes_a_pump_after_refused_memory(rt: HostRuntime) {
    let first = Pump::new(rt.alloc()).is_ok();
    let second = Pump::new(rt.alloc()).is_ok();
    assert!(rt; first || second);
}
