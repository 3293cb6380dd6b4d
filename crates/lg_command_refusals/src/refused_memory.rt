//! Commands that are refused memory once. Then nothing is written, and the next run goes well.
use crate::plays::PLAYS;

/// Each of two runs comes out as it does with memory, or tells that memory was refused, with nothing written. At
/// least one of them comes out well.
#[test]
fn writes_nothing_where_memory_is_refused(rt: HostRuntime) {
    for play in PLAYS {
        let runs = [play.is_met(rt.alloc()), play.is_met(rt.alloc())];
        let whole = runs.contains(&Some(true)) && !runs.contains(&Some(false));
        assert!(rt; whole, "{play:?}: {runs:?}");
    }
}
