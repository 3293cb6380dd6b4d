//! The answer to each target: its status, its media type and its body.
use crate::bodies::{ROWS, is_of};

/// Each row.
#[test]
fn each_answer(rt: HostRuntime) {
    for row in ROWS {
        let (node, target, ..) = *row;
        let answer = node.answer(rt.alloc(), target);
        let is_met = answer.as_ref().is_ok_and(|answer| is_of(answer, row));
        assert!(rt; is_met, "{row:?}: {answer:?}");
    }
}
