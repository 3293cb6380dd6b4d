//! What a watcher waits for.
//!
//! Defined in: this file.
//! Tested in: `lg_node_tests/src/watching.rt`, `cases/groups`.

/// Tells a watcher when to look. No contract can say when that is.
pub trait News {
    /// Waits until a record has changed since the last wait ended, or the watcher is to look for another reason. If
    /// `most_ms` is given, it waits so many milliseconds at most.
    fn wait(&self, most_ms: Option<u64>);
}
