//! Where a thread of its own tells of faults.
//!
//! Defined in: this file.
//! Tested in: `cases/nodes`.
use lg_text::FaultStream;
use std::rt::Stderr;

/// A machine that has a stream for the lines that tell of faults, for each thread that asks for one.
pub trait FaultStreams {
    /// The stream.
    type Stream: FaultStream + Send + Drop + 'static;

    /// A stream for the caller. What several streams take comes in any order, line by line.
    fn fault_stream(&self) -> Self::Stream;
}

impl FaultStreams for HostRuntime {
    type Stream = Stderr;

    /// Standard error.
    fn fault_stream(&self) -> Stderr {
        self.stderr()
    }
}
