//! Writes an output by a thread of its own, so that whoever writes isn't held for ever by a reader that takes nothing.
//!
//! A [`Pump`] holds what is yet to be written. [`Pump::run`] is the work of its thread, which writes to the output. A
//! [`PumpWriter`] hands texts to it, and waits until they are written: without an end at first, and for 1.8 s once it
//! was told to stop.
//!
//! Where to read on: what is handed over in which order, and in which pieces it is written,
//! `specs/Meaning/Handing.antt`. What threads do no contract can say: `lg_command_tests/src/pumping.rt`.
#![tactic(auto)]

mod patience;
mod pieces;
mod pump;
mod queue;
mod writer;

pub use patience::GRACE_MS;
pub use pieces::MAX_PIECE;
pub use pump::Pump;
pub use queue::MAX_HELD;
pub use writer::PumpWriter;
