//! How many random words an event brings.
//!
//! Defined in: this file.
//! Tested in: `lg_parts_tests/src/probe.rt`.

/// The random words of an event that may need chance: 8 (this project's choice). One word chooses a target, or each
/// picks one helper.
pub const RANDOM_WORDS: usize = 8;
