//! The type parameter that names an agent.
//!
//! Defined in: this file.
//! Tested in: `lg_agent_tests/src/playing.rt`.
use lg_view::PairName;
use std::marker::Brand;

/// Names one published pair, and how many places its agent has.
///
/// A function that opens an agent takes a type parameter with this bound. It requires that the book and the number of
/// places that it is handed are those that the parameter names. At run time the type is [`Brand`].
pub trait AgentName: PairName {
    ghost use Rattle.std.specs.Prelude.{ℕ};

    ghost places: { ℕ };
}

// Nobody reads these places: a caller's contract names its own type parameter, which requires a number of its own.
impl AgentName for Brand {
    ghost places = { 0 };
}
