//! Tests of a node's loops, clocks and dice, and of its watcher. They show what only a call can show.
#![tactic(auto)]

#[cfg(test)]
mod clock;
#[cfg(test)]
mod node;
#[cfg(test)]
mod watching;
