//! The commands that ask a running node, to which memory is refused once, by a server on loopback in another thread.
//! Nothing here refuses memory: `gate/refusals` runs the test once for each allocation, with that one refused. So this
//! test is proved, and others are only tried.
#![tactic(auto)]

#[cfg(test)]
mod refused_memory;
#[cfg(test)]
mod server;
