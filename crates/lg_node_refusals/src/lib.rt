//! The loops of a node, its threads, its watcher and its status server, while memory is refused once. Nothing here
//! refuses memory: `gate/refusals` runs each test once for each allocation, with that one refused. So these tests are
//! proved, and others are only tried.
#![tactic(auto)]

#[cfg(test)]
mod links;
#[cfg(test)]
mod loops;
#[cfg(test)]
mod playing;
#[cfg(test)]
mod refused_memory;
#[cfg(test)]
mod serving;
#[cfg(test)]
mod watching;
