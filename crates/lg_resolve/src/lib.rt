//! Finds which addresses the hosts have that are seeds of a node, in a thread of its own, and tells them to its ticking
//! loop. So no loop of a node waits for a resolver, and neither does its end.
//!
//! A [`Resolver`] answers which addresses a host has, and [`NetResolver`] is the machine's. [`SeedHosts`] keeps what
//! was answered. [`start_resolving`] starts the thread. Contracts of other crates cite `IsAfter` and `addrs_by`
//! (`specs/Meaning/Answers.antt`).
#![tactic(auto)]

mod known;
mod lines;
mod resolver;
mod seed_hosts;
mod streams;
mod thread;

pub use resolver::{Families, MAX_OF_HOST, NetResolver, Resolver};
pub use seed_hosts::{FIRST_RETRY_MS, SeedHosts};
pub use streams::FaultStreams;
pub use thread::{Resolving, start_resolving};
