//! A server of HTTP over a socket on loopback, to which memory is refused once. Nothing here refuses memory:
//! `gate/refusals` runs the test once for each allocation, with that one refused. So this test is proved, and others
//! are only tried.
#![tactic(auto)]

#[cfg(test)]
mod client;
#[cfg(test)]
mod refused_memory;
#[cfg(test)]
mod site;
