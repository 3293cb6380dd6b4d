//! Commands, configuration files and pumps to which memory is refused once. Nothing here refuses memory:
//! `gate/refusals` runs each test once for each allocation, with that one refused. So these tests are proved, and
//! others are only tried.
#![tactic(auto)]

#[cfg(test)]
mod config;
#[cfg(test)]
mod plays;
#[cfg(test)]
mod pumping;
#[cfg(test)]
mod refused_memory;
