//! Detectors, histories, published views and agents to which memory is refused once. Nothing here refuses memory:
//! `gate/refusals` runs each test once for each allocation, with that one refused. So these tests are proved, and
//! others are only tried.
#![tactic(auto)]

#[cfg(test)]
mod agent;
#[cfg(test)]
mod detector;
#[cfg(test)]
mod history;
#[cfg(test)]
mod view;
