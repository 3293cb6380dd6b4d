//! Checks of files, and the lines that tell of hosts, while memory is refused once. Nothing here refuses memory:
//! `gate/refusals` runs each test once for each allocation, with that one refused. So these tests are proved, and
//! others are only tried.
#![tactic(auto)]

#[cfg(test)]
mod checks;
#[cfg(test)]
mod hosts;
