//! Tests of the commands over values and streams in memory. They show what only such a call can show.
#![tactic(auto)]

#[cfg(test)]
mod addresses;
#[cfg(test)]
mod config;
#[cfg(test)]
mod explain;
#[cfg(test)]
mod finding;
#[cfg(test)]
mod launch;
#[cfg(test)]
mod limits;
#[cfg(test)]
mod messages;
#[cfg(test)]
mod plays;
#[cfg(test)]
mod ports;
#[cfg(test)]
mod pumping;
#[cfg(test)]
mod readers;
#[cfg(test)]
mod replay;
#[cfg(test)]
mod replies;
#[cfg(test)]
mod resolving;
#[cfg(test)]
mod seed_rows;
#[cfg(test)]
mod streams;
#[cfg(test)]
mod writers;
