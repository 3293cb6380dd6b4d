//! Tests of the commands that ask a running node, by a server on loopback in another thread.
#![tactic(auto)]

#[cfg(test)]
mod addresses;
#[cfg(test)]
mod answers;
#[cfg(test)]
mod asking;
#[cfg(test)]
mod bodies;
#[cfg(test)]
mod damaged;
#[cfg(test)]
mod edits;
#[cfg(test)]
mod leaving;
#[cfg(test)]
mod outputs;
#[cfg(test)]
mod playing;
#[cfg(test)]
mod server;
#[cfg(test)]
mod unanswered;
#[cfg(test)]
mod waiting;
#[cfg(test)]
mod watching;
#[cfg(test)]
mod writing;
