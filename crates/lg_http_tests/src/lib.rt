//! Tests of a server over sockets on loopback, which a client in another thread asks.
#![tactic(auto)]

#[cfg(test)]
mod acting;
#[cfg(test)]
mod board;
#[cfg(test)]
mod client;
#[cfg(test)]
mod crowd;
#[cfg(test)]
mod hosts;
#[cfg(test)]
mod late;
#[cfg(test)]
mod playing;
#[cfg(test)]
mod serving;
