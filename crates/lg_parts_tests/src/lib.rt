//! Tests of the crates below the detector, over their public calls. They name no crate above these, so that they are
//! proved while the detector is.
#![tactic(auto)]

#[cfg(test)]
mod bit_set;
#[cfg(test)]
mod gossip;
#[cfg(test)]
mod membership;
#[cfg(test)]
mod packet;
#[cfg(test)]
mod probe;
#[cfg(test)]
mod rows;
#[cfg(test)]
mod rules;
#[cfg(test)]
mod suspicion;
#[cfg(test)]
mod timers;
#[cfg(test)]
mod timing;
