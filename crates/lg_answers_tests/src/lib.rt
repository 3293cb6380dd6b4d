//! Tests of what a node answers over HTTP. They call what `lg_answers` and `lg_status_server` have to offer, and show
//! what only such a call can show.
#![tactic(auto)]

#[cfg(test)]
mod answer;
#[cfg(test)]
mod bodies;
#[cfg(test)]
mod counting;
#[cfg(test)]
mod explaining;
#[cfg(test)]
mod leaving;
#[cfg(test)]
mod metrics;
#[cfg(test)]
mod nodes;
#[cfg(test)]
mod page;
#[cfg(test)]
mod ring;
#[cfg(test)]
mod route;
#[cfg(test)]
mod showing;
#[cfg(test)]
mod steps;
#[cfg(test)]
mod target;
