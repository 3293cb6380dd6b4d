//! Tests of the histories, the published views and the agent, over their public calls.
#![tactic(auto)]

#[cfg(test)]
mod agent;
#[cfg(test)]
mod comparing;
#[cfg(test)]
mod history;
#[cfg(test)]
mod playing;
#[cfg(test)]
mod view;
