//! Tests of the keys of a group, of tags, and of sealed datagrams.
#![tactic(auto)]

#[cfg(test)]
mod keys;
#[cfg(test)]
mod sealing;
#[cfg(test)]
mod tags;
