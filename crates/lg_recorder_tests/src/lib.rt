//! Tests of a recorder: over a folder in memory that fails at one of its calls, and over files of the machine.
#![tactic(auto)]

#[cfg(test)]
mod disk;
#[cfg(test)]
mod folder;
#[cfg(test)]
mod plain;
#[cfg(test)]
mod recording;
#[cfg(test)]
mod running;
