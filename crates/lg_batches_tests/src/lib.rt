//! Tests of what a recorder is handed of a node.
#![tactic(auto)]

#[cfg(test)]
mod taken;
