//! Tests of recordings: entries written and read back, cut off at each byte, and with each byte changed.
#![tactic(auto)]

#[cfg(test)]
mod entries;
#[cfg(test)]
mod samples;
