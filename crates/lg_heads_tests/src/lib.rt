//! Tests of heads of files of recordings: against bytes written by hand, read back, cut off at each byte, and with
//! each fault.
#![tactic(auto)]

#[cfg(test)]
mod heads;
