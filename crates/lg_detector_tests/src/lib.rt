//! Tests of the detector, event by event, and of groups of detectors.
#![tactic(auto)]

#[cfg(test)]
mod detector;
#[cfg(test)]
mod playing;
