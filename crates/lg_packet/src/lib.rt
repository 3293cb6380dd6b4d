//! Packets, and the bytes that spell them.
#![tactic(auto)]

mod decoding;
mod fault;
mod kind;
mod laws;
mod packet;
mod reading;
mod writing;

pub use decoding::decode;
pub use fault::Fault;
pub use laws::{begun_spelling, first_bad_byte, one_reading, one_spelling, own_spelling};
pub use lg_rules::{MAX_CLAIMS, Version};
pub use packet::{Body, Packet};
pub use writing::{MAX_PACKET, encode};
