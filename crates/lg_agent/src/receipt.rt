//! What an answered call gives.
//!
//! Defined in: this file, `specs/Meaning/Calls.antt`.
//! Tested in: `lg_agent_tests/src/agent/calls.rt`.
use lg_detector::Reply;
use lg_rules::Name;

/// What an answered call gives.
#[derive(Debug, Drop)]
pub struct Receipt {
    /// The position of the call's entry in the history, from 1; the opening has 0. Entries that were cut off count.
    pub place: u64,
    /// The reply to the call's event.
    pub reply: Reply,
}

/// What an answered call gives of a datagram that was heard, if the reply is written over one that its caller keeps.
#[derive(Clone, Copy, Debug, PartialEq, Eq)]
pub struct HeardPacket {
    /// The position of the call's entry, as in a [`Receipt`].
    pub place: u64,
    /// Whether the packet is a Page, which answers a Pull.
    pub is_page: bool,
    /// The group that the packet names, if it names one.
    pub group: Option<Name>,
}
