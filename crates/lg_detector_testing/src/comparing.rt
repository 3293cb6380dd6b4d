//! Compares replies and detectors.
use crate::playing::table_of;
use lg_detector::{Detector, Outgoing, Reply};
use lg_testing::is_same_packet;

/// Whether two packets to be sent are equal.
fn is_same_outgoing(one: &Outgoing, other: &Outgoing) -> bool {
    one.to == other.to && is_same_packet(&one.packet, &other.packet)
}

/// Whether two replies are equal.
pub fn is_same_reply(one: &Reply, other: &Reply) -> bool {
    one.fired == other.fired
        && one.sends.len() == other.sends.len()
        && one
            .sends
            .as_slice()
            .iter()
            .zip(other.sends.as_slice().iter())
            .all(|(sent, stored)| is_same_outgoing(sent, stored))
        && one.changed.as_slice() == other.changed.as_slice()
        && one.forgotten.as_slice() == other.forgotten.as_slice()
        && one.answer == other.answer
        && one.ousted == other.ousted
        && one.next == other.next
}

/// Whether two detectors have had the same number of events, and have the same deadline and table.
pub fn is_same_state(one: &Detector, other: &Detector) -> bool {
    one.events() == other.events()
        && one.next_deadline() == other.next_deadline()
        && table_of(one).as_slice() == table_of(other).as_slice()
}
