//! The bytes that b sends once it hears a packet, as bytes.
use crate::playing::blank;
use arrayvec::ArrayVec;
use lg_detector::{Detector, Event, Outgoing, Reply};
use lg_detector_testing::Happens::Opens;
use lg_detector_testing::Setting::Wire;
use lg_detector_testing::{event_of, takes};
use lg_packet::{MAX_PACKET, decode, encode};
use lg_testing::answers::ANSWERS;
use lg_testing::{at, local};

/// The bytes of a packet.
fn bytes_of(sent: &Outgoing) -> ArrayVec<u8, MAX_PACKET> {
    let mut out = ArrayVec::new();
    encode(&sent.packet, &mut out);
    out
}

/// Hears the packet that bytes from a port spell, at a moment. Returns whether they spell one.
pub(super) fn comes(
    detector: &mut Detector,
    now: u64,
    port: u16,
    bytes: &[u8],
    reply: &mut Reply,
) -> bool {
    match decode(bytes) {
        Ok(packet) => {
            let event = Event::Heard {
                now: at(now),
                source: local(port),
                packet,
            };
            takes(detector, &event, reply)
        }
        Err(_) => false,
    }
}

/// Whether these bytes are sent in one packet, or nothing if they are none.
pub(super) fn are_sent(reply: &Reply, bytes: &[u8]) -> bool {
    match reply.sends.as_slice() {
        [] => bytes.is_empty(),
        [sent] => bytes_of(sent).as_slice() == bytes,
        _ => false,
    }
}

/// b answers each packet by the bytes that it should.
#[test]
fn answers_bytes(rt: HostRuntime) {
    for (case, wire, answers) in ANSWERS {
        let mut detector = blank(&rt, rt.alloc());
        let mut reply = Reply::default();
        detector.absorb(&event_of(&Opens(0, &[Wire(*wire)])));
        for (number, (bytes, sent)) in answers.iter().enumerate() {
            let met = comes(&mut detector, 0, 1, bytes, &mut reply) && are_sent(&reply, sent);
            assert!(rt; met, "{case}, packet {number}: {reply:?}");
        }
    }
}
