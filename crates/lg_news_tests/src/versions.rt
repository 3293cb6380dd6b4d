//! Plays what happens to a b with a `wire`, which hears packets of one version.
use crate::playing::blank;
use lg_detector::{Detector, Event, MAX_SENDS, Reply, Sends};
use lg_detector_testing::Happens::{self, Opens};
use lg_detector_testing::{event_of, is_same_reply, takes};
use lg_packet::{Body, Packet, Version};
use lg_testing::says::named;
use std::alloc::Global;
use std::process::Abort;

/// A case: its name, b's `wire`, and the version of each packet that b hears. Then what happens to b after it is
/// opened at 0, and the version of all packets that b sends at the last of it.
pub(super) type VersionCase = (
    &'static str,
    u64,
    Version,
    &'static [Happens<'static>],
    Version,
);

/// What happens, with packets of a version and openings with a `wire`. b doesn't gossip.
fn versioned(happens: &Happens<'_>, wire: u64, version: Version) -> Event {
    let mut event = event_of(happens);
    match &mut event {
        Event::Open { config, .. } => {
            config.wire = wire;
            config.gossip_ms = 0;
        }
        Event::Heard { packet, .. } => packet.version = version,
        _ => {}
    }
    event
}

/// Plays what happens on a b with a `wire`. Returns whether all of it was accepted. Overwrites the reply with the last
/// one.
fn plays(
    detector: &mut Detector,
    wire: u64,
    version: Version,
    happens: &[Happens<'_>],
    reply: &mut Reply,
) -> bool {
    let mut accepted = takes(detector, &versioned(&Opens(0, &[]), wire, version), reply);
    for one in happens {
        accepted = takes(detector, &versioned(one, wire, version), reply) && accepted;
    }
    accepted
}

/// Whether an Ack or a Nack names `a` as its receiver in version 3, and none in another version.
fn is_for_a(body: &Body, version: Version) -> bool {
    let told = (version == Version::Three).then_some(named("a"));
    match body {
        Body::Ack { receiver, .. } | Body::Nack { receiver, .. } => *receiver == told,
        _ => true,
    }
}

/// The body without its receiver.
fn without_receiver(body: Body) -> Body {
    match body {
        Body::Ack { number, .. } => Body::Ack {
            number,
            receiver: None,
        },
        Body::Nack { number, .. } => Body::Nack {
            number,
            receiver: None,
        },
        _ => body,
    }
}

/// Whether a packet takes claims of the queue.
fn takes_claims(body: &Body) -> bool {
    match body {
        Body::Ping { .. } | Body::PingReq { .. } | Body::Ack { .. } | Body::Gossip => true,
        Body::Nack { .. } | Body::Pull { .. } | Body::Page => false,
    }
}

/// Takes what b says of itself out of a packet that takes claims of the queue. Returns whether it was there exactly if
/// it should be: in version 3 b queues its own arrival.
fn takes_arrival_out(packet: &mut Packet, version: Version) -> bool {
    if !takes_claims(&packet.body) {
        return true;
    }
    let count = packet.claims.len();
    packet.claims.retain(|claim| claim.name != named("b"));
    let arrived = packet.claims.len() < count;
    arrived == (version == Version::Three)
}

/// Whether packets are sent, and each has this version, and is for `a` if it is an Ack or a Nack, and tells of b in
/// version 3 if it takes claims of the queue. Gives each version 1, no receiver, and no arrival of b.
fn were_sent_in(reply: &mut Reply, version: Version) -> bool {
    let mut all = reply.sends.len() > 0;
    let mut given = Sends::new();
    for outgoing in reply.sends.as_slice() {
        let mut sent = outgoing.copy();
        let packet = &mut sent.packet;
        all = packet.version == version && is_for_a(&packet.body, version) && all;
        all = takes_arrival_out(packet, version) && all;
        packet.version = Version::One;
        packet.body = without_receiver(packet.body);
        if given.len() < MAX_SENDS {
            given.push(sent);
        }
    }
    reply.sends = given;
    all
}

/// Plays each case on its own b. But for the version, the receivers and the arrival of b, the last reply is that of a b
/// with the default `wire` which hears the same in version 1.
pub(super) fn play_versions(rt: &impl Abort, alloc: Global, cases: &[VersionCase]) {
    for (case, wire, heard, happens, sent) in cases {
        let (mut reply, mut plain) = (Reply::default(), Reply::default());
        let accepted = plays(&mut blank(rt, alloc), *wire, *heard, happens, &mut reply)
            && plays(&mut blank(rt, alloc), 1, Version::One, happens, &mut plain);
        let met = were_sent_in(&mut reply, *sent) && is_same_reply(&reply, &plain);
        assert!(rt; accepted && met, "{case}: {reply:?}");
    }
}
