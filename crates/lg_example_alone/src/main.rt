//! A detector alone: it is opened, hears a packet, and ticks. After each event the program prints how many packets
//! there are to send, how many records changed, and when the next tick is due.
#![tactic(auto)]

use lg_detector::{Detector, Event, Reply};
use lg_packet::decode;
use lg_rules::{Addr, Name};
use lg_timing::{Config, Moment};
use std::io;

/// A Ping of a for b, numbered 7, with the claim that c is alive at 127.0.0.1:7003.
const PING: &[u8; 26] =
    b"SL\x01\x01\x01a\x00\x00\x00\x07\x01b\x01\x01\x01c\x7f\x00\x00\x01\x1b\x5b\x00\x00\x00\x00";

fn main(rt: HostRuntime) -> io::Result<()> {
    let now = Moment::default();
    let Ok(name) = Name::new(b"b") else {
        return println!(rt; "no name");
    };
    let config = Config::new(name, Addr::v4([127, 0, 0, 1], 7000));
    let source = Addr::v4([127, 0, 0, 1], 9000);
    let Ok(packet) = decode(PING) else {
        return println!(rt; "no packet");
    };
    let events = [
        Event::Open { now, config },
        Event::Heard {
            now,
            source,
            packet,
        },
        Event::Tick { now, words: [0; 8] },
    ];
    // This is the only call that allocates.
    let mut detector = Detector::blank(rt.alloc())?;
    let mut reply = Reply::default();
    for event in &events {
        // `step` takes only what this says yes to.
        if detector.accepts(event) {
            detector.step(event, &mut reply);
            let (sends, changed) = (reply.sends.len(), reply.changed.len());
            println!(rt;
                "{sends} to send, {changed} changed, next tick at {} ms",
                reply.next
            )?;
        }
    }
    Ok(())
}
