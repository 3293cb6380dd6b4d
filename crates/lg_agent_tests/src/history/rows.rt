//! Made-up events and replies: each kind of event, each part of a reply, and what takes the most memory.
use arrayvec::ArrayVec;
use lg_detector::{
    Answer, Event, MAX_FORGOTTEN, MAX_SENDS, Outgoing, Reply, Sends, Timer, TimerId,
};
use lg_packet::{Body, Version};
use lg_rules::{Addr, Claim, Incarnation, Name, Status};
use lg_testing::{ack, alive, at, claim, failed, letter, local, packet, said, suspect};
use lg_timing::{Config, Seed};

/// An event, the reply to it, and whom the start of a round chose.
#[derive(Drop)]
pub(super) struct Row {
    pub(super) event: Event,
    pub(super) reply: Reply,
    pub(super) chosen: Option<Name>,
}

/// The reply that says nothing, with this least deadline.
fn nothing(next: u64) -> Reply {
    let mut reply = Reply::default();
    reply.next = next;
    reply
}

/// A packet of b to a port.
fn to(port: u16, body: Body, claims: &[Claim]) -> Outgoing {
    Outgoing {
        to: local(port),
        packet: packet(b'b', body, claims),
    }
}

/// One packet to be sent.
fn one(outgoing: Outgoing) -> Sends {
    let mut sends = Sends::new();
    sends.push(outgoing);
    sends
}

/// Eight packets of b, to the ports from 7001 on.
fn eight(body: &Body, claims: &[Claim]) -> Sends {
    let mut sends = Sends::new();
    for port in 7001..7009 {
        if sends.len() < MAX_SENDS {
            sends.push(to(port, *body, claims));
        }
    }
    sends
}

/// The names of some letters.
fn names(letters: &[u8]) -> ArrayVec<Name, MAX_FORGOTTEN> {
    let mut names = ArrayVec::new();
    for one in letters {
        if !names.is_full() {
            names.push(letter(*one));
        }
    }
    names
}

/// A packet of a that is heard at a moment.
fn heard(now: u64, body: Body, claims: &[Claim]) -> Event {
    Event::Heard {
        now: at(now),
        source: local(1),
        packet: packet(b'a', body, claims),
    }
}

/// b is opened at 0, with c as a seed.
pub(super) fn opening() -> Row {
    let mut config = Config::new(letter(b'b'), local(7000));
    config.seeds.push(Seed {
        name: letter(b'c'),
        addr: local(7003),
    });
    Row {
        event: Event::Open { now: at(0), config },
        reply: nothing(0),
        chosen: None,
    }
}

/// A Ping for b at 10 that says that c is alive, and its Ack, with the one record that changed.
pub(super) fn ping() -> Row {
    let (number, target) = (7, letter(b'b'));
    let claims = [alive(b'c', 0)];
    let mut reply = nothing(0);
    reply.sends = one(to(1, ack(number), &claims));
    reply.changed = said(&claims);
    Row {
        event: heard(10, Body::Ping { number, target }, &claims),
        reply,
        chosen: None,
    }
}

/// That Ping and its Ack, in version 2.
fn version_two() -> Row {
    let mut row = ping();
    if let Event::Heard { packet, .. } = &mut row.event {
        packet.version = Version::Two;
    }
    let mut sent = to(1, ack(7), &[alive(b'c', 0)]);
    sent.packet.version = Version::Two;
    row.reply.sends = one(sent);
    row
}

/// c is asked for at 20, and known.
pub(super) fn question() -> Row {
    let (now, name) = (at(20), letter(b'c'));
    let mut reply = nothing(0);
    reply.answer = Some(Answer::Status(Some(alive(b'c', 0))));
    Row {
        event: Event::Ask { now, name },
        reply,
        chosen: None,
    }
}

/// The health is asked for at 5000.
fn health() -> Row {
    let mut reply = nothing(0);
    reply.answer = Some(Answer::Health {
        score: 0,
        number: Incarnation::default(),
        members: 2,
    });
    Row {
        event: Event::Health { now: at(5000) },
        reply,
        chosen: None,
    }
}

/// A tick at 4000 after an event at 5000: the round starts at 5000 with a Ping for c, and its direct timeout is next.
fn round_start() -> Row {
    let (number, target) = (1, letter(b'c'));
    let (deadline, id) = (0, TimerId::RoundStart);
    let mut reply = nothing(5500);
    reply.fired = Some(Timer { deadline, id });
    reply.sends = one(to(7003, Body::Ping { number, target }, &[alive(b'c', 0)]));
    Row {
        event: Event::Tick {
            now: at(4000),
            words: [0, 1, 2, 3, 4, 5, 6, 4_294_967_295],
        },
        reply,
        chosen: Some(target),
    }
}

/// A suspicion of c runs out at 9000, and c is taken as failed.
fn suspicion() -> Row {
    let (deadline, id) = (9000, TimerId::Suspicion(letter(b'c')));
    let mut reply = nothing(9500);
    reply.fired = Some(Timer { deadline, id });
    reply.changed = said(&[failed(b'c', 0)]);
    Row {
        event: Event::Tick {
            now: at(9500),
            words: [0; 8],
        },
        reply,
        chosen: None,
    }
}

/// c, which has failed at 9500, is forgotten at 10,500, and no record changes.
fn forgetting() -> Row {
    let (deadline, id) = (10_500, TimerId::Forget(letter(b'c')));
    let mut reply = nothing(10_900);
    reply.fired = Some(Timer { deadline, id });
    reply.forgotten = names(b"c");
    Row {
        event: Event::Tick {
            now: at(10_500),
            words: [0; 8],
        },
        reply,
        chosen: None,
    }
}

/// b asks the member at port 7002 for its table, and tells of itself.
fn pull() -> Row {
    let (now, peer): (_, Addr) = (at(5), local(7002));
    let mut reply = nothing(0);
    reply.sends = one(to(7002, Body::Pull { after: None }, &[alive(b'b', 0)]));
    Row {
        event: Event::Pull { now, peer },
        reply,
        chosen: None,
    }
}

/// b leaves, and tells c.
fn leave() -> Row {
    let left = [claim(letter(b'b'), Status::Left, 0)];
    let mut reply = nothing(0);
    reply.sends = one(to(7003, Body::Page, &left));
    reply.changed = said(&left);
    Row {
        event: Event::Leave {
            now: at(10),
            words: [4_294_967_295, 6, 5, 4, 3, 2, 1, 0],
        },
        reply,
        chosen: None,
    }
}

/// A Ping for b with a suspicion of b that nothing can refute: b is ousted.
fn ousting() -> Row {
    let (number, target) = (1, letter(b'b'));
    let mut reply = nothing(0);
    reply.sends = one(to(1, ack(number), &[]));
    reply.ousted = true;
    let claims = [suspect(b'b', 1_000_000_000, b'a')];
    Row {
        event: heard(10, Body::Ping { number, target }, &claims),
        reply,
        chosen: None,
    }
}

/// Six claims come in, change six records, and go out with each of eight requests. Twelve members are forgotten.
fn full() -> Row {
    let (number, target, addr) = (4_294_967_295, letter(b'c'), local(65535));
    let claims = [
        alive(b'c', 1_000_000_000),
        suspect(b'd', 2, b'a'),
        failed(b'e', 3),
        alive(b'f', 4),
        alive(b'g', 5),
        alive(b'h', 6),
    ];
    let body = Body::PingReq {
        number,
        target,
        addr,
    };
    let mut reply = nothing(u64::MAX);
    reply.sends = eight(&body, &claims);
    reply.changed = said(&claims);
    reply.forgotten = names(b"ijklmnopqrst");
    Row {
        event: heard(10, body, &claims),
        reply,
        chosen: None,
    }
}

/// All of them.
pub(super) fn all() -> [Row; 12] {
    [
        opening(),
        ping(),
        version_two(),
        question(),
        health(),
        round_start(),
        suspicion(),
        forgetting(),
        pull(),
        leave(),
        ousting(),
        full(),
    ]
}
