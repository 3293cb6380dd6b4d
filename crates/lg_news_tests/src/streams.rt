//! Streams of events, by words of a generator. A slow judge looks at each reply of a member to them.
use crate::playing::blank;
use crate::slow_news::SlowNews;
use arrayvec::ArrayVec;
use lg_detector::{Detector, Event, Reply};
use lg_detector_testing::Happens::Opens;
use lg_detector_testing::Setting::{
    self, Alpha, Confirmations, GossipMs, GossipTo, Indirect, Lambda, Timeout, Wire,
};
use lg_detector_testing::{event_of, table_of, takes};
use lg_packet::{Body, MAX_CLAIMS, Packet, Version};
use lg_rules::{Addr, Claim, Name, Status};
use lg_testing::says::named;
use lg_testing::{at, incarnation, local, numbered};

/// How many others there are.
const OTHERS: u32 = 13;

/// How many events there are.
const EVENTS: u32 = 1_500;

/// The address of another.
fn addr_of(number: u32) -> Addr {
    local(u16::try_from(number).unwrap_or_default())
}

/// A stream of events.
#[derive(Drop)]
struct Stream {
    random: u32,
    /// How many events came.
    count: u32,
    now: u64,
}

impl Stream {
    /// The next word of a linear congruential generator, without its low bits, which repeat soon.
    fn word(&mut self) -> u32 {
        self.random = self
            .random
            .wrapping_mul(1_664_525)
            .wrapping_add(1_013_904_223);
        self.random >> 8
    }

    /// b or another, with its address.
    fn member(&mut self) -> (Name, Addr) {
        match self.word() % (OTHERS + 1) {
            OTHERS => (named("b"), local(7000)),
            number => (numbered(number), addr_of(number)),
        }
    }

    /// Another, with its address.
    fn other(&mut self) -> (Name, Addr) {
        let number = self.word() % OTHERS;
        (numbered(number), addr_of(number))
    }

    /// A status. Mostly a member is alive.
    fn status(&mut self) -> Status {
        match self.word() % 8 {
            0 | 1 => Status::Suspect(numbered(self.word() % OTHERS)),
            2 => Status::Failed,
            3 => Status::Left,
            _ => Status::Alive,
        }
    }

    /// A claim. The incarnations rise as events come.
    fn claim(&mut self) -> Claim {
        let (name, addr) = self.member();
        let status = self.status();
        let number = (self.count / 100).saturating_add(self.word() % 3);
        Claim {
            name,
            addr,
            status,
            incarnation: incarnation(number),
        }
    }

    /// Up to three claims.
    fn claims(&mut self) -> ArrayVec<Claim, MAX_CLAIMS> {
        let mut claims = ArrayVec::new();
        for _ in 0..self.word() % 4 {
            let Claim {
                name,
                addr,
                status,
                incarnation,
            } = self.claim();
            if !claims.is_full() {
                claims.push(Claim {
                    name,
                    addr,
                    status,
                    incarnation,
                });
            }
        }
        claims
    }

    /// A request to ping another.
    fn request(&mut self, number: u32) -> Body {
        let (target, addr) = self.other();
        Body::PingReq {
            number,
            target,
            addr,
        }
    }

    /// The body of a packet.
    fn body(&mut self) -> Body {
        let number = self.word() % 50;
        match self.word() % 8 {
            0 => Body::Page,
            1 => Body::Pull { after: None },
            2 => self.request(number),
            3 => Body::Ack {
                number,
                receiver: Some(named("b")),
            },
            4 | 5 => Body::Ping {
                number,
                target: named("b"),
            },
            _ => Body::Gossip,
        }
    }

    /// A packet of another.
    fn heard(&mut self) -> Event {
        let (sender, source) = self.other();
        let packet = Packet {
            version: Version::Three,
            group: None,
            sender,
            body: self.body(),
            claims: self.claims(),
        };
        Event::Heard {
            now: at(self.now),
            source,
            packet,
        }
    }

    /// A tick.
    fn tick(&mut self) -> Event {
        let mut words = [0; 8];
        for word in words.iter_mut() {
            *word = self.word();
        }
        Event::Tick {
            now: at(self.now),
            words,
        }
    }

    /// The next event: a packet, or a tick some time later.
    fn event(&mut self) -> Event {
        self.count = self.count.saturating_add(1);
        if self.word() % 3 == 0 {
            return self.heard();
        }
        let later = u64::from(self.word() % 60);
        self.now = self.now.saturating_add(later);
        self.tick()
    }
}

/// How b is opened.
type Opening = &'static [Setting];

/// Members that gossip, with each number of sends and of those that are told, and some that don't. No confirmations
/// count.
const OPENINGS: &[Opening] = &[
    &[Wire(3), GossipMs(50), Lambda(1), Confirmations(0), Alpha(1)],
    &[
        Wire(3),
        GossipMs(10),
        GossipTo(8),
        Lambda(2),
        Confirmations(0),
        Timeout(100),
    ],
    &[
        Wire(3),
        GossipMs(300),
        GossipTo(1),
        Lambda(3),
        Confirmations(0),
        Indirect(8),
    ],
    &[Wire(3), GossipMs(0), Lambda(2), Confirmations(0), Alpha(1)],
    &[Wire(2), GossipMs(50), Lambda(2), Confirmations(0), Alpha(1)],
    &[Wire(1), GossipMs(50), Lambda(1), Confirmations(0)],
];

/// Whether the member and the judge agree on an event.
fn agree(detector: &mut Detector, slow: &mut SlowNews, event: &Event, reply: &mut Reply) -> bool {
    takes(detector, event, reply)
        && slow.happen(event, reply)
        && slow.knows(table_of(detector).as_slice())
}

/// A judge of a member that is opened.
fn judge_of(opening: &Event) -> Option<SlowNews> {
    match opening {
        Event::Open { config, .. } => Some(SlowNews::open(config)),
        _ => None,
    }
}

/// Each reply to each event of each stream is what the judge wants.
#[test]
fn a_slow_judge_agrees(rt: HostRuntime) {
    for (number, opening) in (0..6_u32).zip(OPENINGS) {
        let mut detector = blank(&rt, rt.alloc());
        let mut reply = Reply::default();
        let opens = event_of(&Opens(0, opening));
        let mut slow = judge_of(&opens).expect(&rt, "it is an opening");
        detector.absorb(&opens);
        let mut stream = Stream {
            random: number,
            count: 0,
            now: 0,
        };
        for place in 0..EVENTS {
            let event = stream.event();
            let met = agree(&mut detector, &mut slow, &event, &mut reply);
            assert!(rt;
                met,
                "opening {number}, event {place}: {event:?}: {reply:?}"
            );
        }
    }
}
