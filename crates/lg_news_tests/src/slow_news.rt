//! A slow judge of news, written from its rules: what a member queues, what its packets carry, and when and to whom it
//! gossips. It walks over all events, and keeps plain lists. Which timers fire and which other packets are sent it
//! takes as they come.
use arrayvec::ArrayVec;
use lg_detector::{Event, Outgoing, Reply, Timer, TimerId};
use lg_packet::{Body, Packet, Version};
use lg_rules::{Addr, Claim, MAX_CLAIMS, Name, Record, Status};
use lg_timing::Config;
use slow_queue::{SlowQueue, add};

mod slow_queue;

/// The most members that the judge can follow, b included.
pub(super) const MOST: usize = 16;

/// What the judge keeps of a member.
#[derive(Drop)]
pub(super) struct SlowNews {
    version: Version,
    lambda: u64,
    gossip_ms: u64,
    gossip_to: u64,
    /// The member's own record.
    own: Record,
    /// The records of the others, in any order.
    records: ArrayVec<Record, MOST>,
    /// The claims that it tells.
    queue: SlowQueue,
    /// The greatest moment.
    now: u64,
    /// When the timer of the gossip is due, if it is set.
    gossip: Option<u64>,
}

/// The place of a status among those at one incarnation.
fn rank(status: &Status) -> u8 {
    match status {
        Status::Alive => 0,
        Status::Suspect(_) => 1,
        Status::Failed => 2,
        Status::Left => 3,
    }
}

/// Whether a member with this status is gone.
fn is_gone(status: &Status) -> bool {
    rank(status) > 1
}

/// Whether a status doubts its member.
fn is_doubt(status: &Status) -> bool {
    rank(status) == 1 || rank(status) == 2
}

/// Whether a claim replaces a record.
fn replaces(claim: &Claim, record: &Record) -> bool {
    let (heard, known) = (claim.incarnation.number(), record.incarnation.number());
    heard > known || (heard == known && rank(&claim.status) > rank(&record.status))
}

/// How many decimal digits a number has.
fn digits(number: usize) -> u64 {
    if number < 10 { 1 } else { 2 }
}

/// Picks the one of some names that a word chooses, and takes it out of them.
fn pick(names: &mut ArrayVec<Name, MOST>, word: u32) -> Option<Name> {
    let count = names.len();
    if count == 0 {
        return None;
    }
    Some(names.remove(word as usize % count))
}

/// The moment of an event.
fn moment_of(event: &Event) -> u64 {
    let now = match event {
        Event::Open { now, .. } => now,
        Event::Tick { now, .. } => now,
        Event::Heard { now, .. } => now,
        Event::Ask { now, .. } => now,
        Event::Health { now } => now,
        Event::Pull { now, .. } => now,
        Event::Leave { now, .. } => now,
    };
    now.milliseconds()
}

/// Whether a packet has a version, and these claims.
fn carries(packet: &Packet, version: Version, claims: &[Claim]) -> bool {
    packet.version == version && packet.claims.as_slice() == claims
}

/// Whether a packet is this Gossip.
fn is_gossip(sent: Option<&Outgoing>, to: Option<Addr>, claims: &[Claim]) -> bool {
    match sent {
        Some(sent) => {
            Some(sent.to) == to
                && sent.packet.body == Body::Gossip
                && carries(&sent.packet, Version::Three, claims)
        }
        None => false,
    }
}

impl SlowNews {
    /// A member that is opened with a configuration.
    pub(super) fn open(config: &Config) -> SlowNews {
        let mut news = SlowNews {
            version: config.version(),
            lambda: config.lambda,
            gossip_ms: config.gossip_ms,
            gossip_to: config.gossip_to,
            own: Claim {
                name: config.name,
                addr: config.addr,
                ..Claim::default()
            },
            records: ArrayVec::new(),
            queue: SlowQueue::new(),
            now: 0,
            gossip: None,
        };
        for seed in config.seeds.as_slice() {
            let record = Claim {
                name: seed.name,
                addr: seed.addr,
                ..Claim::default()
            };
            add(&mut news.records, &record);
        }
        if news.is_new() {
            news.queue_own();
        }
        news.end_event();
        news
    }

    /// Whether the rules of news hold.
    fn is_new(&self) -> bool {
        self.version == Version::Three
    }

    /// The record of another.
    fn record_of(&self, name: &Name) -> Option<Record> {
        self.records
            .iter()
            .find(|record| record.name == *name)
            .copied()
    }

    /// The names of the others that aren't gone, in their order.
    fn others(&self) -> ArrayVec<Name, MOST> {
        let mut names = ArrayVec::new();
        for record in self.records.as_slice() {
            if !is_gone(&record.status) && !names.is_full() {
                names.push(record.name);
            }
        }
        names.sort_unstable();
        names
    }

    /// How often a claim may be sent.
    fn limit(&self) -> u64 {
        let members = self.others().len().saturating_add(1);
        self.lambda.saturating_mul(digits(members))
    }

    /// Whether a claim may still be sent.
    fn has_news(&self) -> bool {
        self.queue.has_news(self.limit())
    }

    /// Whether the own claim may still be sent.
    fn has_own_news(&self) -> bool {
        self.queue.has_news_of(&self.own.name, self.limit())
    }

    /// Queues the own record.
    fn queue_own(&mut self) {
        self.queue.put(&self.own);
    }

    /// A claim about the member itself.
    fn hear_own(&mut self, claim: &Claim) {
        let (heard, known) = (claim.incarnation.number(), self.own.incarnation.number());
        let is_answered = heard > known || (heard == known && rank(&claim.status) > 0);
        if is_answered {
            self.own.incarnation = claim.incarnation.successor().unwrap_or_default();
            self.queue_own();
        } else if self.is_new()
            && heard < known
            && is_doubt(&claim.status)
            && !self.has_own_news()
        {
            self.queue_own();
        }
    }

    /// A claim is heard. A further accuser of a suspected member isn't told, since no confirmations count.
    fn hear(&mut self, claim: &Claim) {
        if claim.name == self.own.name {
            self.hear_own(claim);
            return;
        }
        match self.record_of(&claim.name) {
            Some(record) if !replaces(claim, &record) => self.repeat_leave(claim, &record),
            _ => {
                let name = claim.name;
                self.records.retain(|record| record.name != name);
                add(&mut self.records, claim);
                self.queue.put(claim);
            }
        }
    }

    /// A claim is heard that replaces no record. If it suspects a member that left, the leave is told again.
    fn repeat_leave(&mut self, claim: &Claim, record: &Record) {
        if self.is_new()
            && rank(&claim.status) == 1
            && record.status == Status::Left
            && !self.queue.has_news_of(&record.name, self.limit())
        {
            self.queue.put(record);
        }
    }

    /// Whether a name is that of another member that isn't gone.
    fn is_live(&self, name: &Name) -> bool {
        match self.record_of(name) {
            Some(record) => !is_gone(&record.status),
            None => false,
        }
    }

    /// How a claim of a packet is heard. If a table says that another member failed which isn't gone, whoever tells the
    /// table only accuses it.
    fn as_heard(&self, packet: &Packet, claim: &Claim) -> Claim {
        let mut heard = *claim;
        if self.is_new()
            && packet.body == Body::Page
            && claim.status == Status::Failed
            && claim.name != packet.sender
            && self.is_live(&claim.name)
        {
            heard.status = Status::Suspect(packet.sender);
        }
        heard
    }

    /// The claims of the next packet, which begins with a record or doesn't.
    fn fill(&mut self, buddy: Option<Record>) -> ArrayVec<Claim, MAX_CLAIMS> {
        let most = if self.is_new() { 12 } else { 6 };
        let limit = self.limit();
        self.queue.fill(buddy, most, limit)
    }

    /// The record that an Ack to a member begins with.
    fn buddy_of_ack(&self, receiver: &Option<Name>) -> Option<Record> {
        let record = self.record_of(receiver.as_ref()?)?;
        is_doubt(&record.status).then_some(record)
    }

    /// The record that a Ping to a member begins with.
    fn buddy_of_ping(&self, target: &Name) -> Option<Record> {
        let record = self.record_of(target)?;
        (rank(&record.status) == 1).then_some(record)
    }

    /// Whether a packet has the claims that it should.
    fn is_filled(&mut self, packet: &Packet) -> bool {
        let buddy = match &packet.body {
            Body::Ping { target, .. } => self.buddy_of_ping(target),
            Body::Ack { receiver, .. } => self.buddy_of_ack(receiver),
            Body::PingReq { .. } => None,
            Body::Nack { .. } => return packet.claims.is_empty(),
            Body::Pull { .. } | Body::Page => return true,
            Body::Gossip => return false,
        };
        let claims = self.fill(buddy);
        carries(packet, self.version, claims.as_slice())
    }

    /// Whether the packets of an event have the claims that they should, and none is a Gossip.
    fn are_filled(&mut self, reply: &Reply) -> bool {
        let mut met = true;
        for sent in reply.sends.as_slice() {
            met = self.is_filled(&sent.packet) && met;
        }
        met
    }

    /// Whom the words pick.
    fn told(&self, words: &[u32; 8]) -> ArrayVec<Name, MOST> {
        let mut names = self.others();
        let mut told = ArrayVec::new();
        let most = usize::try_from(self.gossip_to).unwrap_or_default();
        for word in words.iter().take(most) {
            if let Some(name) = pick(&mut names, *word) {
                if !told.is_full() {
                    told.push(name);
                }
            }
        }
        told
    }

    /// Whether a packet is the Gossip that should go to a member.
    fn is_gossip_to(&mut self, name: &Name, sent: Option<&Outgoing>) -> bool {
        let to = match self.record_of(name) {
            Some(record) => Some(record.addr),
            None => None,
        };
        let claims = self.fill(None);
        is_gossip(sent, to, claims.as_slice())
    }

    /// Whether a gossip sends what it should, to those that the words pick, as long as there is news.
    fn gossips(&mut self, words: &[u32; 8], reply: &Reply) -> bool {
        self.gossip = None;
        let told = self.told(words);
        let mut met = true;
        let mut count = 0_usize;
        for name in told.as_slice() {
            if self.has_news() {
                met = self.is_gossip_to(name, reply.sends.as_slice().get(count)) && met;
                count = count.saturating_add(1);
            }
        }
        met && reply.sends.len() == count
    }

    /// Whether it isn't the gossip that should have fired in place of a timer, or of none.
    fn is_in_turn(&self, fired: &Option<Timer>) -> bool {
        match (fired, self.gossip) {
            (Some(timer), Some(gossip)) if timer.id == TimerId::Gossip => timer.deadline == gossip,
            (Some(timer), None) => timer.id != TimerId::Gossip,
            (Some(timer), Some(gossip)) => timer.deadline <= gossip,
            (None, Some(gossip)) => self.now < gossip,
            (None, None) => true,
        }
    }

    /// Whether a tick does what it should.
    fn ticks(&mut self, words: &[u32; 8], reply: &Reply) -> bool {
        let in_turn = self.is_in_turn(&reply.fired);
        for record in reply.changed.as_slice() {
            self.hear(record);
        }
        match &reply.fired {
            Some(timer) if timer.id == TimerId::Gossip => self.gossips(words, reply) && in_turn,
            _ => self.are_filled(reply) && in_turn,
        }
    }

    /// Sets the timer of the gossip, if it is to be set.
    fn end_event(&mut self) {
        let tells = self.is_new()
            && self.gossip_ms != 0
            && self.has_news()
            && !self.others().is_empty();
        if self.gossip.is_none() && tells {
            self.gossip = Some(self.now.saturating_add(self.gossip_ms));
        }
    }

    /// Whether the next deadline isn't after that of the gossip.
    fn is_next(&self, reply: &Reply) -> bool {
        match self.gossip {
            Some(gossip) => reply.next <= gossip,
            None => true,
        }
    }

    /// Lets an event happen. Returns whether the reply to it is what it should be.
    pub(super) fn happen(&mut self, event: &Event, reply: &Reply) -> bool {
        self.now = self.now.max(moment_of(event));
        let met = match event {
            Event::Tick { words, .. } => self.ticks(words, reply),
            Event::Heard { packet, .. } => {
                for claim in packet.claims.as_slice() {
                    let heard = self.as_heard(packet, claim);
                    self.hear(&heard);
                }
                self.are_filled(reply)
            }
            _ => self.are_filled(reply),
        };
        self.end_event();
        met && self.is_next(reply)
    }

    /// Whether these are all records, the own one among them.
    pub(super) fn knows(&self, table: &[Record]) -> bool {
        table.len() == self.records.len().saturating_add(1)
            && table.iter().all(|record| {
                *record == self.own || self.record_of(&record.name) == Some(*record)
            })
    }
}
