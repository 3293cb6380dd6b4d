//! What happens to a detector, as plain data.
use lg_detector::Event;
use lg_packet::Version;
use lg_testing::bodies::{Says, packet_of};
use lg_testing::says::{Member, Said, named};
use lg_testing::{at, local};
use lg_timing::{Config, Seed};

/// What an opening sets in addition to the default numbers.
#[derive(Clone, Copy)]
pub enum Setting {
    /// Another name in place of b, and its port.
    Own(Member, u16),
    /// The group that b belongs to.
    Group(Member),
    /// A seed at a port.
    Seed(Member, u16),
    /// The time of a round.
    Interval(u64),
    /// How many helpers are asked.
    Indirect(u64),
    /// The greatest score.
    MaxScore(u64),
    /// How long an Ack is waited for.
    Timeout(u64),
    /// The factor of the least suspicion timeout.
    Alpha(u64),
    /// How many packets carry a claim at most, for each decimal digit of the number of live members.
    Lambda(u64),
    /// The version of what b sends.
    Wire(u64),
    /// How long news waits for its first gossip. 0 turns gossip off.
    GossipMs(u64),
    /// To how many members a gossip goes.
    GossipTo(u64),
    /// How many confirmations of a suspicion count.
    Confirmations(u64),
    /// How long a member that is gone stays known. 0 turns forgetting off.
    ForgetMs(u64),
    /// The first number of probes and relays.
    FirstNumber(u64),
}

/// What happens to the detector, at a moment.
#[derive(Clone, Copy)]
pub enum Happens<'a> {
    /// b is opened.
    Opens(u64, &'a [Setting]),
    /// A tick with the words 0 to 7.
    Tick(u64),
    /// A tick whose words choose the first candidates.
    First(u64),
    /// A tick with these words.
    TickBy(u64, [u32; 8]),
    /// A packet of a member comes from a port.
    From(u64, Member, u16, Says, &'a [Said]),
    /// A packet of a version, of a member, comes from a port.
    FromIn(u64, Version, Member, u16, Says, &'a [Said]),
    /// A packet of a version, of a member, comes from port 1.
    In(u64, Version, Member, Says, &'a [Said]),
    /// A packet of version three that names a group, of a member, comes from port 1.
    OfGroup(u64, Member, Member, Says, &'a [Said]),
    /// A Ping of a, from port 1, for a member.
    Ping(u64, u32, Member, &'a [Said]),
    /// An Ack of a member, from port 7000, by its number.
    Ack(u64, Member, u32),
    /// A Nack of a member, from port 7000, by its number.
    Nack(u64, Member, u32),
    /// The record of a member is asked for.
    Ask(u64, Member),
    /// The health is asked for.
    Health(u64),
    /// The member at port 7002 is asked for its table.
    Pull(u64),
    /// The member at a port is asked for its table.
    PullAt(u64, u16),
    /// b leaves, by words that are all 0.
    Leave(u64),
    /// b leaves, by these words.
    LeaveBy(u64, [u32; 8]),
}

/// Sets one number or seed of a configuration.
fn set(config: &mut Config, setting: &Setting) {
    match setting {
        Setting::Own(member, port) => {
            config.name = named(member);
            config.addr = local(*port);
        }
        Setting::Group(group) => config.group = Some(named(group)),
        Setting::Seed(member, port) => {
            if !config.seeds.is_full() {
                config.seeds.push(Seed {
                    name: named(member),
                    addr: local(*port),
                });
            }
        }
        Setting::Interval(interval) => config.interval_ms = *interval,
        Setting::Indirect(indirect) => config.indirect = *indirect,
        Setting::MaxScore(score) => config.max_score = *score,
        Setting::Timeout(timeout) => config.timeout_ms = *timeout,
        Setting::Alpha(alpha) => config.alpha = *alpha,
        Setting::Lambda(lambda) => config.lambda = *lambda,
        Setting::Wire(wire) => config.wire = *wire,
        Setting::GossipMs(gossip) => config.gossip_ms = *gossip,
        Setting::ForgetMs(forget) => config.forget_ms = *forget,
        Setting::GossipTo(count) => config.gossip_to = *count,
        Setting::Confirmations(count) => config.confirmations = *count,
        Setting::FirstNumber(number) => config.first = *number,
    }
}

/// The configuration of b with the default numbers and what is set.
fn config_of(settings: &[Setting]) -> Config {
    let mut config = Config::new(named("b"), local(7000));
    for setting in settings {
        set(&mut config, setting);
    }
    config
}

/// A packet of a member that comes from a port.
fn heard(now: u64, sender: Member, port: u16, says: &Says, said: &[Said]) -> Event {
    Event::Heard {
        now: at(now),
        source: local(port),
        packet: packet_of(sender, says, said),
    }
}

/// A packet of a version, of a member, that comes from a port.
fn heard_from(
    now: u64,
    version: Version,
    sender: Member,
    port: u16,
    says: &Says,
    said: &[Said],
) -> Event {
    let mut packet = packet_of(sender, says, said);
    packet.version = version;
    Event::Heard {
        now: at(now),
        source: local(port),
        packet,
    }
}

/// A packet of a version and perhaps of a group, of a member, that comes from port 1.
fn heard_in(
    now: u64,
    version: Version,
    group: Option<Member>,
    sender: Member,
    says: &Says,
    said: &[Said],
) -> Event {
    let mut packet = packet_of(sender, says, said);
    packet.version = version;
    packet.group = group.map(named);
    Event::Heard {
        now: at(now),
        source: local(1),
        packet,
    }
}

/// A tick with these words.
fn ticked(now: u64, words: [u32; 8]) -> Event {
    Event::Tick {
        now: at(now),
        words,
    }
}

/// The member at a port is asked for its table.
fn pulled(now: u64, port: u16) -> Event {
    Event::Pull {
        now: at(now),
        peer: local(port),
    }
}

/// b leaves, by these words.
fn left(now: u64, words: [u32; 8]) -> Event {
    Event::Leave {
        now: at(now),
        words,
    }
}

/// What happens, as an event.
pub fn event_of(happens: &Happens<'_>) -> Event {
    match happens {
        Happens::Opens(now, settings) => Event::Open {
            now: at(*now),
            config: config_of(settings),
        },
        Happens::Tick(now) => ticked(*now, [0, 1, 2, 3, 4, 5, 6, 7]),
        Happens::First(now) => ticked(*now, [0; 8]),
        Happens::TickBy(now, words) => ticked(*now, *words),
        Happens::From(now, sender, port, says, said) => heard(*now, sender, *port, says, said),
        Happens::FromIn(now, version, sender, port, says, said) => {
            heard_from(*now, *version, sender, *port, says, said)
        }
        Happens::In(now, version, sender, says, said) => {
            heard_in(*now, *version, None, sender, says, said)
        }
        Happens::OfGroup(now, group, sender, says, said) => {
            heard_in(*now, Version::Three, Some(group), sender, says, said)
        }
        Happens::Ping(now, number, target, said) => {
            heard(*now, "a", 1, &Says::Ping(*number, *target), said)
        }
        Happens::Ack(now, sender, number) => heard(*now, sender, 7000, &Says::Ack(*number), &[]),
        Happens::Nack(now, sender, number) => heard(*now, sender, 7000, &Says::Nack(*number), &[]),
        Happens::Ask(now, member) => Event::Ask {
            now: at(*now),
            name: named(member),
        },
        Happens::Health(now) => Event::Health { now: at(*now) },
        Happens::Pull(now) => pulled(*now, 7002),
        Happens::PullAt(now, port) => pulled(*now, *port),
        Happens::Leave(now) => left(*now, [0; 8]),
        Happens::LeaveBy(now, words) => left(*now, *words),
    }
}
