//! Moments, the configuration, the health score, and each function of the timeouts. What the command `timeouts`
//! writes shows the values of the tables and of the timeouts.
use lg_rules::{Addr, Version};
use lg_testing::{at, letter};
use lg_timing::{
    Config, ConfigFault, Key, Moment, Score, Seed, is_within, suspicion_ms, tables_are_logarithms,
};

/// A score of at most 8 after seven marks of 1 and one of 2, the same score after one more mark, and the interval and
/// the timeout at it. Then a score after one mark below 0, and after two more.
fn scores() -> [u64; 6] {
    let config = Config::new(letter(b'b'), Addr::default());
    let mut high = Score::new(8);
    for _ in 0..7 {
        high.mark(1);
    }
    high.mark(2);
    let eight = high.value();
    high.mark(1);
    let mut low = Score::new(8);
    low.mark(-1);
    let none = low.value();
    low.mark(2);
    low.mark(-1);
    [
        eight,
        high.value(),
        high.interval(&config),
        high.timeout(&config),
        none,
        low.value(),
    ]
}

/// The timeout among four members, the greatest moment, the later of two moments, and the number of the fault of
/// the seeds.
fn milliseconds() -> [u64; 4] {
    let config = Config::new(letter(b'b'), Addr::default());
    [
        suspicion_ms(4, 0, &config),
        at(1_000_000_000_000_000).milliseconds(),
        at(5000).later(at(4000)).milliseconds(),
        u64::from(ConfigFault::Seeds.number()),
    ]
}

/// Which of 1, 2, 5 and 6 lie from 2 to 5, whether there is a moment after the greatest one, and whether the first
/// moment is earlier than another.
fn ranges_and_moments() -> [bool; 6] {
    [
        is_within(2, 5, 1),
        is_within(2, 5, 2),
        is_within(2, 5, 5),
        is_within(2, 5, 6),
        Moment::new(1_000_000_000_000_001).is_some(),
        Moment::default() < at(5000),
    ]
}

/// Scores are held between 0 and 8 at every mark. Each function of the timeouts and of moments gives what it should,
/// once. Both ends of a range lie in it. No moment is above the greatest, and the first one is earlier than others.
#[test]
fn scores_ranges_and_moments(rt: HostRuntime) {
    tables_are_logarithms();
    assert_eq!(rt; scores(), [8, 8, 9000, 4500, 0, 1]);
    assert_eq!(rt; milliseconds(), [5000, 1_000_000_000_000_000, 5000, 11]);
    let within = [false, true, true, false, false, true];
    assert_eq!(rt; ranges_and_moments(), within);
}

/// The keys, each with its fault, the number of that, and its least and its greatest number at an interval of 1000.
const RANGES: &[(Key, ConfigFault, u8, u64, u64)] = &[
    (Key::IntervalMs, ConfigFault::Interval, 1, 10, 60000),
    (Key::TimeoutMs, ConfigFault::Timeout, 2, 1, 999),
    (Key::Indirect, ConfigFault::Indirect, 3, 0, 8),
    (Key::MaxScore, ConfigFault::MaxScore, 4, 0, 20),
    (Key::Alpha, ConfigFault::Alpha, 5, 1, 20),
    (Key::Beta, ConfigFault::Beta, 6, 1, 20),
    (Key::Confirmations, ConfigFault::Confirmations, 7, 0, 5),
    (Key::Lambda, ConfigFault::Lambda, 8, 1, 10),
    (Key::NackThousandths, ConfigFault::Nack, 9, 1, 999),
    (Key::HistoryLimit, ConfigFault::History, 10, 2, 1_000_000),
    (Key::Wire, ConfigFault::Wire, 15, 1, 3),
    (Key::ForgetMs, ConfigFault::Forget, 22, 1000, 2_592_000_000),
    (Key::GossipMs, ConfigFault::GossipMs, 23, 10, 60_000),
    (Key::GossipTo, ConfigFault::GossipTo, 24, 1, 8),
    (Key::First, ConfigFault::First, 25, 1, 4_294_967_295),
];

/// The member `b` with seeds of one letter each, and another number for some keys. It has the default numbers for the
/// other keys, except for a timeout that fits each interval.
fn config_of(keys: &[Key], number: u64, letters: &[u8]) -> Config {
    let mut config = Config::new(letter(b'b'), Addr::default());
    config.timeout_ms = 1;
    for key in keys {
        config.set(*key, number);
    }
    for byte in letters {
        let _ = config.seeds.try_push(Seed {
            name: letter(*byte),
            addr: Addr::default(),
        });
    }
    config
}

/// Whether a number of a key is judged right: it is good, or it has the key's fault.
fn is_judged(key: Key, fault: ConfigFault, number: u64, is_good: bool) -> bool {
    let want = if is_good { Ok(()) } else { Err(fault) };
    config_of(&[key], number, b"").check() == want
}

/// Whether the edges of a range are good, and what is beyond them isn't.
fn has_edges(key: Key, fault: ConfigFault, least: u64, most: u64) -> bool {
    is_judged(key, fault, least.wrapping_sub(1), false)
        && is_judged(key, fault, least, true)
        && is_judged(key, fault, most, true)
        && is_judged(key, fault, most.wrapping_add(1), false)
}

/// A time of 0 turns gossip and forgetting off. No other number below the range is good.
const OFF: &[(Key, ConfigFault, u64, bool)] = &[
    (Key::GossipMs, ConfigFault::GossipMs, 0, true),
    (Key::GossipMs, ConfigFault::GossipMs, 1, false),
    (Key::GossipMs, ConfigFault::GossipMs, 9, false),
    (Key::ForgetMs, ConfigFault::Forget, 0, true),
    (Key::ForgetMs, ConfigFault::Forget, 1, false),
    (Key::ForgetMs, ConfigFault::Forget, 999, false),
];

/// The edges of each range are good, and what is beyond them isn't. Below 0 comes the greatest number of all. Each
/// fault has its number.
#[test]
fn the_edges_of_each_range(rt: HostRuntime) {
    for (key, fault, number, least, most) in RANGES {
        let is_numbered = fault.number() == *number;
        assert!(rt;
            is_numbered && has_edges(*key, *fault, *least, *most),
            "{key:?}"
        );
    }
    for (key, fault, number, is_good) in OFF {
        let met = is_judged(*key, *fault, *number, *is_good);
        assert!(rt; met, "{key:?} {number}");
    }
}

const SEEDS: &[(&[u8], Result<(), ConfigFault>)] = &[
    (b"", Ok(())),
    (b"cd", Ok(())),
    (b"cc", Err(ConfigFault::Seeds)),
    (b"bc", Err(ConfigFault::Seeds)),
    (b"cb", Err(ConfigFault::Seeds)),
    (b"0123456789ABCDEF", Ok(())),
];

/// Whether `b` with these seeds is judged like this, and a copy too.
fn are_judged(letters: &[u8], want: &Result<(), ConfigFault>) -> bool {
    let config = config_of(&[], 0, letters);
    let copy = config.copy();
    config.check() == *want && copy.check() == *want && copy.seeds.len() == letters.len()
}

/// There are at most 16 seeds, whose names differ from b's and from one another. A copy is judged the same.
#[test]
fn seeds_have_other_names(rt: HostRuntime) {
    for (letters, want) in SEEDS {
        assert!(rt; are_judged(letters, want), "{letters:?}");
    }
}

/// Some keys, and the fault if the numbers of all of them are out of their ranges, and the seeds are bad.
const FAULTS: &[(&[Key], ConfigFault)] = &[
    (&[Key::IntervalMs, Key::TimeoutMs], ConfigFault::Interval),
    (&[Key::TimeoutMs, Key::IntervalMs], ConfigFault::Interval),
    (&[Key::TimeoutMs, Key::Indirect], ConfigFault::Timeout),
    (&[Key::Beta, Key::Alpha], ConfigFault::Alpha),
    (
        &[Key::HistoryLimit, Key::NackThousandths],
        ConfigFault::Nack,
    ),
    (&[Key::HistoryLimit, Key::MaxScore], ConfigFault::MaxScore),
    (
        &[Key::Lambda, Key::Confirmations],
        ConfigFault::Confirmations,
    ),
    (&[Key::Wire, Key::HistoryLimit], ConfigFault::History),
    (&[Key::Wire], ConfigFault::Seeds),
    (&[Key::GossipTo, Key::GossipMs], ConfigFault::Seeds),
    (&[], ConfigFault::Seeds),
];

/// The same for good seeds.
const LATE_FAULTS: &[(&[Key], ConfigFault)] = &[
    (
        &[Key::GossipTo, Key::GossipMs, Key::Wire],
        ConfigFault::Wire,
    ),
    (&[Key::GossipTo, Key::GossipMs], ConfigFault::GossipMs),
    (&[Key::GossipTo, Key::HistoryLimit], ConfigFault::History),
    (&[Key::GossipTo], ConfigFault::GossipTo),
    (
        &[Key::First, Key::ForgetMs, Key::GossipMs],
        ConfigFault::Forget,
    ),
];

/// The version of packets of a member of the group g, its first number, and how it is judged.
const GROUPS: &[(u64, u64, Result<(), ConfigFault>)] = &[
    (1, 1, Err(ConfigFault::Group)),
    (2, 1, Err(ConfigFault::Group)),
    (3, 1, Ok(())),
    (4, 1, Err(ConfigFault::Wire)),
    (3, 0, Err(ConfigFault::First)),
    (1, 0, Err(ConfigFault::First)),
];

/// A member of a group writes packets of version 3. The fault of one that doesn't has the greatest number.
#[test]
fn a_group_by_its_version(rt: HostRuntime) {
    assert_eq!(rt; ConfigFault::Group.number(), 26);
    for (wire, first, want) in GROUPS {
        let mut config = config_of(&[Key::Wire], *wire, b"c");
        config.first = *first;
        config.group = Some(letter(b'g'));
        let copy = config.copy();
        assert!(rt;
            config.check() == *want && copy.check() == *want,
            "{wire} {first}"
        );
    }
}

/// Numbers are out of their ranges, and a seed has b's name, or c's. The fault is the one with the least number.
#[test]
fn the_first_of_several_faults(rt: HostRuntime) {
    for (letters, faults) in [(b"b", FAULTS), (b"c", LATE_FAULTS)] {
        for (keys, want) in faults {
            let config = config_of(keys, 4_294_967_296, letters);
            assert!(rt; config.check() == Err(*want), "{keys:?}");
        }
    }
}

/// Numbers of `wire`, with the version of what is written. Those that are out of the range stand for version 1.
const WIRES: &[(u64, Version)] = &[
    (0, Version::One),
    (1, Version::One),
    (2, Version::Two),
    (3, Version::Three),
    (4, Version::One),
];

/// The version that is written goes by `wire`.
#[test]
fn writes_by_its_wire(rt: HostRuntime) {
    for (wire, version) in WIRES {
        let written = config_of(&[Key::Wire], *wire, b"").version();
        assert!(rt; written == *version, "{wire}: {written:?}");
    }
}
