//! The configuration of a member, and its check.
//!
//! Defined in: `specs/Meaning/Config.antt`, `specs/Meaning/Keys.antt`.
//! Tested in: `lg_parts_tests/src/timing.rt`.
ghost use Rattle.std.specs.Prelude.{◌≡◌};
ghost use Rattle.lg_timing.specs.Meaning.Config.{is_within, is_seed, have_distinct_names, are_good_seeds};
ghost use Rattle.lg_timing.specs.Meaning.Config.{can_name_group, version_of, does_forget};

use crate::keys::{KEYS, Key};
use arrayvec::ArrayVec;
use lg_rules::{Addr, MAX_LAMBDA, Name, Version};
use thiserror::Error;

/// The shortest interval (protocol period), in milliseconds: 10 (this project's choice).
pub const MIN_INTERVAL_MS: u64 = 10;

/// The longest interval (protocol period), in milliseconds: 60,000 (this project's choice).
pub const MAX_INTERVAL_MS: u64 = 60_000;

/// The most helpers that are asked to ping a member (by a ping-req): 8 (this project's choice).
pub const MAX_INDIRECT: u64 = 8;

/// The greatest health score that a configuration can allow: 20 (this project's choice).
pub const MAX_SCORE: u64 = 20;

/// The greatest factor of a suspicion timeout, `alpha` or `beta`: 20 (this project's choice).
pub const MAX_FACTOR: u64 = 20;

/// The most confirmations that may count for a suspicion: 5 (this project's choice).
pub const MAX_CONFIRMATIONS: u64 = 5;

/// The earliest nack of a helper, in thousandths of `timeout_ms`: 1 (this project's choice).
pub const MIN_NACK_THOUSANDTHS: u64 = 1;

/// The latest nack of a helper, in thousandths of `timeout_ms`: 999 (this project's choice).
pub const MAX_NACK_THOUSANDTHS: u64 = 999;

/// The least limit of a stored history, in entries: 2 (this project's choice).
pub const MIN_HISTORY_LIMIT: u64 = 2;

/// The greatest limit of a stored history, in entries: 1,000,000 (this project's choice).
pub const MAX_HISTORY_LIMIT: u64 = 1_000_000;

/// The oldest version of the format of packets: 1 (this project's choice).
pub const MIN_WIRE: u64 = 1;

/// The newest version of the format of packets: 3 (this project's choice).
pub const MAX_WIRE: u64 = 3;

/// The shortest time for which a member that failed or left is kept, in milliseconds: 1,000 (this project's choice).
pub const MIN_FORGET_MS: u64 = 1000;

/// The longest time for which a member that failed or left is kept, in milliseconds: 2,592,000,000, which is thirty
/// days (this project's choice).
pub const MAX_FORGET_MS: u64 = 2_592_000_000;

/// The shortest time that news waits for its first gossip, in milliseconds: 10 (this project's choice).
pub const MIN_GOSSIP_MS: u64 = 10;

/// The longest time that news waits for its first gossip, in milliseconds: 60,000 (this project's choice).
pub const MAX_GOSSIP_MS: u64 = 60_000;

/// The most members that a gossip goes to: 8 (this project's choice).
pub const MAX_GOSSIP_TO: u64 = 8;

/// The least first number of a probe: 1 (this project's choice).
pub const MIN_FIRST: u64 = 1;

/// The greatest number of a probe: 4,294,967,295, which is the greatest that four bytes hold (this project's choice).
pub const MAX_FIRST: u64 = 4_294_967_295;

/// The most seeds of a configuration: 16 (this project's choice).
pub const MAX_SEEDS: usize = 16;

/// A member that is known from the start, and where it is reached.
#[derive(Clone, Copy, Debug, Default, PartialEq, Eq)]
pub struct Seed {
    /// The member.
    pub name: Name,
    /// Where it is reached.
    pub addr: Addr,
}

/// What is wrong with a configuration: a field that is out of its range. If there are several faults, the one with the
/// least number counts.
#[derive(Clone, Copy, Debug, PartialEq, Eq, Error)]
pub enum ConfigFault {
    /// `interval_ms` isn't 10 to 60,000.
    #[error("interval_ms has to be {least} to {most}", least = MIN_INTERVAL_MS, most = MAX_INTERVAL_MS)]
    Interval = 1,
    /// `timeout_ms` isn't 1 to `interval_ms - 1`.
    #[error("timeout_ms has to be at least 1 and less than interval_ms")]
    Timeout = 2,
    /// `indirect` isn't 0 to 8.
    #[error("indirect has to be 0 to {most}", most = MAX_INDIRECT)]
    Indirect = 3,
    /// `max_score` isn't 0 to 20.
    #[error("max_score has to be 0 to {most}", most = MAX_SCORE)]
    MaxScore = 4,
    /// `alpha` isn't 1 to 20.
    #[error("alpha has to be 1 to {most}", most = MAX_FACTOR)]
    Alpha = 5,
    /// `beta` isn't 1 to 20.
    #[error("beta has to be 1 to {most}", most = MAX_FACTOR)]
    Beta = 6,
    /// `confirmations` isn't 0 to 5.
    #[error("confirmations has to be 0 to {most}", most = MAX_CONFIRMATIONS)]
    Confirmations = 7,
    /// `lambda` isn't 1 to 10.
    #[error("lambda has to be 1 to {most}", most = MAX_LAMBDA)]
    Lambda = 8,
    /// `nack_thousandths` isn't 1 to 999.
    #[error("nack_thousandths has to be {least} to {most}", least = MIN_NACK_THOUSANDTHS, most = MAX_NACK_THOUSANDTHS)]
    Nack = 9,
    /// `history_limit` isn't 2 to 1,000,000.
    #[error("history_limit has to be {least} to {most}", least = MIN_HISTORY_LIMIT, most = MAX_HISTORY_LIMIT)]
    History = 10,
    /// Two seeds have the same name, or a seed has the member's own name.
    #[error("seeds may be at most {most}, with different names, none of them the member's own", most = MAX_SEEDS)]
    Seeds = 11,
    /// `wire` isn't 1 to 3. The faults of a file that means no configuration have the numbers between.
    #[error("wire has to be {least} to {most}", least = MIN_WIRE, most = MAX_WIRE)]
    Wire = 15,
    /// `forget_ms` is neither 0 nor 1,000 to 2,592,000,000.
    #[error("forget_ms has to be 0 or {least} to {most}", least = MIN_FORGET_MS, most = MAX_FORGET_MS)]
    Forget = 22,
    /// `gossip_ms` is neither 0 nor 10 to 60,000.
    #[error("gossip_ms has to be 0 or {least} to {most}", least = MIN_GOSSIP_MS, most = MAX_GOSSIP_MS)]
    GossipMs = 23,
    /// `gossip_to` isn't 1 to 8.
    #[error("gossip_to has to be 1 to {most}", most = MAX_GOSSIP_TO)]
    GossipTo = 24,
    /// `first` isn't 1 to 4,294,967,295.
    #[error("first has to be {least} to {most}", least = MIN_FIRST, most = MAX_FIRST)]
    First = 25,
    /// A member of a group has a `wire` other than 3. Its own group would drop what it sends.
    #[error("a member of a group has to have wire = {most}", most = MAX_WIRE)]
    Group = 26,
}

impl ConfigFault {
    ghost use Rattle.lg_timing.specs.Meaning.Keys.{config_fault_number};

    /// The number of the fault: 1 to 11, 15, and 22 to 26. A check looks for the faults in the order of their numbers.
    pub fn number(self) -> u8
        ensures { result ≡ config_fault_number self }
    {
        self as u8
    }
}

/// The configuration of a member: its name and address, the members that it knows from the start, and its numbers.
/// The ranges and the defaults are this project's choice.
#[derive(Debug, Drop)]
pub struct Config {
    /// The time from one probe to the next at a health score of 0, in milliseconds: 10 to 60,000. SWIM calls it the
    /// protocol period (section 3.1).
    pub interval_ms: u64,
    /// How long a probe waits for its ack before helpers are asked, at a health score of 0, in milliseconds: 1 to
    /// `interval_ms - 1` (SWIM, section 3.1).
    pub timeout_ms: u64,
    /// How many helpers are asked to ping a member that didn't ack (the indirect probe): 0 to 8 (SWIM, section 3.1,
    /// which calls it k).
    pub indirect: u64,
    /// The greatest health score: 0 to 20 (Lifeguard, local health aware probe, which calls it S).
    pub max_score: u64,
    /// The factor of the least suspicion timeout: 1 to 20 (Lifeguard, local health aware suspicion).
    pub alpha: u64,
    /// How many times as long as the least suspicion timeout the greatest is: 1 to 20 (Lifeguard, local health aware
    /// suspicion).
    pub beta: u64,
    /// After how many confirmations a suspicion has its least timeout: 0 to 5 (Lifeguard, local health aware
    /// suspicion, which calls it K).
    pub confirmations: u64,
    /// The factor of the retransmit limit: how often a claim may be sent for each decimal digit of the number of live
    /// members, 1 to 10 (SWIM, section 4.1).
    pub lambda: u64,
    /// When a helper sends its nack, in thousandths of `timeout_ms`: 1 to 999 (Lifeguard, local health aware probe).
    pub nack_thousandths: u64,
    /// The most entries of a stored history: 2 to 1,000,000 (this project's choice).
    pub history_limit: u64,
    /// In which version of the format the member writes its packets: 1 to 3 (this project's choice).
    pub wire: u64,
    /// How long a member that failed or left is kept before it is forgotten, in milliseconds: 0 (nothing is forgotten)
    /// or 1,000 to 2,592,000,000 (this project's choice).
    pub forget_ms: u64,
    /// How long news waits for its first gossip, in milliseconds: 0 (no gossip) or 10 to 60,000 (this project's
    /// choice).
    pub gossip_ms: u64,
    /// To how many members a gossip goes: 1 to 8 (this project's choice).
    pub gossip_to: u64,
    /// The first number of probes and relays: 1 to 4,294,967,295. Behind the greatest number comes 1 (this project's
    /// choice).
    pub first: u64,
    /// The group of members that the member belongs to, if it has one. It has to have `wire` 3 then (this project's
    /// choice).
    pub group: Option<Name>,
    /// The members that are known from the start: at most 16, with different names, none of them the member's own.
    pub seeds: ArrayVec<Seed, MAX_SEEDS>,
    /// The member's name.
    pub name: Name,
    /// The member's address.
    pub addr: Addr,
}

/// Whether a number is at least `least` and at most `most`.
pub fn is_within(least: u64, most: u64, number: u64) -> bool
    ensures { result ≡ is_within least most number }
{
    least <= number && number <= most
}

/// Whether some seed has this name.
fn is_seed(name: &Name, seeds: &[Seed]) -> bool
    ensures { result ≡ is_seed name.now seeds.now }
{
    seeds.iter().any(|seed| seed.name == *name)
}

/// Whether no two seeds have the same name.
fn have_distinct_names(seeds: &[Seed]) -> bool
    ensures { result ≡ have_distinct_names seeds.now }
{
    match seeds {
        [] => true,
        [seed, others @ ..] => !is_seed(&seed.name, others) && have_distinct_names(others),
    }
}

/// Whether there are at most 16 seeds, with different names, none of them the member's own.
fn are_good_seeds(own: &Name, seeds: &[Seed]) -> bool
    ensures { result ≡ are_good_seeds own.now seeds.now }
{
    seeds.len() <= MAX_SEEDS && have_distinct_names(seeds) && !is_seed(own, seeds)
}

impl Config {
    ghost use Rattle.std.specs.Prelude.{find, not};
    ghost use Rattle.lg_timing.specs.Meaning.Config.{defaults, check_of, IsChecked};
    ghost use Rattle.lg_timing.specs.Meaning.Keys.{greatest, is_in_range, number_of_key, with_number};

    /// Makes the configuration of a member with the default numbers and no seeds. It passes its check.
    #[tactic(auto, unfolding(crate::specs::Meaning::Config::check_of))]
    pub fn new(name: Name, addr: Addr) -> Config
        ensures defaults { result ≡ defaults name addr }
        ensures checked { IsChecked result }
    {
        Config {
            interval_ms: Key::IntervalMs.row().default,
            timeout_ms: Key::TimeoutMs.row().default,
            indirect: Key::Indirect.row().default,
            max_score: Key::MaxScore.row().default,
            alpha: Key::Alpha.row().default,
            beta: Key::Beta.row().default,
            confirmations: Key::Confirmations.row().default,
            lambda: Key::Lambda.row().default,
            nack_thousandths: Key::NackThousandths.row().default,
            history_limit: Key::HistoryLimit.row().default,
            wire: Key::Wire.row().default,
            forget_ms: Key::ForgetMs.row().default,
            gossip_ms: Key::GossipMs.row().default,
            gossip_to: Key::GossipTo.row().default,
            first: Key::First.row().default,
            group: None,
            seeds: ArrayVec::new(),
            name,
            addr,
        }
    }

    /// Copies the configuration. Allocates no memory.
    pub fn copy(&self) -> Config
        ensures { result ≡ self.now }
    {
        let mut seeds = ArrayVec::new();
        seeds.try_extend_from_slice(&self.seeds).unwrap();
        Config { seeds, ..*self }
    }

    /// The version of the format in which the member writes its packets, which is that of `wire`. It is version 1 if
    /// `wire` is out of its range.
    pub fn version(&self) -> Version
        ensures { result ≡ version_of self.now }
    {
        match self.wire {
            2 => Version::Two,
            3 => Version::Three,
            _ => Version::One,
        }
    }

    /// Whether the member forgets members that failed or left: `forget_ms` isn't 0.
    pub fn does_forget(&self) -> bool
        ensures { result ≡ does_forget self.now }
    {
        self.forget_ms > 0
    }

    /// The number of a key.
    pub fn number(&self, key: Key) -> u64
        ensures { result ≡ number_of_key key self.now }
    {
        match key {
            Key::IntervalMs => self.interval_ms,
            Key::TimeoutMs => self.timeout_ms,
            Key::Indirect => self.indirect,
            Key::MaxScore => self.max_score,
            Key::Alpha => self.alpha,
            Key::Beta => self.beta,
            Key::Confirmations => self.confirmations,
            Key::Lambda => self.lambda,
            Key::NackThousandths => self.nack_thousandths,
            Key::HistoryLimit => self.history_limit,
            Key::Wire => self.wire,
            Key::ForgetMs => self.forget_ms,
            Key::GossipMs => self.gossip_ms,
            Key::GossipTo => self.gossip_to,
            Key::First => self.first,
        }
    }

    /// Sets the number of a key. The number may be out of its range, which a check finds.
    pub fn set(&mut self, key: Key, number: u64)
        ensures { self.new ≡ with_number key number self.old }
    {
        match key {
            Key::IntervalMs => self.interval_ms = number,
            Key::TimeoutMs => self.timeout_ms = number,
            Key::Indirect => self.indirect = number,
            Key::MaxScore => self.max_score = number,
            Key::Alpha => self.alpha = number,
            Key::Beta => self.beta = number,
            Key::Confirmations => self.confirmations = number,
            Key::Lambda => self.lambda = number,
            Key::NackThousandths => self.nack_thousandths = number,
            Key::HistoryLimit => self.history_limit = number,
            Key::Wire => self.wire = number,
            Key::ForgetMs => self.forget_ms = number,
            Key::GossipMs => self.gossip_ms = number,
            Key::GossipTo => self.gossip_to = number,
            Key::First => self.first = number,
        }
    }

    /// The greatest number of a key in this configuration: `interval_ms - 1` for the timeout.
    fn greatest(&self, key: Key) -> u64
        ensures { result ≡ greatest self.now key }
    {
        match key {
            Key::TimeoutMs => self.interval_ms.saturating_sub(1),
            _ => key.row().most,
        }
    }

    /// Whether the number of a key is in its range, or is the 0 that turns off what the key is about.
    fn is_in_range(&self, key: Key) -> bool
        ensures { result ≡ is_in_range self.now key }
    {
        key.row().allows(self.greatest(key), self.number(key))
    }

    /// The first of some keys whose number is out of its range, if there is one.
    fn first_broken(&self, keys: &[Key]) -> Option<Key>
        ensures { result ≡ find (λ key. not (is_in_range self.now key)) keys.now }
    {
        keys.iter().copied().find(|key| !self.is_in_range(*key))
    }

    /// Whether the member may belong to its group, if it has one: only packets of version 3 name a group.
    fn can_name_group(&self) -> bool
        ensures { result ≡ can_name_group self.now.group self.now.wire }
    {
        match self.group {
            Some(_) => self.wire == MAX_WIRE,
            None => true,
        }
    }

    /// Checks that the number of each key is in its range, that the seeds are good, and that a member of a group has
    /// `wire` 3. The error is the first fault. The numbers are judged in the order of [`KEYS`], the seeds behind
    /// `history_limit` and before `wire`, and the group last.
    #[tactic(auto, unfolding(crate::specs::Meaning::Config::check_of))]
    pub fn check(&self) -> Result<(), ConfigFault>
        ensures { result ≡ check_of self.now }
    {
        let are_good = are_good_seeds(&self.name, &self.seeds);
        match self.first_broken(&KEYS) {
            Some(key) if are_good || key.is_before_seeds() => Err(key.row().fault),
            None if are_good && self.can_name_group() => Ok(()),
            None if are_good => Err(ConfigFault::Group),
            _ => Err(ConfigFault::Seeds),
        }
    }
}
