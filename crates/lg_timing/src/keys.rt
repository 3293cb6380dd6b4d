//! The keys of the configuration's numbers: one table of their names, ranges, defaults and faults.
//!
//! Defined in: `specs/Meaning/Keys.antt`.
//! Tested in: `lg_parts_tests/src/timing.rt`, `cases/config_probes.case`, `cases/sim_commands.case`.
ghost use Rattle.std.specs.Prelude.{◌≡◌};
ghost use Rattle.lg_timing.specs.Meaning.Keys.{has_key_name, is_allowed_by, allows_number, is_before_seeds};
ghost use Rattle.lg_timing.specs.Meaning.Keys.{key_named, key_name, row, row_or_off, row_of};

use crate::config::{
    ConfigFault, MAX_CONFIRMATIONS, MAX_FACTOR, MAX_FIRST, MAX_FORGET_MS, MAX_GOSSIP_MS,
    MAX_GOSSIP_TO, MAX_HISTORY_LIMIT, MAX_INDIRECT, MAX_INTERVAL_MS, MAX_NACK_THOUSANDTHS,
    MAX_SCORE, MAX_WIRE, MIN_FIRST, MIN_FORGET_MS, MIN_GOSSIP_MS, MIN_HISTORY_LIMIT,
    MIN_INTERVAL_MS, MIN_NACK_THOUSANDTHS, MIN_WIRE, is_within,
};
use lg_rules::MAX_LAMBDA;

/// The key of a number of the configuration: which field of [`crate::Config`] has the number.
#[derive(Clone, Copy, Debug, PartialEq, Eq)]
pub enum Key {
    /// `interval_ms`.
    IntervalMs,
    /// `timeout_ms`.
    TimeoutMs,
    /// `indirect`.
    Indirect,
    /// `max_score`.
    MaxScore,
    /// `alpha`.
    Alpha,
    /// `beta`.
    Beta,
    /// `confirmations`.
    Confirmations,
    /// `lambda`.
    Lambda,
    /// `nack_thousandths`.
    NackThousandths,
    /// `history_limit`.
    HistoryLimit,
    /// `wire`.
    Wire,
    /// `forget_ms`.
    ForgetMs,
    /// `gossip_ms`.
    GossipMs,
    /// `gossip_to`.
    GossipTo,
    /// `first`.
    First,
}

/// All keys, in the order in which [`crate::Config::check`] judges their numbers. It is that of the numbers of their
/// faults. The seeds are judged before [`Key::Wire`].
pub const KEYS: [Key; 15] = [
    Key::IntervalMs,
    Key::TimeoutMs,
    Key::Indirect,
    Key::MaxScore,
    Key::Alpha,
    Key::Beta,
    Key::Confirmations,
    Key::Lambda,
    Key::NackThousandths,
    Key::HistoryLimit,
    Key::Wire,
    Key::ForgetMs,
    Key::GossipMs,
    Key::GossipTo,
    Key::First,
];

/// What the table says of a key's number.
#[derive(Clone, Copy, Debug, PartialEq, Eq)]
pub struct KeyRow {
    /// The least number.
    pub least: u64,
    /// The greatest number. That of `timeout_ms` belongs to the longest interval: a configuration allows its
    /// `timeout_ms` only up to its `interval_ms - 1`.
    pub most: u64,
    /// The number of a configuration that says nothing of the key.
    pub default: u64,
    /// What is wrong with a configuration whose number is out of its range.
    pub fault: ConfigFault,
    /// Whether 0 is allowed too, and turns off what the key is about.
    pub off: bool,
}

impl KeyRow {
    /// Whether the row allows a number: it is `least` to the greatest number that is given here, or it is 0 and turns
    /// off what the key is about.
    pub(crate) fn allows(self, most: u64, number: u64) -> bool
        ensures { result ≡ is_allowed_by self most number }
    {
        (self.off && number == 0) || is_within(self.least, most, number)
    }
}

/// A row of the table, by which 0 turns nothing off.
fn row(least: u64, most: u64, default: u64, fault: ConfigFault) -> KeyRow
    ensures { result ≡ row least most default fault }
{
    KeyRow {
        least,
        most,
        default,
        fault,
        off: false,
    }
}

/// A row of the table, by which 0 turns off what the key is about.
fn row_or_off(least: u64, most: u64, default: u64, fault: ConfigFault) -> KeyRow
    ensures { result ≡ row_or_off least most default fault }
{
    KeyRow {
        off: true,
        ..row(least, most, default, fault)
    }
}

impl Key {
    /// The key's name, which is that of its field in [`crate::Config`].
    pub fn name(self) -> &'static str
        ensures { result.now ≡ key_name self }
    {
        match self {
            Key::IntervalMs => "interval_ms",
            Key::TimeoutMs => "timeout_ms",
            Key::Indirect => "indirect",
            Key::MaxScore => "max_score",
            Key::Alpha => "alpha",
            Key::Beta => "beta",
            Key::Confirmations => "confirmations",
            Key::Lambda => "lambda",
            Key::NackThousandths => "nack_thousandths",
            Key::HistoryLimit => "history_limit",
            Key::Wire => "wire",
            Key::ForgetMs => "forget_ms",
            Key::GossipMs => "gossip_ms",
            Key::GossipTo => "gossip_to",
            Key::First => "first",
        }
    }

    /// The key's range, default and fault (this project's choice).
    pub fn row(self) -> KeyRow
        ensures { result ≡ row_of self }
    {
        match self {
            Key::IntervalMs => row(
                MIN_INTERVAL_MS,
                MAX_INTERVAL_MS,
                1000,
                ConfigFault::Interval,
            ),
            Key::TimeoutMs => row(1, MAX_INTERVAL_MS - 1, 500, ConfigFault::Timeout),
            Key::Indirect => row(0, MAX_INDIRECT, 3, ConfigFault::Indirect),
            Key::MaxScore => row(0, MAX_SCORE, 8, ConfigFault::MaxScore),
            Key::Alpha => row(1, MAX_FACTOR, 5, ConfigFault::Alpha),
            Key::Beta => row(1, MAX_FACTOR, 6, ConfigFault::Beta),
            Key::Confirmations => row(0, MAX_CONFIRMATIONS, 3, ConfigFault::Confirmations),
            Key::Lambda => row(1, MAX_LAMBDA, 4, ConfigFault::Lambda),
            Key::NackThousandths => row(
                MIN_NACK_THOUSANDTHS,
                MAX_NACK_THOUSANDTHS,
                800,
                ConfigFault::Nack,
            ),
            Key::HistoryLimit => row(
                MIN_HISTORY_LIMIT,
                MAX_HISTORY_LIMIT,
                20000,
                ConfigFault::History,
            ),
            Key::Wire => row(MIN_WIRE, MAX_WIRE, 1, ConfigFault::Wire),
            Key::ForgetMs => row_or_off(MIN_FORGET_MS, MAX_FORGET_MS, 0, ConfigFault::Forget),
            Key::GossipMs => row_or_off(MIN_GOSSIP_MS, MAX_GOSSIP_MS, 200, ConfigFault::GossipMs),
            Key::GossipTo => row(1, MAX_GOSSIP_TO, 3, ConfigFault::GossipTo),
            Key::First => row(MIN_FIRST, MAX_FIRST, 1, ConfigFault::First),
        }
    }

    /// Whether a number is in the key's range, or is the 0 that turns off what the key is about, whatever the other
    /// numbers are.
    pub fn allows(self, number: u64) -> bool
        ensures { result ≡ allows_number self number }
    {
        let row = self.row();
        row.allows(row.most, number)
    }

    /// Whether the key's number is judged before the seeds: whether its fault has a lesser number than theirs.
    pub(crate) fn is_before_seeds(self) -> bool
        ensures { result ≡ is_before_seeds self }
    {
        self.row().fault.number() < ConfigFault::Seeds.number()
    }

    /// Whether a word is the key's name.
    fn has_name(self, word: &[u8]) -> bool
        ensures { result ≡ has_key_name word.now self }
    {
        word == self.name().as_bytes()
    }

    /// The key with a name. None if no key has it.
    pub fn named(word: &[u8]) -> Option<Key>
        ensures { result ≡ key_named word.now }
    {
        KEYS.iter().copied().find(|key| key.has_name(word))
    }
}
