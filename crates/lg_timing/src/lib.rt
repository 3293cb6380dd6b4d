//! Moments, the configuration, the health score, and how long suspicions last.
#![tactic(auto)]

mod config;
mod keys;
mod moment;
mod score;
mod tables;
mod timeout;

pub use config::{
    Config, ConfigFault, MAX_CONFIRMATIONS, MAX_FACTOR, MAX_FORGET_MS, MAX_GOSSIP_MS,
    MAX_GOSSIP_TO, MAX_HISTORY_LIMIT, MAX_INDIRECT, MAX_INTERVAL_MS, MAX_NACK_THOUSANDTHS,
    MAX_SCORE, MAX_SEEDS, MAX_WIRE, MIN_FORGET_MS, MIN_GOSSIP_MS, MIN_HISTORY_LIMIT,
    MIN_INTERVAL_MS, MIN_NACK_THOUSANDTHS, MIN_WIRE, Seed, is_within,
};
pub use keys::{KEYS, Key, KeyRow};
pub use lg_rules::MAX_LAMBDA;
pub use moment::{MAX_MOMENT, Moment};
pub use score::{MAX_SCALED_MS, Score};
pub use tables::{MAX_LIVE, log10_thousandths, ratio, tables_are_logarithms};
pub use timeout::{MAX_SUSPICION_MS, SuspicionTimeout, suspicion_ms};
