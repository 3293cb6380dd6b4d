//! Whom to probe, which helpers to ask (ping-req), and what came of a probe.
#![tactic(auto)]

mod helpers;
mod names;
mod order;
mod picks;
mod relays;
mod round;

pub use helpers::{Helpers, MAX_HELPERS};
pub use order::{Order, choose_all, orders_have_room, windows_have_each};
pub use relays::{Asker, MAX_RELAYS, Relay, Relays};
pub use round::Round;
