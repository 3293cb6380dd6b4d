//! The agent of b at 127.0.0.1:7000, which is opened at 0.
ghost use Rattle.std.specs.Prelude.{◌≡◌, ◌<◌, ◌≤◌};

use lg_agent::{Agent, AgentName, Refusal};
use lg_testing::{at, letter, local};
use lg_timing::{Config, Seed};
use lg_view::UnnamedBook;
use std::alloc::Global;
use std::sync::Wait;

/// The configuration of b with this limit on its history and the default numbers. It knows the first of c, d and e,
/// as many as `others`, at the ports from 7003 on.
pub fn config(limit: u64, others: u8) -> Config {
    config_from(limit, others, 7003)
}

/// The same, with c, d and e at the ports from this one on.
pub(crate) fn config_from(limit: u64, others: u8, first_port: u16) -> Config {
    let mut config = Config::new(letter(b'b'), local(7000));
    config.history_limit = limit;
    for index in 0..others.min(3) {
        if !config.seeds.is_full() {
            config.seeds.push(Seed {
                name: letter(b'c' + index),
                addr: local(first_port.wrapping_add(u16::from(index))),
            });
        }
    }
    config
}

/// Opens an agent at 0. A configuration that doesn't pass its check gives `NoPlace`.
pub fn open<A: AgentName, R: Wait>(
    rt: &R,
    alloc: Global,
    book: UnnamedBook,
    config: Config,
    places: usize,
) -> Result<Agent<A>, Refusal>
    requires book { book.seen.book ≡ A.book }
    requires places { (places ≡ A.places) × (0 < places) × (places ≤ 32) }
{
    let Ok(()) = config.check() else {
        return Err(Refusal::NoPlace);
    };
    Agent::<A>::open(rt, alloc, book, at(0), config, places)
}
