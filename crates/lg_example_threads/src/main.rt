//! Two threads share an agent: one hands it a datagram and a tick, the other looks until it knows a member.
#![tactic(auto)]

ghost use Rattle.std.specs.Prelude.{◌≡◌};

use lg_agent::{Agent, AgentName, Pass, Spent, Unclosed};
use lg_rules::{Addr, Name};
use lg_timing::{Config, Moment};
use lg_view::UnnamedBook;
use std::alloc::Global;
use std::io;
use std::marker::Brand;
use std::sync::Wait;
use std::thread::{Threads, join};

/// A Ping of a for b, numbered 7, with the claim that c is alive at 127.0.0.1:7003 at incarnation 0.
const PING: [u8; 26] = [
    0x53, 0x4c, 1, 1, 1, b'a', 0, 0, 0, 7, 1, b'b', 1, 1, 1, b'c', 127, 0, 0, 1, 0x1b, 0x5b, 0, 0,
    0, 0,
];

/// The thread that makes the calls. In a service it has the socket and the clock.
fn serve<A: AgentName, R: Wait>(rt: &R, alloc: Global, pass: Pass<'_, A>) -> Spent<A> {
    let mut pass = pass;
    let source = Addr::v4([127, 0, 0, 1], 9000);
    let heard = pass.datagram(rt, alloc, Moment::default(), source, &PING);
    // The packets of the reply are to be sent: here the Ack of the Ping.
    let _answered = heard.is_ok_and(|receipt| receipt.reply.sends.len() == 1);
    let _ticked = pass.tick(rt, alloc, Moment::default(), [0; 8]).is_ok();
    pass.finish()
}

/// The thread that looks until c is known. It takes no lock. A service looks when it needs to know, and not in a loop.
fn watch<A: AgentName>(pass: Pass<'_, A>) -> (Spent<A>, bool) {
    let mut pass = pass;
    let name = Name::new(b"c").unwrap_or_default();
    let mut known = false;
    for _ in 0..1_000_000_000 {
        if let Ok(Some(_record)) = pass.status_of(&name) {
            known = true;
            break;
        }
    }
    (pass.finish(), known)
}

/// Opens an agent for two threads, and closes it. Returns whether c became known, and how many entries there are. If c
/// didn't become known, or memory is refused, closing is refused, and it returns none.
fn share<A: AgentName + Send + Sync, R: Threads + Wait + Sync>(
    rt: &R,
    alloc: Global,
    book: UnnamedBook,
    places: usize,
) -> Option<(bool, u64)>
    requires book { book.seen.book ≡ A.book }
    requires places { (places ≡ A.places) × (places ≡ 2) }
{
    let name = Name::new(b"b").unwrap_or_default();
    let config = Config::new(name, Addr::v4([127, 0, 0, 1], 7000));
    let mut agent = Agent::<A>::open(rt, alloc, book, Moment::default(), config, places).ok()?;
    let mut spents = Vec::new(alloc);
    let mut known = false;
    if let Ok(mut passes) = agent.passes(alloc) {
        if let (Some(second), Some(first)) = (passes.pop(), passes.pop()) {
            let (served, watched) = join(rt, || serve(rt, alloc, first), || watch(second));
            known = watched.1 && spents.push(served).is_ok() && spents.push(watched.0).is_ok();
        }
    }
    match agent.close(rt, spents) {
        Ok(closed) => Some((known, closed.count())),
        Err(refused) => {
            let Unclosed {
                fault: _,
                agent,
                spents: _,
            } = refused;
            agent.abandon(rt);
            None
        }
    }
}

/// Shares an agent of two places.
fn run<R: Threads + Wait + Sync>(rt: &R, alloc: Global) -> Option<(bool, u64)> {
    share::<Brand, R>(rt, alloc, UnnamedBook::new(), 2)
}

fn main(rt: HostRuntime) -> io::Result<()> {
    let shared = run(&rt, rt.alloc());
    println!(rt; "{shared:?}")
}
