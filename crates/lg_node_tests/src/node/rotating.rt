//! A node whose history is full again and again goes on like one that has room for all entries. The same datagrams
//! and ticks give the same packets, in the same order.
use super::clocks::MemoryClock;
use super::links::put;
use super::loops::{receive, tick};
use super::playing::{Play, Shown, told};
use lg_agent::{AgentName, Pass, Spent};
use lg_agent_testing::{Case, Ending, Left, both_passes, ping_of};
use lg_clock::Clock;
use lg_node::{Ended, Link, LinkFault, LoopEnd, MAX_DATAGRAM, Why};
use lg_rules::Addr;
use lg_testing::local;
use std::alloc::Global;
use std::fs::Files;
use std::rt;
use std::sync::Wait;
use std::sync::atomic::AtomicBool;
use std::sync::atomic::Ordering::SeqCst;
use std::thread::Threads;

/// How many datagrams come, one a millisecond.
const DATAGRAMS: u32 = 20_000;

/// How long the ticking loop goes on after them, in milliseconds.
const TICKING_MS: u64 = 60_000;

/// More turns than a loop makes here.
const BOUND: u64 = 1_000_000;

/// What was handed over to a link.
#[derive(Clone, Copy, Debug, Default, PartialEq, Eq)]
struct Sent {
    packets: u64,
    /// A sum over their ports and bytes, which depends on their order too.
    digest: u64,
}

impl Sent {
    /// Adds a byte.
    fn add(&mut self, byte: u8) {
        self.digest = (self.digest ^ u64::from(byte)).wrapping_mul(0x0100_0000_01b3);
    }

    /// Adds a packet.
    fn add_packet(&mut self, to: Addr, bytes: &[u8]) {
        self.packets = self.packets.saturating_add(1);
        let [high, low] = to.port.to_be_bytes();
        self.add(high);
        self.add(low);
        for byte in bytes {
            self.add(*byte);
        }
    }
}

/// A link over which datagrams come. A millisecond passes with each. After the last one the link tells the loop to
/// stop.
#[derive(Drop)]
struct StreamLink<'a> {
    clock: &'a MemoryClock,
    stop: &'a AtomicBool,
    /// How many datagrams have come.
    come: u32,
    sent: Sent,
}

impl<'a> StreamLink<'a> {
    fn new(clock: &'a MemoryClock, stop: &'a AtomicBool) -> StreamLink<'a> {
        StreamLink {
            clock,
            stop,
            come: 0,
            sent: Sent::default(),
        }
    }
}

impl<'a> Link for StreamLink<'a> {
    ghost use Rattle.std.specs.Prelude.{false, []};

    ghost tells = { false };

    ghost log = { λ l. [] };

    ghost failed = { λ l. 0 };

    fn send(&mut self, to: Addr, bytes: &[u8]) -> Result<(), LinkFault> {
        self.sent.add_packet(to, bytes);
        Ok(())
    }

    fn receive(
        &mut self,
        buffer: &mut [u8; MAX_DATAGRAM],
        _limit_ms: u64,
    ) -> Result<Option<(Addr, usize)>, LinkFault> {
        if self.come >= DATAGRAMS {
            self.stop.store(true, SeqCst);
            return Ok(None);
        }
        let bytes = ping_of(self.come);
        self.come += 1;
        self.clock.pause(1);
        Ok(Some((local(7001), put(buffer, bytes.as_slice()))))
    }

    fn failures(&self) -> u64 {
        0
    }
}

/// What the two loops did.
#[derive(Clone, Copy, Debug, PartialEq, Eq)]
pub struct StreamSeen {
    receiving: LoopEnd,
    ticking: LoopEnd,
    /// What each handed over, and how many calls of each were answered.
    sent: [Sent; 2],
    made: [u64; 2],
}

/// Runs the receiving loop until all datagrams have come.
fn receive_all<'a, A: AgentName, R: Wait>(
    rt: &R,
    alloc: Global,
    pass: Pass<'_, A>,
    clock: &'a MemoryClock,
    stop: &'a AtomicBool,
) -> (LoopEnd, Sent, Spent<A>) {
    let link = StreamLink::new(clock, stop);
    let Ended { link, spent, end } = receive(rt, alloc, pass, link, clock, stop, BOUND);
    (end, link.sent, spent)
}

/// Runs the ticking loop until its time is over.
fn tick_on<'a, A: AgentName, R: Wait>(
    rt: &R,
    alloc: Global,
    pass: Pass<'_, A>,
    clock: &'a MemoryClock,
    stop: &'a AtomicBool,
) -> (LoopEnd, Sent, Spent<A>) {
    let until = u64::from(DATAGRAMS) + TICKING_MS;
    let link = StreamLink::new(clock, stop);
    let Ended { link, spent, end } = tick(rt, alloc, pass, link, clock, until, stop, BOUND);
    (end, link.sent, spent)
}

/// Runs the receiving loop with one pass, and then the ticking one with another.
fn run_passes<A: AgentName, R: Wait>(
    rt: &R,
    alloc: Global,
    first: Pass<'_, A>,
    second: Pass<'_, A>,
) -> (StreamSeen, (Spent<A>, Spent<A>)) {
    let clock = MemoryClock::new(0);
    let stop = AtomicBool::new(false);
    let (receiving, heard, one) = receive_all(rt, alloc, first, &clock, &stop);
    stop.store(false, SeqCst);
    let (ticking, ticked, two) = tick_on(rt, alloc, second, &clock, &stop);
    let seen = StreamSeen {
        receiving,
        ticking,
        sent: [heard, ticked],
        made: [one.made(), two.made()],
    };
    (seen, (one, two))
}

/// Runs the receiving loop until all datagrams have come, and then the ticking one.
pub fn run_stream<A: AgentName, R: Wait>(
    rt: &R,
    alloc: Global,
    passes: Vec<Pass<'_, A>>,
    spents: Vec<Spent<A>>,
) -> Left<A, Shown> {
    let Some((first, second)) = both_passes(passes) else {
        return Left::nothing(spents);
    };
    let (seen, both) = run_passes(rt, alloc, first, second);
    Left::with_both(spents, both, Shown::Stream(seen))
}

/// What a node with this limit on its history did, and how its agent ended.
fn played<R>(rt: &R, alloc: Global, limit: u64) -> Option<(StreamSeen, Ending)>
where
    R: Threads + Wait + Files + rt::Clock + AllocGlobal + Clone + Sync + Drop,
    R::File: Send,
    R::Dir: Send,
{
    let mut case = Case::new(2, Play::Stream);
    case.limit = limit;
    let outcome = told(rt, alloc, case).ok()?;
    match outcome.seen {
        Some(Shown::Stream(seen)) => Some((seen, outcome.ending)),
        _ => None,
    }
}

/// Whether the receiving loop heard each datagram and answered it with an Ack, the ticking loop ended in time, and at
/// most `limit` entries were left.
fn is_whole(seen: &StreamSeen, ending: &Ending, limit: u64) -> bool {
    let datagrams = u64::from(DATAGRAMS);
    let [heard, ticks] = seen.made;
    let count = ticks.checked_add(datagrams + 1);
    let left = count
        .zip(ending.base)
        .map(|(count, base)| count.wrapping_sub(base));
    seen.receiving.why == Why::Stopped
        && seen.receiving.turns == datagrams + 1
        && heard == datagrams
        && seen.sent[0].packets == datagrams
        && seen.ticking.why == Why::Stopped
        && ending.fault.is_none()
        && ending.entries == count
        && ending.replayed == count
        && left.is_some_and(|left| left <= limit)
}

#[test]
fn goes_on_when_its_history_is_full(rt: HostRuntime) {
    let small = played(&rt, rt.alloc(), 64);
    let large = played(&rt, rt.alloc(), 1_000_000);
    let met = match (&small, &large) {
        (Some((seen, ending)), Some((same, whole))) => {
            seen == same
                && is_whole(seen, ending, 64)
                && is_whole(same, whole, 1_000_000)
                && whole.base == Some(0)
        }
        _ => false,
    };
    assert!(rt; met, "{small:?} {large:?}");
}
