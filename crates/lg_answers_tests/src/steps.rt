//! Steps that are done with the site of a node and with an agent of b in memory, through a second pass.
ghost use Rattle.std.specs.Prelude.{◌≡◌};

use Step::{
    Alive, Asked, Counted, Fails, Garbage, Gets, Goes, Refutes, Shows, Stood, Suspect, Tells, Tick,
    Unsent, Waits as ToWait,
};
use arrayvec::ArrayVec;
use lg_agent::{Agent, AgentName, Pass, Receipt, Refusal};
use lg_answers::{Counts, ShownConfig};
use lg_clock::Clock;
use lg_counters::{Counters, Noted};
use lg_http::{HttpAnswer, HttpStatus, Kind, Site, Wait as Waits};
use lg_packet::{Body, Packet, encode};
use lg_rules::Claim;
use lg_status_server::{NodeSite, SiteBasis};
use lg_testing::{alive, at, failed, letter, local, packet, ping, suspect};
use lg_timing::{Config, Moment};
use lg_view::UnnamedBook;
use std::alloc::Global;
use std::fs::Files;
use std::marker::Brand;
use std::str;
use std::sync::Wait;
use std::sync::atomic::Ordering::SeqCst;
use std::sync::atomic::{AtomicBool, AtomicU64};

/// What is done with a site and an agent, in order.
#[derive(Clone, Copy, Debug)]
pub enum Step<'a> {
    /// b hears in a Ping of a, at this moment, that the member named by a letter is alive.
    Alive(u64, u8),
    /// The same that it is suspected by a.
    Suspect(u64, u8),
    /// The same that it has failed.
    Fails(u64, u8),
    /// The same that it is alive at incarnation 1, so it refuted a suspicion.
    Refutes(u64, u8),
    /// The same as `Alive`, and the packet by which b answers isn't sent.
    Unsent(u64, u8),
    /// b hears, at this moment, a packet that asks it to probe c.
    Asked(u64),
    /// b ticks at this moment.
    Tick(u64),
    /// A datagram with bytes that are no packet comes.
    Garbage(u64),
    /// The clock has left out so many milliseconds so far.
    Stood(u64),
    /// The site looks at this moment, and the newest change that it shows has this version.
    Shows(u64, u64),
    /// A request for this path and query is answered so.
    Gets(&'a str, Option<&'a str>, HttpStatus, &'a str),
    /// The body that answers a request for this path has this text in it.
    Tells(&'a str, &'a str),
    /// A request for this path and query waits for a change behind this version, for so many milliseconds.
    Waits(&'a str, Option<&'a str>, u64, u64),
    /// A request for this path doesn't wait.
    Goes(&'a str),
    /// So much was counted: datagrams sent, probes begun, failed and helped, suspicions raised and refuted, entries.
    Counted([u64; 7]),
}

/// A clock that somebody sets.
#[derive(Drop)]
struct SetClock {
    now: AtomicU64,
    stood_still: AtomicU64,
}

impl Clock for SetClock {
    fn now(&self) -> Moment {
        at(self.now.load(SeqCst))
    }

    fn pause(&self, _ms: u64) {}

    fn stood_still(&self) -> u64 {
        self.stood_still.load(SeqCst)
    }
}

/// What the steps are done with, besides the site.
#[derive(Drop)]
struct Doing<'a, R> {
    rt: &'a R,
    alloc: Global,
    clock: &'a SetClock,
    counters: &'a Counters,
}

/// A packet of a for b: a Ping with a claim, or the wish that b probes c.
fn packet_of(claims: &[Claim], body: Body) -> Packet {
    packet(b'a', body, claims)
}

impl<'a, R: Wait> Doing<'a, R> {
    /// Counts an answered call, as a node does. So many of its packets weren't sent.
    fn count(&self, now: u64, receipt: &Receipt, unsent: u64) {
        let noted = Noted::of(&self.counters.name(), &receipt.reply, unsent);
        self.counters.note(at(now), &noted);
    }

    /// b hears some bytes from a. Whether they were taken is counted, as a node does.
    fn hear<A: AgentName>(
        &self,
        pass: &mut Pass<'_, A>,
        now: u64,
        bytes: &[u8],
        unsent: u64,
    ) -> bool {
        self.counters.note_received();
        match pass.datagram(self.rt, self.alloc, at(now), local(7001), bytes) {
            Ok(receipt) => {
                self.count(now, &receipt, unsent);
                true
            }
            Err(Refusal::BadPacket(fault)) => {
                self.counters.note_dropped(fault);
                true
            }
            Err(_) => false,
        }
    }

    /// b hears a packet from a.
    fn hear_packet<A: AgentName>(
        &self,
        pass: &mut Pass<'_, A>,
        now: u64,
        packet: &Packet,
        unsent: u64,
    ) -> bool {
        let mut bytes = ArrayVec::new();
        encode(packet, &mut bytes);
        self.hear(pass, now, bytes.as_slice(), unsent)
    }

    /// b hears in a Ping of a what is claimed of a member.
    fn hear_claim<A: AgentName>(
        &self,
        pass: &mut Pass<'_, A>,
        now: u64,
        claim: Claim,
        unsent: u64,
    ) -> bool {
        self.hear_packet(pass, now, &packet_of(&[claim], ping(1, b'b')), unsent)
    }

    /// b ticks.
    fn tick<A: AgentName>(&self, pass: &mut Pass<'_, A>, now: u64) -> bool {
        match pass.tick(self.rt, self.alloc, at(now), [0; 8]) {
            Ok(receipt) => {
                self.count(now, &receipt, 0);
                true
            }
            Err(_) => false,
        }
    }

    /// Does a step with the agent. Returns whether it went well, or none if the step is for the site.
    fn happens<A: AgentName>(&self, step: Step<'_>, pass: &mut Pass<'_, A>) -> Option<bool> {
        let asks = Body::PingReq {
            number: 9,
            target: letter(b'c'),
            addr: local(7000),
        };
        match step {
            Alive(now, member) => Some(self.hear_claim(pass, now, alive(member, 0), 0)),
            Unsent(now, member) => Some(self.hear_claim(pass, now, alive(member, 0), 1)),
            Suspect(now, member) => {
                Some(self.hear_claim(pass, now, suspect(member, 0, b'a'), 0))
            }
            Fails(now, member) => Some(self.hear_claim(pass, now, failed(member, 0), 0)),
            Refutes(now, member) => Some(self.hear_claim(pass, now, alive(member, 1), 0)),
            Asked(now) => Some(self.hear_packet(pass, now, &packet_of(&[], asks), 0)),
            Garbage(now) => Some(self.hear(pass, now, b"garbage", 0)),
            Tick(now) => Some(self.tick(pass, now)),
            _ => None,
        }
    }

    /// Whether the site answers so.
    fn is_answered<S: Site>(
        &self,
        site: &S,
        path: &str,
        query: Option<&str>,
        status: HttpStatus,
        body: &str,
    ) -> bool {
        match site.answer(self.alloc, path.as_bytes(), query.map(str::as_bytes)) {
            Ok(answer) => is_of(&answer, status, body),
            Err(_) => false,
        }
    }

    /// Whether the body that answers has this text in it.
    fn tells<S: Site>(&self, site: &S, path: &str, text: &str) -> bool {
        match site.answer(self.alloc, path.as_bytes(), None) {
            Ok(answer) => {
                str::from_utf8(answer.body.as_slice()).is_ok_and(|body| body.contains(text))
            }
            Err(_) => false,
        }
    }

    /// Whether the site does what a step says.
    fn shows<S: Site>(&self, step: Step<'_>, site: &mut S) -> bool {
        match step {
            Stood(ms) => {
                self.clock.stood_still.store(ms, SeqCst);
                true
            }
            Shows(now, version) => {
                self.clock.now.store(now, SeqCst);
                site.refresh() == version
            }
            Gets(path, query, status, body) => self.is_answered(site, path, query, status, body),
            Tells(path, text) => self.tells(site, path, text),
            ToWait(path, query, after, wait_ms) => {
                site.wait_of(path.as_bytes(), query.map(str::as_bytes))
                    == Some(Waits { after, wait_ms })
            }
            Goes(path) => site.wait_of(path.as_bytes(), None) == None,
            Counted(counted) => sums(&self.counters.counts()) == counted,
            _ => false,
        }
    }

    /// Whether a step goes as it should with the agent or the site.
    fn goes<A: AgentName, S: Site>(
        &self,
        step: Step<'_>,
        pass: &mut Pass<'_, A>,
        site: &mut S,
    ) -> bool {
        match self.happens(step, pass) {
            Some(went) => went,
            None => self.shows(step, site),
        }
    }
}

/// Whether an answer has this status and this body, in JSON.
fn is_of(answer: &HttpAnswer, status: HttpStatus, body: &str) -> bool {
    answer.status == status
        && answer.kind == Kind::Json
        && answer.body.as_slice() == body.as_bytes()
}

/// The counts that the steps name.
fn sums(counts: &Counts) -> [u64; 7] {
    [
        counts.sent,
        counts.probes_begun,
        counts.probes_failed,
        counts.probes_helped,
        counts.suspicions_raised,
        counts.suspicions_refuted,
        counts.history_entries,
    ]
}

/// Does the steps with a pass and a site. Returns the index of the first that went otherwise.
fn first_unmet<A: AgentName, S: Site, R: Wait>(
    doing: &Doing<'_, R>,
    pass: &mut Pass<'_, A>,
    site: &mut S,
    steps: &[Step<'_>],
) -> Option<usize> {
    for (index, step) in steps.iter().enumerate() {
        if !doing.goes(*step, pass, site) {
            return Some(index);
        }
    }
    None
}

/// Does the steps with two passes of an agent: one that hears, and one that the site looks with. There is no outcome if
/// memory was refused.
fn play_with<A: AgentName, R: Wait + Files + AllocGlobal + Clone + Drop>(
    rt: &R,
    alloc: Global,
    passes: Vec<Pass<'_, A>>,
    config: &Config,
    folder: Option<&str>,
    steps: &[Step<'_>],
) -> Option<Option<usize>> {
    let mut passes = passes;
    let mut hearer = passes.pop()?;
    let clock = SetClock {
        now: AtomicU64::new(0),
        stood_still: AtomicU64::new(0),
    };
    let counters = Counters::new(letter(b'b'), at(0));
    let stop = AtomicBool::new(false);
    let basis = SiteBasis {
        rt,
        alloc,
        clock: &clock,
        counters: &counters,
        config: ShownConfig {
            config: config.copy(),
            numbers: Vec::new(alloc),
            status: Some(local(8946)),
            status_open: true,
            leave: true,
            bind: local(7000),
            seeds: ArrayVec::new(),
        },
        stop: &stop,
        leave: true,
        folder,
    };
    let mut site = NodeSite::new(passes.pop()?, basis).ok()?;
    let doing = Doing {
        rt,
        alloc,
        clock: &clock,
        counters: &counters,
    };
    Some(first_unmet(&doing, &mut hearer, &mut site, steps))
}

/// Opens an agent of two places, which forgets a member a second after it is gone, and does the steps with it.
fn play_in<A: AgentName, R: Wait + Files + AllocGlobal + Clone + Drop>(
    rt: &R,
    alloc: Global,
    book: UnnamedBook,
    places: usize,
    folder: Option<&str>,
    steps: &[Step<'_>],
) -> Option<Option<usize>>
    requires book { book.seen.book ≡ A.book }
    requires places { (places ≡ A.places) × (places ≡ 2) }
{
    let mut config = Config::new(letter(b'b'), local(7000));
    config.forget_ms = 1000;
    config.check().ok()?;
    let mut agent = Agent::<A>::open(rt, alloc, book, at(0), config.copy(), places).ok()?;
    let outcome = match agent.passes(alloc) {
        Ok(passes) => play_with(rt, alloc, passes, &config, folder, steps),
        Err(_) => None,
    };
    agent.abandon(rt);
    outcome
}

/// Does the steps with an agent of its own, whose recording is in this folder if it has one.
pub fn play<R: Wait + Files + AllocGlobal + Clone + Drop>(
    rt: &R,
    alloc: Global,
    folder: Option<&str>,
    steps: &[Step<'_>],
) -> Option<Option<usize>> {
    play_in::<Brand, R>(rt, alloc, UnnamedBook::new(), 2, folder, steps)
}
