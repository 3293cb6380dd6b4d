//! A simulated group: its members, each with its detector, and the packets on their way. A packet takes a millisecond.
//! In each millisecond the packets arrive first, in the order in which they were sent. Then each member ticks that has
//! a timer due. The random words come from a generator of the group's own, so a group always goes on the same way.
use super::tables::{Known, Number, Runs, are_runs, name_of, number_at, port_of, wire_of};
use lg_detector::{Detector, Event, NoMemory, Outgoing, Reply};
use lg_detector_testing::{table_of, takes};
use lg_rules::Addr;
use lg_testing::{at, local};
use lg_timing::{Config, Seed};
use std::alloc::Global;
use std::mem;
use std::process::Abort;

/// Something that happens to the group, or that is asked of it.
#[derive(Clone, Copy)]
pub(super) enum Act {
    /// So many milliseconds pass.
    Passes(u64),
    /// A member stops. The packets for it are lost.
    Stops(Number),
    /// A member pauses. The packets for it wait.
    Pauses(Number),
    /// A member goes on after a stop or a pause, and knows what it knew.
    GoesOn(Number),
    /// A member is opened anew, under its name and at its port, and asks its seeds for their tables.
    Restarts(Number),
    /// The members below a number are cut off from the others. The packets between the two sides are lost.
    Cut(Number),
    /// The two sides reach each other again.
    Heals,
    /// Whether a packet went from one side to the other since the healing.
    HaveMet(bool),
    /// A member asks another for its table.
    Pulls(Number, Number),
    /// The members from the first number to the last one have this table, and none of them is ousted.
    Know(Number, Number, Runs),
}

/// How the members of a group are opened.
#[derive(Clone, Copy)]
pub(super) struct Opening {
    /// How many members there are.
    pub(super) members: Number,
    /// The seeds of each member, itself left out.
    pub(super) seeds: &'static [Number],
    /// How many packets of a member carry a claim at most, for each decimal digit of the number of live members.
    pub(super) lambda: u64,
    /// The versions of what the members send, in turn.
    pub(super) wires: &'static [u64],
}

/// What a member does with time and packets.
#[derive(Clone, Copy, PartialEq, Eq)]
enum State {
    /// It ticks and hears.
    Runs,
    /// It doesn't tick, and packets wait for it.
    Pauses,
    /// It doesn't tick, and packets for it are lost.
    Stops,
}

/// A member of the group.
#[derive(Drop)]
struct Host {
    number: Number,
    detector: Detector,
    state: State,
    /// The next deadline of its detector.
    next: u64,
    /// Whether it is ousted.
    ousted: bool,
}

/// A packet on its way.
#[derive(Drop)]
struct Flight {
    from: Addr,
    outgoing: Outgoing,
}

/// The group.
#[derive(Drop)]
struct Group {
    opening: Opening,
    now: u64,
    random: u32,
    hosts: Vec<Host>,
    flights: Vec<Flight>,
    /// The first member of the second side.
    border: Number,
    /// Whether the packets between the sides are lost.
    is_cut: bool,
    /// Whether a packet went from one side to the other.
    have_met: bool,
}

impl Host {
    /// A member that runs, and to which nothing has happened yet.
    fn blank(alloc: Global, number: Number) -> Result<Host, NoMemory> {
        Ok(Host {
            number,
            detector: Detector::blank(alloc)?,
            state: State::Runs,
            next: 0,
            ousted: false,
        })
    }

    /// Whether it knows this, and isn't ousted.
    fn knows(&self, runs: &[(usize, Known)]) -> bool {
        !self.ousted && are_runs(table_of(&self.detector).as_slice(), runs)
    }

    /// Whether it ticks at a moment.
    fn is_due(&self, now: u64) -> bool {
        self.state == State::Runs && self.next <= now
    }
}

impl Opening {
    /// The configuration of a member. The numbers are small, so that a group settles within some seconds.
    fn config_of(&self, number: Number) -> Config {
        let mut config = Config::new(name_of(number), local(port_of(number)));
        config.interval_ms = 20;
        config.timeout_ms = 5;
        config.lambda = self.lambda;
        config.gossip_ms = 10;
        config.wire = wire_of(self.wires, number);
        for seed in self.seeds {
            if *seed != number && !config.seeds.is_full() {
                config.seeds.push(Seed {
                    name: name_of(*seed),
                    addr: local(port_of(*seed)),
                });
            }
        }
        config
    }
}

impl Group {
    /// A group whose members are opened at 0.
    fn open(alloc: Global, opening: Opening) -> Result<Group, NoMemory> {
        let mut group = Group {
            opening,
            now: 0,
            random: 1,
            hosts: Vec::new(alloc),
            flights: Vec::new(alloc),
            border: 0,
            is_cut: false,
            have_met: false,
        };
        for number in 0..opening.members {
            group.hosts.push(Host::blank(alloc, number)?)?;
            group.begin(number)?;
        }
        Ok(group)
    }

    /// The next word of a linear congruential generator, without its low bits, which repeat soon.
    fn word(&mut self) -> u32 {
        self.random = self
            .random
            .wrapping_mul(1_664_525)
            .wrapping_add(1_013_904_223);
        self.random >> 8
    }

    /// A tick of a member.
    fn tick(&mut self) -> Event {
        let mut words = [0; 8];
        for word in words.iter_mut() {
            *word = self.word();
        }
        Event::Tick {
            now: at(self.now),
            words,
        }
    }

    /// Hands an event to a member, and sends its packets.
    fn happen(&mut self, number: Number, event: &Event) -> Result<(), NoMemory> {
        let Some(host) = self.hosts.get_mut(usize::from(number)) else {
            return Ok(());
        };
        let mut reply = Reply::default();
        if takes(&mut host.detector, event, &mut reply) {
            host.next = reply.next;
            host.ousted = reply.ousted;
        }
        for outgoing in reply.sends.as_slice() {
            self.flights.push(Flight {
                from: local(port_of(number)),
                outgoing: outgoing.copy(),
            })?;
        }
        Ok(())
    }

    /// Changes the state of a member.
    fn set(&mut self, number: Number, state: State) {
        if let Some(host) = self.hosts.get_mut(usize::from(number)) {
            host.state = state;
        }
    }

    /// A member asks another for its table.
    fn pull(&mut self, number: Number, other: Number) -> Result<(), NoMemory> {
        let event = Event::Pull {
            now: at(self.now),
            peer: local(port_of(other)),
        };
        self.happen(number, &event)
    }

    /// A member that knows nothing yet runs in place of one.
    fn renew(&mut self, alloc: Global, number: Number) -> Result<(), NoMemory> {
        let renewed = Host::blank(alloc, number)?;
        if let Some(host) = self.hosts.get_mut(usize::from(number)) {
            *host = renewed;
        }
        Ok(())
    }

    /// A member asks its seeds for their tables.
    fn ask_seeds(&mut self, number: Number) -> Result<(), NoMemory> {
        for seed in self.opening.seeds {
            if *seed != number {
                self.pull(number, *seed)?;
            }
        }
        Ok(())
    }

    /// Opens a member, which asks its seeds for their tables.
    fn begin(&mut self, number: Number) -> Result<(), NoMemory> {
        let event = Event::Open {
            now: at(self.now),
            config: self.opening.config_of(number),
        };
        self.happen(number, &event)?;
        self.ask_seeds(number)
    }

    /// Opens a member anew.
    fn restart(&mut self, alloc: Global, number: Number) -> Result<(), NoMemory> {
        self.renew(alloc, number)?;
        self.begin(number)
    }

    /// Whether a packet goes from one side to the other.
    fn crosses(&self, flight: &Flight) -> bool {
        (number_at(&flight.from) < self.border) != (number_at(&flight.outgoing.to) < self.border)
    }

    /// What the destination of a packet does with it.
    fn state_at(&self, flight: &Flight) -> State {
        match self.hosts.get(usize::from(number_at(&flight.outgoing.to))) {
            Some(host) => host.state,
            None => State::Stops,
        }
    }

    /// A packet arrives: it is heard, or waits, or is lost.
    fn arrive(&mut self, flight: Flight) -> Result<(), NoMemory> {
        if self.crosses(&flight) {
            self.have_met = true;
            if self.is_cut {
                return Ok(());
            }
        }
        match self.state_at(&flight) {
            State::Runs => {
                let number = number_at(&flight.outgoing.to);
                let event = Event::Heard {
                    now: at(self.now),
                    source: flight.from,
                    packet: flight.outgoing.packet,
                };
                self.happen(number, &event)
            }
            State::Pauses => {
                self.flights.push(flight)?;
                Ok(())
            }
            State::Stops => Ok(()),
        }
    }

    /// The packets arrive.
    fn deliver(&mut self, alloc: Global) -> Result<(), NoMemory> {
        let flights = mem::replace(&mut self.flights, Vec::new(alloc));
        for flight in flights {
            self.arrive(flight)?;
        }
        Ok(())
    }

    /// The members tick that have a timer due.
    fn tick_each(&mut self) -> Result<(), NoMemory> {
        for number in 0..self.opening.members {
            let is_due = match self.hosts.get(usize::from(number)) {
                Some(host) => host.is_due(self.now),
                None => false,
            };
            if is_due {
                let tick = self.tick();
                self.happen(number, &tick)?;
            }
        }
        Ok(())
    }

    /// Lets so many milliseconds pass.
    fn pass(&mut self, alloc: Global, milliseconds: u64) -> Result<(), NoMemory> {
        for _ in 0..milliseconds {
            self.now = self.now.saturating_add(1);
            self.deliver(alloc)?;
            self.tick_each()?;
        }
        Ok(())
    }

    /// Whether the members from the first number to the last one have this table.
    fn know(&self, first: Number, last: Number, runs: &[(usize, Known)]) -> bool {
        self.hosts
            .iter()
            .filter(|host| first <= host.number && host.number <= last)
            .all(|host| host.knows(runs))
    }

    /// Cuts the members below a number off from the others.
    fn cut(&mut self, border: Number) {
        self.border = border;
        self.is_cut = true;
    }

    /// Ends the cut.
    fn heal(&mut self) {
        self.is_cut = false;
        self.have_met = false;
    }

    /// Lets an act happen that takes no time and sends nothing. Nothing happens in one that asks.
    fn change(&mut self, act: &Act) {
        match act {
            Act::Stops(number) => self.set(*number, State::Stops),
            Act::Pauses(number) => self.set(*number, State::Pauses),
            Act::GoesOn(number) => self.set(*number, State::Runs),
            Act::Cut(border) => self.cut(*border),
            Act::Heals => self.heal(),
            _ => {}
        }
    }

    /// Lets an act happen.
    fn act(&mut self, alloc: Global, act: &Act) -> Result<(), NoMemory> {
        match act {
            Act::Passes(milliseconds) => self.pass(alloc, *milliseconds),
            Act::Restarts(number) => self.restart(alloc, *number),
            Act::Pulls(number, other) => self.pull(*number, *other),
            _ => {
                self.change(act);
                Ok(())
            }
        }
    }

    /// Whether what an act asks is so. One that asks nothing is so.
    fn is_so(&self, act: &Act) -> bool {
        match act {
            Act::HaveMet(have_met) => self.have_met == *have_met,
            Act::Know(first, last, runs) => self.know(*first, *last, runs),
            _ => true,
        }
    }
}

/// Lets acts happen to a group, from its opening on. The case's name and the act's number say which one failed.
pub(super) fn play_group(
    rt: &impl Abort,
    alloc: Global,
    case: &str,
    opening: Opening,
    acts: &[Act],
) {
    let mut group = Group::open(alloc, opening).expect(rt, "there is memory");
    for (number, act) in acts.iter().enumerate() {
        group.act(alloc, act).expect(rt, "there is memory");
        assert!(rt; group.is_so(act), "{case}, act {number}");
    }
}
