//! A group: its members, and what the commands of a script do to them.

use crate::member::{Member, Output, Stop};
use arrayvec::ArrayVec;
use itoa::Buffer;
use lg_detector::{Event, NoMemory};
use lg_rules::{Addr, Name};
use lg_script::{Command, ScriptFault, local};
use lg_timing::{Config, MAX_SEEDS, Moment, Seed};
use std::alloc::Global;

/// The most members of a group: 64 (this project's choice).
const MAX_GROUP: usize = 64;

/// A group of members.
#[derive(Drop)]
pub struct Group {
    /// The numbers for the members that are opened next. The name, address and seeds in it are placeholders.
    settings: Config,
    /// The members, in the order in which they were first opened.
    members: Vec<Member>,
    /// How many events were replayed, of members that were started again.
    replayed: usize,
    /// Whether each of these gave the reply that it gave before.
    agrees: bool,
}

impl Group {
    /// A group without members, with the default settings.
    pub fn new(alloc: Global) -> Group {
        Group {
            settings: Config::new(Name::default(), Addr::default()),
            members: Vec::new(alloc),
            replayed: 0,
            agrees: true,
        }
    }

    /// Carries out a command, and writes what it gives.
    pub fn run(
        &mut self,
        alloc: Global,
        command: Command,
        output: &mut Output,
    ) -> Result<(), Stop> {
        match command {
            Command::Set { key, number } => {
                self.settings.set(key, number);
                Ok(())
            }
            Command::SetGroup { group } => {
                self.settings.group = Some(group);
                Ok(())
            }
            Command::Open {
                name,
                port,
                now,
                seeds,
            } => self.open(alloc, name, local(port), now, seeds, output),
            Command::Tick { name, now, words } => {
                self.happen_at(&name, &Event::Tick { now, words }, output)
            }
            Command::Deliver { packet, now } => self.deliver(packet, now, output),
            Command::Ask { name, now, other } => {
                self.happen_at(&name, &Event::Ask { now, name: other }, output)
            }
            Command::Health { name, now } => self.happen_at(&name, &Event::Health { now }, output),
            Command::Pull { name, now, port } => {
                let peer = local(port);
                self.happen_at(&name, &Event::Pull { now, peer }, output)
            }
            Command::Leave { name, now, words } => {
                self.happen_at(&name, &Event::Leave { now, words }, output)
            }
            Command::Table { name } => self.put_table(alloc, &name, output),
        }
    }

    /// The place of the member with a name.
    fn place_of(&self, name: &Name) -> Option<usize> {
        self.members.iter().position(|member| member.name == *name)
    }

    /// The place of the member at an address.
    fn place_at(&self, addr: &Addr) -> Option<usize> {
        self.members.iter().position(|member| member.addr == *addr)
    }

    /// Opens a member, or starts again the one of this name.
    fn open(
        &mut self,
        alloc: Global,
        name: Name,
        addr: Addr,
        now: Moment,
        seeds: ArrayVec<Seed, MAX_SEEDS>,
        output: &mut Output,
    ) -> Result<(), Stop> {
        let config = Config {
            seeds,
            name,
            addr,
            ..self.settings
        };
        if config.check().is_err() {
            return Err(Stop::Faulty(ScriptFault::Value));
        }
        let before = self.place_of(&name);
        if self.place_at(&addr).is_some_and(|at| before != Some(at)) {
            return Err(Stop::Faulty(ScriptFault::Double));
        }
        if before.is_none() && self.members.len() >= MAX_GROUP {
            return Err(Stop::Faulty(ScriptFault::Full));
        }
        let mut member = Member::new(alloc, name, addr)?;
        if let Some(at) = before {
            self.replay(alloc, at, output)?;
        }
        member.take(&Event::Open { now, config }, output)?;
        self.put(before, member)?;
        Ok(())
    }

    /// Puts a member in a place, or behind all others.
    fn put(&mut self, at: Option<usize>, member: Member) -> Result<(), NoMemory> {
        match at.and_then(|at| self.members.get_mut(at)) {
            Some(place) => *place = member,
            None => self.members.push(member)?,
        }
        Ok(())
    }

    /// Lets an event happen at the member in a place. Without a place it is a fault.
    fn happen(
        &mut self,
        at: Option<usize>,
        event: &Event,
        output: &mut Output,
    ) -> Result<(), Stop> {
        match at.and_then(|at| self.members.get_mut(at)) {
            Some(member) => member.take(event, output),
            None => Err(Stop::Faulty(ScriptFault::Member)),
        }
    }

    /// Lets an event happen at the member with a name.
    fn happen_at(&mut self, name: &Name, event: &Event, output: &mut Output) -> Result<(), Stop> {
        self.happen(self.place_of(name), event, output)
    }

    /// Delivers the packet with a number to the member at its destination, if a member is there.
    fn deliver(&mut self, packet: u64, now: Moment, output: &mut Output) -> Result<(), Stop> {
        let index = packet.checked_sub(1).map(|index| index as usize);
        let Some(sent) = index.and_then(|index| output.sent.get(index)) else {
            return Err(Stop::Faulty(ScriptFault::Packet));
        };
        let to = self.place_at(&sent.outgoing.to);
        let event = sent.arrival(now, &mut output.row);
        if to.is_some() {
            return self.happen(to, &event, output);
        }
        output.text.extend_from_slice(b"nobody\n")?;
        Ok(())
    }

    /// Writes the table of the member with a name.
    fn put_table(&self, alloc: Global, name: &Name, output: &mut Output) -> Result<(), Stop> {
        match self.members.iter().find(|member| member.name == *name) {
            Some(member) => {
                member.put_table(alloc, &mut output.text)?;
                Ok(())
            }
            None => Err(Stop::Faulty(ScriptFault::Member)),
        }
    }

    /// Replays the events of the member in a place, and counts them.
    fn replay(&mut self, alloc: Global, at: usize, output: &mut Output) -> Result<(), NoMemory> {
        if let Some(member) = self.members.get(at) {
            let count = member.replay(alloc, output)?;
            self.agrees = self.agrees && count == member.heard();
            self.replayed = self.replayed.saturating_add(count);
        }
        Ok(())
    }

    /// Replays the events of all members, and writes how many were replayed, or that a reply was another one.
    pub fn replay_all(&mut self, alloc: Global, output: &mut Output) -> Result<(), NoMemory> {
        for at in 0..self.members.len() {
            self.replay(alloc, at, output)?;
        }
        let mut digits = Buffer::new();
        let word: &[u8] = if self.agrees {
            b"replayed "
        } else {
            b"differs "
        };
        let count = digits.format(self.replayed as u64).as_bytes();
        output.text.extend_from_slice(word)?;
        output.text.extend_from_slice(count)?;
        output.text.push(b'\n')?;
        Ok(())
    }
}
