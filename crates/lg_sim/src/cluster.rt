//! A cluster: its members with their detectors, and the packets that they sent.
//!
//! Defined in: `specs/Meaning/Members.antt`, `specs/Meaning/Past.antt`, `specs/Meaning/Outcome.antt`.
//! Tested in: `cases/sim_members.case`, `cases/sim_packets.case`, `cases/sim_faults.case`.
ghost use Rattle.std.specs.Prelude.{◌≡◌, ◌≢◌, ◌<◌, ◌∷◌};
ghost use Rattle.std.specs.Prelude.{◌++◌, [], List, IfErr, None, OnOk, Some, false};
ghost use Rattle.std.specs.Prelude.{slice_get, vec_len};
ghost use Rattle.std.specs.List.{position};
ghost use Rattle.lg_detector.specs.Meaning.Step.{is_open_event, view_after};
ghost use Rattle.lg_lines.specs.Meaning.Records.{table_text};
ghost use Rattle.lg_sim.specs.Meaning.Members.{Happening, events_of, is_at, is_named, member_named};
ghost use Rattle.lg_sim.specs.Meaning.Members.{packet_number, sent};
ghost use Rattle.lg_sim.specs.Meaning.Outcome.{naming_fault, opening_fault, packet_fault};
ghost use Rattle.lg_sim.specs.Meaning.Past.{at_named, delivered, arrival, in_group, new_member};
ghost use Rattle.lg_sim.specs.Meaning.Past.{opening_config, unset};
ghost use Rattle.lg_timing.specs.Meaning.Keys.{with_number};
ghost use Rattle.lg_sim.specs.Support.After.{IsCluster, IsClusterReached, LedOn, StopsAt, delivery_of, fault_in};
ghost use Rattle.lg_detector.specs.declared.event.Event.TheVariants as Happened;
ghost use Rattle.lg_timing.specs.Meaning.Config.{IsChecked};
ghost use Rattle.lg_sim.specs.declared.host.Member.{Member as OfMember};
ghost use Rattle.lg_sim.specs.declared.cluster.Stop.TheVariants.{NoMemory};

use crate::host::{Host, Member, RunBuffers, SentPacket, lead};
use arrayvec::ArrayVec;
use lg_detector::{Detector, Event, NoMemory};
use lg_lines::{PacketRow, put_table};
use lg_rules::{Addr, Name};
use lg_script::{ScriptFault, local};
use lg_timing::{Config, Key, MAX_SEEDS, Moment, Seed};
use std::alloc::{AllocError, Global};

/// The most members of a cluster: 16 (this project's choice).
pub const MAX_CLUSTER: usize = 16;

/// Why a command isn't carried out.
#[derive(Clone, Copy, Debug, PartialEq, Eq)]
pub enum Stop {
    /// Memory was refused.
    NoMemory,
    /// The command is faulty.
    Faulty(ScriptFault),
}

impl From<AllocError> for Stop {
    ghost from_gives = { λ _ stop. stop ≡ NoMemory };

    fn from(_refused: AllocError) -> Stop {
        Stop::NoMemory
    }
}

/// A member that is to be opened, and when.
#[derive(Debug, Drop)]
pub struct NewMember {
    /// Its name.
    pub name: Name,
    /// Its port at 127.0.0.1, 1 to 65535.
    pub port: u16,
    /// The moment at which it is opened, in milliseconds.
    pub now: Moment,
    /// The members that it knows from the start: at most [`MAX_SEEDS`]. Whether their names differ is judged when it is
    /// opened.
    pub seeds: ArrayVec<Seed, MAX_SEEDS>,
}

/// A cluster of members, each with its detector.
#[derive(Drop)]
pub struct Cluster {
    /// The numbers and the group of the members that are opened next. The name, address and seeds in it are
    /// placeholders.
    settings: Config,
    /// The members, in the order in which they were opened: at most [`MAX_CLUSTER`].
    hosts: Vec<Host>,
    /// The packets that they sent, in the order in which they were sent.
    sent: Vec<SentPacket>,
}

impl Cluster {
    /// A cluster without members, with the default settings. No memory is allocated.
    pub fn new(alloc: Global) -> Cluster
        ensures settings { result.settings ≡ unset }
        ensures hosts { result.hosts.items ≡ [] }
        ensures sent { result.sent.items ≡ [] }
    {
        Cluster {
            settings: Config::new(Name::default(), Addr::default()),
            hosts: Vec::new(alloc),
            sent: Vec::new(alloc),
        }
    }

    /// Changes a number for the members that are opened later.
    pub fn set(&mut self, key: Key, number: u64)
        ensures { self.new ≡ record self.old { settings = with_number key number self.old.settings } }
    {
        self.settings.set(key, number);
    }

    /// Sets the group of the members that are opened later.
    pub fn set_group(&mut self, group: Name)
        ensures { self.new ≡ record self.old { settings = in_group group self.old.settings } }
    {
        self.settings.group = Some(group);
    }

    /// The place of the member with a name, if there is one.
    fn place_of(&self, name: &Name) -> Option<usize>
        ensures { result ≡ position (λ host. is_named name.now host.member) self.now.hosts.items }
    {
        self.hosts
            .iter()
            .position(|host| host.member.is_named(name))
    }

    /// The place of the member at an address, if there is one.
    fn place_at(&self, addr: &Addr) -> Option<usize>
        ensures { result ≡ position (λ host. is_at addr.now host.member) self.now.hosts.items }
    {
        self.hosts.iter().position(|host| host.member.is_at(addr))
    }

    /// Lets an event that isn't an opening happen at the member in a place, and appends its reply to a text.
    fn happen(
        &mut self,
        at: usize,
        event: &Event,
        buffers: &mut RunBuffers,
        text: &mut Vec<u8>,
    ) -> Result<(), NoMemory>
        requires place { at < vec_len self.old.hosts }
        requires reached { IsClusterReached self.old }
        requires later { is_open_event event.now ≡ false }
        ensures { OnOk result ((members : List OfMember) (past : List Happening) (m : OfMember)
            → IsCluster self.old.hosts.items self.old.sent.items members past → slice_get members at ≡ Some m
            → LedOn self.old self.new text.old.items text.new.items members past
            (Some (record { member = m; event = event.now }))) }
    {
        lead(&mut self.hosts[at], event, &mut self.sent, buffers, text)?;
        Ok(())
    }

    /// Lets an event that isn't an opening happen at the member with a name.
    pub fn happen_at(
        &mut self,
        name: &Name,
        event: &Event,
        buffers: &mut RunBuffers,
        text: &mut Vec<u8>,
    ) -> Result<(), Stop>
        requires reached { IsClusterReached self.old }
        requires later { is_open_event event.now ≡ false }
        ensures stops { (members : List OfMember) (past : List Happening)
            → IsCluster self.old.hosts.items self.old.sent.items members past
            → StopsAt result (naming_fault name.now members) }
        ensures unchanged { IfErr result (λ stop. stop ≢ Stop.NoMemory
            → (self.new ≡ self.old) × (text.new.items ≡ text.old.items)) }
        ensures leads { OnOk result ((members : List OfMember) (past : List Happening)
            → IsCluster self.old.hosts.items self.old.sent.items members past
            → LedOn self.old self.new text.old.items text.new.items members past
            (at_named name.now event.now members)) }
    {
        let Some(at) = self.place_of(name) else {
            return Err(Stop::Faulty(ScriptFault::Member));
        };
        self.happen(at, event, buffers, text)?;
        Ok(())
    }

    /// The configuration of a member that is to be opened: its name, port and seeds, with the settings.
    fn config_of(&self, opening: NewMember) -> Config
        ensures { result ≡ opening_config opening.name opening.port opening.seeds self.now.settings }
    {
        Config {
            seeds: opening.seeds,
            name: opening.name,
            addr: local(opening.port),
            ..self.settings
        }
    }

    /// Why a member can't be opened with a configuration, if it can't.
    fn opening_fault(&self, config: &Config) -> Option<ScriptFault>
        ensures { result ≡ fault_in config.now self.now.hosts.items }
    {
        if config.check().is_err() {
            return Some(ScriptFault::Value);
        }
        if self.place_of(&config.name).is_some() || self.place_at(&config.addr).is_some() {
            return Some(ScriptFault::Double);
        }
        if self.hosts.len() >= MAX_CLUSTER {
            return Some(ScriptFault::Full);
        }
        None
    }

    /// Opens a member with a configuration that passes its check.
    fn begin(
        &mut self,
        alloc: Global,
        now: Moment,
        config: Config,
        buffers: &mut RunBuffers,
        text: &mut Vec<u8>,
    ) -> Result<(), NoMemory>
        requires { IsChecked config }
        ensures { OnOk result ((members : List OfMember) (past : List Happening)
            → IsCluster self.old.hosts.items self.old.sent.items members past
            → member_named config.name members ≡ None
            → let m : OfMember = record { name = config.name; addr = config.addr } in
            LedOn self.old self.new text.old.items text.new.items (members ++ m ∷ []) past
            (Some (record { member = m; event = Happened.Open now config }))) }
    {
        let member = Member {
            name: config.name,
            addr: config.addr,
        };
        let detector = Detector::blank(alloc)?;
        let mut host = Host { member, detector };
        let event = Event::Open { now, config };
        lead(&mut host, &event, &mut self.sent, buffers, text)?;
        self.hosts.push(host)?;
        Ok(())
    }

    /// Opens a member, at its port of 127.0.0.1 and with the settings.
    pub fn open(
        &mut self,
        alloc: Global,
        opening: NewMember,
        buffers: &mut RunBuffers,
        text: &mut Vec<u8>,
    ) -> Result<(), Stop>
        ensures stops { (members : List OfMember) (past : List Happening)
            → IsCluster self.old.hosts.items self.old.sent.items members past
            → StopsAt result (opening_fault
            (opening_config opening.name opening.port opening.seeds self.old.settings) members) }
        ensures unchanged { IfErr result (λ stop. stop ≢ Stop.NoMemory
            → (self.new ≡ self.old) × (text.new.items ≡ text.old.items)) }
        ensures leads { OnOk result ((members : List OfMember) (past : List Happening)
            → IsCluster self.old.hosts.items self.old.sent.items members past
            → LedOn self.old self.new text.old.items text.new.items
            (members ++ new_member opening.name opening.port ∷ []) past
            (Some (record {
              member = new_member opening.name opening.port;
              event = Happened.Open opening.now
                  (opening_config opening.name opening.port opening.seeds self.old.settings);
            }))) }
    {
        let now = opening.now;
        let config = self.config_of(opening);
        if let Some(fault) = self.opening_fault(&config) {
            return Err(Stop::Faulty(fault));
        }
        self.begin(alloc, now, config, buffers, text)?;
        Ok(())
    }

    /// Where the packet with a number goes, and what happens there when it is delivered. `row` is a scratch buffer.
    fn delivery(&self, packet: u64, now: Moment, row: &mut PacketRow) -> Option<(Addr, Event)>
        ensures { result ≡ delivery_of now (packet_number packet self.now.sent.items) }
    {
        if packet == 0 {
            return None;
        }
        let sent = self.sent.get(packet as usize - 1)?;
        let event = sent.arrival(now, row);
        Some((sent.outgoing.to, event))
    }

    /// Delivers the packet with a number to the member at its destination, if a member is there.
    pub fn deliver(
        &mut self,
        packet: u64,
        now: Moment,
        buffers: &mut RunBuffers,
        text: &mut Vec<u8>,
    ) -> Result<(), Stop>
        requires reached { IsClusterReached self.old }
        ensures stops { (members : List OfMember) (past : List Happening)
            → IsCluster self.old.hosts.items self.old.sent.items members past
            → StopsAt result (packet_fault packet past) }
        ensures unchanged { IfErr result (λ stop. stop ≢ Stop.NoMemory
            → (self.new ≡ self.old) × (text.new.items ≡ text.old.items)) }
        ensures leads { OnOk result ((members : List OfMember) (past : List Happening)
            → IsCluster self.old.hosts.items self.old.sent.items members past
            → LedOn self.old self.new text.old.items text.new.items members past
            (delivered now (packet_number packet (sent past)) members)) }
    {
        let Some((to, event)) = self.delivery(packet, now, &mut buffers.row) else {
            return Err(Stop::Faulty(ScriptFault::Packet));
        };
        let Some(at) = self.place_at(&to) else {
            text.extend_from_slice(b"nobody\n")?;
            return Ok(());
        };
        self.happen(at, &event, buffers, text)?;
        Ok(())
    }

    /// Appends to a text the member table of the member with a name.
    pub fn put_table_of(&self, alloc: Global, name: &Name, text: &mut Vec<u8>) -> Result<(), Stop>
        ensures stops { (members : List OfMember) (past : List Happening)
            → IsCluster self.now.hosts.items self.now.sent.items members past
            → StopsAt result (naming_fault name.now members) }
        ensures unchanged { IfErr result (λ stop. stop ≢ Stop.NoMemory → text.new.items ≡ text.old.items) }
        ensures text { OnOk result ((members : List OfMember) (past : List Happening)
            → IsCluster self.now.hosts.items self.now.sent.items members past
            → text.new.items ≡ text.old.items ++ table_text (view_after (events_of name.now past))) }
    {
        let Some(at) = self.place_of(name) else {
            return Err(Stop::Faulty(ScriptFault::Member));
        };
        let records = self.hosts[at].detector.table(alloc)?;
        put_table(records.as_slice(), text)?;
        Ok(())
    }
}
