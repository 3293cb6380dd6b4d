//! What is known of a member behind some entries, by the entries alone.
//!
//! Defined in: `specs/Meaning/Watching.antt`.
//! Tested in: `lg_explain_tests/src/explaining.rt`.
ghost use Rattle.std.specs.Prelude.{◌≡◌};
ghost use Rattle.lg_notes.specs.Meaning.Watching.{first_ping, is_calm, ping_in, ping_of_start, probe_behind};
ghost use Rattle.lg_notes.specs.Meaning.Watching.{probe_past, probe_since, suspected_behind, watch_behind};

use crate::about::{is_named, record_changed};
use crate::subject::NoteSubject;
use crate::timers::{ends_round, starts_round};
use lg_detector::{Event, Outgoing, Reply};
use lg_packet::Body;
use lg_rules::{Addr, Name, Status};
use lg_timing::Moment;

/// A probe of a member that runs.
#[derive(Clone, Copy, Debug, PartialEq, Eq)]
pub struct RunningProbe {
    /// Its number.
    pub number: u32,
    /// The greatest moment that had been handed in when it began, in milliseconds.
    pub since: u64,
}

/// What is known of a member behind some entries, by the entries alone.
#[derive(Clone, Copy, Debug, PartialEq, Eq)]
pub struct Watch {
    /// Whether its last record is that of a suspect.
    pub is_suspected: bool,
    /// The probe of it that runs, if one does.
    pub probe: Option<RunningProbe>,
}

/// A Ping with which a start of a round began a probe.
#[derive(Clone, Copy, Debug)]
pub(crate) struct FirstPing {
    /// The number of the probe.
    pub number: u32,
    /// Where the Ping went.
    pub addr: Addr,
}

/// The Ping of a packet to an address, if it is one of the member.
fn ping_in(name: &Name, to: &Addr, body: &Body) -> Option<FirstPing>
    ensures { result ≡ ping_in name.now to.now body.now }
{
    let Body::Ping { number, target } = body else {
        return None;
    };
    if *name == *target {
        Some(FirstPing {
            number: *number,
            addr: *to,
        })
    } else {
        None
    }
}

/// The Ping of the first of some packets, if it is one of the member.
fn first_ping(name: &Name, sends: &[Outgoing]) -> Option<FirstPing>
    ensures { result ≡ first_ping name.now sends.now }
{
    let sent = sends.first()?;
    ping_in(name, &sent.to, &sent.packet.body)
}

/// The Ping with which an entry began a probe of the member, if it did.
#[tactic(auto, unfolding(crate::specs::Meaning::Watching::ping_of_start))]
pub(crate) fn ping_of_start(name: &Name, reply: &Reply) -> Option<FirstPing>
    ensures { result ≡ ping_of_start name.now reply.now }
{
    if starts_round(reply) {
        first_ping(name, reply.sends.as_slice())
    } else {
        None
    }
}

/// The probe that a Ping begins at a moment.
fn probe_since(greatest: u64, ping: Option<FirstPing>) -> Option<RunningProbe>
    ensures { result ≡ probe_since greatest ping }
{
    let ping = ping?;
    Some(RunningProbe {
        number: ping.number,
        since: greatest,
    })
}

/// The probe behind an event with which no round starts or ends: an opening and a Leave end it.
fn probe_past(event: &Event, probe: Option<RunningProbe>) -> Option<RunningProbe>
    ensures { result ≡ probe_past event.now probe }
{
    match event {
        Event::Open { .. } | Event::Leave { .. } => None,
        Event::Tick { .. }
        | Event::Heard { .. }
        | Event::Ask { .. }
        | Event::Health { .. }
        | Event::Pull { .. } => probe,
    }
}

/// The probe of the member that runs behind one more entry.
#[tactic(auto, unfolding(crate::specs::Meaning::Watching::probe_behind))]
fn probe_behind(
    name: &Name,
    greatest: u64,
    probe: Option<RunningProbe>,
    event: &Event,
    reply: &Reply,
) -> Option<RunningProbe>
    ensures { result ≡ probe_behind name.now greatest probe event.now reply.now }
{
    if starts_round(reply) {
        probe_since(greatest, ping_of_start(name, reply))
    } else if ends_round(reply) {
        None
    } else {
        probe_past(event, probe)
    }
}

/// Whether the member is suspected behind one more entry.
#[tactic(auto, unfolding(crate::specs::Meaning::Watching::suspected_behind))]
fn suspected_behind(name: &Name, before: bool, reply: &Reply) -> bool
    ensures { result ≡ suspected_behind name.now before reply.now }
{
    match record_changed(name, reply) {
        Some(record) => matches!(record.status, Status::Suspect(_)),
        None => !is_named(name, reply.forgotten.as_slice()) && before,
    }
}

impl Watch {
    /// What is known behind one more entry of event and reply. `greatest` is the greatest moment so far, with that of
    /// the entry. Allocates nothing.
    #[tactic(auto, unfolding(crate::specs::Meaning::Watching::watch_behind))]
    pub fn behind(
        &self,
        subject: &NoteSubject,
        greatest: Moment,
        event: &Event,
        reply: &Reply,
    ) -> Watch
        ensures { result ≡ watch_behind subject.now greatest self.now event.now reply.now }
    {
        let name = &subject.name;
        let greatest = greatest.milliseconds();
        Watch {
            is_suspected: suspected_behind(name, self.is_suspected, reply),
            probe: probe_behind(name, greatest, self.probe, event, reply),
        }
    }

    /// Whether the member is neither suspected nor probed. Allocates nothing.
    pub fn is_calm(&self) -> bool
        ensures { result ≡ is_calm self.now }
    {
        !self.is_suspected && self.probe.is_none()
    }
}
