//! What one reply counts for the metrics of a node.
//!
//! Defined in: `specs/Meaning/Tally.antt`.
//! Tested in: `lg_answers_tests/src/showing.rt`.
ghost use Rattle.std.specs.Prelude.{◌≡◌, count_by};
ghost use Rattle.std.specs.List.{list_any};
ghost use Rattle.lg_counters.specs.Meaning.Tally.{is_alive_of, is_ping, is_suspected, is_start, is_direct};
ghost use Rattle.lg_counters.specs.Meaning.Tally.{tally_of};

use lg_detector::{Outgoing, Reply, Timer, TimerId};
use lg_packet::Body;
use lg_rules::{Name, Record, Status};

/// What one reply counts.
#[derive(Clone, Copy, Debug, Default, PartialEq, Eq)]
pub struct Tally {
    /// A round began, and its member was pinged (SWIM, section 3.1).
    pub probe_begun: bool,
    /// No Ack came in time, and helpers were asked for an indirect probe (SWIM, section 3.1).
    pub probe_failed: bool,
    /// Another member was pinged for one that asked (SWIM, section 3.1).
    pub probe_helped: bool,
    /// How many records became suspect, or got another accuser or incarnation while suspect: at most 12.
    pub suspicions_raised: usize,
    /// A claim against this member was refuted: it is alive, and its own incarnation rose (SWIM, section 4.2). A member
    /// that leaves refutes nothing.
    pub refuted: bool,
    /// How many members were forgotten, those that became known again too: at most 12.
    pub members_forgotten: usize,
}

/// Whether a packet is a Ping.
fn is_ping(outgoing: &Outgoing) -> bool
    ensures { result ≡ is_ping outgoing.now }
{
    matches!(outgoing.packet.body, Body::Ping { .. })
}

/// Whether a record is that of a suspect.
fn is_suspected(member: &Record) -> bool
    ensures { result ≡ is_suspected member.now }
{
    matches!(member.status, Status::Suspect(_))
}

/// Whether the timer that fired begins a round of probing.
fn is_start(timer: Option<Timer>) -> bool
    ensures { result ≡ is_start timer }
{
    matches!(
        timer,
        Some(Timer {
            id: TimerId::RoundStart,
            ..
        })
    )
}

/// Whether the timer that fired says that no Ack came in time.
fn is_direct(timer: Option<Timer>) -> bool
    ensures { result ≡ is_direct timer }
{
    matches!(
        timer,
        Some(Timer {
            id: TimerId::Direct,
            ..
        })
    )
}

/// Whether one of these packets is a Ping.
fn has_ping(sends: &[Outgoing]) -> bool
    ensures { result ≡ list_any is_ping sends.now }
{
    sends.iter().any(|outgoing| is_ping(outgoing))
}

/// How many of these records are those of suspects.
fn suspects(changed: &[Record]) -> usize
    ensures { result ≡ count_by is_suspected changed.now }
{
    changed.iter().filter(|member| is_suspected(member)).count()
}

/// Whether a record says that the member with this name is alive.
fn is_alive_of(name: &Name, member: &Record) -> bool
    ensures { result ≡ is_alive_of name.now member.now }
{
    member.name == *name && matches!(member.status, Status::Alive)
}

/// Whether one of these records says that the member with this name is alive.
fn has_alive(name: &Name, changed: &[Record]) -> bool
    ensures { result ≡ list_any (is_alive_of name.now) changed.now }
{
    changed.iter().any(|member| is_alive_of(name, member))
}

impl Tally {
    /// What the reply to an event counts, of a member with this name.
    pub fn of(name: &Name, reply: &Reply) -> Tally
        ensures { result ≡ tally_of name.now reply.now }
    {
        let pings = has_ping(reply.sends.as_slice());
        Tally {
            probe_begun: pings && is_start(reply.fired),
            probe_failed: is_direct(reply.fired),
            probe_helped: pings && reply.fired.is_none(),
            suspicions_raised: suspects(reply.changed.as_slice()),
            refuted: has_alive(name, reply.changed.as_slice()),
            members_forgotten: reply.forgotten.len(),
        }
    }
}
