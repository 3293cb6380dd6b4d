//! The calls of a loop. A call that is refused because the history is full is made again, once, after a rotation.
//! An answered call writes its reply over the one that the loop keeps, and returns the position of its entry. That of a
//! datagram says too whether its packet is a Page, and which group it names.
//!
//! Defined in: `lg_agent/specs/Meaning/Calls.antt`, `specs/Meaning/Turns.antt`.
//! Tested in: `lg_node_tests/src/node/rotating.rt`, `lg_node_tests/src/node/receiving.rt`.
ghost use Rattle.std.specs.Prelude.{◌≡◌, ◌⊎◌, ℕ, Ok, Err, MatchResult, IfOk, IfErr, OnErr};
ghost use Rattle.lg_packet.specs.declared.fault.Fault.{Fault as Broken};
ghost use Rattle.lg_packet.specs.declared.packet.Packet.{Packet as Read};
ghost use Rattle.lg_packet.specs.Meaning.Reading.{packet_of};
ghost use Rattle.lg_detector.specs.declared.event.Event.TheVariants.{Tick, Heard, Pull, Leave};
ghost use Rattle.lg_agent.specs.declared.refusal.Refusal.TheVariants.{BadPacket, NoMemory, HistoryFull};
ghost use Rattle.lg_agent.specs.Meaning.Calls.{receipt_of, is_page, IsCall, IsRefusal, IsBadPacket, IsRotatedPass};
ghost use Rattle.lg_turns.specs.Meaning.Turns.{MadeNoCall};

use lg_agent::{AgentName, HeardPacket, Pass, Refusal};
use lg_detector::Reply;
use lg_rules::Addr;
use lg_timing::Moment;
use lg_turns::Shared;
use std::sync::Wait;

/// Rotates a pass whose call was refused, if that was because the history is full, and counts that. The error means
/// that the call isn't to be made again: it was refused for something else, or memory for the rotation was refused.
fn make_room<A: AgentName, R: Wait, C>(
    shared: &Shared<'_, R, C>,
    pass: &mut Pass<'_, A>,
    refusal: Refusal,
) -> Result<(), Refusal>
    ensures rotated { MatchResult result (λ _. IsRotatedPass pass.old pass.new)
        (λ e. (pass.new ≡ pass.old) × ((e ≡ refusal) ⊎ (e ≡ NoMemory))) }
    ensures other { ((limit : ℕ) × (refusal ≡ HistoryFull limit)) ⊎ (result ≡ Err refusal) }
{
    match refusal {
        Refusal::HistoryFull(_) => {
            pass.rotate(shared.rt, shared.alloc)?;
            shared.counters.note_rotated();
            Ok(())
        }
        _ => Err(refusal),
    }
}

/// [`Pass::datagram_into`], made again after a rotation if the history was full.
pub(crate) fn datagram<A: AgentName, R: Wait, C>(
    shared: &Shared<'_, R, C>,
    pass: &mut Pass<'_, A>,
    now: Moment,
    source: Addr,
    bytes: &[u8],
    reply: &mut Reply,
) -> Result<HeardPacket, Refusal>
    ensures answered { IfOk result (λ heard. (p : Read) × (packet_of bytes.now ≡ Ok p)
        × IsCall pass.old (Heard now source p) (receipt_of heard.place reply.new) pass.new
        × (heard.is_page ≡ is_page p.body) × (heard.group ≡ p.group)) }
    ensures refused { OnErr result (MadeNoCall pass.old pass.new) }
    ensures kept { OnErr result (reply.new ≡ reply.old) }
    ensures bad { (f : Broken) → packet_of bytes.now ≡ Err f
        → (result ≡ Err (BadPacket f)) × (pass.new ≡ pass.old) }
    ensures only { (f : Broken) → result ≡ Err (BadPacket f) → packet_of bytes.now ≡ Err f }
    ensures refusal { IfErr result (λ e. IsBadPacket e ⊎ IsRefusal pass.old.seen e) }
{
    match pass.datagram_into(shared.rt, shared.alloc, now, source, bytes, reply) {
        Ok(heard) => Ok(heard),
        Err(unheard) => {
            make_room(shared, pass, unheard)?;
            pass.datagram_into(shared.rt, shared.alloc, now, source, bytes, reply)
        }
    }
}

/// [`Pass::tick_into`], made again after a rotation if the history was full, with the same words.
pub(crate) fn tick<A: AgentName, R: Wait, C>(
    shared: &Shared<'_, R, C>,
    pass: &mut Pass<'_, A>,
    now: Moment,
    words: [u32; 8],
    reply: &mut Reply,
) -> Result<u64, Refusal>
    ensures answered { MatchResult result
        (λ place. IsCall pass.old (Tick now words) (receipt_of place reply.new) pass.new)
        (λ _. MadeNoCall pass.old pass.new) }
    ensures kept { OnErr result (reply.new ≡ reply.old) }
    ensures refusal { IfErr result (IsRefusal pass.old.seen) }
{
    match pass.tick_into(shared.rt, shared.alloc, now, words, reply) {
        Ok(place) => Ok(place),
        Err(unticked) => {
            make_room(shared, pass, unticked)?;
            pass.tick_into(shared.rt, shared.alloc, now, words, reply)
        }
    }
}

/// [`Pass::pull_into`], made again after a rotation if the history was full.
pub(crate) fn pull<A: AgentName, R: Wait, C>(
    shared: &Shared<'_, R, C>,
    pass: &mut Pass<'_, A>,
    now: Moment,
    peer: Addr,
    reply: &mut Reply,
) -> Result<u64, Refusal>
    ensures answered { MatchResult result
        (λ place. IsCall pass.old (Pull now peer) (receipt_of place reply.new) pass.new)
        (λ _. MadeNoCall pass.old pass.new) }
    ensures kept { OnErr result (reply.new ≡ reply.old) }
    ensures refusal { IfErr result (IsRefusal pass.old.seen) }
{
    match pass.pull_into(shared.rt, shared.alloc, now, peer, reply) {
        Ok(place) => Ok(place),
        Err(unasked) => {
            make_room(shared, pass, unasked)?;
            pass.pull_into(shared.rt, shared.alloc, now, peer, reply)
        }
    }
}

/// [`Pass::leave_into`], made again after a rotation if the history was full, with the same words.
pub(crate) fn leave<A: AgentName, R: Wait, C>(
    shared: &Shared<'_, R, C>,
    pass: &mut Pass<'_, A>,
    now: Moment,
    words: [u32; 8],
    reply: &mut Reply,
) -> Result<u64, Refusal>
    ensures answered { MatchResult result
        (λ place. IsCall pass.old (Leave now words) (receipt_of place reply.new) pass.new)
        (λ _. MadeNoCall pass.old pass.new) }
    ensures kept { OnErr result (reply.new ≡ reply.old) }
    ensures refusal { IfErr result (IsRefusal pass.old.seen) }
{
    match pass.leave_into(shared.rt, shared.alloc, now, words, reply) {
        Ok(place) => Ok(place),
        Err(refusal) => {
            make_room(shared, pass, refusal)?;
            pass.leave_into(shared.rt, shared.alloc, now, words, reply)
        }
    }
}
