//! The packets of a reply are handed to a link.
//!
//! Defined in: `specs/Meaning/Links.antt`, `lg_counters/specs/Meaning/Tally.antt`.
//! Tested in: `lg_node_tests/src/node/receiving.rt`.
ghost use Rattle.std.specs.Prelude.{◌≡◌, ◌≤◌, length};
ghost use Rattle.lg_counters.specs.Meaning.Tally.{noted_of};
ghost use Rattle.lg_turns.specs.Meaning.Links.{WereHanded};

use arrayvec::ArrayVec;
use lg_counters::Noted;
use lg_detector::{MAX_SENDS, Outgoing, Reply};
use lg_packet::encode;
use lg_rules::Name;
use lg_turns::Link;

/// Hands each packet to the link once, in order, and goes on if one isn't sent. Returns how many were not.
pub(crate) fn send_all<L: Link>(link: &mut L, sends: &[Outgoing]) -> u64
    requires { length sends.now ≤ MAX_SENDS }
    ensures { WereHanded L.tells (L.log link.old) (L.log link.new) (L.failed link.old) (L.failed link.new)
        sends.now result }
{
    let mut unsent = 0;
    let mut bytes = ArrayVec::new();
    for outgoing in sends {
        encode(&outgoing.packet, &mut bytes);
        if link.send(outgoing.to, &bytes).is_err() {
            unsent += 1;
        }
    }
    unsent
}

/// Hands the packets of a reply to the link, as [`send_all`] does. Returns what the reply counts, of a member with this
/// name: the packets that weren't sent are among it.
pub(crate) fn hand_over<L: Link>(link: &mut L, name: &Name, reply: &Reply) -> Noted
    ensures handed { WereHanded L.tells (L.log link.old) (L.log link.new) (L.failed link.old) (L.failed link.new)
        reply.now.sends.items result.unsent }
    ensures few { result.unsent ≤ MAX_SENDS }
    ensures noted { result ≡ noted_of name.now reply.now result.unsent }
{
    let unsent = send_all(link, reply.sends.as_slice());
    Noted::of(name, reply, unsent)
}
