//! Appends a packet to a text, as hex.
//!
//! Defined in: `specs/Meaning/Replies.antt`, `lg_packet/specs/Meaning/Spelling.antt`.
//! Tested in: `cases/answer.case`, `cases/sim_replies.case`.
ghost use Rattle.std.specs.Prelude.{◌≡◌, ◌++◌, OnErr, OnOk};
ghost use Rattle.lg_lines.specs.Meaning.Replies.{packet_text};

use arrayvec::ArrayVec;
use lg_packet::{MAX_PACKET, Packet};
use std::alloc::AllocError;

/// A buffer for the bytes of a packet that is written.
pub type PacketRow = ArrayVec<u8, MAX_PACKET>;

/// Appends the bytes of a packet to a text as lower-case hex, two digits each, without a newline.
///
/// `row` is a scratch buffer; what it holds before or after doesn't matter. The only error is that memory was
/// refused; the text is then unchanged. Time and memory are in proportion to the packet, which has at most
/// [`MAX_PACKET`] bytes. Only moving the text, if it has to grow, can take more.
pub fn put_hex(packet: &Packet, row: &mut PacketRow, text: &mut Vec<u8>) -> Result<(), AllocError>
    ensures put { OnOk result (text.new.items ≡ text.old.items ++ packet_text packet.now) }
    ensures same { OnErr result (text.new.items ≡ text.old.items) }
{
    lg_packet::encode(packet, row);
    let start = text.len();
    text.resize(start + 2 * row.len(), b'0')?;
    hex::encode_to_slice(row.as_slice(), &mut text[start..]).unwrap();
    Ok(())
}
