//! The command `answer`: what a detector sends for the packets of an input.
//!
//! Defined in: `specs/Meaning/Answering.antt`, `specs/Meaning/Spelled.antt`.
//! Tested in: `cases/answer.case`.
ghost use Rattle.std.specs.Prelude.{◌≡◌, ◌+◌, ◌*◌, ◌≤◌, List, []};
ghost use Rattle.std.specs.Prelude.{◌∷◌, ◌++◌, IfOk, OnOk, length, vec_len};
ghost use Rattle.std.specs.List.{flat_map};
ghost use Rattle.lg_detector.specs.Support.Step.{state_after};
ghost use Rattle.lg_detector.specs.declared.event.Event.{Event as Happened};
ghost use Rattle.lg_text.specs.Meaning.Lines.{newline};
ghost use Rattle.lg_commands.specs.Meaning.Answering.{answer_end, answer_text, heard_event, line_answer, opening};
ghost use Rattle.lg_commands.specs.Meaning.Answering.{sent_line, sent_text};
ghost use Rattle.lg_commands.specs.Meaning.Spelled.{fault_text, packet_in};
ghost use Rattle.lg_commands.specs.Support.Hearing.{line_end, with_heard, AcceptsHeard};

use crate::line::LineFault;
use arrayvec::ArrayVec;
use lg_detector::{Detector, Event, NoMemory, Outgoing, Reply};
use lg_lines::{PacketRow, put_hex};
use lg_packet::Packet;
use lg_rules::Name;
use lg_script::local;
use lg_text::{MAX_INPUT, RunEnd, cut_line};
use lg_timing::{Config, Moment};
use std::alloc::Global;

/// What a run over an input writes, and how it ends.
#[derive(Debug, Drop)]
pub struct Answered {
    /// The text.
    pub text: Vec<u8>,
    /// How the run ends.
    pub end: RunEnd,
}

/// The event that opens a detector of this name with the default configuration, at moment 0 at 127.0.0.1:7000.
fn open_event(name: &Name) -> Event
    ensures { result ≡ opening name.now }
{
    Event::Open {
        now: Moment::default(),
        config: Config::new(*name, local(7000)),
    }
}

/// Appends a packet to a text as a line of lower-case hex.
fn put_packet(packet: &Packet, row: &mut PacketRow, text: &mut Vec<u8>) -> Result<(), NoMemory>
    ensures { OnOk result (text.new.items ≡ text.old.items ++ sent_text packet.now) }
{
    put_hex(packet, row, text)?;
    text.push(b'\n')?;
    Ok(())
}

/// Appends packets to a text, a line each.
fn put_sends(sends: &[Outgoing], row: &mut PacketRow, text: &mut Vec<u8>) -> Result<(), NoMemory>
    ensures { OnOk result (text.new.items ≡ text.old.items ++ flat_map sent_line sends.now) }
{
    for outgoing in sends {
        put_packet(&outgoing.packet, row, text)?;
    }
    Ok(())
}

/// Appends a fault to a text, as a line.
fn put_fault(fault: LineFault, text: &mut Vec<u8>) -> Result<(), NoMemory>
    ensures { OnOk result (text.new.items ≡ text.old.items ++ (fault_text fault ++ newline)) }
{
    text.extend_from_slice(fault.text().as_bytes())?;
    text.push(b'\n')?;
    Ok(())
}

/// Appends to a text what a line gives. Hands the detector the packet that the line spells, and says whether it
/// spells one.
///
/// `bytes`, `reply` and `row` are scratch buffers; what they hold before or after doesn't matter.
fn answer_line(
    line: &[u8],
    bytes: &mut [u8],
    detector: &mut Detector,
    reply: &mut Reply,
    row: &mut PacketRow,
    text: &mut Vec<u8>,
) -> Result<RunEnd, NoMemory>
    requires space { length line.now ≤ 2 * length bytes.old + 1 }
    requires accepts { AcceptsHeard detector.old }
    ensures text { OnOk result ((earlier : List Happened) → detector.old ≡ state_after earlier
        → text.new.items ≡ text.old.items ++ line_answer earlier line.now) }
    ensures after { (earlier : List Happened) → detector.old ≡ state_after earlier
        → detector.new ≡ state_after (with_heard earlier (packet_in line.now)) }
    ensures end { IfOk result (λ end. end ≡ line_end line.now) }
{
    let bytes = &mut bytes[..line.len() / 2];
    if hex::decode_to_slice(line, bytes).is_err() {
        put_fault(LineFault::NotHex, text)?;
        return Ok(RunEnd::Faulty);
    }
    match lg_packet::decode(bytes) {
        Ok(packet) => {
            // A packet is large, so the event is made here, where it needn't be passed on.
            let event = Event::Heard {
                now: Moment::default(),
                source: local(1),
                packet,
            };
            detector.step(&event, reply);
            put_sends(reply.sends.as_slice(), row, text)?;
            Ok(RunEnd::Done)
        }
        Err(fault) => {
            put_fault(LineFault::Refused(fault), text)?;
            Ok(RunEnd::Faulty)
        }
    }
}

/// A detector of this name, which was opened with the default configuration, at moment 0 at 127.0.0.1:7000.
fn opened(alloc: Global, name: &Name, reply: &mut Reply) -> Result<Detector, NoMemory>
    ensures { IfOk result (λ detector. detector ≡ state_after (opening name.now ∷ [])) }
{
    let mut detector = Detector::blank(alloc)?;
    detector.step(&open_event(name), reply);
    Ok(detector)
}

/// What a run over an input writes: for each line, what the detector sends for the packet that the line spells, or
/// the fault of the line.
///
/// Time and memory are in proportion to the input. The only error is that memory was refused.
pub fn answer(alloc: Global, name: &Name, input: &[u8]) -> Result<Answered, NoMemory>
    requires { length input.now ≤ MAX_INPUT }
    ensures text { IfOk result (λ answer. answer.text.items ≡ answer_text name.now input.now) }
    ensures end { IfOk result (λ answer. answer.end ≡ answer_end input.now) }
{
    let mut reply = Reply::default();
    let mut detector = opened(alloc, name, &mut reply)?;
    let mut memory = vec![in alloc; 0; input.len() / 2]?;
    let bytes = memory.as_mut_slice();
    let mut row = ArrayVec::new();
    let mut text = Vec::new(alloc);
    let mut end = RunEnd::Done;
    let mut rest = input;
    'lines: while !rest.is_empty() {
        let (line, after) = cut_line(rest);
        match answer_line(line, bytes, &mut detector, &mut reply, &mut row, &mut text)? {
            RunEnd::Done => {}
            RunEnd::Faulty => end = RunEnd::Faulty,
        }
        rest = after;
    }
    Ok(Answered { text, end })
}
