//! Writes records as text.
//!
//! Defined in: `specs/Meaning/Records.antt`.
//! Tested in: `cases/sim_members.case`, `lg_command_tests/src/replies.rt`.
ghost use Rattle.std.specs.Prelude.{◌≡◌, ◌++◌, OnErr, OnOk, codes, decimal};
ghost use Rattle.std.specs.Io.{StartsWith};
ghost use Rattle.lg_lines.specs.Meaning.Records.{accuser_text, record_line, record_text, status_text, table_text};
ghost use Rattle.lg_text.specs.Meaning.Addresses.{addr_text, dotted};

use itoa::Buffer;
use lg_detector::NoMemory;
use lg_rules::{Addr, Ip, Name, Record, Status};

/// The most bytes of an IPv6 address in brackets with its port, as in
/// `[2001:db8:1111:2222:3333:4444:5555:6666]:65535`.
const MAX_ADDR_TEXT: usize = 47;

/// Appends bytes to a text.
///
/// This function, and each private function below and in `replies`, leaves the old text as the front of the new one,
/// even if memory is refused. So [`put_table`] and `put_reply` can cut the text back to it.
pub(crate) fn put(bytes: &[u8], text: &mut Vec<u8>) -> Result<(), NoMemory>
    ensures put { OnOk result (text.new.items ≡ text.old.items ++ bytes.now) }
    ensures front { StartsWith text.new.items text.old.items }
{
    text.extend_from_slice(bytes)?;
    Ok(())
}

/// Appends a number in decimal to a text.
pub(crate) fn put_number(number: u64, text: &mut Vec<u8>) -> Result<(), NoMemory>
    ensures put { OnOk result (text.new.items ≡ text.old.items ++ decimal number) }
    ensures front { StartsWith text.new.items text.old.items }
{
    let mut digits = Buffer::new();
    put(digits.format(number).as_bytes(), text)?;
    Ok(())
}

/// Appends a word and a number in decimal to a text.
pub(crate) fn put_numbered(word: &str, number: u64, text: &mut Vec<u8>) -> Result<(), NoMemory>
    ensures put { OnOk result (text.new.items ≡ text.old.items ++ (word.now ++ decimal number)) }
    ensures front { StartsWith text.new.items text.old.items }
{
    put(word.as_bytes(), text)?;
    put_number(number, text)?;
    Ok(())
}

/// Appends a word and a name to a text.
pub(crate) fn put_named(word: &str, name: &Name, text: &mut Vec<u8>) -> Result<(), NoMemory>
    ensures put { OnOk result (text.new.items ≡ text.old.items ++ (word.now ++ name.now)) }
    ensures front { StartsWith text.new.items text.old.items }
{
    put(word.as_bytes(), text)?;
    put(name.as_bytes(), text)?;
    Ok(())
}

/// Appends an IPv4 address with its port to a text, without memory beside that of the text: a table has an address for
/// each member.
fn put_ipv4(octets: &[u8; 4], port: u16, text: &mut Vec<u8>) -> Result<(), NoMemory>
    ensures put { OnOk result
        (text.new.items ≡ text.old.items ++ (dotted octets.now ++ codes ":" ++ decimal port)) }
    ensures front { StartsWith text.new.items text.old.items }
{
    let [a, b, c, d] = *octets;
    put_number(u64::from(a), text)?;
    put_numbered(".", u64::from(b), text)?;
    put_numbered(".", u64::from(c), text)?;
    put_numbered(".", u64::from(d), text)?;
    put_numbered(":", u64::from(port), text)?;
    Ok(())
}

/// Appends an address with its port to a text. It is first written to a text of its own, for which memory is allocated.
fn put_copied(addr: &Addr, text: &mut Vec<u8>) -> Result<(), NoMemory>
    ensures put { OnOk result (text.new.items ≡ text.old.items ++ addr_text addr.now) }
    ensures front { StartsWith text.new.items text.old.items }
{
    let mut written = String::with_capacity(*text.allocator(), MAX_ADDR_TEXT)?;
    lg_text::put_addr(addr, &mut written)?;
    put(written.as_bytes(), text)
}

/// Appends an address with its port to a text: `A.B.C.D:PORT`, or `[ADDRESS]:PORT` for IPv6.
pub(crate) fn put_addr(addr: &Addr, text: &mut Vec<u8>) -> Result<(), NoMemory>
    ensures put { OnOk result (text.new.items ≡ text.old.items ++ addr_text addr.now) }
    ensures front { StartsWith text.new.items text.old.items }
{
    match &addr.ip {
        Ip::V4(octets) => put_ipv4(octets, addr.port, text),
        Ip::V6(_) => put_copied(addr, text),
    }
}

/// The word for a status.
fn status_word(status: &Status) -> &'static str
    ensures { result.now ≡ status_text status.now }
{
    match status {
        Status::Alive => "alive",
        Status::Suspect(_) => "suspect",
        Status::Failed => "failed",
        Status::Left => "left",
    }
}

/// Appends the accuser of a suspect to a text.
fn put_accuser(status: &Status, text: &mut Vec<u8>) -> Result<(), NoMemory>
    ensures put { OnOk result (text.new.items ≡ text.old.items ++ accuser_text status.now) }
    ensures front { StartsWith text.new.items text.old.items }
{
    if let Status::Suspect(accuser) = status {
        put_named(" by ", accuser, text)?;
    }
    Ok(())
}

/// Appends a record to a text, without a newline.
pub(crate) fn put_record(claim: &Record, text: &mut Vec<u8>) -> Result<(), NoMemory>
    ensures put { OnOk result (text.new.items ≡ text.old.items ++ record_text claim.now) }
    ensures front { StartsWith text.new.items text.old.items }
{
    put(claim.name.as_bytes(), text)?;
    put(b" ", text)?;
    put(status_word(&claim.status).as_bytes(), text)?;
    put_numbered(" ", u64::from(claim.incarnation.number()), text)?;
    put(b" ", text)?;
    put_addr(&claim.addr, text)?;
    put_accuser(&claim.status, text)?;
    Ok(())
}

/// Appends a record to a text, as a line.
fn put_record_line(claim: &Record, text: &mut Vec<u8>) -> Result<(), NoMemory>
    ensures put { OnOk result (text.new.items ≡ text.old.items ++ record_line claim.now) }
    ensures front { StartsWith text.new.items text.old.items }
{
    put(b"record ", text)?;
    put_record(claim, text)?;
    put(b"\n", text)?;
    Ok(())
}

/// Appends records to a text, a line each, in the order in which they are given.
#[tactic(auto, unfolding(crate::specs::Meaning::Records::table_text))]
pub(crate) fn put_records(records: &[Record], text: &mut Vec<u8>) -> Result<(), NoMemory>
    ensures put { OnOk result (text.new.items ≡ text.old.items ++ table_text records.now) }
    ensures front { StartsWith text.new.items text.old.items }
{
    for claim in records {
        put_record_line(claim, text)?;
    }
    Ok(())
}

/// Appends records to a text in the order given. Each is a line `record NAME STATUS INCARNATION ADDRESS:PORT`.
///
/// STATUS is `alive`, `suspect`, `failed` or `left`; a suspect has ` by ACCUSER` at the end of its line. ADDRESS is
/// `A.B.C.D`, or an IPv6 address in brackets. Memory is allocated only if the text has to grow, and for the text of an
/// IPv6 address. The only error is that memory was refused. The text then holds what it held before, though it may have
/// room for more.
pub fn put_table(records: &[Record], text: &mut Vec<u8>) -> Result<(), NoMemory>
    ensures put { OnOk result (text.new.items ≡ text.old.items ++ table_text records.now) }
    ensures refused { OnErr result (text.new.items ≡ text.old.items) }
{
    let length = text.len();
    let done = put_records(records, text);
    if done.is_err() {
        text.truncate(length);
    }
    done
}
