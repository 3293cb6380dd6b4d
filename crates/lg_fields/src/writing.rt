//! Writes the fields of recordings behind what a text holds.
//!
//! Each function here leaves the old text as the front of the new one, even if memory is refused. So a caller can cut
//! the text back to it.
//!
//! Defined in: `specs/Meaning/Spelled.antt`.
//! Tested in: `lg_fields_tests/src/fields.rt`.
ghost use Rattle.std.specs.Prelude.{◌≡◌, ◌≤◌, ◌++◌, OnOk, length};
ghost use Rattle.std.specs.Io.{StartsWith};
ghost use Rattle.std.specs.List.{flat_map};
ghost use Rattle.lg_timing.specs.Meaning.Keys.{number_of_key};
ghost use Rattle.lg_packet.specs.Meaning.Spelling.{of_family, spelled_name, spelled_number, spelled_or_none};
ghost use Rattle.lg_fields.specs.Meaning.Spelled.{check_of_body, chunk, spelled_config, spelled_count, spelled_flag};
ghost use Rattle.lg_fields.specs.Meaning.Spelled.{records_page, spelled_place, spelled_records};
ghost use Rattle.lg_fields.specs.Meaning.Spelled.{spelled_seed, spelled_seeds, spelled_text, spelled_told};

use arrayvec::ArrayVec;
use lg_packet::{Body, MAX_PACKET, Packet, encode};
use lg_rules::{Addr, Ip, MAX_CLAIMS, Name, Record, Version};
use lg_timing::{Config, KEYS, Key, Seed};
use sha2::{Digest, Sha256};
use std::alloc::AllocError;

/// The bytes of a digest that a chunk has.
pub(crate) const CHECK_LEN: usize = 4;

/// The bytes of a packet that is being written.
type Row = ArrayVec<u8, MAX_PACKET>;

/// Appends bytes.
fn put(bytes: &[u8], out: &mut Vec<u8>) -> Result<(), AllocError>
    ensures put { OnOk result (out.new.items ≡ out.old.items ++ bytes.now) }
    ensures front { StartsWith out.new.items out.old.items }
{
    out.extend_from_slice(bytes)?;
    Ok(())
}

/// Appends a number: 7 bits a byte, the least first, at most ten bytes. The only error is that memory was refused.
pub fn put_count(n: u64, out: &mut Vec<u8>) -> Result<(), AllocError>
    ensures put { OnOk result (out.new.items ≡ out.old.items ++ spelled_count n) }
    ensures front { StartsWith out.new.items out.old.items }
{
    if n < 128 {
        return put(&[n as u8], out);
    }
    put(&[128 + (n % 128) as u8], out)?;
    put_count(n / 128, out)
}

/// Appends a flag, one byte. The only error is that memory was refused.
pub fn put_flag(flag: bool, out: &mut Vec<u8>) -> Result<(), AllocError>
    ensures put { OnOk result (out.new.items ≡ out.old.items ++ spelled_flag flag) }
    ensures front { StartsWith out.new.items out.old.items }
{
    if flag { put(&[1], out) } else { put(&[0], out) }
}

/// Appends a text: how many bytes it has, and then these. The only error is that memory was refused.
pub fn put_text(text: &[u8], out: &mut Vec<u8>) -> Result<(), AllocError>
    ensures put { OnOk result (out.new.items ≡ out.old.items ++ spelled_text text.now) }
    ensures front { StartsWith out.new.items out.old.items }
{
    put_count(text.len() as u64, out)?;
    put(text, out)
}

/// Appends a name: a byte for its length, and then its bytes. The only error is that memory was refused.
pub fn put_label(name: &Name, out: &mut Vec<u8>) -> Result<(), AllocError>
    ensures put { OnOk result (out.new.items ≡ out.old.items ++ spelled_name name.now) }
    ensures front { StartsWith out.new.items out.old.items }
{
    let text = name.as_bytes();
    put(&[text.len() as u8], out)?;
    put(text, out)
}

/// Appends a name, or a length of 0 if there is none. The only error is that memory was refused.
pub fn put_maybe_label(name: &Option<Name>, out: &mut Vec<u8>) -> Result<(), AllocError>
    ensures put { OnOk result (out.new.items ≡ out.old.items ++ spelled_or_none name.now) }
    ensures front { StartsWith out.new.items out.old.items }
{
    match name {
        Some(name) => put_label(name, out),
        None => put(&[0], out),
    }
}

/// Appends a number as four bytes, the highest first. The only error is that memory was refused.
pub fn put_word(number: u32, out: &mut Vec<u8>) -> Result<(), AllocError>
    ensures put { OnOk result (out.new.items ≡ out.old.items ++ spelled_number number) }
    ensures front { StartsWith out.new.items out.old.items }
{
    put(&number.to_be_bytes(), out)
}

/// Appends a byte for the family of an IP address, and then its bytes.
fn put_ip(ip: &Ip, out: &mut Vec<u8>) -> Result<(), AllocError>
    ensures put { OnOk result (out.new.items ≡ out.old.items ++ of_family ip.now) }
    ensures front { StartsWith out.new.items out.old.items }
{
    match ip {
        Ip::V4(octets) => {
            put(&[4], out)?;
            put(octets, out)
        }
        Ip::V6(octets) => {
            put(&[6], out)?;
            put(octets, out)
        }
    }
}

/// Appends an address: a byte for its family, its bytes, and its port, as packets of version 3 have it. The only error
/// is that memory was refused.
pub fn put_place(addr: &Addr, out: &mut Vec<u8>) -> Result<(), AllocError>
    ensures put { OnOk result (out.new.items ≡ out.old.items ++ spelled_place addr.now) }
    ensures front { StartsWith out.new.items out.old.items }
{
    put_ip(&addr.ip, out)?;
    put(&addr.port.to_be_bytes(), out)
}

/// Appends a packet behind the number of its bytes, as much of it as its version can tell. The row is overwritten: its
/// memory is what the packet is first written to. The only error is that memory was refused.
pub fn put_told(packet: &Packet, row: &mut Row, out: &mut Vec<u8>) -> Result<(), AllocError>
    ensures put { OnOk result (out.new.items ≡ out.old.items ++ spelled_told packet.now) }
    ensures front { StartsWith out.new.items out.old.items }
{
    encode(packet, row);
    put_text(row, out)
}

/// Some records as one packet, from the member of the first.
fn page_of(first: &Record, rows: &[Record]) -> Packet
    requires { length rows.now ≤ MAX_CLAIMS }
    ensures { result ≡ record (records_page rows.now) { sender = first.now.name } }
{
    let mut claims = ArrayVec::new();
    let copied = claims.try_extend_from_slice(rows);
    prove!(copied.is_ok());
    Packet {
        version: Version::Three,
        group: None,
        sender: first.name,
        body: Body::Page,
        claims,
    }
}

/// Appends some records, at most 12: the number 0 if there are none, or else a Page of version 3 from the member of the
/// first, behind the number of its bytes. The only error is that memory was refused.
pub fn put_records(rows: &[Record], out: &mut Vec<u8>) -> Result<(), AllocError>
    requires { length rows.now ≤ MAX_CLAIMS }
    ensures put { OnOk result (out.new.items ≡ out.old.items ++ spelled_records rows.now) }
    ensures front { StartsWith out.new.items out.old.items }
{
    match rows {
        [] => put_count(0, out),
        [first, ..] => put_told(&page_of(first, rows), &mut ArrayVec::new(), out),
    }
}

/// Appends the numbers of these keys of a configuration, in the order of the keys.
fn put_numbers(keys: &[Key], config: &Config, out: &mut Vec<u8>) -> Result<(), AllocError>
    ensures put { OnOk result
        (out.new.items ≡ out.old.items ++ flat_map (λ key. spelled_count (number_of_key key config.now)) keys.now) }
    ensures front { StartsWith out.new.items out.old.items }
{
    for key in keys {
        put_count(config.number(*key), out)?;
    }
    Ok(())
}

/// Appends a seed: its name and its address.
fn put_seed(seed: &Seed, out: &mut Vec<u8>) -> Result<(), AllocError>
    ensures put { OnOk result (out.new.items ≡ out.old.items ++ spelled_seed seed.now) }
    ensures front { StartsWith out.new.items out.old.items }
{
    put_label(&seed.name, out)?;
    put_place(&seed.addr, out)
}

/// Appends how many seeds there are, and then these.
fn put_seeds(seeds: &[Seed], out: &mut Vec<u8>) -> Result<(), AllocError>
    ensures put { OnOk result (out.new.items ≡ out.old.items ++ spelled_seeds seeds.now) }
    ensures front { StartsWith out.new.items out.old.items }
{
    put_count(seeds.len() as u64, out)?;
    for seed in seeds {
        put_seed(seed, out)?;
    }
    Ok(())
}

/// Appends a configuration: its numbers in the order of [`KEYS`], its name, its address, its group and its seeds. It
/// needn't pass its check. The only error is that memory was refused.
#[tactic(auto, unfolding(crate::specs::Meaning::Spelled::spelled_config))]
pub fn put_config(config: &Config, out: &mut Vec<u8>) -> Result<(), AllocError>
    ensures put { OnOk result (out.new.items ≡ out.old.items ++ spelled_config config.now) }
    ensures front { StartsWith out.new.items out.old.items }
{
    put_numbers(&KEYS, config, out)?;
    put_label(&config.name, out)?;
    put_place(&config.addr, out)?;
    put_maybe_label(&config.group, out)?;
    put_seeds(&config.seeds, out)
}

/// The bytes by which a chunk's body is checked.
pub(crate) fn check_of_body(body: &[u8]) -> [u8; CHECK_LEN]
    ensures { result ≡ check_of_body body.now }
{
    let mut hasher = Sha256::new();
    hasher.update(body);
    let digest = hasher.finalize();
    let mut check = [0; CHECK_LEN];
    check.copy_from_slice(&digest[..CHECK_LEN]);
    check
}

/// Appends a chunk: its body as a text, and the first 4 bytes of the SHA-256 of the body (this project's choice). The
/// only error is that memory was refused.
#[tactic(auto, unfolding(crate::specs::Meaning::Spelled::chunk))]
pub fn put_chunk(body: &[u8], out: &mut Vec<u8>) -> Result<(), AllocError>
    ensures put { OnOk result (out.new.items ≡ out.old.items ++ chunk body.now) }
    ensures front { StartsWith out.new.items out.old.items }
{
    put_text(body, out)?;
    put(&check_of_body(body), out)
}
