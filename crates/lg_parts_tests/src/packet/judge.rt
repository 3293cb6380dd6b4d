//! A slow judge of bytes, written from the table of the format: which bytes are due, and what each of them brings.
use lg_packet::Fault;

/// What is due after a part of a packet.
///
/// `due` has a letter for each byte. `S` and `L` are the magic, `V` is the version and `K` the kind. `N` is the
/// length of a name, and `P` such a length or 0 if there is no name. `F` is the family of an address. `C` is the count
/// of claims. `i` is each of the first three bytes of an incarnation, and `I` its last. `*` is any byte. The bytes of
/// a name and those of an address come before these, and the claims after them.
#[derive(Clone, Copy)]
struct Place {
    due: &'static [u8],
    /// The version, or 0 before it is read.
    version: u8,
    name_bytes: u8,
    address_bytes: u8,
    claims: u8,
    /// The first bytes of an incarnation.
    number: u64,
}

/// What a packet begins with.
const START: Place = Place {
    due: b"SLVK",
    version: 0,
    name_bytes: 0,
    address_bytes: 0,
    claims: 0,
    number: 0,
};

/// What a packet of a version has after its kind.
fn rest_of_packet(version: u8, kind: u8) -> &'static [u8] {
    match (version, kind) {
        (3, 1) => b"PN****NC",
        (3, 2) => b"PN****NF**C",
        (3, 3) | (3, 4) => b"PN****NC",
        (3, 5) => b"PNPC",
        (3, _) => b"PNC",
        (_, 1) => b"N****NC",
        (_, 2) => b"N****N******C",
        (_, 3) | (_, 4) => b"N****C",
        (_, 5) => b"NPC",
        (_, _) => b"NC",
    }
}

/// What a claim of a version has after its kind.
fn rest_of_claim(version: u8, kind: u8) -> &'static [u8] {
    match (version, kind) {
        (3, 2) => b"NF**iiiIN",
        (3, _) => b"NF**iiiI",
        (_, 2) => b"N******iiiIN",
        (_, _) => b"N******iiiI",
    }
}

/// The first number that is too great for a kind of packet, for a count of claims and for a kind of claim.
fn ends_of(version: u8) -> (u8, u8, u8) {
    match version {
        3 => (8, 13, 5),
        _ => (7, 7, 4),
    }
}

/// How many bytes an address of a family has.
fn bytes_of_family(family: u8) -> u8 {
    match family {
        4 => 4,
        _ => 16,
    }
}

/// A number with one more byte.
fn with_byte(number: u64, byte: u8) -> u64 {
    number.wrapping_mul(256).wrapping_add(u64::from(byte))
}

/// Whether a byte may stand at a letter, and the fault if it may not. Here `n` is a byte of a name, and `A` the kind
/// of a claim.
fn judged(letter: u8, byte: u8, place: &Place) -> (bool, Fault) {
    let (kinds, counts, claim_kinds) = ends_of(place.version);
    match letter {
        b'S' => (byte == 0x53, Fault::Magic),
        b'L' => (byte == 0x4c, Fault::Magic),
        b'V' => (byte != 0 && byte < 4, Fault::Version),
        b'K' => (byte != 0 && byte < kinds, Fault::Kind),
        b'N' => (byte != 0 && byte < 33, Fault::Name),
        b'P' => (byte < 33, Fault::Name),
        b'n' => (
            byte.is_ascii_alphanumeric() || b"._-".contains(&byte),
            Fault::Name,
        ),
        b'F' => (byte == 4 || byte == 6, Fault::Family),
        b'C' => (byte < counts, Fault::Count),
        b'A' => (byte != 0 && byte < claim_kinds, Fault::ClaimKind),
        b'I' => (
            with_byte(place.number, byte) <= 1_000_000_000,
            Fault::Incarnation,
        ),
        _ => (true, Fault::Short),
    }
}

/// What is due after a byte that stands at a letter. Here `a` is a byte of an address with a family.
fn behind(place: Place, letter: u8, byte: u8) -> Place {
    let mut next = place;
    match letter {
        b'V' => next.version = byte,
        b'K' => next.due = rest_of_packet(place.version, byte),
        b'N' | b'P' => next.name_bytes = byte,
        b'n' => next.name_bytes = place.name_bytes.saturating_sub(1),
        b'F' => next.address_bytes = bytes_of_family(byte),
        b'a' => next.address_bytes = place.address_bytes.saturating_sub(1),
        b'C' => next.claims = byte,
        b'A' => {
            next.due = rest_of_claim(place.version, byte);
            next.claims = place.claims.saturating_sub(1);
            next.number = 0;
        }
        b'i' => next.number = with_byte(place.number, byte),
        _ => {}
    }
    next
}

/// The letter of the next byte, and what is due after it. There is no letter if nothing is due.
fn next(place: Place) -> (Option<u8>, Place) {
    if place.name_bytes != 0 {
        return (Some(b'n'), place);
    }
    if place.address_bytes != 0 {
        return (Some(b'a'), place);
    }
    match place.due {
        [letter, due @ ..] => (Some(*letter), Place { due, ..place }),
        [] if place.claims != 0 => (Some(b'A'), place),
        [] => (None, place),
    }
}

/// The fault of bytes that are no packet.
pub fn judge(bytes: &[u8]) -> Option<Fault> {
    let mut place = START;
    for byte in bytes {
        let (Some(letter), rest) = next(place) else {
            return Some(Fault::Trailing);
        };
        let (stands, fault) = judged(letter, *byte, &rest);
        if !stands {
            return Some(fault);
        }
        place = behind(rest, letter, *byte);
    }
    match next(place) {
        (Some(_), _) => Some(Fault::Short),
        (None, _) => None,
    }
}
