//! Names, claims, which claim overrides which, the table of members, and a member's own incarnation.
use lg_rules::{
    Claim, Heard, Incarnation, Ip, Keyed, MAX_OTHERS, Members, Name, NameFault, Own, OwnHeard,
    Slot, Status, Version, beats, is_name_byte,
};
use lg_testing::says::Said::{self, Alive, Failed, Left, Suspect};
use lg_testing::says::{claim_of, far, moved};
use lg_testing::{alive, claim, failed, letter, local, name, numbered, suspect};

const TEXTS: &[(&[u8], Result<(), NameFault>)] = &[
    (b"b", Ok(())),
    (b"ab", Ok(())),
    (b"A.z_0-9", Ok(())),
    (b"", Err(NameFault::Empty)),
    (b"abcdefghijklmnopqrstuvwxyz012345", Ok(())),
    (
        b"abcdefghijklmnopqrstuvwxyz 012345",
        Err(NameFault::TooLong),
    ),
    (b"a b!", Err(NameFault::BadByte(b' '))),
];

/// Whether a text is judged like this, and a name has the bytes that it was made from.
fn is_judged(text: &[u8], want: &Result<(), NameFault>) -> bool {
    match Name::new(text) {
        Ok(name) => want.is_ok() && name.as_bytes() == text,
        Err(fault) => *want == Err(fault),
    }
}

/// Which texts are names.
#[test]
fn judges_names(rt: HostRuntime) {
    for (text, want) in TEXTS {
        assert!(rt; is_judged(text, want), "{text:?}");
    }
}

/// A name comes before those that it begins. Names are in the order of their bytes. A name may have an underscore,
/// and no slash. No incarnation is above the greatest. After the incarnation 0 comes 1.
fn facts_of_names() -> [bool; 6] {
    [
        letter(b'a') < name(b"ab"),
        letter(b'B') < letter(b'a'),
        is_name_byte(b'_'),
        !is_name_byte(b'/'),
        Incarnation::new(1_000_000_001).is_none(),
        Incarnation::default().successor() == Incarnation::new(1),
    ]
}

/// The parts of the claim that `a` suspects `c` at 4: the member, its IP address, its port, its status, its
/// incarnation, its accuser, and the key of its row.
fn facts_of_a_claim() -> [bool; 7] {
    let heard = suspect(b'c', 4, b'a');
    [
        heard.name() == letter(b'c'),
        heard.addr().ip == Ip::V4([127, 0, 0, 1]),
        heard.addr().port == 7000,
        heard.status() == Status::Suspect(letter(b'a')),
        heard.incarnation().number() == 4,
        heard.accuser() == Some(letter(b'a')),
        heard.key() == letter(b'c'),
    ]
}

#[test]
fn reads_names_and_claims(rt: HostRuntime) {
    assert_eq!(rt; facts_of_names(), [true; 6]);
    assert_eq!(rt; facts_of_a_claim(), [true; 7]);
}

/// The versions, the most claims of their packets, and whether they tell an address of sixteen bytes.
const VERSIONS: &[(Version, usize, bool)] = &[
    (Version::One, 6, false),
    (Version::Two, 6, false),
    (Version::Three, 12, true),
];

/// Version 3 has room for more claims, and tells more addresses. Each version tells those of four bytes.
#[test]
fn versions_tell_what_they_can(rt: HostRuntime) {
    for (version, most, is_told) in VERSIONS {
        let tells = [version.tells(&local(7000)), version.tells(&far())];
        let has_room = version.most_claims() == *most;
        assert!(rt;
            has_room && tells == [true, *is_told],
            "{version:?}: {tells:?}"
        );
    }
}

/// Hears a claim about another member.
fn hear(members: &mut Members, heard: &Claim) -> Option<Heard> {
    if heard.name == members.own() {
        return None;
    }
    Some(members.hear(heard))
}

/// Hears a claim about `c`, of which another is the record. Returns whether it overrides that record exactly if it
/// should, hearing it does what it should, and the right one of the two stands then. Hearing that one again has to do
/// nothing.
fn is_heard_so(before: &Claim, heard: &Claim, overrode: bool, hearing: Heard) -> bool {
    let stands = if overrode { *heard } else { *before };
    let again = match stands.accuser() {
        Some(_) => Heard::Accused,
        None => Heard::Same,
    };
    let mut members = Members::new(&letter(b'b'), false);
    let first = hear(&mut members, before);
    let second = hear(&mut members, heard);
    let record = members.get(&letter(b'c')).copied();
    let third = hear(&mut members, &stands);
    beats(heard, before) == overrode
        && record == Some(stands)
        && [first, second, third] == [Some(Heard::Overrode), Some(hearing), Some(again)]
}

/// `d` accuses `c` at 4.
const SUSPECTED: Said = Suspect("c", 4, "d");

/// A record of `c`, a claim about `c`, whether it overrides that record, and what hearing it does.
const CLAIMS: &[(Said, Said, bool, Heard)] = &[
    (Alive("c", 4), Suspect("c", 3, "e"), false, Heard::Ignored),
    (Alive("c", 4), Failed("c", 3), false, Heard::Ignored),
    (Alive("c", 4), Alive("c", 4), false, Heard::Same),
    (Alive("c", 4), Suspect("c", 4, "e"), true, Heard::Overrode),
    (Alive("c", 4), Failed("c", 4), true, Heard::Overrode),
    (SUSPECTED, Alive("c", 4), false, Heard::Ignored),
    (SUSPECTED, Suspect("c", 4, "e"), false, Heard::Accused),
    (SUSPECTED, Suspect("c", 3, "d"), false, Heard::Ignored),
    (SUSPECTED, Failed("c", 3), false, Heard::Ignored),
    (SUSPECTED, Failed("c", 4), true, Heard::Overrode),
    (SUSPECTED, Alive("c", 5), true, Heard::Overrode),
    (SUSPECTED, Suspect("c", 5, "e"), true, Heard::Overrode),
    (SUSPECTED, Failed("c", 5), true, Heard::Overrode),
    (Failed("c", 4), Alive("c", 4), false, Heard::Ignored),
    (Failed("c", 4), Suspect("c", 4, "d"), false, Heard::Ignored),
    (Failed("c", 4), Failed("c", 3), false, Heard::Ignored),
    (Failed("c", 4), Failed("c", 4), false, Heard::Same),
    (Failed("c", 4), Alive("c", 5), true, Heard::Overrode),
    (Failed("c", 4), Suspect("c", 5, "d"), true, Heard::Overrode),
    (Failed("c", 4), Failed("c", 5), true, Heard::Overrode),
    (Alive("c", 4), Left("c", 3), false, Heard::Ignored),
    (Alive("c", 4), Left("c", 4), true, Heard::Overrode),
    (SUSPECTED, Left("c", 4), true, Heard::Overrode),
    (Failed("c", 4), Left("c", 4), true, Heard::Overrode),
    (Left("c", 4), Left("c", 4), false, Heard::Same),
    (Left("c", 4), Alive("c", 4), false, Heard::Ignored),
    (Left("c", 4), Suspect("c", 4, "d"), false, Heard::Ignored),
    (Left("c", 4), Failed("c", 4), false, Heard::Ignored),
    (Left("c", 4), Alive("c", 5), true, Heard::Overrode),
    (Left("c", 4), Failed("c", 5), true, Heard::Overrode),
    (SUSPECTED, Alive("c", 3), false, Heard::Ignored),
    (SUSPECTED, Left("c", 3), false, Heard::Ignored),
    (SUSPECTED, Left("c", 5), true, Heard::Overrode),
    (Failed("c", 4), Alive("c", 3), false, Heard::Ignored),
    (Failed("c", 4), Suspect("c", 3, "d"), false, Heard::Ignored),
    (Failed("c", 4), Left("c", 3), false, Heard::Ignored),
    (Failed("c", 4), Left("c", 5), true, Heard::Overrode),
    (Left("c", 4), Alive("c", 3), false, Heard::Ignored),
    (Left("c", 4), Suspect("c", 3, "d"), false, Heard::Ignored),
    (Left("c", 4), Failed("c", 3), false, Heard::Ignored),
    (Left("c", 4), Left("c", 3), false, Heard::Ignored),
    (Left("c", 4), Suspect("c", 5, "d"), true, Heard::Overrode),
    (Left("c", 4), Left("c", 5), true, Heard::Overrode),
];

#[test]
fn overrides(rt: HostRuntime) {
    for (record, said, overrode, hearing) in CLAIMS {
        let (before, heard) = (claim_of(record), claim_of(said));
        assert!(rt;
            is_heard_so(&before, &heard, *overrode, *hearing),
            "{before:?}, {heard:?}"
        );
    }
}

/// Hears a claim. Returns whether that does what it should, and this is then the only record, with this many live
/// members.
fn leaves(
    members: &mut Members,
    heard: &Claim,
    hearing: Heard,
    stands: &Claim,
    live: usize,
) -> bool {
    let found = hear(members, heard);
    let records = [members.at(0).copied(), members.at(1).copied()];
    found == Some(hearing) && records == [Some(*stands), None] && members.live() == live
}

/// Claims about `c` at a port, what hearing them does, and how many aren't gone then.
const ADDRESSES: &[(Said, u16, Heard, usize)] = &[
    (Alive("c", 2), 7000, Heard::Overrode, 2),
    (Alive("c", 2), 7001, Heard::Same, 2),
    (Failed("c", 2), 7000, Heard::Overrode, 1),
    (Alive("c", 3), 7000, Heard::Overrode, 2),
    (Alive("c", 3), 7001, Heard::Same, 2),
];

/// The record then says the same at port 7000: the first address of an incarnation stays.
#[test]
fn keeps_the_first_address(rt: HostRuntime) {
    let mut members = Members::new(&letter(b'b'), false);
    for (said, port, hearing, live) in ADDRESSES {
        let stands = claim_of(said);
        let heard = moved(stands, *port);
        assert!(rt;
            leaves(&mut members, &heard, *hearing, &stands, *live),
            "{heard:?}"
        );
    }
}

/// A full table with the names from 45 to 299. It has 255 others, and 256 members are live. 45 is the first and 299
/// the last, and there is no 44.
fn facts_of_a_full_table(members: &Members) -> [bool; 5] {
    [
        members.count() == MAX_OTHERS,
        members.live() == 256,
        members.at(0).map(Claim::name) == Some(numbered(45)),
        members.at(254).map(Claim::name) == Some(numbered(299)),
        members.get(&numbered(44)).is_none(),
    ]
}

/// An unknown name has no slot, and the second one stands second. There is no room for the unknown one. A newer claim
/// about the first one is heard, and is its record then.
fn facts_of_seats_and_room(members: &mut Members) -> [bool; 5] {
    let unknown = numbered(44);
    let newer = claim(numbered(45), Status::Alive, 3);
    [
        members.slot_of(&unknown).is_none(),
        members.at(1).map(Claim::name) == Some(numbered(46)),
        hear(members, &claim(unknown, Status::Alive, 9)) == Some(Heard::NoRoom),
        hear(members, &newer) == Some(Heard::Overrode),
        members.get(&numbered(45)).copied() == Some(newer),
    ]
}

/// 255 others are known, in the order of their names, and there is room for no more.
#[test]
fn knows_256_names(rt: HostRuntime) {
    let mut members = Members::new(&name(b"me"), false);
    for number in (0..300).rev() {
        let want = if number < 45 {
            Heard::NoRoom
        } else {
            Heard::Overrode
        };
        let hearing = hear(&mut members, &claim(numbered(number), Status::Alive, 2));
        assert!(rt; hearing == Some(want), "{number}: {hearing:?}");
    }
    assert_eq!(rt; facts_of_a_full_table(&members), [true; 5]);
    assert_eq!(rt; facts_of_seats_and_room(&mut members), [true; 5]);
}

/// Claims that `m` hears, one after another, and the slot of each one's member then. The last two are about known
/// members: one overrides, and one doesn't.
const SLOTS: &[(Said, u8)] = &[
    (Alive("c", 1), 1),
    (Alive("a", 1), 2),
    (Alive("b", 1), 3),
    (Failed("c", 1), 1),
    (Alive("a", 0), 2),
];

/// Whether a name has the slot with this number, and this slot has the name.
fn has_slot(members: &Members, name: &Name, number: u8) -> bool {
    let slot = Slot::new(number);
    members.slot_of(name) == Some(slot) && members.name_at(slot).copied() == Some(*name)
}

/// `m` itself has slot 0, and `c`, `a` and `b` have 1, 2 and 3. `d` has none, and slot 4 has no name.
fn facts_of_slots(members: &Members) -> [bool; 8] {
    [
        has_slot(members, &letter(b'm'), 0),
        has_slot(members, &letter(b'c'), 1),
        has_slot(members, &letter(b'a'), 2),
        has_slot(members, &letter(b'b'), 3),
        members.slot_of(&letter(b'd')).is_none(),
        members.name_at(Slot::new(4)).is_none(),
        members.slot_of(&members.own()) == Some(Slot::own()),
        Slot::new(200).number() == 200,
    ]
}

/// Each name has a slot, by the order in which the names were heard of.
#[test]
fn numbers_names_by_appearance(rt: HostRuntime) {
    let mut members = Members::new(&letter(b'm'), false);
    for (said, number) in SLOTS {
        let heard = claim_of(said);
        let hearing = hear(&mut members, &heard);
        assert!(rt;
            hearing.is_some() && has_slot(&members, &heard.name, *number),
            "{heard:?}"
        );
    }
    assert_eq!(rt; facts_of_slots(&members), [true; 8]);
}

/// The greatest incarnation.
const GREATEST: u32 = 1_000_000_000;

/// Hears a claim. Returns whether that does what it should, and leaves this incarnation and this flag.
fn becomes(own: &mut Own, heard: &Claim, hearing: OwnHeard, number: u32, ousted: bool) -> bool {
    let found = own.hear(heard);
    let known = Claim {
        name: own.name(),
        addr: own.addr(),
        status: Status::Alive,
        incarnation: own.number(),
    };
    found == hearing
        && own.ousted() == ousted
        && own.number().number() == number
        && [own.record(), known] == [alive(b'b', number); 2]
}

/// What `b` hears of itself, what that does, b's incarnation then, and whether b is ousted.
const OF_ITSELF: &[(Said, OwnHeard, u32, bool)] = &[
    (Suspect("b", 0, "a"), OwnHeard::Refuted, 1, false),
    (Suspect("b", 0, "c"), OwnHeard::Ignored, 1, false),
    (Alive("b", 1), OwnHeard::Ignored, 1, false),
    (Alive("b", 3), OwnHeard::Raised, 4, false),
    (Suspect("b", 3, "a"), OwnHeard::Ignored, 4, false),
    (Failed("b", 3), OwnHeard::Ignored, 4, false),
    (Failed("b", 4), OwnHeard::Raised, 5, false),
    (Left("b", 4), OwnHeard::Ignored, 5, false),
    (Left("b", 5), OwnHeard::Raised, 6, false),
    (Failed("b", 7), OwnHeard::Raised, 8, false),
    (Failed("b", GREATEST), OwnHeard::Ousted, 8, true),
    (Suspect("b", GREATEST, "a"), OwnHeard::Ousted, 8, true),
    (
        Failed("b", 999_999_998),
        OwnHeard::Raised,
        999_999_999,
        true,
    ),
    (
        Suspect("b", 999_999_999, "a"),
        OwnHeard::Refuted,
        GREATEST,
        true,
    ),
    (Alive("b", GREATEST), OwnHeard::Ignored, GREATEST, true),
    (Failed("b", GREATEST), OwnHeard::Ousted, GREATEST, true),
    (
        Suspect("b", GREATEST, "a"),
        OwnHeard::Ousted,
        GREATEST,
        true,
    ),
];

/// What is said of this member raises its incarnation, ousts it or does nothing. What is said of others does nothing.
#[test]
fn refutes(rt: HostRuntime) {
    let mut own = Own::new(letter(b'b'), local(7000));
    for (said, hearing, number, ousted) in OF_ITSELF {
        let (heard, of_another) = (claim_of(said), failed(b'c', *number));
        let own_is = becomes(&mut own, &heard, *hearing, *number, *ousted);
        let stays = becomes(&mut own, &of_another, OwnHeard::Ignored, *number, *ousted);
        assert!(rt; own_is & stays, "{heard:?}");
    }
}
