//! What claims change, and what is asked of the table.
use super::playing::Step::{
    self, Hears, Known, Lambda, Live, Members, Number, Opens, Ousted, Own, OwnRecord, Places, Says,
    Seeds, Sends, Table,
};
use super::playing::{CHANGED, Case, Did, JOINED, NOTHING, hears, play, play_on};
use lg_membership::{Deadline, MAX_MEMBERS, Membership, Presence};
use lg_testing::says::Said::{Alive, Failed, Numbered, Suspect};

/// Nobody is known before the opening, and the opening forgets what was known.
const OPENINGS: &[Case] = &[
    (
        "before the opening",
        &[
            Lambda(None),
            Hears(
                10,
                Suspect("c", 0, "d"),
                Did {
                    changed: false,
                    ..JOINED
                },
            ),
            Live(2),
            Known("c", None),
            Table(&[]),
        ],
    ),
    (
        "a second opening",
        &[
            Opens("b"),
            Seeds(&[Alive("a", 0), Alive("c", 0), Alive("d", 0), Alive("e", 0)]),
            Says(0, Suspect("b", 4, "a")),
            Says(0, Failed("b", 1_000_000_000)),
            Number(5),
            Ousted(true),
            Opens("b"),
            Lambda(Some(4)),
            Own("b"),
            Number(0),
            Ousted(false),
            Live(1),
            Known("b", Some(Alive("b", 0))),
            Known("c", None),
            Sends(&[]),
        ],
    ),
];

/// Records are in the order of names.
const RECORDS: Case = (
    "four members",
    &[
        Opens("b"),
        Hears(0, Alive("d", 2), JOINED),
        Hears(0, Alive("c", 2), JOINED),
        Hears(0, Alive("a", 2), JOINED),
        Table(&[Alive("a", 2), Alive("b", 0), Alive("c", 2), Alive("d", 2)]),
    ],
);

/// What a claim did that raised a suspicion with this deadline.
const RAISED_TO_32000: Did = Did {
    deadline: Deadline::Stands(32_000),
    ..CHANGED
};

/// Alive at the record's incarnation clears no suspicion. A second accuser moves the deadline, known or not, and does
/// so once, also if it becomes a member in between; among two members none does.
const SUSPICIONS: &[Case] = &[
    (
        "alive at the number",
        &[
            Opens("b"),
            Says(2000, Suspect("c", 4, "d")),
            Hears(2100, Alive("c", 4), NOTHING),
            Known("c", Some(Suspect("c", 4, "d"))),
            Hears(
                2200,
                Alive("c", 5),
                Did {
                    deadline: Deadline::Ends,
                    ..CHANGED
                },
            ),
            Known("c", Some(Alive("c", 5))),
            Hears(2300, Alive("c", 5), NOTHING),
        ],
    ),
    (
        "an accuser who becomes a member",
        &[
            Opens("b"),
            Seeds(&[Alive("a", 0), Alive("c", 0), Alive("d", 0), Alive("e", 0)]),
            Hears(2000, Suspect("c", 0, "d"), RAISED_TO_32000),
            Hears(
                2100,
                Suspect("c", 0, "z"),
                Did {
                    deadline: Deadline::Stands(19_500),
                    ..NOTHING
                },
            ),
            Hears(2200, Alive("z", 0), JOINED),
            Hears(2300, Suspect("c", 0, "z"), NOTHING),
            Hears(
                2400,
                Suspect("c", 0, "e"),
                Did {
                    deadline: Deadline::Stands(12_200),
                    ..NOTHING
                },
            ),
        ],
    ),
    (
        "among five",
        &[
            Opens("b"),
            Seeds(&[Alive("a", 0), Alive("c", 0), Alive("d", 0), Alive("e", 0)]),
            Hears(2000, Suspect("c", 0, "d"), RAISED_TO_32000),
            Hears(2500, Suspect("c", 0, "d"), NOTHING),
            Hears(
                2600,
                Suspect("c", 0, "e"),
                Did {
                    deadline: Deadline::Stands(19_500),
                    ..NOTHING
                },
            ),
            Hears(
                2700,
                Failed("c", 0),
                Did {
                    deadline: Deadline::Ends,
                    presence: Presence::Leaves,
                    ..CHANGED
                },
            ),
            Hears(2800, Suspect("c", 0, "a"), NOTHING),
            Hears(
                3000,
                Suspect("d", 1, "a"),
                Did {
                    deadline: Deadline::Stands(8000),
                    ..CHANGED
                },
            ),
            Hears(
                4000,
                Suspect("d", 2, "e"),
                Did {
                    deadline: Deadline::Stands(9000),
                    ..CHANGED
                },
            ),
            Live(4),
            Hears(
                5000,
                Suspect("c", 1, "a"),
                Did {
                    deadline: Deadline::Stands(35_000),
                    ..JOINED
                },
            ),
            Hears(
                5500,
                Alive("c", 2),
                Did {
                    deadline: Deadline::Ends,
                    ..CHANGED
                },
            ),
            Live(5),
        ],
    ),
    (
        "an accuser that becomes known later",
        &[
            Opens("b"),
            Seeds(&[Alive("a", 0), Alive("c", 0), Alive("d", 0), Alive("e", 0)]),
            Hears(2000, Suspect("c", 0, "d"), RAISED_TO_32000),
            Hears(
                2500,
                Suspect("c", 0, "f"),
                Did {
                    deadline: Deadline::Stands(19_500),
                    ..NOTHING
                },
            ),
            Hears(2600, Alive("f", 0), JOINED),
            Hears(2700, Suspect("c", 0, "f"), NOTHING),
        ],
    ),
    (
        "among two",
        &[
            Opens("b"),
            Hears(
                2000,
                Suspect("c", 0, "d"),
                Did {
                    deadline: Deadline::Stands(7000),
                    ..JOINED
                },
            ),
            Hears(2100, Suspect("c", 0, "e"), NOTHING),
            Sends(&[Suspect("c", 0, "d")]),
        ],
    ),
];

/// A member joins those that aren't gone, and leaves them. At a greater incarnation it joins them again.
const PLACES: Case = (
    "joining and leaving",
    &[
        Opens("b"),
        Places(2000, Alive("a", 0), Presence::Joins, 2),
        Places(2000, Suspect("a", 0, "c"), Presence::Stays, 2),
        Places(2000, Suspect("c", 3, "a"), Presence::Joins, 3),
        Places(2000, Failed("a", 0), Presence::Leaves, 2),
        Places(2000, Alive("a", 0), Presence::Stays, 2),
        Places(2000, Suspect("a", 0, "c"), Presence::Stays, 2),
        Places(2000, Alive("a", 9), Presence::Joins, 3),
        Places(2000, Failed("a", 8), Presence::Stays, 3),
        Places(2000, Failed("a", 9), Presence::Leaves, 2),
        Places(2000, Failed("a", 10), Presence::Stays, 2),
        Places(2000, Suspect("a", 11, "c"), Presence::Joins, 3),
        Places(2000, Failed("d", 0), Presence::Stays, 3),
        Places(2000, Alive("d", 1), Presence::Joins, 4),
        Places(2000, Suspect("b", 0, "c"), Presence::Stays, 4),
        Places(2000, Failed("b", 1), Presence::Stays, 4),
    ],
);

/// A suspicion of b itself is refuted once. If b hears that it failed, it raises its incarnation, and that is no
/// refutation. What nothing can refute ousts b.
const OF_ITSELF: &[Case] = &[
    (
        "two accusations of one number",
        &[
            Opens("b"),
            Hears(
                0,
                Suspect("b", 0, "a"),
                Did {
                    refuted: true,
                    ..CHANGED
                },
            ),
            Hears(0, Suspect("b", 0, "c"), NOTHING),
            Number(1),
            Sends(&[Alive("b", 1)]),
            Hears(0, Alive("b", 3), CHANGED),
            Number(4),
            OwnRecord(Alive("b", 4)),
        ],
    ),
    (
        "failed",
        &[
            Opens("b"),
            Hears(0, Failed("b", 7), CHANGED),
            Hears(0, Failed("b", 7), NOTHING),
            Ousted(false),
            Number(8),
            Sends(&[Alive("b", 8)]),
            Live(1),
        ],
    ),
    (
        "failed at the last number",
        &[
            Opens("b"),
            Hears(0, Failed("b", 1_000_000_000), NOTHING),
            Ousted(true),
            Number(0),
            Sends(&[]),
            Live(1),
        ],
    ),
    (
        "suspected at the last number",
        &[
            Opens("b"),
            Hears(0, Suspect("b", 1_000_000_000, "a"), NOTHING),
            Ousted(true),
            Number(0),
            Sends(&[]),
            Live(1),
        ],
    ),
];

/// 256 names are known. There is no room for another, and the record of c is still raised.
const FULL: &[Step] = &[
    Live(MAX_MEMBERS),
    Known("m254", None),
    Hears(0, Suspect("zz", 0, "c"), NOTHING),
    Hears(0, Alive("c", 3), CHANGED),
    Known("c", Some(Alive("c", 3))),
    Members(MAX_MEMBERS),
];

#[test]
fn knows_256_names(rt: HostRuntime) {
    let mut b = Membership::blank();
    play_on(&rt, &mut b, "before", &[Opens("b"), Says(0, Alive("c", 2))]);
    for number in 0..300 {
        let expected = if number < 254 { JOINED } else { NOTHING };
        let met = hears(&mut b, 0, &Numbered(number), &expected);
        assert!(rt; met, "{number}: {b:?}");
    }
    play_on(&rt, &mut b, "256 names", FULL);
}

/// Each case of claims.
const PLAYED: &[&[Case]] = &[OPENINGS, &[RECORDS], SUSPICIONS, &[PLACES], OF_ITSELF];

#[test]
fn claims_change_the_table(rt: HostRuntime) {
    for cases in PLAYED {
        play(&rt, cases);
    }
}
