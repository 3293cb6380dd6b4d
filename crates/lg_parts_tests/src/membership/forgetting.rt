//! Whom a forgotten member still accuses, and that the next name with its slot accuses nobody.
use super::playing::Step::{Forgets, Hears, Known, Live, Opens, Seeds};
use super::playing::{CHANGED, Case, Did, JOINED, NOTHING, play};
use lg_membership::Deadline;
use lg_testing::says::Said::{Alive, Suspect};

/// What the claim did that raised a suspicion at 2000, among five members.
const RAISED: Did = Did {
    deadline: Deadline::Stands(32_000),
    ..CHANGED
};

/// What the first claim did that confirmed it, and what the second and the third did.
const FIRST: Did = Did {
    deadline: Deadline::Stands(19_500),
    ..NOTHING
};

const SECOND: Did = Did {
    deadline: Deadline::Stands(12_200),
    ..NOTHING
};

const THIRD: Did = Did {
    deadline: Deadline::Stands(7000),
    ..NOTHING
};

/// f gets the slot of e. It counts as a new accuser, and e still counts once, by its name.
const ACCUSERS: &[Case] = &[
    (
        "the slot of a forgotten accuser",
        &[
            Opens("b"),
            Seeds(&[Alive("a", 0), Alive("c", 0), Alive("d", 0), Alive("e", 0)]),
            Hears(2000, Suspect("c", 0, "d"), RAISED),
            Hears(2100, Suspect("c", 0, "e"), FIRST),
            Forgets("e"),
            Known("e", None),
            Live(4),
            Hears(2200, Alive("f", 0), JOINED),
            Hears(2300, Suspect("c", 0, "e"), NOTHING),
            Hears(2400, Suspect("c", 0, "f"), SECOND),
            Hears(2500, Suspect("c", 0, "f"), NOTHING),
            Forgets("f"),
            Hears(2600, Suspect("c", 0, "f"), NOTHING),
            Hears(2700, Alive("e", 0), JOINED),
            Hears(2800, Suspect("c", 0, "e"), NOTHING),
            Hears(2900, Suspect("c", 0, "a"), THIRD),
        ],
    ),
    (
        "two who are accused by one that is forgotten",
        &[
            Opens("b"),
            Seeds(&[Alive("a", 0), Alive("c", 0), Alive("d", 0), Alive("e", 0)]),
            Hears(2000, Suspect("a", 0, "d"), RAISED),
            Hears(2000, Suspect("c", 0, "d"), RAISED),
            Hears(2100, Suspect("a", 0, "e"), FIRST),
            Hears(2100, Suspect("c", 0, "e"), FIRST),
            Forgets("e"),
            Hears(2200, Alive("f", 0), JOINED),
            Hears(2300, Suspect("a", 0, "e"), NOTHING),
            Hears(2300, Suspect("c", 0, "e"), NOTHING),
            Hears(2400, Suspect("a", 0, "f"), SECOND),
            Hears(2400, Suspect("c", 0, "f"), SECOND),
        ],
    ),
];

/// The first accuser is kept by its name from the start, and so is a stranger. A suspicion that has ended, and one that
/// was raised anew, have no accuser more.
const NOBODY: &[Case] = &[
    (
        "one that accuses nobody",
        &[
            Opens("b"),
            Seeds(&[Alive("a", 0), Alive("c", 0), Alive("d", 0), Alive("e", 0)]),
            Hears(2000, Suspect("c", 0, "d"), RAISED),
            Forgets("e"),
            Hears(2100, Suspect("c", 0, "e"), FIRST),
            Hears(2200, Alive("e", 0), JOINED),
            Forgets("e"),
            Hears(2300, Suspect("c", 0, "e"), NOTHING),
            Hears(2400, Suspect("c", 0, "a"), SECOND),
            Forgets("d"),
            Hears(2500, Suspect("c", 0, "d"), NOTHING),
            Forgets("a"),
            Hears(2600, Suspect("c", 0, "a"), NOTHING),
        ],
    ),
    (
        "one that accused a member that isn't suspected any more",
        &[
            Opens("b"),
            Seeds(&[Alive("a", 0), Alive("c", 0), Alive("d", 0), Alive("e", 0)]),
            Hears(1000, Suspect("a", 0, "d"), AT_1000),
            Hears(1100, Suspect("a", 0, "e"), FIRST_AT_1000),
            Hears(1200, Alive("a", 1), ENDED),
            Hears(2000, Suspect("c", 0, "d"), RAISED),
            Forgets("e"),
            Hears(2100, Alive("f", 0), JOINED),
            Hears(2200, Suspect("c", 0, "f"), FIRST),
            Hears(2300, Suspect("c", 0, "e"), SECOND),
            Forgets("f"),
            Hears(2400, Suspect("c", 0, "f"), NOTHING),
        ],
    ),
];

/// The same a second earlier, and what a claim did that ended a suspicion.
const AT_1000: Did = Did {
    deadline: Deadline::Stands(31_000),
    ..CHANGED
};

const FIRST_AT_1000: Did = Did {
    deadline: Deadline::Stands(18_500),
    ..NOTHING
};

const ENDED: Did = Did {
    deadline: Deadline::Ends,
    ..CHANGED
};

#[test]
fn forgotten_members_still_accuse(rt: HostRuntime) {
    play(&rt, ACCUSERS);
    play(&rt, NOBODY);
}
