//! Groups whose members fail and come back. Each table that is wanted follows from the rules:
//! - a live member that is reached is never suspected for long, and stays at its incarnation;
//! - a member that hears that it failed at 0 is alive at 1 from then on, and no other member can say that;
//! - a claim that a member is alive at 0 doesn't override that it failed at 0.
use super::group::Act::{
    self, Cut, GoesOn, HaveMet, Heals, Know, Passes, Pauses, Pulls, Restarts, Stops,
};
use super::group::{Opening, play_group};
use super::tables::Known::{Alive, Failed};
use super::tables::Runs;

/// A play of a group: its name, how the members are opened, and what happens then.
pub(super) type Play = (&'static str, Opening, &'static [Act]);

/// Groups whose members know three seeds, and have one configuration.
const GROUP_OF_SIXTEEN: Opening = Opening {
    members: 16,
    seeds: &[0, 1, 2],
    lambda: 4,
    wires: &[1],
};

const GROUP_OF_TEN: Opening = Opening {
    members: 10,
    seeds: &[0, 1, 2],
    lambda: 4,
    wires: &[1],
};

/// Ten that send a claim more often. With the random words of a simulated group, gossip then reaches everybody in the
/// plays below. With others it may not.
const GOSSIPING_TEN: Opening = Opening {
    members: 10,
    seeds: &[0, 1, 2],
    lambda: 10,
    wires: &[1],
};

pub(super) const GROUP_OF_EIGHT: Opening = Opening {
    members: 8,
    seeds: &[0, 1, 2],
    lambda: 4,
    wires: &[1],
};

/// The tables of sixteen, once the members 1, 6, 10 and 15 have failed, and once they have come back.
const SIXTEEN_FAILED: Runs = &[
    (1, Alive(0)),
    (1, Failed(0)),
    (4, Alive(0)),
    (1, Failed(0)),
    (3, Alive(0)),
    (1, Failed(0)),
    (4, Alive(0)),
    (1, Failed(0)),
];

const SIXTEEN_BACK: Runs = &[
    (1, Alive(0)),
    (1, Alive(1)),
    (4, Alive(0)),
    (1, Alive(1)),
    (3, Alive(0)),
    (1, Alive(1)),
    (4, Alive(0)),
    (1, Alive(1)),
];

/// Four of sixteen members die, a seed among them, and are started again. Each hears from the Page of a seed that it
/// failed.
const STARTED_AGAIN: Play = (
    "four of sixteen are started again",
    GROUP_OF_SIXTEEN,
    &[
        Passes(1000),
        Know(0, 15, &[(16, Alive(0))]),
        Stops(1),
        Stops(6),
        Stops(10),
        Stops(15),
        Passes(3000),
        Know(0, 0, SIXTEEN_FAILED),
        Know(2, 5, SIXTEEN_FAILED),
        Know(7, 9, SIXTEEN_FAILED),
        Know(11, 14, SIXTEEN_FAILED),
        Restarts(1),
        Restarts(6),
        Restarts(10),
        Restarts(15),
        Passes(1000),
        Know(0, 15, SIXTEEN_BACK),
    ],
);

/// Tables of ten, the members 0 to 4 of one side first.
const ALIKE: Runs = &[(10, Alive(0))];

const OTHERS_FAILED: Runs = &[(5, Alive(0)), (5, Failed(0))];

const FIRST_FAILED: Runs = &[(5, Failed(0)), (5, Alive(0))];

const ALL_BACK: Runs = &[(10, Alive(1))];

/// The group is cut into two sides of five. When it is whole again, the sides don't speak with each other.
/// Then the member 0 asks 5 for its table:
/// - The first Page has six records, so that it is full: 0 to 4 have failed, and 5 is alive at 0. Of its own side the
///   member 0 takes over that they failed, and of itself it contradicts it. That 5 is alive at 0 changes nothing.
/// - The next Pull tells 5 that 0 is alive at 1. The second Page has nothing new.
/// - The members 1 to 4 still ping 0. They hear that they failed, and contradict it.
/// - The other side pings 0, and by the gossip in its Acks the others come back there as well. But nobody has told
///   the members 5 to 9 that they failed.
///
/// So one of these has to ask as well.
const ONE_OF_EACH_SIDE: Play = (
    "one of each side asks",
    GOSSIPING_TEN,
    &[
        Passes(1000),
        Know(0, 9, ALIKE),
        Cut(5),
        Passes(4000),
        Know(0, 4, OTHERS_FAILED),
        Know(5, 9, FIRST_FAILED),
        Heals,
        Passes(2000),
        HaveMet(false),
        Know(0, 4, OTHERS_FAILED),
        Know(5, 9, FIRST_FAILED),
        Pulls(0, 5),
        Passes(2),
        Know(0, 0, &[(1, Alive(1)), (9, Failed(0))]),
        Know(5, 5, FIRST_FAILED),
        Passes(1),
        Know(5, 5, &[(1, Alive(1)), (4, Failed(0)), (5, Alive(0))]),
        Passes(1),
        Know(0, 0, &[(1, Alive(1)), (9, Failed(0))]),
        Passes(2000),
        HaveMet(true),
        Know(0, 4, &[(5, Alive(1)), (5, Failed(0))]),
        Know(5, 9, &[(5, Alive(1)), (5, Alive(0))]),
        Pulls(5, 0),
        Passes(2),
        Know(5, 5, &[(6, Alive(1)), (4, Alive(0))]),
        Passes(2),
        Know(5, 5, &[(6, Alive(1)), (4, Failed(0))]),
        Passes(2000),
        Know(0, 9, ALL_BACK),
    ],
);

/// The member 9 asks first. Its name is in the last Page, which isn't full, so no further Pull tells 0 that it is alive
/// at 1. Its side comes back at 1 to itself alone. Then 0 asks: from the Pages it hears that its side failed, and
/// that the others are alive at 1.
const LAST_FIRST: Play = (
    "the last one asks first",
    GOSSIPING_TEN,
    &[
        Passes(1000),
        Cut(5),
        Passes(4000),
        Heals,
        Pulls(9, 0),
        Passes(2000),
        Know(0, 4, OTHERS_FAILED),
        Know(5, 9, &[(5, Failed(0)), (5, Alive(1))]),
        Pulls(0, 9),
        Passes(2000),
        Know(0, 9, ALL_BACK),
    ],
);

/// Both ask in the same millisecond.
const BOTH_AT_ONCE: Play = (
    "both sides ask at once",
    GOSSIPING_TEN,
    &[
        Passes(1000),
        Cut(5),
        Passes(4000),
        Heals,
        Pulls(0, 5),
        Pulls(5, 0),
        Passes(2000),
        Know(0, 9, ALL_BACK),
    ],
);

/// The members send a claim less often. Whether those of a side hear that they failed from the one that asked is then
/// a matter of chance: it sends this four times at most, maybe to the other side alone. Each hears it for sure if it
/// asks by itself.
const EACH_ASKS: Play = (
    "each asks",
    GROUP_OF_TEN,
    &[
        Passes(1000),
        Cut(5),
        Passes(4000),
        Know(0, 4, OTHERS_FAILED),
        Know(5, 9, FIRST_FAILED),
        Heals,
        Pulls(0, 5),
        Passes(1000),
        Pulls(5, 0),
        Passes(1000),
        Pulls(1, 5),
        Pulls(2, 5),
        Pulls(3, 5),
        Pulls(4, 5),
        Pulls(6, 0),
        Pulls(7, 0),
        Pulls(8, 0),
        Pulls(9, 0),
        Passes(2000),
        Know(0, 9, ALL_BACK),
    ],
);

/// The members of one side are opened again, each with a seed on the other side. Each hears from a Page that it
/// failed. It has forgotten that the others failed, so their records are taken over from the Page as they are.
const ONE_SIDE_AGAIN: Play = (
    "one side is started again",
    Opening {
        members: 10,
        seeds: &[0, 5],
        lambda: 4,
        wires: &[1],
    },
    &[
        Passes(1000),
        Know(0, 9, ALIKE),
        Cut(5),
        Passes(4000),
        Know(0, 4, OTHERS_FAILED),
        Know(5, 9, FIRST_FAILED),
        Heals,
        Restarts(0),
        Restarts(1),
        Restarts(2),
        Restarts(3),
        Restarts(4),
        Passes(2000),
        Know(0, 9, &[(5, Alive(1)), (5, Alive(0))]),
    ],
);

/// Tables of eight, of which the member 3 was away.
pub(super) const EIGHT: Runs = &[(8, Alive(0))];

pub(super) const AWAY: Runs = &[(3, Alive(0)), (1, Failed(0)), (4, Alive(0))];

pub(super) const RETURNED: Runs = &[(3, Alive(0)), (1, Alive(1)), (4, Alive(0))];

/// The packets for the member 3 wait while it pauses. Pings to a suspect say that it is suspected.
const PAUSED: Play = (
    "the packets for a paused member wait",
    GROUP_OF_EIGHT,
    &[
        Passes(1000),
        Pauses(3),
        Passes(3000),
        Know(0, 2, AWAY),
        Know(3, 3, EIGHT),
        Know(4, 7, AWAY),
        GoesOn(3),
        Passes(1000),
        Know(0, 7, RETURNED),
    ],
);

/// The packets for the member 3 are lost, and in the end no packet tells any more that it failed. Nobody pings it. Its
/// own Pings get Acks, which don't tell it either. Once it asks for a table it hears it.
const MISSED: Play = (
    "the packets for a paused member are lost",
    GROUP_OF_EIGHT,
    &[
        Passes(1000),
        Stops(3),
        Passes(3000),
        Know(0, 2, AWAY),
        Know(4, 7, AWAY),
        GoesOn(3),
        Passes(1000),
        Know(0, 2, AWAY),
        Know(3, 3, EIGHT),
        Know(4, 7, AWAY),
        Pulls(3, 0),
        Passes(1000),
        Know(0, 7, RETURNED),
    ],
);

/// Plays of groups that were cut in two, and of which one or two ask.
const FEW_ASK: &[Play] = &[ONE_OF_EACH_SIDE, LAST_FIRST, BOTH_AT_ONCE];

#[test]
fn sides_agree_again_if_few_ask(rt: HostRuntime) {
    for (case, opening, acts) in FEW_ASK {
        play_group(&rt, rt.alloc(), case, *opening, acts);
    }
}

/// The same, but each member of a side asks.
const EACH_OF_A_SIDE_ASKS: &[Play] = &[EACH_ASKS, ONE_SIDE_AGAIN];

#[test]
fn sides_agree_again_if_each_asks(rt: HostRuntime) {
    for (case, opening, acts) in EACH_OF_A_SIDE_ASKS {
        play_group(&rt, rt.alloc(), case, *opening, acts);
    }
}

/// Plays of groups of which members were away.
const ABSENT: &[Play] = &[STARTED_AGAIN, PAUSED, MISSED];

#[test]
fn groups_agree_again(rt: HostRuntime) {
    for (case, opening, acts) in ABSENT {
        play_group(&rt, rt.alloc(), case, *opening, acts);
    }
}
