//! Simulated groups whose members send several versions, or gossip.
use super::group::Act::{self, GoesOn, Know, Passes, Pauses, Restarts, Stops};
use super::group::{Opening, play_group};
use super::rejoining::{AWAY, EIGHT, GROUP_OF_EIGHT, Play, RETURNED};
use super::tables::Known::{Alive, Failed};
use super::tables::Runs;
use std::alloc::Global;
use std::process::Abort;

/// The member 3 pauses for less than a suspicion takes, and refutes that it is suspected. The member 6 dies, and is
/// started again.
const CHANGES: &[Act] = &[
    Passes(1000),
    Know(0, 7, EIGHT),
    Pauses(3),
    Passes(90),
    GoesOn(3),
    Passes(1000),
    Know(0, 7, RETURNED),
    Stops(6),
    Passes(3000),
    Know(0, 5, SIXTH_FAILED),
    Know(7, 7, SIXTH_FAILED),
    Restarts(6),
    Passes(1000),
    Know(
        0,
        7,
        &[
            (3, Alive(0)),
            (1, Alive(1)),
            (2, Alive(0)),
            (1, Alive(1)),
            (1, Alive(0)),
        ],
    ),
];

const SIXTH_FAILED: Runs = &[
    (3, Alive(0)),
    (1, Alive(1)),
    (2, Alive(0)),
    (1, Failed(0)),
    (1, Alive(0)),
];

/// The same happens to a group of equal members, and to one whose members send two versions in turn.
const OLD_KINDS: &[Play] = &[
    ("version 1", GROUP_OF_EIGHT, CHANGES),
    (
        "two versions",
        Opening {
            members: 8,
            seeds: &[0, 1, 2],
            lambda: 4,
            wires: &[1, 2],
        },
        CHANGES,
    ),
];

/// It happens to one that gossips, and to one of which every third member does.
const GOSSIPING: Play = ("version 3", GOSSIPING_EIGHT, CHANGES);

const THREE_VERSIONS: Play = (
    "three versions",
    Opening {
        members: 8,
        seeds: &[0, 1, 2],
        lambda: 4,
        wires: &[1, 2, 3],
    },
    CHANGES,
);

/// Eight that send version 3, and gossip.
const GOSSIPING_EIGHT: Opening = Opening {
    members: 8,
    seeds: &[0, 1, 2],
    lambda: 4,
    wires: &[3],
};

/// The packets for the member 3 are lost here too. The Acks to its own Pings tell it that it failed.
const HEARS_BY_AN_ACK: Play = (
    "a failed member hears it by an Ack",
    GOSSIPING_EIGHT,
    &[
        Passes(1000),
        Stops(3),
        Passes(3000),
        Know(0, 2, AWAY),
        Know(4, 7, AWAY),
        GoesOn(3),
        Passes(1000),
        Know(0, 7, RETURNED),
    ],
);

/// Plays each of some plays.
fn play_each(rt: &impl Abort, alloc: Global, plays: &[Play]) {
    for (case, opening, acts) in plays {
        play_group(rt, alloc, case, *opening, acts);
    }
}

#[test]
fn groups_of_old_versions_agree(rt: HostRuntime) {
    play_each(&rt, rt.alloc(), OLD_KINDS);
}

#[test]
fn a_group_that_gossips_agrees(rt: HostRuntime) {
    play_each(&rt, rt.alloc(), &[GOSSIPING]);
}

#[test]
fn a_group_of_three_versions_agrees(rt: HostRuntime) {
    play_each(&rt, rt.alloc(), &[THREE_VERSIONS]);
}

#[test]
fn a_failed_member_hears_it_by_an_ack(rt: HostRuntime) {
    play_each(&rt, rt.alloc(), &[HEARS_BY_AN_ACK]);
}
