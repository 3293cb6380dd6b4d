//! Who counts as an accuser, and when a suspected member is taken as failed.
ghost use Rattle.std.specs.Prelude.{ℕ};
ghost use Rattle.lg_suspicion.specs.Meaning.Parts.{IsKnownTo, SuspicionParts};
ghost use Rattle.lg_timing.specs.Meaning.Config.{IsChecked};

use lg_rules::{Addr, Members};
use lg_suspicion::{Suspicion, accusers_keep_their_names, deadlines_are_by_the_set};
use lg_testing::{alive, at, letter, numbered};
use lg_timing::Config;

/// What `b` knows if it has heard that these others are alive.
fn knowing(others: &[u8]) -> Members {
    let mut members = Members::new(&letter(b'b'), false);
    for other in others {
        join(&mut members, *other);
    }
    members
}

/// Hears that another member is alive. Each suspicion keeps its accusers.
fn join(members: &mut Members, member: u8)
    ensures { (parts : SuspicionParts) → IsKnownTo members.old.names parts → IsKnownTo members.new.names parts }
{
    accusers_keep_their_names();
    let claim = alive(member, 0);
    if claim.name != members.own() {
        members.hear(&claim);
    }
}

/// The suspicion that `d` raises at 2000.
fn raised_by_d(members: &Members, config: &Config) -> Suspicion
    requires { IsChecked config.now }
    ensures { IsKnownTo members.now.names result }
{
    Suspicion::raise(at(2000), &letter(b'd'), members.live() as u64, config)
}

/// What happens after the raise.
#[derive(Clone, Copy, Debug)]
enum Step {
    /// This one accuses, and whether it counts.
    Accuses(u8, bool),
    /// This one becomes known.
    Joins(u8),
}

/// Does a step, and returns whether its accuser, if it has one, counts as it should.
fn does(step: &Step, suspicion: &mut Suspicion, members: &mut Members) -> bool
    requires { IsKnownTo members.old.names suspicion.old }
    ensures { IsKnownTo members.new.names suspicion.new }
{
    match step {
        Step::Accuses(accuser, counts) => suspicion.accuse(&letter(*accuser), members) == *counts,
        Step::Joins(member) => {
            join(members, *member);
            true
        }
    }
}

/// When a suspicion runs out, by how it stands.
fn runs_out(suspicion: &Suspicion) -> u64 {
    let standing = suspicion.standing();
    standing.raised.milliseconds() + standing.timeout.after(standing.confirmations)
}

/// Whether all these steps do what they should, the deadline of the suspicion then, and the same by how it stands.
fn after_steps(steps: &[Step], suspicion: Suspicion, members: Members) -> (bool, u64, u64)
    requires { IsKnownTo members.names suspicion }
{
    let mut suspicion = suspicion;
    let mut members = members;
    let mut met = true;
    for step in steps {
        met = does(step, &mut suspicion, &mut members) && met;
    }
    (met, suspicion.deadline(), runs_out(&suspicion))
}

/// Whether the suspicion first has one deadline, all the steps do what they should, and it then has another.
fn is_so(case: &Case, config: &Config) -> bool
    requires { IsChecked config.now }
{
    let (others, before, steps, after) = *case;
    let members = knowing(others);
    let suspicion = raised_by_d(&members, config);
    suspicion.deadline() == before && after_steps(steps, suspicion, members) == (true, after, after)
}

/// Whom `b` knows, the first deadline, what happens, and the deadline then.
type Case = (&'static [u8], u64, &'static [Step], u64);

/// A member that accuses already doesn't count again, and among four members nobody confirms.
const MEMBERS: &[Case] = &[
    (
        b"acde",
        32000,
        &[Step::Accuses(b'd', false), Step::Accuses(b'd', false)],
        32000,
    ),
    (
        b"acde",
        32000,
        &[Step::Accuses(b'd', false), Step::Accuses(b'e', true)],
        19500,
    ),
    (
        b"acd",
        7000,
        &[Step::Accuses(b'e', false), Step::Accuses(b'd', false)],
        7000,
    ),
];

/// Neither does a stranger, also if it has become known since. Members and strangers count alike.
const STRANGERS: &[Case] = &[
    (
        b"acfg",
        32000,
        &[
            Step::Accuses(b'e', true),
            Step::Joins(b'e'),
            Step::Accuses(b'e', false),
            Step::Joins(b'd'),
            Step::Accuses(b'd', false),
        ],
        19500,
    ),
    (
        b"acfg",
        32000,
        &[
            Step::Accuses(b'a', true),
            Step::Accuses(b'e', true),
            Step::Accuses(b'a', false),
            Step::Accuses(b'e', false),
            Step::Accuses(b'f', true),
            Step::Accuses(b'g', false),
            Step::Accuses(b'h', false),
        ],
        7000,
    ),
];

/// With five confirmations, six accusers count.
const SIX: &[Case] = &[
    (
        b"acfghij",
        32000,
        &[
            Step::Accuses(b'k', true),
            Step::Accuses(b'l', true),
            Step::Accuses(b'm', true),
            Step::Accuses(b'n', true),
            Step::Accuses(b'd', false),
            Step::Accuses(b'o', true),
            Step::Accuses(b'p', false),
        ],
        7000,
    ),
    (
        b"acfghij",
        32000,
        &[
            Step::Accuses(b'j', true),
            Step::Accuses(b'k', true),
            Step::Accuses(b'i', true),
            Step::Joins(b'k'),
            Step::Accuses(b'k', false),
            Step::Accuses(b'h', true),
            Step::Accuses(b'b', true),
            Step::Accuses(b'g', false),
        ],
        7000,
    ),
];

#[test]
fn another_accuser_confirms(rt: HostRuntime) {
    deadlines_are_by_the_set();
    let config = Config::new(letter(b'b'), Addr::default());
    for case in MEMBERS.iter().chain(STRANGERS) {
        assert!(rt; is_so(case, &config), "{case:?}");
    }
}

#[test]
fn six_accusers_count(rt: HostRuntime) {
    let mut config = Config::new(letter(b'b'), Addr::default());
    config.confirmations = 5;
    if config.check().is_ok() {
        for case in SIX {
            assert!(rt; is_so(case, &config), "{case:?}");
        }
    }
}

/// How many of 299 accusers count.
fn flooded(suspicion: &mut Suspicion, members: &Members) -> u32
    requires { IsKnownTo members.now.names suspicion.old }
{
    let mut counted: u32 = 0;
    for number in 1..300 {
        if suspicion.accuse(&numbered(number), members) {
            counted = counted.saturating_add(1);
        }
    }
    counted
}

/// Of many accusers only four count, and the first is among them.
#[test]
fn a_flood_of_accusers(rt: HostRuntime) {
    let config = Config::new(letter(b'b'), Addr::default());
    let members = knowing(b"acde");
    let mut suspicion = raised_by_d(&members, &config);
    let counted = flooded(&mut suspicion, &members);
    assert_eq!(rt; (counted, suspicion.deadline()), (3, 7000));
    let standing = suspicion.standing();
    assert_eq!(rt;
        (standing.raised.milliseconds(), standing.confirmations),
        (2000, 3)
    );
}
