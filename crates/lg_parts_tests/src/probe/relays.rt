//! Relays: who asked for them, and how they end.
use lg_probe::{Asker, MAX_RELAYS, Relays};
use lg_testing::local;
use lg_testing::says::{Member, named};

/// The asker `a` at port 7000, by its probe numbered 9.
fn asker() -> Asker {
    Asker {
        name: named("a"),
        addr: local(7000),
        number: 9,
    }
}

/// Opens a relay for the asker, if there is room and no relay with its number is open.
fn open(relays: &mut Relays, number: u32, target: Member) -> bool {
    let is_free = relays.len() < MAX_RELAYS && relays.get(number).is_none();
    if is_free {
        relays.add(number, &named(target), asker());
    }
    is_free
}

/// Something that happens to relays, or that is asked of them.
#[derive(Clone, Copy)]
enum Relayed {
    /// A relay with a number, for a target, finds room or doesn't.
    Opens(u32, Member, bool),
    /// How many are open.
    Counts(usize),
    /// Whether a relay with this number is open.
    Has(u32, bool),
    /// An Ack of a member is passed on, or isn't.
    Acks(u32, Member, bool),
    /// The relay with a number is closed, or there is none.
    Closes(u32, bool),
}

/// Plays a step. Returns whether it went as the step says.
fn relays_as(step: &Relayed, relays: &mut Relays) -> bool {
    match *step {
        Relayed::Opens(number, target, opened) => open(relays, number, target) == opened,
        Relayed::Counts(count) => relays.len() == count,
        Relayed::Has(number, is_open) => relays.get(number) == is_open.then_some(asker()),
        Relayed::Acks(number, sender, passed) => {
            relays.ack(number, &named(sender)) == passed.then_some(asker())
        }
        Relayed::Closes(number, closed) => relays.close(number) == closed,
    }
}

/// 64 relays are open, and there is no room for a 65th.
const FULL: &[Relayed] = &[
    Relayed::Counts(64),
    Relayed::Has(65, false),
    Relayed::Has(64, true),
    Relayed::Acks(64, "d", false),
    Relayed::Acks(64, "c", true),
    Relayed::Acks(64, "c", false),
    Relayed::Closes(1, true),
    Relayed::Closes(1, false),
    Relayed::Counts(62),
    Relayed::Opens(66, "d", true),
    Relayed::Opens(66, "d", false),
];

#[test]
fn relays_end(rt: HostRuntime) {
    let mut relays = Relays::new();
    for number in 1..66 {
        let opened = open(&mut relays, number, "c");
        assert!(rt; opened == (number < 65), "relay {number}");
    }
    for (number, step) in FULL.iter().enumerate() {
        assert!(rt; relays_as(step, &mut relays), "step {number}: {relays:?}");
    }
}
