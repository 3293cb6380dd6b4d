//! Ticking loops, of at most a hundred turns each. Each turn ticks, or pauses 20 ms or less.
use super::alone::{BOUND, Calls, Run, Want};
use super::clocks::Pauses;
use super::links::{Call, Spelled};
use super::playing::{Play, told};
use lg_agent_testing::Case;
use lg_node::Why;

/// The first Ping of b, for c.
const PING_OF_C: Call = Call::Send {
    what: Spelled::PingOfC,
    port: 7003,
    sent: true,
};

/// The same, if c is at port 0, which the link refuses.
const REFUSED_PING_OF_C: Call = Call::Send {
    what: Spelled::PingOfC,
    port: 0,
    sent: false,
};

/// A loop that ends after this many turns, of which `count` pause, for `sum` milliseconds in all and 20 at most each,
/// and after this many entries.
fn ended(why: Why, turns: u64, count: u64, sum: u64, entries: u64) -> Want<'static> {
    Want {
        why,
        dropped: 0,
        unsent: 0,
        turns,
        received: 0,
        failures: 0,
        pauses: Pauses {
            count,
            longest: 20,
            sum,
        },
        calls: Calls::Are(&[]),
        entries,
        base: 0,
        rotations: 0,
    }
}

/// The same, if c was pinged.
fn pinged<'a>(want: Want<'a>, calls: &'a [Call]) -> Want<'a> {
    let mut want = want;
    want.calls = Calls::Are(calls);
    want
}

/// The same, if one of three packets wasn't sent.
fn lost<'a>(want: Want<'a>, sent: &'a [bool]) -> Want<'a> {
    let mut want = want;
    want.unsent = 1;
    want.failures = 1;
    want.calls = Calls::Sent(sent);
    want
}

/// The same, if the Ping of c was refused.
fn refused<'a>(want: Want<'a>, calls: &'a [Call]) -> Want<'a> {
    let mut want = pinged(want, calls);
    want.unsent = 1;
    want.failures = 1;
    want
}

/// A loop that knows this many others. Its link fails at the call `fails_at`, counted from 1, or at none if that is 0.
fn knows(until: u64, others: u8, fails_at: u64) -> Case<Play> {
    let mut run = Run::ticking(until);
    run.script.fails_at = fails_at;
    let mut case = run.case();
    case.others = others;
    case
}

/// A loop that knows c at port 0, to which its link can't send.
fn knows_at_port_0(until: u64) -> Case<Play> {
    let mut run = Run::ticking(until);
    run.script.refuses = Some(0);
    let mut case = run.case();
    case.others = 1;
    case.first_port = 0;
    case
}

/// A loop that knows c. It begins at a moment, after a call at 5000.
fn goes_back(now: u64) -> Case<Play> {
    let mut run = Run::ticking(5501);
    run.called_at = Some(5000);
    run.now = now;
    let mut case = run.case();
    case.others = 1;
    case
}

/// A loop whose history has room for the opening and one tick. At the second tick it is rotated.
fn short() -> Case<Play> {
    let mut case = Run::ticking(1010).case();
    case.limit = 2;
    case
}

#[test]
fn ticking_loops(rt: HostRuntime) {
    let stopped = Why::Stopped;
    let ping = [PING_OF_C];
    let refused_ping = [REFUSED_PING_OF_C];
    // A round, and helpers that are due 500 ms later.
    let round = ended(stopped, 28, 26, 501, 3);
    let rows = [
        // Nobody else is known. There are ticks at 0 and 1000, and pauses between and after them.
        ("alone", knows(1010, 0, 0), ended(stopped, 53, 51, 1010, 3)),
        // After a call at 5000 the clock goes back. The round starts at 5000 all the same, so helpers are due at
        // 5500. The last pause before that is shorter if 20 ms don't fit.
        (
            "from 4000",
            goes_back(4000),
            pinged(ended(stopped, 78, 76, 1501, 4), &ping),
        ),
        (
            "from 4008",
            goes_back(4008),
            pinged(ended(stopped, 78, 76, 1493, 4), &ping),
        ),
        ("pings c", knows(501, 1, 0), pinged(round, &ping)),
        (
            "port 0",
            knows_at_port_0(501),
            refused(round, &refused_ping),
        ),
        // A Ping, and half a second later two requests to helpers. One of the three isn't sent, and the others are.
        (
            "1st lost",
            knows(501, 3, 1),
            lost(round, &[false, true, true]),
        ),
        (
            "2nd lost",
            knows(501, 3, 2),
            lost(round, &[true, false, true]),
        ),
        (
            "3rd lost",
            knows(501, 3, 3),
            lost(round, &[true, true, false]),
        ),
        // The moment until which it runs doesn't come.
        (
            "bound",
            knows(1_000_000, 0, 0),
            ended(Why::ReadBound, BOUND, 98, 1960, 3),
        ),
        ("full", short(), ended(stopped, 53, 51, 1010, 3).behind(2)),
    ];
    for (name, case, want) in rows {
        let outcome = told(&rt, rt.alloc(), case);
        let met = outcome.as_ref().is_ok_and(|outcome| want.is(outcome));
        assert!(rt; met, "{name}");
    }
}
