//! Receiving loops, of at most a hundred turns each.
use super::alone::{BOUND, Calls, Run, Want};
use super::clocks::Pauses;
use super::links::{Call, Coming, QUIET, Script, Spelled};
use super::playing::told;
use lg_node::Why;

/// A turn waits 20 ms for a datagram.
const RECEIVE: Call = Call::Receive { limit_ms: 20 };

/// An Ack for a at port 7001.
const fn ack(what: Spelled, sent: bool) -> Call {
    Call::Send {
        what,
        port: 7001,
        sent,
    }
}

/// A link over which this comes, and which tells the loop to stop at one of its receivings.
const fn comes(first: Coming, second: Coming, third: Coming, stops_at: u64) -> Script {
    Script {
        first,
        second,
        third,
        stops_at,
        fails_at: 0,
        refuses: None,
    }
}

/// Two Pings; at the second the loop is told to stop. One call fails, counted from 1.
fn two_pings(fails_at: u64) -> Script {
    let mut script = comes(Coming::Ping7, Coming::Ping8, Coming::Nothing, 2);
    script.fails_at = fails_at;
    script
}

/// A loop that ends after this many turns, each of which receives.
fn ended(why: Why, turns: u64, calls: &[Call], entries: u64) -> Want<'_> {
    Want {
        why,
        dropped: 0,
        unsent: 0,
        turns,
        received: turns,
        failures: 0,
        pauses: Pauses {
            count: 0,
            longest: 0,
            sum: 0,
        },
        calls: Calls::Are(calls),
        entries,
        base: 0,
        rotations: 0,
    }
}

/// The same, if one call failed: a receiving, or a packet that wasn't sent.
fn failed(why: Why, turns: u64, unsent: u64, calls: &[Call], entries: u64) -> Want<'_> {
    let mut want = ended(why, turns, calls, entries);
    want.unsent = unsent;
    want.failures = 1;
    want
}

#[test]
fn receiving_loops(rt: HostRuntime) {
    let (stopped, lost) = (Why::Stopped, Why::LinkFailed);
    let (yes_7, no_7) = (ack(Spelled::Ack7, true), ack(Spelled::Ack7, false));
    let (yes_8, no_8) = (ack(Spelled::Ack8, true), ack(Spelled::Ack8, false));
    // A quiet turn, a datagram that is no packet, and a Ping, at which the loop is told to stop.
    let third_ping = comes(Coming::Nothing, Coming::OneByte, Coming::Ping7, 3);
    let answers = [RECEIVE, RECEIVE, RECEIVE, yes_7];
    let mut answered = ended(stopped, 3, &answers, 2);
    answered.dropped = 1;
    // Two datagrams that are no packets, the first of which is empty.
    let after_two = comes(Coming::Empty, Coming::OneByte, Coming::Ping7, 3);
    let mut dropped_two = ended(stopped, 3, &answers, 2);
    dropped_two.dropped = 2;
    // Each call of the link fails in turn: two receivings, and the Ack after each. The Ack after one that wasn't sent
    // is handed over.
    let first = [RECEIVE];
    let second = [RECEIVE, no_7, RECEIVE, yes_8];
    let third = [RECEIVE, yes_7, RECEIVE];
    let fourth = [RECEIVE, yes_7, RECEIVE, no_8];
    // A claim ousts the member. The packets of the reply that says so are handed over first.
    let ousting = comes(Coming::OustingPing, Coming::Ping8, Coming::Nothing, 0);
    let last_ack = [RECEIVE, yes_7];
    // The history has room for the opening and one Ping. At the second Ping it is rotated.
    let both = [RECEIVE, yes_7, RECEIVE, yes_8];
    let quiet = [RECEIVE; 16];
    let rows = [
        ("answers", 20_000, third_ping, answered),
        ("empty", 20_000, after_two, dropped_two),
        ("1st", 20_000, two_pings(1), failed(lost, 1, 0, &first, 1)),
        (
            "2nd",
            20_000,
            two_pings(2),
            failed(stopped, 2, 1, &second, 3),
        ),
        ("3rd", 20_000, two_pings(3), failed(lost, 2, 0, &third, 2)),
        (
            "4th",
            20_000,
            two_pings(4),
            failed(stopped, 2, 1, &fourth, 3),
        ),
        (
            "bound",
            20_000,
            QUIET,
            ended(Why::ReadBound, BOUND, &quiet, 1),
        ),
        (
            "ousted",
            20_000,
            ousting,
            ended(Why::Ousted, 1, &last_ack, 2),
        ),
        (
            "full",
            2,
            two_pings(0),
            ended(stopped, 2, &both, 3).behind(2),
        ),
    ];
    for (name, limit, script, want) in rows {
        let mut case = Run::receiving(script).case();
        case.limit = limit;
        let outcome = told(&rt, rt.alloc(), case);
        let met = outcome.as_ref().is_ok_and(|outcome| want.is(outcome));
        assert!(rt; met, "{name}");
    }
}
