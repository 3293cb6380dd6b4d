//! Which claims a packet takes, and how often.
use arrayvec::ArrayVec;
use lg_gossip::{MAX_QUEUED, Queue};
use lg_rules::{Claim, Version};
use lg_testing::says::far;
use lg_testing::{alive, letter, suspect};
use std::process::Abort;

/// A claim at port 7 of ::1.
fn moved_far(claim: Claim) -> Claim {
    Claim {
        addr: far(),
        ..claim
    }
}

/// The claim of a letter. `c` is that `a` suspects `c` at 2, and `C` is that `b` does. `0` and `1` are that `c` is
/// alive at that number. `F` is that `f` is alive at 0, and `S` that `a` suspects `s` at 2, both at an address of
/// sixteen bytes. Any other letter is that its member is alive at 0.
fn claim_of(byte: u8) -> Claim {
    match byte {
        b'F' => moved_far(alive(b'f', 0)),
        b'S' => moved_far(suspect(b's', 2, b'a')),
        b'c' => suspect(b'c', 2, b'a'),
        b'C' => suspect(b'c', 2, b'b'),
        b'0' => alive(b'c', 0),
        b'1' => alive(b'c', 1),
        _ => alive(byte, 0),
    }
}

/// Whether these are the claims of some letters.
fn are_claims(claims: &[Claim], letters: &[u8]) -> bool {
    for (claim, byte) in claims.iter().zip(letters) {
        if *claim != claim_of(*byte) {
            return false;
        }
    }
    claims.len() == letters.len()
}

/// Whether a queue has the claims of these letters with these sends.
fn has_queued(queue: &Queue, letters: &[u8], sends: &[u32]) -> bool {
    let rows = queue.queued();
    if [rows.len(); 2] != [letters.len(), sends.len()] {
        return false;
    }
    for (index, (byte, sends)) in letters.iter().zip(sends).enumerate() {
        let Some(row) = rows.get(index) else {
            return false;
        };
        if row.claim != claim_of(*byte) || row.sends != *sends {
            return false;
        }
    }
    true
}

/// Puts a claim, if there is room.
fn put_one(queue: &mut Queue, claim: Claim) {
    if queue.queued().len() < MAX_QUEUED {
        queue.put(claim);
    }
}

/// Puts claims, if there is room.
fn put(queue: &mut Queue, letters: &[u8]) {
    for byte in letters {
        put_one(queue, claim_of(*byte));
    }
}

/// One packet of a play: what is put before it, the record that is to stand first, if there is one, how many members
/// are live, and its claims. Then the queue with the sends.
type Turn = (
    &'static [u8],
    Option<u8>,
    usize,
    &'static [u8],
    &'static [u8],
    &'static [u32],
);

/// The buddy comes first and isn't counted, and the queue's claim about its member is passed over. What is queued
/// about that member may differ from its record. The record may have any status: whoever fills the packet chooses it.
/// Each claim is sent at most 4 times for a digit.
const BUDDY: &[Turn] = &[
    (b"cd", Some(b'c'), 9, b"cd", b"cd", &[0, 1]),
    (b"", None, 9, b"cd", b"cd", &[1, 2]),
    (b"", Some(b'c'), 9, b"cd", b"cd", &[1, 3]),
    (b"", Some(b'c'), 9, b"cd", b"cd", &[1, 4]),
    (b"", None, 9, b"c", b"cd", &[2, 4]),
    (b"", Some(b'C'), 99, b"Cd", b"cd", &[2, 5]),
    (b"", Some(b'0'), 99, b"0d", b"cd", &[2, 6]),
];

/// The sends of a claim that is never sent, since the version can't tell its address: as many as any claim may have.
const NEVER: u32 = 200;

/// Six claims: those that were sent fewer times come first, then the names decide. Beside a buddy there are five.
const SIX_WITH_BUDDY: &[Turn] = &[
    (
        b"jeigdhf",
        Some(b'c'),
        9,
        b"cdefgh",
        b"defghij",
        &[1, 1, 1, 1, 1, 0, 0],
    ),
    (b"", None, 9, b"ijdefg", b"defghij", &[2, 2, 2, 2, 1, 1, 1]),
];

const SIX: &[Turn] = &[
    (
        b"jeigdhf",
        None,
        9,
        b"defghi",
        b"defghij",
        &[1, 1, 1, 1, 1, 1, 0],
    ),
    (b"", None, 9, b"jdefgh", b"defghij", &[2, 2, 2, 2, 2, 1, 1]),
];

/// A claim replaces an older one about its member, and has no sends.
const PUT_AGAIN: &[Turn] = &[
    (b"d0", None, 1, b"0d", b"0d", &[1, 1]),
    (b"1", None, 1, b"1d", b"1d", &[1, 2]),
];

/// Thirteen claims in a version with room for twelve, and then for eleven beside a buddy.
const TWELVE: &[Turn] = &[
    (
        b"pondefghijklm",
        None,
        9,
        b"defghijklmno",
        b"defghijklmnop",
        &[1, 1, 1, 1, 1, 1, 1, 1, 1, 1, 1, 1, 0],
    ),
    (
        b"",
        Some(b'c'),
        9,
        b"cpdefghijklm",
        b"defghijklmnop",
        &[2, 2, 2, 2, 2, 2, 2, 2, 2, 2, 1, 1, 1],
    ),
];

/// An address of sixteen bytes, in a version that can't tell it. The claim takes no place beside six others, and its
/// sends stay. No record at such an address is a buddy.
const UNTOLD: &[Turn] = &[
    (
        b"adeFghi",
        None,
        9,
        b"adeghi",
        b"adeFghi",
        &[1, 1, 1, NEVER, 1, 1, 1],
    ),
    (
        b"",
        Some(b'S'),
        9,
        b"adeghi",
        b"adeFghi",
        &[2, 2, 2, NEVER, 2, 2, 2],
    ),
    (
        b"S",
        None,
        999,
        b"adeghi",
        b"adeFghiS",
        &[3, 3, 3, NEVER, 3, 3, 3, NEVER],
    ),
];

/// The same in a version that tells it.
const TOLD: &[Turn] = &[
    (b"adF", None, 9, b"adF", b"adF", &[1, 1, 1]),
    (b"", Some(b'S'), 9, b"SadF", b"adF", &[2, 2, 2]),
];

/// The versions with room for six claims, and the one with room for twelve.
const OLD: &[Version] = &[Version::One, Version::Two];

const NEW: &[Version] = &[Version::Three];

const EACH: &[Version] = &[Version::One, Version::Two, Version::Three];

/// Some plays, with the versions of the queues in which they go this way.
const PLAYS: &[(&[Version], &[Turn])] = &[
    (EACH, BUDDY),
    (OLD, SIX_WITH_BUDDY),
    (OLD, SIX),
    (EACH, PUT_AGAIN),
    (NEW, TWELVE),
    (OLD, UNTOLD),
    (NEW, TOLD),
];

/// Plays on an empty queue of a version.
fn play(rt: &impl Abort, version: Version, turns: &[Turn]) {
    let mut queue = Queue::new(4, version);
    let mut claims = ArrayVec::new();
    for (letters, to, live, want, rows, sends) in turns {
        put(&mut queue, letters);
        let to = to.map(claim_of);
        queue.fill_into(to.as_ref(), *live, &mut claims);
        let taken = are_claims(&claims, want);
        assert!(rt;
            taken & has_queued(&queue, rows, sends),
            "{want:?} of {rows:?}"
        );
    }
}

/// The claims of the packets of some plays. Each play begins with an empty queue.
#[test]
fn fills_packets(rt: HostRuntime) {
    for (versions, turns) in PLAYS {
        for version in *versions {
            play(&rt, *version, turns);
        }
    }
}

/// A claim that was put has no sends. Of two that were put, the names give the order.
#[test]
fn puts_with_no_sends(rt: HostRuntime) {
    let mut queue = Queue::new(4, Version::One);
    put(&mut queue, b"d0");
    assert!(rt; has_queued(&queue, b"0d", &[0, 0]));
}

/// Whether a queue says that its only claim, which is about `c`, may still be sent among a number of members, and that
/// none about `d` may.
fn has_news_of_c(queue: &Queue, live: usize) -> bool {
    queue.has_news(live)
        && queue.may_send(&letter(b'c'), live)
        && !queue.may_send(&letter(b'd'), live)
}

/// Whether a queue says that no claim may be sent any more.
fn has_no_news(queue: &Queue, live: usize) -> bool {
    !queue.has_news(live) && !queue.may_send(&letter(b'c'), live)
}

/// How many packets take the only claim of a queue before one takes none. Before each of them the queue says whether
/// it may be sent.
fn packets_until_none(queue: &mut Queue, live: usize) -> Option<u32> {
    for sent in 0..100 {
        let has_news = has_news_of_c(queue, live);
        if !has_news && !has_no_news(queue, live) {
            return None;
        }
        let claims = queue.fill(None, live);
        if claims.is_empty() == has_news {
            return None;
        }
        if claims.is_empty() {
            return Some(sent);
        }
        if !are_claims(&claims, b"0") {
            return None;
        }
    }
    None
}

/// Whether the queue is new, how many members there are, and how often the claim is sent.
const LIMITS: &[(bool, usize, u32)] = &[
    (true, 9, 4),
    (false, 10, 4),
    (false, 99, 0),
    (false, 100, 4),
    (false, 256, 0),
    (true, 999, 12),
    (true, 1_000, 16),
    (true, usize::MAX, 80),
];

/// An empty queue has no news. What its version can't tell is no news either, among however many members.
#[test]
fn has_news(rt: HostRuntime) {
    let mut queue = Queue::new(4, Version::Two);
    let empty = queue.has_news(usize::MAX);
    put(&mut queue, b"F");
    let untold = queue.has_news(999) || queue.may_send(&letter(b'f'), 999);
    put(&mut queue, b"d");
    let told = queue.has_news(1) && queue.may_send(&letter(b'd'), 1);
    assert_eq!(rt; [empty, untold, told], [false, false, true]);
}

/// How often a claim is sent among a number of members, in a new queue or after what was sent before.
#[test]
fn sends_up_to_the_limit(rt: HostRuntime) {
    let mut queue = Queue::new(4, Version::One);
    for (is_new, live, sends) in LIMITS {
        if *is_new {
            queue = Queue::new(4, Version::One);
            put(&mut queue, b"0");
        }
        let sent = packets_until_none(&mut queue, *live);
        assert!(rt; sent == Some(*sends), "among {live}: {sent:?}");
    }
}

/// How many members there are, and how often a claim is sent among them.
const ENDS: &[(usize, u32)] = &[(9, 4), (999, 12), (usize::MAX, 80)];

/// A queue whose only claim, about `c`, was sent so often, by packets with this buddy or with none.
fn sent_out(live: usize, sends: u32, buddy: Option<&Claim>) -> Queue {
    let mut queue = Queue::new(4, Version::One);
    put(&mut queue, b"0");
    for _ in 0..sends {
        queue.fill(buddy, live);
    }
    queue
}

/// Whether the next packet has the claims of these letters, and `c` was sent so often and `d` once then.
fn takes_d_alone(
    queue: &mut Queue,
    live: usize,
    sends: u32,
    buddy: Option<&Claim>,
    letters: &[u8],
) -> bool {
    let claims = queue.fill(buddy, live);
    are_claims(&claims, letters) && has_queued(queue, b"0d", &[sends, 1])
}

/// Once a claim was sent as often as it may be, there is no news, and the next packets take only what is put then. So
/// do those of a copy. If each packet had a buddy, the queue knows of no number that all claims were sent at least.
#[test]
fn sends_no_more(rt: HostRuntime) {
    let e = alive(b'e', 0);
    for (live, sends) in ENDS {
        for (buddy, letters) in [(None, b"d".as_slice()), (Some(&e), b"ed")] {
            let mut queue = sent_out(*live, *sends, buddy);
            let has_ended = has_no_news(&queue, *live);
            put(&mut queue, b"d");
            let mut copy = Queue::new(1, Version::One);
            queue.copy_into(&mut copy);
            let met = has_ended
                && takes_d_alone(&mut queue, *live, *sends, buddy, letters)
                && takes_d_alone(&mut copy, *live, *sends, buddy, letters);
            assert!(rt; met, "{letters:?} among {live}: {queue:?}, {copy:?}");
        }
    }
}

/// A queue that starts over is empty, and has another version.
#[test]
fn starts_over(rt: HostRuntime) {
    let mut queue = Queue::new(4, Version::One);
    put(&mut queue, b"F0");
    queue.restart(1, Version::Three);
    let was_empty = has_queued(&queue, b"", &[]);
    put(&mut queue, b"F");
    let first = queue.fill(None, 9);
    let second = queue.fill(None, 9);
    let taken = are_claims(&first, b"F") && second.is_empty();
    assert!(rt; was_empty && taken, "{first:?}, {second:?}");
}
