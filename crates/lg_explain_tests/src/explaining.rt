//! Recordings that are explained: of `a`, whose probe of `b` gets no answer; whole, in two files, with the first file
//! missing, behind another life, and with a clock that stood still.

use lg_accounts::{Account, Note, NoteStep};
use lg_detector::{Detector, Event, Reply};
use lg_explain::{Explainer, MemberQuestion};
use lg_heads::{Before, Head, put_head};
use lg_recording::{EntryBuffers, put_entry};
use lg_testing::{at, letter, local};
use lg_timing::{Config, MAX_MOMENT, Seed};
use std::alloc::Global;
use std::test::Fail;

/// How many events a life has.
pub(crate) const EVENTS: usize = 4;

/// The wall time at the moment 0.
const BEGUN: u64 = 1_764_525_600_000;

/// The configuration of `a`, which knows `b` from the start.
fn config() -> Config {
    let mut config = Config::new(letter(b'a'), local(7001));
    config.seeds.push(Seed {
        name: letter(b'b'),
        addr: local(7002),
    });
    config
}

/// How a life goes: at which moment the round ends, and for how long the clock stood still, as each entry says.
#[derive(Clone, Copy)]
struct Life {
    end: u64,
    stood_still_ms: [u64; EVENTS],
}

/// A life whose clock never stood still.
const STEADY: Life = Life {
    end: 1000,
    stood_still_ms: [0; EVENTS],
};

/// The event with this number of a life: `a` is opened and pings `b`. At 500 there is nobody to ask, and at last the
/// round ends without an Ack, so that `b` is suspected.
fn event(number: usize, end: u64) -> Event {
    let words = [0; 8];
    match number {
        0 => Event::Open {
            now: at(0),
            config: config(),
        },
        1 => Event::Tick { now: at(0), words },
        2 => Event::Tick {
            now: at(500),
            words,
        },
        _ => Event::Tick {
            now: at(end),
            words,
        },
    }
}

/// What is known before the entry with a number.
fn before(alloc: Global, number: usize, detector: &Detector) -> Result<Option<Before>, Fail> {
    if number == 0 {
        return Ok(None);
    }
    Ok(Some(Before {
        standing: detector.standing(),
        table: detector.table(alloc)?,
    }))
}

/// Appends the beginning of a file whose first entry has a number.
fn put_beginning(
    alloc: Global,
    number: usize,
    detector: &Detector,
    out: &mut Vec<u8>,
) -> Result<(), Fail> {
    let head = Head {
        name: letter(b'a'),
        config: config(),
        text: b"",
        program: b"0.10.0",
        wall_ms: BEGUN,
        now: at(0),
        first: number as u64,
        before: before(alloc, number, detector)?,
    };
    put_head(&head, &mut Vec::new(alloc), out)?;
    Ok(())
}

/// A file of the events from one to before another of a life whose clock never stood still.
pub(crate) fn file(alloc: Global, from: usize, to: usize) -> Result<Vec<u8>, Fail> {
    file_of(alloc, &STEADY, from, to)
}

/// A file of the events from one to before another of a life.
fn file_of(alloc: Global, life: &Life, from: usize, to: usize) -> Result<Vec<u8>, Fail> {
    let mut out = Vec::new(alloc);
    let mut detector = Detector::blank(alloc)?;
    let mut buffers = EntryBuffers::new(alloc);
    let mut reply = Reply::default();
    for number in 0..to {
        if number == from {
            put_beginning(alloc, number, &detector, &mut out)?;
        }
        let event = event(number, life.end);
        if detector.accepts(&event) {
            detector.step(&event, &mut reply);
        }
        if number >= from {
            let seat = usize::from(number > 0);
            put_entry(
                seat,
                &event,
                &reply,
                life.stood_still_ms.get(number).copied().unwrap_or(0),
                &mut buffers,
                &mut out,
            )?;
        }
    }
    Ok(out)
}

/// The question for the accounts of `b` up to a moment.
pub(crate) fn question(milliseconds: u64, all: bool) -> MemberQuestion {
    MemberQuestion {
        name: letter(b'b'),
        at: at(milliseconds),
        all,
    }
}

/// The accounts by these files.
fn explained(
    alloc: Global,
    files: &[Vec<u8>],
    question: MemberQuestion,
) -> Result<Vec<Account>, Fail> {
    let mut explainer = Explainer::new(alloc, question)?;
    for bytes in files {
        explainer.take_file(alloc, bytes)?;
    }
    Ok(explainer.finish(alloc)?)
}

/// Whether a note has this number, this moment, and as many steps.
fn is_at(note: &Note, entry: u64, milliseconds: u64, steps: usize) -> bool {
    note.entry == entry
        && note.moment.milliseconds() == milliseconds
        && note.wall_ms == BEGUN.saturating_add(milliseconds)
        && note.steps.len() == steps
}

/// Whether some step of a note says that the round ended without an Ack.
fn has_failed_round(note: &Note) -> bool {
    note.steps.iter().any(|step| matches!(step, NoteStep::RoundEnded { is_failed: true }))
}

/// Whether an account is the one of the whole life: the Ping, that nobody was there to ask, and the suspicion with the
/// score, the timeout and the rounds of the minute before.
fn is_whole(account: &Account) -> bool {
    let [ping, unasked, end] = account.notes.as_slice() else {
        return false;
    };
    account.is_known
        && is_at(ping, 1, 0, 1)
        && is_at(unasked, 2, 500, 1)
        && is_at(end, 3, 1000, 5)
        && has_failed_round(end)
}

/// Whether an account is the one without the first file: that the record of `b` changed.
fn is_rest(account: &Account) -> bool {
    let [end] = account.notes.as_slice() else {
        return false;
    };
    !account.is_known && is_at(end, 3, 1000, 1)
}

#[test]
fn tells_why_a_member_was_suspected(rt: HostRuntime) -> Result<(), Fail> {
    let alloc = rt.alloc();
    let files = [file(alloc, 0, EVENTS)?];
    let accounts = explained(alloc, &files, question(MAX_MOMENT, false))?;
    assert!(rt; accounts.len() == 1 && accounts.iter().all(|account| is_whole(account)));
    Ok(())
}

/// What the notes of some accounts say of how long the clock stood still.
fn stood_still(accounts: &[Account]) -> Option<u64> {
    let mut told = None;
    for note in accounts.first()?.notes.iter() {
        if let Some(NoteStep::Minute { stood_still_ms, .. }) = note.steps.last() {
            told = Some(*stood_still_ms);
        }
    }
    told
}

#[test]
fn tells_for_how_long_the_clock_stood_still(rt: HostRuntime) -> Result<(), Fail> {
    let alloc = rt.alloc();
    let most = u64::MAX;
    let rows = [
        (1000, [0, 0, 0, 0], 0),
        (1000, [1, 20, 300, 4000], 4321),
        (59_999, [1, 20, 300, 4000], 4321),
        (60_000, [1, 20, 300, 4000], 4300),
        (60_499, [1, 20, 300, 4000], 4300),
        (60_500, [1, 20, 300, 4000], 4000),
        (1000, [0, 0, most, 1], most),
        (1000, [0, 1, 0, most], most),
    ];
    for (end, stood_still_ms, due) in rows {
        let life = Life {
            end,
            stood_still_ms,
        };
        let parts = [
            file_of(alloc, &life, 0, 2)?,
            file_of(alloc, &life, 2, EVENTS)?,
        ];
        let accounts = explained(alloc, &parts, question(MAX_MOMENT, false))?;
        assert!(rt; stood_still(&accounts) == Some(due));
    }
    Ok(())
}

#[test]
fn goes_on_with_a_second_file(rt: HostRuntime) -> Result<(), Fail> {
    let alloc = rt.alloc();
    let files = [file(alloc, 0, 2)?, file(alloc, 2, EVENTS)?];
    let accounts = explained(alloc, &files, question(MAX_MOMENT, false))?;
    assert!(rt; accounts.len() == 1 && accounts.iter().all(|account| is_whole(account)));
    Ok(())
}

#[test]
fn tells_less_where_the_first_file_is_missing(rt: HostRuntime) -> Result<(), Fail> {
    let alloc = rt.alloc();
    let files = [file(alloc, 2, EVENTS)?];
    let accounts = explained(alloc, &files, question(MAX_MOMENT, false))?;
    assert!(rt; accounts.len() == 1 && accounts.iter().all(|account| is_rest(account)));
    Ok(())
}

#[test]
fn tells_nothing_of_a_later_verdict(rt: HostRuntime) -> Result<(), Fail> {
    let alloc = rt.alloc();
    let files = [file(alloc, 0, EVENTS)?];
    let late = explained(alloc, &files, question(999, true))?;
    let timely = explained(alloc, &files, question(1000, true))?;
    assert!(rt; late.is_empty() && timely.len() == 1);
    Ok(())
}

#[test]
fn tells_of_each_life_or_of_the_last_one(rt: HostRuntime) -> Result<(), Fail> {
    let alloc = rt.alloc();
    let twice = [file(alloc, 0, EVENTS)?, file(alloc, 0, EVENTS)?];
    let all = explained(alloc, &twice, question(MAX_MOMENT, true))?;
    assert!(rt; all.len() == 2 && all.iter().all(|account| is_whole(account)));
    let again = [file(alloc, 0, EVENTS)?, file(alloc, 2, EVENTS)?];
    let last = explained(alloc, &again, question(MAX_MOMENT, false))?;
    assert!(rt; last.len() == 1 && last.iter().all(|account| is_rest(account)));
    Ok(())
}

#[test]
fn passes_over_a_file_without_a_head(rt: HostRuntime) -> Result<(), Fail> {
    let alloc = rt.alloc();
    let torn = Vec::from_slice(alloc, b"LGR")?;
    let files = [file(alloc, 0, 2)?, torn, file(alloc, 2, EVENTS)?];
    let accounts = explained(alloc, &files, question(MAX_MOMENT, false))?;
    assert!(rt; accounts.len() == 1 && accounts.iter().all(|account| is_whole(account)));
    Ok(())
}
