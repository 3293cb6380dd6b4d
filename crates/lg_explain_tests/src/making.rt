//! Accounts that are made by hand: of `c`, as the node `b` has them.

use arrayvec::ArrayVec;
use lg_accounts::{Account, Helper, Note, NoteStep};
use lg_rules::{Addr, Claim, Name, Status};
use lg_testing::{at, incarnation, letter, local};
use std::alloc::Global;
use std::test::Fail;

/// The wall time at the moment 0 of the accounts: 2026-11-27 03:12:36.980.
const BEGUN: u64 = 1_795_749_156_980;

/// A record of `c`, which is at 127.0.0.1:7103.
pub(crate) fn record(status: Status, number: u32) -> Claim {
    Claim {
        name: letter(b'c'),
        addr: local(7103),
        status,
        incarnation: incarnation(number),
    }
}

/// A record of `c`, which a member suspects.
pub(crate) fn suspected_by(accuser: u8, number: u32) -> Claim {
    record(Status::Suspect(letter(accuser)), number)
}

/// Whom a PingReq went to.
pub(crate) fn helper(name: Option<u8>, addr: Addr) -> Helper {
    let name = name.map(|byte: u8| letter(byte));
    Helper { addr, name }
}

/// That no Ack came within 500 milliseconds, and who was asked then.
pub(crate) fn unanswered<const N: usize>(helpers: [Helper; N]) -> NoteStep {
    let mut asked = ArrayVec::new();
    for helper in helpers {
        asked.push(helper);
    }
    NoteStep::Unanswered {
        within: 500,
        helpers: asked,
    }
}

/// An entry at a moment.
pub(crate) fn note<const N: usize>(
    alloc: Global,
    entry: u64,
    milliseconds: u64,
    teller: Option<Name>,
    steps: [NoteStep; N],
) -> Result<Note, Fail> {
    Ok(Note {
        entry,
        moment: at(milliseconds),
        wall_ms: BEGUN.saturating_add(milliseconds),
        teller,
        steps: Vec::from_array(alloc, steps)?,
    })
}

/// An account.
pub(crate) fn account<const N: usize>(
    alloc: Global,
    notes: [Note; N],
    is_known: bool,
) -> Result<Account, Fail> {
    Ok(Account {
        notes: Vec::from_array(alloc, notes)?,
        is_known,
    })
}

/// The timeout of a suspicion, if five live members are known and three confirmations count.
fn timeout(confirmations: u64, timeout_ms: u64) -> NoteStep {
    NoteStep::Suspected {
        live: 5,
        confirmations,
        most: 3,
        timeout_ms,
    }
}

/// What the end of a round told.
fn round_ended() -> [NoteStep; 5] {
    [
        NoteStep::RoundEnded { is_failed: true },
        NoteStep::Scored {
            before: 0,
            after: 2,
        },
        NoteStep::Changed {
            record: suspected_by(b'b', 0),
        },
        timeout(0, 20904),
        NoteStep::Minute {
            ended: 0,
            suspected: 0,
            stood_still_ms: 0,
        },
    ]
}

/// How `c` failed.
pub(crate) fn how_it_failed(alloc: Global) -> Result<Account, Fail> {
    let probe = NoteStep::Pinged {
        probe: 7,
        addr: local(7103),
    };
    let helpers = [
        helper(Some(b'a'), local(7101)),
        helper(Some(b'd'), local(7104)),
    ];
    let claim = suspected_by(b'd', 0);
    let failed = record(Status::Failed, 0);
    let (a, d) = (letter(b'a'), letter(b'd'));
    let notes = [
        note(alloc, 57, 1020, None, [probe])?,
        note(alloc, 58, 1520, None, [unanswered(helpers)])?,
        note(alloc, 60, 1905, Some(a), [NoteStep::Nacked { by: a }])?,
        note(alloc, 61, 2020, None, round_ended())?,
        note(
            alloc,
            66,
            2940,
            Some(d),
            [NoteStep::Told { claim }, timeout(1, 12194)],
        )?,
        note(
            alloc,
            90,
            7020,
            None,
            [NoteStep::TimeOver, NoteStep::Changed { record: failed }],
        )?,
    ];
    account(alloc, notes, true)
}

/// How `c` left, of which some of the past is missing.
pub(crate) fn how_it_left(alloc: Global) -> Result<Account, Fail> {
    let left = record(Status::Left, 2);
    let told = [
        NoteStep::Told { claim: left },
        NoteStep::Changed { record: left },
    ];
    let notes = [note(alloc, 4, 9000, Some(letter(b'c')), told)?];
    account(alloc, notes, false)
}
