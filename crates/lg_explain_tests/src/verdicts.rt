//! The verdicts of accounts.

use crate::making::{account, how_it_failed, how_it_left, note, record, suspected_by};
use lg_accounts::{MemberVerdict, NoteStep};
use lg_rules::Status;
use lg_testing::{at, letter};
use std::test::Fail;

#[test]
fn finds_the_first_and_the_last(rt: HostRuntime) -> Result<(), Fail> {
    let account = how_it_failed(rt.alloc())?;
    let first = MemberVerdict {
        moment: at(2020),
        wall_ms: 1_795_749_159_000,
        teller: None,
        record_after: suspected_by(b'b', 0),
    };
    let last = MemberVerdict {
        moment: at(7020),
        wall_ms: 1_795_749_164_000,
        teller: None,
        record_after: record(Status::Failed, 0),
    };
    assert_eq!(rt; account.first_verdict(), Some(first));
    assert_eq!(rt; account.verdict(), Some(last));
    Ok(())
}

#[test]
fn finds_the_only_one(rt: HostRuntime) -> Result<(), Fail> {
    let account = how_it_left(rt.alloc())?;
    let only = MemberVerdict {
        moment: at(9000),
        wall_ms: 1_795_749_165_980,
        teller: Some(letter(b'c')),
        record_after: record(Status::Left, 2),
    };
    assert_eq!(rt; account.first_verdict(), Some(only));
    assert_eq!(rt; account.verdict(), Some(only));
    Ok(())
}

#[test]
fn finds_none_that_is_alive(rt: HostRuntime) -> Result<(), Fail> {
    let alloc = rt.alloc();
    let alive = NoteStep::Changed {
        record: record(Status::Alive, 1),
    };
    let account = account(alloc, [note(alloc, 1, 20, None, [alive])?], true)?;
    assert_eq!(rt; account.first_verdict(), None);
    assert_eq!(rt; account.verdict(), None);
    Ok(())
}
