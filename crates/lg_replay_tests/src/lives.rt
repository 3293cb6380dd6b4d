//! What is told of lives: as they were recorded, changed, cut off, and with files missing.

use crate::making::{ASKED, EVENTS, HEALTH, HEARD, IDLE, OPENED, all, file, joined, replayed};
use lg_replay::ReplayEnd;
use std::alloc::Global;
use std::test::Fail;

/// The line of the first file of a life that is the first file of all.
const FIRST: &str = "file 0 of a first 0 moment 7 begun 1764525600000\n";

/// A file from one event to before another, of which the last bytes are missing.
fn cut(alloc: Global, from: usize, missing: usize) -> Result<Vec<u8>, Fail> {
    let mut bytes = file(alloc, from, EVENTS, None)?;
    bytes.truncate(bytes.len().saturating_sub(missing));
    Ok(bytes)
}

/// Some files.
fn files<const N: usize>(alloc: Global, each: [Vec<u8>; N]) -> Result<Vec<Vec<u8>>, Fail> {
    let mut all = Vec::new(alloc);
    for bytes in each {
        all.push(bytes)?;
    }
    Ok(all)
}

/// How some files are told, and how that ends.
fn tells(
    alloc: Global,
    recorded: &[Vec<u8>],
    parts: &[&str],
    due_end: ReplayEnd,
) -> Result<bool, Fail> {
    let (text, end) = replayed(alloc, recorded, &all())?;
    let due = joined(alloc, parts)?;
    Ok(text.as_slice() == due.as_slice() && end == due_end)
}

#[test]
fn tells_what_was_recorded(rt: HostRuntime) -> Result<(), Fail> {
    let alloc = rt.alloc();
    let recorded = files(alloc, [file(alloc, 0, EVENTS, None)?])?;
    let counts = "entries 6 checked 6 differing 0 unchecked 0\n";
    let parts = [FIRST, OPENED, HEARD, ASKED, HEALTH, IDLE, counts];
    assert!(rt; tells(alloc, &recorded, &parts, ReplayEnd::Done)?);
    Ok(())
}

#[test]
fn tells_two_lives_in_three_files(rt: HostRuntime) -> Result<(), Fail> {
    let alloc = rt.alloc();
    let recorded = files(
        alloc,
        [
            file(alloc, 0, 2, None)?,
            file(alloc, 2, EVENTS, None)?,
            file(alloc, 0, 2, None)?,
        ],
    )?;
    let second = "file 1 of a first 2 moment 7 begun 1764525600000\n";
    let third = "file 2 of a first 0 moment 7 begun 1764525600000\n";
    let counts = "entries 8 checked 8 differing 0 unchecked 0\n";
    let parts = [
        FIRST, OPENED, second, HEARD, ASKED, HEALTH, IDLE, third, OPENED, counts,
    ];
    assert!(rt; tells(alloc, &recorded, &parts, ReplayEnd::Done)?);
    Ok(())
}

#[test]
fn tells_a_reply_that_differs(rt: HostRuntime) -> Result<(), Fail> {
    let alloc = rt.alloc();
    let recorded = files(alloc, [file(alloc, 0, EVENTS, Some(3))?])?;
    let differs = "differs\nrecorded answer b alive 0 127.0.0.1:7002\nrecorded next 77\n";
    let counts = "entries 6 checked 6 differing 1 unchecked 0\n";
    let parts = [FIRST, OPENED, HEARD, ASKED, differs, HEALTH, IDLE, counts];
    assert!(rt; tells(alloc, &recorded, &parts, ReplayEnd::Faulty)?);
    Ok(())
}

#[test]
fn tells_what_was_recorded_where_the_first_file_is_missing(rt: HostRuntime) -> Result<(), Fail> {
    let alloc = rt.alloc();
    let recorded = files(alloc, [file(alloc, 2, EVENTS, Some(5))?])?;
    let first = "file 0 of a first 2 moment 7 begun 1764525600000\nunchecked from entry 2\n";
    let idle = "at 50 tick\nidle\nnext 77\n";
    let counts = "entries 4 checked 0 differing 0 unchecked 4\n";
    let parts = [first, HEARD, ASKED, HEALTH, idle, counts];
    assert!(rt; tells(alloc, &recorded, &parts, ReplayEnd::Unchecked)?);
    Ok(())
}

#[test]
fn tells_where_a_file_breaks_off(rt: HostRuntime) -> Result<(), Fail> {
    let alloc = rt.alloc();
    let torn = "fault short at entry 5\n";
    let counts = "entries 5 checked 5 differing 0 unchecked 0\n";
    let parts = [FIRST, OPENED, HEARD, ASKED, HEALTH, torn, counts];
    for missing in [1, 5, 30] {
        let recorded = files(alloc, [cut(alloc, 0, missing)?])?;
        assert!(rt;
            tells(alloc, &recorded, &parts, ReplayEnd::Done)?,
            "{missing}"
        );
    }
    Ok(())
}

#[test]
fn goes_on_behind_a_file_that_breaks_off(rt: HostRuntime) -> Result<(), Fail> {
    let alloc = rt.alloc();
    let torn = "fault short at entry 5\n";
    // The node went on in another file, and what broke off stands there: nothing is missing, but a file is amiss.
    let recorded = files(alloc, [cut(alloc, 0, 1)?, file(alloc, 5, EVENTS, None)?])?;
    let next = "file 1 of a first 5 moment 7 begun 1764525600000\n";
    let counts = "entries 6 checked 6 differing 0 unchecked 0\n";
    let parts = [
        FIRST, OPENED, HEARD, ASKED, HEALTH, torn, next, IDLE, counts,
    ];
    assert!(rt; tells(alloc, &recorded, &parts, ReplayEnd::Faulty)?);
    // The node was started again.
    let again = files(alloc, [cut(alloc, 0, 1)?, file(alloc, 0, 2, None)?])?;
    let begun = "file 1 of a first 0 moment 7 begun 1764525600000\n";
    let all_counts = "entries 7 checked 7 differing 0 unchecked 0\n";
    let whole = [
        FIRST, OPENED, HEARD, ASKED, HEALTH, torn, begun, OPENED, all_counts,
    ];
    assert!(rt; tells(alloc, &again, &whole, ReplayEnd::Done)?);
    Ok(())
}

#[test]
fn tells_faults_of_files(rt: HostRuntime) -> Result<(), Fail> {
    let alloc = rt.alloc();
    let mut changed = file(alloc, 0, 2, None)?;
    if let Some(last) = changed.pop() {
        changed.push(last ^ 1)?;
    }
    let recorded = files(
        alloc,
        [b"LGX".to_vec(alloc)?, b"LGR\x02".to_vec(alloc)?, changed],
    )?;
    let heads =
        "file 0 fault magic\nfile 1 fault version\nfile 2 of a first 0 moment 7 begun 1764525600000\n";
    let opened = "at 0 open a 127.0.0.1:7001\nnext 0\nfault check at entry 1\n";
    let counts = "entries 1 checked 1 differing 0 unchecked 0\n";
    assert!(rt;
        tells(
            alloc,
            &recorded,
            &[heads, opened, counts],
            ReplayEnd::Faulty
        )?
    );
    Ok(())
}

#[test]
fn knows_nothing_behind_an_event_that_is_not_accepted(rt: HostRuntime) -> Result<(), Fail> {
    let alloc = rt.alloc();
    // An opening behind six events: the files of a later life have the number of an earlier one.
    let mut bytes = file(alloc, 0, EVENTS, None)?;
    let opening = file(alloc, 0, 1, None)?;
    let beginning = file(alloc, 0, 0, None)?;
    bytes.extend_from_slice(&opening[beginning.len().min(opening.len())..])?;
    let recorded = files(alloc, [bytes])?;
    let lost = "unchecked from entry 6\nat 0 open a 127.0.0.1:7001\nnext 0\n";
    let counts = "entries 7 checked 6 differing 0 unchecked 1\n";
    let parts = [FIRST, OPENED, HEARD, ASKED, HEALTH, IDLE, lost, counts];
    assert!(rt; tells(alloc, &recorded, &parts, ReplayEnd::Unchecked)?);
    Ok(())
}

#[test]
fn tells_nothing_of_no_files(rt: HostRuntime) -> Result<(), Fail> {
    let alloc = rt.alloc();
    let counts = "entries 0 checked 0 differing 0 unchecked 0\n";
    assert!(rt; tells(alloc, &[], &[counts], ReplayEnd::Done)?);
    Ok(())
}
