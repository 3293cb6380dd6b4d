//! Files whose heads are faulty behind the number of the first entry.

use crate::making::{KNOWN, all, put_beginning, replayed};
use lg_replay::ReplayEnd;
use std::alloc::Global;
use std::test::Fail;

/// Whether this is told of a file without entries, whose first one would have this number, and whose head has these
/// bytes behind that.
fn tells(
    alloc: Global,
    first: u64,
    known: &[u8],
    due_line: &str,
    due_end: ReplayEnd,
) -> Result<bool, Fail> {
    let mut bytes = Vec::new(alloc);
    put_beginning(alloc, first, known, &mut bytes)?;
    let mut files = Vec::new(alloc);
    files.push(bytes)?;
    let (text, end) = replayed(alloc, &files, &all())?;
    let counts = "entries 0 checked 0 differing 0 unchecked 0\n";
    let due = format!(in alloc; "file 0 {due_line}\n{counts}")?;
    Ok(text.as_slice() == due.as_bytes() && end == due_end)
}

#[test]
fn tells_faults_of_heads(rt: HostRuntime) -> Result<(), Fail> {
    let alloc = rt.alloc();
    let rows: [(u64, &[u8], &str, ReplayEnd); 8] = [
        // A flag that doesn't fit the number of the first entry.
        (0, b"\x01", "fault count", ReplayEnd::Faulty),
        (2, b"\x00", "fault count", ReplayEnd::Faulty),
        // What was known before is missing, or a part of it. The last file may break off.
        (2, b"\x01", "fault short", ReplayEnd::Done),
        (2, &KNOWN[..7], "fault short", ReplayEnd::Done),
        (2, &KNOWN[..KNOWN.len() - 1], "fault short", ReplayEnd::Done),
        // A table without records.
        (
            2,
            b"\x01\x00\x00\x00\x00\x00\x00\x00",
            "fault count",
            ReplayEnd::Faulty,
        ),
        // A flag that is neither 0 nor 1, and a body that goes on behind its head.
        (0, b"\x02", "fault kind", ReplayEnd::Faulty),
        (0, b"\x00\x00", "fault trailing", ReplayEnd::Faulty),
    ];
    for (first, known, due_line, due_end) in rows {
        assert!(rt;
            tells(alloc, first, known, due_line, due_end)?,
            "{due_line}"
        );
    }
    Ok(())
}

#[test]
fn tells_whole_heads(rt: HostRuntime) -> Result<(), Fail> {
    let alloc = rt.alloc();
    let fresh = "of a first 0 moment 7 begun 1764525600000";
    assert!(rt; tells(alloc, 0, b"\x00", fresh, ReplayEnd::Done)?);
    // No entry is left unchecked, since there is none.
    let later = "of a first 2 moment 7 begun 1764525600000\nunchecked from entry 2";
    assert!(rt; tells(alloc, 2, KNOWN, later, ReplayEnd::Done)?);
    Ok(())
}
