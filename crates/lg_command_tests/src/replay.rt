//! What of a recording `replay` is to tell.
use crate::streams::Streams;
use lg_commands::part_to_replay;
use lg_testing::name;
use lg_timing::Moment;

/// The texts of a command line, and what of a recording they ask for.
#[test]
fn parts(rt: HostRuntime) {
    let (from, to) = (Moment::new(7), Moment::new(5));
    let (from, to) = (from.unwrap_or_default(), to.unwrap_or_default());
    for (only, wanted) in [(None, None), (Some("b"), Some(name(b"b")))] {
        let mut streams = Streams::over(b"");
        let part = part_to_replay("/var/lib/lg", from, to, only, &mut streams.faults);
        let met = part.as_ref().is_ok_and(|part| {
            part.folder.as_str() == "/var/lib/lg"
                && (part.from, part.to) == (from, to)
                && part.only == wanted
        });
        assert!(rt; met && streams.faults.has(b""), "{only:?}");
    }
}

/// A text that is bad is told, the folder before the name. A line that isn't taken is dropped.
#[test]
fn bad_parts(rt: HostRuntime) {
    let rows = [
        ("", None, "lg: bad folder\n"),
        ("a\n", Some("b"), "lg: bad folder\n"),
        ("", Some("a/b"), "lg: bad folder\n"),
        ("a", Some("a/b"), "lg: bad names\n"),
        ("a", Some(""), "lg: bad names\n"),
    ];
    for row in rows {
        let (folder, only, line) = row;
        for fails_at in [0, 1] {
            let mut streams = Streams::over(b"");
            streams.faults.fails_at = fails_at;
            let moment = Moment::default();
            let part = part_to_replay(folder, moment, moment, only, &mut streams.faults);
            let told = if fails_at == 0 { line.as_bytes() } else { b"" };
            let met = matches!(part, Err(3)) && streams.faults.has(told);
            assert!(rt; met, "{row:?}, {fails_at}");
        }
    }
}
