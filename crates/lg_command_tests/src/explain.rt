//! What of a recording `explain` is to tell.
use crate::streams::Streams;
use lg_commands::part_to_explain;
use lg_testing::name;
use lg_timing::Moment;

/// The texts of a command line, and what of a recording they ask for.
#[test]
fn parts(rt: HostRuntime) {
    let at = Moment::new(7).unwrap_or_default();
    for all in [false, true] {
        let mut streams = Streams::over(b"");
        let part = part_to_explain("/var/lib/lg", "b", at, all, &mut streams.faults);
        let met = part.as_ref().is_ok_and(|part| {
            part.folder.as_str() == "/var/lib/lg"
                && part.name == name(b"b")
                && (part.at, part.all) == (at, all)
        });
        assert!(rt; met && streams.faults.has(b""), "{all}");
    }
}

/// A text that is bad is told, the folder before the name. A line that isn't taken is dropped.
#[test]
fn bad_parts(rt: HostRuntime) {
    let rows = [
        ("", "b", "lg: bad folder\n"),
        ("a\n", "b", "lg: bad folder\n"),
        ("", "a/b", "lg: bad folder\n"),
        ("a", "a/b", "lg: bad names\n"),
        ("a", "", "lg: bad names\n"),
    ];
    for row in rows {
        let (folder, member, line) = row;
        for fails_at in [0, 1] {
            let mut streams = Streams::over(b"");
            streams.faults.fails_at = fails_at;
            let part = part_to_explain(
                folder,
                member,
                Moment::default(),
                true,
                &mut streams.faults,
            );
            let told = if fails_at == 0 { line.as_bytes() } else { b"" };
            let met = matches!(part, Err(3)) && streams.faults.has(told);
            assert!(rt; met, "{row:?}, {fails_at}");
        }
    }
}
