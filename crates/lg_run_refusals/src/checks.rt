//! Checks of files, over writers that fail and while memory is refused.
use lg_config::Source;
use lg_run::{check_bytes, check_source};
use lg_testing::Room;
use std::alloc::Global;
use std::rt::Files;

/// What is checked; which call of the output fails, counted from 1, or 0 if none does; then the status, what is written
/// and what is told.
type Row = (&'static str, usize, u8, &'static str, &'static str);

/// What is told if the text can't be written.
const UNWRITTEN: &str = "lg: write\nstandard output can't be written: nobody reads it\n";

/// The texts of files. A good file whose output fails at its first byte, at a later one, and after 21 bytes. Files with
/// faults, each told by its number and in words.
const ROWS: [Row; 6] = [
    ("name = \"b\"", 1, 1, "", UNWRITTEN),
    ("name = \"b\"", 4, 1, "nam", UNWRITTEN),
    ("name = \"b\"", 22, 1, "name = b\naddress = 12", UNWRITTEN),
    (
        "name = \"b\"\ntimeout_ms = 5000",
        0,
        3,
        "",
        "lg: config 2\ntimeout_ms is 5000, and has to be from 1 to 999\n",
    ),
    (
        "name = \"b\"\n\nport = 9223372036854775808",
        0,
        3,
        "",
        "lg: config 12\nline 3 is no TOML: number out of range\n",
    ),
    (
        "name = \"b\"\nstall_ms = -1",
        0,
        3,
        "",
        "lg: config 17\nstall_ms is -1, and has to be from 0 to 60000\n",
    ),
];

/// What came of a check.
#[derive(Drop)]
struct Outcome {
    status: u8,
    writer: Room,
    faults: Room,
}

impl Outcome {
    /// Whether a check ended with this status, and wrote and told this.
    fn is(&self, status: u8, written: &str, told: &str) -> bool {
        self.status == status
            && self.writer.has(written.as_bytes())
            && self.faults.has(told.as_bytes())
    }
}

/// Checks a text over an output whose call with this number fails.
fn check(alloc: Global, text: &str, fails_at: usize) -> Outcome {
    let (mut writer, mut faults) = (Room::failing(fails_at), Room::failing(0));
    let status = check_bytes(alloc, text.as_bytes(), &[], &mut writer, &mut faults);
    Outcome {
        status,
        writer,
        faults,
    }
}

/// The first line of what is told, with its newline.
fn first_line(told: &str) -> &str {
    match told.find('\n') {
        Some(at) => told.get(..=at).unwrap_or(told),
        None => told,
    }
}

/// Each check ends as it should. If memory is refused, that is told and nothing is written, or the line in words is
/// missing. The next check goes well.
#[test]
fn refused_memory(rt: HostRuntime) {
    for row in ROWS {
        let (text, fails_at, status, written, told) = row;
        let mut outcome = check(rt.alloc(), text, fails_at);
        let is_refused = outcome.is(1, "", "lg: memory\n")
            || outcome.is(status, "", first_line(told));
        if is_refused && !outcome.is(status, written, told) {
            outcome = check(rt.alloc(), text, fails_at);
        }
        assert!(rt;
            outcome.is(status, written, told),
            "{row:?}: {}",
            outcome.status
        );
    }
}

/// Checks a file, if one is named.
fn check_path<R: Files>(rt: &R, alloc: Global, file: Option<&str>) -> Outcome {
    let (mut writer, mut faults) = (Room::failing(0), Room::failing(0));
    let source = Source { file, given: &[] };
    let status = check_source(rt, alloc, source, &mut writer, &mut faults);
    Outcome {
        status,
        writer,
        faults,
    }
}

/// Files that can't be read, one that is empty, and no file.
const FILES: [(Option<&str>, u8, &str); 4] = [
    (
        Some("/nowhere/b.toml"),
        1,
        "lg: read\nthe file /nowhere/b.toml can't be read: there is no such file\n",
    ),
    (
        Some("/"),
        1,
        "lg: read\nthe file / can't be read: it is a folder\n",
    ),
    (
        Some("/dev/null"),
        3,
        "lg: config 13\nthe key name is missing\n",
    ),
    (None, 3, "lg: config 13\nthe key name is missing\n"),
];

/// Each of them is told in two lines. If memory is refused, that is told, or the second line is missing. The next
/// check goes well.
#[test]
fn files_refused_memory(rt: HostRuntime) {
    for row in FILES {
        let (path, status, told) = row;
        let mut outcome = check_path(&rt, rt.alloc(), path);
        let is_refused = outcome.is(1, "", "lg: memory\n")
            || outcome.is(status, "", first_line(told));
        if is_refused {
            outcome = check_path(&rt, rt.alloc(), path);
        }
        assert!(rt; outcome.is(status, "", told), "{row:?}");
    }
}
