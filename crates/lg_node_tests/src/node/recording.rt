//! A node over UDP whose recorder writes to a folder of the machine, and the signal by which a recorder is woken.
use super::asking::free_port;
use arrayvec::ArrayVec;
use lg_batches::{NodeRecord, Subject};
use lg_detector::Event;
use lg_heads::read_head;
use lg_loops::NodeLoops;
use lg_node::{NodeEnd, NodeStart, RecorderSignal, ResolvedSeeds, Settings, run_node};
use lg_recorder::{DiskFolder, Recorder};
use lg_recording::{Entries, read_start};
use lg_testing::{Room, at, letter, local};
use lg_timing::Config;
use std::alloc::Global;
use std::net::Net;
use std::random::RandomSource;
use std::rt::{Clock, Files};
use std::sync::Wait;
use std::sync::atomic::AtomicBool;
use std::sync::atomic::Ordering::SeqCst;
use std::test::Fail;
use std::thread::Threads;
use std::time::Instant;
use std::{env, fs, process};

/// The bytes of the configuration file of b, and the version of its program.
const TEXT: &[u8] = b"name = \"b\"\n";

const PROGRAM: &[u8] = b"0.9.0";

/// How long a wait lasts at most that should end at once, and how long one lasts that should take its time, in
/// milliseconds.
const LONG_MS: u64 = 60_000;

const SHORT_MS: u64 = 40;

/// A folder of its own under the machine's temporary one.
fn fresh_path(rt: &HostRuntime) -> Result<String, Fail> {
    let base = env::temp_dir(rt)?;
    let base = base.as_str();
    let id = process::id(rt.process());
    let path = format!(in rt.alloc(); "{base}/lg_node_recording_{id}")?;
    fs::create_dir(rt, path.as_str())?;
    Ok(path)
}

/// The settings of b with this configuration, which asks nobody.
fn settings(config: &Config) -> Settings {
    Settings {
        bind: config.addr,
        seeds: ArrayVec::new(),
        learns: false,
        resolve_ms: 60_000,
        shown_seeds: ArrayVec::new(),
        dice: 1,
        pull_ms: 0,
        stall_ms: 0,
        follow: false,
        status: None,
        status_open: false,
        leave: true,
        record_folder: None,
        keys: None,
    }
}

/// Runs b with this configuration, whose ticking loop ends at once, and records it to a folder.
fn recorded<R>(rt: &R, alloc: Global, config: &Config, path: String) -> Option<NodeEnd>
where
    R: Threads + Wait + Net + Clock + RandomSource + Files + AllocGlobal + Copy + Send + Sync,
    R::File: Send,
    R::Dir: Send,
{
    config.check().ok()?;
    let settings = settings(config);
    let stop = AtomicBool::new(false);
    let resolved = ResolvedSeeds::new();
    let (mut unread, mut faults) = (Room::failing(0), Room::failing(0));
    let start = NodeStart {
        loops: NodeLoops,
        config,
        settings: &settings,
        until: at(0),
        stop: &stop,
        resolved: &resolved,
    };
    let record = NodeRecord {
        folder: DiskFolder::new(*rt, alloc, path),
        recorder: Recorder::new(alloc, 1),
        subject: Subject {
            config,
            text: TEXT,
            program: PROGRAM,
        },
        faults: Room::failing(0),
    };
    run_node(rt, alloc, &start, Some(record), &mut unread, &mut faults).ok()
}

/// Whether these are the bytes of the first file of b's life, with its opening alone.
fn has_opening_alone(alloc: Global, bytes: &[u8]) -> bool {
    let Ok((body, rest)) = read_start(bytes) else {
        return false;
    };
    let Ok(head) = read_head(alloc, body) else {
        return false;
    };
    let mut entries = Entries { rest };
    let opens =
        matches!(entries.next_entry(), Some(Ok(entry)) if matches!(entry.event, Event::Open { .. }));
    let is_alone = entries.next_entry().is_none();
    let is_first = head.first == 0 && head.before.is_none();
    let is_of_b = head.name == letter(b'b') && head.text == TEXT && head.program == PROGRAM;
    opens && is_alone && is_first && is_of_b
}

/// A node whose loops end at once leaves a file with its opening, and no entry in its history.
#[test]
fn recorded_node_leaves_its_opening(rt: HostRuntime) -> Result<(), Fail> {
    let path = fresh_path(&rt)?;
    let config = Config::new(letter(b'b'), local(free_port(&rt)?));
    let folder = String::from_str(rt.alloc(), path.as_str())?;
    let end = recorded(&rt, rt.alloc(), &config, folder).ok_or("no node ran")?;
    let kept = end
        .closed
        .as_ref()
        .map_or(9, |closed| closed.history().len());
    assert_eq!(rt; kept, 0);
    let path = path.as_str();
    let file = format!(in rt.alloc(); "{path}/0000000001.lgr")?;
    let bytes = fs::read(&rt, file.as_str())?;
    assert!(rt; has_opening_alone(rt.alloc(), bytes.as_slice()));
    fs::remove_dir_all(&rt, path)?;
    Ok(())
}

/// How long a wait for a signal lasts, in milliseconds.
fn waited<R: Wait + Clock>(rt: &R, signal: &RecorderSignal, ms: u64) -> Result<u64, Fail> {
    let start = Instant::now(rt)?;
    signal.wait_at_most(rt, ms);
    let passed = Instant::now(rt)?.duration_since(start);
    Ok(u64::try_from(passed.as_millis()).unwrap_or(u64::MAX))
}

/// A recorder is woken when a quarter as many calls were answered as the history has room for, and at the end.
#[test]
fn signal_wakes_at_a_quarter(rt: HostRuntime) -> Result<(), Fail> {
    let signal = RecorderSignal::new(8);
    signal.note(&rt, at(0), true);
    signal.note(&rt, at(0), true);
    let woken = waited(&rt, &signal, LONG_MS)?;
    assert!(rt; woken < LONG_MS, "{woken}");
    signal.note(&rt, at(0), true);
    let unwoken = waited(&rt, &signal, SHORT_MS)?;
    assert!(rt; unwoken >= SHORT_MS, "{unwoken}");
    assert!(rt; !signal.has_ended().load(SeqCst));
    signal.end(&rt);
    let ended = waited(&rt, &signal, LONG_MS)?;
    assert!(rt; ended < LONG_MS, "{ended}");
    assert!(rt; signal.has_ended().load(SeqCst));
    Ok(())
}

/// What is noted behind a first call at 100 ms: when a call was answered, whether its loop waits next, and whether that
/// wakes the recorder.
const NOTED: [(u64, bool, bool); 4] = [
    (899, true, false),
    (900, false, false),
    (900, true, true),
    (5000, true, true),
];

/// A recorder is woken by a call 800 ms or more after the first call since it woke last, if the loop waits next.
#[test]
fn signal_wakes_after_a_while(rt: HostRuntime) -> Result<(), Fail> {
    let signal = RecorderSignal::new(1000);
    for (now, is_last, is_woken) in NOTED {
        signal.note(&rt, at(100), true);
        signal.note(&rt, at(now), is_last);
        let most_ms = if is_woken { LONG_MS } else { SHORT_MS };
        let woken = waited(&rt, &signal, most_ms)? < most_ms;
        assert_eq!(rt; woken, is_woken, "{now}");
    }
    Ok(())
}
