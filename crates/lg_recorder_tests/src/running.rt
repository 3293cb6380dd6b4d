//! A recorder that runs until its flag is set.
use crate::folder::MemoryFolder;
use crate::plain::{PlainBatch, told_in};
use lg_recorder::{Batch, BatchSource, RecordPace, Recorder, RecorderCounts, record_until};
use std::alloc::{AllocError, Global};
use std::sync::atomic::Ordering::SeqCst;
use std::sync::atomic::{AtomicBool, AtomicU64};
use std::test::Fail;

/// Sets a flag at its last wait. It sums what the recorder has counted at each: entries that were written, and those
/// that were lost.
#[derive(Drop)]
struct FewWaits<'a> {
    left: AtomicU64,
    over: &'a AtomicBool,
    written: AtomicU64,
    lost: AtomicU64,
}

impl<'a> FewWaits<'a> {
    /// It sets the flag at its third wait.
    fn new(over: &'a AtomicBool) -> FewWaits<'a> {
        FewWaits {
            left: AtomicU64::new(3),
            over,
            written: AtomicU64::new(0),
            lost: AtomicU64::new(0),
        }
    }
}

impl RecordPace for FewWaits<'_> {
    fn wait(&self, counts: RecorderCounts, most_ms: u64) {
        self.written.fetch_add(counts.entries, SeqCst);
        self.lost.fetch_add(counts.lost, SeqCst);
        if most_ms != 1000 || self.left.fetch_sub(1, SeqCst) == 1 {
            self.over.store(true, SeqCst);
        }
    }
}

/// It records before each wait, and once at the end. Two batches fail, which is one line.
#[test]
fn until_over(rt: HostRuntime) -> Result<(), Fail> {
    let mut folder = MemoryFolder::new(rt.alloc());
    let mut recorder = Recorder::new(rt.alloc(), 1);
    let over = AtomicBool::new(false);
    let pace = FewWaits::new(&over);
    let mut source = PlainBatch {
        first: 0,
        count: 2,
        length: 30,
    };
    let mut faults = Vec::new(rt.alloc());
    folder.fails_from = 5;
    folder.fails_to = 6;
    let mut made = 0;
    let is_taken = record_until(
        &mut recorder,
        &mut folder,
        &mut source,
        &mut made,
        &pace,
        &over,
        &mut faults,
    );
    assert!(rt; is_taken);
    assert_eq!(rt; made, 8);
    assert_eq!(rt; pace.written.load(SeqCst), 2 + 2 + 2);
    assert_eq!(rt; pace.lost.load(SeqCst), 2 + 4);
    let told = told_in(rt.alloc(), &folder).ok_or("faulty")?;
    assert_eq!(rt; told.as_slice(), [0, 1, 6, 7].as_slice());
    let text = b"the recording has a gap: the disk is full\n";
    assert_eq!(rt; faults.as_slice(), text.as_slice());
    Ok(())
}

/// A source of batches of two entries, some of whose takings are refused, counted from 1.
#[derive(Drop)]
struct RefusingSource {
    batch: PlainBatch,
    takings: u64,
    refused: &'static [u64],
}

impl Batch for RefusingSource {
    ghost use Rattle.std.specs.Prelude.{[]};

    type Buffers = ();

    ghost batch = { λ s. record { first = 0; head = []; chunks = [] } };

    fn first(&self) -> u64 {
        self.batch.first()
    }

    fn len(&self) -> usize {
        self.batch.len()
    }

    fn put_head(&self, text: &mut Vec<u8>) -> Result<(), AllocError> {
        self.batch.put_head(text)
    }

    fn buffers(&self) {}

    fn put_entry(
        &self,
        index: usize,
        buffers: &mut (),
        text: &mut Vec<u8>,
    ) -> Result<(), AllocError> {
        self.batch.put_entry(index, buffers, text)
    }
}

impl BatchSource<u64> for RefusingSource {
    ghost use Rattle.std.specs.Prelude.{◌≤◌};
    ghost use Rattle.std.proofs.Common.{rules};

    ghost took = { λ before after. before ≤ after };

    ghost taking = { λ before is_taken batch after. before ≤ after };

    fn take(&mut self, made: &mut u64) -> bool {
        self.takings = self.takings.saturating_add(1);
        if self.refused.contains(&self.takings) {
            return false;
        }
        self.batch.take(made)
    }

    ghost took_nothing = { λ x. Prim.search rules };

    ghost took_twice = { λ x y z p q. Prim.search rules };
}

/// Which of four takings are refused, the first and the last call of the folder that fails, and then: whether the last
/// batch was taken, how many entries were, and which lines are told.
type Row = (&'static [u64], (u64, u64), bool, u64, &'static str);

/// What couldn't be taken is taken the next time, and told only behind the last.
const ROWS: &[Row] = &[
    (&[], (0, 0), true, 8, ""),
    (&[1, 2, 3], (0, 0), true, 2, ""),
    (&[2], (0, 0), true, 6, ""),
    (
        &[4],
        (0, 0),
        false,
        6,
        "the recording has a gap: memory is refused\n",
    ),
    (
        &[1, 2, 3, 4],
        (0, 0),
        false,
        0,
        "the recording has a gap: memory is refused\n",
    ),
    (
        &[4],
        (5, 6),
        false,
        6,
        "the recording has a gap: the disk is full\nthe recording has a gap: memory is refused\n",
    ),
];

/// Records by the takings of a row. Gives whether the last batch was taken, how many entries were, and what is told.
fn recorded(alloc: Global, row: &Row) -> (bool, u64, Vec<u8>) {
    let (refused, (fails_from, fails_to), _, _, _) = *row;
    let mut folder = MemoryFolder::new(alloc);
    folder.fails_from = fails_from;
    folder.fails_to = fails_to;
    let mut recorder = Recorder::new(alloc, 1);
    let over = AtomicBool::new(false);
    let pace = FewWaits::new(&over);
    let mut source = RefusingSource {
        batch: PlainBatch {
            first: 0,
            count: 2,
            length: 30,
        },
        takings: 0,
        refused,
    };
    let (mut made, mut faults) = (0, Vec::new(alloc));
    let is_taken = record_until(
        &mut recorder,
        &mut folder,
        &mut source,
        &mut made,
        &pace,
        &over,
        &mut faults,
    );
    (is_taken, made, faults)
}

/// The answer is that of the last taking.
#[test]
fn last_taking(rt: HostRuntime) {
    for row in ROWS {
        let (_, _, is_taken, made, lines) = *row;
        let (was_taken, were_made, faults) = recorded(rt.alloc(), row);
        assert_eq!(rt; (was_taken, were_made), (is_taken, made), "{row:?}");
        assert_eq!(rt; faults.as_slice(), lines.as_bytes(), "{row:?}");
    }
}
