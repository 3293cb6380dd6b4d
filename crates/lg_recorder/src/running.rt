//! Records what there is until it is told to end.
//!
//! Defined in: `specs/Meaning/Holding.antt`.
//! Tested in: `lg_recorder_tests/src/running.rt`.
ghost use Rattle.std.specs.Prelude.{◌≡◌, ◌∷◌, ◌++◌, List, true, false};
ghost use Rattle.std.specs.declared.io.ErrorKind.TheVariants.{OutOfMemory as NoMemoryLeft};
ghost use Rattle.lg_text.specs.Meaning.Reporting.{Reported, Reports};
ghost use Rattle.lg_recorder.specs.Meaning.Batches.{BatchValue, TookLast};
ghost use Rattle.lg_recorder.specs.Meaning.FaultLines.{record_fault_line};
ghost use Rattle.lg_recorder.specs.Meaning.Holding.{Holds, HoldsLast, HoldsMore};

use crate::batch::Batch;
use crate::fault::RecordFault;
use crate::folder::RecordFolder;
use crate::recorder::{Recorder, RecorderCounts};
use lg_text::{FaultStream, report};
use std::io::ErrorKind;
use std::sync::atomic::AtomicBool;
use std::sync::atomic::Ordering::SeqCst;

/// How long the recording waits at most between two batches, in milliseconds (this project's choice).
pub const RECORD_MS: u64 = 1000;

/// What is told if the last batch couldn't be taken.
const NOT_TAKEN: RecordFault = RecordFault {
    kind: ErrorKind::OutOfMemory,
    is_first: true,
};

/// Takes the batches of an origin, such as a pass of an agent. What it took last is the batch that it is.
pub trait BatchSource<O>: Batch {
    ghost use Rattle.std.specs.Prelude.{Bool};
    ghost use Rattle.lg_recorder.specs.Meaning.Batches.{BatchValue};

    // What taking may do to the origin, once or more often, by what it was and what it is.
    ghost took: { O → O → Type 0 };

    // What one taking does, by what the origin was, whether the batch was taken, which batch the source is then, and
    // what the origin is.
    ghost taking: { O → Bool → BatchValue → O → Type 0 };

    /// Takes the entries that the origin has: they are its batch then, in place of that before. It gives whether it
    /// took them. If memory was refused, they stay where they are for the next time, and its batch isn't written.
    /// Nothing else may keep it from taking them.
    fn take(&mut self, origin: &mut O) -> bool
        ensures took { took origin.old origin.new }
        ensures taking { taking origin.old result (Self.batch self.new) origin.new };

    // Nothing may be done to it,
    ghost took_nothing: { (x : O) → took x x };

    // and what may be done may be done twice.
    ghost took_twice: { (x y z : O) → took x y → took y z → took x z };
}

/// Tells a recorder when to take a batch. No contract can say when that is.
pub trait RecordPace {
    /// Waits until there is much to take, or the recorder is to end, for so many milliseconds at most. It is told what
    /// the recorder has counted so far.
    fn wait(&self, counts: RecorderCounts, most_ms: u64);
}

/// Takes a batch and writes it with these buffers. A fault is reported, if it is the first since a batch was written
/// whole. Gives whether the batch was taken.
fn take_and_record<F: RecordFolder, O, S: BatchSource<O>, T: FaultStream>(
    recorder: &mut Recorder,
    folder: &mut F,
    source: &mut S,
    origin: &mut O,
    buffers: &mut S::Buffers,
    faults: &mut T,
) -> bool
    ensures holds { F.tells ≡ true → (batches : List BatchValue)
        → Holds recorder.old.size batches (F.past folder.old) recorder.old.current
        → HoldsMore recorder.new.size batches (F.past folder.new) recorder.new.current }
    ensures size { recorder.new.size ≡ recorder.old.size }
    ensures took { S.took origin.old origin.new }
    ensures taking { S.taking origin.old result (S.batch source.new) origin.new }
    ensures handed { F.tells ≡ true → result ≡ true → (batches : List BatchValue)
        → Holds recorder.old.size batches (F.past folder.old) recorder.old.current
        → Holds recorder.new.size (S.batch source.new ∷ batches) (F.past folder.new) recorder.new.current }
    ensures untold { result ≡ false → faults.new ≡ faults.old }
{
    if !source.take(origin) {
        return false;
    }
    if let Err(fault) = recorder.record(folder, source, buffers) {
        if fault.is_first {
            report(faults, fault.line());
        }
    }
    true
}

/// Reports that a batch couldn't be taken, unless it was.
fn report_untaken<T: FaultStream>(is_taken: bool, faults: &mut T)
    ensures { is_taken ≡ false
        → Reports (T.reported faults.old) (T.reported faults.new) (record_fault_line NoMemoryLeft) }
{
    if !is_taken {
        report(faults, NOT_TAKEN.line());
    }
}

/// Takes the last batch and writes it as [`take_and_record`] does, and closes the file. Gives whether the batch was
/// taken. If it wasn't, that is reported.
fn finish<F: RecordFolder, O, S: BatchSource<O>, T: FaultStream>(
    recorder: &mut Recorder,
    folder: &mut F,
    source: &mut S,
    origin: &mut O,
    buffers: &mut S::Buffers,
    faults: &mut T,
) -> bool
    ensures holds { F.tells ≡ true → (batches : List BatchValue)
        → Holds recorder.old.size batches (F.past folder.old) recorder.old.current
        → HoldsMore recorder.new.size batches (F.past folder.new) recorder.new.current }
    ensures took { S.took origin.old origin.new }
    ensures taking { S.taking origin.old result (S.batch source.new) origin.new }
    ensures handed { F.tells ≡ true → result ≡ true → (batches : List BatchValue)
        → Holds recorder.old.size batches (F.past folder.old) recorder.old.current
        → Holds recorder.new.size (S.batch source.new ∷ batches) (F.past folder.new) recorder.new.current }
    ensures told { result ≡ false
        → Reports (T.reported faults.old) (T.reported faults.new) (record_fault_line NoMemoryLeft) }
{
    let is_taken = take_and_record(recorder, folder, source, origin, buffers, faults);
    recorder.close(folder);
    report_untaken(is_taken, faults);
    is_taken
}

/// Takes a batch and writes it, whenever the pace says so and each second at least, until the flag is set. Then it
/// takes and writes once more, and closes the file. The pace has to end its wait when the flag was set. A fault ends
/// nothing. It is reported as a line, once until a batch was written whole again ([`RecordFault`](crate::RecordFault)).
///
/// Gives whether the last batch was taken, the one behind the flag. If it wasn't, memory was refused, and what the
/// origin had then is in no file. That is reported too, whatever was told before.
pub fn record_until<F: RecordFolder, O, S: BatchSource<O>, P: RecordPace, T: FaultStream>(
    recorder: &mut Recorder,
    folder: &mut F,
    source: &mut S,
    origin: &mut O,
    pace: &P,
    over: &AtomicBool,
    faults: &mut T,
) -> bool
    ensures holds { F.tells ≡ true → (batches : List BatchValue)
        → Holds recorder.old.size batches (F.past folder.old) recorder.old.current
        → HoldsMore recorder.new.size batches (F.past folder.new) recorder.new.current }
    ensures took { S.took origin.old origin.new }
    // The last thing that was done to the origin is a taking, which gave this answer.
    ensures last { TookLast S.took S.taking origin.old result (S.batch source.new) origin.new }
    // If it gave a batch, that is the latest one that was handed to the recorder.
    ensures handed { F.tells ≡ true → result ≡ true → (batches : List BatchValue)
        → Holds recorder.old.size batches (F.past folder.old) recorder.old.current
        → HoldsLast recorder.new.size batches (S.batch source.new) (F.past folder.new) recorder.new.current }
    // If it gave none, that is what was reported last.
    ensures told { result ≡ false → (before : Reported)
        × Reports before (T.reported faults.new) (record_fault_line NoMemoryLeft) }
{
    let mut buffers = source.buffers();
    for _ in 0..u64::MAX {
        if over.load(SeqCst) {
            break;
        }
        take_and_record(recorder, folder, source, origin, &mut buffers, faults);
        pace.wait(recorder.counts(), RECORD_MS);
    }
    finish(recorder, folder, source, origin, &mut buffers, faults)
}
