//! An output that a thread writes: what reaches it, and how long a writer waits for it.
use lg_pump::{GRACE_MS, MAX_HELD, MAX_PIECE, Pump, PumpWriter};
use std::alloc::{AllocError, Global};
use std::io::{ErrorKind, Write};
use std::rt::Clock;
use std::sync::atomic::AtomicBool;
use std::sync::atomic::Ordering::SeqCst;
use std::sync::{Arc, Mutex, Wait};
use std::thread::Threads;
use std::time::{Duration, Instant};
use std::{io, thread};

/// How an output takes what is written to it.
#[derive(Clone, Copy, Debug)]
enum Takes {
    /// At once.
    AtOnce,
    /// After 30 ms for each call.
    Slowly,
    /// Not before the test lets it.
    Stuck,
    /// Not at all, since nobody reads it.
    Closed,
}

/// What an output took, and what a test lets it do.
#[derive(Drop)]
struct Taken {
    text: Mutex<Vec<u8>>,
    /// Whether each call had at most [`MAX_PIECE`] bytes, and ended with a line.
    whole: AtomicBool,
    /// Whether a stuck output may go on.
    released: AtomicBool,
}

/// An output.
#[derive(Drop)]
struct Output<R> {
    rt: R,
    takes: Takes,
    taken: Arc<Taken, Global>,
}

impl<R: Wait + Clock> Output<R> {
    /// Waits until a stuck output may go on.
    fn wait(&self) {
        for _ in 0..u64::MAX {
            if self.taken.released.load(SeqCst) {
                return;
            }
            thread::sleep(&self.rt, Duration::from_millis(5));
        }
    }
}

impl<R: Wait + Clock> Write for Output<R> {
    fn write(&mut self, buf: &[u8]) -> io::Result<usize> {
        match self.takes {
            Takes::AtOnce => {}
            Takes::Slowly => thread::sleep(&self.rt, Duration::from_millis(30)),
            Takes::Stuck => self.wait(),
            Takes::Closed => return Err(io::Error::from(ErrorKind::BrokenPipe)),
        }
        if buf.len() > MAX_PIECE || !buf.ends_with(b"\n") {
            self.taken.whole.store(false, SeqCst);
        }
        self.taken.text.lock(&self.rt).extend_from_slice(buf)?;
        Ok(buf.len())
    }

    fn flush(&mut self) -> io::Result<()> {
        Ok(())
    }
}

/// What came of texts that were handed to a pump.
#[derive(Drop)]
struct Played {
    /// The error of the first text that failed, if one did. The later ones weren't handed over.
    failed: Option<ErrorKind>,
    /// For how many milliseconds the writer was held.
    held_ms: u128,
    /// Whether it is cut off.
    is_cut: bool,
    /// What the output took, with the piece in which it was stuck.
    text: Vec<u8>,
    /// Whether it took whole lines.
    whole: bool,
}

/// Hands a text over, and waits until it is written.
fn hand<R: Wait + Clock>(writer: &mut PumpWriter<R>, text: &[u8]) -> Option<ErrorKind> {
    match writer.write_all(text) {
        Ok(()) => writer.flush().err().map(|error| error.kind()),
        Err(error) => Some(error.kind()),
    }
}

/// Hands a text over so many times. A writer that is told to stop is told so from the start.
fn play<R>(rt: &R, takes: Takes, is_stopped: bool, text: &[u8], times: u32) -> io::Result<Played>
where
    R: Wait + Threads + Clock + AllocGlobal + Copy + Drop + Send + Sync + 'static,
{
    let alloc = rt.alloc();
    let pump = Arc::new(alloc, Pump::new(alloc)?)?;
    let stop = Arc::new(alloc, AtomicBool::new(is_stopped))?;
    let taken = Taken {
        text: Mutex::new(Vec::new(alloc)),
        whole: AtomicBool::new(true),
        released: AtomicBool::new(false),
    };
    let taken = Arc::new(alloc, taken)?;
    let mut out = Output {
        rt: *rt,
        takes,
        taken: Arc::try_clone(&taken)?,
    };
    let (theirs, handle) = (Arc::try_clone(&pump)?, *rt);
    let mut writer = PumpWriter::new(*rt, Arc::try_clone(&pump)?, stop);
    let start = Instant::now(rt)?;
    let child = thread::spawn(rt, move || theirs.run(&handle, &mut out))?;
    let mut failed = None;
    for _ in 0..times {
        if failed.is_none() {
            failed = hand(&mut writer, text);
        }
    }
    let held_ms = start.elapsed(rt)?.as_millis();
    taken.released.store(true, SeqCst);
    pump.close(rt);
    child.join(rt);
    let text = taken.text.lock(rt).clone()?;
    Ok(Played {
        failed,
        held_ms,
        is_cut: writer.is_cut(),
        text,
        whole: taken.whole.load(SeqCst),
    })
}

/// A text of this many lines of 64 bytes.
fn lines(alloc: Global, count: usize) -> Result<String, AllocError> {
    let mut text = String::new(alloc);
    for at in 0..count {
        writeln!(text, "{at:063}")?;
    }
    Ok(text)
}

/// Whether a text is another one so many times.
fn is_repeated(text: &[u8], part: &[u8], times: u32) -> bool {
    let mut rest = text;
    for _ in 0..times {
        match rest.strip_prefix(part) {
            Some(behind) => rest = behind,
            None => return false,
        }
    }
    rest.is_empty()
}

/// All lines reach an output that takes them, in order and whole, before the flush returns, also if the text is longer
/// than a pump holds. A writer that was told to stop waits for an output that goes on.
#[test]
fn writes_all_in_order(rt: HostRuntime) {
    // How the output takes them, whether the writer was told to stop, how many lines, and how many times.
    let rows = [
        (Takes::AtOnce, false, 1, 40),
        (Takes::AtOnce, false, 3 * MAX_HELD / 64, 2),
        (Takes::AtOnce, true, 64, 3),
        (Takes::Slowly, false, 256, 2),
        (Takes::Slowly, true, 256, 2),
    ];
    for row in rows {
        let (takes, is_stopped, count, times) = row;
        let text = lines(rt.alloc(), count).unwrap_or(String::new(rt.alloc()));
        let met = match play(&rt, takes, is_stopped, text.as_bytes(), times) {
            Ok(played) => {
                played.failed.is_none()
                    && !played.is_cut
                    && played.whole
                    && is_repeated(&played.text, text.as_bytes(), times)
            }
            Err(_) => false,
        };
        assert!(rt; met, "{row:?}");
    }
}

/// A writer that was told to stop is held by an output that takes nothing for as long as it waits, and no longer. The
/// output gets a beginning of the text that ends with a line.
#[test]
fn gives_up_on_a_stuck_output(rt: HostRuntime) {
    for count in [1, 256, 2 * MAX_HELD / 64] {
        let text = lines(rt.alloc(), count).unwrap_or(String::new(rt.alloc()));
        let met = match play(&rt, Takes::Stuck, true, text.as_bytes(), 2) {
            Ok(played) => {
                played.failed == Some(ErrorKind::TimedOut)
                    && played.is_cut
                    && played.whole
                    && played.held_ms >= u128::from(GRACE_MS)
                    && played.held_ms < 4 * u128::from(GRACE_MS)
                    && text.as_bytes().starts_with(&played.text)
            }
            Err(_) => false,
        };
        assert!(rt; met, "{count} lines");
    }
}

/// An output that fails is told by the kind of its error, and nothing is cut off.
#[test]
fn tells_that_an_output_failed(rt: HostRuntime) {
    let played = play(&rt, Takes::Closed, false, b"a\n", 2);
    let met = match played {
        Ok(played) => played.failed == Some(ErrorKind::BrokenPipe) && !played.is_cut,
        Err(_) => false,
    };
    assert!(rt; met);
}

/// A line that is longer than a piece is written in pieces.
#[test]
fn writes_a_long_line_in_pieces(rt: HostRuntime) {
    let mut text = [b'x'; MAX_PIECE + 10];
    text[MAX_PIECE + 9] = b'\n';
    let met = match play(&rt, Takes::AtOnce, false, &text, 1) {
        Ok(played) => played.failed.is_none()
            && !played.whole
            && played.text.as_slice() == text.as_slice(),
        Err(_) => false,
    };
    assert!(rt; met);
}
