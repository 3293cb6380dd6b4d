//! What the command `node` needs before it is run: the bytes of its file, its stop flag, and its threads. One reads an
//! input until it ends, and one writes for a node that follows. If they can't be had, that is told.
//!
//! Defined in: `lg_run/specs/Meaning/Reporting.antt`.
//! Tested in: `cases/node.case`, `cases/node_command.case`, `cases/groups`.
ghost use Rattle.std.specs.Prelude.{◌≡◌, IfErr, IfOk, OnOk};
ghost use Rattle.lg_config.specs.Meaning.Options.{source_of};
ghost use Rattle.lg_run.specs.Meaning.Reporting.{AreBytesOf, LacksBytes, TellsLine};

use crate::output::{Pumped, start_pump};
use lg_config::Source;
use lg_run::{Told, source_bytes};
use lg_text::{FaultStream, report};
use std::alloc::{AllocError, Global};
use std::io::{Read, Write};
use std::rt::Files;
use std::sync::atomic::{AtomicBool, Ordering};
use std::sync::{Arc, Wait};
use std::thread::Threads;
use std::{io, thread};

/// Standard input and output as the threads of a node own them.
#[derive(Drop)]
pub struct Owned<I, O> {
    /// What the thread of `--until-input-ends` reads.
    pub input: I,
    /// What the thread of `--follow` writes to.
    pub output: O,
}

/// What the words of the command `node` ask for, except when it ends (`--for-ms`).
#[derive(Clone, Copy, Debug)]
pub struct NodeWords<'a> {
    /// Where its configuration comes from.
    pub source: Source<'a>,
    /// Whether it tells each change of a member as it happens.
    pub follow: bool,
    /// Whether it ends once its standard input has ended.
    pub until_input_ends: bool,
}

/// What a node is run with.
#[derive(Drop)]
pub struct Begun {
    /// The bytes of its file.
    pub bytes: Vec<u8>,
    /// The flag that ends it.
    pub stop: Arc<AtomicBool, Global>,
}

/// Gets what a node is run with: first the bytes of its file ([`source_bytes`]), then its stop flag and its threads
/// ([`stop_flag`]). If it follows, `writer` hands its texts to a thread from then on.
///
/// If one of them can't be had, that is told, and the `Err` is the exit status: that of [`source_bytes`], or that of
/// [`Told::Memory`]. Nothing is written in any case.
pub fn begin_node<M, I, O, W, F>(
    rt: &M,
    words: &NodeWords<'_>,
    owned: Owned<I, O>,
    writer: &W,
    faults: &mut F,
) -> Result<Begun, u8>
where
    M: AllocGlobal + Wait + Threads + Files + Copy + Send + 'static,
    I: Read + Send + Drop + 'static,
    O: Write + Send + Drop + 'static,
    W: Pumped,
    F: FaultStream,
    ensures silent { OnOk result (faults.new ≡ faults.old) }
    ensures bytes { IfOk result (λ begun. AreBytesOf (source_of words.now.source).file begun.bytes.items) }
    ensures told { IfErr result (λ status. LacksBytes (source_of words.now.source).file
        (F.reported faults.old) (F.reported faults.new) status) }
{
    let alloc = rt.alloc();
    let NodeWords {
        source,
        follow,
        until_input_ends,
    } = *words;
    let bytes = match source_bytes(rt, alloc, source, faults) {
        Ok(bytes) => bytes,
        Err(status) => {
            // Handed to `drop`, so that the checker doesn't take it apart here, as `bytes` below.
            drop(owned);
            return Err(status);
        }
    };
    let Ok(stop) = stop_flag(rt, alloc, owned, until_input_ends, follow, writer) else {
        drop(bytes);
        return Err(tell_unstarted(faults));
    };
    Ok(Begun { bytes, stop })
}

/// The flag that ends a node. With `until_input_ends` a thread reads the input, drops what it reads, and sets the flag
/// once the input has ended or a read has failed. With `follow` a thread writes to the output. `writer` hands it its
/// texts and sees the flag ([`start_pump`]).
///
/// The error is that memory or one of these threads was refused. No contract says that the end of the input ends the
/// node, nor that a node ends whose output takes nothing: none can say what a thread does.
fn stop_flag<M, I, O, W>(
    rt: &M,
    alloc: Global,
    owned: Owned<I, O>,
    until_input_ends: bool,
    follow: bool,
    writer: &W,
) -> Result<Arc<AtomicBool, Global>, AllocError>
where
    M: Threads + Wait + Copy + Send + 'static,
    I: Read + Send + Drop + 'static,
    O: Write + Send + Drop + 'static,
    W: Pumped,
{
    let Owned { input, output } = owned;
    let stop = Arc::new(alloc, AtomicBool::new(false))?;
    if follow {
        start_pump(rt, alloc, output, writer, &stop)?;
    }
    if until_input_ends {
        flag_at_end(rt, input, Arc::try_clone(&stop)?)?;
    }
    Ok(stop)
}

/// Starts a thread that reads an input until it ends or fails, and then sets the flag that is given.
///
/// The thread isn't joined. It is cut off when the program ends, so a program that ends for another reason doesn't
/// wait for its input. The error is that a thread was refused; nothing is read then.
fn flag_at_end<M, I>(rt: &M, mut input: I, flag: Arc<AtomicBool, Global>) -> Result<(), AllocError>
where
    M: Threads,
    I: Read + Send + Drop + 'static,
{
    thread::spawn(rt, move || {
        let _ = io::copy(&mut input, &mut io::sink());
        flag.store(true, Ordering::SeqCst);
    })?;
    Ok(())
}

/// Tells by [`Told::Memory`] that memory or a thread was refused before a node was run, and gives the status.
fn tell_unstarted<F: FaultStream>(faults: &mut F) -> u8
    ensures { TellsLine (F.reported faults.old) (F.reported faults.new) Told.Memory result }
{
    report(faults, Told::Memory.line().as_str());
    Told::Memory.status()
}
