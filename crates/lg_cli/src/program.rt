//! The program over any reader and writers, on a machine: its commands, its statuses, and what it says of faults.
//!
//! Defined in: `specs/Meaning/Running.antt`, `specs/Meaning/Faults.antt`,
//! `lg_command_line/specs/Meaning/Commands.antt`, `Leaving.antt`.
//! Tested in: `cases/command_line.case`, `cases/node.case`, `cases/node_command.case`, `cases/ask.case`.
ghost use Rattle.std.specs.Prelude.{◌≡◌, ◌≢◌, ◌≤◌, true, IfSome, map};
ghost use Rattle.std.specs.IoError.{error_kind};
ghost use Rattle.lg_text.specs.Meaning.Faults.{run_fault_text};
ghost use Rattle.lg_text.specs.Meaning.Reporting.{Reports};
ghost use Rattle.lg_commands.specs.Meaning.Timeouts.{are_good};
ghost use Rattle.lg_command_line.specs.Meaning.Commands.{IfAsk, IfCheck, IfLeave, IfNode, IfTimeouts};
ghost use Rattle.lg_command_line.specs.Meaning.Commands.{IfExplain, IfReplay, IfVersion};
ghost use Rattle.lg_command_line.specs.Support.Requests.{request_of};
ghost use Rattle.lg_cli.specs.Meaning.Faults.{foreign_text};
ghost use Rattle.lg_cli.specs.Meaning.Running.{streams, RunsLine, RunsRequest};

use crate::ask::{AskWords, ask_node};
use crate::explain::explain_part;
use crate::node::{NodeWords, Owned, begin_node};
use crate::output::Pumped;
use crate::replay::{ReplayWords, replay_part};
use crate::version::tell_version;
use lg_client::leave_node;
use lg_command_line::{Asked, MAX_RUN_MS, take_words};
use lg_commands::{FAILED, USAGE, answer_named, order_lists, simulate, timeouts_of, write_init};
use lg_config::Source;
use lg_run::{FaultStreams, RecordFolders, Wishes, check_source, run_bytes};
use lg_text::{FaultStream, RunFault, report};
use lg_timing::Moment;
use std::alloc::Global;
use std::convert::AsStr;
use std::io::{ErrorKind as IoErrorKind, Read, Write};
use std::net::{Net, TcpListener, TcpStream};
use std::random::RandomSource;
use std::rt::Files;
use std::sync::Wait;
use std::thread::Threads;
use std::{io, rt};

/// Runs the program on the words of a command line, and gives its exit status. The first word is the program's name.
///
/// `reader`, `writer` and `faults` stand for standard input, output and error. Only `answer` and `sim` read. `owned`
/// has standard input and output too, for the threads of `node --until-input-ends` and `node --follow`
/// ([`begin_node`]). A line that `faults` doesn't take is dropped. `node`, `check`, `members`, `status`, `watch`,
/// `leave`, `replay`, `explain` and `version` alone use the machine `rt`. The first two read their file, if one is
/// named. `node` takes sockets, a clock and threads, writes its members, and tells its end, with the statuses of
/// [`run_bytes`]. If its file gives no bytes, or its stop flag can't be had, it isn't run, and has the status of
/// [`begin_node`]. `check` has those of [`check_source`]. `replay` and `explain` list a folder and read files of it,
/// and have the statuses of [`replay_recording`](lg_replay_run::replay_recording) and
/// [`explain_recording`](lg_explain_run::explain_recording). `explain --html` writes a file in place of the output, and
/// has those of [`explain_page`](lg_explain_run::explain_page). `version` reads the end of the program's own file
/// ([`tell_version`]). The other four ask a running node, with the statuses of [`tell_answer`](lg_client::tell_answer),
/// [`watch_changes`](lg_client::watch_changes) and [`leave_node`]. The statuses of all other command lines are:
///
/// - 0 if all was done. This includes help and the version, if they were asked for and written.
/// - 1 if memory, a read or a write failed. That is reported as `lg: memory`, `lg: read` or `lg: write`. A second line
///   says why standard input couldn't be read, or standard output written ([`RunFault::text`]).
/// - 2 if the command line is refused, which is reported by a text of the parser. Nothing is read or written then.
/// - 3 for bad input. If the text of `--name` is no name, `lg: bad names` is reported and nothing is read. If the text
///   of `--names` is no list of 1 to 255 different names, `lg: bad names` is reported. If the text of a folder is no
///   path, `lg: bad folder` is reported, and if that of `--only` or of the member is no name, `lg: bad names`. If the
///   text of `--words` is no list of words, `lg: bad words` is reported. If a line of the input of `answer` or `sim` is
///   faulty, nothing is reported.
///
/// No contract says what the texts of help, of the version and of a refusal are: they are the parser's.
pub fn run_words<M, S, I, O, R, W, F>(
    rt: &M,
    words: &[S],
    owned: Owned<I, O>,
    reader: &mut R,
    writer: &mut W,
    faults: &mut F,
) -> u8
where
    M: AllocGlobal
        + Wait
        + Threads
        + rt::Clock
        + Files
        + RandomSource
        + FaultStreams
        + RecordFolders,
    M: Net<Listener = TcpListener, Stream = TcpStream> + Copy + Send + Sync + 'static,
    M::File: Send,
    M::Dir: Send,
    S: AsStr,
    I: Read + Send + Drop + 'static,
    O: Write + Send + Drop + 'static,
    R: Read,
    W: Write + Pumped + Send,
    F: FaultStream + Send,
    // A command line that is taken runs its command. Any other is refused, or asks for help or the version.
    ensures { RunsLine
        (streams reader.old (R.remaining reader.old) writer.old (W.contents writer.old) (F.reported faults.old))
        (streams reader.new (R.remaining reader.new) writer.new (W.contents writer.new) (F.reported faults.new))
        (map S.text words.now) result }
{
    let alloc = rt.alloc();
    let asked = match take_words(alloc, words, writer, faults) {
        Ok(asked) => asked,
        Err(status) => {
            drop(owned);
            return status;
        }
    };
    let Asked::Node {
        file,
        given,
        for_ms,
        follow,
        until_input_ends,
    } = asked
    else {
        drop(owned);
        return run_other(rt, asked, reader, writer, faults);
    };
    let source = Source {
        file,
        given: given.as_slice(),
    };
    let node = NodeWords {
        source,
        follow,
        until_input_ends,
    };
    let begun = match begin_node(rt, &node, owned, writer, faults) {
        Ok(begun) => begun,
        Err(status) => {
            drop(given);
            return status;
        }
    };
    let wishes = Wishes {
        source,
        until: end_after(for_ms),
        follow,
        stop: &begun.stop,
    };
    let status = run_bytes(rt, alloc, &begun.bytes, &wishes, writer, faults);
    drop(begun);
    drop(given);
    status
}

/// Runs any command but `node`, as [`run_words`] says, and gives its exit status.
fn run_other<M, R, W, F>(
    rt: &M,
    asked: Asked<'_>,
    reader: &mut R,
    writer: &mut W,
    faults: &mut F,
) -> u8
where
    M: AllocGlobal + Net + rt::Clock + Files + Clone + Drop,
    R: Read,
    W: Write,
    F: FaultStream,
    requires other { IfNode (request_of asked) (λ source for_ms follow until_input_ends. ⊥) }
    requires good { IfTimeouts (request_of asked) (λ numbers. are_good numbers ≡ true) }
    ensures { RunsRequest
        (streams reader.old (R.remaining reader.old) writer.old (W.contents writer.old) (F.reported faults.old))
        (streams reader.new (R.remaining reader.new) writer.new (W.contents writer.new) (F.reported faults.new))
        (request_of asked.entry) result }
{
    let alloc = rt.alloc();
    match asked {
        Asked::Check { file, given } => {
            let source = Source {
                file,
                given: given.as_slice(),
            };
            let status = check_source(rt, alloc, source, writer, faults);
            drop(given);
            status
        }
        Asked::Ask { question, at, json } => {
            let words = AskWords { question, at, json };
            ask_node(rt, alloc, &words, writer, faults)
        }
        Asked::Leave { at, name } => leave_node(rt, alloc, at, name, faults),
        Asked::Replay {
            folder,
            from,
            to,
            only,
        } => {
            let words = ReplayWords {
                folder,
                from,
                to,
                only,
            };
            replay_part(rt, alloc, &words, writer, faults)
        }
        Asked::Explain { words } => explain_part(rt, alloc, &words, writer, faults),
        Asked::Version => tell_version(rt, alloc, writer, faults),
        _ => run_without_machine(alloc, asked, reader, writer, faults),
    }
}

/// Runs a command that uses no machine, as [`run_words`] says, and gives its exit status.
fn run_without_machine<R, W, F>(
    alloc: Global,
    asked: Asked<'_>,
    reader: &mut R,
    writer: &mut W,
    faults: &mut F,
) -> u8
where
    R: Read,
    W: Write,
    F: FaultStream,
    requires no_node { IfNode (request_of asked) (λ source for_ms follow until_input_ends. ⊥) }
    requires no_check { IfCheck (request_of asked) (λ source. ⊥) }
    requires no_question { IfAsk (request_of asked) (λ question at json. ⊥) }
    requires no_leave { IfLeave (request_of asked) (λ at name. ⊥) }
    requires no_replay { IfReplay (request_of asked) (λ folder from to only. ⊥) }
    requires no_explain { IfExplain (request_of asked) (λ value. ⊥) }
    requires no_version { IfVersion (request_of asked) ⊥ }
    requires good { IfTimeouts (request_of asked) (λ numbers. are_good numbers ≡ true) }
    ensures { RunsRequest
        (streams reader.old (R.remaining reader.old) writer.old (W.contents writer.old) (F.reported faults.old))
        (streams reader.new (R.remaining reader.new) writer.new (W.contents writer.new) (F.reported faults.new))
        (request_of asked.entry) result }
{
    match asked {
        Asked::Answer { name } => answer_named(alloc, name, reader, writer, faults),
        Asked::Order { names, words } => order_lists(alloc, names, words, writer, faults),
        Asked::Sim => simulate(alloc, reader, writer, faults),
        Asked::Timeouts { numbers } => timeouts_of(alloc, &numbers, writer, faults),
        Asked::Init => write_init(writer, faults),
        Asked::Node { .. }
        | Asked::Check { .. }
        | Asked::Ask { .. }
        | Asked::Leave { .. }
        | Asked::Replay { .. }
        | Asked::Explain { .. }
        | Asked::Version => unreachable!(),
    }
}

/// The moment at which a node ends that runs for some milliseconds.
fn end_after(for_ms: Option<u64>) -> Option<Moment>
    requires { IfSome for_ms (λ ms. (1 ≤ ms) × (ms ≤ MAX_RUN_MS)) }
    ensures { result ≡ for_ms }
{
    match for_ms {
        Some(ms) => Some(Moment::new(ms).unwrap()),
        None => None,
    }
}

/// Reports why the words of the command line couldn't be read, and gives the status. Either memory was refused, or
/// the words aren't UTF-8, which refuses the command line (this project's choice). A line that `faults` doesn't take
/// is dropped.
pub fn refuse_words<F: FaultStream>(error: &io::Error, faults: &mut F) -> u8
    ensures memory { error_kind error.now ≡ IoErrorKind.OutOfMemory → result ≡ FAILED }
    ensures memory_told { error_kind error.now ≡ IoErrorKind.OutOfMemory
        → Reports (F.reported faults.old) (F.reported faults.new) (run_fault_text RunFault.Memory) }
    ensures usage { error_kind error.now ≢ IoErrorKind.OutOfMemory → result ≡ USAGE }
    ensures usage_told { error_kind error.now ≢ IoErrorKind.OutOfMemory
        → Reports (F.reported faults.old) (F.reported faults.new) foreign_text }
{
    if error.kind() == IoErrorKind::OutOfMemory {
        report(faults, RunFault::Memory.text());
        FAILED
    } else {
        report(faults, "error: the command line isn't UTF-8\n");
        USAGE
    }
}
