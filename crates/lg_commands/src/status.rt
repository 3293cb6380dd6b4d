//! Runs a command, reports why it failed, and gives the exit status.
//!
//! Defined in: `specs/Meaning/Running.antt`, `specs/Meaning/Choosing.antt`, `lg_rules/specs/Meaning/Name.antt`.
//! Tested in: `cases/command_line.case`, `cases/order.case`, `cases/timeouts_command.case`, `cases/init.case`,
//! `lg_command_refusals/src/plays.rt`.
ghost use Rattle.std.specs.Prelude.{◌≡◌, ◌≢◌, ◌⊎◌, Err, IfOk, true};
ghost use Rattle.std.specs.Result.{is_err};
ghost use Rattle.lg_rules.specs.Meaning.Name.{name_of_text};
ghost use Rattle.lg_text.specs.Meaning.Reporting.{Reports};
ghost use Rattle.lg_text.specs.Meaning.Running.{AppendsFront, ReadsWhole};
ghost use Rattle.lg_commands.specs.Meaning.Choosing.{order_text};
ghost use Rattle.lg_commands.specs.Meaning.Faults.{bad_list_text};
ghost use Rattle.lg_commands.specs.Meaning.Init.{init_text};
ghost use Rattle.lg_commands.specs.Meaning.Running.{FailsBy, RunsAnswer, RunsInit, RunsOrder, RunsSim, RunsTimeouts};
ghost use Rattle.lg_commands.specs.Meaning.Running.{RunsVersion};
ghost use Rattle.lg_commands.specs.Meaning.Timeouts.{are_good};
ghost use Rattle.lg_commands.specs.Meaning.Version.{version_text};

use crate::init::init_text;
use crate::order::{BadList, OrderFault};
use crate::run::{answer_run, order_run, timeouts_run, version_run};
use crate::timeouts::Numbers;
use lg_rules::Name;
use lg_text::{FaultStream, report, write_text};
use std::alloc::Global;
use std::io::{Read, Write};

/// The status of a run that failed because of memory, a read or a write.
pub const FAILED: u8 = 1;

/// The status of a command line that is refused.
pub const USAGE: u8 = 2;

/// The status of bad input.
pub const BAD_INPUT: u8 = 3;

/// Runs `answer` for a text that should be a name, as [`answer_run`] does. Gives the status: 0, or [`BAD_INPUT`] if
/// some line is faulty.
///
/// If the text is no name, `lg: bad names` is reported, nothing is read or written, and the status is [`BAD_INPUT`].
/// A run that fails is reported, and its status is [`FAILED`]. A line that `faults` doesn't take is dropped.
pub fn answer_named<R: Read, W: Write, F: FaultStream>(
    alloc: Global,
    name: &str,
    reader: &mut R,
    writer: &mut W,
    faults: &mut F,
) -> u8
    ensures answered { result ≢ FAILED → IfOk (name_of_text name.now) (λ name. RunsAnswer (R.remaining reader.old)
        (R.remaining reader.new) (W.contents writer.old) (W.contents writer.new) (F.reported faults.old)
        (F.reported faults.new) name result) }
    ensures bad_name { is_err (name_of_text name.now) ≡ true → result ≡ BAD_INPUT }
    ensures unread { is_err (name_of_text name.now) ≡ true → reader.new ≡ reader.old }
    ensures unnamed { is_err (name_of_text name.now) ≡ true → writer.new ≡ writer.old }
    ensures told { is_err (name_of_text name.now) ≡ true
        → Reports (F.reported faults.old) (F.reported faults.new) (bad_list_text BadList.Names) }
    ensures failed { result ≡ FAILED
        → FailsBy (F.reported faults.old) (F.reported faults.new) writer.old writer.new }
    ensures read { result ≡ FAILED
        → (writer.new ≡ writer.old) ⊎ ReadsWhole (R.remaining reader.old) (R.remaining reader.new) }
    ensures run { result ≢ USAGE }
{
    let name = match Name::new(name.as_bytes()) {
        Ok(name) => name,
        Err(_) => {
            report(faults, BadList::Names.text());
            return BAD_INPUT;
        }
    };
    match answer_run(alloc, reader, writer, &name) {
        Ok(end) => end as u8,
        Err(fault) => {
            report(faults, fault.text());
            FAILED
        }
    }
}

/// Runs `sim`, as [`lg_sim::run`] does. Gives the status: 0, or [`BAD_INPUT`] if some line is faulty.
///
/// A run that fails is reported, and its status is [`FAILED`]. A line that `faults` doesn't take is dropped.
pub fn simulate<R: Read, W: Write, F: FaultStream>(
    alloc: Global,
    reader: &mut R,
    writer: &mut W,
    faults: &mut F,
) -> u8
    ensures simulated { result ≢ FAILED → RunsSim (R.remaining reader.old) (R.remaining reader.new)
        (W.contents writer.old) (W.contents writer.new) (F.reported faults.old) (F.reported faults.new) result }
    ensures failed { result ≡ FAILED
        → FailsBy (F.reported faults.old) (F.reported faults.new) writer.old writer.new }
    ensures read { result ≡ FAILED
        → (writer.new ≡ writer.old) ⊎ ReadsWhole (R.remaining reader.old) (R.remaining reader.new) }
    ensures run { result ≢ USAGE }
{
    match lg_sim::run(alloc, reader, writer) {
        Ok(end) => end as u8,
        Err(fault) => {
            report(faults, fault.text());
            FAILED
        }
    }
}

/// Runs `order` for texts that should list names and words, as [`order_run`] does. Gives the status, which is 0 if
/// all was written.
///
/// If a list is bad, `lg: bad names` or `lg: bad words` is reported, nothing is written, and the status is
/// [`BAD_INPUT`]. A run that fails is reported, and its status is [`FAILED`]. A line that `faults` doesn't take is
/// dropped.
pub fn order_lists<W: Write, F: FaultStream>(
    alloc: Global,
    names: &str,
    words: &str,
    writer: &mut W,
    faults: &mut F,
) -> u8
    ensures ordered { result ≢ FAILED → RunsOrder (W.contents writer.old) (W.contents writer.new)
        (F.reported faults.old) (F.reported faults.new) (order_text names.now words.now) result }
    ensures names { order_text names.now words.now ≡ Err BadList.Names → result ≡ BAD_INPUT }
    ensures unlisted { is_err (order_text names.now words.now) ≡ true → writer.new ≡ writer.old }
    ensures failed { result ≡ FAILED
        → FailsBy (F.reported faults.old) (F.reported faults.new) writer.old writer.new }
    ensures run { result ≢ USAGE }
{
    match order_run(alloc, writer, names, words) {
        Ok(()) => 0,
        Err(OrderFault::Bad(list)) => {
            report(faults, list.text());
            BAD_INPUT
        }
        Err(OrderFault::Run(fault)) => {
            report(faults, fault.text());
            FAILED
        }
    }
}

/// Runs `timeouts` for good numbers, as [`timeouts_run`] does. Gives the status, which is 0 if all was written.
///
/// A run that fails is reported, and its status is [`FAILED`]. A line that `faults` doesn't take is dropped.
pub fn timeouts_of<W: Write, F: FaultStream>(
    alloc: Global,
    numbers: &Numbers,
    writer: &mut W,
    faults: &mut F,
) -> u8
    requires { are_good numbers.now ≡ true }
    ensures timed { result ≢ FAILED → RunsTimeouts (W.contents writer.old) (W.contents writer.new)
        (F.reported faults.old) (F.reported faults.new) numbers.now result }
    ensures failed { result ≡ FAILED
        → FailsBy (F.reported faults.old) (F.reported faults.new) writer.old writer.new }
    ensures run { result ≢ USAGE }
{
    match timeouts_run(alloc, writer, numbers) {
        Ok(()) => 0,
        Err(fault) => {
            report(faults, fault.text());
            FAILED
        }
    }
}

/// Runs `init`: writes a configuration of a node to begin with, and nothing else. Gives the status, which is 0 if all
/// was written.
///
/// The text is TOML, with a comment on each key (this project's choice). A file that has it is a configuration of the
/// member `a` at 127.0.0.1:7946, which writes version 3 and has a status server. No memory is allocated.
///
/// A write that fails is reported, and the status is [`FAILED`]. A beginning of the text is written then: none of it, a
/// part or all. A line that `faults` doesn't take is dropped.
pub fn write_init<W: Write, F: FaultStream>(writer: &mut W, faults: &mut F) -> u8
    ensures written { result ≢ FAILED → RunsInit (W.contents writer.old) (W.contents writer.new)
        (F.reported faults.old) (F.reported faults.new) result }
    ensures failed { result ≡ FAILED
        → FailsBy (F.reported faults.old) (F.reported faults.new) writer.old writer.new }
    ensures partly { result ≡ FAILED
        → AppendsFront (W.contents writer.old) (W.contents writer.new) init_text }
    ensures run { result ≢ USAGE }
{
    match write_text(writer, init_text().as_bytes()) {
        Ok(()) => 0,
        Err(fault) => {
            report(faults, fault.text());
            FAILED
        }
    }
}

/// Runs `version`, as [`version_run`] does, for the end of the program's file. Gives the status, which is 0 if all was
/// written.
///
/// A run that fails is reported, and its status is [`FAILED`]. If it is a write that fails, a beginning of the text is
/// written: none of it, a part or all. A line that `faults` doesn't take is dropped.
pub fn write_version<W: Write, F: FaultStream>(
    alloc: Global,
    end: &[u8],
    writer: &mut W,
    faults: &mut F,
) -> u8
    ensures written { result ≢ FAILED → RunsVersion (W.contents writer.old) (W.contents writer.new)
        (F.reported faults.old) (F.reported faults.new) end.now result }
    ensures failed { result ≡ FAILED
        → FailsBy (F.reported faults.old) (F.reported faults.new) writer.old writer.new }
    ensures partly { result ≡ FAILED → (writer.new ≡ writer.old)
        ⊎ AppendsFront (W.contents writer.old) (W.contents writer.new) (version_text end.now) }
    ensures run { result ≢ USAGE }
{
    match version_run(alloc, writer, end) {
        Ok(()) => 0,
        Err(fault) => {
            report(faults, fault.text());
            FAILED
        }
    }
}
