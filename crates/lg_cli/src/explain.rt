//! The command `explain`.
//!
//! Defined in: `specs/Meaning/Running.antt`, `lg_commands/specs/Meaning/Explaining.antt`,
//! `lg_explain_run/specs/Meaning/Running.antt`.
//! Tested in: `cases/explain.case`, `cases/recordings`.
ghost use Rattle.std.specs.Prelude.{◌≡◌};
ghost use Rattle.std.specs.Option.{option_map};
ghost use Rattle.lg_commands.specs.Meaning.Explaining.{explained_of};
ghost use Rattle.lg_cli.specs.Meaning.Running.{ExplainsPart, form_of};

use lg_command_line::ExplainWords;
use lg_commands::part_to_explain;
use lg_explain_run::{AccountForm, MachineFiles, MemberQuestion, explain_page, explain_recording};
use lg_text::FaultStream;
use std::alloc::Global;
use std::io::Write;
use std::rt::Files;

/// How the accounts are written as lines. JSON has the numbers of the entries in any case.
fn form_of(entries: bool, json: bool) -> AccountForm
    ensures { result ≡ form_of entries json }
{
    if json {
        AccountForm::Json
    } else if entries {
        AccountForm::NumberedLines
    } else {
        AccountForm::Lines
    }
}

/// Tells about the member that the command asks for from its recording, and gives the exit status: that of
/// [`part_to_explain`] if a text is bad, else that of [`explain_page`] if a file for a page is named, and else that of
/// [`explain_recording`]. A page has no use for the forms of lines.
pub(crate) fn explain_part<M, W, F>(
    rt: &M,
    alloc: Global,
    words: &ExplainWords<'_>,
    writer: &mut W,
    faults: &mut F,
) -> u8
where
    M: Files + AllocGlobal + Clone + Drop,
    W: Write,
    F: FaultStream,
    ensures { ExplainsPart writer.old writer.new (W.contents writer.old) (W.contents writer.new)
        (F.reported faults.old) (F.reported faults.new)
        (explained_of words.now.folder.now words.now.name.now words.now.at words.now.all)
        (option_map (λ path. path.now) words.now.html) (form_of words.now.entries words.now.json) result }
{
    let part = match part_to_explain(words.folder, words.name, words.at, words.all, faults) {
        Ok(part) => part,
        Err(status) => return status,
    };
    let question = MemberQuestion {
        name: part.name,
        at: part.at,
        all: part.all,
    };
    let folder = part.folder.as_str();
    match words.html {
        Some(path) => explain_page(
            rt,
            alloc,
            folder,
            &question,
            path,
            &mut MachineFiles::new(rt),
            faults,
        ),
        None => {
            let form = form_of(words.entries, words.json);
            explain_recording(rt, alloc, folder, &question, form, writer, faults)
        }
    }
}
