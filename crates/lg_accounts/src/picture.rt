//! Draws the entries of an account in time, as SVG.
//!
//! Each function here that takes a `String` appends to it. If memory is refused, that is its only error, and the text
//! may have grown by a part of what was to be appended.
//!
//! Defined in: `specs/Meaning/Pages.antt`.
//! Tested in: `lg_explain_tests/src/pages.rt`.
ghost use Rattle.std.specs.Prelude.{◌≡◌, ◌++◌, OnOk, map, string_bytes};
ghost use Rattle.std.specs.List.{flat_map};
ghost use Rattle.lg_accounts.specs.Meaning.Pages.{ended_class, lane_text, lanes, mark_front, moment_of_first};
ghost use Rattle.lg_accounts.specs.Meaning.Pages.{moment_of_last, moment_x, note_marks, picture_marks, picture_tag};
ghost use Rattle.lg_accounts.specs.Meaning.Pages.{picture_text, scored_class, status_class, step_class, step_mark};
ghost use Rattle.lg_accounts.specs.Meaning.Pages.{step_y, time_of};
ghost use Rattle.lg_accounts.specs.Meaning.Values.{note_value};

use crate::account::Note;
use crate::sentences::put_sentence;
use crate::step::NoteStep;
use lg_detector::NoMemory;
use lg_rules::Status;
use lg_timing::Moment;

/// The time that a picture shows.
#[derive(Clone, Copy, Debug, PartialEq, Eq)]
struct ShownTime {
    /// The moment at its left end.
    first: Moment,
    /// The moment at its right end.
    last: Moment,
}

/// The moment of the first of some entries, or 0 if there is none.
fn moment_of_first(notes: &[Note]) -> Moment
    ensures { result ≡ moment_of_first (map note_value notes.now) }
{
    match notes {
        [] => Moment::default(),
        [note, ..] => note.moment,
    }
}

/// The moment of the last of some entries, or 0 if there is none.
fn moment_of_last(notes: &[Note]) -> Moment
    ensures { result ≡ moment_of_last (map note_value notes.now) }
{
    match notes {
        [] => Moment::default(),
        [.., note] => note.moment,
    }
}

/// The time that the picture of some entries shows.
#[tactic(auto, unfolding(crate::specs::Meaning::Pages::time_of))]
fn time_of(notes: &[Note]) -> ShownTime
    ensures { result ≡ time_of (map note_value notes.now) }
{
    ShownTime {
        first: moment_of_first(notes),
        last: moment_of_last(notes),
    }
}

/// Where a moment lies in a picture.
#[tactic(auto, unfolding(crate::specs::Meaning::Pages::moment_x))]
fn moment_x(time: &ShownTime, moment: Moment) -> u64
    ensures { result ≡ moment_x time.now moment }
{
    let first = time.first.milliseconds();
    let last = time.last.milliseconds();
    if first < last {
        let passed = moment.milliseconds().saturating_sub(first);
        (100 + passed * 840 / (last - first)).min(940)
    } else {
        100
    }
}

/// Where the lane of a step lies in a picture.
fn step_y(step: &NoteStep) -> u64
    ensures { result ≡ step_y step.now }
{
    match step {
        NoteStep::Pinged { .. } | NoteStep::Unanswered { .. } | NoteStep::RoundEnded { .. } => 20,
        NoteStep::Acked { .. } | NoteStep::Nacked { .. } => 50,
        NoteStep::Told { .. } => 80,
        NoteStep::Scored { .. } | NoteStep::Minute { .. } => 110,
        NoteStep::Changed { .. } | NoteStep::TimeOver | NoteStep::Suspected { .. } => 140,
    }
}

/// The class of the mark of a status.
fn status_class(status: &Status) -> &'static str
    ensures { result.now ≡ status_class status.now }
{
    match status {
        Status::Alive => "alive",
        Status::Suspect(_) => "suspect",
        Status::Failed | Status::Left => "gone",
    }
}

/// The class of the mark of the end of a round.
fn ended_class(is_failed: bool) -> &'static str
    ensures { result.now ≡ ended_class is_failed }
{
    if is_failed { "late" } else { "probe" }
}

/// The class of the mark of a change of the score.
fn scored_class(before: u64, after: u64) -> &'static str
    ensures { result.now ≡ scored_class before after }
{
    if before < after { "late" } else { "ack" }
}

/// The class of the mark of a step.
fn step_class(step: &NoteStep) -> &'static str
    ensures { result.now ≡ step_class step.now }
{
    match step {
        NoteStep::Pinged { .. } | NoteStep::Minute { .. } => "probe",
        NoteStep::Unanswered { .. } | NoteStep::Nacked { .. } => "late",
        NoteStep::RoundEnded { is_failed } => ended_class(*is_failed),
        NoteStep::Acked { .. } => "ack",
        NoteStep::Told { claim } => status_class(&claim.status),
        NoteStep::Scored { before, after } => scored_class(*before, *after),
        NoteStep::Changed { record } => status_class(&record.status),
        NoteStep::TimeOver => "gone",
        NoteStep::Suspected { .. } => "suspect",
    }
}

/// Appends what stands before the sentences of a mark.
#[tactic(auto, unfolding(crate::specs::Meaning::Pages::mark_front))]
fn put_mark_front(
    x: u64,
    y: u64,
    class: &str,
    moment: u64,
    text: &mut String,
) -> Result<(), NoMemory>
    ensures { OnOk result (string_bytes text.new ≡ string_bytes text.old ++ mark_front x y class.now moment) }
{
    write!(
        text,
        "<circle cx=\"{x}\" cy=\"{y}\" r=\"5\" class=\"{class}\"><title>{moment} "
    )
}

/// Appends the mark of a step of an entry.
#[tactic(auto, unfolding(crate::specs::Meaning::Pages::step_mark))]
fn put_mark(
    time: &ShownTime,
    note: &Note,
    step: &NoteStep,
    text: &mut String,
) -> Result<(), NoMemory>
    ensures { OnOk result (string_bytes text.new
        ≡ string_bytes text.old ++ step_mark time.now (note_value note.now) step.now) }
{
    let x = moment_x(time, note.moment);
    put_mark_front(
        x,
        step_y(step),
        step_class(step),
        note.moment.milliseconds(),
        text,
    )?;
    put_sentence(&note.teller, step, text)?;
    text.push_str("</title></circle>\n")
}

/// Appends the marks of an entry.
fn put_note_marks(time: &ShownTime, note: &Note, text: &mut String) -> Result<(), NoMemory>
    ensures { OnOk result (string_bytes text.new
        ≡ string_bytes text.old ++ note_marks time.now (note_value note.now)) }
{
    for step in &note.steps {
        put_mark(time, note, step, text)?;
    }
    Ok(())
}

/// Appends the marks of entries.
fn put_marks(time: &ShownTime, notes: &[Note], text: &mut String) -> Result<(), NoMemory>
    ensures { OnOk result (string_bytes text.new
        ≡ string_bytes text.old ++ flat_map (note_marks time.now) (map note_value notes.now)) }
{
    for note in notes {
        put_note_marks(time, note, text)?;
    }
    Ok(())
}

/// Appends the marks of entries in the time from the first of them to the last.
#[tactic(auto, unfolding(crate::specs::Meaning::Pages::picture_marks))]
fn put_picture_marks(notes: &[Note], text: &mut String) -> Result<(), NoMemory>
    ensures { OnOk result (string_bytes text.new
        ≡ string_bytes text.old ++ picture_marks (map note_value notes.now)) }
{
    put_marks(&time_of(notes), notes, text)
}

/// Appends a lane.
#[tactic(auto, unfolding(crate::specs::Meaning::Pages::lane_text))]
fn put_lane(word: &str, y: u64, text: &mut String) -> Result<(), NoMemory>
    ensures { OnOk result (string_bytes text.new ≡ string_bytes text.old ++ lane_text word.now y) }
{
    write!(
        text,
        "<text x=\"0\" y=\"{y}\">{word}</text><line x1=\"100\" y1=\"{y}\" x2=\"940\" y2=\"{y}\"/>\n"
    )
}

/// Appends the lanes.
#[tactic(auto, unfolding(crate::specs::Meaning::Pages::lanes))]
fn put_lanes(text: &mut String) -> Result<(), NoMemory>
    ensures { OnOk result (string_bytes text.new ≡ string_bytes text.old ++ lanes) }
{
    put_lane("Probes", 20, text)?;
    put_lane("Answers", 50, text)?;
    put_lane("Claims", 80, text)?;
    put_lane("Score", 110, text)?;
    put_lane("Record", 140, text)
}

/// What stands before the lanes.
#[tactic(auto, unfolding(crate::specs::Meaning::Pages::picture_tag))]
fn picture_tag() -> &'static str
    ensures { result.now ≡ picture_tag }
{
    "<svg viewBox=\"0 0 960 165\" role=\"img\">\n"
}

/// Appends the picture of some entries.
#[tactic(auto, unfolding(crate::specs::Meaning::Pages::picture_text))]
pub(crate) fn put_picture(notes: &[Note], text: &mut String) -> Result<(), NoMemory>
    ensures { OnOk result (string_bytes text.new
        ≡ string_bytes text.old ++ picture_text (map note_value notes.now)) }
{
    text.push_str(picture_tag())?;
    put_lanes(text)?;
    put_picture_marks(notes, text)?;
    text.push_str("</svg>\n")
}
