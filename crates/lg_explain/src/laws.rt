//! Laws of accounts. The call does nothing.
//!
//! Defined in: `specs/Meaning/Sources.antt`, `specs/Meaning/Explanations.antt`.
//! Tested in: nothing that runs, since they are laws.
ghost use Rattle.std.specs.Prelude.{ℕ, List};
ghost use Rattle.std.specs.List.{AllByRecursion};
ghost use Rattle.lg_explain.specs.Meaning.Explanations.{accounts_of};
ghost use Rattle.lg_explain.specs.Meaning.Places.{recording_read};
ghost use Rattle.lg_explain.specs.Meaning.Sources.{HasNotesOf};
ghost use Rattle.lg_explain.specs.declared.question.MemberQuestion.{MemberQuestion as Asked};

/// Whatever the bytes of the files are: each note of each account is what an entry of the recording tells behind those
/// before it, with the number of that entry in its life, its moment and its wall time.
pub fn notes_are_of_entries()
    ensures { (question : Asked) (files : List (List ℕ))
        → AllByRecursion (HasNotesOf (recording_read question.name files).entries) (accounts_of question files) }
{}
