//! Laws of replays. The call does nothing.
//!
//! Defined in: `specs/Meaning/Replays.antt`.
//! Tested in: nothing that runs, since they are laws.
ghost use Rattle.std.specs.Prelude.{◌≡◌, ◌∷◌, ◌++◌, [], List};
ghost use Rattle.lg_replay.specs.declared.window.Window.{Window as Chosen};
ghost use Rattle.lg_replay.specs.Meaning.Files.{RecordingFile, file_text};
ghost use Rattle.lg_replay.specs.Meaning.Lives.{unknown_life};
ghost use Rattle.lg_replay.specs.Meaning.Replays.{all_verdicts, files_text, lives_over, replay_text};
ghost use Rattle.lg_replay.specs.Meaning.Verdicts.{counts_line};

/// What is told of files, one after another. Nothing is told of none. One more adds what
/// [`Replayer::replay_file`](crate::Replayer::replay_file) appends for it, and behind all of them
/// [`Replayer::finish`](crate::Replayer::finish) appends the last line. So the text of a replay is that of the
/// definition.
pub fn replays_go_on()
    ensures none { (window : Chosen) → files_text window unknown_life [] ≡ [] }
    ensures more { (window : Chosen) (files : List RecordingFile) (file : RecordingFile)
        → files_text window unknown_life (files ++ file ∷ [])
        ≡ files_text window unknown_life files ++ file_text window (lives_over unknown_life files) file }
    ensures all { (window : Chosen) (files : List RecordingFile)
        → replay_text window files
        ≡ files_text window unknown_life files ++ counts_line (all_verdicts unknown_life files) }
{}
