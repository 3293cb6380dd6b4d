//! The names of the commands.
//!
//! Defined in: `specs/Meaning/Words.antt`.
//! Tested in: `cases/sim_lines.case`.
ghost use Rattle.std.specs.Prelude.{◌≡◌};
ghost use Rattle.lg_script.specs.Meaning.Words.{takes_words, verb_of};

/// Which command a line gives.
#[derive(Clone, Copy, Debug, PartialEq, Eq)]
pub(crate) enum Verb {
    /// `set KEY NUMBER` or `set group NAME`.
    Set,
    /// `open NAME PORT MOMENT SEED..`.
    Open,
    /// `tick NAME MOMENT WORD..`.
    Tick,
    /// `deliver PACKET MOMENT`.
    Deliver,
    /// `ask NAME MOMENT OTHER`.
    Ask,
    /// `health NAME MOMENT`.
    Health,
    /// `pull NAME MOMENT PORT`.
    Pull,
    /// `leave NAME MOMENT WORD..`.
    Leave,
    /// `table NAME`.
    Table,
}

/// The command that a word names.
#[tactic(auto, unfolding(crate::specs::Meaning::Words::verb_of))]
pub(crate) fn verb_of(word: &[u8]) -> Option<Verb>
    ensures { result ≡ verb_of word.now }
{
    if word == b"set".as_slice() {
        Some(Verb::Set)
    } else if word == b"open".as_slice() {
        Some(Verb::Open)
    } else if word == b"tick".as_slice() {
        Some(Verb::Tick)
    } else if word == b"deliver".as_slice() {
        Some(Verb::Deliver)
    } else if word == b"ask".as_slice() {
        Some(Verb::Ask)
    } else if word == b"health".as_slice() {
        Some(Verb::Health)
    } else if word == b"pull".as_slice() {
        Some(Verb::Pull)
    } else if word == b"leave".as_slice() {
        Some(Verb::Leave)
    } else if word == b"table".as_slice() {
        Some(Verb::Table)
    } else {
        None
    }
}

/// Whether the command takes this many words after its name.
pub(crate) fn takes_words(verb: Verb, words: usize) -> bool
    ensures { result ≡ takes_words verb words }
{
    match verb {
        Verb::Set | Verb::Deliver | Verb::Health => words == 2,
        Verb::Open => words >= 3,
        Verb::Tick | Verb::Leave => (2..=10).contains(&words),
        Verb::Ask | Verb::Pull => words == 3,
        Verb::Table => words == 1,
    }
}
