//! The accounts so far, and the episode that runs.
//!
//! Defined in: `specs/Meaning/Episodes.antt`, `specs/Meaning/Accounts.antt`, `specs/Support/Episodes.antt`.
//! Tested in: `lg_explain_tests/src/explaining.rt`.
ghost use Rattle.std.specs.Prelude.{◌≡◌, ◌∷◌, ◌++◌, [], IfOk, List, OnOk, filter, map, true};
ghost use Rattle.lg_accounts.specs.Meaning.Values.{account_value, note_value};
ghost use Rattle.lg_explain.specs.Meaning.Accounts.{account_of, accounts_told};
ghost use Rattle.lg_explain.specs.Meaning.Episodes.{episodes, came_by, is_told_by, tells_it, verdict_or};
ghost use Rattle.lg_explain.specs.Meaning.Told.{EntryTold};
ghost use Rattle.lg_explain.specs.declared.question.MemberQuestion.{MemberQuestion as Asked};
ghost use Rattle.lg_explain.specs.Support.Episodes.{HasEpisode, HasGathered, told_value};

use crate::question::MemberQuestion;
use lg_accounts::{Account, Note};
use lg_detector::NoMemory;
use lg_timing::Moment;
use std::alloc::Global;
use std::mem;

/// What matters of an entry for the accounts.
#[derive(Drop)]
pub(crate) struct Told {
    /// Whether an episode begins with it.
    pub(crate) begins: bool,
    /// Whether it changed the member's record to suspect, failed or left.
    pub(crate) is_verdict: bool,
    /// Whether all events since the opening are known behind it.
    pub(crate) is_known: bool,
    /// What it tells.
    pub(crate) note: Note,
}

/// The accounts so far, and the episode that runs.
#[derive(Drop)]
pub(crate) struct Gathered {
    /// The notes of the episode that runs: those that tell something.
    pub(crate) notes: Vec<Note>,
    /// The moment of its first verdict, if there is one.
    pub(crate) first: Option<Moment>,
    /// Whether all events since the opening are known behind its last entry.
    pub(crate) is_known: bool,
    /// The accounts of the episodes before it.
    pub(crate) accounts: Vec<Account>,
}

/// Whether the first verdict of an episode came at a moment or before.
fn came_by(at: Moment, first: Option<Moment>) -> bool
    ensures { result ≡ came_by at first }
{
    match first {
        None => false,
        Some(moment) => moment.milliseconds() <= at.milliseconds(),
    }
}

/// The first verdict of an episode that has one more entry, of this moment, by the first one before it.
fn verdict_or(is_verdict: bool, moment: Moment, first: Option<Moment>) -> Option<Moment>
    ensures { result ≡ verdict_or is_verdict moment first }
{
    match first {
        Some(first) => Some(first),
        None if is_verdict => Some(moment),
        None => None,
    }
}

/// Puts a note behind others, if it tells something.
fn put_note(notes: &mut Vec<Note>, note: Note) -> Result<(), NoMemory>
    ensures { OnOk result (map note_value notes.new.items
        ≡ map note_value notes.old.items ++ filter tells_it (note_value note ∷ [])) }
{
    if note.steps.is_empty() {
        return Ok(());
    }
    notes.push(note)?;
    Ok(())
}

/// Puts the account of an episode behind those before it, or in their place if only the last one is asked for.
fn put_account(
    accounts: &mut Vec<Account>,
    question: &MemberQuestion,
    account: Account,
) -> Result<(), NoMemory>
    ensures { OnOk result ((episode : List EntryTold) (runs : List (List EntryTold))
        → map account_value accounts.old.items ≡ accounts_told question.now runs
        → is_told_by question.now.at episode ≡ true → account_value account ≡ account_of episode
        → map account_value accounts.new.items ≡ accounts_told question.now (episode ∷ runs)) }
{
    if !question.all {
        accounts.clear();
    }
    accounts.push(account)?;
    Ok(())
}

impl Gathered {
    /// Nothing was told.
    pub(crate) fn new(alloc: Global) -> Gathered
        ensures { (question : Asked) → HasGathered result question [] }
    {
        Gathered {
            notes: Vec::new(alloc),
            first: None,
            is_known: false,
            accounts: Vec::new(alloc),
        }
    }

    /// Ends the episode that runs. It becomes an account, if it is one of those that are asked for.
    fn end_episode(&mut self, alloc: Global, question: &MemberQuestion) -> Result<(), NoMemory>
        ensures { OnOk result ((episode : List EntryTold) (runs : List (List EntryTold))
            → HasEpisode self.old question.now episode runs → HasEpisode self.new question.now [] (episode ∷ runs)) }
    {
        let notes = mem::replace(&mut self.notes, Vec::new(alloc));
        if came_by(question.at, self.first) {
            let account = Account {
                notes,
                is_known: self.is_known,
            };
            put_account(&mut self.accounts, question, account)?;
        }
        self.first = None;
        self.is_known = false;
        Ok(())
    }

    /// Adds an entry to the episode that runs.
    fn go_on(&mut self, told: Told) -> Result<(), NoMemory>
        ensures { OnOk result ((question : Asked) (episode : List EntryTold) (runs : List (List EntryTold))
            → HasEpisode self.old question episode runs
            → HasEpisode self.new question (told_value told ∷ episode) runs) }
    {
        let Told {
            is_verdict,
            is_known,
            note,
            ..
        } = told;
        self.first = verdict_or(is_verdict, note.moment, self.first);
        self.is_known = is_known;
        put_note(&mut self.notes, note)
    }

    /// Adds an entry: to the episode that runs, or as the first of another one.
    pub(crate) fn add(
        &mut self,
        alloc: Global,
        question: &MemberQuestion,
        told: Told,
    ) -> Result<(), NoMemory>
        ensures { OnOk result ((before : List EntryTold) → HasGathered self.old question.now before
            → HasGathered self.new question.now (told_value told ∷ before)) }
    {
        if told.begins {
            self.end_episode(alloc, question)?;
        }
        self.go_on(told)
    }

    /// Ends the episode that runs, and gives the accounts that are asked for.
    pub(crate) fn finish(
        mut self,
        alloc: Global,
        question: &MemberQuestion,
    ) -> Result<Vec<Account>, NoMemory>
        ensures { IfOk result (λ accounts. (told : List EntryTold) → HasGathered self question.now told
            → map account_value accounts.items ≡ accounts_told question.now (episodes told)) }
    {
        self.end_episode(alloc, question)?;
        Ok(self.accounts)
    }
}
