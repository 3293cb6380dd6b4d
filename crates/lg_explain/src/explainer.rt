//! Explains recordings, file by file.
//!
//! Defined in: `specs/Meaning/Explanations.antt`, `specs/Support/Explained.antt`.
//! Tested in: `lg_explain_tests/src/explaining.rt`.
ghost use Rattle.std.specs.Prelude.{◌≡◌, ◌++◌, ◌∷◌, [], ℕ, IfOk, List, OnOk, map};
ghost use Rattle.lg_heads.specs.Meaning.Heads.{head_value};
ghost use Rattle.lg_recording.specs.Meaning.Listing.{entries_scan};
ghost use Rattle.lg_recording.specs.Meaning.Next.{recorded_in};
ghost use Rattle.lg_accounts.specs.Meaning.Values.{account_value};
ghost use Rattle.lg_explain.specs.Meaning.Explanations.{accounts_of};
ghost use Rattle.lg_explain.specs.Meaning.Places.{FilesRead, entries_read, entry_read, head_read};
ghost use Rattle.lg_explain.specs.Support.Explained.{ReadsOn, HasExplained};
ghost use Rattle.lg_explain.specs.declared.question.MemberQuestion.{MemberQuestion as Asked};

use crate::gathered::Gathered;
use crate::position::Position;
use crate::question::MemberQuestion;
use lg_accounts::Account;
use lg_detector::NoMemory;
use lg_fields::FieldReader;
use lg_heads::{Head, HeadFault};
use lg_recording::{Entries, Recorded};
use lg_replay::{next_of, read_file_head};
use std::alloc::{AllocError, Global};

/// What is known of a member behind some files of a recording: the accounts so far.
#[derive(Drop)]
pub struct Explainer {
    /// What is asked for.
    pub(crate) question: MemberQuestion,
    /// What is kept where the next entry stands.
    pub(crate) position: Position,
    /// The accounts so far.
    pub(crate) gathered: Gathered,
}

impl Explainer {
    /// An explainer that has seen no file. It allocates a detector; the only error is that memory was refused.
    pub fn new(alloc: Global, question: MemberQuestion) -> Result<Explainer, NoMemory>
        ensures { IfOk result (λ explainer. HasExplained explainer question []) }
    {
        let position = Position::new(alloc)?;
        let gathered = Gathered::new(alloc);
        Ok(Explainer {
            question,
            position,
            gathered,
        })
    }

    /// Goes through an entry of a file.
    fn take_entry(
        &mut self,
        alloc: Global,
        head: &Head<'_>,
        recorded: &Recorded,
    ) -> Result<(), NoMemory>
        ensures { OnOk result (ReadsOn self.old self.new (λ r.
            entry_read self.old.question.name (head_value head.entry.now) r (recorded_in recorded.now))) }
    {
        let told = self
            .position
            .follow(alloc, &self.question.name, head, recorded)?;
        self.gathered.add(alloc, &self.question, told)
    }

    /// Goes through the entries of a file, up to the first fault.
    fn take_entries(
        &mut self,
        alloc: Global,
        head: &Head<'_>,
        reader: &mut Entries<'_>,
    ) -> Result<(), NoMemory>
        ensures { OnOk result (ReadsOn self.old self.new (λ r.
            entries_read self.old.question.name (head_value head.entry.now) r
            (entries_scan reader.old.rest.now).entries)) }
    {
        'entries: loop {
            let bytes = reader.rest;
            match next_of(reader, bytes) {
                Ok(None) => return Ok(()),
                Ok(Some(recorded)) => self.take_entry(alloc, head, &recorded)?,
                Err(_) => return Ok(()),
            }
        }
    }

    /// Goes through a file whose head was read.
    fn take_read(&mut self, alloc: Global, head: &Head<'_>, rest: &[u8]) -> Result<(), NoMemory>
        ensures { OnOk result (ReadsOn self.old self.new (λ r.
            entries_read self.old.question.name (head_value head.entry.now)
            (head_read self.old.question.name (head_value head.entry.now) r) (entries_scan rest.now).entries)) }
    {
        self.position.enter(alloc, &self.question.name, head)?;
        self.take_entries(alloc, head, &mut Entries { rest })
    }

    /// Takes a file of a recording behind those before it, by its bytes. The files have to be taken in the order of
    /// their numbers. Entries are read up to the first fault. A file whose head can't be read tells nothing.
    ///
    /// If a life begins with the file, a detector is allocated, and else the table of its head, for this moment. Beside
    /// these only the accounts, the notes of the episode that runs, and of the last minute the ends of rounds and for
    /// how long the clock stood still may grow. Time is in proportion to the bytes, and to what the detector needs for
    /// their events.
    ///
    /// The error is that memory was refused. It comes too if the number of an entry doesn't fit 64 bits, which no
    /// recording of a node reaches. The explainer is of no use any more then.
    pub fn take_file(&mut self, alloc: Global, bytes: &[u8]) -> Result<(), NoMemory>
        ensures { OnOk result ((question : Asked) (files : List (List ℕ)) → HasExplained self.old question files
            → HasExplained self.new question (files ++ bytes.now ∷ [])) }
    {
        let mut reader = FieldReader { rest: bytes };
        match read_file_head(alloc, &mut reader) {
            Ok(head) => self.take_read(alloc, &head, reader.rest),
            Err(HeadFault::NoMemory) => Err(AllocError),
            Err(HeadFault::Field(fault)) => {
                let _ = fault;
                Ok(())
            }
        }
    }

    /// The accounts that are asked for, the earliest first. The only error is that memory was refused.
    pub fn finish(self, alloc: Global) -> Result<Vec<Account>, NoMemory>
        ensures { IfOk result (λ accounts. (question : Asked) (files : List (List ℕ)) → HasExplained self question files
            → map account_value accounts.items ≡ accounts_of question files) }
    {
        let Explainer {
            question,
            gathered,
            ..
        } = self;
        gathered.finish(alloc, &question)
    }
}
