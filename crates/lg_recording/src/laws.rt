//! Laws of the spellings of entries. The calls do nothing.
//!
//! Defined in: `specs/Meaning/Spelling.antt`, `specs/Meaning/Fitting.antt`, `specs/Meaning/Scanning.antt`,
//! `specs/Meaning/Listing.antt`.
//! Tested in: nothing that runs, since they are laws.
ghost use Rattle.std.specs.Prelude.{◌≡◌, ◌<◌, ℕ, List, [], ◌∷◌, ◌++◌, Err, None, Ok, Some, length, take};
ghost use Rattle.std.specs.List.{AllByRecursion};
ghost use Rattle.lg_packet.specs.Meaning.Bytes.{IsByte};
ghost use Rattle.lg_fields.specs.declared.fault.FieldFault.{FieldFault};
ghost use Rattle.lg_fields.specs.Meaning.Spelled.{IsCountedText};
ghost use Rattle.lg_recording.specs.Meaning.Starts.{spelled_start, start_scan};
ghost use Rattle.lg_recording.specs.Meaning.Values.{RecordedEntry};
ghost use Rattle.lg_recording.specs.Meaning.Spelling.{spelled_recorded, told_entries, told_recorded};
ghost use Rattle.lg_recording.specs.Meaning.Fitting.{IsRecordedSpelled};
ghost use Rattle.lg_recording.specs.Meaning.Scanning.{recorded_of, recorded_scan};
ghost use Rattle.lg_recording.specs.Meaning.Listing.{AreRecordable, cut_fault, entries_scan, listing, spelled_entries};
ghost use Rattle.lg_recording.specs.Meaning.Listing.{entry_chunk_scan, whole_within};

/// An entry is read back from its spelling, whatever follows: as what is told of it.
pub fn entries_are_read_again()
    ensures whole { (x : RecordedEntry) → IsRecordedSpelled x
        → recorded_of (spelled_recorded x) ≡ Ok (told_recorded x) }
    ensures again { (x : RecordedEntry) (rest : List ℕ) → IsRecordedSpelled x
        → recorded_scan (spelled_recorded x ++ rest) ≡ Ok (told_recorded x, rest) }
{}

/// Bytes that are read as an entry are its spelling, and the entry tells itself. So an entry that is told has one
/// spelling, and bytes are the spelling of one such entry at most.
pub fn entries_have_one_spelling()
    ensures { (body : List ℕ) (x : RecordedEntry) → AllByRecursion IsByte body → recorded_of body ≡ Ok x
        → (body ≡ spelled_recorded x) × IsRecordedSpelled x × (told_recorded x ≡ x) }
{}

/// Entries, one chunk behind the other, are read back as what is told of them, with no fault. If their bytes end after
/// any number of them, as those of a file of a node that was killed, the entries are read whose chunks are there whole.
/// Then the fault is Short if the bytes don't end at a chunk's end, and there is none if they do.
pub fn lists_are_read_again()
    ensures whole { (xs : List RecordedEntry) → AreRecordable xs
        → entries_scan (spelled_entries xs) ≡ listing (told_entries xs) None }
    ensures torn { (xs : List RecordedEntry) (n : ℕ) → AreRecordable xs
        → entries_scan (take n (spelled_entries xs)) ≡ listing (told_entries (whole_within n xs)) (cut_fault n xs) }
    // The entries whose chunks are there whole are a front of all.
    ensures front { (xs : List RecordedEntry) (n : ℕ) → (rest : List RecordedEntry) × (whole_within n xs ++ rest ≡ xs) }
{}

/// What bytes hold, chunk by chunk, as [`Entries::next_entry`](crate::Entries::next_entry) reads it: nothing if there
/// are none; else the entry that they begin with and what those behind it hold; or only the fault of their first chunk.
pub fn lists_are_read_by_chunks()
    ensures none { entries_scan [] ≡ listing [] None }
    ensures one { (bytes rest : List ℕ) (x : RecordedEntry) → AllByRecursion IsByte bytes
        → entry_chunk_scan bytes ≡ Ok (x, rest)
        → entries_scan bytes ≡ listing (x ∷ (entries_scan rest).entries) (entries_scan rest).fault }
    ensures fault { (bytes : List ℕ) (f : FieldFault) → 0 < length bytes → entry_chunk_scan bytes ≡ Err f
        → entries_scan bytes ≡ listing [] (Some f) }
{}

/// What a file begins with is read back, whatever follows, as the head's body and what follows. So a file that ends
/// anywhere behind its head has its head, and of its entries what [`lists_are_read_again`] says.
pub fn starts_are_read_again()
    ensures { (head rest : List ℕ) → IsCountedText head
        → start_scan (spelled_start head ++ rest) ≡ Ok (head, rest) }
{}
