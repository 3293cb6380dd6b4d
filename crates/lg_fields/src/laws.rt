//! Laws of the fields of recordings: what is spelled is read again, and what is read is spelled so. The calls do
//! nothing.
//!
//! In each, `again` says that a spelling with anything behind it is read as what it spells and leaves what is behind.
//! `takes` says that bytes which are read are that spelling with what is left behind it, so nothing else is read.
//!
//! Defined in: `specs/Meaning/Spelled.antt`, `specs/Meaning/Scanned.antt`.
//! Tested in: `lg_fields_tests/src/fields.rt`.
ghost use Rattle.std.specs.Prelude.{◌≡◌, ◌<◌, ◌≤◌, ◌^◌, ◌∷◌, ◌++◌, ℕ, Bool, IsTrue, List, Ok, Option};
ghost use Rattle.std.specs.List.{AllByRecursion};
ghost use Rattle.lg_rules.specs.declared.addr.Addr.{Addr};
ghost use Rattle.lg_rules.specs.declared.claim.Claim.{Claim};
ghost use Rattle.lg_rules.specs.Meaning.Bounds.{greatest_incarnation};
ghost use Rattle.lg_rules.specs.Meaning.Name.{is_name};
ghost use Rattle.lg_timing.specs.declared.config.Config.{Config};
ghost use Rattle.lg_packet.specs.declared.packet.Packet.{Packet};
ghost use Rattle.lg_packet.specs.Meaning.Bytes.{IsByte};
ghost use Rattle.lg_packet.specs.Meaning.Spelling.{IsNameIfAny, IsPacket, spellable, spelled_name, spelled_number};
ghost use Rattle.lg_packet.specs.Meaning.Spelling.{spelled_or_none};
ghost use Rattle.lg_fields.specs.Meaning.Spelled.{AreRecords, IsConfigSpelled, IsCount, IsCountedText, IsPlace};
ghost use Rattle.lg_fields.specs.Meaning.Spelled.{IsTellable, chunk, spelled_config, spelled_count, spelled_flag};
ghost use Rattle.lg_fields.specs.Meaning.Spelled.{spelled_place, spelled_records, spelled_text, spelled_told};
ghost use Rattle.lg_fields.specs.Meaning.Scanned.{bounded_scan, byte_scan, chunk_scan, config_scan, count_scan};
ghost use Rattle.lg_fields.specs.Meaning.Scanned.{few_scan, flag_scan, incarnation_scan, label_scan};
ghost use Rattle.lg_fields.specs.Meaning.Scanned.{maybe_label_scan, place_scan, records_scan, text_scan, told_scan};
ghost use Rattle.lg_fields.specs.Meaning.Scanned.{word_scan};

/// A byte.
pub fn bytes_read_back()
    ensures again { (b : ℕ) (rest : List ℕ) → byte_scan (b ∷ rest) ≡ Ok (b, rest) }
    ensures takes { (bytes : List ℕ) (x : ℕ × List ℕ) → AllByRecursion IsByte bytes → byte_scan bytes ≡ Ok x
        → (bytes ≡ x.0 ∷ x.1) × IsByte x.0 }
{}

/// A number, 0 to 2^64 - 1.
pub fn counts_read_back()
    ensures again { (n : ℕ) (rest : List ℕ) → IsCount n → count_scan (spelled_count n ++ rest) ≡ Ok (n, rest) }
    ensures takes { (bytes : List ℕ) (x : ℕ × List ℕ) → AllByRecursion IsByte bytes → count_scan bytes ≡ Ok x
        → (bytes ≡ spelled_count x.0 ++ x.1) × IsCount x.0 }
{}

/// A number that is at most another, such as a moment.
pub fn bounded_read_back()
    ensures again { (most n : ℕ) (rest : List ℕ) → IsCount n → n ≤ most
        → bounded_scan most (spelled_count n ++ rest) ≡ Ok (n, rest) }
    ensures takes { (most : ℕ) (bytes : List ℕ) (x : ℕ × List ℕ) → AllByRecursion IsByte bytes
        → bounded_scan most bytes ≡ Ok x → (bytes ≡ spelled_count x.0 ++ x.1) × IsCount x.0 × (x.0 ≤ most) }
{}

/// How many of something follow.
pub fn few_read_back()
    ensures again { (most n : ℕ) (rest : List ℕ) → IsCount n → n ≤ most
        → few_scan most (spelled_count n ++ rest) ≡ Ok (n, rest) }
    ensures takes { (most : ℕ) (bytes : List ℕ) (x : ℕ × List ℕ) → AllByRecursion IsByte bytes
        → few_scan most bytes ≡ Ok x → (bytes ≡ spelled_count x.0 ++ x.1) × IsCount x.0 × (x.0 ≤ most) }
{}

/// A flag.
pub fn flags_read_back()
    ensures again { (flag : Bool) (rest : List ℕ) → flag_scan (spelled_flag flag ++ rest) ≡ Ok (flag, rest) }
    ensures takes { (bytes : List ℕ) (x : Bool × List ℕ) → flag_scan bytes ≡ Ok x
        → bytes ≡ spelled_flag x.0 ++ x.1 }
{}

/// A text.
pub fn texts_read_back()
    ensures again { (text rest : List ℕ) → IsCountedText text
        → text_scan (spelled_text text ++ rest) ≡ Ok (text, rest) }
    ensures takes { (bytes : List ℕ) (x : List ℕ × List ℕ) → AllByRecursion IsByte bytes → text_scan bytes ≡ Ok x
        → (bytes ≡ spelled_text x.0 ++ x.1) × IsCountedText x.0 }
{}

/// A name.
pub fn labels_read_back()
    ensures again { (name rest : List ℕ) → IsTrue (is_name name)
        → label_scan (spelled_name name ++ rest) ≡ Ok (name, rest) }
    ensures takes { (bytes : List ℕ) (x : List ℕ × List ℕ) → label_scan bytes ≡ Ok x
        → (bytes ≡ spelled_name x.0 ++ x.1) × IsTrue (is_name x.0) }
{}

/// A name that may be missing.
pub fn maybe_labels_read_back()
    ensures again { (name : Option (List ℕ)) (rest : List ℕ) → IsNameIfAny name
        → maybe_label_scan (spelled_or_none name ++ rest) ≡ Ok (name, rest) }
    ensures takes { (bytes : List ℕ) (x : Option (List ℕ) × List ℕ) → maybe_label_scan bytes ≡ Ok x
        → (bytes ≡ spelled_or_none x.0 ++ x.1) × IsNameIfAny x.0 }
{}

/// A number of four bytes.
pub fn words_read_back()
    ensures again { (n : ℕ) (rest : List ℕ) → n < 2 ^ 32 → word_scan (spelled_number n ++ rest) ≡ Ok (n, rest) }
    ensures takes { (bytes : List ℕ) (x : ℕ × List ℕ) → AllByRecursion IsByte bytes → word_scan bytes ≡ Ok x
        → (bytes ≡ spelled_number x.0 ++ x.1) × (x.0 < 2 ^ 32) }
{}

/// An incarnation.
pub fn incarnations_read_back()
    ensures again { (n : ℕ) (rest : List ℕ) → n ≤ greatest_incarnation
        → incarnation_scan (spelled_number n ++ rest) ≡ Ok (n, rest) }
    ensures takes { (bytes : List ℕ) (x : ℕ × List ℕ) → AllByRecursion IsByte bytes
        → incarnation_scan bytes ≡ Ok x → (bytes ≡ spelled_number x.0 ++ x.1) × (x.0 ≤ greatest_incarnation) }
{}

/// An address.
pub fn places_read_back()
    ensures again { (addr : Addr) (rest : List ℕ) → IsPlace addr
        → place_scan (spelled_place addr ++ rest) ≡ Ok (addr, rest) }
    ensures takes { (bytes : List ℕ) (x : Addr × List ℕ) → AllByRecursion IsByte bytes → place_scan bytes ≡ Ok x
        → (bytes ≡ spelled_place x.0 ++ x.1) × IsPlace x.0 }
{}

/// A packet. Any packet is read as what its version can tell of it, one that has a spelling of its own as it is.
pub fn packets_read_back()
    ensures again { (p : Packet) (rest : List ℕ) → IsTellable p
        → told_scan (spelled_told p ++ rest) ≡ Ok (spellable p, rest) }
    ensures own { (p : Packet) (rest : List ℕ) → IsPacket p → told_scan (spelled_told p ++ rest) ≡ Ok (p, rest) }
    ensures takes { (bytes : List ℕ) (x : Packet × List ℕ) → AllByRecursion IsByte bytes → told_scan bytes ≡ Ok x
        → (bytes ≡ spelled_told x.0 ++ x.1) × IsPacket x.0 }
{}

/// Records, at most 12.
pub fn records_read_back()
    ensures again { (rows : List Claim) (rest : List ℕ) → AreRecords rows
        → records_scan (spelled_records rows ++ rest) ≡ Ok (rows, rest) }
    ensures takes { (bytes : List ℕ) (x : List Claim × List ℕ) → AllByRecursion IsByte bytes
        → records_scan bytes ≡ Ok x → (bytes ≡ spelled_records x.0 ++ x.1) × AreRecords x.0 }
{}

/// A configuration.
pub fn configs_read_back()
    ensures again { (c : Config) (rest : List ℕ) → IsConfigSpelled c
        → config_scan (spelled_config c ++ rest) ≡ Ok (c, rest) }
    ensures takes { (bytes : List ℕ) (x : Config × List ℕ) → AllByRecursion IsByte bytes → config_scan bytes ≡ Ok x
        → (bytes ≡ spelled_config x.0 ++ x.1) × IsConfigSpelled x.0 }
{}

/// A chunk.
pub fn chunks_read_back()
    ensures again { (body rest : List ℕ) → IsCountedText body → chunk_scan (chunk body ++ rest) ≡ Ok (body, rest) }
    ensures takes { (bytes : List ℕ) (x : List ℕ × List ℕ) → AllByRecursion IsByte bytes → chunk_scan bytes ≡ Ok x
        → (bytes ≡ chunk x.0 ++ x.1) × IsCountedText x.0 }
{}
