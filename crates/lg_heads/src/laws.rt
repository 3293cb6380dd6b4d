//! Laws of the spellings of heads. The calls do nothing.
//!
//! Defined in: `specs/Meaning/Heads.antt`, `specs/Meaning/Fitting.antt`, `specs/Meaning/Scanning.antt`.
//! Tested in: nothing that runs, since they are laws.
ghost use Rattle.std.specs.Prelude.{◌≡◌, ℕ, List, ◌++◌, Ok};
ghost use Rattle.std.specs.List.{AllByRecursion};
ghost use Rattle.lg_packet.specs.Meaning.Bytes.{IsByte};
ghost use Rattle.lg_fields.specs.Meaning.Spelled.{IsCountedText};
ghost use Rattle.lg_recording.specs.Meaning.Starts.{spelled_start, start_scan};
ghost use Rattle.lg_heads.specs.Meaning.Heads.{HeadValue, spelled_head_body};
ghost use Rattle.lg_heads.specs.Meaning.Fitting.{IsHeadSpelled};
ghost use Rattle.lg_heads.specs.Meaning.Scanning.{head_in};

/// A head is read back from its body as itself. So a file that ends anywhere behind what it begins with has its head:
/// the body is what is read of the file's beginning, whatever follows.
pub fn heads_are_read_again()
    ensures body { (h : HeadValue) → IsHeadSpelled h → head_in (spelled_head_body h) ≡ Ok h }
    ensures file { (h : HeadValue) (rest : List ℕ) → IsCountedText (spelled_head_body h)
        → start_scan (spelled_start (spelled_head_body h) ++ rest) ≡ Ok (spelled_head_body h, rest) }
{}

/// Bytes that are read as a head are its spelling. So a head has one spelling, and bytes are the spelling of at most
/// one head.
pub fn heads_have_one_spelling()
    ensures { (body : List ℕ) (h : HeadValue) → AllByRecursion IsByte body → head_in body ≡ Ok h
        → (body ≡ spelled_head_body h) × IsHeadSpelled h }
{}
