//! The known key that is nearest to one that is unknown.
//!
//! Defined in: `specs/Meaning/NearestKeys.antt`.
//! Tested in: `cases/config_reasons.case`, `lg_command_tests/src/config.rt`.
ghost use Rattle.std.specs.Prelude.{◌≡◌, IfOk, map};
ghost use Rattle.std.specs.Option.{option_map};
ghost use Rattle.lg_config.specs.Meaning.NearestKeys.{are_few_edits, edits, fewest_edits, first_at};
ghost use Rattle.lg_config.specs.Meaning.NearestKeys.{nearest_key, nearest_of};

use std::alloc::{AllocError, Global};
use strsim::generic_levenshtein;

/// The most edits that lead from a key to one that is near: 3 (this project's choice).
const MAX_EDITS: usize = 3;

/// All known keys, in the order in which `docs/FORMATS.md` has them.
pub const KNOWN_KEYS: [&str; 30] = [
    "name",
    "address",
    "port",
    "dice",
    "pull_ms",
    "stall_ms",
    "resolve_ms",
    "record_mb",
    "record",
    "status",
    "status_open",
    "leave",
    "bind",
    "key_file",
    "group",
    "seeds",
    "interval_ms",
    "timeout_ms",
    "indirect",
    "max_score",
    "alpha",
    "beta",
    "confirmations",
    "lambda",
    "nack_thousandths",
    "history_limit",
    "wire",
    "forget_ms",
    "gossip_ms",
    "gossip_to",
];

/// How many edits lead from one key to another: a byte is put in, taken out, or changed into another.
#[tactic(auto, unfolding(crate::specs::Meaning::NearestKeys::edits))]
fn edits(alloc: Global, key: &[u8], known: &str) -> Result<usize, AllocError>
    ensures { IfOk result (λ count. count ≡ edits key.now known.now) }
{
    generic_levenshtein(alloc, key, known.as_bytes())
}

/// Whether so many edits of a key are few: at most 3, and fewer than half of its bytes.
fn are_few_edits(key: &[u8], count: usize) -> bool
    ensures { result ≡ are_few_edits key.now count }
{
    count <= MAX_EDITS && 2 * count < key.len()
}

/// The fewest edits that lead from a key to one of some known keys, or to nothing.
#[tactic(auto, unfolding(crate::specs::Meaning::NearestKeys::fewest_edits))]
fn fewest_edits(alloc: Global, key: &[u8], known: &[&str]) -> Result<usize, AllocError>
    ensures { IfOk result (λ count. count ≡ fewest_edits key.now (map (λ text. text.now) known.now)) }
{
    match known {
        [] => Ok(key.len()),
        [first, others @ ..] => {
            let count = edits(alloc, key, first)?;
            Ok(count.min(fewest_edits(alloc, key, others)?))
        }
    }
}

/// The first of some known keys to which so many edits lead.
#[tactic(auto, unfolding(crate::specs::Meaning::NearestKeys::first_at))]
fn first_at<'a>(
    alloc: Global,
    key: &[u8],
    count: usize,
    known: &[&'a str],
) -> Result<Option<&'a str>, AllocError>
    ensures { IfOk result (λ found. option_map (λ text. text.now) found
        ≡ first_at key.now count (map (λ text. text.now) known.now)) }
{
    match known {
        [] => Ok(None),
        [first, others @ ..] => {
            if edits(alloc, key, first)? == count {
                Ok(Some(*first))
            } else {
                first_at(alloc, key, count, others)
            }
        }
    }
}

/// The one of some known keys to which the fewest edits lead, and the first of those if there are several. None if they
/// aren't few.
#[tactic(auto, unfolding(crate::specs::Meaning::NearestKeys::nearest_of))]
fn nearest_of<'a>(
    alloc: Global,
    key: &[u8],
    known: &[&'a str],
) -> Result<Option<&'a str>, AllocError>
    ensures { IfOk result (λ found. option_map (λ text. text.now) found
        ≡ nearest_of key.now (map (λ text. text.now) known.now)) }
{
    let fewest = fewest_edits(alloc, key, known)?;
    if are_few_edits(key, fewest) {
        first_at(alloc, key, fewest, known)
    } else {
        Ok(None)
    }
}

/// The known key to which the fewest edits lead, and the first of those if there are several. None if they are more
/// than 3, or not fewer than half of the key's bytes. Memory is allocated for a known key at a time, and freed again.
#[tactic(auto, unfolding(crate::specs::Meaning::NearestKeys::nearest_key))]
pub(crate) fn nearest_key(alloc: Global, key: &[u8]) -> Result<Option<&'static str>, AllocError>
    ensures { IfOk result (λ found. option_map (λ text. text.now) found ≡ nearest_key key.now) }
{
    nearest_of(alloc, key, &KNOWN_KEYS)
}
