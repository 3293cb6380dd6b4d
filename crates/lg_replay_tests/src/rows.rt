//! Files of recordings from the worked rows of docs/RECORDINGS.md, with digests that `sha256sum` gives.

use std::alloc::{AllocError, Global};

/// What a file of the node `a` begins with: the head of the document's row.
pub(crate) const HEAD: &[u8] =
    b"LGR\x01\x2e\x01\x61\xe8\x07\xf4\x03\x03\x08\x05\x06\x03\x04\xa0\x06\xa0\x9c\x01\x01\x00\xc8\x01\x03\x01\
    \x01\x61\x04\x7f\x00\x00\x01\x1b\x59\x00\x00\x00\x050.9.0\xe8\x07\x14\x00\x00\x2b\x0a\x2a\x96";

/// The opening of `a` at 20 by the seat 0, with the configuration of the head and the next deadline 20.
pub(crate) const OPENED: &[u8] =
    b"\x2b\x00\x01\x14\xe8\x07\xf4\x03\x03\x08\x05\x06\x03\x04\xa0\x06\xa0\x9c\x01\x01\x00\xc8\x01\x03\x01\
    \x01\x61\x04\x7f\x00\x00\x01\x1b\x59\x00\x00\x00\x00\x00\x00\x00\x00\x14\x00\x42\x21\x93\x05";

/// The event Health at 20 by the seat 1: the entry of the document's row.
pub(crate) const HEALTH: &[u8] =
    b"\x12\x01\x05\x14\x00\x00\x00\x00\x03\x00\x00\x00\x00\x02\x03\x00\xe8\x07\x00\x0b\xe1\xfe\x65";

/// What is told of a file with the number 7 of the head and the opening.
pub(crate) const SEVENTH: &str = "file 7 of a first 0 moment 20 begun 1000\n\
at 20 open a 127.0.0.1:7001\n\
next 20\n";

/// What is told of a file with the number 12 of the head and the event Health, whose life has no opening.
pub(crate) const TWELFTH: &str = "file 12 of a first 0 moment 20 begun 1000\n\
unchecked from entry 0\n\
at 20 health\n\
answer score 0 number 2 members 3\n\
next 1000\n";

/// The last line of both.
pub(crate) const BOTH: &str = "entries 2 checked 1 differing 0 unchecked 1\n";

/// A file of the head and an entry.
pub(crate) fn file_of(alloc: Global, entry: &[u8]) -> Result<Vec<u8>, AllocError> {
    let mut bytes = Vec::new(alloc);
    bytes.extend_from_slice(HEAD)?;
    bytes.extend_from_slice(entry)?;
    Ok(bytes)
}
