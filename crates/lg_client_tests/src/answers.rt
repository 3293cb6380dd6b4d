//! The bytes of answers.

use std::alloc::{AllocError, Global};
use std::str;

/// A head of an answer: what stands before the length of the body, and what stands behind it.
pub(crate) type Head = (&'static str, &'static str);

/// The head of an answer with the code 200.
pub(crate) const FINE: Head = (
    "HTTP/1.1 200 OK\r\ncontent-length: ",
    "\r\nconnection: close\r\n\r\n",
);

/// The head of an answer with the code 503.
pub(crate) const UNAVAILABLE: Head = (
    "HTTP/1.1 503 Service Unavailable\r\ncontent-length: ",
    "\r\nconnection: close\r\n\r\n",
);

/// An answer with this head and this body.
pub(crate) fn answer(alloc: Global, head: Head, body: &[u8]) -> Result<Vec<u8>, AllocError> {
    let (before, behind) = head;
    let length = body.len();
    let head = format!(in alloc; "{before}{length}{behind}")?;
    let mut bytes = Vec::from_slice(alloc, head.as_bytes())?;
    bytes.extend_from_slice(body)?;
    Ok(bytes)
}

/// A body in which one text stands in the place of another. None if that isn't in it.
pub(crate) fn edited(
    alloc: Global,
    body: &str,
    old: &str,
    new: &str,
) -> Result<Option<String>, AllocError> {
    let Some((before, behind)) = body.split_once(old) else {
        return Ok(None);
    };
    Ok(Some(format!(in alloc; "{before}{new}{behind}")?))
}

/// Bytes as a failed test shows them.
pub(crate) fn shown(bytes: &[u8]) -> &str {
    str::from_utf8(bytes).unwrap_or("bytes that are no text")
}
