//! The parts of a target.

/// The path of a target, and the query behind its first `?`, if it has one (RFC 9112, section 3.2.1).
pub fn parts_of(target: &str) -> (&[u8], Option<&[u8]>) {
    match target.split_once("?") {
        Some((path, query)) => (path.as_bytes(), Some(query.as_bytes())),
        None => (target.as_bytes(), None),
    }
}
