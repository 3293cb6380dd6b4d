//! Judges the bytes that came: whether they are an answer, no answer yet, or none, whatever follows.
//!
//! Defined in: `specs/Meaning/Answers.antt`.
//! Tested in: `lg_client_tests/src/damaged.rt`.
ghost use Rattle.std.specs.Prelude.{◌≡◌, ◌≤◌, length, map, All};
ghost use Rattle.std.specs.Str.{str_eq_ignore_ascii_case};
ghost use Rattle.httparse.specs.Spans.{IsHeaderWithin, IsResponseOf, IsResponseWithin, header_bytes};
ghost use Rattle.lg_client.specs.Meaning.Answers.{Hears, end_said, with_field};
ghost use Rattle.lg_client.specs.Support.Receiving.{heard_by};

use httparse::Status;
use httparse::spans::{EMPTY_HEADER_SPAN, HeaderSpan, ResponseSpans, parse_response};
use lg_text::number_in;

/// The most bytes of an answer, with its head: 1,048,576 (this project's choice).
pub(crate) const MAX_ANSWER: usize = 1_048_576;

/// The most fields of an answer's head: 64 (this project's choice).
pub(crate) const MAX_FIELDS: usize = 64;

/// What some bytes are.
#[derive(Clone, Copy, Debug, PartialEq, Eq)]
pub(crate) enum Heard {
    /// A whole answer, with its status code and the place of its body.
    Whole(u16, usize),
    /// No answer yet.
    Cut,
    /// No answer, whatever follows.
    Other,
}

/// What the fields of a head say of the length of the body.
#[derive(Clone, Copy, Debug, PartialEq, Eq)]
pub(crate) enum Said {
    /// Nothing.
    Nothing,
    /// It has so many bytes.
    Length(u64),
    /// Something that isn't one length: two of them, one that is no number, or a transfer coding.
    Unclear,
}

/// What fields say of the length of the body. The first of them has this name and value, and the others say `others`.
fn with_field(name: &[u8], value: &[u8], others: Said) -> Said
    ensures { result ≡ with_field name.now value.now others }
{
    if name.eq_ignore_ascii_case(b"transfer-encoding") {
        return Said::Unclear;
    }
    if !name.eq_ignore_ascii_case(b"content-length") {
        return others;
    }
    match (number_in(value), others) {
        (Some(length), Said::Nothing) => Said::Length(length),
        _ => Said::Unclear,
    }
}

/// What the fields of a head say of the length of the body. It calls itself at most once for each field.
fn said_by(bytes: &[u8], fields: &[HeaderSpan]) -> Said
    requires { All (IsHeaderWithin (length bytes.now)) fields.now }
    ensures { result ≡ end_said (map (header_bytes bytes.now) fields.now) }
{
    match fields {
        [] => Said::Nothing,
        [field, others @ ..] => {
            let rest = said_by(bytes, others);
            with_field(field.name.of(bytes), field.value.of(bytes), rest)
        }
    }
}

/// What `count` bytes are whose head is whole and has the status `code`. The body begins at `start`, and the fields say
/// `said` of its length.
fn heard_by(count: usize, code: u16, start: usize, said: Said) -> Heard
    requires { start ≤ count }
    ensures { result ≡ heard_by count code start said }
{
    let Said::Length(length) = said else {
        return Heard::Other;
    };
    if count > MAX_ANSWER || length > MAX_ANSWER as u64 {
        return Heard::Other;
    }
    let end = start as u64 + length;
    if end > MAX_ANSWER as u64 || end < count as u64 {
        Heard::Other
    } else if end > count as u64 {
        Heard::Cut
    } else {
        Heard::Whole(code, start)
    }
}

/// What bytes are whose head is whole.
#[tactic(auto, using(crate::proofs::AnswerLaws::judged))]
fn judge(bytes: &[u8], fields: &[HeaderSpan], head: &ResponseSpans) -> Heard
    requires within { IsResponseWithin bytes.now fields.now head.now }
    requires complete { IsResponseOf bytes.now fields.now head.now }
    requires room { length fields.now ≤ MAX_FIELDS }
    ensures { Hears bytes.now result }
{
    let said = said_by(bytes, &fields[..head.headers]);
    heard_by(bytes.len(), head.code, head.len, said)
}

/// Judges the bytes that came so far. Allocates no memory.
#[tactic(auto, using(crate::proofs::AnswerLaws::headless_bytes))]
pub(crate) fn hear(bytes: &[u8]) -> Heard
    ensures { Hears bytes.now result }
{
    let mut fields = [EMPTY_HEADER_SPAN; MAX_FIELDS];
    match parse_response(bytes, &mut fields) {
        Ok(Status::Complete(head)) => judge(bytes, &fields, &head),
        Ok(Status::Partial) if bytes.len() < MAX_ANSWER => Heard::Cut,
        Ok(Status::Partial) | Err(_) => Heard::Other,
    }
}
