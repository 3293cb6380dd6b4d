//! Reads of an answer after how many seconds its server may be asked again.
//!
//! Defined in: `specs/Meaning/Waiting.antt`.
//! Tested in: `lg_client_tests/src/waiting.rt`.
ghost use Rattle.std.specs.Prelude.{◌≡◌, ◌≤◌, length, map, All};
ghost use Rattle.httparse.specs.Spans.{IsHeaderWithin, header_bytes};
ghost use Rattle.lg_client.specs.Meaning.Waiting.{delay_said, delay_with};
ghost use Rattle.lg_client.specs.Support.Receiving.{HeadSays};

use crate::heard::MAX_FIELDS;
use httparse::Status;
use httparse::spans::{EMPTY_HEADER_SPAN, HeaderSpan, parse_response};
use lg_text::number_in;

/// The seconds that fields say of which the first is this, and the others say that.
fn delay_with(name: &[u8], value: &[u8], others: Option<u64>) -> Option<u64>
    ensures { result ≡ delay_with name.now value.now others }
{
    if name.eq_ignore_ascii_case(b"retry-after") {
        number_in(value)
    } else {
        others
    }
}

/// The seconds that the fields of a head say. It calls itself at most once for each field.
fn delay_by(bytes: &[u8], fields: &[HeaderSpan]) -> Option<u64>
    requires { All (IsHeaderWithin (length bytes.now)) fields.now }
    ensures { result ≡ delay_said (map (header_bytes bytes.now) fields.now) }
{
    match fields {
        [] => None,
        [field, others @ ..] => {
            let rest = delay_by(bytes, others);
            delay_with(field.name.of(bytes), field.value.of(bytes), rest)
        }
    }
}

/// The seconds that the head of an answer says. Allocates no memory.
#[tactic(auto, using(crate::proofs::DelayLaws::said_by_heads))]
pub(crate) fn delay_in(bytes: &[u8]) -> Option<u64>
    ensures { HeadSays bytes.now result }
{
    let mut fields = [EMPTY_HEADER_SPAN; MAX_FIELDS];
    match parse_response(bytes, &mut fields) {
        Ok(Status::Complete(head)) => delay_by(bytes, &fields[..head.headers]),
        Ok(Status::Partial) | Err(_) => None,
    }
}
