//! What a query asks for.
//!
//! Defined in: `specs/Meaning/Queries.antt`, `lg_text/specs/Meaning/Cutting.antt`, `Numbers.antt`.
//! Tested in: `lg_answers_tests/src/route.rt`.
ghost use Rattle.std.specs.Prelude.{◌≡◌};
ghost use Rattle.std.specs.Option.{option_map};
ghost use Rattle.lg_answers.specs.Meaning.Queries.{changes_asked, first_of_two, pair_said, pairs_said, two_pairs_said};
ghost use Rattle.lg_answers.specs.Meaning.Queries.{port_asked, value_said};

use lg_http::Wait;
use lg_text::{cut_at, number_in, number_within, port_in};

/// The longest wait for a change, in milliseconds: 30,000 (this project's choice).
pub const MAX_WAIT_MS: u64 = 30_000;

/// What the pairs of a query said so far.
#[derive(Clone, Copy)]
struct Said {
    after: Option<u64>,
    wait_ms: Option<u64>,
}

/// A number, unless one was said before.
fn first_of_two(said: Option<u64>, number: Option<u64>) -> Option<u64>
    ensures { result ≡ first_of_two said number }
{
    match said {
        Some(_) => None,
        None => number,
    }
}

/// What is said once a key has this value. None if there is no such key, if it was said before, or if the value is out
/// of its form or range.
#[tactic(auto, unfolding(crate::specs::Meaning::Queries::value_said))]
fn value_said(said: Said, key: &[u8], value: &[u8]) -> Option<Said>
    ensures { result ≡ value_said said key.now value.now }
{
    if key == "after".as_bytes() {
        let after = first_of_two(said.after, number_in(value))?;
        Some(Said {
            after: Some(after),
            ..said
        })
    } else if key == "wait_ms".as_bytes() {
        let wait_ms = first_of_two(said.wait_ms, number_within(value, 0, MAX_WAIT_MS))?;
        Some(Said {
            wait_ms: Some(wait_ms),
            ..said
        })
    } else {
        None
    }
}

/// What is said once a pair `KEY=VALUE` is read.
#[tactic(auto, unfolding(crate::specs::Meaning::Queries::pair_said))]
fn pair_said(said: Said, pair: &[u8]) -> Option<Said>
    ensures { result ≡ pair_said said pair.now }
{
    let (key, value) = cut_at(pair, b'=');
    value_said(said, key, value?)
}

/// What a query of one or two pairs says, with an `&` between them. A third would belong to the value of the second,
/// which then is no number.
#[tactic(auto, unfolding(crate::specs::Meaning::Queries::two_pairs_said))]
fn two_pairs_said(query: &[u8]) -> Option<Said>
    ensures { result ≡ two_pairs_said query.now }
{
    let nothing = Said {
        after: None,
        wait_ms: None,
    };
    let (first, second) = cut_at(query, b'&');
    let said = pair_said(nothing, first)?;
    match second {
        Some(pair) => pair_said(said, pair),
        None => Some(said),
    }
}

/// What a query of up to two pairs says.
fn pairs_said(query: &[u8]) -> Option<Said>
    ensures { result ≡ pairs_said query.now }
{
    if query.is_empty() {
        return Some(Said {
            after: None,
            wait_ms: None,
        });
    }
    two_pairs_said(query)
}

/// Which changes a query asks for, and how long to wait if there are none: `after=V` and `wait_ms=W`, each at most once
/// and in any order, with an `&` between them. What isn't said is 0. V has 1 to 16 decimal digits. W is a number of at
/// most [`MAX_WAIT_MS`]. None if the query is anything else.
#[tactic(auto, unfolding(crate::specs::Meaning::Queries::changes_asked))]
pub(crate) fn changes_asked(query: &[u8]) -> Option<Wait>
    ensures { result ≡ changes_asked query.now }
{
    let said = pairs_said(query)?;
    Some(Wait {
        after: said.after.unwrap_or(0),
        wait_ms: said.wait_ms.unwrap_or(0),
    })
}

/// The port that a query asks for: `port=P`, P a number of 1 to 65535. None if the query is anything else.
#[tactic(auto, unfolding(crate::specs::Meaning::Queries::port_asked))]
pub(crate) fn port_asked(query: &[u8]) -> Option<u16>
    ensures { result ≡ port_asked query.now }
{
    let (key, value) = cut_at(query, b'=');
    if key == "port".as_bytes() {
        port_in(value?)
    } else {
        None
    }
}
