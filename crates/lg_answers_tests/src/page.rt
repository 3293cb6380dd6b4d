//! The page fetches nothing but the answers of its own node.
use crate::bodies::text_of;
use crate::nodes::Node;
use lg_http::HttpAnswer;

/// What would name a place to fetch from, or load a part that doesn't stand in the page.
const FOREIGN: [&str; 7] = ["//", "src=", "href=", "<link", "import", "url(", "<iframe"];

/// Whether none of these stands in an answer.
fn is_own(answer: &HttpAnswer) -> bool {
    text_of(answer).is_some_and(|page| !FOREIGN.iter().any(|text| page.contains(*text)))
}

/// None of these stands in it.
#[test]
fn fetches_nothing_foreign(rt: HostRuntime) {
    let answer = Node::Usual.answer(rt.alloc(), "/");
    let is_met = answer.as_ref().is_ok_and(|answer| is_own(answer));
    assert!(rt; is_met, "{answer:?}");
}
