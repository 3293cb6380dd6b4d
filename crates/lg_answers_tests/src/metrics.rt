//! The form of the metrics, which Prometheus and its conventions ask for.
use crate::bodies::text_of;
use crate::nodes::Node;

/// Whether a line is a sample of a metric: its name, its labels if it has some, and its value.
fn is_sample(line: &str, name: &str) -> bool {
    line.strip_prefix(name)
        .is_some_and(|rest| rest.starts_with(" ") || rest.starts_with("{"))
}

/// Whether a name and its type are as the conventions want them: a counter's name ends in `_total`, and no other does.
fn has_good_type(name: &str, of: &str) -> bool {
    match of {
        "counter" => name.ends_with("_total"),
        "gauge" => !name.ends_with("_total"),
        _ => false,
    }
}

/// The first line that doesn't stand in its place. Each is a help, a type, or a sample of the metric whose type was
/// the last.
fn first_wrong(text: &str) -> Option<&str> {
    let mut name = " ";
    for line in text.lines() {
        if let Some((typed, of)) = line
            .strip_prefix("# TYPE ")
            .and_then(|rest| rest.split_once(" "))
        {
            name = typed;
            if !has_good_type(typed, of) {
                return Some(line);
            }
        } else if !line.starts_with("# HELP lg_") && !is_sample(line, name) {
            return Some(line);
        }
    }
    None
}

/// No line is out of its place.
#[test]
fn form(rt: HostRuntime) {
    let answer = Node::Usual.answer(rt.alloc(), "/metrics");
    let is_met = answer.as_ref().is_ok_and(|answer| text_of(answer).is_some_and(|text| first_wrong(
        text,
    ).is_none()));
    assert!(rt; is_met, "{answer:?}");
}
