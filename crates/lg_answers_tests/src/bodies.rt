//! What b has to answer to each target, by the form of each body and by what b knows.
use crate::nodes::Node::{self, Busy, Ousted, Usual};
use Body::{Lines, Whole};
use lg_http::HttpAnswer;
use std::str;

/// JSON (RFC 8259).
const JSON: &str = "application/json";

/// The text format of Prometheus.
const TEXT: &str = "text/plain; version=0.0.4; charset=utf-8";

/// HTML.
const HTML: &str = "text/html; charset=utf-8";

/// What a body has to be.
#[derive(Clone, Copy, Debug)]
pub enum Body {
    /// This text.
    Whole(&'static str),
    /// A text in which these lines stand, the first at its front and the last at its end.
    Lines(&'static [&'static str]),
}

/// How b is, a target, and the code, the media type and the body of the answer.
pub type Row = (Node, &'static str, u16, &'static str, Body);

const ALL: &str = "{\"version\":41,\"moment_ms\":5120,\"name\":\"b\",\"members\":[\
    {\"name\":\"a\",\"status\":\"suspect\",\"incarnation\":0,\
    \"address\":\"127.0.0.1\",\"port\":7101,\"accuser\":\"c\"},\
    {\"name\":\"b\",\"status\":\"alive\",\"incarnation\":4,\
    \"address\":\"127.0.0.1\",\"port\":7102,\"accuser\":null},\
    {\"name\":\"c\",\"status\":\"failed\",\"incarnation\":2,\
    \"address\":\"127.0.0.1\",\"port\":7103,\"accuser\":null}]}";

const ALIVE: &str = "{\"version\":41,\"moment_ms\":5120,\"name\":\"b\",\"members\":[\
    {\"name\":\"b\",\"status\":\"alive\",\"incarnation\":4,\
    \"address\":\"127.0.0.1\",\"port\":7102,\"accuser\":null}]}";

const SUSPECT: &str = "{\"version\":41,\"moment_ms\":5120,\"name\":\"b\",\"members\":[\
    {\"name\":\"a\",\"status\":\"suspect\",\"incarnation\":0,\
    \"address\":\"127.0.0.1\",\"port\":7101,\"accuser\":\"c\"}]}";

const FAILED: &str = "{\"version\":41,\"moment_ms\":5120,\"name\":\"b\",\"members\":[\
    {\"name\":\"c\",\"status\":\"failed\",\"incarnation\":2,\
    \"address\":\"127.0.0.1\",\"port\":7103,\"accuser\":null}]}";

const NOBODY: &str = "{\"version\":41,\"moment_ms\":5120,\"name\":\"b\",\"members\":[]}";

const ONE: &str = "{\"version\":41,\
    \"name\":\"a\",\"status\":\"suspect\",\"incarnation\":0,\
    \"address\":\"127.0.0.1\",\"port\":7101,\"accuser\":\"c\"}";

const HEALTH: &str =
    "{\"name\":\"b\",\"score\":2,\"incarnation\":4,\"live\":2,\"known\":3,\"ousted\":false,\
    \"uptime_ms\":5370,\"stood_still_ms\":250}";

const OUSTED: &str =
    "{\"name\":\"b\",\"score\":2,\"incarnation\":4,\"live\":2,\"known\":3,\"ousted\":true,\
    \"uptime_ms\":5370,\"stood_still_ms\":250}";

const THREE: &str =
    "{\"version\":41,\"missed\":false,\"changes\":[{\"version\":30,\"moment_ms\":4000,\
    \"name\":\"b\",\"status\":\"alive\",\"incarnation\":4,\
    \"address\":\"127.0.0.1\",\"port\":7102,\"accuser\":null},\
    {\"version\":41,\"moment_ms\":5120,\
    \"name\":\"a\",\"status\":\"suspect\",\"incarnation\":0,\
    \"address\":\"127.0.0.1\",\"port\":7101,\"accuser\":\"c\"},\
    {\"version\":41,\"moment_ms\":5120,\
    \"name\":\"c\",\"status\":\"failed\",\"incarnation\":2,\
    \"address\":\"127.0.0.1\",\"port\":7103,\"accuser\":null}]}";

const TWO: &str =
    "{\"version\":41,\"missed\":false,\"changes\":[{\"version\":41,\"moment_ms\":5120,\
    \"name\":\"a\",\"status\":\"suspect\",\"incarnation\":0,\
    \"address\":\"127.0.0.1\",\"port\":7101,\"accuser\":\"c\"},\
    {\"version\":41,\"moment_ms\":5120,\
    \"name\":\"c\",\"status\":\"failed\",\"incarnation\":2,\
    \"address\":\"127.0.0.1\",\"port\":7103,\"accuser\":null}]}";

const NO_CHANGES: &str = "{\"version\":41,\"missed\":false,\"changes\":[]}";

const MISSED: &str =
    "{\"version\":41,\"missed\":true,\"changes\":[{\"version\":41,\"moment_ms\":5120,\
    \"name\":\"a\",\"status\":\"suspect\",\"incarnation\":0,\
    \"address\":\"127.0.0.1\",\"port\":7101,\"accuser\":\"c\"},\
    {\"version\":41,\"moment_ms\":5120,\
    \"name\":\"b\",\"status\":\"alive\",\"incarnation\":4,\
    \"address\":\"127.0.0.1\",\"port\":7102,\"accuser\":null},\
    {\"version\":41,\"moment_ms\":5120,\
    \"name\":\"c\",\"status\":\"failed\",\"incarnation\":2,\
    \"address\":\"127.0.0.1\",\"port\":7103,\"accuser\":null}]}";

const CONFIG: &str =
    "{\"name\":\"b\",\"address\":\"127.0.0.1\",\"port\":7102,\"interval_ms\":2000,\"timeout_ms\":500,\
    \"indirect\":3,\"max_score\":8,\"alpha\":5,\"beta\":6,\"confirmations\":3,\"lambda\":4,\"nack_thousandths\":800,\
    \"history_limit\":20000,\"wire\":1,\"forget_ms\":0,\"gossip_ms\":200,\"gossip_to\":3,\"first\":1,\"dice\":1,\
    \"pull_ms\":30000,\"stall_ms\":100,\"resolve_ms\":60000,\"group\":null,\"status\":\"127.0.0.1:8946\",\
    \"status_open\":false,\"leave\":true,\"bind\":\"127.0.0.1:7102\",\"seeds\":[\
    {\"name\":\"a\",\"address\":\"127.0.0.1\",\"port\":7101},\
    {\"name\":null,\"address\":\"127.0.0.1\",\"port\":7105},\
    {\"name\":\"d\",\"address\":\"127.0.0.1\",\"port\":7104},\
    {\"name\":null,\"address\":\"2001:db8::1\",\"port\":7106},\
    {\"name\":null,\"address\":\"db.example\",\"port\":7946},\
    {\"name\":\"e\",\"address\":\"DB-2\",\"port\":1}]}";

const OUSTED_CONFIG: &str =
    "{\"name\":\"b\",\"address\":\"127.0.0.1\",\"port\":7102,\"interval_ms\":2000,\"timeout_ms\":500,\
    \"indirect\":3,\"max_score\":8,\"alpha\":5,\"beta\":6,\"confirmations\":3,\"lambda\":4,\"nack_thousandths\":800,\
    \"history_limit\":20000,\"wire\":1,\"forget_ms\":0,\"gossip_ms\":200,\"gossip_to\":3,\"first\":1,\"dice\":1,\
    \"pull_ms\":30000,\"stall_ms\":100,\"resolve_ms\":60000,\"group\":null,\"status\":null,\"status_open\":true,\
    \"leave\":false,\"bind\":\"[2001:db8::1]:7102\",\"seeds\":[]}";

const TARGETS: &str = "[{\"targets\":[\"127.0.0.1:8946\"],\
    \"labels\":{\"__meta_lg_name\":\"b\",\"__meta_lg_address\":\"127.0.0.1:7102\"}}]";

const TARGETS_AT_9100: &str = "[{\"targets\":[\"127.0.0.1:9100\"],\
    \"labels\":{\"__meta_lg_name\":\"b\",\"__meta_lg_address\":\"127.0.0.1:7102\"}}]";

const TARGETS_OF_MEMBERS: &str = "[{\"targets\":[\"127.0.0.1:7102\"],\
    \"labels\":{\"__meta_lg_name\":\"b\",\"__meta_lg_address\":\"127.0.0.1:7102\"}}]";

const UNRECORDED: &str = "{\"error\":\"this node doesn't record\"}";

const METRICS: &[&str] = &[
    "# HELP lg_members Members known, this member included, by status.",
    "# TYPE lg_members gauge",
    "lg_members{status=\"alive\"} 1",
    "lg_members{status=\"suspect\"} 1",
    "lg_members{status=\"failed\"} 1",
    "lg_members{status=\"left\"} 0",
    "# TYPE lg_health_score gauge",
    "lg_health_score 2",
    "lg_incarnation 4",
    "lg_ousted 0",
    "lg_events_total 41",
    "lg_last_event_seconds 5.003",
    "lg_uptime_seconds 5.370",
    "lg_stood_still_seconds_total 0.250",
    "# TYPE lg_datagrams_received_total counter",
    "lg_datagrams_received_total 111",
    "lg_datagrams_sent_total 112",
    "lg_datagrams_unsent_total 113",
    "lg_probes_begun_total 114",
    "lg_probes_failed_total 115",
    "lg_probes_helped_total 116",
    "lg_suspicions_raised_total 117",
    "lg_suspicions_refuted_total 118",
    "lg_members_forgotten_total 119",
    "lg_history_entries_total 120",
    "lg_history_rotations_total 121",
    "lg_calls_refused_total 122",
    "lg_recorded_entries_total 123",
    "lg_recorded_bytes_total 124",
    "lg_recording_lost_entries_total 125",
    "lg_recording_failures_total 126",
    "lg_datagrams_dropped_total{fault=\"Short\"} 0",
    "lg_datagrams_dropped_total{fault=\"Magic\"} 3",
];

const OUSTED_METRICS: &[&str] = &[
    "# HELP lg_members Members known, this member included, by status.",
    "lg_ousted 1",
    "lg_datagrams_dropped_total{fault=\"Magic\"} 3",
];

const PAGE: &[&str] = &[
    "<!DOCTYPE html>",
    "<meta name='viewport' content='width=device-width, initial-scale=1'>",
    "<h1>b</h1>",
    "<p id='health'>score 2, incarnation 4, 2 of 3 members live</p>",
    "<tbody id='members' data-version='41'>",
    "<tr class='suspect'><td>a<td>suspect<td>0<td>127.0.0.1:7101<td>c</tr>",
    "<tr class='alive'><td>b<td>alive<td>4<td>127.0.0.1:7102<td></tr>",
    "<tr class='failed'><td>c<td>failed<td>2<td>127.0.0.1:7103<td></tr>",
    "</html>",
];

const OUSTED_PAGE: &[&str] = &[
    "<!DOCTYPE html>",
    "<p id='health'>score 2, incarnation 4, 2 of 3 members live, ousted</p>",
    "</html>",
];

/// The rows. For a busy node three changes of version 7 are forgotten: a request for those behind version 6 missed
/// some, and one for those behind version 7 missed none.
pub const ROWS: &[Row] = &[
    (Usual, "/v1/members", 200, JSON, Whole(ALL)),
    (Usual, "/v1/members?status=alive", 200, JSON, Whole(ALIVE)),
    (
        Usual,
        "/v1/members?status=suspect",
        200,
        JSON,
        Whole(SUSPECT),
    ),
    (Usual, "/v1/members?status=failed", 200, JSON, Whole(FAILED)),
    (Usual, "/v1/members?status=left", 200, JSON, Whole(NOBODY)),
    (Usual, "/v1/members/a", 200, JSON, Whole(ONE)),
    (
        Usual,
        "/v1/members/d",
        404,
        JSON,
        Whole("{\"error\":\"no member of this name is known\"}"),
    ),
    (Usual, "/v1/explain/a", 404, JSON, Whole(UNRECORDED)),
    (Ousted, "/v1/explain/d", 404, JSON, Whole(UNRECORDED)),
    (Usual, "/v1/health", 200, JSON, Whole(HEALTH)),
    (Ousted, "/v1/health", 503, JSON, Whole(OUSTED)),
    (Usual, "/v1/changes", 200, JSON, Whole(THREE)),
    (
        Usual,
        "/v1/changes?after=30&wait_ms=30000",
        200,
        JSON,
        Whole(TWO),
    ),
    (Usual, "/v1/changes?after=41", 200, JSON, Whole(NO_CHANGES)),
    (Busy, "/v1/changes?after=6", 200, JSON, Whole(MISSED)),
    (Busy, "/v1/changes?after=7", 200, JSON, Whole(THREE)),
    (Usual, "/v1/config", 200, JSON, Whole(CONFIG)),
    (Ousted, "/v1/config", 200, JSON, Whole(OUSTED_CONFIG)),
    (Usual, "/v1/prometheus", 200, JSON, Whole(TARGETS)),
    (
        Usual,
        "/v1/prometheus?port=9100",
        200,
        JSON,
        Whole(TARGETS_AT_9100),
    ),
    (
        Ousted,
        "/v1/prometheus",
        200,
        JSON,
        Whole(TARGETS_OF_MEMBERS),
    ),
    (Usual, "/metrics", 200, TEXT, Lines(METRICS)),
    (Ousted, "/metrics", 200, TEXT, Lines(OUSTED_METRICS)),
    (Usual, "/", 200, HTML, Lines(PAGE)),
    (Ousted, "/", 200, HTML, Lines(OUSTED_PAGE)),
    (
        Usual,
        "/v1/member",
        404,
        JSON,
        Whole("{\"error\":\"there is nothing at this path\"}"),
    ),
    (Usual, "/v1/health?", 200, JSON, Whole(HEALTH)),
    (
        Usual,
        "/v1/health?a",
        400,
        JSON,
        Whole("{\"error\":\"this path takes no query\"}"),
    ),
];

/// Whether a line stands in a text.
fn has_line(text: &str, line: &str) -> bool {
    text.lines().any(|found| found == line)
}

/// Whether lines stand in a text, the first at its front and the last at its end.
fn has_lines(text: &str, lines: &[&str]) -> bool {
    text.lines().next() == lines.first().copied()
        && text.lines().last() == lines.last().copied()
        && text.ends_with("\n")
        && lines.iter().all(|line| has_line(text, line))
}

impl Body {
    /// Whether a text is such a body.
    fn is_met(self, text: &str) -> bool {
        match self {
            Whole(whole) => text == whole,
            Lines(lines) => has_lines(text, lines),
        }
    }
}

/// The body of an answer as a text.
pub fn text_of(answer: &HttpAnswer) -> Option<&str> {
    str::from_utf8(&answer.body).ok()
}

/// Whether an answer is that of a row.
pub fn is_of(answer: &HttpAnswer, row: &Row) -> bool {
    let (_, _, code, media, body) = *row;
    answer.status.number() == code
        && answer.kind.words() == media
        && text_of(answer).is_some_and(|text| body.is_met(text))
}
