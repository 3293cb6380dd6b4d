//! What is answered to whoever asks what a recording tells of a member.
use Recording::{Missing, Read, Unread};
use lg_answers::{Explained, MISSING_MS, explained_answer};
use lg_http::{HttpAnswer, Kind};
use std::alloc::{AllocError, Global};

/// What there is of a recording.
#[derive(Clone, Copy, Debug)]
enum Recording {
    /// None: the node doesn't record.
    Missing,
    /// One that can't be read.
    Unread,
    /// One that tells this text.
    Read(&'static str),
}

/// An account of a member that failed, in the form of `docs/EXPLANATIONS.md`, and what is answered with it.
const FAILED: &str = "{\"member\":\"c\",\"accounts\":[\
    {\"status\":\"failed\",\"moment\":14004,\"wall\":1796095246570,\"told_by\":null,\"known\":true,\"notes\":[\
    {\"entry\":73,\"moment\":14004,\"wall\":1796095246570,\"told_by\":null,\"steps\":[{\"step\":\"time_over\"},\
    {\"step\":\"changed\",\"status\":\"failed\",\"incarnation\":0,\"address\":\"127.0.0.1:7103\",\
    \"accuser\":null}]}]}]}\n";

const FAILED_TOLD: &str = "{\"missing_ms\":1000,\"explained\":{\"member\":\"c\",\"accounts\":[\
    {\"status\":\"failed\",\"moment\":14004,\"wall\":1796095246570,\"told_by\":null,\"known\":true,\"notes\":[\
    {\"entry\":73,\"moment\":14004,\"wall\":1796095246570,\"told_by\":null,\"steps\":[{\"step\":\"time_over\"},\
    {\"step\":\"changed\",\"status\":\"failed\",\"incarnation\":0,\"address\":\"127.0.0.1:7103\",\
    \"accuser\":null}]}]}]}}";

/// What there is of a recording, and the code and the body of the answer.
const ROWS: &[(Recording, u16, &str)] = &[
    (Missing, 404, "{\"error\":\"this node doesn't record\"}"),
    (Unread, 503, "{\"error\":\"the recording can't be read\"}"),
    (
        Read("{\"member\":\"c\",\"accounts\":[]}\n"),
        200,
        "{\"missing_ms\":1000,\"explained\":{\"member\":\"c\",\"accounts\":[]}}",
    ),
    (Read(FAILED), 200, FAILED_TOLD),
    // No newline, two, and one inside.
    (Read("{}"), 200, "{\"missing_ms\":1000,\"explained\":{}}"),
    (
        Read("{}\n\n"),
        200,
        "{\"missing_ms\":1000,\"explained\":{}\n}",
    ),
    (
        Read("{\n}"),
        200,
        "{\"missing_ms\":1000,\"explained\":{\n}}",
    ),
];

impl Recording {
    /// What is handed in of it.
    fn handed(self, alloc: Global) -> Result<Explained, AllocError> {
        match self {
            Missing => Ok(Explained::Unrecorded),
            Unread => Ok(Explained::Unreadable),
            Read(text) => Ok(Explained::Told(Vec::from_slice(alloc, text.as_bytes())?)),
        }
    }

    /// The answer that tells it.
    fn answer(self, alloc: Global) -> Result<HttpAnswer, AllocError> {
        explained_answer(alloc, &self.handed(alloc)?)
    }
}

/// Each row. The milliseconds that may be missing are those that the body says.
#[test]
fn tells_recordings(rt: HostRuntime) {
    for (recording, code, body) in ROWS {
        let answer = recording.answer(rt.alloc());
        let is_met = answer.is_ok_and(|answer| {
            answer.status.number() == *code
                && answer.kind == Kind::Json
                && answer.body.as_slice() == body.as_bytes()
        });
        assert!(rt; is_met, "{recording:?}");
    }
    assert!(rt; MISSING_MS == 1000);
}
