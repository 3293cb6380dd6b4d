//! Receives an answer in parts.
//!
//! Defined in: `specs/Meaning/Answers.antt`.
//! Tested in: `lg_client_tests/src/asking.rt`, `lg_client_tests/src/damaged.rt`.
ghost use Rattle.std.specs.Prelude.{◌≡◌, ◌≤◌, Err, IfErr, OnErr, OnOk, drop, length};
ghost use Rattle.std.specs.Io.{StartsWith};
ghost use Rattle.lg_client.specs.Support.Receiving.{end_behind, IsEndBehind, IsReceived};

use crate::heard::{Heard, hear};
use crate::unheard::{Delay, Unheard};
use std::alloc::Global;
use std::io::{ErrorKind, Read};

/// The most that is received at once, in bytes.
const ROOM: usize = 16 * 1024;

/// An answer: its bytes, its status code, and where its body begins.
#[derive(Drop)]
pub(crate) struct Answer {
    pub(crate) bytes: Vec<u8>,
    pub(crate) code: u16,
    pub(crate) start: usize,
}

impl Answer {
    /// The body.
    pub(crate) fn body(&self) -> &[u8]
        requires { self.now.start ≤ length self.now.bytes.items }
        ensures { result.now ≡ drop self.now.start self.now.bytes.items }
    {
        &self.bytes[self.start..]
    }
}

/// What the end of a connection means behind these bytes: a busy node closes it before the first.
fn ended(bytes: &[u8]) -> Unheard
    ensures { result ≡ end_behind bytes.now }
{
    if bytes.is_empty() {
        Unheard::Later(Delay::Closed)
    } else {
        Unheard::Lacking
    }
}

/// Whether an error says that the other side has closed the connection.
fn is_closing(kind: ErrorKind) -> bool {
    matches!(
        kind,
        ErrorKind::ConnectionReset | ErrorKind::ConnectionAborted | ErrorKind::BrokenPipe
    )
}

/// Reads once, and appends what came. An interrupted call gives nothing. The error says that the other side is at its
/// end, is silent or fails, or that memory was refused. Then the bytes are as they were.
#[tactic(auto, using(crate::proofs::DelayLaws::ends_behind))]
fn receive_part<S: Read>(
    stream: &mut S,
    room: &mut [u8],
    bytes: &mut Vec<u8>,
) -> Result<(), Unheard>
    ensures kept { OnOk result (StartsWith bytes.new.items bytes.old.items) }
    ensures same { OnErr result (bytes.new.items ≡ bytes.old.items) }
    ensures ended { IfErr result (IsEndBehind bytes.old.items) }
{
    match stream.read(room) {
        Ok(0) => Err(ended(bytes)),
        Ok(count) => match bytes.extend_from_slice(&room[..count]) {
            Ok(()) => Ok(()),
            Err(_) => Err(Unheard::NoMemory),
        },
        Err(error) if error.kind() == ErrorKind::Interrupted => Ok(()),
        Err(error) if is_closing(error.kind()) => Err(ended(bytes)),
        Err(_) => Err(Unheard::Lacking),
    }
}

/// Receives until the bytes are an answer, or can't become one.
///
/// Memory is allocated for the bytes that come: at most [`MAX_ANSWER`](crate::heard::MAX_ANSWER) and one part more.
#[tactic(auto, using(crate::proofs::AnswerLaws::nothing_cut, crate::proofs::DelayLaws::received_end))]
pub(crate) fn receive<S: Read>(alloc: Global, stream: &mut S) -> Result<Answer, Unheard>
    ensures { IsReceived result }
{
    let mut bytes = Vec::new(alloc);
    let mut room = [0; ROOM];
    for _ in 0..u64::MAX {
        match hear(&bytes) {
            Heard::Whole(code, start) => return Ok(Answer { bytes, code, start }),
            Heard::Other => return Err(Unheard::Wrong),
            Heard::Cut => {}
        }
        match receive_part(stream, &mut room, &mut bytes) {
            Ok(()) => {}
            Err(why) => return Err(why),
        }
    }
    Err(Unheard::Lacking)
}
