//! The answer to a request that asks the node to leave.
//!
//! Defined in: `specs/Meaning/Leaving.antt`.
//! Tested in: `lg_answers_tests/src/leaving.rt`, `lg_answers_refusals/src/refused_memory.rt`.
ghost use Rattle.std.specs.Prelude.{◌≡◌, IfOk, string_bytes, option_map};
ghost use Rattle.std.specs.Str.{bytes_eq};
ghost use Rattle.lg_answers.specs.Meaning.Answers.{answer_value};
ghost use Rattle.lg_answers.specs.Meaning.Leaving.{leave_answer, leave_path, leave_reply, leaving_body, names};

use crate::answer::{error_answer, found};
use lg_check::text_of_name;
use lg_http::{HttpAnswer, HttpStatus, Kind};
use lg_rules::Name;
use std::alloc::{AllocError, Global};

/// The name of the header field that has to have the name of the node, in lower case (this project's choice).
pub const LEAVE_FIELD: &str = "lg-leave";

/// What the answer to a request for `/v1/leave` depends on besides the node.
#[derive(Clone, Copy, Debug)]
pub struct LeaveAsked<'r> {
    /// Whether the method is POST.
    pub is_post: bool,
    /// Whether the client's address is loopback: in 127.0.0.0/8 or ::1.
    pub is_loopback: bool,
    /// The first value of the header field [`LEAVE_FIELD`], if there is one.
    pub named: Option<&'r [u8]>,
}

/// What comes of a request for `/v1/leave` whose method is neither GET nor HEAD.
#[derive(Clone, Copy, Debug, PartialEq, Eq)]
pub enum LeaveReply {
    /// 405: the method isn't POST.
    PostOnly,
    /// 403: the node's file doesn't let it be asked.
    Off,
    /// 403: the client's address isn't loopback.
    Elsewhere,
    /// 400: the header field isn't the name of the node.
    Unnamed,
    /// 200: the node leaves.
    Leaves,
}

/// Whether a path is that of a request to leave, `/v1/leave`.
pub fn is_leave(path: &[u8]) -> bool
    ensures { result ≡ bytes_eq path.now leave_path }
{
    path == "/v1/leave".as_bytes()
}

/// Whether a header field is there and has exactly this name.
fn names(named: Option<&[u8]>, name: &Name) -> bool
    ensures { result ≡ names (option_map (λ value. value.now) named.entry) name.now }
{
    match named {
        Some(value) => value == name.as_bytes(),
        None => false,
    }
}

/// What comes of a request to the node with this name, which may be asked to leave or may not. The first that fails
/// counts, in this order: the method, that it may be asked, the client's address, the header field.
pub fn leave_reply(name: &Name, is_on: bool, asked: LeaveAsked<'_>) -> LeaveReply
    ensures { result
        ≡ leave_reply name.now is_on asked.entry.is_post asked.entry.is_loopback
        (option_map (λ value. value.now) asked.entry.named) }
{
    if !asked.is_post {
        LeaveReply::PostOnly
    } else if !is_on {
        LeaveReply::Off
    } else if !asked.is_loopback {
        LeaveReply::Elsewhere
    } else if !names(asked.named, name) {
        LeaveReply::Unnamed
    } else {
        LeaveReply::Leaves
    }
}

/// The body that says which node leaves. No byte of a name needs an escape.
fn leaving_body(alloc: Global, name: &Name) -> Result<String, AllocError>
    ensures { IfOk result (λ body. string_bytes body ≡ leaving_body name.now) }
{
    let name = text_of_name(name);
    format!(in alloc; "{{\"leaving\":\"{name}\"}}")
}

impl LeaveReply {
    /// The answer of the node with this name. Memory is allocated for its body. The only error is that it was refused.
    pub fn answer(self, alloc: Global, name: &Name) -> Result<HttpAnswer, AllocError>
        ensures { IfOk result (λ answer. answer_value answer ≡ leave_answer name.now self) }
    {
        match self {
            LeaveReply::PostOnly => error_answer(
                alloc,
                HttpStatus::PostOnly,
                "this path takes POST alone",
            ),
            LeaveReply::Off => error_answer(
                alloc,
                HttpStatus::Forbidden,
                "leave is off in the file of this node",
            ),
            LeaveReply::Elsewhere => error_answer(
                alloc,
                HttpStatus::Forbidden,
                "only a client on this machine may ask this",
            ),
            LeaveReply::Unnamed => error_answer(
                alloc,
                HttpStatus::BadRequest,
                "Lg-Leave has to be the name of this node",
            ),
            LeaveReply::Leaves => Ok(found(Kind::Json, leaving_body(alloc, name)?)),
        }
    }
}
