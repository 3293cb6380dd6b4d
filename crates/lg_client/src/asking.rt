//! Asks the server at an address: sends a request on a connection of its own, and receives the answer.
//!
//! Defined in: `specs/Meaning/Questions.antt`, `specs/Meaning/Answers.antt`, `specs/Meaning/Waiting.antt`.
//! Tested in: `lg_client_tests/src/asking.rt`, `lg_client_tests/src/waiting.rt`, `lg_client_tests/src/leaving.rt`.
ghost use Rattle.std.specs.Prelude.{◌≡◌, ◌≤◌, drop, false, length};
ghost use Rattle.lg_client.specs.Meaning.Questions.{is_code_of};
ghost use Rattle.lg_client.specs.Meaning.Answers.{IsHttpAnswer};
ghost use Rattle.lg_client.specs.Support.Receiving.{IsHeard, IsReceived, IsTurnedDownBy};

use crate::asker::Asker;
use crate::later::delay_in;
use crate::receiving::{Answer, receive};
use crate::resource::{leave_text, request_text};
use crate::unheard::{Delay, Unheard};
use lg_rules::{Addr, Name};
use lg_text::write_whole;
use std::alloc::Global;
use std::io::{Read, Write};
use std::net::{Net, OpenStream, SocketAddr, TcpStream};
use std::time::Duration;
use std::{io, rt, thread};

/// How long a server may take until it takes the connection, in milliseconds (this project's choice).
const CONNECT_MS: u64 = 2_000;

/// How long it may be silent before its answer is whole, in milliseconds (this project's choice).
pub(crate) const PATIENCE_MS: u64 = 10_000;

/// The same if it waits for a change, for 30,000 milliseconds at most.
pub(crate) const WATCH_PATIENCE_MS: u64 = 40_000;

/// The status code of a server that can't serve now.
const UNAVAILABLE: u16 = 503;

/// Who is asked: an address and its text, and how many milliseconds it may be silent.
#[derive(Clone, Copy, Debug)]
pub(crate) struct Node<'a> {
    pub(crate) at: &'a str,
    pub(crate) address: Addr,
    pub(crate) patience_ms: u64,
}

/// Whether a status code is one of these.
fn is_code_of(allowed: &[u16], code: u16) -> bool
    ensures { result ≡ is_code_of allowed.now code }
{
    allowed.iter().any(|c| *c == code)
}

/// Sends a request over a stream, and receives the answer. A server may answer or close the connection before it has
/// taken all of the request, so the answer counts even if the request can't be sent whole.
fn ask_over<S: Read + Write>(
    alloc: Global,
    stream: &mut S,
    request: &[u8],
) -> Result<Answer, Unheard>
    ensures { IsReceived result }
{
    let _ = write_whole(stream, request);
    receive(alloc, stream)
}

/// Connects to a node.
fn connect<M: Net>(rt: &M, node: &Node<'_>) -> io::Result<M::Stream> {
    let address = SocketAddr::from(node.address);
    TcpStream::connect_timeout(rt, &address, Duration::from_millis(CONNECT_MS))
}

/// Connects to a node, sends a request, and receives the answer.
#[tactic(auto, using(crate::proofs::AnswerLaws::nothing_cut))]
fn ask<M: Net>(rt: &M, alloc: Global, node: &Node<'_>, request: &[u8]) -> Result<Answer, Unheard>
    ensures { IsReceived result }
{
    let Ok(mut stream) = connect(rt, node) else {
        return Err(Unheard::Lacking);
    };
    let patience = Duration::from_millis(node.patience_ms);
    if stream.set_read_timeout(Some(patience)).is_err() {
        return Err(Unheard::Lacking);
    }
    ask_over(alloc, &mut stream, request)
}

/// Why an answer with a status code that isn't allowed doesn't count: it says to ask later, or it is wrong.
fn turned_down(answer: &Answer, codes: &[u16]) -> Unheard
    requires whole { IsHttpAnswer answer.now.bytes.items answer.now.code
        (drop answer.now.start answer.now.bytes.items) }
    requires disallowed { is_code_of codes.now answer.now.code ≡ false }
    ensures { IsTurnedDownBy codes.now result }
{
    if answer.code != UNAVAILABLE {
        return Unheard::Wrong;
    }
    match delay_in(&answer.bytes) {
        Some(seconds) => Unheard::Later(Delay::Told(seconds)),
        None => Unheard::Wrong,
    }
}

/// An answer with one of these status codes. Any other says to ask later, or is [`Unheard::Wrong`].
#[tactic(auto, using(crate::proofs::DelayLaws::heard_from, crate::proofs::DelayLaws::heard_turned_down))]
fn allowed(answer: Result<Answer, Unheard>, codes: &[u16]) -> Result<Answer, Unheard>
    requires { IsReceived answer }
    ensures { IsHeard codes.now result }
{
    match answer {
        Ok(answer) => {
            if is_code_of(codes, answer.code) {
                Ok(answer)
            } else {
                Err(turned_down(&answer, codes))
            }
        }
        Err(why) => Err(why),
    }
}

/// What a node answers if it is asked for a target: an answer with one of these status codes, or why there is none.
///
/// Memory is allocated for the request and for the answer.
fn fetch<M: Net>(
    rt: &M,
    alloc: Global,
    node: &Node<'_>,
    target: &str,
    codes: &[u16],
) -> Result<Answer, Unheard>
    ensures { IsHeard codes.now result }
{
    match request_text(alloc, target, node.at) {
        Ok(request) => allowed(ask(rt, alloc, node, request.as_str().as_bytes()), codes),
        Err(_) => Err(Unheard::NoMemory),
    }
}

/// The same if it is asked to leave by this name.
fn fetch_leave<M: Net>(
    rt: &M,
    alloc: Global,
    node: &Node<'_>,
    name: &Name,
    codes: &[u16],
) -> Result<Answer, Unheard>
    ensures { IsHeard codes.now result }
{
    match leave_text(alloc, name, node.at) {
        Ok(request) => allowed(ask(rt, alloc, node, &request), codes),
        Err(_) => Err(Unheard::NoMemory),
    }
}

/// Asks a node of the network, each question on a connection of its own, and waits by the machine's clock.
#[derive(Drop)]
pub(crate) struct NetAsker<'a, M> {
    pub(crate) rt: &'a M,
    pub(crate) alloc: Global,
    pub(crate) node: Node<'a>,
}

impl<'a, M: Net + rt::Clock> Asker for NetAsker<'a, M> {
    ghost use Rattle.std.specs.Prelude.{false, []};

    ghost tells = { false };

    ghost log = { λ a. [] };

    fn ask(&mut self, target: &str, codes: &[u16]) -> Result<Answer, Unheard> {
        fetch(self.rt, self.alloc, &self.node, target, codes)
    }

    fn wait(&mut self, seconds: u64) {
        thread::sleep(self.rt, Duration::from_secs(seconds));
    }

    fn ask_to_leave(&mut self, name: &Name, codes: &[u16]) -> Result<Answer, Unheard> {
        fetch_leave(self.rt, self.alloc, &self.node, name, codes)
    }

    fn connects(&mut self) -> bool {
        connect(self.rt, &self.node).is_ok()
    }

    fn pause(&mut self, milliseconds: u64) {
        thread::sleep(self.rt, Duration::from_millis(milliseconds));
    }
}
