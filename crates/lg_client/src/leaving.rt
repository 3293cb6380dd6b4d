//! Asks a node to leave its group, and waits until it has ended.
//!
//! Defined in: `specs/Meaning/Leaving.antt`.
//! Tested in: `lg_client_tests/src/leaving.rt`.
ghost use Rattle.std.specs.Prelude.{◌≡◌, codes, true};
ghost use Rattle.lg_text.specs.Meaning.Reporting.{Reports};
ghost use Rattle.lg_client.specs.Meaning.Leaving.{AsksForHealth, AsksToLeave, AwaitsEnd, FindsName, LeavesInOrder};
ghost use Rattle.lg_client.specs.Meaning.Leaving.{LeavesNode, TellsLeaving, leave_fault_status, leave_fault_text};
ghost use Rattle.lg_client.specs.Meaning.Leaving.{leaving_told, name_told};
ghost use Rattle.lg_client.specs.Meaning.Questions.{codes_of, leave_codes};
ghost use Rattle.lg_client.specs.Support.Asking.{AnswersQuestion};
ghost use Rattle.lg_client.specs.Support.Leaving.{IsLeftAs, IsLeftAt, IsNameFound};
ghost use Rattle.lg_client.specs.Support.Reading.{IsReadAs};
ghost use Rattle.lg_client.specs.Support.Receiving.{IsFetched};

use crate::address::address_in;
use crate::asker::{Asker, ask_twice, told};
use crate::asking::{NetAsker, Node, PATIENCE_MS};
use crate::fault::AskFault;
use crate::fields::name_at;
use crate::json::json_in;
use crate::leave_fault::LeaveFault;
use crate::receiving::Answer;
use crate::resource::Resource;
use lg_rules::Name;
use lg_text::{FaultStream, name_in, report};
use std::alloc::Global;
use std::net::Net;
use std::rt;

/// The status codes that the answer to one who asks a node to leave may have.
const CODES: [u16; 1] = [200];

/// How long is paused between two connections, in milliseconds (this project's choice).
const PAUSE_MS: u64 = 100;

/// Behind how many connections the wait is given up: 70,000 milliseconds. A node that leaves goes on for one interval,
/// which is 60,000 at most.
const MOST_CONNECTIONS: u64 = 700;

/// The name that a body has at a key. The value is made in memory.
fn name_in_body(alloc: Global, key: &str, body: &[u8]) -> Result<Name, AskFault>
    ensures { IsReadAs (λ name. name) (name_told key.now body.now) result }
{
    let value = match json_in(alloc, body) {
        Ok(value) => value,
        Err(fault) => return Err(fault),
    };
    match name_at(&value, key) {
        Some(name) => Ok(name),
        None => Err(AskFault::Bad),
    }
}

/// The name that leaves, as a body says it. A body that says another than this one is [`AskFault::Bad`].
fn leaving_in_body(alloc: Global, name: &Name, body: &[u8]) -> Result<Name, AskFault>
    ensures { IsReadAs (λ said. said) (leaving_told name.now body.now) result }
{
    let said = match name_in_body(alloc, "leaving", body) {
        Ok(said) => said,
        Err(fault) => return Err(fault),
    };
    if said.as_bytes() == name.as_bytes() {
        Ok(said)
    } else {
        Err(AskFault::Bad)
    }
}

/// The name that a health says, if one came.
#[tactic(auto, using(crate::proofs::AskLaws::answers_from, crate::proofs::AskLaws::unheard_from))]
fn name_from(alloc: Global, fetched: Result<Answer, AskFault>) -> Result<Name, AskFault>
    requires { IsFetched (codes_of Resource.Health) fetched }
    ensures { AnswersQuestion (codes_of Resource.Health) (λ name. name) (name_told (codes "name")) result }
{
    match fetched {
        Ok(answer) => name_in_body(alloc, "name", answer.body()),
        Err(fault) => Err(fault),
    }
}

/// The name that leaves, if an answer says that it is this one.
#[tactic(auto, using(crate::proofs::LeaveLaws::leaving_told_from))]
fn leaving_from(
    alloc: Global,
    name: &Name,
    fetched: Result<Answer, AskFault>,
) -> Result<Name, AskFault>
    requires { IsFetched leave_codes fetched }
    ensures heard { AnswersQuestion leave_codes (λ said. said) (leaving_told name.now) result }
    ensures tells { TellsLeaving name.now fetched result }
{
    match fetched {
        Ok(answer) => leaving_in_body(alloc, name, answer.body()),
        Err(fault) => Err(fault),
    }
}

/// The name that a node says in its health.
fn health_name<A: Asker>(alloc: Global, asker: &mut A) -> Result<Name, AskFault>
    ensures heard { AnswersQuestion (codes_of Resource.Health) (λ name. name) (name_told (codes "name")) result }
    ensures asked { A.tells ≡ true → AsksForHealth (A.log asker.old) (A.log asker.new) }
{
    let resource = Resource::Health;
    let fetched = ask_twice(asker, resource.target(), resource.codes());
    name_from(alloc, fetched)
}

/// The name by which a node is asked to leave: the one that is given, or the one of its health if none is given.
fn name_for<A: Asker>(alloc: Global, asker: &mut A, given: &str) -> Result<Name, LeaveFault>
    ensures found { IsNameFound given.now result }
    ensures asked { A.tells ≡ true → FindsName given.now (A.log asker.old) (A.log asker.new) }
{
    if given.is_empty() {
        return match health_name(alloc, asker) {
            Ok(name) => Ok(name),
            Err(fault) => Err(LeaveFault::Asking(fault)),
        };
    }
    match name_in(given.as_bytes()) {
        Some(name) => Ok(name),
        None => Err(LeaveFault::Name),
    }
}

/// Asks a node once to leave.
#[tactic(auto, using(crate::proofs::AskLaws::fetched_by, crate::proofs::LeaveLaws::asks_to_leave))]
fn ask_to_leave<A: Asker>(asker: &mut A, name: &Name) -> Result<Answer, AskFault>
    ensures heard { IsFetched leave_codes result }
    ensures asked { A.tells ≡ true → AsksToLeave name.now (A.log asker.old) (A.log asker.new) result }
{
    told(asker.ask_to_leave(name, &CODES))
}

/// Connects to a node until that can't be done, with a pause behind each connection. Whether it has ended so, behind
/// 700 of them at most.
fn await_end<A: Asker>(asker: &mut A) -> bool
    ensures { A.tells ≡ true → AwaitsEnd (A.log asker.old) (A.log asker.new) result }
{
    for turn in 0..MOST_CONNECTIONS {
        if !asker.connects() {
            return true;
        }
        asker.pause(PAUSE_MS);
    }
    false
}

/// Asks a node to leave, and waits until it has ended.
fn leave<A: Asker>(alloc: Global, asker: &mut A, given: &str) -> Result<(), LeaveFault>
    ensures left { IsLeftAs given.now result }
    ensures asked { A.tells ≡ true → LeavesInOrder given.now (A.log asker.old) (A.log asker.new) result }
{
    let name = match name_for(alloc, asker, given) {
        Ok(name) => name,
        Err(fault) => return Err(fault),
    };
    let fetched = ask_to_leave(asker, &name);
    match leaving_from(alloc, &name, fetched) {
        Ok(_) => {}
        Err(fault) => return Err(LeaveFault::Asking(fault)),
    }
    if await_end(asker) {
        Ok(())
    } else {
        Err(LeaveFault::Staying)
    }
}

/// Asks the node at an address to leave, and waits until it has ended.
#[tactic(auto, using(crate::proofs::LeaveLaws::left_at))]
fn leave_at<M: Net + rt::Clock>(
    rt: &M,
    alloc: Global,
    at: &str,
    name: &str,
) -> Result<(), LeaveFault>
    ensures { IsLeftAt at.now name.now result }
{
    let address = match address_in(at) {
        Ok(address) => address,
        Err(fault) => return Err(LeaveFault::Asking(fault)),
    };
    let node = Node {
        at,
        address,
        patience_ms: PATIENCE_MS,
    };
    let mut asker = NetAsker { rt, alloc, node };
    leave(alloc, &mut asker, name)
}

/// Reports a fault, and gives its status.
fn tell_leave<F: FaultStream>(fault: LeaveFault, faults: &mut F) -> u8
    ensures line { Reports (F.reported faults.old) (F.reported faults.new) (leave_fault_text fault) }
    ensures status { result ≡ leave_fault_status fault }
{
    report(faults, fault.text());
    fault.status()
}

/// Asks the node at an address to leave its group, and waits until it has ended. Gives the exit status. If all goes
/// well, it is 0, and nothing is written or reported.
///
/// The text of the address is A.B.C.D:PORT, or an IPv6 address in brackets before :PORT. `name` is the name of the
/// node, 1 to 32 bytes of `A-Z a-z 0-9 . _ -`. If it is empty, the node is asked for its health first,
/// `GET /v1/health`, as [`tell_answer`](crate::tell_answer) asks, and the name that it says is used. Then
/// `POST /v1/leave` is sent once, with the name in the field `Lg-Leave`. A node of this name answers with the status
/// code 200 and a body that says that this name leaves. It goes on for one interval then, and ends. So this connects to
/// it again and again, every 100 milliseconds, until no connection can be made within 2 seconds: what stops a service
/// ends what is left of it as soon as the command that stops it has returned.
///
/// If that can't be done, it is reported in a line, and the status is that of the fault ([`LeaveFault::status`]): 3 if
/// the text spells no address or the name is none, and then nothing is sent; 7 if nobody takes the connection, or it
/// ends or is silent for 10 seconds before an answer is whole; 8 if what came is no answer of a node that leaves, as if
/// the node refuses it or has another name; 10 if the node is busy; 1 if memory is refused. A node that was asked to
/// leave may do so all the same if its answer doesn't come, or memory for it is refused. The status is 1, too, if 700
/// connections could be made, each with a pause of 100 milliseconds behind it. A line that `faults` doesn't take is
/// dropped.
///
/// Memory is allocated for the requests, and in proportion to the answers. Which bytes come is up to the network, and
/// so is whether another server takes the place of the node: no contract says it.
pub fn leave_node<M: Net + rt::Clock, F: FaultStream>(
    rt: &M,
    alloc: Global,
    at: &str,
    name: &str,
    faults: &mut F,
) -> u8
    ensures { LeavesNode at.now name.now (F.reported faults.old) (F.reported faults.new) result }
{
    match leave_at(rt, alloc, at, name) {
        Ok(()) => 0,
        Err(fault) => tell_leave(fault, faults),
    }
}
