//! The answer to a request.
//!
//! Defined in: `specs/Meaning/Answers.antt`.
//! Tested in: `lg_answers_tests/src/answer.rt`, `lg_answers_refusals/src/refused_memory.rt`.
ghost use Rattle.std.specs.Prelude.{◌≡◌, IfOk, List, string_bytes};
ghost use Rattle.std.specs.Option.{option_map};
ghost use Rattle.lg_changes.specs.declared.change.Change.{Change};
ghost use Rattle.lg_changes.specs.Meaning.Kept.{KeepsNewest};
ghost use Rattle.lg_answers.specs.Meaning.Answers.{answer_to, answer_value, error_answer, found_answer, health_answer};
ghost use Rattle.lg_answers.specs.Meaning.Answers.{health_status, member_answer, record_named, route_answer};

use crate::changes::changes_body;
use crate::config::config_body;
use crate::explaining::{Explained, explained_answer};
use crate::health::{error_body, health_body};
use crate::members::{member_body, members_body};
use crate::metrics::metrics_body;
use crate::page::page_body;
use crate::reason::RouteFault;
use crate::route::{Route, route_of};
use crate::snapshot::{ShownConfig, Snapshot};
use crate::targets::targets_body;
use lg_changes::Changes;
use lg_http::{HttpAnswer, HttpStatus, Kind};
use lg_rules::{Name, Record};
use std::alloc::{AllocError, Global};

/// An answer with the status 200.
pub(crate) fn found(kind: Kind, body: String) -> HttpAnswer
    ensures { answer_value result ≡ found_answer kind (string_bytes body) }
{
    HttpAnswer {
        status: HttpStatus::Fine,
        kind,
        body: body.into_bytes(),
    }
}

/// An answer with a fault in words.
pub(crate) fn error_answer(
    alloc: Global,
    status: HttpStatus,
    reason: &str,
) -> Result<HttpAnswer, AllocError>
    ensures { IfOk result (λ answer. answer_value answer ≡ error_answer status reason.now) }
{
    let body = error_body(alloc, reason)?;
    Ok(HttpAnswer {
        status,
        kind: Kind::Json,
        body: body.into_bytes(),
    })
}

/// The record of a member.
fn record_named<'a>(name: &Name, members: &'a [Record]) -> Option<&'a Record>
    ensures { option_map (λ member. member.now) result ≡ record_named name.now members.now }
{
    members.iter().find(|member| member.name == *name)
}

/// The answer for one member.
fn member_answer(alloc: Global, snapshot: &Snapshot, name: &Name) -> Result<HttpAnswer, AllocError>
    ensures { IfOk result (λ answer. answer_value answer ≡ member_answer snapshot.now name.now) }
{
    match record_named(name, &snapshot.records) {
        Some(member) => {
            let body = member_body(alloc, snapshot.version, member)?;
            Ok(found(Kind::Json, body))
        }
        None => error_answer(
            alloc,
            HttpStatus::NotFound,
            "no member of this name is known",
        ),
    }
}

/// The status of the health: 503 if this member is ousted, so that a load balancer can read it alone.
fn health_status(ousted: bool) -> HttpStatus
    ensures { result ≡ health_status ousted }
{
    if ousted {
        HttpStatus::Unavailable
    } else {
        HttpStatus::Fine
    }
}

/// The answer for the health.
fn health_answer(alloc: Global, snapshot: &Snapshot) -> Result<HttpAnswer, AllocError>
    ensures { IfOk result (λ answer. answer_value answer ≡ health_answer snapshot.now) }
{
    let body = health_body(alloc, snapshot)?;
    Ok(HttpAnswer {
        status: health_status(snapshot.ousted),
        kind: Kind::Json,
        body: body.into_bytes(),
    })
}

/// The answer for a route.
#[tactic(auto, unfolding(crate::specs::Meaning::Answers::route_answer))]
fn route_answer(
    alloc: Global,
    snapshot: &Snapshot,
    changes: &Changes,
    setup: &ShownConfig,
    route: Route,
) -> Result<HttpAnswer, AllocError>
    ensures { (all : List Change) → KeepsNewest changes.now all → IfOk result (λ answer.
        answer_value answer ≡ route_answer snapshot.now all setup.now route) }
{
    match route {
        Route::Page => Ok(found(Kind::Html, page_body(alloc, snapshot)?)),
        Route::Members(kind) => {
            let body = members_body(alloc, snapshot, kind)?;
            Ok(found(Kind::Json, body))
        }
        Route::Member(name) => member_answer(alloc, snapshot, &name),
        Route::Health => health_answer(alloc, snapshot),
        Route::Changes(wait) => {
            let body = changes_body(alloc, snapshot, changes, wait.after)?;
            Ok(found(Kind::Json, body))
        }
        Route::Config => Ok(found(Kind::Json, config_body(alloc, setup)?)),
        Route::Metrics => Ok(found(Kind::Metrics, metrics_body(alloc, snapshot)?)),
        Route::Targets(port) => {
            let body = targets_body(alloc, snapshot, setup.status, port)?;
            Ok(found(Kind::Json, body))
        }
        Route::Explain(_) => explained_answer(alloc, &Explained::Unrecorded),
    }
}

/// The answer to a request for a path and a query, from one look at the node, the changes that are kept, and the
/// configuration that runs. It is made at once: to wait for a change is the caller's, who finds by
/// [`wait_of`](crate::wait_of) how long.
///
/// What a recording tells isn't read here: a request for it is answered as by a node that doesn't record. A caller
/// whose node records finds such a request by [`route_of`], as [`Route::Explain`], and answers it by
/// [`explained_answer`].
///
/// The status is 200; 404 if the path or the member is unknown, or a recording is asked for; 405 if the path takes POST
/// alone; 400 if the name or the query is faulty; and 503 for the health if this member is ousted. The body of a fault
/// is `{"error":"WORDS"}`. Memory is allocated for the body and for what it is made of. The only error is that it was
/// refused.
#[tactic(auto, unfolding(crate::specs::Meaning::Answers::answer_to))]
pub fn answer_to(
    alloc: Global,
    snapshot: &Snapshot,
    changes: &Changes,
    setup: &ShownConfig,
    path: &[u8],
    query: Option<&[u8]>,
) -> Result<HttpAnswer, AllocError>
    ensures { (all : List Change) → KeepsNewest changes.now all → IfOk result (λ answer.
        answer_value answer
        ≡ answer_to snapshot.now all setup.now path.now (option_map (λ bytes. bytes.now) query.entry)) }
{
    match route_of(path, query) {
        Ok(route) => route_answer(alloc, snapshot, changes, setup, route),
        Err(fault) => error_answer(alloc, fault.status(), fault.text()),
    }
}
