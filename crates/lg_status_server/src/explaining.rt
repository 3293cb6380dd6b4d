//! What a site answers to who asks why a member was suspected, or taken as failed or left.
//!
//! Defined in: `specs/Meaning/Explaining.antt`, `lg_explain_run/specs/Meaning/Newest.antt`.
//! Tested in: `lg_answers_tests/src/showing.rt`, `cases/recordings`.
ghost use Rattle.std.specs.Prelude.{IfOk};
ghost use Rattle.std.specs.Option.{option_map};
ghost use Rattle.lg_status_server.specs.Meaning.Explaining.{ExplainsIf, IsExplained, asked_of, route_asks};

use lg_answers::{Explained, Route, explained_answer, route_of};
use lg_explain_run::{FolderFault, explain_newest};
use lg_http::HttpAnswer;
use lg_rules::Name;
use std::alloc::{AllocError, Global};
use std::fs::Files;

/// What the newest files of the recording in a folder tell of a member. The only error is refused memory.
fn find<R: Files + AllocGlobal + Clone + Drop>(
    rt: &R,
    alloc: Global,
    folder: &str,
    name: &Name,
) -> Result<Explained, AllocError>
    ensures { IfOk result (IsExplained name.now) }
{
    match explain_newest(rt, alloc, folder, name) {
        Ok(text) => Ok(Explained::Told(text)),
        Err(FolderFault::Memory) => Err(AllocError),
        Err(_) => Ok(Explained::Unreadable),
    }
}

/// What a node with a recording in this folder answers to a request of a route, if that asks what the recording tells
/// of a member. The only error is refused memory.
fn explain_route<R: Files + AllocGlobal + Clone + Drop>(
    rt: &R,
    alloc: Global,
    folder: &str,
    route: Route,
) -> Result<Option<HttpAnswer>, AllocError>
    ensures { IfOk result (ExplainsIf (route_asks route)) }
{
    match route {
        Route::Explain(name) => {
            let explained = find(rt, alloc, folder, &name)?;
            let answer = explained_answer(alloc, &explained)?;
            Ok(Some(answer))
        }
        _ => Ok(None),
    }
}

/// What a node with a recording in this folder, if it has one, answers to a request for a path and a query, if that
/// asks what the recording tells of a member. The newest files are read now, in the thread of the status server. Memory
/// is allocated for one of them at a time, for the account, and for the body. The only error is that it was refused.
pub(crate) fn explain<R: Files + AllocGlobal + Clone + Drop>(
    rt: &R,
    alloc: Global,
    folder: Option<&str>,
    path: &[u8],
    query: Option<&[u8]>,
) -> Result<Option<HttpAnswer>, AllocError>
    ensures { IfOk result (ExplainsIf (asked_of (option_map (λ f. f.now) folder.entry) path.now
        (option_map (λ q. q.now) query.entry))) }
{
    let Some(folder) = folder else {
        return Ok(None);
    };
    match route_of(path, query) {
        Ok(route) => explain_route(rt, alloc, folder, route),
        Err(_) => Ok(None),
    }
}
