//! What a node answers when it is asked over HTTP: which route a path and a query have, and the body of each answer. It
//! reads and writes nothing, and starts no thread: its calls make an answer of plain values.
//!
//! [`answer_to`] makes the answer to a request, from a [`Snapshot`], the [`Changes`] that are kept, and the
//! [`ShownConfig`]. [`route_of`] says which route a request has, and [`wait_of`] what it waits for. What a recording
//! tells of a member is answered by [`explained_answer`]. What comes of a request to leave says [`leave_reply`].
//! `specs/Meaning` defines each route and each body, and the files there whose names end in `Examples` have worked
//! ones.
#![tactic(auto)]

mod answer;
mod changes;
mod config;
mod explaining;
mod health;
mod leave;
mod members;
mod metric;
mod metrics;
mod page;
mod place;
mod query;
mod reason;
mod route;
mod snapshot;
mod targets;

pub use answer::answer_to;
pub use explaining::{Explained, MISSING_MS, explained_answer};
pub use leave::{LEAVE_FIELD, LeaveAsked, LeaveReply, is_leave, leave_reply};
pub use lg_changes::{Altered, Change, Changes, MAX_CHANGES};
pub use lg_config::{Host, HostName, Place, SeedPlace};
pub use lg_counters::{Counts, Drops, RecordedCounts};
pub use query::MAX_WAIT_MS;
pub use reason::RouteFault;
pub use route::{Route, StatusKind, route_of, wait_of};
pub use snapshot::{NodeNumber, ShownConfig, Snapshot};
