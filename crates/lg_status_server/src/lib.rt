//! The status server of a node: what it shows over HTTP.
//!
//! [`NodeSite`] is a site of `lg_http` over a pass of the agent: it looks at the agent and at what the loops of the
//! node count (`lg_counters`), and answers with the bodies of `lg_answers`. It takes no lock. A request to leave sets a
//! flag that the node looks at. What the recording of the node tells of a member is read when that is asked for.
#![tactic(auto)]

mod explaining;
mod leaving;
mod looked;
mod reading;
mod serving;
mod site;

pub use leaving::leave;
pub use serving::{Served, bind, serve};
pub use site::{NodeSite, SiteBasis};
