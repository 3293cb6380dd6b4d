//! The hosts among the seeds of a node, and the thread that resolves them while it runs.
//!
//! Defined in: this file.
//! Tested in: `cases/nodes`.
use lg_config::NodeConfig;
use lg_node::ResolvedSeeds;
use lg_resolve::{Families, FaultStreams, Resolving, start_resolving};
use std::alloc::{AllocError, Global};
use std::net::{Net, TcpListener, TcpStream};
use std::rt::Clock;
use std::sync::{Arc, Wait};
use std::thread::Threads;

/// By what a node learns which addresses the hosts among its seeds have. If there are hosts, a thread resolves them
/// from now on, until the program ends ([`start_resolving`]). The error is that memory or this thread was refused.
pub(crate) fn resolved_seeds<R>(
    rt: &R,
    alloc: Global,
    node: &NodeConfig,
) -> Result<Arc<ResolvedSeeds, Global>, AllocError>
where
    R: AllocGlobal + Threads + Wait + Clock + FaultStreams + Copy + Send + 'static,
    R: Net<Listener = TcpListener, Stream = TcpStream>,
{
    let resolved = Arc::new(alloc, ResolvedSeeds::new())?;
    let hosts = node.hosts();
    if hosts.is_empty() {
        return Ok(resolved);
    }
    let how = Resolving {
        every_ms: node.resolve_ms,
        families: Families::of(node.bound_at().ip),
    };
    let theirs = Arc::try_clone(&resolved)?;
    start_resolving(rt, &hosts, how, theirs, rt.fault_stream())?;
    Ok(resolved)
}
