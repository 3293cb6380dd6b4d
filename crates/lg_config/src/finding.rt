//! An address of the member's own that is found when its node starts.
//!
//! Defined in: `specs/Meaning/Finding.antt`.
//! Tested in: `cases/config_auto.case`, `lg_command_tests/src/finding.rt`.
ghost use Rattle.std.specs.Prelude.{◌≡◌};
ghost use Rattle.lg_config.specs.Meaning.Finding.{auto_reason, is_unfindable, unless_unfindable, with_own_ip};

use crate::fault::FileFault;
use crate::node::NodeConfig;
use lg_rules::Ip;

/// Whether the member's address is to be found, and there is no seed by which it could be.
fn is_unfindable(node: &NodeConfig) -> bool
    ensures { result ≡ is_unfindable node.now }
{
    node.auto && node.seeds.is_empty()
}

/// Settings, or the fault that their address is to be found without seeds.
pub(crate) fn unless_unfindable(node: NodeConfig) -> Result<NodeConfig, FileFault>
    ensures { result ≡ unless_unfindable node }
{
    if is_unfindable(&node) {
        Err(FileFault::Auto)
    } else {
        Ok(node)
    }
}

/// Settings with this IP address of the member's own.
pub(crate) fn with_own_ip(node: NodeConfig, ip: Ip) -> NodeConfig
    ensures { result ≡ with_own_ip ip node }
{
    let mut found = node;
    found.config.addr.ip = ip;
    found
}

/// The reason of a member whose address is to be found without seeds.
pub(crate) fn auto_reason() -> &'static str
    ensures { result.now ≡ auto_reason }
{
    "there are no seeds, and at least one is needed if address is \"auto\"\n"
}
