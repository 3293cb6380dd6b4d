//! Reads the configuration of a node that is to be run, with its own address found if that is to be found, or tells why
//! there is none.
//!
//! Defined in: `specs/Meaning/Running.antt`, `specs/Meaning/OwnAddress.antt`.
//! Tested in: `lg_command_tests/src/launch/starts.rt`, `ends.rt`.
ghost use Rattle.std.specs.Prelude.{Ok, Result, IfErr, IfOk};
ghost use Rattle.lg_timing.specs.Meaning.Config.{IsChecked};
ghost use Rattle.lg_config.specs.declared.fault.ReadFault.{ReadFault as UnreadBy};
ghost use Rattle.lg_config.specs.declared.node.NodeConfig.{NodeConfig as Configured};
ghost use Rattle.lg_config.specs.Meaning.Answer.{IsAnswer};
ghost use Rattle.lg_config.specs.Meaning.Options.{options_of};
ghost use Rattle.lg_run.specs.Meaning.OwnAddress.{HasOwnAddress};
ghost use Rattle.lg_run.specs.Meaning.Running.{LacksConfig, TellsNoAddress};

use crate::own_address::{NoAddress, with_own_address};
use crate::reporting::{tell, tell_both, tell_fault};
use crate::told::Told;
use crate::words::unfound_reason;
use lg_config::{Given, NodeConfig, ReadFault};
use lg_text::FaultStream;
use std::alloc::Global;
use std::net::Net;

/// Reports why a node has no address of its own in two lines, and gives the status. If memory for the second is
/// refused, only the first is reported.
fn tell_no_address<F: FaultStream>(
    alloc: Global,
    bytes: &[u8],
    given: &[Given<'_>],
    none: NoAddress,
    faults: &mut F,
) -> u8
    ensures { TellsNoAddress (F.reported faults.old) (F.reported faults.new) (options_of given.now) bytes.now none
        result }
{
    match none {
        NoAddress::Unfound => tell_both(Told::Link, unfound_reason(), faults),
        NoAddress::Fault(fault) => tell_fault(alloc, bytes, given, fault, faults),
    }
}

/// The configuration that the bytes of a file and options mean together, with an address of its own that was found if
/// it is to be found, which is reported then. If there is none, that is reported, and the error is the status.
pub(crate) fn configured<R: Net, F: FaultStream>(
    rt: &R,
    alloc: Global,
    bytes: &[u8],
    given: &[Given<'_>],
    faults: &mut F,
) -> Result<NodeConfig, u8>
    ensures found { IfOk result (λ found. (n : Configured) × IsAnswer (options_of given.now) bytes.now (Ok n)
        × HasOwnAddress n (F.reported faults.old) (F.reported faults.new) found) }
    ensures checked { IfOk result (λ found. IsChecked found.config) }
    ensures told { IfErr result (λ status. (answer : Result Configured UnreadBy)
        × IsAnswer (options_of given.now) bytes.now answer
        × LacksConfig (F.reported faults.old) (F.reported faults.new) (options_of given.now) bytes.now answer status) }
{
    let node = match NodeConfig::read(alloc, bytes, given) {
        Ok(node) => node,
        Err(ReadFault::NoMemory) => return Err(tell(Told::Memory, faults)),
        Err(ReadFault::File(fault)) => return Err(tell_fault(alloc, bytes, given, fault, faults)),
    };
    match with_own_address(rt, alloc, node, faults) {
        Ok(node) => Ok(node),
        Err(none) => Err(tell_no_address(alloc, bytes, given, none, faults)),
    }
}
