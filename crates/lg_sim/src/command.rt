//! Carries out the commands of a script.
//!
//! Defined in: `specs/Meaning/Outcome.antt`.
//! Tested in: `cases/sim.case`, `cases/sim_commands.case`, `cases/sim_faults.case`.
ghost use Rattle.std.specs.Prelude.{◌≡◌, ◌≢◌, IfErr, List, OnOk};
ghost use Rattle.lg_script.specs.declared.command.Command.{Command as Commanded};
ghost use Rattle.lg_sim.specs.Meaning.Outcome.{command_fault};
ghost use Rattle.lg_sim.specs.Support.After.{IsClusterAfter, IsClusterReached, RanCommand, StopsAt};

use crate::cluster::{Cluster, NewMember, Stop};
use crate::host::RunBuffers;
use lg_detector::Event;
use lg_script::{Command, local};
use std::alloc::Global;

/// Carries out a command, and appends what it gives to a text. If the command is faulty, nothing changes but the
/// scratch buffers.
pub fn run_command(
    alloc: Global,
    command: Command,
    cluster: &mut Cluster,
    buffers: &mut RunBuffers,
    text: &mut Vec<u8>,
) -> Result<(), Stop>
    requires { IsClusterReached cluster.old }
    ensures stops { (before : List Commanded) → IsClusterAfter cluster.old before
        → StopsAt result (command_fault command before) }
    ensures unchanged { IfErr result (λ stop. stop ≢ Stop.NoMemory
        → (cluster.new ≡ cluster.old) × (text.new.items ≡ text.old.items)) }
    ensures runs { OnOk result ((before : List Commanded) → IsClusterAfter cluster.old before
        → RanCommand cluster.new text.old.items text.new.items before command) }
{
    match command {
        Command::Set { key, number } => {
            cluster.set(key, number);
            Ok(())
        }
        Command::SetGroup { group } => {
            cluster.set_group(group);
            Ok(())
        }
        Command::Open {
            name,
            port,
            now,
            seeds,
        } => {
            let opening = NewMember {
                name,
                port,
                now,
                seeds,
            };
            cluster.open(alloc, opening, buffers, text)
        }
        Command::Tick { name, now, words } => {
            cluster.happen_at(&name, &Event::Tick { now, words }, buffers, text)
        }
        Command::Deliver { packet, now } => cluster.deliver(packet, now, buffers, text),
        Command::Ask { name, now, other } => {
            let event = Event::Ask { now, name: other };
            cluster.happen_at(&name, &event, buffers, text)
        }
        Command::Health { name, now } => {
            cluster.happen_at(&name, &Event::Health { now }, buffers, text)
        }
        Command::Pull { name, now, port } => {
            let peer = local(port);
            cluster.happen_at(&name, &Event::Pull { now, peer }, buffers, text)
        }
        Command::Leave { name, now, words } => {
            cluster.happen_at(&name, &Event::Leave { now, words }, buffers, text)
        }
        Command::Table { name } => cluster.put_table_of(alloc, &name, text),
    }
}
