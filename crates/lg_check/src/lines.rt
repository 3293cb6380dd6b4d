//! The lines of a check.
//!
//! Defined in: `specs/Meaning/Checks.antt`.
//! Tested in: `cases/check.case`.
ghost use Rattle.std.specs.Prelude.{◌≡◌, ◌≤◌, ◌++◌, OnOk, string_bytes};
ghost use Rattle.lg_timing.specs.Meaning.Config.{IsChecked};
ghost use Rattle.lg_check.specs.Meaning.Checks.{address_line, address_lines, bind_line, bound_line, default_mark};
ghost use Rattle.lg_check.specs.Meaning.Checks.{group_line, key_line, unfound_bind_line};
ghost use Rattle.lg_check.specs.Meaning.Checks.{key_file_line, listening_line, member_line, number_line, own_line};
ghost use Rattle.lg_check.specs.Meaning.Checks.{group_name_line, leave_line, recording_line, server_lines, start_lines};
ghost use Rattle.lg_check.specs.Meaning.Checks.{status_open_line, times_line};

use crate::spelling::{
    addr_text, group_spelled, ip_text, path_spelled, seeds_spelled, status_spelled, switch_spelled,
    text_of_name, truth_spelled,
};
use lg_config::{DEFAULT_ADDRESS, DEFAULT_PORT, FilePath, NodeConfig, NodeKey, own_dice};
use lg_rules::{Addr, Name};
use lg_timing::{Config, Key, MAX_LIVE, SuspicionTimeout, suspicion_ms};
use std::alloc::{AllocError, Global};

/// What stands behind a value that is the default of its key.
fn default_mark(usual: bool) -> &'static str
    ensures { result.now ≡ default_mark usual }
{
    if usual { " (default)" } else { "" }
}

/// Appends the line of a key to a text.
fn put_key(key: &str, value: &str, usual: bool, text: &mut String) -> Result<(), AllocError>
    ensures { OnOk result (string_bytes text.new ≡ string_bytes text.old ++ key_line key.now value.now usual) }
{
    let mark = default_mark(usual);
    writeln!(text, "{key} = {value}{mark}")
}

/// Appends the line of a key whose value is a number to a text.
fn put_number(key: &str, number: u64, usual: u64, text: &mut String) -> Result<(), AllocError>
    ensures { OnOk result (string_bytes text.new ≡ string_bytes text.old ++ number_line key.now number usual) }
{
    let mark = default_mark(number == usual);
    writeln!(text, "{key} = {number}{mark}")
}

/// Appends the line of the member's address to a text, which is a word if it is to be found.
fn put_own_address(alloc: Global, node: &NodeConfig, text: &mut String) -> Result<(), AllocError>
    ensures { OnOk result (string_bytes text.new ≡ string_bytes text.old ++ address_line node.now) }
{
    if node.auto {
        return put_key("address", "auto", false, text);
    }
    let address = ip_text(alloc, &node.config.addr.ip)?;
    let is_default = address.as_str() == DEFAULT_ADDRESS;
    put_key("address", address.as_str(), is_default, text)
}

/// Appends the lines of the member's name and address to a text.
pub(crate) fn put_address(
    alloc: Global,
    node: &NodeConfig,
    text: &mut String,
) -> Result<(), AllocError>
    ensures { OnOk result (string_bytes text.new ≡ string_bytes text.old ++ address_lines node.now) }
{
    put_key("name", text_of_name(&node.config.name), false, text)?;
    put_own_address(alloc, node, text)
}

/// Appends the line of where the node's socket is bound to a text, if the member's address is known.
fn put_bound(alloc: Global, node: &NodeConfig, text: &mut String) -> Result<(), AllocError>
    ensures { OnOk result (string_bytes text.new ≡ string_bytes text.old ++ bound_line node.now) }
{
    let bound = node.bound_at();
    let is_default = bound == node.config.addr;
    let spelled = addr_text(alloc, bound)?;
    put_key("bind", spelled.as_str(), is_default, text)
}

/// Appends the same if that address is to be found, by where the file has the socket bound, and by the member's port.
fn put_unfound_bind(
    alloc: Global,
    bind: Option<Addr>,
    port: u16,
    text: &mut String,
) -> Result<(), AllocError>
    ensures { OnOk result (string_bytes text.new ≡ string_bytes text.old ++ unfound_bind_line bind port) }
{
    match bind {
        Some(addr) => {
            let spelled = addr_text(alloc, addr)?;
            put_key("bind", spelled.as_str(), false, text)
        }
        None => {
            let spelled = format!(in alloc; "auto:{port}")?;
            put_key("bind", spelled.as_str(), true, text)
        }
    }
}

/// Appends the line of where the node's socket is bound to a text.
fn put_bind(alloc: Global, node: &NodeConfig, text: &mut String) -> Result<(), AllocError>
    ensures { OnOk result (string_bytes text.new ≡ string_bytes text.old ++ bind_line node.now) }
{
    if node.auto {
        put_unfound_bind(alloc, node.bind, node.config.addr.port, text)
    } else {
        put_bound(alloc, node, text)
    }
}

/// Appends the lines of the port, of where the socket is bound, of the dice and of the seeds to a text.
pub(crate) fn put_start(
    alloc: Global,
    node: &NodeConfig,
    text: &mut String,
) -> Result<(), AllocError>
    ensures { OnOk result (string_bytes text.new ≡ string_bytes text.old ++ start_lines node.now) }
{
    let seeds = node.seeds.as_slice();
    let port = u64::from(node.config.addr.port);
    put_number("port", port, u64::from(DEFAULT_PORT), text)?;
    put_bind(alloc, node, text)?;
    let own = own_dice(&node.config.name, &node.config.addr);
    put_number("dice", node.dice, own, text)?;
    let spelled = seeds_spelled(alloc, seeds)?;
    put_key("seeds", spelled.as_str(), seeds.is_empty(), text)
}

/// Appends the line of a number of the member's to a text.
pub(crate) fn put_member(config: &Config, key: Key, text: &mut String) -> Result<(), AllocError>
    ensures { OnOk result (string_bytes text.new ≡ string_bytes text.old ++ member_line config.now key) }
{
    put_number(key.name(), config.number(key), key.row().default, text)
}

/// Appends the line of a number of the node's own to a text.
pub(crate) fn put_own(node: &NodeConfig, key: NodeKey, text: &mut String) -> Result<(), AllocError>
    ensures { OnOk result (string_bytes text.new ≡ string_bytes text.old ++ own_line node.now key) }
{
    put_number(key.name(), node.own_number(key), key.row().default, text)
}

/// Appends the line of the folder of the recording to a text.
pub(crate) fn put_recording(folder: &Option<FilePath>, text: &mut String) -> Result<(), AllocError>
    ensures { OnOk result (string_bytes text.new ≡ string_bytes text.old ++ recording_line folder.now) }
{
    put_key("record", path_spelled(folder), folder.is_none(), text)
}

/// Appends the line of where the status server listens to a text.
fn put_listening(alloc: Global, status: Option<Addr>, text: &mut String) -> Result<(), AllocError>
    ensures { OnOk result (string_bytes text.new ≡ string_bytes text.old ++ listening_line status) }
{
    let spelled = status_spelled(alloc, status)?;
    put_key("status", spelled.as_str(), status.is_none(), text)
}

/// Appends the line of whether the status server may listen at an address that isn't loopback to a text.
fn put_status_open(is_open: bool, text: &mut String) -> Result<(), AllocError>
    ensures { OnOk result (string_bytes text.new ≡ string_bytes text.old ++ status_open_line is_open) }
{
    put_key("status_open", truth_spelled(is_open), !is_open, text)
}

/// Appends the lines of the status server to a text.
pub(crate) fn put_server(
    alloc: Global,
    node: &NodeConfig,
    text: &mut String,
) -> Result<(), AllocError>
    ensures { OnOk result (string_bytes text.new ≡ string_bytes text.old ++ server_lines node.now) }
{
    put_listening(alloc, node.status, text)?;
    put_status_open(node.status_open, text)
}

/// Appends the line of whether a request may end the node to a text.
pub(crate) fn put_leave(leave: bool, text: &mut String) -> Result<(), AllocError>
    ensures { OnOk result (string_bytes text.new ≡ string_bytes text.old ++ leave_line leave) }
{
    put_key("leave", switch_spelled(leave), leave, text)
}

/// Appends the line of the path of the key file to a text.
pub(crate) fn put_key_file(path: &Option<FilePath>, text: &mut String) -> Result<(), AllocError>
    ensures { OnOk result (string_bytes text.new ≡ string_bytes text.old ++ key_file_line path.now) }
{
    put_key("key_file", path_spelled(path), path.is_none(), text)
}

/// Appends the line of the group that the member belongs to to a text.
pub(crate) fn put_group_name(group: &Option<Name>, text: &mut String) -> Result<(), AllocError>
    ensures { OnOk result (string_bytes text.new ≡ string_bytes text.old ++ group_name_line group.now) }
{
    put_key("group", group_spelled(group), group.is_none(), text)
}

/// Appends the line of a group of some members to a text, given its times in milliseconds.
fn put_times(
    members: u64,
    round: u64,
    least: u64,
    greatest: u64,
    text: &mut String,
) -> Result<(), AllocError>
    ensures { OnOk result
        (string_bytes text.new ≡ string_bytes text.old ++ times_line members round least greatest) }
{
    writeln!(
        text,
        "{members} members: a round takes {round} ms, a suspicion lasts {least} to {greatest} ms"
    )
}

/// Appends the line of a group of some members to a text.
pub(crate) fn put_group(config: &Config, members: u64, text: &mut String) -> Result<(), AllocError>
    requires checked { IsChecked config.now }
    requires some { 1 ≤ members }
    requires within { members ≤ MAX_LIVE }
    ensures { OnOk result (string_bytes text.new ≡ string_bytes text.old ++ group_line config.now members) }
{
    let least = SuspicionTimeout::new(members, config).min_ms();
    let greatest = suspicion_ms(members, 0, config);
    put_times(members, config.interval_ms, least, greatest, text)
}
