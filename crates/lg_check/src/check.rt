//! The text of a check.
//!
//! Defined in: `specs/Meaning/Checks.antt`.
//! Tested in: `cases/check.case`.
ghost use Rattle.std.specs.Prelude.{◌≡◌, ◌++◌, IfOk, OnOk, string_bytes};
ghost use Rattle.std.specs.List.{flat_map};
ghost use Rattle.lg_timing.specs.Meaning.Config.{IsChecked};
ghost use Rattle.lg_check.specs.Meaning.Checks.{check_text, group_line, group_sizes, member_line, own_line};

use crate::lines::{
    put_address, put_group, put_group_name, put_key_file, put_leave, put_member, put_own,
    put_recording, put_server, put_start,
};
use lg_config::{FILE_KEYS, NODE_KEYS, NodeConfig, NodeKey};
use lg_timing::{Config, Key};
use std::alloc::{AllocError, Global};

/// Appends the lines of some of the member's numbers to a text.
fn put_members(config: &Config, keys: &[Key], text: &mut String) -> Result<(), AllocError>
    ensures { OnOk result
        (string_bytes text.new ≡ string_bytes text.old ++ flat_map (member_line config.now) keys.now) }
{
    for key in keys {
        put_member(config, *key, text)?;
    }
    Ok(())
}

/// Appends the lines of some of the node's own numbers to a text.
fn put_owns(node: &NodeConfig, keys: &[NodeKey], text: &mut String) -> Result<(), AllocError>
    ensures { OnOk result
        (string_bytes text.new ≡ string_bytes text.old ++ flat_map (own_line node.now) keys.now) }
{
    for key in keys {
        put_own(node, *key, text)?;
    }
    Ok(())
}

/// Appends the lines of groups of 4, 16, 64 and 256 members to a text.
fn put_groups(config: &Config, text: &mut String) -> Result<(), AllocError>
    requires { IsChecked config.now }
    ensures { OnOk result
        (string_bytes text.new ≡ string_bytes text.old ++ flat_map (group_line config.now) group_sizes) }
{
    put_group(config, 4, text)?;
    put_group(config, 16, text)?;
    put_group(config, 64, text)?;
    put_group(config, 256, text)
}

/// What a check writes of a configuration: a line `KEY = VALUE` for each key of a file, in the order of the documents,
/// with ` (default)` behind a value that is the default. Then for groups of 4, 16, 64 and 256 members a line of the
/// times that follow, in milliseconds: how long a round takes, and the least and the greatest suspicion timeout
/// (Lifeguard, local health aware suspicion). The forms are this project's choice.
///
/// The configuration has to be checked. The only error is that memory was refused. Memory is allocated for the text,
/// which has 34 lines.
#[tactic(auto, unfolding(crate::specs::Meaning::Checks::check_text))]
pub fn check_text(alloc: Global, node: &NodeConfig) -> Result<String, AllocError>
    requires { IsChecked node.now.config }
    ensures { IfOk result (λ text. string_bytes text ≡ check_text node.now) }
{
    let mut text = String::new(alloc);
    put_address(alloc, node, &mut text)?;
    put_start(alloc, node, &mut text)?;
    put_members(&node.config, &FILE_KEYS, &mut text)?;
    put_owns(node, &NODE_KEYS, &mut text)?;
    put_recording(&node.record_folder, &mut text)?;
    put_server(alloc, node, &mut text)?;
    put_leave(node.leave, &mut text)?;
    put_key_file(&node.key_file, &mut text)?;
    put_group_name(&node.config.group, &mut text)?;
    put_groups(&node.config, &mut text)?;
    Ok(text)
}
