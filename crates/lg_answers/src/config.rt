//! Writes the body of `/v1/config`: the configuration as JSON, without the path of its key file.
//!
//! Defined in: `specs/Meaning/Bodies.antt`, `lg_timing/specs/Meaning/Keys.antt`,
//! `lg_text/specs/Meaning/Addresses.antt`.
//! Tested in: `lg_answers_tests/src/answer.rt`.
ghost use Rattle.std.specs.Prelude.{◌≡◌, ◌++◌, IfOk, OnOk, codes, string_bytes};
ghost use Rattle.std.specs.List.{flat_map};
ghost use Rattle.lg_timing.specs.Meaning.Keys.{keys};
ghost use Rattle.lg_answers.specs.Meaning.Bodies.{bind_field, config_body, config_front, group_field, key_field};
ghost use Rattle.lg_answers.specs.Meaning.Bodies.{host_fields, leaving_field, name_value, number_field, open_field};
ghost use Rattle.lg_answers.specs.Meaning.Bodies.{own_field, place_fields, seed_json, status_field, status_value};
ghost use Rattle.lg_answers.specs.Meaning.Bodies.{truth_text};
ghost use Rattle.lg_answers.specs.Meaning.Members.{behind_comma, comma_separated};

use crate::health::put_truth;
use crate::members::put_address;
use crate::snapshot::{NodeNumber, ShownConfig};
use lg_check::text_of_name;
use lg_config::{Host, Place, SeedPlace};
use lg_rules::{Addr, Name};
use lg_text::put_addr;
use lg_timing::{Config, KEYS, Key};
use std::alloc::{AllocError, Global};

/// Appends the brace of an object and the name. No byte of a name needs an escape.
fn put_name(name: &Name, text: &mut String) -> Result<(), AllocError>
    ensures { OnOk result (string_bytes text.new
        ≡ string_bytes text.old ++ (codes "{\"name\":\"" ++ (name.now ++ codes "\","))) }
{
    let name = text_of_name(name);
    write!(text, "{{\"name\":\"{name}\",")
}

/// Appends the name and the address.
#[tactic(auto, unfolding(crate::specs::Meaning::Members::address_fields))]
fn put_front(config: &Config, text: &mut String) -> Result<(), AllocError>
    ensures { OnOk result (string_bytes text.new ≡ string_bytes text.old ++ config_front config.now) }
{
    put_name(&config.name, text)?;
    put_address("\"address\":\"", &config.addr, text)
}

/// Appends a comma, a key and its number.
fn put_number(key: &str, value: u64, text: &mut String) -> Result<(), AllocError>
    ensures { OnOk result (string_bytes text.new ≡ string_bytes text.old ++ number_field key.now value) }
{
    write!(text, ",\"{key}\":{value}")
}

/// Appends the member's numbers of these keys.
fn put_keys(config: &Config, keys: &[Key], text: &mut String) -> Result<(), AllocError>
    ensures { OnOk result (string_bytes text.new ≡ string_bytes text.old ++ flat_map (key_field config.now) keys.now) }
{
    for key in keys {
        put_number(key.name(), config.number(*key), text)?;
    }
    Ok(())
}

/// Appends the node's own numbers.
fn put_owns(numbers: &[NodeNumber], text: &mut String) -> Result<(), AllocError>
    ensures { OnOk result (string_bytes text.new ≡ string_bytes text.old ++ flat_map own_field numbers.now) }
{
    for own in numbers {
        put_number(own.key, own.value, text)?;
    }
    Ok(())
}

/// Appends a name, or `null` if there is none.
fn put_name_value(name: &Option<Name>, text: &mut String) -> Result<(), AllocError>
    ensures { OnOk result (string_bytes text.new ≡ string_bytes text.old ++ name_value name.now) }
{
    match name {
        Some(name) => {
            text.push_str("\"")?;
            text.push_str(text_of_name(name))?;
            text.push_str("\"")
        }
        None => text.push_str("null"),
    }
}

/// Appends the group of the member, behind its key.
#[tactic(auto, unfolding(crate::specs::Meaning::Bodies::group_field))]
fn put_group_field(group: &Option<Name>, text: &mut String) -> Result<(), AllocError>
    ensures { OnOk result (string_bytes text.new ≡ string_bytes text.old ++ group_field group.now) }
{
    text.push_str(",\"group\":")?;
    put_name_value(group, text)
}

/// Appends where the node answers over HTTP, or `null`.
fn put_status(status: Option<Addr>, text: &mut String) -> Result<(), AllocError>
    ensures { OnOk result (string_bytes text.new ≡ string_bytes text.old ++ status_value status) }
{
    match status {
        Some(addr) => {
            text.push_str("\"")?;
            put_addr(&addr, text)?;
            text.push_str("\"")
        }
        None => text.push_str("null"),
    }
}

/// Appends where the node answers over HTTP, behind its key.
#[tactic(auto, unfolding(crate::specs::Meaning::Bodies::status_field))]
fn put_status_field(status: Option<Addr>, text: &mut String) -> Result<(), AllocError>
    ensures { OnOk result (string_bytes text.new ≡ string_bytes text.old ++ status_field status) }
{
    text.push_str(",\"status\":")?;
    put_status(status, text)
}

/// Appends words, and the word for a truth behind them.
fn put_truth_behind(words: &str, truth: bool, text: &mut String) -> Result<(), AllocError>
    ensures { OnOk result (string_bytes text.new ≡ string_bytes text.old ++ (words.now ++ truth_text truth)) }
{
    text.push_str(words)?;
    put_truth(truth, text)
}

/// Appends whether the node may answer at an address that isn't loopback, behind its key.
#[tactic(auto, unfolding(crate::specs::Meaning::Bodies::open_field))]
fn put_open_field(is_open: bool, text: &mut String) -> Result<(), AllocError>
    ensures { OnOk result (string_bytes text.new ≡ string_bytes text.old ++ open_field is_open) }
{
    put_truth_behind(",\"status_open\":", is_open, text)
}

/// Appends whether a request may end the node, behind its key.
#[tactic(auto, unfolding(crate::specs::Meaning::Bodies::leaving_field))]
fn put_leaving_field(may_end: bool, text: &mut String) -> Result<(), AllocError>
    ensures { OnOk result (string_bytes text.new ≡ string_bytes text.old ++ leaving_field may_end) }
{
    put_truth_behind(",\"leave\":", may_end, text)
}

/// Appends where the node's socket for datagrams is bound, behind its key.
#[tactic(auto, unfolding(crate::specs::Meaning::Bodies::bind_field))]
fn put_bind_field(bind: &Addr, text: &mut String) -> Result<(), AllocError>
    ensures { OnOk result (string_bytes text.new ≡ string_bytes text.old ++ bind_field bind.now) }
{
    text.push_str(",\"bind\":\"")?;
    put_addr(bind, text)?;
    text.push_str("\"")
}

/// Appends the name of a host and its port. No byte of the name needs an escape.
#[tactic(auto, unfolding(crate::specs::Meaning::Bodies::host_fields))]
fn put_host(host: &Host, text: &mut String) -> Result<(), AllocError>
    ensures { OnOk result (string_bytes text.new ≡ string_bytes text.old ++ host_fields host.now) }
{
    let name = host.name.as_str();
    let port = host.port;
    write!(text, "\"address\":\"{name}\",\"port\":{port}")
}

/// Appends a place.
#[tactic(auto, unfolding(crate::specs::Meaning::Members::address_fields))]
fn put_place(place: &Place, text: &mut String) -> Result<(), AllocError>
    ensures { OnOk result (string_bytes text.new ≡ string_bytes text.old ++ place_fields place.now) }
{
    match place {
        Place::Addr(addr) => put_address("\"address\":\"", addr, text),
        Place::Host(host) => put_host(host, text),
    }
}

/// Appends a seed.
#[tactic(auto, unfolding(crate::specs::Meaning::Bodies::seed_json))]
fn put_seed(seed: &SeedPlace, text: &mut String) -> Result<(), AllocError>
    ensures { OnOk result (string_bytes text.new ≡ string_bytes text.old ++ seed_json seed.now) }
{
    text.push_str("{\"name\":")?;
    put_name_value(&seed.name, text)?;
    text.push_str(",")?;
    put_place(&seed.place, text)?;
    text.push_str("}")
}

/// Appends seeds, each behind a comma.
fn put_other_seeds(seeds: &[SeedPlace], text: &mut String) -> Result<(), AllocError>
    ensures { OnOk result
        (string_bytes text.new ≡ string_bytes text.old ++ flat_map (behind_comma seed_json) seeds.now) }
{
    for seed in seeds {
        text.push_str(",")?;
        put_seed(seed, text)?;
    }
    Ok(())
}

/// Appends seeds with commas between them.
fn put_seeds(seeds: &[SeedPlace], text: &mut String) -> Result<(), AllocError>
    ensures { OnOk result (string_bytes text.new ≡ string_bytes text.old ++ comma_separated seed_json seeds.now) }
{
    match seeds {
        [] => Ok(()),
        [seed, others @ ..] => {
            put_seed(seed, text)?;
            put_other_seeds(others, text)
        }
    }
}

/// The body of the configuration.
#[tactic(auto, unfolding(crate::specs::Meaning::Bodies::config_body))]
pub(crate) fn config_body(alloc: Global, setup: &ShownConfig) -> Result<String, AllocError>
    ensures { IfOk result (λ body. string_bytes body ≡ config_body setup.now) }
{
    let mut text = String::new(alloc);
    put_front(&setup.config, &mut text)?;
    put_keys(&setup.config, &KEYS, &mut text)?;
    put_owns(&setup.numbers, &mut text)?;
    put_group_field(&setup.config.group, &mut text)?;
    put_status_field(setup.status, &mut text)?;
    put_open_field(setup.status_open, &mut text)?;
    put_leaving_field(setup.leave, &mut text)?;
    put_bind_field(&setup.bind, &mut text)?;
    text.push_str(",\"seeds\":[")?;
    put_seeds(&setup.seeds, &mut text)?;
    text.push_str("]}")?;
    Ok(text)
}
