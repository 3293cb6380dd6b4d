//! Reads the words after the name of each command. There are as many as the command takes. A word past the end is
//! read as an empty word, which is no value.
//!
//! Defined in: `specs/Meaning/Commands.antt`, `specs/Meaning/Values.antt`, `specs/Meaning/Bounds.antt`,
//! `lg_timing/specs/Meaning/Keys.antt`.
//! Tested in: `cases/sim_commands.case`, `cases/sim_lines.case`.
ghost use Rattle.std.specs.Prelude.{◌≡◌, ◌≤◌, length};
ghost use Rattle.std.specs.Option.{option_map};
ghost use Rattle.lg_script.specs.Meaning.Commands.{ask_command, deliver_command, health_command, open_command};
ghost use Rattle.lg_script.specs.Meaning.Commands.{leave_command, pull_command, command_named};
ghost use Rattle.lg_script.specs.Meaning.Commands.{group_setting, number_setting};
ghost use Rattle.lg_script.specs.Meaning.Commands.{set_command, table_command, tick_command};
ghost use Rattle.lg_script.specs.Meaning.Values.{at_most_of, random_word_of, seeds_of, with_missing};
ghost use Rattle.lg_script.specs.Meaning.Bounds.{random_words};
ghost use Rattle.lg_script.specs.Support.Cutting.{words_left};

use crate::command::{Command, RANDOM_WORDS};
use crate::values::{moment_in, name_in, port_in, random_word_in, seed_in};
use crate::verb::Verb;
use crate::words::{cut_part, cut_word};
use arrayvec::ArrayVec;
use lg_text::number_in;
use lg_timing::{Key, MAX_SEEDS, Seed};

/// `set KEY NUMBER`, given the key and the number.
fn number_setting(key: &[u8], number: &[u8]) -> Option<Command>
    ensures { result ≡ number_setting key.now number.now }
{
    let key = Key::named(key)?;
    let number = number_in(number)?;
    Some(Command::Set { key, number })
}

/// `set group NAME`, given the name.
fn group_setting(name: &[u8]) -> Option<Command>
    ensures { result ≡ group_setting name.now }
{
    let group = name_in(name)?;
    Some(Command::SetGroup { group })
}

/// `set KEY NUMBER` or `set group NAME`.
#[tactic(auto, unfolding(crate::specs::Meaning::Commands::set_command))]
fn set_in(words: Option<&[u8]>) -> Option<Command>
    ensures { result ≡ set_command (words_left words.entry) }
{
    let (key, words) = cut_word(words);
    let (value, _) = cut_word(words);
    if key == b"group".as_slice() {
        group_setting(value)
    } else {
        number_setting(key, value)
    }
}

/// `open NAME PORT MOMENT SEED..`.
#[tactic(auto, unfolding(crate::specs::Meaning::Commands::open_command))]
fn open_in(words: Option<&[u8]>) -> Option<Command>
    ensures { result ≡ open_command (words_left words.entry) }
{
    let (name, words) = cut_word(words);
    let (port, words) = cut_word(words);
    let (now, words) = cut_word(words);
    let name = name_in(name)?;
    let port = port_in(port)?;
    let now = moment_in(now)?;
    let seeds = seeds_in(words)?;
    Some(Command::Open {
        name,
        port,
        now,
        seeds,
    })
}

/// The seeds that some words spell, at most 16.
fn seeds_in(words: Option<&[u8]>) -> Option<ArrayVec<Seed, MAX_SEEDS>>
    ensures { option_map (λ seeds. seeds.items) result ≡ seeds_of (words_left words.entry) }
{
    let mut seeds = ArrayVec::new();
    let mut left = words;
    while let Some(text) = left {
        let (word, rest) = cut_part(text);
        let seed = seed_in(word)?;
        seeds.try_push(seed).ok()?;
        left = rest;
    }
    Some(seeds)
}

/// `tick NAME MOMENT WORD..`.
#[tactic(auto, unfolding(crate::specs::Meaning::Commands::tick_command))]
fn tick_in(words: Option<&[u8]>) -> Option<Command>
    ensures { result ≡ tick_command (words_left words.entry) }
{
    let (name, words) = cut_word(words);
    let (now, words) = cut_word(words);
    let name = name_in(name)?;
    let now = moment_in(now)?;
    let random = random_words_in(words)?;
    Some(Command::Tick {
        name,
        now,
        words: with_missing(&random),
    })
}

/// The random words that some words spell, at most 8.
fn random_words_in(words: Option<&[u8]>) -> Option<ArrayVec<u32, RANDOM_WORDS>>
    ensures { let left = words_left words.entry in
        option_map (λ random. random.items) result ≡ at_most_of random_words random_word_of left }
{
    let mut random = ArrayVec::new();
    let mut left = words;
    while let Some(text) = left {
        let (word, rest) = cut_part(text);
        let number = random_word_in(word)?;
        random.try_push(number).ok()?;
        left = rest;
    }
    Some(random)
}

/// The random words of a tick or a leave; those that are missing are 0.
fn with_missing(random: &[u32]) -> [u32; RANDOM_WORDS]
    requires { length random.now ≤ RANDOM_WORDS }
    ensures { result ≡ with_missing random.now }
{
    let mut words = [0; RANDOM_WORDS];
    words[..random.len()].copy_from_slice(random);
    words
}

/// `deliver PACKET MOMENT`.
#[tactic(auto, unfolding(crate::specs::Meaning::Commands::deliver_command))]
fn deliver_in(words: Option<&[u8]>) -> Option<Command>
    ensures { result ≡ deliver_command (words_left words.entry) }
{
    let (packet, words) = cut_word(words);
    let (now, _) = cut_word(words);
    let packet = number_in(packet)?;
    let now = moment_in(now)?;
    Some(Command::Deliver { packet, now })
}

/// `ask NAME MOMENT OTHER`.
#[tactic(auto, unfolding(crate::specs::Meaning::Commands::ask_command))]
fn ask_in(words: Option<&[u8]>) -> Option<Command>
    ensures { result ≡ ask_command (words_left words.entry) }
{
    let (name, words) = cut_word(words);
    let (now, words) = cut_word(words);
    let (other, _) = cut_word(words);
    let name = name_in(name)?;
    let now = moment_in(now)?;
    let other = name_in(other)?;
    Some(Command::Ask { name, now, other })
}

/// `health NAME MOMENT`.
#[tactic(auto, unfolding(crate::specs::Meaning::Commands::health_command))]
fn health_in(words: Option<&[u8]>) -> Option<Command>
    ensures { result ≡ health_command (words_left words.entry) }
{
    let (name, words) = cut_word(words);
    let (now, _) = cut_word(words);
    let name = name_in(name)?;
    let now = moment_in(now)?;
    Some(Command::Health { name, now })
}

/// `pull NAME MOMENT PORT`.
#[tactic(auto, unfolding(crate::specs::Meaning::Commands::pull_command))]
fn pull_in(words: Option<&[u8]>) -> Option<Command>
    ensures { result ≡ pull_command (words_left words.entry) }
{
    let (name, words) = cut_word(words);
    let (now, words) = cut_word(words);
    let (port, _) = cut_word(words);
    let name = name_in(name)?;
    let now = moment_in(now)?;
    let port = port_in(port)?;
    Some(Command::Pull { name, now, port })
}

/// `leave NAME MOMENT WORD..`.
#[tactic(auto, unfolding(crate::specs::Meaning::Commands::leave_command))]
fn leave_in(words: Option<&[u8]>) -> Option<Command>
    ensures { result ≡ leave_command (words_left words.entry) }
{
    let (name, words) = cut_word(words);
    let (now, words) = cut_word(words);
    let name = name_in(name)?;
    let now = moment_in(now)?;
    let random = random_words_in(words)?;
    Some(Command::Leave {
        name,
        now,
        words: with_missing(&random),
    })
}

/// `table NAME`.
#[tactic(auto, unfolding(crate::specs::Meaning::Commands::table_command))]
fn table_in(words: Option<&[u8]>) -> Option<Command>
    ensures { result ≡ table_command (words_left words.entry) }
{
    let (name, _) = cut_word(words);
    let name = name_in(name)?;
    Some(Command::Table { name })
}

/// The command with this name and these words.
pub(crate) fn command_named(verb: Verb, words: Option<&[u8]>) -> Option<Command>
    ensures { result ≡ command_named verb (words_left words.entry) }
{
    match verb {
        Verb::Set => set_in(words),
        Verb::Open => open_in(words),
        Verb::Tick => tick_in(words),
        Verb::Deliver => deliver_in(words),
        Verb::Ask => ask_in(words),
        Verb::Health => health_in(words),
        Verb::Pull => pull_in(words),
        Verb::Leave => leave_in(words),
        Verb::Table => table_in(words),
    }
}
