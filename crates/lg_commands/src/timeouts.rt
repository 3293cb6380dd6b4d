//! The command `timeouts`: how long a suspicion lasts among some members.
//!
//! Defined in: `specs/Meaning/Timeouts.antt`.
//! Tested in: `cases/timeouts.case`, `cases/timeouts_command.case`.
ghost use Rattle.std.specs.Prelude.{◌≡◌, ◌++◌, true, IfOk, OnOk, string_bytes};
ghost use Rattle.lg_commands.specs.Meaning.Timeouts.{after_lines, are_good, config_of, timeouts_text};

use lg_rules::{Addr, MAX_MEMBERS, Name};
use lg_timing::{Config, Key, SuspicionTimeout};
use std::alloc::{AllocError, Global};

/// The numbers that determine the timeouts of a suspicion (Lifeguard, arXiv 1707.00788, local health aware
/// suspicion). All but the first are numbers of a configuration, with the ranges of their keys.
#[derive(Clone, Copy, Debug, PartialEq, Eq)]
pub struct Numbers {
    /// How many members there are when the suspicion is raised, this member among them: 1 to [`MAX_MEMBERS`]
    /// (this project's choice).
    pub members: u64,
    /// After how many confirmations a suspicion has its least timeout ([`Key::Confirmations`]).
    pub confirmations: u64,
    /// The factor of the least timeout ([`Key::Alpha`]).
    pub alpha: u64,
    /// The greatest timeout divided by the least ([`Key::Beta`]).
    pub beta: u64,
    /// The interval of a round (SWIM's protocol period), in milliseconds ([`Key::IntervalMs`]).
    pub interval_ms: u64,
}

impl Numbers {
    /// Whether each number is in its range.
    pub fn are_good(&self) -> bool
        ensures { result ≡ are_good self.now }
    {
        (1..=MAX_MEMBERS as u64).contains(&self.members)
            && Key::Confirmations.allows(self.confirmations)
            && Key::Alpha.allows(self.alpha)
            && Key::Beta.allows(self.beta)
            && Key::IntervalMs.allows(self.interval_ms)
    }
}

/// A configuration with these numbers. No timeout of a suspicion depends on its other fields.
fn config_of(numbers: &Numbers) -> Config
    ensures { result ≡ config_of numbers.now }
{
    let mut config = Config::new(Name::default(), Addr::default());
    config.interval_ms = numbers.interval_ms;
    config.timeout_ms = 1;
    config.alpha = numbers.alpha;
    config.beta = numbers.beta;
    config.confirmations = numbers.confirmations;
    config
}

/// Appends to a text the timeout after each number of confirmations, from none to as many as count, a line each.
fn put_after(timeout: &SuspicionTimeout, text: &mut String) -> Result<(), AllocError>
    ensures { OnOk result (string_bytes text.new ≡ string_bytes text.old ++ after_lines timeout.now) }
{
    for confirmations in 0..timeout.confirmations() + 1 {
        writeln!(text, "{confirmations} {}", timeout.after(confirmations))?;
    }
    Ok(())
}

/// What the command `timeouts` writes for some numbers: the least and the greatest timeout, then the timeout after
/// each number of confirmations, from none to as many as count. Each is a line, in milliseconds.
///
/// If there are fewer members than two more than the confirmations, none counts. The only error is that memory was
/// refused. The text has at most 8 lines.
pub fn timeouts(alloc: Global, numbers: &Numbers) -> Result<String, AllocError>
    requires { are_good numbers.now ≡ true }
    ensures { IfOk result (λ text. string_bytes text ≡ timeouts_text numbers.now) }
{
    let timeout = SuspicionTimeout::new(numbers.members, &config_of(numbers));
    let mut text = String::new(alloc);
    writeln!(text, "min {}", timeout.min_ms())?;
    writeln!(text, "max {}", timeout.max_ms())?;
    put_after(&timeout, &mut text)?;
    Ok(text)
}
