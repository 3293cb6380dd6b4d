//! The number from which a node counts its probes and relays.
//!
//! Defined in: `specs/Meaning/FirstNumber.antt`.
//! Tested in: `cases/nodes`.
ghost use Rattle.std.specs.Prelude.{◌≡◌};
ghost use Rattle.lg_timing.specs.Meaning.Config.{IsChecked};
ghost use Rattle.lg_run.specs.Meaning.FirstNumber.{first_number, started_at};

use lg_config::NodeConfig;
use lg_timing::Key;
use std::rt;
use std::time::{SystemTime, UNIX_EPOCH};

/// The number of the first probe of a node that starts at a time, in nanoseconds, and whose dice start from a number:
/// 1 to 4,294,967,295.
fn first_number(time: u64, dice: u64) -> u64
    ensures { result ≡ first_number time dice }
{
    let sum = u128::from(time) + u128::from(dice);
    let most = u128::from(Key::First.row().most);
    (sum % most) as u64 + 1
}

/// What a file says, for a node that starts at this time, in nanoseconds.
#[tactic(auto, using(crate::proofs::FirstLaws::started_checked))]
pub(crate) fn started_at(time: u64, node: NodeConfig) -> NodeConfig
    requires { IsChecked node.config }
    ensures is { result ≡ started_at time node }
    ensures checked { IsChecked result.config }
{
    let mut started = node;
    let first = first_number(time, started.dice);
    started.config.set(Key::First, first);
    started
}

/// The system's time in nanoseconds since the beginning of 1970, or 0 if it can't be read. No contract says what a
/// clock shows.
pub(crate) fn system_time<R: rt::Clock>(rt: &R) -> u64 {
    let Ok(now) = SystemTime::now(rt) else {
        return 0;
    };
    match now.duration_since(UNIX_EPOCH) {
        Ok(passed) => u64::try_from(passed.as_nanos()).unwrap_or(0),
        Err(_) => 0,
    }
}
