//! Whether the names of seeds go together.
//!
//! Defined in: `specs/Meaning/Seeds.antt`.
//! Tested in: `cases/config_seeds.case`, `cases/config_hosts.case`.
ghost use Rattle.std.specs.Prelude.{◌≡◌, ◌≤◌, length};
ghost use Rattle.lg_config.specs.Meaning.Seeds.{have_good_names, is_name_among, shared_name};

use crate::seeds::{SeedPlace, names_among};
use lg_rules::Name;
use lg_timing::MAX_SEEDS;

/// Whether a name is one of these.
fn is_name_among(name: &Name, names: &[Name]) -> bool
    ensures { result ≡ is_name_among name.now names.now }
{
    names.iter().any(|other| *other == *name)
}

/// The first of some names that a later one is too.
pub(crate) fn shared_name(names: &[Name]) -> Option<Name>
    ensures { result ≡ shared_name names.now }
{
    match names {
        [] => None,
        [name, others @ ..] => {
            if is_name_among(name, others) {
                Some(*name)
            } else {
                shared_name(others)
            }
        }
    }
}

/// Whether all names of some seeds differ, and none is the member's own.
pub(crate) fn have_good_names(own: &Name, seeds: &[SeedPlace]) -> bool
    requires { length seeds.now ≤ MAX_SEEDS }
    ensures { result ≡ have_good_names own.now seeds.now }
{
    let names = names_among(seeds);
    shared_name(names.as_slice()).is_none() && !is_name_among(own, names.as_slice())
}
