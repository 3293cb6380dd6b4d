//! The event Open: the detector is opened, and a claim is applied for each of its seeds. These claims come from the
//! configuration and not from the group, so no packet takes them.
//!
//! Defined in: `specs/Meaning/Open.antt`, `specs/Support/Open.antt`.
//! Tested in: `lg_detector_tests/src/detector/open.rt`.
ghost use Rattle.std.specs.Prelude.{◌≡◌, ◌<◌, [], None, map};
ghost use Rattle.lg_timing.specs.Meaning.Config.{IsChecked};
ghost use Rattle.lg_membership.specs.declared.origin.Origin.TheVariants.{Seed as OfSeed};
ghost use Rattle.lg_detector.specs.Meaning.Open.{alive_seed};
ghost use Rattle.lg_detector.specs.Support.Open.{open_with_state};
ghost use Rattle.lg_detector.specs.Support.State.{apply_all_state};

use super::{Detector, MAX_EVENTS};
use crate::reply::Reply;
use lg_membership::Origin;
use lg_rules::{Claim, Incarnation, Status};
use lg_timing::{Config, Moment, Seed};

/// The claim that a seed is alive, at incarnation 0.
fn alive(seed: &Seed) -> Claim
    ensures { result ≡ alive_seed seed.now }
{
    Claim {
        name: seed.name,
        addr: seed.addr,
        status: Status::Alive,
        incarnation: Incarnation::default(),
    }
}

impl Detector {
    /// Opens the detector, and applies the claims of its seeds.
    #[inline(never)]
    pub(super) fn open_with(&mut self, now: Moment, config: &Config, reply: &mut Reply)
        requires room { self.old.events < MAX_EVENTS }
        requires good { IsChecked config.now }
        ensures state { self.new ≡ open_with_state now config.now self.old }
        ensures fired { reply.new.fired ≡ None }
        ensures sends { reply.new.sends.items ≡ [] }
        ensures differing { reply.new.changed.items ≡ [] }
        ensures forgotten { reply.new.forgotten.items ≡ [] }
        ensures answer { reply.new.answer ≡ None }
    {
        reply.say_nothing();
        self.come(now);
        self.begin(config);
        self.apply_seeds(config.seeds.as_slice());
    }

    /// Applies the claims of the seeds.
    fn apply_seeds(&mut self, seeds: &[Seed])
        ensures { self.new ≡ apply_all_state OfSeed (map alive_seed seeds.now) self.old }
    {
        for seed in seeds {
            self.apply(Origin::Seed, &alive(seed));
        }
    }
}
