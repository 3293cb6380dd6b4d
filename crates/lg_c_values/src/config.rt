//! A configuration as C has it.
//!
//! Defined in: `specs/Meaning/Configs.antt`.
ghost use Rattle.std.specs.Prelude.{◌≡◌, ◌≤◌, length, map, option_map, true, false, is_some};
ghost use Rattle.std.specs.List.{list_all};
ghost use Rattle.lg_c_values.specs.Meaning.Configs.{config_from_c, defaults_from_c, each_seed_from_c};
ghost use Rattle.lg_c_values.specs.Meaning.Configs.{group_from_c, seed_from_c, seed_or_default, seeds_from_c};
ghost use Rattle.lg_c_values.specs.Meaning.Configs.{tells_seed};

use crate::address::LgAddress;
use crate::name::LgName;
use arrayvec::ArrayVec;
use lg_rules::Name;
use lg_timing::{Config, MAX_SEEDS, Seed};

/// A member that is known from the start, as C has it.
#[repr(C)]
#[derive(Clone, Copy)]
pub struct LgSeed {
    /// The member.
    pub name: LgName,
    /// Where it is reached.
    pub address: LgAddress,
}

/// A configuration as C has it. `lg_timing::Config` says what each number means.
#[repr(C)]
#[derive(Drop)]
pub struct LgConfig {
    /// `interval_ms`.
    pub interval_ms: u64,
    /// `timeout_ms`.
    pub timeout_ms: u64,
    /// `indirect`.
    pub indirect: u64,
    /// `max_score`.
    pub max_score: u64,
    /// `alpha`.
    pub alpha: u64,
    /// `beta`.
    pub beta: u64,
    /// `confirmations`.
    pub confirmations: u64,
    /// `lambda`.
    pub lambda: u64,
    /// `nack_thousandths`.
    pub nack_thousandths: u64,
    /// `history_limit`.
    pub history_limit: u64,
    /// `wire`.
    pub wire: u64,
    /// `forget_ms`.
    pub forget_ms: u64,
    /// `gossip_ms`.
    pub gossip_ms: u64,
    /// `gossip_to`.
    pub gossip_to: u64,
    /// `first`.
    pub first: u64,
    /// How many of the seeds count: at most 16.
    pub seeds_count: u64,
    /// The members that are known from the start. Those behind the first `seeds_count` don't count.
    pub seeds: [LgSeed; MAX_SEEDS],
    /// The member's group, or no name if it has none.
    pub group: LgName,
    /// The member's name.
    pub name: LgName,
    /// The member's address.
    pub address: LgAddress,
}

impl LgSeed {
    /// The seed that C tells, if it tells one.
    pub fn seed(&self) -> Option<Seed>
        ensures { result ≡ seed_from_c self.now }
    {
        let name = self.name.name()?;
        let addr = self.address.addr()?;
        Some(Seed { name, addr })
    }

    /// Whether C tells a seed.
    fn tells(&self) -> bool
        ensures { result ≡ tells_seed self.now }
    {
        self.seed().is_some()
    }

    /// The seed that C tells, or the default one if it tells none.
    fn seed_or_default(&self) -> Seed
        ensures { result ≡ seed_or_default self.now }
    {
        match self.seed() {
            Some(seed) => seed,
            None => Seed::default(),
        }
    }
}

/// The seeds that C tells.
fn told_seeds(seeds: &[LgSeed]) -> ArrayVec<Seed, MAX_SEEDS>
    requires { length seeds.now ≤ MAX_SEEDS }
    ensures { result.items ≡ map seed_or_default seeds.now }
{
    let mut told = ArrayVec::new();
    for seed in seeds {
        told.push(seed.seed_or_default());
    }
    told
}

/// Whether each tells a seed.
fn tell_seeds(seeds: &[LgSeed]) -> bool
    ensures { result ≡ list_all tells_seed seeds.now }
{
    seeds.iter().all(|seed| seed.tells())
}

/// The seeds that C tells, if each tells one.
fn seeds_in(seeds: &[LgSeed]) -> Option<ArrayVec<Seed, MAX_SEEDS>>
    requires { length seeds.now ≤ MAX_SEEDS }
    ensures { option_map (λ told. told.items) result ≡ each_seed_from_c seeds.now }
{
    if tell_seeds(seeds) {
        Some(told_seeds(seeds))
    } else {
        None
    }
}

/// The group that C tells, if it tells one or none.
fn group_in(group: &LgName) -> Option<Option<Name>>
    ensures { result ≡ group_from_c group.now }
{
    if group.length == 0 {
        return Some(None);
    }
    Some(Some(group.name()?))
}

impl LgConfig {
    /// The seeds that C tells.
    fn seeds_told(&self) -> Option<ArrayVec<Seed, MAX_SEEDS>>
        ensures { option_map (λ told. told.items) result ≡ seeds_from_c self.now }
    {
        if self.seeds_count > MAX_SEEDS as u64 {
            return None;
        }
        seeds_in(&self.seeds[..self.seeds_count as usize])
    }

    /// The configuration that C tells, if its name, its address, its group and its seeds tell something. Its numbers
    /// may be out of their ranges, and its seeds may have the same name, which a check finds.
    pub fn config(&self) -> Option<Config>
        ensures { result ≡ config_from_c self.now }
    {
        let name = self.name.name()?;
        let addr = self.address.addr()?;
        let group = group_in(&self.group)?;
        let seeds = self.seeds_told()?;
        Some(Config {
            interval_ms: self.interval_ms,
            timeout_ms: self.timeout_ms,
            indirect: self.indirect,
            max_score: self.max_score,
            alpha: self.alpha,
            beta: self.beta,
            confirmations: self.confirmations,
            lambda: self.lambda,
            nack_thousandths: self.nack_thousandths,
            history_limit: self.history_limit,
            wire: self.wire,
            forget_ms: self.forget_ms,
            gossip_ms: self.gossip_ms,
            gossip_to: self.gossip_to,
            first: self.first,
            group,
            seeds,
            name,
            addr,
        })
    }

    /// Replaces the configuration by that of a member with the default numbers, no group and no seeds, if its name and
    /// its address tell something. Returns whether they do; if they don't, nothing changes.
    pub fn begin(&mut self, name: &LgName, address: &LgAddress) -> bool
        ensures good { result ≡ is_some (defaults_from_c name.now address.now) }
        ensures told { result ≡ true → config_from_c self.new ≡ defaults_from_c name.now address.now }
        ensures unchanged { result ≡ false → self.new ≡ self.old }
    {
        let (Some(own), Some(addr)) = (name.name(), address.addr()) else {
            return false;
        };
        let config = Config::new(own, addr);
        *self = LgConfig {
            interval_ms: config.interval_ms,
            timeout_ms: config.timeout_ms,
            indirect: config.indirect,
            max_score: config.max_score,
            alpha: config.alpha,
            beta: config.beta,
            confirmations: config.confirmations,
            lambda: config.lambda,
            nack_thousandths: config.nack_thousandths,
            history_limit: config.history_limit,
            wire: config.wire,
            forget_ms: config.forget_ms,
            gossip_ms: config.gossip_ms,
            gossip_to: config.gossip_to,
            first: config.first,
            seeds_count: 0,
            seeds: self.seeds,
            group: LgName::none(),
            name: *name,
            address: *address,
        };
        true
    }
}
