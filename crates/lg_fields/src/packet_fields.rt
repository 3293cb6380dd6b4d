//! Reads the fields of recordings that are as in packets, and configurations, which are made of them.
//!
//! Defined in: `specs/Meaning/Scanned.antt`.
//! Tested in: `lg_fields_tests/src/fields.rt`.
ghost use Rattle.std.specs.Prelude.{◌≡◌, ◌≤◌, length, Ok, Err, if◌then◌else◌};
ghost use Rattle.std.specs.Int.{w16, w32};
ghost use Rattle.std.specs.List.{list_all};
ghost use Rattle.lg_rules.specs.Meaning.Name.{is_name_byte};
ghost use Rattle.lg_rules.specs.declared.version.Version.TheVariants.{Three};
ghost use Rattle.lg_packet.specs.Meaning.Reading.{addr_at, incarnation_at, ipv4_at, ipv6_at, name_at, name_bytes_at};
ghost use Rattle.lg_packet.specs.Meaning.Reading.{name_or_none_at, number_at, of_family_at, some_name_at};
ghost use Rattle.lg_packet.specs.Support.Gives.{Gives};
ghost use Rattle.lg_fields.specs.Meaning.Scanned.{blank_config, config_scan};
ghost use Rattle.lg_fields.specs.Meaning.Scanned.{incarnation_scan, label_scan, maybe_label_scan};
ghost use Rattle.lg_fields.specs.Meaning.Scanned.{numbers_scan, place_scan, seed_scan, seeds_scan, word_scan};
ghost use Rattle.lg_fields.specs.Support.Scans.{Scans};

use crate::fault::FieldFault;
use crate::reading::FieldReader;
use arrayvec::ArrayVec;
use lg_packet::Fault;
use lg_rules::{Addr, Incarnation, Ip, MAX_NAME, Name, is_name_byte};
use lg_timing::{Config, KEYS, Key, MAX_SEEDS, Seed};

/// Whether each byte may stand in a name.
fn are_name_bytes(text: &[u8]) -> bool
    ensures { result ≡ list_all is_name_byte text.now }
{
    text.iter().all(|byte| is_name_byte(*byte))
}

/// The fault of a name whose end is missing: [`Fault::Name`] if one of the bytes that are there may not stand in a
/// name, or else [`Fault::Short`].
fn cut_name_fault(text: &[u8]) -> Fault
    ensures { result ≡ (if list_all is_name_byte text.now then Fault.Short else Fault.Name) }
{
    if are_name_bytes(text) {
        Fault::Short
    } else {
        Fault::Name
    }
}

/// What a configuration is before it is read. Each of its parts is replaced.
fn blank_config() -> Config
    ensures { result ≡ blank_config }
{
    Config::new(Name::default(), Addr::default())
}

impl FieldReader<'_> {
    /// Reads `len` bytes of a name.
    fn name_bytes(&mut self, len: usize) -> Result<Name, Fault>
        requires some { 1 ≤ len }
        requires few { len ≤ MAX_NAME }
        ensures { Gives (λ x. (x, self.new.rest.now)) result (name_bytes_at len self.old.rest.now) }
    {
        if self.rest.len() < len {
            return Err(cut_name_fault(self.rest));
        }
        let (text, rest) = self.rest.split_at(len);
        self.rest = rest;
        Name::new(text).ok().ok_or(Fault::Name)
    }

    #[tactic(auto, unfolding(lg_packet::specs::Meaning::Reading::name_at))]
    fn name(&mut self) -> Result<Name, Fault>
        ensures { Gives (λ x. (x, self.new.rest.now)) result (name_at self.old.rest.now) }
    {
        let [len, rest @ ..] = self.rest else {
            return Err(Fault::Short);
        };
        let len = usize::from(*len);
        if len == 0 || len > MAX_NAME {
            return Err(Fault::Name);
        }
        self.rest = rest;
        self.name_bytes(len)
    }

    /// Reads a name that has to be there.
    #[tactic(auto, unfolding(lg_packet::specs::Meaning::Reading::some_name_at))]
    fn some_name(&mut self) -> Result<Option<Name>, Fault>
        ensures { Gives (λ x. (x, self.new.rest.now)) result (some_name_at self.old.rest.now) }
    {
        let name = self.name()?;
        Ok(Some(name))
    }

    /// Reads a name, or `None` if its length is 0.
    #[tactic(auto, unfolding(lg_packet::specs::Meaning::Reading::name_or_none_at))]
    fn name_or_none(&mut self) -> Result<Option<Name>, Fault>
        ensures { Gives (λ x. (x, self.new.rest.now)) result (name_or_none_at self.old.rest.now) }
    {
        let [len, rest @ ..] = self.rest else {
            return Err(Fault::Short);
        };
        if *len == 0 {
            self.rest = rest;
            return Ok(None);
        }
        self.some_name()
    }

    fn number(&mut self) -> Result<u32, Fault>
        ensures { Gives (λ x. (x, self.new.rest.now)) result (number_at w32 self.old.rest.now) }
    {
        let [a, b, c, d, rest @ ..] = self.rest else {
            return Err(Fault::Short);
        };
        self.rest = rest;
        Ok(u32::from_be_bytes([*a, *b, *c, *d]))
    }

    /// Reads an incarnation. It is judged once its four bytes are there.
    #[tactic(auto, unfolding(lg_packet::specs::Meaning::Reading::incarnation_at))]
    fn limited(&mut self) -> Result<Incarnation, Fault>
        ensures { Gives (λ x. (x, self.new.rest.now)) result (incarnation_at self.old.rest.now) }
    {
        let number = self.number()?;
        Incarnation::new(number).ok_or(Fault::Incarnation)
    }

    /// Reads the four bytes of an IPv4 address.
    fn ipv4(&mut self) -> Result<Ip, Fault>
        ensures { Gives (λ x. (x, self.new.rest.now)) result (ipv4_at self.old.rest.now) }
    {
        let [a, b, c, d, rest @ ..] = self.rest else {
            return Err(Fault::Short);
        };
        self.rest = rest;
        Ok(Ip::V4([*a, *b, *c, *d]))
    }

    /// Reads the sixteen bytes of an IPv6 address.
    fn ipv6(&mut self) -> Result<Ip, Fault>
        ensures { Gives (λ x. (x, self.new.rest.now)) result (ipv6_at self.old.rest.now) }
    {
        let [a, b, c, d, e, f, g, h, i, j, k, l, m, n, o, p, rest @ ..] = self.rest else {
            return Err(Fault::Short);
        };
        self.rest = rest;
        Ok(Ip::V6([
            *a, *b, *c, *d, *e, *f, *g, *h, *i, *j, *k, *l, *m, *n, *o, *p,
        ]))
    }

    /// Reads a byte for the family of an IP address, and then the address.
    fn ip(&mut self) -> Result<Ip, Fault>
        ensures { Gives (λ x. (x, self.new.rest.now)) result (of_family_at self.old.rest.now) }
    {
        let [family, rest @ ..] = self.rest else {
            return Err(Fault::Short);
        };
        self.rest = rest;
        match *family {
            4 => self.ipv4(),
            6 => self.ipv6(),
            _ => Err(Fault::Family),
        }
    }

    fn port(&mut self) -> Result<u16, Fault>
        ensures { Gives (λ x. (x, self.new.rest.now)) result (number_at w16 self.old.rest.now) }
    {
        let [a, b, rest @ ..] = self.rest else {
            return Err(Fault::Short);
        };
        self.rest = rest;
        Ok(u16::from_be_bytes([*a, *b]))
    }

    #[tactic(auto, unfolding(lg_packet::specs::Meaning::Reading::addr_at))]
    fn addr(&mut self) -> Result<Addr, Fault>
        ensures { Gives (λ x. (x, self.new.rest.now)) result (addr_at Three self.old.rest.now) }
    {
        let ip = self.ip()?;
        let port = self.port()?;
        Ok(Addr { ip, port })
    }

    /// Reads a name. [`FieldFault::Name`] if it isn't 1 to 32 bytes that may stand in a name, [`FieldFault::Short`] if
    /// the bytes end before it does.
    pub fn label(&mut self) -> Result<Name, FieldFault>
        ensures { Scans (λ x. (x, self.new.rest.now)) result (label_scan self.old.rest.now) }
    {
        Ok(self.name()?)
    }

    /// Reads a name that may be missing: its length is 0 then. The faults are those of [`FieldReader::label`].
    pub fn maybe_label(&mut self) -> Result<Option<Name>, FieldFault>
        ensures { Scans (λ x. (x, self.new.rest.now)) result (maybe_label_scan self.old.rest.now) }
    {
        Ok(self.name_or_none()?)
    }

    /// Reads four bytes as a number, the highest first. [`FieldFault::Short`] if they aren't there.
    pub fn word(&mut self) -> Result<u32, FieldFault>
        ensures { Scans (λ x. (x, self.new.rest.now)) result (word_scan self.old.rest.now) }
    {
        Ok(self.number()?)
    }

    /// Reads an incarnation, four bytes. [`FieldFault::Incarnation`] if it is above
    /// [`MAX_INCARNATION`](lg_rules::MAX_INCARNATION), [`FieldFault::Short`] if the bytes aren't there.
    pub fn incarnation(&mut self) -> Result<Incarnation, FieldFault>
        ensures { Scans (λ x. (x, self.new.rest.now)) result (incarnation_scan self.old.rest.now) }
    {
        Ok(self.limited()?)
    }

    /// Reads an address. [`FieldFault::Family`] if its family is neither 4 nor 6, [`FieldFault::Short`] if the bytes
    /// end before it does.
    pub fn place(&mut self) -> Result<Addr, FieldFault>
        ensures { Scans (λ x. (x, self.new.rest.now)) result (place_scan self.old.rest.now) }
    {
        Ok(self.addr()?)
    }

    /// Reads the numbers of these keys, each into its place in a configuration.
    #[tactic(auto, unfolding(crate::specs::Meaning::Scanned::numbers_scan))]
    fn numbers(&mut self, keys: &[Key], config: &mut Config) -> Result<(), FieldFault>
        ensures { Scans (λ _. (config.new, self.new.rest.now)) result
            (numbers_scan keys.now config.old self.old.rest.now) }
    {
        match keys {
            [] => Ok(()),
            [key, others @ ..] => {
                let number = self.count()?;
                config.set(*key, number);
                self.numbers(others, config)
            }
        }
    }

    #[tactic(auto, unfolding(crate::specs::Meaning::Scanned::seed_scan))]
    fn seed(&mut self) -> Result<Seed, FieldFault>
        ensures { Scans (λ x. (x, self.new.rest.now)) result (seed_scan self.old.rest.now) }
    {
        let name = self.label()?;
        let addr = self.place()?;
        Ok(Seed { name, addr })
    }

    /// Reads `count` seeds.
    fn seeds(&mut self, count: usize) -> Result<ArrayVec<Seed, MAX_SEEDS>, FieldFault>
        requires { count ≤ MAX_SEEDS }
        ensures { Scans (λ x. (x.items, self.new.rest.now)) result (seeds_scan count self.old.rest.now) }
    {
        let mut seeds = ArrayVec::new();
        for _ in 0..count {
            let seed = self.seed()?;
            seeds.push(seed);
        }
        Ok(seeds)
    }

    /// Reads a configuration. It needn't pass its check. [`FieldFault::Count`] if it has more than 16 seeds; else the
    /// faults of its numbers, names and addresses.
    #[tactic(auto, unfolding(crate::specs::Meaning::Scanned::config_scan))]
    pub fn config(&mut self) -> Result<Config, FieldFault>
        ensures { Scans (λ x. (x, self.new.rest.now)) result (config_scan self.old.rest.now) }
    {
        let mut config = blank_config();
        self.numbers(&KEYS, &mut config)?;
        let name = self.label()?;
        let addr = self.place()?;
        let group = self.maybe_label()?;
        let count = self.few(MAX_SEEDS)?;
        let seeds = self.seeds(count)?;
        config.name = name;
        config.addr = addr;
        config.group = group;
        config.seeds = seeds;
        Ok(config)
    }
}
