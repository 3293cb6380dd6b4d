//! Random words.
//!
//! Defined in: `specs/Meaning/Words.antt`.
//! Tested in: `lg_node_tests/src/node/dice.rt`.
ghost use Rattle.std.specs.Prelude.{◌≡◌};
ghost use Rattle.lg_turns.specs.Meaning.Words.{seeded, DrawsEight};

use rand_core::SeedableRng;
use rand_core::utils::NextWord;
use rand_pcg::Lcg64Xsh32;
use std::marker::Model;

/// Gives random words, by which a tick chooses members.
pub trait Dice {
    ghost use Rattle.std.specs.Prelude.{ℕ, List};

    // From the first state it may give these words, and is then in the second.
    ghost throws: { Self → List ℕ → Self → Type 0 };

    /// The next eight words.
    fn words(&mut self) -> [u32; 8]
        ensures { throws self.old result self.new };
}

/// The words of a PCG32 generator (XSH RR 64/32) that a number seeds: the same number gives the same words. It isn't
/// for secrets. A contract sees the generator.
#[derive(Drop)]
pub struct PcgDice {
    generator: Lcg64Xsh32,
}

impl Model for PcgDice {
    ghost use Rattle.rand_pcg.specs.Lcg.{Lcg};

    ghost Value = { Lcg };

    ghost view = { λ d. d.generator };
}

impl PcgDice {
    /// The generator that this number seeds.
    pub fn new(dice: u64) -> PcgDice
        ensures { result ≡ seeded dice }
    {
        PcgDice {
            generator: Lcg64Xsh32::seed_from_u64(dice),
        }
    }
}

impl Dice for PcgDice {
    ghost throws = { DrawsEight };

    /// Each word is the next one of the generator, in order.
    fn words(&mut self) -> [u32; 8] {
        let generator = &mut self.generator;
        [
            generator.next_word(),
            generator.next_word(),
            generator.next_word(),
            generator.next_word(),
            generator.next_word(),
            generator.next_word(),
            generator.next_word(),
            generator.next_word(),
        ]
    }
}
