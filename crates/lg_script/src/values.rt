//! Reads single words.
//!
//! Defined in: `specs/Meaning/Values.antt`, `lg_text/specs/Meaning/Numbers.antt`, `Names.antt`, `Cutting.antt`.
//! Tested in: `cases/sim_commands.case`, `cases/sim_lines.case`.
ghost use Rattle.std.specs.Prelude.{◌≡◌};
ghost use Rattle.lg_script.specs.Meaning.Values.{local, moment_of, random_word_of, seed_of};

use lg_rules::Addr;
pub(crate) use lg_text::{name_in, port_in};
use lg_text::{cut_at, number_within};
use lg_timing::{MAX_MOMENT, Moment, Seed};

/// The address that all members of a script share: 127.0.0.1 (this project's choice).
pub const LOCALHOST: [u8; 4] = [127, 0, 0, 1];

/// The address of the member with a port.
pub fn local(port: u16) -> Addr
    ensures { result ≡ local port }
{
    Addr::v4(LOCALHOST, port)
}

/// The moment that a word spells, 0 to 1,000,000,000,000,000.
pub(crate) fn moment_in(word: &[u8]) -> Option<Moment>
    ensures { result ≡ moment_of word.now }
{
    Moment::new(number_within(word, 0, MAX_MOMENT)?)
}

/// The random word of a tick or a leave that some bytes spell: 1 to 16 decimal digits, a number of at most
/// 4,294,967,295. Any other bytes give `None`. No memory is allocated.
pub fn random_word_in(word: &[u8]) -> Option<u32>
    ensures { result ≡ random_word_of word.now }
{
    let number = number_within(word, 0, u64::from(u32::MAX))?;
    Some(number as u32)
}

/// The seed that a word spells: a name, a colon and a port.
pub(crate) fn seed_in(word: &[u8]) -> Option<Seed>
    ensures { result ≡ seed_of word.now }
{
    let (name, port) = cut_at(word, b':');
    let name = name_in(name)?;
    let port = port_in(port?)?;
    Some(Seed {
        name,
        addr: local(port),
    })
}
