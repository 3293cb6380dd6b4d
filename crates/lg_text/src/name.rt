//! Reads a name.
//!
//! Defined in: `specs/Meaning/Names.antt`, `lg_rules/specs/Meaning/Name.antt`.
//! Tested in: `cases/sim_commands.case`, `cases/config_forms.case`, `cases/config_seeds.case`.
ghost use Rattle.std.specs.Prelude.{◌≡◌};
ghost use Rattle.lg_text.specs.Meaning.Names.{member_name_of};

use lg_rules::Name;

/// The name of a member that a text spells: 1 to 32 bytes of `A-Z a-z 0-9 . _ -` and nothing else.
pub fn name_in(text: &[u8]) -> Option<Name>
    ensures { result ≡ member_name_of text.now }
{
    Name::new(text).ok()
}
