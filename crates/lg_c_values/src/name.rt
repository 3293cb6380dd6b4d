//! A name as C has it.
//!
//! Defined in: `specs/Meaning/Names.antt`.
ghost use Rattle.std.specs.Prelude.{◌≡◌};
ghost use Rattle.lg_c_values.specs.Meaning.Names.{c_name, no_c_name, name_from_c};

use lg_rules::{MAX_NAME, Name};

/// A name as C has it.
#[repr(C)]
#[derive(Clone, Copy)]
pub struct LgName {
    /// The bytes of the name. What stands behind them doesn't count.
    pub bytes: [u8; MAX_NAME],
    /// How many bytes the name has, 1 to 32. If it is 0, there is no name.
    pub length: u8,
}

impl LgName {
    /// A name for C, with zeros behind it.
    pub fn of(name: &Name) -> LgName
        ensures { result ≡ c_name name.now }
    {
        let text = name.as_bytes();
        let mut bytes = [0; MAX_NAME];
        bytes[..text.len()].copy_from_slice(text);
        LgName {
            bytes,
            length: text.len() as u8,
        }
    }

    /// No name, for C.
    pub fn none() -> LgName
        ensures { result ≡ no_c_name }
    {
        LgName {
            bytes: [0; MAX_NAME],
            length: 0,
        }
    }

    /// The name that C tells, if its bytes are one.
    pub fn name(&self) -> Option<Name>
        ensures { result ≡ name_from_c self.now }
    {
        let length = usize::from(self.length);
        if length > MAX_NAME {
            return None;
        }
        Name::new(&self.bytes[..length]).ok()
    }
}

/// The default tells nothing. It fills those places of a row of fixed capacity that hold nothing.
impl Default for LgName {
    ghost use Rattle.std.specs.Prelude.{◌≡◌};
    ghost use Rattle.lg_c_values.specs.Meaning.Names.{no_c_name};

    ghost is_default = { λ it. it ≡ no_c_name };

    fn default() -> Self {
        LgName::none()
    }
}
