//! Why a head can't be read.
//!
//! Defined in: `specs/Meaning/Scanning.antt`.
//! Tested in: `lg_heads_tests/src/heads.rt`.
ghost use Rattle.std.specs.Prelude.{◌≡◌};

use lg_fields::FieldFault;
use std::alloc::AllocError;
use thiserror::Error;

/// Why the body of a head can't be read.
#[derive(Clone, Copy, Debug, PartialEq, Eq, Error)]
pub enum HeadFault {
    /// The first fault of the body from the left.
    #[error(transparent)]
    Field(FieldFault),
    /// Memory for the table was refused. What the body says isn't known then.
    #[error("memory was refused")]
    NoMemory,
}

impl From<FieldFault> for HeadFault {
    ghost use Rattle.lg_heads.specs.declared.fault.HeadFault.TheVariants.{Field};

    ghost from_gives = { λ fault told. told ≡ Field fault };

    fn from(fault: FieldFault) -> HeadFault {
        HeadFault::Field(fault)
    }
}

impl From<AllocError> for HeadFault {
    ghost use Rattle.lg_heads.specs.declared.fault.HeadFault.TheVariants.{NoMemory};

    ghost from_gives = { λ _ told. told ≡ NoMemory };

    fn from(_refused: AllocError) -> HeadFault {
        HeadFault::NoMemory
    }
}
