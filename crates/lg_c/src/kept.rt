//! The pointer that C keeps: to a detector on the heap, or to nothing.
//!
//! Defined in: `specs/Support/Owning.antt`.
ghost use Rattle.std.specs.Prelude.{◌≡◌, Option, Some, None, is_some, true};
ghost use Rattle.lg_detector.specs.Support.State.{State};

use crate::loose::Loose;
use lg_detector::Detector;
use std::alloc::Global;
use std::marker::Model;

/// A pointer to a detector on the heap, which it owns, or to nothing. To C it is a pointer to bytes, since C may not
/// read what lies there.
#[repr(C)]
#[derive(Drop)]
pub struct Kept {
    at: *mut u8,
    pub ghost value: { Option State },
}

impl Model for Kept {
    ghost use Rattle.lg_c.specs.Support.Owning.{kept_owns};

    ghost also_owns = { λ k. kept_owns k.at k.value };
}

impl Kept {
    /// A pointer to nothing.
    pub(crate) fn nothing() -> Kept
        ensures { result.value ≡ None }
    {
        Kept {
            at: std::ptr::null_mut(),
        }
    }

    /// The pointer of a box that was taken apart.
    pub(crate) fn of(loose: Loose<Detector, Global>) -> Kept
        ensures { result.value ≡ Some loose.value }
    {
        let Loose { at, alloc: _ } = loose;
        Kept { at: at as *mut u8 }
    }

    /// The box, taken apart.
    pub(crate) fn into_loose(self, alloc: Global) -> Loose<Detector, Global>
        requires { is_some self.value ≡ true }
        ensures { Some result.value ≡ self.value }
    {
        let Kept { at } = self;
        Loose {
            at: at as *mut Detector,
            alloc,
        }
    }
}
