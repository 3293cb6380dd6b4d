//! The sequence numbers of probes and relays: 1 to 4,294,967,295, and behind the greatest comes 1 again. The
//! configuration says the first one.
//!
//! Defined in: `specs/Meaning/Probing.antt`.
//! Tested in: `lg_detector_tests/src/detector/numbers.rt`.
ghost use Rattle.std.specs.Prelude.{◌≡◌};
ghost use Rattle.lg_detector.specs.Meaning.Probing.{next_number};

/// The least sequence number, which comes behind the greatest (this project's choice).
pub(super) const LOWEST_NUMBER: u32 = 1;

/// The sequence number behind this one.
pub(super) fn next_number(number: u32) -> u32
    ensures { result ≡ next_number number }
{
    if number == u32::MAX {
        LOWEST_NUMBER
    } else {
        number + 1
    }
}
