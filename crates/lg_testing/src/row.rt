//! A stream for faults with known room.
use arrayvec::ArrayVec;
use lg_text::FaultStream;

/// A stream for faults that holds `N` bytes, and tells how many it has room for yet. A line is taken whole if there is
/// room for it, and else not at all. It allocates no memory.
#[derive(Drop)]
pub struct FaultRow<const N: usize> {
    text: ArrayVec<u8, N>,
}

impl<const N: usize> FaultRow<N> {
    /// An empty stream.
    pub fn empty() -> Self {
        FaultRow {
            text: ArrayVec::new(),
        }
    }

    /// What was taken.
    pub fn text(&self) -> &[u8] {
        self.text.as_slice()
    }
}

impl<const N: usize> FaultStream for FaultRow<N> {
    ghost use Rattle.std.specs.Prelude.{◌-◌, length, Some};

    ghost reported = { λ row. record { contents = Some row.text.items; room = Some (N - length row.text.items) } };

    fn take(&mut self, text: &[u8]) {
        // A text that doesn't fit is dropped.
        let _ = self.text.try_extend_from_slice(text);
    }
}
