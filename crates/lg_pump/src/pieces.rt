//! In which pieces a text is written.
//!
//! Defined in: `specs/Meaning/Handing.antt`.
//! Tested in: `lg_command_tests/src/pumping.rt`.
ghost use Rattle.std.specs.Prelude.{◌≡◌, ◌≤◌, ◌<◌, ◌+◌, length};
ghost use Rattle.lg_pump.specs.Meaning.Handing.{IsPiece};

/// The most bytes that are written by one call. A pipe takes so many whole or not at all (POSIX, `PIPE_BUF` on Linux).
pub const MAX_PIECE: usize = 4096;

/// How long the first piece of a text is: as many whole lines as fit into [`MAX_PIECE`] bytes, or so many bytes if the
/// first line is longer.
pub(crate) fn piece_len(text: &[u8]) -> usize
    ensures { IsPiece text.now result }
{
    let most = text.len().min(MAX_PIECE);
    'from_behind: for at in (0..most).rev() {
        if text[at] == b'\n' {
            return at + 1;
        }
    }
    most
}
