//! Makes a published pair.
//!
//! Defined in: `specs/Meaning/Views.antt`.
//! Tested in: `lg_agent_tests/src/view/looks.rt`.
ghost use Rattle.std.specs.Prelude.{◌≡◌, ◌<◌, ◌≤◌, ◌^◌, [], drop, All, vec_len, IfOk, IfSome};
ghost use Rattle.std.specs.Bool.{OnTrue};
ghost use Rattle.std.specs.Vec.{vec_capacity};

use crate::book::{PairName, UnnamedBook};
use crate::feed::{Feed, FeedWriter};
use crate::front::Front;
use crate::look::Look;
use crate::published::Published;
use left_right::writer::Writer;
use std::alloc::Global;
use std::sync::Wait;
use thiserror::Error;

/// Why no pair was made.
#[derive(Clone, Copy, Debug, PartialEq, Eq, Error)]
pub enum PairFault {
    /// Memory was refused.
    #[error("memory was refused")]
    NoMemory,
    /// No reader was given for a look.
    #[error("no reader was given for a place")]
    NoPlace,
}

/// Makes a feed and `places` looks, at least one and fewer than 2^32, over a book that has no events. Nothing is
/// published yet, and each look has seen nothing. Allocates memory for the looks, for two detectors, each with some 5
/// KB for a reply and a ring of 1,024 changes, and for what the threads share. If that is refused, it fails with
/// [`PairFault::NoMemory`]. If no reader is given for a look, it fails with [`PairFault::NoPlace`].
pub fn pair<P: PairName, R: Wait>(
    rt: &R,
    alloc: Global,
    book: UnnamedBook,
    places: usize,
) -> Result<(Feed<P>, Vec<Look<P>>), PairFault>
    requires book { book.seen.book ≡ P.book }
    requires places { (0 < places) × (places < 2 ^ 32) }
    ensures { IfOk result (λ made. (made.0.events ≡ []) × (made.0.waiting ≡ [])
        × (vec_len made.1 ≡ places) × All (λ look. look ≡ []) made.1.items) }
{
    let (book, front) = book.named::<P>();
    let Ok(mut looks) = Vec::with_capacity(alloc, places) else {
        return Err(PairFault::NoMemory);
    };
    let Some(writer) = blank_writer(alloc, &front, places) else {
        return Err(PairFault::NoMemory);
    };
    if fill(&writer, &front, &mut looks, places) {
        Ok((Feed::over(writer, book, front), looks))
    } else {
        drop(writer.take(rt));
        Err(PairFault::NoPlace)
    }
}

/// A writer over two blank detectors, unless memory is refused.
fn blank_writer<P: PairName>(
    alloc: Global,
    front: &Front<P>,
    places: usize,
) -> Option<FeedWriter<P>>
    requires front { front.now ≡ [] }
    requires places { (0 < places) × (places < 2 ^ 32) }
    ensures { IfSome result (λ w. (w.desk.shown.value ≡ []) × (drop w.behind w.log.items ≡ [])) }
{
    let Ok(first) = Published::blank(alloc, front.copy()) else {
        return None;
    };
    let Ok(second) = Published::blank(alloc, front.copy()) else {
        return None;
    };
    Writer::new(alloc, first, second, places).ok()
}

/// Makes the looks, in a list with enough capacity for them. Returns whether each was given its reader.
fn fill<P: PairName>(
    writer: &FeedWriter<P>,
    front: &Front<P>,
    looks: &mut Vec<Look<P>>,
    places: usize,
) -> bool
    requires { (front.now ≡ []) × (looks.old.items ≡ []) × (places ≤ vec_capacity looks.old) }
    ensures { OnTrue result ((vec_len looks.new ≡ places) × All (λ look. look ≡ []) looks.new.items) }
{
    for _ in 0..places {
        let Ok(reader) = writer.factory().reader() else {
            return false;
        };
        looks.push_reserved(Look::over(reader, front.copy()));
    }
    true
}
