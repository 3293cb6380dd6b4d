//! Pairs with two looks that are made, played and ended.
ghost use Rattle.std.specs.Prelude.{◌≡◌, []};

use super::keeper::Keeper;
use super::looks::{Checks, play_looks};
use super::threads::{Read, play_threads};
use lg_view::{Look, MembersFault, NoView, PairFault, PairName, UnnamedBook};
use std::alloc::Global;
use std::marker::Brand;
use std::sync::Wait;
use std::thread::Threads;

/// What is done with a pair.
#[derive(Clone, Copy)]
pub(super) enum Play {
    /// Two looks read while events are published.
    Looks,
    /// A writer and two readers run at once.
    Threads,
}

/// What was seen.
#[derive(Clone, Copy)]
pub(super) enum Shown {
    /// Whether each thing that has to hold held, or None if a look wasn't told of the opening.
    Looks(Option<Checks>),
    /// How many events were published, and what each reader found.
    Threads(u64, Read, Read),
}

/// What was seen of a pair, whether both looks answered nothing after the pair's end, and how many events the first had
/// seen.
#[derive(Clone, Copy)]
pub(super) struct Outcome {
    pub(super) shown: Shown,
    pub(super) ended: bool,
    pub(super) seen: u64,
}

/// Plays a pair.
fn play_kept<P: PairName + Send + Sync, R: Threads + Wait + Sync>(
    rt: &R,
    alloc: Global,
    keeper: &mut Keeper<P>,
    one: &mut Look<P>,
    two: &mut Look<P>,
    what: Play,
) -> Shown
    requires { keeper.old ≡ [] }
{
    match what {
        Play::Looks => Shown::Looks(play_looks(rt, alloc, keeper, one, two)),
        Play::Threads => play_threads(rt, alloc, keeper, one, two),
    }
}

/// Makes a pair, plays it, and ends it.
fn play_pair<P: PairName + Send + Sync, R: Threads + Wait + Sync>(
    rt: &R,
    alloc: Global,
    book: UnnamedBook,
    what: Play,
) -> Result<Outcome, PairFault>
    requires { book.seen.book ≡ P.book }
{
    let (mut keeper, mut looks) = Keeper::<P>::new(rt, alloc, book, 2)?;
    let (Some(mut one), Some(mut two)) = (looks.pop(), looks.pop()) else {
        keeper.end(rt);
        return Err(PairFault::NoPlace);
    };
    let shown = play_kept(rt, alloc, &mut keeper, &mut one, &mut two, what);
    keeper.end(rt);
    Ok(Outcome {
        shown,
        ended: one.version() == Err(NoView)
            && two.version() == Err(NoView)
            && matches!(one.members(alloc), Err(MembersFault::NoView)),
        seen: one.seen(),
    })
}

/// What was seen of a pair. The error is that none was made.
pub(super) fn told<R: Threads + Wait + Sync>(
    rt: &R,
    alloc: Global,
    what: Play,
) -> Result<Outcome, PairFault> {
    play_pair::<Brand, R>(rt, alloc, UnnamedBook::new(), what)
}
