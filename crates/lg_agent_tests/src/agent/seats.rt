//! Calls of seats that an agent of one place doesn't have.
ghost use Rattle.std.specs.Prelude.{◌≡◌};

use lg_agent::{AgentName, Kept, Refusal};
use lg_agent_testing::config;
use lg_detector::Event;
use lg_testing::at;
use lg_view::UnnamedBook;
use std::alloc::Global;
use std::marker::Brand;
use std::sync::Wait;

/// What calls of the seats 0, 2 and 1 of the one place gave, each a position or a refusal, and how many entries there
/// are then.
type Seen = ([Result<u64, Refusal>; 3], u64);

/// A call of a seat.
fn call<A: AgentName, R: Wait>(
    rt: &R,
    alloc: Global,
    kept: &mut Kept<A>,
    seat: usize,
) -> Result<u64, Refusal> {
    let receipt = kept.apply(rt, alloc, seat, &Event::Health { now: at(1) })?;
    Ok(receipt.place)
}

/// Calls of three seats of an agent of one place.
fn calls<A: AgentName, R: Wait>(
    rt: &R,
    alloc: Global,
    book: UnnamedBook,
    places: usize,
) -> Result<Seen, Refusal>
    requires book { book.seen.book ≡ A.book }
    requires places { (places ≡ A.places) × (places ≡ 1) }
{
    let config = config(20_000, 0);
    let Ok(()) = config.check() else {
        return Err(Refusal::NoPlace);
    };
    let (mut kept, _looks) = Kept::<A>::open(rt, alloc, book, at(0), config, places)?;
    let seen = [
        call(rt, alloc, &mut kept, 0),
        call(rt, alloc, &mut kept, 2),
        call(rt, alloc, &mut kept, 1),
    ];
    let count = kept.count();
    kept.end(rt);
    Ok((seen, count))
}

/// What calls of three seats of an agent of one place give.
fn told<R: Wait>(rt: &R, alloc: Global) -> Result<Seen, Refusal> {
    calls::<Brand, R>(rt, alloc, UnnamedBook::new(), 1)
}

#[test]
fn no_such_seat(rt: HostRuntime) {
    let seen = told(&rt, rt.alloc());
    let refused = Err(Refusal::NoPlace);
    assert_eq!(rt; seen, Ok(([refused, refused, Ok(1)], 2)));
}
