//! The book of a published pair: the one list of all the events that were ever added. The list exists in proofs
//! alone. In memory there is its length, in a word that only the writer has.
//!
//! Defined in: `specs/Meaning/Rule.antt`.
//! Tested in: `lg_agent_tests/src/view/looks.rt`.
ghost use Rattle.std.specs.Prelude.{◌≡◌, []};
ghost use Rattle.lg_view.specs.Meaning.Rule.{head_of};

use crate::front::Front;
use lg_detector::Event;
use logbook::{Gain, Offer, Plain, Play, Rule, Seen, Start, Word};
use std::marker::{Brand, PhantomData};

/// The rule of a book: its list is accepted, and its word is the length of the list.
pub struct BookRule;

impl Rule<Event, u64> for BookRule {
    ghost use Rattle.std.specs.Prelude.{[]};
    ghost use base.Fml.{ftrue};
    ghost use Rattle.lg_view.specs.Meaning.Rule.{IsKept};

    ghost holds = { λ cells list. IsKept cells list };

    ghost first = { [] };

    ghost hinted = { λ n list. Unit {0} };

    ghost shows = { λ list. [] };

    ghost keeps = { λ names list. ftrue };

    ghost moves = { λ ask before after answer. Unit {0} };
}

/// Whoever adds an event gains nothing besides what the step itself shows.
pub struct NoGain;

impl Gain<Event, u64> for NoGain {
    ghost use base.Fml.{ftrue};

    ghost after = { λ names about answer. ftrue };
}

/// What the step that adds an event is given: the event.
pub(crate) type EventOffer = Offer<Event, u64, BookRule, NoGain>;

/// The step that adds an event.
pub struct Adding;

impl Play<Event, u64> for Adding {
    ghost use Rattle.lg_view.specs.Meaning.Rule.{Adds};

    ghost then = { Adds };
}

impl Plain<Event, Event, u64> for Adding {
    ghost use Rattle.std.specs.Prelude.{None};

    ghost ask = { λ event. event };

    ghost state = { λ event. None };
}

/// Names one book, and with it one published pair.
///
/// A function that makes a pair takes a type parameter with this bound. It requires that the book that it is handed
/// is the one that the parameter names. So two fronts under one name are fronts of one list. At run time the type is
/// [`Brand`].
pub trait PairName {
    ghost use Rattle.logbook.specs.Pages.{Book};

    ghost book: { Book };
}

// Nobody reads this book: a caller's contract names its own type parameter, which requires a book of its own.
impl PairName for Brand {
    ghost use Rattle.lg_view.specs.Meaning.Rule.{no_book};

    ghost book = { no_book };
}

/// A book with no events, which has no name yet. It has the eight bytes of its word, and allocates nothing.
#[derive(Drop)]
pub struct UnnamedBook {
    head: Word<Event, u64, BookRule>,
    seen: Seen<Event, u64, BookRule>,
    pub ghost empty: { seen.log ≡ [] },
    pub ghost head_is: { head ≡ head_of seen.book },
}

impl UnnamedBook {
    /// A new book with no events, different from every other book.
    pub fn new() -> UnnamedBook {
        let (seen, mut first, _second) = Seen::open(Start::alone(), 0, 0);
        UnnamedBook {
            head: Word::tracked(0, &mut first),
            seen,
        }
    }

    /// The book under its name, and its empty front.
    pub(crate) fn named<P: PairName>(self) -> (Book<P>, Front<P>)
        requires { self.seen.book ≡ P.book }
        ensures { result.1 ≡ [] }
    {
        let UnnamedBook { head, seen } = self;
        let book = Book {
            head,
            name: PhantomData,
        };
        (book, Front::empty(seen))
    }
}

/// A book under its name: the word that is the length of its list.
#[derive(Drop)]
pub struct Book<P: PairName> {
    pub(crate) head: Word<Event, u64, BookRule>,
    name: PhantomData<P>,
    pub(crate) ghost head_is: { head ≡ head_of P.book },
}
