//! What the writer hands to the published value.
//!
//! Defined in: `specs/Support/Updates.antt`.
//! Tested in: `lg_agent_tests/src/view/looks.rt`.
use crate::book::PairName;
use crate::front::Front;
use lg_detector::Event;
use std::marker::Model;

/// An event that was added to the book, with the front that ends with it.
#[derive(Drop)]
pub struct Added<P: PairName> {
    pub(crate) event: Box<Event>,
    pub(crate) front: Front<P>,
}

impl<P: PairName> Model for Added<P> {
    ghost use Rattle.std.specs.Prelude.{◌≡◌, ◌++◌, ◌∷◌, [], List};
    ghost use Rattle.lg_detector.specs.declared.event.Event.{Event};
    ghost use Rattle.lg_view.specs.Support.Updates.{AddedValue};

    ghost Value = { AddedValue };

    ghost view = { λ a. record { events = a.front; event = a.event.value } };

    ghost invariant = { λ a. (before : List Event) × (a.front ≡ before ++ a.event.value ∷ []) };
}

/// What advances the published value by one event. An update without an event changes nothing: it only reserves
/// memory for one that has an event. The event is on the heap, so that an update takes 24 bytes.
#[derive(Drop)]
pub struct Update<P: PairName> {
    pub(crate) added: Option<Added<P>>,
}

impl<P: PairName> Model for Update<P> {
    ghost use Rattle.std.specs.Prelude.{Option};
    ghost use Rattle.lg_view.specs.Support.Updates.{AddedValue};

    ghost Value = { Option AddedValue };

    ghost view = { λ u. u.added };
}
