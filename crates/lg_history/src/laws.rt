//! Laws of legal histories.
//!
//! Defined in: `specs/Meaning/History.antt`, `specs/Meaning/Rest.antt`.
//! Tested in: nothing that runs, since they are laws.
ghost use Rattle.std.specs.Prelude.{◌≡◌, ℕ, ◌<◌, ◌≤◌, ◌+◌, ◌++◌, [], ◌∷◌, List, length, take};
ghost use Rattle.std.specs.Prelude.{slice_get, Some, false, true};
ghost use Rattle.lg_timing.specs.declared.config.Config.{Config};
ghost use Rattle.lg_timing.specs.Meaning.Config.{IsChecked};
ghost use Rattle.lg_detector.specs.declared.event.Event.{Event};
ghost use Rattle.lg_detector.specs.declared.event.Event.TheVariants.{Open};
ghost use Rattle.lg_detector.specs.Meaning.Step.{is_open_event, most_events, reply_after};
ghost use Rattle.lg_detector.specs.Support.State.{State};
ghost use Rattle.lg_detector.specs.Support.Summary.{IsSummary};
ghost use Rattle.lg_detector.specs.Meaning.Step.{is_accepted};
ghost use Rattle.lg_history.specs.Meaning.History.{Entry, entry, events, Answered, IsLegal};
ghost use Rattle.lg_history.specs.Meaning.Rest.{IsRest, AnsweredFrom, AreCut, of_seat, made_by};

/// How legal histories begin and grow. The history of an opening alone is legal. A legal one that isn't full stays
/// legal with one more entry of a seat, if its reply is the one that the definitions give after the events before it.
pub fn histories_grow()
    ensures begins { (places now : ℕ) (config : Config) → IsChecked config
        → IsLegal places (entry 0 (Open now config) (reply_after [] (Open now config)) ∷ []) }
    ensures grows { (places seat : ℕ) (h : List Entry) (e : Event) → IsLegal places h → is_open_event e ≡ false
        → length h < most_events → 0 < seat → seat ≤ places
        → IsLegal places (h ++ entry seat e (reply_after (events h) e) ∷ []) }
    // Its events grow by that one event, and it has as many events as entries.
    ensures events { (h : List Entry) (x : Entry) → events (h ++ x ∷ []) ≡ events h ++ x.event ∷ [] }
    ensures counted { (h : List Entry) → length (events h) ≡ length h }
{}

/// A legal history by its positions: at each of them the reply of the entry is the one that the definitions give to
/// its event after the events of the entries before it.
pub fn replies_by_place()
    ensures { (places n : ℕ) (h : List Entry) (x : Entry) → IsLegal places h → slice_get h n ≡ Some x
        → x.reply ≡ reply_after (take n (events h)) x.event }
{}

/// How a history goes on whose first entries were cut off: by one more entry, as the whole would, and by a further
/// cut. Each reply that is left is the one that the definitions give after the whole list. It is also the one that
/// follows from a summary of what was cut off.
pub fn rests_go_on()
    ensures whole { (places : ℕ) (cut : List ℕ) (h : List Entry) → ((seat : ℕ) → of_seat cut seat ≡ 0)
        → IsLegal places h → IsRest places [] cut h }
    ensures grows { (places seat : ℕ) (past : List Event) (cut : List ℕ) (h : List Entry) (e : Event)
        → IsRest places past cut h → is_open_event e ≡ false → length h + length past < most_events
        → 0 < seat → seat ≤ places
        → IsRest places past cut (h ++ entry seat e (reply_after (past ++ events h) e) ∷ []) }
    ensures cut { (places : ℕ) (past : List Event) (cut more : List ℕ) (h : List Entry) → IsRest places past cut h
        → ((seat : ℕ) → of_seat more seat ≡ of_seat cut seat + made_by seat h)
        → IsRest places (past ++ events h) more [] }
    ensures accepted { (places : ℕ) (past : List Event) (cut : List ℕ) (h : List Entry) → IsRest places past cut h
        → is_accepted (past ++ events h) ≡ true }
    ensures answered { (places : ℕ) (past : List Event) (cut : List ℕ) (h : List Entry) → IsRest places past cut h
        → Answered past h }
    ensures summary { (s : State) (f : List Event) (h : List Entry) → IsSummary s f
        → is_accepted (f ++ events h) ≡ true → Answered f h → AnsweredFrom s h }
    ensures seats { (places : ℕ) (past : List Event) (cut : List ℕ) (h : List Entry) → IsRest places past cut h
        → places < length cut → AreCut places past cut }
{}
