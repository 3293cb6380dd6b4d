//! Worked closings, by the definition that the contract of [`Kept::audit`](lg_agent::Kept::audit) names. What passes
//! leave has the name and the positions of their own agent, so no run shows what the closing says of others.
ghost use Rattle.std.specs.Prelude.{◌≡◌, ◌∷◌, [], ℕ, Some, None};
ghost use Rattle.lg_timing.specs.declared.config.Config.{Config};
ghost use Rattle.lg_detector.specs.declared.event.Event.{Event};
ghost use Rattle.lg_detector.specs.declared.event.Event.TheVariants.{Open};
ghost use Rattle.lg_detector.specs.declared.reply.Reply.{Reply};
ghost use Rattle.lg_history.specs.Meaning.History.{entry};
ghost use Rattle.lg_agent.specs.Meaning.Values.{PassValue};
ghost use Rattle.lg_agent.specs.Meaning.Closing.{close_fault};
ghost use Rattle.lg_agent.specs.declared.refusal.CloseFault.TheVariants.{Missing, Foreign, Differs};

/// Two passes of the agent b. The first made the first and the third call, and the second made the second. In the
/// last case the opening and the first call are cut off.
fn worked_faults()
    ensures foreign { (now : ℕ) (config : Config) (e : Event) (r : Reply) → config.name ≡ 98 ∷ []
        → close_fault (record {
          places = 2;
          limit = 9;
          summary = None;
          cut = [];
          past = [];
          history = entry 0 (Open now config) r ∷ entry 1 e r ∷ entry 2 e r ∷ entry 1 e r ∷ [];
        })
        (record { name = 120 ∷ []; seat = 1; seen = []; gone = 0; mine = 1 ∷ 3 ∷ [] }
        ∷ record { name = 98 ∷ []; seat = 2; seen = []; gone = 0; mine = 2 ∷ [] } ∷ []) ≡ Some Foreign }
    ensures lost { (now : ℕ) (config : Config) (e : Event) (r : Reply) → config.name ≡ 98 ∷ []
        → close_fault (record {
          places = 2;
          limit = 9;
          summary = None;
          cut = [];
          past = [];
          history = entry 0 (Open now config) r ∷ entry 1 e r ∷ entry 2 e r ∷ entry 1 e r ∷ [];
        })
        (record { name = 98 ∷ []; seat = 1; seen = []; gone = 0; mine = [] }
        ∷ record { name = 98 ∷ []; seat = 2; seen = []; gone = 0; mine = 2 ∷ [] } ∷ []) ≡ Some (Differs 1 0) }
    ensures cut { (now : ℕ) (config : Config) (e : Event) (r : Reply) → config.name ≡ 98 ∷ []
        → close_fault (record {
          places = 2;
          limit = 9;
          summary = None;
          cut = 1 ∷ 1 ∷ [];
          past = Open now config ∷ e ∷ [];
          history = entry 2 e r ∷ entry 1 e r ∷ [];
        })
        (record { name = 98 ∷ []; seat = 1; seen = []; gone = 0; mine = 3 ∷ [] }
        ∷ record { name = 98 ∷ []; seat = 2; seen = []; gone = 0; mine = 2 ∷ [] } ∷ []) ≡ Some (Differs 1 0) }
{}
