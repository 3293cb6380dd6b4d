//! What the ticking loop works with.
//!
//! Defined in: this file.
//! Tested in: `lg_node_tests/src/node/ticking.rt`.
use left_right::Absorb;
use lg_agent::AgentName;
use lg_detector::Event;
use lg_turns::Side;
use lg_view::{Published, Update};

/// What the ticking loop works with: its side, and the dice that it throws.
#[derive(Drop)]
pub(crate) struct Ticker<'a, L, A: AgentName, D>
where
    Published<A>: Absorb<Update<A>, State = [Event; 0]>,
{
    /// Its side.
    pub(crate) side: Side<'a, L, A>,
    /// The dice.
    pub(crate) dice: D,
}
