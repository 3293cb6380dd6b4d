//! What a watcher keeps from turn to turn, and one turn.
//!
//! Defined in: `specs/Meaning/Sights.antt`, `specs/Support/Telling.antt`.
//! Tested in: `lg_node_tests/src/watching.rt`.
ghost use Rattle.std.specs.Prelude.{◌≡◌, ◌⊎◌, ◌≤◌, ℕ, List, length, unwrap_or, Option, Some, None};
ghost use Rattle.std.specs.Prelude.{MatchOption, MatchResult, OnErr, OnOk};
ghost use Rattle.std.specs.Io.KnownBytes.{Appends};
ghost use Rattle.lg_text.specs.Meaning.Running.{AppendsFront};
ghost use Rattle.lg_view.specs.Meaning.Views.{IsOverview};
ghost use Rattle.lg_agent.specs.declared.refusal.Refusal.TheVariants.{NoMemory, NoView};
ghost use Rattle.lg_agent.specs.Meaning.Values.{PassValue};
ghost use Rattle.lg_agent.specs.Meaning.Calls.{IsLook};
ghost use Rattle.lg_follow.specs.Meaning.Sights.{OnlyLooked};
ghost use Rattle.lg_follow.specs.Support.Telling.{found_text, Telling, TurnedAs, ToldAs};

use crate::lines::put_found;
use crate::watched::Watched;
use lg_agent::{AgentName, Pass, Refusal};
use lg_text::{WriteFault, write_whole};
use lg_view::Overview;
use std::alloc::Global;
use std::io::Write;

/// What a watcher keeps from turn to turn.
#[derive(Drop)]
pub(crate) struct Watcher {
    /// How many events were told of; none before the first are.
    version: Option<u64>,
    /// The text of a look, whose memory is used again.
    text: Vec<u8>,
}

/// Looks whether there are more events than were told of, and only then at the records and the changes behind those.
fn look<A: AgentName>(
    alloc: Global,
    pass: &mut Pass<'_, A>,
    version: Option<u64>,
) -> Result<Option<Overview>, Refusal>
    ensures { MatchResult result
        (λ found. IsLook pass.old pass.new × MatchOption found
        ((n : ℕ) × (version ≡ Some n) × (length pass.new.seen ≤ n))
        (λ f. IsOverview f (unwrap_or version 0) pass.new.seen))
        (λ e. ((e ≡ NoMemory) ⊎ (e ≡ NoView)) × OnlyLooked pass.old pass.new) }
{
    let here = pass.version()?;
    match version {
        Some(told) if here <= told => Ok(None),
        _ => {
            let found = pass.overview(alloc, version.unwrap_or(0))?;
            Ok(Some(found))
        }
    }
}

/// Writes a text whole, unless it is empty.
fn write_some<W: Write>(writer: &mut W, text: &[u8]) -> Result<(), WriteFault>
    ensures written { OnOk result (Appends (W.contents writer.old) (W.contents writer.new) text.now) }
    ensures partly { OnErr result (AppendsFront (W.contents writer.old) (W.contents writer.new) text.now) }
{
    if text.is_empty() {
        return Ok(());
    }
    write_whole(writer, text)
}

impl Watcher {
    /// A watcher that has told nothing. Allocates nothing.
    pub(crate) fn new(alloc: Global) -> Watcher
        ensures { result.version ≡ None }
    {
        Watcher {
            version: None,
            text: Vec::new(alloc),
        }
    }

    /// Writes the lines of what a look found, and keeps how many events these are of. The whole text is made before its
    /// first byte is written.
    fn tell<W: Write>(&mut self, found: &Overview, writer: &mut W) -> Watched
        ensures { ToldAs result (found_text self.old.version found.now)
            (W.contents writer.old) (W.contents writer.new) self.old.version self.new.version found.now.version }
    {
        self.text.clear();
        if put_found(self.version, found, &mut self.text).is_err() {
            return Watched::Refused(Refusal::NoMemory);
        }
        if write_some(writer, &self.text).is_err() {
            return Watched::WriterFailed;
        }
        self.version = Some(found.version);
        Watched::Told
    }

    /// One turn: looks whether there are events that weren't told of, and tells what they changed.
    pub(crate) fn turn<A: AgentName, W: Write>(
        &mut self,
        alloc: Global,
        pass: &mut Pass<'_, A>,
        writer: &mut W,
    ) -> Watched
        ensures { (begin : PassValue) → (held : Option (List ℕ))
            → Telling begin pass.old held (W.contents writer.old) self.old.version
            → TurnedAs result begin pass.new held (W.contents writer.new) self.new.version }
    {
        match look(alloc, pass, self.version) {
            Ok(Some(found)) => self.tell(&found, writer),
            Ok(None) => Watched::Told,
            Err(refusal) => Watched::Refused(refusal),
        }
    }
}
