//! The site of a node: what its status server shows, from looks at the agent.
//!
//! Defined in: `specs/Meaning/Shown.antt`, `specs/Meaning/Readings.antt`, `specs/Support/Showing.antt`,
//! `lg_answers/specs/Meaning/Answers.antt`.
//! Tested in: `lg_answers_tests/src/showing.rt`, `cases/status`.
ghost use Rattle.std.specs.Prelude.{◌≡◌, ◌⊎◌, [], List, IfErr, IfOk, MatchResult};
ghost use Rattle.std.specs.Option.{option_map};
ghost use Rattle.lg_changes.specs.Meaning.Kept.{KeepsNewest};
ghost use Rattle.lg_detector.specs.declared.event.Event.{Event as Happened};
ghost use Rattle.lg_agent.specs.declared.refusal.Refusal.TheVariants.{NoMemory, NoView};
ghost use Rattle.lg_view.specs.Meaning.Changes.{changes_of};
ghost use Rattle.lg_view.specs.Meaning.Views.{IsOverview};
ghost use Rattle.lg_follow.specs.Meaning.Sights.{OnlyLooked};
ghost use Rattle.lg_status_server.specs.Meaning.Readings.{HasRead};
ghost use Rattle.lg_status_server.specs.Meaning.Shown.{IsFirst, IsLater, IsShown};

use crate::explaining::explain;
use crate::leaving::act;
use crate::looked::{Looked, look, show};
use crate::reading::Reading;
use left_right::Absorb;
use lg_agent::{AgentName, Overview, Pass, Refusal};
use lg_answers::{Changes, ShownConfig, Snapshot, answer_to, wait_of};
use lg_clock::Clock;
use lg_counters::Counters;
use lg_detector::Event;
use lg_http::{HttpAnswer, OtherRequest, Site, Wait};
use lg_rules::Incarnation;
use lg_view::{Published, Update};
use std::alloc::{AllocError, Global};
use std::fs::Files;
use std::marker::Model;
use std::sync::atomic::AtomicBool;

/// What a site is made of besides its pass.
#[derive(Drop)]
pub struct SiteBasis<'n, C, R> {
    /// The machine, whose files are those of the recording.
    pub rt: &'n R,
    /// From it come the memory of a look and that of an answer.
    pub alloc: Global,
    /// The clock of the node, whose moments are shown.
    pub clock: &'n C,
    /// What the node counts.
    pub counters: &'n Counters,
    /// The configuration that is shown.
    pub config: ShownConfig,
    /// It is set once a request asks the node to leave and gets the answer that it leaves.
    pub stop: &'n AtomicBool,
    /// Whether the node may be asked to leave over HTTP.
    pub leave: bool,
    /// The folder of the node's recording, if it has one.
    pub folder: Option<&'n str>,
}

/// What a node shows to those who ask it over HTTP, by looks of a pass. It takes no lock. A call that
/// publishes waits only until a look has left.
///
/// It keeps the newest changes of the events that it shows. A record that changed several times between two looks has
/// several changes, each with the version and the moment of its own event.
///
/// A look that finds events that weren't shown yet allocates memory for 256 records and for a copy of the changes
/// behind those that it keeps. If that is refused, what is shown stays as it is until the next look.
#[derive(Drop)]
pub struct NodeSite<'p, 'n, A: AgentName, C, R>
where
    Published<A>: Absorb<Update<A>, State = [Event; 0]>,
{
    pass: Pass<'p, A>,
    basis: SiteBasis<'n, C, R>,
    snapshot: Snapshot,
    changes: Changes,
    /// The version of the newest change.
    changed: u64,
    /// What came of the last look.
    looked: Looked,
}

impl<'p, 'n, A: AgentName, C, R> Model for NodeSite<'p, 'n, A, C, R>
where
    Published<A>: Absorb<Update<A>, State = [Event; 0]>,
{
    ghost use Rattle.std.specs.Option.{option_map};
    ghost use Rattle.lg_status_server.specs.Meaning.Shown.{SiteValue};
    ghost use Rattle.lg_status_server.specs.Support.Showing.{IsSite};

    ghost Value = { SiteValue };

    ghost view = { λ s. record {
      pass = s.pass;
      name = s.basis.counters.now.name;
      snapshot = s.snapshot;
      changes = s.changes;
      config = s.basis.config;
      leave = s.basis.leave;
      folder = option_map (λ f. f.now) s.basis.folder;
      changed = s.changed;
      looked = s.looked;
    } };

    ghost invariant = { λ s. IsSite record {
      pass = s.pass;
      name = s.basis.counters.now.name;
      snapshot = s.snapshot;
      changes = s.changes;
      config = s.basis.config;
      leave = s.basis.leave;
      folder = option_map (λ f. f.now) s.basis.folder;
      changed = s.changed;
      looked = s.looked;
    } };
}

/// What a site shows after its first look, which was asked for all changes: it keeps the newest of them.
#[tactic(auto, using(crate::proofs::ShownLaws::shown_first))]
fn first_shown<C: Clock, R>(
    basis: &SiteBasis<'_, C, R>,
    found: Overview,
) -> Result<(Snapshot, Changes), AllocError>
    ensures shown { IfOk result (λ made. (events : List Happened) → IsOverview found 0 events
        → IsShown made.0 basis.now.counters.now.name events) }
    ensures kept { IfOk result (λ made. (events : List Happened) → IsOverview found 0 events
        → KeepsNewest made.1 (changes_of events)) }
{
    let reading = Reading::of(basis.clock, basis.counters);
    let mut snapshot = blank(basis.alloc, basis.counters, &reading)?;
    let mut changes = Changes::new(basis.alloc)?;
    show(&mut snapshot, &mut changes, found);
    Ok((snapshot, changes))
}

/// A snapshot that shows no member yet.
fn blank(alloc: Global, counters: &Counters, reading: &Reading) -> Result<Snapshot, AllocError>
    ensures records { IfOk result (λ s. s.records.items ≡ []) }
    ensures named { IfOk result (λ s. s.name ≡ counters.now.name) }
    ensures read { IfOk result (λ s. HasRead s reading.now) }
{
    Ok(Snapshot {
        version: 0,
        moment: reading.moment,
        name: counters.name(),
        records: Vec::new(alloc),
        score: 0,
        incarnation: Incarnation::default(),
        ousted: false,
        uptime_ms: reading.uptime_ms(),
        stood_still_ms: reading.stood_still_ms,
        last_event_ms: reading.last_event_ms,
        counts: reading.counts,
        dropped: Vec::from_array(alloc, counters.drops())?,
    })
}

impl<'p, 'n, A: AgentName, C: Clock, R> NodeSite<'p, 'n, A, C, R> {
    /// A site over a pass, after its first look. Allocates memory for 256 records, for 1,024 changes and a copy of
    /// those that the agent keeps, and for a row for each fault. Refused as [`Pass::overview`] is, and then gives the
    /// pass back.
    pub fn new(
        pass: Pass<'p, A>,
        basis: SiteBasis<'n, C, R>,
    ) -> Result<NodeSite<'p, 'n, A, C, R>, (Refusal, Pass<'p, A>)>
        ensures looked { MatchResult result (λ site. OnlyLooked pass.entry site.pass)
            (λ refused. OnlyLooked pass.entry refused.1) }
        ensures refusal { IfErr result (λ refused. (refused.0 ≡ NoMemory) ⊎ (refused.0 ≡ NoView)) }
        ensures first { IfOk result (λ site. IsFirst site basis.entry.counters.now.name basis.entry.config
            basis.entry.leave (option_map (λ f. f.now) basis.entry.folder)) }
    {
        let mut pass = pass;
        let found = match pass.overview(basis.alloc, 0) {
            Ok(found) => found,
            Err(refusal) => return Err((refusal, pass)),
        };
        let Ok((snapshot, changes)) = first_shown(&basis, found) else {
            return Err((Refusal::NoMemory, pass));
        };
        let changed = changes.last_version();
        Ok(NodeSite {
            pass,
            basis,
            snapshot,
            changes,
            changed,
            looked: Looked::Taken,
        })
    }

    /// Looks, and shows what it finds and what the node counts. If the look is refused, the members that are shown stay
    /// as they are.
    fn bring_up_to_date(&mut self)
        ensures { IsLater self.old self.new }
    {
        self.looked = look(
            &mut self.pass,
            self.basis.alloc,
            &mut self.snapshot,
            &mut self.changes,
        );
        self.changed = self.changes.last_version();
        let reading = Reading::of(self.basis.clock, self.basis.counters);
        let drops = self.basis.counters.drops();
        reading.put(&drops, &mut self.snapshot);
    }

    /// Ends the site, and gives its pass.
    pub fn finish(self) -> Pass<'p, A>
        ensures { result ≡ self.entry.pass }
    {
        let NodeSite { pass, .. } = self;
        pass
    }
}

impl<'p, 'n, A, C, R> Site for NodeSite<'p, 'n, A, C, R>
where
    A: AgentName,
    C: Clock,
    R: Files + AllocGlobal + Clone + Drop,
{
    ghost use Rattle.lg_status_server.specs.Meaning.Shown.{IsActOf, IsAnswerOf, IsLater};
    ghost use Rattle.lg_answers.specs.Meaning.Routes.{wait_of};
    ghost use Rattle.lg_status_server.specs.Support.Later.{later_itself, later_on};

    ghost answers = { λ site path query answer. IsAnswerOf site path query answer };

    ghost acts = { λ site asked answer. IsActOf site asked answer };

    ghost version = { λ site. site.changed };

    ghost waits = { λ path query wait. wait ≡ wait_of path query };

    ghost later = { λ before after. IsLater before after };

    ghost order = { record { same = later_itself; both = later_on } };

    fn refresh(&mut self) -> u64 {
        self.bring_up_to_date();
        self.changed
    }

    fn wait_of(&self, path: &[u8], query: Option<&[u8]>) -> Option<Wait> {
        wait_of(path, query)
    }

    fn answer(
        &self,
        alloc: Global,
        path: &[u8],
        query: Option<&[u8]>,
    ) -> Result<HttpAnswer, AllocError> {
        let explained = explain(self.basis.rt, alloc, self.basis.folder, path, query)?;
        if let Some(answer) = explained {
            return Ok(answer);
        }
        answer_to(
            alloc,
            &self.snapshot,
            &self.changes,
            &self.basis.config,
            path,
            query,
        )
    }

    fn act(
        &self,
        alloc: Global,
        asked: &OtherRequest<'_>,
    ) -> Result<Option<HttpAnswer>, AllocError> {
        act(
            alloc,
            &self.basis.counters.name(),
            self.basis.leave,
            asked,
            self.basis.stop,
        )
    }
}
