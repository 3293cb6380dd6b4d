//! The fixed paths that a node answers, in one table. The paths with the name of a member aren't among them.
//!
//! Defined in: `specs/Meaning/Places.antt`.
//! Tested in: `lg_answers_tests/src/route.rt`.
ghost use Rattle.std.specs.Prelude.{◌≡◌};
ghost use Rattle.std.specs.Option.{option_map};
ghost use Rattle.lg_answers.specs.Meaning.Places.{explained_name, has_path, member_name, place_at, place_path};

/// The front of a single member's path: a name follows it.
const MEMBERS: &[u8] = b"/v1/members/";

/// The front of the path of what the recording tells of a member: the name follows it.
const EXPLAIN: &[u8] = b"/v1/explain/";

/// A fixed path that a node answers.
#[derive(Clone, Copy, Debug, PartialEq, Eq)]
pub(crate) enum Place {
    /// `/`.
    Page,
    /// `/v1/members`.
    Members,
    /// `/v1/health`.
    Health,
    /// `/v1/changes`.
    Changes,
    /// `/v1/config`.
    Config,
    /// `/metrics`.
    Metrics,
    /// `/v1/prometheus`.
    Targets,
    /// `/v1/leave`.
    Leave,
}

/// All of them.
const PLACES: [Place; 8] = [
    Place::Page,
    Place::Members,
    Place::Health,
    Place::Changes,
    Place::Config,
    Place::Metrics,
    Place::Targets,
    Place::Leave,
];

impl Place {
    /// The path.
    fn path(self) -> &'static str
        ensures { result.now ≡ place_path self }
    {
        match self {
            Place::Page => "/",
            Place::Members => "/v1/members",
            Place::Health => "/v1/health",
            Place::Changes => "/v1/changes",
            Place::Config => "/v1/config",
            Place::Metrics => "/metrics",
            Place::Targets => "/v1/prometheus",
            Place::Leave => "/v1/leave",
        }
    }

    /// Whether these bytes are the path.
    fn has_path(self, path: &[u8]) -> bool
        ensures { result ≡ has_path path.now self }
    {
        path == self.path().as_bytes()
    }

    /// The place with a path. None if there is none.
    pub(crate) fn at(path: &[u8]) -> Option<Place>
        ensures { result ≡ place_at path.now }
    {
        PLACES.iter().copied().find(|place| place.has_path(path))
    }
}

/// What stands in a path where the name of a member stands: what is behind `/v1/members/`. None if the path doesn't
/// begin so.
pub(crate) fn member_name(path: &[u8]) -> Option<&[u8]>
    ensures { option_map (λ name. name.now) result ≡ member_name path.now }
{
    path.strip_prefix(MEMBERS)
}

/// The same of a path of what the recording tells of a member: what is behind `/v1/explain/`.
pub(crate) fn explained_name(path: &[u8]) -> Option<&[u8]>
    ensures { option_map (λ name. name.now) result ≡ explained_name path.now }
{
    path.strip_prefix(EXPLAIN)
}
