//! What is known of a host, by the answers of a resolver.
//!
//! Defined in: `specs/Meaning/Answers.antt`, `specs/Meaning/Lines.antt`.
//! Tested in: `lg_command_tests/src/resolving.rt`.
ghost use Rattle.std.specs.Prelude.{◌≡◌, ◌++◌, ◌∷◌, [], List};
ghost use Rattle.lg_resolve.specs.Meaning.Answers.{found_of, news_of, Found, IsAfter};

use crate::resolver::MAX_OF_HOST;
use arrayvec::ArrayVec;
use lg_config::Host;
use lg_rules::Addr;

/// A host, and what is known of it.
#[derive(Debug, Default, Drop)]
pub(crate) struct KnownHost {
    /// The host.
    pub(crate) host: Host,
    /// The addresses that it was found to have the last time that it resolved. There are none before that.
    pub(crate) addrs: ArrayVec<Addr, MAX_OF_HOST>,
    /// Whether it didn't resolve the last time.
    pub(crate) fails: bool,
}

/// What is told of a host.
#[derive(Clone, Copy, Debug, PartialEq, Eq)]
pub(crate) enum HostNews {
    /// Its name doesn't resolve, and it did before, or wasn't resolved before.
    Fails,
    /// Its name resolves again.
    Resolves,
}

impl KnownHost {
    /// A host of which nothing was answered.
    pub(crate) fn new(host: Host) -> KnownHost
        ensures host { result.host ≡ host }
        ensures after { IsAfter [] result }
    {
        KnownHost {
            host,
            addrs: ArrayVec::new(),
            fails: false,
        }
    }

    /// What is to be told if this is answered next.
    pub(crate) fn news(&self, found: &Option<ArrayVec<Addr, MAX_OF_HOST>>) -> Option<HostNews>
        ensures { (answers : List Found) → IsAfter answers self.now → result ≡ news_of answers (found_of found.now) }
    {
        match (found, self.fails) {
            (None, false) => Some(HostNews::Fails),
            (Some(_), true) => Some(HostNews::Resolves),
            (None, true) | (Some(_), false) => None,
        }
    }

    /// What is known of the host after one more answer. If it says that the host doesn't resolve, the addresses that
    /// were found before stay.
    pub(crate) fn after(&self, found: Option<ArrayVec<Addr, MAX_OF_HOST>>) -> KnownHost
        ensures host { result.host ≡ self.now.host }
        ensures after { (answers : List Found) → IsAfter answers self.now
            → IsAfter (answers ++ found_of found ∷ []) result }
    {
        match found {
            Some(addrs) => KnownHost {
                host: self.host,
                addrs,
                fails: false,
            },
            None => {
                let mut addrs = ArrayVec::new();
                addrs.try_extend_from_slice(&self.addrs).unwrap();
                KnownHost {
                    host: self.host,
                    addrs,
                    fails: true,
                }
            }
        }
    }
}
