//! What the server shows: one page.
ghost use Rattle.std.specs.Prelude.{⊤};

use lg_http::{HttpAnswer, HttpStatus, Kind, OtherRequest, Site, Wait};
use std::alloc::{AllocError, Global};

/// It has a page, which never changes.
#[derive(Drop)]
pub(crate) struct Page;

impl Site for Page {
    ghost answers = { λ site path query answer. ⊤ };

    ghost acts = { λ site asked answer. ⊤ };

    ghost version = { λ site. 0 };

    ghost later = { λ first second. ⊤ };

    ghost waits = { λ path query wait. ⊤ };

    ghost order = { record { same = λ _. tt; both = λ _ _ _ _ _. tt } };

    fn refresh(&mut self) -> u64 {
        0
    }

    fn wait_of(&self, _path: &[u8], _query: Option<&[u8]>) -> Option<Wait> {
        None
    }

    fn answer(
        &self,
        alloc: Global,
        _path: &[u8],
        _query: Option<&[u8]>,
    ) -> Result<HttpAnswer, AllocError> {
        Ok(HttpAnswer {
            status: HttpStatus::Fine,
            kind: Kind::Html,
            body: Vec::from_slice(alloc, b"<p>page</p>")?,
        })
    }

    fn act(
        &self,
        _alloc: Global,
        _asked: &OtherRequest<'_>,
    ) -> Result<Option<HttpAnswer>, AllocError> {
        Ok(None)
    }
}
