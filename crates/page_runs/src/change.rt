//! Changes of what stands at the pages of one range.
ghost use Rattle.std.specs.Prelude.{◌≡◌, ◌+◌, ◌^◌, ◌<◌};
ghost use Rattle.page_runs.specs.Changes.{index_in, made};

use crate::mark::Mark;
use corten_base::Perm;

/// What a change makes of the pages of its range.
#[derive(Clone, Copy, PartialEq, Eq, Debug)]
pub enum Effect {
    /// Marks that go on from this one at the first page, in the place of what was there.
    Map(Mark),
    /// No marks.
    Unmap,
    /// Other permissions, where there are marks.
    Protect(Perm),
}

/// A change of the pages of one range.
#[derive(Clone, Copy, PartialEq, Eq, Debug)]
pub struct Change {
    /// The first page.
    pub first: u64,
    /// How many pages there are.
    pub count: u64,
    /// What is made of them.
    pub effect: Effect,
}

impl Effect {
    /// What is made of a page that stands so many pages after the first one.
    pub(crate) fn made(self, place: u64, old: Option<Mark>) -> Option<Mark>
        requires { index_in self + place < 2 ^ 64 }
        ensures { result ≡ made self place old }
    {
        match self {
            Effect::Map(mark) => Some(mark.after(place)),
            Effect::Unmap => None,
            Effect::Protect(perm) => old.map(|mark| mark.with_perm(perm)),
        }
    }
}
