//! What stands at a page of a mapping.
ghost use Rattle.std.specs.Prelude.{◌≡◌, ◌+◌, ◌^◌, ◌<◌, ◌↔◌, IsTrue};
ghost use Rattle.page_runs.specs.Mark.{backing_after, first_index, goes_on, index_of, onward, with_perm};

use corten_base::{Backing, Perm};

/// What stands at a page of a mapping: its permissions, and what it came from.
#[derive(Clone, Copy, PartialEq, Eq, Debug)]
pub struct Mark {
    /// The page's permissions.
    pub perm: Perm,
    /// What the page came from.
    pub backing: Backing,
}

/// Whether permissions are the same.
fn is_same_perm(a: Perm, b: Perm) -> bool
    ensures { IsTrue result ↔ (a ≡ b) }
{
    a == b
}

/// Whether one backing goes on from another so many pages further.
fn backing_continues(first: Backing, pages: u64, later: Backing) -> bool
    ensures { IsTrue result ↔ (backing_after first pages ≡ later) }
{
    match (first, later) {
        (Backing::Zero, Backing::Zero) => true,
        (
            Backing::File { file, index },
            Backing::File {
                file: other,
                index: at,
            },
        ) => { file == other && index <= at && at - index == pages }
        _ => false,
    }
}

impl Mark {
    /// Whether another mark goes on from this one so many pages further.
    pub fn continues(self, pages: u64, later: Mark) -> bool
        ensures { IsTrue result ↔ (goes_on self pages ≡ later) }
    {
        is_same_perm(self.perm, later.perm) && backing_continues(self.backing, pages, later.backing)
    }

    /// The mark that goes on from this one so many pages further.
    pub fn after(self, pages: u64) -> Mark
        requires { index_of self.backing + pages < 2 ^ 64 }
        ensures { result ≡ goes_on self pages }
    {
        let backing = match self.backing {
            Backing::Zero => Backing::Zero,
            Backing::File { file, index } => Backing::File {
                file,
                index: index + pages,
            },
        };
        Mark {
            perm: self.perm,
            backing,
        }
    }

    /// The same page with other permissions.
    pub fn with_perm(self, perm: Perm) -> Mark
        ensures { result ≡ with_perm perm self }
    {
        Mark {
            perm,
            backing: self.backing,
        }
    }
}

/// The mark that goes on so many pages further, where there is one.
pub(crate) fn onward(mark: Option<Mark>, pages: u64) -> Option<Mark>
    requires { first_index mark + pages < 2 ^ 64 }
    ensures { result ≡ onward mark pages }
{
    match mark {
        Some(mark) => Some(mark.after(pages)),
        None => None,
    }
}

/// Whether what stands so many pages further goes on: a mark that goes on from this one, or none after none.
pub(crate) fn is_onward(mark: Option<Mark>, pages: u64, later: Option<Mark>) -> bool
    ensures { IsTrue result ↔ (onward mark pages ≡ later) }
{
    match (mark, later) {
        (Some(mark), Some(later)) => mark.continues(pages, later),
        (None, None) => true,
        _ => false,
    }
}
