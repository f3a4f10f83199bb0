//! Pages at which no gap of a length begins, as far as is known: so no search for one goes over them again.
ghost use Rattle.std.specs.Prelude.{◌≡◌, ◌+◌, ◌-◌, ◌<◌, ◌≤◌};
ghost use Rattle.std.specs.List.{All};
ghost use Rattle.page_map.specs.Change.{least};
ghost use Rattle.page_runs.specs.Spans.{Marks};
ghost use Rattle.page_runs.specs.Runs.{AreCrowded, HaveNoGap, is_vacant};
ghost use Rattle.page_runs.specs.Changes.{IsChange, after_change, after_changes};

use crate::change::{Change, Effect};

/// Pages at which no gap of so many pages begins.
#[derive(Clone, Copy)]
pub(crate) struct Crowd {
    pub(crate) first: u64,
    pub(crate) end: u64,
    pub(crate) count: u64,
}

impl Crowd {
    /// No pages.
    pub(crate) fn none() -> Crowd
        ensures { (m : Marks) → AreCrowded m result }
    {
        Crowd {
            first: 0,
            end: 0,
            count: 0,
        }
    }

    /// The pages of a range before its first gap of so many pages, where that is known.
    pub(crate) fn before(first: u64, end: u64, count: u64, gap: Option<u64>) -> Crowd
        requires { 0 < count }
        ensures { (m : Marks)
            → gap ≡ least first (end + 1 - (first + count)) (λ start. is_vacant m start count)
            → AreCrowded m result }
    {
        match gap {
            Some(start) => Crowd {
                first,
                end: start,
                count,
            },
            None => Crowd {
                first,
                end: end.saturating_sub(count - 1),
                count,
            },
        }
    }

    /// The first page from one on at which a gap of so many pages may begin.
    pub(crate) fn start(self, first: u64, count: u64) -> u64
        ensures low { first ≤ result }
        ensures none { (m : Marks) → AreCrowded m self → HaveNoGap m first result count }
    {
        if self.first <= first && self.count <= count {
            first.max(self.end)
        } else {
            first
        }
    }

    /// Those of the pages at which a change makes no gap begin.
    fn without(self, change: Change) -> Crowd
        requires { IsChange change }
        ensures before { (m : Marks) → AreCrowded m self → AreCrowded m result }
        ensures after { (m : Marks) → AreCrowded m self → AreCrowded (after_change m change) result }
    {
        match change.effect {
            Effect::Map(_) => self,
            Effect::Unmap => Crowd {
                first: self.first,
                end: self
                    .end
                    .min(change.first.saturating_sub(self.count.saturating_sub(1))),
                count: self.count,
            },
            Effect::Protect(_) => self,
        }
    }

    /// Those of the pages at which changes make no gap begin.
    pub(crate) fn after(self, changes: &[Change]) -> Crowd
        requires { All IsChange changes.now }
        ensures before { (m : Marks) → AreCrowded m self → AreCrowded m result }
        ensures after { (m : Marks) → AreCrowded m self
            → AreCrowded (after_changes m changes.now) result }
    {
        let mut left = self;
        for change in changes {
            left = left.without(*change);
        }
        left
    }
}
