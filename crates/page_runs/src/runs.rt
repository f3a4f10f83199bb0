//! What stands at each page of a space.
ghost use Rattle.std.specs.Prelude.{◌≡◌, ◌+◌, ◌-◌, ◌^◌, ◌<◌, ◌≤◌, ◌↔◌, IsTrue, Some, None, IfOk, IfSome, IfNone, OnOk, OnErr, IsSome, is_some, is_none};
ghost use Rattle.std.specs.List.{All};
ghost use Rattle.std.specs.FinMap as map;
ghost use Rattle.page_map.specs.Change.{least};
ghost use Rattle.page_runs.specs.Mark.{index_of};
ghost use Rattle.page_runs.specs.Spans.{mapped, protected, unmapped};
ghost use Rattle.page_runs.specs.Changes.{IsChange, after_changes};
ghost use Rattle.page_runs.specs.Starts.{IsStart};
ghost use Rattle.page_runs.specs.Runs.{AreAlike, IsFullFrom, IsPart, HasNone, IsStretch, is_vacant};

use crate::change::{Change, Effect};
use crate::crowds::Crowd;
use crate::mark::Mark;
use crate::spans::{Spans, first_marked, rest_at};
use crate::{changes, gaps, starts};
use corten_base::Perm;
use std::alloc::{AllocError, Global};
use std::collections::BTreeMap;
use std::marker::Model;

/// Pages that go on from one another.
#[derive(Clone, Copy, PartialEq, Eq, Debug)]
pub struct Run {
    /// The first page.
    pub first: u64,
    /// How many pages there are.
    pub count: u64,
    /// What stands at the first page.
    pub mark: Mark,
}

/// What stands at each page of a space, where something does.
#[derive(Drop)]
pub struct PageRuns {
    spans: Spans,
    crowd: Crowd,
}

impl Model for PageRuns {
    ghost use Rattle.std.specs.Ordering.{nat_cmp};
    ghost use Rattle.std.specs.FinMap as map;
    ghost use Rattle.std.specs.Coded.{coded_ℕ};
    ghost use Rattle.page_runs.specs.declared.mark.Mark.{Mark};
    ghost use Rattle.page_runs.specs.contracts.mark.Mark as mark;

    ghost Value = { map.FinMap nat_cmp Mark };

    ghost coded = { map.code coded_ℕ mark.the_row.coded };

    ghost use Rattle.page_runs.specs.Spans.{marks};
    ghost use Rattle.page_runs.specs.Runs.{AreKept};

    ghost view = { λ a. marks a.spans };

    ghost invariant = { λ a. AreKept a.spans a.crowd };
}

impl PageRuns {
    /// No marks.
    pub fn new(alloc: Global) -> Self
        ensures { result ≡ map.empty }
    {
        Self {
            spans: BTreeMap::new(alloc),
            crowd: Crowd::none(),
        }
    }

    /// What stands at a page.
    pub fn get(&self, page: u64) -> Option<Mark>
        ensures { result ≡ map.get self.now page }
    {
        match rest_at(&self.spans, page) {
            Some(rest) => Some(rest.mark),
            None => None,
        }
    }

    /// The first pages of a range that have marks, as far as they are in one run.
    pub fn part(&self, first: u64, end: u64) -> Option<Run>
        requires { first ≤ end }
        ensures some { IfSome result (IsPart self.now first end) }
        ensures none { IfNone result (HasNone self.now first end) }
    {
        if end <= first {
            return None;
        }
        if let Some(rest) = rest_at(&self.spans, first) {
            return Some(Run {
                first,
                count: rest.count.min(end - first),
                mark: rest.mark,
            });
        }
        let Some(next) = first_marked(&self.spans, first, end) else {
            return None;
        };
        Some(Run {
            first: next.first,
            count: next.count.min(end - next.first),
            mark: next.mark,
        })
    }

    /// The least page of a range that has a mark.
    pub fn next(&self, first: u64, end: u64) -> Option<u64>
        requires { first ≤ end }
        ensures { result ≡ least first (end - first) (λ page. is_some (map.get self.now page)) }
    {
        match self.part(first, end) {
            Some(run) => Some(run.first),
            None => None,
        }
    }

    /// The least page of a range that has no mark.
    pub fn hole(&self, first: u64, end: u64) -> Option<u64>
        requires { first ≤ end }
        ensures { result ≡ least first (end - first) (λ page. is_none (map.get self.now page)) }
    {
        let mut next = first;
        while let Some(run) = self.part(next, end) {
            if next < run.first {
                return Some(next);
            }
            next = run.first + run.count;
        }
        if next < end { Some(next) } else { None }
    }

    /// The least page of a range from which on so many pages of the range have no mark.
    pub fn gap(&self, first: u64, end: u64, count: u64) -> Option<u64>
        requires range { first ≤ end }
        requires some { 0 < count }
        ensures { result ≡ least first (end + 1 - (first + count)) (λ start. is_vacant self.now start count) }
    {
        let start = self.crowd.start(first, count).min(end);
        gaps::gap(&self.spans, start, end, count)
    }

    /// Notes where the first gap of so many pages of a range begins, so that no search goes over the pages before it again.
    pub fn note_gap(&mut self, first: u64, end: u64, count: u64)
        requires range { first ≤ end }
        requires some { 0 < count }
        ensures { self.new ≡ self.old }
    {
        let gap = self.gap(first, end, count);
        self.crowd = Crowd::before(first, end, count, gap);
    }

    /// How many pages of a range go on from its first one: without marks after one without, whatever runs they are in.
    pub fn stretch(&self, first: u64, end: u64) -> u64
        requires { first < end }
        ensures { IsStretch self.now first end result }
    {
        let Some(run) = self.part(first, end) else {
            return end - first;
        };
        if first < run.first {
            return run.first - first;
        }
        let mut count = run.count;
        while let Some(next) = self.part(first + count, end) {
            if first + count < next.first || !run.mark.continues(count, next.mark) {
                return count;
            }
            count += next.count;
        }
        count
    }

    /// The least page from `low` on from which on the pages go on from one another up to a page, which has a mark,
    /// whatever runs they are in.
    pub fn start(&self, low: u64, page: u64) -> u64
        requires range { low ≤ page }
        requires some { IsSome (map.get self.now page) }
        ensures { IsStart self.now low page result }
    {
        starts::start(&self.spans, low, page)
    }

    /// How many pages of a range from its first one on have marks, up to the first that has none.
    pub fn full_from(&self, first: u64, end: u64) -> u64
        requires { first ≤ end }
        ensures { IsFullFrom self.now first end result }
    {
        match self.hole(first, end) {
            Some(hole) => hole - first,
            None => end - first,
        }
    }

    /// Whether all pages of a range go on from its first one: without marks after one without.
    pub fn is_alike(&self, first: u64, end: u64) -> bool
        requires { first < end }
        ensures { IsTrue result ↔ AreAlike self.now first (end - first) }
    {
        self.stretch(first, end) == end - first
    }

    /// Makes changes one after the other, all or none: a range may have pages of one before it.
    pub fn apply(&mut self, changes: &[Change]) -> Result<(), AllocError>
        requires { All IsChange changes.now }
        ensures ok { OnOk result (self.new ≡ after_changes self.old changes.now) }
        ensures err { OnErr result (self.new ≡ self.old) }
    {
        self.crowd = self.crowd.after(changes);
        changes::apply(&mut self.spans, changes)
    }

    /// Puts marks that go on from one another in the place of what was there.
    pub fn replace(&mut self, run: Run) -> Result<(), AllocError>
        requires some { 0 < run.count }
        requires pages { run.first + run.count < 2 ^ 64 }
        requires indexes { index_of run.mark.backing + run.count < 2 ^ 64 }
        ensures ok { OnOk result (self.new ≡ mapped self.old run.first run.count run.mark) }
        ensures err { OnErr result (self.new ≡ self.old) }
    {
        self.apply(&[Change {
            first: run.first,
            count: run.count,
            effect: Effect::Map(run.mark),
        }])
    }

    /// Takes the marks of a range out.
    pub fn remove(&mut self, first: u64, count: u64) -> Result<(), AllocError>
        requires { first + count < 2 ^ 64 }
        ensures ok { OnOk result (self.new ≡ unmapped self.old first count) }
        ensures err { OnErr result (self.new ≡ self.old) }
    {
        self.apply(&[Change {
            first,
            count,
            effect: Effect::Unmap,
        }])
    }

    /// Gives the marks of a range other permissions.
    pub fn protect(&mut self, first: u64, count: u64, perm: Perm) -> Result<(), AllocError>
        requires { first + count < 2 ^ 64 }
        ensures ok { OnOk result (self.new ≡ protected self.old first count perm) }
        ensures err { OnErr result (self.new ≡ self.old) }
    {
        self.apply(&[Change {
            first,
            count,
            effect: Effect::Protect(perm),
        }])
    }

    /// The same marks once more.
    pub fn copy(&self) -> Result<PageRuns, AllocError>
        ensures { IfOk result (λ copy. copy ≡ self.now) }
    {
        Ok(PageRuns {
            spans: self.spans.clone()?,
            crowd: self.crowd,
        })
    }
}
