//! The marks of pages, and the victims among them in the order of their last touches.
ghost use Rattle.std.specs.Prelude.{◌≡◌, ◌≢◌, ℕ, ◌<◌, ◌≤◌, true, false, Some, None, IfSome, IfNone, MatchOption, OnOk, OnErr};
ghost use Rattle.pageout.specs.declared.marks.Key.{Key};
ghost use Rattle.pageout.specs.Index.{AreSole, IsLeftBy, IsOnlyOther, has_frame, is_victim, victim_of};
ghost use Rattle.pageout.specs.Index.{AreSameMarks, SetsMark, SetsVictim, IsMovedOn, AreSameVictims, key_of, mark_at};
ghost use Rattle.pageout.specs.Refresh.{IsNextMark};
ghost use Rattle.pageout.specs.Work.{refreshed};

use crate::marks::{Key, Mark, Marks};
use crate::victims::Victim;
use corten_base::SpaceId;
use std::alloc::{AllocError, Global};
use std::collections::BTreeSet;

/// The mark of each page that has one, and the victims among these pages.
#[derive(Drop)]
pub(crate) struct Index {
    pub(crate) marks: Marks,
    pub(crate) order: BTreeSet<Victim>,
    ghost sole: { AreSole marks order },
}

/// A page with its last touch.
fn victim_at(key: Key, touched: u64) -> Victim
    ensures { result ≡ victim_of key touched }
{
    Victim {
        touched,
        space: key.space,
        page: key.page,
    }
}

/// Puts in a victim, if there is one.
fn admit(order: &mut BTreeSet<Victim>, victim: Option<Victim>) -> Result<(), AllocError>
    ensures ok { OnOk result (MatchOption victim (AreSameVictims order.old order.new)
        (λ v. SetsVictim order.old order.new v true)) }
    ensures err { OnErr result (AreSameVictims order.old order.new) }
{
    if let Some(victim) = victim {
        order.insert(victim)?;
    }
    Ok(())
}

/// Puts a victim in the place of another, if that one is there.
fn move_on(order: &mut BTreeSet<Victim>, from: Victim, to: Victim) -> Result<(), AllocError>
    requires { is_victim order.old to ≡ false }
    ensures ok { OnOk result (IsMovedOn order.old order.new from to) }
    ensures err { OnErr result (AreSameVictims order.old order.new) }
{
    if order.contains(&from) {
        order.insert(to)?;
        order.remove(&from);
    }
    Ok(())
}

impl Index {
    /// No marks.
    pub(crate) fn new(alloc: Global) -> Index
        ensures { (q : Key) → mark_at result.marks q ≡ None }
    {
        Index {
            marks: Marks::new(alloc),
            order: BTreeSet::new(alloc),
        }
    }

    /// Gives a mark to a page that has none, where no page has its frame.
    fn enter_alone(&mut self, key: Key, mark: Mark) -> Result<(), AllocError>
        requires absent { mark_at self.old.marks key ≡ None }
        requires alone { (q : Key) → has_frame (mark_at self.old.marks q) mark.frame ≡ false }
        ensures ok { OnOk result (SetsMark self.old.marks self.new.marks key (Some mark)) }
        ensures err { OnErr result (AreSameMarks self.old.marks self.new.marks) }
    {
        let victim = victim_at(key, mark.touched);
        self.order.insert(victim)?;
        match self.marks.put(key, mark) {
            Ok(()) => Ok(()),
            Err(_) => {
                self.order.remove(&victim);
                Err(AllocError)
            }
        }
    }

    /// Gives a mark to a page that has none, where another page has its frame.
    fn enter_beside(&mut self, key: Key, mark: Mark, other: Key) -> Result<(), AllocError>
        requires absent { mark_at self.old.marks key ≡ None }
        requires shared { has_frame (mark_at self.old.marks other) mark.frame ≡ true }
        ensures ok { OnOk result (SetsMark self.old.marks self.new.marks key (Some mark)) }
        ensures err { OnErr result (AreSameMarks self.old.marks self.new.marks) }
    {
        self.marks.put(key, mark)?;
        if let Some(first) = self.marks.get(other) {
            self.order.remove(&victim_at(other, first.touched));
        }
        Ok(())
    }

    /// Gives a mark to a page that has none.
    fn enter(&mut self, key: Key, mark: Mark) -> Result<(), AllocError>
        requires { mark_at self.old.marks key ≡ None }
        ensures ok { OnOk result (SetsMark self.old.marks self.new.marks key (Some mark)) }
        ensures err { OnErr result (AreSameMarks self.old.marks self.new.marks) }
    {
        match self.marks.owner_behind(mark.frame, None) {
            None => self.enter_alone(key, mark),
            Some(other) => self.enter_beside(key, mark, other),
        }
    }

    /// Gives a page another last touch than it has.
    fn touch(&mut self, key: Key, old: Mark, mark: Mark) -> Result<(), AllocError>
        requires old { mark_at self.old.marks key ≡ Some old }
        requires frame { old.frame ≡ mark.frame }
        requires later { old.touched ≢ mark.touched }
        ensures ok { OnOk result (SetsMark self.old.marks self.new.marks key (Some mark)) }
        ensures err { OnErr result (AreSameMarks self.old.marks self.new.marks) }
    {
        move_on(
            &mut self.order,
            victim_at(key, old.touched),
            victim_at(key, mark.touched),
        )?;
        self.marks.replace(key, mark);
        Ok(())
    }

    /// Looks at the mark of a page again that has a frame. The frame is that of its mark, if it has one.
    pub(crate) fn renew(&mut self, key: Key, mark: Mark, is_access: bool) -> Result<(), AllocError>
        requires { IfSome (mark_at self.old.marks key) (λ old. old.frame ≡ mark.frame) }
        ensures ok { OnOk result (SetsMark self.old.marks self.new.marks key
            (refreshed mark.touched is_access (mark_at self.old.marks key) (Some mark.frame))) }
        ensures err { OnErr result (AreSameMarks self.old.marks self.new.marks) }
    {
        match self.marks.get(key) {
            None => self.enter(key, mark),
            Some(old) if is_access && old.touched != mark.touched => self.touch(key, old, mark),
            Some(_) => Ok(()),
        }
    }

    /// The page that becomes a victim when another loses its frame.
    fn left_by(&self, key: Key, frame: u32) -> Option<Victim>
        ensures some { IfSome result (IsLeftBy (mark_at self.now.marks) frame key) }
        ensures none { IfNone result ((q : Key)
            → ¬ (IsOnlyOther (mark_at self.now.marks) frame key q)) }
    {
        let other = self.marks.only_other(frame, key)?;
        let mark = self.marks.get(other)?;
        Some(victim_at(other, mark.touched))
    }

    /// Takes the mark of a page.
    pub(crate) fn forget(&mut self, key: Key) -> Result<(), AllocError>
        ensures ok { OnOk result (SetsMark self.old.marks self.new.marks key None) }
        ensures err { OnErr result (AreSameMarks self.old.marks self.new.marks) }
    {
        let Some(old) = self.marks.get(key) else {
            return Ok(());
        };
        let left = self.left_by(key, old.frame);
        admit(&mut self.order, left)?;
        self.order.remove(&victim_at(key, old.touched));
        self.marks.take(key);
        Ok(())
    }

    /// The least page of a space from one on and before an end that has a mark, with its frame.
    pub(crate) fn next_in(&self, space: SpaceId, first: u64, end: u64) -> Option<(u64, u32)>
        ensures some { IfSome result (λ found. IsNextMark self.now.marks space first end found.0 found.1) }
        ensures none { IfNone result ((q : ℕ) → first ≤ q → q < end
            → mark_at self.now.marks (key_of space q) ≡ None) }
    {
        if first >= end {
            return None;
        }
        let from = Key {
            space: space.number(),
            page: first,
        };
        let Some((key, mark)) = self.marks.by_page.range(from..).next() else {
            return None;
        };
        if key.space == from.space && key.page < end {
            Some((key.page, mark.frame))
        } else {
            None
        }
    }
}
