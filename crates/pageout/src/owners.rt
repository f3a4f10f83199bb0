//! Marks that are put in, looked up and taken, and the owners of frames.
ghost use Rattle.std.specs.Prelude.{◌≡◌, true, false, Some, None, IfSome, IfNone, OnOk, OnErr};
ghost use Rattle.pageout.specs.declared.marks.Key.{Key};
ghost use Rattle.pageout.specs.Index.{AreSameMarks, SetsMark, has_frame, mark_at};
ghost use Rattle.pageout.specs.Index.{IsBehind, IsNextOther, IsNextOwner, IsOnlyOther, first_behind};

use crate::marks::{Key, Mark, Marks, Owner};
use std::alloc::{AllocError, Global};
use std::collections::{BTreeMap, BTreeSet};
use std::ops::Bound;

/// Where the owners of a frame begin, or those behind a page.
fn first_behind(frame: u32, behind: Option<Key>) -> Bound<Owner>
    ensures { result ≡ first_behind frame behind }
{
    match behind {
        Some(key) => Bound::Excluded(Owner { frame, key }),
        None => Bound::Included(Owner {
            frame,
            key: Key { space: 0, page: 0 },
        }),
    }
}

impl Marks {
    /// No marks.
    pub(crate) fn new(alloc: Global) -> Marks
        ensures { (q : Key) → mark_at result q ≡ None }
    {
        Marks {
            by_page: BTreeMap::new(alloc),
            by_frame: BTreeSet::new(alloc),
        }
    }

    /// The mark of a page.
    pub(crate) fn get(&self, key: Key) -> Option<Mark>
        ensures { result ≡ mark_at self.now key }
    {
        self.by_page.get(&key).copied()
    }

    /// Gives a mark to a page that has none.
    pub(crate) fn put(&mut self, key: Key, mark: Mark) -> Result<(), AllocError>
        requires { mark_at self.old key ≡ None }
        ensures ok { OnOk result (SetsMark self.old self.new key (Some mark)) }
        ensures err { OnErr result (AreSameMarks self.old self.new) }
    {
        let owner = Owner {
            frame: mark.frame,
            key,
        };
        self.by_frame.insert(owner)?;
        match self.by_page.insert(key, mark) {
            Ok(_) => Ok(()),
            Err(_) => {
                self.by_frame.remove(&owner);
                Err(AllocError)
            }
        }
    }

    /// Gives another mark to a page that has one with the same frame.
    pub(crate) fn replace(&mut self, key: Key, mark: Mark)
        requires { has_frame (mark_at self.old key) mark.frame ≡ true }
        ensures { SetsMark self.old self.new key (Some mark) }
    {
        // A key that is there takes no memory.
        let _ = self.by_page.insert(key, mark);
    }

    /// Takes the mark of a page.
    pub(crate) fn take(&mut self, key: Key)
        ensures { SetsMark self.old self.new key None }
    {
        if let Some(old) = self.by_page.remove(&key) {
            self.by_frame.remove(&Owner {
                frame: old.frame,
                key,
            });
        }
    }

    /// The least owner of a frame, or the least behind a page.
    pub(crate) fn owner_behind(&self, frame: u32, behind: Option<Key>) -> Option<Key>
        ensures some { IfSome result (IsNextOwner (mark_at self.now) frame behind) }
        ensures none { IfNone result ((q : Key) → IsBehind behind q
            → has_frame (mark_at self.now q) frame ≡ false) }
    {
        let range = (first_behind(frame, behind), Bound::Unbounded);
        let Some(owner) = self.by_frame.range(range).next() else {
            return None;
        };
        if owner.frame == frame {
            Some(owner.key)
        } else {
            None
        }
    }

    /// The same, but for one page.
    fn other_behind(&self, frame: u32, but: Key, behind: Option<Key>) -> Option<Key>
        ensures some { IfSome result (IsNextOther (mark_at self.now) frame but behind) }
        ensures none { IfNone result ((q : Key) → IsBehind behind q
            → has_frame (mark_at self.now q) frame ≡ true → q ≡ but) }
    {
        match self.owner_behind(frame, behind) {
            Some(key) if key == but => self.owner_behind(frame, Some(but)),
            found => found,
        }
    }

    /// The owner of a frame beside one page, if there is exactly one.
    pub(crate) fn only_other(&self, frame: u32, but: Key) -> Option<Key>
        ensures some { IfSome result (IsOnlyOther (mark_at self.now) frame but) }
        ensures none { IfNone result ((q : Key) → ¬ (IsOnlyOther (mark_at self.now) frame but q)) }
    {
        let other = self.other_behind(frame, but, None)?;
        match self.other_behind(frame, but, Some(other)) {
            None => Some(other),
            Some(_) => None,
        }
    }
}
