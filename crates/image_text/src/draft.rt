//! An image whose lines are being read.
ghost use Rattle.std.specs.Prelude.{◌≡◌, ◌↔◌, [], IsTrue, IfOk, OnOk, OnErr};
ghost use Rattle.std.specs.Bool.{OnTrue, OnFalse};
ghost use Rattle.mm_script.specs.CallLine.{IsWithin};
ghost use Rattle.mm_script.specs.ScriptText.{AreLimits};
ghost use Rattle.image_text.specs.Images.{IsImage, MayFollow};
ghost use Rattle.image_text.specs.Reading.{IsSpelled, IsPlaced, IsNextFile, NoFileHere, IsNextItem, IsAdded, IsNoLine};

use crate::bounds::{are_user_pages, is_backed};
use crate::image::{Image, Item};
use crate::items::read_item;
use crate::order::is_next;
use crate::tally::Tally;
use corten_base::Limits;
use file_shelf::{MAX_FILES, Shelf};
use mm_script::{add_file, file_of};
use std::alloc::{AllocError, Global};
use std::marker::Model;

/// What was read of an image so far, and what is counted of its items.
#[derive(Drop)]
pub(crate) struct Draft {
    limits: Limits,
    shelf: Shelf,
    items: Vec<Item>,
    tally: Tally,
}

impl Model for Draft {
    ghost use Rattle.image_text.specs.Images.{ImageParts};
    ghost use Rattle.image_text.specs.Reading.{IsDraft};

    ghost Value = { ImageParts };

    ghost view = { λ a. record { limits = a.limits; files = a.shelf; items = a.items.items } };

    ghost invariant = { λ a. IsDraft (record { limits = a.limits; files = a.shelf; items = a.items.items }) a.tally };
}

impl Draft {
    /// Limits alone.
    pub(crate) fn new(alloc: Global, limits: Limits) -> Draft
        requires limits { AreLimits limits }
        requires levels { IsWithin 4 5 limits.levels }
        ensures { result ≡ record { limits = limits; files = []; items = [] } }
    {
        Draft {
            limits,
            shelf: Shelf::new(alloc),
            items: Vec::new(alloc),
            tally: Tally {
                live: 0,
                out: 0,
                tables: 1,
            },
        }
    }

    /// What was read.
    pub(crate) fn done(self) -> Image
        ensures { result ≡ self }
    {
        Image {
            limits: self.limits,
            shelf: self.shelf,
            items: self.items,
        }
    }

    /// Takes the line of a file, if it is one and may stand here.
    fn take_file(&mut self, alloc: Global, line: &[u8]) -> Result<bool, AllocError>
        ensures right { IsImage self.old }
        ensures taken { IfOk result (λ taken. OnTrue taken (IsNextFile self.old line.now self.new)) }
        ensures none { IfOk result (λ taken. OnFalse taken (NoFileHere self.old line.now)) }
        ensures stays { IfOk result (λ taken. OnFalse taken (self.new ≡ self.old)) }
    {
        if !self.items.is_empty() || usize::from(self.shelf.count()) == MAX_FILES {
            return Ok(false);
        }
        let Some(bytes) = file_of(alloc, line)? else {
            return Ok(false);
        };
        let Ok(()) = add_file(&mut self.shelf, bytes) else {
            return Err(AllocError);
        };
        Ok(true)
    }

    /// Whether an item stands in order behind those so far, has user pages, and could come from the files.
    fn is_placed(&self, item: &Item) -> bool
        ensures { IsTrue result ↔ IsPlaced self.now item.now }
    {
        are_user_pages(self.limits.levels, item.first(), item.count())
            && is_next(&self.items, item)
            && is_backed(&self.shelf, item)
    }

    /// Takes an item, if it may stand behind those so far.
    fn take(&mut self, item: Item) -> Result<bool, AllocError>
        requires { IsSpelled item }
        ensures taken { IfOk result (λ taken. OnTrue taken (IsNextItem self.old item self.new)) }
        ensures none { IfOk result (λ taken. OnFalse taken (¬ (MayFollow self.old.limits self.old.files self.old.items item))) }
        ensures stays { IfOk result (λ taken. OnFalse taken (self.new ≡ self.old)) }
    {
        if !self.is_placed(&item) {
            return Ok(false);
        }
        let limits = self.limits;
        let tally = self.tally.with(limits.levels, &self.items, &item);
        if !tally.fits(limits) {
            return Ok(false);
        }
        self.items.push(item)?;
        self.tally = tally;
        Ok(true)
    }

    /// Takes a line of a file, a run or a page, if it may stand here.
    pub(crate) fn take_line(&mut self, alloc: Global, line: &[u8]) -> Result<bool, AllocError>
        ensures taken { IfOk result (λ taken. OnTrue taken (IsAdded self.old line.now self.new)) }
        ensures none { IfOk result (λ taken. OnFalse taken (IsNoLine self.old line.now)) }
        ensures stays { IfOk result (λ taken. OnFalse taken (self.new ≡ self.old)) }
    {
        if self.take_file(alloc, line)? {
            return Ok(true);
        }
        let Some(item) = read_item(alloc, line)? else {
            return Ok(false);
        };
        self.take(item)
    }
}
