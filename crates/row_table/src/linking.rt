//! Set entry and unlink.
ghost use Rattle.std.specs.Prelude.{◌≡◌};
ghost use Rattle.row_table.specs.Passes.{view_of, kit_of, table_of, IsPassOf};
ghost use Rattle.row_table.specs.Links.{MaySetEntry, Sets, KeepsUnlinked, MayUnlink, Unlinks};

use crate::pass::Pass;
use crate::plan::{Content, Plan};
use crate::table::Iron;
use crate::view::PassView;
use atomic_table::Play;
use std::collections::LinkedList;

pub struct SetWord;

impl<R: Drop, B: Drop, E> Play<Option<Content<R, B>>, LinkedList<PassView<R, B, E>>> for SetWord {
    ghost use Rattle.row_table.specs.Links.{SetTells};

    ghost then = { SetTells };
}

pub struct Cut;

impl<R: Drop, B: Drop, E> Play<Option<Content<R, B>>, LinkedList<PassView<R, B, E>>> for Cut {
    ghost use Rattle.row_table.specs.Links.{CutTells};

    ghost then = { CutTells };
}

#[tactic(auto, unfolding(crate::specs::Passes::model_of, crate::specs::Passes::iron_model))]
impl<P: Plan> Pass<P> {
    /// Writes an entry of a row that the pass holds. A row that the word links is in the tree from then on.
    pub fn set_entry(&mut self, iron: &Iron<P>, row: u32, index: u32, word: u64)
        requires table { IsPassOf iron.now self.old }
        requires guard { MaySetEntry (view_of self.old) row index word }
        ensures table { table_of self.new ≡ table_of self.old }
        ensures same { kit_of self.new ≡ kit_of self.old }
        ensures sets { Sets row index word (view_of self.old) (view_of self.new) }
        ensures others { KeepsUnlinked word (view_of self.old) (view_of self.new) }
    {
        let place = iron.layout.entry(row, index) as usize;
        iron.table
            .shared
            .store::<SetWord>(&mut self.seat, place, word);
    }

    /// Takes a row without entries out of the tree: the entry that links it is 0 from then on.
    pub fn unlink(&mut self, iron: &Iron<P>, row: u32, index: u32)
        requires table { IsPassOf iron.now self.old }
        requires guard { MayUnlink (view_of self.old) row index }
        ensures table { table_of self.new ≡ table_of self.old }
        ensures same { kit_of self.new ≡ kit_of self.old }
        ensures unlinks { Unlinks row index (view_of self.old) (view_of self.new) }
    {
        let place = iron.layout.entry(row, index) as usize;
        iron.table.shared.store::<Cut>(&mut self.seat, place, 0);
    }
}
