//! The look: a pass reads an entry, and a link leads it on.
ghost use Rattle.std.specs.Prelude.{◌≡◌, ◌<◌};
ghost use Rattle.row_table.specs.Passes.{view_of, kit_of, table_of, IsPassOf};
ghost use Rattle.row_table.specs.Looks.{MayLook, Looks};

use crate::pass::Pass;
use crate::plan::{Content, Plan};
use crate::table::Iron;
use crate::view::PassView;
use atomic_table::Play;
use std::collections::LinkedList;

pub struct Look;

impl<R: Drop, B: Drop, E> Play<Option<Content<R, B>>, LinkedList<PassView<R, B, E>>> for Look {
    ghost use Rattle.row_table.specs.Looks.{LookTells};

    ghost then = { LookTells };
}

#[tactic(auto, unfolding(crate::specs::Passes::model_of, crate::specs::Passes::iron_model))]
impl<P: Plan> Pass<P> {
    /// Reads an entry word of a row that the pass stands on or holds. A link of the row that it stands on leads it to the linked row,
    /// also where it holds the row.
    pub fn look(&mut self, iron: &Iron<P>, row: u32, index: u32) -> u64
        requires table { IsPassOf iron.now self.old }
        requires inside { index < 512 }
        requires guard { MayLook (view_of self.old) row }
        ensures table { table_of self.new ≡ table_of self.old }
        ensures same { kit_of self.new ≡ kit_of self.old }
        ensures looks { Looks row index (view_of self.old) result (view_of self.new) }
    {
        let word = iron.layout.entry(row, index) as usize;
        iron.table.shared.load::<Look>(&mut self.seat, word)
    }
}
