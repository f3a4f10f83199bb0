//! Mark stale.
ghost use Rattle.std.specs.Prelude.{◌≡◌, ◌<◌};
ghost use Rattle.walk_core.specs.Lists.{Has};
ghost use Rattle.walk_core.specs.Core.{unlinked_rows};
ghost use Rattle.row_table.specs.Passes.{view_of, kit_of, table_of, IsPassOf};
ghost use Rattle.row_table.specs.Moves.{released};

use crate::pass::Pass;
use crate::plan::{Content, Plan};
use crate::stack::bring;
use crate::table::Iron;
use crate::view::PassView;
use atomic_table::Play;
use std::collections::LinkedList;

pub struct Mark;

impl<R: Drop, B: Drop, E> Play<Option<Content<R, B>>, LinkedList<PassView<R, B, E>>> for Mark {
    ghost use Rattle.row_table.specs.Moves.{ReleaseTells};

    ghost then = { ReleaseTells };
}

#[tactic(auto, unfolding(crate::specs::Passes::model_of, crate::specs::Passes::iron_model))]
impl<P: Plan> Pass<P> {
    /// Lets a row go that the pass unlinked, with a blank content. Nobody may take it from then on.
    pub fn mark_stale(&mut self, iron: &Iron<P>, row: u32, content: P::Row)
        requires table { IsPassOf iron.now self.old }
        requires held { Has (view_of self.old).core.held row }
        requires unlinked { Has (unlinked_rows (view_of self.old).core) row }
        requires blank { P.meaning.is_blank content }
        ensures table { table_of self.new ≡ table_of self.old }
        ensures same { kit_of self.new ≡ kit_of self.old }
        ensures marks { view_of self.new ≡ released (view_of self.old) row }
    {
        bring(&mut self.seat, &mut self.stack, row);
        self.stack.pop_front();
        iron.put_row(&mut self.seat, row, content);
        let word = iron.layout.lock(row) as usize;
        iron.table.shared.store::<Mark>(&mut self.seat, word, 256);
    }
}
