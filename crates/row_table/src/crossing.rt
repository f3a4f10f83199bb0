//! Enter and leave.
ghost use Rattle.std.specs.Prelude.{◌≡◌, ◌<◌, None, IsSome};
ghost use Rattle.row_table.specs.Passes.{view_of, kit_of, table_of, layout_of, IsPassOf};
ghost use Rattle.row_table.specs.Known.{IsRight};
ghost use Rattle.row_table.specs.Crossings.{Enters, left};

use crate::answers::Worn;
use crate::pass::Pass;
use crate::plan::{Content, Plan};
use crate::table::Iron;
use crate::view::PassView;
use atomic_table::Play;
use std::collections::LinkedList;

/// An epoch word that stands here counts no more.
const LAST: u64 = 1 << 62;

pub struct Enter;

impl<R: Drop, B: Drop, E> Play<Option<Content<R, B>>, LinkedList<PassView<R, B, E>>> for Enter {
    ghost use Rattle.row_table.specs.Crossings.{CrossTells, entered};

    ghost then = { λ _. CrossTells entered };
}

pub struct Leave;

impl<R: Drop, B: Drop, E> Play<Option<Content<R, B>>, LinkedList<PassView<R, B, E>>> for Leave {
    ghost use Rattle.row_table.specs.Crossings.{CrossTells, left};

    ghost then = { λ _. CrossTells left };
}

#[tactic(auto, unfolding(crate::specs::Passes::model_of, crate::specs::Passes::iron_model))]
impl<P: Plan> Pass<P> {
    /// Goes inside, by one step on the own epoch word: the pass stands on row 0. A worn word counts no more, and then no step is taken.
    pub fn enter(&mut self, iron: &Iron<P>) -> Result<(), Worn>
        requires table { IsPassOf iron.now self.old }
        requires outside { (view_of self.old).core.stand ≡ None }
        ensures table { table_of self.new ≡ table_of self.old }
        ensures same { kit_of self.new ≡ kit_of self.old }
        ensures layout { (view_of self.old).layout ≡ layout_of iron.now }
        ensures right { IsRight (view_of self.old) }
        ensures enters { Enters (view_of self.old) result (view_of self.new) }
    {
        if self.epoch == LAST {
            return Err(Worn);
        }
        let word = iron.layout.epoch(self.number) as usize;
        iron.table
            .shared
            .fetch_add::<Enter>(&mut self.seat, word, 1);
        self.epoch += 1;
        Ok(())
    }

    /// Goes outside: the pass stands on no row.
    pub fn leave(&mut self, iron: &Iron<P>)
        requires table { IsPassOf iron.now self.old }
        requires inside { IsSome (view_of self.old).core.stand }
        ensures table { table_of self.new ≡ table_of self.old }
        ensures same { kit_of self.new ≡ kit_of self.old }
        ensures leaves { view_of self.new ≡ left (view_of self.old) }
    {
        let word = iron.layout.epoch(self.number) as usize;
        iron.table
            .shared
            .fetch_add::<Leave>(&mut self.seat, word, 1);
        self.epoch += 1;
    }
}
