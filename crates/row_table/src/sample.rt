//! Sample.
ghost use Rattle.std.specs.Prelude.{◌≡◌, ◌<◌, None};
ghost use Rattle.row_table.specs.Passes.{view_of, kit_of, table_of, layout_of, IsPassOf};
ghost use Rattle.row_table.specs.Known.{HasPlaces};
ghost use Rattle.row_table.specs.Sampling.{Samples};

use crate::pass::Pass;
use crate::plan::Plan;
use crate::table::{Iron, Slot, Views};
use atomic_table::Play;
use std::marker::PhantomData;

pub struct Sample<P> {
    marker: PhantomData<P>,
}

impl<P: Plan> Play<Slot<P>, Views<P>> for Sample<P> {
    ghost use Rattle.row_table.specs.Sampling.{SampleTells};

    ghost then = { SampleTells P.meaning };
}

#[tactic(auto, unfolding(crate::specs::Passes::model_of, crate::specs::Passes::iron_model))]
impl<P: Plan> Pass<P> {
    /// Reads the epoch word of a pass, which may be this one. The number is odd while that pass is inside. It is kept as a sample
    /// of that pass: of this turn, and of each row that this pass unlinked and marked.
    pub fn sample(&mut self, iron: &Iron<P>, other: u8) -> u64
        requires table { IsPassOf iron.now self.old }
        requires outside { (view_of self.old).core.stand ≡ None }
        requires there { other < (layout_of iron.now).passes }
        ensures table { table_of self.new ≡ table_of self.old }
        ensures same { kit_of self.new ≡ kit_of self.old }
        ensures layout { (view_of self.old).layout ≡ layout_of iron.now }
        ensures places { HasPlaces (view_of self.old).core.samples (view_of self.old).core.unlinked }
        ensures samples { Samples P.meaning other (view_of self.old) result (view_of self.new) }
    {
        let word = iron.layout.epoch(other) as usize;
        iron.table.shared.load::<Sample<P>>(&mut self.seat, word)
    }
}
