//! Set up and open row.
ghost use Rattle.std.specs.Prelude.{◌≡◌, ◌<◌, ◌^◌};
ghost use Rattle.walk_core.specs.Words as words;
ghost use Rattle.row_table.specs.Passes.{view_of, kit_of, table_of, IsPassOf};
ghost use Rattle.row_table.specs.Openings.{MaySetUp, MayOpen, KeepsOpen, Opens, prepared};

use crate::pass::Pass;
use crate::plan::{Content, Plan};
use crate::table::{Iron, Slot, Views};
use crate::view::PassView;
use atomic_table::Play;
use std::collections::LinkedList;
use std::marker::PhantomData;
use table_place::Place;

pub struct SetPlace;

impl<R: Drop, B: Drop, E> Play<Option<Content<R, B>>, LinkedList<PassView<R, B, E>>> for SetPlace {
    ghost use Rattle.row_table.specs.Openings.{PlaceTells};

    ghost then = { PlaceTells };
}

pub struct SetNumber;

impl<R: Drop, B: Drop, E> Play<Option<Content<R, B>>, LinkedList<PassView<R, B, E>>> for SetNumber {
    ghost use Rattle.row_table.specs.Openings.{NumberTells};

    ghost then = { NumberTells };
}

pub struct Open<P> {
    marker: PhantomData<P>,
}

impl<P: Plan> Play<Slot<P>, Views<P>> for Open<P> {
    ghost use Rattle.row_table.specs.Openings.{OpenTells};

    ghost then = { OpenTells P.meaning };
}

// The position word of a place.
#[tactic(auto, unfolding(walk_core::specs::Words::position_word))]
fn position_word(place: Place) -> u64
    requires { (place.space < 64) × (place.level < 8) × (place.prefix < 2 ^ 45) }
    ensures { result ≡ words.position_word place }
{
    u64::from(place.level) + u64::from(place.space) * 8 + place.prefix * 512
}

#[tactic(auto, unfolding(crate::specs::Passes::model_of, crate::specs::Passes::iron_model))]
impl<P: Plan> Pass<P> {
    /// Writes the position and the generation of a row that the pass was granted. The row can be opened then.
    pub fn set_up(&mut self, iron: &Iron<P>, row: u32, place: Place, generation: u64)
        requires table { IsPassOf iron.now self.old }
        requires guard { MaySetUp (view_of self.old) row place generation }
        ensures table { table_of self.new ≡ table_of self.old }
        ensures same { kit_of self.new ≡ kit_of self.old }
        ensures sets_up { view_of self.new ≡ prepared (view_of self.old) row place generation }
        ensures may_open { MayOpen (view_of self.new) row }
        ensures others { KeepsOpen row (view_of self.old) (view_of self.new) }
    {
        let place_word = iron.layout.position(row) as usize;
        let spelled = position_word(place);
        iron.table
            .shared
            .store::<SetPlace>(&mut self.seat, place_word, spelled);
        let number_word = iron.layout.generation(row) as usize;
        iron.table
            .shared
            .store::<SetNumber>(&mut self.seat, number_word, generation);
    }

    /// Takes a row that the pass was granted and has set up. Its content is blank.
    pub fn open_row(&mut self, iron: &Iron<P>, row: u32) -> P::Row
        requires table { IsPassOf iron.now self.old }
        requires guard { MayOpen (view_of self.old) row }
        ensures table { table_of self.new ≡ table_of self.old }
        ensures same { kit_of self.new ≡ kit_of self.old }
        ensures opens { Opens P.meaning row (view_of self.old) result (view_of self.new) }
        ensures others { KeepsOpen row (view_of self.old) (view_of self.new) }
    {
        let word = iron.layout.lock(row) as usize;
        let mine = u64::from(self.number) + 1;
        iron.table
            .shared
            .store::<Open<P>>(&mut self.seat, word, mine);
        self.stack.push_front_reserved(row);
        iron.take_row(&mut self.seat, row)
    }
}
