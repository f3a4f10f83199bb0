//! The steps of a pass.
ghost use Rattle.std.specs.Prelude.{◌≡◌, ℕ, ◌+◌, ◌<◌, ◌≤◌, true, false, length, Some, None, IsSome};
ghost use Rattle.std.specs.VecDeque.{deque_capacity};
ghost use Rattle.row_table.specs.Rule.{view, IsOne, SameRows};
ghost use Rattle.row_table.specs.Known.{IsSized};
ghost use Rattle.row_table.specs.Moves.{MayGrab, NotInHand, Fits, released};
ghost use Rattle.row_table.specs.Openings.{KeepsOpen};
ghost use Rattle.row_table.specs.Stack.{outs, carried, AreRows};
ghost use Rattle.row_table.specs.Books.{Turns, Gives, IsGivable};
ghost use Rattle.row_table.specs.Calls.{Grabs};

use crate::answers::{Grabbed, Turned};
use crate::plan::{Content, Plan};
use crate::stack::bring;
use crate::table::{Iron, Slot, Views};
use crate::view::PassView;
use atomic_table::{Play, Seat};
use std::collections::{LinkedList, VecDeque};
use std::marker::PhantomData;

struct Grab;

impl<R: Drop, B: Drop, E> Play<Option<Content<R, B>>, LinkedList<PassView<R, B, E>>> for Grab {
    ghost use Rattle.row_table.specs.Moves.{GrabTells};

    ghost then = { GrabTells };
}

struct Release;

impl<R: Drop, B: Drop, E> Play<Option<Content<R, B>>, LinkedList<PassView<R, B, E>>> for Release {
    ghost use Rattle.row_table.specs.Moves.{ReleaseTells};

    ghost then = { ReleaseTells };
}

struct Turn<P> {
    marker: PhantomData<P>,
}

impl<P: Plan> Play<Slot<P>, Views<P>> for Turn<P> {
    ghost use Rattle.row_table.specs.Books.{TurnTells};

    ghost then = { TurnTells P.meaning };
}

struct Give<P> {
    marker: PhantomData<P>,
}

impl<P: Plan> Play<Slot<P>, Views<P>> for Give<P> {
    ghost use Rattle.row_table.specs.Books.{GiveTells};

    ghost then = { GiveTells P.meaning };
}

/// The right of one thread to take steps on the table, and what it carries.
#[derive(Drop)]
pub struct Pass<P: Plan> {
    pub(crate) seat: Seat<Slot<P>, Views<P>>,
    pub(crate) number: u8,
    // That of the own epoch word.
    pub(crate) epoch: u64,
    // How many rows the table has.
    pub(crate) rows: u32,
    // The slots that are out, the last taken first. The book's is behind those of all rows.
    pub(crate) stack: VecDeque<u32>,
    pub(crate) kit: Option<P::Kit>,
    ghost one: { IsOne number seat.me },
    ghost sized: { IsSized number rows epoch seat.table_id (view seat.me) },
    ghost stacked: { seat.me.1 ≡ outs stack.items },
    ghost carries: { SameRows stack.items (carried rows (view seat.me).core.held (view seat.me).core.has_book) },
    ghost held: { AreRows rows (view seat.me).core.held },
    ghost few: { number < 8 },
    ghost room: { rows + 1 ≤ deque_capacity stack },
}

#[tactic(auto, unfolding(crate::specs::Passes::model_of, crate::specs::Passes::iron_model))]
impl<P: Plan> Pass<P> {
    ghost use Rattle.row_table.specs.Passes.{view_of, kit_of, table_of, IsPassOf};

    /// Takes a row if nobody holds it.
    pub fn grab(&mut self, iron: &Iron<P>, row: u32) -> Grabbed<P::Row>
        requires table { IsPassOf iron.now self.old }
        requires guard { MayGrab (view_of self.old) row }
        ensures table { table_of self.new ≡ table_of self.old }
        ensures same { kit_of self.new ≡ kit_of self.old }
        ensures grabs { Grabs row (view_of self.old) result (view_of self.new) }
    {
        let word = iron.layout.lock(row) as usize;
        let mine = u64::from(self.number) + 1;
        let before = iron
            .table
            .shared
            .compare_exchange::<Grab>(&mut self.seat, word, 0, mine);
        if before == 0 {
            self.stack.push_front_reserved(row);
            return Grabbed::Got(iron.take_row(&mut self.seat, row));
        }
        if before == 256 {
            Grabbed::Stale
        } else {
            Grabbed::Held((before - 1) as u8)
        }
    }

    /// Gives a row back, with this content.
    pub fn release(&mut self, iron: &Iron<P>, row: u32, content: P::Row)
        requires table { IsPassOf iron.now self.old }
        requires linked { NotInHand (view_of self.old) row }
        requires fits { Fits P.meaning (view_of self.old) row content }
        ensures table { table_of self.new ≡ table_of self.old }
        ensures same { kit_of self.new ≡ kit_of self.old }
        ensures releases { view_of self.new ≡ released (view_of self.old) row }
        ensures others { KeepsOpen row (view_of self.old) (view_of self.new) }
    {
        bring(&mut self.seat, &mut self.stack, row);
        self.stack.pop_front();
        iron.put_row(&mut self.seat, row, content);
        let word = iron.layout.lock(row) as usize;
        iron.table.shared.store::<Release>(&mut self.seat, word, 0);
    }
}

#[tactic(auto, unfolding(crate::specs::Passes::model_of, crate::specs::Passes::iron_model))]
impl<P: Plan> Pass<P> {
    ghost use Rattle.row_table.specs.Passes.{view_of, kit_of, table_of, layout_of, origin_of, IsPassOf};

    /// Takes the book if no pass has it.
    pub fn turn(&mut self, iron: &Iron<P>) -> Turned<P::Book>
        requires table { IsPassOf iron.now self.old }
        requires free { (view_of self.old).core.has_book ≡ false }
        ensures table { table_of self.new ≡ table_of self.old }
        ensures same { kit_of self.new ≡ kit_of self.old }
        ensures layout { (view_of self.old).layout ≡ layout_of iron.now }
        ensures origin { (view_of self.old).origin ≡ origin_of iron.now }
        ensures turns { Turns P.meaning (layout_of iron.now).rows (view_of self.old) result (view_of self.new) }
    {
        let word = iron.layout.book() as usize;
        let mine = u64::from(self.number) + 1;
        let found = iron
            .table
            .shared
            .compare_exchange::<Turn<P>>(&mut self.seat, word, 0, mine);
        if found == 0 {
            self.stack.push_front_reserved(self.rows);
            return Turned::Got(iron.take_book(&mut self.seat));
        }
        Turned::Held((found - 1) as u8)
    }

    /// Gives the book back in this form.
    pub fn give(&mut self, iron: &Iron<P>, book: P::Book)
        requires table { IsPassOf iron.now self.old }
        requires has { (view_of self.old).core.has_book ≡ true }
        requires may { IsGivable P.meaning (layout_of iron.now) (view_of self.old) book }
        ensures table { table_of self.new ≡ table_of self.old }
        ensures same { kit_of self.new ≡ kit_of self.old }
        ensures gives { Gives P.meaning (view_of self.old) book (view_of self.new) }
    {
        bring(&mut self.seat, &mut self.stack, self.rows);
        self.stack.pop_front();
        iron.put_book(&mut self.seat, book);
        let word = iron.layout.book() as usize;
        iron.table.shared.store::<Give<P>>(&mut self.seat, word, 0);
    }
}

#[tactic(auto, unfolding(crate::specs::Passes::model_of, crate::specs::Passes::iron_model))]
impl<P: Plan> Pass<P> {
    ghost use Rattle.row_table.specs.Passes.{view_of, number_of, kit_of, table_of};
    ghost use Rattle.row_table.specs.Known.{AreWhole};

    /// The pass's place among those of its table.
    pub fn number(&self) -> u8
        ensures { result ≡ number_of self.now }
    {
        self.number
    }

    /// Each row that the pass holds has 512 entry words.
    pub fn has_whole_rows(&self)
        ensures { AreWhole (view_of self.now) }
    {}

    /// Takes the kit out.
    pub fn take_kit(&mut self) -> P::Kit
        requires { IsSome (kit_of self.old) }
        ensures kit { (kit_of self.old ≡ Some result) × (kit_of self.new ≡ None) }
        ensures same { (view_of self.new ≡ view_of self.old) × (table_of self.new ≡ table_of self.old) }
    {
        self.kit.take().unwrap()
    }

    /// Puts the kit back.
    pub fn put_kit(&mut self, kit: P::Kit)
        requires { kit_of self.old ≡ None }
        ensures kit { kit_of self.new ≡ Some kit }
        ensures same { (view_of self.new ≡ view_of self.old) × (table_of self.new ≡ table_of self.old) }
    {
        self.kit = Some(kit);
    }
}
